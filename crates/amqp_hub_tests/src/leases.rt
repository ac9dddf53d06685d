//! Channels that are leased, given back and lost.

ghost use Rattle.amqp_pool.specs.Pooled.{AreMade};

use crate::support::{Happens, Outcome, Over, hub_that_plays, turn};
use amqp_hub::{Hub, Pass};
use amqp_pool::{Back, Lease, Leased, Pool};
use amqp_session::{ChanRef, ChannelState, ErrorKind};
use amqp_vectors::{
    CHANNEL_CLOSE_404_1, CHANNEL_OPEN_OK_1, CHANNEL_OPEN_OK_2, OPEN_OK, START, TUNE_2,
};
use std::alloc::Global;

// ---- what calls answer; each takes what it is answered

// What a lease comes to, as it is looked at: the channel's number, the promise, or how many there are.
#[derive(Clone, Copy, PartialEq, Eq)]
enum Told {
    Now(u16, Option<u64>),
    Opening(u64),
    Full(u16),
    Foreign,
    NoMemory,
}

// What is told of an error. It takes it.
fn refusal(error: amqp_session::Error) -> Told {
    let foreign = matches!(error.kind(), ErrorKind::ForeignPass(..));
    drop(error);
    if foreign {
        Told::Foreign
    } else {
        Told::NoMemory
    }
}

// A lease, and the lease itself where a channel was handed out.
fn lease(pool: &mut Pool, hub: &mut Hub, pass: &mut Pass) -> (Told, Option<Lease>)
    requires made { AreMade pool.old hub.old.engine.talk }
    ensures made { AreMade pool.new hub.new.engine.talk }
{
    match pool.lease(hub, pass) {
        Ok(Leased::Now(lease)) => {
            let channel = lease.channel();
            (Told::Now(channel.id, channel.opened), Some(lease))
        }
        Ok(Leased::Opening(promise)) => (Told::Opening(promise), None),
        Ok(Leased::Full(count)) => (Told::Full(count), None),
        Err(error) => (refusal(error), None),
    }
}

// Whether a lease is told so, which hands out no channel.
fn answers(pool: &mut Pool, hub: &mut Hub, pass: &mut Pass, wanted: Told) -> bool
    requires made { AreMade pool.old hub.old.engine.talk }
    ensures made { AreMade pool.new hub.new.engine.talk }
{
    match lease(pool, hub, pass) {
        (told, None) => told == wanted,
        (_told, Some(lease)) => {
            lease.give_up();
            false
        }
    }
}

// What giving back comes to, as it is looked at.
#[derive(Clone, Copy, PartialEq, Eq)]
enum Came {
    Kept,
    Lost,
    Foreign,
    NotLeased,
}

// What giving a lease back comes to. A lease that is handed back is given up.
fn give_back(pool: &mut Pool, hub: &Hub, lease: Lease) -> Came
    requires made { AreMade pool.old hub.now.engine.talk }
    ensures made { AreMade pool.new hub.now.engine.talk }
{
    match pool.give_back(lease, hub) {
        Back::Kept => Came::Kept,
        Back::Lost => Came::Lost,
        Back::Foreign(lease) => {
            lease.give_up();
            Came::Foreign
        }
    }
}

// A channel is leased that has this number and this promise, and is given back.
fn lends(pool: &mut Pool, hub: &mut Hub, pass: &mut Pass, id: u16, opened: u64) -> Came
    requires made { AreMade pool.old hub.old.engine.talk }
    ensures made { AreMade pool.new hub.new.engine.talk }
{
    match lease(pool, hub, pass) {
        (told, Some(lease)) => {
            let wanted = Told::Now(id, Some(opened));
            let came = give_back(pool, hub, lease);
            if told == wanted {
                came
            } else {
                Came::NotLeased
            }
        }
        (_told, None) => Came::NotLeased,
    }
}

// ---- hubs that are open

const OPENED: &[Happens] = &[
    Happens::Link,
    Happens::Bytes(START),
    Happens::Bytes(TUNE_2),
    Happens::Bytes(OPEN_OK),
];

const ROWS: &[Happens] = &[
    Happens::Link,
    Happens::Bytes(START),
    Happens::Bytes(TUNE_2),
    Happens::Bytes(OPEN_OK),
    Happens::Bytes(CHANNEL_OPEN_OK_1),
    Happens::Bytes(CHANNEL_CLOSE_404_1),
    Happens::Bytes(CHANNEL_OPEN_OK_2),
];

const TWO: &[Happens] = &[
    Happens::Link,
    Happens::Bytes(START),
    Happens::Bytes(TUNE_2),
    Happens::Bytes(OPEN_OK),
    Happens::Bytes(CHANNEL_OPEN_OK_1),
    Happens::Bytes(CHANNEL_OPEN_OK_2),
    Happens::Bytes(CHANNEL_CLOSE_404_1),
    Happens::Fault,
];

// A hub over such a port, four steps on: its connection is open.
fn opened(alloc: Global, script: &[Happens]) -> Outcome<Over> {
    let mut over = hub_that_plays(alloc, script)?;
    for _ in 0..4 {
        turn(&mut over);
    }
    Ok(over)
}

// ---- the first row: a channel is opened, leased, given back and leased again

fn opens_and_lends(over: &mut Over, pool: &mut Pool, pass: &mut Pass) -> bool
    requires made { AreMade pool.old over.old.hub.engine.talk }
    ensures made { AreMade pool.new over.new.hub.engine.talk }
{
    let opens = answers(pool, &mut over.hub, pass, Told::Opening(1))
        && answers(pool, &mut over.hub, pass, Told::Full(1));
    let opening = pool.counts() == (0, 0, 1);
    let turned = turn(over);
    let collected = pool.collect(&mut over.hub) == 1 && pool.counts() == (1, 0, 0);
    opens && opening && turned && collected && lends(pool, &mut over.hub, pass, 1, 1) == Came::Kept
}

// ---- the second row, which goes on: the channel that is leased is lost

// The channel is leased again, and the server closes it. What giving it back comes to.
fn loses_it(over: &mut Over, pool: &mut Pool, pass: &mut Pass) -> Came
    requires made { AreMade pool.old over.old.hub.engine.talk }
    ensures made { AreMade pool.new over.new.hub.engine.talk }
{
    match lease(pool, &mut over.hub, pass) {
        (told, Some(lease)) => {
            let leased = told == Told::Now(1, Some(1)) && pool.counts() == (0, 1, 0);
            let turned = turn(over);
            let came = give_back(pool, &over.hub, lease);
            if leased && turned {
                came
            } else {
                Came::NotLeased
            }
        }
        (_told, None) => Came::NotLeased,
    }
}

// A lease of another pool on the same hub is handed back.
fn is_foreign(alloc: Global, over: &mut Over, pool: &mut Pool, pass: &mut Pass) -> bool
    requires { AreMade pool.old over.old.hub.engine.talk }
    ensures { AreMade pool.new over.new.hub.engine.talk }
{
    let turned = turn(over);
    let collected = pool.collect(&mut over.hub) == 1;
    match lease(pool, &mut over.hub, pass) {
        (told, Some(lease)) => {
            let leased = told == Told::Now(2, Some(2));
            let mut other = Pool::new(alloc, 1);
            let came = give_back(&mut other, &over.hub, lease);
            let unchanged = other.counts() == (0, 0, 0);
            drop(other);
            turned && collected && leased && came == Came::Foreign && unchanged
        }
        (_told, None) => false,
    }
}

// ---- the first row goes on: the channel is closed

// Whether this is Ok. It takes it.
fn succeeds(answer: amqp_session::Result<()>) -> bool {
    match answer {
        Ok(()) => true,
        Err(error) => {
            drop(error);
            false
        }
    }
}

// The idle channel is closed by one command, and forgotten; then there is none to close.
fn closes(over: &mut Over, pool: &mut Pool, pass: &mut Pass) -> bool
    requires made { AreMade pool.old over.old.hub.engine.talk }
    ensures made { AreMade pool.new over.new.hub.engine.talk }
{
    let made = pass.made();
    let closed = succeeds(pool.close(&mut over.hub, pass))
        && succeeds(pool.close(&mut over.hub, pass));
    let channel = ChanRef {
        id: 1,
        opened: Some(1),
    };
    let closing = over.hub.session().channel_state(channel) == ChannelState::Closing;
    closed && closing && pool.counts() == (0, 0, 0) && pass.made() == made.saturating_add(1)
}

fn rows_in(alloc: Global, over: &mut Over, pass: &mut Pass, goes_on: bool) -> bool {
    let mut pool = Pool::new(alloc, 1);
    let first = opens_and_lends(over, &mut pool, pass)
        && (goes_on || closes(over, &mut pool, pass));
    let second = !goes_on
        || (loses_it(over, &mut pool, pass) == Came::Lost
            && answers(&mut pool, &mut over.hub, pass, Told::Opening(2))
            && is_foreign(alloc, over, &mut pool, pass));
    drop(pool);
    first && second
}

// What is seen of a hub over such a port with one pass.
fn rows(alloc: Global, goes_on: bool) -> Outcome<bool> {
    let mut over = opened(alloc, ROWS)?;
    match over.hub.passes(1) {
        Ok(mut passes) => {
            let seen = passes.len() == 1 && rows_in(alloc, &mut over, &mut passes[0], goes_on);
            drop(passes);
            drop(over);
            Ok(seen)
        }
        Err(error) => {
            drop(over);
            drop(error);
            Ok(false)
        }
    }
}

#[test]
fn a_channel_is_opened_leased_and_given_back(rt: HostRuntime) -> Outcome<()> {
    assert!(rt; rows(rt.alloc(), false)?);
    Ok(())
}

#[test]
fn a_lost_channel_is_forgotten(rt: HostRuntime) -> Outcome<()> {
    assert!(rt; rows(rt.alloc(), true)?);
    Ok(())
}

// ---- two channels: the first idle one is leased, a lost one is forgotten, and the end of the session

// Two channels are opened, and the pool is full.
fn opens_two(over: &mut Over, pool: &mut Pool, pass: &mut Pass) -> bool
    requires made { AreMade pool.old over.old.hub.engine.talk }
    ensures made { AreMade pool.new over.new.hub.engine.talk }
{
    let opens = answers(pool, &mut over.hub, pass, Told::Opening(1))
        && answers(pool, &mut over.hub, pass, Told::Opening(2))
        && answers(pool, &mut over.hub, pass, Told::Full(2));
    let first = turn(over) && pool.collect(&mut over.hub) == 1 && pool.counts() == (1, 0, 1);
    let none = pool.collect(&mut over.hub) == 0;
    let second = turn(over) && pool.collect(&mut over.hub) == 1 && pool.counts() == (2, 0, 0);
    opens && first && none && second
}

// They are leased in turn; then the first is closed by the server, and the second is leased alone.
fn leases_in_turn(over: &mut Over, pool: &mut Pool, pass: &mut Pass) -> bool
    requires made { AreMade pool.old over.old.hub.engine.talk }
    ensures made { AreMade pool.new over.new.hub.engine.talk }
{
    let in_turn = lends(pool, &mut over.hub, pass, 1, 1) == Came::Kept
        && lends(pool, &mut over.hub, pass, 2, 2) == Came::Kept
        && lends(pool, &mut over.hub, pass, 1, 1) == Came::Kept;
    let turned = turn(over);
    let second = lends(pool, &mut over.hub, pass, 2, 2) == Came::Kept;
    in_turn && turned && second && pool.counts() == (1, 0, 0)
}

// Once the session has ended, what is idle is lost, and what is opened fails.
fn ends(over: &mut Over, pool: &mut Pool, pass: &mut Pass) -> bool
    requires made { AreMade pool.old over.old.hub.engine.talk }
    ensures made { AreMade pool.new over.new.hub.engine.talk }
{
    let turned = turn(over);
    let opens = answers(pool, &mut over.hub, pass, Told::Opening(3));
    let opening = pool.counts() == (0, 0, 1);
    turned && opens && opening && pool.collect(&mut over.hub) == 1 && pool.counts() == (0, 0, 0)
}

// A pass of another hub is refused only where a channel is to be opened, and nothing changes.
fn refuses(over: &mut Over, pool: &mut Pool, foreign: &mut Pass) -> bool
    requires made { AreMade pool.old over.old.hub.engine.talk }
    ensures made { AreMade pool.new over.new.hub.engine.talk }
{
    answers(pool, &mut over.hub, foreign, Told::Foreign)
        && pool.counts() == (0, 0, 0)
        && over.hub.session().promises() == 1
}

fn two_in(alloc: Global, over: &mut Over, pass: &mut Pass, foreign: &mut Pass) -> bool {
    let mut pool = Pool::new(alloc, 2);
    let seen = refuses(over, &mut pool, foreign)
        && opens_two(over, &mut pool, pass)
        && lends(&mut pool, &mut over.hub, foreign, 1, 1) == Came::Kept
        && lends(&mut pool, &mut over.hub, foreign, 2, 2) == Came::Kept
        && leases_in_turn(over, &mut pool, pass)
        && ends(over, &mut pool, pass);
    drop(pool);
    seen
}

// The same with the second pass of this other hub.
fn two_beside(alloc: Global, over: &mut Over, pass: &mut Pass, other: &mut Over) -> bool {
    match other.hub.passes(2) {
        Ok(mut foreign) => {
            let seen = foreign.len() == 2 && two_in(alloc, over, pass, &mut foreign[1]);
            drop(foreign);
            seen
        }
        Err(error) => {
            drop(error);
            false
        }
    }
}

// The same with a pass of its own.
fn two_of(alloc: Global, over: &mut Over, other: &mut Over) -> bool {
    match over.hub.passes(1) {
        Ok(mut own) => {
            let seen = own.len() == 1 && two_beside(alloc, over, &mut own[0], other);
            drop(own);
            seen
        }
        Err(error) => {
            drop(error);
            false
        }
    }
}

// What is seen of a hub with a pass of its own and the second of another one.
fn two(alloc: Global) -> Outcome<bool> {
    let mut over = opened(alloc, TWO)?;
    match opened(alloc, OPENED) {
        Ok(mut other) => {
            let seen = two_of(alloc, &mut over, &mut other);
            drop(over);
            drop(other);
            Ok(seen)
        }
        Err(fail) => {
            drop(over);
            Err(fail)
        }
    }
}

#[test]
fn the_first_idle_channel_is_leased(rt: HostRuntime) -> Outcome<()> {
    assert!(rt; two(rt.alloc())?);
    Ok(())
}
