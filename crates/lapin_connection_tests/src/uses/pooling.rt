//! Messages on the channels of a pool: one whose channel the server closes, and one that is sent.

ghost use Rattle.std.specs.Prelude.{◌≤◌};
ghost use Rattle.amqp_pool.specs.Pooled.{AreMade};

use super::{CHANNEL_OPEN_OK_1, OPEN_OK, START, TUNE, push, push_piece};
use amqp_engine::{GivenStep, MemoryPort, Port, Step};
use amqp_hub::{Hub, Pass};
use amqp_pool::Pool;
use amqp_session::DefaultAuthProvider;
use amqp_types::ShortString;
use amqp_uri::AMQPUri;
use amqp_uses::{Begun, Finished, Sending, begin_message, finish_message, new_hub};
use amqp_vectors::octets;
use std::alloc::Global;
use std::test::Fail;

type Outcome = std::result::Result<(), Fail>;

const CHANNEL_CLOSE_404_1: &[u8] = b"\x01\x00\x01\x00\x00\x00\x14\x00\x14\x00\x28\x01\x94\
    \x09NOT_FOUND\x00\x00\x00\x00\xce";

const CHANNEL_OPEN_OK_2: &[u8] =
    b"\x01\x00\x02\x00\x00\x00\x08\x00\x14\x00\x0b\x00\x00\x00\x00\xce";

// A port whose server closes the first channel, and opens a second one.
fn server_that_closes(alloc: Global) -> std::result::Result<MemoryPort, Fail> {
    let mut steps = Vec::new(alloc);
    push(&mut steps, GivenStep::Link(None))?;
    push_piece(alloc, &mut steps, START)?;
    push_piece(alloc, &mut steps, TUNE)?;
    push_piece(alloc, &mut steps, OPEN_OK)?;
    push_piece(alloc, &mut steps, CHANNEL_OPEN_OK_1)?;
    push_piece(alloc, &mut steps, CHANNEL_CLOSE_404_1)?;
    push_piece(alloc, &mut steps, CHANNEL_OPEN_OK_2)?;
    push_piece(alloc, &mut steps, octets::HEARTBEAT)?;
    Ok(MemoryPort::new(alloc, steps)?)
}

// How many octets a step has.
fn piece_len(step: &Step) -> usize {
    match step {
        Step::Piece(n) => *n,
        _ => 0,
    }
}

// One turn. Whether it was taken.
fn turn(hub: &mut Hub, port: &mut MemoryPort, provider: &mut DefaultAuthProvider) -> bool
    ensures { hub.old.engine.talk.made ≤ hub.new.engine.talk.made }
{
    let mut space = [0; 4096];
    let told = port.next(&mut space);
    let n = piece_len(&told.step).min(4096);
    match hub.apply(told, &space[..n], port, provider) {
        Ok(()) => true,
        Err(error) => {
            drop(error);
            false
        }
    }
}

// What beginning a message comes to: its promise, where it is on its way.
fn begin(
    alloc: Global,
    pool: &mut Pool,
    hub: &mut Hub,
    pass: &mut Pass,
    queue: &ShortString,
) -> Option<Sending>
    requires made { AreMade pool.old hub.old.engine.talk }
    ensures made { AreMade pool.new hub.new.engine.talk }
{
    match begin_message(alloc, pool, hub, pass, queue, b"world") {
        Ok(Begun::Sending(sending)) => Some(sending),
        Ok(Begun::Later) => None,
        Err(error) => {
            drop(error);
            None
        }
    }
}

// Whether no channel is free.
fn waits(
    alloc: Global,
    pool: &mut Pool,
    hub: &mut Hub,
    pass: &mut Pass,
    queue: &ShortString,
) -> bool
    requires made { AreMade pool.old hub.old.engine.talk }
    ensures made { AreMade pool.new hub.new.engine.talk }
{
    match begin(alloc, pool, hub, pass, queue) {
        None => true,
        Some(sending) => {
            give_up(sending);
            false
        }
    }
}

// Lets a message go, of which nothing more is asked.
fn give_up(sending: Sending) {
    let Sending { lease, promise: _ } = sending;
    lease.give_up();
}

// What a message comes to, as it is looked at.
#[derive(Clone, Copy, PartialEq, Eq)]
enum Came {
    Sent,
    NotSent,
    Later,
}

fn finish(pool: &mut Pool, hub: &mut Hub, sending: Sending) -> Came
    requires made { AreMade pool.old hub.old.engine.talk }
    ensures made { AreMade pool.new hub.new.engine.talk }
{
    match finish_message(pool, hub, sending) {
        Finished::Sent => Came::Sent,
        Finished::NotSent(error) => {
            drop(error);
            Came::NotSent
        }
        Finished::Later(sending) => {
            give_up(sending);
            Came::Later
        }
        Finished::Foreign(lease) => {
            lease.give_up();
            Came::Later
        }
    }
}

// A hub over its port, and who answers what the server asks.
#[derive(Drop)]
struct Served {
    hub: Hub,
    port: MemoryPort,
    provider: DefaultAuthProvider,
}

// A channel is opened for the pool.
fn opens(served: &mut Served, pool: &mut Pool) -> bool
    requires made { AreMade pool.old served.old.hub.engine.talk }
    ensures made { AreMade pool.new served.new.hub.engine.talk }
{
    let turned = turn(&mut served.hub, &mut served.port, &mut served.provider);
    turned && pool.collect(&mut served.hub) == 1
}

// What a message comes to after one more turn.
fn sends(
    alloc: Global,
    served: &mut Served,
    pool: &mut Pool,
    pass: &mut Pass,
    queue: &ShortString,
) -> Option<Came>
    requires made { AreMade pool.old served.old.hub.engine.talk }
    ensures made { AreMade pool.new served.new.hub.engine.talk }
{
    match begin(alloc, pool, &mut served.hub, pass, queue) {
        None => None,
        Some(sending) => {
            let turned = turn(&mut served.hub, &mut served.port, &mut served.provider);
            let came = finish(pool, &mut served.hub, sending);
            if turned { Some(came) } else { None }
        }
    }
}

// The channel of the first message is closed before it is sent, and a second channel takes its place.
fn messages_in(
    alloc: Global,
    served: &mut Served,
    pool: &mut Pool,
    pass: &mut Pass,
    queue: &ShortString,
) -> bool
    requires made { AreMade pool.old served.old.hub.engine.talk }
    ensures made { AreMade pool.new served.new.hub.engine.talk }
{
    waits(alloc, pool, &mut served.hub, pass, queue)
        && opens(served, pool)
        && sends(alloc, served, pool, pass, queue) == Some(Came::NotSent)
        && pool.counts() == (0, 0, 0)
        && waits(alloc, pool, &mut served.hub, pass, queue)
        && opens(served, pool)
        && sends(alloc, served, pool, pass, queue) == Some(Came::Sent)
        && pool.counts() == (1, 0, 0)
}

// The same over a hub whose connection is opened first.
fn messages(alloc: Global, served: &mut Served, queue: &ShortString) -> bool {
    let mut opened = true;
    for _ in 0..4 {
        opened = turn(&mut served.hub, &mut served.port, &mut served.provider) && opened;
    }
    let mut pool = Pool::new(alloc, 1);
    let seen = match served.hub.passes(1) {
        Ok(mut passes) => {
            let seen = passes.len() == 1
                && messages_in(alloc, served, &mut pool, &mut passes[0], queue);
            drop(passes);
            seen
        }
        Err(error) => {
            drop(error);
            false
        }
    };
    drop(pool);
    opened && seen
}

// A hub over that port.
fn make_served(alloc: Global, uri: &AMQPUri) -> std::result::Result<Served, Fail> {
    let provider = DefaultAuthProvider::new(alloc, uri)?;
    let mut port = server_that_closes(alloc)?;
    let hub = new_hub(alloc, uri, &mut port)?;
    Ok(Served {
        hub,
        port,
        provider,
    })
}

#[test]
fn a_channel_of_a_pool_is_lost_in_between(rt: HostRuntime) -> Outcome {
    let alloc = rt.alloc();
    let uri = AMQPUri::local(alloc)?;
    let queue = ShortString::new(alloc, b"hello")?;
    let mut served = make_served(alloc, &uri)?;
    let seen = messages(alloc, &mut served, &queue);
    drop(served);
    drop(queue);
    drop(uri);
    assert!(rt; seen);
    Ok(())
}
