//! Commands of callers, and where they stand.

use crate::support::{Happens, Outcome, Over, hub_that_plays, turns};
use amqp_engine::{Step, Told};
use amqp_hub::{Base, Due, Entry, Hub, Owner, Pass, Receipt, Tally};
use amqp_session::{Cmd, ErrorKind};
use amqp_vectors::{CHANNEL_OPEN_OK_1, OPEN_OK, START, TUNE};
use std::alloc::Global;

const OPENED: &[Happens] = &[
    Happens::Link,
    Happens::Bytes(START),
    Happens::Bytes(TUNE),
    Happens::Bytes(OPEN_OK),
];

// A hub whose connection is open.
fn opened(alloc: Global) -> Outcome<Over> {
    let mut over = hub_that_plays(alloc, OPENED)?;
    match turns(&mut over, 4) {
        Ok(()) => Ok(over),
        Err(fail) => {
            drop(over);
            Err(fail)
        }
    }
}

/// Whether a receipt holds these numbers: of the pass, of the place, of the entry. It takes the receipt.
pub fn names(receipt: Receipt, wanted: (u32, u64, u64)) -> bool {
    let held = (receipt.pass(), receipt.nth(), receipt.entry());
    drop(receipt);
    held == wanted
}

/// Whether a channel that is opened with this pass makes this promise, with a receipt of these numbers.
pub fn opens(hub: &mut Hub, pass: &mut Pass, promise: u64, wanted: (u32, u64, u64)) -> bool {
    match hub.command(pass, Cmd::OpenChannel) {
        Ok((number, receipt)) => names(receipt, wanted) && number == Some(promise),
        Err(error) => {
            drop(error);
            false
        }
    }
}

// Whether the error is that the pass of this number, with no command made, is not of a hub with this count
// for it. It takes the error.
fn is_foreign(error: amqp_session::Error, number: u32, count: Option<u64>) -> bool {
    let foreign = *error.kind() == ErrorKind::ForeignPass(number, 0, count);
    drop(error);
    foreign
}

// Whether a channel that is opened with pass 3 of another hub is refused for that.
fn opening_is_foreign(hub: &mut Hub, pass: &mut Pass) -> bool {
    match hub.command(pass, Cmd::OpenChannel) {
        Ok((_number, receipt)) => {
            drop(receipt);
            false
        }
        Err(error) => is_foreign(error, 3, None),
    }
}

// Whether these counts are told. It takes the tally.
fn has_counts(tally: Tally, wanted: &[u64]) -> bool {
    let same = tally.counts() == wanted;
    drop(tally);
    same
}

// Whether so many commands were made with each of these passes.
fn tallies(hub: &Hub, passes: &[Pass], wanted: &[u64]) -> bool {
    match hub.tally(passes) {
        Ok(tally) => has_counts(tally, wanted),
        Err(error) => {
            drop(error);
            false
        }
    }
}

// Whether the tally of these passes is refused, since that of this number is not of the hub, which has this
// count for it.
fn tally_is_foreign(hub: &Hub, passes: &[Pass], number: u32, count: Option<u64>) -> bool {
    match hub.tally(passes) {
        Ok(tally) => {
            drop(tally);
            false
        }
        Err(error) => is_foreign(error, number, count),
    }
}

// Whether no frames were handed out of the channel that this promise opened.
fn hands_out_nothing(hub: &mut Hub, opened: u64) -> bool {
    match hub.take_frames(opened) {
        Ok(frames) => {
            let none = frames.is_empty();
            drop(frames);
            none
        }
        Err(error) => {
            drop(error);
            false
        }
    }
}

// Whether an entry is a turn.
fn is_turn(entry: &Entry) -> bool {
    matches!(entry, Entry::Turn(_))
}

// Whether an entry is the opening of a channel with this pass, at this place, with this promise.
fn is_opening(entry: &Entry, pass: u32, nth: u64, promise: u64) -> bool {
    matches!(entry, Entry::Called(p, n, Cmd::OpenChannel, Some(number))
        if *p == pass && *n == nth && *number == promise)
}

// Whether an entry is what stands at this place: so many turns come first, and then the openings of these
// passes, places and promises.
fn stands_at(entry: &Entry, at: usize, turns: usize, openings: &[(u32, u64, u64)]) -> bool {
    if at < turns {
        return is_turn(entry);
    }
    match openings.get(at - turns) {
        Some((pass, nth, promise)) => is_opening(entry, *pass, *nth, *promise),
        None => false,
    }
}

// Whether a journal has these entries and no other. It takes the journal.
fn is_journal(journal: Vec<Entry>, turns: usize, openings: &[(u32, u64, u64)]) -> bool {
    let mut same = journal.len() == turns.saturating_add(openings.len());
    for (at, entry) in journal.iter().enumerate() {
        same = same && stands_at(entry, at, turns, openings);
    }
    drop(journal);
    same
}

// Whether the journal of a hub has these entries.
fn has_journal(hub: &Hub, turns: usize, openings: &[(u32, u64, u64)]) -> bool {
    match hub.journal() {
        Ok(journal) => is_journal(journal, turns, openings),
        Err(error) => {
            drop(error);
            false
        }
    }
}

// ---- the first row: commands stand in the journal

// Channels are opened on pass 1, then 2, then 1.
fn three_openings(hub: &mut Hub, passes: &mut [Pass]) -> bool {
    passes.len() == 2
        && passes[0].number() == 1
        && passes[1].number() == 2
        && opens(hub, &mut passes[0], 1, (1, 1, 4))
        && opens(hub, &mut passes[1], 2, (2, 1, 5))
        && opens(hub, &mut passes[0], 3, (1, 2, 6))
}

// What is seen of the hub then.
fn after_three(hub: &mut Hub, passes: &[Pass]) -> bool {
    passes.len() == 2
        && tallies(hub, passes, &[2, 1])
        && passes[0].made() == 2
        && passes[1].made() == 1
        && hands_out_nothing(hub, 1)
        && has_journal(hub, 4, &[(1, 1, 1), (2, 1, 2), (1, 2, 3)])
}

// A pass of another hub, which has three, is of this one neither for a command nor for a tally.
fn the_third_is_foreign(alloc: Global, hub: &mut Hub) -> Outcome<bool> {
    let mut other = opened(alloc)?;
    match other.hub.passes(3) {
        Ok(mut passes) => {
            let foreign = passes.len() == 3
                && opening_is_foreign(hub, &mut passes[2])
                && passes[2].made() == 0
                && tally_is_foreign(hub, &passes[2..], 3, None)
                && tally_is_foreign(hub, &passes, 1, Some(2));
            drop(passes);
            drop(other);
            Ok(foreign)
        }
        Err(error) => {
            drop(other);
            drop(error);
            Ok(false)
        }
    }
}

fn commands_stand(alloc: Global, over: &mut Over, passes: &mut [Pass]) -> Outcome<bool> {
    let stand = three_openings(&mut over.hub, passes) && after_three(&mut over.hub, passes);
    let foreign = the_third_is_foreign(alloc, &mut over.hub)?;
    Ok(
        stand
            && foreign
            && tallies(&over.hub, passes, &[2, 1])
            && has_journal(&over.hub, 4, &[(1, 1, 1), (2, 1, 2), (1, 2, 3)]),
    )
}

// ---- the second row: the journal begins anew

// Whether a base has these numbers: so many entries before it, and so many commands of each pass. It takes
// the base.
fn is_base(base: Base, entries: u64, made: &[u64]) -> bool {
    let same = base.entries() == entries && base.made() == made;
    drop(base);
    same
}

// Whether the base of a hub has these numbers.
fn begins(hub: &Hub, entries: u64, made: &[u64]) -> bool {
    match hub.base() {
        Ok(base) => is_base(base, entries, made),
        Err(error) => {
            drop(error);
            false
        }
    }
}

// Whether so many entries are let go.
fn lets_go(hub: &mut Hub, wanted: u64) -> bool {
    match hub.settle() {
        Ok(count) => count == wanted,
        Err(error) => {
            drop(error);
            false
        }
    }
}

fn begins_anew(hub: &mut Hub, passes: &mut [Pass]) -> bool {
    passes.len() == 2
        && begins(hub, 0, &[])
        && lets_go(hub, 7)
        && has_journal(hub, 0, &[])
        && begins(hub, 7, &[2, 1])
        && opens(hub, &mut passes[1], 4, (2, 2, 7))
        && has_journal(hub, 0, &[(2, 2, 4)])
        && tallies(hub, passes, &[2, 2])
}

// The first row, and where it goes on, the second.
fn rows_in(alloc: Global, over: &mut Over, passes: &mut [Pass], goes_on: bool) -> Outcome<bool> {
    let stand = commands_stand(alloc, over, passes)?;
    Ok(stand && (!goes_on || begins_anew(&mut over.hub, passes)))
}

fn rows(alloc: Global, goes_on: bool) -> Outcome<bool> {
    let mut over = opened(alloc)?;
    match over.hub.passes(2) {
        Ok(mut passes) => {
            let told = rows_in(alloc, &mut over, &mut passes, goes_on);
            drop(passes);
            drop(over);
            told
        }
        Err(error) => {
            drop(over);
            drop(error);
            Ok(false)
        }
    }
}

#[test]
fn commands_stand_in_the_journal(rt: HostRuntime) -> Outcome<()> {
    assert!(rt; rows(rt.alloc(), false)?);
    Ok(())
}

#[test]
fn the_journal_begins_anew(rt: HostRuntime) -> Outcome<()> {
    assert!(rt; rows(rt.alloc(), true)?);
    Ok(())
}

// ---- what is let go

// Whether nothing is done about what this owned until later.
fn waits(hub: &Hub, owner: Owner) -> bool {
    let due = hub.due(owner);
    let waits = matches!(due, Due::Later);
    drop(due);
    waits
}

// Whether the connection is to be let go now.
fn drops_connection(hub: &Hub) -> bool {
    let due = hub.due(Owner::Connection);
    let drops = matches!(due, Due::Now(Cmd::DropConnection));
    drop(due);
    drops
}

// Whether the channel of this number, which this promise opened, is to be let go now.
fn drops_channel(hub: &Hub, id: u16, opened: u64) -> bool {
    let due = hub.due(Owner::Channel(opened));
    let drops = matches!(due, Due::Now(Cmd::DropChannel(channel))
        if channel.id == id && channel.opened == Some(opened));
    drop(due);
    drops
}

const CHANNEL_OPENED: &[Happens] = &[
    Happens::Link,
    Happens::Bytes(START),
    Happens::Bytes(TUNE),
    Happens::Bytes(OPEN_OK),
    Happens::Bytes(CHANNEL_OPEN_OK_1),
];

// Whether a connection and the first channel that is opened on it wait.
fn both_wait(hub: &Hub) -> bool {
    waits(hub, Owner::Connection) && waits(hub, Owner::Channel(1))
}

// Whether a channel that is opened with the first of these passes makes this promise, with a receipt of
// these numbers.
fn first_opens(hub: &mut Hub, passes: &mut [Pass], promise: u64, wanted: (u32, u64, u64)) -> bool {
    match passes.first_mut() {
        Some(pass) => opens(hub, pass, promise, wanted),
        None => false,
    }
}

// Whether a channel that is opened with a new pass, the first, makes promise 1 by entry 4.
fn opens_one(hub: &mut Hub) -> bool {
    match hub.passes(1) {
        Ok(mut passes) => {
            let told = first_opens(hub, &mut passes, 1, (1, 1, 4));
            drop(passes);
            told
        }
        Err(error) => {
            drop(error);
            false
        }
    }
}

// A connection is let go once it is open and has no channel, a channel once it is open.
fn go_in_order(over: &mut Over) -> Outcome<bool> {
    let early = both_wait(&over.hub);
    turns(over, 4)?;
    let open = drops_connection(&over.hub) && opens_one(&mut over.hub) && both_wait(&over.hub);
    turns(over, 1)?;
    let last = waits(&over.hub, Owner::Connection) && drops_channel(&over.hub, 1, 1);
    Ok(early && open && last)
}

fn lets_go_in_order(alloc: Global) -> Outcome<bool> {
    let mut over = hub_that_plays(alloc, CHANNEL_OPENED)?;
    let told = go_in_order(&mut over);
    drop(over);
    told
}

#[test]
fn what_is_let_go_waits_for_its_time(rt: HostRuntime) -> Outcome<()> {
    assert!(rt; lets_go_in_order(rt.alloc())?);
    Ok(())
}

// ---- after the end

// Whether a promise is answered with an error, once.
fn fails_once(hub: &mut Hub, number: u64) -> bool {
    let first = hub.poll(number);
    let failed = matches!(first, Some(Err(_)));
    drop(first);
    let second = hub.poll(number);
    let none = second.is_none();
    drop(second);
    failed && none
}

const LOST: &[Happens] = &[
    Happens::Link,
    Happens::Bytes(START),
    Happens::Bytes(TUNE),
    Happens::Bytes(OPEN_OK),
    Happens::Fault,
];

// Whether a hub has ended.
fn has_ended(hub: &Hub) -> bool {
    let ended = hub.ended();
    let is_over = ended.is_some();
    drop(ended);
    is_over
}

// What has ended takes commands, which are answered at once; no promise is pending then.
fn end_with(over: &mut Over, passes: &mut [Pass]) -> Outcome<bool> {
    let before = first_opens(&mut over.hub, passes, 1, (1, 1, 4));
    turns(over, 1)?;
    let hub = &mut over.hub;
    Ok(
        before
            && has_ended(hub)
            && lets_go(hub, 6)
            && first_opens(hub, passes, 2, (1, 2, 6))
            && fails_once(hub, 1)
            && fails_once(hub, 2),
    )
}

fn end_in(over: &mut Over) -> Outcome<bool> {
    turns(over, 4)?;
    match over.hub.passes(1) {
        Ok(mut passes) => {
            let told = end_with(over, &mut passes);
            drop(passes);
            told
        }
        Err(error) => {
            drop(error);
            Ok(false)
        }
    }
}

fn ends_without_pending(alloc: Global) -> Outcome<bool> {
    let mut over = hub_that_plays(alloc, LOST)?;
    let told = end_in(&mut over);
    drop(over);
    told
}

#[test]
fn no_promise_is_pending_after_the_end(rt: HostRuntime) -> Outcome<()> {
    assert!(rt; ends_without_pending(rt.alloc())?);
    Ok(())
}

// ---- memory that is refused

// Memory for the entry of a tick is refused.
fn starve(hub: &mut Hub) {
    hub.starve(Told {
        at: 0,
        step: Step::Tick,
    });
}

// A turn for whose entry memory was refused has one all the same, and ends the session; what has ended has
// no further one.
fn starves_once(alloc: Global) -> Outcome<bool> {
    let mut over = opened(alloc)?;
    let goes_on = !over.hub.session().has_ended();
    starve(&mut over.hub);
    let once = over.hub.session().has_ended() && has_journal(&over.hub, 5, &[]);
    starve(&mut over.hub);
    let no_more = has_journal(&over.hub, 5, &[]);
    drop(over);
    Ok(goes_on && once && no_more)
}

#[test]
fn a_starved_turn_stands_in_the_spare_place(rt: HostRuntime) -> Outcome<()> {
    assert!(rt; starves_once(rt.alloc())?);
    Ok(())
}
