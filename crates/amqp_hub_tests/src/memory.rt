//! Want of memory: whatever is refused, the journal stands for the state. These tests are to be run with
//! each allocation failing in turn.

ghost use Rattle.std.specs.Prelude.{◌≡◌, ◌≤◌, None, false, length};
ghost use Rattle.amqp_engine.specs.Log.{IsPiece};
ghost use Rattle.amqp_engine.specs.Counts.{is_fault};

use crate::hub::{names, opens};
use amqp_engine::{IoLoop, KeptLoop, Port, Record, Step, Told, Wrote};
use amqp_hub::{Base, Entry, Hub, Pass, Turn};
use amqp_session::{
    Cmd, ConnectionProperties, DefaultAuthProvider, Error, ErrorKind, Result, Session,
};
use amqp_uri::AMQPUri;
use std::alloc::Global;
use std::test::Fail;

// What the server says: start, tune and open-ok of the connection, then open-ok of channel 1.
const START: &[u8] = b"\x01\x00\x00\x00\x00\x00\x25\x00\x0a\x00\x0a\x00\x09\x00\x00\x00\x00\
    \x00\x00\x00\x0ePLAIN AMQPLAIN\x00\x00\x00\x05en_US\xce";

const TUNE: &[u8] =
    b"\x01\x00\x00\x00\x00\x00\x0c\x00\x0a\x00\x1e\x07\xff\x00\x02\x00\x00\x00\x3c\xce";

const OPEN_OK: &[u8] = b"\x01\x00\x00\x00\x00\x00\x05\x00\x0a\x00\x29\x00\xce";

const CHANNEL_OPEN_OK: &[u8] = b"\x01\x00\x01\x00\x00\x00\x08\x00\x14\x00\x0b\x00\x00\x00\x00\xce";

// A port that gives a link and what the server says, and takes all octets. It takes no memory.
#[derive(Drop)]
struct Taking {
    given: u64,
}

// What the server says next; nothing once it said all.
fn said(given: u64) -> &'static [u8]
    ensures { length result.now ≤ 64 }
{
    match given {
        1 => START,
        2 => TUNE,
        3 => OPEN_OK,
        4 => CHANNEL_OPEN_OK,
        _ => b"",
    }
}

// A piece, or a tick where nothing is said.
fn give(given: u64, space: &mut [u8]) -> Step
    requires { 4096 ≤ length space.old }
    ensures piece { IsPiece result }
    ensures faultless { is_fault result ≡ false }
{
    let octets = said(given);
    if octets.is_empty() {
        return Step::Tick;
    }
    space[..octets.len()].copy_from_slice(octets);
    Step::Piece(octets.len())
}

impl Port for Taking {
    ghost log = { λ p. None };

    ghost faults = { λ p. 0 };

    ghost kept = { λ _. tt };

    fn connect(&mut self) {}

    fn next(&mut self, space: &mut [u8]) -> Told {
        let step = if self.given == 0 {
            Step::Linked
        } else {
            give(self.given, space)
        };
        self.given = self.given.saturating_add(1);
        Told { at: 0, step }
    }

    fn write(&mut self, first: &[u8], second: &[u8]) -> Wrote {
        Wrote::Took(first.len() + second.len())
    }
}

fn new_engine(alloc: Global, uri: &AMQPUri) -> Result<IoLoop> {
    let options = ConnectionProperties::new(alloc)?;
    IoLoop::new(alloc, uri, options)
}

// ---- where a journal leads

// A new engine, with its port and who answers what the server asks.
#[derive(Drop)]
struct Led {
    engine: IoLoop,
    port: Taking,
    provider: DefaultAuthProvider,
}

fn begun(alloc: Global) -> Result<Led> {
    let uri = AMQPUri::local(alloc)?;
    let provider = DefaultAuthProvider::new(alloc, &uri)?;
    match new_engine(alloc, &uri) {
        Ok(engine) => Ok(Led {
            engine,
            port: Taking { given: 0 },
            provider,
        }),
        Err(error) => {
            drop(provider);
            Err(error)
        }
    }
}

// What an engine that goes another way than its journal is answered with.
fn ended_with(same: bool) -> Result<()> {
    if same {
        Ok(())
    } else {
        Err(ErrorKind::OutOfTurns.into())
    }
}

// A whole turn. What the port takes is what was noted of it.
fn take_turn(alloc: Global, led: &mut Led, turn: &Turn) -> Result<()> {
    let step = turn.step.try_clone(alloc)?;
    let told = Told { at: turn.at, step };
    let mut notes = Record::new(alloc);
    let bytes = turn.bytes.as_bytes();
    let applied = led
        .engine
        .apply(told, bytes, &mut led.port, &mut led.provider, &mut notes);
    let same = applied.is_ok() && notes.tooks() == turn.notes.tooks();
    drop(applied);
    drop(notes);
    led.engine.ask(&mut led.port);
    ended_with(same)
}

// A command, which makes the promise that was noted.
fn take_command(alloc: Global, led: &mut Led, cmd: &Cmd, promise: Option<u64>) -> Result<()> {
    let copy = cmd.try_clone(alloc)?;
    let told = led.engine.command(copy);
    let same = matches!(&told, Ok(number) if *number == promise);
    drop(told);
    ended_with(same)
}

// One entry. A turn that was cut is none but its end.
fn take_entry(alloc: Global, led: &mut Led, entry: &Entry) -> Result<()> {
    match entry {
        Entry::Turn(turn) if turn.notes.starved().is_some() => {
            led.engine.starve(turn.at);
            Ok(())
        }
        Entry::Turn(turn) => take_turn(alloc, led, turn),
        Entry::Called(_, _, cmd, promise) => take_command(alloc, led, cmd, *promise),
        Entry::Own(_) => ended_with(false),
    }
}

fn take_entries(alloc: Global, led: &mut Led, journal: &[Entry]) -> Result<()> {
    led.engine.ask(&mut led.port);
    for entry in journal {
        take_entry(alloc, led, entry)?;
    }
    Ok(())
}

// ---- what stands alike

// Whether two sessions stand alike, as far as is seen of them without taking anything.
fn are_alike(first: &Session, second: &Session) -> bool {
    first.state() == second.state()
        && first.listed() == second.listed()
        && first.promises() == second.promises()
        && first.waiting() == second.waiting()
        && first.unsent() == second.unsent()
        && first.has_ended() == second.has_ended()
}

// Whether two engines stand alike.
fn stand_alike(first: &KeptLoop, second: &KeptLoop) -> bool {
    are_alike(first.session(), second.session())
        && first.unread() == second.unread()
        && first.place() == second.place()
        && first.unsent() == second.unsent()
        && first.starved() == second.starved()
}

// After how many parts the last turn was cut, where it was.
fn cut_after(journal: &[Entry]) -> Option<u64> {
    match journal.last() {
        Some(Entry::Turn(turn)) => turn.notes.starved(),
        _ => None,
    }
}

// Whether an engine stands where a journal led another one. Of a turn that was cut after some parts no more
// is done again than its end.
fn stands_where(journal: &[Entry], kept: &KeptLoop, led: &KeptLoop) -> bool {
    match cut_after(journal) {
        None | Some(0) => stand_alike(kept, led),
        Some(parts) => {
            kept.starved() == Some(parts)
                && kept.session().has_ended()
                && kept.session().promises() == led.session().promises()
        }
    }
}

// Whether a journal leads from the beginning to where an engine stands.
fn leads(alloc: Global, journal: &[Entry], kept: &KeptLoop) -> Result<bool> {
    let mut led = begun(alloc)?;
    let told = leads_by(alloc, &mut led, journal, kept);
    drop(led);
    told
}

fn leads_by(alloc: Global, led: &mut Led, journal: &[Entry], kept: &KeptLoop) -> Result<bool> {
    take_entries(alloc, led, journal)?;
    let stands = led.engine.snapshot()?;
    let same = stands_where(journal, kept, &stands);
    drop(stands);
    Ok(same)
}

// ---- what is asked for once more where memory is refused

// Whether the error is that memory was refused. It takes the error.
fn is_refusal(error: Error) -> bool {
    let refused = *error.kind() == ErrorKind::NoMemory;
    drop(error);
    refused
}

// The same, once more where memory was refused.
fn leads_then(alloc: Global, journal: &[Entry], kept: &KeptLoop) -> bool {
    match leads(alloc, journal, kept) {
        Ok(told) => told,
        Err(error) => {
            drop(error);
            matches!(leads(alloc, journal, kept), Ok(true))
        }
    }
}

fn passes_then(hub: &mut Hub) -> Result<Vec<Pass>> {
    match hub.passes(2) {
        Ok(passes) => Ok(passes),
        Err(error) => {
            drop(error);
            hub.passes(2)
        }
    }
}

// Whether a channel that is opened with this pass makes this promise, with a receipt of these numbers, at
// once or after a refusal.
fn opens_then(hub: &mut Hub, pass: &mut Pass, promise: u64, wanted: (u32, u64, u64)) -> bool {
    match hub.command(pass, Cmd::OpenChannel) {
        Ok((number, receipt)) => names(receipt, wanted) && number == Some(promise),
        Err(error) => is_refusal(error) && opens(hub, pass, promise, wanted),
    }
}

fn journal_then(hub: &Hub) -> Result<Vec<Entry>> {
    match hub.journal() {
        Ok(journal) => Ok(journal),
        Err(error) => {
            drop(error);
            hub.journal()
        }
    }
}

// The base once the journal begins anew.
fn settled(hub: &mut Hub) -> Result<Base> {
    hub.settle()?;
    hub.base()
}

fn settled_then(hub: &mut Hub) -> Result<Base> {
    match settled(hub) {
        Ok(base) => Ok(base),
        Err(error) => {
            drop(error);
            settled(hub)
        }
    }
}

// ---- hubs

// A hub over a port that opens a connection, and who answers what the server asks.
#[derive(Drop)]
struct Over {
    hub: Hub,
    port: Taking,
    provider: DefaultAuthProvider,
}

fn hub_over(alloc: Global, uri: &AMQPUri, port: &mut Taking) -> Result<Hub> {
    let options = ConnectionProperties::new(alloc)?;
    let engine = IoLoop::new(alloc, uri, options)?;
    Hub::new(alloc, engine, port)
}

fn new_over(alloc: Global) -> Result<Over> {
    let uri = AMQPUri::local(alloc)?;
    let provider = DefaultAuthProvider::new(alloc, &uri)?;
    let mut port = Taking { given: 0 };
    match hub_over(alloc, &uri, &mut port) {
        Ok(hub) => Ok(Over {
            hub,
            port,
            provider,
        }),
        Err(error) => {
            drop(provider);
            Err(error)
        }
    }
}

fn over_then(alloc: Global) -> Result<Over> {
    match new_over(alloc) {
        Ok(over) => Ok(over),
        Err(error) => {
            drop(error);
            new_over(alloc)
        }
    }
}

// How many bytes a step has.
fn piece_len(step: &Step) -> usize {
    match step {
        Step::Piece(n) => *n,
        _ => 0,
    }
}

// Whether a turn was taken in which no memory was refused. Where it was, the session has ended.
fn takes(over: &mut Over) -> bool {
    let mut space = [0; 4096];
    let told = over.port.next(&mut space);
    let n = piece_len(&told.step).min(4096);
    let taken = over
        .hub
        .apply(told, &space[..n], &mut over.port, &mut over.provider);
    let went = taken.is_ok();
    drop(taken);
    went
}

// Turn by turn, until memory is refused in one: how many there were.
fn turns_of(over: &mut Over, count: usize) -> usize {
    let mut taken = 0usize;
    for _ in 0..count {
        if over.hub.session().has_ended() {
            break;
        }
        takes(over);
        taken = taken.saturating_add(1);
    }
    taken
}

// ---- the rows

// Whether a hub has so many entries, and its journal stands for its state.
fn stands(alloc: Global, hub: &mut Hub, entries: usize) -> Result<bool> {
    let journal = journal_then(hub)?;
    let told = match settled_then(hub) {
        Ok(base) => {
            let told = journal.len() == entries && leads_then(alloc, &journal, base.state());
            drop(base);
            Ok(told)
        }
        Err(error) => Err(error),
    };
    drop(journal);
    told
}

// Channels are opened on pass 1, then 2, then 1.
fn three_openings(hub: &mut Hub) -> Result<bool> {
    let mut passes = passes_then(hub)?;
    let told = passes.len() == 2
        && opens_then(hub, &mut passes[0], 1, (1, 1, 4))
        && opens_then(hub, &mut passes[1], 2, (2, 1, 5))
        && opens_then(hub, &mut passes[0], 3, (1, 2, 6));
    drop(passes);
    Ok(told)
}

// A connection is opened, then three channels are, and the server opens the first.
fn commands_stand(alloc: Global, over: &mut Over) -> Result<bool> {
    let taken = turns_of(over, 4);
    if over.hub.session().has_ended() {
        return stands(alloc, &mut over.hub, taken);
    }
    let opened = three_openings(&mut over.hub)?;
    let went = takes(over);
    let ends = over.hub.session().has_ended() != went;
    Ok(taken == 4 && opened && ends && stands(alloc, &mut over.hub, 8)?)
}

#[test]
fn commands_stand_where_memory_was_refused(rt: HostRuntime) -> std::result::Result<(), Fail> {
    let mut over = over_then(rt.alloc())?;
    let told = commands_stand(rt.alloc(), &mut over);
    drop(over);
    assert!(rt; matches!(told, Ok(true)));
    Ok(())
}

#[test]
fn turns_stand_where_memory_was_refused(rt: HostRuntime) -> std::result::Result<(), Fail> {
    let mut over = over_then(rt.alloc())?;
    let taken = turns_of(&mut over, 4);
    let whole = taken == 4 || over.hub.session().has_ended();
    let told = stands(rt.alloc(), &mut over.hub, taken);
    drop(over);
    assert!(rt; whole && matches!(told, Ok(true)));
    Ok(())
}
