//! Stories of an engine and a port that plays a script, line by line.

use crate::keeping::is_kept;
use crate::support::{Happens, Outcome, our_close, port, shows, took, took_on};
use amqp_engine::{IoLoop, MemoryPort, Port, Record, ScriptedPort};
use amqp_ring::Buffer;
use amqp_session::{Answer, Cmd, ConnectionProperties, DefaultAuthProvider, Event};
use amqp_types::NoMemory;
use amqp_uri::AMQPUri;
use std::alloc::Global;
use std::process::Abort;

/// How a run ends where the session ended Closed.
pub const CLOSED: &str = "closed";

/// How a run ends where the session goes on.
pub const GOES_ON: &str = "the given turns were all taken";

/// A line of a story: what is done with the engine and its port, or what is then seen of them.
#[derive(Clone, Copy)]
pub enum Line {
    /// Takes so many turns; how the run ends, as `CLOSED` or the text of the error.
    Run(u64, &'static str),
    /// Asks for a link, where one is wanted.
    Ask,
    /// Takes the port's next step, and applies it; how many bytes each write of the turn took. No more is
    /// noted of it.
    ApplyNext(&'static [u64]),
    /// Refuses memory before a turn of this moment.
    Starve(u64),
    /// Closes the connection; the promise.
    Close(u64),
    /// Keeps events from then on. It makes no promise.
    Listen,

    /// The session asked for a link.
    IsAsked,
    /// It did not.
    IsNotAsked,
    /// How many links there were.
    Links(usize),
    /// The one link took these frames, each a text in hexadecimal.
    Took(&'static [&'static str]),
    /// The link of this place, from 0 on, took these frames.
    TookOn(usize, &'static [&'static str]),
    /// The answer to a promise. It is taken.
    Answers(u64, Answer),
    /// The error that is the answer to a promise, as its text. It is taken.
    Refuses(u64, &'static str),
    /// There is no answer to a promise, or none that was not taken.
    IsUnanswered(u64),
    /// The first event that was not taken is that the connection is open. It is taken.
    TellsConnected,
    /// It is this error, as its text. It is taken.
    TellsError(&'static str),
    /// There is no event that was not taken.
    TellsNothing,
    /// The payloads handed out of the channel that a promise opened. They are taken.
    HandsOut(u64, &'static [&'static [u8]]),
    /// Each buffer has room for so many bytes; so many are received and not read, and so many are not
    /// taken.
    Keeps(usize, usize, usize),
    /// No memory was refused.
    IsNotStarved,
    /// What the engine is kept as, and a copy of that, stand as it does.
    IsKept,
    /// It was refused when so many parts of a turn were done.
    IsStarvedAfter(u64),
}

/// Tells a story of a new engine over a port that plays a script. Where it fails, it prints the number
/// of the first line that does not hold.
pub fn tell<A: Abort>(rt: &A, alloc: Global, script: &[Happens], lines: &[Line]) -> Outcome<()> {
    assert_eq!(rt; wrong_line(alloc, script, lines)?, None);
    Ok(())
}

/// The same of an engine that recovers, twice and without a delay.
pub fn tell_recovering<A: Abort>(
    rt: &A,
    alloc: Global,
    script: &[Happens],
    lines: &[Line],
) -> Outcome<()> {
    let mut port = port(alloc, script)?;
    let wrong = wrong_line_recovering(alloc, &mut port, lines);
    drop(port);
    assert_eq!(rt; wrong?, None);
    Ok(())
}

fn wrong_line_recovering(
    alloc: Global,
    port: &mut MemoryPort,
    lines: &[Line],
) -> Outcome<Option<u64>> {
    let mut driven = engine_by(alloc, recovering(alloc)?)?;
    let wrong = wrong_line_of(alloc, port, &mut driven, lines);
    drop(driven);
    wrong
}

/// The number of the first line that does not hold, where one does not.
pub fn wrong_line(alloc: Global, script: &[Happens], lines: &[Line]) -> Outcome<Option<u64>> {
    let mut port = port(alloc, script)?;
    let wrong = wrong_line_over(alloc, &mut port, lines);
    drop(port);
    wrong
}

/// An engine, with who authenticates its client.
#[derive(Drop)]
pub struct Driven {
    pub engine: IoLoop,
    pub provider: DefaultAuthProvider,
}

/// A new engine for the broker of this machine, with the user of its address.
pub fn new_engine(alloc: Global) -> Outcome<Driven> {
    engine_by(alloc, ConnectionProperties::new(alloc)?)
}

// Properties of an engine that recovers, twice and without a delay.
fn recovering(alloc: Global) -> Result<ConnectionProperties, NoMemory> {
    let delays = Vec::from_slice(alloc, &[0, 0])?;
    match ConnectionProperties::new(alloc) {
        Ok(options) => options.with_backoff(delays).enable_auto_recover(alloc),
        Err(e) => {
            drop(delays);
            Err(e)
        }
    }
}

// A new engine of these properties.
fn engine_by(alloc: Global, options: ConnectionProperties) -> Outcome<Driven> {
    match AMQPUri::local(alloc) {
        Ok(uri) => {
            let made = engine_at(alloc, &uri, options);
            drop(uri);
            made
        }
        Err(e) => {
            drop(options);
            Err(e)?
        }
    }
}

fn engine_at(alloc: Global, uri: &AMQPUri, options: ConnectionProperties) -> Outcome<Driven> {
    let engine = IoLoop::new(alloc, uri, options)?;
    let provider = DefaultAuthProvider::new(alloc, uri)?;
    Ok(Driven { engine, provider })
}

/// The same of a new engine over this port.
pub fn wrong_line_over(
    alloc: Global,
    port: &mut MemoryPort,
    lines: &[Line],
) -> Outcome<Option<u64>> {
    let mut driven = new_engine(alloc)?;
    let wrong = wrong_line_of(alloc, port, &mut driven, lines);
    drop(driven);
    wrong
}

fn wrong_line_of(
    alloc: Global,
    port: &mut MemoryPort,
    driven: &mut Driven,
    lines: &[Line],
) -> Outcome<Option<u64>> {
    let mut number: u64 = 1;
    for line in lines {
        if !holds(alloc, port, driven, *line)? {
            return Ok(Some(number));
        }
        number = number.saturating_add(1);
    }
    Ok(None)
}

// Whether a line holds, after what it does.
fn holds(alloc: Global, port: &mut MemoryPort, driven: &mut Driven, line: Line) -> Outcome<bool> {
    match line {
        Line::Run(turns, end) => return runs(alloc, port, driven, turns, end),
        Line::Ask => driven.engine.ask(port),
        Line::ApplyNext(tooks) => return applies_next(alloc, port, driven, tooks),
        Line::Starve(at) => driven.engine.starve(at),
        Line::Close(promise) => return closes(alloc, &mut driven.engine, promise),
        Line::Listen => return listens(&mut driven.engine),
        _ => return gives(alloc, port, &mut driven.engine, line),
    }
    Ok(true)
}

// Whether what the engine gives, or what else is seen of it and its port, is this.
fn gives(alloc: Global, port: &MemoryPort, engine: &mut IoLoop, line: Line) -> Outcome<bool> {
    match line {
        Line::IsAsked => Ok(engine.session().is_asked()),
        Line::IsNotAsked => Ok(!engine.session().is_asked()),
        Line::Links(n) => Ok(port.links() == n),
        Line::Took(frames) => took(alloc, port, frames),
        Line::TookOn(place, frames) => took_on(alloc, port, place, frames),
        Line::Answers(number, answer) => Ok(answers(engine, number, answer)),
        Line::Refuses(number, text) => refuses(alloc, engine, number, text),
        Line::IsUnanswered(number) => Ok(is_unanswered(engine, number)),
        Line::TellsConnected => Ok(tells_connected(engine)),
        Line::TellsError(text) => tells_error(alloc, engine, text),
        Line::TellsNothing => Ok(tells_nothing(engine)),
        Line::HandsOut(opened, payloads) => hands_out(engine, opened, payloads),
        Line::Keeps(capacity, received, unsent) => Ok(
            has_kept(engine.received(), capacity, received)
                && has_kept(engine.unsent(), capacity, unsent),
        ),
        Line::IsNotStarved => Ok(engine.starved().is_none()),
        Line::IsKept => Ok(is_kept(engine)),
        Line::IsStarvedAfter(parts) => Ok(engine.starved() == Some(parts)),
        _ => Ok(false),
    }
}

// Whether a buffer with room for so many bytes keeps so many.
fn has_kept(buffer: &Buffer, capacity: usize, kept: usize) -> bool {
    buffer.available_data() == kept && buffer.available_space() == capacity.saturating_sub(kept)
}

// Whether a run ends so.
fn runs(
    alloc: Global,
    port: &mut MemoryPort,
    driven: &mut Driven,
    turns: u64,
    end: &str,
) -> Outcome<bool> {
    match driven.engine.run(port, &mut driven.provider, turns) {
        Ok(()) => Ok(end == CLOSED),
        Err(error) => shows(alloc, error, end),
    }
}

// Whether the writes of a turn by the port's next step took so many bytes.
fn applies_next(
    alloc: Global,
    port: &mut MemoryPort,
    driven: &mut Driven,
    tooks: &[u64],
) -> Outcome<bool> {
    let mut space = [0; 4096];
    let told = port.next(&mut space);
    let mut notes = Record::new(alloc);
    let applied = driven
        .engine
        .apply(told, &[], port, &mut driven.provider, &mut notes);
    let noted = match applied {
        Ok(()) => is_noted_alone(alloc, &notes, tooks),
        Err(error) => Err(error.into()),
    };
    drop(notes);
    noted
}

// Whether a record, and a copy of it, have noted that so many bytes were taken, and no more.
fn is_noted_alone(alloc: Global, notes: &Record, tooks: &[u64]) -> Outcome<bool> {
    let copy = notes.try_clone(alloc)?;
    let same = notes.tooks() == tooks && has_noted_alone(&copy, tooks);
    drop(copy);
    Ok(same)
}

fn has_noted_alone(notes: &Record, tooks: &[u64]) -> bool {
    notes.tooks() == tooks
        && !notes.failed()
        && notes.auths().is_empty()
        && notes.starved().is_none()
}

// Whether our close makes this promise.
fn closes(alloc: Global, engine: &mut IoLoop, promise: u64) -> Outcome<bool> {
    let close = our_close(alloc)?;
    Ok(engine.command(close)? == Some(promise))
}

// Whether the engine listens, for no promise.
fn listens(engine: &mut IoLoop) -> Outcome<bool> {
    Ok(engine.command(Cmd::Listen)?.is_none())
}

fn is_unanswered(engine: &mut IoLoop, number: u64) -> bool {
    let answer = engine.answer(number);
    let none = answer.is_none();
    drop(answer);
    none
}

fn answers(engine: &mut IoLoop, number: u64, wanted: Answer) -> bool {
    let answer = engine.answer(number);
    let same = match &answer {
        Some(Ok(answer)) => *answer == wanted,
        _ => false,
    };
    drop(answer);
    same
}

fn refuses(alloc: Global, engine: &mut IoLoop, number: u64, text: &str) -> Outcome<bool> {
    match engine.answer(number) {
        Some(Err(error)) => shows(alloc, error, text),
        _ => Ok(false),
    }
}

fn tells_connected(engine: &mut IoLoop) -> bool {
    let event = engine.event();
    let same = matches!(&event, Some(Event::Connected));
    drop(event);
    same
}

fn tells_error(alloc: Global, engine: &mut IoLoop, text: &str) -> Outcome<bool> {
    match engine.event() {
        Some(Event::Error(error)) => shows(alloc, error, text),
        other => {
            drop(other);
            Ok(false)
        }
    }
}

fn tells_nothing(engine: &mut IoLoop) -> bool {
    let event = engine.event();
    let none = event.is_none();
    drop(event);
    none
}

fn hands_out(engine: &mut IoLoop, opened: u64, wanted: &[&'static [u8]]) -> Outcome<bool> {
    let frames = engine.take_frames(opened)?;
    if frames.len() != wanted.len() {
        return Ok(false);
    }
    for (frame, payload) in frames.iter().zip(wanted) {
        if frame.bytes.as_bytes() != *payload {
            return Ok(false);
        }
    }
    Ok(true)
}
