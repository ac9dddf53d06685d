//! What one caller asks for and waits for: openings, frames, events and recoveries.
//!
//! `opened` waits until the connection is open, and `await_opened` polls for it. `begin` asks for a channel;
//! `try N` looks for the Nth of them, counted from 0, `await N` polls for it, `forget N` lets it go. `begin_close`
//! closes the connection, and `wait_close` waits for that. `frames N`, `wait_frames N` and `await_frames N` take
//! the frames of a channel, wait for them and poll for them. `recover N` asks whether a channel goes on after a
//! reset, and `recover_refused N` after an error of who authenticates; `recovers N`, `wait_recovery N` and
//! `await_recovery N` look for the Nth answer, wait and poll for it. `listen` listens to events; `event` takes
//! one, `wait_event` waits for one, `await_event` polls for one; `poll_event` lets the server tell one once a
//! poll found none.

use crate::acts::short;
use crate::hand::{Done, Hand, Stage, numbered, numbers_of};
use amqp_session::{Error, ErrorKind, Event, Handed, IoFault, Result};
use amqp_types::{NoMemory, Text};
use futures::executor::block_on;
use futures::task::Poll;
use futures::test::MockTask;
use lapin_connection::{Channel, Connection, EventsListener, Pending, Recovery};
use std::alloc::{AllocError, AllocGlobal, Global};
use std::io;
use std::random::RandomSource;
use std::sync::Wait;
use std::time::Clock;

/// What was asked for and is waited for: openings of channels, closes of the connection, recoveries and
/// events.
#[derive(Drop)]
pub struct Desk {
    openings: Vec<Pending<Channel>>,
    closes: Vec<Pending<()>>,
    recoveries: Vec<Recovery>,
    listeners: Vec<EventsListener>,
}

type Is = std::result::Result<bool, AllocError>;

impl Desk {
    /// Nothing yet.
    pub fn new(alloc: Global) -> Desk {
        Desk {
            openings: Vec::new(alloc),
            closes: Vec::new(alloc),
            recoveries: Vec::new(alloc),
            listeners: Vec::new(alloc),
        }
    }
}

// What a future gave; only memory may have been refused meanwhile.
fn given<T: Drop>(
    given: io::Result<std::result::Result<T, NoMemory>>,
) -> std::result::Result<T, AllocError> {
    match given {
        Ok(Ok(value)) => Ok(value),
        Ok(Err(NoMemory)) => Err(AllocError),
        Err(error) => {
            drop(error);
            Err(AllocError)
        }
    }
}

// ---- the opening of the connection, and its end

fn opening(connection: &Connection) -> std::result::Result<Pending<()>, AllocError> {
    match connection.opened() {
        Ok(pending) => Ok(pending),
        Err(NoMemory) => Err(AllocError),
    }
}

fn waits_until_open<R: Wait>(rt: &R, connection: &Connection, hand: &mut Hand) -> Done {
    let pending = opening(connection)?;
    hand.say_answer(pending.wait(rt))
}

fn polls_until_open<R: Wait + RandomSource + AllocGlobal>(
    rt: &R,
    connection: &Connection,
    hand: &mut Hand,
) -> Done {
    let pending = opening(connection)?;
    let opened = given(block_on(rt, pending.answered(rt)));
    drop(pending);
    hand.say_answer(opened?)
}

// Closes the connection with 200 and `OK`.
fn begin_close<R: Wait>(rt: &R, stage: &Stage<'_>, hand: &mut Hand, desk: &mut Desk) -> Done {
    let text = short(hand.alloc, "OK")?;
    let asked = match (stage.connection, hand.passes.first_mut()) {
        (Some(connection), Some(pass)) => connection.close(rt, pass, 200, text),
        _ => {
            drop(text);
            Err(ErrorKind::OutOfTurns.into())
        }
    };
    match asked {
        Ok(pending) => {
            desk.closes.push(pending)?;
            Ok(())
        }
        Err(error) => hand.say_error(error),
    }
}

// Waits until the connection is closed.
fn wait_close<R: Wait>(rt: &R, hand: &mut Hand, desk: &mut Desk) -> Done {
    match desk.closes.pop() {
        Some(pending) => hand.say_answer(pending.wait(rt)),
        None => hand.say("NO CLOSE"),
    }
}

// ---- openings of channels

fn begin<R: Wait>(rt: &R, stage: &Stage<'_>, hand: &mut Hand, desk: &mut Desk) -> Done {
    let asked = match (stage.connection, hand.passes.first_mut()) {
        (Some(connection), Some(pass)) => connection.create_channel(rt, pass),
        _ => Err(ErrorKind::OutOfTurns.into()),
    };
    match asked {
        Ok(pending) => {
            desk.openings.push(pending)?;
            Ok(())
        }
        Err(error) => hand.say_error(error),
    }
}

// Says the number of a channel, and keeps it.
fn keep(hand: &mut Hand, opened: Result<Channel>) -> Done {
    match opened {
        Ok(channel) => {
            let id = channel.id();
            hand.channels.push(channel)?;
            let text = format!(in hand.alloc; "channel {id}")?;
            hand.say(text.as_str())
        }
        Err(error) => hand.say_error(error),
    }
}

fn try_opening<R: Wait>(rt: &R, hand: &mut Hand, desk: &Desk, at: usize) -> Done {
    let found = match desk.openings.get(at) {
        Some(pending) => pending.try_wait(rt),
        None => return hand.say("NO OPENING"),
    };
    match found {
        Some(opened) => keep(hand, opened),
        None => hand.say("nothing yet"),
    }
}

fn poll_opening<R: Wait + RandomSource + AllocGlobal>(
    rt: &R,
    hand: &mut Hand,
    desk: &Desk,
    at: usize,
) -> Done {
    let opened = match desk.openings.get(at) {
        Some(pending) => given(block_on(rt, pending.answered(rt))),
        None => return hand.say("NO OPENING"),
    };
    keep(hand, opened?)
}

fn forget(desk: &mut Desk, at: usize) {
    if at < desk.openings.len() {
        drop(desk.openings.remove(at));
    }
}

// ---- frames

// Says the payloads of frames that were handed out.
fn say_frames(hand: &mut Hand, frames: Result<Vec<Handed>>) -> Done {
    match frames {
        Ok(frames) => {
            let said = say_payloads(hand, &frames);
            drop(frames);
            said
        }
        Err(error) => hand.say_error(error),
    }
}

fn say_payloads(hand: &mut Hand, frames: &[Handed]) -> Done {
    hand.say("frames")?;
    for frame in frames {
        let digits = hex::encode(hand.alloc, frame.bytes.as_bytes())?;
        hand.said.push_str(" ")?;
        hand.said.push_str(digits.as_str())?;
    }
    Ok(())
}

fn take_frames<R: Wait>(rt: &R, hand: &mut Hand, id: u16) -> Done {
    let frames = match numbered(&hand.channels, id) {
        Some(channel) => channel.take_frames(rt),
        None => return hand.say("NO CHANNEL"),
    };
    say_frames(hand, frames)
}

fn wait_frames<R: Wait>(rt: &R, hand: &mut Hand, id: u16) -> Done {
    let frames = match numbered(&hand.channels, id) {
        Some(channel) => channel.wait_frames(rt),
        None => return hand.say("NO CHANNEL"),
    };
    say_frames(hand, frames)
}

fn poll_frames<R: Wait + RandomSource + AllocGlobal>(rt: &R, hand: &mut Hand, id: u16) -> Done {
    let frames = match numbered(&hand.channels, id) {
        Some(channel) => block_on(rt, channel.next_frames(rt)),
        None => return hand.say("NO CHANNEL"),
    };
    match frames {
        Ok(frames) => say_frames(hand, frames),
        Err(error) => {
            drop(error);
            Err(AllocError)
        }
    }
}

// ---- recoveries

// That the link was reset, or that who authenticates refused to.
fn error_of(alloc: Global, recoverable: bool) -> std::result::Result<Error, AllocError> {
    if recoverable {
        return Ok(ErrorKind::IOError(IoFault::Reset).into());
    }
    match Text::new(alloc, "no") {
        Ok(text) => Ok(ErrorKind::AuthProviderError(text).into()),
        Err(NoMemory) => Err(AllocError),
    }
}

fn recover(hand: &mut Hand, desk: &mut Desk, id: u16, recoverable: bool) -> Done {
    let error = error_of(hand.alloc, recoverable)?;
    let recovery = match numbered(&hand.channels, id) {
        Some(channel) => channel.wait_for_recovery(error),
        None => {
            drop(error);
            return hand.say("NO CHANNEL");
        }
    };
    match recovery {
        Ok(recovery) => {
            desk.recoveries.push(recovery)?;
            Ok(())
        }
        Err(error) => hand.say_error(error),
    }
}

fn try_recovery<R: Wait>(rt: &R, hand: &mut Hand, desk: &Desk, at: usize) -> Done {
    match desk.recoveries.get(at) {
        Some(recovery) => hand.say_found(recovery.try_wait(rt)),
        None => hand.say("NO RECOVERY"),
    }
}

fn wait_recovery<R: Wait>(rt: &R, hand: &mut Hand, desk: &mut Desk, at: usize) -> Done {
    if at >= desk.recoveries.len() {
        return hand.say("NO RECOVERY");
    }
    let recovery = desk.recoveries.remove(at);
    hand.say_answer(recovery.wait(rt))
}

fn poll_recovery<R: Wait + RandomSource + AllocGlobal>(
    rt: &R,
    hand: &mut Hand,
    desk: &Desk,
    at: usize,
) -> Done {
    let recovered = match desk.recoveries.get(at) {
        Some(recovery) => given(block_on(rt, recovery.recovered(rt))),
        None => return hand.say("NO RECOVERY"),
    };
    hand.say_answer(recovered?)
}

// ---- events

fn listen<R: Wait>(rt: &R, stage: &Stage<'_>, hand: &mut Hand, desk: &mut Desk) -> Done {
    let listener = match (stage.connection, hand.passes.first_mut()) {
        (Some(connection), Some(pass)) => connection.events_listener(rt, pass),
        _ => Err(ErrorKind::OutOfTurns.into()),
    };
    match listener {
        Ok(listener) => {
            let numbers = numbers_of(Some(listener.receipt()));
            let (pass, nth, _) = numbers;
            desk.listeners.push(listener)?;
            hand.receipts.push(numbers)?;
            let text = format!(in hand.alloc; "listens by command {nth} of pass {pass}")?;
            hand.say(text.as_str())
        }
        Err(error) => hand.say_error(error),
    }
}

// Says what an event tells. It takes the event.
fn say_event(hand: &mut Hand, event: Option<Event>) -> Done {
    match event {
        None => hand.say("no event"),
        Some(Event::ConnectionBlocked(reason)) => {
            let text = format!(in hand.alloc; "blocked {}", reason.as_str());
            drop(reason);
            hand.say(text?.as_str())
        }
        Some(Event::ConnectionUnblocked) => hand.say("unblocked"),
        Some(Event::Error(error)) => hand.say_error(error),
        Some(other) => {
            drop(other);
            hand.say("another event")
        }
    }
}

fn next_event<R: Wait>(rt: &R, hand: &mut Hand, desk: &Desk) -> Done {
    match desk.listeners.first() {
        Some(listener) => say_event(hand, listener.next(rt)),
        None => hand.say("NO LISTENER"),
    }
}

fn wait_event<R: Wait>(rt: &R, hand: &mut Hand, desk: &Desk) -> Done {
    match desk.listeners.first() {
        Some(listener) => say_event(hand, listener.wait(rt)),
        None => hand.say("NO LISTENER"),
    }
}

fn await_event<R: Wait + RandomSource + AllocGlobal>(rt: &R, hand: &mut Hand, desk: &Desk) -> Done {
    let event = match desk.listeners.first() {
        Some(listener) => given(block_on(rt, listener.next_event(rt))),
        None => return hand.say("NO LISTENER"),
    };
    say_event(hand, event?)
}

// The event of a poll by this task, or nothing where the task waits for one.
fn polled<R: Wait>(
    rt: &R,
    task: &MockTask,
    listener: &EventsListener,
) -> std::result::Result<Option<Option<Event>>, AllocError> {
    match task.enter(|cx| listener.poll(rt, cx)) {
        Poll::Ready(Ok(event)) => Ok(Some(event)),
        Poll::Ready(Err(NoMemory)) => Err(AllocError),
        Poll::Pending => Ok(None),
    }
}

// Polls by a task each time that it was woken, until there is an event or the task was not woken for long.
fn polls<R: Wait + Clock>(
    rt: &R,
    stage: &Stage<'_>,
    hand: &mut Hand,
    task: &MockTask,
    listener: &EventsListener,
) -> Done {
    for turn in 0..10_000u64 {
        if turn == 0 || task.is_woken() {
            if let Some(event) = polled(rt, task, listener)? {
                return say_event(hand, event);
            }
        }
        stage.gate.let_through(1);
        stage.gate.tick(rt, 1);
    }
    hand.say("NOT WOKEN")
}

// Polls for an event, which the server tells once one poll found none.
fn poll_event<R: Wait + Clock + RandomSource + AllocGlobal>(
    rt: &R,
    stage: &Stage<'_>,
    hand: &mut Hand,
    desk: &Desk,
) -> Done {
    let Some(listener) = desk.listeners.first() else {
        return hand.say("NO LISTENER");
    };
    match MockTask::new(rt) {
        Ok(task) => {
            let done = polls(rt, stage, hand, &task, listener);
            drop(task);
            done
        }
        Err(error) => {
            drop(error);
            Err(AllocError)
        }
    }
}

// ---- which act it is

fn at_connection<R: Wait + RandomSource + AllocGlobal>(
    rt: &R,
    stage: &Stage<'_>,
    hand: &mut Hand,
    desk: &mut Desk,
    word: &str,
) -> Is {
    let Some(connection) = stage.connection else {
        return Ok(false);
    };
    match word {
        "opened" => waits_until_open(rt, connection, hand)?,
        "await_opened" => polls_until_open(rt, connection, hand)?,
        "begin_close" => begin_close(rt, stage, hand, desk)?,
        "wait_close" => wait_close(rt, hand, desk)?,
        _ => return Ok(false),
    }
    Ok(true)
}

fn at_openings<R: Wait + RandomSource + AllocGlobal>(
    rt: &R,
    stage: &Stage<'_>,
    hand: &mut Hand,
    desk: &mut Desk,
    word: &str,
    number: u64,
) -> Is {
    match word {
        "begin" => begin(rt, stage, hand, desk)?,
        "try" => try_opening(rt, hand, desk, number as usize)?,
        "await" => poll_opening(rt, hand, desk, number as usize)?,
        "forget" => forget(desk, number as usize),
        "recover" => recover(hand, desk, (number % 65_536) as u16, true)?,
        "recover_refused" => recover(hand, desk, (number % 65_536) as u16, false)?,
        "recovers" => try_recovery(rt, hand, desk, number as usize)?,
        "wait_recovery" => wait_recovery(rt, hand, desk, number as usize)?,
        "await_recovery" => poll_recovery(rt, hand, desk, number as usize)?,
        _ => return Ok(false),
    }
    Ok(true)
}

fn at_frames<R: Wait + Clock + RandomSource + AllocGlobal>(
    rt: &R,
    stage: &Stage<'_>,
    hand: &mut Hand,
    desk: &mut Desk,
    word: &str,
    id: u16,
) -> Is {
    match word {
        "frames" => take_frames(rt, hand, id)?,
        "wait_frames" => wait_frames(rt, hand, id)?,
        "await_frames" => poll_frames(rt, hand, id)?,
        "listen" => listen(rt, stage, hand, desk)?,
        "event" => next_event(rt, hand, desk)?,
        "wait_event" => wait_event(rt, hand, desk)?,
        "await_event" => await_event(rt, hand, desk)?,
        "poll_event" => poll_event(rt, stage, hand, desk)?,
        _ => return Ok(false),
    }
    Ok(true)
}

/// Does an act of one who waits. Whether it is one.
pub fn act<R: Wait + Clock + RandomSource + AllocGlobal>(
    rt: &R,
    stage: &Stage<'_>,
    hand: &mut Hand,
    desk: &mut Desk,
    word: &str,
    number: u64,
) -> Is {
    if at_connection(rt, stage, hand, desk, word)? {
        return Ok(true);
    }
    if at_openings(rt, stage, hand, desk, word, number)? {
        return Ok(true);
    }
    at_frames(rt, stage, hand, desk, word, (number % 65_536) as u16)
}
