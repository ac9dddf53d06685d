//! What is told to a session, and what it answers at once.

use crate::looks;
use crate::stories::Done;
use crate::words::{channel_of, fault_of, first_of, misread_of, number_of, octets_of};
use amqp_frame::RawMethod;
use amqp_session::{ChanRef, Cmd, Properties, Session};
use amqp_types::{LongString, NoMemory, Payload, ShortString};
use std::alloc::Global;
use std::mem;

/// What is told, unless memory was refused. It takes the answer.
pub fn succeeds(answer: amqp_session::Result<()>) -> Result<Done, NoMemory> {
    match answer {
        Ok(()) => Ok(Done::Told),
        Err(error) => {
            drop(error);
            Err(NoMemory)
        }
    }
}

// ---- without a word more

/// What becomes of a step of one word.
pub fn alone(
    alloc: Global,
    session: &mut Session,
    act: &str,
    seen: &mut String,
) -> Result<Done, NoMemory> {
    match act {
        "asked" => session.asked(),
        "linked" => return succeeds(session.linked(0)),
        "link_failed" => session.link_failed(0),
        "piece" => session.piece(0),
        "send_all" => send_all(session),
        "copied" => copy(session)?,
        "listen" => return promises_nothing(session, Cmd::Listen, seen),
        "drop_connection" => return promises_nothing(session, Cmd::DropConnection, seen),
        "open_channel" => return ask(session, Cmd::OpenChannel, seen),
        "close" => return close(alloc, session, seen),
        "update_secret" => return update_secret(alloc, session, "", "", seen),
        _ => return looks::alone(alloc, session, act, seen),
    }
    Ok(Done::Told)
}

// Takes so many of the unsent bytes.
fn take(session: &mut Session, n: u64) {
    session.taken(n.min(session.unsent()), 0);
}

/// Whether a frame is committed where there is room for so many bytes.
pub fn commits_within(session: &mut Session, room: u64) -> bool {
    let frame = session.next_frame(room.min(session.capacity() - session.unsent()));
    let some = frame.is_some();
    drop(frame);
    some
}

/// Commits all that waits, and takes all that is unsent.
pub fn send_all(session: &mut Session) {
    for _ in 0..session.waiting() {
        let _ = commits_within(session, u64::MAX);
    }
    take(session, u64::MAX);
}

// A copy of a session takes its place.
fn copy(session: &mut Session) -> Result<(), NoMemory> {
    let copy = session.snapshot()?;
    drop(mem::replace(session, copy));
    Ok(())
}

// ---- commands

/// Tells a command, whose promise is seen.
pub fn ask(session: &mut Session, command: Cmd, seen: &mut String) -> Result<Done, NoMemory> {
    match session.command(command) {
        Ok(promise) => {
            looks::push_number(seen, promise)?;
            Ok(Done::Seen)
        }
        Err(error) => {
            drop(error);
            Err(NoMemory)
        }
    }
}

// Tells a command that takes no promise.
fn promises_nothing(
    session: &mut Session,
    command: Cmd,
    seen: &mut String,
) -> Result<Done, NoMemory> {
    let before = session.promises();
    ask(session, command, seen)?;
    if seen.as_str() == "none" && session.promises() == before {
        return Ok(Done::Told);
    }
    Ok(Done::Fails)
}

// A short text. It is shorter than 256 octets.
fn short(alloc: Global, text: &str) -> Result<ShortString, NoMemory> {
    match ShortString::new(alloc, text.as_bytes()) {
        Ok(text) => Ok(text),
        Err(_) => Err(NoMemory),
    }
}

// Tells our close of the connection.
fn close(alloc: Global, session: &mut Session, seen: &mut String) -> Result<Done, NoMemory> {
    let command = Cmd::CloseConnection(200, short(alloc, "OK")?);
    ask(session, command, seen)
}

// ---- with a number

/// What becomes of a step of several words.
pub fn with(
    alloc: Global,
    session: &mut Session,
    word: &str,
    others: &str,
    seen: &mut String,
) -> Result<Done, NoMemory> {
    match (word, number_of(others)) {
        ("take", Some(n)) => take(session, n),
        ("starved", Some(at)) => session.starve(at),
        ("advance", Some(at)) => session.advance(at),
        ("link_failed", Some(at)) => session.link_failed(at),
        ("open_channels", Some(count)) => return open_channels(session, count, seen),
        (_, Some(number)) if looks::is_numbered(word) => {
            return looks::numbered(alloc, session, word, number, seen);
        }
        _ => return with_words(alloc, session, word, others, seen),
    }
    Ok(Done::Told)
}

// Opens so many channels; the last promise is seen.
fn open_channels(session: &mut Session, count: u64, seen: &mut String) -> Result<Done, NoMemory> {
    for _ in 0..count {
        seen.clear();
        ask(session, Cmd::OpenChannel, seen)?;
    }
    Ok(Done::Seen)
}

// ---- with a channel, or with words

fn with_words(
    alloc: Global,
    session: &mut Session,
    word: &str,
    others: &str,
    seen: &mut String,
) -> Result<Done, NoMemory> {
    let (first, last) = first_of(others);
    match (word, channel_of(first)) {
        ("lost", _) => lose(session, others),
        ("misread", _) => misread(session, others),
        ("update_secret", _) => update_secret(alloc, session, first, last, seen),
        ("capacity_after", _) => looks::capacity_after(alloc, session, others, seen),
        (_, Some(channel)) => on_channel(alloc, session, word, channel, last, seen),
        _ => Ok(Done::Unknown),
    }
}

fn lose(session: &mut Session, word: &str) -> Result<Done, NoMemory> {
    match fault_of(word) {
        Some(fault) => {
            session.lost(fault, 0);
            Ok(Done::Told)
        }
        None => Ok(Done::Unknown),
    }
}

fn misread(session: &mut Session, words: &str) -> Result<Done, NoMemory> {
    match misread_of(words) {
        Some(why) => succeeds(session.misread(why, 0)),
        None => Ok(Done::Unknown),
    }
}

// Tells a new secret, for a reason.
fn update_secret(
    alloc: Global,
    session: &mut Session,
    secret: &str,
    reason: &str,
    seen: &mut String,
) -> Result<Done, NoMemory> {
    let octets = octets_of(alloc, secret)?;
    let secret = LongString::new(alloc, &octets);
    drop(octets);
    let Ok(secret) = secret else {
        return Err(NoMemory);
    };
    match short(alloc, reason) {
        Ok(reason) => ask(session, Cmd::UpdateSecret(secret, reason), seen),
        Err(NoMemory) => {
            drop(secret);
            Err(NoMemory)
        }
    }
}

// What is told of a channel, and seen of it.
fn on_channel(
    alloc: Global,
    session: &mut Session,
    word: &str,
    channel: ChanRef,
    last: &str,
    seen: &mut String,
) -> Result<Done, NoMemory> {
    match (word, last) {
        ("drop_channel", "") => promises_nothing(session, Cmd::DropChannel(channel), seen),
        ("close_channel", "") => close_channel(alloc, session, channel, seen),
        ("flow", "on") => ask(session, Cmd::Flow(channel, true), seen),
        ("flow", "off") => ask(session, Cmd::Flow(channel, false), seen),
        ("send", _) => send(alloc, session, channel, last, seen),
        ("publish", _) => publish(alloc, session, channel, "00*2", last, seen),
        ("publish_properties", _) => publish(alloc, session, channel, last, "", seen),
        ("channel", "") => looks::push_word(seen, session.channel_state(channel).name()),
        ("confirms", "") => looks::push_word(seen, looks::yes_or_no(session.confirm(channel))),
        _ => Ok(Done::Unknown),
    }
}

// Tells our close of a channel.
fn close_channel(
    alloc: Global,
    session: &mut Session,
    channel: ChanRef,
    seen: &mut String,
) -> Result<Done, NoMemory> {
    let command = Cmd::CloseChannel(channel, 200, short(alloc, "OK")?);
    ask(session, command, seen)
}

// Sends a method of class 60 and number 40 with these arguments.
fn send(
    alloc: Global,
    session: &mut Session,
    channel: ChanRef,
    args: &str,
    seen: &mut String,
) -> Result<Done, NoMemory> {
    let args = octets_of(alloc, args)?;
    let method = RawMethod::new(alloc, 60, 40, &args);
    drop(args);
    match method {
        Ok(method) => ask(session, Cmd::Send(channel, method), seen),
        Err(_) => Err(NoMemory),
    }
}

// Publishes with the method of class 60 and number 40 for the routing key `hello` these properties and this body.
fn publish(
    alloc: Global,
    session: &mut Session,
    channel: ChanRef,
    properties: &str,
    body: &str,
    seen: &mut String,
) -> Result<Done, NoMemory> {
    let properties = octets_of(alloc, properties)?;
    let body = octets_of(alloc, body)?;
    match RawMethod::new(alloc, 60, 40, b"\0\0\0\x05hello\0") {
        Ok(method) => publish_by(session, channel, method, properties, body, seen),
        Err(_) => Err(NoMemory),
    }
}

fn publish_by(
    session: &mut Session,
    channel: ChanRef,
    method: RawMethod,
    properties: Vec<u8>,
    body: Vec<u8>,
    seen: &mut String,
) -> Result<Done, NoMemory> {
    let body = Payload::from_vec(body);
    match Properties::new(Payload::from_vec(properties)) {
        Some(properties) => {
            ask(
                session,
                Cmd::Publish(channel, method, properties, body),
                seen,
            )
        }
        None => {
            drop(body);
            drop(method);
            Ok(Done::Unknown)
        }
    }
}
