//! Sessions that stand somewhere.

use crate::acts::{send_all, succeeds};
use crate::properties::properties_of;
use crate::steps::read;
use crate::stories::Done;
use crate::words::{first_of, number_of};
use amqp_session::{AuthList, Cmd, ConnectionProperties, DefaultAuthProvider, Session};
use amqp_types::NoMemory;
use amqp_uri::AMQPUri;
use std::alloc::Global;

/// The address that a text spells; of no text, that of the broker of this machine.
pub fn uri_of(alloc: Global, text: &str) -> Option<AMQPUri> {
    if text.is_empty() {
        return AMQPUri::local(alloc).ok();
    }
    match AMQPUri::parse(alloc, text) {
        Ok(uri) => Some(uri),
        Err(_) => None,
    }
}

// How far the way of a session went.
#[derive(Clone, Copy, PartialEq, Eq)]
enum Stage {
    // It wants a link.
    New,
    // Its link is open.
    Linked,
    // Its connection is open, and its frames so far were sent.
    Connected,
    // The same, with channel 1 open, which promise 1 opened.
    WithChannel,
}

// How far a session goes to this place, and by which tune of the server's.
fn stage_of<'a>(place: &str, last: &'a str) -> Option<(Stage, &'a str)> {
    match (place, last) {
        ("new" | "patient" | "recovering" | "recovering_by_default", "") => Some((Stage::New, "")),
        ("named" | "half_named", "") => Some((Stage::New, "")),
        ("noted", len) if number_of(len).is_some() => Some((Stage::New, "")),
        ("linked", "") => Some((Stage::Linked, "")),
        ("connected", "") => Some((Stage::Connected, "tune")),
        ("connected", tune) => Some((Stage::Connected, tune)),
        ("with_channel" | "recovering_with_channel", "") => Some((Stage::WithChannel, "tune")),
        ("limited_with_channel", limit) if number_of(limit).is_some() => {
            Some((Stage::WithChannel, "tune_2"))
        }
        _ => None,
    }
}

// A new session with the broker of an address, where a text spells one.
fn new_session(
    alloc: Global,
    address: &str,
    options: ConnectionProperties,
) -> Result<Option<Session>, NoMemory> {
    let Some(uri) = uri_of(alloc, address) else {
        drop(options);
        return Ok(None);
    };
    let session = Session::new(alloc, &uri, options);
    drop(uri);
    match session {
        Ok(session) => Ok(Some(session)),
        Err(error) => {
            drop(error);
            Err(NoMemory)
        }
    }
}

/// A session that stands there, where there is such a place: a word, perhaps with another, and behind `to` the
/// address of its broker, where that is none of this machine.
pub fn session_at(alloc: Global, place: &str) -> Result<Option<Session>, NoMemory> {
    let (place, address) = place.split_once(" to ").unwrap_or((place, ""));
    let (place, last) = first_of(place);
    let Some((stage, tune)) = stage_of(place, last) else {
        return Ok(None);
    };
    let options = properties_of(alloc, place, last)?;
    let Some(session) = new_session(alloc, address, options)? else {
        return Ok(None);
    };
    let mut session = session;
    let led = lead(alloc, &mut session, stage, tune);
    if let Ok(Done::Told) = led {
        return Ok(Some(session));
    }
    drop(session);
    led?;
    Ok(None)
}

fn lead(alloc: Global, session: &mut Session, stage: Stage, tune: &str) -> Result<Done, NoMemory> {
    if stage == Stage::New {
        return Ok(Done::Told);
    }
    session.asked();
    let linked = succeeds(session.linked(0));
    if stage == Stage::Linked || linked.is_err() {
        return linked;
    }
    let connected = connect(alloc, session, tune)?;
    if stage == Stage::WithChannel {
        return open_channel(alloc, session);
    }
    Ok(connected)
}

// Reads the frame of this name. What it asks is asked of the provider of the broker of this machine.
fn read_local(alloc: Global, session: &mut Session, name: &str) -> Result<Done, NoMemory> {
    let uri = AMQPUri::local(alloc)?;
    let made = DefaultAuthProvider::new(alloc, &uri);
    drop(uri);
    let mut provider = made?;
    let mut auths = AuthList::new(alloc);
    let done = read(alloc, session, &mut provider, &mut auths, name);
    drop(auths);
    drop(provider);
    done
}

// Opens the connection, by the server's tune.
fn connect(alloc: Global, session: &mut Session, tune: &str) -> Result<Done, NoMemory> {
    read_local(alloc, session, "start")?;
    let done = read_local(alloc, session, tune)?;
    read_local(alloc, session, "open_ok")?;
    send_all(session);
    Ok(done)
}

// Opens channel 1.
fn open_channel(alloc: Global, session: &mut Session) -> Result<Done, NoMemory> {
    match session.command(Cmd::OpenChannel) {
        Ok(_) => {}
        Err(error) => {
            drop(error);
            return Err(NoMemory);
        }
    }
    let done = read_local(alloc, session, "channel_open_ok_1")?;
    send_all(session);
    Ok(done)
}
