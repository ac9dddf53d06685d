//! Messages through an engine as a whole: over a port that takes all, and from one that gives them.

use crate::client::{Client, LIMIT, spelled, start_of};
use amqp_frame::{Frame, RawKind, RawMethod};
use amqp_session::{ChanRef, Cmd, ConnectionProperties, Handed, Properties, Result};
use amqp_types::{FieldTable, NoMemory, Payload};
use amqp_uri::AMQPUri;
use std::alloc::Global;

/// The arguments of basic.publish to the queue `q`, through the exchange that has no name.
const TO_QUEUE: &[u8] = b"\0\0\0\x01q\0";

/// The payload of basic.deliver of the first message of the queue `q` to the consumer `c`.
const DELIVER: &[u8] = b"\0\x3c\0\x3c\x01c\0\0\0\0\0\0\0\x01\0\0\x01q";

/// Which way messages go.
#[derive(Clone, Copy)]
pub enum Way {
    /// They are published, so many before each turn.
    Out { each: u64 },
    /// They are delivered, read, handed out and taken.
    In,
}

/// So many messages of a size.
#[derive(Clone, Copy)]
pub struct Messages {
    pub way: Way,
    pub size: u32,
    pub count: u64,
}

// A client whose connection is open.
fn connected(alloc: Global) -> Result<Client> {
    let uri = AMQPUri::local(alloc)?;
    let options = ConnectionProperties::new(alloc)?;
    let made = Client::new(alloc, &uri, options);
    drop(uri);
    made
}

// Publishes a body without properties.
fn publish(alloc: Global, client: &mut Client, channel: ChanRef, body: &[u8]) -> Result<()> {
    let method = RawMethod::new(alloc, 60, 40, TO_QUEUE)?;
    let body = Payload::new(alloc, body)?;
    if let Some(properties) = Properties::new(Payload::new(alloc, b"\0\0")?) {
        let publish = Cmd::Publish(channel, method, properties, body);
        client.engine.command(publish)?;
    }
    Ok(())
}

// Publishes so many bodies, takes a turn, and takes their answers: how many were sent.
fn publish_some(
    alloc: Global,
    client: &mut Client,
    channel: ChanRef,
    body: &[u8],
    count: u64,
) -> Result<u64> {
    let before = client.engine.session().promises();
    for _ in 0..count {
        publish(alloc, client, channel, body)?;
    }
    client.turns(1);
    let mut sent = 0u64;
    for number in before..client.engine.session().promises() {
        if client.is_sent(Some(number)) {
            sent = sent.saturating_add(1);
        }
    }
    Ok(sent)
}

// Publishes so many bodies, some before each turn: how many were sent.
fn publish_all(
    alloc: Global,
    client: &mut Client,
    channel: ChanRef,
    body: &[u8],
    each: u64,
    count: u64,
) -> Result<u64> {
    let mut sent = 0u64;
    let mut left = count;
    for _ in 0..count {
        if left == 0 {
            break;
        }
        let some = each.min(left);
        sent = sent.saturating_add(publish_some(alloc, client, channel, body, some)?);
        left -= some;
    }
    Ok(sent)
}

// The octets of one message on a channel.
fn message(alloc: Global, channel: u16, size: u32) -> std::result::Result<Vec<u8>, NoMemory> {
    let mut header = Vec::new(alloc);
    header.extend_from_slice(b"\0\x3c\0\0")?;
    header.extend_from_slice(&(size as u64).to_be_bytes())?;
    header.extend_from_slice(b"\0\0")?;
    let method = Payload::new(alloc, DELIVER)?;
    let mut octets = spelled(alloc, Frame::Raw(channel, RawKind::RawMethod, method))?;
    let header = Frame::Raw(channel, RawKind::Header, Payload::from_vec(header));
    octets.extend_from_slice(&spelled(alloc, header)?)?;
    let body = Payload::from_vec(vec![in alloc; b'x'; size as usize]?);
    octets.extend_from_slice(&spelled(alloc, Frame::Raw(channel, RawKind::Body, body))?)?;
    Ok(octets)
}

// As many messages one after another as a frame's greatest length takes, and one at least: how many,
// and their octets.
fn filled(alloc: Global, channel: u16, size: u32) -> std::result::Result<(u64, Vec<u8>), NoMemory> {
    let one = message(alloc, channel, size)?;
    let count = (LIMIT as usize / one.len().max(1)).max(1);
    let mut all = Vec::new(alloc);
    for _ in 0..count {
        all.extend_from_slice(&one)?;
    }
    Ok((count as u64, all))
}

// How many of the frames are bodies. It takes them.
fn bodies_in(frames: Vec<Handed>) -> u64 {
    let mut bodies = 0u64;
    for frame in &frames {
        if frame.kind == RawKind::Body {
            bodies = bodies.saturating_add(1);
        }
    }
    drop(frames);
    bodies
}

// At least so many messages are delivered: how many were taken.
fn deliver_all(
    alloc: Global,
    client: &mut Client,
    channel: ChanRef,
    size: u32,
    count: u64,
) -> Result<u64> {
    let (some, octets) = filled(alloc, channel.id, size)?;
    let opened = channel.opened.unwrap_or(0);
    client.port.give(&octets)?;
    drop(octets);
    let mut taken = 0u64;
    for _ in 0..count.div_ceil(some.max(1)) {
        client.hear_again();
        taken = taken.saturating_add(bodies_in(client.engine.take_frames(opened)?));
    }
    Ok(taken)
}

fn pass_all(alloc: Global, client: &mut Client, messages: Messages, body: &[u8]) -> Result<u64> {
    let start = start_of(alloc, FieldTable::new(alloc))?;
    client.connect(&start)?;
    drop(start);
    let Some(channel) = client.open_channel()? else {
        return Ok(0);
    };
    let Messages { way, size, count } = messages;
    match way {
        Way::Out { each } => publish_all(alloc, client, channel, body, each, count),
        Way::In => deliver_all(alloc, client, channel, size, count),
    }
}

/// Passes so many messages through an engine. How many were sent, or taken, which may be some more;
/// nothing where memory was refused or the session ended.
pub fn pass(alloc: Global, messages: Messages) -> Option<u64> {
    let Ok(body) = vec![in alloc; b'x'; messages.size as usize] else {
        return None;
    };
    let Ok(mut client) = connected(alloc) else {
        return None;
    };
    let passed = pass_all(alloc, &mut client, messages, &body);
    let ended = client.engine.session().has_ended();
    drop(client);
    match passed {
        Ok(passed) if !ended => Some(passed),
        _ => None,
    }
}
