//! A message that is published, and one that is delivered.

ghost use Rattle.std.specs.Prelude.{◌≡◌, ◌≤◌, ◌∷◌, [], ℕ, if◌then◌else◌, List, Some, None, IfOk, IfSome, IsSome, OnErr, OnOk, length, take};
ghost use Rattle.amqp_rules.specs.Commands.{command as command_rule};
ghost use Rattle.amqp_engine.specs.Engine.{with_talk};
ghost use Rattle.amqp_uses.specs.Driving.{is_body as body_by};
ghost use Rattle.amqp_uses.specs.Messages.{publish_to, publication, is_deliver as deliver_by, is_sized_header, size_in as size_by, announced as announced_by, AreBodies, IsMessage};

use amqp_engine::IoLoop;
use amqp_frame::{RawKind, RawMethod};
use amqp_session::{ChanRef, Cmd, Handed, Properties, Result};
use amqp_types::{NoMemory, Payload, ShortString};
use std::alloc::Global;

/// Publishes a text to the queue of a name, through the exchange that has no name and without
/// properties. Gives the promise that is answered once the link took all of it.
pub fn publish_text(
    alloc: Global,
    engine: &mut IoLoop,
    channel: ChanRef,
    queue: &ShortString,
    text: &[u8],
) -> Result<Option<u64>>
    ensures ok { OnOk result
        (engine.new ≡ with_talk (command_rule (publication channel queue.now text.now)) engine.old) }
    ensures err { OnErr result (engine.new ≡ engine.old) }
{
    engine.command(publication_of(alloc, channel, queue, text)?)
}

/// The command by which a text is published so.
pub fn publication_of(
    alloc: Global,
    channel: ChanRef,
    queue: &ShortString,
    text: &[u8],
) -> std::result::Result<Cmd, NoMemory>
    ensures { IfOk result (λ c. c ≡ publication channel queue.now text.now) }
{
    let method = publish_method(alloc, queue)?;
    let properties = no_properties(alloc)?;
    let body = Payload::new(alloc, text)?;
    Ok(Cmd::Publish(channel, method, properties, body))
}

// The property flags that name no property.
fn no_properties(alloc: Global) -> std::result::Result<Properties, NoMemory>
    ensures { IfOk result (λ properties. properties ≡ 0 ∷ 0 ∷ []) }
{
    match Properties::new(Payload::new(alloc, b"\0\0")?) {
        Some(properties) => Ok(properties),
        // Never: two octets are enough.
        None => Err(NoMemory),
    }
}

// The method basic.publish to the queue of a name.
fn publish_method(alloc: Global, queue: &ShortString) -> std::result::Result<RawMethod, NoMemory>
    ensures { IfOk result (λ method. method ≡ publish_to queue.now) }
{
    let name = queue.as_bytes();
    let mut arguments = Vec::with_capacity(alloc, name.len() + 5)?;
    // Two reserved octets, and the exchange, which has no name.
    arguments.extend_from_slice(b"\0\0\0")?;
    arguments.push(name.len() as u8)?;
    arguments.extend_from_slice(name)?;
    // Neither mandatory nor immediate.
    arguments.push(0)?;
    RawMethod::new(alloc, 60, 40, &arguments)
}

/// A message that was delivered: how many frames it has, and its body.
#[derive(Debug, Drop)]
pub struct Delivery {
    pub frames: usize,
    pub body: Vec<u8>,
}

/// The message that the first of these frames are, which came on one channel. There is none where they
/// begin with no delivery, or its last frame is still to come.
pub fn next_delivery(
    alloc: Global,
    frames: &[Handed],
) -> std::result::Result<Option<Delivery>, NoMemory>
    ensures some { IfOk result (λ found. IfSome found
        (λ delivery. IsMessage delivery.body.items (take delivery.frames frames.now))) }
    ensures within { IfOk result (λ found. IfSome found (λ delivery. delivery.frames ≤ length frames.now)) }
    ensures found { (n : ℕ) (body : List ℕ) → IsMessage body (take n frames.now) → IfOk result IsSome }
{
    let Some(size) = announced(frames) else {
        return Ok(None);
    };
    let Some((count, body)) = joined(alloc, &frames[2..], size)? else {
        return Ok(None);
    };
    Ok(Some(Delivery {
        frames: count + 2,
        body,
    }))
}

// The first of these frames that are bodies of so many octets together: how many, and the octets.
fn joined(
    alloc: Global,
    frames: &[Handed],
    size: u64,
) -> std::result::Result<Option<(usize, Vec<u8>)>, NoMemory>
    ensures some { IfOk result (λ found. IfSome found
        (λ whole. AreBodies whole.1.items (take whole.0 frames.now)
        × (length whole.1.items ≡ size) × (whole.0 ≤ length frames.now))) }
    ensures found { (n : ℕ) (body : List ℕ) → AreBodies body (take n frames.now) → length body ≡ size
        → IfOk result IsSome }
{
    let mut body = Vec::new(alloc);
    let mut count = 0;
    'bodies: while (body.len() as u64) < size {
        if count == frames.len() || !is_body(&frames[count]) {
            return Ok(None);
        }
        let octets = frames[count].bytes.as_bytes();
        if octets.len() as u64 > size - body.len() as u64 {
            return Ok(None);
        }
        body.extend_from_slice(octets)?;
        count += 1;
    }
    Ok(Some((count, body)))
}

// How many octets are to come as bodies, where frames begin with a delivery and its header.
fn announced(frames: &[Handed]) -> Option<u64>
    ensures { result ≡ announced_by frames.now }
{
    if frames.len() < 2 || !is_deliver(&frames[0]) {
        return None;
    }
    size_in(&frames[1])
}

// Whether a frame is a body.
fn is_body(frame: &Handed) -> bool
    ensures { result ≡ body_by frame.now }
{
    frame.kind == RawKind::Body
}

// Whether a frame is basic.deliver.
fn is_deliver(frame: &Handed) -> bool
    ensures { result ≡ deliver_by frame.now }
{
    frame.kind == RawKind::RawMethod && frame.bytes.as_bytes().starts_with(b"\0\x3c\0\x3c")
}

// How many octets a body has, by its content header.
fn size_in(frame: &Handed) -> Option<u64>
    ensures { result ≡ if is_sized_header frame.now then Some (size_by frame.now) else None }
{
    let octets = frame.bytes.as_bytes();
    if frame.kind != RawKind::Header || octets.len() < 12 {
        return None;
    }
    let mut size = [0; 8];
    size.copy_from_slice(&octets[4..12]);
    Some(u64::from_be_bytes(size))
}
