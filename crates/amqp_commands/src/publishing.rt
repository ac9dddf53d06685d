//! The frames of a publish.

ghost use Rattle.std.specs.Prelude.{◌≡◌, ◌≤◌, ◌∷◌, ℕ, IfOk, map};
ghost use Rattle.amqp_frame.specs.Lengths.{capped};
ghost use Rattle.amqp_frame.specs.declared.frame.Frame.TheVariants.{Raw};
ghost use Rattle.amqp_frame.specs.declared.frame.RawKind.TheVariants.{Body};
ghost use Rattle.amqp_commands.specs.Publishing.{content_header, body_pieces, octets_of_frames};

use crate::properties::Properties;
use amqp_frame::{Frame, RawKind, encoded_len};
use amqp_types::{ChannelId, NoMemory, Payload};
use std::alloc::Global;

/// The payload of a content header: the class of its method, weight 0, how long the body is, and the
/// properties (AMQP 0-9-1, 4.2.6.1).
pub fn content_header(
    alloc: Global,
    class: u16,
    size: usize,
    properties: &Properties,
) -> Result<Payload, NoMemory>
    ensures { IfOk result (λ p. p ≡ content_header class size properties.now) }
{
    let properties = properties.as_bytes();
    let mut payload = Vec::with_capacity(alloc, properties.len().saturating_add(12))?;
    payload.extend_from_slice(&class.to_be_bytes())?;
    payload.extend_from_slice(&0u16.to_be_bytes())?;
    payload.extend_from_slice(&(size as u64).to_be_bytes())?;
    payload.extend_from_slice(properties)?;
    Ok(Payload::from_vec(payload))
}

/// The frames of a publish, in order: its method, its content header, and its body in pieces of at
/// most so many octets, none of them empty. The body is copied once, piece by piece.
pub fn publish_frames(
    alloc: Global,
    id: ChannelId,
    method: Frame,
    header: Frame,
    limit: usize,
    body: &[u8],
) -> Result<Vec<Frame>, NoMemory>
    requires { 1 ≤ limit }
    ensures { IfOk result (λ frames. frames.items ≡ method ∷ header ∷ map (Raw id Body) (body_pieces limit body.now)) }
{
    let mut frames = Vec::new(alloc);
    if let Err(refused) = frames.push(method) {
        drop(header);
        return Err(refused.into());
    }
    frames.push(header)?;
    for piece in body.chunks(limit) {
        let piece = Payload::new(alloc, piece)?;
        frames.push(Frame::Raw(id, RawKind::Body, piece))?;
    }
    Ok(frames)
}

/// How many octets spell the frames of a publish, counted up to the greatest number of 64 bits. The
/// body is not cut for it: each piece has 8 octets around it in its frame.
pub fn publish_len(method: &Frame, header: &Frame, limit: usize, body: &[u8]) -> u64
    requires { 1 ≤ limit }
    ensures { (id : ℕ) → result ≡
        capped (octets_of_frames (method.now ∷ header.now ∷ map (Raw id Body) (body_pieces limit body.now))) }
{
    let len = body.len();
    let around = (len.div_ceil(limit) as u64).saturating_mul(8);
    encoded_len(method)
        .saturating_add(encoded_len(header))
        .saturating_add(around.saturating_add(len as u64))
}
