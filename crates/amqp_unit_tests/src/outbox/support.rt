//! Frames as rows name them, and what an outbox tells.

ghost use Rattle.std.specs.Prelude.{◌≡◌, IfOk, length};

use amqp_frame::{Frame, Method, RawKind};
use amqp_outbox::{Group, Outbox};
use amqp_types::{ChannelId, NoMemory, Payload};
use std::alloc::Global;

/// Which frame went, or would go.
#[derive(Clone, Copy, Debug, PartialEq, Eq)]
pub enum Told {
    Nothing,
    Method(ChannelId),
    Header(ChannelId),
    Body(ChannelId),
    Heartbeat,
    ChannelOpen,
    Other,
}

/// Which frame it is.
pub fn kind(frame: &Frame) -> Told {
    match frame {
        Frame::Raw(channel, RawKind::RawMethod, _) => Told::Method(*channel),
        Frame::Raw(channel, RawKind::Header, _) => Told::Header(*channel),
        Frame::Raw(channel, RawKind::Body, _) => Told::Body(*channel),
        Frame::Method(_, Method::ChannelOpen) => Told::ChannelOpen,
        Frame::Heartbeat => Told::Heartbeat,
        _ => Told::Other,
    }
}

/// The frame that goes next, and its promise.
pub fn next(outbox: &mut Outbox, flow: bool) -> (Told, Option<u64>) {
    match outbox.next(flow) {
        Some(item) => {
            let told = (kind(item.frame()), item.promise());
            drop(item);
            told
        }
        None => (Told::Nothing, None),
    }
}

/// The frame that would go next.
pub fn front(outbox: &Outbox, flow: bool) -> Told {
    match outbox.front(flow) {
        Some(item) => kind(item.frame()),
        None => Told::Nothing,
    }
}

/// How many frames wait, and how many octets spell them.
pub fn counts(outbox: &Outbox) -> (u64, u64) {
    (outbox.len(), outbox.unsent_len())
}

fn raw(alloc: Global, channel: ChannelId, kind: RawKind) -> Result<Frame, NoMemory> {
    Ok(Frame::Raw(channel, kind, Payload::new(alloc, &[0, 60, 0, 40])?))
}

/// The method, the header and a body of a publish.
pub fn publish(alloc: Global, channel: ChannelId) -> Result<Vec<Frame>, NoMemory>
    ensures { IfOk result (λ v. length v.items ≡ 3) }
{
    let mut frames = Vec::new(alloc);
    frames.push(raw(alloc, channel, RawKind::RawMethod)?)?;
    frames.push(raw(alloc, channel, RawKind::Header)?)?;
    frames.push(raw(alloc, channel, RawKind::Body)?)?;
    Ok(frames)
}

/// A publish as one group.
pub fn group(alloc: Global, channel: ChannelId, promise: u64) -> Result<Group, NoMemory> {
    Group::new(alloc, channel, publish(alloc, channel)?, promise)
}

/// A method of a channel that is passed through.
pub fn method(alloc: Global, channel: ChannelId) -> Result<Frame, NoMemory> {
    raw(alloc, channel, RawKind::RawMethod)
}
