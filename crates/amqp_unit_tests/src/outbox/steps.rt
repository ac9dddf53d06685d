//! Steps of an outbox, and what each tells, as rows of a table.

use crate::outbox::support::{Told, counts, front, method, next, publish};
use amqp_frame::{Frame, Method};
use amqp_outbox::{Item, Outbox, Reply, Scope};
use amqp_types::{ChannelId, NoMemory};
use std::alloc::Global;

/// A frame of a channel as rows name it.
#[derive(Clone, Copy)]
pub enum Sent {
    Heartbeat,
    ChannelOpen,
    /// A method that is passed through.
    Method,
}

/// A call of an outbox. What it tells comes last in it.
#[derive(Clone, Copy)]
pub enum Do {
    /// A frame of a channel goes last, with this promise or without one.
    Push(ChannelId, Sent, Option<u64>),
    /// A publish on a channel goes last.
    PushGroup(ChannelId, u64),
    Next(bool, Told, Option<u64>),
    Front(bool, Told),
    /// How many frames wait, and how many octets spell them.
    Counts(u64, u64),
    DropChannel(ChannelId, Scope, Option<Option<u64>>),
    DropUnbegun(Option<Option<u64>>),
    DropAll,
    /// All goes, but for a heartbeat that comes.
    Restart,
    Expect(ChannelId, Reply, Option<u64>),
    Awaits(ChannelId, Reply, bool),
    Answer(ChannelId, Reply, Option<Option<u64>>),
    DropReply(ChannelId, Option<Option<u64>>),
}

fn frame(alloc: Global, channel: ChannelId, sent: Sent) -> Result<Frame, NoMemory> {
    match sent {
        Sent::Heartbeat => Ok(Frame::Heartbeat),
        Sent::ChannelOpen => Ok(Frame::Method(channel, Method::ChannelOpen)),
        Sent::Method => method(alloc, channel),
    }
}

fn push(
    alloc: Global,
    outbox: &mut Outbox,
    channel: ChannelId,
    sent: Sent,
    promise: Option<u64>,
) -> Result<(), NoMemory> {
    let frame = frame(alloc, channel, sent)?;
    match promise {
        Some(number) => outbox.push_control(Item::promised(channel, frame, number)),
        None => outbox.push_control(Item::plain(channel, frame)),
    }
}

// Makes a call of which nothing is told but that memory was refused.
fn make(alloc: Global, outbox: &mut Outbox, step: Do) -> Result<(), NoMemory> {
    match step {
        Do::Push(channel, sent, promise) => push(alloc, outbox, channel, sent, promise),
        Do::PushGroup(channel, promise) => {
            outbox.push_group(channel, publish(alloc, channel)?, promise)
        }
        Do::Restart => outbox.restart(Item::plain(0, Frame::Heartbeat)),
        Do::Expect(channel, reply, promise) => outbox.expect(channel, reply, promise),
        _ => Ok(()),
    }
}

// Makes any other call. Whether it tells what the row says.
fn tells(outbox: &mut Outbox, step: Do) -> bool {
    match step {
        Do::Next(flow, told, promise) => next(outbox, flow) == (told, promise),
        Do::Front(flow, told) => front(outbox, flow) == told,
        Do::Counts(frames, octets) => counts(outbox) == (frames, octets),
        Do::DropChannel(channel, scope, told) => outbox.drop_channel(channel, scope) == told,
        Do::DropUnbegun(told) => outbox.drop_unbegun() == told,
        Do::DropAll => {
            outbox.drop_all();
            true
        }
        Do::Awaits(channel, reply, told) => outbox.awaits(channel, reply) == told,
        Do::Answer(channel, reply, told) => outbox.answer(channel, reply) == told,
        Do::DropReply(channel, told) => outbox.drop_reply(channel) == told,
        _ => true,
    }
}

/// The first step that tells something else, counted from 1, or 0.
pub fn first_wrong(alloc: Global, outbox: &mut Outbox, steps: &[Do]) -> Result<usize, NoMemory> {
    for (i, step) in steps.iter().enumerate() {
        make(alloc, outbox, *step)?;
        if !tells(outbox, *step) {
            return Ok(i + 1);
        }
    }
    Ok(0)
}

/// The first story of a new outbox that tells something else, and the step.
pub fn first_wrong_story(
    alloc: Global,
    stories: &[(&'static str, &'static [Do])],
) -> Result<Option<(&'static str, usize)>, NoMemory> {
    for (name, steps) in stories {
        let wrong = wrong_step(alloc, steps)?;
        if wrong > 0 {
            return Ok(Some((*name, wrong)));
        }
    }
    Ok(None)
}

/// The first step that tells something else of a new outbox, counted from 1, or 0.
pub fn wrong_step(alloc: Global, steps: &[Do]) -> Result<usize, NoMemory> {
    let mut outbox = Outbox::new(alloc);
    let wrong = first_wrong(alloc, &mut outbox, steps);
    drop(outbox);
    wrong
}
