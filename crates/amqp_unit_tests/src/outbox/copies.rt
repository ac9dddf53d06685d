//! Copies. The counts are those of `counts`: 12 octets a frame of a publish, 8 a heartbeat, and 13
//! channel.open.

use crate::outbox::steps::{Do, Sent, first_wrong};
use crate::outbox::support::{Told, group, kind};
use amqp_frame::{Frame, Method};
use amqp_outbox::{Group, Item, Outbox, Reply};
use amqp_types::{ChannelId, NoMemory};
use std::alloc::Global;

// A group that has begun, a frame, a group that has not begun, and a reply.
const FILLED: &[Do] = &[
    Do::PushGroup(1, 7),
    Do::Next(true, Told::Method(1), None),
    Do::Push(2, Sent::Heartbeat, Some(3)),
    Do::PushGroup(2, 8),
    Do::Expect(1, Reply::FlowDone, Some(4)),
];

const EMPTIED: &[Do] = &[
    Do::Counts(6, 68),
    Do::Next(true, Told::Header(1), None),
    Do::Next(true, Told::Body(1), Some(7)),
    Do::Next(true, Told::Heartbeat, Some(3)),
    Do::Next(true, Told::Method(2), None),
    Do::Next(true, Told::Header(2), None),
    Do::Next(true, Told::Body(2), Some(8)),
    Do::Next(true, Told::Nothing, None),
    Do::Answer(1, Reply::FlowDone, Some(Some(4))),
    Do::Answer(1, Reply::FlowDone, None),
];

// Whether a copy tells what the outbox tells that it was made of, which it leaves alone.
fn is_copied(alloc: Global, outbox: &mut Outbox) -> Result<bool, NoMemory> {
    let filled = first_wrong(alloc, outbox, FILLED)? == 0;
    let mut copy = outbox.try_clone(alloc)?;
    let wrong = first_wrong(alloc, &mut copy, EMPTIED);
    drop(copy);
    Ok(filled && wrong? == 0 && first_wrong(alloc, outbox, EMPTIED)? == 0)
}

#[test]
fn a_copied_outbox_is_equal(rt: HostRuntime) -> Result<(), NoMemory> {
    let mut outbox = Outbox::new(rt.alloc());
    let told = is_copied(rt.alloc(), &mut outbox);
    drop(outbox);
    assert!(rt; told?);
    Ok(())
}

// The channel, the frame, its promise and its octets of a copy.
fn copied(alloc: Global, item: &Item) -> Result<(ChannelId, Told, Option<u64>, u64), NoMemory> {
    let copy = item.try_clone(alloc)?;
    let told = (
        copy.channel(),
        kind(copy.frame()),
        copy.promise(),
        copy.encoded_len(),
    );
    drop(copy);
    Ok(told)
}

#[test]
fn a_copied_frame_is_equal(rt: HostRuntime) -> Result<(), NoMemory> {
    let item = Item::promised(1, Frame::Method(1, Method::ChannelOpen), 5);
    let told = copied(rt.alloc(), &item);
    drop(item);
    assert!(rt; told? == (1, Told::ChannelOpen, Some(5), 13));
    Ok(())
}

// How many frames a copy has and their octets, its first frame, and its promise.
fn copied_group(alloc: Global, group: &Group) -> Result<(u64, u64, Told, Option<u64>), NoMemory> {
    let copy = group.try_clone(alloc)?;
    let told = (
        copy.len(),
        copy.octets(),
        kind(copy.first().frame()),
        copy.promise(),
    );
    drop(copy);
    Ok(told)
}

#[test]
fn a_copied_group_is_equal(rt: HostRuntime) -> Result<(), NoMemory> {
    let group = group(rt.alloc(), 1, 4)?;
    let told = copied_group(rt.alloc(), &group);
    drop(group);
    assert!(rt; told? == (3, 36, Told::Method(1), Some(4)));
    Ok(())
}
