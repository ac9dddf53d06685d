//! How much waits. A frame that is passed through has 8 octets around its payload, here of 4; a
//! heartbeat has 8, and channel.open 13 (AMQP 0-9-1, 4.2.3 and 1.5.2.1).

use crate::outbox::steps::{Do, Sent, first_wrong, first_wrong_story};
use crate::outbox::support::{Told, counts, group};
use amqp_frame::{Frame, Method};
use amqp_outbox::{Item, Outbox, Scope};
use amqp_types::NoMemory;
use std::alloc::Global;

const COUNTED: &[Do] = &[
    Do::Counts(0, 0),
    Do::Push(0, Sent::Heartbeat, None),
    Do::Counts(1, 8),
    Do::Push(1, Sent::ChannelOpen, None),
    Do::Counts(2, 21),
    Do::PushGroup(1, 7),
    Do::Counts(5, 57),
    Do::Next(false, Told::Heartbeat, None),
    Do::Counts(4, 49),
    Do::Next(true, Told::ChannelOpen, None),
    Do::Counts(3, 36),
    Do::Next(true, Told::Method(1), None),
    Do::Counts(2, 24),
    Do::Next(false, Told::Header(1), None),
    Do::Counts(1, 12),
    Do::Restart,
    Do::Counts(1, 8),
    Do::DropAll,
    Do::Counts(0, 0),
];

const DROPPED: &[Do] = &[
    Do::Push(1, Sent::Heartbeat, Some(3)),
    Do::PushGroup(1, 5),
    Do::PushGroup(2, 6),
    Do::PushGroup(1, 8),
    Do::Counts(10, 116),
    Do::DropChannel(2, Scope::Unbegun, Some(Some(6))),
    Do::Counts(7, 80),
    Do::DropChannel(1, Scope::Control, Some(Some(3))),
    Do::Counts(6, 72),
    Do::DropUnbegun(Some(Some(5))),
    Do::Counts(3, 36),
    Do::DropUnbegun(Some(Some(8))),
    Do::DropUnbegun(None),
    Do::Counts(0, 0),
];

/// What is counted, step by step.
const STORIES: &[(&str, &[Do])] = &[
    ("frames are counted", COUNTED),
    ("what is dropped counts no more", DROPPED),
];

#[test]
fn counts_are_told_step_by_step(rt: HostRuntime) -> Result<(), NoMemory> {
    assert_eq!(rt; first_wrong_story(rt.alloc(), STORIES)?, None);
    Ok(())
}

// Puts a group in the place that is made for it, and tells its frames and octets.
fn push_in_place(alloc: Global, outbox: &mut Outbox) -> Result<(u64, u64), NoMemory> {
    let group = group(alloc, 1, 4)?;
    let told = (group.len(), group.octets());
    if let Err(refused) = outbox.reserve_group(&group) {
        drop(group);
        return Err(refused);
    }
    outbox.push_group_reserved(group);
    Ok(told)
}

const TAKEN: &[Do] = &[
    Do::Counts(4, 44),
    Do::Next(true, Told::Heartbeat, None),
    Do::Next(true, Told::Method(1), None),
];

// Whether a group and a frame go where a place was made for each, and nowhere before.
fn things_go_where_they_have_places_in(
    alloc: Global,
    outbox: &mut Outbox,
) -> Result<bool, NoMemory> {
    let grouped = push_in_place(alloc, outbox)? == (3, 36);
    outbox.reserve_control(Some(2), 1, 8)?;
    let placed = counts(outbox) == (3, 36);
    outbox.push_control_reserved(Item::plain(2, Frame::Heartbeat));
    Ok(grouped && placed && first_wrong(alloc, outbox, TAKEN)? == 0)
}

#[test]
fn things_go_where_they_have_places(rt: HostRuntime) -> Result<(), NoMemory> {
    let mut outbox = Outbox::new(rt.alloc());
    let told = things_go_where_they_have_places_in(rt.alloc(), &mut outbox);
    drop(outbox);
    assert!(rt; told?);
    Ok(())
}

fn octets_of(item: Item) -> Result<u64, NoMemory> {
    let told = item.octets();
    drop(item);
    told
}

#[test]
fn a_frame_tells_its_octets(rt: HostRuntime) -> Result<(), NoMemory> {
    assert!(rt; octets_of(Item::plain(0, Frame::Heartbeat))? == 8);
    assert!(rt; octets_of(Item::plain(1, Frame::Method(1, Method::ChannelOpen)))? == 13);
    Ok(())
}
