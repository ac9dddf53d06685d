//! The lanes, the group that has begun, and what goes with a channel.

use crate::outbox::steps::{Do, Sent, first_wrong_story};
use crate::outbox::support::Told;
use amqp_outbox::Scope;
use amqp_types::NoMemory;

const UNBROKEN: &[Do] = &[
    Do::PushGroup(1, 7),
    Do::Next(false, Told::Nothing, None),
    Do::Front(true, Told::Method(1)),
    Do::Front(true, Told::Method(1)),
    Do::Next(true, Told::Method(1), None),
    Do::Push(0, Sent::Heartbeat, None),
    Do::Front(false, Told::Header(1)),
    Do::Next(false, Told::Header(1), None),
    Do::Next(true, Told::Body(1), Some(7)),
    Do::Next(true, Told::Heartbeat, None),
    Do::Next(true, Told::Nothing, None),
];

const WITH_A_CHANNEL: &[Do] = &[
    Do::Push(1, Sent::ChannelOpen, None),
    Do::Push(1, Sent::Method, Some(3)),
    Do::Push(2, Sent::Method, Some(4)),
    Do::PushGroup(1, 5),
    Do::PushGroup(2, 6),
    Do::PushGroup(1, 8),
    Do::DropChannel(1, Scope::Unbegun, Some(Some(5))),
    Do::DropChannel(1, Scope::All, Some(Some(8))),
    Do::DropChannel(1, Scope::Unbegun, None),
    Do::DropChannel(1, Scope::All, Some(Some(3))),
    Do::DropChannel(1, Scope::Control, None),
    Do::DropChannel(1, Scope::All, None),
    Do::Next(true, Told::ChannelOpen, None),
    Do::Next(true, Told::Method(2), Some(4)),
    Do::Next(true, Told::Method(2), None),
    Do::DropChannel(2, Scope::All, None),
    Do::Next(true, Told::Header(2), None),
    Do::DropAll,
    Do::Next(true, Told::Nothing, None),
];

const RESTARTED: &[Do] = &[
    Do::PushGroup(1, 7),
    Do::Next(true, Told::Method(1), None),
    Do::Restart,
    Do::Next(true, Told::Heartbeat, None),
    Do::Next(true, Told::Nothing, None),
];

/// What happens to the lanes, step by step.
const STORIES: &[(&str, &[Do])] = &[
    ("a group goes unbroken", UNBROKEN),
    ("things go with a channel", WITH_A_CHANNEL),
    ("a restart leaves one frame", RESTARTED),
];

#[test]
fn lanes_are_told_step_by_step(rt: HostRuntime) -> Result<(), NoMemory> {
    assert_eq!(rt; first_wrong_story(rt.alloc(), STORIES)?, None);
    Ok(())
}
