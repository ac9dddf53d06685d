//! Channels that are created without a session.

use amqp_session::{Channels, ErrorKind};
use amqp_types::ChannelId;
use std::alloc::Global;
use std::process::Abort;

/// What is done with the channels, and what is seen of them.
enum Step {
    /// Of so many, these are given, from the first to the second.
    Gives(ChannelId, ChannelId, ChannelId),
    /// All of so many are listed.
    Refuses(ChannelId),
    /// The next is drawn from this one on.
    Cursor(ChannelId),
}

// The number that is given, if one is.
fn given(channels: &mut Channels, max: ChannelId) -> Option<ChannelId> {
    match channels.create(max.max(1)) {
        Ok(id) => Some(id),
        Err(error) => {
            drop(error);
            None
        }
    }
}

// Whether all numbers are listed.
fn refuses(channels: &mut Channels, max: ChannelId) -> bool {
    match channels.create(max.max(1)) {
        Ok(_) => false,
        Err(error) => {
            let limit = matches!(error.kind(), ErrorKind::ChannelsLimitReached);
            drop(error);
            limit
        }
    }
}

fn gives<A: Abort>(
    rt: &A,
    channels: &mut Channels,
    max: ChannelId,
    first: ChannelId,
    last: ChannelId,
) {
    for wanted in first..=last {
        assert!(rt; given(channels, max) == Some(wanted), "{wanted}");
    }
}

fn follow<A: Abort>(rt: &A, alloc: Global, steps: &[Step]) {
    let mut channels = Channels::new(alloc);
    for step in steps {
        match step {
            Step::Gives(max, first, last) => gives(rt, &mut channels, *max, *first, *last),
            Step::Refuses(max) => assert!(rt; refuses(&mut channels, *max), "{max}"),
            Step::Cursor(wanted) => assert!(rt; channels.cursor() == *wanted, "{wanted}"),
        }
        assert!(rt; channels.flows());
    }
}

// As lapin's test of this name has it.
#[test]
fn channel_limit(rt: HostRuntime) {
    const STEPS: &[Step] = &[
        Step::Gives(65_535, 1, 65_535),
        Step::Cursor(0),
        Step::Refuses(65_535),
        Step::Cursor(2),
    ];
    follow(&rt, rt.alloc(), STEPS);
}

// Each refusal moves the cursor on by one, up to the greatest number, and then to the first.
#[test]
fn a_refused_creation_moves_the_cursor_on(rt: HostRuntime) {
    const STEPS: &[Step] = &[
        Step::Cursor(0),
        Step::Gives(3, 1, 3),
        Step::Cursor(0),
        Step::Refuses(3),
        Step::Cursor(2),
        Step::Refuses(3),
        Step::Cursor(3),
        Step::Refuses(3),
        Step::Cursor(0),
        Step::Refuses(1),
        Step::Cursor(0),
    ];
    follow(&rt, rt.alloc(), STEPS);
}

// A cursor above the greatest number counts as 1, and all that are listed are passed over.
#[test]
fn the_greatest_number_can_change(rt: HostRuntime) {
    const STEPS: &[Step] = &[
        Step::Gives(10, 1, 6),
        Step::Cursor(7),
        Step::Refuses(4),
        Step::Cursor(2),
        Step::Gives(8, 7, 8),
        Step::Cursor(0),
        Step::Gives(9, 9, 9),
        Step::Refuses(9),
        Step::Cursor(2),
    ];
    follow(&rt, rt.alloc(), STEPS);
}
