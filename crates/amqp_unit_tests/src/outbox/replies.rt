//! The replies that are awaited.

use crate::outbox::steps::{Do, first_wrong, wrong_step};
use amqp_outbox::{Awaited, Outbox, Reply, Scope};
use amqp_types::NoMemory;
use std::alloc::Global;

const IN_ORDER: &[Do] = &[
    Do::Expect(1, Reply::FlowDone, Some(1)),
    Do::Expect(2, Reply::FlowDone, Some(2)),
    Do::Expect(1, Reply::ChannelClosed, Some(3)),
    Do::Expect(1, Reply::FlowDone, None),
    Do::Expect(3, Reply::SecretDone, Some(4)),
    Do::Awaits(1, Reply::ChannelClosed, true),
    Do::Awaits(2, Reply::ChannelClosed, false),
    Do::DropReply(3, Some(Some(4))),
    Do::Awaits(3, Reply::SecretDone, false),
    Do::DropReply(3, None),
    Do::Answer(1, Reply::ChannelClosed, Some(Some(3))),
    Do::Awaits(1, Reply::ChannelClosed, false),
    Do::Answer(1, Reply::FlowDone, Some(Some(1))),
    Do::Answer(1, Reply::FlowDone, Some(None)),
    Do::Answer(1, Reply::FlowDone, None),
    Do::Answer(2, Reply::SecretDone, None),
    Do::DropChannel(2, Scope::Control, None),
    Do::DropChannel(2, Scope::All, Some(Some(2))),
    Do::Answer(2, Reply::FlowDone, None),
];

#[test]
fn replies_come_in_order(rt: HostRuntime) -> Result<(), NoMemory> {
    assert!(rt; wrong_step(rt.alloc(), IN_ORDER)? == 0);
    Ok(())
}

const TAKEN: &[Do] = &[
    Do::Awaits(1, Reply::FlowDone, true),
    Do::Awaits(1, Reply::ChannelClosed, false),
    Do::Answer(1, Reply::FlowDone, Some(Some(5))),
    Do::Answer(1, Reply::FlowDone, None),
];

// Whether a reply is awaited once it has taken the place that was made for it, and not before.
fn takes_its_place(alloc: Global, outbox: &mut Outbox) -> Result<bool, NoMemory> {
    outbox.reserve_reply(1, Reply::FlowDone)?;
    let before = outbox.awaits(1, Reply::FlowDone);
    outbox.expect_reserved(1, Awaited::by(Reply::FlowDone, 5));
    Ok(!before && first_wrong(alloc, outbox, TAKEN)? == 0)
}

#[test]
fn a_reply_takes_its_place(rt: HostRuntime) -> Result<(), NoMemory> {
    let mut outbox = Outbox::new(rt.alloc());
    let told = takes_its_place(rt.alloc(), &mut outbox);
    drop(outbox);
    assert!(rt; told?);
    Ok(())
}
