//! Memory that is refused. To be run with each allocation failing in turn: what is refused leaves the
//! outbox as it was, and is tried again.

use crate::outbox::support::{Told, counts, front, publish};
use amqp_frame::Frame;
use amqp_outbox::{Item, Outbox, Reply};
use amqp_types::NoMemory;
use std::alloc::Global;

// What an outbox tells of its lanes, of its counts, and of what channel 1 awaits.
fn tells(outbox: &Outbox) -> ((u64, u64), Told, bool) {
    let awaits = outbox.awaits(1, Reply::FlowDone);
    (counts(outbox), front(outbox, true), awaits)
}

fn push_frame(outbox: &mut Outbox) -> Result<(), NoMemory> {
    outbox.push_control(Item::plain(1, Frame::Heartbeat))
}

fn push_frame_again(outbox: &mut Outbox) -> Result<bool, NoMemory> {
    let had = tells(outbox);
    if push_frame(outbox).is_err() {
        if tells(outbox) != had {
            return Ok(false);
        }
        push_frame(outbox)?;
    }
    Ok(true)
}

fn push_publish(alloc: Global, outbox: &mut Outbox) -> Result<(), NoMemory> {
    outbox.push_group(1, publish(alloc, 1)?, 7)
}

fn push_publish_again(alloc: Global, outbox: &mut Outbox) -> Result<bool, NoMemory> {
    let had = tells(outbox);
    if push_publish(alloc, outbox).is_err() {
        if tells(outbox) != had {
            return Ok(false);
        }
        push_publish(alloc, outbox)?;
    }
    Ok(true)
}

fn expect_again(outbox: &mut Outbox) -> Result<bool, NoMemory> {
    let had = tells(outbox);
    if outbox.expect(1, Reply::FlowDone, None).is_err() {
        if tells(outbox) != had {
            return Ok(false);
        }
        outbox.expect(1, Reply::FlowDone, None)?;
    }
    Ok(true)
}

fn restart(outbox: &mut Outbox) -> Result<(), NoMemory> {
    outbox.restart(Item::plain(0, Frame::Heartbeat))
}

fn restart_again(outbox: &mut Outbox) -> Result<bool, NoMemory> {
    let had = tells(outbox);
    if restart(outbox).is_err() {
        if tells(outbox) != had {
            return Ok(false);
        }
        restart(outbox)?;
    }
    Ok(true)
}

// Whether each call, made again where memory was refused, leaves the outbox as it says.
fn a_refusal_changes_nothing_in(alloc: Global, outbox: &mut Outbox) -> Result<bool, NoMemory> {
    let published = push_publish_again(alloc, outbox)?
        && tells(outbox) == ((3, 36), Told::Method(1), false);
    let pushed = push_frame_again(outbox)? && tells(outbox) == ((4, 44), Told::Heartbeat, false);
    let expected = expect_again(outbox)? && tells(outbox) == ((4, 44), Told::Heartbeat, true);
    let restarted = restart_again(outbox)? && tells(outbox) == ((1, 8), Told::Heartbeat, false);
    Ok(published && pushed && expected && restarted)
}

#[test]
fn a_refusal_changes_nothing(rt: HostRuntime) -> Result<(), NoMemory> {
    let mut outbox = Outbox::new(rt.alloc());
    let told = a_refusal_changes_nothing_in(rt.alloc(), &mut outbox);
    drop(outbox);
    assert!(rt; told?);
    Ok(())
}
