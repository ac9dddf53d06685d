//! Publishes whose answers nobody waits for.

use crate::live::{Live, open_live};
use amqp_frame::RawMethod;
use amqp_session::{ErrorKind, Properties, Result};
use amqp_types::Payload;
use std::alloc::Global;
use std::sync::Wait;
use std::sync::atomic::Ordering;
use std::thread;
use std::thread::Threads;
use std::time::{Clock, Duration};

/// The body of each message.
const BODY: &[u8; 16] = b"sixteen octets..";

// The octets of each message: basic.publish without an exchange or a key, its header without properties,
// and its body.
const OCTETS: u64 = 17 + 22 + 24;

// Publishes one message, and lets what waits for its answer go.
fn publish<R: Wait>(rt: &R, alloc: Global, live: &mut Live) -> Result<()> {
    let method = RawMethod::new(alloc, 60, 40, &[0, 0, 0, 0, 0])?;
    let Some(properties) = Properties::new(Payload::new(alloc, &[0, 0])?) else {
        return Err(ErrorKind::NoMemory.into());
    };
    let body = Payload::new(alloc, BODY)?;
    let sent = live
        .channel
        .publish_raw(rt, &mut live.pass, method, properties, body)?;
    drop(sent);
    Ok(())
}

// Publishes so many, and gives how many octets were taken of them in the end.
fn publish_all<R: Threads + Wait + Clock + Copy + Send + Drop + 'static>(
    rt: R,
    alloc: Global,
    count: u64,
) -> Result<u64> {
    let mut live = open_live(rt, alloc, true)?;
    let before = live.counts.octets.load(Ordering::SeqCst);
    for _ in 0..count {
        publish(&rt, alloc, &mut live)?;
    }
    let wanted = before.saturating_add(count.saturating_mul(OCTETS));
    for _ in 0..100_000u32 {
        if live.counts.octets.load(Ordering::SeqCst) >= wanted {
            break;
        }
        thread::sleep(&rt, Duration::from_millis(1));
    }
    let taken = live.counts.octets.load(Ordering::SeqCst);
    live.counts.over.store(1, Ordering::SeqCst);
    drop(live);
    Ok(taken.saturating_sub(before))
}

/// Publishes so many bodies of 16 octets, and gives how many octets the port took of them; nothing where
/// memory was refused.
pub fn publishes<R: Threads + Wait + Clock + Copy + Send + Drop + 'static>(
    rt: R,
    alloc: Global,
    count: u64,
) -> Option<u64> {
    publish_all(rt, alloc, count).ok()
}
