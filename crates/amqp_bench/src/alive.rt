//! Turns, while commands are under way.

use crate::live::{Live, open_live};
use amqp_session::{ErrorKind, Result};
use lapin_connection::Pending;
use std::alloc::Global;
use std::sync::Wait;
use std::sync::atomic::Ordering;
use std::thread;
use std::thread::Threads;
use std::time::{Clock, Duration};

// Asks the server so often to send content, which it does not answer; what waits for each answer.
fn ask<R: Wait>(
    rt: &R,
    alloc: Global,
    live: &mut Live,
    commands: u64,
) -> Result<Vec<Pending<bool>>> {
    let mut pending = Vec::new(alloc);
    for _ in 0..commands {
        let asked = live.channel.channel_flow(rt, &mut live.pass, true)?;
        if pending.push(asked).is_err() {
            return Err(ErrorKind::NoMemory.into());
        }
    }
    Ok(pending)
}

// Waits until so many ticks were told.
fn wait_for<R: Clock>(rt: &R, live: &Live, ticks: u64) {
    for _ in 0..u64::MAX {
        if live.counts.ticks.load(Ordering::SeqCst) >= ticks {
            return;
        }
        thread::sleep(rt, Duration::from_millis(1));
    }
}

fn turns_by<R: Threads + Wait + Clock + Copy + Send + Drop + 'static>(
    rt: R,
    alloc: Global,
    commands: u64,
    count: u64,
) -> Result<u64> {
    let mut live = open_live(rt, alloc, false)?;
    let pending = ask(&rt, alloc, &mut live, commands)?;
    let begun = live.counts.ticks.load(Ordering::SeqCst);
    wait_for(&rt, &live, begun.saturating_add(count));
    let alive = pending.len() as u64;
    live.counts.over.store(1, Ordering::SeqCst);
    drop(pending);
    drop(live);
    Ok(alive)
}

/// Takes so many turns while so many commands are under way, and gives how many were; nothing where memory
/// was refused.
pub fn turns<R: Threads + Wait + Clock + Copy + Send + Drop + 'static>(
    rt: R,
    alloc: Global,
    commands: u64,
    count: u64,
) -> Option<u64> {
    turns_by(rt, alloc, commands, count).ok()
}
