//! A caller that waits sleeps: the system tells how often its thread gave the processor up meanwhile, and for how long
//! it ran.

use crate::acts;
use crate::hand::{Done, Hand, Stage};
use std::alloc::AllocGlobal;
use std::fs;
use std::rt::Files;
use std::sync::Wait;
use std::time::Clock;

/// So often a thread may go to sleep that is woken by less than ten turns, and waits for the lock at some of them.
/// How often another took its processor counts for nothing.
const OFTEN: u64 = 40;

/// So many nanoseconds it may run, where the wait takes ten times as long.
const LONG: u64 = 100_000_000;

// A file of the system as a text; nothing where it can't be read.
fn read<R: Files + AllocGlobal>(rt: &R, path: &str) -> String {
    match fs::read_to_string(rt, path) {
        Ok(text) => text,
        Err(error) => {
            drop(error);
            String::new(rt.alloc())
        }
    }
}

// The number behind this word; 0 where it has none.
fn number_after(text: &str, wanted: &str) -> u64 {
    let mut found = false;
    for word in text.split_whitespace() {
        if found {
            return word.parse::<u64>().unwrap_or(0);
        }
        found = word == wanted;
    }
    0
}

// How often this thread went to sleep.
fn slept<R: Files + AllocGlobal>(rt: &R) -> u64 {
    let text = read(rt, "/proc/thread-self/status");
    let slept = number_after(text.as_str(), "voluntary_ctxt_switches:");
    drop(text);
    slept
}

// For how many nanoseconds this thread ran.
fn ran<R: Files + AllocGlobal>(rt: &R) -> u64 {
    let text = read(rt, "/proc/thread-self/schedstat");
    let ran = text
        .split_whitespace()
        .next()
        .unwrap_or("")
        .parse::<u64>()
        .unwrap_or(0);
    drop(text);
    ran
}

/// Does the act behind the first word, and says whether the thread slept meanwhile.
pub fn flows<R: Wait + Clock + Files + AllocGlobal>(
    rt: &R,
    stage: &Stage<'_>,
    hand: &mut Hand,
    act: &str,
) -> Done {
    let (_, act) = acts::parts_of(act);
    let (often, long) = (slept(rt), ran(rt));
    acts::act(rt, stage, hand, act)?;
    let often = slept(rt).saturating_sub(often);
    let long = ran(rt).saturating_sub(long);
    hand.say_whether("slept meanwhile", often <= OFTEN && long <= LONG)
}
