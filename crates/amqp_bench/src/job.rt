//! What the words of a line ask for.

use crate::loopback::Batches;
use amqp_bench_work::growth::{Case, case_named};
use amqp_bench_work::publishes::{Ending, Load};
use amqp_bench_work::through::{Messages, Way};

/// The longest payload of a frame of 131072 octets.
const LONGEST: u32 = 131_064;

/// The greatest channel that the server has.
const CHANNELS: u16 = 2_047;

/// After so many octets a journal begins anew, where nothing else is said.
const SETTLES_AFTER: u64 = 1 << 20;

/// What is to be done, and how often.
#[derive(Clone, Copy)]
pub enum Job {
    /// Writes body frames of this size.
    Write { size: u32, count: u64 },
    /// Reads body frames of this size.
    Read { size: u32, count: u64 },
    /// Sends methods over a session.
    Sends { count: u64 },
    /// Sends methods over a hub, whose journal begins anew now and then.
    Settles { count: u64 },
    /// Publishes over a session, and how it goes on once all is queued.
    Publishes(Load, Ending),
    /// Passes messages through an engine.
    Pass(Messages),
    /// Does again and again what a server or a caller may do.
    Grow(Case, u64),
    /// Publishes over a connection on threads, whose answers nobody waits for.
    Unwaited { count: u64 },
    /// Takes turns of such a connection, while so many commands are under way.
    Turns { commands: u64, count: u64 },
    /// Publishes over a socket, to the server of the address that stands last.
    Loopback(Batches),
}

// A number of times.
fn count_of(word: &str) -> Option<u64> {
    match word.parse::<u64>() {
        Ok(count) => Some(count),
        Err(_) => None,
    }
}

// The size of a payload.
fn size_of(word: &str) -> Option<u32> {
    match word.parse::<u32>() {
        Ok(size) if size <= LONGEST => Some(size),
        _ => None,
    }
}

// A number of channels.
fn channels_of(word: &str) -> Option<u16> {
    match word.parse::<u16>() {
        Ok(channels) if 1 <= channels && channels <= CHANNELS => Some(channels),
        _ => None,
    }
}

// What is published: over how many channels, of which size, and how often.
fn load_of(channels: &str, size: &str, count: &str) -> Option<Load> {
    Some(Load {
        channels: channels_of(channels)?,
        size: size_of(size)?,
        count: count_of(count)?,
    })
}

// Messages that are published through an engine, so many before each turn.
fn messages_out_of(size: &str, count: &str, each: &str) -> Option<Job> {
    Some(Job::Pass(Messages {
        way: Way::Out {
            each: count_of(each)?.max(1),
        },
        size: size_of(size)?,
        count: count_of(count)?,
    }))
}

// What a word and a number ask for.
fn with_one(kind: &str, count: &str) -> Option<Job> {
    let count = count_of(count)?;
    match kind {
        "sends" => Some(Job::Sends { count }),
        "settles" => Some(Job::Settles { count }),
        "publishes" => Some(Job::Unwaited { count }),
        _ => None,
    }
}

// What a word, another and a number ask for.
fn with_two(kind: &str, first: &str, count: &str) -> Option<Job> {
    let count = count_of(count)?;
    match kind {
        "write" => Some(Job::Write {
            size: size_of(first)?,
            count,
        }),
        "read" => Some(Job::Read {
            size: size_of(first)?,
            count,
        }),
        "messages-in" => Some(Job::Pass(Messages {
            way: Way::In,
            size: size_of(first)?,
            count,
        })),
        "growth" => Some(Job::Grow(case_named(first)?, count)),
        "turns" => Some(Job::Turns {
            commands: count_of(first)?,
            count,
        }),
        _ => None,
    }
}

// What a word and three numbers ask for.
fn with_three(kind: &str, first: &str, second: &str, third: &str) -> Option<Job> {
    match kind {
        "messages-out" => messages_out_of(first, second, third),
        "publishes" => Some(Job::Publishes(load_of(first, second, third)?, Ending::Sent)),
        "closes" => Some(Job::Publishes(load_of(first, second, third)?, Ending::Closed)),
        "server-closes" => Some(Job::Publishes(
            load_of(first, second, third)?,
            Ending::ClosedByServer,
        )),
        _ => None,
    }
}

// What a word and three numbers before an address ask for.
fn with_address(kind: &str, size: &str, count: &str, third: &str) -> Option<Job> {
    let (settles_after, under_way) = match kind {
        "loopback" => (count_of(third)?, 0),
        "window" => (SETTLES_AFTER, count_of(third)?.max(1)),
        _ => return None,
    };
    Some(Job::Loopback(Batches {
        size: size_of(size)?,
        count: count_of(count)?,
        settles_after,
        under_way,
    }))
}

/// The last word of a line.
pub fn address_in(line: &str) -> &str {
    match line.rsplit_once(' ') {
        Some((_, last)) => last,
        None => line,
    }
}

/// The job that the words of a line tell.
pub fn job_in(line: &str) -> Option<Job> {
    let mut words = line.split_whitespace();
    let kind = words.next()?;
    let first = words.next();
    let second = words.next();
    let third = words.next();
    let fourth = words.next();
    if words.next().is_some() {
        return None;
    }
    match (first, second, third, fourth) {
        (Some(first), None, _, _) => with_one(kind, first),
        (Some(first), Some(second), None, _) => with_two(kind, first, second),
        (Some(first), Some(second), Some(third), None) => with_three(kind, first, second, third),
        (Some(first), Some(second), Some(third), Some(_)) => {
            with_address(kind, first, second, third)
        }
        _ => None,
    }
}
