//! The words of steps: numbers, channels and octets.

use amqp_session::{ChanRef, IoFault, Misread};
use amqp_types::{ChannelId, NoMemory};
use std::alloc::Global;

/// The number that a word spells; `max` is the greatest.
pub fn number_of(word: &str) -> Option<u64> {
    if word == "max" {
        return Some(u64::MAX);
    }
    word.parse::<u64>().ok()
}

/// The channel that a word spells: its number, and behind a colon the promise that opened it.
pub fn channel_of(word: &str) -> Option<ChanRef> {
    let (id, opened) = match word.split_once(':') {
        Some((id, opened)) => (id, Some(number_of(opened)?)),
        None => (word, None),
    };
    let id = id.parse::<ChannelId>().ok()?;
    Some(ChanRef { id, opened })
}

/// What was read that is no frame.
pub fn misread_of(words: &str) -> Option<Misread> {
    let (kind, number) = words.split_once(' ')?;
    match kind {
        "bad" => Some(Misread::Bad(number_of(number)?)),
        "too_large" => Some(Misread::TooLarge(number.parse::<u32>().ok()?)),
        "bad_heartbeat" => Some(Misread::BadHeartbeat(number.parse::<ChannelId>().ok()?)),
        _ => None,
    }
}

/// How a link is lost.
pub fn fault_of(word: &str) -> Option<IoFault> {
    match word {
        "aborted" => Some(IoFault::Aborted),
        "reset" => Some(IoFault::Reset),
        "broken_pipe" => Some(IoFault::BrokenPipe),
        _ => None,
    }
}

/// The octets that a word spells: `00*7` seven that are 0, and any other its own.
pub fn octets_of(alloc: Global, word: &str) -> Result<Vec<u8>, NoMemory> {
    if let Some(count) = word.strip_prefix("00*") {
        if let Ok(count) = count.parse::<usize>() {
            return Ok(vec![in alloc; 0u8; count]?);
        }
    }
    Ok(Vec::from_slice(alloc, word.as_bytes())?)
}

/// The first word of some, and the others.
pub fn first_of(words: &str) -> (&str, &str) {
    words.split_once(' ').unwrap_or((words, ""))
}
