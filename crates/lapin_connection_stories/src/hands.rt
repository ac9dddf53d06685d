//! What is done with all callers of a story: `numbers` says the numbers of their channels, `receipts` whether each
//! receipt names its entry, `tally` how many commands each pass made; `gather` gives all channels to the first,
//! `give` the last of its channels to the last.

use crate::telling::{journal, names_its_entry};
use amqp_session::{ErrorKind, Result};
use lapin_connection::{Connection, Entry, Pass, Tally};
use lapin_connection_acts::hand::{Done, Hand};
use std::alloc::{AllocError, Global};
use std::sync::Wait;

// How many hands have a channel of this number.
fn holders(hands: &[Hand], id: u16) -> u64 {
    let mut count = 0u64;
    for hand in hands {
        for channel in &hand.channels {
            if channel.id() == id {
                count = count.saturating_add(1);
            }
        }
    }
    count
}

// The numbers of all channels, in order.
fn numbers(alloc: Global, hands: &[Hand]) -> std::result::Result<String, AllocError> {
    let mut told = "channels".to_string(alloc)?;
    for id in 1..100u16 {
        for _ in 0..holders(hands, id) {
            let text = format!(in alloc; " {id}")?;
            told.push_str(text.as_str())?;
        }
    }
    Ok(told)
}

// How many entries are commands of callers.
fn commands_of(journal: &[Entry]) -> u64 {
    let mut count = 0u64;
    for entry in journal {
        if let Entry::Called(..) = entry {
            count = count.saturating_add(1);
        }
    }
    count
}

// Whether each receipt names its entry.
fn all_named(hands: &[Hand], journal: &[Entry]) -> bool {
    for hand in hands {
        for (k, numbers) in hand.receipts.iter().enumerate() {
            if !names_its_entry(journal, numbers) || numbers.1 != (k as u64).saturating_add(1) {
                return false;
            }
        }
    }
    true
}

fn receipts(
    alloc: Global,
    hands: &[Hand],
    journal: &[Entry],
) -> std::result::Result<String, AllocError> {
    let count = commands_of(journal);
    if all_named(hands, journal) {
        format!(in alloc; "{count} commands, each receipt names its own")
    } else {
        format!(in alloc; "{count} commands, A RECEIPT NAMES ANOTHER")
    }
}

// All passes, in order; the hands have none then.
fn passes_of(alloc: Global, hands: &mut [Hand]) -> std::result::Result<Vec<Pass>, AllocError> {
    let mut passes = Vec::new(alloc);
    for hand in hands {
        if let Some(pass) = hand.passes.pop() {
            passes.push(pass)?;
        }
    }
    Ok(passes)
}

// Each hand gets its pass again.
fn give_back(hands: &mut [Hand], mut passes: Vec<Pass>) -> Done {
    for hand in hands {
        if !passes.is_empty() {
            let pass = passes.remove(0);
            hand.passes.push(pass)?;
        }
    }
    Ok(())
}

// What a tally counts.
fn counted(alloc: Global, tally: Result<Tally>) -> std::result::Result<String, AllocError> {
    match tally {
        Ok(tally) => {
            let text = format!(in alloc; "tally {:?}", tally.counts());
            drop(tally);
            text
        }
        Err(error) => {
            let text = format!(in alloc; "{error}");
            drop(error);
            text
        }
    }
}

fn tally<R: Wait>(
    rt: &R,
    alloc: Global,
    connection: &Connection,
    hands: &mut [Hand],
) -> std::result::Result<String, AllocError> {
    let passes = passes_of(alloc, hands)?;
    let told = counted(alloc, connection.tally(rt, &passes));
    give_back(hands, passes)?;
    told
}

// The first hand gets all channels.
fn gather(alloc: Global, hands: &mut [Hand]) -> Done {
    let mut all = Vec::new(alloc);
    for hand in hands.iter_mut() {
        for _ in 0..hand.channels.len() {
            if let Some(channel) = hand.channels.pop() {
                all.push(channel)?;
            }
        }
    }
    if let Some(first) = hands.first_mut() {
        first.channels = all;
    }
    Ok(())
}

// The last hand gets the last channel of the first.
fn give(hands: &mut [Hand]) -> Done {
    let channel = match hands.first_mut() {
        Some(first) => first.channels.pop(),
        None => None,
    };
    match (channel, hands.last_mut()) {
        (Some(channel), Some(last)) => {
            last.channels.push(channel)?;
            Ok(())
        }
        (channel, _) => {
            drop(channel);
            Ok(())
        }
    }
}

/// Does an act with all hands, and says what is seen. Whether it is one.
pub fn act<R: Wait>(
    rt: &R,
    alloc: Global,
    connection: &Connection,
    hands: &mut [Hand],
    word: &str,
) -> std::result::Result<bool, AllocError> {
    let told = match word {
        "numbers" => numbers(alloc, hands)?,
        "receipts" => {
            let journal = journal(rt, connection)?;
            let told = receipts(alloc, hands, &journal);
            drop(journal);
            told?
        }
        "tally" => tally(rt, alloc, connection, hands)?,
        "gather" => {
            gather(alloc, hands)?;
            return Ok(true);
        }
        "give" => {
            give(hands)?;
            return Ok(true);
        }
        _ => return Ok(false),
    };
    if let Some(first) = hands.first_mut() {
        first.say(told.as_str())?;
    }
    Ok(true)
}
