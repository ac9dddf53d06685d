//! What a connection and its channels tell of themselves, and what stands in its journal.
//!
//! `status` and `channel N` say what the connection and a channel are, `names` the user and the virtual host,
//! `agreed` the numbers agreed on. `drops` says which channels were let go, and whether a turn followed;
//! `turns` whether each step of the port has its turn; `settled` whether the journal began anew; `settle` lets it
//! begin anew, and says whether all its entries went and are counted, and the next entry goes on; `left N` whether
//! the answer to that promise is there; `gone N` how many events, and frames of that channel, went that nobody took.

ghost use Rattle.amqp_hub.specs.Lending.{GoesOn};

use amqp_session::{Cmd, Result};
use amqp_types::NoMemory;
use lapin_connection::{ChannelStatus, Connection, ConnectionStatus, Entry, Hub};
use lapin_connection_acts::gate::{Gate, kind_of};
use lapin_connection_acts::hand::{Done, Hand, Numbers, Stage, numbered, numbers_of};
use std::alloc::{AllocError, Global};
use std::sync::Wait;

// ---- states

// Adds a word where it holds.
fn push_if(told: &mut String, word: &str, holds: bool) -> Done {
    if holds {
        told.push_str(" ")?;
        told.push_str(word)?;
    }
    Ok(())
}

fn connection_words<R: Wait>(rt: &R, status: &ConnectionStatus, told: &mut String) -> Done {
    push_if(told, "connecting", status.connecting(rt))?;
    push_if(told, "connected", status.connected(rt))?;
    push_if(told, "reconnecting", status.reconnecting(rt))?;
    push_if(told, "closing", status.closing(rt))?;
    push_if(told, "closed", status.closed(rt))?;
    push_if(told, "errored", status.errored(rt))?;
    push_if(told, "blocked", status.blocked(rt))
}

fn channel_words<R: Wait>(rt: &R, status: &ChannelStatus, told: &mut String) -> Done {
    push_if(told, "initializing", status.initializing(rt))?;
    push_if(told, "connected", status.connected(rt))?;
    push_if(told, "reconnecting", status.reconnecting(rt))?;
    push_if(told, "closing", status.closing(rt))?;
    push_if(told, "confirm", status.confirm(rt))
}

// Says which of its states a connection tells.
fn say_status<R: Wait>(rt: &R, connection: &Connection, hand: &mut Hand) -> Done {
    match connection.status() {
        Ok(status) => {
            let mut told = String::new(hand.alloc);
            let done = connection_words(rt, &status, &mut told);
            drop(status);
            done?;
            hand.say("is")?;
            hand.said.push_str(told.as_str())
        }
        Err(NoMemory) => Err(AllocError),
    }
}

// Says which of its states a channel tells.
fn say_channel<R: Wait>(rt: &R, hand: &mut Hand, id: u16) -> Done {
    let status = match numbered(&hand.channels, id) {
        Some(channel) => channel.status(),
        None => return hand.say("NO CHANNEL"),
    };
    match status {
        Ok(status) => {
            let mut told = String::new(hand.alloc);
            let done = channel_words(rt, &status, &mut told);
            drop(status);
            done?;
            hand.say("channel is")?;
            hand.said.push_str(told.as_str())
        }
        Err(NoMemory) => Err(AllocError),
    }
}

// The virtual host and the user of a status.
fn names<R: Wait>(
    rt: &R,
    alloc: Global,
    status: &ConnectionStatus,
) -> std::result::Result<String, AllocError> {
    match (status.vhost(rt), status.username(rt)) {
        (Ok(vhost), Ok(user)) => {
            let host = match vhost.as_bytes() {
                b"/" => "/",
                b"v" => "v",
                _ => "ANOTHER",
            };
            let text = format!(in alloc; "{} at {host}", user.as_str());
            drop(vhost);
            drop(user);
            text
        }
        (vhost, user) => {
            drop(vhost);
            drop(user);
            Err(AllocError)
        }
    }
}

fn say_names<R: Wait>(rt: &R, connection: &Connection, hand: &mut Hand) -> Done {
    match connection.status() {
        Ok(status) => {
            let text = names(rt, hand.alloc, &status);
            drop(status);
            hand.say(text?.as_str())
        }
        Err(NoMemory) => Err(AllocError),
    }
}

// Says what was agreed on: the channels, the octets of a frame, the seconds between heartbeats.
fn say_numbers<R: Wait>(rt: &R, connection: &Connection, hand: &mut Hand) -> Done {
    let agreed = connection.configuration(rt);
    let text = format!(in hand.alloc;
        "agreed {} {} {}",
        agreed.channel_max(),
        agreed.frame_max(),
        agreed.heartbeat()
    )?;
    hand.say(text.as_str())
}

// ---- the journal

/// A copy of the journal.
pub fn journal<R: Wait>(
    rt: &R,
    connection: &Connection,
) -> std::result::Result<Vec<Entry>, AllocError> {
    match connection.journal(rt) {
        Ok(journal) => Ok(journal),
        Err(error) => {
            drop(error);
            Err(AllocError)
        }
    }
}

// Says which handles were let go, and whether a turn followed directly.
fn say_drops<R: Wait>(rt: &R, connection: &Connection, hand: &mut Hand) -> Done {
    let journal = journal(rt, connection)?;
    let said = say_each_drop(hand, &journal);
    drop(journal);
    said
}

fn say_each_drop(hand: &mut Hand, journal: &[Entry]) -> Done {
    for at in 0..journal.len() {
        if let Entry::Own(Cmd::DropChannel(channel)) = &journal[at] {
            let id = channel.id;
            let follows = match journal.get(at + 1) {
                Some(Entry::Turn(_)) => "a turn",
                _ => "NO TURN",
            };
            let text = format!(in hand.alloc; "drops channel {id} before {follows}")?;
            hand.say(text.as_str())?;
        }
    }
    Ok(())
}

/// Whether a receipt names the entry of an opening or of listening.
pub fn names_its_entry(journal: &[Entry], numbers: &Numbers) -> bool {
    let (pass, nth, entry) = *numbers;
    match journal.get(entry as usize) {
        Some(Entry::Called(p, n, Cmd::OpenChannel, Some(_))) => *p == pass && *n == nth,
        Some(Entry::Called(p, n, Cmd::Listen, None)) => *p == pass && *n == nth,
        _ => false,
    }
}

// The kinds of the steps of all turns.
fn kinds_of(alloc: Global, journal: &[Entry]) -> std::result::Result<Vec<u64>, AllocError> {
    let mut kinds = Vec::new(alloc);
    for entry in journal {
        if let Entry::Turn(turn) = entry {
            kinds.push(kind_of(&turn.step))?;
        }
    }
    Ok(kinds)
}

// Says whether each step that the port told has its turn, once and in order.
fn say_turns<R: Wait>(rt: &R, connection: &Connection, gate: &Gate, hand: &mut Hand) -> Done {
    let journal = journal(rt, connection)?;
    let kinds = kinds_of(hand.alloc, &journal);
    drop(journal);
    let holds = gate.told_so(rt, &kinds?);
    hand.say_whether("each step has its turn", holds)
}

// How many entries stand before the base.
fn settled<R: Wait>(rt: &R, connection: &Connection) -> std::result::Result<u64, AllocError> {
    match connection.base(rt) {
        Ok(base) => {
            let entries = base.entries();
            drop(base);
            Ok(entries)
        }
        Err(error) => {
            drop(error);
            Err(AllocError)
        }
    }
}

// Says whether the journal began anew, so that few entries are left of many, or never.
fn say_settled<R: Wait>(rt: &R, connection: &Connection, hand: &mut Hand) -> Done {
    let journal = journal(rt, connection)?;
    let kept = journal.len();
    drop(journal);
    match settled(rt, connection)? {
        0 if kept > 20 => hand.say("keeps all"),
        before if kept <= 3 && before >= 20 => hand.say("begins anew"),
        _ => hand.say("NEITHER"),
    }
}

// Lets the journal begin anew, and says what went; then a listener's receipt names the next entry.
fn say_settle<R: Wait>(rt: &R, connection: &Connection, hand: &mut Hand) -> Done {
    let journal_before = journal(rt, connection)?;
    let kept = journal_before.len() as u64;
    drop(journal_before);
    let before = settled(rt, connection)?;
    match connection.settle(rt) {
        Ok(gone) => {
            let begins = settled(rt, connection)?;
            let whole = gone == kept && begins == before.saturating_add(kept);
            hand.say_whether("all went and is counted", whole && kept > 0)?;
            say_next_entry(rt, connection, hand, begins)
        }
        Err(error) => hand.say_error(error),
    }
}

// Says whether the entry of a command is the next after so many, and stands first in the journal.
fn say_next_entry<R: Wait>(rt: &R, connection: &Connection, hand: &mut Hand, count: u64) -> Done {
    let numbers = match hand.passes.first_mut() {
        Some(pass) => match connection.events_listener(rt, pass) {
            Ok(listener) => {
                let numbers = numbers_of(Some(listener.receipt()));
                drop(listener);
                numbers
            }
            Err(error) => return hand.say_error(error),
        },
        None => return hand.say("NO PASS"),
    };
    let journal = journal(rt, connection)?;
    let (pass, nth, entry) = numbers;
    let first = names_its_entry(&journal, &(pass, nth, entry.saturating_sub(count)));
    drop(journal);
    hand.say_whether("the next goes on", first && entry == count)
}

// Says how many events went that nobody took, and how many frames of a channel.
fn say_gone<R: Wait>(rt: &R, connection: &Connection, hand: &mut Hand, id: u16) -> Done {
    let events = connection.events_gone(rt);
    let frames = match numbered(&hand.channels, id) {
        Some(channel) => channel.frames_gone(rt),
        None => return hand.say("NO CHANNEL"),
    };
    let text = format!(in hand.alloc; "{events} events and {frames} frames went")?;
    hand.say(text.as_str())
}

// Whether this promise has an answer that was not taken.
#[tactic(auto, using(amqp_hub::proofs::Lending::goes_taken))]
fn has_answer(hub: &mut Hub, number: u64) -> bool
    ensures { GoesOn hub.old hub.new }
{
    match hub.poll(number) {
        Some(answer) => {
            drop(answer);
            true
        }
        None => false,
    }
}

fn say_answered<R: Wait>(rt: &R, connection: &Connection, hand: &mut Hand, number: u64) -> Done {
    if connection.with_hub(rt, |hub| has_answer(hub, number)) {
        hand.say("an answer is left")
    } else {
        hand.say("no answer is left")
    }
}

/// Says what a connection tells. Whether the act asks for it.
pub fn act<R: Wait>(
    rt: &R,
    stage: &Stage<'_>,
    hand: &mut Hand,
    word: &str,
    number: u64,
) -> std::result::Result<bool, AllocError> {
    let Some(connection) = stage.connection else {
        return Ok(false);
    };
    match word {
        "status" => say_status(rt, connection, hand)?,
        "channel" => say_channel(rt, hand, (number % 65_536) as u16)?,
        "names" => say_names(rt, connection, hand)?,
        "agreed" => say_numbers(rt, connection, hand)?,
        "drops" => say_drops(rt, connection, hand)?,
        "turns" => say_turns(rt, connection, stage.gate, hand)?,
        "settled" => say_settled(rt, connection, hand)?,
        "settle" => say_settle(rt, connection, hand)?,
        "gone" => say_gone(rt, connection, hand, (number % 65_536) as u16)?,
        "left" => say_answered(rt, connection, hand, number)?,
        _ => return Ok(false),
    }
    Ok(true)
}
