//! The acts of stories.

ghost use Rattle.std.specs.Prelude.{◌≤◌, length};

use crate::locked::Story;
use crate::names::push_names;
use amqp_hub::Entry;
use amqp_locked::{Polled, hear};
use amqp_session::{Answer, ChanRef, Cmd, Result};
use std::alloc::{AllocError, Global};

type Done = std::result::Result<(), AllocError>;

// What is seen comes behind a comma, where something was.
fn see(told: &mut String, word: &str) -> Done {
    if !told.is_empty() {
        told.push_str(", ")?;
    }
    told.push_str(word)
}

// ---- turns

// Takes one step of the line, and lets go what nobody will take. Whether memory was found.
fn turn(story: &mut Story, space: &mut [u8]) -> bool
    requires { 4096 ≤ length space.old }
{
    let heard = hear(&mut story.line, space);
    let applied = story
        .locked
        .apply(heard, &mut story.line, &mut story.provider);
    story.locked.let_go();
    succeeds(applied)
}

// Whether this is Ok. It takes it.
fn succeeds(applied: Result<()>) -> bool {
    match applied {
        Ok(()) => true,
        Err(error) => {
            drop(error);
            false
        }
    }
}

fn turns(story: &mut Story, count: u64) -> Done {
    for _ in 0..count {
        let mut space = [0; 4096];
        if !turn(story, &mut space) {
            return Err(AllocError);
        }
    }
    Ok(())
}

// ---- commands

fn open(story: &mut Story) -> Done {
    let Some(pass) = story.passes.first_mut() else {
        return Err(AllocError);
    };
    match story.locked.open(pass) {
        Ok((_number, receipt, mark)) => {
            drop(receipt);
            story.marks.push(Some(mark))?;
            Ok(())
        }
        Err(error) => {
            drop(error);
            Err(AllocError)
        }
    }
}

fn ask(story: &mut Story) -> Done {
    let Some(pass) = story.passes.first_mut() else {
        return Err(AllocError);
    };
    let channel = ChanRef {
        id: 1,
        opened: Some(1),
    };
    match story.locked.ask(pass, Cmd::Flow(channel, false)) {
        Ok((_number, receipt, mark)) => {
            drop(receipt);
            story.marks.push(Some(mark))?;
            Ok(())
        }
        Err(error) => {
            drop(error);
            Err(AllocError)
        }
    }
}

// ---- handles

// The handle of this number is dropped; the connection's has the number 0.
fn let_go(story: &mut Story, number: usize) -> Done {
    if number == 0 {
        drop(story.connection.take());
    } else if let Some(mark) = story.marks.get_mut(number - 1) {
        drop(mark.take());
    }
    Ok(())
}

fn spend(story: &mut Story, number: usize) -> Done {
    if let Some(Some(mark)) = story.marks.get(number.saturating_sub(1)) {
        mark.spend();
    }
    Ok(())
}

// ---- what is looked at

// What an answer says. It takes it.
fn said_by(alloc: Global, polled: Polled) -> std::result::Result<String, AllocError> {
    let number = polled.number();
    text_of(alloc, number, polled.answer(None))
}

fn text_of(
    alloc: Global,
    number: u64,
    answer: Result<Answer>,
) -> std::result::Result<String, AllocError> {
    match answer {
        Ok(answer) => format!(in alloc; "answer {number} {answer:?}"),
        Err(error) => {
            let text = format!(in alloc; "answer {number} {error}");
            drop(error);
            text
        }
    }
}

fn answer(story: &mut Story, number: u64, told: &mut String) -> Done {
    match story.locked.poll(number) {
        Some(polled) => {
            let text = said_by(story.alloc, polled)?;
            see(told, text.as_str())
        }
        None => see(told, "no answer"),
    }
}

// A turn, a command of a caller, or whose handle was let go.
fn push_entry(alloc: Global, told: &mut String, entry: &Entry) -> Done {
    match entry {
        Entry::Turn(_) => told.push_str(" turn"),
        Entry::Called(..) => told.push_str(" command"),
        Entry::Own(Cmd::DropChannel(channel)) => {
            let id = channel.id;
            let text = format!(in alloc; " drop-channel-{id}")?;
            told.push_str(text.as_str())
        }
        Entry::Own(Cmd::DropConnection) => told.push_str(" drop-connection"),
        Entry::Own(_) => told.push_str(" another"),
    }
}

// The entries since the last look.
fn push_entries(story: &mut Story, entries: &[Entry], told: &mut String) -> Done {
    let from = story.entries.min(entries.len());
    see(told, "journal")?;
    for entry in &entries[from..] {
        push_entry(story.alloc, told, entry)?;
    }
    story.entries = entries.len();
    Ok(())
}

fn journal(story: &mut Story, told: &mut String) -> Done {
    match story.locked.journal() {
        Ok(entries) => {
            let done = push_entries(story, &entries, told);
            drop(entries);
            done
        }
        Err(error) => {
            drop(error);
            Err(AllocError)
        }
    }
}

// The frames since the last look.
fn wrote(story: &mut Story, told: &mut String) -> Done {
    see(told, "wrote")?;
    let heard = story.line.port().server.heard();
    let from = story.octets.min(heard.len());
    push_names(told, &heard[from..])?;
    story.octets = heard.len();
    Ok(())
}

fn waits(story: &mut Story, told: &mut String) -> Done {
    if story.locked.has_unasked() {
        see(told, "waits")
    } else {
        see(told, "waits for nothing")
    }
}

/// Does an act, and tells what is seen at it, where it looks.
pub fn act(story: &mut Story, word: &str, number: u64, told: &mut String) -> Done {
    match word {
        "turns" => turns(story, number),
        "open" => open(story),
        "ask" => ask(story),
        "drop" => let_go(story, number as usize),
        "spend" => spend(story, number as usize),
        "answer" => answer(story, number, told),
        "journal" => journal(story, told),
        "wrote" => wrote(story, told),
        "waits" => waits(story, told),
        _ => see(told, "NO ACT"),
    }
}
