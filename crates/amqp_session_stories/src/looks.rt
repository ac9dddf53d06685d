//! What is seen of a session.

use crate::acts::commits_within;
use crate::frames::{frame_of, push_frame};
use crate::seen;
use crate::stories::Done;
use amqp_session::Session;
use amqp_types::NoMemory;
use std::alloc::Global;

/// Puts a number, or `none`.
pub fn push_number(seen: &mut String, number: Option<u64>) -> Result<(), NoMemory> {
    match number {
        Some(number) => write!(seen, "{number}")?,
        None => seen.push_str("none")?,
    }
    Ok(())
}

/// Puts a word, which is what is seen.
pub fn push_word(seen: &mut String, word: &str) -> Result<Done, NoMemory> {
    seen.push_str(word)?;
    Ok(Done::Seen)
}

/// `yes` or `no`.
pub fn yes_or_no(yes: bool) -> &'static str {
    if yes { "yes" } else { "no" }
}

/// What is seen by one word.
pub fn alone(
    alloc: Global,
    session: &mut Session,
    act: &str,
    seen: &mut String,
) -> Result<Done, NoMemory> {
    match act {
        "written" => written(alloc, session, seen)?,
        "event" => event(session, seen)?,
        "end" => end(session, seen)?,
        "agreed" => agreed(session, seen)?,
        "shown" => write!(seen, "{session:?}")?,
        "vhost" => seen::push_text(seen, session.vhost()?.as_bytes())?,
        "username" => seen.push_str(session.username()?.as_str())?,
        _ => {
            return match word_of(session, act) {
                Some(word) => push_word(seen, word),
                None => counted(session, act, seen),
            };
        }
    }
    Ok(Done::Seen)
}

// Where a session stands with its link.
fn link_of(session: &Session) -> &'static str {
    match (session.wants_link(), session.is_asked(), session.is_open()) {
        (true, false, false) => "wanted",
        (true, true, false) => "asked",
        (false, false, true) => "open",
        _ => "gone",
    }
}

// What is one word of a few.
fn word_of(session: &Session, act: &str) -> Option<&'static str> {
    Some(match act {
        "state" => session.state().name(),
        "link" => link_of(session),
        "blocked" => yes_or_no(session.blocked()),
        "drops_input" => yes_or_no(session.drops_input()),
        "wants_link" => yes_or_no(session.wants_link()),
        "recovers" => yes_or_no(session.recovers()),
        "ended" => yes_or_no(session.has_ended()),
        _ => return None,
    })
}

// What is a number.
fn number_in(session: &Session, act: &str) -> Option<u64> {
    Some(match act {
        "listed" => session.listed(),
        "frame_limit" => session.frame_limit(),
        "capacity" => session.capacity(),
        "waiting" => session.waiting(),
        "unsent" => session.unsent(),
        "promises" => session.promises(),
        "vhost_len" => session.vhost_len() as u64,
        _ => return None,
    })
}

fn counted(session: &Session, act: &str, seen: &mut String) -> Result<Done, NoMemory> {
    match number_in(session, act) {
        Some(number) => {
            push_number(seen, Some(number))?;
            Ok(Done::Seen)
        }
        None => Ok(Done::Unknown),
    }
}

// The numbers that were agreed: of channels, of a frame's octets, of a heartbeat's seconds.
fn agreed(session: &Session, seen: &mut String) -> Result<(), NoMemory> {
    let numbers = session.configuration();
    write!(
        seen,
        "{} {} {}",
        numbers.channel_max, numbers.frame_max, numbers.heartbeat
    )?;
    Ok(())
}

// The next frame to go out, which is committed.
fn written(alloc: Global, session: &mut Session, seen: &mut String) -> Result<(), NoMemory> {
    match session.next_frame(session.capacity() - session.unsent()) {
        Some(frame) => {
            let done = push_frame(alloc, &frame, seen);
            drop(frame);
            done
        }
        None => Ok(seen.push_str("nothing")?),
    }
}

// The next event, which is taken.
fn event(session: &mut Session, seen: &mut String) -> Result<(), NoMemory> {
    let event = session.event();
    let done = seen::push_event(seen, &event);
    drop(event);
    done
}

// How the session ended.
fn end(session: &Session, seen: &mut String) -> Result<(), NoMemory> {
    let end = session.end();
    let done = seen::push_end(seen, &end);
    drop(end);
    done
}

// ---- by a number

/// Whether what this word looks at is named by a number.
pub fn is_numbered(word: &str) -> bool {
    matches!(word, "opened" | "answer" | "frames" | "written_within")
}

/// What is seen of a promise, or of room for so many bytes.
pub fn numbered(
    alloc: Global,
    session: &mut Session,
    word: &str,
    number: u64,
    seen: &mut String,
) -> Result<Done, NoMemory> {
    match word {
        "opened" => push_number(seen, session.opening(number).map(|id| id as u64))?,
        "answer" => answer(session, number, seen)?,
        "frames" => frames(alloc, session, number, seen)?,
        "written_within" => seen.push_str(yes_or_no(commits_within(session, number)))?,
        _ => return Ok(Done::Unknown),
    }
    Ok(Done::Seen)
}

// The answer to a promise, which is taken.
fn answer(session: &mut Session, number: u64, seen: &mut String) -> Result<(), NoMemory> {
    let answer = session.answer(number);
    let done = seen::push_answer(seen, &answer);
    drop(answer);
    done
}

// The frames handed out of the channel that a promise opened, which are taken.
fn frames(
    alloc: Global,
    session: &mut Session,
    opened: u64,
    seen: &mut String,
) -> Result<(), NoMemory> {
    let frames = session.take_frames(opened)?;
    seen::push_handed(alloc, seen, &frames)
}

/// How many bytes could be unsent once this frame was read. It is not read.
pub fn capacity_after(
    alloc: Global,
    session: &Session,
    name: &str,
    seen: &mut String,
) -> Result<Done, NoMemory> {
    match frame_of(alloc, name)? {
        Some(frame) => {
            let octets = session.capacity_after(&frame);
            drop(frame);
            push_number(seen, Some(octets))?;
            Ok(Done::Seen)
        }
        None => Ok(Done::Unknown),
    }
}
