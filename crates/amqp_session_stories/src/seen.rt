//! What is seen, in words.

use crate::frames::push_octets;
use amqp_frame::RawKind;
use amqp_session::{Answer, Asked, AuthList, Event, Handed};
use amqp_types::{LongString, NoMemory, Text};
use std::alloc::Global;

/// Puts the answer to a promise: `nothing` where there is none, or none that was not taken.
pub fn push_answer(
    seen: &mut String,
    answer: &Option<amqp_session::Result<Answer>>,
) -> Result<(), NoMemory> {
    match answer {
        None => seen.push_str("nothing")?,
        Some(Ok(answer)) => write!(seen, "{answer:?}")?,
        Some(Err(error)) => write!(seen, "error {error}")?,
    }
    Ok(())
}

/// Puts how a session ended: `nothing` where it did not.
pub fn push_end(seen: &mut String, end: &Option<amqp_session::Result<()>>) -> Result<(), NoMemory> {
    match end {
        None => seen.push_str("nothing")?,
        Some(Ok(())) => seen.push_str("closed")?,
        Some(Err(error)) => write!(seen, "error {error}")?,
    }
    Ok(())
}

/// Puts an event: `nothing` where there is none, or none that was not taken.
pub fn push_event(seen: &mut String, event: &Option<Event>) -> Result<(), NoMemory> {
    match event {
        None => seen.push_str("nothing")?,
        Some(Event::Connected) => seen.push_str("connected")?,
        Some(Event::ConnectionBlocked(reason)) => write!(seen, "blocked '{}'", reason.as_str())?,
        Some(Event::ConnectionUnblocked) => seen.push_str("unblocked")?,
        Some(Event::SendFlow(true)) => seen.push_str("send_flow on")?,
        Some(Event::SendFlow(false)) => seen.push_str("send_flow off")?,
        Some(Event::Error(error)) => write!(seen, "error {error}")?,
    }
    Ok(())
}

// ---- frames that were handed out

// The first octet of a frame of this kind.
fn kind_of(kind: RawKind) -> u8 {
    match kind {
        RawKind::RawMethod => 1,
        RawKind::Header => 2,
        RawKind::Body => 3,
    }
}

// The octets of a frame that was handed out.
fn octets_of(alloc: Global, frame: &Handed) -> Result<Vec<u8>, NoMemory> {
    let payload = frame.bytes.as_bytes();
    let len = payload.len().min(0xffff_ffff) as u32;
    let mut octets = vec![in alloc; kind_of(frame.kind)]?;
    octets.extend_from_slice(&frame.channel.to_be_bytes())?;
    octets.extend_from_slice(&len.to_be_bytes())?;
    octets.extend_from_slice(payload)?;
    octets.push(206)?;
    Ok(octets)
}

/// Puts the names of frames that were handed out, with blanks between; `nothing` where there is none.
pub fn push_handed(alloc: Global, seen: &mut String, frames: &[Handed]) -> Result<(), NoMemory> {
    if frames.is_empty() {
        return Ok(seen.push_str("nothing")?);
    }
    for frame in frames {
        push_octets(seen, &octets_of(alloc, frame)?)?;
    }
    Ok(())
}

// ---- answers of a provider

/// Puts octets; those that are not printable by their numbers, and so the backslash.
pub fn push_text(seen: &mut String, octets: &[u8]) -> Result<(), NoMemory> {
    for octet in octets {
        match *octet {
            b'\\' | 0..=31 | 127..=255 => write!(seen, "\\x{octet:02x}")?,
            printable => seen.push(printable as char)?,
        }
    }
    Ok(())
}

// Puts what was asked, and the answer to it.
fn push_said(
    seen: &mut String,
    asked: &str,
    answer: &Result<LongString, Text>,
) -> Result<(), NoMemory> {
    seen.push_str(asked)?;
    match answer {
        Ok(octets) => push_text(seen, octets.as_bytes()),
        Err(text) => {
            write!(seen, "refused {}", text.as_str())?;
            Ok(())
        }
    }
}

fn push_asked(seen: &mut String, asked: &Asked) -> Result<(), NoMemory> {
    match asked {
        Asked::Mechanism(name) => {
            seen.push_str("mechanism ")?;
            push_text(seen, name.as_bytes())?;
        }
        Asked::Starter(answer) => push_said(seen, "starter ", answer)?,
        Asked::Challenge(answer) => push_said(seen, "challenge ", answer)?,
        Asked::ValidFor(Some(time)) => write!(seen, "valid {time}")?,
        Asked::ValidFor(None) => seen.push_str("valid none")?,
        Asked::Refreshed(answer) => push_said(seen, "refreshed ", answer)?,
    }
    Ok(())
}

/// Puts all that a provider answered, with commas between; `nothing` where it was not asked.
pub fn push_answers(seen: &mut String, auths: &AuthList) -> Result<(), NoMemory> {
    if auths.as_slice().is_empty() {
        return Ok(seen.push_str("nothing")?);
    }
    for asked in auths.as_slice() {
        if !seen.is_empty() {
            seen.push_str(", ")?;
        }
        push_asked(seen, asked)?;
    }
    Ok(())
}
