//! Why a line of a capture is refused.

use crate::captured::{CaptureLine, line_captured, side_of};
use amqp_replay::decimals::number;
use amqp_replay::limits::{SCRIPT_BYTES, SCRIPT_LINES, ZERO_BYTES};
use amqp_replay::lines::{Line, Lines, is_printable, is_within_limits};
use amqp_replay::words::{cut, is};
use amqp_types::NoMemory;
use hex::FromHexError;
use std::alloc::Global;

// Why a part that digits spell is none.
fn why_digits(alloc: Global, part: &[u8]) -> Result<Option<String>, NoMemory> {
    match hex::decode(alloc, part) {
        Ok(octets) => {
            drop(octets);
            Ok(None)
        }
        Err(FromHexError::OutOfMemory) => Err(NoMemory),
        Err(FromHexError::InvalidHexCharacter { c, .. }) => {
            Ok(Some(format!(in alloc; "`{c}` is no hexadecimal digit")?))
        }
        Err(_) => Ok(Some("an odd count of digits".to_string(alloc)?)),
    }
}

// Why a part of what octets are spelled by is none.
fn why_part(alloc: Global, part: &[u8]) -> Result<Option<String>, NoMemory> {
    match part {
        [] => Ok(Some("a part that spells nothing".to_string(alloc)?)),
        [b'z', digits @ ..] => match number(digits, u64::MAX) {
            None => Ok(Some("`z` stands before a number of 64 bits".to_string(alloc)?)),
            Some(_) => Ok(None),
        },
        digits => why_digits(alloc, digits),
    }
}

// How many zeros a part spells by a number.
fn zeros_in(part: &[u8]) -> u64 {
    match part {
        [b'z', digits @ ..] => number(digits, u64::MAX).unwrap_or(0),
        _ => 0,
    }
}

// Why no octets are spelled.
fn why_data(alloc: Global, text: &[u8], left: u64) -> Result<String, NoMemory> {
    let mut rest = if is(text, b"-") { None } else { Some(text) };
    let mut zeros: u64 = 0;
    'parts: while let Some(more) = rest {
        let (part, after) = cut(more, b'+');
        if let Some(why) = why_part(alloc, part)? {
            return Ok(why);
        }
        zeros = zeros.saturating_add(zeros_in(part));
        rest = after;
    }
    if zeros > left {
        return Ok(format!(in alloc; "numbers spell more than {ZERO_BYTES} zeros")?);
    }
    Ok("one octet at least is wanted".to_string(alloc)?)
}

// Why a line is refused that the limits leave room for.
fn why_content(alloc: Global, content: &[u8], left: u64) -> Result<String, NoMemory> {
    if !is_printable(content) {
        return Ok("an octet that is no printable ASCII".to_string(alloc)?);
    }
    let (word, rest) = cut(content, b' ');
    match (side_of(word), rest) {
        (None, _) => Ok("a line begins with `client` or `server`".to_string(alloc)?),
        (Some(_), None) => Ok("octets are wanted behind the side".to_string(alloc)?),
        (Some(_), Some(text)) => why_data(alloc, text, left),
    }
}

// Why a line is refused, where so many zeros may still be spelled by numbers.
fn why_line(alloc: Global, line: &Line, left: u64) -> Result<String, NoMemory> {
    if is_within_limits(line) {
        return why_content(alloc, line.content, left);
    }
    Ok(format!(in alloc; "a capture has {SCRIPT_LINES} lines and {SCRIPT_BYTES} octets at most")?)
}

/// Why this is the first line of a capture that is refused.
pub fn why_refused(alloc: Global, text: &[u8], refused: u64) -> Result<Option<String>, NoMemory> {
    let mut lines = Lines::new(text);
    let mut left = ZERO_BYTES;
    'lines: while let Some(line) = lines.take_line() {
        match line_captured(alloc, &line, left)? {
            CaptureLine::Nothing => {}
            CaptureLine::Refused => {
                let why = why_line(alloc, &line, left)?;
                return Ok(Some(format!(in alloc; "line {refused}: {why}")?));
            }
            CaptureLine::Piece(_, bytes, zeros) => {
                drop(bytes);
                left = left.saturating_sub(zeros);
            }
        }
    }
    Ok(None)
}
