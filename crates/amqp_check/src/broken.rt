//! A place at which no whole frame stands, as an engineer reads it: where it is, the octets there, and why.

use crate::cause::{CauseAt, HEAD, cause_of};
use crate::protocol::other_protocol;
use std::fmt;

// How many octets at a place are shown.
const SHOWN: usize = 16;

// The least octets of a frame, which ends with one octet.
const LEAST: u64 = 8;

/// A place of one side at which no whole frame stands.
#[derive(Clone, Copy)]
pub struct Broken<'a> {
    /// `client` or `server`.
    pub side: &'static str,
    /// The place, counted from 0.
    pub place: u64,
    /// The octets of that side from there on.
    pub rest: &'a [u8],
    /// Whether a frame begins there that is not all there.
    pub is_cut: bool,
}

// How many octets a frame has, as its head says, where that is there.
fn whole_len(octets: &[u8]) -> Option<u64> {
    let [_, _, _, a, b, c, d, ..] = octets else {
        return None;
    };
    let size = u32::from_be_bytes([*a, *b, *c, *d]);
    Some(size as u64 + LEAST)
}

// How much of a frame is there.
fn show_cut<W: fmt::Write>(rest: &[u8], f: &mut fmt::Formatter<W>) -> fmt::Result {
    let there = rest.len();
    match whole_len(rest) {
        Some(whole) => write!(f, "{there} of its {whole} octets are there"),
        None => write!(
            f,
            "{there} octets are there, and its size stands before octet {HEAD}"
        ),
    }
}

// Why no frame stands at a place, and what else stands there.
fn show_bad<W: fmt::Write>(place: u64, rest: &[u8], f: &mut fmt::Formatter<W>) -> fmt::Result {
    if let Some(cause) = cause_of(rest) {
        let cause = CauseAt { cause, place };
        write!(f, "{cause}")?;
    }
    match other_protocol(rest) {
        Some(looks) if place == 0 => write!(f, "\n{looks}"),
        _ => Ok(()),
    }
}

impl<'a> fmt::Display for Broken<'a> {
    fn fmt<W: fmt::Write>(&self, f: &mut fmt::Formatter<W>) -> fmt::Result {
        let (side, place) = (self.side, self.place);
        let wrong = if self.is_cut {
            "a frame begins here, and is not all there"
        } else {
            "no frame stands here"
        };
        write!(f, "{side} byte {place}: {wrong}\noctets:")?;
        for octet in self.rest.iter().take(SHOWN) {
            write!(f, " {octet:02x}")?;
        }
        f.write_str("\n")?;
        if self.is_cut {
            show_cut(self.rest, f)
        } else {
            show_bad(place, self.rest, f)
        }
    }
}
