//! Captures of a link, read from lines.

ghost use Rattle.std.specs.Prelude.{◌≡◌, ◌≤◌, ◌++◌, IfOk, OnOk, Option};
ghost use Rattle.amqp_program.specs.Captures.{with_piece, side_of as side_named, piece_captured, content_captured, line_captured, octets_spelled, len_on, octets_on, zeros_captured, captured, line_with};
ghost use Rattle.amqp_replay.specs.Lines.{lines};
ghost use Rattle.amqp_replay.specs.declared.limits.TheConstants.{ZERO_BYTES};
ghost use Rattle.amqp_program.specs.CapturesRead.{capture_read};

use amqp_replay::data::read_data;
use amqp_replay::limits::ZERO_BYTES;
use amqp_replay::lines::{Line, Lines, is_ignored, is_printable, is_within_limits};
use amqp_replay::words::{cut, is};
use amqp_types::{NoMemory, Payload};
use std::alloc::Global;
use std::marker::Model;

/// A side of a link.
#[derive(Clone, Copy, Debug, PartialEq, Eq)]
pub enum Side {
    Client,
    Server,
}

/// What a line of a capture says.
#[derive(Drop)]
pub enum CaptureLine {
    /// Nothing: it is empty, or a comment.
    Nothing,
    /// Nothing that a line may say.
    Refused,
    /// These octets of a side, and how many of them are zeros that a number spells.
    Piece(Side, Payload, u64),
}

/// What was captured of both sides.
#[derive(Drop)]
pub struct Captured {
    /// The client's octets.
    pub client: Vec<u8>,
    /// The server's octets.
    pub server: Vec<u8>,
}

impl Model for Captured {
    ghost use Rattle.amqp_program.specs.Captures.{Captured};

    ghost Value = { Captured };

    ghost view = { λ c. record { client = c.client.items; server = c.server.items } };
}

impl Captured {
    // More octets of a side.
    fn add(&mut self, side: Side, bytes: &Payload) -> Result<(), NoMemory>
        ensures { OnOk result (self.new ≡ with_piece side bytes.now self.old) }
    {
        match side {
            Side::Client => self.client.extend_from_slice(bytes.as_bytes())?,
            Side::Server => self.server.extend_from_slice(bytes.as_bytes())?,
        }
        Ok(())
    }
}

/// What was read of a capture.
#[derive(Drop)]
pub enum Capture {
    /// The octets of both sides.
    Sides(Captured),
    /// The number of the first line that is refused.
    Refused(u64),
}

/// Which side a word names.
pub fn side_of(word: &[u8]) -> Option<Side>
    ensures { result ≡ side_named word.now }
{
    if is(word, b"client") {
        Some(Side::Client)
    } else if is(word, b"server") {
        Some(Side::Server)
    } else {
        None
    }
}

// What a text spells of a side, where so many zeros may still be spelled by numbers.
fn piece(alloc: Global, side: Side, text: &[u8], left: u64) -> Result<CaptureLine, NoMemory>
    ensures { IfOk result (λ said. said ≡ piece_captured side left (octets_spelled (Option.Some text.now))) }
{
    match read_data(alloc, text, left)? {
        Some(found) => {
            let zeros = found.zeros();
            let bytes = found.into_bytes();
            if bytes.is_empty() {
                drop(bytes);
                return Ok(CaptureLine::Refused);
            }
            Ok(CaptureLine::Piece(side, bytes, zeros))
        }
        None => Ok(CaptureLine::Refused),
    }
}

// What the bytes of a line say.
fn content_captured(alloc: Global, content: &[u8], left: u64) -> Result<CaptureLine, NoMemory>
    ensures { IfOk result (λ said. said ≡ content_captured left content.now) }
{
    if !is_printable(content) {
        return Ok(CaptureLine::Refused);
    }
    if is_ignored(content) {
        return Ok(CaptureLine::Nothing);
    }
    let (word, rest) = cut(content, b' ');
    match (side_of(word), rest) {
        (Some(side), Some(text)) => Ok(piece(alloc, side, text, left)?),
        _ => Ok(CaptureLine::Refused),
    }
}

/// What a line says, where so many zeros may still be spelled by numbers.
pub fn line_captured(alloc: Global, line: &Line, left: u64) -> Result<CaptureLine, NoMemory>
    ensures { IfOk result (λ said. said ≡ line_captured left line.now) }
{
    if !is_within_limits(line) {
        return Ok(CaptureLine::Refused);
    }
    Ok(content_captured(alloc, line.content, left)?)
}

/// Reads a capture.
pub fn read_capture(alloc: Global, text: &[u8]) -> Result<Capture, NoMemory>
    ensures { IfOk result (λ capture. capture_read capture ≡ captured text.now) }
{
    let mut sides = Captured {
        client: Vec::new(alloc),
        server: Vec::new(alloc),
    };
    let mut lines = Lines::new(text);
    // how many zeros may still be spelled by numbers
    let mut left = ZERO_BYTES;
    'lines: while let Some(line) = lines.take_line() {
        match line_captured(alloc, &line, left)? {
            CaptureLine::Nothing => {}
            CaptureLine::Refused => return Ok(Capture::Refused(line.number)),
            CaptureLine::Piece(side, bytes, zeros) => {
                let added = sides.add(side, &bytes);
                drop(bytes);
                added?;
                left -= zeros;
            }
        }
    }
    Ok(Capture::Sides(sides))
}

// How many of so many octets of one side are those of another.
fn len_on(side: Side, whose: Side, len: u64) -> u64
    ensures { result ≡ len_on side whose len }
{
    match (side, whose) {
        (Side::Client, Side::Client) | (Side::Server, Side::Server) => len,
        _ => 0,
    }
}

// How many octets of a side a line has, and how many zeros a number spells in it. It takes what the
// line says.
fn counts(side: Side, said: CaptureLine) -> (u64, u64)
    ensures octets { result.0 ≡ octets_on side said }
    ensures zeros { result.1 ≡ zeros_captured said }
{
    match said {
        CaptureLine::Piece(whose, bytes, zeros) => {
            let len = len_on(side, whose, bytes.len() as u64);
            drop(bytes);
            (len, zeros)
        }
        CaptureLine::Nothing | CaptureLine::Refused => (0, 0),
    }
}

/// The number of the line of a capture, of which no line is refused, that has the octet of a side at a
/// place. The places are counted from 0.
#[tactic(auto, using(crate::proofs::CapturedLines::zeros_within))]
pub fn line_of_octet(
    alloc: Global,
    side: Side,
    place: u64,
    text: &[u8],
) -> Result<Option<u64>, NoMemory>
    ensures { IfOk result (λ number. number ≡ line_with side place ZERO_BYTES (lines text.now)) }
{
    let mut lines = Lines::new(text);
    let mut left = ZERO_BYTES;
    // how many octets of the side are left before that one
    let mut before = place;
    'lines: while let Some(line) = lines.take_line() {
        let (octets, zeros) = counts(side, line_captured(alloc, &line, left)?);
        if before < octets {
            return Ok(Some(line.number));
        }
        before -= octets;
        left -= zeros;
    }
    Ok(None)
}
