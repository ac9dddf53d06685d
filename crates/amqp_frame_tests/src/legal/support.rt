//! Frames as octets that are said one after another.
//!
//! A frame is let go by a call of `drop`, and never where a scope ends or a `?` returns: at such a
//! place the check goes through each of its variants.

use amqp_frame::{Read, read_frame};
use amqp_legal::{Speech, is_amqp_header};
use amqp_vectors::octets::{OPEN, START_OK, TUNE_OK};
use std::alloc::Global;
use std::test::Fail;

/// A name, frames that are said one after another, and the place, counted from 0, of the first that
/// may not be said.
pub type Row = (&'static str, &'static [&'static [u8]], Option<usize>);

/// What opens the connection, after the header.
pub const OPENING: &[&[u8]] = &[START_OK, TUNE_OK, OPEN];

// The limit that RabbitMQ proposes.
const USUAL: u32 = 131_072;

// Says the frame that octets spell; nothing where they spell none.
fn told(alloc: Global, speech: &mut Speech, octets: &[u8]) -> Option<bool> {
    let read = read_frame(alloc, &octets, USUAL);
    let said = match &read {
        Read::Whole(frame, _) => Some(speech.say(frame)),
        _ => None,
    };
    drop(read);
    said
}

/// Says the frame that octets spell, where it may be said.
pub fn says(alloc: Global, speech: &mut Speech, octets: &[u8]) -> Result<bool, Fail> {
    match told(alloc, speech, octets) {
        Some(said) => Ok(said),
        None => Err("no frame")?,
    }
}

/// Says frames one after another, and tells the place of the first that may not be said.
pub fn refused(
    alloc: Global,
    speech: &mut Speech,
    frames: &[&[u8]],
) -> Result<Option<usize>, Fail> {
    for (i, octets) in frames.iter().enumerate() {
        if !says(alloc, speech, octets)? {
            return Ok(Some(i));
        }
    }
    Ok(None)
}

/// A speech in which these frames were said after the header.
pub fn said(alloc: Global, frames: &[&[u8]]) -> Result<Speech, Fail> {
    let mut speech = Speech::new(alloc)?;
    match refused(alloc, &mut speech, frames)? {
        None => Ok(speech),
        Some(_) => Err("refused")?,
    }
}

fn is_judged(alloc: Global, before: &[&[u8]], row: &Row) -> Result<bool, Fail> {
    let mut speech = said(alloc, before)?;
    Ok(refused(alloc, &mut speech, row.1)? == row.2)
}

/// The number, counted from 1, of the first row that is judged otherwise once the header and some
/// frames were said; 0 where there is none.
pub fn wrong_row(alloc: Global, before: &[&[u8]], rows: &[Row]) -> Result<usize, Fail> {
    for (i, row) in rows.iter().enumerate() {
        if !is_judged(alloc, before, row)? {
            return Ok(i + 1);
        }
    }
    Ok(0)
}

/// Whether octets spell the header of the protocol's version.
pub fn is_header(alloc: Global, octets: &[u8]) -> bool {
    let read = read_frame(alloc, &octets, USUAL);
    let is = match &read {
        Read::Whole(frame, _) => is_amqp_header(frame),
        _ => false,
    };
    drop(read);
    is
}
