//! Two pieces that are read as one.

use crate::ring::steps::is;
use amqp_frame::{Frame, Method, Read, View};
use amqp_ring::{CompareResult, Needed, ParsingContext, read_in_pieces};
use amqp_types::NoMemory;
use std::alloc::{AllocError, Global};

// A start, an end, and the bytes between them in `abc` and `de`.
const PARTS: &[(usize, usize, &[u8])] = &[
    (0, 5, b"abcde"),
    (0, 0, b""),
    (0, 3, b"abc"),
    (1, 4, b"bcd"),
    (2, 2, b""),
    (3, 5, b"de"),
    (4, 5, b"e"),
    (5, 5, b""),
];

fn is_copied(
    alloc: Global,
    context: ParsingContext<'_>,
    part: (usize, usize, &[u8]),
) -> Result<bool, NoMemory> {
    let (start, end, bytes) = part;
    if start <= end && end <= context.len() {
        let copy = context.copy_range(alloc, start, end)?;
        return Ok(copy.as_slice() == bytes);
    }
    Ok(false)
}

fn is_taken(context: ParsingContext<'_>, part: (usize, usize, &[u8])) -> bool {
    let (start, end, bytes) = part;
    if start <= end && end <= context.input_len() {
        let (rest, front) = context.take_split(start);
        return is(context.take(end).take_from(start), bytes)
            && is(rest.take(end - start), bytes)
            && front.input_len() == start;
    }
    false
}

fn are_parts(alloc: Global, context: ParsingContext<'_>) -> Result<bool, NoMemory> {
    for part in PARTS {
        if !is_taken(context, *part) || !is_copied(alloc, context, *part)? {
            return Ok(false);
        }
    }
    Ok(true)
}

// Whether these are parts of two pieces, and of one.
fn are_parts_of_both(alloc: Global) -> Result<bool, NoMemory> {
    let cut = ParsingContext::from_slices(b"abc", b"de");
    let whole = ParsingContext::from(b"abcde" as &[u8]);
    Ok(are_parts(alloc, cut)? && are_parts(alloc, whole)?)
}

#[test]
fn parts_are_taken_over_the_cut(rt: HostRuntime) -> Result<(), NoMemory> {
    assert!(rt; are_parts_of_both(rt.alloc())?);
    Ok(())
}

#[test]
fn one_byte_is_read_before_and_after_the_cut(rt: HostRuntime) {
    let context = ParsingContext::from_slices(b"abc", b"de");
    assert!(rt; context.at(2) == b'c');
    assert!(rt; context.at(3) == b'd');
}

#[test]
fn what_is_missing_is_told(rt: HostRuntime) {
    let context = ParsingContext::from_slices(b"abc", b"de");
    assert!(rt; context.slice_index(5) == Ok(5));
    assert!(rt; context.slice_index(8) == Err(Needed(3)));
}

// Whether bytes and what is missing are shown so.
fn are_shown(alloc: Global) -> Result<bool, AllocError> {
    let context = ParsingContext::from_slices(b"abc", b"de");
    let shown = format!(in alloc; "{context:?}")?;
    let missing = Needed(3).to_string(alloc)?;
    Ok(shown.as_str() == "ParsingContext { len: 5, .. }" && missing.as_str() == "bytes missing: 3")
}

// What is to be sent may be a password, and is not shown.
#[test]
fn no_byte_is_shown(rt: HostRuntime) -> Result<(), AllocError> {
    assert!(rt; are_shown(rt.alloc())?);
    Ok(())
}

#[test]
fn the_first_that_passes_is_found(rt: HostRuntime) {
    let context = ParsingContext::from_slices(b"abc", b"bd");
    assert!(rt; context.position(|byte| byte == b'b') == Some(1));
    assert!(rt; context.position(|byte| byte == b'd') == Some(4));
    assert!(rt; context.position(|byte| byte == b'e') == None);
}

// How `AM` and `QP` compare with these bytes, and how they do without regard to case.
const COMPARED: &[(&[u8], CompareResult, CompareResult)] = &[
    (b"", CompareResult::Ok, CompareResult::Ok),
    (b"AMQ", CompareResult::Ok, CompareResult::Ok),
    (b"AMQP", CompareResult::Ok, CompareResult::Ok),
    (
        b"AMQP0",
        CompareResult::Incomplete,
        CompareResult::Incomplete,
    ),
    (b"AMQX", CompareResult::Error, CompareResult::Error),
    (b"XMQP0", CompareResult::Error, CompareResult::Error),
    (b"amqp", CompareResult::Error, CompareResult::Ok),
    (b"aMqP0", CompareResult::Error, CompareResult::Incomplete),
    (b"amqx0", CompareResult::Error, CompareResult::Error),
];

fn compares(context: ParsingContext<'_>) -> bool {
    for (bytes, exactly, no_case) in COMPARED {
        if context.compare(bytes) != *exactly || context.compare_no_case(bytes) != *no_case {
            return false;
        }
    }
    true
}

#[test]
fn bytes_are_compared_at_common_places(rt: HostRuntime) {
    assert!(rt; compares(ParsingContext::from_slices(b"AM", b"QP")));
}

// Whether these bytes come one after another, and with their places.
fn comes(context: ParsingContext<'_>, bytes: &[u8]) -> bool {
    let mut elements = context.iter_elements();
    let mut indices = context.iter_indices();
    for (i, byte) in bytes.iter().enumerate() {
        if elements.next() != Some(*byte) || indices.next() != Some((i, *byte)) {
            return false;
        }
    }
    elements.next() == None && indices.next() == None
}

#[test]
fn bytes_come_one_after_another(rt: HostRuntime) {
    assert!(rt; comes(ParsingContext::from_slices(b"ab", b"c"), b"abc"));
}

// Whether these pieces are read as this.
fn reads_as(alloc: Global, first: &[u8], second: &[u8], wanted: Read) -> bool {
    let read = read_in_pieces(alloc, first, second, 4096);
    let same = read == wanted;
    drop(read);
    drop(wanted);
    same
}

// A heartbeat and a byte behind it, one that is cut, and one with another end octet.
#[test]
fn a_frame_is_read_over_the_cut(rt: HostRuntime) {
    let first: &[u8] = &[8, 0, 0, 0];
    let whole = reads_as(
        rt.alloc(),
        first,
        &[0, 0, 0, 206, 1],
        Read::Whole(Frame::Heartbeat, 8),
    );
    let more = reads_as(rt.alloc(), first, &[0, 0, 0], Read::More);
    let bad = reads_as(rt.alloc(), first, &[0, 0, 0, 205], Read::Bad);
    assert!(rt; whole);
    assert!(rt; more);
    assert!(rt; bad);
}

// channel.open on channel 1.
const CHANNEL_OPEN: &[u8] = &[1, 0, 1, 0, 0, 0, 5, 0, 20, 0, 10, 0, 206];

fn is_read_at_every_cut(alloc: Global) -> bool {
    for cut in 0..14 {
        let (first, second) = CHANNEL_OPEN.split_at(cut);
        let frame = Frame::Method(1, Method::ChannelOpen);
        if !reads_as(alloc, first, second, Read::Whole(frame, 13)) {
            return false;
        }
    }
    true
}

#[test]
fn a_method_is_read_at_every_cut(rt: HostRuntime) {
    assert!(rt; is_read_at_every_cut(rt.alloc()));
}
