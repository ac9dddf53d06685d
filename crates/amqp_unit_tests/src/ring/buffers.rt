//! What a buffer keeps, round the end of its memory, where it grows, is rolled back and lends.

use crate::ring::steps::{Do, Row, is, wrong_row};
use amqp_ring::{Buffer, CompareResult};
use amqp_types::NoMemory;
use std::alloc::Global;

// A write that wraps, and a growth with kept bytes on both sides of the end.
const ROUND: &[Row] = &[
    (Do::Write(b"abcd"), 4, b"abcd", 0),
    (Do::Consume(3), 3, b"d", 3),
    (Do::Write(b"xyz"), 3, b"dxyz", 0),
    (Do::Grow(6), 1, b"dxyz", 2),
];

fn is_viewed(buffer: &mut Buffer) -> bool {
    buffer.write(b"abcd");
    buffer.consume(3);
    buffer.write(b"xyz");
    let context = buffer.parsing_context();
    buffer.slices() == (b"d" as &[u8], b"xyz" as &[u8])
        && is(context.take(2), b"dx")
        && context.compare(b"dxyzw") == CompareResult::Incomplete
}

// What is kept on both sides of the end is viewed in two slices.
#[test]
fn the_kept_bytes_are_viewed(rt: HostRuntime) -> Result<(), NoMemory> {
    let mut buffer = Buffer::with_capacity(rt.alloc(), 4)?;
    let viewed = is_viewed(&mut buffer);
    drop(buffer);
    assert!(rt; viewed);
    Ok(())
}

// A rollback, also to more than is kept.
const BACK: &[Row] = &[
    (Do::Mark, 0, b"", 4),
    (Do::Write(b"abcd"), 4, b"abcd", 0),
    (Do::Rollback, 0, b"", 4),
    (Do::Write(b"abc"), 3, b"abc", 1),
    (Do::Mark, 0, b"abc", 1),
    (Do::Consume(2), 2, b"c", 3),
    (Do::Rollback, 0, b"c", 3),
    (Do::Reset, 0, b"", 4),
    (Do::Fill(2), 2, b"cd", 2),
];

// It grows while its bytes lie round the end, and goes round again.
const GROWING: &[Row] = &[
    (Do::Write(b"abc"), 3, b"abc", 0),
    (Do::Consume(2), 2, b"c", 2),
    (Do::Write(b"defg"), 2, b"cde", 0),
    (Do::Grow(3), 0, b"cde", 0),
    (Do::Grow(0), 0, b"cde", 0),
    (Do::Grow(5), 1, b"cde", 2),
    (Do::Write(b"fgh"), 2, b"cdefg", 0),
    (Do::Consume(4), 4, b"g", 4),
    (Do::Write(b"hijkl"), 4, b"ghijk", 0),
    (Do::Grow(6), 1, b"ghijk", 1),
    (Do::Consume(9), 5, b"", 6),
];

// Whether the bytes after the first so many of a capacity of 4 are kept as it grows to 6.
fn are_kept_from(alloc: Global, position: usize, bytes: &[u8]) -> Result<bool, NoMemory> {
    let (first, rest) = bytes.split_at(bytes.len().min(1));
    let mut buffer = Buffer::with_capacity(alloc, 4)?;
    buffer.fill(position);
    buffer.write(first);
    buffer.consume(position);
    buffer.write(rest);
    let grown = buffer.grow(6)?;
    Ok(
        grown
            && is(buffer.parsing_context(), bytes)
            && buffer.available_space() == 6usize.saturating_sub(bytes.len()),
    )
}

fn are_kept(alloc: Global, bytes: &[u8]) -> Result<bool, NoMemory> {
    for position in 0..4 {
        if !are_kept_from(alloc, position, bytes)? {
            return Ok(false);
        }
    }
    Ok(true)
}

const KEPT: &[&[u8]] = &[b"a", b"ab", b"abc", b"abcd"];

// The first bytes that are not.
fn first_lost(alloc: Global) -> Result<Option<&'static [u8]>, NoMemory> {
    for bytes in KEPT {
        if !are_kept(alloc, bytes)? {
            return Ok(Some(*bytes));
        }
    }
    Ok(None)
}

#[test]
fn a_buffer_grows_at_every_position(rt: HostRuntime) -> Result<(), NoMemory> {
    assert!(rt; first_lost(rt.alloc())? == None);
    Ok(())
}

// The size to which both grow, and how many bytes are free in each then.
const GROWN: &[(usize, usize, usize)] = &[(9, 5, 7), (5, 1, 5), (0, 0, 5)];

// Whether both buffers, of 4 and of 7, grow so, and keep what they kept round the end.
fn grow_to(first: &mut Buffer, second: &mut Buffer, row: (usize, usize, usize)) -> bool {
    let (size, first_free, second_free) = row;
    first.write(b"abcd");
    first.consume(3);
    first.write(b"xyz");
    second.write(b"ef");
    Buffer::grow_both(first, second, size).is_ok()
        && is(first.parsing_context(), b"dxyz")
        && is(second.parsing_context(), b"ef")
        && first.available_space() == first_free
        && second.available_space() == second_free
}

// The same of two new ones.
fn both_grow(alloc: Global, row: (usize, usize, usize)) -> Result<bool, NoMemory> {
    let mut first = Buffer::with_capacity(alloc, 4)?;
    let mut second = Buffer::with_capacity(alloc, 7)?;
    let grown = grow_to(&mut first, &mut second, row);
    drop(second);
    drop(first);
    Ok(grown)
}

// The first size to which they do not.
fn first_ungrown(alloc: Global) -> Result<Option<usize>, NoMemory> {
    for row in GROWN {
        if !both_grow(alloc, *row)? {
            return Ok(Some(row.0));
        }
    }
    Ok(None)
}

#[test]
fn two_buffers_grow_at_once(rt: HostRuntime) -> Result<(), NoMemory> {
    assert!(rt; first_ungrown(rt.alloc())? == None);
    Ok(())
}

const ONE: &[Row] = &[
    (Do::Write(b"ab"), 1, b"a", 0),
    (Do::Write(b"c"), 0, b"a", 0),
    (Do::Consume(1), 1, b"", 1),
    (Do::Put(b"d"), 1, b"d", 0),
    (Do::Grow(2), 1, b"d", 1),
];

// What was read is consumed by the offset of the rest.
const READING: &[Row] = &[
    (Do::Put(b"abc"), 4, b"abc", 1),
    (Do::Leave(1), 2, b"c", 3),
    (Do::Put(b"de"), 3, b"cde", 1),
    (Do::Leave(2), 1, b"de", 2),
    (Do::Leave(3), 0, b"de", 2),
    (Do::Leave(0), 2, b"", 4),
];

// The free bytes are lent in two pieces and in one, in front of the kept ones and behind them.
// What is kept stays, though no clause says so.
const LENDING: &[Row] = &[
    (Do::Write(b"abc"), 3, b"abc", 1),
    (Do::Consume(1), 1, b"bc", 2),
    (Do::Lend(b"xyz"), 2, b"bc", 2),
    (Do::Fill(1), 1, b"bcx", 1),
    (Do::Fill(3), 1, b"bcxy", 0),
    (Do::Consume(3), 3, b"y", 3),
    (Do::Lend(b"zz"), 2, b"y", 3),
    (Do::Fill(2), 2, b"yzz", 1),
];

// A rollback over all that may come before it: lending, filling, growing and writing.
const OVER_ALL: &[Row] = &[
    (Do::Write(b"abcd"), 4, b"abcd", 0),
    (Do::Consume(2), 2, b"cd", 2),
    (Do::Mark, 0, b"cd", 2),
    (Do::Lend(b"xx"), 2, b"cd", 2),
    (Do::Fill(1), 1, b"cdx", 1),
    (Do::Grow(6), 1, b"cdx", 3),
    (Do::Write(b"efgh"), 3, b"cdxefg", 0),
    (Do::Rollback, 0, b"cd", 4),
    (Do::Lend(b"wwww"), 4, b"cd", 4),
];

/// What a buffer does, its capacity, and the steps.
const STEPS: &[(&str, usize, &[Row])] = &[
    ("bytes go round", 4, ROUND),
    ("a rollback leaves what was kept", 4, BACK),
    ("a buffer grows round its end", 3, GROWING),
    ("one byte is room enough", 1, ONE),
    ("what was read is consumed", 4, READING),
    ("what was lent can be kept", 4, LENDING),
    ("a rollback forgets what was lent", 4, OVER_ALL),
];

// The first name of which a row does not hold, and the row, counted from 1.
fn first_wrong(alloc: Global) -> Result<Option<(&'static str, usize)>, NoMemory> {
    for (name, capacity, rows) in STEPS {
        let wrong = wrong_row(alloc, *capacity, rows)?;
        if wrong > 0 {
            return Ok(Some((*name, wrong)));
        }
    }
    Ok(None)
}

#[test]
fn steps_are_taken(rt: HostRuntime) -> Result<(), NoMemory> {
    assert_eq!(rt; first_wrong(rt.alloc())?, None);
    Ok(())
}
