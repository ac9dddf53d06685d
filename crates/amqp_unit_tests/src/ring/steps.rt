//! Steps of a buffer, and what it says and keeps after each, as rows of a table.

use amqp_frame::Room;
use amqp_ring::{Buffer, Checkpoint, CompareResult, ParsingContext};
use amqp_types::NoMemory;
use std::alloc::Global;

/// A call of a buffer.
#[derive(Clone, Copy)]
pub enum Do {
    Write(&'static [u8]),
    // The same through `Room`; answers the space before.
    Put(&'static [u8]),
    Consume(usize),
    Fill(usize),
    // Answers 1 where it grew.
    Grow(usize),
    // Writes into the bytes that `spaces` lends; answers how many found their place.
    Lend(&'static [u8]),
    Mark,
    Rollback,
    Reset,
    // Consumes what lies before so many last bytes; answers their offset.
    Leave(usize),
}

/// A step, what it answers, what is kept after it, and how many bytes are free.
pub type Row = (Do, usize, &'static [u8], usize);

/// Whether what is read is these bytes.
pub fn is(context: ParsingContext<'_>, bytes: &[u8]) -> bool {
    context.input_len() == bytes.len() && context.compare(bytes) == CompareResult::Ok
}

fn lend(buffer: &mut Buffer, bytes: &[u8]) -> usize {
    let (front, back) = buffer.spaces();
    let (first, rest) = bytes.split_at(bytes.len().min(front.len()));
    let (second, left) = rest.split_at(rest.len().min(back.len()));
    front[..first.len()].copy_from_slice(first);
    back[..second.len()].copy_from_slice(second);
    bytes.len() - left.len()
}

fn put(buffer: &mut Buffer, bytes: &[u8]) -> usize {
    let space = buffer.space();
    if bytes.len() <= space {
        buffer.put(bytes);
    }
    space
}

fn leave(buffer: &mut Buffer, count: usize) -> usize {
    let kept = buffer.parsing_context();
    let rest = kept.take_from(kept.input_len().saturating_sub(count));
    let offset = buffer.offset(rest);
    buffer.consume(offset);
    offset
}

fn grow(buffer: &mut Buffer, size: usize) -> usize {
    match buffer.grow(size) {
        Ok(true) => 1,
        Ok(false) => 0,
        Err(_) => usize::MAX,
    }
}

fn take(buffer: &mut Buffer, mark: &mut Checkpoint, step: Do) -> usize {
    match step {
        Do::Write(bytes) => buffer.write(bytes),
        Do::Put(bytes) => put(buffer, bytes),
        Do::Consume(count) => buffer.consume(count),
        Do::Fill(count) => buffer.fill(count),
        Do::Grow(size) => grow(buffer, size),
        Do::Lend(bytes) => lend(buffer, bytes),
        Do::Leave(count) => leave(buffer, count),
        Do::Mark => {
            *mark = buffer.checkpoint();
            0
        }
        Do::Rollback => {
            buffer.rollback(*mark);
            0
        }
        Do::Reset => {
            buffer.reset();
            0
        }
    }
}

// The first row that does not hold, counted from 1.
fn first_wrong(buffer: &mut Buffer, rows: &[Row]) -> usize {
    let mut mark = buffer.checkpoint();
    for (i, (step, answer, kept, free)) in rows.iter().enumerate() {
        let told = take(buffer, &mut mark, *step);
        let holds = told == *answer
            && is(buffer.parsing_context(), kept)
            && buffer.available_data() == kept.len()
            && buffer.available_space() == *free;
        if !holds {
            return i + 1;
        }
    }
    0
}

/// The first row that does not hold of a new buffer of this capacity, counted from 1, or 0.
pub fn wrong_row(alloc: Global, capacity: usize, rows: &[Row]) -> Result<usize, NoMemory> {
    let mut buffer = Buffer::with_capacity(alloc, capacity.max(1))?;
    let wrong = first_wrong(&mut buffer, rows);
    drop(buffer);
    Ok(wrong)
}
