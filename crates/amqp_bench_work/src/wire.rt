//! Body frames that are written into memory, and read from it.

ghost use Rattle.std.specs.Prelude.{◌≤◌, length};
ghost use Rattle.amqp_frame.specs.Frames.{encoding};

use amqp_frame::{FixedRoom, Frame, RawKind, Read, Room, encoded_len, read_frame, write_frame};
use amqp_types::Payload;
use std::alloc::Global;

/// The limit of a frame.
const LIMIT: u32 = 131_072;

/// How many octets the room has that is filled again and again: as many as a frame may have.
const ROOM: usize = 131_072;

// A body frame of so many octets.
fn body_of(alloc: Global, size: u32) -> Option<Frame> {
    let Ok(bytes) = vec![in alloc; b'x'; size as usize] else {
        return None;
    };
    Some(Frame::Raw(1, RawKind::Body, Payload::from_vec(bytes)))
}

// Writes a frame that is no longer than the room, which is cleared where it has too little space.
fn put_again(frame: &Frame, octets: u64, room: &mut FixedRoom) -> u64
    requires { length (encoding frame.now) ≤ 4294967295 }
{
    if (room.space() as u64) < octets {
        room.clear();
    }
    match write_frame(frame, room) {
        Ok(()) => octets,
        Err(_) => 0,
    }
}

// Writes a frame so many times. How many octets it was.
fn write_again(frame: &Frame, room: &mut FixedRoom, count: u64) -> u64 {
    let length = encoded_len(frame);
    if length > ROOM as u64 {
        return 0;
    }
    let mut octets = 0u64;
    for _ in 0..count {
        octets = octets.saturating_add(put_again(frame, length, room));
    }
    octets
}

/// Writes a body frame so many times. How many octets it was; nothing where memory was refused.
pub fn write(alloc: Global, size: u32, count: u64) -> Option<u64> {
    let Ok(mut room) = FixedRoom::new(alloc, ROOM) else {
        return None;
    };
    let frame = body_of(alloc, size)?;
    let octets = write_again(&frame, &mut room, count);
    drop(frame);
    Some(octets)
}

// As many frames one after another as the room takes.
fn filled(alloc: Global, size: u32) -> Option<Vec<u8>> {
    let Ok(mut room) = FixedRoom::new(alloc, ROOM) else {
        return None;
    };
    let frame = body_of(alloc, size)?;
    let length = encoded_len(&frame);
    let count = ROOM as u64 / length.max(1);
    write_again(&frame, &mut room, count);
    drop(frame);
    Some(room.into_vec())
}

// How many octets are used by the frame at the front; none where memory was refused.
fn used(alloc: Global, bytes: &[u8]) -> usize {
    let read = read_frame(alloc, &bytes, LIMIT);
    let used = match &read {
        Read::Whole(_, used) => *used,
        _ => 0,
    };
    drop(read);
    used
}

// Reads frames one after another, from the first on again after the last. How many octets it was.
fn read_again(alloc: Global, bytes: &[u8], count: u64) -> u64 {
    let mut octets = 0u64;
    let mut rest = bytes;
    for _ in 0..count {
        if rest.is_empty() {
            rest = bytes;
        }
        let used = used(alloc, rest);
        octets = octets.saturating_add(used as u64);
        rest = rest.get(used..).unwrap_or(bytes);
    }
    octets
}

/// Reads a body frame so many times. How many octets it was; nothing where memory was refused.
pub fn read(alloc: Global, size: u32, count: u64) -> Option<u64> {
    let bytes = filled(alloc, size)?;
    let octets = read_again(alloc, bytes.as_slice(), count);
    drop(bytes);
    Some(octets)
}
