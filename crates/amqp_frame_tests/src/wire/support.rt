//! Strings of a text, and the octets of a frame.
//!
//! A frame is let go by a call of `drop`, and never where a scope ends or a `?` returns: at such a
//! place the check goes through each variant of the frame, which takes it some 5 seconds.

use amqp_frame::{FixedRoom, Frame, encoded_len, write_frame};
use amqp_types::{LongString, NoMemory, ShortString, TypeFault};
use std::alloc::Global;

/// The limit that RabbitMQ proposes.
pub const USUAL: u32 = 131_072;

/// A short string of a text.
pub fn short(alloc: Global, text: &str) -> Result<ShortString, TypeFault> {
    ShortString::new(alloc, text.as_bytes())
}

/// A long string of a text.
pub fn long(alloc: Global, text: &str) -> Result<LongString, TypeFault> {
    LongString::new(alloc, text.as_bytes())
}

/// Whether a frame is written as these octets, and is as long as they are.
pub fn is_written(alloc: Global, frame: &Frame, bytes: &[u8]) -> Result<bool, NoMemory> {
    let length = encoded_len(frame);
    if length > 4_294_967_295 || length != bytes.len() as u64 {
        return Ok(false);
    }
    let mut room = FixedRoom::new(alloc, bytes.len())?;
    Ok(write_frame(frame, &mut room).is_ok() && room.as_slice() == bytes)
}
