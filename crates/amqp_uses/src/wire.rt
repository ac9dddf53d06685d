//! One frame, written and read.

ghost use Rattle.std.specs.Prelude.{◌≡◌, ◌≤◌, IfOk, IfSome, length};
ghost use Rattle.amqp_frame.specs.Frames.{encoding, FrameOf};

use amqp_frame::{FixedRoom, Frame, Read, encoded_len, read_frame, write_frame};
use amqp_types::NoMemory;
use std::alloc::Global;

/// The octets that a frame is written as.
pub fn octets_of(alloc: Global, frame: &Frame) -> Result<Vec<u8>, NoMemory>
    requires { length (encoding frame.now) ≤ 4294967295 }
    ensures { IfOk result (λ octets. octets.items ≡ encoding frame.now) }
{
    let mut room = FixedRoom::new(alloc, encoded_len(frame) as usize)?;
    // The room has the space.
    let _ = write_frame(frame, &mut room);
    Ok(room.into_vec())
}

/// The frame that these octets spell, all of them. There is none where they spell none, or where its
/// memory was refused.
pub fn frame_in(alloc: Global, octets: &[u8]) -> Option<Frame>
    ensures { IfSome result (λ frame. FrameOf frame octets.now) }
{
    match read_frame(alloc, &octets, u32::MAX) {
        Read::Whole(frame, n) if n == octets.len() => Some(frame),
        other => {
            drop(other);
            None
        }
    }
}
