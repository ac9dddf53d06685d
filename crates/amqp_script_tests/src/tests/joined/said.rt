//! What an engine put on its link, frame by frame.

use amqp_frame::{Frame, Read, read_frame};
use amqp_types::NoMemory;
use std::alloc::Global;

/// The frames of octets that are frames and nothing else; none where they are not.
pub fn frames_of(alloc: Global, octets: &[u8]) -> Result<Option<Vec<Frame>>, NoMemory> {
    let mut frames = Vec::new(alloc);
    let mut rest = octets;
    for _ in 0..octets.len() {
        if rest.is_empty() {
            return Ok(Some(frames));
        }
        match read_frame(alloc, &rest, u32::MAX) {
            Read::Whole(frame, size) => {
                frames.push(frame)?;
                rest = &rest[size..];
            }
            Read::NoMemory => return Err(NoMemory),
            Read::More | Read::TooLarge(_) | Read::BadHeartbeat(_) | Read::Bad => return Ok(None),
        }
    }
    Ok(None)
}
