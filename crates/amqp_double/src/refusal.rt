//! Why a double hears no more.

use thiserror::Error;

/// Why a double hears no more. A place is a number of octets, counted from 0, and so is a number of
/// frames.
#[derive(Clone, Copy, Debug, PartialEq, Eq)]
pub enum Refusal {
    /// At this place of the client's octets no frame stands, whatever follows.
    BadBytes(u64),
    /// The frame of this number is the first by which what the client said is no legal conversation.
    Unexpected(u64),
}

/// Why a double did not take what it was fed.
#[derive(Clone, Copy, Debug, PartialEq, Eq, Error)]
pub enum DoubleFault {
    /// At this place of the client's octets no frame stands, whatever follows.
    #[error("no frame stands at place {0} of the client's octets")]
    BadBytes(u64),
    /// The frame of this number is the first by which what the client said is no legal conversation.
    #[error("the client may not say its frame {0}, counted from 0")]
    Unexpected(u64),
    /// There was too little memory, and the double is as before.
    #[error("there is no memory to hear the client")]
    NoMemory,
}
