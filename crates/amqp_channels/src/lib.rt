//! The listed channels of a session, and the numbers that they are given.
//!
//! Contracts see `Channels` as the list of its channels by ascending number, with the cursor from which
//! the next number is drawn (`Listing`), and an `IdSequence` as the record `Sequence`.
#![tactic(auto)]

mod channels;
mod id_sequence;
mod numbers;

pub use channels::{Channel, Channels, Debt};
pub use id_sequence::{Id, IdSequence};
