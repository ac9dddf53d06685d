//! Maps from numbers, as a session keeps them: what contracts say of their entries, and equal copies of
//! maps and queues.
#![tactic(auto)]

mod copies;

pub use copies::{Copied, by_channel, by_number, queue};
