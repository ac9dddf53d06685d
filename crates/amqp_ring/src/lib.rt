//! Buffers of bytes between a session and its link: one run of memory that is used round and
//! round.
//!
//! A `Buffer` is seen as two lists, the bytes that are kept and the free ones. What it keeps is
//! read through a `ParsingContext`, in which two pieces of memory are one list of bytes.
#![tactic(auto)]

mod buffer;
mod checkpoint;
mod compare;
mod context;
mod elements;
mod indices;
mod laws;
mod memory;

pub use buffer::Buffer;
pub use checkpoint::Checkpoint;
pub use compare::CompareResult;
pub use context::{Needed, ParsingContext};
pub use elements::Elements;
pub use indices::Indices;
pub use laws::{
    a_growth_keeps_what_is_kept, a_rest_stays_kept, a_rollback_gives_what_was_kept,
    only_growth_changes_the_capacity, read_in_pieces,
};
