//! What lies under the lock of a connection.
//!
//! A `Locked` keeps a hub, the places of the handles on it, what was let go and is not done with, and who
//! waits to be woken. It has one method for each thing that happens in a hold of the lock. A port is a `Line`,
//! which this crate alone asks for a step, and a step that was told is `Heard`, which can't be let go: so a
//! loop skips no step of its line and repeats none. Nor can an answer or frames that were taken be let go:
//! these are `Polled` and `Taken` until they are given.
#![tactic(auto)]

mod backlog;
mod heard;
mod late;
mod locked;
mod pace;
mod polled;
mod reading;
mod tasks;
mod waking;
mod weights;

pub use heard::{Heard, Line, hear};
pub use locked::Locked;
pub use polled::{Polled, Taken};
pub use waking::{Counts, News};
