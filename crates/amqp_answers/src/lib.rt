//! What a session answers and tells: promises with their answers, events, and the frames that are handed
//! out.
//!
//! Contracts see `Promises` by the definitions `made_in` and `promised`, `Events` by `noted_in`, and a
//! `Backlog` as the frames by the promise that opened their channel.
#![tactic(auto)]

mod answer;
mod event;
mod events;
mod handed;
mod promises;
mod shared_errors;

pub use answer::Answer;
pub use event::Event;
pub use events::Events;
pub use handed::{Backlog, Handed};
pub use promises::{Promises, Why};
