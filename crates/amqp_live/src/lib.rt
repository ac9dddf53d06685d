//! A connection from end to end: it is opened, a channel is opened and closed, and it is closed.
#![tactic(auto)]

mod live;
mod said;

pub use live::top_live;
