//! What callers do in stories of connections whose loops run on threads, and the gate port over which they do it.
#![tactic(auto)]

pub mod acts;
pub mod asleep;
pub mod desk;
pub mod gate;
pub mod hand;
mod many;
pub mod outgoing;
