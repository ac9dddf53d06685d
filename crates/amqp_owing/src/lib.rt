//! What a server double owes its client: that a faultless server may say each of its replies, in order
//! and at any later time.
#![tactic(auto)]

mod laws;

pub use laws::replies_are_faultless;
