//! What a session is made from, the numbers on which both peers agree, and what the client says to open
//! and close a connection and its channels.
#![tactic(auto)]

mod capacity;
mod configuration;
pub mod handshake;
mod options;

pub use capacity::{Capacity, LEAST_CAPACITY, initial_capacity};
pub use configuration::{Configuration, own_numbers, tune};
pub use options::{ConnectionProperties, Options};
