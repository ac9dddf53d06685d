//! What stories of connections are told with: frames by their names, and the server that says them; and stories of
//! what lies under a lock.
#![tactic(auto)]

pub mod locked;
mod names;
mod server;

pub use names::{ends_with, octets_of, push_names};
pub use server::Server;
