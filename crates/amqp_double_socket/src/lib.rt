//! A server double over sockets, for tests of whatever connects to a server: a listener at a port of this machine that
//! the system chooses, on a thread of its own, at which clients are served one after another, each by a double that is
//! new.
#![tactic(auto)]

mod counted;
mod serving;
mod thread;

pub use counted::Counted;
pub use serving::{Ended, serve};
pub use thread::{Served, Serving, serve_link};
