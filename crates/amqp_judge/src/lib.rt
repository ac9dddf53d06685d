//! The verdict on a captured link of any size: the octets of both sides come in pieces, and no more of
//! them are kept than those of one frame.
//!
//! `Judging` takes the pieces, and has the verdict that `check` of `amqp_check` has on all of them. `run`
//! is the word `judge` of a program: it reads two files, and prints the verdict and what is wrong.
#![tactic(auto)]

mod client;
mod judging;
mod server;
mod side;
mod telling;
mod words;

pub use client::Client;
pub use judging::Judging;
pub use server::Server;
pub use side::{Ending, MOST_UNREAD, Side, Unjudged};
pub use telling::{Whose, told, told_too_long, verdict_line};
pub use words::{HELP_TEXT, asked, run};
