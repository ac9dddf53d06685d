//! The word `double` of a program: clients of any kind are served at a port of this machine, one after another, each by
//! a server double of its own, and of each is said how that ended, and which frame it might not say.
#![tactic(auto)]

mod listening;
mod telling;
mod words;

pub use listening::{Asked, asked_of, number_of};
pub use telling::{line_of, told};
pub use words::{HELP_TEXT, asked, run};
