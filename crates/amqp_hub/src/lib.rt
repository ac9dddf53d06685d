//! What lies behind the lock of a connection: an engine with all that happened to it.
//!
//! A `Hub` keeps an engine, the journal of what happened to it since a base, and how many commands
//! were made with each caller's pass. The engine stands where the journal leads from the base, less
//! what was taken since; each command of a caller stands in the journal once, and its `Receipt` says
//! where; a `Tally` shows that none is missing. `Hub::settle` lets the journal begin anew.
#![tactic(auto)]

mod base;
mod due;
mod hub;
mod laws;
mod marks;

pub use amqp_journal::{Entry, Turn};
pub use base::Base;
pub use due::{Due, Owner};
pub use hub::{Ended, Hub, Pass, Receipt, Tally};
pub use laws::a_command_stands_once;
pub use marks::{DropMark, Found, Made, Places};
