//! The errors of a connection, and what waits for its answers.
//!
//! An `Error` is seen as its kind, whose text `Display` gives. Cells are completed once: a slot, the two
//! ends of a promise over one, a notifier, places for wakers, a switch, and the last error that was set.
#![tactic(auto)]

mod error;
mod error_holder;
mod io_fault;
mod kill_switch;
mod laws;
mod notifier;
mod promise;
mod shown;
mod slot;
mod state;
mod wakers;

pub use error::{Error, ErrorKind, Result};
pub use error_holder::ErrorHolder;
pub use io_fault::IoFault;
pub use kill_switch::KillSwitch;
pub use laws::a_first_completion_is_taken_once;
pub use notifier::Notifier;
pub use promise::{Cancelable, Promise, PromiseResolver};
pub use shown::Shown;
pub use slot::Slot;
pub use state::{ChannelState, ConnectionState};
pub use wakers::Wakers;
