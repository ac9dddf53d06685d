//! What joins both ends of a link: a plan says how the server's octets are cut, how much room the link has
//! each time, and what the session is told to do; and the definitions say what a port tells by it.
#![tactic(auto)]

mod laws;
mod plan;

pub use laws::{a_quiet_session_is_connected, short_writes_keep_the_tie};
pub use plan::Plan;
