//! That both ends of a link, joined by any plan, close.
#![tactic(auto)]

mod laws;

pub use laws::{a_default_login_is_said, both_ends_close};
