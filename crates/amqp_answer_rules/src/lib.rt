//! What the rules of a session leave of promises, and why one is answered with an error, as laws.
#![tactic(auto)]

mod laws;

pub use laws::{
    a_command_is_refused_for_its_reason, a_drawn_number_is_free, every_promise_has_one_answer,
};
