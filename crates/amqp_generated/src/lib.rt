//! That the script of a number is valid, and that its run ends Closed, as laws.
#![tactic(auto)]

mod laws;

pub use laws::a_generated_script_is_valid;
