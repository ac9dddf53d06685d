//! Which frames each rule of a session queues, what it leaves of those that waited, and that a secure-ok
//! waits only after a challenge was read, as laws.
#![tactic(auto)]

mod laws;

pub use laws::{
    a_secure_ok_answers_a_challenge, each_rule_leaves_what_waits, each_rule_queues_its_own_frames,
};
