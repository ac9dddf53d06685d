//! What comes of a session, as laws: when it ends Closed, what a promise stands for, what answers it where the
//! link is lost, and what of the server and of time is heeded.
#![tactic(auto)]

mod laws;

pub use laws::{
    a_lost_link_is_never_silent, a_promise_stands_for_what_comes, a_session_closes_for_its_cause,
    flow_and_time_are_heeded,
};
