//! What a client says on a link whose beginning was not captured: whether it is the rest of a legal
//! conversation.
//!
//! A `Resumed` is told each frame from some border of frames on. `check_from` answers the verdict on a
//! capture that begins at such a border, and `first_wrong` tells of the first frame by which what the
//! client said is the rest of no legal conversation.
#![tactic(auto)]

mod capture;
mod finding;
mod first;
mod hearing;
mod laws;
mod resumed;

pub use capture::check_from;
pub use finding::{LateFinding, first_wrong};
pub use laws::{
    a_legal_conversation_is_taken_from_each_border,
    what_is_said_nowhere_is_refused_from_each_border,
};
pub use resumed::{Heard, Resumed};
