//! A checker of captured links: whether both sides of one are frames of AMQP 0-9-1 and nothing else,
//! and whether what its client said is a legal conversation.
//!
//! `check` answers one verdict on the octets of both sides, and `first_illegal` tells of the first
//! frame that the client might not say: where it stands, what was said before it, and what might have
//! been said in its place. The grammar of legal conversations is that of `amqp_legal`. Of the
//! server's side it only matters that it is frames: what the server says makes nothing legal, and
//! nothing illegal.
#![tactic(auto)]

mod broken;
mod capture;
mod cause;
mod closing;
mod end;
mod expected;
mod finding;
mod frames;
mod judge;
mod laws;
mod names;
mod protocol;
mod shown;

pub use broken::Broken;
pub use capture::{Verdict, check};
pub use cause::{Cause, CauseAt, cause_of};
pub use closing::{Closing, closing_in, last_close};
pub use end::End;
pub use expected::{Expected, behind_header};
pub use finding::{Finding, first_illegal};
pub use frames::{Next, read_next};
pub use judge::Judge;
pub use laws::{captures_have_one_verdict, what_is_found_is_the_verdict, what_may_follow};
pub use names::method_name;
pub use protocol::other_protocol;
pub use shown::{Standing, channel_in, channel_of, show_content, stage_name, usage_name};
