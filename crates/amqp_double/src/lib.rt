//! A server double: the other end of a link, for tests and trials. It reads what a client says, frame
//! by frame, as long as that is a legal conversation, and answers as a server does that refuses nothing.
//!
//! A `Double` is fed the client's octets in pieces of any size, and keeps its own until they were sent.
//! What it answers to each frame stands in `specs/Replies.antt`, and what it answers to all octets in
//! `specs/Doubles.antt`. It has no content of its own: it delivers nothing, and what is published to it
//! is read and forgotten.
#![tactic(auto)]

mod arrivals;
mod double;
mod heard;
mod laws;
mod refusal;
mod replies;

pub use double::Double;
pub use laws::{a_refusal_stays, the_clients_octets_decide};
pub use refusal::{DoubleFault, Refusal};
