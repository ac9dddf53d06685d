//! The program: what the words of a command line ask for, and how it is answered.
//!
//! Asked to `replay`, `top` reads a script from a `Source`, replays it over a `ScriptedPort`, and writes
//! to a `Sink` what the client said and answered. Asked to `generate N`, it makes a long script of N
//! channels, replays it, and writes that script and the summary of its replay. Asked to `check`, it reads
//! a capture of a link, and writes the verdict on it. `explain` tells an engineer what is wrong with a
//! capture.
#![tactic(auto)]

mod asked;
mod captured;
mod checking;
mod explaining;
mod refused;
pub mod top;

pub use asked::{Asked, asked_by};
pub use captured::{Capture, Captured, Side, line_of_octet, read_capture};
pub use explaining::explain;
