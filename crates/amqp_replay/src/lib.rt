//! Scripts of an AMQP 0-9-1 connection: their grammar, their replay over a port, and the report.
//!
//! A script says line by line what a server, a link and a user did. `replay` reads one from a `Source`,
//! replays it over a `ScriptedPort`, and writes to a `Sink` what the client said and answered. `generate`
//! makes a long script of a number of channels, replays it, and writes that script and the summary of its
//! replay. What they promise is stated in `specs/Top.antt`.
#![tactic(auto)]

mod answering;
pub mod data;
pub mod decimals;
mod ends;
mod generator;
mod grammar;
mod laws;
pub mod limits;
pub mod lines;
mod memory_ends;
mod report;
mod script;
mod setup;
pub mod status;
mod stream_ends;
mod summary;
pub mod transfer;
pub mod words;

pub use answering::{generate, replay};
pub use ends::{Gave, Put, Sink, Source};
pub use laws::{
    a_generated_script_is_taken, a_report_has_the_frames_sent,
    no_script_names_a_provider_that_was_not_handed,
};
pub use memory_ends::{MemorySink, MemorySource};
pub use report::Printout;
pub use script::{ended_at, line_of_step};
pub use stream_ends::{Reading, Writing};
