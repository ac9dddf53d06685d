//! The engine of an AMQP 0-9-1 connection: a session with the bytes of its link, over a port.
//!
//! A `Port` gives one step at a time, as a piece of bytes or a command, and takes bytes. `IoLoop`
//! takes the steps of a port in turns: it tells them to its session, reads the frames of a piece,
//! and writes the frames that the session has to say. What a turn does is the fold of
//! `specs/Turn.antt`, and what a port tells of turns that of `specs/Tell.antt`. A `MemoryPort` is a
//! port over given steps.
#![tactic(auto)]

mod given;
mod io_loop;
mod kept_loop;
mod laws;
mod memory_port;
mod port;
mod record;
mod taken_bytes;
mod wire;

pub use given::{Given, GivenStep};
pub use io_loop::IoLoop;
pub use kept_loop::KeptLoop;
pub use laws::{
    a_link_has_the_frames_sent, a_run_goes_on, a_run_without_turns_touches_nothing,
    a_script_has_its_turns, a_valid_script_ends_closed, agreed_numbers_are_kept,
    an_end_has_its_cause, conversations_are_legal, nothing_whole_is_left_unread,
    the_links_spell_what_is_said, what_is_built_can_be_said, what_is_said_can_be_written,
    what_is_said_is_read_back, what_is_told_is_carried,
};
pub use memory_port::MemoryPort;
pub use port::{Happening, Port, ScriptedPort, Step, Told, Write, Wrote};
pub use record::Record;
