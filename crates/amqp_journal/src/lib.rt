//! What happened to an engine, entry by entry, and where that leads: the engine that keeps such a
//! journal, less what was taken of it since, is where its journal leads from its base.
#![tactic(auto)]

mod entry;
mod laws;

pub use entry::{Entry, Turn};
pub use laws::{
    a_starved_turn_is_nothing_but_an_end, an_end_was_brought_by_a_turn,
    answers_are_those_of_the_journal, none_is_pending_after_the_end, the_journal_is_kept,
    what_stands_there,
};
