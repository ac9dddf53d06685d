//! The rules of a session: what each happening does to its state, and what they keep.
//!
//! A state is a `Talk`, and each rule a definition over it, which the list `specs/Lib.antt` gives in
//! reading order. `amqp_session` does what they say.
#![tactic(auto)]

mod laws;
mod state;

pub use laws::{
    a_channel_names_what_opened_it, a_frame_ends_with_its_errors, a_lost_link_answers_what_waits,
    a_refusal_changes_promises_alone, a_secret_is_asked_for_when_it_has_expired,
    an_answer_is_taken_once, an_end_is_kept, an_outbox_is_full_above_its_limit,
    events_are_told_once, negotiation_leaves_room, states_stay_sound, unsent_bytes_are_counted,
};
pub use state::{End, Input, Link, Phase};
