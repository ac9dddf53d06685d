//! The client's side of an AMQP 0-9-1 connection as a machine without input or output.
//!
//! A `Session` is told what happens, as a link that opens, a frame that was read or bytes that were
//! taken, and is asked for the frames to be written, for the answers to commands and for the frames
//! that are handed out. Each call is the rule of that happening in `amqp_rules`. What a session is told,
//! what it answers and what it is made from are crates of their own, and are named here too.
#![tactic(auto)]

mod channels;
mod kept;
mod session;

pub use amqp_answers::{Answer, Event, Handed};
pub use amqp_auth::{
    Asked, AuthList, AuthProvider, DefaultAuthProvider, DefaultTokenProvider, HandedProvider,
    ProviderChoice, Question, Refusal, TokenAuthProvider, TokenProvider,
};
pub use amqp_channels::{Id, IdSequence};
pub use amqp_commands::{ChanRef, Cmd, Properties};
pub use amqp_promise::{ChannelState, ConnectionState, Error, ErrorKind, IoFault, Result};
pub use amqp_rules::{
    a_channel_names_what_opened_it, a_frame_ends_with_its_errors, a_lost_link_answers_what_waits,
    a_refusal_changes_promises_alone, a_secret_is_asked_for_when_it_has_expired,
    an_answer_is_taken_once, an_end_is_kept, an_outbox_is_full_above_its_limit,
    events_are_told_once, negotiation_leaves_room, states_stay_sound, unsent_bytes_are_counted,
};
pub use amqp_settings::{
    Configuration, ConnectionProperties, LEAST_CAPACITY, initial_capacity, tune,
};
pub use amqp_violations::Misread;
pub use channels::Channels;
pub use kept::Kept;
pub use session::Session;
