//! What a client of AMQP 0-9-1 may say on a link: the grammar of legal conversations, and a decider
//! that takes them frame by frame.
//!
//! A `Speech` keeps what was said so far, and is told each further frame. `specs/Legal.antt` has the
//! grammar, whole conversations at once, and `specs/Decider.antt` the same frame by frame. The calls
//! of `laws` say that both are one.
#![tactic(auto)]

mod kind;
mod laws;
mod progress;
mod speech;

pub use kind::is_amqp_header;
pub use laws::{
    a_front_of_a_legal_conversation_is_legal, a_speech_says_legal_conversations,
    the_decider_takes_legal_conversations,
};
pub use progress::{Content, Stage, Usage};
pub use speech::Speech;
