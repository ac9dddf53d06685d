//! What is to go out: the frames that wait, with the replies that are awaited, and the committed frames that
//! are not wholly sent. Contracts see an `Outgoing` by the definitions `queue_of` and `marks`.
#![tactic(auto)]

mod committed;
mod outgoing;

pub use committed::{Mark, Then};
pub use outgoing::Outgoing;
