//! What a session can be told to do, and the frames of a publish.
#![tactic(auto)]

mod command;
mod properties;
mod publishing;

pub use command::{ChanRef, Cmd};
pub use properties::Properties;
pub use publishing::{content_header, publish_frames, publish_len};
