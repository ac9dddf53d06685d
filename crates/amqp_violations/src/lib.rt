//! What a server may not do, with the errors by which a link is then lost, and what its closes tell.
#![tactic(auto)]

mod misread;
mod server_close;
mod violations;

pub use misread::Misread;
pub use server_close::ServerClose;
pub use violations::{
    channel_closed_with, channel_error, closed_with, misread_error, stray_channel_frame,
    stray_connection_method, unawaited,
};
