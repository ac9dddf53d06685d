//! The lines that are said.

ghost use Rattle.std.specs.Prelude.{◌≡◌, IfOk, OnOk, OnErr};
ghost use Rattle.std.specs.String.{string_bytes};
ghost use Rattle.amqp_live.specs.Said.{channel_line, error_line};

use amqp_session::Error;
use amqp_types::{ChannelId, NoMemory};
use std::alloc::Global;

/// The line of a channel that was opened.
pub fn channel_line(alloc: Global, id: ChannelId) -> Result<String, NoMemory>
    ensures { IfOk result (λ line. string_bytes line ≡ channel_line id) }
{
    let mut line = String::new(alloc);
    match write!(line, "channel {id}\n") {
        Ok(()) => Ok(line),
        Err(_) => {
            drop(line);
            Err(NoMemory)
        }
    }
}

/// The line of an error.
pub fn error_line(alloc: Global, error: &Error) -> Result<String, NoMemory>
    ensures { IfOk result (λ line. string_bytes line ≡ error_line error.now) }
{
    let mut line = String::new(alloc);
    match write!(line, "error {error}\n") {
        Ok(()) => Ok(line),
        Err(_) => {
            drop(line);
            Err(NoMemory)
        }
    }
}
