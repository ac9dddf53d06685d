//! Why a program went no further.

use amqp_session::{Error, ErrorKind};
use amqp_tools::status::{FAILED, NO_MEMORY, SINK_FAILED, SOURCE_FAILED, USAGE};
use amqp_types::NoMemory;
use std::io::Eprint;

/// Why a program went no further.
#[derive(Drop)]
pub enum Stop {
    /// The words are not known.
    Unknown,
    /// The address is none.
    Wrong(Error),
    /// Standard input failed.
    Unread,
    /// A body of standard input has more octets than this.
    TooLong(usize),
    /// Standard output failed.
    Unwritten,
    /// The report could not be written.
    Unreported,
    /// The broker delivers nothing more, as the queue is gone.
    Gone,
    /// The broker delivers a body of so many octets, which are more than it may have.
    TooLarge(u64, usize),
    /// What the broker delivers is not numbered upwards.
    Astray,
    /// The broker did not do this for so many seconds.
    Silent(&'static str, u64),
    /// The broker closed the connection, and gave no error.
    Closed,
    /// The connection failed.
    Failed(Error),
}

impl From<Error> for Stop {
    fn from(error: Error) -> Stop {
        Stop::Failed(error)
    }
}

impl From<NoMemory> for Stop {
    fn from(refused: NoMemory) -> Stop {
        Stop::Failed(refused.into())
    }
}

/// Says on standard error why a program of this name and with this text of help went no further, and gives
/// its status.
pub fn explain<R: Eprint>(rt: &R, name: &str, help: &str, stop: Stop) -> u8 {
    // The status tells it where standard error does not take it.
    let (status, _said) = match stop {
        Stop::Unknown => (USAGE, rt.eprintln(help)),
        Stop::Wrong(error) => (USAGE, eprintln!(rt; "{name}: {error}")),
        Stop::Unread => (
            SOURCE_FAILED,
            eprintln!(rt; "{name}: standard input failed"),
        ),
        Stop::TooLong(most) => (
            SOURCE_FAILED,
            eprintln!(rt; "{name}: a body of standard input has more than {most} octets"),
        ),
        Stop::Unwritten => (SINK_FAILED, eprintln!(rt; "{name}: standard output failed")),
        Stop::Unreported => (SINK_FAILED, eprintln!(rt; "{name}: the report failed")),
        Stop::Gone => (FAILED, eprintln!(rt; "{name}: the queue is gone")),
        Stop::TooLarge(size, most) => (
            FAILED,
            eprintln!(rt; "{name}: a message has {size} octets, which are more than {most}"),
        ),
        Stop::Astray => (
            FAILED,
            eprintln!(rt; "{name}: what is delivered is not numbered upwards"),
        ),
        Stop::Silent(what, seconds) => (
            FAILED,
            eprintln!(rt; "{name}: the broker did not {what} for {seconds} s"),
        ),
        Stop::Closed => (
            FAILED,
            eprintln!(rt; "{name}: the broker closed the connection"),
        ),
        Stop::Failed(error) if *error.kind() == ErrorKind::NoMemory => {
            (NO_MEMORY, eprintln!(rt; "{name}: memory was refused"))
        }
        Stop::Failed(error) => (FAILED, eprintln!(rt; "{name}: {error}")),
    };
    status
}
