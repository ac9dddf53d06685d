//! Why an order was not done.

use amqp_session::{Error, ErrorKind};
use amqp_types::NoMemory;
use std::alloc::{AllocError, AllocFailed, Global};

/// Why an order was not done.
#[derive(Drop)]
pub enum Stop {
    /// Memory was refused.
    NoMemory,
    /// Its words are not known.
    Unknown,
    /// What it wants is not there: a connection, or a channel.
    Missing(&'static str),
    /// A call answered this error.
    Failed(Error),
}

impl From<Error> for Stop {
    fn from(error: Error) -> Stop {
        if *error.kind() == ErrorKind::NoMemory {
            drop(error);
            return Stop::NoMemory;
        }
        Stop::Failed(error)
    }
}

impl From<NoMemory> for Stop {
    fn from(_refused: NoMemory) -> Stop {
        Stop::NoMemory
    }
}

impl From<AllocError> for Stop {
    fn from(_refused: AllocError) -> Stop {
        Stop::NoMemory
    }
}

impl<T: Drop> From<AllocFailed<T>> for Stop {
    fn from(_refused: AllocFailed<T>) -> Stop {
        Stop::NoMemory
    }
}

/// A text of one's own.
pub fn text(alloc: Global, text: &str) -> Result<String, Stop> {
    Ok(String::from_str(alloc, text)?)
}

/// What is said of an order that was not done.
pub fn said_of(alloc: Global, stop: Stop) -> Result<String, AllocError> {
    match stop {
        Stop::NoMemory => Err(AllocError),
        Stop::Unknown => String::from_str(alloc, "NOT KNOWN"),
        Stop::Missing(what) => format!(in alloc; "no {what}"),
        Stop::Failed(error) => {
            let said = format!(in alloc; "error {error}");
            drop(error);
            said
        }
    }
}
