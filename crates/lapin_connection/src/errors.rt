//! The errors of connecting.

ghost use Rattle.std.specs.Prelude.{◌≡◌};
ghost use Rattle.lapin_connection.specs.Refusals.{error_of_address, error_of_start};

use crate::spawner::SpawnFault;
use amqp_session::{ErrorKind, IoFault};
use amqp_types::Word;
use amqp_uri::UriFault;

/// The error of a text that is no address.
pub fn error_of_address(fault: UriFault) -> ErrorKind
    ensures { result ≡ error_of_address fault }
{
    match fault.word() {
        Some(word) => ErrorKind::IOError(IoFault::Other(word)),
        None => ErrorKind::NoMemory,
    }
}

// The error of a loop that was not started.
pub(crate) fn error_of_start(fault: SpawnFault) -> ErrorKind
    ensures { result ≡ error_of_start fault }
{
    match fault {
        SpawnFault::Refused => ErrorKind::IOError(IoFault::Other(Word::NoLoop)),
        SpawnFault::NoMemory => ErrorKind::NoMemory,
    }
}
