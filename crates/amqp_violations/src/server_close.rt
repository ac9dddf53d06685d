//! How a server closed the connection.

ghost use Rattle.std.specs.Prelude.{◌≡◌, IfOk};

use amqp_types::{AMQPError, NoMemory};
use std::alloc::Global;

/// A close of the connection by the server, by its code.
#[derive(Drop)]
pub enum ServerClose {
    /// The code is none of an error, as 200.
    WithoutError,
    /// The code and the text are those of an error.
    WithError(AMQPError),
}

impl ServerClose {
    /// An equal close.
    pub fn try_clone(&self, alloc: Global) -> Result<ServerClose, NoMemory>
        ensures { IfOk result (λ close. close ≡ self.now) }
    {
        match self {
            ServerClose::WithoutError => Ok(ServerClose::WithoutError),
            ServerClose::WithError(error) => Ok(ServerClose::WithError(error.try_clone(alloc)?)),
        }
    }
}
