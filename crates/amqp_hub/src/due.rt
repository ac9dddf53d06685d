//! What is done about what was let go.

use amqp_session::Cmd;

/// What a handle owned that was let go.
#[derive(Clone, Copy, Debug, PartialEq, Eq)]
pub enum Owner {
    /// The connection.
    Connection,
    /// The channel that this promise opened.
    Channel(u64),
    /// The answer to this promise.
    Answer(u64),
}

/// What is done about that.
#[derive(Drop)]
pub enum Due {
    /// This command is entered.
    Now(Cmd),
    /// It is looked at again later.
    Later,
    /// Nothing.
    Never,
}
