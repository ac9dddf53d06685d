//! What a promise is answered with where that is no error.

use amqp_types::ChannelId;

/// What a promise is answered with where that is no error.
#[derive(Clone, Copy, Debug, PartialEq, Eq)]
pub enum Answer {
    /// The connection is open.
    Connected,
    /// A channel is open, which has this number and was opened by this promise.
    Channel(ChannelId, u64),
    /// The server did as it was told.
    Done,
    /// All was sent.
    Sent,
    /// The server starts or stops to send content.
    Flow(bool),
}
