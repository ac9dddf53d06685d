//! How far a conversation is.

use amqp_types::ChannelId;

/// How far a conversation is: the last of its turning points that was said.
#[derive(Clone, Copy, Debug, PartialEq, Eq)]
pub enum Stage {
    /// The protocol header.
    HeaderSaid,
    /// start-ok, and any number of secure-ok.
    StartOkSaid,
    /// tune-ok.
    TuneOkSaid,
    /// open: from here on channels are opened and used.
    OpenSaid,
    /// Our close.
    CloseSaid,
    /// Our close-ok, after which nothing is said.
    CloseOkSaid,
}

/// How far a conversation is on one channel.
#[derive(Clone, Copy, Debug, PartialEq, Eq)]
pub enum Usage {
    /// Not open, or closed by both.
    Shut,
    /// Open.
    InUse,
    /// Closed by us alone.
    Left,
}

/// Which content may go on.
#[derive(Clone, Copy, Debug, PartialEq, Eq)]
pub enum Content {
    /// None.
    NoContent,
    /// That of a method on a channel, whose class is the number.
    MethodSaid(ChannelId, u16),
    /// A body on a channel, of which so many octets are missing.
    BodyMissing(ChannelId, u64),
}
