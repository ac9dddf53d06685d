//! Which replies were awaited.

ghost use Rattle.std.specs.Prelude.{◌≡◌};
ghost use Rattle.amqp_outbox.specs.Kinds.{is_marked, marked};

use crate::reply::Reply;

/// The replies that were awaited on a channel since nothing was.
///
/// Flags and no bits of a number, whose arithmetic is dear to prove.
#[derive(Clone, Copy, Debug, PartialEq, Eq)]
pub struct Kinds {
    channel_opened: bool,
    channel_closed: bool,
    flow_done: bool,
    secret_done: bool,
    connection_closed: bool,
}

impl Kinds {
    /// None was.
    pub fn none() -> Kinds {
        Kinds {
            channel_opened: false,
            channel_closed: false,
            flow_done: false,
            secret_done: false,
            connection_closed: false,
        }
    }

    /// Whether this reply was awaited.
    pub fn has(self, reply: Reply) -> bool
        ensures { result ≡ is_marked reply self }
    {
        match reply {
            Reply::ChannelOpened => self.channel_opened,
            Reply::ChannelClosed => self.channel_closed,
            Reply::FlowDone => self.flow_done,
            Reply::SecretDone => self.secret_done,
            Reply::ConnectionClosed => self.connection_closed,
        }
    }

    /// This reply is awaited too.
    pub fn mark(&mut self, reply: Reply)
        ensures { self.new ≡ marked reply self.old }
    {
        match reply {
            Reply::ChannelOpened => self.channel_opened = true,
            Reply::ChannelClosed => self.channel_closed = true,
            Reply::FlowDone => self.flow_done = true,
            Reply::SecretDone => self.secret_done = true,
            Reply::ConnectionClosed => self.connection_closed = true,
        }
    }
}
