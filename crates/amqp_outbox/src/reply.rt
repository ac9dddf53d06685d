//! A reply that is awaited.

ghost use Rattle.std.specs.Prelude.{◌≡◌, Some};
ghost use Rattle.amqp_outbox.specs.Replies.{method_of, is_of};

/// What the server answers with.
#[derive(Clone, Copy, Debug, PartialEq, Eq)]
pub enum Reply {
    /// channel.open-ok
    ChannelOpened,
    /// channel.close-ok
    ChannelClosed,
    /// channel.flow-ok
    FlowDone,
    /// connection.update-secret-ok
    SecretDone,
    /// connection.close-ok
    ConnectionClosed,
}

impl Reply {
    /// The number of its method in its class.
    pub fn method(self) -> u16
        ensures { result ≡ method_of self }
    {
        match self {
            Reply::ChannelOpened => 11,
            Reply::ChannelClosed => 41,
            Reply::FlowDone => 21,
            Reply::SecretDone => 71,
            Reply::ConnectionClosed => 51,
        }
    }
}

/// A reply that is awaited, and the promise that it answers.
#[derive(Clone, Copy, Debug, PartialEq, Eq)]
pub struct Awaited {
    pub reply: Reply,
    pub promise: Option<u64>,
}

impl Awaited {
    /// A reply that will answer a promise.
    pub fn by(reply: Reply, number: u64) -> Awaited
        ensures { result ≡ record { reply = reply; promise = Some number } }
    {
        Awaited {
            reply,
            promise: Some(number),
        }
    }

    /// Whether it awaits this reply.
    pub(crate) fn is_of(self, reply: Reply) -> bool
        ensures { result ≡ is_of reply self }
    {
        self.reply.method() == reply.method()
    }
}
