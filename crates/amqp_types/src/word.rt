//! The fixed texts that errors hold.

ghost use Rattle.std.specs.Prelude.{◌≡◌};
ghost use Rattle.amqp_types.specs.Words.{word_text};

/// A fixed text: the key of an address's query whose number is bad, what a channel's state did not
/// allow or what closed it, or why a connection could not be made.
#[derive(Clone, Copy, Debug, PartialEq, Eq)]
pub enum Word {
    /// The key `frame_max`.
    FrameMax,
    /// The key `channel_max`.
    ChannelMax,
    /// The key `heartbeat`.
    Heartbeat,
    /// A close of ours.
    ChannelClose,
    /// The server closed the channel, and was answered.
    ChannelCloseOkSent,
    /// The server answered a close of ours.
    ChannelCloseOkReceived,
    /// A change of the flow.
    ChannelFlow,
    /// A method sent.
    Send,
    /// A publish.
    Publish,
    /// The address is none of AMQP's.
    NotAnAmqpUri,
    /// The address wants TLS.
    AmqpsIsNotSupported,
    /// The address's virtual host is longer than 255 octets.
    VirtualHostTooLong,
    /// A number of the address does not fit its type.
    BadNumberInUri,
    /// The address's mechanism is not known.
    BadMechanismInUri,
    /// No thread was there to run the connection.
    NoLoop,
    /// A builder was given no address.
    NoUriGiven,
}

impl Word {
    /// The text.
    pub fn text(self) -> &'static str
        ensures { result.now ≡ word_text self }
    {
        match self {
            Word::FrameMax => "frame_max",
            Word::ChannelMax => "channel_max",
            Word::Heartbeat => "heartbeat",
            Word::ChannelClose => "channel.close",
            Word::ChannelCloseOkSent => "channel.close-ok sent",
            Word::ChannelCloseOkReceived => "channel.close-ok received",
            Word::ChannelFlow => "channel.flow",
            Word::Send => "send",
            Word::Publish => "publish",
            Word::NotAnAmqpUri => "not an AMQP URI",
            Word::AmqpsIsNotSupported => "amqps is not supported",
            Word::VirtualHostTooLong => "virtual host too long",
            Word::BadNumberInUri => "bad number in URI",
            Word::BadMechanismInUri => "bad mechanism in URI",
            Word::NoLoop => "no loop",
            Word::NoUriGiven => "No AMQPUri given to ConnectionBuilder",
        }
    }
}
