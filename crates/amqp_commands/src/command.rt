//! What a session can be told to do.

ghost use Rattle.std.specs.Prelude.{◌≡◌, IfOk};

use crate::properties::Properties;
use amqp_frame::RawMethod;
use amqp_types::{ChannelId, LongString, NoMemory, Payload, ReplyCode, ShortString};
use std::alloc::Global;
use std::fmt;

/// Names a listed channel by its number and, where it is given, by the promise that opened it.
#[derive(Clone, Copy, Debug, PartialEq, Eq)]
pub struct ChanRef {
    pub id: ChannelId,
    pub opened: Option<u64>,
}

/// A command. Its `Debug` shows nothing of a secret.
#[derive(PartialEq, Eq, Drop)]
pub enum Cmd {
    /// Opens a channel, whose number is drawn.
    OpenChannel,
    /// Closes a channel, with a reply code and a text.
    CloseChannel(ChanRef, ReplyCode, ShortString),
    /// Closes the connection, with a reply code and a text.
    CloseConnection(ReplyCode, ShortString),
    /// Tells the server a new secret in place of the one by which the client logged in, for a reason.
    UpdateSecret(LongString, ShortString),
    /// Sends a method on a channel.
    Send(ChanRef, RawMethod),
    /// Publishes with a method on a channel: the properties of the content header, and the body. The
    /// frames go out one after another, and none of another command comes between them.
    Publish(ChanRef, RawMethod, Properties, Payload),
    /// Tells the server to start or to stop sending content on a channel.
    Flow(ChanRef, bool),
    /// Lets a channel go: where it is open it is closed, with 200 and `OK`. It takes no promise.
    DropChannel(ChanRef),
    /// Lets the connection go: where it is open it is closed, with 200 and `OK`. It takes no promise.
    DropConnection,
    /// Keeps events from now on. It takes no promise.
    Listen,
}

impl fmt::Debug for Cmd {
    ghost use Rattle.amqp_commands.specs.Shown.{command_debug};

    ghost debug_output = { command_debug };

    fn fmt<W: fmt::Write>(&self, f: &mut fmt::Formatter<W>) -> fmt::Result {
        match self {
            Cmd::OpenChannel => f.write_str("OpenChannel"),
            Cmd::CloseChannel(channel, code, text) => {
                let mut tuple = f.debug_tuple("CloseChannel");
                tuple.field(channel).field(code).field(text).finish()
            }
            Cmd::CloseConnection(code, text) => {
                f.debug_tuple("CloseConnection")
                    .field(code)
                    .field(text)
                    .finish()
            }
            Cmd::UpdateSecret(..) => f.write_str("UpdateSecret(..)"),
            Cmd::Send(channel, method) => f
                .debug_tuple("Send")
                .field(channel)
                .field(method)
                .finish(),
            Cmd::Publish(channel, method, properties, body) => {
                let mut tuple = f.debug_tuple("Publish");
                tuple.field(channel).field(method);
                tuple.field(properties).field(body).finish()
            }
            Cmd::Flow(channel, active) => f
                .debug_tuple("Flow")
                .field(channel)
                .field(active)
                .finish(),
            Cmd::DropChannel(channel) => f.debug_tuple("DropChannel").field(channel).finish(),
            Cmd::DropConnection => f.write_str("DropConnection"),
            Cmd::Listen => f.write_str("Listen"),
        }
    }
}

impl Cmd {
    /// An equal command.
    pub fn try_clone(&self, alloc: Global) -> Result<Cmd, NoMemory>
        ensures { IfOk result (λ c. c ≡ self.now) }
    {
        match self {
            Cmd::OpenChannel => Ok(Cmd::OpenChannel),
            Cmd::CloseChannel(channel, code, text) => {
                Ok(Cmd::CloseChannel(*channel, *code, text.try_clone(alloc)?))
            }
            Cmd::CloseConnection(code, text) => {
                Ok(Cmd::CloseConnection(*code, text.try_clone(alloc)?))
            }
            Cmd::UpdateSecret(secret, reason) => {
                let secret = secret.try_clone(alloc)?;
                Ok(Cmd::UpdateSecret(secret, reason.try_clone(alloc)?))
            }
            Cmd::Send(channel, method) => Ok(Cmd::Send(*channel, method.try_clone(alloc)?)),
            Cmd::Flow(channel, active) => Ok(Cmd::Flow(*channel, *active)),
            Cmd::DropChannel(channel) => Ok(Cmd::DropChannel(*channel)),
            Cmd::DropConnection => Ok(Cmd::DropConnection),
            Cmd::Listen => Ok(Cmd::Listen),
            Cmd::Publish(channel, method, properties, body) => {
                let method = method.try_clone(alloc)?;
                let properties = properties.try_clone(alloc)?;
                Ok(Cmd::Publish(*channel, method, properties, body.try_clone(alloc)?))
            }
        }
    }
}
