//! What goes wrong with a connection.

ghost use Rattle.std.specs.Prelude.{◌≡◌, IfOk};
ghost use Rattle.amqp_promise.specs.Errors.{error_text};
ghost use Rattle.amqp_promise.specs.Kinds.{is_io_error, is_amqp_error, is_amqp_soft_error, is_amqp_hard_error, would_block, is_interrupted, can_be_recovered};

use crate::io_fault::IoFault;
use crate::shown::Shown;
use crate::state::{ChannelState, ConnectionState};
use amqp_types::{AMQPError, AMQPErrorKind, ChannelId, NoMemory, ProtocolVersion, Text, Word};
use std::alloc::Global;
use std::fmt;
use std::marker::Model;

/// What went wrong.
#[derive(Debug, PartialEq, Eq, Drop)]
pub enum ErrorKind {
    /// Every number of a channel is listed.
    ChannelsLimitReached,
    /// The server answered with a protocol header, which names the version that it speaks.
    InvalidProtocolVersion(ProtocolVersion),
    /// No such channel is listed.
    InvalidChannel(ChannelId),
    /// The state in which a channel was found, and what it did not allow, or what closed it.
    InvalidChannelState(ChannelState, Word),
    /// The state in which the connection was found, and which does not allow what was asked.
    InvalidConnectionState(ConnectionState),
    /// The link failed.
    IOError(IoFault),
    /// The place, in the received bytes of its link, of what is no frame.
    ParsingError(u64),
    /// The server broke the protocol, or closed with an error.
    ProtocolError(AMQPError),
    /// The length of a frame that is longer than the whole capacity.
    SerialisationError(u64),
    /// Nothing was read for more than two intervals of heartbeats.
    MissingHeartbeatError,
    /// A run took all its turns.
    OutOfTurns,
    /// The number of a pass that another connection gave, its place there, and its promise, where it
    /// has one.
    ForeignPass(u32, u64, Option<u64>),
    /// How many bytes would be queued, which is more than the limit that was set.
    OutboxFull(u64),
    /// An allocation was refused.
    NoMemory,
    /// Who authenticates refused to, with this text.
    AuthProviderError(Text),
}

/// An error, seen as its kind. Two are equal where their kinds are.
#[derive(Debug, Drop)]
pub struct Error {
    kind: ErrorKind,
}

/// The answer of a call that may fail.
pub type Result<T> = std::result::Result<T, Error>;

impl Model for Error {
    ghost use Rattle.amqp_promise.specs.declared.error.ErrorKind.{ErrorKind};

    ghost Value = { ErrorKind };

    ghost view = { λ e. e.kind };

    ghost inverse = { λ kind. record { kind = kind } };
}

impl ErrorKind {
    /// Whether another link may serve after it.
    pub fn can_be_recovered(&self) -> bool
        ensures { result ≡ can_be_recovered self.now }
    {
        matches!(
            self,
            ErrorKind::InvalidChannel(_)
                | ErrorKind::InvalidChannelState(_, _)
                | ErrorKind::InvalidConnectionState(_)
                | ErrorKind::IOError(_)
                | ErrorKind::ProtocolError(_)
                | ErrorKind::MissingHeartbeatError
        )
    }

    // An equal kind.
    fn try_clone(&self, alloc: Global) -> std::result::Result<ErrorKind, NoMemory>
        ensures { IfOk result (λ kind. kind ≡ self.now) }
    {
        Ok(match self {
            ErrorKind::ChannelsLimitReached => ErrorKind::ChannelsLimitReached,
            ErrorKind::InvalidProtocolVersion(version) => {
                ErrorKind::InvalidProtocolVersion(*version)
            }
            ErrorKind::InvalidChannel(id) => ErrorKind::InvalidChannel(*id),
            ErrorKind::InvalidChannelState(held, word) => {
                ErrorKind::InvalidChannelState(*held, *word)
            }
            ErrorKind::InvalidConnectionState(held) => ErrorKind::InvalidConnectionState(*held),
            ErrorKind::IOError(fault) => ErrorKind::IOError(*fault),
            ErrorKind::ParsingError(place) => ErrorKind::ParsingError(*place),
            ErrorKind::ProtocolError(error) => ErrorKind::ProtocolError(error.try_clone(alloc)?),
            ErrorKind::SerialisationError(size) => ErrorKind::SerialisationError(*size),
            ErrorKind::MissingHeartbeatError => ErrorKind::MissingHeartbeatError,
            ErrorKind::OutOfTurns => ErrorKind::OutOfTurns,
            ErrorKind::ForeignPass(number, place, promise) => {
                ErrorKind::ForeignPass(*number, *place, *promise)
            }
            ErrorKind::OutboxFull(size) => ErrorKind::OutboxFull(*size),
            ErrorKind::NoMemory => ErrorKind::NoMemory,
            ErrorKind::AuthProviderError(text) => ErrorKind::AuthProviderError(text.try_clone()?),
        })
    }
}

impl Error {
    /// Which error it is.
    pub fn kind(&self) -> &ErrorKind
        ensures { result.now ≡ self.now }
    {
        &self.kind
    }

    /// Whether the link failed.
    pub fn is_io_error(&self) -> bool
        ensures { result ≡ is_io_error self.now }
    {
        matches!(self.kind, ErrorKind::IOError(_))
    }

    /// Whether it is an error of the protocol, found here or named by the server.
    pub fn is_amqp_error(&self) -> bool
        ensures { result ≡ is_amqp_error self.now }
    {
        matches!(self.kind, ErrorKind::ProtocolError(_))
    }

    /// Whether it is an error of the protocol that closes a channel.
    pub fn is_amqp_soft_error(&self) -> bool
        ensures { result ≡ is_amqp_soft_error self.now }
    {
        match &self.kind {
            ErrorKind::ProtocolError(error) => matches!(error.kind(), AMQPErrorKind::Soft),
            _ => false,
        }
    }

    /// Whether it is an error of the protocol that closes the connection.
    pub fn is_amqp_hard_error(&self) -> bool
        ensures { result ≡ is_amqp_hard_error self.now }
    {
        match &self.kind {
            ErrorKind::ProtocolError(error) => matches!(error.kind(), AMQPErrorKind::Hard),
            _ => false,
        }
    }

    /// Whether nothing could be done at the link without waiting.
    pub fn wouldblock(&self) -> bool
        ensures { result ≡ would_block self.now }
    {
        matches!(self.kind, ErrorKind::IOError(IoFault::WouldBlock))
    }

    /// Whether a call at the link was interrupted.
    pub fn interrupted(&self) -> bool
        ensures { result ≡ is_interrupted self.now }
    {
        matches!(self.kind, ErrorKind::IOError(IoFault::Interrupted))
    }

    /// Whether another link may serve after it. A session that recovers goes on then.
    pub fn can_be_recovered(&self) -> bool
        ensures { result ≡ can_be_recovered self.now }
    {
        self.kind.can_be_recovered()
    }

    /// An equal error.
    pub fn try_clone(&self, alloc: Global) -> std::result::Result<Error, NoMemory>
        ensures { IfOk result (λ e. e ≡ self.now) }
    {
        Ok(Error {
            kind: self.kind.try_clone(alloc)?,
        })
    }
}

impl PartialEq for Error {
    ghost use Rattle.std.specs.Prelude.{◌≡◌, ◌↔◌, IsTrue};
    ghost use Rattle.amqp_promise.specs.contracts.error.ErrorKindPartialEq.TheImpl as kind;
    ghost use Rattle.amqp_promise.specs.contracts.error.ErrorKindPartialEq.TheImpl.Laws as kind_laws;

    ghost eq = { kind.ghosts.eq };

    ghost laws = { kind_laws.lawful.laws };

    fn eq(&self, other: &Self) -> bool
        ensures answers { result ≡ kind.ghosts.eq self.now other.now }
        ensures equal { IsTrue result ↔ (self.now ≡ other.now) }
    {
        self.kind == other.kind
    }
}

impl Eq for Error {
    ghost use Rattle.amqp_promise.specs.contracts.error.ErrorKindEq.TheImpl.Laws as kind_laws;

    ghost laws = { kind_laws.lawful.laws };
}

impl From<ErrorKind> for Error {
    ghost use Rattle.std.specs.Prelude.{◌≡◌};

    ghost from_gives = { λ kind e. e ≡ kind };

    fn from(kind: ErrorKind) -> Error {
        Error { kind }
    }
}

impl From<IoFault> for Error {
    ghost use Rattle.std.specs.Prelude.{◌≡◌};
    ghost use Rattle.amqp_promise.specs.declared.error.ErrorKind.TheVariants as kind;

    ghost from_gives = { λ fault e. e ≡ kind.IOError fault };

    fn from(fault: IoFault) -> Error {
        Error {
            kind: ErrorKind::IOError(fault),
        }
    }
}

impl From<NoMemory> for Error {
    ghost use Rattle.std.specs.Prelude.{◌≡◌};
    ghost use Rattle.amqp_promise.specs.declared.error.ErrorKind.TheVariants as kind;

    ghost from_gives = { λ _ e. e ≡ kind.NoMemory };

    fn from(_refused: NoMemory) -> Error {
        Error {
            kind: ErrorKind::NoMemory,
        }
    }
}

impl fmt::Display for Error {
    ghost use Rattle.std.specs.Prelude.{Some};
    ghost use Rattle.amqp_promise.specs.Errors.{error_text};

    ghost output = { λ e. Some (error_text e) };

    fn fmt<W: fmt::Write>(&self, f: &mut fmt::Formatter<W>) -> fmt::Result {
        match &self.kind {
            ErrorKind::ChannelsLimitReached => {
                f.write_str("the maximum number of channels for this connection has been reached")
            }
            ErrorKind::InvalidProtocolVersion(version) => write!(
                f,
                "the server only supports AMQP {}-{}-{}",
                version.major, version.minor, version.revision
            ),
            ErrorKind::InvalidChannel(id) => write!(f, "invalid channel: {id}"),
            ErrorKind::InvalidChannelState(held, word) => {
                write!(
                    f,
                    "invalid channel state: {} ({})",
                    held.name(),
                    word.text()
                )
            }
            ErrorKind::InvalidConnectionState(held) => {
                write!(f, "invalid connection state: {}", held.name())
            }
            ErrorKind::IOError(fault) => write!(f, "IO error: {}", fault.text()),
            ErrorKind::ParsingError(place) => {
                write!(f, "failed to parse: frame at byte {place}")
            }
            ErrorKind::ProtocolError(error) => write!(
                f,
                "protocol error: {} {}",
                error.get_id(),
                Shown {
                    octets: error.get_message().as_bytes()
                }
            ),
            ErrorKind::SerialisationError(size) => {
                write!(f, "failed to serialise: frame of {size} bytes")
            }
            ErrorKind::MissingHeartbeatError => {
                f.write_str("no heartbeat received from server for too long")
            }
            ErrorKind::OutOfTurns => f.write_str("the given turns were all taken"),
            ErrorKind::ForeignPass(number, _, _) => write!(f, "foreign pass: {number}"),
            ErrorKind::OutboxFull(size) => write!(f, "outbox full: {size} bytes"),
            ErrorKind::NoMemory => f.write_str("memory was refused"),
            ErrorKind::AuthProviderError(text) => {
                write!(f, "failure during authentication: {}", text.as_str())
            }
        }
    }
}

impl std::error::Error for Error {}
