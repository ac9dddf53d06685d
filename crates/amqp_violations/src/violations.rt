//! The errors by which a link is lost where a server does what it may not.

ghost use Rattle.std.specs.Prelude.{◌≡◌, ◌≤◌, Some, IfOk, IsOk, IsFalse, length};
ghost use Rattle.std.specs.String.{string_bytes};
ghost use Rattle.amqp_types.specs.Codes.{kind_of};
ghost use Rattle.amqp_types.specs.declared.error.AMQPErrorKind.TheVariants.{Hard};
ghost use Rattle.amqp_violations.specs.Violations.{has_text, error_named, protocol_error, frame_too_large, stray_heartbeat, misread_error, stray_connection_method, raw_name, stray_channel_frame, method_name, unawaited, channel_closed_with, closed_with};

use crate::misread::Misread;
use crate::server_close::ServerClose;
use amqp_frame::{Method, RawKind};
use amqp_promise::{ChannelState, ErrorKind};
use amqp_types::{AMQPError, ChannelId, NoMemory, ReplyCode, ShortString, Word};
use std::alloc::Global;

/// The error of what was read and is no frame: frame-error (501), or `ParsingError` with its place.
pub fn misread_error(alloc: Global, why: Misread) -> Result<ErrorKind, NoMemory>
    ensures ok { IfOk result (λ kind. kind ≡ misread_error why) }
    ensures idle { IsFalse (has_text (misread_error why)) → IsOk result }
{
    match why {
        Misread::TooLarge(size) => frame_too_large(alloc, size),
        Misread::BadHeartbeat(channel) => stray_heartbeat(alloc, channel),
        Misread::Bad(place) => Ok(ErrorKind::ParsingError(place)),
    }
}

fn frame_too_large(alloc: Global, size: u32) -> Result<ErrorKind, NoMemory>
    ensures { IfOk result (λ kind. kind ≡ frame_too_large size) }
{
    let weight = size as u64 + 8;
    hard_error(501, format!(in alloc; "frame too large: {weight} bytes")?)
}

fn stray_heartbeat(alloc: Global, channel: ChannelId) -> Result<ErrorKind, NoMemory>
    ensures { IfOk result (λ kind. kind ≡ stray_heartbeat channel) }
{
    hard_error(
        501,
        format!(in alloc; "heartbeat frame received on channel {channel}")?,
    )
}

/// The error of a method of the connection class on another channel than 0: command-invalid (503).
pub fn stray_connection_method(alloc: Global, channel: ChannelId) -> Result<ErrorKind, NoMemory>
    ensures { IfOk result (λ kind. kind ≡ stray_connection_method channel) }
{
    hard_error(
        503,
        format!(in alloc; "connection frame received on channel {channel}")?,
    )
}

/// The error of a frame of a channel on channel 0: channel-error (504).
pub fn stray_channel_frame(alloc: Global, kind: RawKind) -> Result<ErrorKind, NoMemory>
    ensures { IfOk result (λ e. e ≡ stray_channel_frame kind) }
{
    let name = raw_name(kind);
    hard_error(
        504,
        format!(in alloc; "{name} frame received on channel 0")?,
    )
}

fn raw_name(kind: RawKind) -> &'static str
    ensures { result.now ≡ raw_name kind }
{
    match kind {
        RawKind::RawMethod => "method",
        RawKind::Header => "content header",
        RawKind::Body => "body",
    }
}

/// The error of a method of the channel class that nothing awaits: unexpected-frame (505).
pub fn unawaited(alloc: Global, method: &Method, channel: ChannelId) -> Result<ErrorKind, NoMemory>
    ensures { IfOk result (λ kind. kind ≡ unawaited method.now channel) }
{
    let name = method_name(method);
    hard_error(
        505,
        format!(in alloc; "unexpected channel.{name} received on channel {channel}")?,
    )
}

fn method_name(method: &Method) -> &'static str
    ensures name { result.now ≡ method_name method.now }
    ensures short { length result.now ≤ 8 }
{
    match method {
        Method::ChannelOpen => "open",
        Method::ChannelOpenOk => "open-ok",
        Method::ChannelFlow(_) => "flow",
        Method::ChannelFlowOk(_) => "flow-ok",
        Method::ChannelClose(..) => "close",
        _ => "close-ok",
    }
}

// The error of a code that closes the connection.
fn hard_error(code: ReplyCode, text: String) -> Result<ErrorKind, NoMemory>
    requires code { kind_of code ≡ Some Hard }
    requires text { length (string_bytes text) ≤ 255 }
    ensures { IfOk result (λ kind. kind ≡ protocol_error code (string_bytes text)) }
{
    let message = ShortString::from_vec(text.into_bytes());
    match AMQPError::from_code(code, message)? {
        Some(error) => Ok(ErrorKind::ProtocolError(error)),
        None => unreachable!(),
    }
}

/// What the server's close of a channel tells those who wait for something on it: an error of its
/// code, or that we answered a close.
pub fn channel_closed_with(
    alloc: Global,
    code: ReplyCode,
    text: &ShortString,
) -> Result<ErrorKind, NoMemory>
    ensures { IfOk result (λ kind. kind ≡ channel_closed_with code text.now) }
{
    match AMQPError::from_code(code, text.try_clone(alloc)?)? {
        Some(error) => Ok(ErrorKind::ProtocolError(error)),
        None => Ok(ErrorKind::InvalidChannelState(ChannelState::Closing, Word::ChannelCloseOkSent)),
    }
}

/// The error with which the server closed a channel, where its code is one of an error.
pub fn channel_error(
    alloc: Global,
    code: ReplyCode,
    text: &ShortString,
) -> Result<Option<AMQPError>, NoMemory>
    ensures { IfOk result (λ error. error ≡ error_named (channel_closed_with code text.now)) }
{
    AMQPError::from_code(code, text.try_clone(alloc)?)
}

/// What the server's close tells.
pub fn closed_with(code: ReplyCode, text: ShortString) -> Result<ServerClose, NoMemory>
    ensures { IfOk result (λ told. told ≡ closed_with code text) }
{
    match AMQPError::from_code(code, text)? {
        Some(error) => Ok(ServerClose::WithError(error)),
        None => Ok(ServerClose::WithoutError),
    }
}
