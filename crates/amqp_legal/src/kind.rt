//! What a frame is to a conversation.

ghost use Rattle.std.specs.Prelude.{◌≡◌, ◌≤◌, length};
ghost use Rattle.amqp_legal.specs.Octets.{class_in, weight_in, body_size_in};
ghost use Rattle.amqp_legal.specs.Decider.{is_amqp_header as is_header};
ghost use Rattle.amqp_legal.specs.Kinds.{connection_kind, channel_kind, raw_kind, header_kind, frame_kind};
ghost use Rattle.amqp_legal.specs.Kinds.{introduced as introduced_by, is_close_ok_kind as is_our_close_ok};

use crate::progress::Stage;
use amqp_frame::{Frame, Method, RawKind};
use amqp_types::ChannelId;

/// What a frame is to a conversation.
#[derive(Clone, Copy)]
pub enum Kind {
    StartOk,
    SecureOk,
    TuneOk,
    Open,
    Close,
    CloseOk,
    /// A heartbeat or a new secret.
    Quiet,
    ChannelOpen(ChannelId),
    /// flow or flow-ok.
    ChannelFlow(ChannelId),
    ChannelClose(ChannelId),
    ChannelCloseOk(ChannelId),
    /// A method of another class, which is the number.
    Passed(ChannelId, u16),
    /// A content header: the class, and how long the body is.
    Header(ChannelId, u16, u64),
    /// A content body of so many octets.
    Body(ChannelId, u64),
    /// What no client says.
    Other,
}

/// Whether a frame is the protocol header of AMQP 0-9-1, with which each conversation begins.
pub fn is_amqp_header(frame: &Frame) -> bool
    ensures { result ≡ is_header frame.now }
{
    match frame {
        Frame::ProtocolHeader(v) => v.major == 0 && v.minor == 9 && v.revision == 1,
        _ => false,
    }
}

// What a method on channel 0 is.
fn kind_of_connection(method: &Method) -> Kind
    ensures { result ≡ connection_kind method.now }
{
    match method {
        Method::StartOk(..) => Kind::StartOk,
        Method::SecureOk(_) => Kind::SecureOk,
        Method::TuneOk(..) => Kind::TuneOk,
        Method::Open(_) => Kind::Open,
        Method::Close(..) => Kind::Close,
        Method::CloseOk => Kind::CloseOk,
        Method::UpdateSecret(..) => Kind::Quiet,
        _ => Kind::Other,
    }
}

// What a method on another channel is.
fn kind_of_channel(channel: ChannelId, method: &Method) -> Kind
    ensures { result ≡ channel_kind channel method.now }
{
    match method {
        Method::ChannelOpen => Kind::ChannelOpen(channel),
        Method::ChannelFlow(_) | Method::ChannelFlowOk(_) => Kind::ChannelFlow(channel),
        Method::ChannelClose(..) => Kind::ChannelClose(channel),
        Method::ChannelCloseOk => Kind::ChannelCloseOk(channel),
        _ => Kind::Other,
    }
}

// The class of a payload.
fn class_of(payload: &[u8]) -> u16
    requires { 4 ≤ length payload.now }
    ensures { result ≡ class_in payload.now }
{
    u16::from_be_bytes([payload[0], payload[1]])
}

// The weight of a content header.
fn weight_of(payload: &[u8]) -> u16
    requires { 4 ≤ length payload.now }
    ensures { result ≡ weight_in payload.now }
{
    u16::from_be_bytes([payload[2], payload[3]])
}

// How long the body behind a content header is.
fn size_of_body(payload: &[u8]) -> u64
    requires { 14 ≤ length payload.now }
    ensures { result ≡ body_size_in payload.now }
{
    u64::from_be_bytes([
        payload[4],
        payload[5],
        payload[6],
        payload[7],
        payload[8],
        payload[9],
        payload[10],
        payload[11],
    ])
}

// What a method is that is passed through.
fn kind_of_raw(channel: ChannelId, payload: &[u8]) -> Kind
    ensures { result ≡ raw_kind channel payload.now }
{
    if payload.len() < 4 {
        return Kind::Other;
    }
    match class_of(payload) {
        10 | 20 => Kind::Other,
        class => Kind::Passed(channel, class),
    }
}

// What a content header is.
fn kind_of_header(channel: ChannelId, payload: &[u8]) -> Kind
    ensures { result ≡ header_kind channel payload.now }
{
    if payload.len() < 14 || weight_of(payload) != 0 {
        return Kind::Other;
    }
    Kind::Header(channel, class_of(payload), size_of_body(payload))
}

/// What a frame is.
pub fn kind_of(frame: &Frame) -> Kind
    ensures { result ≡ frame_kind frame.now }
{
    match frame {
        Frame::ProtocolHeader(_) => Kind::Other,
        Frame::Method(0, method) => kind_of_connection(method),
        Frame::Method(channel, method) => kind_of_channel(*channel, method),
        Frame::Raw(0, RawKind::RawMethod, _) => Kind::Other,
        Frame::Raw(channel, RawKind::RawMethod, payload) => {
            kind_of_raw(*channel, payload.as_bytes())
        }
        Frame::Raw(channel, RawKind::Header, payload) => {
            kind_of_header(*channel, payload.as_bytes())
        }
        Frame::Raw(channel, RawKind::Body, payload) => {
            Kind::Body(*channel, payload.len() as u64)
        }
        Frame::Heartbeat => Kind::Quiet,
    }
}

/// What leads from one turning point of the introduction to the next.
pub fn introduced(stage: Stage, kind: Kind) -> Option<Stage>
    ensures { result ≡ introduced_by stage kind }
{
    match (stage, kind) {
        (Stage::HeaderSaid, Kind::StartOk) | (Stage::StartOkSaid, Kind::SecureOk) => {
            Some(Stage::StartOkSaid)
        }
        (Stage::StartOkSaid, Kind::TuneOk) => Some(Stage::TuneOkSaid),
        (Stage::TuneOkSaid, Kind::Open) => Some(Stage::OpenSaid),
        _ => None,
    }
}

/// Whether a frame is our close-ok of the connection.
pub fn is_close_ok(kind: Kind) -> bool
    ensures { result ≡ is_our_close_ok kind }
{
    matches!(kind, Kind::CloseOk)
}
