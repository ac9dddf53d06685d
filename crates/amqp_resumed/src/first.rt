//! The first frame that is heard: where it stands in a conversation, as far as its kind tells.

ghost use Rattle.std.specs.Prelude.{◌≡◌, ◌≤◌, length, [], option_map};
ghost use Rattle.amqp_legal.specs.Decider.{say, is_passed_through};
ghost use Rattle.amqp_legal.specs.Octets.{class_in, weight_in, body_size_in};
ghost use Rattle.amqp_legal.specs.Speeches.{speech_of};
ghost use Rattle.amqp_resumed.specs.Resumes.{channel_used as channel_used_by, said_or_same, said_each, led_by};
ghost use Rattle.amqp_resumed.specs.Resumes.{bare_start_ok, bare_tune_ok, bare_open};
ghost use Rattle.amqp_resumed.specs.Resumes.{is_of_introduction as is_introduced, missing_behind as missing_by};
ghost use Rattle.amqp_resumed.specs.Resumes.{content_begun as begun_by, opens_channel as opens};

use crate::resumed::Heard;
use amqp_frame::{Frame, Method, RawKind};
use amqp_legal::Speech;
use amqp_types::{ChannelId, FieldTable, LongString, ShortString};
use std::alloc::Global;

// A short string without octets.
fn short(alloc: Global) -> ShortString
    ensures { result ≡ [] }
{
    ShortString::from_vec(Vec::new(alloc))
}

// A long string without octets.
fn long(alloc: Global) -> LongString
    ensures { result ≡ [] }
{
    LongString::from_vec(Vec::new(alloc))
}

fn start_ok(alloc: Global) -> Frame
    ensures { result ≡ bare_start_ok }
{
    let properties = FieldTable::new(alloc);
    let method = Method::StartOk(properties, short(alloc), long(alloc), short(alloc));
    Frame::Method(0, method)
}

fn tune_ok() -> Frame
    ensures { result ≡ bare_tune_ok }
{
    Frame::Method(0, Method::TuneOk(0, 0, 0))
}

fn open(alloc: Global) -> Frame
    ensures { result ≡ bare_open }
{
    Frame::Method(0, Method::Open(short(alloc)))
}

// Says a frame that a client made up, where it may be said. It takes the frame.
fn say_own(said: &mut Speech, frame: Frame)
    ensures { speech_of said.new ≡ said_or_same (say frame (speech_of said.old)) (speech_of said.old) }
{
    let _ = said.say(&frame);
    drop(frame);
}

/// Whether a frame opens a channel.
pub fn is_opening(frame: &Frame) -> bool
    ensures { result ≡ opens frame.now }
{
    matches!(frame, Frame::Method(_, Method::ChannelOpen))
}

/// Leads a new speech to where the frame may be said that begins what is heard, as far as its kind tells.
pub fn lead(alloc: Global, said: &mut Speech, frame: &Frame)
    ensures { speech_of said.new ≡ said_each (led_by frame.now) (speech_of said.old) }
{
    match frame {
        Frame::ProtocolHeader(_) | Frame::Method(0, Method::StartOk(..)) => {}
        Frame::Method(0, Method::SecureOk(_) | Method::TuneOk(..)) => say_own(
            said,
            start_ok(alloc),
        ),
        Frame::Method(0, Method::Open(_)) => {
            say_own(said, start_ok(alloc));
            say_own(said, tune_ok());
        }
        _ => {
            say_own(said, start_ok(alloc));
            say_own(said, tune_ok());
            say_own(said, open(alloc));
        }
    }
}

/// Whether a frame stands in the introduction, so that it tells of all channels that they are not open.
pub fn is_of_introduction(frame: &Frame) -> bool
    ensures { result ≡ is_introduced frame.now }
{
    match frame {
        Frame::ProtocolHeader(_) => true,
        Frame::Method(0, method) => matches!(
            method,
            Method::StartOk(..) | Method::SecureOk(_) | Method::TuneOk(..) | Method::Open(_)
        ),
        _ => false,
    }
}

// The class of a payload.
fn class_of(payload: &[u8]) -> u16
    requires { 4 ≤ length payload.now }
    ensures { result ≡ class_in payload.now }
{
    u16::from_be_bytes([payload[0], payload[1]])
}

// The weight of a content header.
fn weight_of(payload: &[u8]) -> u16
    requires { 4 ≤ length payload.now }
    ensures { result ≡ weight_in payload.now }
{
    u16::from_be_bytes([payload[2], payload[3]])
}

// How long the body behind a content header is.
fn size_of_body(payload: &[u8]) -> u64
    requires { 14 ≤ length payload.now }
    ensures { result ≡ body_size_in payload.now }
{
    u64::from_be_bytes([
        payload[4],
        payload[5],
        payload[6],
        payload[7],
        payload[8],
        payload[9],
        payload[10],
        payload[11],
    ])
}

// Whether a payload is of a method that is passed through.
fn is_passed_through(payload: &[u8]) -> bool
    ensures { result ≡ is_passed_through payload.now }
{
    payload.len() >= 4 && !matches!(class_of(payload), 10 | 20)
}

/// The channel on which a frame is a method that may be said there, by some usage of the channel.
pub fn channel_used(frame: &Frame) -> Option<ChannelId>
    ensures { result ≡ channel_used_by frame.now }
{
    match frame {
        Frame::Method(0, _) | Frame::Raw(0, _, _) => None,
        Frame::Method(
            channel,
            Method::ChannelOpen
            | Method::ChannelFlow(_)
            | Method::ChannelFlowOk(_)
            | Method::ChannelClose(..)
            | Method::ChannelCloseOk,
        ) => Some(*channel),
        Frame::Raw(channel, RawKind::RawMethod, payload) if is_passed_through(payload.as_bytes()) =>
            { Some(*channel) }
        _ => None,
    }
}

// What is missing of a body, by its content header, where that is one.
fn missing_behind(head: &[u8]) -> Option<u64>
    ensures { result ≡ missing_by head.now }
{
    if head.len() < 14 || weight_of(head) != 0 {
        return None;
    }
    match class_of(head) {
        10 | 20 => None,
        _ => Some(size_of_body(head)),
    }
}

/// What is known of the content where a frame is the first that was heard and stands within one.
pub fn content_begun(frame: &Frame) -> Option<(ChannelId, Heard)>
    ensures { result ≡ begun_by frame.now }
{
    match frame {
        Frame::Raw(0, _, _) => None,
        Frame::Raw(channel, RawKind::Header, payload) => {
            let missing = missing_behind(payload.as_bytes())?;
            Some((*channel, Heard::Missing(*channel, missing)))
        }
        Frame::Raw(channel, RawKind::Body, payload) if !payload.is_empty() => {
            Some((*channel, Heard::Body(*channel)))
        }
        _ => None,
    }
}
