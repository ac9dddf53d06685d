//! A finding as an engineer reads it, in three lines: where which frame stands, what was said before
//! it, and what might have been said in its place.

use crate::expected::Expected;
use crate::finding::Finding;
use crate::names::{method_name, name_of};
use amqp_frame::{Frame, RawKind};
use amqp_legal::{Content, Stage, Usage};
use amqp_types::ChannelId;
use std::fmt;

// A content header, by what stands in it.
fn show_header<W: fmt::Write>(payload: &[u8], f: &mut fmt::Formatter<W>) -> fmt::Result {
    match payload {
        [a, b, c, d, size @ ..] => {
            let class = u16::from_be_bytes([*a, *b]);
            let weight = u16::from_be_bytes([*c, *d]);
            write!(f, "a content header of class {class} and weight {weight}")?;
            match size {
                [a, b, c, d, e, g, h, i, ..] => {
                    let size = u64::from_be_bytes([*a, *b, *c, *d, *e, *g, *h, *i]);
                    write!(f, ", for a body of {size} octets,")
                }
                _ => Ok(()),
            }
        }
        _ => f.write_str("a content header"),
    }
}

// A method whose arguments are not read.
fn show_raw_method<W: fmt::Write>(payload: &[u8], f: &mut fmt::Formatter<W>) -> fmt::Result {
    match payload {
        [a, b, c, d, ..] => {
            let class = u16::from_be_bytes([*a, *b]);
            let method = u16::from_be_bytes([*c, *d]);
            let name = method_name(class, method);
            write!(f, "{name} ({class}.{method})")
        }
        _ => f.write_str("a method"),
    }
}

// What a frame is.
fn show_kind<W: fmt::Write>(frame: &Frame, f: &mut fmt::Formatter<W>) -> fmt::Result {
    match frame {
        Frame::ProtocolHeader(v) => {
            let (major, minor, revision) = (v.major, v.minor, v.revision);
            write!(f, "a protocol header of version {major}-{minor}-{revision}")
        }
        Frame::Method(_, method) => f.write_str(name_of(method)),
        Frame::Raw(_, RawKind::RawMethod, payload) => show_raw_method(payload.as_bytes(), f),
        Frame::Raw(_, RawKind::Header, payload) => show_header(payload.as_bytes(), f),
        Frame::Raw(_, RawKind::Body, payload) => {
            let len = payload.len();
            write!(f, "a body frame of {len} octets")
        }
        Frame::Heartbeat => f.write_str("a heartbeat"),
    }
}

/// The channel on which a content goes on; 0 where none does.
pub fn channel_in(content: Content) -> ChannelId {
    match content {
        Content::NoContent => 0,
        Content::MethodSaid(channel, _) | Content::BodyMissing(channel, _) => channel,
    }
}

/// The channel that a frame names; 0 where it names none.
pub fn channel_of(frame: &Frame) -> ChannelId {
    match frame {
        Frame::Method(channel, _) | Frame::Raw(channel, _, _) => *channel,
        Frame::ProtocolHeader(_) | Frame::Heartbeat => 0,
    }
}

/// What was said last of the turning points of a conversation.
pub fn stage_name(stage: Stage) -> &'static str {
    match stage {
        Stage::HeaderSaid => "the protocol header",
        Stage::StartOkSaid => "start-ok",
        Stage::TuneOkSaid => "tune-ok",
        Stage::OpenSaid => "open",
        Stage::CloseSaid => "close",
        Stage::CloseOkSaid => "close-ok",
    }
}

/// How far a conversation is on a channel.
pub fn usage_name(usage: Usage) -> &'static str {
    match usage {
        Usage::Shut => "is not open",
        Usage::InUse => "is open",
        Usage::Left => "was closed by the client",
    }
}

/// Writes what was said of the content that may go on.
pub fn show_content<W: fmt::Write>(content: Content, f: &mut fmt::Formatter<W>) -> fmt::Result {
    match content {
        Content::NoContent | Content::BodyMissing(_, 0) => Ok(()),
        Content::MethodSaid(channel, class) => {
            write!(f, "; a method of class {class} on channel {channel}")
        }
        Content::BodyMissing(channel, missing) => {
            write!(
                f,
                "; of the body on channel {channel} {missing} octets are missing"
            )
        }
    }
}

// What was said before, as far as it matters for the frame.
fn show_said<W: fmt::Write>(finding: &Finding, f: &mut fmt::Formatter<W>) -> fmt::Result {
    if finding.number == 0 {
        return f.write_str("nothing");
    }
    let content = finding.said.content();
    let channel = match channel_of(&finding.frame) {
        0 => channel_in(content),
        channel => channel,
    };
    f.write_str(stage_name(finding.said.stage()))?;
    if channel != 0 {
        let usage = usage_name(finding.said.usage(channel));
        write!(f, "; channel {channel} {usage}")?;
    }
    show_content(content, f)
}

// Whether a frame is of the connection, so that its channel goes without saying.
fn is_of_connection(frame: &Frame) -> bool {
    match frame {
        Frame::ProtocolHeader(_) | Frame::Heartbeat => true,
        Frame::Method(channel, method) => *channel == 0
            && name_of(method).starts_with("connection"),
        Frame::Raw(..) => false,
    }
}

/// Where which frame of the client stands, as an engineer reads it.
#[derive(Clone, Copy)]
pub struct Standing<'a> {
    /// Its number, counted from 0.
    pub number: u64,
    /// The place of its first octet.
    pub place: u64,
    pub frame: &'a Frame,
}

impl<'a> fmt::Display for Standing<'a> {
    fn fmt<W: fmt::Write>(&self, f: &mut fmt::Formatter<W>) -> fmt::Result {
        let (place, number) = (self.place, self.number);
        write!(f, "client byte {place}: frame {number} is ")?;
        show_kind(self.frame, f)?;
        if is_of_connection(self.frame) {
            return Ok(());
        }
        let channel = channel_of(self.frame);
        write!(f, " on channel {channel}")
    }
}

impl fmt::Display for Expected {
    fn fmt<W: fmt::Write>(&self, f: &mut fmt::Formatter<W>) -> fmt::Result {
        match self {
            Expected::Header => {
                f.write_str("a conversation begins with the protocol header of AMQP 0-9-1")
            }
            Expected::StartOk => f.write_str("start-ok comes next"),
            Expected::SecureOkOrTuneOk => f.write_str("secure-ok or tune-ok comes next"),
            Expected::Open => f.write_str("open comes next"),
            Expected::Method => f.write_str(
                "a heartbeat comes next, or a method that its channel allows",
            ),
            Expected::ContentHeader(channel, class) => {
                write!(
                    f,
                    "a content header of class {class} and weight 0 on channel {channel} comes next, or a method"
                )
            }
            Expected::Body(channel, missing) => {
                write!(
                    f,
                    "a body frame on channel {channel} comes next, not empty and of at most {missing} octets"
                )
            }
            Expected::CloseOk => f.write_str("after our close comes close-ok alone"),
            Expected::Nothing => f.write_str("after our close-ok nothing comes"),
        }
    }
}

impl fmt::Display for Finding {
    fn fmt<W: fmt::Write>(&self, f: &mut fmt::Formatter<W>) -> fmt::Result {
        let standing = Standing {
            number: self.number,
            place: self.place,
            frame: &self.frame,
        };
        write!(f, "{standing}\nsaid so far: ")?;
        show_said(self, f)?;
        let expected = self.expected();
        write!(f, "\n{expected}")
    }
}
