//! Why octets are no frame, whatever follows them.

use crate::names::method_name;
use amqp_types::ChannelId;
use std::fmt;

/// How many octets stand before the payload of a frame: its type, its channel and its size.
pub const HEAD: usize = 7;

// The least octets of the payload of a content header, and of a method.
const LEAST_HEADER: u32 = 14;

const LEAST_METHOD: u32 = 4;

// The octet with which a frame ends.
const FRAME_END: u8 = 0xce;

/// Why no frame stands at a place. A number `at` is how many octets behind that place something is.
#[derive(Clone, Copy, Debug, PartialEq, Eq)]
pub enum Cause {
    /// No frame begins with this octet.
    Type(u8),
    /// The octet `at` of what begins as a protocol header does is this one.
    Signature {
        at: u64,
        octet: u8,
    },
    /// No frame has as many octets as this size.
    Size(u32),
    /// A heartbeat has a payload of so many octets.
    HeartbeatPayload(u32),
    /// The frame has this size, so that its last octet stands `at`, and it is not `ce`.
    End {
        at: u64,
        octet: u8,
    },
    /// A heartbeat is on this channel, which is not 0.
    HeartbeatChannel(ChannelId),
    /// The payload of a content header has so few octets.
    ShortHeader(u32),
    /// The payload of a method has so few octets.
    ShortMethod(u32),
    /// The class connection or channel, the first number, has no such method.
    UnknownMethod(u16, u16),
    /// The argument of this method that begins `at` goes on behind the frame's end.
    ArgumentsShort {
        class: u16,
        method: u16,
        at: u64,
    },
    /// The arguments of this method end `at`, and so many octets more stand before the frame's end.
    ArgumentsLong {
        class: u16,
        method: u16,
        at: u64,
        more: u64,
    },
    /// A table in the arguments of this method is none.
    Table(u16, u16),
}

/// An argument of a method, by what has to be known to find the next one.
#[derive(Clone, Copy)]
enum Argument {
    /// So many octets.
    Octets(usize),
    /// A short string, whose length is one octet.
    Short,
    /// A long string or a table, whose length is four octets.
    Long,
}

// The arguments of a method of the class connection.
fn connection_arguments(number: u16) -> Option<&'static [Argument]> {
    use Argument::{Long, Octets, Short};
    match number {
        10 => Some(&[Octets(2), Long, Long, Long]),
        11 => Some(&[Long, Short, Long, Short]),
        20 | 21 => Some(&[Long]),
        30 | 31 => Some(&[Octets(8)]),
        40 => Some(&[Short, Short, Octets(1)]),
        41 | 60 => Some(&[Short]),
        50 => Some(&[Octets(2), Short, Octets(4)]),
        51 | 61 | 71 => Some(&[]),
        70 => Some(&[Long, Short]),
        _ => None,
    }
}

// The arguments of a method of the class channel.
fn channel_arguments(number: u16) -> Option<&'static [Argument]> {
    use Argument::{Long, Octets, Short};
    match number {
        10 => Some(&[Short]),
        11 => Some(&[Long]),
        20 | 21 => Some(&[Octets(1)]),
        40 => Some(&[Octets(2), Short, Octets(4)]),
        41 => Some(&[]),
        _ => None,
    }
}

// What stands behind an argument, where it is all there.
fn behind(argument: Argument, octets: &[u8]) -> Option<&[u8]> {
    match (argument, octets) {
        (Argument::Octets(len), _) => octets.get(len..),
        (Argument::Short, [len, rest @ ..]) => rest.get(*len as usize..),
        (Argument::Long, [a, b, c, d, rest @ ..]) => {
            rest.get(u32::from_be_bytes([*a, *b, *c, *d]) as usize..)
        }
        _ => None,
    }
}

// What is wrong with the arguments of a method, which stand in its payload behind both numbers.
fn arguments(class: u16, method: u16, wanted: &[Argument], octets: &[u8]) -> Cause {
    let first = HEAD + LEAST_METHOD as usize;
    let mut rest = octets;
    for argument in wanted {
        let at = (first + octets.len().saturating_sub(rest.len())) as u64;
        match behind(*argument, rest) {
            Some(more) => rest = more,
            None => return Cause::ArgumentsShort { class, method, at },
        }
    }
    if rest.is_empty() {
        return Cause::Table(class, method);
    }
    let at = (first + octets.len().saturating_sub(rest.len())) as u64;
    let more = rest.len() as u64;
    Cause::ArgumentsLong {
        class,
        method,
        at,
        more,
    }
}

// What is wrong with the payload of a method.
fn of_method(size: u32, payload: &[u8]) -> Option<Cause> {
    let [a, b, c, d, rest @ ..] = payload else {
        return Some(Cause::ShortMethod(size));
    };
    let class = u16::from_be_bytes([*a, *b]);
    let method = u16::from_be_bytes([*c, *d]);
    let wanted = match class {
        10 => connection_arguments(method),
        20 => channel_arguments(method),
        _ => return None,
    };
    Some(match wanted {
        Some(wanted) => arguments(class, method, wanted, rest),
        None => Cause::UnknownMethod(class, method),
    })
}

// What is wrong with a frame that ends where its size says.
fn of_payload(frame_type: u8, channel: ChannelId, size: u32, payload: &[u8]) -> Option<Cause> {
    match frame_type {
        8 if channel != 0 => Some(Cause::HeartbeatChannel(channel)),
        2 if size < LEAST_HEADER => Some(Cause::ShortHeader(size)),
        1 => of_method(size, payload),
        _ => None,
    }
}

// What is wrong with a frame of a type and a size, by what stands behind its size.
fn of_size(frame_type: u8, channel: ChannelId, size: u32, rest: &[u8]) -> Option<Cause> {
    if size > u32::MAX - 8 {
        return Some(Cause::Size(size));
    }
    if frame_type == 8 && size != 0 {
        return Some(Cause::HeartbeatPayload(size));
    }
    let octet = *rest.get(size as usize)?;
    if octet != FRAME_END {
        let at = HEAD as u64 + size as u64;
        return Some(Cause::End { at, octet });
    }
    of_payload(frame_type, channel, size, rest.get(..size as usize)?)
}

// What is wrong with what begins as a protocol header does.
fn of_signature(octets: &[u8]) -> Option<Cause> {
    for ((octet, wanted), at) in octets.iter().zip(b"AMQP").zip(0u64..4) {
        if octet != wanted {
            return Some(Cause::Signature { at, octet: *octet });
        }
    }
    None
}

/// Why no frame stands at the front of these octets, whatever follows; none, where one stands there,
/// or may once more octets come.
pub fn cause_of(octets: &[u8]) -> Option<Cause> {
    match octets {
        [b'A', ..] => of_signature(octets),
        [frame_type @ (1 | 2 | 3 | 8), a, b, c, d, e, f, rest @ ..] => {
            let channel = u16::from_be_bytes([*a, *b]);
            let size = u32::from_be_bytes([*c, *d, *e, *f]);
            of_size(*frame_type, channel, size, rest)
        }
        [1 | 2 | 3 | 8, ..] | [] => None,
        [octet, ..] => Some(Cause::Type(*octet)),
    }
}

/// A cause with the place at which no frame stands, as an engineer reads it.
#[derive(Clone, Copy)]
pub struct CauseAt {
    pub cause: Cause,
    pub place: u64,
}

// The arguments of a method that are not as they have to be.
fn show_arguments<W: fmt::Write>(cause: CauseAt, f: &mut fmt::Formatter<W>) -> fmt::Result {
    let place = cause.place;
    match cause.cause {
        Cause::ArgumentsShort { class, method, at } => {
            let name = method_name(class, method);
            let byte = place.saturating_add(at);
            write!(
                f,
                "the arguments of {name} ({class}.{method}) end too early: that at byte {byte} goes on behind the frame"
            )
        }
        Cause::ArgumentsLong {
            class,
            method,
            at,
            more,
        } => {
            let name = method_name(class, method);
            let byte = place.saturating_add(at);
            write!(
                f,
                "the arguments of {name} ({class}.{method}) end before byte {byte}, and {more} octets more are there"
            )
        }
        Cause::Table(class, method) => {
            let name = method_name(class, method);
            write!(
                f,
                "a table in the arguments of {name} ({class}.{method}) is none"
            )
        }
        _ => Ok(()),
    }
}

impl fmt::Display for CauseAt {
    fn fmt<W: fmt::Write>(&self, f: &mut fmt::Formatter<W>) -> fmt::Result {
        let place = self.place;
        match self.cause {
            Cause::Type(octet) => {
                write!(
                    f,
                    "at byte {place} stands {octet:02x}, and a frame begins with 01, 02, 03, 08, or with AMQP"
                )
            }
            Cause::Signature { at, octet } => {
                let byte = place.saturating_add(at);
                write!(
                    f,
                    "at byte {byte} stands {octet:02x}, and a protocol header begins with AMQP"
                )
            }
            Cause::Size(size) => write!(f, "no frame has as many octets as {size}"),
            Cause::HeartbeatPayload(size) => {
                write!(
                    f,
                    "a heartbeat has no payload, and this one has {size} octets"
                )
            }
            Cause::End { at, octet } => {
                let byte = place.saturating_add(at);
                write!(
                    f,
                    "at byte {byte} stands {octet:02x}, and the frame ends there, with ce"
                )
            }
            Cause::HeartbeatChannel(channel) => {
                write!(f, "a heartbeat stands on channel 0, and not on {channel}")
            }
            Cause::ShortHeader(size) => {
                write!(
                    f,
                    "a content header has 14 octets at least, and this one has {size}"
                )
            }
            Cause::ShortMethod(size) => {
                write!(f, "a method has 4 octets at least, and this one has {size}")
            }
            Cause::UnknownMethod(class, method) => {
                write!(f, "AMQP 0-9-1 has no method {class}.{method}")
            }
            _ => show_arguments(*self, f),
        }
    }
}
