//! How the server closed last, which is what tells why a link ended.

use crate::frames::{Next, read_next};
use crate::names::method_name;
use amqp_frame::{Frame, Method};
use amqp_types::{ChannelId, NoMemory, ShortString};
use std::alloc::Global;
use std::fmt;

/// A close of the connection or of a channel.
#[derive(Drop)]
pub struct Closing {
    /// Its frame's number on its side, counted from 0.
    pub number: u64,
    /// The place of its first octet.
    pub place: u64,
    /// Which channel is closed; 0 is the connection.
    pub channel: ChannelId,
    pub code: u16,
    pub text: ShortString,
    /// The class and the method that it is about; 0 are none.
    pub class: u16,
    pub method: u16,
}

/// The code of a close that is no error.
const REPLY_SUCCESS: u16 = 200;

impl Closing {
    /// Whether it tells an error.
    pub fn is_error(&self) -> bool {
        self.code != REPLY_SUCCESS
    }
}

/// Why something was closed: a code, a text, and the class and the method that it is about.
#[derive(Drop)]
struct Reasons {
    code: u16,
    text: ShortString,
    class: u16,
    method: u16,
}

// What a method says of a close. It takes the method.
fn reasons_in(method: Method) -> Option<Reasons> {
    match method {
        Method::Close(code, text, class, method) => Some(Reasons {
            code,
            text,
            class,
            method,
        }),
        Method::ChannelClose(code, text, class, method) => Some(Reasons {
            code,
            text,
            class,
            method,
        }),
        other => {
            drop(other);
            None
        }
    }
}

/// The close that a frame is, of this number and at this place. It takes the frame.
pub fn closing_in(frame: Frame, number: u64, place: u64) -> Option<Closing> {
    match frame {
        Frame::Method(channel, method) => {
            let Reasons {
                code,
                text,
                class,
                method,
            } = reasons_in(method)?;
            Some(Closing {
                number,
                place,
                channel,
                code,
                text,
                class,
                method,
            })
        }
        other => {
            drop(other);
            None
        }
    }
}

/// The last close among the whole frames of a side.
pub fn last_close(alloc: Global, octets: &[u8]) -> Result<Option<Closing>, NoMemory> {
    let mut place = 0;
    let mut number = 0;
    let mut last = None;
    'closes: loop {
        match read_next(alloc, octets, place) {
            Ok(Next::Frame(frame, used)) => {
                if let Some(closing) = closing_in(frame, number, place as u64) {
                    drop(last.replace(closing));
                }
                place += used;
                number += 1;
            }
            Ok(Next::End(_)) => return Ok(last),
            Err(NoMemory) => {
                drop(last);
                return Err(NoMemory);
            }
        }
    }
}

// Writes the octets of a text; those that are no printable ASCII by their numbers.
fn show_text<W: fmt::Write>(text: &[u8], f: &mut fmt::Formatter<W>) -> fmt::Result {
    for octet in text {
        match *octet {
            b'\\' => f.write_str("\\\\")?,
            0x20..=0x7e => f.write_char(*octet as char)?,
            other => write!(f, "\\{other:02x}")?,
        }
    }
    Ok(())
}

impl fmt::Display for Closing {
    fn fmt<W: fmt::Write>(&self, f: &mut fmt::Formatter<W>) -> fmt::Result {
        let (number, code, channel) = (self.number, self.code, self.channel);
        match channel {
            0 => write!(
                f,
                "the server closed the connection in its frame {number}: {code} "
            )?,
            _ => write!(
                f,
                "the server closed channel {channel} in its frame {number}: {code} "
            )?,
        }
        show_text(self.text.as_bytes(), f)?;
        match (self.class, self.method) {
            (0, _) => Ok(()),
            (class, method) => {
                let name = method_name(class, method);
                write!(f, " ({name} {class}.{method})")
            }
        }
    }
}
