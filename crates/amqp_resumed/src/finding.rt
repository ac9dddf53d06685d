//! Why what a client said from some border of frames on is the rest of no legal conversation.

use crate::hearing::Hearing;
use crate::resumed::{Heard, Resumed};
use amqp_check::{
    Next, Standing, behind_header, channel_in, channel_of, read_next, show_content, stage_name,
    usage_name,
};
use amqp_frame::Frame;
use amqp_types::NoMemory;
use std::alloc::Global;
use std::fmt;

/// The first frame by which what a client said is the rest of no legal conversation.
#[derive(Drop)]
pub struct LateFinding {
    /// Its number, counted from 0.
    pub number: u64,
    /// The place of its first octet.
    pub place: u64,
    /// What stands there.
    pub frame: Frame,
    /// What was heard before it.
    pub heard: Resumed,
}

/// The first frame by which what a client said from a border on is the rest of no legal conversation; none
/// where its whole frames are such a rest.
pub fn first_wrong(alloc: Global, client: &[u8]) -> Result<Option<LateFinding>, NoMemory> {
    let mut hearing = Hearing::new(alloc)?;
    let mut place = 0;
    'heard: loop {
        match read_next(alloc, client, place)? {
            Next::Frame(frame, used) => {
                hearing.hear(&frame);
                if let Some(number) = hearing.wrong {
                    return Ok(Some(LateFinding {
                        number,
                        place: place as u64,
                        frame,
                        heard: hearing.said,
                    }));
                }
                drop(frame);
                place += used;
            }
            Next::End(_) => return Ok(None),
        }
    }
}

// What was heard of the frame's channel.
fn show_usage<W: fmt::Write>(finding: &LateFinding, f: &mut fmt::Formatter<W>) -> fmt::Result {
    let channel = match channel_of(&finding.frame) {
        0 => channel_in(finding.heard.content()),
        channel => channel,
    };
    match (channel, finding.heard.usage(channel)) {
        (0, _) => Ok(()),
        (_, Some(usage)) => {
            let usage = usage_name(usage);
            write!(f, "; channel {channel} {usage}")
        }
        (_, None) => write!(f, "; of channel {channel} nothing"),
    }
}

// What was heard before a frame, and what might have come in its place.
fn show_heard<W: fmt::Write>(finding: &LateFinding, f: &mut fmt::Formatter<W>) -> fmt::Result {
    match finding.heard.heard() {
        Heard::Nothing => f.write_str("nothing\nany frame comes next that a client may say"),
        Heard::Body(channel) => {
            write!(
                f,
                "frames of a body on channel {channel}\na further one comes next, not empty, or what may follow a body"
            )
        }
        Heard::Missing(channel, missing) => {
            write!(
                f,
                "of the body on channel {channel} {missing} octets are missing\nthey come next, in no empty frame"
            )
        }
        Heard::Frames => {
            f.write_str(stage_name(finding.heard.stage()))?;
            show_usage(finding, f)?;
            show_content(finding.heard.content(), f)?;
            let expected = behind_header(finding.heard.stage(), finding.heard.content());
            write!(f, "\n{expected}")
        }
    }
}

impl fmt::Display for LateFinding {
    fn fmt<W: fmt::Write>(&self, f: &mut fmt::Formatter<W>) -> fmt::Result {
        let standing = Standing {
            number: self.number,
            place: self.place,
            frame: &self.frame,
        };
        write!(f, "{standing}\nheard so far: ")?;
        show_heard(self, f)
    }
}
