//! What a client said from some border of frames on, judged frame by frame.

ghost use Rattle.std.specs.Prelude.{◌≡◌, ◌<◌, length, IfOk, Some};

use crate::first::{channel_used, content_begun, is_of_introduction, is_opening, lead};
use amqp_frame::{Frame, Method, RawKind};
use amqp_legal::{Content, Speech, Stage, Usage, is_amqp_header};
use amqp_types::{ChannelId, NoMemory};
use std::alloc::Global;

// How many channels there can be, with channel 0.
const CHANNELS: usize = 65_536;

/// What was heard so far, as far as it is not what a conversation from its beginning on has.
#[derive(Clone, Copy, Debug, PartialEq, Eq)]
pub enum Heard {
    /// No frame.
    Nothing,
    /// Frames of the body on a channel alone; how many octets are missing is not known.
    Body(ChannelId),
    /// The content header on a channel, and frames of its body, of which so many octets are missing.
    Missing(ChannelId, u64),
    /// Enough to tell which content may go on.
    Frames,
}

/// What a client said on a link since some border of frames, as far as it counts for what it may say
/// next. The usage of each channel is unknown until the first frame on it tells.
#[derive(Drop)]
pub struct Resumed {
    alloc: Global,
    heard: Heard,
    // a conversation that these frames may end; a channel that is not known is shut in it
    said: Speech,
    // whether a frame tells the usage of a channel
    known: Vec<bool>,
    // whether that of each is known, since what was heard begins within the introduction
    is_whole: bool,
    ghost all: { length known.items ≡ 65536 },
}

impl Resumed {
    ghost use Rattle.amqp_legal.specs.Decider.{say};
    ghost use Rattle.amqp_resumed.specs.Resumes.{JudgedLate, late_of, heard_nothing, opened_before, known_now, may_say_method, first_if};
    ghost use Rattle.amqp_resumed.specs.Resumes.{first_method, said_as, led, say_within};
    ghost use Rattle.amqp_resumed.specs.Resumes.{say_known, say_in_body, say_to, past_content, say_first, introduce, say_late};

    /// Nothing was heard.
    pub fn new(alloc: Global) -> Result<Resumed, NoMemory>
        ensures { IfOk result (λ r. late_of r ≡ heard_nothing) }
    {
        let known = Vec::from_elem(alloc, false, CHANNELS)?;
        let said = Speech::new(alloc)?;
        Ok(Resumed {
            alloc,
            heard: Heard::Nothing,
            said,
            known,
            is_whole: false,
        })
    }

    /// What was heard.
    pub fn heard(&self) -> Heard {
        self.heard
    }

    /// How far the conversation is.
    pub fn stage(&self) -> Stage {
        self.said.stage()
    }

    /// Which content may go on, where that is known.
    pub fn content(&self) -> Content {
        self.said.content()
    }

    /// How far it is on a channel, where that is known.
    pub fn usage(&self, channel: ChannelId) -> Option<Usage> {
        if self.is_known(channel) {
            Some(self.said.usage(channel))
        } else {
            None
        }
    }

    // Whether the usage of a channel is known.
    fn is_known(&self, channel: ChannelId) -> bool
        ensures { result ≡ (late_of self.now).known channel }
    {
        self.is_whole || self.known[channel as usize]
    }

    /// Says the next frame, where some conversation of which this was heard may say it. Where none may, nothing more is
    /// to be said.
    pub fn say(&mut self, frame: &Frame) -> bool
        ensures { JudgedLate (say_late frame.now (late_of self.old)) result self.new }
    {
        match self.heard {
            Heard::Nothing => self.begin(frame),
            Heard::Body(channel) => self.go_on_in_body(channel, frame),
            Heard::Missing(channel, missing) => self.go_on_to(channel, missing, frame),
            Heard::Frames => self.say_known(frame),
        }
    }

    // Says the first frame that is heard.
    fn begin(&mut self, frame: &Frame) -> bool
        ensures { JudgedLate (say_first frame.now (late_of self.old)) result self.new }
    {
        if is_of_introduction(frame) {
            return self.introduce(frame);
        }
        self.lead(frame);
        self.begin_within(content_begun(frame), frame)
    }

    // Leads to where a frame may be said that is the first to be heard.
    fn lead(&mut self, frame: &Frame)
        ensures { late_of self.new ≡ led frame.now (late_of self.old) }
    {
        lead(self.alloc, &mut self.said, frame);
    }

    // Says the first frame behind the introduction, by which of a content it is a part.
    fn begin_within(&mut self, begun: Option<(ChannelId, Heard)>, frame: &Frame) -> bool
        ensures { JudgedLate (say_within begun frame.now (late_of self.old)) result self.new }
    {
        match begun {
            Some((channel, heard)) => {
                self.open(channel);
                self.heard = heard;
                true
            }
            None => self.leave(frame),
        }
    }

    // Says a frame of the introduction, which tells that no channel is open.
    fn introduce(&mut self, frame: &Frame) -> bool
        ensures { JudgedLate (introduce frame.now (late_of self.old)) result self.new }
    {
        let is_said = match frame {
            Frame::ProtocolHeader(_) => is_amqp_header(frame),
            _ => {
                self.lead(frame);
                self.said.say(frame)
            }
        };
        if is_said {
            self.is_whole = true;
            self.heard = Heard::Frames;
        }
        is_said
    }

    // A frame behind frames of a body alone: one more of them, or what is said behind the last.
    fn go_on_in_body(&mut self, channel: ChannelId, frame: &Frame) -> bool
        ensures { JudgedLate (say_in_body channel frame.now (late_of self.old)) result self.new }
    {
        match frame {
            Frame::Raw(other, RawKind::Body, payload) => *other == channel && !payload.is_empty(),
            _ => self.leave(frame),
        }
    }

    // A frame where so many octets of a body are missing.
    fn go_on_to(&mut self, channel: ChannelId, missing: u64, frame: &Frame) -> bool
        ensures { JudgedLate (say_to channel missing frame.now (late_of self.old)) result self.new }
    {
        match frame {
            Frame::Raw(other, RawKind::Body, payload) => {
                let len = payload.len() as u64;
                if *other != channel || len == 0 || len > missing {
                    return false;
                }
                self.heard = Heard::Missing(channel, missing - len);
                true
            }
            Frame::Method(0, Method::CloseOk) => self.leave(frame),
            _ => missing == 0 && self.leave(frame),
        }
    }

    // A frame that is no part of a content that was begun before.
    fn leave(&mut self, frame: &Frame) -> bool
        ensures { JudgedLate (past_content (say_known frame.now (late_of self.old))) result self.new }
    {
        let is_said = self.say_known(frame);
        if is_said {
            self.heard = Heard::Frames;
        }
        is_said
    }

    // Says a frame where it is known which content may go on.
    fn say_known(&mut self, frame: &Frame) -> bool
        ensures { JudgedLate (say_known frame.now (late_of self.old)) result self.new }
    {
        match channel_used(frame) {
            Some(channel) if !self.is_known(channel) => self.say_first_on(channel, frame),
            _ => self.say_as(frame),
        }
    }

    // Whether a method may be said now, by some usage of its channel.
    fn may_say_method(&self) -> bool
        ensures { result ≡ may_say_method (late_of self.now).said.stage (late_of self.now).said.content }
    {
        self.said.stage() == Stage::OpenSaid
            && match self.said.content() {
                Content::BodyMissing(_, missing) => missing == 0,
                Content::NoContent | Content::MethodSaid(..) => true,
            }
    }

    // Says the first method on a channel, which tells the channel's usage.
    fn say_first_on(&mut self, channel: ChannelId, frame: &Frame) -> bool
        ensures { JudgedLate (first_if channel frame.now (late_of self.old)) result self.new }
    {
        self.may_say_method() && self.say_opening_or_use(channel, frame)
    }

    // Says a method on a channel of which nothing is known: it opens the channel, which was not open, or uses it.
    fn say_opening_or_use(&mut self, channel: ChannelId, frame: &Frame) -> bool
        ensures { JudgedLate (first_method channel frame.now (late_of self.old)) result self.new }
    {
        if is_opening(frame) {
            self.note_known(channel);
            return self.say_as(frame);
        }
        self.open(channel);
        self.say_as(frame)
    }

    // Says a frame where the conversation that is kept may.
    fn say_as(&mut self, frame: &Frame) -> bool
        ensures { JudgedLate (said_as (late_of self.old) (say frame.now (late_of self.old).said)) result self.new }
    {
        self.said.say(frame)
    }

    // The usage of a channel is known from now on.
    fn note_known(&mut self, channel: ChannelId)
        ensures { late_of self.new ≡ known_now channel (late_of self.old) }
    {
        self.known[channel as usize] = true;
    }

    // Opens a channel that was opened before what was heard.
    fn open(&mut self, channel: ChannelId)
        ensures { late_of self.new ≡ opened_before channel (late_of self.old) }
    {
        let opening = Frame::Method(channel, Method::ChannelOpen);
        let _ = self.said.say(&opening);
        drop(opening);
        self.known[channel as usize] = true;
    }
}
