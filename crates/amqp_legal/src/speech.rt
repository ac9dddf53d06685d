//! What a client said on a link, judged frame by frame.

ghost use Rattle.std.specs.Prelude.{◌≡◌, ◌≤◌, ◌<◌, ◌↔◌, ◌++◌, ◌∷◌, [], ℕ, List, length};
ghost use Rattle.std.specs.Prelude.{Some, None, IfOk, IsTrue, IsFalse};

use crate::kind::{Kind, introduced, is_close_ok, kind_of};
use crate::progress::{Content, Stage, Usage};
use amqp_frame::Frame;
use amqp_types::{ChannelId, NoMemory};
use std::alloc::Global;

// How many channels there can be, with channel 0.
const CHANNELS: usize = 65_536;

/// What a client said on a link since the protocol header, as far as it counts for what it may say
/// next. It keeps the usage of each channel from the beginning, so that no frame takes memory, and
/// none takes longer where more channels are open.
#[derive(Drop)]
pub struct Speech {
    stage: Stage,
    usages: Vec<Usage>,
    content: Content,
    // each channel has its usage
    ghost all: { length usages.items ≡ 65536 },
}

impl Speech {
    ghost use Rattle.amqp_frame.specs.declared.frame.Frame.{Frame};
    ghost use Rattle.amqp_legal.specs.Legal.{Legal, amqp_header};
    ghost use Rattle.amqp_legal.specs.Decider.{greeted, say as say_next, now_on};
    ghost use Rattle.amqp_legal.specs.Speeches.{speech_of, HasSaid};
    ghost use Rattle.amqp_legal.specs.Kinds.{introduced as introduced_by};
    ghost use Rattle.amqp_legal.specs.Judging.{Follows, open_on, use_on, close_on, close_ok_on};
    ghost use Rattle.amqp_legal.specs.Judging.{block_by_kind, behind_method, in_body, once_open};
    ghost use Rattle.amqp_legal.specs.Judging.{to_stage, our_close_ok, say_by_kind};

    /// The protocol header was said, and nothing after it.
    pub fn new(alloc: Global) -> Result<Speech, NoMemory>
        ensures { IfOk result (λ s. speech_of s ≡ greeted) }
    {
        Ok(Speech {
            stage: Stage::HeaderSaid,
            usages: Vec::from_elem(alloc, Usage::Shut, CHANNELS)?,
            content: Content::NoContent,
        })
    }

    /// How far the conversation is.
    pub fn stage(&self) -> Stage
        ensures { result ≡ (speech_of self.now).stage }
    {
        self.stage
    }

    /// How far it is on a channel.
    pub fn usage(&self, channel: ChannelId) -> Usage
        ensures { result ≡ (speech_of self.now).usage channel }
    {
        self.usages[channel as usize]
    }

    /// Which content may go on.
    pub fn content(&self) -> Content
        ensures { result ≡ (speech_of self.now).content }
    {
        self.content
    }

    /// Says the next frame, where the client may say it; else nothing changes. Once the protocol
    /// header and further frames were said, it may say one more exactly where the header, they and
    /// the one are a legal conversation.
    pub fn say(&mut self, frame: &Frame) -> bool
        ensures said { IsTrue result → say_next frame.now (speech_of self.old) ≡ Some (speech_of self.new) }
        ensures refused { IsFalse result → say_next frame.now (speech_of self.old) ≡ None }
        ensures same { IsFalse result → self.new ≡ self.old }
        ensures legal { (frames : List Frame) → HasSaid frames self.old
            → IsTrue result ↔ Legal (amqp_header ∷ frames ++ frame.now ∷ []) }
    {
        self.say_kind(kind_of(frame))
    }

    // Says a frame of this kind.
    fn say_kind(&mut self, kind: Kind) -> bool
        ensures { Follows (say_by_kind kind) result self.old self.new }
    {
        if is_close_ok(kind) {
            return self.say_close_ok();
        }
        match self.stage() {
            Stage::OpenSaid => self.say_once_open(kind),
            stage => self.introduce(stage, kind),
        }
    }

    // Says our close-ok of the connection.
    fn say_close_ok(&mut self) -> bool
        ensures { Follows our_close_ok result self.old self.new }
    {
        match self.stage() {
            Stage::CloseOkSaid => false,
            _ => {
                self.reach(Stage::CloseOkSaid);
                true
            }
        }
    }

    // Says what leads on in the introduction.
    fn introduce(&mut self, stage: Stage, kind: Kind) -> bool
        ensures { Follows (to_stage (introduced_by stage kind)) result self.old self.new }
    {
        match introduced(stage, kind) {
            Some(next) => {
                self.reach(next);
                true
            }
            None => false,
        }
    }

    // Says what may be said once the connection is opened.
    fn say_once_open(&mut self, kind: Kind) -> bool
        ensures { Follows (once_open kind) result self.old self.new }
    {
        match self.content() {
            Content::NoContent => self.say_block(kind),
            Content::MethodSaid(channel, class) => self.say_behind_method(channel, class, kind),
            Content::BodyMissing(_, 0) => self.say_block(kind),
            Content::BodyMissing(channel, missing) => self.say_in_body(channel, missing, kind),
        }
    }

    // Behind a method of a class stands its content header, or what goes on with no content.
    fn say_behind_method(&mut self, channel: ChannelId, class: u16, kind: Kind) -> bool
        ensures { Follows (behind_method channel class kind) result self.old self.new }
    {
        match kind {
            Kind::Header(number, other, size) => {
                if number != channel || other != class {
                    return false;
                }
                self.set_content(Content::BodyMissing(channel, size));
                true
            }
            other => self.say_block(other),
        }
    }

    // While octets of a body are missing, nothing but a frame of it is said.
    fn say_in_body(&mut self, channel: ChannelId, missing: u64, kind: Kind) -> bool
        ensures { Follows (in_body channel missing kind) result self.old self.new }
    {
        match kind {
            Kind::Body(number, size) => {
                if number != channel || size == 0 || size > missing {
                    return false;
                }
                self.set_content(Content::BodyMissing(channel, missing - size));
                true
            }
            _ => false,
        }
    }

    // Says what goes on with no content.
    fn say_block(&mut self, kind: Kind) -> bool
        ensures { Follows (block_by_kind kind) result self.old self.new }
    {
        match kind {
            Kind::Quiet => {
                self.set_content(Content::NoContent);
                true
            }
            Kind::Close => {
                self.set_content(Content::NoContent);
                self.reach(Stage::CloseSaid);
                true
            }
            Kind::ChannelOpen(channel) => self.open_channel(channel),
            Kind::ChannelFlow(channel) => self.use_channel(channel, Content::NoContent),
            Kind::ChannelClose(channel) => self.leave_channel(channel),
            Kind::ChannelCloseOk(channel) => self.shut_channel(channel),
            Kind::Passed(channel, class) => {
                self.use_channel(channel, Content::MethodSaid(channel, class))
            }
            _ => false,
        }
    }

    fn open_channel(&mut self, channel: ChannelId) -> bool
        ensures { Follows (open_on channel) result self.old self.new }
    {
        match self.usage(channel) {
            Usage::InUse => false,
            _ => {
                self.set_usage(channel, Usage::InUse);
                true
            }
        }
    }

    fn use_channel(&mut self, channel: ChannelId, next: Content) -> bool
        ensures { Follows (use_on channel next) result self.old self.new }
    {
        match self.usage(channel) {
            Usage::InUse => {
                self.set_content(next);
                true
            }
            _ => false,
        }
    }

    // Our close of a channel: the server's close-ok is not waited for, and its close may cross ours.
    fn leave_channel(&mut self, channel: ChannelId) -> bool
        ensures { Follows (close_on channel) result self.old self.new }
    {
        match self.usage(channel) {
            Usage::InUse => {
                self.set_usage(channel, Usage::Left);
                true
            }
            _ => false,
        }
    }

    // Our close-ok of a channel, which the server closed.
    fn shut_channel(&mut self, channel: ChannelId) -> bool
        ensures { Follows (close_ok_on channel) result self.old self.new }
    {
        match self.usage(channel) {
            Usage::Shut => false,
            _ => {
                self.set_usage(channel, Usage::Shut);
                true
            }
        }
    }

    fn reach(&mut self, stage: Stage)
        ensures { self.new ≡ record self.old { stage = stage } }
    {
        self.stage = stage;
    }

    fn set_content(&mut self, content: Content)
        ensures { self.new ≡ record self.old { content = content } }
    {
        self.content = content;
    }

    // The usage of a channel changes, and no content goes on.
    fn set_usage(&mut self, channel: ChannelId, usage: Usage)
        ensures { speech_of self.new ≡ now_on channel usage (speech_of self.old) }
    {
        self.usages[channel as usize] = usage;
        self.content = Content::NoContent;
    }
}
