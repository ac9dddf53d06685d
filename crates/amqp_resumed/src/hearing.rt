//! A client that is heard frame by frame, from some border on.

ghost use Rattle.std.specs.Prelude.{◌≡◌, ◌<◌, ◌+◌, ◌^◌, ◌++◌, ◌∷◌, [], List, length, None, IfOk};
ghost use Rattle.amqp_frame.specs.declared.frame.Frame.{Frame as AnyFrame};
ghost use Rattle.amqp_check.specs.Hearing.{IsSide};
ghost use Rattle.amqp_resumed.specs.HeardRests.{HasHeardRest, IsHeardRest};

use crate::resumed::Resumed;
use amqp_check::{End, Next, read_next};
use amqp_frame::Frame;
use amqp_types::NoMemory;
use std::alloc::Global;

/// What was heard of a client, up to the first frame by which it is the rest of no legal conversation.
#[derive(Drop)]
pub struct Hearing {
    pub said: Resumed,
    /// How many frames were heard.
    pub frames: u64,
    /// That first frame, counted from 0.
    pub wrong: Option<u64>,
}

impl Hearing {
    /// Nothing was heard.
    pub fn new(alloc: Global) -> Result<Hearing, NoMemory>
        ensures heard { IfOk result (λ hearing. HasHeardRest [] hearing) }
        ensures count { IfOk result (λ hearing. hearing.frames ≡ 0) }
        ensures legal { IfOk result (λ hearing. hearing.wrong ≡ None) }
    {
        Ok(Hearing {
            said: Resumed::new(alloc)?,
            frames: 0,
            wrong: None,
        })
    }

    /// Hears the next frame.
    pub fn hear(&mut self, frame: &Frame)
        requires { self.old.frames + 1 < 2 ^ 64 }
        ensures count { self.new.frames ≡ self.old.frames + 1 }
        ensures heard { (frames : List AnyFrame) → HasHeardRest frames self.old
            → HasHeardRest (frames ++ frame.now ∷ []) self.new }
    {
        if self.wrong.is_none() {
            self.judge(frame);
        }
        self.frames += 1;
    }

    // Says the next frame, or notes that it may not be said.
    fn judge(&mut self, frame: &Frame)
        requires { self.old.wrong ≡ None }
        ensures count { self.new.frames ≡ self.old.frames }
        ensures judged { (frames : List AnyFrame) → HasHeardRest frames self.old
            → IsHeardRest (frames ++ frame.now ∷ []) self.new.wrong self.new.said }
    {
        if self.said.say(frame) {
            return;
        }
        self.wrong = Some(self.frames);
    }
}

/// Hears the frames of one side, up to its end.
pub fn hear_all(alloc: Global, bytes: &[u8], hearing: &mut Hearing) -> Result<End, NoMemory>
    requires nothing { HasHeardRest [] hearing.old }
    requires count { hearing.old.frames ≡ 0 }
    ensures { IfOk result (λ end. (frames : List AnyFrame) × IsSide bytes.now frames end
        × HasHeardRest frames hearing.new) }
{
    let mut place = 0;
    'frames: loop {
        match read_next(alloc, bytes, place)? {
            Next::Frame(frame, used) => {
                hearing.hear(&frame);
                drop(frame);
                place += used;
            }
            Next::End(end) => return Ok(end),
        }
    }
}

/// How many frames one side has, and how it ends.
pub fn count_all(alloc: Global, bytes: &[u8]) -> Result<(u64, End), NoMemory>
    ensures { IfOk result (λ counted. (frames : List AnyFrame) × IsSide bytes.now frames counted.1
        × (counted.0 ≡ length frames)) }
{
    let mut place = 0;
    let mut count = 0;
    'counted: loop {
        match read_next(alloc, bytes, place)? {
            Next::Frame(frame, used) => {
                drop(frame);
                place += used;
                count += 1;
            }
            Next::End(end) => return Ok((count, end)),
        }
    }
}
