//! A client that is heard frame by frame.

ghost use Rattle.std.specs.Prelude.{◌≡◌, ◌<◌, ◌+◌, ◌^◌, ℕ, [], ◌∷◌, ◌++◌, List, Some, None, IfOk};
ghost use Rattle.std.specs.Prelude.{IsTrue, IsFalse, is_some};
ghost use Rattle.amqp_frame.specs.declared.frame.Frame.{Frame};

use amqp_frame::Frame;
use amqp_legal::{Speech, is_amqp_header};
use amqp_types::NoMemory;
use std::alloc::Global;

/// What was heard of a client.
#[derive(Drop)]
pub struct Judge {
    /// What was said, up to the first frame that may not be. Of no frame and of the protocol header
    /// alone it is the same.
    pub said: Speech,
    /// How many frames were heard.
    pub frames: u64,
    /// The first frame that may not be said, counted from 0.
    pub illegal: Option<u64>,
}

impl Judge {
    ghost use Rattle.amqp_legal.specs.Legal.{Legal};
    ghost use Rattle.amqp_check.specs.Hearing.{HasHeard, IsLegallySaid};

    /// Nothing was heard.
    pub fn new(alloc: Global) -> Result<Judge, NoMemory>
        ensures heard { IfOk result (λ judge. HasHeard [] judge) }
        ensures count { IfOk result (λ judge. judge.frames ≡ 0) }
        ensures legal { IfOk result (λ judge. judge.illegal ≡ None) }
    {
        Ok(Judge {
            said: Speech::new(alloc)?,
            frames: 0,
            illegal: None,
        })
    }

    /// Hears the next frame.
    pub fn hear(&mut self, frame: &Frame)
        requires { self.old.frames + 1 < 2 ^ 64 }
        ensures heard { (frames : List Frame) → HasHeard frames self.old
            → HasHeard (frames ++ frame.now ∷ []) self.new }
        ensures count { self.new.frames ≡ self.old.frames + 1 }
        ensures before { IsTrue (is_some self.new.illegal) → self.new.said ≡ self.old.said }
    {
        if self.illegal.is_none() && !self.say(frame) {
            self.illegal = Some(self.frames);
        }
        self.frames += 1;
    }

    // Whether the next frame may be said, and it is said then.
    fn say(&mut self, frame: &Frame) -> bool
        requires { self.old.illegal ≡ None }
        ensures count { self.new.frames ≡ self.old.frames }
        ensures legal { self.new.illegal ≡ None }
        ensures said { IsTrue result → (frames : List Frame) → HasHeard frames self.old
            → IsLegallySaid (frames ++ frame.now ∷ []) self.new.said }
        ensures refused { IsFalse result → (frames : List Frame) → HasHeard frames self.old
            → Legal (frames ++ frame.now ∷ []) → ⊥ }
        ensures before { IsFalse result → self.new.said ≡ self.old.said }
    {
        if self.frames == 0 {
            is_amqp_header(frame)
        } else {
            self.said.say(frame)
        }
    }
}
