//! The client's side, whose frames are heard.

ghost use Rattle.std.specs.Prelude.{◌≡◌, ◌≢◌, ◌≤◌, ◌<◌, ◌+◌, ◌++◌, ◌∷◌, [], ℕ, List, OnOk, IfOk, Err, length};
ghost use Rattle.amqp_frame.specs.declared.frame.Frame.{Frame as AnyFrame};
ghost use Rattle.amqp_check.specs.Hearing.{HasHeard};

use crate::side::{Ending, Side, Unjudged};
use amqp_check::{Finding, Judge};
use amqp_frame::Frame;
use amqp_types::NoMemory;
use std::alloc::Global;

/// The client's side: its octets, what its frames say, and the first of these that it may not say.
#[derive(Drop)]
pub struct Client {
    side: Side,
    judge: Judge,
    // the first frame that may not be said, and its place
    refused: Option<Frame>,
    refused_at: u64,
    // each frame has one octet at least
    ghost few: { judge.frames ≤ side.place },
}

impl Client {
    ghost use Rattle.amqp_judge.specs.Taken.{HasHeardClient, IsTooMuch};

    /// No octet came.
    pub fn new(alloc: Global) -> Result<Client, NoMemory>
        ensures { IfOk result (λ client. HasHeardClient [] client) }
    {
        let judge = Judge::new(alloc)?;
        Ok(Client {
            side: Side::new(alloc),
            judge,
            refused: None,
            refused_at: 0,
        })
    }

    /// Its octets.
    pub fn side(&self) -> &Side
        ensures { result.now ≡ self.now.side }
    {
        &self.side
    }

    /// The number of the first frame that it may not say.
    pub fn illegal(&self) -> Option<u64>
        ensures { result ≡ self.now.judge.illegal }
    {
        self.judge.illegal
    }

    /// How many frames were heard.
    pub fn frames(&self) -> u64
        ensures { result ≡ self.now.judge.frames }
    {
        self.judge.frames
    }

    /// Takes a further piece of octets. Behind what is no frame nothing is read.
    pub fn take(&mut self, alloc: Global, piece: &[u8]) -> Result<(), Unjudged>
        ensures taken { (octets : List ℕ) → HasHeardClient octets self.old
            → OnOk result (HasHeardClient (octets ++ piece.now) self.new) }
        ensures too_long { result ≡ Err Unjudged.TooLong → IsTooMuch self.old.side (length piece.now) }
    {
        match self.side.ending() {
            Ending::Bad => Ok(()),
            Ending::Whole | Ending::Cut => self.read(alloc, piece),
        }
    }

    // Reads on, with a further piece.
    fn read(&mut self, alloc: Global, piece: &[u8]) -> Result<(), Unjudged>
        requires { self.old.side.ending ≢ Ending.Bad }
        ensures taken { (octets : List ℕ) → HasHeardClient octets self.old
            → OnOk result (HasHeardClient (octets ++ piece.now) self.new) }
        ensures too_long { result ≡ Err Unjudged.TooLong → IsTooMuch self.old.side (length piece.now) }
    {
        self.side.push(alloc, piece)?;
        'frames: loop {
            let place = self.side.place();
            match self.side.next(alloc)? {
                Some(frame) => self.hear(frame, place),
                None => return Ok(()),
            }
        }
    }

    // Hears a frame at this place. It takes the frame.
    fn hear(&mut self, frame: Frame, place: u64)
        requires { self.old.judge.frames < self.old.side.place }
        ensures side { self.new.side ≡ self.old.side }
        ensures heard { (frames : List AnyFrame) → HasHeard frames self.old.judge
            → HasHeard (frames ++ frame ∷ []) self.new.judge }
    {
        let was_legal = self.judge.illegal.is_none();
        self.judge.hear(&frame);
        if was_legal && self.judge.illegal.is_some() {
            self.refused_at = place;
            drop(self.refused.replace(frame));
        } else {
            drop(frame);
        }
    }

    /// The first frame that it may not say, with what was said before it.
    pub fn into_finding(self) -> Option<Finding> {
        let Client {
            side,
            judge,
            refused,
            refused_at,
        } = self;
        drop(side);
        match (refused, judge.illegal) {
            (Some(frame), Some(number)) => Some(Finding {
                number,
                place: refused_at,
                frame,
                said: judge.said,
            }),
            (other, _) => {
                drop(other);
                drop(judge);
                None
            }
        }
    }
}
