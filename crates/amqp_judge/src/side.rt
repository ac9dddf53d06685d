//! One side of a link, whose octets come in pieces.

ghost use Rattle.std.specs.Prelude.{◌≡◌, ◌≢◌, ◌≤◌, ◌<◌, ◌+◌, ◌-◌, ◌^◌, ◌∷◌, ◌++◌, [], ℕ, List, length};
ghost use Rattle.std.specs.Prelude.{IfOk, OnOk, IfSome, IfNone, Err, drop};
ghost use Rattle.amqp_frame.specs.declared.frame.Frame.{Frame as AnyFrame};

use amqp_check::{End, Next, read_next};
use amqp_frame::Frame;
use amqp_types::NoMemory;
use std::alloc::{AllocError, Global};

/// The most octets of a frame that are kept until it is all there.
pub const MOST_UNREAD: usize = 33_554_432;

/// Why a capture is not judged.
#[derive(Clone, Copy, Debug, PartialEq, Eq)]
pub enum Unjudged {
    /// More octets would be kept of a side than are, of a frame or of one piece, or counted than can be.
    TooLong,
    NoMemory,
}

impl From<NoMemory> for Unjudged {
    ghost use Rattle.std.specs.Prelude.{◌≡◌};
    ghost use Rattle.amqp_judge.specs.declared.side.Unjudged.TheVariants as why;

    ghost from_gives = { λ _ e. e ≡ why.NoMemory };

    fn from(_refused: NoMemory) -> Unjudged {
        Unjudged::NoMemory
    }
}

impl From<AllocError> for Unjudged {
    ghost use Rattle.std.specs.Prelude.{◌≡◌};
    ghost use Rattle.amqp_judge.specs.declared.side.Unjudged.TheVariants as why;

    ghost from_gives = { λ _ e. e ≡ why.NoMemory };

    fn from(_refused: AllocError) -> Unjudged {
        Unjudged::NoMemory
    }
}

/// How the octets of a side end so far.
#[derive(Clone, Copy, Debug, PartialEq, Eq)]
pub enum Ending {
    /// With a whole frame, or there is none.
    Whole,
    /// Within a frame.
    Cut,
    /// In what is no frame, whatever follows.
    Bad,
}

impl Ending {
    ghost use Rattle.std.specs.Prelude.{◌≡◌};
    ghost use Rattle.amqp_judge.specs.Taken.{ending_for};

    // How the octets end, by what stands where the next frame would begin.
    fn of(end: End) -> Ending
        ensures { result ≡ ending_for end }
    {
        match end {
            End::Whole => Ending::Whole,
            End::Cut(_) => Ending::Cut,
            End::Bad(_) => Ending::Bad,
        }
    }
}

/// One side of a link: where its frames are read, and the octets that are not read yet.
#[derive(Drop)]
pub struct Side {
    unread: Vec<u8>,
    // how many octets of these were read
    at: usize,
    // how many octets of the side were read
    place: u64,
    ending: Ending,
    ghost within: { at ≤ length unread.items },
    ghost counted: { place + (length unread.items - at) < 2 ^ 64 },
}

impl Side {
    ghost use Rattle.amqp_judge.specs.Taken.{IsReadUpTo, IsTaken, IsTooMuch};

    /// No octet came.
    pub fn new(alloc: Global) -> Side
        ensures taken { IsTaken [] [] result }
        ensures place { result.place ≡ 0 }
    {
        Side {
            unread: Vec::new(alloc),
            at: 0,
            place: 0,
            ending: Ending::Whole,
        }
    }

    /// How many octets were read: where the next frame begins, or what is none stands.
    pub fn place(&self) -> u64
        ensures { result ≡ self.now.place }
    {
        self.place
    }

    /// How the octets end so far.
    pub fn ending(&self) -> Ending
        ensures { result ≡ self.now.ending }
    {
        self.ending
    }

    /// The octets from that place on, of which more may have come where no frame stands there.
    pub fn rest(&self) -> &[u8] {
        &self.unread[self.at..]
    }

    // Lets go of the octets that were read.
    fn let_go(&mut self, alloc: Global) -> Result<(), AllocError>
        ensures rest { OnOk result (self.new.unread.items ≡ drop self.old.at self.old.unread.items) }
        ensures at { OnOk result (self.new.at ≡ 0) }
        ensures place { self.new.place ≡ self.old.place }
    {
        if self.at == 0 {
            return Ok(());
        }
        let rest = Vec::from_slice(alloc, &self.unread[self.at..])?;
        self.unread = rest;
        self.at = 0;
        Ok(())
    }

    /// Keeps a further piece. The octets that were read are let go before.
    pub fn push(&mut self, alloc: Global, piece: &[u8]) -> Result<(), Unjudged>
        ensures read { (octets : List ℕ) (frames : List AnyFrame) → IsReadUpTo octets frames self.old
            → OnOk result (IsReadUpTo (octets ++ piece.now) frames self.new) }
        ensures place { self.new.place ≡ self.old.place }
        ensures too_long { result ≡ Err Unjudged.TooLong → IsTooMuch self.old (length piece.now) }
    {
        self.let_go(alloc)?;
        let len = self.unread.len() as u64 + piece.len() as u64;
        if len > MOST_UNREAD as u64 || self.place.checked_add(len).is_none() {
            return Err(Unjudged::TooLong);
        }
        self.unread.extend_from_slice(piece)?;
        Ok(())
    }

    /// Reads the next frame; none, where no whole one stands, which then is how the octets end so far.
    #[tactic(auto, using(crate::proofs::Pieces::read_end))]
    pub fn next(&mut self, alloc: Global) -> Result<Option<Frame>, NoMemory>
        ensures frame { IfOk result (λ next. IfSome next (λ f. (octets : List ℕ) (frames : List AnyFrame)
            → IsReadUpTo octets frames self.old → IsReadUpTo octets (frames ++ f ∷ []) self.new)) }
        ensures end { IfOk result (λ next. IfNone next ((octets : List ℕ) (frames : List AnyFrame)
            → IsReadUpTo octets frames self.old → IsTaken octets frames self.new)) }
        ensures further { IfOk result (λ next. IfSome next (λ f. self.old.place < self.new.place)) }
        ensures fewer { IfOk result (λ next. IfSome next (λ f.
            length self.new.unread.items - self.new.at < length self.old.unread.items - self.old.at)) }
        ensures on { self.old.place ≤ self.new.place }
    {
        match read_next(alloc, &self.unread, self.at)? {
            Next::Frame(frame, used) => {
                self.at += used;
                self.place += used as u64;
                Ok(Some(frame))
            }
            Next::End(end) => {
                self.ending = Ending::of(end);
                Ok(None)
            }
        }
    }
}
