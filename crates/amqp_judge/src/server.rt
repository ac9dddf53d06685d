//! The server's side, whose frames are counted.

ghost use Rattle.std.specs.Prelude.{◌≡◌, ◌≢◌, ◌≤◌, ◌<◌, ◌+◌, ◌++◌, [], ℕ, List, OnOk, Err, length};

use crate::side::{Ending, Side, Unjudged};
use amqp_check::{Closing, closing_in};
use amqp_frame::Frame;
use std::alloc::Global;

/// The server's side: its octets, how many frames they are, and how it closed last.
#[derive(Drop)]
pub struct Server {
    side: Side,
    frames: u64,
    closed: Option<Closing>,
    // each frame has one octet at least
    ghost few: { frames ≤ side.place },
}

impl Server {
    ghost use Rattle.amqp_judge.specs.Taken.{HasCountedServer, IsTooMuch};

    /// No octet came.
    pub fn new(alloc: Global) -> Server
        ensures { HasCountedServer [] result }
    {
        Server {
            side: Side::new(alloc),
            frames: 0,
            closed: None,
        }
    }

    /// Its octets.
    pub fn side(&self) -> &Side
        ensures { result.now ≡ self.now.side }
    {
        &self.side
    }

    /// How many frames there were.
    pub fn frames(&self) -> u64
        ensures { result ≡ self.now.frames }
    {
        self.frames
    }

    /// How it closed last, where it did.
    pub fn closed(&self) -> Option<&Closing> {
        self.closed.as_ref()
    }

    /// Takes a further piece of octets. Behind what is no frame nothing is read.
    pub fn take(&mut self, alloc: Global, piece: &[u8]) -> Result<(), Unjudged>
        ensures taken { (octets : List ℕ) → HasCountedServer octets self.old
            → OnOk result (HasCountedServer (octets ++ piece.now) self.new) }
        ensures too_long { result ≡ Err Unjudged.TooLong → IsTooMuch self.old.side (length piece.now) }
    {
        match self.side.ending() {
            Ending::Bad => Ok(()),
            Ending::Whole | Ending::Cut => self.read(alloc, piece),
        }
    }

    // Reads on, with a further piece.
    fn read(&mut self, alloc: Global, piece: &[u8]) -> Result<(), Unjudged>
        requires { self.old.side.ending ≢ Ending.Bad }
        ensures taken { (octets : List ℕ) → HasCountedServer octets self.old
            → OnOk result (HasCountedServer (octets ++ piece.now) self.new) }
        ensures too_long { result ≡ Err Unjudged.TooLong → IsTooMuch self.old.side (length piece.now) }
    {
        self.side.push(alloc, piece)?;
        'frames: loop {
            let place = self.side.place();
            match self.side.next(alloc)? {
                Some(frame) => self.count(frame, place),
                None => return Ok(()),
            }
        }
    }

    // Counts a frame at this place. It takes the frame.
    fn count(&mut self, frame: Frame, place: u64)
        requires { self.old.frames < self.old.side.place }
        ensures count { self.new.frames ≡ self.old.frames + 1 }
        ensures side { self.new.side ≡ self.old.side }
    {
        if let Some(closing) = closing_in(frame, self.frames, place) {
            drop(self.closed.replace(closing));
        }
        self.frames += 1;
    }
}
