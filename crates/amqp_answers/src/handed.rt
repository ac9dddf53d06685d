//! The frames that are handed out.

ghost use Rattle.std.specs.Prelude.{◌≡◌, ◌++◌, ◌∷◌, [], IfOk, OnOk, OnErr, unwrap_or};
ghost use Rattle.amqp_maps.specs.Listed.{at, put, without};

use amqp_frame::RawKind;
use amqp_maps::{Copied, by_number};
use amqp_types::{ChannelId, NoMemory, Payload};
use std::alloc::Global;
use std::collections::BTreeMap;
use std::marker::Model;

/// A frame that was handed out.
#[derive(Debug, PartialEq, Eq, Drop)]
pub struct Handed {
    pub channel: ChannelId,
    pub kind: RawKind,
    /// The whole payload of the frame.
    pub bytes: Payload,
}

impl Handed {
    /// An equal frame.
    pub fn try_clone(&self, alloc: Global) -> Result<Handed, NoMemory>
        ensures { IfOk result (λ h. h ≡ self.now) }
    {
        Ok(Handed {
            channel: self.channel,
            kind: self.kind,
            bytes: self.bytes.try_clone(alloc)?,
        })
    }
}

/// Frames of one opening, in order.
#[derive(Drop)]
pub struct Frames {
    items: Vec<Handed>,
}

impl Model for Frames {
    ghost use Rattle.std.specs.Prelude.{List};
    ghost use Rattle.amqp_answers.specs.declared.handed.Handed.{Handed};

    ghost Value = { List Handed };

    ghost view = { λ f. f.items.items };
}

impl Frames {
    // One frame.
    fn of(alloc: Global, frame: Handed) -> Result<Frames, NoMemory>
        ensures { IfOk result (λ f. f ≡ frame ∷ []) }
    {
        let mut items = Vec::new(alloc);
        items.push(frame)?;
        Ok(Frames { items })
    }

    // Equal frames in the same order.
    fn try_clone(&self, alloc: Global) -> Result<Frames, NoMemory>
        ensures { IfOk result (λ f. f ≡ self.now) }
    {
        let mut items = Vec::with_capacity(alloc, self.items.len())?;
        for frame in &self.items {
            items.push(frame.try_clone(alloc)?)?;
        }
        Ok(Frames { items })
    }

    fn push(&mut self, frame: Handed) -> Result<(), NoMemory>
        ensures ok { OnOk result (self.new ≡ self.old ++ frame ∷ []) }
        ensures err { OnErr result (self.new ≡ self.old) }
    {
        self.items.push(frame)?;
        Ok(())
    }

    fn into_vec(self) -> Vec<Handed>
        ensures { result.items ≡ self }
    {
        self.items
    }
}

impl Copied for Frames {
    fn copied(&self, alloc: Global) -> Result<Frames, NoMemory> {
        self.try_clone(alloc)
    }
}

/// The frames handed out and not yet taken, by the promise that opened their channel.
#[derive(Drop)]
pub struct Backlog {
    alloc: Global,
    frames: BTreeMap<u64, Frames>,
}

impl Model for Backlog {
    ghost use Rattle.std.specs.Prelude.{ℕ, List};
    ghost use Rattle.amqp_answers.specs.declared.handed.Handed.{Handed};

    ghost Value = { List (ℕ × List Handed) };

    ghost view = { λ b. b.frames.entries };
}

impl Backlog {
    /// No frame waits to be taken.
    pub fn new(alloc: Global) -> Backlog
        ensures { result ≡ [] }
    {
        Backlog {
            alloc,
            frames: BTreeMap::new(alloc),
        }
    }

    /// Equal frames by the same promises.
    pub fn try_clone(&self, alloc: Global) -> Result<Backlog, NoMemory>
        ensures { IfOk result (λ b. b ≡ self.now) }
    {
        Ok(Backlog {
            alloc,
            frames: by_number(alloc, &self.frames)?,
        })
    }

    /// A frame goes last among those of an opening.
    pub fn hand_out(&mut self, opened: u64, frame: Handed) -> Result<(), NoMemory>
        ensures ok { OnOk result (self.new ≡ put opened (unwrap_or (at opened self.old) [] ++ frame ∷ []) self.old) }
        ensures err { OnErr result (self.new ≡ self.old) }
    {
        match self.frames.get_mut(&opened) {
            Some(frames) => frames.push(frame)?,
            None => {
                self.frames.insert(opened, Frames::of(self.alloc, frame)?)?;
            }
        }
        Ok(())
    }

    /// Takes the frames of an opening.
    pub fn take(&mut self, opened: u64) -> Vec<Handed>
        ensures frames { result.items ≡ unwrap_or (at opened self.old) [] }
        ensures rest { self.new ≡ without opened self.old }
    {
        match self.frames.remove(&opened) {
            Some(frames) => frames.into_vec(),
            None => Vec::new(self.alloc),
        }
    }
}
