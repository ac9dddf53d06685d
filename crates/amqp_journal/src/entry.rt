//! The entries of a journal.

ghost use Rattle.std.specs.Prelude.{◌≡◌, IfOk};

use amqp_engine::{Record, Step};
use amqp_session::Cmd;
use amqp_types::{NoMemory, Payload};
use std::alloc::Global;

/// A step that was taken, with the bytes of its piece, and what was noted of its turn.
#[derive(Debug, Drop)]
pub struct Turn {
    pub at: u64,
    pub step: Step,
    pub bytes: Payload,
    pub notes: Record,
}

/// What happened to an engine.
#[derive(Debug, Drop)]
pub enum Entry {
    /// A turn.
    Turn(Turn),
    /// A command of a caller: the number of its pass, the command's place among those of the pass, from 1
    /// on, and the number of the promise that it made, where it made one.
    Called(u32, u64, Cmd, Option<u64>),
    /// A command of the engine's owner itself.
    Own(Cmd),
}

impl Turn {
    /// An equal turn.
    pub fn try_clone(&self, alloc: Global) -> Result<Turn, NoMemory>
        ensures { IfOk result (λ t. t ≡ self.now) }
    {
        let bytes = self.bytes.try_clone(alloc)?;
        let notes = self.notes.try_clone(alloc)?;
        let step = self.step.try_clone(alloc)?;
        Ok(Turn {
            at: self.at,
            step,
            bytes,
            notes,
        })
    }
}

impl Entry {
    /// An equal entry.
    pub fn try_clone(&self, alloc: Global) -> Result<Entry, NoMemory>
        ensures { IfOk result (λ e. e ≡ self.now) }
    {
        match self {
            Entry::Turn(turn) => Ok(Entry::Turn(turn.try_clone(alloc)?)),
            Entry::Called(pass, nth, command, promise) => Ok(Entry::Called(
                *pass,
                *nth,
                command.try_clone(alloc)?,
                *promise,
            )),
            Entry::Own(command) => Ok(Entry::Own(command.try_clone(alloc)?)),
        }
    }
}
