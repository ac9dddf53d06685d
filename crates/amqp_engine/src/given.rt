//! The steps of a script.

ghost use Rattle.std.specs.Prelude.{◌≡◌, IfOk};

use amqp_session::Cmd;
use amqp_types::{NoMemory, Payload};
use std::alloc::Global;

/// What happens at a step of a script.
#[derive(Debug, PartialEq, Eq, Drop)]
pub enum GivenStep {
    /// A link is there, with room for so many bytes or for all.
    Link(Option<u64>),
    /// The link is refused.
    Refuse,
    /// A piece of 1 to 4,096 bytes is received.
    Bytes(Payload),
    /// The input of the link ends.
    End,
    /// Reading fails.
    Fault,
    /// So many bytes more are taken.
    Room(u64),
    /// The next write fails.
    WriteFail,
    Tick,
    Command(Cmd),
}

/// A step of a script, and its moment in milliseconds.
#[derive(Debug, PartialEq, Eq, Drop)]
pub struct Given {
    pub at: u64,
    pub what: GivenStep,
}

impl GivenStep {
    /// An equal step.
    pub fn try_clone(&self, alloc: Global) -> Result<GivenStep, NoMemory>
        ensures { IfOk result (λ s. s ≡ self.now) }
    {
        match self {
            GivenStep::Link(room) => Ok(GivenStep::Link(*room)),
            GivenStep::Refuse => Ok(GivenStep::Refuse),
            GivenStep::Bytes(bytes) => Ok(GivenStep::Bytes(bytes.try_clone(alloc)?)),
            GivenStep::End => Ok(GivenStep::End),
            GivenStep::Fault => Ok(GivenStep::Fault),
            GivenStep::Room(more) => Ok(GivenStep::Room(*more)),
            GivenStep::WriteFail => Ok(GivenStep::WriteFail),
            GivenStep::Tick => Ok(GivenStep::Tick),
            GivenStep::Command(command) => Ok(GivenStep::Command(command.try_clone(alloc)?)),
        }
    }
}

impl Given {
    /// An equal step.
    pub fn try_clone(&self, alloc: Global) -> Result<Given, NoMemory>
        ensures { IfOk result (λ g. g ≡ self.now) }
    {
        Ok(Given {
            at: self.at,
            what: self.what.try_clone(alloc)?,
        })
    }
}
