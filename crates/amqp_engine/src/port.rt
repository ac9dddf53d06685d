//! Ports, over which an engine runs.

ghost use Rattle.std.specs.Prelude.{◌≡◌, ◌≤◌, ◌<◌, ◌++◌, ℕ, List, Option, Some, IfOk, IfSome, OnOk, OnErr, length, slice_get, option_map};
ghost use Rattle.amqp_engine.specs.Counts.{HasCause};
ghost use Rattle.amqp_types.specs.Counts.{Rose};
ghost use Rattle.amqp_engine.specs.Plan.{ArePieces};
ghost use Rattle.amqp_written_rules.specs.Sayable.{CanBeTold};
ghost use Rattle.amqp_engine.specs.Turn.{IsToldMethod, IsToldCommand};
ghost use Rattle.amqp_engine.specs.Log.{Log, loaded, log_ask, log_step, log_write, piece_len, piece_bytes, IsPiece, TookAtMost, PlansStep, PlansWrite};

use crate::given::Given;
use amqp_frame::RawMethod;
use amqp_session::Cmd;
use amqp_types::{NoMemory, Payload};
use std::alloc::Global;

/// What happened at a port.
#[derive(Debug, PartialEq, Eq, Drop)]
pub enum Step {
    /// A link is there.
    Linked,
    /// A link is refused.
    LinkFailed,
    /// So many bytes were received, which stand at the front of the space.
    Piece(usize),
    /// The input of the link ended.
    End,
    /// Reading failed.
    Fault,
    /// There may be room again for bytes to be written.
    Room,
    /// Nothing happened but that time passed.
    Tick,
    /// The session is told to do something.
    Command(Cmd),
}

impl Step {
    ghost use Rattle.amqp_engine.specs.Counts.{is_fault};
    ghost use Rattle.amqp_engine.specs.Turn.{is_piece, IsTold, StepCanBeTold};

    /// An equal step.
    pub fn try_clone(&self, alloc: Global) -> Result<Step, NoMemory>
        ensures { IfOk result (λ s. s ≡ self.now) }
    {
        match self {
            Step::Linked => Ok(Step::Linked),
            Step::LinkFailed => Ok(Step::LinkFailed),
            Step::Piece(n) => Ok(Step::Piece(*n)),
            Step::End => Ok(Step::End),
            Step::Fault => Ok(Step::Fault),
            Step::Room => Ok(Step::Room),
            Step::Tick => Ok(Step::Tick),
            Step::Command(command) => Ok(Step::Command(command.try_clone(alloc)?)),
        }
    }

    pub(crate) fn is_piece(&self) -> bool
        ensures { result ≡ is_piece self.now }
    {
        matches!(self, Step::Piece(_))
    }

    // Whether the port failed, which its count tells.
    pub(crate) fn is_fault(&self) -> bool
        ensures { result ≡ is_fault self.now }
    {
        matches!(self, Step::LinkFailed | Step::Fault)
    }

    // What a command carries is what its types can hold. It is called for this clause alone.
    pub(crate) fn hold(&self)
        ensures told { IsTold self.now }
        ensures can { StepCanBeTold self.now }
    {
        if let Step::Command(command) = self {
            hold(command);
        }
    }

    pub(crate) fn piece_len(&self) -> usize
        ensures { result ≡ piece_len self.now }
    {
        match self {
            Step::Piece(n) => *n,
            _ => 0,
        }
    }
}

// The same of a command, as a step or between turns.
pub(crate) fn hold(command: &Cmd)
    ensures told { IsToldCommand command.now }
    ensures can { CanBeTold command.now }
{
    match command {
        Cmd::Send(_, method) => hold_method(method),
        Cmd::Publish(_, method, properties, body) => {
            hold_method(method);
            let _held = (properties.as_bytes().len(), body.len());
        }
        Cmd::CloseChannel(_, code, text) | Cmd::CloseConnection(code, text) => {
            let _held = (*code, text.len());
        }
        Cmd::UpdateSecret(_, reason) => {
            let _held = reason.len();
        }
        Cmd::OpenChannel | Cmd::Flow(..) => {}
        Cmd::DropChannel(_) | Cmd::DropConnection | Cmd::Listen => {}
    }
}

// The same of a method.
fn hold_method(method: &RawMethod)
    ensures { IsToldMethod method.now }
{
    let _held = (method.class_id(), method.method_id(), method.args().len());
}

/// A step, and its moment in milliseconds.
#[derive(Debug, PartialEq, Eq, Drop)]
pub struct Told {
    pub at: u64,
    pub step: Step,
}

/// What a port answers to a write.
#[derive(Clone, Copy, Debug, PartialEq, Eq)]
pub enum Wrote {
    /// So many bytes were taken. 0 is none yet.
    Took(usize),
    /// Writing failed, and nothing was taken.
    Failed,
    /// The port found no memory to keep the write, and took nothing.
    NoMemory,
}

impl Wrote {
    ghost use Rattle.amqp_engine.specs.Engine.{taken_by};
    ghost use Rattle.amqp_engine.specs.Turn.{is_all};

    // How many bytes were taken.
    pub(crate) fn taken(self) -> usize
        ensures { result ≡ taken_by self }
    {
        match self {
            Wrote::Took(n) => n,
            Wrote::Failed | Wrote::NoMemory => 0,
        }
    }

    // Whether all of so many bytes were taken.
    pub(crate) fn is_all(self, offered: usize) -> bool
        ensures { result ≡ is_all self offered }
    {
        matches!(self, Wrote::Took(n) if n == offered)
    }
}

/// A step that was told: how many steps came before it, its moment, and the bytes of its piece.
#[derive(Debug, PartialEq, Eq, Drop)]
pub struct Happening {
    pub before: u64,
    pub at: u64,
    pub step: Step,
    pub bytes: Payload,
}

/// A write that was told: how many steps came before it, how many bytes were offered, and the
/// answer.
#[derive(Clone, Copy, Debug, PartialEq, Eq)]
pub struct Write {
    pub before: u64,
    pub offered: usize,
    pub answer: Wrote,
}

/// The outside of an engine: it gives steps one by one, and takes bytes. A connection holds still while
/// it asks for a link or writes: `connect` and `write` wait for nobody, and no call of a port calls
/// anything of its connection.
pub trait Port {
    /// What the port tells of itself, if it does.
    ghost log: { Self → Option Log };

    /// How often the port has failed, a count that never falls.
    ghost faults: { Self → ℕ };

    /// What no call of the port changes.
    ghost Kept: { Type 0 } = { Unit {0} };

    /// That part of the port.
    ghost kept: { Self → Kept };

    /// Asks for a link.
    fn connect(&mut self)
        ensures told { log self.new ≡ option_map log_ask (log self.old) }
        ensures faults { faults self.old ≤ faults self.new }
        ensures kept { kept self.new ≡ kept self.old };

    /// Gives one step. The bytes of a piece stand at the front of the space.
    fn next(&mut self, space: &mut [u8]) -> Told
        requires { 4096 ≤ length space.old }
        ensures piece { IsPiece result.step }
        ensures told { log self.new
            ≡ option_map (log_step result.at result.step (piece_bytes result.step space.new)) (log self.old) }
        ensures plays { IfSome (log self.old) (PlansStep result.at result.step (piece_bytes result.step space.new)) }
        ensures cause { HasCause result.step (faults self.old) (faults self.new) }
        ensures faults { faults self.old ≤ faults self.new }
        ensures kept { kept self.new ≡ kept self.old };

    /// Takes the first of the bytes of both slices together onto the last link.
    fn write(&mut self, first: &[u8], second: &[u8]) -> Wrote
        ensures within { TookAtMost (length (first.now ++ second.now)) result }
        ensures told { log self.new ≡ option_map (log_write (first.now ++ second.now) result) (log self.old) }
        ensures plays { IfSome (log self.old) (PlansWrite (length (first.now ++ second.now)) result) }
        ensures cause { result ≡ Wrote.Failed → Rose (faults self.old) (faults self.new) }
        ensures faults { faults self.old ≤ faults self.new }
        ensures kept { kept self.new ≡ kept self.old };
}

/// A port that plays a script, and keeps what it took.
pub trait ScriptedPort: Port {
    /// The bytes taken, link by link.
    ghost links_taken: { Self → List (List ℕ) };

    /// Plays these steps from now on, with no link and nothing told.
    fn load(&mut self, steps: Vec<Given>) -> Result<(), NoMemory>
        requires { ArePieces steps.items }
        ensures told { OnOk result (Self.log self.new ≡ Some (loaded steps.items)) }
        ensures err { OnErr result (self.new ≡ self.old) }
        ensures faults { Self.faults self.new ≡ Self.faults self.old }
        ensures kept { Self.kept self.new ≡ Self.kept self.old };

    /// How many links there were.
    fn links(&self) -> usize
        ensures { result ≡ length (links_taken self.now) };

    /// The bytes taken on a link, the links being counted from 0.
    fn link(&self, k: usize) -> &[u8]
        requires { k < length (links_taken self.now) }
        ensures { slice_get (links_taken self.now) k ≡ Some result.now };

    /// The links are those that the port tells.
    ghost ties: { (p : Self) → IfSome (Self.log p) (λ a. a.links ≡ links_taken p) };
}
