//! What a port told.

ghost use Rattle.std.specs.Prelude.{◌≡◌, ◌≤◌, Option, Some, IfSome, length, option_map};
ghost use Rattle.amqp_engine.specs.Counts.{HasCause};
ghost use Rattle.amqp_engine.specs.Log.{log_step, piece_bytes, IsPiece, PlansStep};

use amqp_engine::{Port, Step, Told};

/// A port, which nobody but this crate asks for a step, for a link or to write: a loop hears it and lends it
/// to its turns.
#[derive(Drop)]
pub struct Line<P> {
    pub(crate) port: P,
}

impl<P> Line<P> {
    /// The line over this port.
    pub fn new(port: P) -> Line<P>
        ensures { result.port ≡ port }
    {
        Line { port }
    }

    /// The port, to look at.
    pub fn port(&self) -> &P
        ensures { result.now ≡ self.now.port }
    {
        &self.port
    }
}

/// A step that a port told, with the bytes of its piece. It is made by `hear` alone, taken apart by
/// `Locked::apply` alone, and cannot be let go.
pub struct Heard<'a> {
    pub(crate) told: Told,
    pub(crate) bytes: &'a [u8],
}

/// The next step of a port, whose bytes are read into the space.
pub fn hear<'a, P: Port>(line: &mut Line<P>, space: &'a mut [u8]) -> Heard<'a>
    requires { 4096 ≤ length space.old }
    ensures piece { IsPiece result.told.step }
    ensures told { P.log line.new.port
        ≡ option_map (log_step result.told.at result.told.step result.bytes.now) (P.log line.old.port) }
    ensures plays { IfSome (P.log line.old.port) (PlansStep result.told.at result.told.step result.bytes.now) }
    ensures cause { HasCause result.told.step (P.faults line.old.port) (P.faults line.new.port) }
    ensures faults { P.faults line.old.port ≤ P.faults line.new.port }
    ensures kept { P.kept line.new.port ≡ P.kept line.old.port }
{
    let told = line.port.next(space);
    let count = match &told.step {
        Step::Piece(count) => *count,
        _ => 0,
    };
    Heard {
        told,
        bytes: &space[..count],
    }
}
