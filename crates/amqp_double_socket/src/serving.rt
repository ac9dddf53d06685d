//! One client that is served: what it says is fed to a double, and what the double answers is written to it.

ghost use Rattle.std.specs.Prelude.{◌≡◌, ◌≢◌, ◌≤◌, ◌<◌, ◌⊎◌, true, false, None, Some, IfSome, IfNone, Err, length};
ghost use Rattle.std.specs.Io.KnownBytes.{IsAtEnd};
ghost use Rattle.amqp_double.specs.Doubles.{AnswersClient};
ghost use Rattle.amqp_double.specs.Faults.{result_of};
ghost use Rattle.amqp_double_socket.specs.Serving.{HasSentAll, HasWritten, FeedsOn, Sends, EndsWhole, FaultsRise};

use crate::counted::Counted;
use amqp_double::{Double, DoubleFault};
use std::alloc::Global;
use std::io::{ErrorKind, Read, Write};

/// How many octets are read at once.
const PIECE: usize = 65_536;

/// How the service of a client ended.
#[derive(Clone, Copy, Debug, PartialEq, Eq)]
pub enum Ended {
    /// The client closed the connection, or answered a close.
    Closed,
    /// The client ended the link.
    Left,
    /// The client said what is no frame, or what it may not say.
    Refused(DoubleFault),
    /// The link failed.
    Failed,
    /// Memory was refused.
    NoMemory,
}

/// Serves a client whose octets are read and to whom octets are written, until it is done: what it says is fed to the
/// double as it comes, and what the double answers is written at once, whole and in order, before more is read. Where
/// the link fails amid that, what was written is the front of it.
pub fn serve<R: Read, W: Write>(
    alloc: Global,
    double: &mut Double,
    reader: &mut Counted<R>,
    writer: &mut Counted<W>,
) -> Ended
    requires sent { HasSentAll double.old }
    ensures answers { AnswersClient double.new }
    ensures written { HasWritten double.old double.new (W.contents writer.old.stream) (W.contents writer.new.stream) }
    ensures whole { EndsWhole result → HasSentAll double.new }
    ensures heard { result ≢ Ended.NoMemory
        → FeedsOn double.old double.new (R.remaining reader.old.stream) (R.remaining reader.new.stream) }
    ensures closed { result ≡ Ended.Closed → double.new.closed ≡ true }
    ensures refused { (fault : DoubleFault) → result ≡ Ended.Refused fault → Err fault ≡ result_of double.new.refusal }
    ensures left { result ≡ Ended.Left → IsAtEnd (R.remaining reader.new.stream) }
    ensures failed { result ≡ Ended.Failed
        → FaultsRise reader.old.faults reader.new.faults ⊎ FaultsRise writer.old.faults writer.new.faults }
{
    // What the double answered so far is what it has to say.
    let _ = double.closed();
    let Ok(mut space) = vec![in alloc; 0; PIECE] else {
        return Ended::NoMemory;
    };
    'pieces: for _ in 0..u64::MAX {
        match serve_piece(alloc, double, reader, writer, &mut space) {
            Some(ended) => return ended,
            None => {}
        }
    }
    // So often no link is read.
    reader.fail();
    Ended::Failed
}

// Reads once, feeds what was read and writes what is answered. How the service ended, where it did.
fn serve_piece<R: Read, W: Write>(
    alloc: Global,
    double: &mut Double,
    reader: &mut Counted<R>,
    writer: &mut Counted<W>,
    space: &mut [u8],
) -> Option<Ended>
    requires answers { AnswersClient double.old }
    requires sent { HasSentAll double.old }
    requires space { 0 < length space.old }
    ensures answers { AnswersClient double.new }
    ensures written { HasWritten double.old double.new (W.contents writer.old.stream) (W.contents writer.new.stream) }
    ensures whole { IfSome result EndsWhole → HasSentAll double.new }
    ensures heard { result ≢ Some Ended.NoMemory
        → FeedsOn double.old double.new (R.remaining reader.old.stream) (R.remaining reader.new.stream) }
    ensures unrefused { IfNone result (double.old.refusal ≡ None → double.new.refusal ≡ None) }
    ensures closed { result ≡ Some Ended.Closed → double.new.closed ≡ true }
    ensures refused { (fault : DoubleFault) → result ≡ Some (Ended.Refused fault)
        → Err fault ≡ result_of double.new.refusal }
    ensures left { result ≡ Some Ended.Left → IsAtEnd (R.remaining reader.new.stream) }
    ensures rises { (reader.old.faults ≤ reader.new.faults) × (writer.old.faults ≤ writer.new.faults) }
    ensures failed { result ≡ Some Ended.Failed
        → FaultsRise reader.old.faults reader.new.faults ⊎ FaultsRise writer.old.faults writer.new.faults }
{
    let count = match reader.read(space) {
        Ok(0) => return Some(Ended::Left),
        Ok(count) => count,
        Err(why) if why.kind() == ErrorKind::Interrupted => return None,
        Err(_) => return Some(Ended::Failed),
    };
    // Places for what is answered are asked for with that, so that the double is as before where they are refused.
    let mut answers: Vec<u8> = Vec::new(alloc);
    let fed = double.feed_with(&space[..count], &mut answers, 0);
    drop(answers);
    if fed == Err(DoubleFault::NoMemory) {
        return Some(Ended::NoMemory);
    }
    if !say(double, writer) {
        return Some(Ended::Failed);
    }
    match fed {
        Err(fault) => Some(Ended::Refused(fault)),
        Ok(()) if double.closed() => Some(Ended::Closed),
        Ok(()) => None,
    }
}

// Writes all that the double answered and that was not sent. Whether all was taken.
fn say<W: Write>(double: &mut Double, writer: &mut Counted<W>) -> bool
    requires answers { AnswersClient double.old }
    ensures answers { AnswersClient double.new }
    ensures sends { Sends double.old double.new (W.contents writer.old.stream) (W.contents writer.new.stream) }
    ensures all { result ≡ true → HasSentAll double.new }
    ensures rises { writer.old.faults ≤ writer.new.faults }
    ensures failed { result ≡ false → FaultsRise writer.old.faults writer.new.faults }
{
    'octets: for _ in 0..u64::MAX {
        if double.output().is_empty() {
            return true;
        }
        match writer.write(double.output()) {
            Ok(0) => {
                writer.fail();
                return false;
            }
            Ok(count) => double.sent(count),
            Err(why) if why.kind() == ErrorKind::Interrupted => {}
            Err(_) => return false,
        }
    }
    // So often no link is written to.
    writer.fail();
    false
}
