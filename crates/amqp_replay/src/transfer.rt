//! Reading all of a source, and writing all to a sink.

ghost use Rattle.std.specs.Prelude.{◌≡◌, ◌≢◌, ◌⊎◌, ◌≤◌, ◌<◌, ◌+◌, ◌++◌, [], length, drop, option_map, Err, IfOk, IfSome, OnOk, OnErr, take};
ghost use Rattle.amqp_replay.specs.Ends.{FailedOnce};
ghost use Rattle.amqp_replay.specs.Top.{TookAll, TookFront, Prints};

use crate::ends::{Gave, Put, Sink, Source};
use crate::limits::MOST_READ;
use crate::report::Printout;
use crate::status::SINK_FAILED;
use std::alloc::{AllocError, Global};

// How many bytes are asked for at once.
const BLOCK: usize = 65_536;

/// Why a source was not read to its end.
#[derive(Clone, Copy, Debug, PartialEq, Eq)]
pub enum ReadFault {
    SourceFailed,
    NoMemory,
}

impl From<AllocError> for ReadFault {
    ghost use Rattle.std.specs.Prelude.{◌≡◌};
    ghost use Rattle.amqp_replay.specs.declared.transfer.ReadFault.TheVariants.{NoMemory};

    ghost from_gives = { λ _ e. e ≡ NoMemory };

    fn from(_refused: AllocError) -> ReadFault {
        ReadFault::NoMemory
    }
}

/// Reads a source to its end, or as much of it as is ever read.
pub fn read_all<S: Source>(alloc: Global, source: &mut S) -> Result<Vec<u8>, ReadFault>
    ensures text { IfOk result (λ text. IfSome (S.left source.old) (λ all. text.items ≡ take MOST_READ all)) }
    ensures cause { result ≡ Err ReadFault.SourceFailed → FailedOnce (S.faults source.old) (S.faults source.new) }
    ensures kept { result ≢ Err ReadFault.SourceFailed → S.faults source.new ≡ S.faults source.old }
{
    let mut block = vec![in alloc; 0; BLOCK]?;
    read_by(alloc, source, &mut block)
}

// Reads by way of a block.
fn read_by<S: Source>(alloc: Global, source: &mut S, block: &mut [u8]) -> Result<Vec<u8>, ReadFault>
    requires { 0 < length block.old }
    ensures text { IfOk result (λ text. IfSome (S.left source.old) (λ all. text.items ≡ take MOST_READ all)) }
    ensures cause { result ≡ Err ReadFault.SourceFailed → FailedOnce (S.faults source.old) (S.faults source.new) }
    ensures kept { result ≢ Err ReadFault.SourceFailed → S.faults source.new ≡ S.faults source.old }
{
    let mut text = Vec::new(alloc);
    'pieces: while text.len() < MOST_READ {
        let most = block.len().min(MOST_READ - text.len());
        let n = read_piece(source, &mut block[..most], &mut text)?;
        if n == 0 {
            return Ok(text);
        }
    }
    Ok(text)
}

// Reads into a block once, and adds to the text what was read. How many bytes it was: none at the end.
fn read_piece<S: Source>(
    source: &mut S,
    block: &mut [u8],
    text: &mut Vec<u8>,
) -> Result<usize, ReadFault>
    requires { 0 < length block.old }
    ensures within { IfOk result (λ n. n ≤ length block.old) }
    ensures left { IfOk result (λ n. S.left source.new ≡ option_map (drop n) (S.left source.old)) }
    ensures text { IfOk result (λ n. IfSome (S.left source.old) (λ rest.
        text.new.items ≡ text.old.items ++ take n rest)) }
    ensures len { IfOk result (λ n. length text.new.items ≡ length text.old.items + n) }
    ensures end { IfOk result (λ n. n ≡ 0 → IfSome (S.left source.old) (λ rest. rest ≡ [])) }
    ensures cause { result ≡ Err ReadFault.SourceFailed → FailedOnce (S.faults source.old) (S.faults source.new) }
    ensures kept { result ≢ Err ReadFault.SourceFailed → S.faults source.new ≡ S.faults source.old }
{
    match source.read(block) {
        Gave::Failed => Err(ReadFault::SourceFailed),
        Gave::Got(n) => {
            text.extend_from_slice(&block[..n])?;
            Ok(n)
        }
    }
}

/// A sink failed.
#[derive(Clone, Copy, Debug, PartialEq, Eq)]
pub struct SinkFailed;

/// Writes all of the bytes, for which it takes no memory.
pub fn write_all<K: Sink>(sink: &mut K, bytes: &[u8]) -> Result<(), SinkFailed>
    ensures ok { OnOk result (TookAll bytes.now (K.held sink.old) (K.held sink.new)) }
    ensures err { OnErr result (TookFront bytes.now (K.held sink.old) (K.held sink.new)) }
    ensures cause { OnErr result (FailedOnce (K.faults sink.old) (K.faults sink.new)) }
    ensures kept { OnOk result (K.faults sink.new ≡ K.faults sink.old) }
{
    let mut at = 0;
    'writes: while at < bytes.len() {
        match sink.write(&bytes[at..]) {
            Put::Took(n) => at += n,
            Put::Failed => return Err(SinkFailed),
        }
    }
    Ok(())
}

/// Writes what is printed, and gives its status, or that of a sink that failed.
pub fn put_printout<K: Sink>(sink: &mut K, printout: Printout) -> u8
    ensures prints { Prints printout (K.held sink.old) (K.held sink.new) result }
    ensures cause { (result ≡ printout.status) ⊎ FailedOnce (K.faults sink.old) (K.faults sink.new) }
    ensures kept { result ≢ SINK_FAILED → K.faults sink.new ≡ K.faults sink.old }
{
    let status = printout.status();
    let written = write_all(sink, printout.as_bytes());
    drop(printout);
    match written {
        Ok(()) => status,
        Err(SinkFailed) => SINK_FAILED,
    }
}
