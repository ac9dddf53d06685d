//! A reader as a source, and a writer as a sink. They tell nothing. What a signal interrupts is made
//! again.

ghost use Rattle.std.specs.Prelude.{◌≡◌, None};
ghost use Rattle.std.specs.Io.{ReadsAtMost, WritesAtMost};
ghost use Rattle.amqp_replay.specs.Ends.{FailedOnce};

use crate::ends::{Gave, Put, Sink, Source};
use std::alloc::Global;
use std::io::{self, ErrorKind, Read, Write};

/// A reader, with what it gave so far and a count of its failures.
#[derive(Drop)]
pub struct Reading<R> {
    reader: R,
    text: Vec<u8>,
    // whether memory was found for all of the text
    is_whole: bool,
    faults: u64,
}

impl<R> Reading<R> {
    /// A source of all that the reader gives.
    pub fn new(alloc: Global, reader: R) -> Reading<R> {
        Reading {
            reader,
            text: Vec::new(alloc),
            is_whole: true,
            faults: 0,
        }
    }

    /// All that the reader gave so far, where memory was found for it.
    pub fn text(&self) -> Option<&[u8]> {
        if self.is_whole {
            Some(&self.text)
        } else {
            None
        }
    }

    // Keeps what the reader gave.
    fn keep(&mut self, bytes: &[u8])
        ensures { self.new.faults ≡ self.old.faults }
    {
        if self.text.extend_from_slice(bytes).is_err() {
            self.is_whole = false;
        }
    }
}

impl<R: Read> Source for Reading<R> {
    ghost left = { λ s. None };

    ghost faults = { λ s. s.faults };

    #[tactic(auto, using(crate::proofs::Faults::counted))]
    fn read(&mut self, buffer: &mut [u8]) -> Gave {
        match read_again(&mut self.reader, buffer) {
            Ok(n) => {
                self.keep(&buffer[..n]);
                Gave::Got(n)
            }
            Err(_) => {
                self.faults = self.faults.saturating_add(1);
                Gave::Failed
            }
        }
    }
}

// Reads, and again where a signal interrupts it.
fn read_again<R: Read>(reader: &mut R, buffer: &mut [u8]) -> io::Result<usize>
    ensures { ReadsAtMost result buffer.new }
{
    for _ in 0..u64::MAX {
        match reader.read(buffer) {
            Err(e) if e.kind() == ErrorKind::Interrupted => {}
            answer => return answer,
        }
    }
    Err(io::Error::from(ErrorKind::Interrupted))
}

/// A writer, with a count of its failures. To take nothing of a piece is one.
#[derive(Drop)]
pub struct Writing<W> {
    writer: W,
    faults: u64,
}

impl<W> Writing<W> {
    /// A sink that hands all to the writer.
    pub fn new(writer: W) -> Writing<W> {
        Writing { writer, faults: 0 }
    }
}

impl<W: Write> Sink for Writing<W> {
    ghost held = { λ s. None };

    ghost faults = { λ s. s.faults };

    #[tactic(auto, using(crate::proofs::Faults::counted))]
    fn write(&mut self, bytes: &[u8]) -> Put {
        match write_again(&mut self.writer, bytes) {
            Ok(n) if n > 0 || bytes.is_empty() => Put::Took(n),
            _ => {
                self.faults = self.faults.saturating_add(1);
                Put::Failed
            }
        }
    }
}

// Writes, and again where a signal interrupts it.
fn write_again<W: Write>(writer: &mut W, bytes: &[u8]) -> io::Result<usize>
    ensures { WritesAtMost result bytes.now }
{
    for _ in 0..u64::MAX {
        match writer.write(bytes) {
            Err(e) if e.kind() == ErrorKind::Interrupted => {}
            answer => return answer,
        }
    }
    Err(io::Error::from(ErrorKind::Interrupted))
}
