//! The ends of a link, each with a count of how often it failed.

ghost use Rattle.std.specs.Prelude.{◌≡◌, ◌≤◌, OnErr};
ghost use Rattle.std.specs.Io.{ReadsAtMost, WritesAtMost};
ghost use Rattle.std.specs.Io.KnownBytes.{ReadConsumes, WriteAppends};
ghost use Rattle.amqp_double_socket.specs.Serving.{FaultsRise};

use std::io::{Read, Result, Write};

/// What is read or written, and how often that failed. What a signal interrupts counts too. The count stays at the
/// greatest number of 64 bits.
#[derive(Drop)]
pub struct Counted<S> {
    stream: S,
    faults: u64,
}

impl<S> Counted<S> {
    /// It did not fail.
    pub fn new(stream: S) -> Counted<S>
        ensures stream { result.stream ≡ stream }
        ensures faults { result.faults ≡ 0 }
    {
        Counted { stream, faults: 0 }
    }

    /// What is read or written.
    pub fn into_stream(self) -> S
        ensures { result ≡ self.stream }
    {
        self.stream
    }

    // It failed once more.
    #[tactic(auto, using(crate::proofs::Faults::rises, crate::proofs::Faults::fails))]
    pub(crate) fn fail(&mut self)
        ensures stream { self.new.stream ≡ self.old.stream }
        ensures rises { self.old.faults ≤ self.new.faults }
        ensures fails { FaultsRise self.old.faults self.new.faults }
    {
        self.faults = self.faults.saturating_add(1);
    }
}

impl<R: Read> Counted<R> {
    // Reads once.
    pub(crate) fn read(&mut self, space: &mut [u8]) -> Result<usize>
        ensures bound { ReadsAtMost result space.new }
        ensures bytes { ReadConsumes (R.remaining self.old.stream) (R.remaining self.new.stream) result space.new }
        ensures rises { self.old.faults ≤ self.new.faults }
        ensures fails { OnErr result (FaultsRise self.old.faults self.new.faults) }
    {
        let answer = self.stream.read(space);
        if answer.is_err() {
            self.fail();
        }
        answer
    }
}

impl<W: Write> Counted<W> {
    // Writes once.
    pub(crate) fn write(&mut self, octets: &[u8]) -> Result<usize>
        ensures bound { WritesAtMost result octets.now }
        ensures bytes { WriteAppends (W.contents self.old.stream) (W.contents self.new.stream) result octets.now }
        ensures rises { self.old.faults ≤ self.new.faults }
        ensures fails { OnErr result (FaultsRise self.old.faults self.new.faults) }
    {
        let answer = self.stream.write(octets);
        if answer.is_err() {
            self.fail();
        }
        answer
    }
}
