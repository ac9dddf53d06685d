//! Where bodies are printed.

ghost use Rattle.std.specs.Prelude.{◌≡◌, ◌⊎◌, ℕ, Option, None, Some, [], option_map, true, false};
ghost use Rattle.std.specs.Bool.{OnTrue};
ghost use Rattle.amqp_tools.specs.Sink.{Page, give_more, give_if, take_if, count_faults, HasNoLength, delimited};

use crate::framing::Framing;
use std::alloc::Global;
use std::io::Write;

/// Takes octets. What it was given it need not have taken before it is flushed.
pub trait Sink {
    /// What it took, and what it was given since, where it tells that.
    ghost page: { Self → Option Page };

    /// How often it failed. The count stays at the greatest number of 64 bits.
    ghost faults: { Self → ℕ };

    /// Gives it these octets. Whether it accepts them.
    fn give(&mut self, octets: &[u8]) -> bool
        ensures page { page self.new ≡ option_map (give_if result octets.now) (page self.old) }
        ensures faults { faults self.new ≡ count_faults result (faults self.old) };

    /// Has it take all that it was given. Whether it did.
    fn flush(&mut self) -> bool
        ensures page { page self.new ≡ option_map (take_if result) (page self.old) }
        ensures faults { faults self.new ≡ count_faults result (faults self.old) };
}

/// A writer as a sink. It tells nothing but how often it failed.
#[derive(Drop)]
pub struct Written<W: Write + Drop> {
    writer: W,
    faults: u64,
}

impl<W: Write + Drop> Written<W> {
    /// A sink that hands all to the writer.
    pub fn new(writer: W) -> Written<W> {
        Written { writer, faults: 0 }
    }

    // Whether something was done, which counts as a failure where it was not.
    fn count(&mut self, is_done: bool) -> bool
        ensures done { result ≡ is_done }
        ensures faults { self.new.faults ≡ count_faults is_done self.old.faults }
    {
        if !is_done {
            self.faults = self.faults.saturating_add(1);
        }
        is_done
    }
}

impl<W: Write + Drop> Sink for Written<W> {
    ghost page = { λ s. None };

    ghost faults = { λ s. s.faults };

    fn give(&mut self, octets: &[u8]) -> bool {
        let is_done = self.writer.write_all(octets).is_ok();
        self.count(is_done)
    }

    fn flush(&mut self) -> bool {
        let is_done = self.writer.flush().is_ok();
        self.count(is_done)
    }
}

/// A sink in memory. It tells all.
#[derive(Drop)]
pub struct MemorySink {
    taken: Vec<u8>,
    given: Vec<u8>,
    faults: u64,
}

impl MemorySink {
    /// It was given nothing.
    pub fn new(alloc: Global) -> MemorySink
        ensures taken { result.taken.items ≡ [] }
        ensures given { result.given.items ≡ [] }
    {
        MemorySink {
            taken: Vec::new(alloc),
            given: Vec::new(alloc),
            faults: 0,
        }
    }

    /// What it took.
    pub fn taken(&self) -> &[u8]
        ensures { result.now ≡ self.now.taken.items }
    {
        &self.taken
    }
}

impl Sink for MemorySink {
    ghost page = { λ s. Some (record { taken = s.taken.items; given = s.given.items }) };

    ghost faults = { λ s. s.faults };

    fn give(&mut self, octets: &[u8]) -> bool {
        if self.given.extend_from_slice(octets).is_err() {
            self.faults = self.faults.saturating_add(1);
            return false;
        }
        true
    }

    fn flush(&mut self) -> bool {
        if self.taken.extend_from_slice(&self.given).is_err() {
            self.faults = self.faults.saturating_add(1);
            return false;
        }
        self.given.clear();
        true
    }
}

/// Prints a body as it stands among others. Whether the sink accepted all of it; four octets can't say a length of
/// 2 ^ 32.
pub fn print<S: Sink>(sink: &mut S, framing: Framing, body: &[u8]) -> bool
    ensures page { OnTrue result
        (S.page sink.new ≡ option_map (give_more (delimited framing body.now)) (S.page sink.old)) }
    ensures faults { result ≡ false
        → (S.faults sink.new ≡ count_faults false (S.faults sink.old)) ⊎ HasNoLength framing body.now }
{
    match framing {
        Framing::Lines => sink.give(body) && sink.give(b"\n"),
        Framing::Zeros => sink.give(body) && sink.give(b"\0"),
        Framing::Lengths if body.len() > u32::MAX as usize => false,
        Framing::Lengths => sink.give(&(body.len() as u32).to_be_bytes()) && sink.give(body),
    }
}
