//! Sources and sinks in memory, which tell all and fail where they are to.

ghost use Rattle.std.specs.Prelude.{◌≡◌, ◌++◌, [], Some};
ghost use Rattle.std.specs.Bool.{OnTrue, OnFalse};
ghost use Rattle.amqp_replay.specs.Ends.{FailedOnce};

use crate::ends::{Gave, Put, Sink, Source};
use std::alloc::Global;

/// The calls that are to fail, by their numbers from 1 on, and how many were made and failed.
#[derive(Debug, Drop)]
struct Failing<'a> {
    to_fail: &'a [u64],
    calls: u64,
    faults: u64,
}

impl<'a> Failing<'a> {
    // No call was made yet.
    fn new(to_fail: &'a [u64]) -> Failing<'a> {
        Failing {
            to_fail,
            calls: 0,
            faults: 0,
        }
    }

    // Counts a call, and a fault where the call is to fail.
    fn call(&mut self) -> bool
        ensures fails { OnTrue result (FailedOnce self.old.faults self.new.faults) }
        ensures serves { OnFalse result (self.new.faults ≡ self.old.faults) }
    {
        self.calls = self.calls.saturating_add(1);
        let fails = self.to_fail.contains(&self.calls);
        if fails {
            self.fail();
        }
        fails
    }

    // Counts a failure.
    #[tactic(auto, using(crate::proofs::Faults::counted))]
    fn fail(&mut self)
        ensures { FailedOnce self.old.faults self.new.faults }
    {
        self.faults = self.faults.saturating_add(1);
    }
}

/// A source that gives the bytes of a slice.
#[derive(Debug, Drop)]
pub struct MemorySource<'a> {
    left: &'a [u8],
    failing: Failing<'a>,
}

impl<'a> MemorySource<'a> {
    /// A source of these bytes, whose calls with these numbers fail.
    pub fn new(bytes: &'a [u8], to_fail: &'a [u64]) -> MemorySource<'a>
        ensures left { result.left.now ≡ bytes.now }
    {
        MemorySource {
            left: bytes,
            failing: Failing::new(to_fail),
        }
    }
}

impl<'a> Source for MemorySource<'a> {
    ghost left = { λ s. Some s.left.now };

    ghost faults = { λ s. s.failing.faults };

    fn read(&mut self, buffer: &mut [u8]) -> Gave {
        if self.failing.call() {
            return Gave::Failed;
        }
        let n = buffer.len().min(self.left.len());
        let (front, rest) = self.left.split_at(n);
        buffer[..n].copy_from_slice(front);
        self.left = rest;
        Gave::Got(n)
    }
}

/// A sink that keeps what it takes, at most so many bytes a call. To find no memory is a failure.
#[derive(Debug, Drop)]
pub struct MemorySink<'a> {
    held: Vec<u8>,
    most: usize,
    failing: Failing<'a>,
}

impl<'a> MemorySink<'a> {
    /// A sink without bytes yet, whose calls with these numbers fail.
    pub fn new(alloc: Global, most: usize, to_fail: &'a [u64]) -> MemorySink<'a>
        ensures held { result.held.items ≡ [] }
    {
        MemorySink {
            held: Vec::new(alloc),
            most,
            failing: Failing::new(to_fail),
        }
    }

    /// What the sink took.
    pub fn held(&self) -> &[u8]
        ensures { result.now ≡ self.now.held.items }
    {
        &self.held
    }
}

impl<'a> Sink for MemorySink<'a> {
    ghost held = { λ s. Some s.held.items };

    ghost faults = { λ s. s.failing.faults };

    fn write(&mut self, bytes: &[u8]) -> Put {
        if self.failing.call() {
            return Put::Failed;
        }
        let n = bytes.len().min(self.most.max(1));
        if self.held.extend_from_slice(&bytes[..n]).is_err() {
            self.failing.fail();
            return Put::Failed;
        }
        Put::Took(n)
    }
}
