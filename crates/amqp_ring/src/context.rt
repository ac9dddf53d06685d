//! Bytes that are read, in one piece or in two.

ghost use Rattle.std.specs.Prelude.{◌≡◌, ◌<◌, ◌≤◌, ◌+◌, ◌++◌, length, take, drop, IfSome, IfNone, IfOk, IfErr, OnOk, OnErr};
ghost use Rattle.std.specs.Iterator.{YieldsFirst};
ghost use Rattle.amqp_ring.specs.Contexts.{context_bytes, IsFirst, NonePasses};

use amqp_frame::View;
use amqp_types::NoMemory;
use std::alloc::Global;
use std::fmt;
use thiserror::Error;

/// Two slices that are read as one list of bytes, the second behind the first. Copying it copies no
/// byte. Its `Debug` shows their number alone, since what is to be sent may be secret.
///
/// A loop over many bytes does best on `copy_range`, which copies slice by slice; `at` is for the
/// few bytes of a header, and `iter_elements` asks at each byte which slice it is in.
#[derive(Clone, Copy)]
pub struct ParsingContext<'a> {
    pub(crate) first: &'a [u8],
    pub(crate) second: &'a [u8],
}

impl fmt::Debug for ParsingContext<'_> {
    ghost use Rattle.std.specs.Prelude.{Some};
    ghost use Rattle.amqp_ring.specs.Contexts.{debug_text};

    ghost debug_output = { λ c. Some (debug_text c) };

    fn fmt<W: fmt::Write>(&self, f: &mut fmt::Formatter<W>) -> fmt::Result {
        write!(f, "ParsingContext {{ len: {}, .. }}", self.input_len())
    }
}

/// How many bytes are missing.
#[derive(Clone, Copy, Debug, PartialEq, Eq, Error)]
#[error("bytes missing: {0}")]
pub struct Needed(pub usize);

impl<'a> From<&'a [u8]> for ParsingContext<'a> {
    ghost from_gives = { λ bytes c. context_bytes c ≡ bytes.now };

    fn from(bytes: &'a [u8]) -> ParsingContext<'a> {
        ParsingContext {
            first: bytes,
            second: &[],
        }
    }
}

impl<'a> ParsingContext<'a> {
    /// The bytes of both slices, as one list.
    pub fn from_slices(first: &'a [u8], second: &'a [u8]) -> ParsingContext<'a>
        ensures { context_bytes result ≡ first.now ++ second.now }
    {
        ParsingContext { first, second }
    }

    /// How many bytes there are.
    pub fn input_len(&self) -> usize
        ensures { result ≡ length (context_bytes self.now) }
    {
        self.first.len() + self.second.len()
    }

    /// The first `count` bytes.
    pub fn take(&self, count: usize) -> ParsingContext<'a>
        requires { count ≤ length (context_bytes self.now) }
        ensures { context_bytes result ≡ take count (context_bytes self.now) }
    {
        if count <= self.first.len() {
            ParsingContext {
                first: &self.first[..count],
                second: &[],
            }
        } else {
            ParsingContext {
                first: self.first,
                second: &self.second[..count - self.first.len()],
            }
        }
    }

    /// The bytes from the place `index` on, counted from 0.
    pub fn take_from(&self, index: usize) -> ParsingContext<'a>
        requires { index ≤ length (context_bytes self.now) }
        ensures { context_bytes result ≡ drop index (context_bytes self.now) }
    {
        if index <= self.first.len() {
            ParsingContext {
                first: &self.first[index..],
                second: self.second,
            }
        } else {
            ParsingContext {
                first: &self.second[index - self.first.len()..],
                second: &[],
            }
        }
    }

    /// The bytes from the place `index` on, and then those before it.
    pub fn take_split(&self, index: usize) -> (ParsingContext<'a>, ParsingContext<'a>)
        requires { index ≤ length (context_bytes self.now) }
        ensures rest { context_bytes result.0 ≡ drop index (context_bytes self.now) }
        ensures front { context_bytes result.1 ≡ take index (context_bytes self.now) }
    {
        (self.take_from(index), self.take(index))
    }

    /// `count`, where there are so many bytes, or how many are missing.
    pub fn slice_index(&self, count: usize) -> Result<usize, Needed>
        ensures count { IfOk result (λ n. n ≡ count) }
        ensures enough { OnOk result (count ≤ length (context_bytes self.now)) }
        ensures missing { IfErr result (λ needed. length (context_bytes self.now) + needed.0 ≡ count) }
        ensures short { OnErr result (length (context_bytes self.now) < count) }
    {
        let len = self.input_len();
        if count <= len {
            Ok(count)
        } else {
            Err(Needed(count - len))
        }
    }

    /// The first place whose byte passes a test, counted from 0.
    pub fn position<F: Fn(u8) -> bool>(&self, predicate: F) -> Option<usize>
        requires { F.IsAlwaysCallable predicate }
        ensures some { IfSome result (IsFirst (F.post predicate) (context_bytes self.now)) }
        ensures none { IfNone result
            (NonePasses (F.post predicate) (context_bytes self.now) (length (context_bytes self.now))) }
    {
        for (i, byte) in self.first.iter().enumerate() {
            if predicate(*byte) {
                return Some(i);
            }
        }
        for (j, byte) in self.second.iter().enumerate() {
            if predicate(*byte) {
                return Some(self.first.len() + j);
            }
        }
        None
    }

    // Takes out the first byte.
    pub(crate) fn next(&mut self) -> Option<u8>
        ensures { YieldsFirst context_bytes self.old result self.new }
    {
        if let Some((byte, rest)) = self.first.split_first() {
            self.first = rest;
            return Some(*byte);
        }
        let (byte, rest) = self.second.split_first()?;
        self.second = rest;
        Some(*byte)
    }
}

impl View for ParsingContext<'_> {
    ghost bytes = { context_bytes };

    fn len(&self) -> usize {
        // The clauses of both say that they hold octets.
        View::len(&self.first) + View::len(&self.second)
    }

    fn at(&self, index: usize) -> u8 {
        if index < self.first.len() {
            self.first[index]
        } else {
            self.second[index - self.first.len()]
        }
    }

    fn copy_range(&self, alloc: Global, start: usize, end: usize) -> Result<Vec<u8>, NoMemory> {
        let part = self.take(end).take_from(start);
        let mut copy = Vec::with_capacity(alloc, end - start)?;
        copy.extend_from_slice(part.first)?;
        copy.extend_from_slice(part.second)?;
        Ok(copy)
    }
}
