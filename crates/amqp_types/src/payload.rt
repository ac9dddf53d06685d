//! Octets and numbers that are carried whole.

ghost use Rattle.std.specs.Prelude.{◌≡◌, ◌+◌, ◌≤◌, ◌↔◌, [], ◌∷◌, ◌++◌, length, IsTrue, IsOk, IfOk, OnOk, OnErr, nat_eq};
ghost use Rattle.std.specs.Cmp.Lexicographic.{pointwise, nat_list_eq_equiv};
ghost use Rattle.std.specs.Cmp.{partial_equiv_from_equiv, on_per, on_equiv};

use crate::memory::NoMemory;
use std::alloc::Global;
use std::marker::Model;

/// Octets of any number, which nobody reads.
#[derive(Debug, Drop)]
pub struct Payload {
    bytes: Vec<u8>,
}

impl Model for Payload {
    ghost use Rattle.std.specs.Prelude.{ℕ, List};

    ghost Value = { List ℕ };

    ghost view = { λ p. p.bytes.items };
}

impl Payload {
    /// A copy of the octets.
    pub fn new(alloc: Global, bytes: &[u8]) -> Result<Payload, NoMemory>
        ensures { IfOk result (λ p. p ≡ bytes.now) }
    {
        Ok(Payload {
            bytes: Vec::from_slice(alloc, bytes)?,
        })
    }

    /// No octet, for which it takes no memory.
    pub fn empty(alloc: Global) -> Payload
        ensures { result ≡ [] }
    {
        Payload {
            bytes: Vec::new(alloc),
        }
    }

    /// The octets, which are moved in: it takes no memory.
    pub fn from_vec(bytes: Vec<u8>) -> Payload
        ensures { result ≡ bytes.items }
    {
        Payload { bytes }
    }

    /// The octets, which are moved out.
    pub fn into_vec(self) -> Vec<u8>
        ensures { result.items ≡ self }
    {
        self.bytes
    }

    /// The octets.
    pub fn as_bytes(&self) -> &[u8]
        ensures { result.now ≡ self.now }
    {
        &self.bytes
    }

    /// How many octets there are.
    pub fn len(&self) -> usize
        ensures { result ≡ length self.now }
    {
        self.bytes.len()
    }

    /// Whether there is no octet.
    pub fn is_empty(&self) -> bool
        ensures { IsTrue result ↔ (length self.now ≡ 0) }
    {
        self.bytes.is_empty()
    }

    /// Another payload of the same octets.
    pub fn try_clone(&self, alloc: Global) -> Result<Payload, NoMemory>
        ensures { IfOk result (λ p. p ≡ self.now) }
    {
        Ok(Payload {
            bytes: Vec::from_slice(alloc, &self.bytes)?,
        })
    }
}

impl PartialEq for Payload {
    ghost eq = { pointwise nat_eq };

    ghost laws = { partial_equiv_from_equiv nat_list_eq_equiv };

    fn eq(&self, other: &Self) -> bool
        ensures { IsTrue result ↔ (self.now ≡ other.now) }
    {
        self.as_bytes() == other.as_bytes()
    }
}

impl Eq for Payload {
    ghost laws = { nat_list_eq_equiv };
}

/// A list of numbers with spare places, so that what can be refused (`reserve`) comes before what
/// can't (`push`). Many numbers pushed in turn cost time linear in their count.
#[derive(Debug, Drop)]
pub struct Payload64 {
    numbers: Vec<u64>,
    // how many may be pushed with no memory taken
    spare: usize,
}

impl Model for Payload64 {
    ghost use Rattle.std.specs.Prelude.{ℕ, List, ◌+◌, ◌≤◌, length};
    ghost use Rattle.std.specs.Vec.{vec_len, vec_capacity};
    ghost use Rattle.amqp_types.specs.Payload64.{Numbers};

    ghost Value = { Numbers };

    ghost view = { λ p. record { numbers = p.numbers.items; spare = p.spare } };

    ghost invariant = { λ p. vec_len p.numbers + p.spare ≤ vec_capacity p.numbers };
}

impl Payload64 {
    /// A copy of the numbers. How many places are spare is left open.
    pub fn new(alloc: Global, numbers: &[u64]) -> Result<Payload64, NoMemory>
        ensures { IfOk result (λ p. p.numbers ≡ numbers.now) }
    {
        Ok(Payload64::from_vec(Vec::from_slice(alloc, numbers)?))
    }

    /// No number and no place, for which it takes no memory.
    pub fn empty(alloc: Global) -> Payload64
        ensures { result ≡ record { numbers = []; spare = 0 } }
    {
        Payload64 {
            numbers: Vec::new(alloc),
            spare: 0,
        }
    }

    /// The numbers, which are moved in: it takes no memory. How many places are spare is left open.
    pub fn from_vec(numbers: Vec<u64>) -> Payload64
        ensures { result.numbers ≡ numbers.items }
    {
        let spare = numbers.capacity() - numbers.len();
        Payload64 { numbers, spare }
    }

    /// The numbers, which are moved out.
    pub fn into_vec(self) -> Vec<u64>
        ensures { result.items ≡ self.numbers }
    {
        self.numbers
    }

    /// The numbers.
    pub fn as_slice(&self) -> &[u64]
        ensures { result.now ≡ self.now.numbers }
    {
        &self.numbers
    }

    /// How many numbers there are.
    pub fn len(&self) -> usize
        ensures { result ≡ length self.now.numbers }
    {
        self.numbers.len()
    }

    /// Whether there is no number.
    pub fn is_empty(&self) -> bool
        ensures { IsTrue result ↔ (length self.now.numbers ≡ 0) }
    {
        self.numbers.is_empty()
    }

    /// Sees to it that a number can be pushed. It takes memory only where no place is spare.
    pub fn reserve(&mut self) -> Result<(), NoMemory>
        ensures kept { self.new.numbers ≡ self.old.numbers }
        ensures room { OnOk result (1 ≤ self.new.spare) }
        ensures err { OnErr result (self.new ≡ self.old) }
        ensures takes_no_memory { 1 ≤ self.old.spare → IsOk result }
        ensures not_lost { self.old.spare ≤ self.new.spare }
    {
        if self.spare == 0 {
            self.numbers.reserve(1)?;
            self.spare = self.numbers.capacity() - self.numbers.len();
        }
        Ok(())
    }

    /// Puts a number last, into a spare place: it takes no memory.
    pub fn push(&mut self, number: u64)
        requires { 1 ≤ self.old.spare }
        ensures last { self.new.numbers ≡ self.old.numbers ++ number ∷ [] }
        ensures spare { self.old.spare ≡ self.new.spare + 1 }
    {
        // There is a place, so that nothing is asked for and nothing refused.
        drop(self.numbers.push(number));
        self.spare -= 1;
    }

    /// Another list of the same numbers. How many places are spare is left open.
    pub fn try_clone(&self, alloc: Global) -> Result<Payload64, NoMemory>
        ensures { IfOk result (λ p. p.numbers ≡ self.now.numbers) }
    {
        Payload64::new(alloc, &self.numbers)
    }
}

/// Lists of the same numbers are equal, whatever is spare.
impl PartialEq for Payload64 {
    ghost eq = { λ x y. pointwise nat_eq x.numbers y.numbers };

    ghost laws = { on_per (λ p. p.numbers) (partial_equiv_from_equiv nat_list_eq_equiv) };

    fn eq(&self, other: &Self) -> bool
        ensures { IsTrue result ↔ (self.now.numbers ≡ other.now.numbers) }
    {
        self.as_slice() == other.as_slice()
    }
}

impl Eq for Payload64 {
    ghost laws = { on_equiv (λ p. p.numbers) nat_list_eq_equiv };
}
