//! Sets of the numbers of channels.

ghost use Rattle.std.specs.Prelude.{◌≡◌, ◌≢◌, ℕ, ◌+◌, ◌-◌, ◌/◌, ◌<◌, ◌≤◌, ◌^◌, not, true, false, [], length, find, IfOk, IfSome, OnOk};
ghost use Rattle.std.specs.List.{range_with_len};
ghost use Rattle.std.specs.Int.{bit_at};
ghost use Rattle.amqp_channels.specs.NumberSet.{is_member};

use amqp_types::{ChannelId, NoMemory};
use std::alloc::Global;
use std::marker::Model;

/// A set of numbers, as a bit for each in words of 64 bits.
#[derive(Debug, Drop)]
pub struct Numbers {
    words: Vec<u64>,
}

impl Model for Numbers {
    ghost use Rattle.std.specs.Prelude.{ℕ, List};

    ghost Value = { List ℕ };

    ghost view = { λ n. n.words.items };
}

impl Numbers {
    /// No number is in the set.
    pub fn new(alloc: Global) -> Numbers
        ensures { result ≡ [] }
    {
        Numbers {
            words: Vec::new(alloc),
        }
    }

    /// The same set.
    pub fn try_clone(&self, alloc: Global) -> Result<Numbers, NoMemory>
        ensures { IfOk result (λ n. n ≡ self.now) }
    {
        Ok(Numbers {
            words: Vec::from_slice(alloc, &self.words)?,
        })
    }

    /// Makes the place of a number.
    pub fn reserve(&mut self, id: ChannelId) -> Result<(), NoMemory>
        ensures members { (n : ℕ) → is_member self.new n ≡ is_member self.old n }
        ensures ok { OnOk result (id / 64 < length self.new) }
    {
        let words = id as usize / 64 + 1;
        if self.words.len() < words {
            self.words.resize(words, 0)?;
        }
        Ok(())
    }

    /// Adds a number that has its place.
    pub fn insert(&mut self, id: ChannelId)
        requires { id / 64 < length self.old }
        ensures added { is_member self.new id ≡ true }
        ensures others { (n : ℕ) → n ≢ id → is_member self.new n ≡ is_member self.old n }
    {
        self.words[id as usize / 64] |= 1 << (id % 64);
    }

    /// A number goes.
    pub fn remove(&mut self, id: ChannelId)
        ensures gone { is_member self.new id ≡ false }
        ensures others { (n : ℕ) → n ≢ id → is_member self.new n ≡ is_member self.old n }
    {
        let word = id as usize / 64;
        if word < self.words.len() {
            self.words[word] &= !(1 << (id % 64));
        }
    }

    /// All numbers go.
    pub fn clear(&mut self)
        ensures { self.new ≡ [] }
    {
        self.words.clear();
    }

    /// The first number from one on and below another that is not in the set.
    pub fn first_absent(&self, from: u32, until: u32) -> Option<ChannelId>
        requires { until ≤ 2 ^ 16 }
        ensures first { result ≡ find (λ n. not (is_member self.now n)) (range_with_len from (until - from)) }
        ensures absent { IfSome result (λ id. is_member self.now id ≡ false) }
    {
        let mut id = from;
        'numbers: while id < until {
            let present = self.run_from(id);
            if present == 0 {
                return Some(id as ChannelId);
            }
            id += present;
        }
        None
    }

    // How many numbers from one on are in the set, up to the end of its word.
    fn run_from(&self, id: u32) -> u32
        requires { id < 2 ^ 16 }
        ensures small { result ≤ 64 }
        ensures present { (i : ℕ) → i < result → is_member self.now (id + i) ≡ true }
        ensures absent { result ≡ 0 → is_member self.now id ≡ false }
    {
        match self.words.get(id as usize / 64) {
            Some(word) => ones_from(*word, id % 64),
            None => 0,
        }
    }
}

// How many bits of a word are 1 from one on, until the first that is 0.
fn ones_from(word: u64, bit: u32) -> u32
    requires { bit < 64 }
    ensures within { bit + result ≤ 64 }
    ensures ones { (i : ℕ) → i < result → bit_at word (bit + i) ≡ 1 }
    ensures none { result ≡ 0 → bit_at word bit ≡ 0 }
{
    if word == u64::MAX {
        64 - bit
    } else {
        (word >> bit).trailing_ones()
    }
}
