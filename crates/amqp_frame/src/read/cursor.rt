//! A place in a view, from which fields are read.

ghost use Rattle.std.specs.Prelude.{◌≡◌, ◌↔◌, ◌+◌, ◌^◌, ◌<◌, ◌≤◌, [], length, slice_range, IsTrue, IfOk, IfErr};
ghost use Rattle.std.specs.Int.{w16, w32, w64};
ghost use Rattle.amqp_types.specs.Reading.{octet_at, octets_at, number_at, short_string_at, long_string_at};
ghost use Rattle.amqp_frame.specs.Reads.{Reads};

use crate::view::View;
use amqp_types::{LongString, NoMemory, ShortString};
use std::alloc::{AllocFailed, Global};
use std::marker::Model;

/// Why nothing could be read.
#[derive(Clone, Copy)]
pub enum Fault {
    /// No front of the octets spells what was looked for.
    Bad,
    /// Memory was refused.
    NoMemory,
}

impl From<NoMemory> for Fault {
    ghost use Rattle.std.specs.Prelude.{◌≡◌};
    ghost use Rattle.amqp_frame.specs.declared.read.cursor.Fault.TheVariants as faults;

    ghost from_gives = { λ _ e. e ≡ faults.NoMemory };

    fn from(_e: NoMemory) -> Fault {
        Fault::NoMemory
    }
}

impl<T: Drop> From<AllocFailed<T>> for Fault {
    ghost use Rattle.std.specs.Prelude.{◌≡◌};
    ghost use Rattle.amqp_frame.specs.declared.read.cursor.Fault.TheVariants as faults;

    ghost from_gives = { λ _ e. e ≡ faults.NoMemory };

    fn from(_e: AllocFailed<T>) -> Fault {
        Fault::NoMemory
    }
}

/// The octets of a view from one place to another.
#[derive(Drop)]
pub struct Cursor<'a, V: View> {
    view: &'a V,
    at: usize,
    end: usize,
}

impl<'a, V: View> Model for Cursor<'a, V> {
    ghost use Rattle.std.specs.Prelude.{ℕ, List, ◌≤◌, ◌-◌, take, drop, length};

    ghost Value = { List ℕ };

    ghost view = { λ c. take (c.end - c.at) (drop c.at (V.bytes c.view.now)) };

    ghost invariant = { λ c. (c.at ≤ c.end) × (c.end ≤ length (V.bytes c.view.now)) };
}

impl<'a, V: View> Cursor<'a, V> {
    /// All of the view.
    pub fn new(view: &'a V) -> Cursor<'a, V>
        ensures { result ≡ V.bytes view.now }
    {
        let end = view.len();
        Cursor { view, at: 0, end }
    }

    /// The same octets once more.
    pub fn again(&self) -> Cursor<'a, V>
        ensures { result ≡ self.now }
    {
        Cursor {
            view: self.view,
            at: self.at,
            end: self.end,
        }
    }

    /// How many octets are left.
    pub fn len(&self) -> usize
        ensures { result ≡ length self.now }
    {
        self.end - self.at
    }

    /// Whether none is left.
    pub fn is_empty(&self) -> bool
        ensures { IsTrue result ↔ (self.now ≡ []) }
    {
        self.at == self.end
    }

    /// One octet.
    pub fn octet(&mut self) -> Result<u8, Fault>
        ensures reads { Reads (λ n. n) result self.new (octet_at self.old) }
        ensures takes_no_memory { IfErr result (λ e. e ≡ Fault.Bad) }
    {
        if self.at == self.end {
            return Err(Fault::Bad);
        }
        let octet = self.view.at(self.at);
        self.at += 1;
        Ok(octet)
    }

    /// The next octets, so many, apart.
    pub fn split(&mut self, count: usize) -> Result<Cursor<'a, V>, Fault>
        ensures reads { Reads (λ front. front) result self.new (octets_at count self.old) }
        ensures takes_no_memory { IfErr result (λ e. e ≡ Fault.Bad) }
    {
        if self.end - self.at < count {
            return Err(Fault::Bad);
        }
        let front = Cursor {
            view: self.view,
            at: self.at,
            end: self.at + count,
        };
        self.at += count;
        Ok(front)
    }

    /// The octets that are left.
    pub fn to_vec(&self, alloc: Global) -> Result<Vec<u8>, NoMemory>
        ensures { IfOk result (λ v. v.items ≡ self.now) }
    {
        self.view.copy_range(alloc, self.at, self.end)
    }

    /// So many octets.
    pub fn octets<const N: usize>(&mut self) -> Result<[u8; N], Fault>
        ensures reads { Reads (λ a. a) result self.new (octets_at N self.old) }
        ensures takes_no_memory { IfErr result (λ e. e ≡ Fault.Bad) }
    {
        if self.end - self.at < N {
            return Err(Fault::Bad);
        }
        let octets = octets_of(self.view, self.at);
        self.at += N;
        Ok(octets)
    }

    /// A number of 16 bits, the highest octet first.
    pub fn number16(&mut self) -> Result<u16, Fault>
        ensures reads { Reads (λ n. n) result self.new (number_at w16 self.old) }
        ensures takes_no_memory { IfErr result (λ e. e ≡ Fault.Bad) }
    {
        Ok(u16::from_be_bytes(self.octets()?))
    }

    /// A number of 32 bits, the highest octet first.
    pub fn number32(&mut self) -> Result<u32, Fault>
        ensures reads { Reads (λ n. n) result self.new (number_at w32 self.old) }
        ensures takes_no_memory { IfErr result (λ e. e ≡ Fault.Bad) }
    {
        Ok(u32::from_be_bytes(self.octets()?))
    }

    /// A number of 64 bits, the highest octet first.
    pub fn number64(&mut self) -> Result<u64, Fault>
        ensures reads { Reads (λ n. n) result self.new (number_at w64 self.old) }
        ensures takes_no_memory { IfErr result (λ e. e ≡ Fault.Bad) }
    {
        Ok(u64::from_be_bytes(self.octets()?))
    }

    /// A short string.
    #[tactic(auto, unfolding(amqp_types::specs::Reading::short_string_at))]
    pub fn short_string(&mut self, alloc: Global) -> Result<ShortString, Fault>
        ensures { Reads (λ s. s) result self.new (short_string_at self.old) }
    {
        let length = self.octet()?;
        let content = self.split(length as usize)?;
        Ok(ShortString::from_vec(content.to_vec(alloc)?))
    }

    /// A long string.
    #[tactic(auto, unfolding(amqp_types::specs::Reading::long_string_at))]
    pub fn long_string(&mut self, alloc: Global) -> Result<LongString, Fault>
        ensures { Reads (λ s. s) result self.new (long_string_at self.old) }
    {
        let length = self.number32()?;
        let content = self.split(length as usize)?;
        Ok(LongString::from_vec(content.to_vec(alloc)?))
    }

    /// The octets behind an octet of length, apart.
    #[tactic(auto, unfolding(amqp_types::specs::Reading::short_string_at))]
    pub fn short_split(&mut self) -> Result<Cursor<'a, V>, Fault>
        ensures { Reads (λ content. content) result self.new (short_string_at self.old) }
    {
        let length = self.octet()?;
        self.split(length as usize)
    }

    /// The octets behind four octets of length, apart.
    #[tactic(auto, unfolding(amqp_types::specs::Reading::long_string_at))]
    pub fn long_split(&mut self) -> Result<Cursor<'a, V>, Fault>
        ensures { Reads (λ content. content) result self.new (long_string_at self.old) }
    {
        let length = self.number32()?;
        self.split(length as usize)
    }
}

// So many octets of a view, from a place on.
fn octets_of<V: View, const N: usize>(view: &V, start: usize) -> [u8; N]
    requires within { start + N ≤ length (V.bytes view.now) }
    requires small { start + N < 2 ^ 64 }
    ensures { result ≡ slice_range (V.bytes view.now) start (start + N) }
{
    let mut octets = [0; N];
    for index in 0..N {
        octets[index] = view.at(start + index);
    }
    octets
}
