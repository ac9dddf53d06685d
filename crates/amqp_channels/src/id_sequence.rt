//! Numbers that are given one after another, in a cycle.

ghost use Rattle.std.specs.Prelude.{◌≡◌, ◌≤◌, ◌↔◌, ℕ, ◌==◌, if◌then◌else◌, None, Some, IsNone, IsTrue, option_map};
ghost use Rattle.std.proofs.Common.{rules};
ghost use Rattle.amqp_channels.specs.Sequence.{last_number, number_up_to, next_number, passed, go_on, current_number};

use std::marker::Model;

/// An unsigned type whose numbers a sequence gives.
pub trait Id: Copy {
    /// The greatest number of the type.
    const GREATEST: u32;

    ghost GREATEST: { ℕ };

    ghost number: { Self → ℕ };

    /// The same number in the widest type.
    fn number(self) -> u32
        ensures number { result ≡ number self }
        ensures greatest { result ≤ GREATEST };

    /// The same number in this type.
    fn from_number(n: u32) -> Self
        requires { n ≤ GREATEST }
        ensures { number result ≡ n };

    ghost has_one: { 1 ≤ GREATEST };
}

impl Id for u8 {
    const GREATEST: u32 = u8::MAX as u32;

    ghost GREATEST = { 255 };

    ghost number = { λ n. n };

    fn number(self) -> u32 {
        self as u32
    }

    fn from_number(n: u32) -> u8 {
        n as u8
    }

    ghost has_one = { Prim.search rules };
}

impl Id for u16 {
    const GREATEST: u32 = u16::MAX as u32;

    ghost GREATEST = { 65535 };

    ghost number = { λ n. n };

    fn number(self) -> u32 {
        self as u32
    }

    fn from_number(n: u32) -> u16 {
        n as u16
    }

    ghost has_one = { Prim.search rules };
}

impl Id for u32 {
    const GREATEST: u32 = u32::MAX;

    ghost GREATEST = { 4294967295 };

    ghost number = { λ n. n };

    fn number(self) -> u32 {
        self
    }

    fn from_number(n: u32) -> u32 {
        n
    }

    ghost has_one = { Prim.search rules };
}

/// Numbers that are given one after another, in a cycle: from 0 or 1 to the maximum, or to the greatest number of the
/// type where there is none.
#[derive(Debug, Drop)]
pub struct IdSequence<T: Id> {
    allow_zero: bool,
    maximum: Option<T>,
    cursor: T,
}

impl<T: Id> Model for IdSequence<T> {
    ghost use Rattle.std.specs.Prelude.{◌≤◌, option_map};
    ghost use Rattle.std.specs.Option.{ForSome};
    ghost use Rattle.amqp_channels.specs.Sequence.{Sequence};

    ghost Value = { Sequence };

    ghost view = { λ s. record {
      allow_zero = s.allow_zero;
      maximum = option_map T.number s.maximum;
      cursor = T.number s.cursor;
    } };

    // A maximum of 0 is none.
    ghost invariant = { λ s. ForSome s.maximum (λ maximum. 1 ≤ T.number maximum) };
}

impl<T: Id> IdSequence<T> {
    /// A new sequence, without a maximum.
    pub fn new(allow_zero: bool) -> IdSequence<T>
        ensures { result ≡ record { allow_zero = allow_zero; maximum = None; cursor = 0 } }
    {
        IdSequence {
            allow_zero,
            maximum: None,
            cursor: T::from_number(0),
        }
    }

    /// The same sequence.
    pub(crate) fn copied(&self) -> IdSequence<T>
        ensures { result ≡ self.now }
    {
        IdSequence {
            allow_zero: self.allow_zero,
            maximum: self.maximum,
            cursor: self.cursor,
        }
    }

    /// The number before the cursor, which is the one that was given last. Where the cursor is 0, as in a new sequence
    /// and at the end of a cycle, it is the maximum, if there is one.
    pub fn current(&self) -> Option<T>
        ensures number { option_map T.number result ≡ current_number self.now }
        ensures none { IsNone result ↔ ((self.now.cursor ≡ 0) × (self.now.maximum ≡ None)) }
    {
        match self.cursor.number() {
            0 => self.maximum,
            cursor => Some(T::from_number(cursor - 1)),
        }
    }

    /// The cursor, from which the next number is given.
    pub(crate) fn cursor(&self) -> T
        ensures { T.number result ≡ self.now.cursor }
    {
        self.cursor
    }

    /// Sets the maximum, where 0 is none. The cursor stays.
    pub fn set_max(&mut self, max: T)
        ensures { self.new ≡ record self.old { maximum = if T.number max == 0 then None else Some (T.number max) } }
    {
        self.maximum = if max.number() == 0 { None } else { Some(max) };
    }

    /// The next number.
    pub fn next(&mut self) -> T
        ensures number { T.number result ≡ next_number T.GREATEST self.old }
        ensures after { self.new ≡ go_on T.GREATEST self.old }
        ensures within { T.number result ≤ last_number T.GREATEST self.old }
        ensures zero { T.number result ≡ 0 → IsTrue self.old.allow_zero }
    {
        let last = self.last_number();
        let number = self.next_up_to(last);
        self.pass(last, number);
        number
    }

    // The last number of a cycle.
    fn last_number(&self) -> T
        ensures number { T.number result ≡ last_number T.GREATEST self.now }
        ensures positive { 1 ≤ T.number result }
    {
        match self.maximum {
            Some(maximum) => maximum,
            None => T::from_number(T::GREATEST),
        }
    }

    /// The number that is given next, in a cycle up to a last one.
    pub(crate) fn next_up_to(&self, last: T) -> T
        ensures number { T.number result ≡ number_up_to (T.number last) self.now }
        ensures within { 1 ≤ T.number last → T.number result ≤ T.number last }
        ensures zero { T.number result ≡ 0 → IsTrue self.now.allow_zero }
    {
        let cursor = self.cursor.number();
        if cursor != 0 && cursor <= last.number() {
            self.cursor
        } else if self.allow_zero {
            T::from_number(0)
        } else {
            T::from_number(1)
        }
    }

    /// The cursor goes on after a number, in a cycle up to a last one.
    pub(crate) fn pass(&mut self, last: T, number: T)
        ensures { self.new ≡ passed (T.number last) (T.number number) self.old }
    {
        let number = number.number();
        let after = if number < last.number() {
            number + 1
        } else {
            0
        };
        self.cursor = T::from_number(after);
    }
}
