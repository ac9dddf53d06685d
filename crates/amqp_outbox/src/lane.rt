//! A lane: what waits, in order, of which the first of a kind is found at once.

ghost use Rattle.std.specs.Prelude.{◌≡◌, ℕ, suc, ◌+◌, ◌<◌, ◌≤◌, ◌^◌, ◌++◌, ◌∷◌, [], Option, None, Some, IsSome, IfOk, IfSome, OnOk, option_copied, option_to_list, drop, find};
ghost use Rattle.std.proofs.Props.{props};
ghost use Rattle.amqp_outbox.specs.Lists.{head, without_first};
ghost use Rattle.amqp_outbox.specs.Listed.{at};
ghost use Rattle.amqp_outbox.specs.Order.{held, waiting, listed, has_key, IsSoundLane, HasSlots, HasPlaces};

use crate::numbers::Numbers;
use amqp_types::NoMemory;
use std::alloc::Global;
use std::collections::BTreeMap;

/// What may have a key, by which the first of its kind is found.
pub trait Keyed: Drop {
    ghost key_of: { Self → Option ℕ };

    /// Its key, where it has one.
    fn key(&self) -> Option<u16>
        ensures { result ≡ key_of self.now };

    /// An equal thing.
    fn copied(&self, alloc: Global) -> Result<Self, NoMemory>
        ensures { IfOk result (λ t. t ≡ self.now) };
}

/// Things that wait, in order. Each has a number, one more than the thing before it got.
#[derive(Debug, Drop)]
pub struct Lane<T: Keyed> {
    /// The number of the next thing.
    made: u64,
    /// The things, and from `made` on the places that are made for more.
    slots: BTreeMap<u64, Option<T>>,
    /// The numbers of the things that have a key.
    numbers: Numbers,
    ghost sound: { IsSoundLane T.key_of made slots.entries numbers.lists.entries } by { Prim.hlevel props },
}

impl<T: Keyed> Lane<T> {
    /// Nothing waits.
    pub fn new(alloc: Global) -> Lane<T>
        ensures { waiting result.slots.entries ≡ [] }
    {
        Lane {
            made: 0,
            slots: BTreeMap::new(alloc),
            numbers: Numbers::new(alloc),
        }
    }

    /// Makes places for so many things more, under a key or none. The count stays within its type.
    pub fn reserve(&mut self, key: Option<u16>, things: usize) -> Result<(), NoMemory>
        ensures same { waiting self.new.slots.entries ≡ waiting self.old.slots.entries }
        ensures places { OnOk result
            (HasPlaces key things self.new.made self.new.slots.entries self.new.numbers.lists.entries) }
    {
        if u64::MAX - self.made < things as u64 {
            return Err(NoMemory);
        }
        self.numbers.reserve(key, things)?;
        self.reserve_slots(things)
    }

    fn reserve_slots(&mut self, things: usize) -> Result<(), NoMemory>
        requires { self.old.made + things < 2 ^ 64 }
        ensures made { self.new.made ≡ self.old.made }
        ensures same { waiting self.new.slots.entries ≡ waiting self.old.slots.entries }
        ensures numbers { self.new.numbers ≡ self.old.numbers }
        ensures count { self.new.made + things < 2 ^ 64 }
        ensures slots { OnOk result (HasSlots self.new.made things self.new.slots.entries) }
    {
        for i in 0..things {
            self.reserve_slot(self.made + i as u64)?;
        }
        Ok(())
    }

    fn reserve_slot(&mut self, number: u64) -> Result<(), NoMemory>
        requires { self.old.made ≤ number }
        ensures made { self.new.made ≡ self.old.made }
        ensures same { waiting self.new.slots.entries ≡ waiting self.old.slots.entries }
        ensures numbers { self.new.numbers ≡ self.old.numbers }
        ensures slot { OnOk result (IsSome (at number self.new.slots.entries)) }
        ensures kept { (n : ℕ) → IsSome (at n self.old.slots.entries) → IsSome (at n self.new.slots.entries) }
    {
        if self.slots.contains_key(&number) {
            return Ok(());
        }
        drop(self.slots.insert(number, None)?);
        Ok(())
    }

    /// A thing goes last, where it has its place.
    pub fn push_reserved(&mut self, thing: T)
        requires { HasPlaces (T.key_of thing) 1 self.old.made self.old.slots.entries self.old.numbers.lists.entries }
        ensures waiting { waiting self.new.slots.entries ≡ waiting self.old.slots.entries ++ thing ∷ [] }
        ensures places { (n : ℕ)
            → HasPlaces (T.key_of thing) (suc n) self.old.made self.old.slots.entries self.old.numbers.lists.entries
            → HasPlaces (T.key_of thing) n self.new.made self.new.slots.entries self.new.numbers.lists.entries }
    {
        let number = self.made;
        self.numbers.push_reserved(thing.key(), number);
        self.made += 1;
        match self.slots.get_mut(&number) {
            Some(place) => fill(place, thing),
            None => drop(thing),
        }
    }

    /// The first thing, where there is one.
    pub fn front(&self) -> Option<&T>
        ensures { option_copied result ≡ head (waiting self.now.slots.entries) }
    {
        // Its clause tells that the numbers ascend.
        let _ = self.slots.len();
        match self.slots.first_key_value() {
            Some((_, slot)) => slot.as_ref(),
            None => None,
        }
    }

    /// Takes out the first thing.
    pub fn next(&mut self) -> Option<T>
        ensures first { result ≡ head (waiting self.old.slots.entries) }
        ensures rest { waiting self.new.slots.entries ≡ drop 1 (waiting self.old.slots.entries) }
    {
        let _ = self.slots.len();
        let (_, slot) = self.slots.pop_first()?;
        let thing = slot?;
        self.numbers.forget_first(thing.key());
        Some(thing)
    }

    /// Takes out the first thing under a key. The places that were made stay.
    pub fn take(&mut self, key: u16) -> Option<T>
        ensures first { result ≡ find (has_key T.key_of key) (waiting self.old.slots.entries) }
        ensures rest { waiting self.new.slots.entries
            ≡ without_first (has_key T.key_of key) (waiting self.old.slots.entries) }
        ensures places { (k : Option ℕ) (n : ℕ)
            → HasPlaces k n self.old.made self.old.slots.entries self.old.numbers.lists.entries
            → HasPlaces k n self.new.made self.new.slots.entries self.new.numbers.lists.entries }
    {
        let _ = self.slots.len();
        let number = self.numbers.take_first(key)?;
        match self.slots.remove(&number) {
            Some(slot) => slot,
            None => None,
        }
    }

    /// Lets go of the room under a key, where nothing waits under it.
    pub fn tidy(&mut self, key: u16)
        ensures { waiting self.new.slots.entries ≡ waiting self.old.slots.entries }
    {
        self.numbers.tidy(key);
    }

    /// Equal things in the same order. Places that were made are not copied.
    pub fn try_clone(&self, alloc: Global) -> Result<Lane<T>, NoMemory>
        ensures { IfOk result (λ l. waiting l.slots.entries ≡ waiting self.now.slots.entries) }
    {
        let mut copy = Lane::new(alloc);
        for (_, slot) in &self.slots {
            copy.push_copy(alloc, slot)?;
        }
        Ok(copy)
    }

    // A thing equal to that of a slot goes last, where the slot holds one.
    fn push_copy(&mut self, alloc: Global, slot: &Option<T>) -> Result<(), NoMemory>
        ensures { OnOk result (waiting self.new.slots.entries
            ≡ waiting self.old.slots.entries ++ option_to_list slot.now) }
    {
        match slot {
            Some(thing) => self.push(thing.copied(alloc)?),
            None => Ok(()),
        }
    }

    fn push(&mut self, thing: T) -> Result<(), NoMemory>
        ensures { OnOk result (waiting self.new.slots.entries ≡ waiting self.old.slots.entries ++ thing ∷ []) }
    {
        if let Err(refused) = self.reserve(thing.key(), 1) {
            drop(thing);
            return Err(refused);
        }
        self.push_reserved(thing);
        Ok(())
    }

    /// Nothing waits any more.
    pub fn clear(&mut self)
        ensures { waiting self.new.slots.entries ≡ [] }
    {
        self.slots.clear();
        self.numbers.clear();
    }
}

fn fill<T: Drop>(place: &mut Option<T>, thing: T)
    ensures { place.new ≡ Some thing }
{
    *place = Some(thing);
}
