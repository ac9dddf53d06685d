//! The numbers of what waits, by key.

ghost use Rattle.std.specs.Prelude.{◌≡◌, ℕ, suc, ◌+◌, ◌<◌, ◌≤◌, ◌==◌, ◌++◌, ◌∷◌, [], IfSome, IfOk, OnOk, IsTrue, if◌then◌else◌, drop, length};
ghost use Rattle.std.specs.VecDeque.{deque_capacity};
ghost use Rattle.amqp_outbox.specs.Lists.{head, is_the_number};
ghost use Rattle.amqp_outbox.specs.Order.{listed, HasRoom};

use amqp_types::NoMemory;
use std::alloc::Global;
use std::collections::{BTreeMap, VecDeque};

/// The numbers of one key, in order.
#[derive(Debug, Drop)]
pub struct Queue {
    numbers: VecDeque<u64>,
}

impl Queue {
    // None, with room for so many.
    fn with_room(alloc: Global, numbers: usize) -> Result<Queue, NoMemory>
        ensures { IfOk result (λ q. (q.numbers.items ≡ []) × (numbers ≤ deque_capacity q.numbers)) }
    {
        Ok(Queue {
            numbers: VecDeque::with_capacity(alloc, numbers)?,
        })
    }

    fn reserve(&mut self, numbers: usize) -> Result<(), NoMemory>
        ensures items { self.new.numbers.items ≡ self.old.numbers.items }
        ensures ok { OnOk result (length self.old.numbers.items + numbers ≤ deque_capacity self.new.numbers) }
    {
        self.numbers.reserve(numbers)?;
        Ok(())
    }

    fn push_reserved(&mut self, number: u64)
        requires { length self.old.numbers.items < deque_capacity self.old.numbers }
        ensures items { self.new.numbers.items ≡ self.old.numbers.items ++ number ∷ [] }
        ensures kept { deque_capacity self.new.numbers ≡ deque_capacity self.old.numbers }
    {
        self.numbers.push_back_reserved(number);
    }

    fn take_first(&mut self) -> Option<u64>
        ensures first { result ≡ head self.old.numbers.items }
        ensures rest { self.new.numbers.items ≡ drop 1 self.old.numbers.items }
        ensures kept { deque_capacity self.new.numbers ≡ deque_capacity self.old.numbers }
    {
        self.numbers.pop_front()
    }

    fn is_empty(&self) -> bool
        ensures { result ≡ (length self.now.numbers.items == 0) }
    {
        self.numbers.len() == 0
    }
}

/// Numbers by key, in order.
#[derive(Debug, Drop)]
pub struct Numbers {
    alloc: Global,
    lists: BTreeMap<u16, Queue>,
}

impl Numbers {
    /// No number is listed.
    pub fn new(alloc: Global) -> Numbers
        ensures { (k : ℕ) → listed k result.lists.entries ≡ [] }
    {
        Numbers {
            alloc,
            lists: BTreeMap::new(alloc),
        }
    }

    /// Makes room for so many numbers more under a key, where there is one.
    pub fn reserve(&mut self, key: Option<u16>, numbers: usize) -> Result<(), NoMemory>
        ensures same { (k : ℕ) → listed k self.new.lists.entries ≡ listed k self.old.lists.entries }
        ensures room { OnOk result (IfSome key (λ k. HasRoom k numbers self.new.lists.entries)) }
    {
        match key {
            Some(key) => self.reserve_under(key, numbers),
            None => Ok(()),
        }
    }

    fn reserve_under(&mut self, key: u16, numbers: usize) -> Result<(), NoMemory>
        ensures same { (k : ℕ) → listed k self.new.lists.entries ≡ listed k self.old.lists.entries }
        ensures room { OnOk result (HasRoom key numbers self.new.lists.entries) }
    {
        match self.lists.get_mut(&key) {
            Some(queue) => queue.reserve(numbers),
            None => {
                let queue = Queue::with_room(self.alloc, numbers)?;
                drop(self.lists.insert(key, queue)?);
                Ok(())
            }
        }
    }

    /// A number goes last under its key, where it has one.
    pub fn push_reserved(&mut self, key: Option<u16>, number: u64)
        requires { IfSome key (λ k. HasRoom k 1 self.old.lists.entries) }
        ensures listed { (k : ℕ) → listed k self.new.lists.entries
            ≡ (if is_the_number k key then listed k self.old.lists.entries ++ number ∷ []
            else listed k self.old.lists.entries) }
        ensures room { (n : ℕ) → IfSome key (λ k. HasRoom k (suc n) self.old.lists.entries)
            → IfSome key (λ k. HasRoom k n self.new.lists.entries) }
    {
        if let Some(key) = key {
            self.push_under(key, number);
        }
    }

    fn push_under(&mut self, key: u16, number: u64)
        requires { HasRoom key 1 self.old.lists.entries }
        ensures listed { (k : ℕ) → listed k self.new.lists.entries
            ≡ (if key == k then listed k self.old.lists.entries ++ number ∷ [] else listed k self.old.lists.entries) }
        ensures room { (n : ℕ) → HasRoom key (suc n) self.old.lists.entries → HasRoom key n self.new.lists.entries }
    {
        if let Some(queue) = self.lists.get_mut(&key) {
            queue.push_reserved(number);
        }
    }

    /// Takes out the first number of a key. The room that was made stays.
    pub fn take_first(&mut self, key: u16) -> Option<u64>
        ensures first { result ≡ head (listed key self.old.lists.entries) }
        ensures rest { (k : ℕ) → listed k self.new.lists.entries
            ≡ (if key == k then drop 1 (listed k self.old.lists.entries) else listed k self.old.lists.entries) }
        ensures room { (k n : ℕ) → HasRoom k n self.old.lists.entries → HasRoom k n self.new.lists.entries }
    {
        match self.lists.get_mut(&key) {
            Some(queue) => queue.take_first(),
            None => None,
        }
    }

    /// Forgets the first number of a key, where there is one. A key without numbers has no list then.
    pub fn forget_first(&mut self, key: Option<u16>)
        ensures { (k : ℕ) → listed k self.new.lists.entries
            ≡ (if is_the_number k key then drop 1 (listed k self.old.lists.entries)
            else listed k self.old.lists.entries) }
    {
        if let Some(key) = key {
            let _ = self.take_first(key);
            self.tidy(key);
        }
    }

    /// A key without numbers has no list.
    pub fn tidy(&mut self, key: u16)
        ensures { (k : ℕ) → listed k self.new.lists.entries ≡ listed k self.old.lists.entries }
    {
        if self.is_idle(key) {
            drop(self.lists.remove(&key));
        }
    }

    fn is_idle(&self, key: u16) -> bool
        ensures { IsTrue result → listed key self.now.lists.entries ≡ [] }
    {
        match self.lists.get(&key) {
            Some(queue) => queue.is_empty(),
            None => false,
        }
    }

    /// Forgets all numbers.
    pub fn clear(&mut self)
        ensures { (k : ℕ) → listed k self.new.lists.entries ≡ [] }
    {
        self.lists.clear();
    }
}
