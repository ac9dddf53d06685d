//! The replies that are awaited on one channel.

ghost use Rattle.std.specs.Prelude.{◌≡◌, ◌<◌, ◌==◌, ◌++◌, ◌∷◌, [], IfOk, IfSome, IfNone, OnOk, None, drop, find, is_some, length};
ghost use Rattle.std.specs.List.{AllByRecursion};
ghost use Rattle.std.specs.VecDeque.{deque_capacity};
ghost use Rattle.std.proofs.Props.{props};
ghost use Rattle.amqp_outbox.specs.Lists.{head, without_first, IsFirstAt};
ghost use Rattle.amqp_outbox.specs.Replies.{is_of};
ghost use Rattle.amqp_outbox.specs.Kinds.{IsMarked};

use crate::kinds::Kinds;
use crate::reply::{Awaited, Reply};
use amqp_types::NoMemory;
use std::alloc::Global;
use std::collections::VecDeque;

/// The replies that are awaited on one channel, in order.
#[derive(Debug, Drop)]
pub struct Replies {
    list: VecDeque<Awaited>,
    /// Which replies were put into this list, so that a server that sends others makes nobody walk a
    /// long list. None is ever taken out: a list that becomes empty goes as a whole.
    kinds: Kinds,
    ghost told: { AllByRecursion (IsMarked kinds) list.items } by { Prim.hlevel props },
}

impl Replies {
    /// None, with a place for one.
    pub fn with_place(alloc: Global) -> Result<Replies, NoMemory>
        ensures { IfOk result (λ r. (r.list.items ≡ []) × (length r.list.items < deque_capacity r.list)) }
    {
        Ok(Replies {
            list: VecDeque::with_capacity(alloc, 1)?,
            kinds: Kinds::none(),
        })
    }

    /// Makes a place for one more.
    pub fn reserve(&mut self) -> Result<(), NoMemory>
        ensures items { self.new.list.items ≡ self.old.list.items }
        ensures place { OnOk result (length self.new.list.items < deque_capacity self.new.list) }
    {
        self.list.reserve(1)?;
        Ok(())
    }

    /// One more is awaited, where it has its place.
    pub fn push_reserved(&mut self, awaited: Awaited)
        requires { length self.old.list.items < deque_capacity self.old.list }
        ensures { self.new.list.items ≡ self.old.list.items ++ awaited ∷ [] }
    {
        self.kinds.mark(awaited.reply);
        self.list.push_back_reserved(awaited);
    }

    /// Whether none is awaited.
    pub fn is_empty(&self) -> bool
        ensures { result ≡ (length self.now.list.items == 0) }
    {
        self.list.is_empty()
    }

    /// Whether one awaits this reply.
    pub fn awaits(&self, reply: Reply) -> bool
        ensures { result ≡ is_some (find (is_of reply) self.now.list.items) }
    {
        self.place_of(reply).is_some()
    }

    /// Takes out the first that awaits this reply.
    pub fn take(&mut self, reply: Reply) -> Option<Awaited>
        ensures first { result ≡ find (is_of reply) self.old.list.items }
        ensures rest { self.new.list.items ≡ without_first (is_of reply) self.old.list.items }
    {
        let place = self.place_of(reply)?;
        self.list.remove(place)
    }

    // The place of the first that awaits this reply.
    fn place_of(&self, reply: Reply) -> Option<usize>
        ensures place { IfSome result (λ i. IsFirstAt (is_of reply) i self.now.list.items) }
        ensures none { IfNone result (find (is_of reply) self.now.list.items ≡ None) }
    {
        if !self.kinds.has(reply) {
            return None;
        }
        for i in 0..self.list.len() {
            if self.list[i].is_of(reply) {
                return Some(i);
            }
        }
        None
    }

    /// Takes out the first.
    pub fn next(&mut self) -> Option<Awaited>
        ensures first { result ≡ head self.old.list.items }
        ensures rest { self.new.list.items ≡ drop 1 self.old.list.items }
    {
        self.list.pop_front()
    }

    /// The same replies in the same order.
    pub fn try_clone(&self, alloc: Global) -> Result<Replies, NoMemory>
        ensures { IfOk result (λ r. r.list.items ≡ self.now.list.items) }
    {
        let mut list = VecDeque::with_capacity(alloc, self.list.len())?;
        for awaited in &self.list {
            list.push_back(*awaited)?;
        }
        Ok(Replies {
            list,
            kinds: self.kinds,
        })
    }
}
