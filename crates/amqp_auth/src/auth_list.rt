//! A list of what a provider answered.

ghost use Rattle.std.specs.Prelude.{◌≡◌, ◌+◌, ◌≤◌, [], ◌∷◌, ◌++◌, IsOk, IfOk, OnOk, OnErr};

use crate::asked::Asked;
use amqp_types::NoMemory;
use std::alloc::Global;
use std::marker::Model;

/// What a provider answered, in order, with spare places: what can be refused (`reserve`) comes before
/// the question, and what can't (`push`) after it.
#[derive(Debug, Drop)]
pub struct AuthList {
    list: Vec<Asked>,
    // how many may be pushed with no memory taken
    spare: usize,
}

impl Model for AuthList {
    ghost use Rattle.std.specs.Prelude.{◌+◌, ◌≤◌};
    ghost use Rattle.std.specs.Vec.{vec_len, vec_capacity};
    ghost use Rattle.amqp_auth.specs.AuthList.{Answers};

    ghost Value = { Answers };

    ghost view = { λ a. record { list = a.list.items; spare = a.spare } };

    ghost invariant = { λ a. vec_len a.list + a.spare ≤ vec_capacity a.list };
}

impl AuthList {
    /// No answer and no place, for which it takes no memory.
    pub fn new(alloc: Global) -> AuthList
        ensures { result ≡ record { list = []; spare = 0 } }
    {
        AuthList {
            list: Vec::new(alloc),
            spare: 0,
        }
    }

    /// The answers.
    pub fn as_slice(&self) -> &[Asked]
        ensures { result.now ≡ self.now.list }
    {
        &self.list
    }

    /// Sees to it that an answer can be pushed. It takes memory only where no place is spare.
    pub fn reserve(&mut self) -> Result<(), NoMemory>
        ensures kept { self.new.list ≡ self.old.list }
        ensures room { OnOk result (1 ≤ self.new.spare) }
        ensures err { OnErr result (self.new ≡ self.old) }
        ensures takes_no_memory { 1 ≤ self.old.spare → IsOk result }
        ensures not_lost { self.old.spare ≤ self.new.spare }
    {
        if self.spare == 0 {
            self.list.reserve(1)?;
            self.spare = self.list.capacity() - self.list.len();
        }
        Ok(())
    }

    /// Puts an answer last, into a spare place: it takes no memory.
    pub fn push(&mut self, asked: Asked)
        requires { 1 ≤ self.old.spare }
        ensures last { self.new.list ≡ self.old.list ++ asked ∷ [] }
        ensures spare { self.old.spare ≡ self.new.spare + 1 }
    {
        // There is a place, so that nothing is asked for and nothing refused.
        drop(self.list.push(asked));
        self.spare -= 1;
    }

    /// Forgets all answers, and keeps their places.
    pub fn clear(&mut self)
        ensures { self.new.list ≡ [] }
    {
        self.list.clear();
        self.spare = self.list.capacity();
    }

    /// Another list of equal answers. How many places are spare is left open.
    pub fn try_clone(&self, alloc: Global) -> Result<AuthList, NoMemory>
        ensures { IfOk result (λ copy. copy.list ≡ self.now.list) }
    {
        let mut list = Vec::with_capacity(alloc, self.list.len())?;
        for asked in &self.list {
            list.push(asked.try_clone(alloc)?)?;
        }
        let spare = list.capacity() - list.len();
        Ok(AuthList { list, spare })
    }
}
