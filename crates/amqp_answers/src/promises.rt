//! The promises of a session, by number.

ghost use Rattle.std.specs.Prelude.{◌≡◌, ◌≢◌, ◌+◌, ◌-◌, ◌<◌, ◌≤◌, ◌^◌, ℕ, [], None, Some, Err, IsSome, IsTrue, IfOk, OnOk, OnErr};
ghost use Rattle.std.proofs.Props.{props};
ghost use Rattle.amqp_maps.specs.Listed.{at, put, without};
ghost use Rattle.amqp_answers.specs.Sharing.{shared_at, holders_at, holds, holds_any, is_error_awaited, waits, any_waits, new_slot, AreCounted, KeepsHeld, FreesUnheld, AwaitsLoss, AllSuit};

use crate::answer::Answer;
use crate::shared_errors::SharedErrors;
use amqp_maps::{Copied, by_number};
use amqp_promise::ErrorKind;
use amqp_types::NoMemory;
use std::alloc::Global;
use std::collections::BTreeMap;
use std::mem;

/// What has become of a promise whose answer was not taken.
#[derive(Drop)]
pub enum Slot {
    /// It is not made yet, but has its place.
    Place,
    /// It waits, whatever becomes of the link.
    Waiting,
    Answered(amqp_promise::Result<Answer>),
    /// It is answered with the shared error of this number, and waits while that is awaited.
    Shared(u64),
}

/// Why promises are rejected: an error that is kept for them.
#[derive(Drop)]
pub struct Why {
    number: u64,
}

/// How many promises were made, and those whose answer was not taken.
#[derive(Drop)]
pub struct Promises {
    made: u64,
    slots: BTreeMap<u64, Slot>,
    /// The errors that answer several of them.
    errors: SharedErrors,
    /// The number of the error by which the link will be lost, which is awaited: each promise that
    /// waits shares it, but that of the connection, number 0.
    loss: Option<u64>,
    ghost counted: { AreCounted slots.entries errors.errors.entries } by { Prim.hlevel props },
    ghost awaited: { AwaitsLoss loss errors.errors.entries } by { Prim.hlevel props },
    ghost suited: { AllSuit slots.entries errors.errors.entries } by { Prim.hlevel props },
}

impl Promises {
    ghost use Rattle.std.specs.Prelude.{◌↔◌};
    ghost use Rattle.std.specs.Option.{option_flatten};
    ghost use Rattle.amqp_answers.specs.Settled.{settled, settled_to, rejected_all, IsRejected};
    ghost use Rattle.amqp_answers.specs.Seen.{made_in, promised, error_of, holders_of, HasPlace, HasWhy, FreesErrors};

    /// No promise was made.
    pub fn new(alloc: Global) -> Promises
        ensures made { made_in result ≡ 0 }
        ensures none { promised result ≡ [] }
    {
        Promises {
            made: 0,
            slots: BTreeMap::new(alloc),
            errors: SharedErrors::new(alloc),
            loss: None,
        }
    }

    /// The same promises, with equal answers.
    pub fn try_clone(&self, alloc: Global) -> Result<Promises, NoMemory>
        ensures made { IfOk result (λ p. made_in p ≡ made_in self.now) }
        ensures slots { IfOk result (λ p. promised p ≡ promised self.now) }
    {
        // An error that several share is shared by their copies.
        let slots = by_number(alloc, &self.slots)?;
        let errors = self.errors.try_clone(alloc)?;
        Ok(Promises {
            made: self.made,
            slots,
            errors,
            loss: self.loss,
        })
    }

    /// How many were made.
    pub fn made(&self) -> u64
        ensures { result ≡ made_in self.now }
    {
        self.made
    }

    /// Makes a place for one more, and for the error that it shares. Their count stays within its type.
    pub fn reserve(&mut self) -> Result<(), NoMemory>
        ensures made { made_in self.new ≡ made_in self.old }
        ensures slots { promised self.new ≡ promised self.old }
        ensures place { OnOk result (HasPlace self.new) }
        ensures count { OnOk result (made_in self.new + 1 < 2 ^ 64) }
        ensures whys { (why : Why) → error_of why self.new ≡ error_of why self.old }
    {
        if self.made == u64::MAX {
            return Err(NoMemory);
        }
        self.reserve_slot()?;
        self.reserve_loss()
    }

    // Makes a place for one more.
    fn reserve_slot(&mut self) -> Result<(), NoMemory>
        ensures made { made_in self.new ≡ made_in self.old }
        ensures slots { promised self.new ≡ promised self.old }
        ensures slot { OnOk result (IsSome (at self.new.made self.new.slots.entries)) }
        ensures whys { (why : Why) → error_of why self.new ≡ error_of why self.old }
    {
        if self.slots.contains_key(&self.made) {
            return Ok(());
        }
        drop(self.slots.insert(self.made, Slot::Place)?);
        Ok(())
    }

    // Makes a place for the error by which the link will be lost, where there is none.
    fn reserve_loss(&mut self) -> Result<(), NoMemory>
        ensures made { made_in self.new ≡ made_in self.old }
        ensures slots { promised self.new ≡ promised self.old }
        ensures slot { IsSome (at self.old.made self.old.slots.entries)
            → IsSome (at self.new.made self.new.slots.entries) }
        ensures loss { OnOk result (IsSome self.new.loss) }
        ensures whys { (why : Why) → error_of why self.new ≡ error_of why self.old }
    {
        if self.loss.is_none() {
            self.loss = Some(self.errors.put(None)?);
        }
        Ok(())
    }

    /// One more is made, which waits.
    pub fn promise_reserved(&mut self)
        requires place { HasPlace self.old }
        requires count { made_in self.old + 1 < 2 ^ 64 }
        ensures made { made_in self.new ≡ made_in self.old + 1 }
        ensures slots { promised self.new ≡ put (made_in self.old) None (promised self.old) }
    {
        let number = self.made;
        self.made += 1;
        let _ = self.slots.len();
        let slot = new_slot(number, self.loss, &mut self.errors);
        if let Some(place) = self.slots.get_mut(&number) {
            let old = place.replace(slot);
            let_go_of(&mut self.errors, Some(old));
        }
    }

    /// One more is made, which is answered at once with an error.
    pub fn refuse(&mut self, kind: ErrorKind) -> Result<(), NoMemory>
        ensures made { OnOk result (made_in self.new ≡ made_in self.old + 1) }
        ensures slots { OnOk result (promised self.new ≡ put (made_in self.old) (Some (Err kind)) (promised self.old)) }
        ensures same { OnErr result (made_in self.new ≡ made_in self.old) }
        ensures err { OnErr result (promised self.new ≡ promised self.old) }
    {
        if self.made == u64::MAX {
            drop(kind);
            return Err(NoMemory);
        }
        let slot = Slot::Answered(Err(kind.into()));
        let old = self.slots.insert(self.made, slot)?;
        let_go_of(&mut self.errors, old);
        self.made += 1;
        Ok(())
    }

    /// A promise that waits gets this answer.
    pub fn settle(&mut self, number: u64, answer: amqp_promise::Result<Answer>)
        ensures made { made_in self.new ≡ made_in self.old }
        ensures slots { promised self.new ≡ settled number answer (promised self.old) }
        ensures place { HasPlace self.old → HasPlace self.new }
        ensures whys { (why : Why) → error_of why self.new ≡ error_of why self.old }
    {
        match self.slots.get_mut(&number) {
            Some(slot) => slot.settle(answer, &mut self.errors),
            None => drop(answer),
        }
    }

    /// Where a promise is named, it gets this error as its answer, where it waits.
    pub fn reject(&mut self, promise: Option<u64>, kind: ErrorKind)
        ensures made { made_in self.new ≡ made_in self.old }
        ensures slots { promised self.new ≡ settled_to promise (Err kind) (promised self.old) }
        ensures place { HasPlace self.old → HasPlace self.new }
        ensures whys { (why : Why) → error_of why self.new ≡ error_of why self.old }
    {
        match promise {
            Some(number) => self.settle(number, Err(kind.into())),
            None => drop(kind),
        }
    }

    /// Keeps an error for all promises that will be rejected with it. It is let go in the end. Reasons that
    /// were kept before stay.
    pub fn why(&mut self, kind: ErrorKind) -> Result<Why, NoMemory>
        ensures made { made_in self.new ≡ made_in self.old }
        ensures slots { promised self.new ≡ promised self.old }
        ensures place { HasPlace self.old → HasPlace self.new }
        ensures whys { (other : Why) (e : ErrorKind) → HasWhy other e self.old → HasWhy other e self.new }
        ensures why { IfOk result (λ why. HasWhy why kind self.new) }
    {
        Ok(Why {
            number: self.errors.put(Some(kind.into()))?,
        })
    }

    // A promise that waits is rejected for this reason. No memory is taken.
    fn settle_with(&mut self, number: u64, why: &Why)
        ensures made { made_in self.new ≡ made_in self.old }
        ensures slots { (e : ErrorKind) → HasWhy why.now e self.old
            → promised self.new ≡ settled number (Err e) (promised self.old) }
        ensures none { error_of why.now self.old ≡ None → promised self.new ≡ promised self.old }
        ensures place { HasPlace self.old → HasPlace self.new }
        ensures whys { (why : Why) → error_of why self.new ≡ error_of why self.old }
    {
        let _ = self.slots.len();
        match self.slots.get_mut(&number) {
            Some(slot) => slot.share(why.number, &mut self.errors),
            None => {}
        }
    }

    /// Where a promise is named, it is rejected for this reason, where it waits and the reason is kept. No
    /// memory is taken.
    pub fn reject_with(&mut self, promise: Option<u64>, why: &Why)
        ensures made { made_in self.new ≡ made_in self.old }
        ensures slots { (e : ErrorKind) → HasWhy why.now e self.old
            → promised self.new ≡ settled_to promise (Err e) (promised self.old) }
        ensures none { error_of why.now self.old ≡ None → promised self.new ≡ promised self.old }
        ensures place { HasPlace self.old → HasPlace self.new }
        ensures whys { (why : Why) → error_of why self.new ≡ error_of why self.old }
    {
        if let Some(number) = promise {
            self.settle_with(number, why);
        }
    }

    /// A reason goes. Its error stays where a promise holds it, and else goes too. Other reasons stay.
    pub fn let_go(&mut self, why: Why)
        ensures made { made_in self.new ≡ made_in self.old }
        ensures slots { promised self.new ≡ promised self.old }
        ensures place { HasPlace self.old → HasPlace self.new }
        ensures freed { holders_of why self.new ≡ 0 → error_of why self.new ≡ None }
        ensures whys { (other : Why) (e : ErrorKind) → other ≢ why → HasWhy other e self.old → HasWhy other e self.new }
    {
        self.errors.tidy(why.number);
    }

    /// The link is lost: each promise that waits, but that of the connection, number 0, is rejected with
    /// this error. No memory is taken.
    pub fn reject_all(&mut self, kind: ErrorKind)
        ensures made { made_in self.new ≡ made_in self.old }
        ensures slots { promised self.new ≡ rejected_all kind (promised self.old) }
    {
        let _ = self.slots.len();
        match self.loss.take() {
            Some(number) => {
                self.errors.fill(number, kind.into());
                self.errors.tidy(number);
            }
            None => drop(kind),
        }
    }

    /// Whether a promise waits.
    pub fn waits(&self, number: u64) -> bool
        ensures { IsTrue result ↔ at number (promised self.now) ≡ Some None }
    {
        let _ = self.slots.len();
        match self.slots.get(&number) {
            Some(slot) => slot.waits(&self.errors),
            None => false,
        }
    }

    /// The answer to a promise, where there is one that was not taken; an Err where memory for its copy
    /// was refused.
    pub fn answer(
        &self,
        alloc: Global,
        number: u64,
    ) -> Result<Option<amqp_promise::Result<Answer>>, NoMemory>
        ensures answer { IfOk result (λ answer. answer ≡ option_flatten (at number (promised self.now))) }
        ensures refused { OnErr result (IsRejected (option_flatten (at number (promised self.now)))) }
    {
        // Its clause tells that the numbers ascend.
        let _ = self.slots.len();
        match self.slots.get(&number) {
            Some(slot) => slot.answer(alloc, &self.errors),
            None => Ok(None),
        }
    }

    /// A promise is forgotten.
    pub fn forget(&mut self, number: u64)
        ensures made { made_in self.new ≡ made_in self.old }
        ensures slots { promised self.new ≡ without number (promised self.old) }
        ensures freed { FreesErrors self.old self.new }
    {
        let _ = self.slots.len();
        let_go_of(&mut self.errors, self.slots.remove(&number));
    }
}

// What a promise of this number is that is made: it waits, and shares the error of this loss.
fn new_slot(number: u64, loss: Option<u64>, errors: &mut SharedErrors) -> Slot
    requires awaited { AwaitsLoss loss errors.old.errors.entries }
    requires few { (n : ℕ) → holders_at n errors.old.errors.entries + 1 < 2 ^ 64 }
    ensures slot { result ≡ new_slot number loss }
    ensures errors { (n : ℕ) → shared_at n errors.new.errors.entries ≡ shared_at n errors.old.errors.entries }
    ensures holders { (n : ℕ) → holders_at n errors.new.errors.entries
        ≡ holders_at n errors.old.errors.entries + holds n result }
{
    match loss {
        Some(loss) if number != 0 => {
            errors.hold(loss);
            Slot::Shared(loss)
        }
        _ => Slot::Waiting,
    }
}

// What became of a promise goes, and with it its hold of a shared error.
fn let_go_of(errors: &mut SharedErrors, slot: Option<Slot>)
    ensures kept { KeepsHeld errors.old.errors.entries errors.new.errors.entries }
    ensures freed { FreesUnheld errors.old.errors.entries errors.new.errors.entries }
    ensures awaited { (n : ℕ)
        → is_error_awaited n errors.new.errors.entries ≡ is_error_awaited n errors.old.errors.entries }
    ensures waited { IsTrue (any_waits errors.old.errors.entries slot)
        → (n : ℕ) → shared_at n errors.new.errors.entries ≡ shared_at n errors.old.errors.entries }
    ensures holders { (n : ℕ) → holders_at n errors.new.errors.entries
        ≡ holders_at n errors.old.errors.entries - holds_any n slot }
{
    match slot {
        Some(Slot::Shared(number)) => errors.release(number),
        other => drop(other),
    }
}

impl Slot {
    ghost use Rattle.std.specs.Option.{option_flatten};
    ghost use Rattle.amqp_answers.specs.Settled.{IsRejected};
    ghost use Rattle.amqp_answers.specs.Seen.{slot_seen, slot_settled, slot_shared};

    // An equal one.
    fn try_clone(&self, alloc: Global) -> Result<Slot, NoMemory>
        ensures { IfOk result (λ slot. slot ≡ self.now) }
    {
        match self {
            Slot::Place => Ok(Slot::Place),
            Slot::Waiting => Ok(Slot::Waiting),
            Slot::Answered(Ok(answer)) => Ok(Slot::Answered(Ok(*answer))),
            Slot::Answered(Err(error)) => Ok(Slot::Answered(Err(error.try_clone(alloc)?))),
            Slot::Shared(number) => Ok(Slot::Shared(*number)),
        }
    }

    // It becomes this one; what it was.
    fn replace(&mut self, slot: Slot) -> Slot
        ensures was { result ≡ self.old }
        ensures is { self.new ≡ slot }
    {
        mem::replace(self, slot)
    }

    // Whether it waits.
    fn waits(&self, errors: &SharedErrors) -> bool
        ensures { result ≡ waits errors.now.errors.entries self.now }
    {
        match self {
            Slot::Waiting => true,
            Slot::Shared(number) => errors.is_awaited(*number),
            Slot::Place | Slot::Answered(_) => false,
        }
    }

    // Its answer, where it has one; an Err where memory for its copy was refused.
    fn answer(
        &self,
        alloc: Global,
        errors: &SharedErrors,
    ) -> Result<Option<amqp_promise::Result<Answer>>, NoMemory>
        ensures answer { IfOk result (λ answer.
            answer ≡ option_flatten (slot_seen errors.now.errors.entries self.now)) }
        ensures refused { OnErr result (IsRejected (option_flatten (slot_seen errors.now.errors.entries self.now))) }
    {
        match self {
            Slot::Answered(Ok(answer)) => Ok(Some(Ok(*answer))),
            Slot::Answered(Err(error)) => Ok(Some(Err(error.try_clone(alloc)?))),
            Slot::Shared(number) => match errors.get(*number) {
                Some(error) => Ok(Some(Err(error.try_clone(alloc)?))),
                None => Ok(None),
            },
            Slot::Place | Slot::Waiting => Ok(None),
        }
    }

    // Where it waits it gets this answer.
    fn settle(&mut self, answer: amqp_promise::Result<Answer>, errors: &mut SharedErrors)
        requires { (n : ℕ) → holds n self.old ≤ holders_at n errors.old.errors.entries }
        ensures slot { self.new ≡ slot_settled errors.old.errors.entries answer self.old }
        ensures errors { (n : ℕ) → shared_at n errors.new.errors.entries ≡ shared_at n errors.old.errors.entries }
        ensures holders { (n : ℕ) → holders_at n errors.new.errors.entries + holds n self.old
            ≡ holders_at n errors.old.errors.entries + holds n self.new }
    {
        if self.waits(errors) {
            let old = self.replace(Slot::Answered(answer));
            let_go_of(errors, Some(old));
        } else {
            drop(answer);
        }
    }

    // Where it waits it is answered with the error of this number, if that is kept.
    fn share(&mut self, number: u64, errors: &mut SharedErrors)
        requires few { holders_at number errors.old.errors.entries + 1 < 2 ^ 64 }
        requires held { (n : ℕ) → holds n self.old ≤ holders_at n errors.old.errors.entries }
        ensures slot { self.new ≡ slot_shared errors.old.errors.entries number self.old }
        ensures errors { (n : ℕ) → shared_at n errors.new.errors.entries ≡ shared_at n errors.old.errors.entries }
        ensures holders { (n : ℕ) → holders_at n errors.new.errors.entries + holds n self.old
            ≡ holders_at n errors.old.errors.entries + holds n self.new }
    {
        if self.waits(errors) && errors.get(number).is_some() {
            errors.hold(number);
            let old = self.replace(Slot::Shared(number));
            let_go_of(errors, Some(old));
        }
    }
}

impl Copied for Slot {
    fn copied(&self, alloc: Global) -> Result<Slot, NoMemory> {
        self.try_clone(alloc)
    }
}
