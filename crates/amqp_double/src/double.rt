//! The double.

ghost use Rattle.std.specs.Prelude.{◌≡◌, ◌≢◌, ◌≤◌, ◌⊎◌, ◌+◌, ◌-◌, ◌++◌, length, drop, vec_capacity, IfOk, IfErr, IsTrue, is_some, Err, None};
ghost use Rattle.amqp_double.specs.Doubles.{fresh, AnswersClient, SaysOn};
ghost use Rattle.amqp_double.specs.Faults.{result_of};

use crate::heard::{Heard, reserve_all};
use crate::refusal::{DoubleFault, Refusal};
use amqp_settings::Configuration;
use amqp_types::NoMemory;
use std::alloc::Global;
use std::marker::Model;

/// A server double. It keeps all octets of its client, and all that it answers.
#[derive(Drop)]
pub struct Double {
    alloc: Global,
    heard: Heard,
}

impl Model for Double {
    ghost use Rattle.amqp_double.specs.Doubles.{DoubleState};
    ghost use Rattle.amqp_double.specs.Hearing.{double_of, HeardAll};

    ghost Value = { DoubleState };

    ghost view = { λ d. double_of d.heard };

    ghost invariant = { λ d. HeardAll d.heard };
}

impl Double {
    /// A double that heard nothing, with the numbers of its tune: its greatest frame is 0, which is no
    /// limit, or has at least 4,096 octets.
    #[tactic(auto, using(crate::proofs::Taking::heard_answers))]
    pub fn new(alloc: Global, numbers: Configuration) -> Result<Double, NoMemory>
        requires { (numbers.frame_max ≡ 0) ⊎ (4096 ≤ numbers.frame_max) }
        ensures fresh { IfOk result (λ double. double ≡ fresh numbers) }
        ensures answers { IfOk result (λ double. AnswersClient double) }
    {
        Ok(Double {
            alloc,
            heard: Heard::new(alloc, numbers)?,
        })
    }

    /// Hears more octets of the client, and answers each frame that is whole then. It refuses what is no
    /// frame and what the client may not say, hears nothing further from then on, and answers the same
    /// to whatever it is fed. Where there is no memory, the double is as before.
    #[tactic(auto, using(crate::proofs::Taking::heard_answers))]
    pub fn feed(&mut self, bytes: &[u8]) -> Result<(), DoubleFault>
        ensures answers { AnswersClient self.new }
        ensures result { result ≢ Err DoubleFault.NoMemory → result ≡ result_of self.new.refusal }
        ensures client { self.old.refusal ≡ None → result ≢ Err DoubleFault.NoMemory
            → self.new.client ≡ self.old.client ++ bytes.now }
        ensures same { (self.new.numbers ≡ self.old.numbers) × (self.new.sent ≡ self.old.sent) }
        ensures refused { IsTrue (is_some self.old.refusal)
            → (self.new ≡ self.old) × (result ≡ result_of self.old.refusal) }
        ensures unchanged { result ≡ Err DoubleFault.NoMemory → self.new ≡ self.old }
    {
        if self.heard.refusal.is_some() {
            return told(self.heard.refusal);
        }
        if self.heard.hear(self.alloc, bytes).is_err() {
            return Err(DoubleFault::NoMemory);
        }
        told(self.heard.refusal)
    }

    /// The same, once a list has places for as many items more as octets were then answered and not sent,
    /// and for so many beside. Where there is no memory for these either, the double is as before.
    #[tactic(auto, using(crate::proofs::Taking::heard_answers))]
    pub fn feed_with<T>(
        &mut self,
        bytes: &[u8],
        list: &mut Vec<T>,
        beside: usize,
    ) -> Result<(), DoubleFault>
        ensures answers { AnswersClient self.new }
        ensures result { result ≢ Err DoubleFault.NoMemory → result ≡ result_of self.new.refusal }
        ensures client { self.old.refusal ≡ None → result ≢ Err DoubleFault.NoMemory
            → self.new.client ≡ self.old.client ++ bytes.now }
        ensures same { (self.new.numbers ≡ self.old.numbers) × (self.new.sent ≡ self.old.sent) }
        ensures said { SaysOn self.old.said self.new.said }
        ensures refused { IsTrue (is_some self.old.refusal) → self.new ≡ self.old }
        ensures unchanged { result ≡ Err DoubleFault.NoMemory → self.new ≡ self.old }
        ensures items { list.new.items ≡ list.old.items }
        ensures capacity { vec_capacity list.old ≤ vec_capacity list.new }
        ensures places { result ≢ Err DoubleFault.NoMemory → length list.new.items
            + (length self.new.said - self.new.sent) + beside ≤ vec_capacity list.new }
    {
        if self.heard.refusal.is_some() {
            let unsent = self.heard.said.len() - self.heard.sent;
            return match reserve_all(list, unsent, beside, 0) {
                Ok(()) => told(self.heard.refusal),
                Err(NoMemory) => Err(DoubleFault::NoMemory),
            };
        }
        if self
            .heard
            .hear_with(self.alloc, bytes, list, beside)
            .is_err()
        {
            return Err(DoubleFault::NoMemory);
        }
        told(self.heard.refusal)
    }

    /// What its client said, as far as it heard that.
    pub fn client(&self) -> &[u8]
        ensures { result.now ≡ self.now.client }
    {
        &self.heard.client
    }

    /// What it answered and was not sent yet.
    #[tactic(auto, using(crate::proofs::Taking::heard_answers))]
    pub fn output(&self) -> &[u8]
        ensures output { result.now ≡ drop self.now.sent self.now.said }
        ensures answers { AnswersClient self.now }
    {
        &self.heard.said[self.heard.sent..]
    }

    /// How many octets of its answers were sent.
    pub fn sent_len(&self) -> usize
        ensures { result ≡ self.now.sent }
    {
        self.heard.sent
    }

    /// The first octets of its output were sent, so many of them.
    pub fn sent(&mut self, count: usize)
        requires { count ≤ length (drop self.old.sent self.old.said) }
        ensures { self.new ≡ record self.old { sent = self.old.sent + count } }
    {
        self.heard.sent += count;
    }

    /// Whether the last frame that it read is a close of the connection, or its close-ok.
    #[tactic(auto, using(crate::proofs::Taking::heard_answers))]
    pub fn closed(&self) -> bool
        ensures closed { result ≡ self.now.closed }
        ensures answers { AnswersClient self.now }
    {
        self.heard.closed
    }
}

// What is told of a refusal, where there is one.
fn told(refusal: Option<Refusal>) -> Result<(), DoubleFault>
    ensures { result ≡ result_of refusal }
{
    match refusal {
        Some(Refusal::BadBytes(place)) => Err(DoubleFault::BadBytes(place)),
        Some(Refusal::Unexpected(number)) => Err(DoubleFault::Unexpected(number)),
        None => Ok(()),
    }
}
