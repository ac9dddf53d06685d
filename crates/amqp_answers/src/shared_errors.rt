//! Errors that several promises share: each is kept once, with its text.

ghost use Rattle.std.specs.Prelude.{◌≡◌, ℕ, ◌+◌, ◌-◌, ◌<◌, ◌^◌, ◌==◌, ◌&&◌, if◌then◌else◌, [], None, Some, is_some, option_map, Option, IfOk, OnErr, option_copied};
ghost use Rattle.amqp_maps.specs.Listed.{at};
ghost use Rattle.amqp_answers.specs.Sharing.{shared_at, error_at, is_error_awaited, unheld, holders_at};

use amqp_maps::{Copied, by_number};
use amqp_promise::Error;
use amqp_types::NoMemory;
use std::alloc::Global;
use std::collections::BTreeMap;

/// An error, where it is known already, and how many promises hold it.
#[derive(Drop)]
pub struct SharedError {
    error: Option<Error>,
    holders: u64,
}

impl SharedError {
    // An equal error, and as many hold it.
    fn try_clone(&self, alloc: Global) -> Result<SharedError, NoMemory>
        ensures { IfOk result (λ shared. shared ≡ self.now) }
    {
        let holders = self.holders;
        match &self.error {
            Some(error) => Ok(SharedError {
                error: Some(error.try_clone(alloc)?),
                holders,
            }),
            None => Ok(SharedError {
                error: None,
                holders,
            }),
        }
    }

    fn hold(&mut self)
        requires { self.old.holders + 1 < 2 ^ 64 }
        ensures { self.new ≡ record self.old { holders = self.old.holders + 1 } }
    {
        self.holders += 1;
    }

    fn fill(&mut self, error: Error)
        ensures { self.new ≡ record self.old { error = Some error } }
    {
        drop(self.error.replace(error));
    }

    fn release(&mut self)
        ensures { self.new ≡ record self.old { holders = self.old.holders - 1 } }
    {
        self.holders = self.holders.saturating_sub(1);
    }
}

impl Copied for SharedError {
    fn copied(&self, alloc: Global) -> Result<SharedError, NoMemory> {
        self.try_clone(alloc)
    }
}

/// Errors by number, of which some are awaited.
#[derive(Drop)]
pub struct SharedErrors {
    errors: BTreeMap<u64, SharedError>,
}

impl SharedErrors {
    /// No error is kept.
    pub fn new(alloc: Global) -> SharedErrors
        ensures { result.errors.entries ≡ [] }
    {
        SharedErrors {
            errors: BTreeMap::new(alloc),
        }
    }

    /// Equal errors by the same numbers.
    pub fn try_clone(&self, alloc: Global) -> Result<SharedErrors, NoMemory>
        ensures { IfOk result (λ copy. copy.errors.entries ≡ self.now.errors.entries) }
    {
        Ok(SharedErrors {
            errors: by_number(alloc, &self.errors)?,
        })
    }

    /// Keeps an error, or awaits one, which nothing holds yet, and answers its number, which no other
    /// error has.
    pub fn put(&mut self, error: Option<Error>) -> Result<u64, NoMemory>
        ensures fresh { IfOk result (λ number. at number self.old.errors.entries ≡ None) }
        ensures errors { IfOk result (λ number. (n : ℕ) → shared_at n self.new.errors.entries
            ≡ (if number == n then Some error else shared_at n self.old.errors.entries)) }
        ensures holders { (n : ℕ) → holders_at n self.new.errors.entries ≡ holders_at n self.old.errors.entries }
        ensures err { OnErr result (self.new.errors.entries ≡ self.old.errors.entries) }
    {
        match self.free_number() {
            Ok(number) => {
                let shared = SharedError { error, holders: 0 };
                drop(self.errors.insert(number, shared)?);
                Ok(number)
            }
            Err(refused) => {
                drop(error);
                Err(refused)
            }
        }
    }

    // One more than the greatest number; an Err where that is the greatest of its type.
    fn free_number(&self) -> Result<u64, NoMemory>
        ensures { IfOk result (λ number. at number self.now.errors.entries ≡ None) }
    {
        match self.errors.last_key_value() {
            Some((&u64::MAX, _)) => Err(NoMemory),
            Some((last, _)) => Ok(*last + 1),
            None => Ok(0),
        }
    }

    /// The error of a number is known now, where one is kept or awaited.
    pub fn fill(&mut self, number: u64, error: Error)
        ensures errors { (n : ℕ) → shared_at n self.new.errors.entries
            ≡ (if number == n then option_map (λ _. Some error) (shared_at n self.old.errors.entries)
            else shared_at n self.old.errors.entries) }
        ensures holders { (n : ℕ) → holders_at n self.new.errors.entries ≡ holders_at n self.old.errors.entries }
    {
        match self.errors.get_mut(&number) {
            Some(shared) => shared.fill(error),
            None => drop(error),
        }
    }

    /// The error of a number, where it is kept.
    pub fn get(&self, number: u64) -> Option<&Error>
        ensures { option_copied result ≡ error_at number self.now.errors.entries }
    {
        match self.errors.get(&number) {
            Some(shared) => shared.error.as_ref(),
            None => None,
        }
    }

    /// Whether the error of a number is awaited.
    pub fn is_awaited(&self, number: u64) -> bool
        ensures { result ≡ is_error_awaited number self.now.errors.entries }
    {
        match self.errors.get(&number) {
            Some(shared) => shared.error.is_none(),
            None => false,
        }
    }

    /// One promise more holds an error, where it is kept or awaited.
    pub fn hold(&mut self, number: u64)
        requires { holders_at number self.old.errors.entries + 1 < 2 ^ 64 }
        ensures errors { (n : ℕ) → shared_at n self.new.errors.entries ≡ shared_at n self.old.errors.entries }
        ensures holders { (n : ℕ) → holders_at n self.new.errors.entries
            ≡ (if number == n && is_some (at n self.old.errors.entries)
            then holders_at n self.old.errors.entries + 1
            else holders_at n self.old.errors.entries) }
    {
        if let Some(shared) = self.errors.get_mut(&number) {
            shared.hold();
        }
    }

    /// One promise less holds an error. Where it was the last, the error goes; one that is awaited stays.
    pub fn release(&mut self, number: u64)
        ensures errors { (n : ℕ) → shared_at n self.new.errors.entries
            ≡ (if number == n && holders_at n self.new.errors.entries == 0
            then unheld (shared_at n self.old.errors.entries)
            else shared_at n self.old.errors.entries) }
        ensures holders { (n : ℕ) → holders_at n self.new.errors.entries
            ≡ (if number == n then holders_at n self.old.errors.entries - 1
            else holders_at n self.old.errors.entries) }
    {
        self.release_one(number);
        self.tidy(number);
    }

    fn release_one(&mut self, number: u64)
        ensures errors { (n : ℕ) → shared_at n self.new.errors.entries ≡ shared_at n self.old.errors.entries }
        ensures holders { (n : ℕ) → holders_at n self.new.errors.entries
            ≡ (if number == n then holders_at n self.old.errors.entries - 1
            else holders_at n self.old.errors.entries) }
    {
        if let Some(shared) = self.errors.get_mut(&number) {
            shared.release();
        }
    }

    /// An error that no promise holds goes.
    pub fn tidy(&mut self, number: u64)
        ensures errors { (n : ℕ) → shared_at n self.new.errors.entries
            ≡ (if number == n && holders_at n self.old.errors.entries == 0
            then unheld (shared_at n self.old.errors.entries)
            else shared_at n self.old.errors.entries) }
        ensures holders { (n : ℕ) → holders_at n self.new.errors.entries ≡ holders_at n self.old.errors.entries }
    {
        if self.is_unheld(number) {
            let _ = self.errors.len();
            drop(self.errors.remove(&number));
        }
    }

    // Whether an error is known, and no promise holds it.
    fn is_unheld(&self, number: u64) -> bool
        ensures { result ≡ (is_some (error_at number self.now.errors.entries)
            && holders_at number self.now.errors.entries == 0) }
    {
        match self.errors.get(&number) {
            Some(shared) => shared.error.is_some() && shared.holders == 0,
            None => false,
        }
    }
}
