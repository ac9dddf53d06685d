//! A cell that is completed once.

ghost use Rattle.std.specs.Prelude.{◌≡◌, false, OnOk, OnErr};
ghost use Rattle.futures.specs.Task.{Covers, Hears, IsArmed, Keeps};
ghost use Rattle.futures.specs.Poll.{OnPending};
ghost use Rattle.amqp_promise.specs.Cell.{new_cell, completed, taken, left, is_complete};
ghost use Rattle.amqp_promise.specs.Polls.{Registers, Polls};

use crate::{Result, Wakers};
use amqp_types::NoMemory;
use futures::task::{Context, Poll, Source};
use std::alloc::Global;
use std::marker::Model;
use std::mem;

// How far a cell has come. What is completed keeps no waker.
#[derive(Drop)]
enum Stage<T> {
    Waiting(Wakers),
    Kept(Result<T>),
    Taken,
}

/// A cell for one result. The first completion alone is kept, and is taken once.
#[derive(Drop)]
pub struct Slot<T> {
    stage: Stage<T>,
}

impl<T> Model for Slot<T> {
    ghost use Rattle.std.specs.Prelude.{Result};
    ghost use Rattle.amqp_promise.specs.declared.error.ErrorKind.{ErrorKind};
    ghost use Rattle.amqp_promise.specs.Cell.{Cell};

    ghost Value = { Cell (Result T ErrorKind) };

    ghost use Rattle.amqp_promise.specs.Stages.{cell_of};

    ghost view = { λ s. cell_of s.stage };
}

impl<T: Drop> Slot<T> {
    /// A cell that waits, with no place for a waker.
    pub fn new(alloc: Global) -> Slot<T>
        ensures { result ≡ new_cell }
    {
        Slot {
            stage: Stage::Waiting(Wakers::new(alloc)),
        }
    }

    /// Keeps the result and wakes who waits, where it is the first completion. A later one changes
    /// nothing, and its result is dropped.
    pub fn complete(&mut self, outcome: Result<T>)
        ensures { self.new ≡ completed outcome self.old }
    {
        match &mut self.stage {
            Stage::Waiting(wakers) => {
                wakers.wake();
                self.stage = Stage::Kept(outcome);
            }
            Stage::Kept(_) | Stage::Taken => drop(outcome),
        }
    }

    /// Takes the result of the first completion, where it is there and was not taken.
    pub fn take(&mut self) -> Option<Result<T>>
        ensures given { result ≡ taken self.old }
        ensures left { self.new ≡ left self.old }
    {
        match mem::replace(&mut self.stage, Stage::Taken) {
            Stage::Kept(outcome) => Some(outcome),
            other => {
                self.stage = other;
                None
            }
        }
    }

    /// Makes a place for the waker of the polled task, which then waits at this source. A completed
    /// slot registers nothing.
    pub fn register(
        &mut self,
        source: &Source,
        cx: &mut Context<'_>,
    ) -> std::result::Result<(), NoMemory>
        ensures place { OnOk result (Registers cx.old cx.new self.old self.new) }
        ensures armed { OnOk result (is_complete self.old ≡ false → IsArmed cx.new) }
        ensures heard { OnOk result (is_complete self.old ≡ false → Hears cx.new source.now.id) }
        ensures kept { Keeps cx.old cx.new }
        ensures cause { OnErr result (is_complete self.old ≡ false) }
        ensures refused { OnErr result (self.new ≡ self.old) }
        ensures untouched { OnErr result (cx.new ≡ cx.old) }
    {
        match &mut self.stage {
            Stage::Waiting(wakers) => wakers.register(source, cx),
            Stage::Kept(_) | Stage::Taken => Ok(()),
        }
    }

    /// Takes the result; else the polled task waits for it at this source. After the result was taken
    /// nothing more will come: the task is not registered, and is to be polled again.
    pub fn poll(
        &mut self,
        source: &Source,
        cx: &mut Context<'_>,
    ) -> Poll<std::result::Result<Result<T>, NoMemory>>
        ensures answer { Polls cx.old cx.new self.old self.new result }
        ensures registered { OnPending result (Covers cx.new (λ s. s ≡ source.now.id)) }
        ensures kept { Keeps cx.old cx.new }
    {
        if let Some(outcome) = self.take() {
            return Poll::Ready(Ok(outcome));
        }
        if self.is_complete() {
            return cx.yield_now();
        }
        match self.register(source, cx) {
            Ok(()) => Poll::Pending,
            Err(refused) => Poll::Ready(Err(refused)),
        }
    }

    fn is_complete(&self) -> bool
        ensures { result ≡ is_complete self.now }
    {
        !matches!(self.stage, Stage::Waiting(_))
    }
}
