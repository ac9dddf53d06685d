//! Channels that may go on after an error.

ghost use Rattle.std.specs.Prelude.{◌≡◌, Some, IfSome, IfOk};
ghost use Rattle.futures.specs.Task.{Covers, Keeps};
ghost use Rattle.futures.specs.Poll.{OnPending, IfReady};
ghost use Rattle.amqp_rules.specs.Talk.{Talk};
ghost use Rattle.amqp_locked.specs.Taking.{polled_of};
ghost use Rattle.amqp_locked.specs.Recovering.{FoundOf, IsToldBy};
ghost use Rattle.lapin_connection.specs.Handles.{recovery_source};

use crate::changes::Waits;
use crate::patience::Patience;
use crate::shared::Shared;
use amqp_session::{ChanRef, Error, Result};
use amqp_types::NoMemory;
use futures::Future;
use futures::task::{Context, Poll};
use std::sync::{Arc, Wait};
use std::time::{Clock, Duration};

/// An error, and the channel that may go on after it.
#[derive(Drop)]
pub struct Recovery {
    shared: Arc<Shared>,
    channel: ChanRef,
    error: Error,
}

impl Recovery {
    // Whether this channel goes on after this error.
    pub(crate) fn of(shared: Arc<Shared>, channel: ChanRef, error: Error) -> Recovery
        ensures channel { result.channel ≡ channel }
        ensures error { result.error ≡ error }
        ensures shared { result.shared ≡ shared }
    {
        Recovery {
            shared,
            channel,
            error,
        }
    }

    /// Ok where the channel is open; nothing where it waits for another link, and the error allows that;
    /// else the error. Where memory for its copy is refused, that is told in its place.
    pub fn try_wait<R: Wait>(&self, rt: &R) -> Option<Result<()>>
        ensures found { (t : Talk) × FoundOf t self.now.channel self.now.error result }
        ensures error { IfSome result (IsToldBy self.now.error) }
    {
        let guard = self.shared.locked.lock(rt);
        guard.found(self.channel, &self.error)
    }

    /// The same; else the polled task waits.
    pub fn poll<R: Wait>(
        &self,
        rt: &R,
        cx: &mut Context<'_>,
    ) -> Poll<std::result::Result<Result<()>, NoMemory>>
        ensures found { (t : Talk) × FoundOf t self.now.channel self.now.error (polled_of result) }
        ensures error { IfReady result (λ r. IfOk r (IsToldBy self.now.error)) }
        ensures registered { OnPending result (Covers cx.new (λ s. s ≡ recovery_source self.now)) }
        ensures kept { Keeps cx.old cx.new }
    {
        let mut guard = self.shared.locked.lock(rt);
        guard.found_or_register(self.channel, &self.error, &self.shared.source, cx)
    }

    /// Sleeps until that is known.
    pub fn wait<R: Wait>(self, rt: &R) -> Result<()>
        ensures found { (t : Talk) × FoundOf t self.channel self.error (Some result) }
        ensures error { IsToldBy self.error result }
    {
        let mut guard = self.shared.locked.lock(rt);
        for _ in rt.forever() {
            if let Some(found) = guard.found(self.channel, &self.error) {
                return found;
            }
            guard = self.shared.sleep(rt, guard, Waits::State);
        }
        unreachable!()
    }

    /// Sleeps until that is known, but no longer than so long: then nothing is told, and it may be asked again.
    pub fn wait_for<R: Wait + Clock>(&self, rt: &R, limit: Duration) -> Option<Result<()>>
        ensures found { IfSome result (λ r. (t : Talk) × FoundOf t self.now.channel self.now.error (Some r)) }
        ensures error { IfSome result (IsToldBy self.now.error) }
    {
        let patience = Patience::of(rt, limit);
        let mut guard = self.shared.locked.lock(rt);
        for _ in rt.forever() {
            if let Some(found) = guard.found(self.channel, &self.error) {
                return Some(found);
            }
            let Some(left) = patience.left(rt) else {
                return None;
            };
            guard = self.shared.sleep_for(rt, guard, Waits::State, left);
        }
        unreachable!()
    }

    /// The same as a future, for an executor.
    pub fn recovered<'a, R: Wait>(&'a self, rt: &'a R) -> Recovered<'a, R> {
        Recovered { recovery: self, rt }
    }
}

/// A `Recovery` as a future.
#[derive(Drop)]
pub struct Recovered<'a, R> {
    recovery: &'a Recovery,
    rt: &'a R,
}

impl<R: Wait> Future for Recovered<'_, R> {
    type Output = std::result::Result<Result<()>, NoMemory>;

    ghost needs = { λ recovered s. s ≡ recovery_source recovered.recovery.now };

    fn poll(&mut self, cx: &mut Context<'_>) -> Poll<std::result::Result<Result<()>, NoMemory>> {
        self.recovery.poll(self.rt, cx)
    }
}
