//! A cell under a lock, and its two ends.

ghost use Rattle.std.specs.Prelude.{◌≡◌, IfOk};
ghost use Rattle.futures.specs.Task.{Covers, Keeps};
ghost use Rattle.futures.specs.Poll.{OnPending};
ghost use Rattle.std.specs.Arc.{arc_value};
ghost use Rattle.amqp_promise.specs.Ends.{promise_source, resolver_source, promise_marker, resolver_marker};

use crate::{Error, Result, Slot};
use amqp_types::NoMemory;
use futures::task::{Context, Poll, Source};
use std::alloc::Global;
use std::sync::{Arc, Mutex, Wait};

// What the ends of a promise share: what it was made for, where a task waits for it, and its cell.
#[derive(Drop)]
struct Shared<T> {
    marker: &'static str,
    source: Source,
    slot: Mutex<Slot<T>>,
}

/// The end of a promise at which its result is taken.
#[derive(Drop)]
pub struct Promise<T> {
    shared: Arc<Shared<T>>,
}

/// The end of a promise at which it is completed. The first completion counts, whichever resolver of
/// the cell it comes from.
#[derive(Drop)]
pub struct PromiseResolver<T> {
    shared: Arc<Shared<T>>,
}

/// What is completed with an error where nothing else will complete it.
pub trait Cancelable {
    /// One completion with this error; it changes nothing after another.
    fn cancel<R: Wait>(&self, rt: &R, error: Error);
}

fn share<T: Drop>(
    alloc: Global,
    marker: &'static str,
    slot: Slot<T>,
) -> std::result::Result<Arc<Shared<T>>, NoMemory>
    ensures { IfOk result (λ shared. (arc_value shared).marker.now ≡ marker.now) }
{
    let shared = Shared {
        marker,
        source: Source::new(),
        slot: Mutex::new(slot),
    };
    Ok(Arc::new(alloc, shared)?)
}

impl<T: Drop> Promise<T> {
    /// Both ends of a cell that waits. The marker says what it was made for.
    pub fn new(
        alloc: Global,
        marker: &'static str,
    ) -> std::result::Result<(Promise<T>, PromiseResolver<T>), NoMemory>
        ensures one_cell { IfOk result (λ ends. promise_source ends.0 ≡ resolver_source ends.1) }
        ensures promise_marked { IfOk result (λ ends. promise_marker ends.0 ≡ marker.now) }
        ensures resolver_marked { IfOk result (λ ends. resolver_marker ends.1 ≡ marker.now) }
    {
        let shared = share(alloc, marker, Slot::new(alloc))?;
        let resolver = PromiseResolver {
            shared: Arc::try_clone(&shared)?,
        };
        Ok((Promise { shared }, resolver))
    }

    /// A promise of a cell that is completed with this result.
    pub fn new_with_data(
        alloc: Global,
        marker: &'static str,
        outcome: Result<T>,
    ) -> std::result::Result<Promise<T>, NoMemory>
        ensures { IfOk result (λ promise. promise_marker promise ≡ marker.now) }
    {
        let mut slot = Slot::new(alloc);
        slot.complete(outcome);
        let shared = share(alloc, marker, slot)?;
        Ok(Promise { shared })
    }

    /// What it was made for.
    pub fn marker(&self) -> &'static str
        ensures { result.now ≡ promise_marker self.now }
    {
        self.shared.marker
    }

    /// Takes the result, where the cell has one that was not taken.
    pub fn try_wait<R: Wait>(&self, rt: &R) -> Option<Result<T>> {
        self.shared.slot.lock(rt).take()
    }

    /// Takes the result; else the polled task waits for it, or, where no memory for its place was
    /// found, nothing has changed. After the result was taken a task that polls is to be polled again.
    pub fn poll<R: Wait>(
        &self,
        rt: &R,
        cx: &mut Context<'_>,
    ) -> Poll<std::result::Result<Result<T>, NoMemory>>
        ensures registered { OnPending result (Covers cx.new (λ s. s ≡ promise_source self.now)) }
        ensures kept { Keeps cx.old cx.new }
    {
        self.shared.slot.lock(rt).poll(&self.shared.source, cx)
    }
}

impl<T: Drop> PromiseResolver<T> {
    /// What the promise was made for.
    pub fn marker(&self) -> &'static str
        ensures { result.now ≡ resolver_marker self.now }
    {
        self.shared.marker
    }

    /// One completion with this result.
    pub fn complete<R: Wait>(&self, rt: &R, outcome: Result<T>) {
        self.shared.slot.lock(rt).complete(outcome);
    }

    /// One completion with this value.
    pub fn resolve<R: Wait>(&self, rt: &R, value: T) {
        self.complete(rt, Ok(value));
    }

    /// One completion with this error.
    pub fn reject<R: Wait>(&self, rt: &R, error: Error) {
        self.complete(rt, Err(error));
    }

    /// Another resolver of the same cell.
    pub fn try_clone(&self) -> std::result::Result<PromiseResolver<T>, NoMemory>
        ensures one_cell { IfOk result (λ other. resolver_source other ≡ resolver_source self.now) }
        ensures marked { IfOk result (λ other. resolver_marker other ≡ resolver_marker self.now) }
    {
        Ok(PromiseResolver {
            shared: Arc::try_clone(&self.shared)?,
        })
    }
}

impl<T: Drop> Cancelable for PromiseResolver<T> {
    fn cancel<R: Wait>(&self, rt: &R, error: Error) {
        self.reject(rt, error);
    }
}
