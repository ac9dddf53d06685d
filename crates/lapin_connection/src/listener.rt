//! Who listens to events.

ghost use Rattle.std.specs.Prelude.{◌≡◌};
ghost use Rattle.futures.specs.Task.{Covers, Keeps};
ghost use Rattle.futures.specs.Poll.{OnPending};
ghost use Rattle.lapin_connection.specs.Handles.{listener_source};

use crate::changes::Waits;
use crate::patience::Patience;
use crate::shared::Shared;
use amqp_hub::Receipt;
use amqp_session::Event;
use amqp_types::NoMemory;
use futures::Future;
use futures::task::{Context, Poll};
use std::sync::{Arc, Wait};
use std::time::{Clock, Duration};

/// A handle on the events of a connection. All listeners share one queue: each event is given once.
#[derive(Drop)]
pub struct EventsListener {
    shared: Arc<Shared>,
    receipt: Receipt,
}

impl EventsListener {
    // A listener, whose command was entered.
    pub(crate) fn of(shared: Arc<Shared>, receipt: Receipt) -> EventsListener
        ensures receipt { result.receipt ≡ receipt }
        ensures shared { result.shared ≡ shared }
    {
        EventsListener { shared, receipt }
    }

    /// Where the entry of its command stands.
    pub fn receipt(&self) -> &Receipt
        ensures { result.now ≡ self.now.receipt }
    {
        &self.receipt
    }

    /// Takes the first event that was not taken, where there is one.
    pub fn next<R: Wait>(&self, rt: &R) -> Option<Event> {
        self.shared.locked.lock(rt).event()
    }

    /// Takes the first event that was not taken; else the polled task waits for one. Once the session has
    /// ended and every event was taken, there is none.
    pub fn poll<R: Wait>(
        &self,
        rt: &R,
        cx: &mut Context<'_>,
    ) -> Poll<Result<Option<Event>, NoMemory>>
        ensures registered { OnPending result (Covers cx.new (λ s. s ≡ listener_source self.now)) }
        ensures kept { Keeps cx.old cx.new }
    {
        let mut guard = self.shared.locked.lock(rt);
        if guard.session().has_ended() {
            return Poll::Ready(Ok(guard.event()));
        }
        match guard.event_or_register(&self.shared.source, cx) {
            Poll::Ready(Ok(event)) => Poll::Ready(Ok(Some(event))),
            Poll::Ready(Err(refused)) => Poll::Ready(Err(refused)),
            Poll::Pending => Poll::Pending,
        }
    }

    /// Sleeps until there is an event, and takes it; none once the session has ended and every event was
    /// taken.
    pub fn wait<R: Wait>(&self, rt: &R) -> Option<Event> {
        let mut guard = self.shared.locked.lock(rt);
        for _ in rt.forever() {
            let event = guard.event();
            if event.is_some() || guard.session().has_ended() {
                return event;
            }
            drop(event);
            guard = self.shared.sleep(rt, guard, Waits::Event);
        }
        unreachable!()
    }

    /// The same, but no longer than so long: then nothing is told, and events are waited for as before.
    pub fn wait_for<R: Wait + Clock>(&self, rt: &R, limit: Duration) -> Option<Option<Event>> {
        let patience = Patience::of(rt, limit);
        let mut guard = self.shared.locked.lock(rt);
        for _ in rt.forever() {
            let event = guard.event();
            if event.is_some() || guard.session().has_ended() {
                return Some(event);
            }
            drop(event);
            let Some(left) = patience.left(rt) else {
                return None;
            };
            guard = self.shared.sleep_for(rt, guard, Waits::Event, left);
        }
        unreachable!()
    }

    /// The same as a future, for an executor.
    pub fn next_event<'a, R: Wait>(&'a self, rt: &'a R) -> NextEvent<'a, R> {
        NextEvent { listener: self, rt }
    }
}

/// The next event as a future.
#[derive(Drop)]
pub struct NextEvent<'a, R> {
    listener: &'a EventsListener,
    rt: &'a R,
}

impl<R: Wait> Future for NextEvent<'_, R> {
    type Output = Result<Option<Event>, NoMemory>;

    ghost needs = { λ next s. s ≡ listener_source next.listener.now };

    fn poll(&mut self, cx: &mut Context<'_>) -> Poll<Result<Option<Event>, NoMemory>> {
        self.listener.poll(self.rt, cx)
    }
}
