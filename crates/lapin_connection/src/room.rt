//! Waiting for room for what is to be sent.

ghost use Rattle.std.specs.Prelude.{◌≡◌, IfSome, IfOk};
ghost use Rattle.futures.specs.Task.{Covers, Keeps};
ghost use Rattle.futures.specs.Poll.{OnPending, IfReady};
ghost use Rattle.lapin_connection.specs.Handles.{reference_of, channel_source};
ghost use Rattle.lapin_connection.specs.Sending.{IsToldOfRoom};

use crate::changes::Waits;
use crate::channel::Channel;
use crate::patience::Patience;
use amqp_session::Result;
use amqp_types::NoMemory;
use futures::Future;
use futures::task::{Context, Poll};
use std::sync::Wait;
use std::time::{Clock, Duration};

impl Channel {
    /// Sleeps until there is room for so many octets: with them no more would wait than `with_outbox_limit` allows, or
    /// nothing waits. The octets are those of all frames: of a publish its body, what its method and its properties
    /// have, 30 more, and 8 more for each frame of the body. Ok where the channel is open then; else the error that a
    /// publish has there. Where nothing was limited, there is always room.
    pub fn wait_for_room<R: Wait>(&self, rt: &R, octets: u64) -> Result<()>
        ensures { IsToldOfRoom (reference_of self.now) octets result }
    {
        let mut guard = self.shared.locked.lock(rt);
        for _ in rt.forever() {
            if let Some(room) = guard.room_on(self.name(), octets) {
                return room;
            }
            guard = self.shared.sleep(rt, guard, Waits::Room);
        }
        unreachable!()
    }

    /// The same, but nothing once so long has passed.
    pub fn wait_for_room_for<R: Wait + Clock>(
        &self,
        rt: &R,
        octets: u64,
        limit: Duration,
    ) -> Option<Result<()>>
        ensures { IfSome result (IsToldOfRoom (reference_of self.now) octets) }
    {
        let patience = Patience::of(rt, limit);
        let mut guard = self.shared.locked.lock(rt);
        for _ in rt.forever() {
            if let Some(room) = guard.room_on(self.name(), octets) {
                return Some(room);
            }
            let Some(left) = patience.left(rt) else {
                return None;
            };
            guard = self.shared.sleep_for(rt, guard, Waits::Room, left);
        }
        unreachable!()
    }

    /// The same as `wait_for_room`, for a polled task, which waits while there is no room.
    pub fn poll_room<R: Wait>(
        &self,
        rt: &R,
        octets: u64,
        cx: &mut Context<'_>,
    ) -> Poll<std::result::Result<Result<()>, NoMemory>>
        ensures room { IfReady result (λ r. IfOk r (IsToldOfRoom (reference_of self.now) octets)) }
        ensures registered { OnPending result (Covers cx.new (λ s. s ≡ channel_source self.now)) }
        ensures kept { Keeps cx.old cx.new }
    {
        let mut guard = self.shared.locked.lock(rt);
        guard.room_or_register(self.name(), octets, &self.shared.source, cx)
    }

    /// The same as a future, for an executor.
    pub fn until_room<'a, R: Wait>(&'a self, rt: &'a R, octets: u64) -> UntilRoom<'a, R> {
        UntilRoom {
            channel: self,
            rt,
            octets,
        }
    }
}

/// That there is room on a channel, as a future.
#[derive(Drop)]
pub struct UntilRoom<'a, R> {
    channel: &'a Channel,
    rt: &'a R,
    octets: u64,
}

impl<R: Wait> Future for UntilRoom<'_, R> {
    type Output = std::result::Result<Result<()>, NoMemory>;

    ghost needs = { λ room s. s ≡ channel_source room.channel.now };

    fn poll(&mut self, cx: &mut Context<'_>) -> Poll<std::result::Result<Result<()>, NoMemory>> {
        self.channel.poll_room(self.rt, self.octets, cx)
    }
}
