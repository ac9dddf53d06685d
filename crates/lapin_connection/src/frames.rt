//! Frames that are handed out, for those who wait for them.

ghost use Rattle.std.specs.Prelude.{◌≡◌, IfErr, IsOk};
ghost use Rattle.futures.specs.Task.{Covers, Keeps};
ghost use Rattle.futures.specs.Poll.{OnPending, IfReady};
ghost use Rattle.lapin_connection.specs.Handles.{channel_source};

use crate::changes::Waits;
use crate::channel::Channel;
use crate::patience::Patience;
use amqp_session::{ErrorKind, Handed, Result};
use futures::Future;
use futures::task::{Context, Poll};
use std::sync::Wait;
use std::time::{Clock, Duration};

impl Channel {
    /// Sleeps until frames were handed out, and takes them; none once the channel is gone for good.
    pub fn wait_frames<R: Wait>(&self, rt: &R) -> Result<Vec<Handed>>
        ensures takes_no_memory { IsOk result }
    {
        let mut guard = self.shared.locked.lock(rt);
        for _ in rt.forever() {
            if let Some(taken) = guard.frames(self.opened) {
                return Ok(self.handed(taken));
            }
            guard = self.shared.sleep(rt, guard, Waits::Frames);
        }
        unreachable!()
    }

    /// The same, but no longer than so long: then nothing is told, and frames are waited for as before.
    pub fn wait_frames_for<R: Wait + Clock>(&self, rt: &R, limit: Duration) -> Option<Vec<Handed>> {
        let patience = Patience::of(rt, limit);
        let mut guard = self.shared.locked.lock(rt);
        for _ in rt.forever() {
            if let Some(taken) = guard.frames(self.opened) {
                return Some(self.handed(taken));
            }
            let Some(left) = patience.left(rt) else {
                return None;
            };
            guard = self.shared.sleep_for(rt, guard, Waits::Frames, left);
        }
        unreachable!()
    }

    /// Takes the frames that were handed out, and none once the channel is gone for good; else the polled
    /// task waits for some.
    pub fn poll_frames<R: Wait>(&self, rt: &R, cx: &mut Context<'_>) -> Poll<Result<Vec<Handed>>>
        ensures only { IfReady result (λ r. IfErr r (λ e. e ≡ ErrorKind.NoMemory)) }
        ensures registered { OnPending result (Covers cx.new (λ s. s ≡ channel_source self.now)) }
        ensures kept { Keeps cx.old cx.new }
    {
        let mut guard = self.shared.locked.lock(rt);
        let polled = guard.frames_or_register(self.opened, &self.shared.source, cx);
        drop(guard);
        match polled {
            Poll::Ready(Ok(taken)) => Poll::Ready(Ok(self.handed(taken))),
            Poll::Ready(Err(refused)) => Poll::Ready(Err(refused.into())),
            Poll::Pending => Poll::Pending,
        }
    }

    /// The same as a future, for an executor.
    pub fn next_frames<'a, R: Wait>(&'a self, rt: &'a R) -> NextFrames<'a, R> {
        NextFrames { channel: self, rt }
    }
}

/// The next frames of a channel as a future.
#[derive(Drop)]
pub struct NextFrames<'a, R> {
    channel: &'a Channel,
    rt: &'a R,
}

impl<R: Wait> Future for NextFrames<'_, R> {
    type Output = Result<Vec<Handed>>;

    ghost needs = { λ next s. s ≡ channel_source next.channel.now };

    fn poll(&mut self, cx: &mut Context<'_>) -> Poll<Result<Vec<Handed>>> {
        self.channel.poll_frames(self.rt, cx)
    }
}
