//! Waiting until what was sent has gone out, and closing then.

ghost use Rattle.std.specs.Prelude.{◌≡◌, ◌+◌, ℕ, Some, IfOk, IfSome, OnOk, OnErr};
ghost use Rattle.futures.specs.Task.{Covers, Keeps};
ghost use Rattle.futures.specs.Poll.{OnPending, IfReady};
ghost use Rattle.amqp_commands.specs.declared.command.Cmd.TheVariants.{CloseChannel, CloseConnection};
ghost use Rattle.lapin_connection.specs.Commands.{HasReceipt, Refuses};
ghost use Rattle.lapin_connection.specs.Handles.{reference_of, channel_source, connection_source, pending_source};
ghost use Rattle.lapin_connection.specs.Sending.{IsToldOpen};

use crate::changes::Waits;
use crate::channel::Channel;
use crate::connection::Connection;
use crate::patience::Patience;
use crate::pending::Pending;
use amqp_hub::Pass;
use amqp_session::Result;
use amqp_types::{NoMemory, ReplyCode, ShortString};
use futures::Future;
use futures::task::{Context, Poll};
use std::sync::Wait;
use std::time::{Clock, Duration};

impl Channel {
    /// Sleeps until nothing that was sent or published on it waits to go out: all of it was given to the port, or
    /// was dropped, which the answers say. Ok where the channel is open then; else the error that a publish has
    /// there.
    pub fn wait_until_sent<R: Wait>(&self, rt: &R) -> Result<()>
        ensures { IsToldOpen result }
    {
        let mut guard = self.shared.locked.lock(rt);
        for _ in rt.forever() {
            if let Some(sent) = guard.sent_on(self.name(), self.sent_made()) {
                return sent;
            }
            guard = self.shared.sleep(rt, guard, Waits::Room);
        }
        unreachable!()
    }

    /// The same, but nothing once so long has passed.
    pub fn wait_until_sent_for<R: Wait + Clock>(
        &self,
        rt: &R,
        limit: Duration,
    ) -> Option<Result<()>>
        ensures { IfSome result IsToldOpen }
    {
        let patience = Patience::of(rt, limit);
        let mut guard = self.shared.locked.lock(rt);
        for _ in rt.forever() {
            let sent = guard.sent_on(self.name(), self.sent_made());
            if sent.is_some() {
                return sent;
            }
            drop(sent);
            let Some(left) = patience.left(rt) else {
                return None;
            };
            guard = self.shared.sleep_for(rt, guard, Waits::Room, left);
        }
        unreachable!()
    }

    /// The same as `wait_until_sent`, for a polled task, which waits while something waits to go out.
    pub fn poll_sent<R: Wait>(
        &self,
        rt: &R,
        cx: &mut Context<'_>,
    ) -> Poll<std::result::Result<Result<()>, NoMemory>>
        ensures sent { IfReady result (λ r. IfOk r IsToldOpen) }
        ensures registered { OnPending result (Covers cx.new (λ s. s ≡ channel_source self.now)) }
        ensures kept { Keeps cx.old cx.new }
    {
        let mut guard = self.shared.locked.lock(rt);
        guard.sent_or_register(self.name(), self.sent_made(), &self.shared.source, cx)
    }

    /// The same as a future, for an executor.
    pub fn until_sent<'a, R: Wait>(&'a self, rt: &'a R) -> UntilSent<'a, R> {
        UntilSent { channel: self, rt }
    }

    /// Waits until nothing that was sent or published on it waits to go out, and closes it then.
    pub fn close_when_sent<R: Wait>(
        &self,
        rt: &R,
        pass: &mut Pass,
        reply_code: ReplyCode,
        reply_text: ShortString,
    ) -> Result<Pending<()>>
        ensures made { OnOk result (pass.new.made ≡ pass.old.made + 1) }
        ensures number { pass.new.number ≡ pass.old.number }
        ensures same { OnErr result (pass.new ≡ pass.old) }
        ensures refused { Refuses pass.old result }
        ensures receipt { IfOk result (λ p. HasReceipt pass.new
            (CloseChannel (reference_of self.now) reply_code reply_text) (Some p.number) p.receipt) }
        ensures one_connection { IfOk result (λ p. pending_source p ≡ channel_source self.now) }
    {
        // Where it is not open, to close it answers why.
        drop(self.wait_until_sent(rt));
        self.close(rt, pass, reply_code, reply_text)
    }
}

impl Connection {
    /// Sleeps until nothing waits to go out of what was told to the session before this call: all of it was given
    /// to the port, or was dropped, which the answers say, or the session is not open.
    pub fn wait_until_sent<R: Wait>(&self, rt: &R) {
        let mut guard = self.shared.locked.lock(rt);
        let made = guard.session().promises();
        for _ in rt.forever() {
            if guard.is_sent(made) {
                return;
            }
            guard = self.shared.sleep(rt, guard, Waits::Room);
        }
        unreachable!()
    }

    /// The same, but no longer than so long. Whether nothing waits to go out.
    pub fn wait_until_sent_for<R: Wait + Clock>(&self, rt: &R, limit: Duration) -> bool {
        let patience = Patience::of(rt, limit);
        let mut guard = self.shared.locked.lock(rt);
        let made = guard.session().promises();
        for _ in rt.forever() {
            if guard.is_sent(made) {
                return true;
            }
            let Some(left) = patience.left(rt) else {
                return false;
            };
            guard = self.shared.sleep_for(rt, guard, Waits::Room, left);
        }
        unreachable!()
    }

    /// Waits until nothing waits to go out of what was told to the session before this call, and closes the
    /// connection then.
    pub fn close_when_sent<R: Wait>(
        &self,
        rt: &R,
        pass: &mut Pass,
        reply_code: ReplyCode,
        reply_text: ShortString,
    ) -> Result<Pending<()>>
        ensures made { OnOk result (pass.new.made ≡ pass.old.made + 1) }
        ensures number { pass.new.number ≡ pass.old.number }
        ensures same { OnErr result (pass.new ≡ pass.old) }
        ensures refused { Refuses pass.old result }
        ensures receipt { IfOk result (λ p. HasReceipt pass.new
            (CloseConnection reply_code reply_text) (Some p.number) p.receipt) }
        ensures one_connection { IfOk result (λ p. pending_source p ≡ connection_source self.now) }
    {
        self.wait_until_sent(rt);
        self.close(rt, pass, reply_code, reply_text)
    }
}

/// That nothing waits to go out of what was sent on a channel, as a future.
#[derive(Drop)]
pub struct UntilSent<'a, R> {
    channel: &'a Channel,
    rt: &'a R,
}

impl<R: Wait> Future for UntilSent<'_, R> {
    type Output = std::result::Result<Result<()>, NoMemory>;

    ghost needs = { λ sent s. s ≡ channel_source sent.channel.now };

    fn poll(&mut self, cx: &mut Context<'_>) -> Poll<std::result::Result<Result<()>, NoMemory>> {
        self.channel.poll_sent(self.rt, cx)
    }
}
