//! Answers that are to come.

ghost use Rattle.std.specs.Prelude.{◌≡◌, ℕ, Some, Ok, IfOk, IfSome, Option, Result as Outcome, option_map};
ghost use Rattle.futures.specs.Task.{Covers, Keeps};
ghost use Rattle.futures.specs.Poll.{OnPending, IfReady};
ghost use Rattle.amqp_promise.specs.declared.error.ErrorKind.{ErrorKind as Kind};
ghost use Rattle.amqp_answers.specs.declared.answer.Answer.{Answer as Told};
ghost use Rattle.lapin_connection.specs.declared.channel.Channel.{Channel as Opened};
ghost use Rattle.lapin_connection.specs.Giving.{done_by, flow_by, channel_by, NamesPromise, IsGivenBy};
ghost use Rattle.lapin_connection.specs.Handles.{pending_source};

use crate::changes::Waits;
use crate::channel::Channel;
use crate::patience::Patience;
use crate::shared::Shared;
use amqp_hub::{DropMark, Receipt};
use amqp_locked::{Locked, Polled};
use amqp_session::{Answer, ErrorKind, Result};
use amqp_types::NoMemory;
use futures::Future;
use futures::task::{Context, Poll};
use std::marker::PhantomData;
use std::sync::{Arc, Mutex, Wait};
use std::time::{Clock, Duration};

/// What an answer is made into. An answer of another kind than its command's never comes; it would be
/// given as `NoMemory`.
pub trait Gives: Drop {
    /// What is made of an answer, with the channel that was made for it, if one was.
    ghost made: { Told → Option Opened → Outcome Self Kind };

    /// That is made of the answer.
    fn give(answer: Answer, channel: Option<Channel>) -> Result<Self>
        ensures { result ≡ made answer channel };
}

impl Gives for () {
    ghost made = { λ answer channel. done_by answer };

    fn give(answer: Answer, channel: Option<Channel>) -> Result<()> {
        drop(channel);
        match answer {
            Answer::Connected | Answer::Done | Answer::Sent => Ok(()),
            Answer::Channel(..) | Answer::Flow(_) => Err(ErrorKind::NoMemory.into()),
        }
    }
}

impl Gives for bool {
    ghost made = { λ answer channel. flow_by answer };

    fn give(answer: Answer, channel: Option<Channel>) -> Result<bool> {
        drop(channel);
        match answer {
            Answer::Flow(active) => Ok(active),
            _ => Err(ErrorKind::NoMemory.into()),
        }
    }
}

impl Gives for Channel {
    ghost made = { channel_by };

    fn give(answer: Answer, channel: Option<Channel>) -> Result<Channel> {
        match (answer, channel) {
            (Answer::Channel(id, opened), Some(channel)) => Ok(channel.named(id, opened)),
            (_, channel) => {
                drop(channel);
                Err(ErrorKind::NoMemory.into())
            }
        }
    }
}

/// An answer that is to come. It is given once.
#[derive(Drop)]
pub struct Pending<T> {
    shared: Arc<Shared>,
    number: u64,
    receipt: Option<Receipt>,
    // says whether the answer is still to be taken; none for the opening of the connection, and for a
    // channel, whose own mark says it
    mark: Option<DropMark>,
    // the channel that is to be given, where one is
    channel: Mutex<Option<Channel>>,
    gives: PhantomData<T>,
}

// The answer to a promise once the session has ended: where it was taken before, the state that the session
// ended in.
fn at_the_end(locked: &mut Locked, number: u64) -> Result<Polled>
    ensures { IfOk result (λ p. NamesPromise number p.answer) }
{
    match locked.poll(number) {
        Some(polled) => Ok(polled),
        None => Err(ErrorKind::InvalidConnectionState(locked.session().state()).into()),
    }
}

impl<T: Gives> Pending<T> {
    // The answer to this promise.
    pub(crate) fn of(
        shared: Arc<Shared>,
        number: u64,
        receipt: Option<Receipt>,
        mark: Option<DropMark>,
        channel: Option<Channel>,
    ) -> Pending<T>
        ensures number { result.number ≡ number }
        ensures receipt { result.receipt ≡ receipt }
        ensures shared { result.shared ≡ shared }
    {
        Pending {
            shared,
            number,
            receipt,
            mark,
            channel: Mutex::new(channel),
            gives: PhantomData,
        }
    }

    /// Where the entry of its command stands; none for the opening of the connection.
    pub fn receipt(&self) -> Option<&Receipt>
        ensures { option_map (λ r. r.now) result ≡ self.now.receipt }
    {
        self.receipt.as_ref()
    }

    /// The answer, where it is there and was not taken.
    pub fn try_wait<R: Wait>(&self, rt: &R) -> Option<Result<T>>
        ensures { IfSome result (IsGivenBy T.made self.now.number) }
    {
        let polled = self.shared.locked.lock(rt).poll(self.number);
        match polled {
            Some(polled) => Some(self.given(rt, polled)),
            None => None,
        }
    }

    // What the answer is made into.
    fn given<R: Wait>(&self, rt: &R, polled: Polled) -> Result<T>
        requires { NamesPromise self.now.number polled.answer }
        ensures { IsGivenBy T.made self.now.number result }
    {
        let channel = self.channel.lock(rt).take();
        match polled.answer(self.mark.as_ref()) {
            Ok(answer) => T::give(answer, channel),
            Err(error) => {
                drop(channel);
                Err(error)
            }
        }
    }

    /// The answer; else the polled task waits for it, or, where no memory for its place was found, nothing
    /// has changed. An answer that was taken does not come again: once the session has ended, that is told
    /// as the state that it ended in.
    pub fn poll<R: Wait>(
        &self,
        rt: &R,
        cx: &mut Context<'_>,
    ) -> Poll<std::result::Result<Result<T>, NoMemory>>
        ensures given { IfReady result (λ r. IfOk r (IsGivenBy T.made self.now.number)) }
        ensures registered { OnPending result (Covers cx.new (λ s. s ≡ pending_source self.now)) }
        ensures kept { Keeps cx.old cx.new }
    {
        let mut guard = self.shared.locked.lock(rt);
        if guard.session().has_ended() {
            let polled = at_the_end(&mut guard, self.number);
            drop(guard);
            return Poll::Ready(Ok(self.made(rt, polled)));
        }
        let polled = guard.poll_or_register(self.number, &self.shared.source, cx);
        drop(guard);
        match polled {
            Poll::Ready(Ok(polled)) => Poll::Ready(Ok(self.given(rt, polled))),
            Poll::Ready(Err(refused)) => Poll::Ready(Err(refused)),
            Poll::Pending => Poll::Pending,
        }
    }

    /// Sleeps until the answer is there. An answer that was taken does not come again: once the session has
    /// ended, that is told as the state that it ended in.
    pub fn wait<R: Wait>(self, rt: &R) -> Result<T>
        ensures { IsGivenBy T.made self.number result }
    {
        let polled = self.polled(rt);
        self.made(rt, polled)
    }

    // What the answer is made into, where it was there.
    fn made<R: Wait>(&self, rt: &R, polled: Result<Polled>) -> Result<T>
        requires { IfOk polled (λ p. NamesPromise self.now.number p.answer) }
        ensures { IsGivenBy T.made self.now.number result }
    {
        match polled {
            Ok(polled) => self.given(rt, polled),
            Err(error) => Err(error),
        }
    }

    // The answer, once it is there.
    fn polled<R: Wait>(&self, rt: &R) -> Result<Polled>
        ensures { IfOk result (λ p. NamesPromise self.now.number p.answer) }
    {
        let mut guard = self.shared.locked.lock(rt);
        for _ in rt.forever() {
            if guard.session().has_ended() {
                return at_the_end(&mut guard, self.number);
            }
            if let Some(polled) = guard.poll(self.number) {
                return Ok(polled);
            }
            guard = self.shared.sleep(rt, guard, Waits::Answer);
        }
        unreachable!()
    }

    /// Sleeps until the answer is there, but no longer than so long: then there is none, and it is waited for as
    /// before.
    pub fn wait_for<R: Wait + Clock>(&self, rt: &R, limit: Duration) -> Option<Result<T>>
        ensures { IfSome result (IsGivenBy T.made self.now.number) }
    {
        match self.polled_within(rt, limit) {
            Some(polled) => Some(self.made(rt, polled)),
            None => None,
        }
    }

    // The answer, where it is there before so long has passed.
    fn polled_within<R: Wait + Clock>(&self, rt: &R, limit: Duration) -> Option<Result<Polled>>
        ensures { IfSome result (λ r. IfOk r (λ p. NamesPromise self.now.number p.answer)) }
    {
        let patience = Patience::of(rt, limit);
        let mut guard = self.shared.locked.lock(rt);
        for _ in rt.forever() {
            if guard.session().has_ended() {
                return Some(at_the_end(&mut guard, self.number));
            }
            if let Some(polled) = guard.poll(self.number) {
                return Some(Ok(polled));
            }
            let Some(left) = patience.left(rt) else {
                return None;
            };
            guard = self.shared.sleep_for(rt, guard, Waits::Answer, left);
        }
        unreachable!()
    }

    /// The same as a future, for an executor.
    pub fn answered<'a, R: Wait>(&'a self, rt: &'a R) -> Answered<'a, T, R> {
        Answered { pending: self, rt }
    }
}

/// A `Pending` as a future.
#[derive(Drop)]
pub struct Answered<'a, T, R> {
    pending: &'a Pending<T>,
    rt: &'a R,
}

impl<T: Gives, R: Wait> Future for Answered<'_, T, R> {
    type Output = std::result::Result<Result<T>, NoMemory>;

    ghost needs = { λ answered s. s ≡ pending_source answered.pending.now };

    fn poll(&mut self, cx: &mut Context<'_>) -> Poll<std::result::Result<Result<T>, NoMemory>> {
        self.pending.poll(self.rt, cx)
    }
}
