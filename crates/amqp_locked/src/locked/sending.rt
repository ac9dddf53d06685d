//! What is known of what was sent.

ghost use Rattle.std.specs.Prelude.{◌≡◌};
ghost use Rattle.futures.specs.Task.{Covers, Keeps};
ghost use Rattle.futures.specs.Poll.{OnPending};
ghost use Rattle.amqp_locked.specs.UnderLock.{contents};
ghost use Rattle.amqp_locked.specs.Looking.{has_gone_out};
ghost use Rattle.amqp_locked.specs.Sending.{told_in, told_of_sent};
ghost use Rattle.amqp_locked.specs.Taking.{polled_of};
ghost use Rattle.amqp_locked.specs.Turning.{cleared_after};

use super::Locked;
use crate::late::is_sent;
use amqp_promise::ChannelState;
use amqp_session::{ChanRef, ErrorKind, Result, Session};
use amqp_types::{NoMemory, Word};
use futures::task::{Context, Poll, Source};

impl Locked {
    /// Whether nothing waits to go out of what was sent once so many promises had been made: there was a moment
    /// since at which nothing waited, or the session is not open.
    pub fn is_sent(&self, made: u64) -> bool
        ensures { result ≡ has_gone_out self.now.hub.engine.talk.state self.now.cleared made }
    {
        is_sent(self.hub.session().state(), self.cleared, made)
    }

    /// What is known of what was sent on a channel once so many promises had been made: nothing while some of it
    /// may wait to go out; then Ok where the channel is open, and else the state that allows no publish.
    pub fn sent_on(&self, channel: ChanRef, made: u64) -> Option<Result<()>>
        ensures { result ≡ told_of_sent self.now.hub.engine.talk self.now.cleared channel made }
    {
        if self.is_sent(made) {
            return Some(told_in(self.hub.session().channel_state(channel)));
        }
        None
    }

    /// The same; where nothing is known, the polled task waits at this source, or memory for its place is
    /// refused.
    pub fn sent_or_register(
        &mut self,
        channel: ChanRef,
        made: u64,
        source: &Source,
        cx: &mut Context<'_>,
    ) -> Poll<std::result::Result<Result<()>, NoMemory>>
        ensures sent { polled_of result ≡ told_of_sent self.old.hub.engine.talk self.old.cleared channel made }
        ensures rest { contents self.new ≡ contents self.old }
        ensures registered { OnPending result (Covers cx.new (λ s. s ≡ source.now.id)) }
        ensures kept { Keeps cx.old cx.new }
    {
        if let Some(sent) = self.sent_on(channel, made) {
            return Poll::Ready(Ok(sent));
        }
        match self.tasks.room.register(source, cx) {
            Ok(()) => Poll::Pending,
            Err(refused) => Poll::Ready(Err(refused)),
        }
    }
}

/// How many promises had been made when nothing waited to go out for the last time, where that was so many before:
/// as many as are made, where nothing waits.
pub(super) fn cleared_after(session: &Session, before: u64) -> u64
    ensures { result ≡ cleared_after session.now before }
{
    if session.waiting() == 0 && session.unsent() == 0 {
        session.promises()
    } else {
        before
    }
}

/// What is told of a channel in this state once nobody waits for what goes out.
pub(super) fn told_in(state: ChannelState) -> Result<()>
    ensures { result ≡ told_in state }
{
    match state {
        ChannelState::Connected => Ok(()),
        _ => Err(ErrorKind::InvalidChannelState(state, Word::Publish).into()),
    }
}
