//! Whether there is room for what is to be sent.

ghost use Rattle.std.specs.Prelude.{◌≡◌};
ghost use Rattle.futures.specs.Task.{Covers, Keeps};
ghost use Rattle.futures.specs.Poll.{OnPending};
ghost use Rattle.amqp_locked.specs.UnderLock.{contents};
ghost use Rattle.amqp_locked.specs.Room.{finds_room, ends_waiting, told_of_room};
ghost use Rattle.amqp_locked.specs.Taking.{polled_of};

use super::Locked;
use super::sending::told_in;
use amqp_session::{ChanRef, ConnectionState, Result, Session};
use amqp_types::NoMemory;
use futures::task::{Context, Poll, Source};

impl Locked {
    /// What is known of room for so many octets: nothing while with them more would wait than may, and something
    /// waits; then Ok where the channel is open, and else the state that allows no publish. It is told too where the
    /// session is not open.
    pub fn room_on(&self, channel: ChanRef, octets: u64) -> Option<Result<()>>
        ensures { result ≡ told_of_room self.now.hub.engine.talk channel octets }
    {
        let session = self.hub.session();
        if ends_waiting(session.state(), finds_room(session, octets)) {
            return Some(told_in(session.channel_state(channel)));
        }
        None
    }

    /// The same; where nothing is known, the polled task waits at this source, or memory for its place is
    /// refused.
    pub fn room_or_register(
        &mut self,
        channel: ChanRef,
        octets: u64,
        source: &Source,
        cx: &mut Context<'_>,
    ) -> Poll<std::result::Result<Result<()>, NoMemory>>
        ensures room { polled_of result ≡ told_of_room self.old.hub.engine.talk channel octets }
        ensures rest { contents self.new ≡ contents self.old }
        ensures registered { OnPending result (Covers cx.new (λ s. s ≡ source.now.id)) }
        ensures kept { Keeps cx.old cx.new }
    {
        if let Some(room) = self.room_on(channel, octets) {
            return Poll::Ready(Ok(room));
        }
        match self.tasks.room.register(source, cx) {
            Ok(()) => Poll::Pending,
            Err(refused) => Poll::Ready(Err(refused)),
        }
    }
}

// Whether there is room for so many octets: with them no more would wait than may, or nothing waits.
fn finds_room(session: &Session, octets: u64) -> bool
    ensures { result ≡ finds_room octets session.now }
{
    session.overflow(octets).is_none() || session.waiting() == 0
}

// Whether nobody waits for room, in this state of the connection.
fn ends_waiting(state: ConnectionState, room: bool) -> bool
    ensures { result ≡ ends_waiting state room }
{
    match state {
        ConnectionState::Connected => room,
        _ => true,
    }
}
