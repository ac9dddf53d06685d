//! Marks that are put off.

ghost use Rattle.std.specs.Prelude.{◌≡◌};
ghost use Rattle.amqp_locked.specs.UnderLock.{put_off};
ghost use Rattle.amqp_locked.specs.Looking.{has_gone_out, is_clear, may_be_found};

use amqp_hub::Found;
use amqp_session::ConnectionState;

/// The mark of a channel that was dropped, which is put off while something that was sent on it may wait to go
/// out, and the moment of the turn that met it.
#[derive(Drop)]
pub(crate) struct Late {
    pub(crate) found: Found,
    pub(crate) since: u64,
}

impl Late {
    /// Whether nothing that was sent on its channel waits to go out, where nothing waited for the last time once
    /// so many promises had been made.
    pub(crate) fn is_clear(&self, state: ConnectionState, cleared: u64) -> bool
        ensures { result ≡ is_clear state cleared (put_off self.now) }
    {
        is_sent(state, cleared, self.found.sent())
    }

    /// Whether it may be found at this moment: then, or once it was put off for as long as the limit is.
    pub(crate) fn may_be_found(
        &self,
        at: u64,
        state: ConnectionState,
        cleared: u64,
        limit: u64,
    ) -> bool
        ensures { result ≡ may_be_found at state cleared limit (put_off self.now) }
    {
        self.is_clear(state, cleared) || at.saturating_sub(self.since) >= limit
    }
}

/// Whether nothing waits to go out of what was sent once so many promises had been made, where nothing waited for
/// the last time at another such count: there was a moment since at which nothing waited, or the session is not
/// open.
pub(crate) fn is_sent(state: ConnectionState, cleared: u64, made: u64) -> bool
    ensures { result ≡ has_gone_out state cleared made }
{
    match state {
        ConnectionState::Connected => made <= cleared,
        _ => true,
    }
}
