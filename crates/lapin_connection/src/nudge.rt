//! What ends a port's wait, and what a port is shown of its session.

ghost use Rattle.std.specs.Prelude.{◌≡◌};
ghost use Rattle.lapin_connection.specs.Shown.{standing_of, is_watched};

use amqp_session::ConnectionState;
use amqp_socket::{Standing, Watch};
use mio::Waker;
use std::sync::Arc;

/// What ends a port's wait for its next step once there is something to do.
#[derive(Drop)]
pub enum Nudge {
    /// The port looks by itself.
    Silent,
    /// The port waits for the system by `mio`.
    Mio(Arc<Waker>),
    /// The same, and the port is shown how the session stands.
    Watched(Arc<Waker>, Arc<Watch>),
}

// How a session stands in this state, as far as its port asks.
fn standing_of(state: ConnectionState) -> Standing
    ensures { result ≡ standing_of state }
{
    match state {
        ConnectionState::Initial | ConnectionState::Connecting | ConnectionState::Reconnecting => {
            Standing::Opening
        }
        ConnectionState::Closing => Standing::Closing,
        ConnectionState::Connected | ConnectionState::Closed | ConnectionState::Error => {
            Standing::Open
        }
    }
}

impl Nudge {
    /// Ends the wait. Where the system refuses that, the port finds at its next tick what there is to do.
    pub fn wake(&self) {
        match self {
            Nudge::Silent => {}
            Nudge::Mio(waker) | Nudge::Watched(waker, _) => drop(waker.wake()),
        }
    }

    // Shows the port the state of the session. Who calls it holds the lock, so the last state is shown last.
    pub(crate) fn show(&self, state: ConnectionState) {
        if let Nudge::Watched(_, watch) = self {
            watch.tell(standing_of(state));
        }
    }

    // Tells the port that nobody waits for the session any more, where it can be told, and whether it can.
    pub(crate) fn abandon(&self) -> bool
        ensures { result ≡ is_watched self.now }
    {
        match self {
            Nudge::Silent | Nudge::Mio(_) => false,
            Nudge::Watched(_, watch) => {
                watch.abandon();
                self.wake();
                true
            }
        }
    }
}
