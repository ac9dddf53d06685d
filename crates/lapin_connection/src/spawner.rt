//! Who gives ports and threads.

ghost use Rattle.std.specs.Prelude.{◌≡◌, ◌≤◌, ℕ, Option, Some, OnOk};
ghost use Rattle.amqp_types.specs.Counts.{Rose};
ghost use Rattle.amqp_uri.specs.declared.uri.AMQPUri.{AMQPUri as Uri};
ghost use Rattle.lapin_connection.specs.Refusals.{RoseIfRefused};

use crate::nudge::Nudge;
use amqp_engine::Port;
use amqp_socket::Cause;
use amqp_types::NoMemory;
use amqp_uri::AMQPUri;
use std::thread::JoinHandle;

/// A loop that was started. What starts loops alone makes one, so a spawner has one only where it
/// started the loop that it was given, or keeps that of an earlier one.
pub struct Started {
    thread: JoinHandle<()>,
}

impl Drop for Started {
    fn drop(self) {
        let Started { thread } = self;
        drop(thread);
    }
}

impl Started {
    // The loop runs on this thread.
    pub(crate) fn on(thread: JoinHandle<()>) -> Started {
        Started { thread }
    }
}

/// Why no loop was started.
#[derive(Clone, Copy, Debug, PartialEq, Eq)]
pub enum SpawnFault {
    /// The spawner refused, which its count tells.
    Refused,
    /// Memory was refused.
    NoMemory,
}

/// Who gives ports and threads: the runtime of a connection.
pub trait Spawner {
    /// The ports that it gives.
    type P: Port + Send + Drop + 'static;

    /// How often it refused, a count that never falls.
    ghost refusals: { Self → ℕ };

    /// How many loops it started: it rises with each.
    ghost loops: { Self → ℕ };

    /// The address for which it was asked for a port last.
    ghost asked: { Self → Option Uri };

    /// A port for a connection to this address, which has no link yet, and what wakes it once a command
    /// has come. Of the commands between two turns the first alone wakes it, so a port that was woken has to
    /// give a step. One that nothing wakes has to give a step at least each half second.
    fn port(&mut self, uri: &AMQPUri) -> Result<(Self::P, Nudge), SpawnFault>
        ensures count { refusals self.old ≤ refusals self.new }
        ensures rose { RoseIfRefused result (refusals self.old) (refusals self.new) }
        ensures loops { loops self.new ≡ loops self.old }
        ensures asked { asked self.new ≡ Some uri.now };

    /// Calls `start`, which starts a loop on a thread of its own, or refuses. Where it refuses, the loop
    /// and all that it owns are let go.
    fn spawn<F: FnOnce() -> Result<Started, NoMemory> + Drop>(
        &mut self,
        start: F,
    ) -> Result<Started, SpawnFault>
        requires { F.pre start }
        ensures count { refusals self.old ≤ refusals self.new }
        ensures rose { RoseIfRefused result (refusals self.old) (refusals self.new) }
        ensures started { OnOk result (Rose (loops self.old) (loops self.new)) }
        ensures asked { asked self.new ≡ asked self.old };

    /// Why the last link failed of the last port that it gave, as that says; nothing where no port says so.
    fn cause(&self) -> Cause {
        Cause::Nothing
    }
}
