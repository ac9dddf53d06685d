//! The loop of a connection.

ghost use Rattle.std.specs.Prelude.{◌≡◌, ◌≤◌, IfOk, length};

use crate::shared::Shared;
use crate::spawner::Started;
use amqp_engine::Port;
use amqp_hub::Ended;
use amqp_locked::{Line, hear};
use amqp_session::{AuthProvider, Result};
use amqp_types::NoMemory;
use std::alloc::Global;
use std::sync::{Arc, Wait};
use std::thread;
use std::thread::Threads;
use std::time::{Clock, Duration};

/// The greatest number of octets of a piece.
const PIECE: usize = 4096;

/// What runs on the thread of a connection: it owns the port and who answers the server, and lends them to
/// each turn.
#[derive(Drop)]
pub struct LoopJob<P: Port, A: AuthProvider> {
    line: Line<P>,
    provider: A,
    shared: Arc<Shared>,
    // where the port puts its pieces
    space: Vec<u8>,
    ghost wide: { 4096 ≤ length space.items },
}

impl<P: Port + Drop, A: AuthProvider> LoopJob<P, A> {
    // A loop over this port.
    pub(crate) fn new(
        alloc: Global,
        port: P,
        provider: A,
        shared: Arc<Shared>,
    ) -> std::result::Result<LoopJob<P, A>, NoMemory>
        ensures { IfOk result (λ job. job.provider ≡ provider) }
    {
        let space = vec![in alloc; 0; PIECE]?;
        Ok(LoopJob {
            line: Line::new(port),
            provider,
            shared,
            space,
        })
    }

    /// One turn after another, until the session has ended, and how it ended. The lock is let go between
    /// two turns, and while the port waits for its next step. Where callers are ahead of the loop, they have a moment
    /// before it hears the next one.
    pub fn run<R: Wait + Clock>(self, rt: &R) -> Ended
        requires { A.can self.provider }
    {
        let LoopJob {
            mut line,
            mut provider,
            shared,
            mut space,
        } = self;
        for _ in rt.forever() {
            let heard = hear(&mut line, &mut space);
            if let Some(ended) = shared.turn(rt, heard, &mut line, &mut provider) {
                return ended;
            }
            shared.rest(rt);
            shared.gather(rt);
        }
        unreachable!()
    }
}

/// Starts a loop on a thread of its own.
pub(crate) fn start_thread<
    P: Port + Send + Drop + 'static,
    A: AuthProvider + 'static,
    R: Threads + Wait + Clock + Copy + Send + 'static,
>(rt: R, job: LoopJob<P, A>) -> std::result::Result<Started, NoMemory>
    requires { A.can job.provider }
{
    match thread::spawn(
        &rt,
        move ||
            requires { A.can job.provider }
        {
            drop(job.run(&rt));
        },
    ) {
        Ok(thread) => Ok(Started::on(thread)),
        Err(_) => Err(NoMemory),
    }
}

/// What waits for the end of a connection. The loop's thread is on its own: what waits is told by the hold
/// of the lock that found the end.
#[derive(Drop)]
pub struct ThreadHandle {
    shared: Arc<Shared>,
}

impl ThreadHandle {
    // What waits for the end of what is shared.
    pub(crate) fn of(shared: Arc<Shared>) -> ThreadHandle {
        ThreadHandle { shared }
    }

    /// Waits for the end of the connection, as often as it is asked. The context says to a reader what is
    /// waited for, and nothing is done with it. On the thread of the loop it does not return.
    pub fn wait<R: Wait>(&self, rt: &R, _context: &'static str) -> Result<()> {
        self.shared.wait_for_the_end(rt).result()
    }

    /// The same, but no longer than so long: then nothing is told, and the connection goes on.
    pub fn wait_for<R: Wait + Clock>(&self, rt: &R, limit: Duration) -> Option<Result<()>> {
        match self.shared.wait_for_the_end_within(rt, limit) {
            Some(ended) => Some(ended.result()),
            None => None,
        }
    }
}
