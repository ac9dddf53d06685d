//! A port that tells nothing but that time passes, and what would end its wait, which is a test's own.

ghost use Rattle.std.specs.Prelude.{◌≡◌, ◌≤◌, None, OnOk, option_map};
ghost use Rattle.amqp_types.specs.Counts.{Rose};
ghost use Rattle.lapin_connection.specs.Refusals.{RoseIfRefused};

use amqp_engine::{Port, Step, Told, Wrote};
use amqp_types::NoMemory;
use amqp_uri::AMQPUri;
use lapin_connection::{Nudge, SpawnFault, Spawner, Started};
use mio::Waker;
use std::snapshot::Snapshot;
use std::sync::Arc;
use std::sync::atomic::{AtomicU64, Ordering};
use std::thread;
use std::time::{Clock, Duration};

/// The port goes on.
pub const GOES_ON: u64 = 0;

/// Its input is to end.
pub const ENDS: u64 = 1;

/// It is to stand still.
pub const STOPS: u64 = 2;

/// It stands still.
pub const STANDS: u64 = 3;

/// A port that has a link, and looks each 5 milliseconds what it is to do.
#[derive(Drop)]
pub struct Quiet<R> {
    rt: R,
    orders: Arc<AtomicU64>,
    linked: bool,
}

impl<R: Clock> Quiet<R> {
    // Stands still for as long as it is to.
    fn stand(&self) {
        for _ in 0..u64::MAX {
            let order = self.orders.load(Ordering::SeqCst);
            if order == STOPS {
                self.orders.store(STANDS, Ordering::SeqCst);
            } else if order != STANDS {
                return;
            }
            thread::sleep(&self.rt, Duration::from_millis(1));
        }
    }
}

impl<R: Clock + Drop> Port for Quiet<R> {
    ghost log = { λ p. None };

    ghost faults = { λ p. 0 };

    ghost kept = { λ _. tt };

    fn connect(&mut self) {}

    fn next(&mut self, _space: &mut [u8]) -> Told {
        if !self.linked {
            self.linked = true;
            return Told {
                at: 0,
                step: Step::Linked,
            };
        }
        self.stand();
        if self.orders.load(Ordering::SeqCst) == ENDS {
            return Told {
                at: 0,
                step: Step::End,
            };
        }
        thread::sleep(&self.rt, Duration::from_millis(5));
        Told {
            at: 0,
            step: Step::Tick,
        }
    }

    fn write(&mut self, first: &[u8], second: &[u8]) -> Wrote {
        Wrote::Took(first.len() + second.len())
    }
}

/// Who gives such a port, once, with what is to end its wait.
#[derive(Drop)]
pub struct QuietSpawner<R> {
    rt: R,
    given: Option<(Arc<Waker>, Arc<AtomicU64>)>,
    loops: u64,
    // the address for which a port was asked for last, as contracts see it
    asked: Option<Snapshot<AMQPUri>>,
}

impl<R> QuietSpawner<R> {
    /// It gives a port with this waker, which does what that says.
    pub fn new(rt: R, waker: Arc<Waker>, orders: Arc<AtomicU64>) -> QuietSpawner<R> {
        QuietSpawner {
            rt,
            given: Some((waker, orders)),
            loops: 0,
            asked: None,
        }
    }
}

impl<R: Clock + Copy + Send + Drop + 'static> Spawner for QuietSpawner<R> {
    type P = Quiet<R>;

    ghost refusals = { λ s. 0 };

    ghost loops = { λ s. s.loops };

    ghost asked = { λ s. option_map (λ uri. uri.value) s.asked };

    fn port(&mut self, uri: &AMQPUri) -> Result<(Quiet<R>, Nudge), SpawnFault> {
        self.asked = Some(Snapshot::of(uri));
        match self.given.take() {
            Some((waker, orders)) => {
                let port = Quiet {
                    rt: self.rt,
                    orders,
                    linked: false,
                };
                Ok((port, Nudge::Mio(waker)))
            }
            None => Err(SpawnFault::NoMemory),
        }
    }

    fn spawn<F: FnOnce() -> Result<Started, NoMemory> + Drop>(
        &mut self,
        start: F,
    ) -> Result<Started, SpawnFault>
        requires { F.pre start }
        ensures count { 0 ≤ 0 }
        ensures rose { RoseIfRefused result 0 0 }
        ensures started { OnOk result (Rose self.old.loops self.new.loops) }
        ensures asked { self.new.asked ≡ self.old.asked }
    {
        match start() {
            Ok(started) => {
                self.loops = self.loops.saturating_add(1);
                Ok(started)
            }
            Err(NoMemory) => Err(SpawnFault::NoMemory),
        }
    }
}
