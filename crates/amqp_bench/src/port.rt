//! A port that takes all octets and counts them, and the spawner that gives it.

ghost use Rattle.std.specs.Prelude.{◌≡◌, ◌≤◌, None, false, OnOk, length, option_map};
ghost use Rattle.amqp_types.specs.Counts.{Rose};
ghost use Rattle.amqp_engine.specs.Log.{IsPiece};
ghost use Rattle.amqp_engine.specs.Counts.{is_fault};
ghost use Rattle.lapin_connection.specs.Refusals.{RoseIfRefused};

use amqp_engine::{Port, Step, Told, Wrote};
use amqp_types::NoMemory;
use amqp_uri::AMQPUri;
use lapin_connection::{Nudge, SpawnFault, Spawner, Started};
use std::snapshot::Snapshot;
use std::sync::Arc;
use std::sync::atomic::{AtomicU64, Ordering};
use std::thread;
use std::time::{Clock, Duration};

// What the server says: start, tune and open-ok of the connection, then open-ok of channel 1.
const START: &[u8] = b"\x01\x00\x00\x00\x00\x00\x25\x00\x0a\x00\x0a\x00\x09\x00\x00\x00\x00\
    \x00\x00\x00\x0ePLAIN AMQPLAIN\x00\x00\x00\x05en_US\xce";

const TUNE: &[u8] =
    b"\x01\x00\x00\x00\x00\x00\x0c\x00\x0a\x00\x1e\x07\xff\x00\x02\x00\x00\x00\x00\xce";

const OPEN_OK: &[u8] = b"\x01\x00\x00\x00\x00\x00\x05\x00\x0a\x00\x29\x00\xce";

const CHANNEL_OPEN_OK: &[u8] = b"\x01\x00\x01\x00\x00\x00\x08\x00\x14\x00\x0b\x00\x00\x00\x00\xce";

/// What a port counts, and whether its channel is asked for.
#[derive(Drop)]
pub struct Counts {
    /// The octets that it took.
    pub octets: AtomicU64,
    /// The ticks that it told.
    pub ticks: AtomicU64,
    /// 1 once channel 1 was asked for, so that the server opens it.
    pub asked: AtomicU64,
    /// 1 where the input of the link is to end.
    pub over: AtomicU64,
}

impl Counts {
    /// Nothing yet.
    pub fn new() -> Counts {
        Counts {
            octets: AtomicU64::new(0),
            ticks: AtomicU64::new(0),
            asked: AtomicU64::new(0),
            over: AtomicU64::new(0),
        }
    }
}

/// A port that opens a connection, and a channel once it is asked for, takes all octets, and gives ticks,
/// one each millisecond where it is to pause.
#[derive(Drop)]
pub struct Taking<R> {
    rt: R,
    counts: Arc<Counts>,
    pauses: bool,
    given: u64,
}

// What the server says next; nothing once it said all.
fn said(given: u64, asked: bool) -> &'static [u8]
    ensures { length result.now ≤ 64 }
{
    match given {
        1 => START,
        2 => TUNE,
        3 => OPEN_OK,
        4 if asked => CHANNEL_OPEN_OK,
        _ => b"",
    }
}

impl<R: Clock + Drop> Taking<R> {
    // A tick, after a pause where that is wanted; in the end, the end of the input.
    fn pause(&mut self) -> Step
        ensures piece { IsPiece result }
        ensures faultless { is_fault result ≡ false }
    {
        if self.counts.over.load(Ordering::SeqCst) == 1 {
            return Step::End;
        }
        self.counts.ticks.fetch_add(1, Ordering::SeqCst);
        if self.pauses {
            thread::sleep(&self.rt, Duration::from_millis(1));
        }
        Step::Tick
    }

    // A piece, or a tick where nothing is said.
    fn give(&mut self, space: &mut [u8]) -> Step
        requires { 4096 ≤ length space.old }
        ensures piece { IsPiece result }
        ensures faultless { is_fault result ≡ false }
    {
        let octets = said(self.given, self.counts.asked.load(Ordering::SeqCst) == 1);
        if octets.is_empty() {
            return self.pause();
        }
        self.given = self.given.saturating_add(1);
        space[..octets.len()].copy_from_slice(octets);
        Step::Piece(octets.len())
    }
}

impl<R: Clock + Drop> Port for Taking<R> {
    ghost log = { λ p. None };

    ghost faults = { λ p. 0 };

    ghost kept = { λ _. tt };

    fn connect(&mut self) {}

    fn next(&mut self, space: &mut [u8]) -> Told {
        let step = if self.given == 0 {
            self.given = 1;
            Step::Linked
        } else {
            self.give(space)
        };
        Told { at: 0, step }
    }

    fn write(&mut self, first: &[u8], second: &[u8]) -> Wrote {
        let taken = first.len() + second.len();
        self.counts.octets.fetch_add(taken as u64, Ordering::SeqCst);
        Wrote::Took(taken)
    }
}

/// Who gives such a port, once, and a thread.
#[derive(Drop)]
pub struct TakingSpawner<R> {
    rt: R,
    counts: Option<Arc<Counts>>,
    pauses: bool,
    loops: u64,
    // the address for which a port was asked for last, as contracts see it
    asked: Option<Snapshot<AMQPUri>>,
}

impl<R> TakingSpawner<R> {
    /// It gives a port that counts so.
    pub fn new(rt: R, counts: Arc<Counts>, pauses: bool) -> TakingSpawner<R> {
        TakingSpawner {
            rt,
            counts: Some(counts),
            pauses,
            loops: 0,
            asked: None,
        }
    }
}

impl<R: Clock + Copy + Send + Drop + 'static> Spawner for TakingSpawner<R> {
    type P = Taking<R>;

    ghost refusals = { λ s. 0 };

    ghost loops = { λ s. s.loops };

    ghost asked = { λ s. option_map (λ uri. uri.value) s.asked };

    fn port(&mut self, uri: &AMQPUri) -> Result<(Taking<R>, Nudge), SpawnFault> {
        self.asked = Some(Snapshot::of(uri));
        match self.counts.take() {
            Some(counts) => {
                let port = Taking {
                    rt: self.rt,
                    counts,
                    pauses: self.pauses,
                    given: 0,
                };
                Ok((port, Nudge::Silent))
            }
            None => Err(SpawnFault::NoMemory),
        }
    }

    fn spawn<F: FnOnce() -> Result<Started, NoMemory> + Drop>(
        &mut self,
        start: F,
    ) -> Result<Started, SpawnFault>
        requires { F.pre start }
        ensures count { 0 ≤ 0 }
        ensures rose { RoseIfRefused result 0 0 }
        ensures started { OnOk result (Rose self.old.loops self.new.loops) }
        ensures asked { self.new.asked ≡ self.old.asked }
    {
        match start() {
            Ok(started) => {
                self.loops = self.loops.saturating_add(1);
                Ok(started)
            }
            Err(NoMemory) => Err(SpawnFault::NoMemory),
        }
    }
}
