//! A port whose steps a story lets through, and the spawner that gives it.

ghost use Rattle.std.specs.Prelude.{◌≡◌, ◌≤◌, None, OnOk, length, option_map};
ghost use Rattle.amqp_types.specs.Counts.{Rose};
ghost use Rattle.amqp_engine.specs.Log.{IsPiece};
ghost use Rattle.lapin_connection.specs.Refusals.{RoseIfRefused};

use amqp_engine::{Port, Step, Told, Wrote};
use amqp_stories::{Server, ends_with, push_names};
use amqp_types::NoMemory;
use amqp_uri::AMQPUri;
use futures::spin::lock;
use lapin_connection::{Nudge, SpawnFault, Spawner, Started};
use std::alloc::{AllocError, Global};
use std::snapshot::Snapshot;
use std::sync::atomic::{AtomicU64, Ordering};
use std::sync::{Arc, Mutex, Wait};
use std::thread;
use std::time::{Clock, Duration};

/// After so many ticks of a gate without a command, the input of its link ends.
const MOST_TICKS: u64 = 10_000;

/// What a gate port shares with its story: the server behind it, how many commands have their numbers, and
/// for how many milliseconds nothing is told before the next step.
#[derive(Drop)]
pub struct Gate {
    within: Mutex<Within>,
    commands: AtomicU64,
    silent: AtomicU64,
}

// The server; how many ticks were told in place of its steps; how many commands had their numbers at the last
// step, and how many ticks were told since the last one had; each step that was told, by its kind; how many of
// the octets that it heard were looked at; and the host and the port that were asked for last.
#[derive(Drop)]
struct Within {
    server: Server,
    ticks: u64,
    seen: u64,
    idle: u64,
    told: Vec<u64>,
    looked: usize,
    address: String,
}

/// The kind of a step: a piece is told by its length.
pub fn kind_of(step: &Step) -> u64 {
    match step {
        Step::Linked => 0,
        Step::LinkFailed => 1,
        Step::End => 2,
        Step::Fault => 3,
        Step::Room => 4,
        Step::Tick => 5,
        Step::Command(_) => 6,
        Step::Piece(n) => (*n as u64).saturating_add(8),
    }
}

// A step that tells nothing of the server: time passes, and after so many of them the input ends.
fn pause(idle: u64) -> Step
    ensures { IsPiece result }
{
    if idle < MOST_TICKS {
        Step::Tick
    } else {
        Step::End
    }
}

impl Within {
    // A tick is told, so many commands having their numbers. A loop that was shut out stays so.
    fn count_tick(&mut self, commands: u64) {
        self.ticks = self.ticks.saturating_add(1);
        if commands != self.seen && self.idle < MOST_TICKS {
            self.seen = commands;
            self.idle = 0;
        }
        self.idle = self.idle.saturating_add(1);
    }

    // The next step, so many commands having their numbers.
    fn next(&mut self, commands: u64, space: &mut [u8]) -> Step
        requires { 4096 ≤ length space.old }
        ensures { IsPiece result }
    {
        let step = match self.server.next(commands, space) {
            Some(step) => step,
            None => {
                self.count_tick(commands);
                pause(self.idle)
            }
        };
        let _ = self.told.push(kind_of(&step));
        step
    }
}

impl Gate {
    /// A gate before the server of a script.
    pub fn new(alloc: Global, script: &str) -> Result<Arc<Gate>, NoMemory> {
        let within = Within {
            server: Server::new(alloc, script)?,
            ticks: 0,
            seen: 0,
            idle: 0,
            told: Vec::new(alloc),
            looked: 0,
            address: String::new(alloc),
        };
        let gate = Gate {
            within: Mutex::new(within),
            commands: AtomicU64::new(0),
            silent: AtomicU64::new(0),
        };
        Ok(Arc::new(alloc, gate)?)
    }

    /// One command more has its number.
    pub fn count(&self) {
        self.commands.fetch_add(1, Ordering::SeqCst);
    }

    /// So many commands have their numbers.
    pub fn let_through(&self, commands: u64) {
        self.commands.store(commands, Ordering::SeqCst);
    }

    /// For so many milliseconds nothing is told before the next step.
    pub fn be_silent(&self, milliseconds: u64) {
        self.silent.store(milliseconds, Ordering::SeqCst);
    }

    /// From now on the input of the link ends, so that a loop ends.
    pub fn shut<R: Wait>(&self, rt: &R) {
        let mut within = self.within.lock(rt);
        within.idle = MOST_TICKS;
        within.server.stop();
    }

    /// How many ticks were told.
    pub fn ticks<R: Wait>(&self, rt: &R) -> u64 {
        self.within.lock(rt).ticks
    }

    /// Waits until so many ticks more were told.
    pub fn tick<R: Wait + Clock>(&self, rt: &R, count: u64) {
        let wanted = self.ticks(rt).saturating_add(count);
        for _ in 0..MOST_TICKS {
            if self.ticks(rt) >= wanted {
                return;
            }
            thread::sleep(rt, Duration::from_millis(1));
        }
    }

    // Whether what was heard ends with the frame of this name.
    fn has_heard<R: Wait>(&self, rt: &R, alloc: Global, name: &str) -> Result<bool, AllocError> {
        let within = self.within.lock(rt);
        ends_with(alloc, within.server.heard(), name)
    }

    /// Waits until what was heard ends with the frame of this name, for as long as a gate tells ticks. Whether
    /// it does.
    pub fn hears<R: Wait + Clock>(
        &self,
        rt: &R,
        alloc: Global,
        name: &str,
    ) -> Result<bool, AllocError> {
        for _ in 0..MOST_TICKS {
            if self.has_heard(rt, alloc, name)? {
                return Ok(true);
            }
            thread::sleep(rt, Duration::from_millis(1));
        }
        Ok(false)
    }

    /// The names of the frames that were heard since the last look, each behind a blank.
    pub fn look<R: Wait>(&self, rt: &R, alloc: Global) -> Result<String, AllocError> {
        let mut told = String::new(alloc);
        let mut within = self.within.lock(rt);
        let heard = within.server.heard();
        let from = within.looked.min(heard.len());
        let looked = heard.len();
        push_names(&mut told, &heard[from..])?;
        within.looked = looked;
        Ok(told)
    }

    // A port to this address is asked for.
    fn asked_for(&self, uri: &AMQPUri) {
        if let Some(mut within) = lock(&self.within) {
            let host = uri.authority.host.as_str();
            let port = uri.authority.port;
            within.address.clear();
            let _ = write!(within.address, "{host}:{port}");
        }
    }

    /// The host and the port that were asked for last.
    pub fn address<R: Wait>(&self, rt: &R, alloc: Global) -> Result<String, AllocError> {
        String::from_str(alloc, self.within.lock(rt).address.as_str())
    }

    /// Whether the steps that were told are these, by their kinds.
    pub fn told_so<R: Wait>(&self, rt: &R, kinds: &[u64]) -> bool {
        let within = self.within.lock(rt);
        within.told.as_slice() == kinds
    }
}

/// A gate, for a story and for its port.
pub fn gates(alloc: Global, script: &str) -> Result<(Arc<Gate>, Arc<Gate>), NoMemory> {
    let gate = Gate::new(alloc, script)?;
    let theirs = Arc::try_clone(&gate)?;
    Ok((gate, theirs))
}

/// A port before a gate. Until a step is let through, a tick is told each millisecond.
#[derive(Drop)]
pub struct GatePort<R> {
    rt: R,
    gate: Arc<Gate>,
    faults: u64,
}

impl<R: Clock + Drop> Port for GatePort<R> {
    ghost log = { λ p. None };

    ghost faults = { λ p. p.faults };

    ghost kept = { λ _. tt };

    fn connect(&mut self) {}

    fn next(&mut self, space: &mut [u8]) -> Told {
        let silent = self.gate.silent.swap(0, Ordering::SeqCst);
        if silent > 0 {
            thread::sleep(&self.rt, Duration::from_millis(silent));
        }
        let commands = self.gate.commands.load(Ordering::SeqCst);
        let step = match lock(&self.gate.within) {
            Some(mut within) => within.next(commands, space),
            None => Step::Tick,
        };
        match &step {
            Step::LinkFailed | Step::Fault => self.faults = self.faults.saturating_add(1),
            Step::Tick => thread::sleep(&self.rt, Duration::from_millis(1)),
            _ => {}
        }
        Told { at: 0, step }
    }

    fn write(&mut self, first: &[u8], second: &[u8]) -> Wrote {
        let took = match lock(&self.gate.within) {
            Some(mut within) => within.server.hear(first) && within.server.hear(second),
            None => false,
        };
        if took {
            Wrote::Took(first.len() + second.len())
        } else {
            Wrote::NoMemory
        }
    }
}

/// Where a spawner refuses.
#[derive(Clone, Copy)]
pub enum Refuses {
    Nowhere,
    Port,
    Thread,
}

/// A spawner that gives one port, and counts its refusals.
#[derive(Drop)]
pub struct GateSpawner<R> {
    rt: R,
    gate: Option<Arc<Gate>>,
    refuses: Refuses,
    refused: u64,
    loops: u64,
    // the address for which a port was asked for last, as contracts see it
    asked: Option<Snapshot<AMQPUri>>,
}

impl<R> GateSpawner<R> {
    /// It gives a port before this gate, and refuses once, if it does.
    pub fn new(rt: R, gate: Arc<Gate>, refuses: Refuses) -> GateSpawner<R> {
        GateSpawner {
            rt,
            gate: Some(gate),
            refuses,
            refused: 0,
            loops: 0,
            asked: None,
        }
    }

    /// How often it refused.
    pub fn refused(&self) -> u64 {
        self.refused
    }
}

impl<R: Clock + Copy + Send + Drop + 'static> Spawner for GateSpawner<R> {
    type P = GatePort<R>;

    ghost refusals = { λ s. s.refused };

    ghost loops = { λ s. s.loops };

    ghost asked = { λ s. option_map (λ uri. uri.value) s.asked };

    fn port(&mut self, uri: &AMQPUri) -> Result<(GatePort<R>, Nudge), SpawnFault> {
        self.asked = Some(Snapshot::of(uri));
        if matches!(self.refuses, Refuses::Port) {
            self.refuses = Refuses::Nowhere;
            self.refused = self.refused.saturating_add(1);
            return Err(SpawnFault::Refused);
        }
        match self.gate.take() {
            Some(gate) => {
                gate.asked_for(uri);
                let port = GatePort {
                    rt: self.rt,
                    gate,
                    faults: 0,
                };
                Ok((port, Nudge::Silent))
            }
            None => Err(SpawnFault::NoMemory),
        }
    }

    fn spawn<F: FnOnce() -> Result<Started, NoMemory> + Drop>(
        &mut self,
        start: F,
    ) -> Result<Started, SpawnFault>
        requires { F.pre start }
        ensures count { self.old.refused ≤ self.new.refused }
        ensures rose { RoseIfRefused result self.old.refused self.new.refused }
        ensures started { OnOk result (Rose self.old.loops self.new.loops) }
        ensures asked { self.new.asked ≡ self.old.asked }
    {
        if matches!(self.refuses, Refuses::Thread) {
            self.refuses = Refuses::Nowhere;
            self.refused = self.refused.saturating_add(1);
            drop(start);
            return Err(SpawnFault::Refused);
        }
        match start() {
            Ok(started) => {
                self.loops = self.loops.saturating_add(1);
                Ok(started)
            }
            Err(NoMemory) => Err(SpawnFault::NoMemory),
        }
    }
}
