//! A port before a server that says each piece once it has heard all that it waits for, and the spawner
//! that gives it.

ghost use Rattle.std.specs.Prelude.{◌≡◌, ◌≤◌, ◌<◌, None, IfSome, OnOk, length, option_map};
ghost use Rattle.amqp_types.specs.Counts.{Rose};
ghost use Rattle.amqp_engine.specs.Counts.{HasCause};
ghost use Rattle.amqp_engine.specs.Log.{IsPiece};
ghost use Rattle.lapin_connection.specs.Refusals.{RoseIfRefused};

use amqp_engine::{Port, Step, Told, Wrote};
use amqp_types::NoMemory;
use amqp_uri::AMQPUri;
use amqp_vectors::{octets_of, push_octets};
use lapin_connection::{Nudge, SpawnFault, Spawner, Started};
use std::alloc::Global;
use std::snapshot::Snapshot;
use std::test::Fail;
use std::thread;
use std::time::{Clock, Duration};

/// After so many ticks, the input of the link ends.
const MOST_TICKS: u64 = 10_000;

/// What a server hears next, and what it says then. Both are texts in hexadecimal.
#[derive(Clone, Copy)]
pub struct Exchange {
    pub hears: &'static [&'static str],
    pub says: &'static str,
}

/// What a server says once it has heard so many octets. Where that is nothing, its input ends.
#[derive(Drop)]
pub struct Piece {
    heard: usize,
    says: Vec<u8>,
}

/// What a server hears, and what it says.
#[derive(Drop)]
pub struct Script {
    hears: Vec<u8>,
    pieces: Vec<Piece>,
}

impl Script {
    /// The octets of these exchanges. After so many answers the server says nothing more.
    pub fn new(alloc: Global, exchanges: &[Exchange], answers: usize) -> Result<Script, Fail> {
        let mut script = Script {
            hears: Vec::new(alloc),
            pieces: Vec::new(alloc),
        };
        match script.push_all(alloc, exchanges, answers) {
            Ok(()) => Ok(script),
            Err(fail) => {
                drop(script);
                Err(fail)
            }
        }
    }

    // These exchanges go last, of which so many are answered.
    fn push_all(
        &mut self,
        alloc: Global,
        exchanges: &[Exchange],
        answers: usize,
    ) -> Result<(), Fail> {
        for exchange in exchanges {
            for text in exchange.hears {
                push_octets(&mut self.hears, text)?;
            }
            if self.pieces.len() < answers {
                self.push_piece(alloc, exchange.says)?;
            } else {
                self.push_piece(alloc, "")?;
            }
        }
        Ok(())
    }

    // What is said once all so far was heard goes last.
    fn push_piece(&mut self, alloc: Global, text: &str) -> Result<(), Fail> {
        let says = octets_of(alloc, text)?;
        let heard = self.hears.len();
        self.pieces.push(Piece { heard, says })?;
        Ok(())
    }
}

/// A port before a server. Where the server hears another octet than it waits for, it says nothing more.
#[derive(Drop)]
pub struct ServerPort<R> {
    rt: R,
    script: Script,
    // whether a link was asked for, and how many octets were heard as they were waited for
    asked: bool,
    heard: usize,
    // how many pieces were said, and how many ticks were told
    said: usize,
    ticks: u64,
}

impl<R: Clock + Drop> ServerPort<R> {
    // What the server says next, where all that it waits for was heard. A piece stands in the space.
    fn answer(&mut self, space: &mut [u8]) -> Option<Step>
        requires { 4096 ≤ length space.old }
        ensures piece { IfSome result IsPiece }
        ensures cause { IfSome result (λ step. HasCause step 0 0) }
    {
        let piece = self.script.pieces.get(self.said)?;
        let n = piece.says.len();
        if self.heard < piece.heard || n > 4096 {
            return None;
        }
        if n == 0 {
            return Some(Step::End);
        }
        space[..n].copy_from_slice(&piece.says);
        self.said = self.said.saturating_add(1);
        Some(Step::Piece(n))
    }

    // Time passes; in the end the input ends.
    fn pause(&mut self) -> Step
        ensures piece { IsPiece result }
        ensures cause { HasCause result 0 0 }
    {
        if self.ticks >= MOST_TICKS {
            return Step::End;
        }
        self.ticks = self.ticks.saturating_add(1);
        thread::sleep(&self.rt, Duration::from_millis(1));
        Step::Tick
    }

    // Hears these octets.
    fn hear(&mut self, octets: &[u8]) {
        for octet in octets {
            if self.waits_for(*octet) {
                self.heard = self.heard.saturating_add(1);
            }
        }
    }

    // Whether this octet is waited for next.
    fn waits_for(&self, octet: u8) -> bool {
        self.script.hears.get(self.heard) == Some(&octet)
    }
}

impl<R: Clock + Drop> Port for ServerPort<R> {
    ghost log = { λ p. None };

    ghost faults = { λ p. 0 };

    ghost kept = { λ p. tt };

    fn connect(&mut self) {
        self.asked = true;
    }

    fn next(&mut self, space: &mut [u8]) -> Told {
        let step = if self.asked {
            self.asked = false;
            Step::Linked
        } else {
            match self.answer(space) {
                Some(step) => step,
                None => self.pause(),
            }
        };
        Told { at: 0, step }
    }

    fn write(&mut self, first: &[u8], second: &[u8]) -> Wrote {
        self.hear(first);
        self.hear(second);
        Wrote::Took(first.len() + second.len())
    }
}

/// Where a spawner refuses.
#[derive(Clone, Copy, PartialEq, Eq)]
pub enum Refuses {
    Nowhere,
    Port,
    Thread,
}

/// A spawner that gives one port before a server, or refuses once; and counts its refusals.
#[derive(Drop)]
pub struct ServerSpawner<R> {
    rt: R,
    script: Option<Script>,
    refuses: Refuses,
    refused: u64,
    loops: u64,
    // the address for which a port was asked for last, as contracts see it
    asked: Option<Snapshot<AMQPUri>>,
}

impl<R> ServerSpawner<R> {
    /// It gives a port before a server of this script, and refuses once, if it does.
    pub fn new(rt: R, script: Script, refuses: Refuses) -> ServerSpawner<R> {
        ServerSpawner {
            rt,
            script: Some(script),
            refuses,
            refused: 0,
            loops: 0,
            asked: None,
        }
    }

    /// How often it refused.
    pub fn refused(&self) -> u64 {
        self.refused
    }
}

impl<R: Clock + Copy + Send + Drop + 'static> Spawner for ServerSpawner<R> {
    type P = ServerPort<R>;

    ghost refusals = { λ s. s.refused };

    ghost loops = { λ s. s.loops };

    ghost asked = { λ s. option_map (λ uri. uri.value) s.asked };

    fn port(&mut self, uri: &AMQPUri) -> Result<(ServerPort<R>, Nudge), SpawnFault> {
        self.asked = Some(Snapshot::of(uri));
        if self.refuses == Refuses::Port {
            self.refuses = Refuses::Nowhere;
            self.refused = self.refused.saturating_add(1);
            return Err(SpawnFault::Refused);
        }
        match self.script.take() {
            Some(script) => Ok((
                ServerPort {
                    rt: self.rt,
                    script,
                    asked: false,
                    heard: 0,
                    said: 0,
                    ticks: 0,
                },
                Nudge::Silent,
            )),
            None => Err(SpawnFault::NoMemory),
        }
    }

    fn spawn<F: FnOnce() -> Result<Started, NoMemory> + Drop>(
        &mut self,
        start: F,
    ) -> Result<Started, SpawnFault>
        requires { F.pre start }
        ensures count { self.old.refused ≤ self.new.refused }
        ensures rose { RoseIfRefused result self.old.refused self.new.refused }
        ensures started { OnOk result (Rose self.old.loops self.new.loops) }
        ensures asked { self.new.asked ≡ self.old.asked }
    {
        if self.refuses == Refuses::Thread {
            self.refuses = Refuses::Nowhere;
            self.refused = self.refused.saturating_add(1);
            drop(start);
            return Err(SpawnFault::Refused);
        }
        match start() {
            Ok(started) => {
                self.loops = self.loops.saturating_add(1);
                Ok(started)
            }
            Err(NoMemory) => Err(SpawnFault::NoMemory),
        }
    }
}
