//! A port over given steps, which always tells.

ghost use Rattle.std.specs.Prelude.{◌≡◌, ◌≤◌, ◌<◌, ◌+◌, ◌++◌, Some, IfOk, OnOk, OnErr, refl, length, map, take, vec_len, vec_capacity};
ghost use Rattle.amqp_engine.specs.Plan.{step_of, bytes_of, room_after, fails_after, room_for, less_room, more_room, IsGivenPiece, ArePieces};
ghost use Rattle.amqp_engine.specs.Making.{happening_of};
ghost use Rattle.amqp_engine.specs.Log.{Log, loaded, on_last, piece_len, links_after, asked_after};

use crate::given::{Given, GivenStep};
use crate::port::{Happening, Port, ScriptedPort, Step, Told, Write, Wrote};
use crate::taken_bytes::TakenBytes;
use amqp_types::{NoMemory, Payload};
use std::alloc::Global;
use std::collections::VecDeque;
use std::marker::Model;

/// A port that plays a script, and keeps what it took. After the last given step it gives ticks of
/// the last moment.
#[derive(Debug, Drop)]
pub struct MemoryPort {
    alloc: Global,
    // the steps that were told, and how many there were with the ticks that tell no new moment
    steps: Vec<Happening>,
    told: u64,
    // what is still to be given, and the same to be told
    rest: VecDeque<Given>,
    coming: VecDeque<Happening>,
    // how many bytes the link still takes, or none where it takes all
    room: Option<u64>,
    // whether the next write fails
    fails: bool,
    moment: u64,
    // whether a link is asked for, and how many steps had been told when it was last
    asked: bool,
    asked_at: Option<u64>,
    links: Vec<TakenBytes>,
    writes: Vec<Write>,
    // how often it failed
    faults: u64,
}

impl Model for MemoryPort {
    ghost use Rattle.std.specs.Prelude.{◌≡◌, ◌≤◌, ◌+◌, Some, length, map, vec_capacity, vec_len};
    ghost use Rattle.amqp_engine.specs.Plan.{ArePieces};
    ghost use Rattle.amqp_engine.specs.Making.{happening_of};
    ghost use Rattle.amqp_engine.specs.Log.{KeptInMemory};

    ghost Value = { KeptInMemory };

    ghost view = { λ p. record {
      log = record {
        steps = p.steps.items;
        told = p.told;
        moment = p.moment;
        writes = p.writes.items;
        links = p.links.items;
        asked = p.asked;
        asked_at = p.asked_at;
        plan = Some (record { rest = p.rest.items; room = p.room; fails = p.fails; moment = p.moment });
      };
      faults = p.faults;
    } };

    // Each step that is left has its copy, and its places among the steps and the links.
    ghost invariant = { λ p. (map happening_of p.rest.items ≡ p.coming.items)
        × (vec_len p.steps + length p.rest.items ≤ vec_capacity p.steps)
        × (vec_len p.links + length p.rest.items ≤ vec_capacity p.links)
        × ArePieces p.rest.items };
}

impl MemoryPort {
    /// A port that plays these steps. A copy of each step and a place for it are made at once, so
    /// that giving them takes no memory.
    pub fn new(alloc: Global, steps: Vec<Given>) -> Result<MemoryPort, NoMemory>
        requires { ArePieces steps.items }
        ensures { IfOk result (λ p. p ≡ record { log = loaded steps.items; faults = 0 }) }
    {
        let mut port = MemoryPort {
            alloc,
            steps: Vec::new(alloc),
            told: 0,
            rest: VecDeque::new(alloc),
            coming: VecDeque::new(alloc),
            room: Some(0),
            fails: false,
            moment: 0,
            asked: false,
            asked_at: None,
            links: Vec::new(alloc),
            writes: Vec::new(alloc),
            faults: 0,
        };
        port.load(steps)?;
        Ok(port)
    }

    /// How many steps were told since a script was loaded, a number that stays at its greatest.
    pub fn told(&self) -> u64
        ensures { result ≡ self.now.log.told }
    {
        self.told
    }
}

impl Port for MemoryPort {
    ghost log = { λ p. Some p.log };

    ghost faults = { λ p. p.faults };

    ghost kept = { λ _. tt };

    fn connect(&mut self) {
        if !self.asked {
            self.asked_at = Some(self.told);
        }
        self.asked = true;
    }

    fn next(&mut self, space: &mut [u8]) -> Told {
        let Some(Given { at, what }) = self.rest.pop_front() else {
            self.told = self.told.saturating_add(1);
            return Told {
                at: self.moment,
                step: Step::Tick,
            };
        };
        let repeated = at == self.moment && matches!(what, GivenStep::Tick);
        if let Some(mut happening) = self.coming.pop_front() {
            happening.before = self.told;
            if repeated {
                drop(happening);
            } else {
                self.steps.push_reserved(happening);
            }
        }
        self.told = self.told.saturating_add(1);
        self.moment = at;
        self.fails = fails_after(&what, self.fails);
        let step = give(
            self.alloc,
            what,
            &mut self.links,
            &mut self.asked,
            &mut self.room,
            space,
        );
        if step.is_fault() {
            self.faults = self.faults.saturating_add(1);
        }
        Told { at, step }
    }

    fn write(&mut self, first: &[u8], second: &[u8]) -> Wrote {
        let offered = first.len() + second.len();
        let n = fitting(self.room, offered);
        if self.writes.reserve(1).is_err() {
            return Wrote::NoMemory;
        }
        if self.fails {
            self.fails = false;
            self.faults = self.faults.saturating_add(1);
            self.writes.push_reserved(Write {
                before: self.told,
                offered,
                answer: Wrote::Failed,
            });
            return Wrote::Failed;
        }
        if append_last(&mut self.links, first, second, n).is_err() {
            return Wrote::NoMemory;
        }
        if let Some(left) = self.room {
            self.room = Some(left - n as u64);
        }
        self.writes.push_reserved(Write {
            before: self.told,
            offered,
            answer: Wrote::Took(n),
        });
        Wrote::Took(n)
    }
}

impl ScriptedPort for MemoryPort {
    ghost links_taken = { λ p. p.log.links };

    ghost ties = { λ p. refl };

    fn load(&mut self, steps: Vec<Given>) -> Result<(), NoMemory> {
        let coming = told_all(self.alloc, &steps)?;
        let mut places = Vec::new(self.alloc);
        places.reserve(steps.len())?;
        let mut links = Vec::new(self.alloc);
        links.reserve(steps.len())?;
        self.rest = VecDeque::from_vec(steps);
        self.coming = coming;
        self.steps = places;
        self.told = 0;
        self.links = links;
        self.room = Some(0);
        self.fails = false;
        self.moment = 0;
        self.asked = false;
        self.asked_at = None;
        self.writes.clear();
        Ok(())
    }

    fn links(&self) -> usize {
        self.links.len()
    }

    fn link(&self, k: usize) -> &[u8] {
        self.links[k].as_bytes()
    }
}

// The steps of a script, as they will be told.
fn told_all(alloc: Global, steps: &[Given]) -> Result<VecDeque<Happening>, NoMemory>
    ensures { IfOk result (λ coming. coming.items ≡ map happening_of steps.now) }
{
    let mut coming = VecDeque::new(alloc);
    coming.reserve(steps.len())?;
    'steps: for given in steps {
        coming.push_back_reserved(told_of(alloc, given)?);
    }
    Ok(coming)
}

// A step, as it will be told.
fn told_of(alloc: Global, given: &Given) -> Result<Happening, NoMemory>
    ensures { IfOk result (λ h. h ≡ happening_of given.now) }
{
    let bytes = match &given.what {
        GivenStep::Bytes(bytes) => bytes.try_clone(alloc)?,
        _ => Payload::empty(alloc),
    };
    let step = match &given.what {
        GivenStep::Link(_) => Step::Linked,
        GivenStep::Refuse => Step::LinkFailed,
        GivenStep::Bytes(bytes) => Step::Piece(bytes.len()),
        GivenStep::End => Step::End,
        GivenStep::Fault => Step::Fault,
        GivenStep::Room(_) | GivenStep::WriteFail => Step::Room,
        GivenStep::Tick => Step::Tick,
        GivenStep::Command(command) => Step::Command(command.try_clone(alloc)?),
    };
    Ok(Happening {
        before: 0,
        at: given.at,
        step,
        bytes,
    })
}

// What a given step does to the port, and the step that is told of it.
fn give(
    alloc: Global,
    what: GivenStep,
    links: &mut Vec<TakenBytes>,
    asked: &mut bool,
    room: &mut Option<u64>,
    space: &mut [u8],
) -> Step
    requires piece { IsGivenPiece what }
    requires space { 4096 ≤ length space.old }
    requires place { vec_len links.old < vec_capacity links.old }
    ensures step { result ≡ step_of what }
    ensures bytes { take (piece_len (step_of what)) space.new ≡ bytes_of what }
    ensures links { links.new.items ≡ links_after (step_of what) asked.old links.old.items }
    ensures asked { asked.new ≡ asked_after (step_of what) asked.old }
    ensures room { room.new ≡ room_after asked.old what room.old }
    ensures capacity { vec_capacity links.new ≡ vec_capacity links.old }
{
    match what {
        GivenStep::Link(given_room) => {
            if *asked {
                links.push_reserved(TakenBytes::new(alloc));
                *room = given_room;
            }
            *asked = false;
            Step::Linked
        }
        GivenStep::Refuse => {
            *asked = false;
            Step::LinkFailed
        }
        GivenStep::Bytes(bytes) => {
            put(space, bytes.as_bytes());
            Step::Piece(bytes.len())
        }
        GivenStep::End => Step::End,
        GivenStep::Fault => Step::Fault,
        GivenStep::Room(more) => {
            if let Some(left) = *room {
                *room = Some(left.saturating_add(more));
            }
            Step::Room
        }
        GivenStep::WriteFail => Step::Room,
        GivenStep::Tick => Step::Tick,
        GivenStep::Command(command) => Step::Command(command),
    }
}

// Whether the next write fails after a given step.
fn fails_after(what: &GivenStep, fails: bool) -> bool
    ensures { result ≡ fails_after what.now fails }
{
    fails || matches!(what, GivenStep::WriteFail)
}

// Puts a piece at the front of the space.
fn put(space: &mut [u8], bytes: &[u8])
    requires { length bytes.now ≤ length space.old }
    ensures { take (length bytes.now) space.new ≡ bytes.now }
{
    let n = bytes.len();
    space[..n].copy_from_slice(bytes);
}

// The lesser of what is offered and the room.
fn fitting(room: Option<u64>, offered: usize) -> usize
    ensures fits { result ≡ room_for room offered }
    ensures within { result ≤ offered }
{
    match room {
        Some(left) if left < offered as u64 => left as usize,
        _ => offered,
    }
}

// The first n bytes of both slices together go last on the last link, if there is one.
fn append_last(
    links: &mut Vec<TakenBytes>,
    first: &[u8],
    second: &[u8],
    n: usize,
) -> Result<(), NoMemory>
    requires { n ≤ length first.now + length second.now }
    ensures ok { OnOk result
        (links.new.items ≡ on_last (λ link. link ++ take n (first.now ++ second.now)) links.old.items) }
    ensures err { OnErr result (links.new.items ≡ links.old.items) }
    ensures capacity { vec_capacity links.new ≡ vec_capacity links.old }
{
    let count = links.len();
    if count == 0 {
        return Ok(());
    }
    links[count - 1].append(first, second, n)
}
