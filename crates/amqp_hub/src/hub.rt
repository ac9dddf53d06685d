//! The value behind the lock: an engine, its journal, and the counts of its passes.

ghost use Rattle.std.specs.Prelude.{◌≡◌, ◌≤◌, ◌<◌, ◌⊎◌, ◌+◌, ◌++◌, ◌-◌, ℕ, [], true, false, IfOk, IfErr, IfNone, OnOk, OnErr, Some, Ok, Err, vec_capacity, length, replicate, IsOk, option_map, slice_get};
ghost use Rattle.amqp_types.specs.declared.text.Text.{Text};
ghost use Rattle.amqp_types.specs.Counts.{Rose};
ghost use Rattle.amqp_promise.specs.declared.io_fault.IoFault.{IoFault};
ghost use Rattle.amqp_rules.specs.Talk.{start, has_ended, end_of};
ghost use Rattle.amqp_rules.specs.Answers.{Takes, TakesEvent, take_frames};
ghost use Rattle.amqp_rules.specs.ChannelMethods.{frames_of};
ghost use Rattle.amqp_rules.specs.Commands.{promise_of};
ghost use Rattle.amqp_engine.specs.Engine.{begin, with_talk};
ghost use Rattle.amqp_engine.specs.Turn.{asks};
ghost use Rattle.amqp_engine.specs.Tell.{log_asks};
ghost use Rattle.amqp_engine.specs.Causes.{brought, fault_of};
ghost use Rattle.amqp_journal.specs.declared.entry.Entry.TheVariants.{Called};
ghost use Rattle.amqp_journal.specs.Journal.{WasTaken};
ghost use Rattle.amqp_hub.specs.Passes.{count_of, made_of, new_passes, AreNew, foreign, IsForeign, places, gapless};
ghost use Rattle.amqp_hub.specs.Guarded.{guarded};
ghost use Rattle.amqp_hub.specs.Entering.{with_engine, called, next_entry, TakesStep, starved_at, begun_anew, let_go};

mod entering;
mod looking;
mod owning;
mod passes;

use crate::base::Base;
use amqp_engine::{IoLoop, Port, Told};
use amqp_journal::Entry;
use amqp_session::{Answer, AuthProvider, Cmd, ErrorKind, Event, Handed, IoFault, Result};
use std::alloc::Global;
use std::marker::Model;
use std::snapshot::Snapshot;

/// A caller's right to command. It is not copied.
#[derive(Debug, Drop)]
pub struct Pass {
    number: u32,
    made: u64,
}

/// Where a command stands in a journal. Contracts also see the command, its promise, and the journal with
/// its base as they were when the command was entered: the entry stood there, and it was the last of the
/// pass, whose entries had all the places up to it.
#[derive(Drop)]
pub struct Receipt {
    pass: u32,
    nth: u64,
    entry: u64,
    cmd: Snapshot<Cmd>,
    promise: Snapshot<Option<u64>>,
    base: Snapshot<Base>,
    journal: Snapshot<Vec<Entry>>,
    ghost since: { base.value.entries ≤ entry },
    ghost stands: { slice_get journal.value.items (entry - base.value.entries)
        ≡ Some (Called pass nth cmd.value promise.value) },
    ghost placed: { places pass journal.value.items ≡ gapless (made_of pass base.value.made) nth },
}

/// How many commands were made with each of some passes. Contracts also see the hub at the hold in which
/// they were counted: the journal with its base, and the counts of all passes, up to which the places of
/// each pass stand in the journal.
#[derive(Drop)]
pub struct Tally {
    counts: Vec<u64>,
    base: Snapshot<Base>,
    journal: Snapshot<Vec<Entry>>,
    held: Snapshot<Vec<u64>>,
    ghost placed: { (p : ℕ) → places p journal.value.items
        ≡ gapless (made_of p base.value.made) (made_of p held.value.items) },
}

/// How the session of a hub ended. A hub alone makes one.
#[derive(Debug, Drop)]
pub struct Ended {
    end: Result<()>,
}

/// An engine with all that happened to it.
#[derive(Drop)]
pub struct Hub {
    alloc: Global,
    engine: IoLoop,
    base: Base,
    journal: Vec<Entry>,
    counts: Vec<u64>,
}

impl Model for Hub {
    ghost use Rattle.amqp_hub.specs.Guarded.{Guarded};

    ghost Value = { Guarded };

    ghost use Rattle.std.specs.Coded.{codes};
    ghost use Rattle.amqp_types.specs.ValueCode.{value_code};

    ghost coded = { Prim.hlevel (codes, value_code) };

    ghost use Rattle.std.specs.Prelude.{vec_len, vec_capacity};
    ghost use Rattle.amqp_hub.specs.Guarded.{guarded, IsKept, HasSpare};

    ghost view = { λ h. guarded h.engine h.base h.journal.items h.counts.items };

    ghost invariant = { λ h. IsKept (guarded h.engine h.base h.journal.items h.counts.items)
        × HasSpare h.engine (vec_len h.journal) (vec_capacity h.journal) };
}

impl Pass {
    /// Its number, from 1 on.
    pub fn number(&self) -> u32
        ensures { result ≡ self.now.number }
    {
        self.number
    }

    /// How many commands were made with it.
    pub fn made(&self) -> u64
        ensures { result ≡ self.now.made }
    {
        self.made
    }
}

impl Receipt {
    /// The number of the pass.
    pub fn pass(&self) -> u32
        ensures { result ≡ self.now.pass }
    {
        self.pass
    }

    /// The place among the commands of the pass, from 1 on.
    pub fn nth(&self) -> u64
        ensures { result ≡ self.now.nth }
    {
        self.nth
    }

    /// The index of the entry, from 0 on; those that were let go are counted too.
    pub fn entry(&self) -> u64
        ensures { result ≡ self.now.entry }
    {
        self.entry
    }
}

impl Tally {
    /// The counts, in the order of the passes.
    pub fn counts(&self) -> &[u64]
        ensures { result.now ≡ self.now.counts.items }
    {
        &self.counts
    }
}

impl Ended {
    /// The end.
    pub fn result(self) -> Result<()>
        ensures { result ≡ self.end }
    {
        self.end
    }
}

impl Hub {
    /// A hub of a new engine, which asks the port for a link. Its journal begins there, without an entry.
    pub fn new<P: Port>(alloc: Global, engine: IoLoop, port: &mut P) -> Result<Hub>
        requires { engine ≡ begin (start engine.talk.config) }
        ensures ok { IfOk result (λ h. h
            ≡ guarded (asks engine) (record { engine = engine; entries = 0; made = [] }) [] []) }
        ensures told { OnOk result (P.log port.new ≡ option_map (log_asks engine) (P.log port.old)) }
        ensures err { OnErr result (port.new ≡ port.old) }
        ensures only { IfErr result (λ e. e ≡ ErrorKind.NoMemory) }
        ensures faults { P.faults port.old ≤ P.faults port.new }
        ensures kept { P.kept port.new ≡ P.kept port.old }
    {
        match entering::begun(alloc, &engine) {
            Ok((base, journal)) => Ok(Hub::over(alloc, engine, base, journal, port)),
            Err(refused) => {
                drop(engine);
                Err(refused.into())
            }
        }
    }

    // The same, once there is its memory.
    fn over<P: Port>(
        alloc: Global,
        mut engine: IoLoop,
        base: Base,
        journal: Vec<Entry>,
        port: &mut P,
    ) -> Hub
        requires new { engine ≡ begin (start engine.talk.config) }
        requires begins { base ≡ record { engine = engine; entries = 0; made = [] } }
        requires empty { journal.items ≡ [] }
        requires spare { 1 ≤ vec_capacity journal }
        ensures hub { result ≡ guarded (asks engine) base [] [] }
        ensures told { P.log port.new ≡ option_map (log_asks engine) (P.log port.old) }
        ensures faults { P.faults port.old ≤ P.faults port.new }
        ensures kept { P.kept port.new ≡ P.kept port.old }
    {
        engine.ask(port);
        Hub {
            alloc,
            engine,
            base,
            journal,
            counts: Vec::new(alloc),
        }
    }

    /// New passes, numbered on, with no command made: as many as the lesser of the count and of the
    /// numbers that are left.
    pub fn passes(&mut self, count: u32) -> Result<Vec<Pass>>
        ensures passes { IfOk result (λ passes. AreNew (length self.old.counts) passes.items) }
        ensures many { IfOk result (λ passes. length passes.items ≡ new_passes count (length self.old.counts)) }
        ensures counts { OnOk result (self.new ≡ guarded self.old.engine self.old.base self.old.journal
            (self.old.counts ++ replicate (new_passes count (length self.old.counts)) 0)) }
        ensures err { OnErr result (self.new ≡ self.old) }
        ensures only { IfErr result (λ e. e ≡ ErrorKind.NoMemory) }
        ensures promises { self.old.engine.talk.made ≤ self.new.engine.talk.made }
    {
        Ok(passes::numbered(self.alloc, &mut self.counts, count)?)
    }

    /// Tells the session to do something, by a caller with a pass, and enters that. It gives the number of
    /// the promise that will be answered, and where the entry stands.
    pub fn command(&mut self, pass: &mut Pass, cmd: Cmd) -> Result<(Option<u64>, Receipt)>
        ensures foreign { IsForeign (foreign pass.old self.old.counts) result }
        ensures unchanged { OnErr result (self.new ≡ self.old) }
        ensures same { OnErr result (pass.new ≡ pass.old) }
        ensures home { OnOk result (count_of pass.old.number self.old.counts ≡ Some pass.old.made) }
        ensures entry { OnOk result (self.new ≡ called pass.old.number (pass.old.made + 1) cmd self.old) }
        ensures made { OnOk result (pass.new.made ≡ pass.old.made + 1) }
        ensures number { pass.new.number ≡ pass.old.number }
        ensures promise { IfOk result (λ r. r.0 ≡ promise_of cmd self.old.engine.talk) }
        ensures receipt { IfOk result (λ r. (r.1.pass ≡ pass.old.number) × (r.1.nth ≡ pass.old.made + 1)
            × (r.1.entry ≡ next_entry self.old)) }
        ensures shown { IfOk result (λ r. (r.1.cmd.value ≡ cmd) × (r.1.promise.value ≡ r.0)) }
        ensures hold { IfOk result (λ r. (r.1.base.value ≡ self.new.base)
            × (r.1.journal.value.items ≡ self.new.journal)) }
        ensures promises { self.old.engine.talk.made ≤ self.new.engine.talk.made }
    {
        if let Err(foreign) = passes::admits(&self.counts, pass) {
            drop(cmd);
            return Err(foreign.into());
        }
        let kept = match entering::kept_copy(self.alloc, &mut self.journal, &cmd, pass.made) {
            Ok(kept) => kept,
            Err(refused) => {
                drop(cmd);
                return Err(refused.into());
            }
        };
        match self.engine.command(cmd) {
            Ok(promise) => {
                let receipt = entering::enter(
                    &self.base,
                    &mut self.journal,
                    &mut self.counts,
                    pass,
                    kept,
                    promise,
                );
                Ok((promise, receipt))
            }
            Err(refused) => {
                drop(kept);
                Err(refused)
            }
        }
    }

    /// One turn from its step on, whose bytes are those of its piece, and its entry; last a link that is
    /// wanted then is asked for. Memory for the entry is made first: where it is refused, nothing of the
    /// turn is done, port and provider are left alone, and the session has ended.
    pub fn apply<P: Port, A: AuthProvider>(
        &mut self,
        told: Told,
        bytes: &[u8],
        port: &mut P,
        provider: &mut A,
    ) -> Result<()>
        requires { A.can provider.old }
        ensures can { A.can provider.new }
        ensures ok { OnOk result (TakesStep false told.at told.step bytes.now self.old.engine self.new.engine
            self.old.journal self.new.journal (P.log port.old) (P.log port.new)
            (A.allows provider.old) (A.allows provider.new)) }
        ensures err { OnErr result (TakesStep true told.at told.step bytes.now self.old.engine self.new.engine
            self.old.journal self.new.journal (P.log port.old) (P.log port.new)
            (A.allows provider.old) (A.allows provider.new)
            ⊎ ((self.new ≡ starved_at told.at told.step self.old)
            × (port.new ≡ port.old) × (provider.new ≡ provider.old))) }
        ensures base { self.new.base ≡ self.old.base }
        ensures counts { self.new.counts ≡ self.old.counts }
        ensures ended { OnErr result (has_ended self.new.engine.talk ≡ true) }
        ensures only { IfErr result (λ e. e ≡ ErrorKind.NoMemory) }
        ensures promises { self.old.engine.talk.made ≤ self.new.engine.talk.made }
        ensures faults { P.faults port.old ≤ P.faults port.new }
        ensures kept { P.kept port.new ≡ P.kept port.old }
        ensures never_falls { A.refusals provider.old ≤ A.refusals provider.new }
        ensures io_error_counted { (fault : IoFault) → has_ended self.old.engine.talk ≡ false
            → fault_of self.new.engine.talk ≡ Some fault
            → (brought told.step self.old.engine.talk ≡ Some fault)
            ⊎ ((fault ≡ IoFault.BrokenPipe) × Rose (P.faults port.old) (P.faults port.new)) }
        ensures refusal_counted { (text : Text) → has_ended self.old.engine.talk ≡ false
            → end_of self.new.engine.talk ≡ Some (Err (ErrorKind.AuthProviderError text))
            → Rose (A.refusals provider.old) (A.refusals provider.new) }
    {
        match entering::turn_copy(self.alloc, &mut self.journal, &told, bytes) {
            Ok(turn) => entering::take_turn(
                &mut self.engine,
                &mut self.journal,
                turn,
                told,
                bytes,
                port,
                provider,
            ),
            Err(refused) => {
                self.starve(told);
                Err(refused.into())
            }
        }
    }

    /// The turn of this step is cut before its first part, and its entry stands in the spare place; what
    /// has ended has none. It takes no memory.
    pub fn starve(&mut self, told: Told)
        ensures hub { self.new ≡ starved_at told.at told.step self.old }
        ensures ended { has_ended self.new.engine.talk ≡ true }
        ensures promises { self.old.engine.talk.made ≤ self.new.engine.talk.made }
    {
        if self.engine.session().has_ended() {
            drop(told);
            return;
        }
        self.engine.starve(told.at);
        let turn = entering::cut_turn(self.alloc, told);
        self.journal.push_reserved(Entry::Turn(turn));
    }

    /// Takes the answer to a promise, where there is one that was not taken. It adds no entry. Once the
    /// session has ended it gives none only of a promise whose answer was taken before. An answer that a
    /// channel is open names the promise itself.
    pub fn poll(&mut self, number: u64) -> Option<Result<Answer>>
        ensures taken { Takes number result self.old.engine.talk self.new.engine.talk }
        ensures rest { self.new ≡ with_engine (record self.old.engine { talk = self.new.engine.talk }) self.old }
        ensures none_pending { IfNone result (has_ended self.old.engine.talk ≡ true
            → number < self.old.engine.talk.made
            → WasTaken number self.old.base.engine self.old.journal self.old.engine) }
        ensures channel { (id opened : ℕ) → result ≡ Some (Ok (Answer.Channel id opened)) → opened ≡ number }
        ensures promises { self.old.engine.talk.made ≤ self.new.engine.talk.made }
    {
        self.engine.answer(number)
    }

    /// Takes the first event that was not taken, where there is one. It adds no entry.
    pub fn event(&mut self) -> Option<Event>
        ensures taken { TakesEvent result self.old.engine.talk self.new.engine.talk }
        ensures rest { self.new ≡ with_engine (record self.old.engine { talk = self.new.engine.talk }) self.old }
        ensures promises { self.old.engine.talk.made ≤ self.new.engine.talk.made }
    {
        self.engine.event()
    }

    /// Takes the frames handed out of the channel that a promise opened, in order, as many as were not yet
    /// taken. It adds no entry.
    pub fn take_frames(&mut self, opened: u64) -> Result<Vec<Handed>>
        ensures frames { IfOk result (λ frames. frames.items ≡ frames_of opened self.old.engine.talk) }
        ensures taken { self.new ≡ with_engine (with_talk (take_frames opened) self.old.engine) self.old }
        ensures takes_no_memory { IsOk result }
        ensures promises { self.old.engine.talk.made ≤ self.new.engine.talk.made }
    {
        Ok(self.engine.take_frames(opened)?)
    }

    /// Lets the journal begin anew where the engine stands, and gives how many entries were let go. Where
    /// more than 2^63 ever came, none is.
    pub fn settle(&mut self) -> Result<u64>
        ensures settled { OnOk result (self.new ≡ begun_anew self.old) }
        ensures let_go { IfOk result (λ n. n ≡ let_go self.old) }
        ensures err { OnErr result (self.new ≡ self.old) }
        ensures only { IfErr result (λ e. e ≡ ErrorKind.NoMemory) }
        ensures promises { self.old.engine.talk.made ≤ self.new.engine.talk.made }
    {
        let count = self.journal.len() as u64;
        let entries = self.base.entries() + count;
        if entries > 1 << 63 {
            return Ok(0);
        }
        let base = match entering::base_of(self.alloc, &self.engine, entries, &self.counts) {
            Ok(base) => base,
            Err(refused) => return Err(refused.into()),
        };
        entering::begin_anew(&mut self.base, &mut self.journal, base);
        Ok(count)
    }
}
