//! What lies under the lock: a hub, the places of its handles, and who waits to be woken.

ghost use Rattle.std.specs.Prelude.{◌≡◌, ◌≤◌, ◌<◌, ◌⊎◌, ◌+◌, ◌++◌, ℕ, [], true, map, replicate, ◌∷◌, IfOk, IfErr, IfNone, IfSome, OnOk, OnErr, None, Some, Ok, length, IsSome, false, not, Option};
ghost use Rattle.std.specs.Fn.{FnOnceReturnsAtMut, CalledAtMut};
ghost use Rattle.futures.specs.Task.{Covers, Keeps};
ghost use Rattle.futures.specs.Poll.{OnPending};
ghost use Rattle.amqp_rules.specs.Talk.{has_ended};
ghost use Rattle.amqp_rules.specs.Answers.{Takes, take_frames};
ghost use Rattle.amqp_rules.specs.ChannelMethods.{frames_of};
ghost use Rattle.amqp_rules.specs.Commands.{promise_of, takes_promise};
ghost use Rattle.amqp_rules.specs.Queries.{opening};
ghost use Rattle.amqp_journal.specs.Journal.{WasTaken};
ghost use Rattle.amqp_hub.specs.Passes.{new_passes, AreNew, foreign, IsForeign};
ghost use Rattle.amqp_hub.specs.Entering.{called, next_entry};
ghost use Rattle.amqp_hub.specs.Guarded.{Guarded};
ghost use Rattle.amqp_hub.specs.Lending.{GoesOn};
ghost use Rattle.amqp_hub.specs.Marks.{kept_in, StandsAt};
ghost use Rattle.amqp_locked.specs.UnderLock.{contents, watched, with_hub, with_nudge, with_limit, with_session, newly_locked};
ghost use Rattle.amqp_locked.specs.Turning.{TurnsAfterMarks, StarvesAfterMarks};
ghost use Rattle.amqp_locked.specs.Taking.{answer_given, polled_of};
ghost use Rattle.amqp_locked.specs.Backlog.{frames_kept, frames_next, frames_after, TakesFirst};
ghost use Rattle.amqp_locked.specs.Recovering.{FoundOf};
ghost use Rattle.amqp_locked.specs.Waking.{AreWoken};

use self::sending::cleared_after;
use crate::backlog::Backlog;
use crate::heard::{Heard, Line};
use crate::late::Late;
use crate::pace::Pace;
use crate::polled::{Polled, Taken};
use crate::reading::Reading;
use crate::tasks::Tasks;
use crate::waking::{News, Seen};
use crate::weights::Weights;
use amqp_engine::Port;
use amqp_hub::{DropMark, Found, Hub, Owner, Pass, Places, Receipt};
use amqp_promise::ChannelState;
use amqp_session::{Answer, AuthProvider, ChanRef, Cmd, Error, ErrorKind, Event, Handed, Result};
use amqp_types::NoMemory;
use futures::task::{Context, Poll, Source};
use std::alloc::Global;
use std::collections::VecDeque;

mod bounding;
mod letting_go;
mod looking;
mod reading;
mod room;
mod sending;
mod settling;
mod turning;

// How long the mark of a channel is put off, where nothing else is said.
const DROP_LIMIT: u64 = 60_000;

/// What lies under the lock of a connection.
#[derive(Drop)]
pub struct Locked {
    alloc: Global,
    hub: Hub,
    places: Places,
    // the marks that were found and are not done with
    found: Vec<Found>,
    // what nobody will take, and how much of it came since it was last let go
    unasked: VecDeque<Owner>,
    fresh: usize,
    // the marks of channels that are put off, and how long one is
    late: VecDeque<Late>,
    limit: u64,
    // how many promises had been made when nothing waited to go out for the last time
    cleared: u64,
    // whether the loop was nudged since its last turn
    nudged: bool,
    // what the entries weigh that were looked at, and how many these are
    weights: Weights,
    weighed: usize,
    // what waits to be taken beside the session, where only so much may
    backlog: Backlog,
    // what was seen of the turns, how far the frames of the link came, and how the callers go on
    seen: Seen,
    reading: Reading,
    pace: Pace,
    tasks: Tasks,
}

impl Locked {
    /// A hub with one handle, the connection, and its mark.
    pub fn new(alloc: Global, hub: Hub) -> Result<(Locked, DropMark)>
        ensures locked { IfOk result (λ r. contents r.0 ≡ newly_locked hub) }
        ensures only { IfErr result (λ e. e ≡ ErrorKind.NoMemory) }
    {
        match first_place(alloc) {
            Ok((places, mark)) => Ok((
                Locked {
                    alloc,
                    hub,
                    places,
                    found: Vec::new(alloc),
                    unasked: VecDeque::new(alloc),
                    fresh: 0,
                    late: VecDeque::new(alloc),
                    limit: DROP_LIMIT,
                    cleared: 0,
                    nudged: false,
                    weights: Weights::none(),
                    weighed: 0,
                    backlog: Backlog::new(alloc),
                    seen: Seen::nothing(),
                    reading: Reading::new(),
                    pace: Pace::new(),
                    tasks: Tasks::new(alloc),
                },
                mark,
            )),
            Err(refused) => {
                drop(hub);
                Err(refused.into())
            }
        }
    }

    /// The same, which puts off the mark of a channel for so many milliseconds.
    pub fn with_drop_limit(self, milliseconds: u64) -> Locked
        ensures { contents result ≡ with_limit milliseconds (contents self) }
    {
        Locked {
            limit: milliseconds,
            ..self
        }
    }

    /// The same, where at most so many events wait to be taken, and so many frames of each channel.
    pub fn with_backlog_limit(self, limit: usize) -> Locked
        ensures { contents result ≡ contents self }
    {
        Locked {
            backlog: self.backlog.with_limit(limit),
            ..self
        }
    }

    // ---- commands

    /// Enters a command that makes no promise, as to listen for events.
    pub fn command(&mut self, pass: &mut Pass, cmd: Cmd) -> Result<(Option<u64>, Receipt)>
        ensures foreign { IsForeign (foreign pass.old self.old.hub.counts) result }
        ensures unchanged { OnErr result (contents self.new ≡ contents self.old) }
        ensures same { OnErr result (pass.new ≡ pass.old) }
        ensures entry { OnOk result (contents self.new
            ≡ with_hub (called pass.old.number (pass.old.made + 1) cmd self.old.hub) (contents self.old)) }
        ensures made { OnOk result (pass.new.made ≡ pass.old.made + 1) }
        ensures number { pass.new.number ≡ pass.old.number }
        ensures promise { IfOk result (λ r. r.0 ≡ promise_of cmd self.old.hub.engine.talk) }
        ensures receipt { IfOk result (λ r. (r.1.pass ≡ pass.old.number) × (r.1.nth ≡ pass.old.made + 1)
            × (r.1.entry ≡ next_entry self.old.hub)) }
        ensures shown { IfOk result (λ r. (r.1.cmd.value ≡ cmd) × (r.1.promise.value ≡ r.0)) }
        ensures hold { IfOk result (λ r. (r.1.base.value ≡ self.new.hub.base)
            × (r.1.journal.value.items ≡ self.new.hub.journal)) }
        ensures promises { self.old.hub.engine.talk.made ≤ self.new.hub.engine.talk.made }
    {
        self.hub.command(pass, cmd)
    }

    /// Enters a command that makes a promise: its number, the receipt, and the mark of who waits for the
    /// answer. Where it is dropped unspent, the answer is one that nobody will take.
    pub fn ask(&mut self, pass: &mut Pass, cmd: Cmd) -> Result<(u64, Receipt, DropMark)>
        requires { takes_promise cmd ≡ true }
        ensures foreign { IsForeign (foreign pass.old self.old.hub.counts) result }
        ensures unchanged { OnErr result (contents self.new ≡ contents self.old) }
        ensures same { OnErr result (pass.new ≡ pass.old) }
        ensures entry { OnOk result (self.new.hub
            ≡ called pass.old.number (pass.old.made + 1) cmd self.old.hub) }
        ensures place { IfOk result (λ r. StandsAt r.2.number (Owner.Answer r.0) (contents self.old).places
            (contents self.new).places) }
        ensures rest { (self.new.found ≡ self.old.found) × (self.new.unasked ≡ self.old.unasked)
            × (watched self.new ≡ watched self.old) }
        ensures made { OnOk result (pass.new.made ≡ pass.old.made + 1) }
        ensures number { pass.new.number ≡ pass.old.number }
        ensures promise { IfOk result (λ r. Some r.0 ≡ promise_of cmd self.old.hub.engine.talk) }
        ensures receipt { IfOk result (λ r. (r.1.pass ≡ pass.old.number) × (r.1.nth ≡ pass.old.made + 1)
            × (r.1.entry ≡ next_entry self.old.hub)) }
        ensures shown { IfOk result (λ r. (r.1.cmd.value ≡ cmd) × (r.1.promise.value ≡ Some r.0)) }
        ensures hold { IfOk result (λ r. (r.1.base.value ≡ self.new.hub.base)
            × (r.1.journal.value.items ≡ self.new.hub.journal)) }
        ensures promises { self.old.hub.engine.talk.made ≤ self.new.hub.engine.talk.made }
    {
        if let Err(foreign) = self.hub.admits(pass) {
            drop(cmd);
            return Err(foreign);
        }
        let made = match self.places.make(self.alloc) {
            Ok(made) => made,
            Err(refused) => {
                drop(cmd);
                return Err(refused.into());
            }
        };
        match promised(&mut self.hub, pass, cmd) {
            Ok((number, receipt)) => {
                let mark = self.places.keep(made, Owner::Answer(number));
                Ok((number, receipt, mark))
            }
            Err(refused) => {
                drop(made);
                Err(refused)
            }
        }
    }

    /// Enters the command that opens a channel: the number of its promise, the receipt, and the mark of the
    /// channel.
    pub fn open(&mut self, pass: &mut Pass) -> Result<(u64, Receipt, DropMark)>
        ensures foreign { IsForeign (foreign pass.old self.old.hub.counts) result }
        ensures unchanged { OnErr result (contents self.new ≡ contents self.old) }
        ensures same { OnErr result (pass.new ≡ pass.old) }
        ensures entry { OnOk result (self.new.hub
            ≡ called pass.old.number (pass.old.made + 1) Cmd.OpenChannel self.old.hub) }
        ensures place { IfOk result (λ r. StandsAt r.2.number (Owner.Channel r.0) (contents self.old).places
            (contents self.new).places) }
        ensures rest { (self.new.found ≡ self.old.found) × (self.new.unasked ≡ self.old.unasked)
            × (watched self.new ≡ watched self.old) }
        ensures made { OnOk result (pass.new.made ≡ pass.old.made + 1) }
        ensures number { pass.new.number ≡ pass.old.number }
        ensures promise { IfOk result (λ r. Some r.0 ≡ promise_of Cmd.OpenChannel self.old.hub.engine.talk) }
        ensures receipt { IfOk result (λ r. (r.1.pass ≡ pass.old.number) × (r.1.nth ≡ pass.old.made + 1)
            × (r.1.entry ≡ next_entry self.old.hub)) }
        ensures shown { IfOk result (λ r. (r.1.cmd.value ≡ Cmd.OpenChannel) × (r.1.promise.value ≡ Some r.0)) }
        ensures hold { IfOk result (λ r. (r.1.base.value ≡ self.new.hub.base)
            × (r.1.journal.value.items ≡ self.new.hub.journal)) }
        ensures promises { self.old.hub.engine.talk.made ≤ self.new.hub.engine.talk.made }
    {
        if let Err(foreign) = self.hub.admits(pass) {
            return Err(foreign);
        }
        if let Err(refused) = self.backlog.reserve() {
            return Err(refused.into());
        }
        let made = match self.places.make(self.alloc) {
            Ok(made) => made,
            Err(refused) => return Err(refused.into()),
        };
        match promised(&mut self.hub, pass, Cmd::OpenChannel) {
            Ok((number, receipt)) => {
                self.backlog.open(number);
                let mark = self.places.keep(made, Owner::Channel(number));
                Ok((number, receipt, mark))
            }
            Err(refused) => {
                drop(made);
                Err(refused)
            }
        }
    }

    /// New passes, numbered on.
    pub fn passes(&mut self, count: u32) -> Result<Vec<Pass>>
        ensures passes { IfOk result (λ passes. AreNew (length self.old.hub.counts) passes.items) }
        ensures many { IfOk result (λ passes. length passes.items
            ≡ new_passes count (length self.old.hub.counts)) }
        ensures counts { OnOk result (self.new.hub.counts ≡ self.old.hub.counts
            ++ replicate (new_passes count (length self.old.hub.counts)) 0) }
        ensures engine { self.new.hub.engine ≡ self.old.hub.engine }
        ensures journal { (self.new.hub.base ≡ self.old.hub.base) × (self.new.hub.journal ≡ self.old.hub.journal) }
        ensures rest { contents self.new ≡ with_hub self.new.hub (contents self.old) }
        ensures err { OnErr result (contents self.new ≡ contents self.old) }
        ensures only { IfErr result (λ e. e ≡ ErrorKind.NoMemory) }
    {
        self.hub.passes(count)
    }

    // ---- what is taken

    /// Takes the answer to a promise, where there is one that was not taken. It adds no entry. Once the
    /// session has ended it gives none only of a promise whose answer was taken before. An answer that a
    /// channel is open names the promise itself.
    pub fn poll(&mut self, number: u64) -> Option<Polled>
        ensures taken { Takes number (answer_given result) self.old.hub.engine.talk self.new.hub.engine.talk }
        ensures rest { contents self.new ≡ with_session self.new.hub.engine.talk (contents self.old) }
        ensures number { IfSome result (λ p. p.number ≡ number) }
        ensures none_pending { IfNone result (has_ended self.old.hub.engine.talk ≡ true
            → number < self.old.hub.engine.talk.made
            → WasTaken number self.old.hub.base.engine self.old.hub.journal self.old.hub.engine) }
        ensures channel { (id opened : ℕ) → answer_given result ≡ Some (Ok (Answer.Channel id opened))
            → opened ≡ number }
    {
        match self.hub.poll(number) {
            Some(answer) => Some(Polled::of(number, answer)),
            None => None,
        }
    }

    /// Takes the answer to a promise; where there is none, the polled task waits at this source, or memory
    /// for its place is refused.
    pub fn poll_or_register(
        &mut self,
        number: u64,
        source: &Source,
        cx: &mut Context<'_>,
    ) -> Poll<std::result::Result<Polled, NoMemory>>
        ensures taken { Takes number (answer_given (polled_of result)) self.old.hub.engine.talk
            self.new.hub.engine.talk }
        ensures rest { contents self.new ≡ with_session self.new.hub.engine.talk (contents self.old) }
        ensures number { IfSome (polled_of result) (λ p. p.number ≡ number) }
        ensures channel { (id opened : ℕ) → answer_given (polled_of result)
            ≡ Some (Ok (Answer.Channel id opened)) → opened ≡ number }
        ensures registered { OnPending result (Covers cx.new (λ s. s ≡ source.now.id)) }
        ensures kept { Keeps cx.old cx.new }
    {
        match self.poll(number) {
            Some(polled) => Poll::Ready(Ok(polled)),
            None => match self.tasks.answers.register(source, cx) {
                Ok(()) => Poll::Pending,
                Err(refused) => Poll::Ready(Err(refused)),
            },
        }
    }

    /// Takes the first event that was not taken, where there is one. It adds no entry.
    pub fn event(&mut self) -> Option<Event>
        ensures taken { TakesFirst result self.old.backlog.events.items self.new.backlog.events.items
            self.old.hub.engine.talk self.new.hub.engine.talk }
        ensures rest { contents self.new ≡ with_session self.new.hub.engine.talk (contents self.old) }
    {
        match self.backlog.event() {
            Some(event) => Some(event),
            None => self.hub.event(),
        }
    }

    /// Takes the first event that was not taken; where there is none, the polled task waits at this source,
    /// or memory for its place is refused.
    pub fn event_or_register(
        &mut self,
        source: &Source,
        cx: &mut Context<'_>,
    ) -> Poll<std::result::Result<Event, NoMemory>>
        ensures taken { TakesFirst (polled_of result) self.old.backlog.events.items self.new.backlog.events.items
            self.old.hub.engine.talk self.new.hub.engine.talk }
        ensures rest { contents self.new ≡ with_session self.new.hub.engine.talk (contents self.old) }
        ensures registered { OnPending result (Covers cx.new (λ s. s ≡ source.now.id)) }
        ensures kept { Keeps cx.old cx.new }
    {
        match self.event() {
            Some(event) => Poll::Ready(Ok(event)),
            None => match self.tasks.events.register(source, cx) {
                Ok(()) => Poll::Pending,
                Err(refused) => Poll::Ready(Err(refused)),
            },
        }
    }

    /// Takes the frames handed out of the channel that a promise opened, in order, as many as were not yet
    /// taken. It adds no entry.
    pub fn take_frames(&mut self, opened: u64) -> Taken
        ensures opened { result.opened ≡ opened }
        ensures frames { result.frames.items ≡ frames_next (frames_kept opened self.old.backlog.lanes.items) opened
            self.old.hub.engine.talk }
        ensures taken { contents self.new
            ≡ with_session (frames_after (frames_kept opened self.old.backlog.lanes.items) opened
            self.old.hub.engine.talk) (contents self.old) }
    {
        Taken::of(opened, self.taken(opened))
    }

    // Takes these frames, which then wait no more to be taken.
    fn taken(&mut self, opened: u64) -> Vec<Handed>
        ensures frames { result.items ≡ frames_next (frames_kept opened self.old.backlog.lanes.items) opened
            self.old.hub.engine.talk }
        ensures taken { contents self.new
            ≡ with_session (frames_after (frames_kept opened self.old.backlog.lanes.items) opened
            self.old.hub.engine.talk) (contents self.old) }
    {
        match self.backlog.take(opened) {
            Some(frames) => frames,
            None => self.handed(opened),
        }
    }

    // Takes the frames of an opening that the session handed out.
    fn handed(&mut self, opened: u64) -> Vec<Handed>
        ensures frames { result.items ≡ frames_of opened self.old.hub.engine.talk }
        ensures taken { contents self.new
            ≡ with_session (take_frames opened self.old.hub.engine.talk) (contents self.old) }
    {
        match self.hub.take_frames(opened) {
            Ok(frames) => {
                self.weights.take(&frames);
                frames
            }
            Err(_) => unreachable!(),
        }
    }

    /// The same, but nothing where there are none and the channel is listed, so that some may come.
    pub fn frames(&mut self, opened: u64) -> Option<Taken>
        ensures opened { IfSome result (λ t. t.opened ≡ opened) }
        ensures frames { IfSome result (λ t. t.frames.items ≡ frames_next (frames_kept opened
            self.old.backlog.lanes.items) opened self.old.hub.engine.talk) }
        ensures taken { contents self.new
            ≡ with_session (frames_after (frames_kept opened self.old.backlog.lanes.items) opened
            self.old.hub.engine.talk) (contents self.old) }
        ensures none { IfNone result ((frames_of opened self.old.hub.engine.talk ≡ [])
            × IsSome (opening opened self.old.hub.engine.talk)) }
        ensures gone { IfSome result (λ t. t.frames.items ≡ []
            → opening opened self.old.hub.engine.talk ≡ None) }
    {
        let frames = self.taken(opened);
        if frames.is_empty() && self.hub.session().opening(opened).is_some() {
            return None;
        }
        Some(Taken::of(opened, frames))
    }

    /// The same; where there is nothing, the polled task waits at this source, or memory for its place is
    /// refused.
    pub fn frames_or_register(
        &mut self,
        opened: u64,
        source: &Source,
        cx: &mut Context<'_>,
    ) -> Poll<std::result::Result<Taken, NoMemory>>
        ensures opened { IfSome (polled_of result) (λ t. t.opened ≡ opened) }
        ensures frames { IfSome (polled_of result) (λ t. t.frames.items ≡ frames_next (frames_kept opened
            self.old.backlog.lanes.items) opened self.old.hub.engine.talk) }
        ensures taken { contents self.new
            ≡ with_session (frames_after (frames_kept opened self.old.backlog.lanes.items) opened
            self.old.hub.engine.talk) (contents self.old) }
        ensures none { IfNone (polled_of result) ((frames_of opened self.old.hub.engine.talk ≡ [])
            × IsSome (opening opened self.old.hub.engine.talk)) }
        ensures gone { IfSome (polled_of result) (λ t. t.frames.items ≡ []
            → opening opened self.old.hub.engine.talk ≡ None) }
        ensures registered { OnPending result (Covers cx.new (λ s. s ≡ source.now.id)) }
        ensures kept { Keeps cx.old cx.new }
    {
        match self.frames(opened) {
            Some(frames) => Poll::Ready(Ok(frames)),
            None => match self.tasks.frames.register(source, cx) {
                Ok(()) => Poll::Pending,
                Err(refused) => Poll::Ready(Err(refused)),
            },
        }
    }

    /// What is known of a channel after an error: Ok where it is open; nothing where it waits for another link,
    /// and the session and the error allow that; else the error, or `NoMemory` where memory for its copy was
    /// refused.
    pub fn found(&self, channel: ChanRef, error: &Error) -> Option<Result<()>>
        ensures { FoundOf self.now.hub.engine.talk channel error.now result }
    {
        match self.hub.session().channel_state(channel) {
            ChannelState::Connected => Some(Ok(())),
            ChannelState::Reconnecting
                if self.hub.session().recovers() && error.can_be_recovered() => { None }
            _ => Some(Err(copied(self.alloc, error))),
        }
    }

    /// The same; where nothing is known, the polled task waits at this source, or memory for its place is
    /// refused.
    pub fn found_or_register(
        &mut self,
        channel: ChanRef,
        error: &Error,
        source: &Source,
        cx: &mut Context<'_>,
    ) -> Poll<std::result::Result<Result<()>, NoMemory>>
        ensures found { FoundOf self.old.hub.engine.talk channel error.now (polled_of result) }
        ensures rest { contents self.new ≡ contents self.old }
        ensures registered { OnPending result (Covers cx.new (λ s. s ≡ source.now.id)) }
        ensures kept { Keeps cx.old cx.new }
    {
        if let Some(found) = self.found(channel, error) {
            return Poll::Ready(Ok(found));
        }
        match self.tasks.states.register(source, cx) {
            Ok(()) => Poll::Pending,
            Err(refused) => Poll::Ready(Err(refused)),
        }
    }

    // ---- turns

    /// The marks of handles that were dropped are met, and that of a channel is put off while something that was
    /// sent on it may wait to go out; what is due about each that was found is done; then one turn is taken. Where
    /// memory is refused, what is still undone of that stays so, the turn is cut, and the session has ended.
    pub fn apply<P: Port, A: AuthProvider>(
        &mut self,
        heard: Heard<'_>,
        line: &mut Line<P>,
        provider: &mut A,
    ) -> Result<()>
        requires { A.can provider.old }
        ensures can { A.can provider.new }
        ensures ok { OnOk result (TurnsAfterMarks false heard.entry.told.at heard.entry.told.step heard.entry.bytes.now
            (with_nudge false (contents self.old)) (contents self.new) (P.log line.old.port) (P.log line.new.port)
            (A.allows provider.old) (A.allows provider.new) (P.faults line.old.port) (P.faults line.new.port)
            (A.refusals provider.old) (A.refusals provider.new)) }
        ensures err { OnErr result (TurnsAfterMarks true heard.entry.told.at heard.entry.told.step heard.entry.bytes.now
            (with_nudge false (contents self.old)) (contents self.new) (P.log line.old.port) (P.log line.new.port)
            (A.allows provider.old) (A.allows provider.new) (P.faults line.old.port) (P.faults line.new.port)
            (A.refusals provider.old) (A.refusals provider.new)
            ⊎ (StarvesAfterMarks heard.entry.told.at heard.entry.told.step (with_nudge false (contents self.old))
            (contents self.new)
            × (line.new.port ≡ line.old.port) × (provider.new ≡ provider.old))) }
        ensures nudged { self.new.nudged ≡ false }
        ensures ended { OnErr result (has_ended self.new.hub.engine.talk ≡ true) }
        ensures only { IfErr result (λ e. e ≡ ErrorKind.NoMemory) }
        ensures promises { self.old.hub.engine.talk.made ≤ self.new.hub.engine.talk.made }
        ensures faults { P.faults line.old.port ≤ P.faults line.new.port }
        ensures kept { P.kept line.new.port ≡ P.kept line.old.port }
        ensures never_falls { A.refusals provider.old ≤ A.refusals provider.new }
    {
        let Heard { told, bytes } = heard;
        self.nudged = false;
        if let Err(refused) = self.look(told.at) {
            self.hub.starve(told);
            self.cleared = cleared_after(self.hub.session(), self.cleared);
            return Err(refused.into());
        }
        let applied = self.hub.apply(told, bytes, &mut line.port, provider);
        self.cleared = cleared_after(self.hub.session(), self.cleared);
        applied
    }

    // ---- nudges

    /// The loop is nudged, and whether that is still to be done: it is where nobody did since its last turn.
    pub fn nudge(&mut self) -> bool
        ensures first { result ≡ not self.old.nudged }
        ensures nudged { contents self.new ≡ with_nudge true (contents self.old) }
    {
        let first = !self.nudged;
        self.nudged = true;
        first
    }

    // ---- the hub, and tasks that wait

    /// Lends the hub for one hold. Who uses it applies no turn, and puts no other hub in its place.
    pub fn lend<T, F: FnOnce(&mut Hub) -> T>(&mut self, use_hub: F) -> T
        requires callable { F.IsAlwaysCallable use_hub }
        requires goes_on { (before after : Guarded) (given : T) → FnOnceReturnsAtMut F.FnOnce use_hub before given after
            → GoesOn before after }
        ensures given { FnOnceReturnsAtMut F.FnOnce use_hub self.old.hub result self.new.hub }
        ensures goes_on { GoesOn self.old.hub self.new.hub }
        ensures rest { contents self.new ≡ with_hub self.new.hub (contents self.old) }
    {
        let given = use_hub(&mut self.hub);
        self.weights.forget();
        given
    }

    /// The same, as often as it is asked.
    pub fn look_in<T, F: FnMut(&mut Hub) -> Option<T>>(&mut self, look: &mut F) -> Option<T>
        requires callable { F.IsAlwaysCallable look.old }
        requires goes_on { (looks looked : F) (before after : Guarded) (found : Option T)
            → CalledAtMut F.FnMut looks before found looked after → GoesOn before after }
        ensures callable { F.IsAlwaysCallable look.new }
        ensures found { CalledAtMut F.FnMut look.old self.old.hub result look.new self.new.hub }
        ensures goes_on { GoesOn self.old.hub self.new.hub }
        ensures rest { contents self.new ≡ with_hub self.new.hub (contents self.old) }
    {
        let found = look(&mut self.hub);
        self.weights.forget();
        found
    }

    /// Wakes each task that waits for what there is something of.
    pub fn wake(&mut self, news: News)
        ensures woken { AreWoken news self.new.tasks }
        ensures rest { contents self.new ≡ contents self.old }
    {
        self.tasks.wake(news);
    }
}

// A copy of an error, or `NoMemory` where memory for it was refused.
fn copied(alloc: Global, error: &Error) -> Error
    ensures { (result ≡ error.now) ⊎ (result ≡ ErrorKind.NoMemory) }
{
    match error.try_clone(alloc) {
        Ok(error) => error,
        Err(refused) => refused.into(),
    }
}

// The places of handles, of which one is the connection's, and its mark.
fn first_place(alloc: Global) -> std::result::Result<(Places, DropMark), NoMemory>
    ensures { IfOk result (λ r. map kept_in r.0.slots.items ≡ Some Owner.Connection ∷ []) }
{
    let mut places = Places::new(alloc)?;
    let made = places.make(alloc)?;
    let mark = places.keep(made, Owner::Connection);
    Ok((places, mark))
}

// Enters a command that makes a promise.
fn promised(hub: &mut Hub, pass: &mut Pass, cmd: Cmd) -> Result<(u64, Receipt)>
    requires { takes_promise cmd ≡ true }
    ensures foreign { IsForeign (foreign pass.old hub.old.counts) result }
    ensures unchanged { OnErr result (hub.new ≡ hub.old) }
    ensures same { OnErr result (pass.new ≡ pass.old) }
    ensures entry { OnOk result (hub.new ≡ called pass.old.number (pass.old.made + 1) cmd hub.old) }
    ensures made { OnOk result (pass.new.made ≡ pass.old.made + 1) }
    ensures number { pass.new.number ≡ pass.old.number }
    ensures promise { IfOk result (λ r. Some r.0 ≡ promise_of cmd hub.old.engine.talk) }
    ensures receipt { IfOk result (λ r. (r.1.pass ≡ pass.old.number) × (r.1.nth ≡ pass.old.made + 1)
        × (r.1.entry ≡ next_entry hub.old)) }
    ensures shown { IfOk result (λ r. (r.1.cmd.value ≡ cmd) × (r.1.promise.value ≡ Some r.0)) }
    ensures hold { IfOk result (λ r. (r.1.base.value ≡ hub.new.base)
        × (r.1.journal.value.items ≡ hub.new.journal)) }
    ensures promises { hub.old.engine.talk.made ≤ hub.new.engine.talk.made }
{
    match hub.command(pass, cmd) {
        Ok((Some(number), receipt)) => Ok((number, receipt)),
        Ok((None, _)) => unreachable!(),
        Err(refused) => Err(refused),
    }
}
