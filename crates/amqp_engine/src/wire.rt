//! The session with the bytes of its link: what is handed through, and a turn from its step on.
//! Below it stand the reading, with the rule of a step, and the writing.
//!
//! It is apart from `IoLoop` since within a turn a whole frame may be left unread, which no `IoLoop`
//! leaves.

mod reading;
mod writing;

ghost use Rattle.std.specs.Prelude.{◌≡◌, ◌≤◌, not, ◌<◌, Option, Some, true, false, IfOk, IfErr, IsOk, OnOk, OnErr, MatchResult, IsSome, IsTrue, is_some, is_err, option_map, length};
ghost use Rattle.std.specs.List.{AllByRecursion};
ghost use Rattle.amqp_types.specs.Forms.{IsOctets};
ghost use Rattle.amqp_written_rules.specs.Sayable.{CanBeAnswered};
ghost use Rattle.amqp_ring.specs.Ring.{capacity};
ghost use Rattle.amqp_settings.specs.declared.capacity.TheConstants.{LEAST_CAPACITY};
ghost use Rattle.amqp_settings.specs.Config.{config_of};
ghost use Rattle.amqp_rules.specs.Talk.{start, is_open, has_ended};
ghost use Rattle.amqp_rules.specs.Commands.{command as command_rule, promise_of};
ghost use Rattle.amqp_rules.specs.ChannelMethods.{frames_of};
ghost use Rattle.amqp_rules.specs.Answers.{Takes, TakesEvent, take_frames};
ghost use Rattle.amqp_engine.specs.Engine.{Engine, begin, with_talk, starve_at, starved_before};
ghost use Rattle.amqp_engine.specs.Turn.{asks, no_notes};
ghost use Rattle.amqp_engine.specs.Tell.{log_asks};
ghost use Rattle.amqp_engine.specs.Making.{AppliesCounted, Blames};
ghost use Rattle.amqp_engine.specs.Noting.{notes_in};

use crate::kept_loop::KeptLoop;
use crate::port::{Port, Told};
use crate::record::Noted;
use amqp_auth::Asked;
use amqp_ring::Buffer;
use amqp_session::{
    Answer, AuthProvider, Cmd, ConnectionProperties, ErrorKind, Event, Handed, Session,
    initial_capacity,
};
use amqp_types::NoMemory;
use amqp_uri::AMQPUri;
use std::alloc::Global;
use std::marker::Model;

/// A session, the bytes that it has not yet read, and those that its link has not yet taken.
#[derive(Drop)]
pub struct Wire {
    alloc: Global,
    session: Session,
    unread: Buffer,
    place: u64,
    unsent: Buffer,
    starved: Option<u64>,
}

impl Model for Wire {
    ghost use Rattle.std.specs.Prelude.{◌≡◌, ◌≤◌, IsTrue, length};
    ghost use Rattle.amqp_rules.specs.Talk.{is_open};
    ghost use Rattle.amqp_outgoing.specs.Marks.{left_in};
    ghost use Rattle.amqp_settings.specs.declared.capacity.TheConstants.{LEAST_CAPACITY};
    ghost use Rattle.amqp_ring.specs.Ring.{capacity};
    ghost use Rattle.amqp_engine.specs.Engine.{Engine};

    ghost Value = { Engine };

    ghost use Rattle.std.specs.Coded.{codes};
    ghost use Rattle.amqp_types.specs.ValueCode.{value_code};

    ghost coded = { Prim.hlevel (codes, value_code) };

    ghost view = { λ w. record {
      talk = w.session;
      unread = w.unread.kept;
      place = w.place;
      unsent = w.unsent.kept;
      starved = w.starved;
    } };

    // While the link is open, the session counts the bytes that are unsent. Its capacity is that of
    // both buffers, and never less than the least.
    ghost invariant = { λ w. (IsTrue (is_open w.session) → length w.unsent.kept ≡ left_in w.session.committed)
        × (capacity w.unread ≡ w.session.capacity) × (capacity w.unsent ≡ w.session.capacity)
        × (LEAST_CAPACITY ≤ w.session.capacity) };
}

impl Wire {
    /// A new engine: nothing is unread, and nothing is unsent.
    pub fn new(
        alloc: Global,
        uri: &AMQPUri,
        options: ConnectionProperties,
    ) -> Result<Wire, NoMemory>
        ensures { IfOk result (λ w. w ≡ begin (start (config_of uri.now options.plain))) }
    {
        let capacity = initial_capacity(uri) as usize;
        let unread = Buffer::with_capacity(alloc, capacity)?;
        let unsent = Buffer::with_capacity(alloc, capacity)?;
        match Session::new(alloc, uri, options) {
            Ok(session) => Ok(Wire {
                alloc,
                session,
                unread,
                place: 0,
                unsent,
                starved: None,
            }),
            Err(_) => Err(NoMemory),
        }
    }

    /// The session, as it stands.
    pub fn session(&self) -> &Session
        ensures { result.now ≡ self.now.talk }
    {
        &self.session
    }

    /// The bytes that were received and not yet read.
    pub fn received(&self) -> &Buffer
        ensures bytes { result.now.kept ≡ self.now.unread }
        ensures capacity { capacity result.now ≡ self.now.talk.capacity }
        ensures least { LEAST_CAPACITY ≤ self.now.talk.capacity }
    {
        &self.unread
    }

    /// The bytes that the link has not yet taken.
    pub fn unsent(&self) -> &Buffer
        ensures bytes { result.now.kept ≡ self.now.unsent }
        ensures capacity { capacity result.now ≡ self.now.talk.capacity }
    {
        &self.unsent
    }

    /// How many parts of a turn were done when memory was refused, where it was.
    pub fn starved(&self) -> Option<u64>
        ensures { result ≡ self.now.starved }
    {
        self.starved
    }

    /// The state as it stands, kept.
    pub fn snapshot(&self) -> Result<KeptLoop, NoMemory>
        ensures { IfOk result (λ kept. kept ≡ self.now) }
    {
        let session = self.session.snapshot()?;
        KeptLoop::of(
            self.alloc,
            session,
            &self.unread,
            self.place,
            &self.unsent,
            self.starved,
        )
    }

    /// Tells the session to do something, and gives the number of the promise that will be answered.
    pub fn command(&mut self, command: Cmd) -> amqp_session::Result<Option<u64>>
        ensures ok { OnOk result (self.new ≡ with_talk (command_rule command) self.old) }
        ensures number { IfOk result (λ number. number ≡ promise_of command self.old.talk) }
        ensures err { OnErr result (self.new ≡ self.old) }
        ensures only { IfErr result (λ e. e ≡ ErrorKind.NoMemory) }
    {
        self.session.command(command)
    }

    /// Takes the answer of a promise, once it is there.
    pub fn answer(&mut self, number: u64) -> Option<amqp_session::Result<Answer>>
        ensures taken { Takes number result self.old.talk self.new.talk }
        ensures rest { self.new ≡ record self.old { talk = self.new.talk } }
    {
        self.session.answer(number)
    }

    /// Takes the first event that was not taken.
    pub fn event(&mut self) -> Option<Event>
        ensures taken { TakesEvent result self.old.talk self.new.talk }
        ensures rest { self.new ≡ record self.old { talk = self.new.talk } }
    {
        self.session.event()
    }

    /// Takes the frames that were handed out to the promise that opened a channel.
    pub fn take_frames(&mut self, opened: u64) -> Result<Vec<Handed>, NoMemory>
        ensures frames { IfOk result (λ frames. frames.items ≡ frames_of opened self.old.talk) }
        ensures taken { self.new ≡ with_talk (take_frames opened) self.old }
        ensures takes_no_memory { IsOk result }
    {
        self.session.take_frames(opened)
    }

    /// Asks for a link where one is wanted and was not yet asked for.
    pub fn ask<P: Port>(&mut self, port: &mut P)
        ensures engine { self.new ≡ asks self.old }
        ensures told { P.log port.new ≡ option_map (log_asks self.old) (P.log port.old) }
        ensures faults { P.faults port.old ≤ P.faults port.new }
        ensures kept { P.kept port.new ≡ P.kept port.old }
    {
        if self.session.wants_link() && !self.session.is_asked() {
            port.connect();
            self.session.asked();
        }
    }

    /// A turn from its step on, which is noted.
    pub fn apply<P: Port, A: AuthProvider>(
        &mut self,
        told: Told,
        bytes: &[u8],
        port: &mut P,
        provider: &mut A,
        noted: &mut Noted,
    ) -> Result<(), NoMemory>
        requires blank { notes_in noted.old ≡ no_notes }
        requires can { A.can provider.old }
        ensures can { A.can provider.new }
        ensures turn { AppliesCounted told.at told.step bytes.now (notes_in noted.new) self.old self.new
            (P.log port.old) (P.log port.new) (P.faults port.old) (P.faults port.new)
            (A.allows provider.old) (A.allows provider.new) }
        ensures octets { IsOctets bytes.now }
        ensures answered { AllByRecursion CanBeAnswered (notes_in noted.new).auths }
        ensures starved { MatchResult result (λ _. self.new.starved ≡ self.old.starved)
            (λ _. has_ended self.old.talk ≡ false → IsSome self.new.starved) }
        ensures noted { is_some (notes_in noted.new).starved ≡ is_err result }
        ensures ended { OnErr result (IsTrue (has_ended self.new.talk)) }
        ensures over { OnErr result (has_ended self.old.talk ≡ true → self.new ≡ self.old) }
        ensures faults { P.faults port.old ≤ P.faults port.new }
        ensures kept { P.kept port.new ≡ P.kept port.old }
        ensures never_falls { A.refusals provider.old ≤ A.refusals provider.new }
        ensures blames { Blames self.old.talk self.new.talk (A.refusals provider.old) (A.refusals provider.new) }
    {
        let taken = self.take_turn(told, bytes, port, provider, noted);
        // What came is what its types can hold.
        hold_octets(bytes);
        hold_answers(noted.auths.as_slice());
        taken
    }

    // A turn from its step on, which is noted.
    fn take_turn<P: Port, A: AuthProvider>(
        &mut self,
        told: Told,
        bytes: &[u8],
        port: &mut P,
        provider: &mut A,
        noted: &mut Noted,
    ) -> Result<(), NoMemory>
        requires blank { notes_in noted.old ≡ no_notes }
        requires can { A.can provider.old }
        ensures can { A.can provider.new }
        ensures turn { AppliesCounted told.at told.step bytes.now (notes_in noted.new) self.old self.new
            (P.log port.old) (P.log port.new) (P.faults port.old) (P.faults port.new)
            (A.allows provider.old) (A.allows provider.new) }
        ensures starved { MatchResult result (λ _. self.new.starved ≡ self.old.starved)
            (λ _. has_ended self.old.talk ≡ false → IsSome self.new.starved) }
        ensures noted { is_some (notes_in noted.new).starved ≡ is_err result }
        ensures ended { OnErr result (IsTrue (has_ended self.new.talk)) }
        ensures over { OnErr result (has_ended self.old.talk ≡ true → self.new ≡ self.old) }
        ensures faults { P.faults port.old ≤ P.faults port.new }
        ensures kept { P.kept port.new ≡ P.kept port.old }
        ensures never_falls { A.refusals provider.old ≤ A.refusals provider.new }
        ensures blames { Blames self.old.talk self.new.talk (A.refusals provider.old) (A.refusals provider.new) }
    {
        let Told { at, step } = told;
        if self.session.has_ended() {
            // What has ended reads and writes nothing, and is not starved.
            if let Err(refused) = self.take_step(at, step, provider, &mut noted.auths) {
                noted.starved = Some(0);
                return Err(refused);
            }
            return Ok(());
        }
        let mut parts = 0;
        if let Err(refused) = self.read_step(
            at,
            step,
            bytes,
            provider,
            &mut noted.auths,
            &mut parts,
        ) {
            self.cut(at, parts);
            noted.starved = Some(parts);
            return Err(refused);
        }
        if let Err(refused) = self.write_all(
            at,
            port,
            &mut parts,
            &mut noted.tooks,
            &mut noted.failed,
        ) {
            self.cut(at, parts);
            noted.starved = Some(parts);
            return Err(refused);
        }
        Ok(())
    }

    /// Memory was refused before a turn, and the session ends. Where it had ended, nothing changes.
    pub fn starve(&mut self, at: u64)
        ensures { self.new ≡ starved_before at self.old }
    {
        if !self.session.has_ended() {
            self.cut(at, 0);
        }
    }

    // Memory was refused after so many parts of a turn, and the session ends.
    fn cut(&mut self, at: u64, parts: u64)
        ensures { self.new ≡ starve_at at parts self.old }
    {
        self.session.starve(at);
        self.unread.reset();
        self.place = 0;
        self.unsent.reset();
        self.starved = Some(parts);
    }
}

// The bytes of a piece are octets. It is called for this clause alone, as those below.
fn hold_octets(bytes: &[u8])
    ensures { IsOctets bytes.now }
{
    let _held = bytes.len();
}

// What a provider answered can be written.
fn hold_answers(answers: &[Asked])
    ensures { AllByRecursion CanBeAnswered answers.now }
{
    'answers: for answer in answers {
        hold_answer(answer);
    }
}

fn hold_answer(answer: &Asked)
    ensures { CanBeAnswered answer.now }
{
    if let Asked::Mechanism(name) = answer {
        let _held = name.len();
    }
}
