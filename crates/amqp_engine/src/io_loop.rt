//! The loop of an engine over a port.

ghost use Rattle.std.specs.Prelude.{◌≡◌, ◌≤◌, ◌<◌, ◌⊎◌, ℕ, Some, None, Err, List, true, false, IfOk, IfErr, IfSome, IsOk, OnOk, OnErr, MatchResult, IsSome, IsTrue, is_some, is_err, length, option_map};
ghost use Rattle.amqp_ring.specs.Ring.{capacity};
ghost use Rattle.amqp_types.specs.declared.text.Text.{Text};
ghost use Rattle.amqp_promise.specs.declared.io_fault.IoFault.{IoFault};
ghost use Rattle.amqp_settings.specs.Config.{config_of};
ghost use Rattle.amqp_rules.specs.Talk.{Talk, start, is_open, has_ended, end_of};
ghost use Rattle.amqp_rules.specs.ChannelMethods.{frames_of};
ghost use Rattle.amqp_rules.specs.Commands.{command as command_rule, promise_of};
ghost use Rattle.amqp_rules.specs.Answers.{HandsOut, Takes, TakesEvent, take_frames};
ghost use Rattle.amqp_engine.specs.Built.{IsSayableAddress};
ghost use Rattle.amqp_engine.specs.Engine.{Engine, begin, with_talk, starved_before};
ghost use Rattle.amqp_engine.specs.Turn.{asks};
ghost use Rattle.amqp_engine.specs.Tell.{AppliesNoted, TakesTurnLent, RunsLent, log_asks, turn_of};
ghost use Rattle.amqp_engine.specs.declared.given.Given.{Given};
ghost use Rattle.amqp_engine.specs.Log.{Log, loaded};
ghost use Rattle.amqp_engine.specs.Unread.{IsRead};
ghost use Rattle.amqp_engine.specs.Sending.{Sending};
ghost use Rattle.amqp_engine.specs.Account.{IsNew, History, add_command, add_answer, add_frames, HasHistory, CarriesOnce, Ran};
ghost use Rattle.amqp_engine.specs.Saying.{TellsLinks};
ghost use Rattle.amqp_engine.specs.Causes.{IsCause, brought, fault_of, is_counted};
ghost use Rattle.amqp_types.specs.Counts.{Rose};
ghost use Rattle.amqp_engine.specs.Play.{IsPlayed};
ghost use Rattle.amqp_engine.specs.Valid.{RunsValid};

use crate::kept_loop::KeptLoop;
use crate::port::{Port, Told, hold};
use crate::record::{Noted, Record};
use crate::wire::Wire;
use amqp_ring::Buffer;
use amqp_session::{
    Answer, AuthProvider, Cmd, ConnectionProperties, ErrorKind, Event, Handed, IoFault, Result,
    Session,
};
use amqp_types::NoMemory;
use amqp_uri::AMQPUri;
use std::alloc::Global;
use std::fmt;
use std::marker::Model;

// What an address says is what its types can hold. It is called for this clause alone.
fn hold_address(uri: &AMQPUri)
    ensures { IsSayableAddress uri.now }
{
    let query = &uri.query;
    let _held = (
        uri.vhost.len(),
        query.channel_max.unwrap_or(0),
        query.frame_max.unwrap_or(0),
        query.heartbeat.unwrap_or(0),
    );
}

/// The greatest number of bytes of a piece.
const PIECE: usize = 4096;

/// A session with the bytes of its link, which runs over a port. Its `Debug` shows the state, how many
/// channels are listed, how many promises were made and how many bytes are unread and unsent, and nothing
/// else: how the client logs in is among the bytes that are unsent.
#[derive(Drop)]
pub struct IoLoop {
    wire: Wire,
    // where the port puts its pieces
    scratch: Vec<u8>,
    // what is noted of the last turn of a run
    noted: Noted,
}

impl Model for IoLoop {
    ghost use Rattle.std.specs.Prelude.{◌≡◌, length};
    ghost use Rattle.amqp_engine.specs.Engine.{Engine};
    ghost use Rattle.amqp_engine.specs.Unread.{IsRead};

    ghost Value = { Engine };

    ghost use Rattle.std.specs.Coded.{codes};
    ghost use Rattle.amqp_types.specs.ValueCode.{value_code};

    ghost coded = { Prim.hlevel (codes, value_code) };

    ghost view = { λ l. l.wire };

    ghost invariant = { λ l. (length l.scratch.items ≡ 4096) × IsRead l.wire };
}

impl fmt::Debug for IoLoop {
    ghost use Rattle.std.specs.Prelude.{Some};
    ghost use Rattle.amqp_engine.specs.Shown.{loop_debug};

    ghost debug_output = { λ e. Some (loop_debug e) };

    fn fmt<W: fmt::Write>(&self, f: &mut fmt::Formatter<W>) -> fmt::Result {
        let session = self.session();
        write!(
            f,
            "IoLoop {{ state: {}, channels: {}, promises: {}, unread: {}, unsent: {}, .. }}",
            session.state().name(),
            session.listed(),
            session.promises(),
            self.received().available_data(),
            self.unsent().available_data()
        )
    }
}

impl IoLoop {
    /// A loop that wants a link to a server at this address. The options are moved in. It takes the
    /// memory of both buffers and of the scratch.
    pub fn new(alloc: Global, uri: &AMQPUri, options: ConnectionProperties) -> Result<IoLoop>
        ensures ok { IfOk result (λ l. l ≡ begin (start (config_of uri.now options.plain))) }
        ensures address { IsSayableAddress uri.now }
        ensures err { IfErr result (λ e. e ≡ ErrorKind.NoMemory) }
    {
        hold_address(uri);
        Ok(IoLoop::make(alloc, uri, options)?)
    }

    fn make(
        alloc: Global,
        uri: &AMQPUri,
        options: ConnectionProperties,
    ) -> std::result::Result<IoLoop, NoMemory>
        ensures { IfOk result (λ l. l ≡ begin (start (config_of uri.now options.plain))) }
    {
        let scratch = vec![in alloc; 0; PIECE]?;
        let wire = Wire::new(alloc, uri, options)?;
        Ok(IoLoop {
            wire,
            scratch,
            noted: Noted::new(alloc),
        })
    }

    /// Takes so many turns, or fewer where the session ends. Where it had ended, it takes none. What
    /// the server asks of its client is answered by the provider. Answers as the session ended, or
    /// `OutOfTurns`; it can then run again, and goes on. Where memory for the copy of the error is
    /// refused, that is told in its place.
    pub fn run<P: Port, A: AuthProvider>(
        &mut self,
        port: &mut P,
        provider: &mut A,
        turns: u64,
    ) -> Result<()>
        requires { A.can provider.old }
        ensures can { A.can provider.new }
        ensures turns { Ran turns self.old self.new (P.log port.old) (P.log port.new)
            (A.allows provider.old) (A.allows provider.new) }
        ensures ended { IfSome (end_of self.new.talk) (λ end. HandsOut (Some end) (Some result)) }
        ensures out_of_turns { has_ended self.new.talk ≡ false → result ≡ Err ErrorKind.OutOfTurns }
        ensures only_out_of_turns { has_ended self.old.talk ≡ false → result ≡ Err ErrorKind.OutOfTurns
            → has_ended self.new.talk ≡ false }
        ensures played { IfSome (P.log port.old) (λ log. IsSome log.plan → self.new.starved ≡ None
            → IsPlayed turns self.old self.new log (P.log port.new) (A.allows provider.old)) }
        ensures valid { (t : Talk) (gs : List Given) → IsNew t → self.old ≡ begin t
            → P.log port.old ≡ Some (loaded gs) → length gs ≤ turns → self.new.starved ≡ None
            → RunsValid turns t gs self.new (P.log port.new) (A.allows provider.old) }
        ensures read { IsRead self.new }
        ensures faults { P.faults port.old ≤ P.faults port.new }
        ensures kept { P.kept port.new ≡ P.kept port.old }
        ensures never_falls { A.refusals provider.old ≤ A.refusals provider.new }
        ensures io_error_counted { (fault : IoFault) → has_ended self.old.talk ≡ false
            → fault_of self.new.talk ≡ Some fault → IsTrue (is_counted fault)
            → Rose (P.faults port.old) (P.faults port.new) }
        ensures refusal_counted { (text : Text) → has_ended self.old.talk ≡ false
            → end_of self.new.talk ≡ Some (Err (ErrorKind.AuthProviderError text))
            → Rose (A.refusals provider.old) (A.refusals provider.new) }
    {
        self.take_turns(port, provider, turns);
        match self.wire.session().end() {
            Some(end) => end,
            None => Err(ErrorKind::OutOfTurns.into()),
        }
    }

    fn take_turns<P: Port, A: AuthProvider>(&mut self, port: &mut P, provider: &mut A, turns: u64)
        requires { A.can provider.old }
        ensures can { A.can provider.new }
        ensures turns { RunsLent turns self.old self.new (P.log port.old) (P.log port.new)
            (A.allows provider.old) (A.allows provider.new) }
        ensures faults { P.faults port.old ≤ P.faults port.new }
        ensures kept { P.kept port.new ≡ P.kept port.old }
        ensures never_falls { A.refusals provider.old ≤ A.refusals provider.new }
        ensures io_error_counted { (fault : IoFault) → has_ended self.old.talk ≡ false
            → fault_of self.new.talk ≡ Some fault → IsTrue (is_counted fault)
            → Rose (P.faults port.old) (P.faults port.new) }
        ensures refusal_counted { (text : Text) → has_ended self.old.talk ≡ false
            → end_of self.new.talk ≡ Some (Err (ErrorKind.AuthProviderError text))
            → Rose (A.refusals provider.old) (A.refusals provider.new) }
    {
        'turns: for _ in 0..turns {
            if self.wire.session().has_ended() {
                break;
            }
            // Where memory was refused, the session has ended.
            let _ = self.turn(port, provider);
        }
    }

    // One turn: a link is asked for where one is wanted, a step is taken, and what may go out is
    // written.
    fn turn<P: Port, A: AuthProvider>(
        &mut self,
        port: &mut P,
        provider: &mut A,
    ) -> std::result::Result<(), NoMemory>
        requires running { has_ended self.old.talk ≡ false }
        requires can { A.can provider.old }
        ensures can { A.can provider.new }
        ensures turn { TakesTurnLent self.old self.new (P.log port.old) (P.log port.new)
            (A.allows provider.old) (A.allows provider.new) }
        ensures ended { OnErr result (IsTrue (has_ended self.new.talk)) }
        ensures faults { P.faults port.old ≤ P.faults port.new }
        ensures kept { P.kept port.new ≡ P.kept port.old }
        ensures never_falls { A.refusals provider.old ≤ A.refusals provider.new }
        ensures io_error_counted { (fault : IoFault) → fault_of self.new.talk ≡ Some fault
            → IsTrue (is_counted fault) → Rose (P.faults port.old) (P.faults port.new) }
        ensures refusal_counted { (text : Text)
            → end_of self.new.talk ≡ Some (Err (ErrorKind.AuthProviderError text))
            → Rose (A.refusals provider.old) (A.refusals provider.new) }
    {
        self.wire.ask(port);
        let told = port.next(&mut self.scratch);
        told.step.hold();
        let n = told.step.piece_len();
        self.noted.clear();
        self.wire
            .apply(told, &self.scratch[..n], port, provider, &mut self.noted)
    }

    /// Asks for a link where one is wanted and was not yet asked for.
    pub fn ask<P: Port>(&mut self, port: &mut P)
        ensures engine { self.new ≡ asks self.old }
        ensures told { P.log port.new ≡ option_map (log_asks self.old) (P.log port.old) }
        ensures carried { (h : History) → HasHistory self.old h → HasHistory self.new h }
        ensures faults { P.faults port.old ≤ P.faults port.new }
        ensures kept { P.kept port.new ≡ P.kept port.old }
    {
        self.wire.ask(port);
    }

    /// One turn after its step was taken; the bytes are those of its piece. What the server asks of its
    /// client is answered by the provider. What is noted of the turn is put into the record, in place of
    /// what that had. Where memory is refused, the session has ended.
    pub fn apply<P: Port, A: AuthProvider>(
        &mut self,
        told: Told,
        bytes: &[u8],
        port: &mut P,
        provider: &mut A,
        notes: &mut Record,
    ) -> Result<()>
        requires can { A.can provider.old }
        ensures can { A.can provider.new }
        ensures turn { AppliesNoted told.at told.step bytes.now notes.new self.old self.new (P.log port.old)
            (P.log port.new) (A.allows provider.old) (A.allows provider.new) }
        ensures starved { MatchResult result (λ _. self.new.starved ≡ self.old.starved)
            (λ _. has_ended self.old.talk ≡ false → IsSome self.new.starved) }
        ensures noted { is_some notes.new.starved ≡ is_err result }
        ensures ended { OnErr result (IsTrue (has_ended self.new.talk)) }
        ensures over { OnErr result (has_ended self.old.talk ≡ true → self.new ≡ self.old) }
        ensures only { IfErr result (λ e. e ≡ ErrorKind.NoMemory) }
        ensures carried { (h : History) → has_ended self.old.talk ≡ false → HasHistory self.old h
            → CarriesOnce (turn_of told.at told.step bytes.now notes.new) h self.old self.new
            (P.log port.old) (P.log port.new) }
        ensures read { IsRead self.new }
        ensures faults { P.faults port.old ≤ P.faults port.new }
        ensures kept { P.kept port.new ≡ P.kept port.old }
        ensures never_falls { A.refusals provider.old ≤ A.refusals provider.new }
        ensures cause { (k : ErrorKind) → has_ended self.old.talk ≡ false → end_of self.new.talk ≡ Some (Err k)
            → IsCause k (turn_of told.at told.step bytes.now notes.new) self.old }
        ensures io_error_counted { (fault : IoFault) → has_ended self.old.talk ≡ false
            → fault_of self.new.talk ≡ Some fault
            → (brought told.step self.old.talk ≡ Some fault)
            ⊎ ((fault ≡ IoFault.BrokenPipe) × Rose (P.faults port.old) (P.faults port.new)) }
        ensures refusal_counted { (text : Text) → has_ended self.old.talk ≡ false
            → end_of self.new.talk ≡ Some (Err (ErrorKind.AuthProviderError text))
            → Rose (A.refusals provider.old) (A.refusals provider.new) }
    {
        told.step.hold();
        let mut noted = notes.take();
        noted.clear();
        let applied = self.wire.apply(told, bytes, port, provider, &mut noted);
        notes.put(noted);
        Ok(applied?)
    }

    /// Memory was refused before a turn: the session ends for want of it. What has ended stays as it is.
    pub fn starve(&mut self, at: u64)
        ensures engine { self.new ≡ starved_before at self.old }
        ensures links { (ss : List Sending) (log : Log) → TellsLinks self.old ss log → TellsLinks self.new ss log }
        ensures carried { (h : History) → HasHistory self.old h → HasHistory self.new h }
    {
        self.wire.starve(at);
    }

    /// Tells the session to do something, and gives the number of the promise that will be
    /// answered. Nothing is sent by a command alone.
    pub fn command(&mut self, command: Cmd) -> Result<Option<u64>>
        ensures ok { OnOk result (self.new ≡ with_talk (command_rule command) self.old) }
        ensures number { IfOk result (λ number. number ≡ promise_of command self.old.talk) }
        ensures err { OnErr result (self.new ≡ self.old) }
        ensures only { IfErr result (λ e. e ≡ ErrorKind.NoMemory) }
        ensures links { (ss : List Sending) (log : Log) → TellsLinks self.old ss log → TellsLinks self.new ss log }
        ensures carried { (h : History) → HasHistory self.old h
            → MatchResult result (λ _. HasHistory self.new (add_command command h)) (λ _. HasHistory self.new h) }
    {
        hold(&command);
        self.wire.command(command)
    }

    /// Takes the answer to a promise, where there is one that was not taken. Where it is an error and
    /// memory for its copy is refused, that is told in its place, and the answer can still be taken.
    pub fn answer(&mut self, number: u64) -> Option<Result<Answer>>
        ensures taken { Takes number result self.old.talk self.new.talk }
        ensures rest { self.new ≡ record self.old { talk = self.new.talk } }
        ensures carried { (h : History) → HasHistory self.old h
            → (self.new ≡ self.old) ⊎ HasHistory self.new (add_answer number self.old h) }
    {
        self.wire.answer(number)
    }

    /// Takes the first event that was not taken, where there is one. Where it is that of the end and
    /// memory for the copy of its error is refused, that is told in its place, and the event can still be
    /// taken.
    pub fn event(&mut self) -> Option<Event>
        ensures taken { TakesEvent result self.old.talk self.new.talk }
        ensures rest { self.new ≡ record self.old { talk = self.new.talk } }
        ensures carried { (h : History) → HasHistory self.old h → HasHistory self.new h }
    {
        self.wire.event()
    }

    /// Takes the frames handed out of the channel that a promise opened, in order, as many as were
    /// not yet taken. They are moved out, and no memory is taken.
    pub fn take_frames(&mut self, opened: u64) -> std::result::Result<Vec<Handed>, NoMemory>
        ensures frames { IfOk result (λ frames. frames.items ≡ frames_of opened self.old.talk) }
        ensures taken { self.new ≡ with_talk (take_frames opened) self.old }
        ensures carried { (h : History) → HasHistory self.old h → HasHistory self.new (add_frames opened self.old h) }
        ensures takes_no_memory { IsOk result }
    {
        self.wire.take_frames(opened)
    }

    /// The session, as it stands.
    pub fn session(&self) -> &Session
        ensures { result.now ≡ self.now.talk }
    {
        self.wire.session()
    }

    /// The bytes that were received on the link and not yet read. They are read where they lie. While a
    /// link is open there is room for one more, so some of a piece can always be taken.
    pub fn received(&self) -> &Buffer
        ensures bytes { result.now.kept ≡ self.now.unread }
        ensures capacity { capacity result.now ≡ self.now.talk.capacity }
        ensures free { IsTrue (is_open self.now.talk) → length result.now.kept < capacity result.now }
    {
        self.wire.received()
    }

    /// The bytes of committed frames that the link has not yet taken.
    pub fn unsent(&self) -> &Buffer
        ensures bytes { result.now.kept ≡ self.now.unsent }
        ensures capacity { capacity result.now ≡ self.now.talk.capacity }
    {
        self.wire.unsent()
    }

    /// How many parts of a turn were done when memory was refused, where it was.
    pub fn starved(&self) -> Option<u64>
        ensures { result ≡ self.now.starved }
    {
        self.wire.starved()
    }

    /// The state as it stands, kept. It takes the memory of all that it keeps, and changes nothing.
    pub fn snapshot(&self) -> std::result::Result<KeptLoop, NoMemory>
        ensures { IfOk result (λ kept. kept ≡ self.now) }
    {
        self.wire.snapshot()
    }
}
