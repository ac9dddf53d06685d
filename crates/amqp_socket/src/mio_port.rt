//! A socket as a port.

ghost use Rattle.std.specs.Prelude.{◌≡◌, ◌⊎◌, ◌≤◌, ◌<◌, ◌-◌, ◌+◌, ◌^◌, true, false, None, Some, IfSome, IfNone, IsSome, [], length, min, take, drop};
ghost use Rattle.amqp_types.specs.Counts.{Rose};
ghost use Rattle.amqp_engine.specs.Counts.{HasCause};
ghost use Rattle.amqp_engine.specs.Log.{IsPiece};
ghost use Rattle.amqp_socket.specs.Ticks.{IsTickNext, overdue, due_step, last_step};

use crate::alive::keep_alive;
use crate::held::Held;
use crate::limits::Limits;
use crate::watch::{Cause, Standing, Watch};
use amqp_engine::{Port, Step, Told, Wrote};
use mio::net::TcpStream;
use mio::{Events, Interest, Poll, Token, Waker};
use std::alloc::Global;
use std::io;
use std::io::IoSlice;
use std::net::{Net, SocketAddr};
use std::sync::Arc;
use std::time::{Clock, Duration};

const SOCKET: Token = Token(0);

const NUDGE: Token = Token(1);

/// How much time passes at most before it is told that it has, in milliseconds. Half of the shortest
/// interval of heartbeats that a server can ask for.
const TICK: u64 = 500;

/// How many steps go before a tick that is due, at most.
const FIRST: u64 = 4;

/// For how long the system may connect, in milliseconds.
const CONNECT: u64 = 10_000;

/// How the link stands.
#[derive(Clone, Copy, Debug, PartialEq, Eq)]
enum Stage {
    /// There is none.
    Idle,
    /// One was asked for, and the system did not begin to connect.
    Refused,
    /// The system connects.
    Connecting,
    /// There is one.
    Linked,
}

// Why the system refused.
fn cause_of(why: io::ErrorKind) -> Cause {
    match why {
        io::ErrorKind::NotFound => Cause::NoAddress,
        io::ErrorKind::ConnectionRefused => Cause::Refused,
        io::ErrorKind::TimedOut => Cause::TimedOut,
        io::ErrorKind::HostUnreachable | io::ErrorKind::NetworkUnreachable => Cause::Unreachable,
        io::ErrorKind::ConnectionReset
        | io::ErrorKind::ConnectionAborted
        | io::ErrorKind::BrokenPipe => Cause::Reset,
        _ => Cause::Other,
    }
}

/// A socket of the system. It keeps the handles by which it connects and reads the time.
#[derive(Drop)]
pub struct MioPort<R> {
    rt: R,
    poll: Poll,
    events: Events,
    address: Option<SocketAddr>,
    stream: Option<TcpStream>,
    stage: Stage,
    // what is shared with the session, where the port is shown how that stands
    watch: Option<Arc<Watch>>,
    limits: Limits,
    // what was read and is not told yet
    held: Held,
    // whether the system refused to write while octets were held; and why it did, or did not begin to connect
    broken: bool,
    refusal: Cause,
    // whether the system told something of a socket that connects
    answered: bool,
    // whether a read may find something
    readable: bool,
    // whether the last write took less than it was offered, and whether there may be room again
    full: bool,
    room: bool,
    nudged: bool,
    // the present, when the last tick was told, and when the link was asked for
    moment: u64,
    ticked: u64,
    asked: u64,
    // how many steps were told since it is time for the next tick, and when the last of them was
    first: u64,
    first_at: u64,
    faults: u64,
}

impl<R: Net + Clock + Drop> MioPort<R> {
    /// A port without a link, over which links to this address are asked for, and what ends its wait.
    /// Each link to no address fails. Where memory is refused, the error is of the kind `OutOfMemory`;
    /// else the system refuses to watch for events.
    pub fn new(
        rt: R,
        alloc: Global,
        address: Option<SocketAddr>,
    ) -> io::Result<(MioPort<R>, Waker)> {
        let poll = Poll::new(&rt)?;
        let events = Events::with_capacity(alloc, 4)?;
        let held = Held::new(alloc)?;
        let waker = Waker::new(poll.registry(), NUDGE)?;
        let port = MioPort {
            rt,
            poll,
            events,
            address,
            stream: None,
            stage: Stage::Idle,
            watch: None,
            limits: Limits::new(),
            held,
            broken: false,
            refusal: Cause::Nothing,
            answered: false,
            readable: false,
            full: false,
            room: false,
            nudged: false,
            moment: 0,
            ticked: 0,
            asked: 0,
            first: 0,
            first_at: 0,
            faults: 0,
        };
        Ok((port, waker))
    }

    /// The same, which is shown how the session stands. A link on which the connection is not open after 10
    /// seconds, or not closed 10 seconds after that began, fails, whatever is received on it. Once the session
    /// is abandoned the link fails, and each one that is asked for, all at the greatest moment.
    pub fn with_watch(self, watch: Arc<Watch>) -> MioPort<R>
        ensures faults { result.faults ≡ self.faults }
        ensures limits { result.limits ≡ self.limits }
    {
        MioPort {
            watch: Some(watch),
            ..self
        }
    }

    /// The same, but a link on which nothing is received for so many milliseconds fails.
    pub fn with_silence(self, silence: u64) -> MioPort<R>
        ensures faults { result.faults ≡ self.faults }
        ensures limits { result.limits ≡ record self.limits { silence = Some silence } }
    {
        MioPort {
            limits: Limits {
                silence: Some(silence),
                ..self.limits
            },
            ..self
        }
    }

    // How the session stands, where that is shown.
    fn standing(&self) -> Standing {
        match &self.watch {
            Some(watch) => watch.standing(),
            None => Standing::Open,
        }
    }

    // Says why a link failed.
    fn note(&self, cause: Cause) {
        if let Some(watch) = &self.watch {
            watch.note(cause);
        }
    }

    // The present in milliseconds. Where the clock can't be read, no time has passed.
    fn now(&mut self) -> u64
        ensures present { result ≡ self.new.moment }
        ensures never_falls { self.old.moment ≤ self.new.moment }
        ensures faults { self.new.faults ≡ self.old.faults }
        ensures ticked { self.new.ticked ≡ self.old.ticked }
    {
        if let Ok(since) = self.rt.monotonic() {
            let millis = u64::try_from(since.as_millis()).unwrap_or(u64::MAX);
            self.moment = self.moment.max(millis);
        }
        self.moment
    }

    // There is no link any more.
    fn hang_up(&mut self)
        ensures faults { self.new.faults ≡ self.old.faults }
        ensures ticked { self.new.ticked ≡ self.old.ticked }
        ensures first { self.new.first ≡ self.old.first }
        ensures idle { (self.new.stage ≡ Stage.Idle) × (self.new.held ≡ []) }
        ensures moment { self.new.moment ≡ self.old.moment }
    {
        self.stream = None;
        self.stage = Stage::Idle;
        self.held.clear();
        self.broken = false;
        self.answered = false;
        self.readable = false;
        self.full = false;
        self.room = false;
    }

    // The same, since something failed.
    fn fail(&mut self, cause: Cause)
        ensures counted { Rose self.old.faults self.new.faults }
        ensures faults { self.old.faults ≤ self.new.faults }
        ensures first { self.new.first ≡ self.old.first }
        ensures idle { (self.new.stage ≡ Stage.Idle) × (self.new.held ≡ []) }
        ensures moment { self.new.moment ≡ self.old.moment }
    {
        self.note(cause);
        self.hang_up();
        self.faults = self.faults.saturating_add(1);
    }

    // The system begins to connect.
    fn begin(&mut self) -> io::Result<()>
        ensures { self.new.faults ≡ self.old.faults }
    {
        let Some(address) = self.address else {
            return Err(io::Error::from(io::ErrorKind::NotFound));
        };
        let mut stream = TcpStream::connect(&self.rt, address)?;
        keep_alive(&stream);
        self.poll.registry().register(
            &mut stream,
            SOCKET,
            Interest::READABLE | Interest::WRITABLE,
        )?;
        self.stream = Some(stream);
        Ok(())
    }

    // What can be told without waiting. Once it is time for a tick, few other steps go before it, so a server
    // that always talks does not hold it up.
    fn ready(&mut self, at: u64, space: &mut [u8]) -> Option<Step>
        requires { 4096 ≤ length space.old }
        ensures tick { 500 ≤ at - self.old.ticked → IsTickNext self.old.first self.old.first_at at
            → result ≡ Some (due_step (overdue self.old.stage self.old.limits at)) }
        ensures first { 500 ≤ at - self.old.ticked
            → (result ≡ Some (due_step (overdue self.old.stage self.old.limits at)))
            ⊎ ((self.new.first ≡ self.old.first + 1) × (self.new.first_at ≡ at)) }
        ensures due { 500 ≤ at - self.old.ticked → IfNone result ⊥ }
        ensures overdue { self.old.nudged ≡ true → IsSome (overdue self.old.stage self.old.limits at)
            → (result ≡ Some Step.Fault) ⊎ ((self.new.first ≡ self.old.first + 1) × (self.new.first_at ≡ at)) }
        ensures piece { IfSome result IsPiece }
        ensures cause { IfSome result (λ step. HasCause step self.old.faults self.new.faults) }
        ensures faults { self.old.faults ≤ self.new.faults }
        ensures none { IfNone result (self.new.faults ≡ self.old.faults) }
    {
        if at.saturating_sub(self.ticked) >= TICK {
            return Some(self.due(at, space));
        }
        // A nudge does not put off what is due of the link.
        if self.nudged && self.overdue(at).is_some() {
            return Some(self.due(at, space));
        }
        if self.nudged {
            return Some(self.tick(at));
        }
        self.happened(at, space)
    }

    // Time has passed.
    fn tick(&mut self, at: u64) -> Step
        ensures tick { result ≡ Step.Tick }
        ensures faults { self.new.faults ≡ self.old.faults }
    {
        self.nudged = false;
        self.first = 0;
        self.ticked = at;
        Step::Tick
    }

    // It is time for a tick. What was received goes before it, once, and again where the turn of that took as
    // long as a tick: the time in which this process stood still would else be taken for the server's silence.
    fn due(&mut self, at: u64, space: &mut [u8]) -> Step
        requires { 4096 ≤ length space.old }
        ensures tick { IsTickNext self.old.first self.old.first_at at
            → result ≡ due_step (overdue self.old.stage self.old.limits at) }
        ensures first { (result ≡ due_step (overdue self.old.stage self.old.limits at))
            ⊎ ((self.new.first ≡ self.old.first + 1) × (self.new.first_at ≡ at)) }
        ensures piece { IsPiece result }
        ensures cause { HasCause result self.old.faults self.new.faults }
        ensures faults { self.old.faults ≤ self.new.faults }
    {
        if self.is_tick_next(at) {
            return self.beat(at);
        }
        match self.heard(at, space) {
            Some(step) => {
                self.first += 1;
                self.first_at = at;
                step
            }
            None => self.beat(at),
        }
    }

    // The tick that is due; or, where the link has lasted for too long without what is waited for, it fails.
    fn beat(&mut self, at: u64) -> Step
        ensures step { result ≡ due_step (overdue self.old.stage self.old.limits at) }
        ensures cause { HasCause result self.old.faults self.new.faults }
        ensures faults { self.old.faults ≤ self.new.faults }
    {
        match self.overdue(at) {
            Some(cause) => {
                self.fail(cause);
                Step::Fault
            }
            None => self.tick(at),
        }
    }

    // Why the link that there is is given up, where it is.
    fn overdue(&self, at: u64) -> Option<Cause>
        ensures { result ≡ overdue self.now.stage self.now.limits at }
    {
        match self.stage {
            Stage::Linked => self.limits.breach(at),
            _ => None,
        }
    }

    // Nobody waits for the session any more: what there is of a link fails, and all delays are over.
    fn give_up(&mut self) -> Told
        ensures at { (result.at ≡ 2 ^ 64 - 1) × (self.new.moment ≡ 2 ^ 64 - 1) }
        ensures step { result.step ≡ last_step self.old.stage }
        ensures idle { self.new.stage ≡ Stage.Idle }
        ensures cause { HasCause result.step self.old.faults self.new.faults }
        ensures faults { self.old.faults ≤ self.new.faults }
    {
        self.moment = u64::MAX;
        let step = match self.stage {
            Stage::Idle => Step::Tick,
            Stage::Refused | Stage::Connecting => {
                self.fail(Cause::Abandoned);
                Step::LinkFailed
            }
            Stage::Linked => {
                self.fail(Cause::Abandoned);
                Step::Fault
            }
        };
        Told {
            at: self.moment,
            step,
        }
    }

    // Whether a tick that is due is told next.
    fn is_tick_next(&self, at: u64) -> bool
        ensures next { IsTickNext self.now.first self.now.first_at at → result ≡ true }
        ensures few { result ≡ false → self.now.first < 4 }
    {
        let soon = at.saturating_sub(self.first_at) < TICK;
        self.first >= FIRST || (self.first > 0 && soon)
    }

    // What was received, and else what happened to the link.
    fn heard(&mut self, at: u64, space: &mut [u8]) -> Option<Step>
        requires { 4096 ≤ length space.old }
        ensures first { self.new.first ≡ self.old.first }
        ensures piece { IfSome result IsPiece }
        ensures cause { IfSome result (λ step. HasCause step self.old.faults self.new.faults) }
        ensures faults { self.old.faults ≤ self.new.faults }
        ensures none { IfNone result (self.new.faults ≡ self.old.faults) }
        ensures same { IfNone result ((self.new.stage ≡ self.old.stage) × (self.new.limits ≡ self.old.limits)) }
    {
        if self.stage == Stage::Linked {
            self.readable = true;
            if let Some(step) = self.received(at, space) {
                return Some(step);
            }
        }
        self.happened(at, space)
    }

    // What happened to the link.
    fn happened(&mut self, at: u64, space: &mut [u8]) -> Option<Step>
        requires { 4096 ≤ length space.old }
        ensures piece { IfSome result IsPiece }
        ensures cause { IfSome result (λ step. HasCause step self.old.faults self.new.faults) }
        ensures faults { self.old.faults ≤ self.new.faults }
        ensures none { IfNone result (self.new.faults ≡ self.old.faults) }
        ensures first { self.new.first ≡ self.old.first }
        ensures same { IfNone result ((self.new.stage ≡ self.old.stage) × (self.new.limits ≡ self.old.limits)) }
    {
        match self.stage {
            Stage::Idle => None,
            Stage::Refused => {
                self.fail(self.refusal);
                Some(Step::LinkFailed)
            }
            Stage::Connecting => self.connecting(at),
            Stage::Linked => self.linked(at, space),
        }
    }

    // The system has connected, or not; or it was given its time, and then the socket is asked once more: where
    // this process stood still meanwhile, the system may have connected long ago.
    fn connecting(&mut self, at: u64) -> Option<Step>
        ensures late { 10000 ≤ at - self.old.asked → IfNone result ⊥ }
        ensures told { IfSome result (λ step. (step ≡ Step.Linked) ⊎ (step ≡ Step.LinkFailed)) }
        ensures linked { result ≡ Some Step.Linked
            → (self.new.limits.linked_at ≡ at) × (self.new.limits.heard_at ≡ at) }
        ensures first { self.new.first ≡ self.old.first }
        ensures piece { IfSome result IsPiece }
        ensures cause { IfSome result (λ step. HasCause step self.old.faults self.new.faults) }
        ensures faults { self.old.faults ≤ self.new.faults }
        ensures none { IfNone result (self.new.faults ≡ self.old.faults) }
        ensures same { IfNone result ((self.new.stage ≡ self.old.stage) × (self.new.limits ≡ self.old.limits)) }
    {
        let late = at.saturating_sub(self.asked) >= CONNECT;
        if !self.answered && !late {
            return None;
        }
        self.answered = false;
        match self.is_connected() {
            Ok(true) => {
                self.stage = Stage::Linked;
                self.readable = true;
                self.limits.linked(at);
                Some(Step::Linked)
            }
            Ok(false) if !late => None,
            Ok(false) => {
                self.fail(Cause::TimedOut);
                Some(Step::LinkFailed)
            }
            Err(why) => {
                self.fail(cause_of(why.kind()));
                Some(Step::LinkFailed)
            }
        }
    }

    // Whether the system has connected, or why it could not.
    fn is_connected(&self) -> io::Result<bool> {
        let Some(stream) = &self.stream else {
            return Ok(false);
        };
        if let Some(why) = stream.take_error()? {
            return Err(why);
        }
        if stream.peer_addr().is_err() {
            return Ok(false);
        }
        // Small methods go out at once. Where the system can't do that, they only go later.
        drop(stream.set_nodelay(true));
        Ok(true)
    }

    // What is told of a link.
    fn linked(&mut self, at: u64, space: &mut [u8]) -> Option<Step>
        requires { 4096 ≤ length space.old }
        ensures piece { IfSome result IsPiece }
        ensures cause { IfSome result (λ step. HasCause step self.old.faults self.new.faults) }
        ensures faults { self.old.faults ≤ self.new.faults }
        ensures none { IfNone result (self.new.faults ≡ self.old.faults) }
        ensures first { self.new.first ≡ self.old.first }
        ensures same { IfNone result ((self.new.stage ≡ self.old.stage) × (self.new.limits ≡ self.old.limits)) }
    {
        if self.room {
            self.room = false;
            return Some(Step::Room);
        }
        self.received(at, space)
    }

    // What is held, or else is read: before the end of the link or its fault all that was read is told.
    fn received(&mut self, at: u64, space: &mut [u8]) -> Option<Step>
        requires { 4096 ≤ length space.old }
        ensures held { 1 ≤ length self.old.held
            → result ≡ Some (Step.Piece (min (length self.old.held) 4096)) }
        ensures octets { 1 ≤ length self.old.held
            → take (min (length self.old.held) 4096) space.new ≡ take (min (length self.old.held) 4096) self.old.held }
        ensures left { 1 ≤ length self.old.held
            → self.new.held ≡ drop (min (length self.old.held) 4096) self.old.held }
        ensures piece { IfSome result IsPiece }
        ensures cause { IfSome result (λ step. HasCause step self.old.faults self.new.faults) }
        ensures faults { self.old.faults ≤ self.new.faults }
        ensures none { IfNone result (self.new.faults ≡ self.old.faults) }
        ensures first { self.new.first ≡ self.old.first }
        ensures same { IfNone result ((self.new.stage ≡ self.old.stage) × (self.new.limits ≡ self.old.limits)) }
    {
        if self.held.is_empty() {
            if let Some(step) = self.refill(at) {
                return Some(step);
            }
            if self.held.is_empty() {
                return None;
            }
        }
        let octets = self.held.give(space);
        Some(Step::Piece(octets))
    }

    // Reads what there is, where a read may find something, or tells that there is no more.
    fn refill(&mut self, at: u64) -> Option<Step>
        ensures told { IfSome result (λ step. (step ≡ Step.End) ⊎ (step ≡ Step.Fault)) }
        ensures broken { self.old.broken ≡ true → result ≡ Some Step.Fault }
        ensures same { IfNone result (self.new.stage ≡ self.old.stage) }
        ensures nothing { IfNone result (length self.new.held ≡ 0 → self.new.limits ≡ self.old.limits) }
        ensures piece { IfSome result IsPiece }
        ensures cause { IfSome result (λ step. HasCause step self.old.faults self.new.faults) }
        ensures faults { self.old.faults ≤ self.new.faults }
        ensures none { IfNone result (self.new.faults ≡ self.old.faults) }
        ensures first { self.new.first ≡ self.old.first }
    {
        if self.broken {
            self.fail(self.refusal);
            return Some(Step::Fault);
        }
        if !self.readable {
            return None;
        }
        let stream = self.stream.as_mut()?;
        match self.held.read(stream) {
            Ok(0) => {
                self.hang_up();
                Some(Step::End)
            }
            Ok(_) => {
                self.limits.heard(at);
                None
            }
            Err(why) => self.unread(why.kind()),
        }
    }

    // What is told where a read gave nothing. One that was interrupted is made again.
    fn unread(&mut self, why: io::ErrorKind) -> Option<Step>
        ensures told { IfSome result (λ step. step ≡ Step.Fault) }
        ensures same { IfNone result ((self.new.stage ≡ self.old.stage) × (self.new.limits ≡ self.old.limits)
            × (self.new.held ≡ self.old.held)) }
        ensures piece { IfSome result IsPiece }
        ensures cause { IfSome result (λ step. HasCause step self.old.faults self.new.faults) }
        ensures faults { self.old.faults ≤ self.new.faults }
        ensures none { IfNone result (self.new.faults ≡ self.old.faults) }
        ensures first { self.new.first ≡ self.old.first }
    {
        match why {
            io::ErrorKind::Interrupted => None,
            io::ErrorKind::WouldBlock => {
                self.readable = false;
                None
            }
            _ => {
                self.fail(cause_of(why));
                Some(Step::Fault)
            }
        }
    }

    // Waits for something to happen, until the next tick at most. What the system can't watch any more is
    // given up.
    fn wait(&mut self, at: u64)
        ensures { self.new.faults ≡ self.old.faults }
    {
        if self.stage == Stage::Linked && self.readable {
            return;
        }
        let rest = TICK.saturating_sub(at.saturating_sub(self.ticked));
        let rest = Duration::from_millis(rest);
        match self.poll.poll(&mut self.events, Some(rest)) {
            Ok(()) => self.look(),
            Err(why) if why.kind() == io::ErrorKind::Interrupted => {}
            Err(_) => {
                self.blind();
                self.rt.sleep(rest);
            }
        }
    }

    // What has happened.
    fn look(&mut self)
        ensures { self.new.faults ≡ self.old.faults }
    {
        'events: for event in self.events.iter() {
            if event.token() == NUDGE {
                self.nudged = true;
                continue;
            }
            self.answered = true;
            self.readable = self.readable || event.is_readable() || event.is_read_closed();
            if self.full && event.is_writable() {
                self.full = false;
                self.room = true;
            }
        }
    }

    // The system took so many of the octets that were offered. Where that is less, it says later that there
    // is room again.
    fn note_taken(&mut self, taken: usize, offered: usize)
        ensures less { taken < offered → self.new.full ≡ true }
        ensures all { offered ≤ taken → self.new.full ≡ false }
        ensures faults { self.new.faults ≡ self.old.faults }
    {
        self.full = taken < offered;
    }

    // What is answered where the system refused to write. What is held is told first, and then the fault.
    fn unwritten(&mut self, why: io::ErrorKind) -> Wrote
        ensures held { 1 ≤ length self.old.held
            → (result ≡ Wrote.Took 0) × (self.new.held ≡ self.old.held) × (self.new.broken ≡ true) }
        ensures none { length self.old.held ≡ 0 → result ≡ Wrote.Failed }
        ensures cause { result ≡ Wrote.Failed → Rose self.old.faults self.new.faults }
        ensures faults { self.old.faults ≤ self.new.faults }
    {
        if self.held.is_empty() {
            self.fail(cause_of(why));
            return Wrote::Failed;
        }
        self.broken = true;
        self.refusal = cause_of(why);
        Wrote::Took(0)
    }

    // Nothing is heard of the socket any more: a read or the time of connecting tells what became of it.
    fn blind(&mut self)
        ensures { self.new.faults ≡ self.old.faults }
    {
        self.answered = true;
        self.readable = true;
    }
}

impl<R: Net + Clock + Drop> Port for MioPort<R> {
    ghost log = { λ p. None };

    ghost faults = { λ p. p.faults };

    ghost kept = { λ p. tt };

    fn connect(&mut self) {
        self.hang_up();
        self.asked = self.now();
        if self.standing() == Standing::Abandoned {
            self.refusal = Cause::Abandoned;
            self.stage = Stage::Refused;
            return;
        }
        self.stage = match self.begin() {
            Ok(()) => Stage::Connecting,
            Err(why) => {
                self.refusal = cause_of(why.kind());
                Stage::Refused
            }
        };
    }

    fn next(&mut self, space: &mut [u8]) -> Told {
        'waits: for _ in 0..u64::MAX {
            let at = self.now();
            let standing = self.standing();
            if standing == Standing::Abandoned {
                return self.give_up();
            }
            self.limits.note(standing, at);
            if let Some(step) = self.ready(at, space) {
                return Told { at, step };
            }
            self.wait(at);
        }
        Told {
            at: self.moment,
            step: Step::Tick,
        }
    }

    fn write(&mut self, first: &[u8], second: &[u8]) -> Wrote {
        let Some(stream) = &self.stream else {
            return Wrote::Took(0);
        };
        'tries: for _ in 0..u64::MAX {
            match stream.write_vectored(&[IoSlice::new(first), IoSlice::new(second)]) {
                Ok(n) => {
                    self.note_taken(n, first.len() + second.len());
                    return Wrote::Took(n);
                }
                Err(why) => match why.kind() {
                    io::ErrorKind::Interrupted => {}
                    io::ErrorKind::WouldBlock => {
                        self.note_taken(0, first.len() + second.len());
                        return Wrote::Took(0);
                    }
                    why => return self.unwritten(why),
                },
            }
        }
        Wrote::Took(0)
    }
}
