//! The session, and its queries.

ghost use Rattle.std.specs.Prelude.{◌≡◌, ◌∷◌, ◌<◌, ◌^◌, [], None, Some, Ok, IfOk, IfErr, IfSome, IsTrue};
ghost use Rattle.amqp_types.specs.declared.error.AMQPError.{AMQPError};
ghost use Rattle.amqp_settings.specs.Config.{config_of};
ghost use Rattle.amqp_promise.specs.declared.error.ErrorKind.TheVariants.{ProtocolError};
ghost use Rattle.amqp_violations.specs.declared.server_close.ServerClose.TheVariants.{WithError};
ghost use Rattle.amqp_rules.specs.Talk.{start, is_open};
ghost use Rattle.amqp_answers.specs.Seen.{made_in, promised};
ghost use Rattle.amqp_rules.specs.Parts.{is_with_error};
ghost use Rattle.amqp_rules.specs.Recovery.{was_up, reconnect_delay, reconnect};
ghost use Rattle.amqp_rules.specs.Changes.{present_at, starve, fail, lose, misplaced, close, finish, give, give_to};

mod answers;
mod asking;
mod channel_methods;
mod commands;
mod connection_methods;
mod copies;
mod dropping;
mod events;
mod frames;
mod links;
mod places;
mod queries;
mod reopening;
mod ticks;
mod writing;

use amqp_answers::{Answer, Backlog, Events, Promises};
use amqp_channels::Channels;
use amqp_outgoing::Outgoing;
use amqp_promise::{ConnectionState, ErrorKind};
use amqp_rules::{End, Input, Link, Phase};
use amqp_settings::{Capacity, Configuration, ConnectionProperties, Options, own_numbers};
use amqp_types::NoMemory;
use amqp_uri::AMQPUri;
use amqp_violations::ServerClose;
use std::alloc::Global;
use std::fmt;
use std::marker::Model;

/// The client's side of a connection. Its `Debug` shows the state, how many channels are listed and how
/// many promises were made, and nothing else: how the client logs in is among the frames that wait.
#[derive(Drop)]
pub struct Session {
    alloc: Global,
    uri: AMQPUri,
    options: Options,
    state: ConnectionState,
    phase: Phase,
    link: Link<End>,
    input: Input,
    blocked: bool,
    configuration: Configuration,
    capacity: Capacity,
    channels: Channels,
    outgoing: Outgoing,
    backlog: Backlog,
    promises: Promises,
    server_close: Option<ServerClose>,
    events: Events,
    present: u64,
    last_read: u64,
    last_write: u64,
    secret_at: u64,
    refreshing: bool,
    tried: usize,
}

impl Model for Session {
    ghost use Rattle.std.specs.Prelude.{◌≤◌, IsTrue};
    ghost use Rattle.amqp_settings.specs.Config.{config_of};
    ghost use Rattle.amqp_rules.specs.Talk.{Talk};
    ghost use Rattle.amqp_outgoing.specs.Outgoings.{queue_of, marks};
    ghost use Rattle.amqp_rules.specs.Parts.{link_seen};
    ghost use Rattle.amqp_answers.specs.Seen.{made_in, promised, noted_in};

    ghost Value = { Talk };

    ghost use Rattle.std.specs.Coded.{codes};
    ghost use Rattle.amqp_types.specs.ValueCode.{value_code};

    ghost coded = { Prim.hlevel (codes, value_code) };

    ghost view = { λ s. record {
      config = config_of s.uri s.options;
      state = s.state;
      phase = s.phase;
      link = link_seen s.server_close s.link;
      input = s.input;
      blocked = s.blocked;
      configuration = s.configuration;
      capacity = s.capacity;
      channels = s.channels.listed;
      cursor = s.channels.cursor;
      outbox = queue_of s.outgoing;
      committed = marks s.outgoing;
      handed = s.backlog;
      made = made_in s.promises;
      promises = promised s.promises;
      server_close = s.server_close;
      noted = noted_in s.events;
      present = s.present;
      last_read = s.last_read;
      last_write = s.last_write;
      secret_at = s.secret_at;
      refreshing = s.refreshing;
      tried = s.tried;
    } };

    ghost use Rattle.amqp_rules.specs.Talk.{is_acting};
    ghost use Rattle.amqp_outgoing.specs.Marks.{left_in};
    ghost use Rattle.amqp_channels.specs.Channels.{opened_until};
    ghost use Rattle.amqp_rules.specs.Sound.{fits_link, is_agreed, goes_on};

    // What is unsent fits the capacity. The state has its link; what was agreed has room for a channel,
    // and for frames of at least 4,096 octets; and while the connection is being opened, and while it is
    // open, frames act. The listed channels were opened by promises that were made.
    ghost invariant = { λ s. (left_in (marks s.outgoing) ≤ s.capacity)
        × IsTrue (fits_link s.state (link_seen s.server_close s.link))
        × (IsTrue (is_agreed s.state s.phase) → 1 ≤ s.configuration.channel_max)
        × (IsTrue (is_agreed s.state s.phase) → 4096 ≤ s.configuration.frame_max)
        × (IsTrue (goes_on s.state) → IsTrue (is_acting s.input))
        × (opened_until s.channels.listed ≤ made_in s.promises) };
}

impl fmt::Debug for Session {
    ghost use Rattle.std.specs.Prelude.{Some};
    ghost use Rattle.amqp_rules.specs.Queries.{session_debug};

    ghost debug_output = { λ s. Some (session_debug s) };

    fn fmt<W: fmt::Write>(&self, f: &mut fmt::Formatter<W>) -> fmt::Result {
        write!(
            f,
            "Session {{ state: {}, channels: {}, promises: {}, .. }}",
            self.state.name(),
            self.channels.len(),
            self.promises.made()
        )
    }
}

impl Session {
    /// A session with a server at this address, which wants a link. The options are moved in; a provider
    /// of authentication is parted from them before, and lent to the calls that ask.
    pub fn new(
        alloc: Global,
        uri: &AMQPUri,
        options: ConnectionProperties,
    ) -> amqp_promise::Result<Session>
        ensures ok { IfOk result (λ s. s ≡ start (config_of uri.now options.plain)) }
        ensures err { IfErr result (λ e. e ≡ ErrorKind.NoMemory) }
    {
        let made = Session::parts(alloc, uri);
        match made {
            Ok((uri, promises)) => Ok(Session::begin(alloc, uri, options.into_plain(), promises)),
            Err(refused) => {
                drop(options);
                Err(refused.into())
            }
        }
    }

    // What takes memory: a copy of the address, and the promises with that of the connection.
    fn parts(alloc: Global, uri: &AMQPUri) -> Result<(AMQPUri, Promises), NoMemory>
        ensures uri { IfOk result (λ made. made.0 ≡ uri.now) }
        ensures promises { IfOk result (λ made. (made_in made.1 ≡ 1) × (promised made.1 ≡ (0, None) ∷ [])) }
    {
        let mut promises = Promises::new(alloc);
        promises.reserve()?;
        promises.promise_reserved();
        let uri = uri.try_clone(alloc)?;
        Ok((uri, promises))
    }

    fn begin(alloc: Global, uri: AMQPUri, options: Options, promises: Promises) -> Session
        requires made { made_in promises ≡ 1 }
        requires slots { promised promises ≡ (0, None) ∷ [] }
        ensures { result ≡ start (config_of uri options) }
    {
        let configuration = own_numbers(&uri.query);
        Session {
            alloc,
            uri,
            options,
            state: ConnectionState::Initial,
            phase: Phase::AwaitStart,
            link: Link::Wanted,
            input: Input::Acting,
            blocked: false,
            configuration,
            capacity: Capacity::of(configuration.frame_max),
            channels: Channels::new(alloc),
            outgoing: Outgoing::new(alloc),
            backlog: Backlog::new(alloc),
            promises,
            server_close: None,
            events: Events::new(alloc),
            present: 0,
            last_read: 0,
            last_write: 0,
            secret_at: 0,
            refreshing: false,
            tried: 0,
        }
    }

    /// The present follows a moment, in milliseconds.
    pub fn advance(&mut self, at: u64)
        ensures { self.new ≡ present_at at self.old }
    {
        if !self.has_ended() {
            self.present = self.present.max(at);
        }
    }

    /// Memory was refused.
    pub fn starve(&mut self, at: u64)
        ensures { self.new ≡ starve (present_at at self.old) }
    {
        self.advance(at);
        if !self.has_ended() {
            self.fail(ErrorKind::NoMemory);
        }
    }

    fn fail(&mut self, kind: ErrorKind)
        ensures { self.new ≡ fail kind self.old }
    {
        self.state = ConnectionState::Error;
        self.link = Link::Ended(Err(End::Failed(kind.into())));
        self.channels.clear();
        self.events.fail();
    }

    // The link is lost. The session recovers from the error, or ends with it. No memory is taken.
    fn lose(&mut self, kind: ErrorKind)
        ensures { self.new ≡ lose kind self.old }
    {
        if !kind.can_be_recovered() {
            self.fail(kind);
            return;
        }
        match self.reconnect_delay() {
            Some(delay) => self.reconnect(kind, delay),
            None => self.fail(kind),
        }
    }

    // How long the session waits for another link, where it may go on without this one and a delay is left.
    fn reconnect_delay(&self) -> Option<u64>
        ensures delay { result ≡ reconnect_delay self.now }
        ensures small { IfSome result (λ delay. self.now.tried < 2 ^ 63) }
        ensures opened { IfSome result (λ delay. IsTrue (is_open self.now)) }
    {
        if self.options.recovers() && self.is_open() && self.was_up() {
            return self.options.delay(self.tried);
        }
        None
    }

    // Whether the connection is being opened or is open, or was when the server closed it.
    fn was_up(&self) -> bool
        ensures { result ≡ was_up self.now.state self.now.input }
    {
        match self.state {
            ConnectionState::Connecting | ConnectionState::Connected => true,
            ConnectionState::Closing => self.input.is_uncrossed(),
            _ => false,
        }
    }

    // What waited or was committed goes with the link, whoever waits for it is told why, and the channels
    // that were open wait for another link.
    fn reconnect(&mut self, kind: ErrorKind, delay: u64)
        requires { self.old.tried < 2 ^ 63 }
        ensures { self.new ≡ reconnect kind delay self.old }
    {
        self.state = ConnectionState::Reconnecting;
        self.link = Link::Due(self.present.saturating_add(delay));
        self.tried += 1;
        self.blocked = false;
        self.outgoing.clear();
        self.channels.keep_open();
        self.promises.reject_all(kind);
        self.server_close = None;
        self.events.forget();
    }

    fn close(&mut self)
        ensures { self.new ≡ close self.old }
    {
        self.state = ConnectionState::Closed;
        self.link = Link::Ended(Ok(()));
        self.channels.clear();
        self.events.forget();
    }

    // The session finishes after the server's close. No memory is taken.
    fn finish(&mut self)
        ensures { self.new ≡ finish self.old }
    {
        if !self.is_closed_with_error() {
            self.close();
            return;
        }
        match self.reconnect_delay() {
            Some(delay) => self.reconnect_closed(delay),
            None => self.fail_closed(),
        }
    }

    // Whether the server closed the connection with an error.
    fn is_closed_with_error(&self) -> bool
        ensures { result ≡ is_with_error self.now.server_close }
    {
        matches!(self.server_close, Some(ServerClose::WithError(_)))
    }

    // The session recovers from the error with which the server closed.
    fn reconnect_closed(&mut self, delay: u64)
        requires small { self.old.tried < 2 ^ 63 }
        requires opened { IsTrue (is_open self.old) }
        ensures { (e : AMQPError) → self.old.server_close ≡ Some (WithError e)
            → self.new ≡ reconnect (ProtocolError e) delay self.old }
    {
        match self.server_close.take() {
            Some(ServerClose::WithError(error)) => self.reconnect(
                ErrorKind::ProtocolError(error),
                delay,
            ),
            told => self.server_close = told,
        }
    }

    // The session ends by the error with which the server closed, which is kept there.
    fn fail_closed(&mut self)
        requires { IsTrue (is_with_error self.old.server_close) }
        ensures { (e : AMQPError) → self.old.server_close ≡ Some (WithError e)
            → self.new ≡ fail (ProtocolError e) self.old }
    {
        self.state = ConnectionState::Error;
        self.link = Link::Ended(Err(End::ByServer));
        self.channels.clear();
        self.events.fail();
    }

    // Memory was refused to a rule, which had not begun.
    fn starved(&mut self, refused: NoMemory) -> amqp_promise::Error
        ensures error { result ≡ ErrorKind.NoMemory }
        ensures end { self.new ≡ fail ErrorKind.NoMemory self.old }
    {
        self.fail(ErrorKind::NoMemory);
        refused.into()
    }

    // A frame came where it may not.
    fn misplaced(&mut self, kind: ErrorKind)
        ensures { self.new ≡ misplaced kind self.old }
    {
        if self.state == ConnectionState::Closing {
            drop(kind);
        } else {
            self.lose(kind);
        }
    }

    fn give(&mut self, number: u64, answer: Answer)
        ensures { self.new ≡ give number (Ok answer) self.old }
    {
        self.promises.settle(number, Ok(answer));
    }

    fn give_to(&mut self, promise: Option<u64>, answer: Answer)
        ensures { self.new ≡ give_to promise (Ok answer) self.old }
    {
        if let Some(number) = promise {
            self.give(number, answer);
        }
    }
}
