//! A connection with one channel.

use crate::closing::{closed, let_out};
use crate::own::{Own, Told};
use crate::stop::Stop;
use amqp_frame::RawMethod;
use amqp_session::{ConnectionProperties, Error, ErrorKind, Event, Handed, Result};
use amqp_types::{ShortString, Text};
use amqp_uri::AMQPUri;
use futures::executor::block_on;
use futures::future::{Either, select};
use lapin_connection::{
    Channel, Connection, ConnectionBuilder, EventsListener, Gives, MioSpawner, Pass, Pending,
};
use std::alloc::{AllocGlobal, Global};
use std::net::{Net, TcpListener, TcpStream};
use std::random::RandomSource;
use std::sync::Wait;
use std::thread::Threads;
use std::time::{Clock, Duration};

/// For how many seconds a broker may say nothing while a connection, or a channel, opens or closes.
pub const LIMIT: u64 = 10;

/// A connection with one channel, who commands it, and what it tells.
#[derive(Drop)]
pub struct Client {
    pub channel: Channel,
    pub pass: Pass,
    connection: Connection,
    events: EventsListener,
    // whether the channel gives no more frames, and for how many seconds nothing told why
    is_gone: bool,
    gone_for: u64,
}

/// What comes next.
#[derive(Drop)]
pub enum Next {
    /// Frames of the channel.
    Frames(Vec<Handed>),
    /// The broker wants nothing to be published any more, for this reason.
    Blocked(Text),
    /// It lets publishing go on.
    Unblocked,
    /// The link is lost, and the connection ended with it.
    Lost(Error),
    /// Standard input tells something.
    Told(Told),
    /// A second passed.
    Second,
}

// What came first of all that is waited for.
#[derive(Drop)]
enum First {
    Event(Option<Event>),
    Frames(Vec<Handed>),
    Told(Told),
    Second,
    NoMemory,
}

// What came of the connection's events.
fn event_of(event: std::result::Result<Option<Event>, amqp_types::NoMemory>) -> First {
    match event {
        Ok(event) => First::Event(event),
        Err(_) => First::NoMemory,
    }
}

// What came of the channel's frames.
fn frames_of(frames: Result<Vec<Handed>>) -> First {
    match frames {
        Ok(frames) => First::Frames(frames),
        Err(error) => {
            drop(error);
            First::NoMemory
        }
    }
}

/// Waits for an answer for so many seconds, and says what the broker did not do in time where it does not come.
pub fn within<T: Gives, R: Wait + Clock>(
    rt: &R,
    pending: &Pending<T>,
    seconds: u64,
    what: &'static str,
) -> std::result::Result<T, Stop> {
    match pending.wait_for(rt, Duration::from_secs(seconds)) {
        Some(answer) => Ok(answer?),
        None => Err(Stop::Silent(what, seconds)),
    }
}

// The connection, the channel, who commands, and the events.
#[derive(Drop)]
struct Opened {
    channel: Channel,
    pass: Pass,
    events: EventsListener,
}

// Connects to an address over a socket.
fn connected<
    R: Threads
        + Wait
        + Net<Listener = TcpListener, Stream = TcpStream>
        + Clock
        + Copy
        + Drop
        + Send
        + 'static,
>(rt: R, alloc: Global, uri: AMQPUri) -> Result<Connection> {
    let options = match ConnectionProperties::new(alloc) {
        Ok(options) => options,
        Err(refused) => {
            drop(uri);
            return Err(refused.into());
        }
    };
    let mut builder = ConnectionBuilder::new_with_runtime(MioSpawner::new(rt, alloc))
        .with_uri(uri)
        .with_properties(options);
    let connected = builder.connect(rt, alloc);
    drop(builder);
    connected
}

// Waits until a connection is open, and opens a channel.
fn open_on<R: Wait + Clock>(rt: &R, connection: &Connection) -> std::result::Result<Opened, Stop> {
    let opened = connection.opened()?;
    within(rt, &opened, LIMIT, "open the connection")?;
    drop(opened);
    let mut pass = connection.pass(rt)?;
    let events = connection.events_listener(rt, &mut pass)?;
    let opening = connection.create_channel(rt, &mut pass)?;
    let channel = within(rt, &opening, LIMIT, "open a channel")?;
    Ok(Opened {
        channel,
        pass,
        events,
    })
}

// Whether a connection ended with an error.
fn is_errored<R: Wait>(rt: &R, connection: &Connection) -> bool {
    match connection.status() {
        Ok(status) => status.errored(rt),
        Err(_) => false,
    }
}

impl Client {
    /// Connects to an address, and opens a channel. Where the broker says nothing for ten seconds, or refuses,
    /// that is told.
    pub fn open<R>(
        rt: R,
        alloc: Global,
        uri: AMQPUri,
        own: &mut Own,
    ) -> std::result::Result<Client, Stop>
    where
        R: Threads
            + Wait
            + Net<Listener = TcpListener, Stream = TcpStream>
            + Clock
            + RandomSource
            + AllocGlobal
            + Copy
            + Drop
            + Send
            + 'static,
    {
        let connection = connected(rt, alloc, uri)?;
        match open_on(&rt, &connection) {
            Ok(
                Opened {
                    channel,
                    pass,
                    events,
                },
            ) => Ok(Client {
                channel,
                pass,
                connection,
                events,
                is_gone: false,
                gone_for: 0,
            }),
            Err(Stop::Failed(error)) if is_errored(&rt, &connection) => {
                // How the connection ended says more than the call that found it so.
                match connection.run(&rt) {
                    Err(cause) => Err(Stop::Failed(cause)),
                    Ok(()) => Err(Stop::Failed(error)),
                }
            }
            Err(stop) => {
                // The port is told that nobody waits for it any more.
                let _told = connection.abandon();
                Err(stop)
            }
        }
    }

    /// Sends a method. That it was sent is waited for by nobody. Where the link or the channel is gone, what is
    /// waited for next says so, and nothing is sent.
    pub fn send<R: Wait>(&mut self, rt: &R, method: RawMethod) -> std::result::Result<(), Stop> {
        match self.channel.send_raw(rt, &mut self.pass, method) {
            Ok(sent) => {
                drop(sent);
                Ok(())
            }
            Err(error) if error.can_be_recovered() => {
                drop(error);
                Ok(())
            }
            Err(error) => Err(Stop::Failed(error)),
        }
    }

    // Waits for what comes first, of standard input too where that is wanted. Of what is there already the second goes
    // first, since frames may be there always.
    fn first<R: Wait + RandomSource + AllocGlobal>(
        &mut self,
        rt: &R,
        own: &mut Own,
        wants_input: bool,
    ) -> First {
        if self.is_gone {
            return self.first_of_events(rt, own);
        }
        if wants_input {
            return self.first_of_all(rt, own);
        }
        let link = select(self.events.next_event(rt), self.channel.next_frames(rt));
        match block_on(rt, select(own.seconds.recv(), link)) {
            Ok(Either::Left(_)) => First::Second,
            Ok(Either::Right((Either::Left((event, _)), _))) => event_of(event),
            Ok(Either::Right((Either::Right((frames, _)), _))) => frames_of(frames),
            Err(_) => First::NoMemory,
        }
    }

    // The same where the channel gives no more frames.
    fn first_of_events<R: Wait + RandomSource + AllocGlobal>(
        &mut self,
        rt: &R,
        own: &mut Own,
    ) -> First {
        match block_on(rt, select(own.seconds.recv(), self.events.next_event(rt))) {
            Ok(Either::Left(_)) => First::Second,
            Ok(Either::Right((event, _))) => event_of(event),
            Err(_) => First::NoMemory,
        }
    }

    // The same with standard input.
    fn first_of_all<R: Wait + RandomSource + AllocGlobal>(
        &mut self,
        rt: &R,
        own: &mut Own,
    ) -> First {
        let link = select(self.events.next_event(rt), self.channel.next_frames(rt));
        let here = select(own.seconds.recv(), own.input.recv());
        match block_on(rt, select(here, link)) {
            Ok(Either::Left((Either::Left(_), _))) => First::Second,
            Ok(Either::Left((Either::Right((Ok(told), _)), _))) => First::Told(told),
            Ok(Either::Left((Either::Right((Err(_), _)), _))) => First::Told(Told::End),
            Ok(Either::Right((Either::Left((event, _)), _))) => event_of(event),
            Ok(Either::Right((Either::Right((frames, _)), _))) => frames_of(frames),
            Err(_) => First::NoMemory,
        }
    }

    // What an event tells, where it tells something.
    fn told_by<R: Wait + Clock>(
        &mut self,
        rt: &R,
        event: Option<Event>,
    ) -> std::result::Result<Option<Next>, Stop> {
        match event {
            Some(Event::Error(error)) if is_errored(rt, &self.connection) => Ok(Some(Next::Lost(
                error,
            ))),
            Some(Event::Error(error)) => Err(Stop::Failed(error)),
            Some(Event::ConnectionBlocked(reason)) => Ok(Some(Next::Blocked(reason))),
            Some(Event::ConnectionUnblocked) => Ok(Some(Next::Unblocked)),
            Some(other) => {
                drop(other);
                Ok(None)
            }
            None => Err(self.ended(rt)),
        }
    }

    // How the connection ended that tells no more events.
    fn ended<R: Wait + Clock>(&self, rt: &R) -> Stop {
        let Ok(end) = self.connection.thread_handle() else {
            return Stop::Failed(ErrorKind::NoMemory.into());
        };
        match end.wait_for(rt, Duration::from_secs(LIMIT)) {
            Some(Err(cause)) => Stop::Failed(cause),
            Some(Ok(())) | None => Stop::Closed,
        }
    }

    // Why a channel is gone of which nothing else is told.
    fn gone(&self) -> Stop {
        Stop::Failed(ErrorKind::InvalidChannel(self.channel.id()).into())
    }

    /// Waits for what comes next, and for standard input too where that is wanted. Where the server closed the
    /// channel with an error, that is told.
    pub fn next<R: Wait + Clock + RandomSource + AllocGlobal>(
        &mut self,
        rt: &R,
        own: &mut Own,
        wants_input: bool,
    ) -> std::result::Result<Next, Stop> {
        for _ in rt.forever() {
            match self.first(rt, own, wants_input) {
                First::Event(event) => {
                    if let Some(next) = self.told_by(rt, event)? {
                        return Ok(next);
                    }
                }
                First::Frames(frames) if frames.is_empty() => self.is_gone = true,
                First::Frames(frames) => return Ok(Next::Frames(frames)),
                First::Told(told) => return Ok(Next::Told(told)),
                First::Second if self.is_gone && self.gone_for >= LIMIT => return Err(self.gone()),
                First::Second => {
                    if self.is_gone {
                        self.gone_for = self.gone_for.saturating_add(1);
                    }
                    return Ok(Next::Second);
                }
                First::NoMemory => return Err(Stop::Failed(ErrorKind::NoMemory.into())),
            }
        }
        unreachable!()
    }

    /// Closes the connection, once what was sent has gone out or two seconds passed, and waits for that for ten
    /// seconds. Where the server answered, it has read what was sent before. Frames that come meanwhile are let go.
    pub fn close<R: Wait + Clock>(self, rt: &R, alloc: Global) -> std::result::Result<(), Stop> {
        let mut client = self;
        let Ok(text) = ShortString::new(alloc, b"OK") else {
            return Err(Stop::Failed(ErrorKind::NoMemory.into()));
        };
        let_out(rt, &client.channel);
        match client.connection.close(rt, &mut client.pass, 200, text) {
            Ok(closing) => closed(rt, &closing, &client.channel),
            Err(error) => Err(Stop::Failed(error)),
        }
    }

    /// Closes the connection, however that ends. Where its broker was waited for in vain it is given up, and nothing
    /// more is waited for.
    pub fn leave<R: Wait + Clock>(self, rt: &R, alloc: Global, is_silent: bool) {
        if is_silent {
            let _told = self.connection.abandon();
        } else {
            drop(self.close(rt, alloc));
        }
    }
}
