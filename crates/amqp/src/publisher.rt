//! Who publishes on a channel in confirm mode.

mod hearing;

use crate::counts::{Counts, tell};
use crate::described::Described;
use crate::report::Report;
use amqp_client::{Client, Links, Next, Own, Stop, Told};
use amqp_methods::{BasicPublishOptions, ConfirmSelectOptions, basic_publish, confirm_select};
use amqp_session::{Error, ErrorKind};
use amqp_tools::{Bodies, Confirms, Open, Part};
use amqp_types::{Payload, ShortString};
use std::alloc::{AllocGlobal, Global};
use std::io::{Eprint, Write};
use std::net::{Net, TcpListener, TcpStream};
use std::random::RandomSource;
use std::sync::Wait;
use std::thread::Threads;
use std::time::Clock;

/// How many messages may be without an answer.
const MOST_OPEN: usize = 1_000;

/// How many octets of bodies are published before all of them have their answer.
const MOST_OCTETS: usize = 16_777_216;

/// Where messages are published, and how.
#[derive(Drop)]
pub struct Target {
    pub exchange: ShortString,
    pub key: ShortString,
    /// The properties of each.
    pub described: Described,
    /// How many octets a body may have.
    pub most: usize,
    /// Whether what has no answer is published again over another link, where one is lost.
    pub recovers: bool,
    /// For how many seconds an answer is waited for; for ever where it is not said.
    pub timeout: Option<u64>,
    /// Whether it is not said how far it is.
    pub is_quiet: bool,
}

// What comes next of what is to be published.
#[derive(Clone, Copy, PartialEq, Eq)]
enum Ready {
    /// Octets of standard input.
    Input,
    /// An answer, or another link: there is no room for one more.
    Room,
    /// Nothing.
    Done,
}

/// Who publishes to one exchange with one routing key, and keeps what the broker has not answered.
#[derive(Drop)]
pub struct Publisher<'a, F: Write + Drop> {
    alloc: Global,
    links: Links<'a>,
    client: Client,
    target: Target,
    report: Report<F>,
    confirms: Confirms,
    // how many octets of bodies were published since none was without an answer
    octets: usize,
    counts: Counts,
    told: Option<Counts>,
    // whether nothing is published until the broker was heard, since the link or the channel is gone
    is_down: bool,
    // the message that the broker gives back: its code, how many octets of its body are to come, and those that came
    returning: Option<u16>,
    missing: u64,
    body: Vec<u8>,
    // for how many seconds the broker said nothing while messages had no answer
    waited: u64,
}

impl<'a, F: Write + Drop> Publisher<'a, F> {
    /// Who publishes by this client, whose channel is put into confirm mode.
    pub fn open<R: Wait>(
        rt: &R,
        alloc: Global,
        links: Links<'a>,
        client: Client,
        target: Target,
        report: Report<F>,
    ) -> Result<Publisher<'a, F>, Stop> {
        let mut publisher = Publisher {
            alloc,
            links,
            client,
            target,
            report,
            confirms: Confirms::new(alloc),
            octets: 0,
            counts: Counts {
                published: 0,
                confirmed: 0,
                refused: 0,
                returned: 0,
            },
            told: None,
            is_down: false,
            returning: None,
            missing: 0,
            body: Vec::new(alloc),
            waited: 0,
        };
        match publisher.select(rt) {
            Ok(()) => Ok(publisher),
            Err(stop) => {
                drop(publisher);
                Err(stop)
            }
        }
    }

    // Puts the channel into confirm mode. What is published after that is confirmed.
    fn select<R: Wait>(&mut self, rt: &R) -> Result<(), Stop> {
        let method = confirm_select(self.alloc, ConfirmSelectOptions { nowait: false })?;
        self.client.send(rt, method)
    }

    /// Publishes each body, and waits until all are answered.
    pub fn publish_all<R>(&mut self, rt: &R, own: &mut Own, bodies: &mut Bodies) -> Result<(), Stop>
    where
        R: Threads
            + Wait
            + Net<Listener = TcpListener, Stream = TcpStream>
            + Clock
            + Eprint
            + RandomSource
            + AllocGlobal
            + Copy
            + Drop
            + Send
            + 'static,
    {
        for _ in rt.forever() {
            let ready = self.publish_ready(rt, bodies)?;
            if ready == Ready::Done && self.confirms.unanswered() == 0 {
                return Ok(());
            }
            self.step(rt, own, bodies, ready == Ready::Input)?;
        }
        unreachable!()
    }

    // Publishes the bodies that are there, while there is room for one more without an answer.
    fn publish_ready<R: Wait>(&mut self, rt: &R, bodies: &mut Bodies) -> Result<Ready, Stop> {
        for _ in rt.forever() {
            if !self.has_room() {
                return Ok(Ready::Room);
            }
            let body = match bodies.next()? {
                Part::Body(body) => body,
                Part::More => return Ok(Ready::Input),
                Part::End => return Ok(Ready::Done),
                Part::TooLarge(most) => return Err(Stop::TooLong(most)),
                Part::Torn => return Err(Stop::Unread),
            };
            self.publish(rt, body)?;
        }
        unreachable!()
    }

    // Whether one more message may be without an answer.
    fn has_room(&mut self) -> bool {
        let open = self.confirms.unanswered();
        if open == 0 {
            self.octets = 0;
        }
        !self.is_down && open < MOST_OPEN && self.octets < MOST_OCTETS
    }

    // Publishes a body, and keeps it where it may be published again, or is looked for when it is given back.
    fn publish<R: Wait>(&mut self, rt: &R, body: Payload) -> Result<(), Stop> {
        let kept = if self.target.recovers || self.report.is_wanted() {
            Some(body.try_clone(self.alloc)?)
        } else {
            None
        };
        self.confirms.publish(kept)?;
        self.counts.published = self.counts.published.saturating_add(1);
        self.put(rt, self.counts.published, body)
    }

    // Gives the message with this number to the connection.
    fn put<R: Wait>(&mut self, rt: &R, message: u64, body: Payload) -> Result<(), Stop> {
        let alloc = self.alloc;
        let options = BasicPublishOptions {
            mandatory: true,
            immediate: false,
        };
        let method = basic_publish(alloc, &self.target.exchange, &self.target.key, options)?;
        let properties = self.target.described.of(alloc, message)?;
        self.octets = self.octets.saturating_add(body.as_bytes().len());
        let Client { channel, pass, .. } = &mut self.client;
        match channel.publish_raw(rt, pass, method, properties, body) {
            Ok(sent) => {
                drop(sent);
                Ok(())
            }
            Err(error) if error.can_be_recovered() => {
                drop(error);
                self.is_down = true;
                Ok(())
            }
            Err(error) => Err(Stop::Failed(error)),
        }
    }

    // Waits for what comes next, and does it.
    fn step<R>(
        &mut self,
        rt: &R,
        own: &mut Own,
        bodies: &mut Bodies,
        wants_input: bool,
    ) -> Result<(), Stop>
    where
        R: Threads
            + Wait
            + Net<Listener = TcpListener, Stream = TcpStream>
            + Clock
            + Eprint
            + RandomSource
            + AllocGlobal
            + Copy
            + Drop
            + Send
            + 'static,
    {
        let name = self.links.name;
        match self.client.next(rt, own, wants_input)? {
            Next::Frames(frames) => self.hear(frames),
            Next::Told(told) => took(bodies, told),
            Next::Second => self.second(rt),
            Next::Lost(error) => self.lost(rt, own, error),
            Next::Blocked(reason) => {
                let why = reason.as_str();
                let _said = eprintln!(rt; "{name}: the broker blocks: {why}");
                drop(reason);
                Ok(())
            }
            Next::Unblocked => {
                let _said = eprintln!(rt; "{name}: the broker blocks no more");
                Ok(())
            }
        }
    }

    // A second passed.
    fn second<R: Eprint>(&mut self, rt: &R) -> Result<(), Stop> {
        self.report.flush()?;
        if !self.target.is_quiet && self.told != Some(self.counts) {
            tell(rt, self.counts);
            self.told = Some(self.counts);
        }
        if self.confirms.unanswered() == 0 {
            self.waited = 0;
            return Ok(());
        }
        self.waited = self.waited.saturating_add(1);
        match self.target.timeout {
            Some(most) if self.waited >= most => Err(Stop::Silent("confirm anything", most)),
            _ => Ok(()),
        }
    }

    // The link is lost. Where it recovers, what has no answer is published again over another.
    fn lost<R>(&mut self, rt: &R, own: &mut Own, error: Error) -> Result<(), Stop>
    where
        R: Threads
            + Wait
            + Net<Listener = TcpListener, Stream = TcpStream>
            + Clock
            + Eprint
            + RandomSource
            + AllocGlobal
            + Copy
            + Drop
            + Send
            + 'static,
    {
        match self.client.channel.take_frames(rt) {
            Ok(frames) => self.hear(frames)?,
            Err(refused) => return Err(Stop::Failed(refused)),
        }
        if !self.target.recovers {
            return Err(Stop::Failed(error));
        }
        self.client = self.links.again(*rt, self.alloc, own, error)?;
        self.is_down = false;
        self.returning = None;
        self.octets = 0;
        self.waited = 0;
        self.select(rt)?;
        let open = self.confirms.begin_again();
        let count = open.len();
        let returned = open.iter().filter(|open| open.returned.is_some()).count();
        self.counts.returned = self.counts.returned.saturating_sub(returned as u64);
        self.put_again(rt, open)?;
        let name = self.links.name;
        let _said = eprintln!(rt; "{name}: connected again, {count} published again");
        Ok(())
    }

    // Publishes again what had no answer, as if none of it had been given back.
    fn put_again<R: Wait>(&mut self, rt: &R, opens: Vec<Open>) -> Result<(), Stop> {
        for open in opens {
            let body = match &open.body {
                Some(body) => body.try_clone(self.alloc)?,
                None => Payload::empty(self.alloc),
            };
            let message = open.message;
            let mut open = open;
            open.returned = None;
            self.confirms.publish_again(open)?;
            self.put(rt, message, body)?;
        }
        Ok(())
    }

    /// Says how far it came, and closes the connection, however that ends: what was confirmed stays so. A broker that
    /// was waited for in vain is not asked for more. Whether the broker took each message.
    pub fn close<R: Wait + Clock + Eprint>(self, rt: &R, is_silent: bool) -> Result<bool, Stop> {
        let mut publisher = self;
        let reported = publisher.report_open();
        if !publisher.target.is_quiet && publisher.told != Some(publisher.counts) {
            tell(rt, publisher.counts);
        }
        let Publisher {
            alloc,
            links: _,
            client,
            target,
            report,
            confirms,
            counts,
            ..
        } = publisher;
        drop(target);
        drop(report);
        drop(confirms);
        client.leave(rt, alloc, is_silent);
        reported?;
        Ok(counts.confirmed == counts.published && counts.returned == 0)
    }

    // Reports those that have no answer.
    fn report_open(&mut self) -> Result<(), Stop> {
        for open in self.confirms.open() {
            self.report.say(open.message, "unknown", None)?;
        }
        self.report.flush()
    }
}

// Takes what standard input tells.
fn took(bodies: &mut Bodies, told: Told) -> Result<(), Stop> {
    match told {
        Told::Octets(octets) => {
            let pushed = bodies.push(&octets);
            drop(octets);
            Ok(pushed?)
        }
        Told::End => {
            bodies.end();
            Ok(())
        }
        Told::Failed => Err(Stop::Unread),
        Told::NoMemory => Err(Stop::Failed(ErrorKind::NoMemory.into())),
    }
}
