//! Who consumes a queue.

mod acknowledging;

use amqp_client::{Client, LIMIT, Links, Next, Own, Stop};
use amqp_frame::{RawKind, RawMethod};
use amqp_methods::{
    BasicConsumeOptions, BasicQosOptions, basic_consume, basic_qos, header_named, read_properties,
};
use amqp_session::{Error, ErrorKind, Handed};
use amqp_tools::{
    Arriving, Coming, Delivery, Framing, Heard, Sink, Taking, Untaken, size_in, told_by,
};
use amqp_types::{FieldTable, ShortString, Text};
use lapin_connection::Pending;
use std::alloc::{AllocGlobal, Global};
use std::io::Eprint;
use std::net::{Net, TcpListener, TcpStream};
use std::random::RandomSource;
use std::sync::Wait;
use std::thread::Threads;
use std::time::Clock;

/// How many messages may be delivered and not acknowledged.
const MOST_UNACKNOWLEDGED: u64 = 256;

/// The tag of the consumer, which is the only one of its channel.
const TAG: &[u8] = b"amqp";

/// What is wanted.
#[derive(Drop)]
pub struct Wanted {
    pub queue: ShortString,
    /// How many messages; any number where it is not said.
    pub count: Option<u64>,
    /// By which property a message is told that was printed: `message-id`, or the name of a header.
    pub once: Option<Text>,
    /// How bodies are printed one after another.
    pub framing: Framing,
    /// How many octets a body may have.
    pub most: usize,
    /// Whether it goes on over another link, where one is lost.
    pub recovers: bool,
    /// For how many seconds a message is waited for; for ever where it is not said.
    pub timeout: Option<u64>,
    /// Whether it is not said how many came again.
    pub is_quiet: bool,
}

/// Who consumes one queue.
#[derive(Drop)]
pub struct Consumer<'a> {
    alloc: Global,
    links: Links<'a>,
    client: Client,
    wanted: Wanted,
    taking: Taking,
    arriving: Arriving,
    // the properties of the message that arrives, where they are looked at
    properties: Vec<u8>,
    // how many may be delivered and not acknowledged, as the broker was told
    ahead: u64,
    // the answer by which it is known that what was acknowledged before was read
    asked: Option<Pending<bool>>,
    // for how many seconds nothing was delivered
    waited: u64,
}

impl<'a> Consumer<'a> {
    /// Who consumes by this client.
    pub fn new(alloc: Global, links: Links<'a>, client: Client, wanted: Wanted) -> Consumer<'a> {
        let count = wanted.count;
        Consumer {
            alloc,
            links,
            client,
            wanted,
            taking: Taking::new(alloc, count),
            arriving: Arriving::new(alloc),
            properties: Vec::new(alloc),
            ahead: MOST_UNACKNOWLEDGED,
            asked: None,
            waited: 0,
        }
    }

    // How many messages may come: those that may be printed, and those of which it is not known whether they are
    // acknowledged; one, where it is to be seen whether one comes again that was counted.
    fn may_come(&self) -> u64 {
        match self.taking.left() {
            Some(left) => left
                .saturating_add(self.taking.unknown() as u64)
                .max(u64::from(self.taking.may_come_again())),
            None => MOST_UNACKNOWLEDGED,
        }
    }

    // Asks for messages: no more at a time than may come.
    fn ask<R: Wait>(&mut self, rt: &R) -> Result<(), Stop> {
        self.ahead = self.may_come().clamp(1, MOST_UNACKNOWLEDGED);
        let options = BasicQosOptions { global: false };
        let qos = basic_qos(self.alloc, self.ahead as u16, options)?;
        self.client.send(rt, qos)?;
        let method = self.consuming()?;
        self.client.send(rt, method)
    }

    // The method by which the messages of the queue are asked for.
    fn consuming(&self) -> Result<RawMethod, Stop> {
        let options = BasicConsumeOptions {
            no_local: false,
            no_ack: false,
            exclusive: false,
            nowait: false,
        };
        let tag = tag(self.alloc)?;
        let arguments = FieldTable::new(self.alloc);
        match basic_consume(self.alloc, &self.wanted.queue, &tag, options, &arguments) {
            Ok(method) => Ok(method),
            Err(_) => Err(Stop::Failed(ErrorKind::NoMemory.into())),
        }
    }

    /// Asks for messages, prints and acknowledges them, until as many as are wanted are known to be acknowledged.
    pub fn consume_all<R, S: Sink>(
        &mut self,
        rt: &R,
        own: &mut Own,
        out: &mut S,
    ) -> Result<(), Stop>
    where
        R: Threads
            + Wait
            + Net<Listener = TcpListener, Stream = TcpStream>
            + Clock
            + Eprint
            + RandomSource
            + AllocGlobal
            + Copy
            + Drop
            + Send
            + 'static,
    {
        if self.taking.is_done() {
            return Ok(());
        }
        self.ask(rt)?;
        for _ in rt.forever() {
            self.finish(rt)?;
            if self.taking.is_done() {
                return Ok(());
            }
            self.step(rt, own, out)?;
        }
        unreachable!()
    }

    // Waits for what comes next, and does it.
    fn step<R, S: Sink>(&mut self, rt: &R, own: &mut Own, out: &mut S) -> Result<(), Stop>
    where
        R: Threads
            + Wait
            + Net<Listener = TcpListener, Stream = TcpStream>
            + Clock
            + Eprint
            + RandomSource
            + AllocGlobal
            + Copy
            + Drop
            + Send
            + 'static,
    {
        let name = self.links.name;
        match self.client.next(rt, own, false)? {
            Next::Frames(frames) => {
                self.print(frames, out)?;
                self.acknowledge(rt, out)
            }
            Next::Second => self.second(rt),
            Next::Lost(error) => self.lost(rt, own, error),
            Next::Blocked(reason) => {
                let why = reason.as_str();
                let _said = eprintln!(rt; "{name}: the broker blocks: {why}");
                drop(reason);
                Ok(())
            }
            Next::Unblocked => {
                let _said = eprintln!(rt; "{name}: the broker blocks no more");
                Ok(())
            }
            Next::Told(told) => {
                drop(told);
                Ok(())
            }
        }
    }

    // A second passed.
    fn second<R: Wait>(&mut self, rt: &R) -> Result<(), Stop> {
        self.hear_answer(rt)?;
        self.waited = self.waited.saturating_add(1);
        // All that are wanted came but for those that may come again, and none does.
        if self.waited >= LIMIT && self.taking.left() == Some(0) {
            self.taking.settle_all()?;
        }
        match self.wanted.timeout {
            Some(most) if self.waited >= most => Err(Stop::Silent("deliver anything", most)),
            _ => Ok(()),
        }
    }

    // The link is lost. Where it recovers, what was not acknowledged over it is delivered again over another.
    fn lost<R>(&mut self, rt: &R, own: &mut Own, error: Error) -> Result<(), Stop>
    where
        R: Threads
            + Wait
            + Net<Listener = TcpListener, Stream = TcpStream>
            + Clock
            + Eprint
            + RandomSource
            + AllocGlobal
            + Copy
            + Drop
            + Send
            + 'static,
    {
        if !self.wanted.recovers {
            return Err(Stop::Failed(error));
        }
        self.arriving.forget();
        self.asked = None;
        self.taking.lose()?;
        self.client = self.links.again(*rt, self.alloc, own, error)?;
        self.waited = 0;
        let name = self.links.name;
        let _said = eprintln!(rt; "{name}: connected again");
        self.ask(rt)
    }

    // Prints the messages that become whole by these frames, as many as are wanted.
    fn print<S: Sink>(&mut self, frames: Vec<Handed>, out: &mut S) -> Result<(), Stop> {
        for frame in frames {
            let heard = self.hear(&frame);
            drop(frame);
            heard?;
            if let Some(tag) = self.arriving.whole() {
                self.waited = 0;
                let printed = self.take(tag, out);
                self.arriving.forget();
                printed?;
            }
        }
        Ok(())
    }

    // Hears a frame.
    fn hear(&mut self, frame: &Handed) -> Result<(), Stop> {
        let payload = frame.bytes.as_bytes();
        match frame.kind {
            RawKind::RawMethod if told_by(payload) == Heard::Cancelled => Err(Stop::Gone),
            RawKind::RawMethod => Ok(self.arriving.method(self.alloc, payload)?),
            RawKind::Header => self.header(payload),
            RawKind::Body => {
                self.waited = 0;
                Ok(self.arriving.part(payload)?)
            }
        }
    }

    // Hears a content header.
    fn header(&mut self, payload: &[u8]) -> Result<(), Stop> {
        let size = size_in(payload);
        if size > self.wanted.most as u64 {
            return Err(Stop::TooLarge(size, self.wanted.most));
        }
        if self.wanted.once.is_some() {
            self.properties.clear();
            let octets = if payload.len() < 12 {
                payload
            } else {
                &payload[12..]
            };
            match self.properties.extend_from_slice(octets) {
                Ok(()) => {}
                Err(_) => return Err(Stop::Failed(ErrorKind::NoMemory.into())),
            }
        }
        self.arriving.header(payload);
        Ok(())
    }

    // Takes the message that is whole: it is printed, where it is wanted and was not printed before.
    fn take<S: Sink>(&mut self, tag: u64, out: &mut S) -> Result<(), Stop> {
        let delivery = Delivery {
            tag,
            redelivered: self.arriving.redelivered(),
            name: name_among(&self.wanted.once, &self.properties),
            body: self.arriving.body(),
        };
        match self.taking.come(out, self.wanted.framing, delivery) {
            Ok(Coming::Astray) => Err(Stop::Astray),
            Ok(_) => Ok(()),
            Err(why) => Err(untaken(why)),
        }
    }

    // Says how many came again, and of how many wanted ones it is known that they are acknowledged, where not of all.
    fn tell<R: Eprint>(&self, rt: &R) {
        if self.wanted.is_quiet {
            return;
        }
        let name = self.links.name;
        let again = self.taking.again();
        if again > 0 {
            let _said = eprintln!(rt; "{name}: {again} came again");
        }
        if let Some(count) = self.wanted.count
            && !self.taking.is_done()
        {
            let counted = self.taking.counted();
            let _said = eprintln!(rt; "{name}: {counted} of {count} acknowledged");
        }
    }

    /// Says how far it came, and closes the connection, however that ends: what is counted is acknowledged. A broker
    /// that was waited for in vain is not asked for more.
    pub fn close<R: Wait + Clock + Eprint>(self, rt: &R, is_silent: bool) {
        let consumer = self;
        consumer.tell(rt);
        let Consumer {
            alloc,
            links: _,
            client,
            wanted,
            taking,
            ..
        } = consumer;
        drop(wanted);
        drop(taking);
        client.leave(rt, alloc, is_silent);
    }
}

// By which of its properties a message is known, where it has that.
fn name_among<'a>(once: &Option<Text>, properties: &'a [u8]) -> Option<&'a [u8]> {
    match once {
        Some(property) => value_of(property.as_str(), properties),
        None => None,
    }
}

// The tag of the consumer.
fn tag(alloc: Global) -> Result<ShortString, Stop> {
    match ShortString::new(alloc, TAG) {
        Ok(tag) => Ok(tag),
        Err(_) => Err(Stop::Failed(ErrorKind::NoMemory.into())),
    }
}

// The value of a property of the message whose properties these octets are: its message id, or a header.
fn value_of<'a>(name: &str, octets: &'a [u8]) -> Option<&'a [u8]> {
    let properties = read_properties(octets)?;
    if name == "message-id" {
        return properties.message_id;
    }
    let (_tag, value) = header_named(properties.headers?, name.as_bytes())?;
    Some(value)
}

// Why the program goes no further, where a message could not be taken.
fn untaken(why: Untaken) -> Stop {
    match why {
        Untaken::Unwritten => Stop::Unwritten,
        Untaken::NoMemory => Stop::Failed(ErrorKind::NoMemory.into()),
    }
}
