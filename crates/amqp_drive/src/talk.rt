//! One channel: what is published on it, what the broker says of that, and what it delivers.

use crate::fates::{Fate, Fates, runs_of};
use crate::limit::Limit;
use crate::order::Messages;
use crate::stop::{Stop, text};
use amqp_frame::RawKind;
use amqp_methods::{
    BasicAckOptions, BasicConsumeOptions, BasicPublishOptions, ConfirmSelectOptions, basic_ack,
    basic_consume, basic_publish, confirm_select,
};
use amqp_session::{ErrorKind, Handed, Properties, Result};
use amqp_tools::{Arriving, Heard, told_by};
use amqp_types::{FieldTable, Payload, ShortString};
use lapin_connection::{Channel, Pass, Pending};
use std::alloc::{AllocError, Global};
use std::sync::Wait;
use std::time::Clock;

/// The properties of a message that outlasts the broker where its queue does: the delivery mode 2.
const PERSISTENT: &[u8] = &[0x10, 0, 2];

/// A channel.
#[derive(Drop)]
pub struct Talk {
    alloc: Global,
    pub channel: Channel,
    // what waits for answers, by the numbers of messages
    kept: Vec<(u64, Pending<()>)>,
    // what the broker said of messages, in confirm mode
    fates: Option<Fates>,
    selected: bool,
    arriving: Arriving,
    // the numbers of the messages that were delivered
    received: Vec<u64>,
}

// Where messages of a size are published: to a queue, by the exchange that has no name.
#[derive(Drop)]
struct Target {
    exchange: ShortString,
    queue: ShortString,
    octets: usize,
}

/// Until when frames are heard.
#[derive(Clone, Copy)]
pub enum Until {
    Selected,
    Answered,
    Received(u64),
}

/// A name.
pub fn short(alloc: Global, name: &str) -> std::result::Result<ShortString, Stop> {
    match ShortString::new(alloc, name.as_bytes()) {
        Ok(name) => Ok(name),
        Err(_) => Err(Stop::Unknown),
    }
}

// The body of a message: its number in ten digits, and then as many letters as are left.
fn body(alloc: Global, number: u64, octets: usize) -> std::result::Result<Payload, AllocError> {
    let mut body = vec![in alloc; b'x'; octets]?;
    let digits = format!(in alloc; "{number:010}")?;
    for (place, digit) in body.iter_mut().zip(digits.as_bytes()) {
        *place = *digit;
    }
    Ok(Payload::from_vec(body))
}

// The number of a message, by its body.
fn number_of(body: &[u8]) -> u64 {
    let mut number = 0u64;
    for digit in body.iter().take(10) {
        if digit.is_ascii_digit() {
            let value = (*digit as u64).saturating_sub(48);
            number = number.saturating_mul(10).saturating_add(value);
        }
    }
    number
}

impl Talk {
    /// Nothing was said on it yet.
    pub fn new(alloc: Global, channel: Channel) -> Talk {
        Talk {
            alloc,
            channel,
            kept: Vec::new(alloc),
            fates: None,
            selected: false,
            arriving: Arriving::new(alloc),
            received: Vec::new(alloc),
        }
    }

    // Publishes one message, and gives what waits for its answer.
    fn publish<R: Wait>(
        &mut self,
        rt: &R,
        pass: &mut Pass,
        number: u64,
        target: &Target,
    ) -> Result<Pending<()>> {
        let alloc = self.alloc;
        let options = BasicPublishOptions {
            mandatory: false,
            immediate: false,
        };
        let method = basic_publish(alloc, &target.exchange, &target.queue, options)?;
        let Some(properties) = Properties::new(Payload::new(alloc, PERSISTENT)?) else {
            return Err(ErrorKind::NoMemory.into());
        };
        let Ok(body) = body(alloc, number, target.octets) else {
            return Err(ErrorKind::NoMemory.into());
        };
        self.channel.publish_raw(rt, pass, method, properties, body)
    }

    /// Publishes messages with the numbers behind this one, which then is that of the last; keeps what waits for
    /// their answers, or lets it go.
    pub fn publish_all<R: Wait>(
        &mut self,
        rt: &R,
        pass: &mut Pass,
        last: &mut u64,
        messages: Messages<'_>,
        keeps: bool,
    ) -> std::result::Result<(), Stop> {
        let target = Target {
            exchange: short(self.alloc, "")?,
            queue: short(self.alloc, messages.queue)?,
            octets: messages.octets,
        };
        for _ in 0..messages.count {
            let number = last.saturating_add(1);
            let pending = self.publish(rt, pass, number, &target)?;
            *last = number;
            if let Some(fates) = &mut self.fates {
                fates.push()?;
            }
            if keeps {
                self.kept.push((number, pending))?;
            } else {
                drop(pending);
            }
        }
        drop(target);
        Ok(())
    }

    /// Puts the channel into confirm mode; the next message has this number.
    pub fn select<R: Wait>(
        &mut self,
        rt: &R,
        pass: &mut Pass,
        first: u64,
    ) -> std::result::Result<(), Stop> {
        let method = confirm_select(self.alloc, ConfirmSelectOptions { nowait: false })?;
        drop(self.channel.send_raw(rt, pass, method)?);
        self.selected = false;
        self.fates = Some(Fates::new(self.alloc, first));
        Ok(())
    }

    /// Consumes a queue. Each message is acknowledged once it came.
    pub fn consume<R: Wait>(
        &mut self,
        rt: &R,
        pass: &mut Pass,
        queue: &str,
    ) -> std::result::Result<(), Stop> {
        let options = BasicConsumeOptions {
            no_local: false,
            no_ack: false,
            exclusive: false,
            nowait: false,
        };
        let alloc = self.alloc;
        let queue = short(alloc, queue)?;
        let tag = short(alloc, "")?;
        let method = basic_consume(alloc, &queue, &tag, options, &FieldTable::new(alloc));
        drop(queue);
        drop(tag);
        match method {
            Ok(method) => {
                drop(self.channel.send_raw(rt, pass, method)?);
                Ok(())
            }
            Err(_) => Err(Stop::NoMemory),
        }
    }

    /// Waits for the answers that were kept, and says which messages were sent, which were not, and why the first
    /// of these was not.
    pub fn answers<R: Wait + Clock>(
        &mut self,
        rt: &R,
        limit: Limit,
    ) -> std::result::Result<String, Stop> {
        let alloc = self.alloc;
        let mut sent = Vec::new(alloc);
        let mut failed = Vec::new(alloc);
        let mut open = Vec::new(alloc);
        let mut why = String::new(alloc);
        for (number, pending) in &self.kept {
            let answer = match limit.left(rt) {
                Some(left) => pending.wait_for(rt, left),
                None => pending.try_wait(rt),
            };
            match answer {
                Some(Ok(())) => sent.push(*number)?,
                Some(Err(error)) => {
                    failed.push(*number)?;
                    if why.is_empty() {
                        why = format!(in alloc; ": {error}")?;
                    }
                    drop(error);
                }
                None => open.push(*number)?,
            }
        }
        self.kept.clear();
        let sent = runs_of(alloc, &sent)?;
        let failed = runs_of(alloc, &failed)?;
        let open = runs_of(alloc, &open)?;
        Ok(format!(in alloc; "sent {sent}, without answer {open}, not sent {failed}{why}")?)
    }

    fn is_done(&self, until: Until) -> bool {
        match until {
            Until::Selected => self.selected,
            Until::Answered => match &self.fates {
                Some(fates) => fates.open() == 0,
                None => true,
            },
            Until::Received(count) => self.received.len() as u64 >= count,
        }
    }

    /// Hears frames until that is so, the limit is over, or the channel is gone.
    pub fn hear_until<R: Wait + Clock>(
        &mut self,
        rt: &R,
        pass: &mut Pass,
        limit: Limit,
        until: Until,
    ) -> std::result::Result<bool, Stop> {
        for _ in 0..u64::MAX {
            if self.is_done(until) {
                return Ok(true);
            }
            let Some(left) = limit.left(rt) else {
                return Ok(false);
            };
            match self.channel.wait_frames_for(rt, left) {
                None => return Ok(false),
                Some(frames) if frames.is_empty() => return Ok(false),
                Some(frames) => self.hear(rt, pass, frames)?,
            }
        }
        Ok(false)
    }

    // Hears frames, and acknowledges the messages that become whole by them.
    fn hear<R: Wait>(
        &mut self,
        rt: &R,
        pass: &mut Pass,
        frames: Vec<Handed>,
    ) -> std::result::Result<(), Stop> {
        let mut tag = None;
        for frame in frames {
            self.hear_one(&frame)?;
            drop(frame);
            if let Some(whole) = self.arriving.whole() {
                self.received.push(number_of(self.arriving.body()))?;
                self.arriving.forget();
                tag = Some(whole);
            }
        }
        let Some(tag) = tag else {
            return Ok(());
        };
        let method = basic_ack(self.alloc, tag, BasicAckOptions { multiple: true })?;
        drop(self.channel.send_raw(rt, pass, method)?);
        Ok(())
    }

    fn hear_one(&mut self, frame: &Handed) -> std::result::Result<(), Stop> {
        let payload = frame.bytes.as_bytes();
        match frame.kind {
            RawKind::Header => self.arriving.header(payload),
            RawKind::Body => self.arriving.part(payload)?,
            RawKind::RawMethod => {
                self.told(told_by(payload));
                self.arriving.method(self.alloc, payload)?;
            }
        }
        Ok(())
    }

    // What the broker told by a method.
    fn told(&mut self, heard: Heard) {
        match (heard, &mut self.fates) {
            (Heard::Selected, _) => self.selected = true,
            (Heard::Taken(tag, multiple), Some(fates)) => fates.answer(tag, multiple, Fate::Taken),
            (Heard::Refused(tag, multiple), Some(fates)) => {
                fates.answer(tag, multiple, Fate::Refused)
            }
            _ => {}
        }
    }

    /// Which messages the broker confirmed, which it refused, and of which it said nothing.
    pub fn confirmed(&self) -> std::result::Result<String, Stop> {
        let Some(fates) = &self.fates else {
            return text(self.alloc, "no confirm mode");
        };
        let taken = fates.numbers(Fate::Taken)?;
        let refused = fates.numbers(Fate::Refused)?;
        let open = fates.numbers(Fate::Open)?;
        Ok(format!(in self.alloc; "confirmed {taken}, refused {refused}, without answer {open}")?)
    }

    /// How many messages were delivered, and which.
    pub fn delivered(&mut self) -> std::result::Result<String, Stop> {
        self.received.sort_unstable();
        let count = self.received.len();
        let numbers = runs_of(self.alloc, &self.received)?;
        Ok(format!(in self.alloc; "{count} came: {numbers}")?)
    }
}
