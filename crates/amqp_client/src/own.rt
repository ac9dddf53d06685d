//! What comes of this side: the seconds that pass, and the octets of standard input.

use amqp_types::NoMemory;
use futures::SinkExt;
use futures::channel::mpsc::{self, Receiver, Sender};
use futures::executor::block_on;
use std::alloc::{AllocGlobal, Global};
use std::io::{self, BufRead, BufReader, Input, StdinLock};
use std::random::RandomSource;
use std::sync::Wait;
use std::thread;
use std::thread::{Parker, Threads};
use std::time::Duration;

/// How many octets of standard input are read at once.
const BLOCK: usize = 65_536;

/// How many such parts are read ahead.
const AHEAD: usize = 4;

/// How many seconds wait at most to be heard: one in the channel, and one of its sender.
const SECONDS_AHEAD: usize = 2;

/// What standard input tells.
#[derive(Drop)]
pub enum Told {
    /// Octets.
    Octets(Vec<u8>),
    /// It has ended.
    End,
    /// It failed.
    Failed,
    /// Memory was refused to read it.
    NoMemory,
}

/// What comes of this side.
#[derive(Drop)]
pub struct Own {
    pub(crate) seconds: Receiver<()>,
    pub(crate) input: Receiver<Told>,
}

// Tells each second, until nobody hears it. One that is not heard in time is left out.
fn tell_seconds<R: Wait>(rt: &R, seconds: Sender<()>) {
    let mut seconds = seconds;
    let parker = Parker::new();
    for _ in rt.forever() {
        parker.park_timeout(rt, Duration::from_secs(1));
        if seconds.is_closed() {
            return;
        }
        drop(seconds.try_send(()));
    }
}

// What standard input tells next.
fn told_by<B: BufRead>(alloc: Global, input: &mut B) -> Told {
    let (told, count) = match input.fill_buf() {
        Ok([]) => (Told::End, 0),
        Ok(octets) => match Vec::from_slice(alloc, octets) {
            Ok(copy) => (Told::Octets(copy), octets.len()),
            Err(_) => (Told::NoMemory, 0),
        },
        Err(why) => match why.kind() {
            io::ErrorKind::Interrupted => (Told::Octets(Vec::new(alloc)), 0),
            io::ErrorKind::OutOfMemory => (Told::NoMemory, 0),
            _ => (Told::Failed, 0),
        },
    };
    input.consume(count);
    told
}

// Tells what standard input has, until its end, or until nobody hears it.
fn tell_input<R: Wait + Input<Reader = StdinLock<'static>> + RandomSource + AllocGlobal>(
    rt: &R,
    alloc: Global,
    told: Sender<Told>,
) {
    let mut sender = told;
    let mut input = match BufReader::with_capacity(alloc, BLOCK, rt.reader()) {
        Ok(input) => input,
        Err(_) => {
            drop(sender.try_send(Told::NoMemory));
            return;
        }
    };
    for _ in rt.forever() {
        let told = told_by(alloc, &mut input);
        let is_last = !matches!(&told, Told::Octets(_));
        let sent = block_on(rt, (&mut sender).send(told));
        if is_last || !matches!(&sent, Ok(Ok(_))) {
            return;
        }
    }
}

impl Own {
    /// Tells the seconds, and nothing of standard input.
    pub fn seconds<R: Threads + Wait + Copy + Drop + Send + 'static>(
        rt: R,
        alloc: Global,
    ) -> Result<Own, NoMemory> {
        let (_nothing, input) = mpsc::channel(alloc, 1)?;
        let (sender, seconds) = mpsc::channel(alloc, 1)?;
        match thread::spawn(&rt, move || tell_seconds(&rt, sender)) {
            Ok(_on_its_own) => Ok(Own { seconds, input }),
            Err(_) => Err(NoMemory),
        }
    }

    /// The same, which tells standard input too.
    pub fn with_input<
        R: Threads
            + Wait
            + Input<Reader = StdinLock<'static>>
            + RandomSource
            + AllocGlobal
            + Copy
            + Drop
            + Send
            + 'static,
    >(rt: R, alloc: Global) -> Result<Own, NoMemory> {
        let Own { seconds, input: _ } = Own::seconds(rt, alloc)?;
        let (sender, input) = mpsc::channel(alloc, AHEAD)?;
        match thread::spawn(&rt, move || tell_input(&rt, alloc, sender)) {
            Ok(_on_its_own) => Ok(Own { seconds, input }),
            Err(_) => Err(NoMemory),
        }
    }

    /// Waits for so many seconds, those left out that passed before.
    pub fn pass<R: Wait + RandomSource + AllocGlobal>(
        &mut self,
        rt: &R,
        count: u64,
    ) -> Result<(), NoMemory> {
        for _ in 0..SECONDS_AHEAD {
            match self.seconds.try_recv() {
                Ok(_second) => {}
                Err(_) => break,
            }
        }
        for _ in 0..count {
            match block_on(rt, self.seconds.recv()) {
                Ok(_second) => {}
                Err(_) => return Err(NoMemory),
            }
        }
        Ok(())
    }
}
