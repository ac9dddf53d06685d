//! Stories, phase by phase.
//!
//! What a story owns is let go by one `drop` at its end: where a scope ends or a `?` returns, the check goes
//! through each part and each variant of what is owned there.

use crate::{elsewhere, foreign, hands, telling};
use amqp_session::{ConnectionProperties, ErrorKind, Result};
use amqp_types::NoMemory;
use amqp_uri::AMQPUri;
use lapin_connection::{Connection, ConnectionBuilder};
use lapin_connection_acts::acts::{self, parts_of};
use lapin_connection_acts::desk::{self, Desk};
use lapin_connection_acts::gate::{Gate, GateSpawner, Refuses, gates};
use lapin_connection_acts::hand::{Done, Hand, Stage};
use lapin_connection_acts::{asleep, outgoing};
use std::alloc::{AllocError, AllocGlobal, Global};
use std::random::RandomSource;
use std::rt::Files;
use std::sync::{Arc, Wait};
use std::thread;
use std::thread::Threads;
use std::time::Clock;

/// What stories need of the runtime.
pub trait Runs: Threads
    + Wait
    + Clock
    + Copy
    + Send
    + Sync
    + Drop
    + RandomSource
    + AllocGlobal
    + Files
    + 'static {}

impl<R> Runs for R
where
    R: Threads
        + Wait
        + Clock
        + Copy
        + Send
        + Sync
        + Drop
        + RandomSource
        + AllocGlobal
        + Files
        + 'static,
{}

/// A connection over a gate, its callers, and what one of them waits for.
#[derive(Drop)]
struct Story {
    alloc: Global,
    connection: Option<Connection>,
    gate: Arc<Gate>,
    hands: Vec<Hand>,
    desk: Desk,
    told: String,
}

// ---- how a story begins

// Options of a connection that asks for another link at once, and lets ten octets wait to go out.
fn recovering(alloc: Global) -> std::result::Result<ConnectionProperties, NoMemory> {
    let mut delays = Vec::new(alloc);
    delays.push(0)?;
    let options = ConnectionProperties::new(alloc)?.with_backoff(delays);
    Ok(options.enable_auto_recover(alloc)?.with_outbox_limit(10))
}

// Options of a connection where no more than one send may wait.
fn limited(alloc: Global) -> std::result::Result<ConnectionProperties, NoMemory> {
    Ok(ConnectionProperties::new(alloc)?.with_outbox_limit(20))
}

// A connection by a builder, which settles after so many octets, if that is said.
fn built<R: Threads + Wait + Clock + Copy + Send + Drop + 'static>(
    rt: R,
    alloc: Global,
    spawner: GateSpawner<R>,
    settles_after: Option<u64>,
) -> Result<Connection> {
    let text = match String::from_str(alloc, "amqp://localhost") {
        Ok(text) => text,
        Err(_) => {
            drop(spawner);
            return Err(ErrorKind::NoMemory.into());
        }
    };
    let builder = ConnectionBuilder::new_with_runtime(spawner).with_uri_str(text);
    let mut builder = match settles_after {
        Some(octets) => builder.settling_after(octets),
        None => builder,
    };
    let connection = builder.connect(rt, alloc);
    drop(builder);
    connection
}

// A connection by a builder, where two events wait at most, and two frames of each channel.
fn bounded<R: Threads + Wait + Clock + Copy + Send + Drop + 'static>(
    rt: R,
    alloc: Global,
    spawner: GateSpawner<R>,
) -> Result<Connection> {
    match AMQPUri::local(alloc) {
        Ok(uri) => {
            let mut builder = ConnectionBuilder::new_with_runtime(spawner)
                .with_uri(uri)
                .with_backlog_limit(2);
            let connection = builder.connect(rt, alloc);
            drop(builder);
            connection
        }
        Err(refused) => {
            drop(spawner);
            Err(refused.into())
        }
    }
}

// A connection to the local address with these options.
fn connected<R: Threads + Wait + Clock + Copy + Send + Drop + 'static>(
    rt: R,
    alloc: Global,
    mut spawner: GateSpawner<R>,
    options: ConnectionProperties,
) -> Result<Connection> {
    let connection = match AMQPUri::local(alloc) {
        Ok(uri) => Connection::connect_uri_with_runtime(rt, alloc, uri, options, &mut spawner),
        Err(refused) => {
            drop(options);
            Err(refused.into())
        }
    };
    drop(spawner);
    connection
}

// The same, where there is memory for the options.
fn connected_by<R: Threads + Wait + Clock + Copy + Send + Drop + 'static>(
    rt: R,
    alloc: Global,
    spawner: GateSpawner<R>,
    options: std::result::Result<ConnectionProperties, NoMemory>,
) -> Result<Connection> {
    match options {
        Ok(options) => connected(rt, alloc, spawner, options),
        Err(refused) => {
            drop(spawner);
            Err(refused.into())
        }
    }
}

// A connection over a gate, by this word.
fn connection_by<R: Threads + Wait + Clock + Copy + Send + Drop + 'static>(
    rt: R,
    alloc: Global,
    word: &str,
    gate: Arc<Gate>,
) -> Result<Connection> {
    let spawner = GateSpawner::new(rt, gate, Refuses::Nowhere);
    match word {
        "built" => built(rt, alloc, spawner, None),
        "settling" => built(rt, alloc, spawner, Some(3)),
        "recovering" => connected_by(rt, alloc, spawner, recovering(alloc)),
        "limited" => connected_by(rt, alloc, spawner, limited(alloc)),
        "bounded" => bounded(rt, alloc, spawner),
        "elsewhere" => elsewhere::by_mechanism(rt, alloc, spawner),
        "handed" => elsewhere::by_another(rt, alloc, spawner),
        _ => connected_by(rt, alloc, spawner, ConnectionProperties::new(alloc)),
    }
}

// A story that begins, with no hands yet.
fn begun<R: Threads + Wait + Clock + Copy + Send + Drop + 'static>(
    rt: R,
    alloc: Global,
    word: &str,
    script: &str,
) -> Result<Story> {
    let (gate, theirs) = gates(alloc, script)?;
    let connection = connection_by(rt, alloc, word, theirs)?;
    Ok(Story {
        alloc,
        connection: Some(connection),
        gate,
        hands: Vec::new(alloc),
        desk: Desk::new(alloc),
        told: String::new(alloc),
    })
}

// One more hand, with a pass of its own.
fn add_hand<R: Wait>(rt: &R, story: &mut Story) -> Done {
    let passes = match &story.connection {
        Some(connection) => connection.passes(rt, 1),
        None => Err(ErrorKind::OutOfTurns.into()),
    };
    match passes {
        Ok(passes) => {
            story.hands.push(Hand::new(story.alloc, passes))?;
            Ok(())
        }
        Err(error) => {
            drop(error);
            Err(AllocError)
        }
    }
}

// ---- acts

/// The first of some texts that a character parts, and the others.
fn first_of(texts: &str, between: char) -> (&str, &str) {
    match texts.split_once(between) {
        Some((first, others)) => (first.trim(), others.trim()),
        None => (texts.trim(), ""),
    }
}

// Does the acts that a hand was given.
fn do_acts<R: Wait + Clock>(rt: &R, stage: &Stage<'_>, hand: &mut Hand, all: &str) -> Done {
    let mut acts = all;
    for _ in 0..all.len() {
        if acts.is_empty() {
            break;
        }
        let (act, others) = first_of(acts, ',');
        if !acts::act(rt, stage, hand, act)? {
            hand.say("NO ACT")?;
        }
        acts = others;
    }
    Ok(())
}

// Does the acts that a hand was given, on its thread.
fn perform<R: Wait + Clock>(rt: &R, stage: &Stage<'_>, hand: &mut Hand) {
    let acts = String::new(hand.alloc);
    let acts = std::mem::replace(&mut hand.acts, acts);
    if do_acts(rt, stage, hand, acts.as_str()).is_err() {
        hand.starved = true;
    }
}

// All hands do their acts, each on a thread of its own.
fn together<R: Threads + Wait + Clock + Sync>(rt: &R, stage: &Stage<'_>, hands: &mut [Hand]) {
    let count = hands.len();
    if count > 0 {
        thread::for_each_mut(rt, hands, count, &|_, hand| perform(rt, stage, hand));
    }
}

// The first hand gets the connection, which it runs.
fn lend_connection(story: &mut Story) {
    if let Some(first) = story.hands.first_mut() {
        first.runs = story.connection.take();
    }
}

// Does an act alone. Whether it is one.
fn alone<R: Runs>(rt: &R, story: &mut Story, act: &str) -> std::result::Result<bool, AllocError> {
    let (word, rest) = parts_of(act);
    let number = rest.parse::<u64>().unwrap_or(0);
    if word == "run" {
        lend_connection(story);
    }
    if let Some(connection) = &story.connection {
        if hands::act(rt, story.alloc, connection, &mut story.hands, word)? {
            return Ok(true);
        }
    }
    let stage = Stage {
        connection: story.connection.as_ref(),
        gate: &story.gate,
    };
    let Some(hand) = story.hands.first_mut() else {
        return Ok(false);
    };
    if word == "foreign" {
        if let Some(connection) = stage.connection {
            foreign::passes(*rt, connection, hand)?;
        }
        return Ok(true);
    }
    if word == "asleep" {
        asleep::flows(rt, &stage, hand, act)?;
        return Ok(true);
    }
    if telling::act(rt, &stage, hand, word, number)? {
        return Ok(true);
    }
    if outgoing::act(rt, &stage, hand, word, (number % 65_536) as u16)? {
        return Ok(true);
    }
    if desk::act(rt, &stage, hand, &mut story.desk, word, number)? {
        return Ok(true);
    }
    acts::act(rt, &stage, hand, act)
}

// ---- phases

// Gives each hand its acts.
fn give_acts(story: &mut Story, phase: &str) -> Done {
    let mut rest = phase;
    for at in 0..story.hands.len() {
        let (acts, others) = first_of(rest, '|');
        if let Some(hand) = story.hands.get_mut(at) {
            hand.acts.push_str(acts)?;
        }
        rest = others;
    }
    Ok(())
}

// What the hands said goes last, with a bar between.
fn collect(story: &mut Story) -> Done {
    let mut first = true;
    for hand in &mut story.hands {
        if hand.starved {
            return Err(AllocError);
        }
        if !hand.said.is_empty() {
            if !first {
                story.told.push_str(" |")?;
            }
            if !story.told.is_empty() {
                story.told.push_str(" ")?;
            }
            story.told.push_str(hand.said.as_str())?;
            hand.said.clear();
            first = false;
        }
    }
    story.told.push_str(";")
}

// A phase of all hands at once. Where the first runs the connection, it has it.
fn at_once<R: Threads + Wait + Clock + Sync>(rt: &R, story: &mut Story, phase: &str) -> Done {
    give_acts(story, phase)?;
    if phase.starts_with("run") {
        lend_connection(story);
    }
    let stage = Stage {
        connection: story.connection.as_ref(),
        gate: &story.gate,
    };
    together(rt, &stage, &mut story.hands);
    Ok(())
}

// A phase of the first hand alone.
fn by_one<R: Runs>(rt: &R, story: &mut Story, phase: &str) -> Done {
    let mut acts = phase;
    for _ in 0..phase.len() {
        if acts.is_empty() {
            break;
        }
        let (act, others) = first_of(acts, ',');
        if !alone(rt, story, act)? {
            story.told.push_str(" NO ACT")?;
        }
        acts = others;
    }
    Ok(())
}

// All phases of a story, for so many hands.
fn phases<R: Runs>(rt: &R, story: &mut Story, hands: u64, all: &str) -> Done {
    for _ in 0..hands {
        add_hand(rt, story)?;
    }
    let mut rest = all;
    for _ in 0..all.len() {
        if rest.is_empty() {
            break;
        }
        let (phase, others) = first_of(rest, ';');
        if phase.contains('|') {
            at_once(rt, story, phase)?;
        } else {
            by_one(rt, story, phase)?;
        }
        collect(story)?;
        rest = others;
    }
    Ok(())
}

/// What is told of a story, which begins with how it connects and how many hands it has.
pub fn told<R: Runs>(
    rt: R,
    alloc: Global,
    script: &str,
    line: &str,
) -> std::result::Result<String, AllocError> {
    let (first, all) = first_of(line, ';');
    let (word, rest) = parts_of(first);
    let hands = rest.parse::<u64>().unwrap_or(1);
    match begun(rt, alloc, word, script) {
        Ok(mut story) => {
            let done = phases(&rt, &mut story, hands, all);
            story.gate.shut(&rt);
            let told = std::mem::replace(&mut story.told, String::new(alloc));
            drop(story);
            done?;
            Ok(told)
        }
        Err(error) => {
            drop(error);
            Err(AllocError)
        }
    }
}
