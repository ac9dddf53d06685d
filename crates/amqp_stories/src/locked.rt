//! Stories of what lies under a lock, turned by hand over a port that plays a script.
//!
//! A story is acts with commas between them. Its answer is what was seen at each act that looks, with commas between.
//!
//! `turns N` takes so many turns, each with what nobody will take let go behind it. `open` opens a channel;
//! `ask` asks the server to pause channel 1; `drop N` drops the Nth of these handles, and `drop 0` the
//! connection's; `spend N` says that its answer was taken. What looks: `answer N`, the answer to the promise of
//! that number; `journal`, the entries since the last look; `wrote`, the frames since the last look; `waits`,
//! whether something is waited for that nobody will take.
//!
//! What a story owns is let go by one `drop` at its end: where a scope ends or a `?` returns, the check goes
//! through each part and each variant of what is owned there.

mod acts;
mod played;

use crate::server::Server;
use amqp_engine::IoLoop;
use amqp_hub::{DropMark, Hub, Pass};
use amqp_locked::{Line, Locked};
use amqp_session::{ConnectionProperties, DefaultAuthProvider, Result};
use amqp_uri::AMQPUri;
use played::Played;
use std::alloc::{AllocError, Global};

/// What lies under a lock, its line and who answers the server; the passes of its callers, and the marks of
/// its handles; and how many octets and entries were looked at.
#[derive(Drop)]
pub struct Story {
    pub alloc: Global,
    pub locked: Locked,
    pub line: Line<Played>,
    pub provider: DefaultAuthProvider,
    pub passes: Vec<Pass>,
    pub connection: Option<DropMark>,
    pub marks: Vec<Option<DropMark>>,
    pub octets: usize,
    pub entries: usize,
}

// A hub of a new engine over a port.
fn hub_over(alloc: Global, port: &mut Played, uri: &AMQPUri) -> Result<Hub> {
    let options = ConnectionProperties::new(alloc)?;
    let engine = IoLoop::new(alloc, uri, options)?;
    Hub::new(alloc, engine, port)
}

// What lies under a new lock over a port, and the mark of the connection.
fn locked_over(alloc: Global, port: &mut Played, uri: &AMQPUri) -> Result<(Locked, DropMark)> {
    let hub = hub_over(alloc, port, uri)?;
    Locked::new(alloc, hub)
}

// Who answers the server.
fn provider(alloc: Global, uri: &AMQPUri) -> Result<DefaultAuthProvider> {
    Ok(DefaultAuthProvider::new(alloc, uri)?)
}

// A story that begins.
fn begun(alloc: Global, mut port: Played) -> Result<Story> {
    let uri = AMQPUri::local(alloc)?;
    let provider = provider(alloc, &uri)?;
    let (locked, mark) = locked_over(alloc, &mut port, &uri)?;
    Ok(Story {
        alloc,
        locked,
        line: Line::new(port),
        provider,
        passes: Vec::new(alloc),
        connection: Some(mark),
        marks: Vec::new(alloc),
        octets: 0,
        entries: 0,
    })
}

// One caller has a pass. Whether memory was found.
fn admit(story: &mut Story) -> bool {
    match story.locked.passes(1) {
        Ok(passes) => {
            story.passes = passes;
            true
        }
        Err(error) => {
            drop(error);
            false
        }
    }
}

// The first act of some, and the others.
fn first_of(acts: &str) -> (&str, &str) {
    match acts.split_once(',') {
        Some((first, others)) => (first.trim(), others.trim()),
        None => (acts.trim(), ""),
    }
}

// The word of an act, and its number, from 0 on.
fn parts_of(act: &str) -> (&str, u64) {
    match act.split_once(' ') {
        Some((word, number)) => (word, number.parse::<u64>().unwrap_or(0)),
        None => (act, 0),
    }
}

// Does the acts, and tells what is seen at each that looks.
fn play(story: &mut Story, line: &str, told: &mut String) -> std::result::Result<(), AllocError> {
    if !admit(story) {
        return Err(AllocError);
    }
    let mut acts = line;
    for _ in 0..line.len() {
        if acts.is_empty() {
            break;
        }
        let (act, others) = first_of(acts);
        let (word, number) = parts_of(act);
        acts::act(story, word, number, told)?;
        acts = others;
    }
    Ok(())
}

// What is seen in a story over a port.
fn seen(alloc: Global, port: Played, line: &str) -> std::result::Result<String, AllocError> {
    let mut told = String::new(alloc);
    match begun(alloc, port) {
        Ok(mut story) => {
            let done = play(&mut story, line, &mut told);
            drop(story);
            done?;
            Ok(told)
        }
        Err(error) => {
            drop(error);
            Err(AllocError)
        }
    }
}

/// What is told of a story, by the script of its server.
pub fn told(alloc: Global, script: &str, line: &str) -> std::result::Result<String, AllocError> {
    let server = Server::new(alloc, script)?;
    seen(alloc, Played { server }, line)
}
