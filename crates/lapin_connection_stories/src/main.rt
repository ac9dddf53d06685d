//! Tells stories of connections: of what lies under their lock, and of connections whose loops run on threads, over a
//! gate port whose steps a story lets through.
//!
//! A line `=== under a lock` or `=== on threads` of standard input says of which kind the stories are that follow, a
//! line `server WORD..` what happens at their port, as `amqp_stories` spells it. Lines that begin with `#`, and empty
//! lines, stand in the output as they are. Each other line is a story, and gets a line of its own.
//!
//! What a story under a lock is, `amqp_stories` says in `locked`. Of those on threads a line `connect CALL REFUSES
//! TEXT` calls one of the calls that connect, over a spawner that refuses to give a port or a thread; `build GIVEN`
//! asks a builder twice; `call NAME` calls a caller of `amqp_uses`. Each other line is how a connection connects
//! (`plain`, `built`, `settling`, `recovering`, `limited`, `bounded`, `elsewhere` or `handed`) and how many hands it
//! has, which are callers with a pass each; then its phases, with semicolons between. A phase is what one hand does,
//! acts with commas between; or what all hands do at once, on a thread each, with bars between. Its answer is what they
//! see, phase by phase. The modules list the acts: those of a thread (`acts` of `lapin_connection_acts`), and those of
//! one hand alone (`desk` and `outgoing` there; `hands` and `telling`).
#![tactic(auto)]

mod calling;
mod connecting;
mod elsewhere;
mod foreign;
mod hands;
mod story;
mod telling;

use amqp_stories::locked;
use lapin_connection_acts::acts::parts_of;
use std::alloc::AllocError;
use std::io;
use std::io::{BufRead, BufReader, BufWriter, Write};
use story::Runs;

// Where stories play.
#[derive(Clone, Copy)]
enum Place {
    UnderLock,
    OnThreads,
}

// The place that a line names.
fn place_in(line: &str) -> Option<Place> {
    match line {
        "=== under a lock" => Some(Place::UnderLock),
        "=== on threads" => Some(Place::OnThreads),
        _ => None,
    }
}

// What is told of a story on threads.
fn told_on_threads<R: Runs>(rt: R, script: &str, line: &str) -> Result<String, AllocError> {
    let alloc = rt.alloc();
    let (word, rest) = parts_of(line);
    match word {
        "connect" => connecting::refused(rt, alloc, rest),
        "build" => connecting::built(rt, alloc, rest),
        "call" => calling::told(rt, alloc, script, rest),
        _ => story::told(rt, alloc, script, line),
    }
}

// What is told of a line.
fn told<R: Runs>(rt: R, place: Place, script: &str, line: &str) -> Result<String, AllocError> {
    if line.is_empty() || line.starts_with('#') {
        return line.to_string(rt.alloc());
    }
    match place {
        Place::UnderLock => locked::told(rt.alloc(), script, line),
        Place::OnThreads => told_on_threads(rt, script, line),
    }
}

fn main(rt: HostRuntime) -> io::Result<()> {
    let alloc = rt.alloc();
    let mut out = BufWriter::new(alloc, io::writer(&rt))?;
    let mut place = Place::OnThreads;
    let mut script = String::new(alloc);
    for line in BufReader::new(alloc, rt.reader())?.lines(alloc) {
        let line = line?;
        if let Some(next) = place_in(line.as_str()) {
            place = next;
        } else if let Some(server) = line.strip_prefix("server ") {
            script = String::from_str(alloc, server)?;
        } else {
            let told = told(rt, place, script.as_str(), line.as_str())?;
            writeln!(out, "{told}")?;
        }
    }
    out.flush()
}
