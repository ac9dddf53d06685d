//! Does one kind of work so many times, for whoever times it: body frames in memory, sends and publishes over a
//! session, a hub or an engine, and what a server or a caller may do again and again, as `amqp_bench_work` has it;
//! and, over a connection whose loop runs on a thread, publishes whose answers nobody waits for, turns while so many
//! commands are under way, and publishes over a socket to a server on this machine.
//!
//! The words of the command line say what; where there are none, each line of standard input does. It says what it
//! did, and no time: `bench/run` times it.
#![tactic(auto)]

mod alive;
mod job;
mod live;
mod loopback;
mod port;
mod unwaited;

use amqp_bench_work::{growth, publishes, sends, settled, through, wire};
use job::{Job, address_in, job_in};
use lapin_connection::{MioSpawner, Spawner};
use loopback::Batches;
use std::alloc::Global;
use std::io::{BufRead, BufReader, ErrorKind};
use std::net::Net;
use std::process::ExitCode;
use std::sync::Wait;
use std::thread::Threads;
use std::time::Clock;
use std::{env, io};

const USAGE: &str =
    "usage: amqp_bench write SIZE COUNT | read SIZE COUNT | sends COUNT | settles COUNT \
    | publishes CHANNELS SIZE COUNT | closes CHANNELS SIZE COUNT | server-closes CHANNELS SIZE COUNT \
    | messages-out SIZE COUNT EACH | messages-in SIZE COUNT | growth CASE COUNT \
    | publishes COUNT | turns COMMANDS COUNT | loopback SIZE COUNT SETTLES_AFTER ADDRESS \
    | window SIZE COUNT UNDER_WAY ADDRESS";

// What is needed of the runtime.
trait Runs: Threads + Wait + Clock + Net + Copy + Send + Drop + 'static {}

impl<R> Runs for R
where
    R: Threads + Wait + Clock + Net + Copy + Send + Drop + 'static,
{}

// The words after the program's name, with blanks between.
fn words_given(rt: &HostRuntime) -> io::Result<String> {
    let mut line = String::new(rt.alloc());
    for word in env::args(rt)?.skip(1) {
        if !line.is_empty() {
            line.push_str(" ")?;
        }
        line.push_str(word.as_str())?;
    }
    Ok(line)
}

// The lines of standard input.
fn lines_read(rt: &HostRuntime) -> io::Result<Vec<String>> {
    let mut lines = Vec::new(rt.alloc());
    for line in BufReader::new(rt.alloc(), rt.reader())?.lines(rt.alloc()) {
        lines.push(line?)?;
    }
    Ok(lines)
}

// The line that the words are, or, where there are none, those of standard input.
fn lines_given(rt: &HostRuntime) -> io::Result<Vec<String>> {
    let line = words_given(rt)?;
    if line.is_empty() {
        return lines_read(rt);
    }
    let mut lines = Vec::new(rt.alloc());
    lines.push(line)?;
    Ok(lines)
}

// Publishes over a socket.
fn loops_back<S: Spawner + Drop, R: Runs>(
    rt: R,
    alloc: Global,
    batches: Batches,
    address: &str,
    runtime: S,
) -> Option<u64> {
    let Ok(address) = String::from_str(alloc, address) else {
        return None;
    };
    loopback::loopback(rt, alloc, batches, address, runtime)
}

// What was done, in octets or in answers; nothing where memory was refused.
fn done_of<S: Spawner + Drop, R: Runs>(
    rt: R,
    alloc: Global,
    runtime: S,
    job: Job,
    line: &str,
) -> Option<u64> {
    match job {
        Job::Write { size, count } => wire::write(alloc, size, count),
        Job::Read { size, count } => wire::read(alloc, size, count),
        Job::Sends { count } => sends::sends(alloc, count),
        Job::Settles { count } => settled::settles(alloc, count),
        Job::Publishes(load, ending) => publishes::publishes(alloc, load, ending),
        Job::Pass(messages) => through::pass(alloc, messages),
        Job::Grow(case, count) => growth::grow(alloc, case, count),
        Job::Unwaited { count } => unwaited::publishes(rt, alloc, count),
        Job::Turns { commands, count } => alive::turns(rt, alloc, commands, count),
        Job::Loopback(batches) => loops_back(rt, alloc, batches, address_in(line), runtime),
    }
}

// Says what was done.
fn say(rt: &HostRuntime, job: Job, done: u64) -> io::Result<()> {
    match job {
        Job::Write { size, count } => {
            println!(rt; "wrote {count} frames of {size} octets: {done} octets in all")
        }
        Job::Read { size, count } => {
            println!(rt; "read {count} frames of {size} octets: {done} octets in all")
        }
        Job::Sends { count } | Job::Settles { count } => {
            println!(rt; "sent {count} methods: {done} answers taken")
        }
        Job::Publishes(load, _) => {
            let count = load.count;
            println!(rt; "published {count} bodies: {done} of them sent")
        }
        Job::Pass(messages) => {
            let count = messages.count;
            println!(rt; "{count} messages: {done} of them passed")
        }
        Job::Grow(_, count) => {
            println!(rt; "{count} rounds: {done} octets written on all links")
        }
        Job::Unwaited { count } => {
            println!(rt; "published {count} bodies: {done} octets in all")
        }
        Job::Turns { count, .. } => {
            println!(rt; "took {count} turns with {done} commands under way")
        }
        Job::Loopback(_) => println!(rt; "wrote {done} messages"),
    }
}

// Does what a line asks for. Whether it asks for something.
fn run<S: Spawner + Drop, R: Runs>(
    rt: R,
    out: &HostRuntime,
    runtime: S,
    line: &str,
) -> io::Result<bool> {
    let Some(job) = job_in(line) else {
        out.eprintln(USAGE)?;
        return Ok(false);
    };
    match done_of(rt, out.alloc(), runtime, job, line) {
        Some(done) => {
            say(out, job, done)?;
            Ok(true)
        }
        None => Err(ErrorKind::Other.into()),
    }
}

fn main(rt: HostRuntime) -> ExitCode {
    let Ok(lines) = lines_given(&rt) else {
        return ExitCode::FAILURE;
    };
    for line in &lines {
        let runtime = MioSpawner::new(rt, rt.alloc());
        match run(rt, &rt, runtime, line.as_str()) {
            Ok(true) => {}
            Ok(false) => return ExitCode::from(2),
            Err(_) => return ExitCode::FAILURE,
        }
    }
    ExitCode::SUCCESS
}
