//! Drives a connection over a socket, line by line.
//!
//! It does what each line of standard input says, and prints what came of it, behind the moment and how long that took,
//! both in milliseconds. Messages are numbered from 1 on; a body begins with its number
//! in ten digits. An order that waits takes a number of milliseconds behind its word, a minute where it has none, and
//! says `nothing yet` where these are over.
//!
//! | line | does |
//! |---|---|
//! | `open URI [OPTION..]` | connects: `recover`, `delays=MS,MS`, `outbox=OCTETS`, `drop_limit=MS`, `settles=OCTETS` |
//! | `opened`, `channel` | waits until the connection is open; opens a channel, which is that of all that follows |
//! | `publish COUNT OCTETS [QUEUE]` | publishes, and lets the answers go |
//! | `keep COUNT OCTETS [QUEUE]`, `answers` | publishes; waits for the answers, and says which were sent |
//! | `confirm`, `confirmed` | confirm mode; waits, and says which the broker confirmed |
//! | `consume QUEUE`, `received COUNT` | consumes; waits for messages, acknowledges them and says which came |
//! | `sent`, `all_sent` | waits until nothing waits to go out of the channel, or of the connection |
//! | `close_channel`, `close` | closes, and waits for that |
//! | `close_channel_when_sent`, `close_when_sent` | the same, once nothing waits to go out |
//! | `drop_channel`, `drop_connection`, `forget` | drops the one or the other, or all that is held |
//! | `abandon` | gives the connection up |
//! | `end` | waits for the end of the connection |
//! | `listen`, `events`, `status`, `sleep MS` | events, how the connection stands, a pause |
//!
//! The words of the command line are `--without-times`, and `--silence MS`, for how long a server may be silent. The
//! status is 2 where a line or a word is not known, and 1 where memory was refused or nothing could be printed.
#![tactic(auto)]

mod driver;
mod fates;
mod limit;
mod line;
mod options;
mod order;
mod stop;
mod talk;

use crate::driver::Driver;
use crate::limit::Span;
use crate::order::order_in;
use crate::stop::{Stop, said_of};
use lapin_connection::{MioSpawner, Spawner};
use std::io::{BufRead, BufReader, ErrorKind};
use std::process::ExitCode;
use std::sync::Wait;
use std::thread::Threads;
use std::time::Clock;
use std::{env, io};

/// What the words of the command line say.
#[derive(Clone, Copy)]
struct Words {
    has_times: bool,
    silence: Option<u64>,
}

// What the words say, where all are known.
fn words_given(rt: &HostRuntime) -> io::Result<Option<Words>> {
    let mut words = Words {
        has_times: true,
        silence: None,
    };
    let mut is_silence = false;
    for word in env::args(rt)?.skip(1) {
        match word.as_str() {
            number if is_silence => match number.parse::<u64>() {
                Ok(silence) => {
                    words.silence = Some(silence);
                    is_silence = false;
                }
                Err(_) => return Ok(None),
            },
            "--silence" => is_silence = true,
            "--without-times" => words.has_times = false,
            _ => return Ok(None),
        }
    }
    Ok(if is_silence { None } else { Some(words) })
}

// Does what a line asks for, and says it. Whether the line is known.
fn drive<S: Spawner + Drop, R: Threads + Wait + Clock + Copy + Send + 'static>(
    rt: R,
    out: &HostRuntime,
    driver: &mut Driver<S>,
    line: &str,
    at: Option<u128>,
) -> io::Result<bool> {
    let span = Span::begin(&rt);
    let performed = match order_in(line) {
        Some(order) => driver.perform(rt, order),
        None => Err(Stop::Unknown),
    };
    let is_known = !matches!(&performed, Err(Stop::Unknown));
    let said = match performed {
        Ok(said) => said,
        Err(stop) => said_of(out.alloc(), stop)?,
    };
    let took = span.milliseconds(&rt);
    match at {
        Some(at) => println!(out; "{at} {took} {line}: {said}")?,
        None => println!(out; "{line}: {said}")?,
    }
    Ok(is_known)
}

// Does what each line asks for. Whether all are known.
fn drive_all<S: Spawner + Drop, R: Threads + Wait + Clock + Copy + Send + 'static>(
    rt: R,
    out: &HostRuntime,
    driver: &mut Driver<S>,
    words: Words,
) -> io::Result<bool> {
    let span = Span::begin(&rt);
    let mut are_known = true;
    for line in BufReader::new(out.alloc(), out.reader())?.lines(out.alloc()) {
        let line = line?;
        let asked = line.trim();
        if !asked.is_empty() && !asked.starts_with('#') {
            let at = if words.has_times {
                Some(span.milliseconds(&rt))
            } else {
                None
            };
            are_known &= drive(rt, out, driver, asked, at)?;
        }
    }
    Ok(are_known)
}

fn main(rt: HostRuntime) -> ExitCode {
    let alloc = rt.alloc();
    let words = match words_given(&rt) {
        Ok(Some(words)) => words,
        Ok(None) => return ExitCode::from(2),
        Err(error) if error.kind() == ErrorKind::OutOfMemory => return ExitCode::FAILURE,
        Err(_) => return ExitCode::from(2),
    };
    let runtime = match words.silence {
        Some(silence) => MioSpawner::new(rt, alloc).with_silence(silence),
        None => MioSpawner::new(rt, alloc),
    };
    let mut driver = Driver::new(alloc, runtime);
    match drive_all(rt, &rt, &mut driver, words) {
        Ok(true) => ExitCode::SUCCESS,
        Ok(false) => ExitCode::from(2),
        Err(_) => ExitCode::FAILURE,
    }
}
