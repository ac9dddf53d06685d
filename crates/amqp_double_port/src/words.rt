//! The word `double` of a program: it listens at a port, serves whoever comes, and prints a line for each.

use crate::listening::{Asked, asked_of};
use crate::telling::{line_of, told};
use amqp_double_socket::{Ended, Served, serve_link};
use amqp_settings::Configuration;
use amqp_types::{NoMemory, Text};
use std::alloc::{AllocError, Global};
use std::io::{Eprint, ErrorKind, Print};
use std::net::{Net, OpenListener, SocketAddr};

/// What is printed where the words are not known, or help is asked for.
pub const HELP_TEXT: &str = "usage: amqp double PORT [COUNT]

Is a server of AMQP 0-9-1 at a port of 127.0.0.1, for clients that are tried: it
answers the opening and the closing of a connection and of channels, flow, and
a new secret, and refuses the first frame that a client may not say. Port 0 is
one that the system chooses. It ends after COUNT clients, which are served one
after another; without COUNT it does not end by itself.

  --help     prints this

Status: 0 each client closed its connection, 1 some did not, 2 usage,
4 standard output failed, 5 it cannot listen there, 7 memory was refused.
docs/SCRIPTS.md says more";

/// The exit statuses of the word.
const CLOSED: u8 = 0;

const NOT_CLOSED: u8 = 1;

const USAGE: u8 = 2;

const SINK_FAILED: u8 = 4;

const FAILED: u8 = 5;

const NO_MEMORY: u8 = 7;

/// The numbers of a double's tune: it wants no heartbeats, and sends none.
const NUMBERS: Configuration = Configuration {
    channel_max: 2047,
    frame_max: 131_072,
    heartbeat: 0,
};

/// Why serving stopped.
#[derive(Clone, Copy)]
enum Stop {
    /// The port cannot be listened at, or no client accepted any more.
    Unheard,
    /// Standard output failed.
    SinkFailed,
    NoMemory,
}

impl From<NoMemory> for Stop {
    fn from(_refused: NoMemory) -> Stop {
        Stop::NoMemory
    }
}

impl From<AllocError> for Stop {
    fn from(_refused: AllocError) -> Stop {
        Stop::NoMemory
    }
}

/// The words behind `double`, where that is the first.
pub fn asked(words: &[Text]) -> Option<&[Text]> {
    match words {
        [first, rest @ ..] if first.as_str() == "double" => Some(rest),
        _ => None,
    }
}

// Whether help is asked for.
fn wants_help(word: &Text) -> bool {
    word.as_str() == "--help" || word.as_str() == "-h"
}

// Prints the help, and gives the status.
fn help<R: Print>(rt: &R) -> u8 {
    match rt.println(HELP_TEXT) {
        Ok(()) => CLOSED,
        Err(_) => SINK_FAILED,
    }
}

// Prints a line. It takes the line.
fn print<R: Print>(rt: &R, line: String) -> Result<(), Stop> {
    let printed = rt.println(&line).is_ok();
    drop(line);
    if printed {
        Ok(())
    } else {
        Err(Stop::SinkFailed)
    }
}

// Says how the service of a client ended, and why it was refused, where it was.
fn tell<R: Print + Eprint>(
    rt: &R,
    alloc: Global,
    number: u64,
    ended: Ended,
    client: &[u8],
) -> Result<(), Stop> {
    print(rt, line_of(alloc, number, ended, client)?)?;
    let why = told(alloc, ended, client)?;
    if !why.is_empty() {
        // The status tells it where standard error does not take it.
        let _ = rt.eprintln(&why);
    }
    drop(why);
    match ended {
        Ended::NoMemory => Err(Stop::NoMemory),
        _ => Ok(()),
    }
}

// The next link, and again where one went before it was taken.
fn next_link<L: OpenListener>(listener: &L) -> Result<L::Stream, Stop> {
    for _ in 0..u64::MAX {
        match listener.accept() {
            Ok((link, _address)) => return Ok(link),
            Err(why) if is_passing(why.kind()) => {}
            Err(_) => return Err(Stop::Unheard),
        }
    }
    Err(Stop::Unheard)
}

// Whether accepting goes on behind a failure.
fn is_passing(why: ErrorKind) -> bool {
    matches!(why, ErrorKind::Interrupted | ErrorKind::ConnectionAborted)
}

// Serves the next client. Whether it closed its connection.
fn serve_next<R: Net + Print + Eprint>(
    rt: &R,
    alloc: Global,
    listener: &R::Listener,
    number: u64,
) -> Result<bool, Stop> {
    let link = next_link(listener)?;
    let Served { ended, double } = serve_link(alloc, NUMBERS, link)?;
    let told = tell(rt, alloc, number, ended, double.client());
    drop(double);
    told?;
    Ok(ended == Ended::Closed)
}

// Says where is listened, and serves so many clients. Whether each closed its connection.
fn serve_at<R: Net + Print + Eprint>(
    rt: &R,
    alloc: Global,
    listener: &R::Listener,
    clients: u64,
) -> Result<bool, Stop> {
    let Ok(address) = listener.local_addr() else {
        return Err(Stop::Unheard);
    };
    print(rt, format!(in alloc; "listening at {address}")?)?;
    let mut each_closed = true;
    for before in 0..clients {
        each_closed &= serve_next(rt, alloc, listener, before + 1)?;
    }
    Ok(each_closed)
}

// Listens at a port, and serves.
fn served<R: Net + Print + Eprint>(rt: &R, alloc: Global, asked: Asked) -> Result<bool, Stop> {
    let Ok(listener) = rt.bind(SocketAddr::from(([127, 0, 0, 1], asked.port))) else {
        return Err(Stop::Unheard);
    };
    let each_closed = serve_at(rt, alloc, &listener, asked.clients.unwrap_or(u64::MAX));
    drop(listener);
    each_closed
}

// Says why serving stopped, and gives the status.
fn explain<R: Eprint>(rt: &R, stop: Stop) -> u8 {
    let (line, status) = match stop {
        Stop::Unheard => ("the port cannot be listened at", FAILED),
        Stop::SinkFailed => ("standard output failed", SINK_FAILED),
        Stop::NoMemory => ("memory was refused", NO_MEMORY),
    };
    // The status tells it where standard error does not take it.
    let _ = rt.eprintln(line);
    status
}

/// Serves clients at the port that the words name, prints a line for each, and says on standard error why one was
/// refused. Gives the exit status.
pub fn run<R: Net + Print + Eprint>(rt: &R, alloc: Global, words: &[Text]) -> u8 {
    if let [word] = words
        && wants_help(word)
    {
        return help(rt);
    }
    let Some(asked) = asked_of(words) else {
        // The status tells it where standard error does not take it.
        let _ = rt.eprintln(HELP_TEXT);
        return USAGE;
    };
    match served(rt, alloc, asked) {
        Ok(true) => CLOSED,
        Ok(false) => NOT_CLOSED,
        Err(stop) => explain(rt, stop),
    }
}
