//! The word `judge` of a program: two files of raw octets, the verdict on them, and what is wrong with them.

use crate::judging::Judging;
use crate::side::Unjudged;
use crate::telling::{Whose, told, told_too_long, verdict_line};
use amqp_check::Verdict;
use amqp_types::{NoMemory, Text};
use std::alloc::{AllocGlobal, Global};
use std::fs;
use std::io::{Eprint, ErrorKind, Print, Read};
use std::rt::Files;

/// What is printed where the words are not known, or help is asked for.
pub const HELP_TEXT: &str = "usage: amqp judge CLIENT SERVER

Says whether what a client said on a link is a legal conversation, or the
first frame by which it is none. CLIENT and SERVER are files of the octets that
each side said, as tcpflow writes them; they may be of any size.

  --help     prints this

Status: 0 it is legal, 1 a file has a frame too long to be judged, 2 usage,
3 a file cannot be read, 4 standard output failed, 5 it is not legal, 7 memory
was refused.
docs/SCRIPTS.md says more";

/// The exit statuses of the word.
const LEGAL: u8 = 0;

const TOO_LONG: u8 = 1;

const USAGE: u8 = 2;

const SOURCE_FAILED: u8 = 3;

const SINK_FAILED: u8 = 4;

const FAILED: u8 = 5;

const NO_MEMORY: u8 = 7;

/// How many octets are read at once.
const BLOCK: usize = 65_536;

/// Why there is no verdict.
#[derive(Clone, Copy)]
enum Stop {
    /// The file of a side cannot be opened or read.
    Unread(Whose),
    NoMemory,
}

/// What both files are.
#[derive(Clone, Copy)]
enum Judged {
    /// They have this verdict.
    Known(Verdict),
    /// One has a frame that is too long.
    TooLong,
}

impl From<NoMemory> for Stop {
    fn from(_refused: NoMemory) -> Stop {
        Stop::NoMemory
    }
}

// Reads a piece, and again where a signal interrupts it.
fn read_piece<F: Read>(file: &mut F, whose: Whose, block: &mut [u8]) -> Result<usize, Stop> {
    for _ in 0..u64::MAX {
        match file.read(block) {
            Ok(n) => return Ok(n.min(block.len())),
            Err(e) if e.kind() == ErrorKind::Interrupted => {}
            Err(_) => return Err(Stop::Unread(whose)),
        }
    }
    Err(Stop::Unread(whose))
}

// Takes a piece of a side. Whether it was not too long.
fn take(judging: &mut Judging, alloc: Global, whose: Whose, piece: &[u8]) -> Result<bool, Stop> {
    let taken = match whose {
        Whose::Client => judging.client(alloc, piece),
        Whose::Server => judging.server(alloc, piece),
    };
    match taken {
        Ok(()) => Ok(true),
        Err(Unjudged::TooLong) => Ok(false),
        Err(Unjudged::NoMemory) => Err(Stop::NoMemory),
    }
}

// Takes all of a file, or up to what is too long. Whether that was all.
fn take_all<F: Read>(
    judging: &mut Judging,
    alloc: Global,
    whose: Whose,
    file: &mut F,
    block: &mut [u8],
) -> Result<bool, Stop> {
    for _ in 0..u64::MAX {
        let n = read_piece(file, whose, block)?;
        if n == 0 {
            return Ok(true);
        }
        if !take(judging, alloc, whose, block.get(..n).unwrap_or(&[]))? {
            return Ok(false);
        }
    }
    Ok(true)
}

// Takes both files. The side that is too long, first the client's.
fn take_both<R: Files>(
    rt: &R,
    alloc: Global,
    client: &str,
    server: &str,
    judging: &mut Judging,
) -> Result<Option<Whose>, Stop> {
    let mut block = match vec![in alloc; 0; BLOCK] {
        Ok(block) => block,
        Err(_) => return Err(Stop::NoMemory),
    };
    let Ok(mut file) = fs::open(rt, client) else {
        return Err(Stop::Unread(Whose::Client));
    };
    let taken = take_all(judging, alloc, Whose::Client, &mut file, &mut block);
    drop(file);
    let is_client_whole = taken?;
    let Ok(mut file) = fs::open(rt, server) else {
        return Err(Stop::Unread(Whose::Server));
    };
    let taken = take_all(judging, alloc, Whose::Server, &mut file, &mut block);
    drop(file);
    let is_server_whole = taken?;
    Ok(match (is_client_whole, is_server_whole) {
        (false, _) => Some(Whose::Client),
        (true, false) => Some(Whose::Server),
        (true, true) => None,
    })
}

// The verdict on both files, and what is said of it.
fn judge_files<R: Files>(
    rt: &R,
    alloc: Global,
    client: &str,
    server: &str,
) -> Result<(Judged, String), Stop> {
    let mut judging = Judging::new(alloc)?;
    match take_both(rt, alloc, client, server, &mut judging) {
        Ok(Some(whose)) => Ok((Judged::TooLong, told_too_long(alloc, judging, whose)?)),
        Ok(None) => {
            let verdict = judging.verdict();
            Ok((Judged::Known(verdict), told(alloc, judging)?))
        }
        Err(stop) => {
            drop(judging);
            Err(stop)
        }
    }
}

// Prints what is said of both files, and the verdict where there is one, and gives the status.
fn print<R: Print + Eprint>(rt: &R, alloc: Global, judged: Judged, said: &str) -> u8 {
    match judged {
        Judged::Known(verdict) => print_verdict(rt, alloc, verdict, said),
        Judged::TooLong => {
            // The status tells it where standard error does not take it.
            let _ = rt.eprintln(said);
            TOO_LONG
        }
    }
}

// Prints a verdict and what is said of it, and gives the status.
fn print_verdict<R: Print + Eprint>(rt: &R, alloc: Global, verdict: Verdict, said: &str) -> u8 {
    let Ok(line) = verdict_line(alloc, verdict) else {
        return NO_MEMORY;
    };
    if rt.println(&line).is_err() {
        return SINK_FAILED;
    }
    if !said.is_empty() {
        // The status tells it where standard error does not take it.
        let _ = rt.eprintln(said);
    }
    match verdict {
        Verdict::Legal(..) => LEGAL,
        _ => FAILED,
    }
}

// Says why there is no verdict, and gives the status.
fn explain<R: Eprint>(rt: &R, stop: Stop) -> u8 {
    let (line, status) = match stop {
        Stop::Unread(Whose::Client) => ("the file of the client cannot be read", SOURCE_FAILED),
        Stop::Unread(Whose::Server) => ("the file of the server cannot be read", SOURCE_FAILED),
        Stop::NoMemory => ("memory was refused", NO_MEMORY),
    };
    // The status tells it where standard error does not take it.
    let _ = rt.eprintln(line);
    status
}

/// The words behind `judge`, where that is the first.
pub fn asked(words: &[Text]) -> Option<&[Text]> {
    match words {
        [first, rest @ ..] if first.as_str() == "judge" => Some(rest),
        _ => None,
    }
}

// Whether help is asked for.
fn wants_help(word: &Text) -> bool {
    word.as_str() == "--help" || word.as_str() == "-h"
}

// Prints the help, and gives the status.
fn help<R: Print>(rt: &R) -> u8 {
    match rt.println(HELP_TEXT) {
        Ok(()) => LEGAL,
        Err(_) => SINK_FAILED,
    }
}

/// Judges the files that two words name, prints the verdict, and says on standard error what is wrong. Gives the exit
/// status.
pub fn run<R: Files + Print + Eprint>(rt: &R, alloc: Global, words: &[Text]) -> u8 {
    match words {
        [word] if wants_help(word) => help(rt),
        [client, server] => match judge_files(rt, alloc, client.as_str(), server.as_str()) {
            Ok((judged, said)) => print(rt, alloc, judged, &said),
            Err(stop) => explain(rt, stop),
        },
        _ => {
            // The status tells it where standard error does not take it.
            let _ = rt.eprintln(HELP_TEXT);
            USAGE
        }
    }
}
