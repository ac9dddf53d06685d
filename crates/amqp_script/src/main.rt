//! Replays a script of a connection over a port in memory, and prints a report; or generates a script,
//! and prints it with a summary; or joins a client and a server double, and prints how much was sent; or
//! checks a capture of a link, and prints the verdict; or opens and closes a connection over a socket, line by
//! line. A script may say `provider handed`: the client then logs in by tokens.
#![tactic(auto)]

use amqp_doubled::top_doubled;
use amqp_engine::MemoryPort;
use amqp_live::top_live;
use amqp_program::{Asked, asked_by, explain};
use amqp_replay::status::{CLOSED, FAILED, NO_MEMORY, REFUSED, SINK_FAILED, SOURCE_FAILED, USAGE};
use amqp_replay::{Reading, Writing, ended_at};
use amqp_session::{DefaultTokenProvider, Refusal, TokenAuthProvider};
use amqp_types::{LongString, NoMemory, Text};
use lapin_connection::MioSpawner;
use std::alloc::Global;
use std::env;
use std::io::{self, ErrorKind};
use std::process::ExitCode;

const USAGE_TEXT: &str = "usage: amqp_script replay | generate N | double N | check | live URI";

/// Which page says what a script may have, and what is printed.
const PAGE_TEXT: &str = "docs/SCRIPTS.md says what a script may have, and what is printed";

/// Which page says why a line was refused.
const REFUSED_TEXT: &str = "docs/SCRIPTS.md says under \"Your line was refused\" what to look for";

/// The token by which the client logs in, where a script says `provider handed`.
const TOKEN: &[u8] = b"my new valid token";

/// For how many milliseconds a token is valid.
const VALID_FOR: u64 = 60_000;

// The words after the program's name. One that is no text makes none of them known.
fn words_given(rt: &HostRuntime) -> Result<Vec<Text>, NoMemory> {
    let alloc = rt.alloc();
    let mut words = Vec::new(alloc);
    match env::args(rt) {
        Ok(args) => {
            for word in args.skip(1) {
                words.push(Text::new(alloc, word.as_str())?)?;
            }
            Ok(words)
        }
        Err(e) if e.kind() == ErrorKind::OutOfMemory => Err(NoMemory),
        Err(_) => Ok(words),
    }
}

fn new_token(alloc: Global) -> Result<LongString, Refusal> {
    match LongString::new(alloc, TOKEN) {
        Ok(token) => Ok(token),
        Err(_) => Err(Refusal::NoMemory),
    }
}

// What standard error says of an end with an error.
#[derive(Drop)]
enum Said {
    Nothing,
    /// The line of a script at which its session ended.
    Line(u64),
    /// What is to be said of a capture.
    Capture(String),
}

// What is said of the text that was read, after so many steps of it, where a status was answered to what
// was asked.
fn explained(
    alloc: Global,
    asked: Option<Asked>,
    status: u8,
    text: &[u8],
    told: u64,
) -> Result<Said, NoMemory> {
    match asked {
        Some(Asked::Replay) => Ok(match ended_at(status, text, told) {
            Some(line) => Said::Line(line),
            None => Said::Nothing,
        }),
        Some(Asked::Check) if matches!(status, CLOSED | FAILED | REFUSED) => Ok(
            match explain(alloc, text)? {
                Some(lines) => Said::Capture(lines),
                None => Said::Nothing,
            },
        ),
        _ => Ok(Said::Nothing),
    }
}

// Whether a connection over a socket is asked for.
fn is_live(words: &[Text]) -> bool {
    match words.first() {
        Some(word) => word.as_str() == "live",
        None => false,
    }
}

// The status, and what is said of it, where the text that was read was kept.
fn answer(rt: &HostRuntime, words: &[Text]) -> Result<(u8, Said), NoMemory> {
    let alloc = rt.alloc();
    let mut port = MemoryPort::new(alloc, Vec::new(alloc))?;
    let mut source = Reading::new(alloc, rt.stdin());
    let mut sink = Writing::new(rt.stdout());
    let tokens = DefaultTokenProvider::new(
        alloc,
        |_token: &LongString| Some(VALID_FOR),
        move || new_token(alloc),
    );
    let handed = Some(TokenAuthProvider::new(alloc, tokens));
    let status = top_doubled(alloc, words, &mut source, &mut sink, &mut port, handed);
    let text = source.text().unwrap_or(&[]);
    // The status tells it where no memory is left for more.
    let said = explained(alloc, asked_by(words), status, text, port.told()).unwrap_or(
        Said::Nothing,
    );
    Ok((status, said))
}

// Says why nothing more is printed, where an error came, or which page to read.
fn note(rt: &HostRuntime, status: u8, said: Said) -> io::Result<()> {
    match (status, said) {
        (USAGE, _) => {
            rt.eprintln(USAGE_TEXT)?;
            rt.eprintln(PAGE_TEXT)
        }
        (REFUSED, Said::Capture(lines)) => {
            rt.eprintln(&lines)?;
            rt.eprintln(REFUSED_TEXT)
        }
        (REFUSED, _) => rt.eprintln(REFUSED_TEXT),
        (SOURCE_FAILED, _) => rt.eprintln("standard input failed"),
        (SINK_FAILED, _) => rt.eprintln("standard output failed"),
        (NO_MEMORY, _) => rt.eprintln("memory was refused"),
        (_, Said::Line(line)) => { eprintln!(rt; "the session ended with an error at line {line}") }
        (_, Said::Capture(lines)) => rt.eprintln(&lines),
        (_, Said::Nothing) => Ok(()),
    }
}

fn main(rt: HostRuntime) -> ExitCode {
    let alloc = rt.alloc();
    let answered = match words_given(&rt) {
        Ok(words) if is_live(&words) => {
            let mut sink = Writing::new(rt.stdout());
            let mut runtime = MioSpawner::new(rt, alloc);
            let status = top_live(rt, alloc, &words, &mut sink, &mut runtime);
            Ok((status, Said::Nothing))
        }
        Ok(words) => answer(&rt, &words),
        Err(refused) => Err(refused),
    };
    let (status, said) = answered.unwrap_or((NO_MEMORY, Said::Nothing));
    // The status tells it where standard error does not take it.
    let _ = note(&rt, status, said);
    ExitCode::from(status)
}
