//! What the program answers to a script.

use crate::rows::Row;
use amqp_engine::MemoryPort;
use amqp_program::top::top;
use amqp_replay::{MemorySink, MemorySource};
use amqp_session::{DefaultTokenProvider, Refusal, TokenAuthProvider};
use amqp_types::{LongString, NoMemory, Text};
use std::alloc::Global;

/// The token by which the client logs in, where a script says `provider handed`.
const TOKEN: &[u8] = b"my new valid token";

/// For how many milliseconds a token is valid.
const VALID_FOR: u64 = 60_000;

/// The line of a script, and its report.
pub fn printed(alloc: Global, row: &Row) -> Result<Vec<u8>, NoMemory> {
    let name = row.name();
    let mut sink = MemorySink::new(alloc, usize::MAX, &[]);
    let status = replay(alloc, row.script(), &mut sink)?;
    let head = format!(in alloc; "== {name} status {status}\n")?;
    let mut text = Vec::from_slice(alloc, head.as_bytes())?;
    text.extend_from_slice(sink.held())?;
    Ok(text)
}

fn new_token(alloc: Global) -> Result<LongString, Refusal> {
    match LongString::new(alloc, TOKEN) {
        Ok(token) => Ok(token),
        Err(_) => Err(Refusal::NoMemory),
    }
}

// The status of a script. The sink takes its report.
fn replay(alloc: Global, script: &[u8], sink: &mut MemorySink) -> Result<u8, NoMemory> {
    let words = vec![in alloc; Text::new(alloc, "replay")?]?;
    let mut port = MemoryPort::new(alloc, Vec::new(alloc))?;
    let mut source = MemorySource::new(script, &[]);
    let tokens = DefaultTokenProvider::new(
        alloc,
        |_token: &LongString| Some(VALID_FOR),
        move || new_token(alloc),
    );
    let handed = Some(TokenAuthProvider::new(alloc, tokens));
    Ok(top(alloc, &words, &mut source, sink, &mut port, handed))
}
