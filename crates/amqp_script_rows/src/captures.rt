//! What the program answers to a capture, and what is said of it.

use crate::rows::Row;
use amqp_engine::MemoryPort;
use amqp_program::explain;
use amqp_program::top::top;
use amqp_replay::{MemorySink, MemorySource};
use amqp_session::{DefaultTokenProvider, Refusal, TokenAuthProvider};
use amqp_types::{LongString, NoMemory, Text};
use std::alloc::Global;

// No token is asked for where a capture is checked.
fn no_token() -> Result<LongString, Refusal> {
    Err(Refusal::NoMemory)
}

// The status of a capture. The sink takes its verdict.
fn check(alloc: Global, text: &[u8], sink: &mut MemorySink) -> Result<u8, NoMemory> {
    let words = vec![in alloc; Text::new(alloc, "check")?]?;
    let mut port = MemoryPort::new(alloc, Vec::new(alloc))?;
    let mut source = MemorySource::new(text, &[]);
    let tokens = DefaultTokenProvider::new(alloc, |_token: &LongString| None, no_token);
    let handed = Some(TokenAuthProvider::new(alloc, tokens));
    Ok(top(alloc, &words, &mut source, sink, &mut port, handed))
}

/// The line of a capture, its verdict, and what is said of it.
pub fn printed(alloc: Global, row: &Row) -> Result<Vec<u8>, NoMemory> {
    let name = row.name();
    let mut sink = MemorySink::new(alloc, usize::MAX, &[]);
    let status = check(alloc, row.script(), &mut sink)?;
    let head = format!(in alloc; "== {name} status {status}\n")?;
    let mut text = Vec::from_slice(alloc, head.as_bytes())?;
    text.extend_from_slice(sink.held())?;
    if let Some(said) = explain(alloc, row.script())? {
        for line in said.lines() {
            text.extend_from_slice(b"> ")?;
            text.extend_from_slice(line.as_bytes())?;
            text.push(b'\n')?;
        }
    }
    Ok(text)
}
