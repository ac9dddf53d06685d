//! Scripts through the program, and what they print.

ghost use Rattle.std.specs.Prelude.{IfSome};

use amqp_engine::MemoryPort;
use amqp_program::top::top;
use amqp_replay::{MemorySink, MemorySource};
use amqp_session::{AuthProvider, DefaultAuthProvider};
use amqp_types::Text;
use amqp_vectors::{CLOSE, CLOSE_OK, HEADER, OPEN, OPEN_OK, START, START_OK, TUNE, TUNE_OK};
use std::alloc::Global;
use std::test::Fail;

/// The ends that a script meets.
#[derive(Drop)]
pub struct Ends<'a> {
    /// The numbers of the calls of the source, and of the sink, that fail.
    pub source_fails: &'a [u64],
    pub sink_fails: &'a [u64],
    /// The most bytes that the sink takes at once.
    pub most: usize,
}

/// Nothing fails.
pub const WELL: Ends<'static> = Ends {
    source_fails: &[],
    sink_fails: &[],
    most: usize::MAX,
};

/// Appends hexadecimal without what is for reading only.
pub fn push_digits(text: &mut Vec<u8>, frame: &str) -> Result<(), Fail> {
    for byte in frame.as_bytes() {
        if *byte != b' ' && *byte != b'\n' {
            text.push(*byte)?;
        }
    }
    Ok(())
}

/// Appends a line of the bytes of a frame.
pub fn push_bytes(text: &mut Vec<u8>, frame: &str) -> Result<(), Fail> {
    text.extend_from_slice(b"bytes ")?;
    push_digits(text, frame)?;
    text.push(b'\n')?;
    Ok(())
}

/// The script of the handshake and our close.
pub fn handshake(alloc: Global) -> Result<Vec<u8>, Fail> {
    let mut text = Vec::from_slice(alloc, b"link\n")?;
    for frame in [START, TUNE, OPEN_OK] {
        push_bytes(&mut text, frame)?;
    }
    text.extend_from_slice(b"shut 200 OK\n")?;
    push_bytes(&mut text, CLOSE_OK)?;
    Ok(text)
}

/// The report of that script.
pub fn handshake_report(alloc: Global) -> Result<Vec<u8>, Fail> {
    let mut text = Vec::from_slice(alloc, b"link 1 ")?;
    for frame in [HEADER, START_OK, TUNE_OK, OPEN, CLOSE] {
        push_digits(&mut text, frame)?;
    }
    text.extend_from_slice(b"\nanswer 0 ok connected\nanswer 1 ok done\nend closed\n")?;
    Ok(text)
}

// The words of a command line.
fn texts(alloc: Global, words: &[&str]) -> Result<Vec<Text>, Fail> {
    let mut texts = Vec::new(alloc);
    for word in words {
        texts.push(Text::new(alloc, word)?)?;
    }
    Ok(texts)
}

/// Whether these words and this script are answered by this status, and print this, where no provider
/// is handed.
pub fn answers(
    alloc: Global,
    words: &[&str],
    script: &[u8],
    ends: &Ends<'_>,
    status: u8,
    printed: &[u8],
) -> Result<bool, Fail> {
    let nobody: Option<DefaultAuthProvider> = None;
    answers_by(alloc, words, script, ends, nobody, status, printed)
}

/// The same, where this provider is handed, or none.
pub fn answers_by<A: AuthProvider>(
    alloc: Global,
    words: &[&str],
    script: &[u8],
    ends: &Ends<'_>,
    handed: Option<A>,
    status: u8,
    printed: &[u8],
) -> Result<bool, Fail>
    requires { IfSome handed A.can }
{
    let words = texts(alloc, words)?;
    let mut source = MemorySource::new(script, ends.source_fails);
    let mut sink = MemorySink::new(alloc, ends.most, ends.sink_fails);
    let mut port = MemoryPort::new(alloc, Vec::new(alloc))?;
    let answered = top(alloc, &words, &mut source, &mut sink, &mut port, handed);
    drop(port);
    Ok(answered == status && sink.held() == printed)
}

/// Whether a script is answered by this status, and prints this, where nothing fails.
pub fn prints(alloc: Global, script: &[u8], status: u8, printed: &[u8]) -> Result<bool, Fail> {
    answers(alloc, &["replay"], script, &WELL, status, printed)
}
