//! The word `double N`, through the program. How many octets are sent is a sum of the sizes of frames, as in
//! `ends`.

use amqp_doubled::top_doubled;
use amqp_engine::MemoryPort;
use amqp_replay::{MemorySink, MemorySource};
use amqp_session::DefaultAuthProvider;
use amqp_types::Text;
use std::alloc::Global;
use std::test::Fail;

// These words.
fn texts_of(alloc: Global, words: &[&str]) -> Result<Vec<Text>, Fail> {
    let mut texts = Vec::new(alloc);
    for word in words {
        texts.push(Text::new(alloc, word)?)?;
    }
    Ok(texts)
}

// Whether these words are answered by this status, and print this, where these calls of the sink fail.
fn answers_by(
    alloc: Global,
    port: &mut MemoryPort,
    words: &[&str],
    sink_fails: &[u64],
    status: u8,
    printed: &[u8],
) -> Result<bool, Fail> {
    let texts = texts_of(alloc, words)?;
    let mut source = MemorySource::new(&[], &[]);
    let mut sink = MemorySink::new(alloc, usize::MAX, sink_fails);
    let nobody: Option<DefaultAuthProvider> = None;
    let answered = top_doubled(alloc, &texts, &mut source, &mut sink, port, nobody);
    drop(texts);
    let same = answered == status && sink.held() == printed;
    drop(sink);
    Ok(same)
}

// The same, with a port of its own.
fn answers(
    alloc: Global,
    words: &[&str],
    sink_fails: &[u64],
    status: u8,
    printed: &[u8],
) -> Result<bool, Fail> {
    let mut port = MemoryPort::new(alloc, Vec::new(alloc))?;
    let same = answers_by(alloc, &mut port, words, sink_fails, status, printed);
    drop(port);
    same
}

#[test]
fn both_ends_are_summed_up(rt: HostRuntime) -> Result<(), Fail> {
    const ROWS: [(&str, &[u8]); 3] = [
        ("0", b"# sent 380 bytes, 2 answers ok, end closed\n"),
        ("1", b"# sent 8364 bytes, 4 answers ok, end closed\n"),
        ("2", b"# sent 15267 bytes, 6 answers ok, end closed\n"),
    ];
    for (count, line) in ROWS {
        assert!(rt; answers(rt.alloc(), &["double", count], &[], 0, line)?);
    }
    Ok(())
}

#[test]
fn a_sink_that_fails_is_told(rt: HostRuntime) -> Result<(), Fail> {
    assert!(rt; answers(rt.alloc(), &["double", "0"], &[1], 4, b"")?);
    Ok(())
}

#[test]
fn other_words_are_wrong(rt: HostRuntime) -> Result<(), Fail> {
    const NUMBERS: [&str; 4] = ["2001", "x", "", "-1"];
    for number in NUMBERS {
        assert!(rt; answers(rt.alloc(), &["double", number], &[], 2, b"")?);
    }
    assert!(rt; answers(rt.alloc(), &["double"], &[], 2, b"")?);
    assert!(rt; answers(rt.alloc(), &["double", "0", "0"], &[], 2, b"")?);
    Ok(())
}
