//! Sources and sinks that fail, and words that are not known.

use super::replays::{Ends, WELL, answers, handshake, handshake_report};
use amqp_replay::status::{CLOSED, SINK_FAILED, SOURCE_FAILED, USAGE};
use std::alloc::Global;
use std::test::Fail;

/// How the handshake is answered where calls of its source or its sink fail.
struct Row {
    name: &'static str,
    ends: Ends<'static>,
    status: u8,
    // how many bytes are printed of the report
    printed: usize,
}

const FAILING: [Row; 7] = [
    Row {
        name: "the first read fails",
        ends: Ends {
            source_fails: &[1],
            sink_fails: &[],
            most: 10,
        },
        status: SOURCE_FAILED,
        printed: 0,
    },
    Row {
        name: "the read that would find the end fails",
        ends: Ends {
            source_fails: &[2],
            sink_fails: &[],
            most: 10,
        },
        status: SOURCE_FAILED,
        printed: 0,
    },
    Row {
        name: "a read after the end would fail",
        ends: Ends {
            source_fails: &[3],
            sink_fails: &[],
            most: 10,
        },
        status: CLOSED,
        printed: usize::MAX,
    },
    Row {
        name: "the source fails, and the sink would",
        ends: Ends {
            source_fails: &[2],
            sink_fails: &[1],
            most: 10,
        },
        status: SOURCE_FAILED,
        printed: 0,
    },
    Row {
        name: "the first write fails",
        ends: Ends {
            source_fails: &[],
            sink_fails: &[1],
            most: 10,
        },
        status: SINK_FAILED,
        printed: 0,
    },
    Row {
        name: "the second write fails",
        ends: Ends {
            source_fails: &[],
            sink_fails: &[2],
            most: 10,
        },
        status: SINK_FAILED,
        printed: 10,
    },
    Row {
        name: "the seventh write fails",
        ends: Ends {
            source_fails: &[],
            sink_fails: &[7],
            most: 100,
        },
        status: SINK_FAILED,
        printed: 600,
    },
];

fn row_holds(alloc: Global, script: &[u8], report: &[u8], row: &Row) -> Result<bool, Fail> {
    let printed = &report[..row.printed.min(report.len())];
    answers(alloc, &["replay"], script, &row.ends, row.status, printed)
}

// The first row that does not hold.
fn first_broken(alloc: Global) -> Result<Option<&'static str>, Fail> {
    let script = handshake(alloc)?;
    let report = handshake_report(alloc)?;
    for row in &FAILING {
        if !row_holds(alloc, &script, &report, row)? {
            return Ok(Some(row.name));
        }
    }
    Ok(None)
}

#[test]
fn sources_and_sinks_that_fail(rt: HostRuntime) -> Result<(), Fail> {
    assert_eq!(rt; first_broken(rt.alloc())?, None);
    Ok(())
}

/// How many writes the report of the handshake takes, of ten bytes at most.
const WRITES: u64 = 82;

// Whether a sink that fails at one write, of ten bytes at most, has what was printed before it.
fn fails_at(alloc: Global, script: &[u8], report: &[u8], write: u64) -> Result<bool, Fail> {
    let failing = [write];
    let ends = Ends {
        source_fails: &[],
        sink_fails: &failing,
        most: 10,
    };
    let before = (write as usize).saturating_sub(1).saturating_mul(10);
    let printed = &report[..before.min(report.len())];
    let status = if write <= WRITES { SINK_FAILED } else { CLOSED };
    answers(alloc, &["replay"], script, &ends, status, printed)
}

// The first write, up to one more than there are, at which that is not so.
fn first_write_broken(alloc: Global) -> Result<Option<u64>, Fail> {
    let script = handshake(alloc)?;
    let report = handshake_report(alloc)?;
    for write in 1..=WRITES + 1 {
        if !fails_at(alloc, &script, &report, write)? {
            return Ok(Some(write));
        }
    }
    Ok(None)
}

#[test]
fn a_sink_that_fails_at_any_write(rt: HostRuntime) -> Result<(), Fail> {
    assert_eq!(rt; first_write_broken(rt.alloc())?, None);
    Ok(())
}

const OTHER_WORDS: [&[&str]; 3] = [&[], &["replay", "x"], &["replays"]];

// How many of the other words are answered by the usage alone.
fn count_unknown(alloc: Global) -> Result<usize, Fail> {
    let mut count: usize = 0;
    for words in OTHER_WORDS {
        if answers(alloc, words, b"link", &WELL, USAGE, b"")? {
            count = count.saturating_add(1);
        }
    }
    Ok(count)
}

#[test]
fn other_words_print_nothing(rt: HostRuntime) -> Result<(), Fail> {
    assert!(rt; count_unknown(rt.alloc())? == OTHER_WORDS.len());
    Ok(())
}
