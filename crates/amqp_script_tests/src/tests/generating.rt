//! Scripts that numbers make, and their summaries.

use super::replays::{Ends, WELL, answers, push_bytes};
use amqp_replay::status::{CLOSED, SINK_FAILED, USAGE};
use amqp_vectors::{CHANNEL_OPEN_OK_1, CHANNEL_OPEN_OK_2, CLOSE_OK, OPEN_OK, START, TUNE};
use std::alloc::Global;
use std::test::Fail;

/// A number, and what is printed of it.
struct Row {
    words: &'static [&'static str],
    // what the server says to each channel that is opened
    opened: &'static [&'static str],
    published: &'static str,
    summary: &'static str,
}

const GENERATED: [Row; 3] = [
    Row {
        words: &["generate", "0"],
        opened: &[],
        published: "",
        summary: "# sent 380 bytes, 2 answers ok, end closed\n",
    },
    Row {
        words: &["generate", "1"],
        opened: &[CHANNEL_OPEN_OK_1],
        published: "publish 1 60 40 0000000568656c6c6f00 0000 z7919\n",
        summary: "# sent 8364 bytes, 4 answers ok, end closed\n",
    },
    Row {
        words: &["generate", "0002"],
        opened: &[CHANNEL_OPEN_OK_1, CHANNEL_OPEN_OK_2],
        published: "publish 1 60 40 0000000568656c6c6f00 0000 z7919\n\
            publish 2 60 40 0000000568656c6c6f00 0000 z6838\n",
        summary: "# sent 15267 bytes, 6 answers ok, end closed\n",
    },
];

// What is printed of a row's number.
fn printed(alloc: Global, row: &Row) -> Result<Vec<u8>, Fail> {
    let mut text = Vec::from_slice(alloc, b"link\n")?;
    for frame in [START, TUNE, OPEN_OK] {
        push_bytes(&mut text, frame)?;
    }
    for frame in row.opened {
        text.extend_from_slice(b"open\n")?;
        push_bytes(&mut text, frame)?;
    }
    text.extend_from_slice(row.published.as_bytes())?;
    text.extend_from_slice(b"shut 200 OK\n")?;
    push_bytes(&mut text, CLOSE_OK)?;
    text.extend_from_slice(row.summary.as_bytes())?;
    Ok(text)
}

/// The first read of the source would fail.
const UNREAD: Ends<'static> = Ends {
    source_fails: &[1],
    sink_fails: &[],
    most: usize::MAX,
};

fn row_holds(alloc: Global, row: &Row) -> Result<bool, Fail> {
    let text = printed(alloc, row)?;
    answers(alloc, row.words, b"end", &UNREAD, CLOSED, &text)
}

// The first row that does not hold.
fn first_broken(alloc: Global) -> Result<Option<&'static str>, Fail> {
    for row in &GENERATED {
        if !row_holds(alloc, row)? {
            return Ok(Some(row.summary));
        }
    }
    Ok(None)
}

#[test]
fn numbers_make_scripts(rt: HostRuntime) -> Result<(), Fail> {
    assert_eq!(rt; first_broken(rt.alloc())?, None);
    Ok(())
}

/// The third write fails.
const CUT: Ends<'static> = Ends {
    source_fails: &[],
    sink_fails: &[3],
    most: 100,
};

// Whether a sink that fails has the front of what is printed.
fn front_is_kept(alloc: Global) -> Result<bool, Fail> {
    let text = printed(alloc, &GENERATED[1])?;
    answers(
        alloc,
        &["generate", "1"],
        b"",
        &CUT,
        SINK_FAILED,
        &text[..text.len().min(200)],
    )
}

#[test]
fn a_sink_fails_in_a_generated_script(rt: HostRuntime) -> Result<(), Fail> {
    assert!(rt; front_is_kept(rt.alloc())?);
    Ok(())
}

const OTHER_WORDS: [&[&str]; 10] = [
    &["generate"],
    &["generate", ""],
    &["generate", "x"],
    &["generate", "1x"],
    &["generate", "+1"],
    &["generate", "2001"],
    &["generate", "18446744073709551616"],
    &["generate", "1", "2"],
    &["generates", "1"],
    &["replay", "1"],
];

// How many of the other words are answered by the usage alone.
fn count_unknown(alloc: Global) -> Result<usize, Fail> {
    let mut count: usize = 0;
    for words in OTHER_WORDS {
        if answers(alloc, words, b"link", &WELL, USAGE, b"")? {
            count = count.saturating_add(1);
        }
    }
    Ok(count)
}

#[test]
fn other_numbers_print_nothing(rt: HostRuntime) -> Result<(), Fail> {
    assert!(rt; count_unknown(rt.alloc())? == OTHER_WORDS.len());
    Ok(())
}
