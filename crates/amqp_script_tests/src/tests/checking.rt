//! Captures through the program, and what is printed of them.

use super::replays::{Ends, WELL, answers, push_digits};
use amqp_program::explain;
use amqp_replay::status::{CLOSED, FAILED, REFUSED, SINK_FAILED};
use amqp_vectors::{
    CLOSE, CLOSE_OK, HEADER, HEARTBEAT, OPEN, OPEN_OK, START, START_OK, TUNE, TUNE_OK,
};
use std::alloc::Global;
use std::test::Fail;

// Appends a line of the bytes of frames of a side.
fn push_side(text: &mut Vec<u8>, side: &str, frames: &[&str]) -> Result<(), Fail> {
    text.extend_from_slice(side.as_bytes())?;
    text.push(b' ')?;
    for frame in frames {
        push_digits(text, frame)?;
    }
    text.push(b'\n')?;
    Ok(())
}

/// A capture: what each side said, and how it is answered.
struct Row {
    name: &'static str,
    client: &'static [&'static str],
    server: &'static [&'static str],
    status: u8,
    printed: &'static str,
}

const CAPTURES: [Row; 5] = [
    Row {
        name: "a handshake and a close",
        client: &[HEADER, START_OK, TUNE_OK, OPEN, CLOSE],
        server: &[START, TUNE, OPEN_OK, CLOSE_OK],
        status: CLOSED,
        printed: "legal 5 4\n",
    },
    Row {
        name: "a frame of the server that is cut",
        client: &[HEADER, HEARTBEAT],
        server: &["01"],
        status: FAILED,
        printed: "cut server 0\n",
    },
    Row {
        name: "a heartbeat behind the header",
        client: &[HEADER, HEARTBEAT],
        server: &[START],
        status: FAILED,
        printed: "illegal frame 1\n",
    },
    Row {
        name: "the first octets of a start-ok",
        client: &[HEADER, "01 0000 00000133"],
        server: &["01 0000 00000004 000a0033 cf"],
        status: FAILED,
        printed: "cut client 8\n",
    },
    Row {
        name: "a frame of the server with another end",
        client: &[HEADER],
        server: &["01 0000 00000004 000a0033 cf"],
        status: FAILED,
        printed: "bad server 0\n",
    },
];

fn capture_of(alloc: Global, row: &Row) -> Result<Vec<u8>, Fail> {
    let mut text = Vec::from_slice(alloc, b"# a comment, and an empty line\n\n")?;
    push_side(&mut text, "client", row.client)?;
    push_side(&mut text, "server", row.server)?;
    Ok(text)
}

fn capture_is_answered(alloc: Global, row: &Row) -> Result<bool, Fail> {
    let text = capture_of(alloc, row)?;
    answers(
        alloc,
        &["check"],
        &text,
        &WELL,
        row.status,
        row.printed.as_bytes(),
    )
}

// The first capture that is answered otherwise.
fn first_other(alloc: Global) -> Result<Option<&'static str>, Fail> {
    for row in &CAPTURES {
        if !capture_is_answered(alloc, row)? {
            return Ok(Some(row.name));
        }
    }
    Ok(None)
}

#[test]
fn captures_are_answered(rt: HostRuntime) -> Result<(), Fail> {
    assert_eq!(rt; first_other(rt.alloc())?, None);
    Ok(())
}

// Captures, and the line that is printed of each.
const LINES: [(&str, u8, &str); 8] = [
    ("", CLOSED, "legal 0 0\n"),
    ("client -\n", REFUSED, "capture line 1 refused\n"),
    ("# first\nclient\n", REFUSED, "capture line 2 refused\n"),
    ("bytes 00\n", REFUSED, "capture line 1 refused\n"),
    ("server z0\n", REFUSED, "capture line 1 refused\n"),
    ("server  00\n", REFUSED, "capture line 1 refused\n"),
    ("server 0\n", REFUSED, "capture line 1 refused\n"),
    ("client z67108865\n", REFUSED, "capture line 1 refused\n"),
];

// The first of them of which something else is printed.
fn first_other_line(alloc: Global) -> Result<Option<&'static str>, Fail> {
    for (text, status, printed) in LINES {
        let text_bytes = text.as_bytes();
        if !answers(
            alloc,
            &["check"],
            text_bytes,
            &WELL,
            status,
            printed.as_bytes(),
        )? {
            return Ok(Some(text));
        }
    }
    Ok(None)
}

#[test]
fn lines_of_captures(rt: HostRuntime) -> Result<(), Fail> {
    assert_eq!(rt; first_other_line(rt.alloc())?, None);
    Ok(())
}

const SECOND_WRITE_FAILS: Ends<'static> = Ends {
    source_fails: &[],
    sink_fails: &[2],
    most: 6,
};

#[test]
fn a_verdict_that_is_not_taken(rt: HostRuntime) -> Result<(), Fail> {
    let ends = &SECOND_WRITE_FAILS;
    assert!(rt; answers(rt.alloc(), &["check"], b"", ends, SINK_FAILED, b"legal ")?);
    Ok(())
}

// Whether this is what is said of a capture.
fn is_explained(alloc: Global, text: &[u8], wanted: &str) -> Result<bool, Fail> {
    match explain(alloc, text)? {
        Some(said) => Ok(said.as_str() == wanted),
        None => Ok(wanted.is_empty()),
    }
}

// Captures, and what is said of each.
const EXPLAINED: [(&str, &str); 6] = [
    ("", ""),
    (
        "client 414d51500000\n\nclient 0901\nclient 08\nclient 000000000000ce\n",
        "line 4, client byte 8: frame 1 is a heartbeat\n\
         said so far: the protocol header\n\
         start-ok comes next",
    ),
    (
        "server 0100000000000400\nserver 0a0033cf\n",
        "line 1, server byte 0: no frame stands here\n\
         octets: 01 00 00 00 00 00 04 00 0a 00 33 cf\n\
         at byte 11 stands cf, and the frame ends there, with ce",
    ),
    (
        "server 08000100000000ce\n",
        "line 1, server byte 0: no frame stands here\n\
         octets: 08 00 01 00 00 00 00 ce\n\
         a heartbeat stands on channel 0, and not on 1",
    ),
    (
        "client 414d515000000901010000000001330a\n",
        "line 1, client byte 8: a frame begins here, and is not all there\n\
         octets: 01 00 00 00 00 01 33 0a\n\
         8 of its 315 octets are there\n\
         the client's whole frames are a legal conversation",
    ),
    (
        "client 41\n# a comment\nserver -\n",
        "line 3: one octet at least is wanted",
    ),
];

// The first of them of which something else is said.
fn first_otherwise(alloc: Global) -> Result<Option<&'static str>, Fail> {
    for (text, wanted) in EXPLAINED {
        if !is_explained(alloc, text.as_bytes(), wanted)? {
            return Ok(Some(text));
        }
    }
    Ok(None)
}

#[test]
fn what_is_wrong_is_explained(rt: HostRuntime) -> Result<(), Fail> {
    assert_eq!(rt; first_otherwise(rt.alloc())?, None);
    Ok(())
}
