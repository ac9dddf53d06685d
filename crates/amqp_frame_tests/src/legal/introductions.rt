//! How conversations begin and end. Each is said from the frame after the header on, and what is
//! expected is read off the grammar.

use crate::legal::support::{Row, is_header, wrong_row};
use amqp_vectors::octets::*;
use std::alloc::Global;
use std::test::Fail;

const ROWS: &[Row] = &[
    ("the header alone", &[], None),
    ("a handshake", &[START_OK, TUNE_OK, OPEN], None),
    (
        "a handshake and our close",
        &[START_OK, TUNE_OK, OPEN, CLOSE],
        None,
    ),
    (
        "both close",
        &[START_OK, TUNE_OK, OPEN, CLOSE, CLOSE_OK],
        None,
    ),
    ("the server closes at once", &[CLOSE_OK], None),
    (
        "the server closes after tune-ok",
        &[START_OK, TUNE_OK, CLOSE_OK],
        None,
    ),
    (
        "two secure-ok",
        &[START_OK, SECURE_OK, SECURE_OK, TUNE_OK],
        None,
    ),
    ("the header twice", &[HEADER], Some(0)),
    ("secure-ok before start-ok", &[SECURE_OK], Some(0)),
    ("tune-ok before start-ok", &[TUNE_OK], Some(0)),
    (
        "secure-ok after tune-ok",
        &[START_OK, TUNE_OK, SECURE_OK],
        Some(2),
    ),
    ("open before tune-ok", &[START_OK, OPEN], Some(1)),
    (
        "a heartbeat before open",
        &[START_OK, TUNE_OK, HEARTBEAT],
        Some(2),
    ),
    (
        "a channel before open",
        &[START_OK, TUNE_OK, CHANNEL_OPEN_1],
        Some(2),
    ),
    ("our close before open", &[START_OK, CLOSE], Some(1)),
    ("open twice", &[START_OK, TUNE_OK, OPEN, OPEN], Some(3)),
    (
        "a heartbeat after our close",
        &[START_OK, TUNE_OK, OPEN, CLOSE, HEARTBEAT],
        Some(4),
    ),
    ("close-ok twice", &[CLOSE_OK, CLOSE_OK], Some(1)),
];

#[test]
fn introductions_are_judged(rt: HostRuntime) -> Result<(), Fail> {
    assert!(rt; wrong_row(rt.alloc(), &[], ROWS)? == 0);
    Ok(())
}

/// Frames, and whether each is the header of version 0-9-1.
const HEADERS: [(&[u8], bool); 5] = [
    (HEADER, true),
    (b"AMQP\x00\x00\x09\x00", false),
    (b"AMQP\x00\x00\x08\x01", false),
    (b"AMQP\x00\x01\x09\x01", false),
    (START_OK, false),
];

// Whether a conversation begins with the header of version 0-9-1 and with nothing else.
fn begins_with_the_header(alloc: Global) -> bool {
    for (octets, wanted) in HEADERS {
        if is_header(alloc, octets) != wanted {
            return false;
        }
    }
    true
}

#[test]
fn a_conversation_begins_with_the_header(rt: HostRuntime) {
    assert!(rt; begins_with_the_header(rt.alloc()));
}
