//! Groups of a method, a content header and body frames, said on channels 1 and 2 that are open. What
//! is expected is read off the grammar: nothing parts a group, and no frame of its body is empty.

use crate::legal::support::{Row, wrong_row};
use amqp_vectors::octets::*;
use std::test::Fail;

/// basic.publish on channel 1, as far as its class and its number.
pub const PUBLISH: &[u8] = b"\x01\x00\x01\x00\x00\x00\x04\x00\x3c\x00\x28\xce";

/// A content header on channel 1, of the class basic, for a body of 3 octets.
pub const HEADER_OF_3: &[u8] =
    b"\x02\x00\x01\x00\x00\x00\x0e\x00\x3c\x00\x00\x00\x00\x00\x00\x00\x00\x00\x03\x00\x00\xce";

/// Two octets of a body on channel 1.
pub const TWO: &[u8] = b"\x03\x00\x01\x00\x00\x00\x02ab\xce";

// The same for a body without octets, for one of the class confirm, with a weight, and on channel 2.
const HEADER_OF_0: &[u8] =
    b"\x02\x00\x01\x00\x00\x00\x0e\x00\x3c\x00\x00\x00\x00\x00\x00\x00\x00\x00\x00\x00\x00\xce";

const HEADER_OF_CONFIRM: &[u8] =
    b"\x02\x00\x01\x00\x00\x00\x0e\x00\x55\x00\x00\x00\x00\x00\x00\x00\x00\x00\x03\x00\x00\xce";

const HEADER_WITH_WEIGHT: &[u8] =
    b"\x02\x00\x01\x00\x00\x00\x0e\x00\x3c\x00\x01\x00\x00\x00\x00\x00\x00\x00\x03\x00\x00\xce";

const HEADER_ON_2: &[u8] =
    b"\x02\x00\x02\x00\x00\x00\x0e\x00\x3c\x00\x00\x00\x00\x00\x00\x00\x00\x00\x03\x00\x00\xce";

// Other frames of a body: one octet, two on channel 2, and none.
const ONE: &[u8] = b"\x03\x00\x01\x00\x00\x00\x01c\xce";

const TWO_ON_2: &[u8] = b"\x03\x00\x02\x00\x00\x00\x02ab\xce";

const EMPTY: &[u8] = b"\x03\x00\x01\x00\x00\x00\x00\xce";

// basic.publish on channel 0.
const PUBLISH_ON_0: &[u8] = b"\x01\x00\x00\x00\x00\x00\x04\x00\x3c\x00\x28\xce";

// What opens the connection and both channels, after the header.
const CHANNELS: &[&[u8]] = &[START_OK, TUNE_OK, OPEN, CHANNEL_OPEN_1, CHANNEL_OPEN_2];

const ROWS: &[Row] = &[
    ("methods without content", &[PUBLISH, PUBLISH], None),
    ("a group", &[PUBLISH, HEADER_OF_3, TWO, ONE], None),
    (
        "two groups",
        &[
            PUBLISH,
            HEADER_OF_3,
            TWO,
            ONE,
            PUBLISH,
            HEADER_OF_3,
            ONE,
            TWO,
            CLOSE,
        ],
        None,
    ),
    (
        "content without octets",
        &[PUBLISH, HEADER_OF_0, HEARTBEAT, PUBLISH],
        None,
    ),
    ("cut by the end", &[PUBLISH, HEADER_OF_3, TWO], None),
    (
        "cut by our close-ok",
        &[PUBLISH, HEADER_OF_3, TWO, CLOSE_OK],
        None,
    ),
    (
        "a method that is followed by a heartbeat",
        &[PUBLISH, HEARTBEAT],
        None,
    ),
    (
        "a header parted from its method",
        &[PUBLISH, HEARTBEAT, HEADER_OF_3],
        Some(2),
    ),
    ("a header without a method", &[HEADER_OF_3], Some(0)),
    (
        "a header of another class",
        &[PUBLISH, HEADER_OF_CONFIRM],
        Some(1),
    ),
    (
        "a header with a weight",
        &[PUBLISH, HEADER_WITH_WEIGHT],
        Some(1),
    ),
    (
        "a header on another channel",
        &[PUBLISH, HEADER_ON_2],
        Some(1),
    ),
    ("a body without a header", &[PUBLISH, TWO], Some(1)),
    (
        "an empty frame of a body",
        &[PUBLISH, HEADER_OF_3, EMPTY],
        Some(2),
    ),
    (
        "a body on another channel",
        &[PUBLISH, HEADER_OF_3, TWO_ON_2],
        Some(2),
    ),
    (
        "more than its header says",
        &[PUBLISH, HEADER_OF_3, TWO, TWO],
        Some(3),
    ),
    (
        "a heartbeat inside",
        &[PUBLISH, HEADER_OF_3, HEARTBEAT],
        Some(2),
    ),
    (
        "another method inside",
        &[PUBLISH, HEADER_OF_3, TWO, PUBLISH],
        Some(3),
    ),
    (
        "our close inside",
        &[PUBLISH, HEADER_OF_3, TWO, CLOSE],
        Some(3),
    ),
    ("a method on channel 0", &[PUBLISH_ON_0], Some(0)),
];

#[test]
fn contents_are_judged(rt: HostRuntime) -> Result<(), Fail> {
    assert!(rt; wrong_row(rt.alloc(), CHANNELS, ROWS)? == 0);
    Ok(())
}
