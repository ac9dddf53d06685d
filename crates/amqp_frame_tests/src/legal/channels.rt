//! What is said on channels, and what stands between. Each is said once the connection is opened, and
//! what is expected is read off the grammar: `(open use* (close-ok | close | close close-ok))*`.

use crate::legal::support::{OPENING, Row, wrong_row};
use amqp_vectors::octets::*;
use std::test::Fail;

// channel.close-ok of channel 0, which no client says.
const CHANNEL_CLOSE_OK_0: &[u8] = b"\x01\x00\x00\x00\x00\x00\x04\x00\x14\x00\x29\xce";

// connection.close-ok on channel 1.
const CLOSE_OK_ON_1: &[u8] = b"\x01\x00\x01\x00\x00\x00\x04\x00\x0a\x00\x33\xce";

// connection.tune, which the server says.
const TUNE: &[u8] =
    b"\x01\x00\x00\x00\x00\x00\x0c\x00\x0a\x00\x1e\x07\xff\x00\x02\x00\x00\x00\x3c\xce";

const ROWS: &[Row] = &[
    (
        "a heartbeat and a new secret",
        &[HEARTBEAT, SECRET, HEARTBEAT],
        None,
    ),
    (
        "two channels",
        &[
            CHANNEL_OPEN_1,
            CHANNEL_OPEN_2,
            CHANNEL_CLOSE_1,
            CHANNEL_CLOSE_2,
        ],
        None,
    ),
    (
        "flow is asked for and answered",
        &[CHANNEL_OPEN_1, CHANNEL_FLOW_OFF_1, CHANNEL_FLOW_OK_ON_1],
        None,
    ),
    (
        "closes that cross",
        &[
            CHANNEL_OPEN_1,
            CHANNEL_CLOSE_1,
            CHANNEL_CLOSE_OK_1,
            CHANNEL_OPEN_1,
        ],
        None,
    ),
    (
        "opened again after our close",
        &[CHANNEL_OPEN_1, CHANNEL_CLOSE_1, CHANNEL_OPEN_1],
        None,
    ),
    (
        "opened again after the server's close",
        &[CHANNEL_OPEN_1, CHANNEL_CLOSE_OK_1, CHANNEL_OPEN_1],
        None,
    ),
    (
        "our close with an open channel",
        &[CHANNEL_OPEN_1, CLOSE],
        None,
    ),
    ("opened twice", &[CHANNEL_OPEN_1, CHANNEL_OPEN_1], Some(1)),
    ("used before it is opened", &[CHANNEL_FLOW_OFF_1], Some(0)),
    ("closed before it is opened", &[CHANNEL_CLOSE_1], Some(0)),
    (
        "close-ok before it is opened",
        &[CHANNEL_CLOSE_OK_1],
        Some(0),
    ),
    (
        "another channel closed",
        &[CHANNEL_OPEN_1, CHANNEL_CLOSE_2],
        Some(1),
    ),
    (
        "close twice",
        &[CHANNEL_OPEN_1, CHANNEL_CLOSE_1, CHANNEL_CLOSE_1],
        Some(2),
    ),
    (
        "close-ok twice",
        &[CHANNEL_OPEN_1, CHANNEL_CLOSE_OK_1, CHANNEL_CLOSE_OK_1],
        Some(2),
    ),
    (
        "used after our close",
        &[CHANNEL_OPEN_1, CHANNEL_CLOSE_1, CHANNEL_FLOW_OK_OFF_1],
        Some(2),
    ),
    (
        "used after the server's close",
        &[CHANNEL_OPEN_1, CHANNEL_CLOSE_OK_1, CHANNEL_FLOW_OFF_1],
        Some(2),
    ),
    (
        "a channel's close-ok on channel 0",
        &[CHANNEL_OPEN_1, CHANNEL_CLOSE_OK_0],
        Some(1),
    ),
    (
        "the connection's close-ok on channel 1",
        &[CHANNEL_OPEN_1, CLOSE_OK_ON_1],
        Some(1),
    ),
    ("what a server says", &[TUNE], Some(0)),
];

#[test]
fn channels_are_judged(rt: HostRuntime) -> Result<(), Fail> {
    assert!(rt; wrong_row(rt.alloc(), OPENING, ROWS)? == 0);
    Ok(())
}
