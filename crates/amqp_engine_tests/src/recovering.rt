//! Links that are lost, and what of their bytes goes with them.

use crate::story::{CLOSED, GOES_ON, Line, tell_recovering};
use crate::support::{Happens, Outcome};
use amqp_session::Answer;
use amqp_vectors::{
    CHANNEL_OPEN_1, CHANNEL_OPEN_OK_1, CLOSE, CLOSE_OK, HEADER, OPEN, OPEN_OK, START, START_OK,
    TUNE, TUNE_OK,
};

// The first link takes the handshake, and of channel.open 5 bytes. Of the 8 that are unsent then the
// next link takes none.
#[test]
fn unsent_bytes_go_with_their_link(rt: HostRuntime) -> Outcome<()> {
    const SCRIPT: &[Happens] = &[
        Happens::Link(Some(364)),
        Happens::Bytes(START),
        Happens::Bytes(TUNE),
        Happens::Bytes(OPEN_OK),
        Happens::Open,
        Happens::End,
        Happens::Tick,
        Happens::Link(None),
        Happens::Bytes(START),
        Happens::Bytes(TUNE),
        Happens::Bytes(OPEN_OK),
        Happens::Close,
        Happens::Bytes(CLOSE_OK),
    ];
    const STORY: &[Line] = &[
        Line::Run(5, GOES_ON),
        Line::Keeps(4_194_304, 0, 8),
        Line::Run(1, GOES_ON),
        Line::Keeps(4_194_304, 0, 0),
        Line::Refuses(1, "IO error: connection aborted"),
        Line::IsNotAsked,
        Line::Run(7, CLOSED),
        Line::Links(2),
        Line::TookOn(0, &[HEADER, START_OK, TUNE_OK, OPEN, "01 0001 0000"]),
        Line::TookOn(1, &[HEADER, START_OK, TUNE_OK, OPEN, CLOSE]),
        Line::Answers(0, Answer::Connected),
        Line::Answers(2, Answer::Done),
    ];
    tell_recovering(&rt, rt.alloc(), SCRIPT, STORY)
}

// A start has 105 bytes. The bytes of each link are counted from its first one on.
#[test]
fn unread_bytes_go_with_their_link(rt: HostRuntime) -> Outcome<()> {
    const SCRIPT: &[Happens] = &[
        Happens::Link(None),
        Happens::Bytes(START),
        Happens::Bytes("01 0000"),
        Happens::Fault,
        Happens::Tick,
        Happens::Link(None),
        Happens::Bytes(START),
        Happens::Bytes("ff"),
    ];
    const STORY: &[Line] = &[
        Line::Run(3, GOES_ON),
        Line::Keeps(131_072, 3, 0),
        Line::Run(1, GOES_ON),
        Line::Keeps(131_072, 0, 0),
        Line::IsUnanswered(0),
        Line::Run(9, "failed to parse: frame at byte 105"),
    ];
    tell_recovering(&rt, rt.alloc(), SCRIPT, STORY)
}

// A write that fails loses its link. The channel that was open is opened again on the next one.
#[test]
fn a_link_is_lost_where_writing_fails(rt: HostRuntime) -> Outcome<()> {
    const SCRIPT: &[Happens] = &[
        Happens::Link(None),
        Happens::Bytes(START),
        Happens::Bytes(TUNE),
        Happens::Bytes(OPEN_OK),
        Happens::Open,
        Happens::Bytes(CHANNEL_OPEN_OK_1),
        Happens::WriteFail,
        Happens::Open,
        Happens::Tick,
        Happens::Link(None),
        Happens::Bytes(START),
        Happens::Bytes(TUNE),
        Happens::Bytes(OPEN_OK),
    ];
    const STORY: &[Line] = &[
        Line::Run(8, GOES_ON),
        Line::Keeps(4_194_304, 0, 0),
        Line::Answers(1, Answer::Channel(1, 1)),
        Line::Refuses(2, "IO error: broken pipe"),
        Line::Run(5, GOES_ON),
        Line::TookOn(1, &[HEADER, START_OK, TUNE_OK, OPEN, CHANNEL_OPEN_1]),
    ];
    tell_recovering(&rt, rt.alloc(), SCRIPT, STORY)
}
