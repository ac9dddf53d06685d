//! Whole conversations, however their bytes are cut, and runs that go on.

use crate::story::{CLOSED, GOES_ON, Line, tell};
use crate::support::{HANDSHAKE, Happens, Outcome};
use amqp_session::Answer;
use amqp_vectors::{
    BODY_1, CHANNEL_OPEN_1, CHANNEL_OPEN_OK_1, CLOSE, CLOSE_OK, HEADER, OPEN, OPEN_OK, START,
    START_OK, TUNE, TUNE_OK,
};
use std::alloc::Global;
use std::process::Abort;

/// The frames that we say in a handshake and a close.
const SAID: &[&str] = &[HEADER, START_OK, TUNE_OK, OPEN, CLOSE];

const BY_BYTES: &[Happens] = &[
    Happens::Link(None),
    Happens::EachByte(START),
    Happens::EachByte(TUNE),
    Happens::EachByte(OPEN_OK),
    Happens::Close,
    Happens::EachByte(CLOSE_OK),
];

const WITH_LITTLE_ROOM: &[Happens] = &[
    Happens::Link(Some(0)),
    Happens::EachRoom(8),
    Happens::Bytes(START),
    Happens::EachRoom(315),
    Happens::Bytes(TUNE),
    Happens::EachRoom(36),
    Happens::Bytes(OPEN_OK),
    Happens::Close,
    Happens::EachRoom(21),
    Happens::Bytes(CLOSE_OK),
];

// A run over this script is a handshake and our close, and nothing else.
fn opens_and_closes<A: Abort>(
    rt: &A,
    alloc: Global,
    script: &[Happens],
    turns: u64,
) -> Outcome<()> {
    let story = [
        Line::Run(turns, CLOSED),
        Line::Took(SAID),
        Line::Answers(0, Answer::Connected),
        Line::Answers(1, Answer::Done),
        Line::IsUnanswered(2),
        Line::IsNotStarved,
    ];
    tell(rt, alloc, script, &story)
}

#[test]
fn handshake_and_close(rt: HostRuntime) -> Outcome<()> {
    opens_and_closes(&rt, rt.alloc(), &HANDSHAKE, 6)
}

#[test]
fn one_byte_at_a_time(rt: HostRuntime) -> Outcome<()> {
    opens_and_closes(&rt, rt.alloc(), BY_BYTES, 1000)
}

#[test]
fn room_for_one_byte(rt: HostRuntime) -> Outcome<()> {
    opens_and_closes(&rt, rt.alloc(), WITH_LITTLE_ROOM, 1000)
}

#[test]
fn room_for_seven_bytes(rt: HostRuntime) -> Outcome<()> {
    const STORY: &[Line] = &[
        Line::Run(1, GOES_ON),
        Line::Took(&["41 4d 51 50 00 00 09"]),
        Line::IsUnanswered(0),
    ];
    tell(&rt, rt.alloc(), &[Happens::Link(Some(7))], STORY)
}

#[test]
fn no_turn_touches_nothing(rt: HostRuntime) -> Outcome<()> {
    const STORY: &[Line] = &[Line::Run(0, GOES_ON), Line::Links(0), Line::IsNotAsked];
    tell(&rt, rt.alloc(), &HANDSHAKE, STORY)
}

// An ended session takes no more turns.
#[test]
fn two_runs_are_one(rt: HostRuntime) -> Outcome<()> {
    const STORY: &[Line] = &[
        Line::Run(2, GOES_ON),
        Line::Took(&[HEADER, START_OK]),
        Line::Run(3, GOES_ON),
        Line::Took(SAID),
        Line::Run(1, CLOSED),
        Line::Run(7, CLOSED),
    ];
    tell(&rt, rt.alloc(), &HANDSHAKE, STORY)
}

#[test]
fn frames_are_handed_out(rt: HostRuntime) -> Outcome<()> {
    const SCRIPT: &[Happens] = &[
        Happens::Link(None),
        Happens::Bytes(START),
        Happens::Bytes(TUNE),
        Happens::Bytes(OPEN_OK),
        Happens::Open,
        Happens::Bytes(CHANNEL_OPEN_OK_1),
        Happens::Bytes(BODY_1),
    ];
    const STORY: &[Line] = &[
        Line::Run(7, GOES_ON),
        Line::Took(&[HEADER, START_OK, TUNE_OK, OPEN, CHANNEL_OPEN_1]),
        Line::Answers(1, Answer::Channel(1, 1)),
        Line::HandsOut(1, &[b"abc"]),
        Line::HandsOut(1, &[]),
    ];
    tell(&rt, rt.alloc(), SCRIPT, STORY)
}

// Start without its last octet.
const START_CUT: &str = "01 0000 00000061 000a000a 0009 0000003c
    0c 6361706162696c6974696573 46 00000015 12 7075626c69736865725f636f6e6669726d73 7401
    07 70726f64756374 53 00000008 5261626269744d51
    0000000e 504c41494e20414d51504c41494e 00000005 656e5f5553";

#[test]
fn what_is_cut_off_is_kept(rt: HostRuntime) -> Outcome<()> {
    const STORY: &[Line] = &[
        Line::Keeps(131_072, 0, 0),
        Line::Run(2, GOES_ON),
        Line::Keeps(131_072, 104, 1),
        Line::IsNotStarved,
        Line::Starve(0),
        Line::IsStarvedAfter(0),
        Line::Run(1, "memory was refused"),
    ];
    let script = [Happens::Link(Some(7)), Happens::Bytes(START_CUT)];
    tell(&rt, rt.alloc(), &script, STORY)
}

// open-ok, and the front of a heartbeat.
const OPEN_OK_AND_MORE: &str = "01 0000 00000005 000a0029 00 ce 08 0000 00";

// Frames of 131,072 octets are agreed, and there is room for 32 of them. What is kept stays: of the 359
// bytes that are said the link takes all but one.
#[test]
fn both_buffers_grow_at_open_ok(rt: HostRuntime) -> Outcome<()> {
    const SCRIPT: &[Happens] = &[
        Happens::Link(Some(358)),
        Happens::Bytes(START),
        Happens::Bytes(TUNE),
        Happens::Bytes(OPEN_OK_AND_MORE),
        Happens::Room(1),
    ];
    const STORY: &[Line] = &[
        Line::Run(3, GOES_ON),
        Line::Keeps(131_072, 0, 1),
        Line::Run(1, GOES_ON),
        Line::Keeps(4_194_304, 4, 1),
        Line::Run(1, GOES_ON),
        Line::Keeps(4_194_304, 4, 0),
        Line::Took(&[HEADER, START_OK, TUNE_OK, OPEN]),
    ];
    tell(&rt, rt.alloc(), SCRIPT, STORY)
}
