//! How a run ends, and that the end answers the connection's promise too.

use crate::story::{Line, tell, wrong_line};
use crate::support::{Happens, Outcome};
use amqp_vectors::{
    CLOSE_320, CLOSE_OK, HEADER, OPEN, OPEN_OK, SECURE, START, START_OK, TUNE, TUNE_OK,
};
use std::alloc::Global;
use std::process::Abort;

/// A script that ends its session.
#[derive(Clone, Copy)]
struct Row {
    name: &'static str,
    script: &'static [Happens],
}

// Runs over these scripts, a turn for each step, end with an error of this text, which answers the
// connection's promise too.
fn all_end<A: Abort>(rt: &A, alloc: Global, rows: &[Row], text: &'static str) -> Outcome<()> {
    for row in rows {
        let turns = row.script.len() as u64;
        let story = [Line::Run(turns, text), Line::Refuses(0, text)];
        assert_eq!(rt;
            wrong_line(alloc, row.script, &story)?,
            None,
            "{}",
            row.name
        );
    }
    Ok(())
}

const CUT: &[Row] = &[
    Row {
        name: "the input ends at once",
        script: &[Happens::Link(None), Happens::End],
    },
    Row {
        name: "the input ends within a frame",
        script: &[
            Happens::Link(None),
            Happens::Bytes("01 0000 00000061"),
            Happens::End,
        ],
    },
];

#[test]
fn the_end_of_input_aborts(rt: HostRuntime) -> Outcome<()> {
    all_end(&rt, rt.alloc(), CUT, "IO error: connection aborted")
}

const REFUSED: &[Row] = &[Row {
    name: "the link is refused",
    script: &[Happens::Refuse],
}];

#[test]
fn a_refused_link_ends_the_session(rt: HostRuntime) -> Outcome<()> {
    all_end(&rt, rt.alloc(), REFUSED, "IO error: connection refused")
}

const UNREADABLE: &[Row] = &[
    Row {
        name: "reading fails at once",
        script: &[Happens::Link(None), Happens::Fault],
    },
    Row {
        name: "reading fails after a frame",
        script: &[Happens::Link(None), Happens::Bytes(START), Happens::Fault],
    },
];

#[test]
fn reading_that_fails_resets(rt: HostRuntime) -> Outcome<()> {
    all_end(&rt, rt.alloc(), UNREADABLE, "IO error: connection reset")
}

const UNWRITABLE: &[Row] = &[
    Row {
        name: "the first write fails",
        script: &[Happens::WriteFail, Happens::WriteFail, Happens::Link(None)],
    },
    Row {
        name: "the second write fails",
        script: &[
            Happens::Link(None),
            Happens::WriteFail,
            Happens::Bytes(START),
        ],
    },
];

#[test]
fn writing_that_fails_breaks_the_pipe(rt: HostRuntime) -> Outcome<()> {
    all_end(&rt, rt.alloc(), UNWRITABLE, "IO error: broken pipe")
}

const UNANSWERED: &[Row] = &[Row {
    name: "a challenge to a mechanism that knows none",
    script: &[
        Happens::Link(None),
        Happens::Bytes(START),
        Happens::Bytes(SECURE),
    ],
}];

#[test]
fn a_refusal_of_the_provider_ends_the_session(rt: HostRuntime) -> Outcome<()> {
    all_end(
        &rt,
        rt.alloc(),
        UNANSWERED,
        "failure during authentication: Received invalid Connection.Secure \
        with challenge 'Please tell me your password' \
        for SASL mechanism PLAIN with default provider.",
    )
}

#[test]
fn the_servers_close_is_answered(rt: HostRuntime) -> Outcome<()> {
    const SCRIPT: &[Happens] = &[
        Happens::Link(None),
        Happens::Bytes(START),
        Happens::Bytes(TUNE),
        Happens::Bytes(OPEN_OK),
        Happens::Bytes(CLOSE_320),
    ];
    const STORY: &[Line] = &[
        Line::Run(9, "protocol error: 320 CONNECTION_FORCED"),
        Line::Took(&[HEADER, START_OK, TUNE_OK, OPEN, CLOSE_OK]),
    ];
    tell(&rt, rt.alloc(), SCRIPT, STORY)
}
