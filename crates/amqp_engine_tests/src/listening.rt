//! Events, which are kept for those who listen.

use crate::story::{GOES_ON, Line, tell};
use crate::support::{Happens, Outcome};
use amqp_vectors::{OPEN_OK, START, TUNE};

// A handshake, after which the input of the link ends.
const SCRIPT: &[Happens] = &[
    Happens::Link(None),
    Happens::Bytes(START),
    Happens::Bytes(TUNE),
    Happens::Bytes(OPEN_OK),
    Happens::End,
];

#[test]
fn each_event_is_told_once(rt: HostRuntime) -> Outcome<()> {
    const STORY: &[Line] = &[
        Line::Listen,
        Line::TellsNothing,
        Line::Run(4, GOES_ON),
        Line::TellsConnected,
        Line::TellsNothing,
        Line::Run(1, "IO error: connection aborted"),
        Line::TellsError("IO error: connection aborted"),
        Line::TellsNothing,
    ];
    tell(&rt, rt.alloc(), SCRIPT, STORY)
}

#[test]
fn what_came_before_is_not_told(rt: HostRuntime) -> Outcome<()> {
    const STORY: &[Line] = &[
        Line::Run(4, GOES_ON),
        Line::Listen,
        Line::TellsNothing,
        Line::Run(1, "IO error: connection aborted"),
        Line::TellsError("IO error: connection aborted"),
        Line::TellsNothing,
    ];
    tell(&rt, rt.alloc(), SCRIPT, STORY)
}

#[test]
fn nothing_is_told_where_no_one_listens(rt: HostRuntime) -> Outcome<()> {
    const STORY: &[Line] = &[
        Line::Run(4, GOES_ON),
        Line::TellsNothing,
        Line::Run(1, "IO error: connection aborted"),
        Line::TellsNothing,
    ];
    tell(&rt, rt.alloc(), SCRIPT, STORY)
}
