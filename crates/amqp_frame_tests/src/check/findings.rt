//! What is told of the first frame that a client may not say.

use crate::check::support::octets;
use amqp_check::{Expected, Finding, first_illegal};
use amqp_frame::Frame;
use amqp_legal::{Content, Stage, Usage};
use amqp_types::NoMemory;
use amqp_vectors::{
    CHANNEL_OPEN_1, CLOSE, CONTENT_HEADER_1, HEADER, HEARTBEAT, METHOD_1, OPEN, START_OK, TUNE_OK,
};
use std::alloc::Global;

/// A finding, with what was said of channel 1.
#[derive(Clone, Copy, PartialEq, Eq)]
struct Told {
    number: u64,
    place: u64,
    is_heartbeat: bool,
    stage: Stage,
    usage: Usage,
    content: Content,
    expected: Expected,
}

fn told_of(finding: &Finding) -> Told {
    Told {
        number: finding.number,
        place: finding.place,
        is_heartbeat: matches!(&finding.frame, Frame::Heartbeat),
        stage: finding.said.stage(),
        usage: finding.said.usage(1),
        content: finding.said.content(),
        expected: finding.expected(),
    }
}

fn told_on(alloc: Global, client: &[&str]) -> Result<Option<Told>, NoMemory> {
    let bytes = octets(alloc, client)?;
    let finding = first_illegal(alloc, &bytes)?;
    let told = match &finding {
        Some(finding) => Some(told_of(finding)),
        None => None,
    };
    drop(finding);
    Ok(told)
}

/// A client's frames, and what is told of the first heartbeat, which stands where it may not.
const ROWS: [(&[&str], Told); 5] = [
    (
        &[HEARTBEAT, HEARTBEAT],
        Told {
            number: 0,
            place: 0,
            is_heartbeat: true,
            stage: Stage::HeaderSaid,
            usage: Usage::Shut,
            content: Content::NoContent,
            expected: Expected::Header,
        },
    ),
    (
        &[HEADER, HEARTBEAT],
        Told {
            number: 1,
            place: 8,
            is_heartbeat: true,
            stage: Stage::HeaderSaid,
            usage: Usage::Shut,
            content: Content::NoContent,
            expected: Expected::StartOk,
        },
    ),
    // start-ok has 315 octets, and tune-ok 20.
    (
        &[HEADER, START_OK, TUNE_OK, HEARTBEAT, OPEN],
        Told {
            number: 3,
            place: 343,
            is_heartbeat: true,
            stage: Stage::TuneOkSaid,
            usage: Usage::Shut,
            content: Content::NoContent,
            expected: Expected::Open,
        },
    ),
    // open has 16 octets, the opening of the channel 13, the method 12, and its content header 22.
    (
        &[
            HEADER,
            START_OK,
            TUNE_OK,
            OPEN,
            CHANNEL_OPEN_1,
            METHOD_1,
            CONTENT_HEADER_1,
            HEARTBEAT,
        ],
        Told {
            number: 7,
            place: 406,
            is_heartbeat: true,
            stage: Stage::OpenSaid,
            usage: Usage::InUse,
            content: Content::BodyMissing(1, 2),
            expected: Expected::Body(1, 2),
        },
    ),
    // close has 21 octets.
    (
        &[
            HEADER,
            START_OK,
            TUNE_OK,
            OPEN,
            CHANNEL_OPEN_1,
            CLOSE,
            HEARTBEAT,
        ],
        Told {
            number: 6,
            place: 393,
            is_heartbeat: true,
            stage: Stage::CloseSaid,
            usage: Usage::InUse,
            content: Content::NoContent,
            expected: Expected::CloseOk,
        },
    ),
];

/// Frames of which nothing is told: they may be said, or are not all there.
const UNTOLD: [&[&str]; 3] = [
    &[],
    &[HEADER, START_OK, TUNE_OK, OPEN, HEARTBEAT, CLOSE],
    &[HEADER, "08 0000"],
];

// The number of the first row that is told otherwise.
fn first_other(alloc: Global) -> Result<Option<u64>, NoMemory> {
    for (client, wanted) in ROWS {
        if told_on(alloc, client)? != Some(wanted) {
            return Ok(Some(wanted.number));
        }
    }
    Ok(None)
}

#[test]
fn the_place_and_what_was_said_before_it_are_told(rt: HostRuntime) -> Result<(), NoMemory> {
    assert!(rt; first_other(rt.alloc())? == None);
    Ok(())
}

// The place of the first frames of which something is told.
fn first_told(alloc: Global) -> Result<Option<usize>, NoMemory> {
    for (place, client) in UNTOLD.iter().enumerate() {
        if told_on(alloc, client)?.is_some() {
            return Ok(Some(place));
        }
    }
    Ok(None)
}

#[test]
fn nothing_is_told_of_what_may_be_said(rt: HostRuntime) -> Result<(), NoMemory> {
    assert_eq!(rt; first_told(rt.alloc())?, None);
    Ok(())
}

/// A client's frames, and the three lines on the first that it may not say.
const TEXTS: &[(&[&str], &str)] = &[
    (
        &[
            HEADER,
            START_OK,
            TUNE_OK,
            OPEN,
            CHANNEL_OPEN_1,
            METHOD_1,
            CONTENT_HEADER_1,
            HEARTBEAT,
        ],
        "client byte 406: frame 7 is a heartbeat
said so far: open; channel 1 is open; of the body on channel 1 2 octets are missing
a body frame on channel 1 comes next, not empty and of at most 2 octets",
    ),
    (
        &[HEARTBEAT],
        "client byte 0: frame 0 is a heartbeat
said so far: nothing
a conversation begins with the protocol header of AMQP 0-9-1",
    ),
    (
        &[HEADER, START_OK, TUNE_OK, OPEN, METHOD_1],
        "client byte 359: frame 4 is basic.publish (60.40) on channel 1
said so far: open; channel 1 is not open
a heartbeat comes next, or a method that its channel allows",
    ),
];

fn is_shown(alloc: Global, finding: &Finding, text: &str) -> Result<bool, NoMemory> {
    let shown = format!(in alloc; "{finding}")?;
    Ok(shown.as_str() == text)
}

// Whether what is found of these frames is shown so.
fn shows(alloc: Global, client: &[&str], text: &str) -> Result<bool, NoMemory> {
    let bytes = octets(alloc, client)?;
    let finding = first_illegal(alloc, &bytes)?;
    let shown = match &finding {
        Some(finding) => is_shown(alloc, finding, text),
        None => Ok(false),
    };
    drop(finding);
    shown
}

// The first text that is shown otherwise.
fn first_shown_otherwise(alloc: Global) -> Result<Option<&'static str>, NoMemory> {
    for (client, text) in TEXTS {
        if !shows(alloc, client, text)? {
            return Ok(Some(*text));
        }
    }
    Ok(None)
}

#[test]
fn a_finding_is_shown_in_three_lines(rt: HostRuntime) -> Result<(), NoMemory> {
    assert_eq!(rt; first_shown_otherwise(rt.alloc())?, None);
    Ok(())
}
