//! What a client says from a border of frames on.

use crate::support::octets;
use amqp_check::Verdict;
use amqp_resumed::{LateFinding, check_from, first_wrong};
use amqp_types::NoMemory;
use amqp_vectors::{
    CHANNEL_CLOSE_1, CHANNEL_CLOSE_OK_1, CHANNEL_OPEN_1, CLOSE, CLOSE_OK, CONTENT_HEADER_1, HEADER,
    HEARTBEAT, METHOD_1, OPEN, START_OK, TUNE_OK,
};
use std::alloc::Global;

// A body of 2 octets on channel 1, and one of 1.
const WHOLE_BODY_1: &str = "03 0001 00000002 6869 ce";

const HALF_BODY_1: &str = "03 0001 00000001 68 ce";

/// Conversations that are legal from their beginning on.
const LEGAL: [&[&str]; 3] = [
    &[
        HEADER,
        START_OK,
        TUNE_OK,
        OPEN,
        CHANNEL_OPEN_1,
        METHOD_1,
        CONTENT_HEADER_1,
        HALF_BODY_1,
        HALF_BODY_1,
        METHOD_1,
        CONTENT_HEADER_1,
        WHOLE_BODY_1,
        HEARTBEAT,
        CHANNEL_CLOSE_1,
        CHANNEL_OPEN_1,
        CHANNEL_CLOSE_OK_1,
        CLOSE,
        CLOSE_OK,
    ],
    &[HEADER, START_OK, CLOSE_OK],
    &[
        HEADER,
        START_OK,
        TUNE_OK,
        OPEN,
        CHANNEL_OPEN_1,
        METHOD_1,
        CONTENT_HEADER_1,
        CLOSE_OK,
    ],
];

// The verdict on what a client says alone.
fn verdict_from(alloc: Global, client: &[&str]) -> Result<Verdict, NoMemory> {
    let client = octets(alloc, client)?;
    check_from(alloc, &client, &[])
}

// The first border from which a conversation is not legal.
fn first_border(alloc: Global, client: &[&str]) -> Result<Option<usize>, NoMemory> {
    for border in 0..=client.len() {
        let rest = &client[border..];
        if verdict_from(alloc, rest)? != Verdict::Legal(rest.len() as u64, 0) {
            return Ok(Some(border));
        }
    }
    Ok(None)
}

// The first conversation, and its border, from which it is not legal.
fn first_of_all(alloc: Global) -> Result<Option<(usize, usize)>, NoMemory> {
    for (number, client) in LEGAL.iter().enumerate() {
        if let Some(border) = first_border(alloc, client)? {
            return Ok(Some((number, border)));
        }
    }
    Ok(None)
}

#[test]
fn what_is_legal_is_legal_from_each_border(rt: HostRuntime) -> Result<(), NoMemory> {
    assert_eq!(rt; first_of_all(rt.alloc())?, None);
    Ok(())
}

/// Frames that are the rest of no legal conversation, the number of the first by which they are not, and
/// what is said of it.
const WRONG: &[(&[&str], u64, &str)] = &[
    (
        &[METHOD_1, CHANNEL_OPEN_1],
        1,
        "client byte 12: frame 1 is channel.open (20.10) on channel 1
heard so far: open; channel 1 is open; a method of class 60 on channel 1
a content header of class 60 and weight 0 on channel 1 comes next, or a method",
    ),
    (
        &[HEARTBEAT, CONTENT_HEADER_1],
        1,
        "client byte 8: frame 1 is a content header of class 60 and weight 0, for a body of 2 octets, on channel 1
heard so far: open; of channel 1 nothing
a heartbeat comes next, or a method that its channel allows",
    ),
    (
        &[CONTENT_HEADER_1, HALF_BODY_1, HEARTBEAT],
        2,
        "client byte 31: frame 2 is a heartbeat
heard so far: of the body on channel 1 1 octets are missing
they come next, in no empty frame",
    ),
    (
        &[WHOLE_BODY_1, "03 0002 00000001 68 ce"],
        1,
        "client byte 10: frame 1 is a body frame of 1 octets on channel 2
heard so far: frames of a body on channel 1
a further one comes next, not empty, or what may follow a body",
    ),
    (
        &["03 0001 00000000 ce"],
        0,
        "client byte 0: frame 0 is a body frame of 0 octets on channel 1
heard so far: nothing
any frame comes next that a client may say",
    ),
    (
        &[OPEN, METHOD_1],
        1,
        "client byte 16: frame 1 is basic.publish (60.40) on channel 1
heard so far: open; channel 1 is not open
a heartbeat comes next, or a method that its channel allows",
    ),
    (
        &[CHANNEL_CLOSE_1, METHOD_1],
        1,
        "client byte 21: frame 1 is basic.publish (60.40) on channel 1
heard so far: open; channel 1 was closed by the client
a heartbeat comes next, or a method that its channel allows",
    ),
    (
        &[CLOSE_OK, HEARTBEAT],
        1,
        "client byte 12: frame 1 is a heartbeat
heard so far: close-ok
after our close-ok nothing comes",
    ),
];

fn is_shown(
    alloc: Global,
    finding: &LateFinding,
    number: u64,
    text: &str,
) -> Result<bool, NoMemory> {
    let shown = format!(in alloc; "{finding}")?;
    Ok(finding.number == number && shown.as_str() == text)
}

// Whether what is found of these frames is shown so.
fn shows(alloc: Global, client: &[&str], number: u64, text: &str) -> Result<bool, NoMemory> {
    let bytes = octets(alloc, client)?;
    let finding = first_wrong(alloc, &bytes)?;
    let shown = match &finding {
        Some(finding) => is_shown(alloc, finding, number, text),
        None => Ok(false),
    };
    drop(finding);
    shown
}

// The first text that is shown otherwise, or whose frames have another verdict.
fn first_otherwise(alloc: Global) -> Result<Option<&'static str>, NoMemory> {
    for (client, number, text) in WRONG {
        if !shows(alloc, client, *number, text)?
            || verdict_from(alloc, client)? != Verdict::Illegal(*number)
        {
            return Ok(Some(*text));
        }
    }
    Ok(None)
}

#[test]
fn the_first_wrong_frame_is_shown(rt: HostRuntime) -> Result<(), NoMemory> {
    assert_eq!(rt; first_otherwise(rt.alloc())?, None);
    Ok(())
}
