//! Captures and their verdicts. A place is the sum of the sizes of the frames before it, each with the
//! 8 octets around its payload; the protocol header has 8 octets.

use crate::check::support::octets;
use amqp_check::{Verdict, check};
use amqp_types::NoMemory;
use amqp_vectors::{
    BODY_1, CHANNEL_CLOSE_1, CHANNEL_CLOSE_OK_1, CHANNEL_OPEN_1, CLOSE, CLOSE_OK, CONTENT_HEADER_1,
    HEADER, HEARTBEAT, HEARTBEAT_1, METHOD_1, OPEN, OPEN_OK, START, START_OK, TUNE, TUNE_OK,
};
use std::alloc::Global;

/// What was captured of both sides, and the verdict.
struct Capture {
    client: &'static [&'static str],
    server: &'static [&'static str],
    verdict: Verdict,
}

// The header and 20 octets of a start-ok.
const START_OK_CUT: &str = "01 0000 00000133 000a000b 0000010f 0c 6361706162";

// start, of which the last octet is no end.
const START_SPOILED: &str = "01 0000 00000061 000a000a 0009 0000003c
    0c 6361706162696c6974696573 46 00000015 12 7075626c69736865725f636f6e6669726d73 7401
    07 70726f64756374 53 00000008 5261626269744d51
    0000000e 504c41494e20414d51504c41494e 00000005 656e5f5553 cf";

// A body frame on channel 1 of 16,777,215 octets, of which 2 are there.
const LONG_BODY_CUT: &str = "03 0001 00ffffff 6162";

// A body frame on channel 1, too long for any limit.
const ENDLESS_BODY: &str = "03 0001 fffffff8";

// The protocol header of another version, 0-8-0.
const HEADER_0_8: &str = "414d5150 00 000800";

// A body of 2 octets on channel 1.
const WHOLE_BODY_1: &str = "03 0001 00000002 6869 ce";

/// Both sides are frames and nothing else, and the client's are a legal conversation.
const LEGAL: [Capture; 5] = [
    Capture {
        client: &[],
        server: &[],
        verdict: Verdict::Legal(0, 0),
    },
    Capture {
        client: &[HEADER, START_OK, TUNE_OK, OPEN, CLOSE],
        server: &[START, TUNE, OPEN_OK, CLOSE_OK],
        verdict: Verdict::Legal(5, 4),
    },
    // The server closes, and nothing else follows our close-ok.
    Capture {
        client: &[HEADER, START_OK, TUNE_OK, OPEN, CLOSE_OK],
        server: &[START, TUNE, OPEN_OK, CLOSE],
        verdict: Verdict::Legal(5, 4),
    },
    // What the server says makes nothing illegal.
    Capture {
        client: &[HEADER, START_OK, TUNE_OK, OPEN, CHANNEL_OPEN_1, METHOD_1],
        server: &[HEARTBEAT],
        verdict: Verdict::Legal(6, 1),
    },
    // A method with its content, and a heartbeat behind them.
    Capture {
        client: &[
            HEADER,
            START_OK,
            TUNE_OK,
            OPEN,
            CHANNEL_OPEN_1,
            METHOD_1,
            CONTENT_HEADER_1,
            WHOLE_BODY_1,
            HEARTBEAT,
        ],
        server: &[],
        verdict: Verdict::Legal(9, 0),
    },
];

/// Both sides are frames and nothing else, and one of the client's is the first that it may not say.
const ILLEGAL: [Capture; 8] = [
    Capture {
        client: &[HEADER, HEARTBEAT],
        server: &[],
        verdict: Verdict::Illegal(1),
    },
    Capture {
        client: &[HEADER_0_8],
        server: &[],
        verdict: Verdict::Illegal(0),
    },
    Capture {
        client: &[HEARTBEAT, HEADER],
        server: &[],
        verdict: Verdict::Illegal(0),
    },
    // No heartbeat before the connection is opened.
    Capture {
        client: &[HEADER, START_OK, TUNE_OK, HEARTBEAT, OPEN],
        server: &[],
        verdict: Verdict::Illegal(3),
    },
    // A channel that was not opened.
    Capture {
        client: &[HEADER, START_OK, TUNE_OK, OPEN, CHANNEL_CLOSE_1],
        server: &[],
        verdict: Verdict::Illegal(4),
    },
    // A heartbeat in the midst of a content.
    Capture {
        client: &[
            HEADER,
            START_OK,
            TUNE_OK,
            OPEN,
            CHANNEL_OPEN_1,
            METHOD_1,
            CONTENT_HEADER_1,
            HEARTBEAT,
        ],
        server: &[],
        verdict: Verdict::Illegal(7),
    },
    // A body longer than its header says.
    Capture {
        client: &[
            HEADER,
            START_OK,
            TUNE_OK,
            OPEN,
            CHANNEL_OPEN_1,
            METHOD_1,
            CONTENT_HEADER_1,
            BODY_1,
            HEARTBEAT,
        ],
        server: &[],
        verdict: Verdict::Illegal(7),
    },
    // Two replies to one close of a channel; what follows counts no more.
    Capture {
        client: &[
            HEADER,
            START_OK,
            TUNE_OK,
            OPEN,
            CHANNEL_OPEN_1,
            CHANNEL_CLOSE_OK_1,
            CHANNEL_CLOSE_OK_1,
            HEADER,
        ],
        server: &[],
        verdict: Verdict::Illegal(6),
    },
];

/// One side is not frames and nothing else.
const BROKEN: [Capture; 10] = [
    Capture {
        client: &[HEADER, START_OK_CUT],
        server: &[],
        verdict: Verdict::CutClient(8),
    },
    Capture {
        client: &[],
        server: &[START_SPOILED],
        verdict: Verdict::BadServer(0),
    },
    // A heartbeat on a channel.
    Capture {
        client: &[HEADER, HEARTBEAT_1],
        server: &[],
        verdict: Verdict::BadClient(8),
    },
    // No frame is refused for its size, but for one that no limit admits.
    Capture {
        client: &[HEADER, LONG_BODY_CUT],
        server: &[],
        verdict: Verdict::CutClient(8),
    },
    Capture {
        client: &[HEADER, ENDLESS_BODY],
        server: &[],
        verdict: Verdict::BadClient(8),
    },
    // start has 105 octets.
    Capture {
        client: &[HEADER],
        server: &[START, "01"],
        verdict: Verdict::CutServer(105),
    },
    // The client's side is looked at before the server's, and both before the conversation.
    Capture {
        client: &[HEADER, "41"],
        server: &[START_SPOILED],
        verdict: Verdict::CutClient(8),
    },
    Capture {
        client: &["00"],
        server: &["01"],
        verdict: Verdict::BadClient(0),
    },
    Capture {
        client: &[HEADER, HEARTBEAT],
        server: &[START_SPOILED],
        verdict: Verdict::BadServer(0),
    },
    Capture {
        client: &[HEADER, HEARTBEAT],
        server: &[HEARTBEAT, "08"],
        verdict: Verdict::CutServer(8),
    },
];

fn verdict_on(alloc: Global, capture: &Capture) -> Result<Verdict, NoMemory> {
    let client = octets(alloc, capture.client)?;
    let server = octets(alloc, capture.server)?;
    check(alloc, &client, &server)
}

// The first capture, counted from 0, that has another verdict.
fn first_other(alloc: Global, captures: &[Capture]) -> Result<Option<usize>, NoMemory> {
    for (number, capture) in captures.iter().enumerate() {
        if verdict_on(alloc, capture)? != capture.verdict {
            return Ok(Some(number));
        }
    }
    Ok(None)
}

/// Each kind of capture.
const KINDS: [(&str, &[Capture]); 3] = [
    ("legal", &LEGAL),
    ("illegal", &ILLEGAL),
    ("broken", &BROKEN),
];

// The first capture that has another verdict: its kind, and its number there.
fn first_of_all(alloc: Global) -> Result<Option<(&'static str, usize)>, NoMemory> {
    for (kind, captures) in KINDS {
        if let Some(number) = first_other(alloc, captures)? {
            return Ok(Some((kind, number)));
        }
    }
    Ok(None)
}

// Of legal conversations the frames are counted, of an illegal one the first illegal frame is told, and a
// side that is no frames is told first.
#[test]
fn captures_have_their_verdicts(rt: HostRuntime) -> Result<(), NoMemory> {
    assert_eq!(rt; first_of_all(rt.alloc())?, None);
    Ok(())
}
