//! What is said of a link whose octets came in pieces.

use crate::support::octets;
use amqp_check::check;
use amqp_judge::{Judging, MOST_UNREAD, Unjudged, Whose, told, told_too_long, verdict_line};
use amqp_types::NoMemory;
use amqp_vectors::{
    CHANNEL_OPEN_1, CLOSE, HEADER, HEARTBEAT, METHOD_1, OPEN, START, START_OK, TUNE_OK,
};
use std::alloc::Global;

/// What both sides say, the line of the verdict, and what is said of it.
struct Row {
    client: &'static [&'static str],
    server: &'static [&'static str],
    line: &'static str,
    said: &'static str,
}

// A close of channel 1 by the server, with 404 and the text `no q`, about queue.declare.
const CLOSED_1: &str = "01 0001 0000000f 00140028 0194 046e6f2071 0032 000a ce";

const ROWS: [Row; 6] = [
    Row {
        client: &[HEADER, START_OK, TUNE_OK, OPEN, CHANNEL_OPEN_1, CLOSE],
        server: &[START],
        line: "legal 6 1",
        said: "",
    },
    Row {
        client: &[HEADER, START_OK, TUNE_OK, OPEN, CHANNEL_OPEN_1],
        server: &[START, CLOSED_1, HEARTBEAT],
        line: "legal 5 3",
        said: "the server closed channel 1 in its frame 1: 404 no q (queue.declare 50.10)",
    },
    Row {
        client: &[HEADER, HEARTBEAT, "01"],
        server: &[CLOSED_1],
        line: "cut client 16",
        said: "client byte 16: a frame begins here, and is not all there
octets: 01
1 octets are there, and its size stands before octet 7
client byte 8: frame 1 is a heartbeat
said so far: the protocol header
start-ok comes next
the server closed channel 1 in its frame 0: 404 no q (queue.declare 50.10)",
    },
    Row {
        client: &[HEADER, START_OK],
        server: &[START, "07 0000"],
        line: "bad server 105",
        said: "server byte 105: no frame stands here
octets: 07 00 00
at byte 105 stands 07, and a frame begins with 01, 02, 03, 08, or with AMQP
the client's whole frames are a legal conversation",
    },
    Row {
        client: &["16 03 01 00"],
        server: &[],
        line: "bad client 0",
        said: "client byte 0: no frame stands here
octets: 16 03 01 00
at byte 0 stands 16, and a frame begins with 01, 02, 03, 08, or with AMQP
this looks like TLS",
    },
    Row {
        client: &[HEADER, START_OK, TUNE_OK, OPEN, METHOD_1],
        server: &[],
        line: "illegal frame 4",
        said: "client byte 359: frame 4 is basic.publish (60.40) on channel 1
said so far: open; channel 1 is not open
a heartbeat comes next, or a method that its channel allows",
    },
];

/// How many octets the pieces have in which both sides come.
const SIZES: [usize; 3] = [1, 7, 400];

// Takes both sides in pieces of so many octets.
fn take(
    alloc: Global,
    judging: &mut Judging,
    client: &[u8],
    server: &[u8],
    size: usize,
) -> Result<(), Unjudged> {
    for piece in client.chunks(size.max(1)) {
        judging.client(alloc, piece)?;
    }
    for piece in server.chunks(size.max(1)) {
        judging.server(alloc, piece)?;
    }
    Ok(())
}

// Whether the verdict on both sides, in pieces of so many octets, is that of `check`.
fn is_verdict(alloc: Global, client: &[u8], server: &[u8], size: usize) -> Result<bool, NoMemory> {
    let mut judging = Judging::new(alloc)?;
    let taken = take(alloc, &mut judging, client, server, size);
    let verdict = judging.verdict();
    drop(judging);
    Ok(taken == Ok(()) && verdict == check(alloc, client, server)?)
}

// Whether this is said of a row, which comes in two pieces.
fn is_said(alloc: Global, row: &Row) -> Result<bool, NoMemory> {
    let client = octets(alloc, row.client)?;
    let server = octets(alloc, row.server)?;
    for size in SIZES {
        if !is_verdict(alloc, &client, &server, size)? {
            return Ok(false);
        }
    }
    let mut judging = Judging::new(alloc)?;
    let taken = take(alloc, &mut judging, &client, &server, 300);
    let verdict = judging.verdict();
    let said = told(alloc, judging)?;
    let line = verdict_line(alloc, verdict)?;
    Ok(taken == Ok(()) && line.as_str() == row.line && said.as_str() == row.said)
}

// The line of the first row of which something else is said.
fn first_other(alloc: Global) -> Result<Option<&'static str>, NoMemory> {
    for row in &ROWS {
        if !is_said(alloc, row)? {
            return Ok(Some(row.line));
        }
    }
    Ok(None)
}

#[test]
fn what_is_wrong_with_a_link_is_said(rt: HostRuntime) -> Result<(), NoMemory> {
    assert_eq!(rt; first_other(rt.alloc())?, None);
    Ok(())
}

// The head of a body frame that says that it has 2 GiB.
const TWO_GIB: &str = "03 0001 7fffffff";

/// What is said where the client's frame 2 is too long, its frame 1 may not be said, and the server closed channel 1.
const OF_THE_CLIENT: &str = "client byte 16: frame 2 is too long to be judged
client byte 16: a frame begins here, and is not all there
octets: 03 00 01 7f ff ff ff
7 of its 2147483655 octets are there
client byte 8: frame 1 is a heartbeat
said so far: the protocol header
start-ok comes next
the server closed channel 1 in its frame 0: 404 no q (queue.declare 50.10)";

/// What is said where the server's frame 1 is too long.
const OF_THE_SERVER: &str = "server byte 105: frame 1 is too long to be judged
server byte 105: a frame begins here, and is not all there
octets: 03 00 01 7f ff ff ff
7 of its 2147483655 octets are there
the client's whole frames are a legal conversation";

// What is said of both sides, of which the one gets more octets than are kept behind these.
fn said_of_too_long(
    alloc: Global,
    client: &[&'static str],
    server: &[&'static str],
    whose: Whose,
) -> Result<Option<String>, NoMemory> {
    let client = octets(alloc, client)?;
    let server = octets(alloc, server)?;
    let more = Vec::from_elem(alloc, 0u8, MOST_UNREAD)?;
    let mut judging = Judging::new(alloc)?;
    let begun = take(alloc, &mut judging, &client, &server, 300);
    let taken = match whose {
        Whose::Client => judging.client(alloc, &more),
        Whose::Server => judging.server(alloc, &more),
    };
    let said = told_too_long(alloc, judging, whose)?;
    if begun == Ok(()) && taken == Err(Unjudged::TooLong) {
        return Ok(Some(said));
    }
    drop(said);
    Ok(None)
}

// Whether this is said of both sides, of which one is too long.
fn is_said_of_too_long(
    alloc: Global,
    client: &[&'static str],
    server: &[&'static str],
    whose: Whose,
    wanted: &str,
) -> Result<bool, NoMemory> {
    match said_of_too_long(alloc, client, server, whose)? {
        Some(said) => Ok(said.as_str() == wanted),
        None => Ok(false),
    }
}

#[test]
fn what_is_found_before_a_frame_that_is_too_long_is_said(rt: HostRuntime) -> Result<(), NoMemory> {
    let client = [HEADER, HEARTBEAT, TWO_GIB];
    assert!(rt;
        is_said_of_too_long(
            rt.alloc(),
            &client,
            &[CLOSED_1],
            Whose::Client,
            OF_THE_CLIENT
        )?
    );
    let server = [START, TWO_GIB];
    assert!(rt;
        is_said_of_too_long(
            rt.alloc(),
            &[HEADER, START_OK],
            &server,
            Whose::Server,
            OF_THE_SERVER
        )?
    );
    Ok(())
}
