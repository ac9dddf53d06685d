//! What is said of clients that were served, whose octets are read from a list.

use crate::support::octets;
use amqp_double::Double;
use amqp_double_port::{line_of, told};
use amqp_double_socket::{Counted, Ended, serve};
use amqp_settings::Configuration;
use amqp_types::NoMemory;
use amqp_vectors::{
    CHANNEL_OPEN_1, CLOSE, CLOSE_OK, HEADER, HEARTBEAT, OPEN, OPEN_OK, START_OK, TUNE_OK,
};
use std::alloc::Global;

/// What a client says, the octets of the last answers to it, its line, and why it was refused.
struct Row {
    client: &'static [&'static str],
    answered: &'static [&'static str],
    line: &'static str,
    told: &'static str,
}

const ROWS: [Row; 5] = [
    Row {
        client: &[HEADER, START_OK, TUNE_OK, OPEN, CHANNEL_OPEN_1, CLOSE],
        answered: &["01 0001 00000008 0014000b 00000000 ce", CLOSE_OK],
        line: "client 1 closed after 6 frames",
        told: "",
    },
    Row {
        client: &[HEADER, START_OK, TUNE_OK, OPEN],
        answered: &[OPEN_OK],
        line: "client 1 left after 4 frames",
        told: "",
    },
    Row {
        client: &[HEADER, "01"],
        answered: &["ce"],
        line: "client 1 left within the frame at byte 8",
        told: "",
    },
    Row {
        client: &[HEADER, HEARTBEAT, START_OK],
        answered: &["ce"],
        line: "client 1 was refused at its frame 1",
        told: "client byte 8: frame 1 is a heartbeat
said so far: the protocol header
start-ok comes next",
    },
    Row {
        client: &["16 03 01 00"],
        answered: &[],
        line: "client 1 was refused at byte 0",
        told: "client byte 0: no frame stands here
octets: 16 03 01 00
at byte 0 stands 16, and a frame begins with 01, 02, 03, 08, or with AMQP
this looks like TLS",
    },
];

const NUMBERS: Configuration = Configuration {
    channel_max: 2047,
    frame_max: 131_072,
    heartbeat: 0,
};

// Whether this is said of a client that was served.
fn is_told(alloc: Global, row: &Row, ended: Ended, client: &[u8]) -> Result<bool, NoMemory> {
    let line = line_of(alloc, 1, ended, client)?;
    let told = told(alloc, ended, client)?;
    Ok(line.as_str() == row.line && told.as_str() == row.told)
}

// Whether this is said of a client, and its answers end so.
fn is_said(alloc: Global, row: &Row) -> Result<bool, NoMemory> {
    let client = octets(alloc, row.client)?;
    let answered = octets(alloc, row.answered)?;
    let mut double = Double::new(alloc, NUMBERS)?;
    let reader: &[u8] = &client;
    let mut reader = Counted::new(reader);
    let mut writer: Counted<Vec<u8>> = Counted::new(Vec::new(alloc));
    let ended = serve(alloc, &mut double, &mut reader, &mut writer);
    let is_told = is_told(alloc, row, ended, double.client());
    drop(double);
    let written = writer.into_stream();
    Ok(is_told? && written.as_slice().ends_with(&answered))
}

// The line of the first row of which something else is said.
fn first_other(alloc: Global) -> Result<Option<&'static str>, NoMemory> {
    for row in &ROWS {
        if !is_said(alloc, row)? {
            return Ok(Some(row.line));
        }
    }
    Ok(None)
}

#[test]
fn what_is_said_of_a_client(rt: HostRuntime) -> Result<(), NoMemory> {
    assert_eq!(rt; first_other(rt.alloc())?, None);
    Ok(())
}
