//! Frames by their names.

use amqp_vectors::{
    BLOCKED, CHANNEL_CLOSE_1, CHANNEL_CLOSE_2, CHANNEL_CLOSE_OK_1, CHANNEL_CLOSE_OK_2,
    CHANNEL_FLOW_OFF_1, CHANNEL_FLOW_OK_OFF_1, CHANNEL_FLOW_OK_ON_1, CHANNEL_FLOW_ON_1,
    CHANNEL_OPEN_1, CHANNEL_OPEN_2, CHANNEL_OPEN_OK_1, CHANNEL_OPEN_OK_2, CLOSE, CLOSE_OK, HEADER,
    OPEN, OPEN_OK, SECRET_OK, SECURE, SECURE_OK, SELECT_OK_1, SELECT_OK_2, START, START_OK,
    START_OK_DEMO, TUNE, TUNE_2, TUNE_OK, TUNE_OK_2, UNBLOCKED,
};
use std::alloc::{AllocError, Global};

// Two more channels that are opened, and a message `hello` to the queue `q`: its method, its header and its
// body.
const CHANNEL_OPEN_3: &str = "01 0003 00000005 0014000a 00 ce";

const CHANNEL_OPEN_4: &str = "01 0004 00000005 0014000a 00 ce";

const CHANNEL_OPEN_OK_3: &str = "01 0003 00000008 0014000b 00000000 ce";

const CHANNEL_OPEN_OK_4: &str = "01 0004 00000008 0014000b 00000000 ce";

const PUBLISH_1: &str = "01 0001 0000000a 003c0028 0000 00 0171 00 ce";

const CONTENT_1: &str = "02 0001 0000000e 003c 0000 0000000000000005 0000 ce";

const HELLO_1: &str = "03 0001 00000005 68656c6c6f ce";

// The same without arguments, with a body `hi`.
const SEND_1: &str = "01 0001 00000004 003c0028 ce";

const CONTENT_HI_1: &str = "02 0001 0000000e 003c 0000 0000000000000002 0000 ce";

const HI_1: &str = "03 0001 00000002 6869 ce";

// update-secret: the secret `new`, and the reason `expired`.
const SECRET: &str = "01 0000 00000013 000a0046 00000003 6e6577 07 65787069726564 ce";

// open, of the virtual host `v`.
const OPEN_V: &str = "01 0000 00000008 000a0028 0176 00 00 ce";

// The start-ok of this client: the user `alice` and the password `wonder` by PLAIN.
const START_OK_ALICE: &str = "01 0000 00000134 000a000b 0000010f
    0c 6361706162696c6974696573 46 000000c7
    1c 61757468656e7469636174696f6e5f6661696c7572655f636c6f7365 7401
    0a 62617369632e6e61636b 7401
    12 636f6e6e656374696f6e2e626c6f636b6564 7401
    16 636f6e73756d65725f63616e63656c5f6e6f74696679 7401
    13 636f6e73756d65725f7072696f726974696573 7401
    0f 6469726563745f7265706c795f746f 7401
    1a 65786368616e67655f65786368616e67655f62696e64696e6773 7401
    10 7065725f636f6e73756d65725f716f73 7401
    12 7075626c69736865725f636f6e6669726d73 7401
    08 706c6174666f726d 53 00000004 72757374
    07 70726f64756374 53 00000005 6c6170696e
    07 76657273696f6e 53 00000005 342e342e30
    05 504c41494e 0000000d 00616c69636500776f6e646572 05 656e5f5553 ce";

// The frames of which stories speak: the name of each, and its octets in hexadecimal.
const FRAMES: &[(&str, &str)] = &[
    ("header", HEADER),
    ("start", START),
    ("start_ok", START_OK),
    ("start_ok_demo", START_OK_DEMO),
    ("start_ok_alice", START_OK_ALICE),
    ("secure", SECURE),
    ("secure_ok", SECURE_OK),
    ("tune", TUNE),
    ("tune_ok", TUNE_OK),
    ("tune_2", TUNE_2),
    ("tune_ok_2", TUNE_OK_2),
    ("open", OPEN),
    ("open_v", OPEN_V),
    ("open_ok", OPEN_OK),
    ("close", CLOSE),
    ("close_ok", CLOSE_OK),
    ("blocked", BLOCKED),
    ("unblocked", UNBLOCKED),
    ("secret", SECRET),
    ("secret_ok", SECRET_OK),
    ("channel_open_1", CHANNEL_OPEN_1),
    ("channel_open_2", CHANNEL_OPEN_2),
    ("channel_open_3", CHANNEL_OPEN_3),
    ("channel_open_4", CHANNEL_OPEN_4),
    ("channel_open_ok_1", CHANNEL_OPEN_OK_1),
    ("channel_open_ok_2", CHANNEL_OPEN_OK_2),
    ("channel_open_ok_3", CHANNEL_OPEN_OK_3),
    ("channel_open_ok_4", CHANNEL_OPEN_OK_4),
    ("channel_flow_off_1", CHANNEL_FLOW_OFF_1),
    ("channel_flow_on_1", CHANNEL_FLOW_ON_1),
    ("channel_flow_ok_off_1", CHANNEL_FLOW_OK_OFF_1),
    ("channel_flow_ok_on_1", CHANNEL_FLOW_OK_ON_1),
    ("channel_close_1", CHANNEL_CLOSE_1),
    ("channel_close_2", CHANNEL_CLOSE_2),
    ("channel_close_ok_1", CHANNEL_CLOSE_OK_1),
    ("channel_close_ok_2", CHANNEL_CLOSE_OK_2),
    ("select_ok_1", SELECT_OK_1),
    ("select_ok_2", SELECT_OK_2),
    ("publish_1", PUBLISH_1),
    ("content_1", CONTENT_1),
    ("hello_1", HELLO_1),
    ("send_1", SEND_1),
    ("content_hi_1", CONTENT_HI_1),
    ("hi_1", HI_1),
];

// The value of a hexadecimal digit; nothing for a blank or a line feed.
fn digit(byte: u8) -> Option<u8> {
    match byte {
        b'0'..=b'9' => Some(byte - b'0'),
        b'a'..=b'f' => Some(byte - b'a' + 10),
        _ => None,
    }
}

// The octets of a text in hexadecimal.
fn octets(alloc: Global, text: &str) -> Result<Vec<u8>, AllocError> {
    let mut bytes = Vec::new(alloc);
    let mut high: Option<u8> = None;
    for byte in text.as_bytes() {
        if let Some(value) = digit(*byte) {
            match high {
                None => high = Some(value),
                Some(first) => {
                    bytes.push((first & 15) << 4 | (value & 15))?;
                    high = None;
                }
            }
        }
    }
    Ok(bytes)
}

// How many octets a text spells, where these octets begin with them.
fn begin_with(octets: &[u8], text: &str) -> Option<usize> {
    let mut count = 0usize;
    let mut high: Option<u8> = None;
    for byte in text.as_bytes() {
        if let Some(value) = digit(*byte) {
            match high {
                None => high = Some(value),
                Some(first) => {
                    if octets.get(count) != Some(&((first & 15) << 4 | (value & 15))) {
                        return None;
                    }
                    count = count.saturating_add(1);
                    high = None;
                }
            }
        }
    }
    Some(count)
}

// The text of the frame of this name.
fn text_of(name: &str) -> Option<&'static str> {
    for (known, text) in FRAMES {
        if *known == name {
            return Some(*text);
        }
    }
    None
}

// The name of the frame with which octets begin, and how many are its own.
fn named(octets: &[u8]) -> Option<(&'static str, usize)> {
    for (name, text) in FRAMES {
        if let Some(count) = begin_with(octets, text) {
            return Some((*name, count));
        }
    }
    None
}

/// The octets of the frame of this name, where there is one.
pub fn octets_of(alloc: Global, name: &str) -> Result<Option<Vec<u8>>, AllocError> {
    match text_of(name) {
        Some(text) => Ok(Some(octets(alloc, text)?)),
        None => Ok(None),
    }
}

/// Whether octets end with the frame of this name.
pub fn ends_with(alloc: Global, all: &[u8], name: &str) -> Result<bool, AllocError> {
    match text_of(name) {
        Some(text) => {
            let last = octets(alloc, text)?;
            Ok(all.ends_with(&last))
        }
        None => Ok(false),
    }
}

/// Adds a blank and the name of each frame of these octets, in order; `another` where one has no name, and
/// then no more.
pub fn push_names(told: &mut String, octets: &[u8]) -> Result<(), AllocError> {
    let mut done = 0usize;
    for _ in 0..octets.len() {
        if done >= octets.len() {
            break;
        }
        match named(&octets[done..]) {
            Some((name, count)) => {
                told.push_str(" ")?;
                told.push_str(name)?;
                done = done.saturating_add(count);
            }
            None => {
                told.push_str(" another")?;
                break;
            }
        }
    }
    Ok(())
}
