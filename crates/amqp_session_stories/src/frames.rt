//! Frames by their names.

use amqp_frame::{FixedRoom, Frame, Read, encoded_len, read_frame, write_frame};
use amqp_types::NoMemory;
use amqp_vectors as vectors;
use std::alloc::Global;

// The method of class 60 and number 40 for the routing key `hello`, on channel 1.
const METHOD_HELLO: &str = "01 0001 0000000e 003c0028 0000 00 0568656c6c6f 00 ce";

// The method of class 60 and number 40 for the routing key `hello`, on channel 2.
const METHOD_HELLO_ON_2: &str = "01 0002 0000000e 003c0028 0000 00 0568656c6c6f 00 ce";

// The method of class 60 and number 40 with the arguments `abc`, on channel 1.
const METHOD_ABC: &str = "01 0001 00000007 003c0028 616263 ce";

// The new secret `abc`, for the reason `rotate`.
const SECRET_1: &str = "01 0000 00000012 000a0046 00000003 616263 06 726f74617465 ce";

// A new secret without octets, for no reason.
const SECRET_2: &str = "01 0000 00000009 000a0046 00000000 00 ce";

// The server's challenge `no`.
const CHALLENGE_NO: &str = "01 0000 0000000a 000a0014 00000002 6e6f ce";

// The content header of an empty body, without a property, on channel 1.
const HEADER_0: &str = "02 0001 0000000e 003c 0000 0000000000000000 0000 ce";

// The content header of an empty body, without a property, on channel 2.
const HEADER_0_ON_2: &str = "02 0002 0000000e 003c 0000 0000000000000000 0000 ce";

// The content header of a body of 5 octets, on channel 1.
const HEADER_5: &str = "02 0001 0000000e 003c 0000 0000000000000005 0000 ce";

// The body `x` on channel 1.
const BODY_X: &str = "03 0001 00000001 78 ce";

// At most 200 channels, frames of 4096 octets, no heartbeats.
const TUNE_200: &str = "01 0000 0000000c 000a001e 00c8 00001000 0000 ce";

// channel.open-ok of channel 128.
const CHANNEL_OPEN_OK_128: &str = "01 0080 00000008 0014000b 00000000 ce";

// channel.close-ok of channel 128.
const CHANNEL_CLOSE_OK_128: &str = "01 0080 00000004 00140029 ce";

// close-ok of the connection, on channel 5.
const CLOSE_OK_ON_5: &str = "01 0005 00000004 000a0033 ce";

// The content header of a body of 4,088 octets, on channel 1.
const HEADER_4088: &str = "02 0001 0000000e 003c 0000 0000000000000ff8 0000 ce";

// The content header of a body of 4,089 octets, on channel 1.
const HEADER_4089: &str = "02 0001 0000000e 003c 0000 0000000000000ff9 0000 ce";

// At most 2 channels, frames of 262144 octets, no heartbeats.
const TUNE_LONG: &str = "01 0000 0000000c 000a001e 0002 00040000 0000 ce";

// At most 2 channels, frames of any number of octets, no heartbeats.
const TUNE_ANY: &str = "01 0000 0000000c 000a001e 0002 00000000 0000 ce";

// blocked, without a reason.
const BLOCKED_SILENTLY: &str = "01 0000 00000005 000a003c 00 ce";

// blocked, for a reason of which only the first octet and the last can be printed as they are.
const BLOCKED_UNPRINTABLY: &str = "01 0000 0000000b 000a003c 06 61 5c 00 7f ff 7e ce";

// channel.open-ok of channel 3.
const CHANNEL_OPEN_OK_3: &str = "01 0003 00000008 0014000b 00000000 ce";

// A body of 5 octets that are 0, on channel 1.
const ZEROS_5: &str = "03 0001 00000005 0000000000 ce";

// The protocol header of another version, 0-8-0.
const HEADER_0_8: &str = "414d5150 00 000800";

// A content header of class 60 for a body of three octets, on channel 1.
const HEADER_OF_3: &str = "02 0001 0000000e 003c 0000 0000000000000003 0000 ce";

// start without its first five octets.
const START_BEHIND_5: &str = "0061 000a000a 0009 0000003c
    0c 6361706162696c6974696573 46 00000015 12 7075626c69736865725f636f6e6669726d73 7401
    07 70726f64756374 53 00000008 5261626269744d51
    0000000e 504c41494e20414d51504c41494e 00000005 656e5f5553 ce";

// Start-ok with a product and a version of the user's, a name of the connection, another locale, and
// the pairs of AMQPLAIN.
const START_OK_NAMED: &str =
    "01000000000162000a000b000001250c6361706162696c697469657346000000c71c61757468656e74696361
    74696f6e5f6661696c7572655f636c6f736574010a62617369632e6e61636b740112636f6e6e656374696f6e
    2e626c6f636b6564740116636f6e73756d65725f63616e63656c5f6e6f74696679740113636f6e73756d6572
    5f7072696f72697469657374010f6469726563745f7265706c795f746f74011a65786368616e67655f657863
    68616e67655f62696e64696e67737401107065725f636f6e73756d65725f716f737401127075626c69736865
    725f636f6e6669726d7374010f636f6e6e656374696f6e5f6e616d6553000000066f726465727308706c6174
    666f726d5300000004727573740770726f6475637453000000046d696e650776657273696f6e530000000131
    08414d51504c41494e00000022054c4f47494e5300000003626f620850415353574f5244530000000668756e
    7465720564655f4445ce";

// Start-ok with the library's product and version, and with nothing of the user, as EXTERNAL says it.
const START_OK_HALF_NAMED: &str =
    "0100000000012a000a000b0000010f0c6361706162696c697469657346000000c71c61757468656e74696361
    74696f6e5f6661696c7572655f636c6f736574010a62617369632e6e61636b740112636f6e6e656374696f6e
    2e626c6f636b6564740116636f6e73756d65725f63616e63656c5f6e6f74696679740113636f6e73756d6572
    5f7072696f72697469657374010f6469726563745f7265706c795f746f74011a65786368616e67655f657863
    68616e67655f62696e64696e67737401107065725f636f6e73756d65725f716f737401127075626c69736865
    725f636f6e6669726d73740108706c6174666f726d5300000004727573740770726f6475637453000000056c
    6170696e0776657273696f6e5300000005342e342e300845585445524e414c0000000005656e5f5553ce";

// A body of one octet that is 0, on channel 1.
const ZERO_1: &str = "03 0001 00000001 00 ce";

// The frames of which stories speak: the name of each, and its octets in hexadecimal.
const FRAMES: &[(&str, &str)] = &[
    ("header", vectors::HEADER),
    ("start", vectors::START),
    ("start_ok", vectors::START_OK),
    ("start_ok_demo", vectors::START_OK_DEMO),
    ("start_ok_token", vectors::START_OK_TOKEN),
    ("secure", vectors::SECURE),
    ("secure_ok", vectors::SECURE_OK),
    ("tune", vectors::TUNE),
    ("tune_ok", vectors::TUNE_OK),
    ("tune_2", vectors::TUNE_2),
    ("open", vectors::OPEN),
    ("open_ok", vectors::OPEN_OK),
    ("close", vectors::CLOSE),
    ("close_ok", vectors::CLOSE_OK),
    ("close_320", vectors::CLOSE_320),
    ("blocked", vectors::BLOCKED),
    ("unblocked", vectors::UNBLOCKED),
    ("secret", vectors::SECRET),
    ("secret_ok", vectors::SECRET_OK),
    ("heartbeat", vectors::HEARTBEAT),
    ("channel_open_1", vectors::CHANNEL_OPEN_1),
    ("channel_open_2", vectors::CHANNEL_OPEN_2),
    ("channel_open_ok_1", vectors::CHANNEL_OPEN_OK_1),
    ("channel_open_ok_2", vectors::CHANNEL_OPEN_OK_2),
    ("channel_flow_off_1", vectors::CHANNEL_FLOW_OFF_1),
    ("channel_flow_on_1", vectors::CHANNEL_FLOW_ON_1),
    ("channel_flow_ok_off_1", vectors::CHANNEL_FLOW_OK_OFF_1),
    ("channel_flow_ok_on_1", vectors::CHANNEL_FLOW_OK_ON_1),
    ("channel_close_1", vectors::CHANNEL_CLOSE_1),
    ("channel_close_ok_1", vectors::CHANNEL_CLOSE_OK_1),
    ("channel_close_ok_2", vectors::CHANNEL_CLOSE_OK_2),
    ("channel_close_404_1", vectors::CHANNEL_CLOSE_404_1),
    ("channel_close_406_1", vectors::CHANNEL_CLOSE_406_1),
    ("method_1", vectors::METHOD_1),
    ("select_ok_1", vectors::SELECT_OK_1),
    ("body_1", vectors::BODY_1),
    ("channel_open_ok_0", vectors::CHANNEL_OPEN_OK_0),
    ("heartbeat_1", vectors::HEARTBEAT_1),
    ("method_hello", METHOD_HELLO),
    ("method_hello_on_2", METHOD_HELLO_ON_2),
    ("method_abc", METHOD_ABC),
    ("secret_1", SECRET_1),
    ("secret_2", SECRET_2),
    ("challenge_no", CHALLENGE_NO),
    ("header_0", HEADER_0),
    ("header_0_on_2", HEADER_0_ON_2),
    ("header_5", HEADER_5),
    ("body_x", BODY_X),
    ("tune_200", TUNE_200),
    ("channel_open_ok_128", CHANNEL_OPEN_OK_128),
    ("channel_close_ok_128", CHANNEL_CLOSE_OK_128),
    ("close_ok_on_5", CLOSE_OK_ON_5),
    ("header_4088", HEADER_4088),
    ("header_4089", HEADER_4089),
    ("tune_long", TUNE_LONG),
    ("tune_any", TUNE_ANY),
    ("blocked_silently", BLOCKED_SILENTLY),
    ("blocked_unprintably", BLOCKED_UNPRINTABLY),
    ("channel_open_ok_3", CHANNEL_OPEN_OK_3),
    ("zeros_5", ZEROS_5),
    ("header_0_8", HEADER_0_8),
    ("header_of_3", HEADER_OF_3),
    ("start_behind_5", START_BEHIND_5),
    ("start_ok_named", START_OK_NAMED),
    ("start_ok_half_named", START_OK_HALF_NAMED),
    ("zero_1", ZERO_1),
];

// The value of a hexadecimal digit; nothing for a blank or a line feed.
fn digit(byte: u8) -> Option<u8> {
    match byte {
        b'0'..=b'9' => Some(byte - b'0'),
        b'a'..=b'f' => Some(byte - b'a' + 10),
        _ => None,
    }
}

// Puts the octets of a text in hexadecimal behind others.
fn append(bytes: &mut Vec<u8>, text: &str) -> Result<(), NoMemory> {
    let mut high: Option<u8> = None;
    for byte in text.as_bytes() {
        if let Some(value) = digit(*byte) {
            match high {
                None => high = Some(value),
                Some(first) => {
                    bytes.push((first & 15) << 4 | (value & 15))?;
                    high = None;
                }
            }
        }
    }
    Ok(())
}

// The text of the frame of this name.
fn text_of(name: &str) -> Option<&'static str> {
    for (known, text) in FRAMES {
        if *known == name {
            return Some(*text);
        }
    }
    None
}

/// The octets of frames: their names, and behind `octets` what has none; nothing where a name is unknown.
pub fn octets_of(alloc: Global, names: &str) -> Result<Option<Vec<u8>>, NoMemory> {
    let (names, others) = names.split_once("octets ").unwrap_or((names, ""));
    let mut bytes = Vec::new(alloc);
    for name in names.split_whitespace() {
        match text_of(name) {
            Some(text) => append(&mut bytes, text)?,
            None => return Ok(None),
        }
    }
    append(&mut bytes, others)?;
    Ok(Some(bytes))
}

/// The frame of this name, or of these octets, where it is one.
pub fn frame_of(alloc: Global, name: &str) -> Result<Option<Frame>, NoMemory> {
    let Some(bytes) = octets_of(alloc, name)? else {
        return Ok(None);
    };
    match read_frame(alloc, &bytes.as_slice(), 131_072) {
        Read::Whole(frame, _) => Ok(Some(frame)),
        other => {
            drop(other);
            Ok(None)
        }
    }
}

// How many octets a text spells, where these octets begin with them.
fn begin_with(octets: &[u8], text: &str) -> Option<usize> {
    let mut count = 0usize;
    let mut high: Option<u8> = None;
    for byte in text.as_bytes() {
        if let Some(value) = digit(*byte) {
            match high {
                None => high = Some(value),
                Some(first) => {
                    if octets.get(count) != Some(&((first & 15) << 4 | (value & 15))) {
                        return None;
                    }
                    count = count.saturating_add(1);
                    high = None;
                }
            }
        }
    }
    Some(count)
}

// The name of the frame with which octets begin, and how many are its own.
fn named(octets: &[u8]) -> Option<(&'static str, usize)> {
    for (name, text) in FRAMES {
        if let Some(count) = begin_with(octets, text) {
            return Some((*name, count));
        }
    }
    None
}

// Puts octets in hexadecimal.
fn push_hexadecimal(seen: &mut String, octets: &[u8]) -> Result<(), NoMemory> {
    seen.push_str("octets ")?;
    for octet in octets {
        write!(seen, "{octet:02x}")?;
    }
    Ok(())
}

/// Puts the names of the frames of these octets, with blanks between, and what is left where one has none.
pub fn push_octets(seen: &mut String, octets: &[u8]) -> Result<(), NoMemory> {
    let mut done = 0usize;
    for _ in 0..octets.len() {
        if done >= octets.len() {
            break;
        }
        if !seen.is_empty() {
            seen.push_str(" ")?;
        }
        match named(&octets[done..]) {
            Some((name, count)) => {
                seen.push_str(name)?;
                done = done.saturating_add(count);
            }
            None => return push_hexadecimal(seen, &octets[done..]),
        }
    }
    Ok(())
}

/// Puts the name of a frame, or its octets.
pub fn push_frame(alloc: Global, frame: &Frame, seen: &mut String) -> Result<(), NoMemory> {
    let len = encoded_len(frame);
    if len > 4_294_967_295 {
        return Ok(seen.push_str("too long a frame")?);
    }
    let mut room = FixedRoom::new(alloc, len as usize)?;
    match write_frame(frame, &mut room) {
        Ok(()) => push_octets(seen, room.as_slice()),
        Err(_) => Ok(seen.push_str("no frame")?),
    }
}
