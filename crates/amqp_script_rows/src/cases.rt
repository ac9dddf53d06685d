//! What is said of a line of octets.

use amqp_frame::{FixedRoom, Frame, Full, Read, encoded_len, read_frame, write_frame};
use std::alloc::{AllocError, Global};

// The value of a hexadecimal digit.
fn digit(byte: u8) -> Option<u8> {
    match byte {
        b'0'..=b'9' => Some(byte - b'0'),
        b'a'..=b'f' => Some(byte - b'a' + 10),
        _ => None,
    }
}

// The octets of a text in hexadecimal.
fn octets(alloc: Global, text: &str) -> Result<Vec<u8>, AllocError> {
    let mut bytes = Vec::new(alloc);
    let mut high: Option<u8> = None;
    for byte in text.as_bytes() {
        if let Some(value) = digit(*byte) {
            match high {
                None => high = Some(value),
                Some(first) => {
                    bytes.push((first & 15) << 4 | (value & 15))?;
                    high = None;
                }
            }
        }
    }
    Ok(bytes)
}

fn is_more(read: Read) -> bool {
    let more = matches!(read, Read::More);
    drop(read);
    more
}

// Whether each proper front of the octets asks for more.
fn asks_for_more(alloc: Global, bytes: &[u8], limit: u32) -> bool {
    for end in 0..bytes.len() {
        if !is_more(read_frame(alloc, &&bytes[..end], limit)) {
            return false;
        }
    }
    true
}

// How a frame is written whose octets are given.
fn written(alloc: Global, frame: &Frame, bytes: &[u8]) -> Result<String, AllocError> {
    let length = encoded_len(frame);
    if length > 4_294_967_295 {
        return "written by no octets".to_string(alloc);
    }
    let mut room = match FixedRoom::new(alloc, length as usize) {
        Ok(room) => room,
        Err(_) => return Err(AllocError),
    };
    match write_frame(frame, &mut room) {
        Ok(()) if room.as_slice() == bytes => "written so".to_string(alloc),
        Ok(()) => {
            let digits = hex::encode(alloc, room.as_slice())?;
            format!(in alloc; "written {digits}")
        }
        Err(Full) => "NOT WRITTEN IN ITS OWN LENGTH".to_string(alloc),
    }
}

// What is said of a frame beside the read.
fn beside(
    alloc: Global,
    frame: &Frame,
    length: usize,
    bytes: &[u8],
    limit: u32,
) -> Result<String, AllocError> {
    if length != bytes.len() {
        return "and more follows".to_string(alloc);
    }
    if !asks_for_more(alloc, bytes, limit) {
        return "BUT A FRONT OF IT DOES NOT ASK FOR MORE".to_string(alloc);
    }
    written(alloc, frame, bytes)
}

// What is said of a read of octets.
fn shown(alloc: Global, read: &Read, bytes: &[u8], limit: u32) -> Result<String, AllocError> {
    match read {
        Read::Whole(frame, length) => {
            let rest = beside(alloc, frame, *length, bytes, limit)?;
            format!(in alloc; "{read:?}, {rest}")
        }
        _ => format!(in alloc; "{read:?}"),
    }
}

// What stands at the front of a text's octets.
fn told(alloc: Global, limit: u32, text: &str) -> Result<String, AllocError> {
    let bytes = octets(alloc, text)?;
    let read = read_frame(alloc, &bytes.as_slice(), limit);
    let told = shown(alloc, &read, bytes.as_slice(), limit);
    drop(read);
    told
}

// The limit and the octets of a line that is a case.
fn case_of(line: &str) -> Option<(u32, &str)> {
    let (limit, text) = line.split_once(':')?;
    match limit.parse::<u32>() {
        Ok(limit) => Some((limit, text)),
        Err(_) => None,
    }
}

/// What is said of a line.
pub fn answer(alloc: Global, line: &str) -> Result<String, AllocError> {
    if line.is_empty() || line.starts_with('#') {
        return line.to_string(alloc);
    }
    match case_of(line) {
        Some((limit, text)) => told(alloc, limit, text),
        None => "NO CASE".to_string(alloc),
    }
}
