//! Frames that are read, copied and written again.

use crate::wire::support::{USUAL, is_written};
use amqp_frame::{Frame, Read, View, read_frame};
use amqp_types::NoMemory;
use amqp_vectors::*;
use std::alloc::Global;

/// Frames of brokers and of clients, each the written spelling of what it spells.
const FRAMES: [(&str, &str); 36] = [
    ("the protocol header", HEADER),
    ("start", START),
    ("start-ok by PLAIN", START_OK),
    ("start-ok by RABBIT-CR-DEMO", START_OK_DEMO),
    ("secure", SECURE),
    ("secure-ok", SECURE_OK),
    ("tune", TUNE),
    ("tune-ok", TUNE_OK),
    ("tune to 2 channels", TUNE_2),
    ("tune-ok of 2 channels", TUNE_OK_2),
    ("open", OPEN),
    ("open-ok", OPEN_OK),
    ("close", CLOSE),
    ("close-ok", CLOSE_OK),
    ("close with 320", CLOSE_320),
    ("close with 540", CLOSE_540),
    ("blocked", BLOCKED),
    ("unblocked", UNBLOCKED),
    ("update-secret", SECRET),
    ("update-secret-ok", SECRET_OK),
    ("heartbeat", HEARTBEAT),
    ("channel.open", CHANNEL_OPEN_1),
    ("channel.open-ok", CHANNEL_OPEN_OK_2),
    ("channel.flow, off", CHANNEL_FLOW_OFF_1),
    ("channel.flow, on", CHANNEL_FLOW_ON_1),
    ("channel.flow-ok, off", CHANNEL_FLOW_OK_OFF_1),
    ("channel.flow-ok, on", CHANNEL_FLOW_OK_ON_1),
    ("channel.close", CHANNEL_CLOSE_1),
    ("channel.close-ok", CHANNEL_CLOSE_OK_2),
    ("channel.close with 404", CHANNEL_CLOSE_404_1),
    ("channel.close with 406", CHANNEL_CLOSE_406_1),
    ("a method that is passed through", METHOD_1),
    ("confirm.select-ok", SELECT_OK_2),
    ("a content header", CONTENT_HEADER_1),
    ("a body", BODY_1),
    ("a body without octets", EMPTY_BODY_2),
];

// Whether a frame is written as these octets, and a copy of it is equal.
fn is_kept(alloc: Global, frame: &Frame, bytes: &[u8]) -> Result<bool, NoMemory> {
    let copy = frame.try_clone(alloc)?;
    let same = copy == *frame;
    drop(copy);
    Ok(same && is_written(alloc, frame, bytes)?)
}

// Whether a text is one frame, whose written spelling it is, and whose copy is equal.
fn comes_back(alloc: Global, text: &str) -> Result<bool, NoMemory> {
    let bytes = octets_of(alloc, text)?;
    let read = read_frame(alloc, &bytes.as_slice(), USUAL);
    let told = match &read {
        Read::Whole(frame, length) if *length == bytes.len() => {
            is_kept(alloc, frame, bytes.as_slice())
        }
        _ => Ok(false),
    };
    drop(read);
    told
}

// The class and the number of a method in their four octets.
fn numbers_in(read: &Read) -> Option<[u8; 4]> {
    match read {
        Read::Whole(Frame::Method(_, method), _) => {
            let [class_high, class_low] = method.class_id().to_be_bytes();
            let [number_high, number_low] = method.method_id().to_be_bytes();
            Some([class_high, class_low, number_high, number_low])
        }
        _ => None,
    }
}

// Whether the octets are no method of the connection or of a channel, or one whose class and number
// are those that stand in its payload.
fn has_its_numbers(alloc: Global, text: &str) -> Result<bool, NoMemory> {
    let bytes = octets_of(alloc, text)?;
    let read = read_frame(alloc, &bytes.as_slice(), USUAL);
    let told = match numbers_in(&read) {
        Some(numbers) => bytes.get(7..11) == Some(numbers.as_slice()),
        None => true,
    };
    drop(read);
    Ok(told)
}

// ---- a view

/// A view that is made of the two calls that a view needs.
#[derive(Clone, Copy)]
struct Plain<'a> {
    octets: &'a [u8],
}

impl<'a> View for Plain<'a> {
    ghost bytes = { λ v. v.octets.now };

    fn len(&self) -> usize {
        View::len(&self.octets)
    }

    fn at(&self, index: usize) -> u8 {
        self.octets[index]
    }
}

// Whether a text reads by such a view as by a slice.
fn reads_the_same(alloc: Global, text: &str) -> Result<bool, NoMemory> {
    let bytes = octets_of(alloc, text)?;
    let octets = bytes.as_slice();
    let read = read_frame(alloc, &octets, USUAL);
    let other = read_frame(alloc, &Plain { octets }, USUAL);
    let same = read == other;
    drop(read);
    drop(other);
    Ok(same)
}

// ---- each frame

// Whether a frame comes back, has its class and number, and reads by a view as by a slice.
fn is_right(alloc: Global, text: &str) -> Result<bool, NoMemory> {
    Ok(comes_back(alloc, text)? && has_its_numbers(alloc, text)? && reads_the_same(alloc, text)?)
}

// The name of the first frame of which that is not so.
fn first_wrong(alloc: Global) -> Result<Option<&'static str>, NoMemory> {
    for (name, text) in FRAMES {
        if !is_right(alloc, text)? {
            return Ok(Some(name));
        }
    }
    Ok(None)
}

#[test]
fn each_frame_comes_back(rt: HostRuntime) -> Result<(), NoMemory> {
    assert_eq!(rt; first_wrong(rt.alloc())?, None);
    Ok(())
}
