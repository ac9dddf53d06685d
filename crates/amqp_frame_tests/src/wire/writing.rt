//! Frames that are written into a room.

use crate::wire::support::short;
use amqp_frame::{
    FixedRoom, Frame, Full, Method, RawMethod, Room, encoded_len, put_long, put_short, put_table,
    table_len, write_frame,
};
use amqp_types::{AMQPValue, FieldTable, NoMemory, TypeFault};
use amqp_vectors::{CHANNEL_OPEN_1, octets as said, octets_of};
use std::alloc::Global;

// Whether a channel.open of 13 octets is written into a room, or does not fit.
fn puts_open(room: &mut FixedRoom) -> Option<bool> {
    let frame = Frame::Method(1, Method::ChannelOpen);
    let length = encoded_len(&frame);
    let done = if length == 13 {
        Some(write_frame(&frame, room).is_ok())
    } else {
        None
    };
    drop(frame);
    done
}

// Whether a room has these octets and this space.
fn is_room(room: &FixedRoom, octets: &[u8], space: usize) -> bool {
    room.as_slice() == octets && room.space() == space
}

/// Two times channel.open of channel 1.
const TWO_OPENS: &[u8] = b"\x01\x00\x01\x00\x00\x00\x05\x00\x14\x00\x0a\x00\xce\
    \x01\x00\x01\x00\x00\x00\x05\x00\x14\x00\x0a\x00\xce";

// Whether two of them fill such a room but for 12 octets, and a third leaves it alone, until it is cleared.
fn are_written_whole(room: &mut FixedRoom) -> bool {
    let both = puts_open(room) == Some(true) && puts_open(room) == Some(true);
    let filled = both && is_room(room, TWO_OPENS, 12);
    let full = puts_open(room) == Some(false) && is_room(room, TWO_OPENS, 12);
    room.clear();
    filled && full && is_room(room, &[], 38)
}

#[test]
fn a_frame_is_written_whole_or_not_at_all(rt: HostRuntime) -> Result<(), NoMemory> {
    let mut room = FixedRoom::new(rt.alloc(), 38)?;
    let told = are_written_whole(&mut room);
    drop(room);
    assert!(rt; told);
    Ok(())
}

#[test]
fn a_frame_fills_a_room_of_its_length(rt: HostRuntime) -> Result<(), NoMemory> {
    let mut room = FixedRoom::new(rt.alloc(), 13)?;
    assert!(rt; puts_open(&mut room) == Some(true) && is_room(&room, said::CHANNEL_OPEN_1, 0));
    Ok(())
}

#[test]
fn a_room_that_is_full_says_so(rt: HostRuntime) -> Result<(), NoMemory> {
    let text = format!(in rt.alloc(); "{}", Full)?;
    assert!(rt; text.as_str() == "the room has too little space for the frame");
    Ok(())
}

// ---- arguments of methods that are passed through

// A short string, and a long one behind it.
#[test]
fn strings_are_put(rt: HostRuntime) -> Result<(), NoMemory> {
    let mut room = FixedRoom::new(rt.alloc(), 17)?;
    put_short(b"jobs", &mut room);
    put_long(b"PLAIN", &mut room);
    let told = is_room(&room, b"\x04jobs\x00\x00\x00\x05PLAIN", 3);
    drop(room);
    assert!(rt; told);
    Ok(())
}

// The arguments of a queue that holds a thousand messages at most.
fn thousand_at_most(alloc: Global) -> Result<FieldTable, TypeFault> {
    let name = short(alloc, "x-max-length")?;
    let mut table = FieldTable::new(alloc);
    table.insert(name, AMQPValue::LongInt(1000))?;
    Ok(table)
}

// Puts a table into a room where it has the space. Whether it did.
fn puts_table(table: &FieldTable, room: &mut FixedRoom) -> bool {
    let length = table_len(table);
    if length > 4_294_967_295 || length > room.space() as u64 {
        return false;
    }
    put_table(table, room);
    true
}

/// The table of `x-max-length` and 1000, without a tag.
const THOUSAND_AT_MOST: &[u8] = b"\x00\x00\x00\x12\x0cx-max-lengthI\x00\x00\x03\xe8";

// Whether the table fills a room of 23 octets but for one, and does not fit once more.
fn fills_a_room(alloc: Global, table: &FieldTable) -> Result<bool, NoMemory> {
    let mut room = FixedRoom::new(alloc, 23)?;
    let once = puts_table(table, &mut room);
    let twice = puts_table(table, &mut room);
    let told = once && !twice && is_room(&room, THOUSAND_AT_MOST, 1);
    drop(room);
    Ok(told)
}

#[test]
fn a_table_takes_the_space_that_is_told(rt: HostRuntime) -> Result<(), TypeFault> {
    let table = thousand_at_most(rt.alloc())?;
    let told = fills_a_room(rt.alloc(), &table);
    drop(table);
    assert!(rt; told?);
    Ok(())
}

// ---- methods that are passed through

// Whether a raw method has this class, number, arguments and payload, and an equal copy.
fn is_raw_method(alloc: Global, method: &RawMethod) -> Result<bool, NoMemory> {
    let copy = method.try_clone(alloc)?;
    let same = copy == *method;
    drop(copy);
    Ok(
        same && method.class_id() == 60
            && method.method_id() == 40
            && method.args() == b"\x00\x01".as_slice()
            && method.payload().as_bytes() == b"\x00\x3c\x00\x28\x00\x01".as_slice(),
    )
}

#[test]
fn a_raw_method_keeps_its_parts(rt: HostRuntime) -> Result<(), NoMemory> {
    let method = RawMethod::new(rt.alloc(), 60, 40, b"\x00\x01")?;
    let told = is_raw_method(rt.alloc(), &method);
    let payload = method.into_payload();
    let kept = payload.as_bytes() == b"\x00\x3c\x00\x28\x00\x01".as_slice();
    drop(payload);
    assert!(rt; kept && told?);
    Ok(())
}

// ---- texts and octets

// Whether a text in hexadecimal is these octets.
fn is_text_of(alloc: Global, text: &str, wanted: &[u8]) -> Result<bool, NoMemory> {
    let bytes = octets_of(alloc, text)?;
    Ok(bytes.as_slice() == wanted)
}

/// Frames as texts and as octets.
const BOTH: [(&str, &[u8]); 19] = [
    (amqp_vectors::HEADER, said::HEADER),
    (amqp_vectors::START_OK, said::START_OK),
    (amqp_vectors::SECURE_OK, said::SECURE_OK),
    (amqp_vectors::TUNE_OK, said::TUNE_OK),
    (amqp_vectors::TUNE_OK_2, said::TUNE_OK_2),
    (amqp_vectors::OPEN, said::OPEN),
    (amqp_vectors::CLOSE, said::CLOSE),
    (amqp_vectors::CLOSE_OK, said::CLOSE_OK),
    (amqp_vectors::SECRET, said::SECRET),
    (amqp_vectors::HEARTBEAT, said::HEARTBEAT),
    (CHANNEL_OPEN_1, said::CHANNEL_OPEN_1),
    (amqp_vectors::CHANNEL_OPEN_2, said::CHANNEL_OPEN_2),
    (amqp_vectors::CHANNEL_FLOW_OFF_1, said::CHANNEL_FLOW_OFF_1),
    (
        amqp_vectors::CHANNEL_FLOW_OK_OFF_1,
        said::CHANNEL_FLOW_OK_OFF_1,
    ),
    (
        amqp_vectors::CHANNEL_FLOW_OK_ON_1,
        said::CHANNEL_FLOW_OK_ON_1,
    ),
    (amqp_vectors::CHANNEL_CLOSE_1, said::CHANNEL_CLOSE_1),
    (amqp_vectors::CHANNEL_CLOSE_2, said::CHANNEL_CLOSE_2),
    (amqp_vectors::CHANNEL_CLOSE_OK_1, said::CHANNEL_CLOSE_OK_1),
    (amqp_vectors::CHANNEL_CLOSE_OK_2, said::CHANNEL_CLOSE_OK_2),
];

#[test]
fn texts_and_octets_are_the_same_frames(rt: HostRuntime) -> Result<(), NoMemory> {
    for (text, wanted) in BOTH {
        assert!(rt; is_text_of(rt.alloc(), text, wanted)?, "{text}");
    }
    Ok(())
}
