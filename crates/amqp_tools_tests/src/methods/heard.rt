//! Methods that a server says.

use amqp_methods::{Ack, Deliver, Nack, read_ack, read_deliver, read_nack};
use amqp_types::NoMemory;
use std::alloc::Global;

/// What is seen of a delivery: the consumer's tag, the delivery's tag, whether it came before, the exchange
/// and the routing key.
type Seen = (&'static [u8], u64, bool, &'static [u8], &'static [u8]);

fn is(deliver: &Deliver, seen: Seen) -> bool {
    deliver.consumer_tag.as_bytes() == seen.0
        && deliver.delivery_tag == seen.1
        && deliver.redelivered == seen.2
        && deliver.exchange.as_bytes() == seen.3
        && deliver.routing_key.as_bytes() == seen.4
}

// Whether a payload is this delivery, or none.
fn reads(alloc: Global, payload: &[u8], seen: Option<Seen>) -> Result<bool, NoMemory> {
    let read = read_deliver(alloc, payload)?;
    let same = match (&read, seen) {
        (Some(deliver), Some(seen)) => is(deliver, seen),
        (None, None) => true,
        _ => false,
    };
    drop(read);
    Ok(same)
}

/// A delivery.
const DELIVERED: &[u8] = b"\0\x3c\0\x3c\x02c1\x01\x02\x03\x04\x05\x06\x07\x08\0\x04logs\x03a.b";

const REDELIVERED: &[u8] = b"\0\x3c\0\x3c\x02c1\x01\x02\x03\x04\x05\x06\x07\x08\x01\x04logs\x03a.b";

const EMPTY: &[u8] = b"\0\x3c\0\x3c\0\0\0\0\0\0\0\0\x01\0\0\0";

const TAG: u64 = 0x0102_0304_0506_0708;

/// Payloads, and what is seen of them. The last three have an octet too many, are another method of the
/// class, and of another class.
const ROWS: &[(&[u8], Option<Seen>)] = &[
    (DELIVERED, Some((b"c1", TAG, false, b"logs", b"a.b"))),
    (REDELIVERED, Some((b"c1", TAG, true, b"logs", b"a.b"))),
    (EMPTY, Some((b"", 1, false, b"", b""))),
    (b"\0\x3c\0\x3c\0\0\0\0\0\0\0\0\x01\0\0\0\0", None),
    (b"\0\x3c\0\x3d\0\0\0\0\0\0\0\0\x01\0\0\0", None),
    (b"\0\x3d\0\x3c\0\0\0\0\0\0\0\0\x01\0\0\0", None),
];

// The place of the first row of which something else is seen.
fn first_other(alloc: Global) -> Result<Option<usize>, NoMemory> {
    for (place, (payload, seen)) in ROWS.iter().enumerate() {
        if !reads(alloc, payload, *seen)? {
            return Ok(Some(place));
        }
    }
    Ok(None)
}

#[test]
fn a_delivery_is_read(rt: HostRuntime) -> Result<(), NoMemory> {
    assert!(rt; first_other(rt.alloc())? == None);
    Ok(())
}

// Whether no front of a delivery is one.
fn no_front_is_read(alloc: Global) -> Result<bool, NoMemory> {
    for length in 0..DELIVERED.len() {
        if !reads(alloc, &DELIVERED[..length], None)? {
            return Ok(false);
        }
    }
    Ok(true)
}

#[test]
fn what_is_no_delivery_is_none(rt: HostRuntime) -> Result<(), NoMemory> {
    assert!(rt; no_front_is_read(rt.alloc())?);
    Ok(())
}

/// Payloads, and whether the ack that each is means many; the last is a nack.
const ACKS: &[(&[u8], Option<bool>)] = &[
    (
        b"\0\x3c\0\x50\x01\x02\x03\x04\x05\x06\x07\x08\0",
        Some(false),
    ),
    (
        b"\0\x3c\0\x50\x01\x02\x03\x04\x05\x06\x07\x08\x01",
        Some(true),
    ),
    (b"\0\x3c\0\x78\0\0\0\0\0\0\0\x07\0", None),
];

fn is_ack(payload: &[u8], wanted: Option<bool>) -> bool {
    let delivery_tag = TAG;
    let ack = match wanted {
        Some(multiple) => Some(Ack {
            delivery_tag,
            multiple,
        }),
        None => None,
    };
    read_ack(payload) == ack
}

fn are_acks() -> bool {
    for (payload, wanted) in ACKS {
        if !is_ack(payload, *wanted) {
            return false;
        }
    }
    true
}

#[test]
fn an_ack_is_read(rt: HostRuntime) {
    assert!(rt; are_acks());
}

/// Payloads, and whether the nack that each is means many, and is to be queued again; the last is an ack.
const NACKS: &[(&[u8], Option<(bool, bool)>)] = &[
    (b"\0\x3c\0\x78\0\0\0\0\0\0\0\x07\0", Some((false, false))),
    (b"\0\x3c\0\x78\0\0\0\0\0\0\0\x07\x01", Some((true, false))),
    (b"\0\x3c\0\x78\0\0\0\0\0\0\0\x07\x02", Some((false, true))),
    (b"\0\x3c\0\x78\0\0\0\0\0\0\0\x07\x03", Some((true, true))),
    (b"\0\x3c\0\x50\0\0\0\0\0\0\0\x07\0", None),
];

fn is_nack(payload: &[u8], wanted: Option<(bool, bool)>) -> bool {
    let nack = match wanted {
        Some((multiple, requeue)) => Some(Nack {
            delivery_tag: 7,
            multiple,
            requeue,
        }),
        None => None,
    };
    read_nack(payload) == nack
}

fn are_nacks() -> bool {
    for (payload, wanted) in NACKS {
        if !is_nack(payload, *wanted) {
            return false;
        }
    }
    true
}

#[test]
fn a_nack_is_read(rt: HostRuntime) {
    assert!(rt; are_nacks());
}
