//! Want of memory: an address is what its row says, or memory was refused, and it is read again.
//! These tests are to be run with each allocation failing in turn.

use crate::uri::support::{Parts, is_read, query, reads};
use amqp_types::{NoMemory, Word};
use amqp_uri::UriFault;
use std::alloc::Global;

// Whether the text is an address of these parts, at once or after a refusal.
fn is_read_then(alloc: Global, text: &str, parts: Parts) -> bool {
    match reads(alloc, text, parts) {
        Ok(told) => told,
        Err(NoMemory) => is_read(alloc, text, parts),
    }
}

/// Addresses of which each part is decoded, and none.
const ADDRESSES: &[(&str, Parts)] = &[
    ("amqp:", ("/", "guest", "guest", "localhost", 5672)),
    (
        "amqp://us%65r:p%40s@ho%73t:5673/v%20h?heart%62eat=%36%30&auth_mechanism=external",
        ("v h", "user", "p@s", "host", 5673),
    ),
    (
        "amqp://h/a/%2e%2E/%ff",
        ("\u{fffd}", "guest", "guest", "h", 5672),
    ),
];

// The first text of which that is not so.
fn first_unread(alloc: Global) -> Option<&'static str> {
    for (text, parts) in ADDRESSES {
        if !is_read_then(alloc, text, *parts) {
            return Some(*text);
        }
    }
    None
}

#[test]
fn an_address_is_read_or_memory_was_refused(rt: HostRuntime) {
    assert_eq!(rt; first_unread(rt.alloc()), None);
}

// Whether a text has this fault, at once or after a refusal.
fn has_then(alloc: Global, text: &str, fault: UriFault) -> bool {
    match query(alloc, text) {
        Err(UriFault::NoMemory) => query(alloc, text) == Err(fault),
        told => told == Err(fault),
    }
}

/// Texts that are no addresses, and why.
const FAULTS: &[(&str, UriFault)] = &[
    ("amqp://[::1", UriFault::NotAmqp),
    ("amqps://h", UriFault::Amqps),
    (
        "amqp://h/v%20h?heart%62eat=%36%78",
        UriFault::BadNumber(Word::Heartbeat),
    ),
    ("amqp://h?auth_mechanism=%50", UriFault::BadMechanism),
];

// The first text of which that is not so.
fn first_other(alloc: Global) -> Option<&'static str> {
    for (text, fault) in FAULTS {
        if !has_then(alloc, text, *fault) {
            return Some(*text);
        }
    }
    None
}

#[test]
fn a_fault_is_told_or_memory_was_refused(rt: HostRuntime) {
    assert_eq!(rt; first_other(rt.alloc()), None);
}
