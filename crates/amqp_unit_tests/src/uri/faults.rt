//! Why texts are no addresses.

use crate::uri::support::query;
use amqp_types::Word;
use amqp_uri::UriFault;
use std::alloc::{AllocError, Global};

const FAULTS: &[(&str, UriFault)] = &[
    ("", UriFault::NotAmqp),
    ("localhost", UriFault::NotAmqp),
    ("http://h", UriFault::NotAmqp),
    ("http://h?heartbeat=x", UriFault::NotAmqp),
    ("amqp+ssl://h", UriFault::NotAmqp),
    ("amqp://h:65536", UriFault::NotAmqp),
    ("amqp://h:x", UriFault::NotAmqp),
    ("amqp://bob:hunter@", UriFault::NotAmqp),
    ("amqp://[::1", UriFault::NotAmqp),
    ("amqp://[fe80::1%25eth0]", UriFault::NotAmqp),
    ("amqp://a b", UriFault::NotAmqp),
    ("amqp://h^x", UriFault::NotAmqp),
    ("amqps://h:65536", UriFault::NotAmqp),
    ("amqps://h", UriFault::Amqps),
    ("amqps:", UriFault::Amqps),
    ("amqps://h?heartbeat=x", UriFault::Amqps),
];

// The first text that has another fault.
fn first_other(alloc: Global) -> Option<&'static str> {
    for (text, fault) in FAULTS {
        if query(alloc, text) != Err(*fault) {
            return Some(*text);
        }
    }
    None
}

#[test]
fn faults_have_their_order(rt: HostRuntime) {
    assert_eq!(rt; first_other(rt.alloc()), None);
}

// A front, so many times a middle, and an end.
fn joined(
    alloc: Global,
    front: &str,
    middle: &str,
    times: usize,
    end: &str,
) -> Result<String, AllocError> {
    let mut text = String::new(alloc);
    text.push_str(front)?;
    for _ in 0..times {
        text.push_str(middle)?;
    }
    text.push_str(end)?;
    Ok(text)
}

// The fault of such a text, if it has one.
fn fault_of(
    alloc: Global,
    front: &str,
    middle: &str,
    times: usize,
    end: &str,
) -> Result<Option<UriFault>, AllocError> {
    let text = joined(alloc, front, middle, times, end)?;
    Ok(query(alloc, text.as_str()).err())
}

/// A front, a middle that stands so many times, an end, and the fault.
const LENGTHS: &[(&str, &str, usize, &str, Option<UriFault>)] = &[
    ("amqp://h/", "v", 255, "", None),
    ("amqp://h/", "v", 256, "", Some(UriFault::VhostTooLong)),
    ("amqp://h/", "%76", 255, "", None),
    ("amqp://h/", "%76", 256, "", Some(UriFault::VhostTooLong)),
    ("amqp://h/", "%ff", 85, "", None),
    ("amqp://h/", "%ff", 86, "", Some(UriFault::VhostTooLong)),
    ("amqp:", "v", 255, "", None),
    ("amqp:", "v", 256, "", Some(UriFault::VhostTooLong)),
    (
        "amqp://h/",
        "v",
        256,
        "?heartbeat=x",
        Some(UriFault::VhostTooLong),
    ),
    ("amqps://h/", "v", 256, "", Some(UriFault::Amqps)),
    ("amqp://h?", "x", 65_526, "", None),
    ("amqp://h?", "x", 65_527, "", Some(UriFault::NotAmqp)),
    ("amqps://h?", "x", 65_525, "", Some(UriFault::Amqps)),
    ("amqps://h?", "x", 65_526, "", Some(UriFault::NotAmqp)),
];

// The place of the first of them that has another.
fn first_other_length(alloc: Global) -> Result<Option<usize>, AllocError> {
    for (place, (front, middle, times, end, fault)) in LENGTHS.iter().enumerate() {
        if fault_of(alloc, front, middle, *times, end)? != *fault {
            return Ok(Some(place));
        }
    }
    Ok(None)
}

#[test]
fn texts_and_virtual_hosts_have_a_greatest_length(rt: HostRuntime) {
    assert!(rt; first_other_length(rt.alloc()) == Ok(None));
}

/// Each fault, its text, and the word that an error of a connection holds.
const TEXTS: &[(UriFault, &str, Option<Word>)] = &[
    (
        UriFault::NotAmqp,
        "not an AMQP URI",
        Some(Word::NotAnAmqpUri),
    ),
    (
        UriFault::Amqps,
        "amqps is not supported",
        Some(Word::AmqpsIsNotSupported),
    ),
    (
        UriFault::VhostTooLong,
        "virtual host too long",
        Some(Word::VirtualHostTooLong),
    ),
    (
        UriFault::BadNumber(Word::FrameMax),
        "bad number in URI: frame_max",
        Some(Word::BadNumberInUri),
    ),
    (
        UriFault::BadMechanism,
        "bad mechanism in URI",
        Some(Word::BadMechanismInUri),
    ),
    (UriFault::NoMemory, "memory was refused", None),
];

// Whether a fault is shown so.
fn is_shown(alloc: Global, fault: UriFault, text: &str) -> Result<bool, AllocError> {
    let shown = fault.to_string(alloc)?;
    Ok(shown.as_str() == text)
}

// The text of the first of which something is other.
fn first_other_text(alloc: Global) -> Result<Option<&'static str>, AllocError> {
    for (fault, text, word) in TEXTS {
        if !is_shown(alloc, *fault, text)? || fault.word() != *word {
            return Ok(Some(*text));
        }
    }
    Ok(None)
}

#[test]
fn faults_have_their_texts_and_words(rt: HostRuntime) {
    assert!(rt; first_other_text(rt.alloc()) == Ok(None));
}
