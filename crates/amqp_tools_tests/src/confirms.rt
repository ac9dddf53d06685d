//! Answers of a broker in confirm mode.

use amqp_tools::{Confirms, Heard, told_by};
use amqp_types::{NoMemory, Payload};
use std::alloc::Global;

// What is left of ten publishes after these answers, each with what it says it means.
fn left_of_ten(alloc: Global, answers: &[(u64, bool, usize)]) -> Result<usize, NoMemory> {
    let mut confirms = Confirms::new(alloc);
    for _ in 0..10u8 {
        confirms.publish(None)?;
    }
    for (tag, multiple, meant) in answers {
        if confirms.answered(*tag, *multiple) != *meant {
            return Ok(11);
        }
    }
    Ok(confirms.unanswered())
}

/// Answers, each with what it says it means, and how many of ten publishes are left then.
const ANSWERED: &[(&[(u64, bool, usize)], usize)] = &[
    (&[], 10),
    (&[(1, false, 1), (1, false, 0)], 9),
    (&[(3, false, 1), (5, true, 4), (10, true, 5)], 0),
    (&[(11, false, 0), (0, false, 0)], 10),
    (&[(2, false, 1), (0, true, 9)], 0),
];

// The place of the first answers after which another number is left.
fn first_other(alloc: Global) -> Result<Option<usize>, NoMemory> {
    for (place, (answers, left)) in ANSWERED.iter().enumerate() {
        if left_of_ten(alloc, answers)? != *left {
            return Ok(Some(place));
        }
    }
    Ok(None)
}

#[test]
fn answers_close_what_they_mean(rt: HostRuntime) -> Result<(), NoMemory> {
    assert!(rt; first_other(rt.alloc())? == None);
    Ok(())
}

// Which of ten publishes are given to be published again after these answers: the octet of each body is its
// number.
fn given_again(alloc: Global, answers: &[(u64, bool)], wanted: &[u8]) -> Result<bool, NoMemory> {
    let mut confirms = Confirms::new(alloc);
    for number in 1..11u8 {
        let body = Payload::new(alloc, &[number])?;
        confirms.publish(Some(body))?;
    }
    for (tag, multiple) in answers {
        confirms.answered(*tag, *multiple);
    }
    let mut bodies = Vec::new(alloc);
    for open in confirms.begin_again() {
        if let Some(body) = open.body {
            bodies.extend_from_slice(body.as_bytes())?;
        }
    }
    Ok(bodies.as_slice() == wanted && confirms.unanswered() == 0)
}

/// Answers, and which of ten publishes are given to be published again.
const GIVEN: &[(&[(u64, bool)], &[u8])] = &[
    (&[], &[1, 2, 3, 4, 5, 6, 7, 8, 9, 10]),
    (&[(4, true), (7, false)], &[5, 6, 8, 9, 10]),
    (&[(10, true)], &[]),
];

// The place of the first answers after which others are given.
fn first_given_otherwise(alloc: Global) -> Result<Option<usize>, NoMemory> {
    for (place, (answers, wanted)) in GIVEN.iter().enumerate() {
        if !given_again(alloc, answers, wanted)? {
            return Ok(Some(place));
        }
    }
    Ok(None)
}

#[test]
fn what_has_no_answer_is_given_again(rt: HostRuntime) -> Result<(), NoMemory> {
    assert!(rt; first_given_otherwise(rt.alloc())? == None);
    Ok(())
}

/// Payloads of methods, and what is heard by them.
const HEARD: &[(&[u8], Heard)] = &[
    (b"\0\x3c\0\x50\0\0\0\0\0\0\0\x07\x01", Heard::Taken(7, true)),
    (
        b"\0\x3c\0\x78\0\0\0\0\0\0\0\x07\x02",
        Heard::Refused(7, false),
    ),
    (b"\0\x55\0\x0b", Heard::Selected),
    (b"\0\x3c\0\x1e\x01c\x01", Heard::Cancelled),
    (b"\0\x3c\0\x32\x01\x38\x08NO_ROUTE\0\x01q", Heard::Returned),
    (b"\0\x3c\0\x15\x01c", Heard::Other),
    (b"", Heard::Other),
];

// What is to be heard by the first payload that is heard otherwise.
fn first_heard_otherwise() -> Option<Heard> {
    for (payload, heard) in HEARD {
        if told_by(payload) != *heard {
            return Some(*heard);
        }
    }
    None
}

#[test]
fn methods_are_told_apart(rt: HostRuntime) {
    assert!(rt; first_heard_otherwise() == None);
}
