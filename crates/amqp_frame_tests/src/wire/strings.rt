//! Strings, texts, payloads and lists of numbers.

use amqp_types::{LongString, NoMemory, Payload, Payload64, ShortString, Text, TypeFault};
use std::alloc::Global;

// ---- short strings

// Whether a short string of these octets holds them, also in a copy and once they were moved out.
fn is_short(alloc: Global, octets: &[u8]) -> Result<bool, TypeFault> {
    let string = ShortString::new(alloc, octets)?;
    let copy = string.try_clone(alloc)?;
    let same = copy == string && copy.as_bytes() == octets && copy.len() == octets.len();
    drop(copy);
    let again = ShortString::from_vec(string.into_vec());
    let kept = again.as_bytes() == octets && again.is_empty() == octets.is_empty();
    drop(again);
    Ok(same && kept)
}

// Why no short string has these octets.
fn fault_of_short(alloc: Global, octets: &[u8]) -> Option<TypeFault> {
    match ShortString::new(alloc, octets) {
        Ok(string) => {
            drop(string);
            None
        }
        Err(fault) => Some(fault),
    }
}

#[test]
fn a_short_string_of_256_octets_is_too_long(rt: HostRuntime) {
    let octets = [7u8; 300];
    for length in [256, 300] {
        let fault = fault_of_short(rt.alloc(), &octets[..length]);
        assert!(rt;
            fault == Some(TypeFault::TooLong(length as u64)),
            "{length}"
        );
    }
}

// Whether one string is below another, and so not equal to it.
fn is_below(alloc: Global, this: &[u8], next: &[u8]) -> Result<bool, TypeFault> {
    let this = ShortString::new(alloc, this)?;
    let next = ShortString::new(alloc, next)?;
    let below = this < next && next > this && this != next;
    drop(this);
    drop(next);
    Ok(below)
}

/// Octets, each below the next.
const ORDERED: [&[u8]; 6] = [b"", b"Z", b"a", b"ab", b"b", b"\xff"];

// The place of the first that is not below the one before the place.
fn first_unordered(alloc: Global) -> Result<Option<usize>, TypeFault> {
    for i in 1..ORDERED.len() {
        if !is_below(alloc, ORDERED[i - 1], ORDERED[i])? {
            return Ok(Some(i));
        }
    }
    Ok(None)
}

#[test]
fn short_strings_are_in_byte_order(rt: HostRuntime) -> Result<(), TypeFault> {
    assert_eq!(rt; first_unordered(rt.alloc())?, None);
    Ok(())
}

// ---- long strings

// Whether a long string of these octets holds them, also in a copy and once they were moved out, and
// is `xy` exactly where they are.
fn is_long(alloc: Global, octets: &[u8]) -> Result<bool, TypeFault> {
    let string = LongString::new(alloc, octets)?;
    let copy = string.try_clone(alloc)?;
    let same = copy == string && copy.as_bytes() == octets && copy.len() == octets.len();
    drop(copy);
    let again = LongString::from_vec(string.into_vec());
    let kept = again.as_bytes() == octets && again.is_empty() == octets.is_empty();
    let other = LongString::new(alloc, b"xy")?;
    let told = (again == other) == (octets == b"xy".as_slice());
    drop(other);
    drop(again);
    Ok(same && kept && told)
}

// ---- texts

// Whether a text reads as given, is equal to a copy, and to another text exactly where that is given.
fn reads_as_given(alloc: Global, given: &str, other: &str) -> Result<bool, NoMemory> {
    let text = Text::new(alloc, given)?;
    let copy = text.try_clone()?;
    let same = text == copy && copy.as_str() == given;
    drop(copy);
    let other_text = Text::new(alloc, other)?;
    let told = (text == other_text) == (given == other);
    drop(other_text);
    drop(text);
    Ok(same && told)
}

#[test]
fn a_text_reads_as_given(rt: HostRuntime) -> Result<(), NoMemory> {
    for given in ["", "a", "b"] {
        assert!(rt; reads_as_given(rt.alloc(), given, "b")?, "{given}");
    }
    Ok(())
}

// ---- payloads

// Whether a payload of these octets holds them, also in a copy and once they were moved out, and is
// the empty one exactly where there are none.
fn is_payload(alloc: Global, octets: &[u8]) -> Result<bool, NoMemory> {
    let payload = Payload::new(alloc, octets)?;
    let copy = payload.try_clone(alloc)?;
    let same = copy == payload && copy.as_bytes() == octets && copy.len() == octets.len();
    drop(copy);
    let again = Payload::from_vec(payload.into_vec());
    let empty = again.is_empty() == octets.is_empty()
        && (again == Payload::empty(alloc)) == octets.is_empty();
    drop(again);
    Ok(same && empty)
}

// ---- octets that are held

/// Octets; those of more than 255 are held by no short string.
const HELD: [&[u8]; 7] = [
    b"",
    b"\x00\xff",
    b"xy",
    b"xz",
    b"\x01\x02",
    &[7; 255],
    &[7; 300],
];

// Whether octets are held by a string of each kind and by a payload.
fn are_held(alloc: Global, octets: &[u8]) -> Result<bool, TypeFault> {
    let short = octets.len() > 255 || is_short(alloc, octets)?;
    Ok(short && is_long(alloc, octets)? && is_payload(alloc, octets)?)
}

// The first octets that are not.
fn first_lost(alloc: Global) -> Result<Option<&'static [u8]>, TypeFault> {
    for octets in HELD {
        if !are_held(alloc, octets)? {
            return Ok(Some(octets));
        }
    }
    Ok(None)
}

#[test]
fn octets_are_held(rt: HostRuntime) -> Result<(), TypeFault> {
    assert_eq!(rt; first_lost(rt.alloc())?, None);
    Ok(())
}

// ---- lists of numbers

// Pushes the squares of the numbers below this one.
fn push_squares(numbers: &mut Payload64, below: u64) -> Result<(), NoMemory> {
    for i in 0..below {
        numbers.reserve()?;
        numbers.push(i.wrapping_mul(i));
    }
    Ok(())
}

// Whether these are the squares of the numbers from 0 on.
fn are_squares(numbers: &[u64]) -> bool {
    for (number, i) in numbers.iter().zip(0..u64::MAX) {
        if *number != i.wrapping_mul(i) {
            return false;
        }
    }
    true
}

// Whether a list is equal to a copy, also once a place is reserved.
fn is_equal_to_a_copy(alloc: Global, numbers: &mut Payload64) -> Result<bool, NoMemory> {
    let copy = numbers.try_clone(alloc)?;
    let same = *numbers == copy;
    numbers.reserve()?;
    let kept = *numbers == copy;
    drop(copy);
    Ok(same && kept)
}

// Whether a thousand squares are pushed to an empty list, one after another.
fn are_pushed(alloc: Global, numbers: &mut Payload64) -> Result<bool, NoMemory> {
    let empty = numbers.is_empty();
    push_squares(numbers, 1000)?;
    let same = is_equal_to_a_copy(alloc, numbers)?;
    Ok(empty && same && numbers.len() == 1000 && are_squares(numbers.as_slice()))
}

#[test]
fn many_numbers_are_pushed(rt: HostRuntime) -> Result<(), NoMemory> {
    let mut numbers = Payload64::empty(rt.alloc());
    let told = are_pushed(rt.alloc(), &mut numbers);
    drop(numbers);
    assert!(rt; told?);
    Ok(())
}

// Whether a list has the first three squares, also made again, and is no shorter one. It takes the list.
fn has_three_squares(alloc: Global, numbers: Payload64) -> Result<bool, NoMemory> {
    let again = Payload64::from_vec(numbers.into_vec());
    let told = match Payload64::new(alloc, &[0, 1]) {
        Ok(shorter) => {
            let differs = again != shorter;
            drop(shorter);
            Ok(differs && again.len() == 3 && are_squares(again.as_slice()))
        }
        Err(refused) => Err(refused),
    };
    drop(again);
    told
}

#[test]
fn a_list_of_numbers_is_made_of_them(rt: HostRuntime) -> Result<(), NoMemory> {
    let numbers = Payload64::new(rt.alloc(), &[0, 1, 4])?;
    assert!(rt; has_three_squares(rt.alloc(), numbers)?);
    Ok(())
}
