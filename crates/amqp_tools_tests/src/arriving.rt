//! Messages that arrive.

use amqp_tools::Arriving;
use amqp_types::NoMemory;
use std::alloc::Global;

const DELIVERED: &[u8] = b"\0\x3c\0\x3c\x02c1\0\0\0\0\0\0\0\x05\0\0\x01q";

const THREE_OCTETS: &[u8] = b"\0\x3c\0\0\0\0\0\0\0\0\0\x03\0\0";

const NO_OCTETS: &[u8] = b"\0\x3c\0\0\0\0\0\0\0\0\0\0\0\0";

// Whether a message is whole after a delivery, this header and these parts, with this body.
fn is_whole(alloc: Global, header: &[u8], parts: &[&[u8]], body: &[u8]) -> Result<bool, NoMemory> {
    let mut arriving = Arriving::new(alloc);
    arriving.method(alloc, DELIVERED)?;
    arriving.header(header);
    for part in parts {
        arriving.part(part)?;
    }
    Ok(arriving.whole() == Some(5) && arriving.body() == body)
}

/// A header, the parts that follow it, the body, and whether the message is whole.
const MESSAGES: &[(&[u8], &[&[u8]], &[u8], bool)] = &[
    (NO_OCTETS, &[], b"", true),
    (THREE_OCTETS, &[b"ab", b"c"], b"abc", true),
    (THREE_OCTETS, &[b"ab"], b"ab", false),
    (THREE_OCTETS, &[b"ab", b"cd", b"e"], b"abe", true),
];

// The body of the first message of which that is not so.
fn first_other(alloc: Global) -> Result<Option<&'static [u8]>, NoMemory> {
    for (header, parts, body, whole) in MESSAGES {
        if is_whole(alloc, header, parts, body)? != *whole {
            return Ok(Some(*body));
        }
    }
    Ok(None)
}

#[test]
fn a_message_is_whole_at_its_last_octet(rt: HostRuntime) -> Result<(), NoMemory> {
    assert!(rt; first_other(rt.alloc())? == None);
    Ok(())
}

// Whether a message that is cut off by another is forgotten.
fn is_forgotten(alloc: Global) -> Result<bool, NoMemory> {
    let mut arriving = Arriving::new(alloc);
    arriving.method(alloc, DELIVERED)?;
    arriving.header(THREE_OCTETS);
    arriving.part(b"ab")?;
    arriving.method(alloc, DELIVERED)?;
    arriving.header(THREE_OCTETS);
    arriving.part(b"cde")?;
    Ok(arriving.whole() == Some(5) && arriving.body() == b"cde".as_slice())
}

#[test]
fn a_message_that_is_cut_off_is_forgotten(rt: HostRuntime) -> Result<(), NoMemory> {
    assert!(rt; is_forgotten(rt.alloc())?);
    Ok(())
}
