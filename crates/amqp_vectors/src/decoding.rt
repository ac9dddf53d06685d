//! The octets of a text in hexadecimal.

use std::alloc::{AllocError, Global};

// The value of a hexadecimal digit; nothing for a blank or a line feed.
fn digit(byte: u8) -> Option<u8> {
    match byte {
        b'0'..=b'9' => Some(byte - b'0'),
        b'a'..=b'f' => Some(byte - b'a' + 10),
        _ => None,
    }
}

/// Puts the octets of a text in hexadecimal behind others.
pub fn push_octets(bytes: &mut Vec<u8>, text: &str) -> Result<(), AllocError> {
    let mut high: Option<u8> = None;
    for byte in text.as_bytes() {
        if let Some(value) = digit(*byte) {
            match high {
                None => high = Some(value),
                Some(first) => {
                    bytes.push((first & 15) << 4 | (value & 15))?;
                    high = None;
                }
            }
        }
    }
    Ok(())
}

/// The octets of a text in hexadecimal.
pub fn octets_of(alloc: Global, text: &str) -> Result<Vec<u8>, AllocError> {
    let mut bytes = Vec::new(alloc);
    push_octets(&mut bytes, text)?;
    Ok(bytes)
}
