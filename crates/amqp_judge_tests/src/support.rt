//! Octets of texts.

use amqp_types::NoMemory;
use amqp_vectors::push_octets;
use std::alloc::Global;

/// The octets of texts in hexadecimal, one after another.
pub fn octets(alloc: Global, texts: &[&str]) -> Result<Vec<u8>, NoMemory> {
    let mut bytes = Vec::new(alloc);
    for text in texts {
        push_octets(&mut bytes, text)?;
    }
    Ok(bytes)
}
