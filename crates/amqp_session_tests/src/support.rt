//! Providers, and what tests are made of.
//!
//! An owned enum is let go by `drop`, and never where a scope ends or a `?` returns: there the check
//! goes through each of its variants, which takes seconds at each such place.

use amqp_session::{DefaultAuthProvider, Refusal};
use amqp_types::{LongString, NoMemory, Text};
use amqp_uri::AMQPUri;
use std::alloc::Global;
use std::test::Fail;

/// What a test answers, and what it is made of.
pub type Outcome<T> = Result<T, Fail>;

/// The provider of an address.
pub fn provider_of(alloc: Global, address: &str) -> Outcome<DefaultAuthProvider> {
    let parsed = AMQPUri::parse(alloc, address);
    match parsed {
        Ok(uri) => {
            let made = DefaultAuthProvider::new(alloc, &uri);
            drop(uri);
            Ok(made?)
        }
        Err(_) => Err("no address")?,
    }
}

/// These octets as a long string.
pub fn long(alloc: Global, octets: &[u8]) -> Result<LongString, NoMemory> {
    match LongString::new(alloc, octets) {
        Ok(text) => Ok(text),
        Err(_) => Err(NoMemory),
    }
}

/// A new token.
pub fn new_token(alloc: Global) -> Result<LongString, Refusal> {
    Ok(long(alloc, b"my new valid token")?)
}

/// There is no token.
pub fn no_token(alloc: Global) -> Result<LongString, Refusal> {
    Err(Refusal::Said(Text::new(alloc, "no token today")?))
}
