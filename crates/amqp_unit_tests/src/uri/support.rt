//! Addresses as rows name them. An address is let go by `drop`, so that it stands in no assert.

use amqp_types::NoMemory;
use amqp_uri::{AMQPQuery, AMQPUri, UriFault};
use std::alloc::Global;

/// What is read of an address but for its query: virtual host, user, password, host and port.
pub type Parts = (&'static str, &'static str, &'static str, &'static str, u16);

fn has(uri: &AMQPUri, parts: Parts) -> bool {
    let (vhost, username, password, host, port) = parts;
    let userinfo = &uri.authority.userinfo;
    uri.vhost.as_bytes() == vhost.as_bytes()
        && userinfo.username.as_str() == username
        && userinfo.password.as_str() == password
        && uri.authority.host.as_str() == host
        && uri.authority.port == port
}

/// Whether the text is an address of these parts, where memory for it was found.
pub fn reads(alloc: Global, text: &str, parts: Parts) -> Result<bool, NoMemory> {
    match AMQPUri::parse(alloc, text) {
        Ok(uri) => {
            let same = has(&uri, parts);
            drop(uri);
            Ok(same)
        }
        Err(UriFault::NoMemory) => Err(NoMemory),
        Err(_) => Ok(false),
    }
}

/// Whether the text is an address of these parts.
pub fn is_read(alloc: Global, text: &str, parts: Parts) -> bool {
    reads(alloc, text, parts) == Ok(true)
}

/// Whether the local address has these parts, and wishes nothing.
pub fn is_local(alloc: Global, parts: Parts) -> bool {
    match AMQPUri::local(alloc) {
        Ok(uri) => {
            let same = has(&uri, parts) && uri.query == AMQPQuery::default();
            drop(uri);
            same
        }
        Err(NoMemory) => false,
    }
}

/// What an address wishes, or why it is none.
pub fn query(alloc: Global, text: &str) -> Result<AMQPQuery, UriFault> {
    match AMQPUri::parse(alloc, text) {
        Ok(uri) => {
            let query = uri.query;
            drop(uri);
            Ok(query)
        }
        Err(fault) => Err(fault),
    }
}

/// Whether two texts are the same address, by its equality.
pub fn are_same(alloc: Global, one: &str, other: &str) -> Result<bool, UriFault> {
    let one = AMQPUri::parse(alloc, one)?;
    match AMQPUri::parse(alloc, other) {
        Ok(other) => {
            let same = one == other;
            drop(one);
            drop(other);
            Ok(same)
        }
        Err(fault) => {
            drop(one);
            Err(fault)
        }
    }
}

/// Whether an address is shown so for programmers.
pub fn is_shown(alloc: Global, text: &str, wanted: &str) -> bool {
    match AMQPUri::parse(alloc, text) {
        Ok(uri) => {
            let shown = format!(in alloc; "{uri:?}");
            drop(uri);
            match shown {
                Ok(shown) => shown.as_str() == wanted,
                Err(_) => false,
            }
        }
        Err(_) => false,
    }
}
