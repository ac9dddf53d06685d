//! Copies of addresses.

use amqp_types::NoMemory;
use amqp_uri::{AMQPUri, UriFault};
use std::alloc::Global;

// Whether a copy is there, and equal. It takes the copy.
fn is<T: PartialEq + Drop>(copy: Result<T, NoMemory>, value: &T) -> bool {
    match copy {
        Ok(copy) => {
            let same = copy == *value;
            drop(copy);
            same
        }
        Err(NoMemory) => false,
    }
}

// Whether the copies of an address, of its authority, and of its user and password are equal.
fn is_copied(alloc: Global, uri: &AMQPUri) -> bool {
    let authority = &uri.authority;
    is(uri.try_clone(alloc), uri)
        && is(authority.try_clone(), authority)
        && is(authority.userinfo.try_clone(), &authority.userinfo)
}

fn of_this_text(alloc: Global, text: &str) -> Result<bool, UriFault> {
    let uri = AMQPUri::parse(alloc, text)?;
    let copied = is_copied(alloc, &uri);
    drop(uri);
    Ok(copied)
}

const LONG: &str = "amqp://bob:hunter@h:5673/vh?heartbeat=60&auth_mechanism=external";

#[test]
fn copies_are_equal(rt: HostRuntime) {
    assert!(rt; of_this_text(rt.alloc(), LONG) == Ok(true));
    assert!(rt; of_this_text(rt.alloc(), "amqp:") == Ok(true));
}
