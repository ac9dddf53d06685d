//! What a session is made from: an address, and what its user says of the client.

use crate::support::Outcome;
use amqp_session::{ConnectionProperties, initial_capacity};
use amqp_uri::AMQPUri;
use std::alloc::Global;

// Whether the capacity of an address is that of a session made from it.
fn is_initial(alloc: Global, text: &str, capacity: u64) -> bool {
    let Ok(uri) = AMQPUri::parse(alloc, text) else {
        return false;
    };
    let same = initial_capacity(&uri) == capacity;
    drop(uri);
    same
}

#[test]
fn a_capacity_is_known_beforehand(rt: HostRuntime) -> Outcome<()> {
    assert!(rt; is_initial(rt.alloc(), "amqp://h?frame_max=8192", 262_144));
    Ok(())
}

// Of two providers the second takes the place of the first, and is handed out again.
#[test]
fn a_provider_takes_the_place_of_another(rt: HostRuntime) -> Outcome<()> {
    let options = ConnectionProperties::new(rt.alloc())?.with_auth_provider(false);
    let (options, handed) = options.with_auth_provider(7u64).into_parts();
    drop(options);
    assert!(rt; handed.into_provider() == 7);
    Ok(())
}
