//! Which hosts have an address.

use amqp_socket::address_of;
use std::net::{Ipv4Addr, Ipv6Addr, SocketAddr};
use std::test::Fail;

fn is_of(host: &str, wanted: SocketAddr) -> bool {
    address_of(host, 5672) == Some(wanted)
}

#[test]
fn literals_and_localhost_have_one(rt: HostRuntime) -> Result<(), Fail> {
    let here = SocketAddr::from((Ipv4Addr::LOCALHOST, 5672));
    let there = SocketAddr::from((Ipv6Addr::LOCALHOST, 5672));
    assert!(rt; is_of("localhost", here) && is_of("127.0.0.1", here));
    assert!(rt; is_of("[::1]", there) && is_of("::1", there));
    Ok(())
}

/// Hosts that are no literal of an address, nor `localhost`.
const OTHERS: &[&str] = &[
    "LOCALHOST",
    "broker.example",
    "",
    "[::1",
    "127.0.0",
    "[127.0.0.1",
];

#[test]
fn other_names_have_none(rt: HostRuntime) -> Result<(), Fail> {
    for host in OTHERS {
        assert!(rt; address_of(host, 5672).is_none());
    }
    Ok(())
}
