//! Which hosts have an address.

use std::net::{IpAddr, Ipv4Addr, SocketAddr};

/// The address of a host: of one that is the literal of an address of IP, where one of IPv6 stands in
/// brackets as in an address of AMQP, and of `localhost`, which is 127.0.0.1. No other name is looked up.
pub fn address_of(host: &str, port: u16) -> Option<SocketAddr> {
    if host == "localhost" {
        return Some(SocketAddr::new(IpAddr::V4(Ipv4Addr::LOCALHOST), port));
    }
    match bare(host).parse::<IpAddr>() {
        Ok(address) => Some(SocketAddr::new(address, port)),
        Err(_) => None,
    }
}

// A host without the brackets around it.
fn bare(host: &str) -> &str {
    match host.strip_prefix('[') {
        Some(rest) => rest.strip_suffix(']').unwrap_or(host),
        None => host,
    }
}
