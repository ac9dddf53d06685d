//! The addresses of a host by its name.

ghost use Rattle.std.specs.Prelude.{◌≡◌, All, IfOk, OnOk};
ghost use Rattle.amqp_socket.specs.Resolved.{IsAt};

use crate::address::address_of;
use amqp_types::{NoMemory, Text};
use amqp_uri::{AMQPAuthority, AMQPUri};
use std::alloc::Global;
use std::io;
use std::net::{IpAddr, Net, ToSocketAddrs};

/// Each address of the host of an AMQP address, as that AMQP address with the literal in place of the name, in
/// the order in which the system has them. A literal stays as it is. `localhost` is 127.0.0.1, whatever its
/// case. It waits for as long as the system takes to look the name up.
pub fn resolved<R: Net>(rt: &R, alloc: Global, uri: &AMQPUri) -> io::Result<Vec<AMQPUri>>
    ensures { IfOk result (λ uris. All (IsAt uri.now) uris.items) }
{
    let host = uri.authority.host.as_str();
    let port = uri.authority.port;
    let mut uris = Vec::new(alloc);
    if address_of(host, port).is_some() {
        keep(&mut uris, uri, uri.try_clone(alloc))?;
        return Ok(uris);
    }
    if host.eq_ignore_ascii_case("localhost") {
        keep(&mut uris, uri, at_host(alloc, uri, "127.0.0.1"))?;
        return Ok(uris);
    }
    'found: for address in (host, port).to_socket_addrs(rt)? {
        keep(&mut uris, uri, at(alloc, uri, address.ip()))?;
    }
    Ok(uris)
}

// Keeps one address more, where there is one.
fn keep(uris: &mut Vec<AMQPUri>, uri: &AMQPUri, made: Result<AMQPUri, NoMemory>) -> io::Result<()>
    requires made { IfOk made (IsAt uri.now) }
    requires kept { All (IsAt uri.now) uris.old.items }
    ensures { OnOk result (All (IsAt uri.now) uris.new.items) }
{
    let _wanted = uri.authority.port;
    match made {
        Ok(uri) => Ok(uris.push(uri)?),
        Err(NoMemory) => Err(io::Error::from(io::ErrorKind::OutOfMemory)),
    }
}

// An AMQP address, with this address of IP as its host.
fn at(alloc: Global, uri: &AMQPUri, ip: IpAddr) -> Result<AMQPUri, NoMemory>
    ensures { IfOk result (IsAt uri.now) }
{
    let mut host = String::new(alloc);
    let written = match ip {
        IpAddr::V4(ip) => write!(host, "{ip}"),
        IpAddr::V6(ip) => write!(host, "[{ip}]"),
    };
    if written.is_err() {
        drop(host);
        return Err(NoMemory);
    }
    at_host(alloc, uri, &host)
}

// An AMQP address, with this host.
fn at_host(alloc: Global, uri: &AMQPUri, host: &str) -> Result<AMQPUri, NoMemory>
    ensures at { IfOk result (IsAt uri.now) }
    ensures host { IfOk result (λ u. u.authority.host ≡ host.now) }
{
    let text = Text::new(alloc, host)?;
    let AMQPUri {
        vhost,
        authority,
        query,
    } = uri.try_clone(alloc)?;
    let AMQPAuthority {
        userinfo,
        host: name,
        port,
    } = authority;
    drop(name);
    Ok(AMQPUri {
        vhost,
        authority: AMQPAuthority {
            userinfo,
            host: text,
            port,
        },
        query,
    })
}
