//! Connecting to the first of several addresses that is reached.

use amqp_session::ConnectionProperties;
use amqp_uri::AMQPUri;
use amqp_vectors::{OPEN_OK, START, TUNE, push_octets};
use lapin_connection::{Cause, Connection, MioSpawner, Unreached};
use std::alloc::Global;
use std::io::{Read, Write};
use std::net::{Net, OpenListener, SocketAddr, TcpListener, TcpStream};
use std::sync::Wait;
use std::test::Fail;
use std::thread::{self, Threads};
use std::time::Clock;

/// No port that is listened to, since port 0 is none.
const NOBODY: &str = "amqp://127.0.0.1:0";

/// A host that is no literal.
const NAME: &str = "amqp://broker.example";

// What opens a connection, whatever its client says.
fn said(alloc: Global) -> Result<Vec<u8>, Fail> {
    let mut said = Vec::new(alloc);
    push_octets(&mut said, START)?;
    push_octets(&mut said, TUNE)?;
    push_octets(&mut said, OPEN_OK)?;
    Ok(said)
}

// Says this to a client, and reads until that goes.
fn serve(listener: &TcpListener, said: &[u8]) {
    let mut space = [0; 4096];
    match listener.accept() {
        Ok((mut peer, _address)) => {
            drop(peer.write_all(said));
            for _ in 0..1_000_000 {
                match peer.read(&mut space) {
                    Ok(0) => break,
                    Ok(_) => {}
                    Err(error) => {
                        drop(error);
                        break;
                    }
                }
            }
            drop(peer);
        }
        Err(error) => drop(error),
    }
}

// The address of a listener.
fn address_of<L: OpenListener>(alloc: Global, listener: &L) -> Result<String, Fail> {
    let address = listener.local_addr()?;
    Ok(format!(in alloc; "amqp://127.0.0.1:{}", address.port())?)
}

// The address of a server that opens a connection, on a thread of its own.
fn server<R: Net<Listener = TcpListener, Stream = TcpStream> + Threads>(
    rt: &R,
    alloc: Global,
) -> Result<String, Fail> {
    let said = said(alloc)?;
    let listener = rt.bind(SocketAddr::from(([127, 0, 0, 1], 0)))?;
    let address = address_of(alloc, &listener)?;
    drop(thread::spawn(rt, move || {
        serve(&listener, &said);
        drop(listener);
        drop(said);
    })?);
    Ok(address)
}

// The addresses of these texts.
fn addresses(alloc: Global, texts: &[&str]) -> Result<Vec<AMQPUri>, Fail> {
    let mut uris = Vec::new(alloc);
    for text in texts {
        match AMQPUri::parse(alloc, text) {
            Ok(uri) => uris.push(uri)?,
            Err(fault) => drop(fault),
        }
    }
    Ok(uris)
}

// What connecting to the first of these gives.
fn reach<R>(rt: R, alloc: Global, uris: &[AMQPUri]) -> Result<Connection, Unreached>
where
    R: Net<Listener = TcpListener, Stream = TcpStream>
        + Threads
        + Wait
        + Clock
        + Copy
        + Send
        + Drop
        + 'static,
{
    let mut runtime = MioSpawner::new(rt, alloc);
    let reached = Connection::connect_any(
        rt,
        alloc,
        uris,
        move || Ok(ConnectionProperties::new(alloc)?),
        &mut runtime,
    );
    drop(runtime);
    reached
}

// Which was tried last and why it failed, where none of these is reached; nothing where one is, and is open.
fn unreached<R>(
    rt: R,
    alloc: Global,
    texts: &[&str],
) -> Result<Option<(Option<usize>, Cause)>, Fail>
where
    R: Net<Listener = TcpListener, Stream = TcpStream>
        + Threads
        + Wait
        + Clock
        + Copy
        + Send
        + Drop
        + 'static,
{
    let uris = addresses(alloc, texts)?;
    let reached = reach(rt, alloc, &uris);
    drop(uris);
    match reached {
        Ok(connection) => {
            let _told = connection.abandon();
            drop(connection.run(&rt));
            Ok(None)
        }
        Err(why) => {
            let (last, cause) = (why.last, why.cause);
            drop(why);
            Ok(Some((last, cause)))
        }
    }
}

#[test]
fn the_last_that_was_not_reached_is_told(rt: HostRuntime) -> Result<(), Fail> {
    let alloc = rt.alloc();
    assert!(rt; unreached(rt, alloc, &[])? == Some((None, Cause::Nothing)));
    assert!(rt; unreached(rt, alloc, &[NOBODY])? == Some((Some(0), Cause::Refused)));
    assert!(rt; unreached(rt, alloc, &[NOBODY, NAME])? == Some((Some(1), Cause::NoAddress)));
    Ok(())
}

// Whether a server is reached that stands behind one that accepts and says nothing.
fn reaches_behind<R>(rt: R, alloc: Global) -> Result<bool, Fail>
where
    R: Net<Listener = TcpListener, Stream = TcpStream>
        + Threads
        + Wait
        + Clock
        + Copy
        + Send
        + Drop
        + 'static,
{
    let open = server(&rt, alloc)?;
    let silent = rt.bind(SocketAddr::from(([127, 0, 0, 1], 0)))?;
    let closed = address_of(alloc, &silent)?;
    let reached = unreached(rt, alloc, &[closed.as_str(), open.as_str()]);
    drop(silent);
    Ok(reached?.is_none())
}

#[test]
fn one_that_is_silent_is_left_for_the_next(rt: HostRuntime) -> Result<(), Fail> {
    assert!(rt; reaches_behind(rt, rt.alloc())?);
    Ok(())
}
