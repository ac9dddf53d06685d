//! What is told of a link, from the asking to its end.

use crate::socket::seen::{Seen, next};
use amqp_engine::{Port, Wrote};
use amqp_socket::MioPort;
use std::alloc::Global;
use std::io::{self, Read, Write};
use std::net::{Net, OpenListener, SocketAddr};
use std::test::Fail;
use std::time::Clock;

// The next step that is no tick.
fn step<R: Net + Clock + Drop>(port: &mut MioPort<R>, space: &mut [u8; 4096]) -> Seen {
    for _ in 0..u64::MAX {
        let step = next(port, space);
        if step != Seen::Tick {
            return step;
        }
    }
    Seen::Tick
}

// Whether this is the next step that is no tick.
fn comes<R: Net + Clock + Drop>(port: &mut MioPort<R>, wanted: Seen) -> bool {
    let mut space = [0; 4096];
    step(port, &mut space) == wanted
}

// ---- links to a listener

// A port that has asked a listener for a link.
fn asking<R: Net + Clock + Copy + Drop>(
    rt: R,
    alloc: Global,
    listener: &R::Listener,
) -> io::Result<MioPort<R>> {
    let address = listener.local_addr()?;
    let (mut port, waker) = MioPort::new(rt, alloc, Some(address))?;
    port.connect();
    drop(waker);
    Ok(port)
}

// A listener, and a port that has asked it for a link.
fn asked<R: Net + Clock + Copy + Drop>(
    rt: R,
    alloc: Global,
) -> io::Result<(R::Listener, MioPort<R>)> {
    let listener = rt.bind(SocketAddr::from(([127, 0, 0, 1], 0)))?;
    match asking(rt, alloc, &listener) {
        Ok(port) => Ok((listener, port)),
        Err(why) => {
            drop(listener);
            Err(why)
        }
    }
}

// Whether a link takes octets to its other end, and what that end says is read.
fn carries<R: Net + Clock + Drop, S: Read + Write>(
    port: &mut MioPort<R>,
    peer: &mut S,
) -> io::Result<bool> {
    let took = port.write(b"AMQP", b"\0\0\x09\x01") == Wrote::Took(8);
    let mut header = [0; 8];
    peer.read_exact(&mut header)?;
    peer.write_all(b"hello")?;
    let mut space = [0; 4096];
    let piece = step(port, &mut space) == Seen::Piece(5) && space.starts_with(b"hello");
    Ok(took && header == *b"AMQP\0\0\x09\x01" && piece)
}

// Whether there is a link, which carries octets and ends as its other end does.
fn carries_and_ends<R: Net + Clock + Drop>(
    port: &mut MioPort<R>,
    listener: &R::Listener,
) -> io::Result<bool> {
    let linked = comes(port, Seen::Linked);
    let (mut peer, _address) = listener.accept()?;
    let carried = carries(port, &mut peer);
    drop(peer);
    let carried = carried?;
    let end = comes(port, Seen::End);
    Ok(linked && carried && end)
}

// The same of a new port and a new listener.
fn is_a_link<R: Net + Clock + Copy + Drop>(rt: R, alloc: Global) -> io::Result<bool> {
    let (listener, mut port) = asked(rt, alloc)?;
    let told = carries_and_ends(&mut port, &listener);
    drop(port);
    drop(listener);
    told
}

#[test]
fn a_link_is_read_and_written(rt: HostRuntime) -> Result<(), Fail> {
    assert!(rt; is_a_link(rt, rt.alloc())?);
    Ok(())
}

// Whether there is a link, which ends as its other end does.
fn ends<R: Net + Clock + Drop>(port: &mut MioPort<R>, listener: &R::Listener) -> io::Result<bool> {
    let linked = comes(port, Seen::Linked);
    let (peer, _address) = listener.accept()?;
    drop(peer);
    let end = comes(port, Seen::End);
    Ok(linked && end)
}

// Whether an octet is read that the other end of a link says.
fn hears_one<R: Net + Clock + Drop, S: Write>(
    port: &mut MioPort<R>,
    peer: &mut S,
) -> io::Result<bool> {
    peer.write_all(b"x")?;
    Ok(comes(port, Seen::Piece(1)))
}

// Whether there is a link, over which an octet is read.
fn reads<R: Net + Clock + Drop>(port: &mut MioPort<R>, listener: &R::Listener) -> io::Result<bool> {
    let linked = comes(port, Seen::Linked);
    let (mut peer, _address) = listener.accept()?;
    let heard = hears_one(port, &mut peer);
    drop(peer);
    let heard = heard?;
    Ok(linked && heard)
}

// Whether there is a link, and another once that has ended and is asked for again.
fn opens_twice<R: Net + Clock + Drop>(
    port: &mut MioPort<R>,
    listener: &R::Listener,
) -> io::Result<bool> {
    let first = ends(port, listener)?;
    port.connect();
    let second = reads(port, listener)?;
    Ok(first && second)
}

// The same of a new port and a new listener.
fn is_opened_again<R: Net + Clock + Copy + Drop>(rt: R, alloc: Global) -> io::Result<bool> {
    let (listener, mut port) = asked(rt, alloc)?;
    let told = opens_twice(&mut port, &listener);
    drop(port);
    drop(listener);
    told
}

#[test]
fn another_link_is_asked_for(rt: HostRuntime) -> Result<(), Fail> {
    assert!(rt; is_opened_again(rt, rt.alloc())?);
    Ok(())
}

// ---- links to nobody

// Whether a link that is asked for fails.
fn fails<R: Net + Clock + Drop>(port: &mut MioPort<R>) -> bool {
    port.connect();
    comes(port, Seen::LinkFailed)
}

// An address that a listener has given up: nobody listens there.
fn given_up<R: Net + Clock + Copy + Drop>(rt: R, alloc: Global) -> io::Result<SocketAddr> {
    let (listener, port) = asked(rt, alloc)?;
    let address = listener.local_addr();
    drop(listener);
    drop(port);
    address
}

// Whether a link to nobody fails, and so does another that is asked for.
fn is_refused<R: Net + Clock + Copy + Drop>(rt: R, alloc: Global) -> io::Result<bool> {
    let address = given_up(rt, alloc)?;
    let (mut port, waker) = MioPort::new(rt, alloc, Some(address))?;
    let refused = fails(&mut port) && fails(&mut port);
    drop(port);
    drop(waker);
    Ok(refused)
}

#[test]
fn a_link_to_nobody_fails(rt: HostRuntime) -> Result<(), Fail> {
    assert!(rt; is_refused(rt, rt.alloc())?);
    Ok(())
}

// Whether a link of a port without an address fails.
fn has_no_link<R: Net + Clock + Copy + Drop>(rt: R, alloc: Global) -> io::Result<bool> {
    let (mut port, waker) = MioPort::new(rt, alloc, None)?;
    let failed = fails(&mut port);
    drop(port);
    drop(waker);
    Ok(failed)
}

#[test]
fn a_link_to_no_address_fails(rt: HostRuntime) -> Result<(), Fail> {
    assert!(rt; has_no_link(rt, rt.alloc())?);
    Ok(())
}
