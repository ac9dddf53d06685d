//! Ticks, room and nudges.

use crate::socket::seen::{self, Seen};
use amqp_engine::{Port, Wrote};
use amqp_socket::MioPort;
use mio::Waker;
use std::alloc::Global;
use std::io::{self, Read, Write};
use std::net::{Net, OpenListener, SocketAddr};
use std::test::Fail;
use std::time::{Clock, Duration};

// The next step.
fn next<R: Net + Clock + Drop>(port: &mut MioPort<R>) -> Seen {
    let mut space = [0; 4096];
    seen::next(port, &mut space)
}

// Takes steps until there is a link.
fn wait_for_a_link<R: Net + Clock + Drop>(port: &mut MioPort<R>) {
    for _ in 0..100 {
        if next(port) == Seen::Linked {
            return;
        }
    }
}

// Takes steps until time has passed.
fn wait_for_a_tick<R: Net + Clock + Drop>(port: &mut MioPort<R>) {
    for _ in 0..100 {
        if next(port) == Seen::Tick {
            return;
        }
    }
}

// A link to a listener of both ends, and what ends the wait of the port.
fn linked_to<R: Net + Clock + Copy + Drop>(
    rt: R,
    alloc: Global,
    listener: &R::Listener,
) -> io::Result<(R::Stream, MioPort<R>, Waker)> {
    let address = listener.local_addr()?;
    let (mut port, waker) = MioPort::new(rt, alloc, Some(address))?;
    port.connect();
    wait_for_a_link(&mut port);
    match listener.accept() {
        Ok((peer, _address)) => Ok((peer, port, waker)),
        Err(why) => {
            drop(port);
            drop(waker);
            Err(why)
        }
    }
}

// The same, with a listener that is then let go.
fn linked<R: Net + Clock + Copy + Drop>(
    rt: R,
    alloc: Global,
) -> io::Result<(R::Stream, MioPort<R>, Waker)> {
    let listener = rt.bind(SocketAddr::from(([127, 0, 0, 1], 0)))?;
    let linked = linked_to(rt, alloc, &listener);
    drop(listener);
    linked
}

// ---- ticks

// How many ticks come in two seconds in which the server always has something to say.
fn ticks_of<R: Net + Clock + Drop, S: Write>(
    rt: &R,
    port: &mut MioPort<R>,
    peer: &mut S,
) -> io::Result<u32> {
    let mut ticks: u32 = 0;
    let begin = rt.monotonic()?.as_millis();
    for _ in 0..10_000_000 {
        peer.write_all(b"x")?;
        if next(port) == Seen::Tick {
            ticks = ticks.saturating_add(1);
        }
        if rt.monotonic()?.as_millis() > begin.saturating_add(2000) {
            break;
        }
    }
    Ok(ticks)
}

// The same over a new link.
fn ticks<R: Net + Clock + Copy + Drop>(rt: R, alloc: Global) -> io::Result<u32> {
    let (mut peer, mut port, waker) = linked(rt, alloc)?;
    let ticks = ticks_of(&rt, &mut port, &mut peer);
    drop(waker);
    drop(port);
    drop(peer);
    ticks
}

#[test]
fn time_passes_while_a_server_talks(rt: HostRuntime) -> Result<(), Fail> {
    let ticks = ticks(rt, rt.alloc())?;
    assert!(rt; 3 <= ticks && ticks <= 5);
    Ok(())
}

// Where nothing was asked for longer than a tick takes, what was received meanwhile goes before the tick,
// and one step of it alone.
fn hears_first<R: Net + Clock + Drop, S: Write>(
    rt: &R,
    port: &mut MioPort<R>,
    peer: &mut S,
) -> io::Result<bool> {
    wait_for_a_tick(port);
    peer.write_all(&[7; 5000])?;
    rt.sleep(Duration::from_millis(1200));
    let heard = next(port) == Seen::Piece(4096);
    let ticks = next(port) == Seen::Tick;
    Ok(heard && ticks && next(port) == Seen::Piece(904))
}

// The same over a new link.
fn is_heard_first<R: Net + Clock + Copy + Drop>(rt: R, alloc: Global) -> io::Result<bool> {
    let (mut peer, mut port, waker) = linked(rt, alloc)?;
    let told = hears_first(&rt, &mut port, &mut peer);
    drop(waker);
    drop(port);
    drop(peer);
    told
}

#[test]
fn what_was_received_goes_before_a_late_tick(rt: HostRuntime) -> Result<(), Fail> {
    assert!(rt; is_heard_first(rt, rt.alloc())?);
    Ok(())
}

// Where the turn of each step takes longer than a tick, what was received goes before the tick again, but
// four steps at most.
fn hears_again<R: Net + Clock + Drop, S: Write>(
    rt: &R,
    port: &mut MioPort<R>,
    peer: &mut S,
) -> io::Result<bool> {
    wait_for_a_tick(port);
    peer.write_all(&[7; 20_480])?;
    for _ in 0..4 {
        rt.sleep(Duration::from_millis(600));
        if next(port) != Seen::Piece(4096) {
            return Ok(false);
        }
    }
    rt.sleep(Duration::from_millis(600));
    let ticks = next(port) == Seen::Tick;
    Ok(ticks && next(port) == Seen::Piece(4096))
}

// The same over a new link.
fn is_heard_again<R: Net + Clock + Copy + Drop>(rt: R, alloc: Global) -> io::Result<bool> {
    let (mut peer, mut port, waker) = linked(rt, alloc)?;
    let told = hears_again(&rt, &mut port, &mut peer);
    drop(waker);
    drop(port);
    drop(peer);
    told
}

#[test]
fn what_was_received_goes_first_while_turns_are_late(rt: HostRuntime) -> Result<(), Fail> {
    assert!(rt; is_heard_again(rt, rt.alloc())?);
    Ok(())
}

// ---- room

// Writes until a part is taken: how many octets were.
fn fill<R: Net + Clock + Drop>(port: &mut MioPort<R>) -> usize {
    let octets = [7; 65536];
    let mut taken: usize = 0;
    for _ in 0..10_000 {
        match port.write(&octets, &octets) {
            Wrote::Took(n) => {
                taken = taken.saturating_add(n);
                if n < 131_072 {
                    return taken;
                }
            }
            _ => return taken,
        }
    }
    taken
}

// Reads so many octets.
fn read_all<S: Read>(peer: &mut S, octets: usize) -> io::Result<()> {
    let mut read: usize = 0;
    let mut buffer = [0; 65536];
    for _ in 0..1_000_000 {
        if read >= octets {
            return Ok(());
        }
        let n = peer.read(&mut buffer)?;
        if n == 0 {
            return Err(io::Error::from(io::ErrorKind::UnexpectedEof));
        }
        read = read.saturating_add(n);
    }
    Ok(())
}

// Whether room comes next, after one tick at most.
fn room_comes<R: Net + Clock + Drop>(port: &mut MioPort<R>) -> bool {
    let mut ticks: u32 = 0;
    for _ in 0..10 {
        match next(port) {
            Seen::Room => return ticks <= 1,
            Seen::Tick => ticks = ticks.saturating_add(1),
            _ => return false,
        }
    }
    false
}

// Whether a write of which a part was taken is followed by room, once the server has read, and before the
// next tick.
fn room_follows<R: Net + Clock + Drop, S: Read>(
    port: &mut MioPort<R>,
    peer: &mut S,
) -> io::Result<bool> {
    let taken = fill(port);
    read_all(peer, taken)?;
    Ok(room_comes(port))
}

// The same over a new link.
fn has_room_again<R: Net + Clock + Copy + Drop>(rt: R, alloc: Global) -> io::Result<bool> {
    let (mut peer, mut port, waker) = linked(rt, alloc)?;
    let told = room_follows(&mut port, &mut peer);
    drop(waker);
    drop(port);
    drop(peer);
    told
}

#[test]
fn there_is_room_after_a_part_was_taken(rt: HostRuntime) -> Result<(), Fail> {
    assert!(rt; has_room_again(rt, rt.alloc())?);
    Ok(())
}

// Where a nudge, room and octets came together, the nudge is a tick; and where the turn of that tick takes
// longer than a tick, what was received goes before the next, and room after it.
fn hears_before_room<R: Net + Clock + Drop, S: Read + Write>(
    rt: &R,
    port: &mut MioPort<R>,
    peer: &mut S,
    waker: &Waker,
) -> io::Result<bool> {
    wait_for_a_tick(port);
    let taken = fill(port);
    read_all(peer, taken)?;
    peer.write_all(&[7; 5000])?;
    rt.sleep(Duration::from_millis(20));
    waker.wake()?;
    let nudged = next(port) == Seen::Tick;
    rt.sleep(Duration::from_millis(1200));
    let heard = next(port) == Seen::Piece(4096);
    let ticks = next(port) == Seen::Tick;
    let room = next(port) == Seen::Room;
    Ok(nudged && heard && ticks && room && next(port) == Seen::Piece(904))
}

// The same over a new link.
fn is_heard_before_room<R: Net + Clock + Copy + Drop>(rt: R, alloc: Global) -> io::Result<bool> {
    let (mut peer, mut port, waker) = linked(rt, alloc)?;
    let told = hears_before_room(&rt, &mut port, &mut peer, &waker);
    drop(waker);
    drop(port);
    drop(peer);
    told
}

#[test]
fn what_was_received_goes_before_room_and_a_late_tick(rt: HostRuntime) -> Result<(), Fail> {
    assert!(rt; is_heard_before_room(rt, rt.alloc())?);
    Ok(())
}

// ---- nudges

// A nudge ends a wait at once.
fn nudge_ends_wait<R: Net + Clock + Drop>(
    port: &mut MioPort<R>,
    waker: &Waker,
) -> io::Result<bool> {
    let mut space = [0; 4096];
    let (before, _step) = seen::next_at(port, &mut space);
    waker.wake()?;
    let (at, step) = seen::next_at(port, &mut space);
    Ok(step == Seen::Tick && at.saturating_sub(before) < 400)
}

// The same over a new link.
fn is_nudged<R: Net + Clock + Copy + Drop>(rt: R, alloc: Global) -> io::Result<bool> {
    let (peer, mut port, waker) = linked(rt, alloc)?;
    let told = nudge_ends_wait(&mut port, &waker);
    drop(waker);
    drop(port);
    drop(peer);
    told
}

#[test]
fn a_nudge_ends_a_wait(rt: HostRuntime) -> Result<(), Fail> {
    assert!(rt; is_nudged(rt, rt.alloc())?);
    Ok(())
}
