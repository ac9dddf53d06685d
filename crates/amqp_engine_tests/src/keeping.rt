//! What an engine is kept as stands as it does.

use crate::story::{CLOSED, GOES_ON, Line, tell};
use crate::support::{HANDSHAKE, Happens, Outcome};
use amqp_engine::{IoLoop, KeptLoop};
use amqp_ring::Buffer;
use amqp_session::Session;
use amqp_types::NoMemory;

// Whether two sessions stand alike, as far as is seen of them without taking anything.
fn are_alike(first: &Session, second: &Session) -> bool {
    first.state() == second.state()
        && first.listed() == second.listed()
        && first.promises() == second.promises()
        && first.waiting() == second.waiting()
        && first.unsent() == second.unsent()
        && first.has_ended() == second.has_ended()
}

// Whether a buffer keeps these octets.
fn keeps(buffer: &Buffer, octets: &[u8]) -> bool {
    let (first, second) = buffer.slices();
    first.len().saturating_add(second.len()) == octets.len()
        && octets.starts_with(first)
        && octets.ends_with(second)
}

// Whether an engine is kept as this.
fn stands_as(kept: &KeptLoop, engine: &IoLoop) -> bool {
    are_alike(kept.session(), engine.session())
        && keeps(engine.received(), kept.unread())
        && keeps(engine.unsent(), kept.unsent())
        && kept.starved() == engine.starved()
}

// Whether the copy of what an engine is kept as stands as it does.
fn copy_stands_as(kept: &KeptLoop, engine: &IoLoop) -> Result<bool, NoMemory> {
    let copy = kept.try_clone()?;
    let same = stands_as(&copy, engine) && copy.place() == kept.place();
    drop(copy);
    Ok(same)
}

/// Whether what an engine is kept as, and a copy of that, stand as it does.
pub fn is_kept(engine: &IoLoop) -> bool {
    match engine.snapshot() {
        Ok(kept) => {
            let same = stands_as(&kept, engine) && copy_stands_as(&kept, engine) == Ok(true);
            drop(kept);
            same
        }
        Err(_) => false,
    }
}

// The head of start is unread, and the last octet of the header is unsent.
#[test]
fn octets_that_wait_are_kept(rt: HostRuntime) -> Outcome<()> {
    const SCRIPT: &[Happens] = &[Happens::Link(Some(7)), Happens::Bytes("01 0000 00000061")];
    const STORY: &[Line] = &[
        Line::IsKept,
        Line::Run(2, GOES_ON),
        Line::Keeps(131_072, 7, 1),
        Line::IsKept,
    ];
    tell(&rt, rt.alloc(), SCRIPT, STORY)
}

#[test]
fn an_end_is_kept(rt: HostRuntime) -> Outcome<()> {
    const STORY: &[Line] = &[
        Line::Run(4, GOES_ON),
        Line::IsKept,
        Line::Run(2, CLOSED),
        Line::IsKept,
    ];
    tell(&rt, rt.alloc(), HANDSHAKE, STORY)
}
