//! Turns that are taken by hand, and ports that are loaded anew.

use crate::story::{CLOSED, GOES_ON, Line, tell, wrong_line_over};
use crate::support::{HANDSHAKE, Happens, Outcome, port, steps};
use amqp_engine::{MemoryPort, ScriptedPort};
use amqp_vectors::HEADER;
use std::alloc::Global;

#[test]
fn turns_by_hand(rt: HostRuntime) -> Outcome<()> {
    const STORY: &[Line] = &[
        Line::Ask,
        Line::IsAsked,
        Line::ApplyNext(&[8]),
        Line::Took(&[HEADER]),
        Line::Close(1),
        Line::Refuses(1, "invalid connection state: Connecting"),
    ];
    tell(&rt, rt.alloc(), &[Happens::Link(None)], STORY)
}

// Whether a port that is loaded after a whole conversation begins anew.
fn begins_anew(alloc: Global, port: &mut MemoryPort) -> Outcome<bool> {
    let first = wrong_line_over(alloc, port, &[Line::Run(6, CLOSED)])?;
    port.load(steps(alloc, &[Happens::Link(None)])?)?;
    let story = [Line::Links(0), Line::Run(3, GOES_ON), Line::Took(&[HEADER])];
    let second = wrong_line_over(alloc, port, &story)?;
    Ok(first.is_none() && second.is_none())
}

#[test]
fn a_loaded_port_begins_anew(rt: HostRuntime) -> Outcome<()> {
    let alloc = rt.alloc();
    let mut port = port(alloc, &HANDSHAKE)?;
    let anew = begins_anew(alloc, &mut port);
    drop(port);
    assert!(rt; anew?);
    Ok(())
}
