//! What is seen of the steps of a port.

use amqp_engine::{Port, Step, Told};
use amqp_socket::MioPort;
use std::net::Net;
use std::time::Clock;

/// Which step it is, without the command that a step may own.
#[derive(Clone, Copy, PartialEq, Eq)]
pub enum Seen {
    Linked,
    LinkFailed,
    Piece(usize),
    End,
    Fault,
    Room,
    Tick,
    Command,
}

// Which step this is.
fn look_at(step: &Step) -> Seen {
    match step {
        Step::Linked => Seen::Linked,
        Step::LinkFailed => Seen::LinkFailed,
        Step::Piece(n) => Seen::Piece(*n),
        Step::End => Seen::End,
        Step::Fault => Seen::Fault,
        Step::Room => Seen::Room,
        Step::Tick => Seen::Tick,
        Step::Command(_) => Seen::Command,
    }
}

/// The moment of the next step, and which it is.
pub fn next_at<R: Net + Clock + Drop>(
    port: &mut MioPort<R>,
    space: &mut [u8; 4096],
) -> (u64, Seen) {
    let Told { at, step } = port.next(space);
    let seen = look_at(&step);
    drop(step);
    (at, seen)
}

/// Which the next step is.
pub fn next<R: Net + Clock + Drop>(port: &mut MioPort<R>, space: &mut [u8; 4096]) -> Seen {
    let (_at, seen) = next_at(port, space);
    seen
}
