//! Scripts, and the ports that play them.
//!
//! An owned enum is let go by `drop`, and never where a scope ends or a `?` returns: there the check
//! goes through each of its variants, which takes seconds at each such place.

ghost use Rattle.std.specs.Prelude.{◌≤◌, length, IfOk};
ghost use Rattle.amqp_engine.specs.Plan.{IsGivenPiece, ArePieces};

use amqp_engine::{Given, GivenStep, MemoryPort, ScriptedPort};
use amqp_session::{Cmd, Error};
use amqp_types::{Payload, ShortString};
use amqp_vectors::{CLOSE_OK, OPEN_OK, START, TUNE, octets_of, push_octets};
use std::alloc::Global;
use std::test::Fail;

/// What a test answers, and what it is made of.
pub type Outcome<T> = Result<T, Fail>;

// ---- scripts

/// What happens at a port. Bytes are a text in hexadecimal.
#[derive(Clone, Copy)]
pub enum Happens {
    /// A link is there, with room for so many bytes or for all.
    Link(Option<u64>),
    /// The link is refused.
    Refuse,
    /// A piece is received.
    Bytes(&'static str),
    /// The same, a piece for each byte.
    EachByte(&'static str),
    /// So many bytes more are taken.
    Room(u64),
    /// One byte more is taken, so many times.
    EachRoom(u64),
    /// Time passes.
    Tick,
    /// The input of the link ends.
    End,
    /// Reading fails.
    Fault,
    /// The next write fails.
    WriteFail,
    /// We open a channel.
    Open,
    /// We close the connection.
    Close,
}

/// A handshake and our close.
pub const HANDSHAKE: &[Happens] = &[
    Happens::Link(None),
    Happens::Bytes(START),
    Happens::Bytes(TUNE),
    Happens::Bytes(OPEN_OK),
    Happens::Close,
    Happens::Bytes(CLOSE_OK),
];

/// Our close of the connection.
pub fn our_close(alloc: Global) -> Outcome<Cmd> {
    let text = ShortString::new(alloc, b"OK")?;
    Ok(Cmd::CloseConnection(200, text))
}

// A step goes last.
fn push(steps: &mut Vec<Given>, what: GivenStep) -> Outcome<()>
    requires piece { IsGivenPiece what }
    requires before { ArePieces steps.old.items }
    ensures { ArePieces steps.new.items }
{
    steps.push(Given { at: 0, what })?;
    Ok(())
}

// A piece goes last.
fn push_piece(alloc: Global, steps: &mut Vec<Given>, bytes: &[u8]) -> Outcome<()>
    requires { ArePieces steps.old.items }
    ensures { ArePieces steps.new.items }
{
    if bytes.is_empty() || bytes.len() > 4096 {
        return Err("no piece")?;
    }
    let payload = Payload::new(alloc, bytes)?;
    push(steps, GivenStep::Bytes(payload))
}

// A piece for each byte goes last.
fn push_each(alloc: Global, steps: &mut Vec<Given>, bytes: &[u8]) -> Outcome<()>
    requires { ArePieces steps.old.items }
    ensures { ArePieces steps.new.items }
{
    'bytes: for byte in bytes {
        push_piece(alloc, steps, &[*byte])?;
    }
    Ok(())
}

// Room for one byte goes last, so many times.
fn push_rooms(steps: &mut Vec<Given>, count: u64) -> Outcome<()>
    requires { ArePieces steps.old.items }
    ensures { ArePieces steps.new.items }
{
    'rooms: for _ in 0..count {
        push(steps, GivenStep::Room(1))?;
    }
    Ok(())
}

fn push_bytes(alloc: Global, steps: &mut Vec<Given>, text: &str) -> Outcome<()>
    requires { ArePieces steps.old.items }
    ensures { ArePieces steps.new.items }
{
    let bytes = octets_of(alloc, text)?;
    push_piece(alloc, steps, &bytes)
}

fn push_each_byte(alloc: Global, steps: &mut Vec<Given>, text: &str) -> Outcome<()>
    requires { ArePieces steps.old.items }
    ensures { ArePieces steps.new.items }
{
    let bytes = octets_of(alloc, text)?;
    push_each(alloc, steps, &bytes)
}

fn push_close(alloc: Global, steps: &mut Vec<Given>) -> Outcome<()>
    requires { ArePieces steps.old.items }
    ensures { ArePieces steps.new.items }
{
    let close = our_close(alloc)?;
    push(steps, GivenStep::Command(close))
}

fn push_happening(alloc: Global, steps: &mut Vec<Given>, happens: Happens) -> Outcome<()>
    requires { ArePieces steps.old.items }
    ensures { ArePieces steps.new.items }
{
    match happens {
        Happens::Link(room) => push(steps, GivenStep::Link(room)),
        Happens::Refuse => push(steps, GivenStep::Refuse),
        Happens::Bytes(text) => push_bytes(alloc, steps, text),
        Happens::EachByte(text) => push_each_byte(alloc, steps, text),
        Happens::Room(more) => push(steps, GivenStep::Room(more)),
        Happens::EachRoom(count) => push_rooms(steps, count),
        Happens::Tick => push(steps, GivenStep::Tick),
        Happens::End => push(steps, GivenStep::End),
        Happens::Fault => push(steps, GivenStep::Fault),
        Happens::WriteFail => push(steps, GivenStep::WriteFail),
        Happens::Open => push(steps, GivenStep::Command(Cmd::OpenChannel)),
        Happens::Close => push_close(alloc, steps),
    }
}

/// The steps of a script.
pub fn steps(alloc: Global, script: &[Happens]) -> Outcome<Vec<Given>>
    ensures { IfOk result (λ steps. ArePieces steps.items) }
{
    let mut steps = Vec::new(alloc);
    'script: for happens in script {
        push_happening(alloc, &mut steps, *happens)?;
    }
    Ok(steps)
}

/// A port that plays a script.
pub fn port(alloc: Global, script: &[Happens]) -> Outcome<MemoryPort> {
    let steps = steps(alloc, script)?;
    Ok(MemoryPort::new(alloc, steps)?)
}

/// Whether a port had one link, which took these frames.
pub fn took(alloc: Global, port: &MemoryPort, frames: &[&'static str]) -> Outcome<bool> {
    Ok(port.links() == 1 && took_on(alloc, port, 0, frames)?)
}

/// Whether the link of this place, from 0 on, took these frames.
pub fn took_on(
    alloc: Global,
    port: &MemoryPort,
    place: usize,
    frames: &[&'static str],
) -> Outcome<bool> {
    if place >= port.links() {
        return Ok(false);
    }
    let mut expected: Vec<u8> = Vec::new(alloc);
    for frame in frames {
        push_octets(&mut expected, frame)?;
    }
    Ok(port.link(place) == expected.as_slice())
}

/// Whether an error has this text.
pub fn shows(alloc: Global, error: Error, text: &str) -> Outcome<bool> {
    let shown = error.to_string(alloc);
    drop(error);
    Ok(shown?.as_str() == text)
}
