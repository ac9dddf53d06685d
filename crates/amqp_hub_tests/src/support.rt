//! Scripts, the ports that play them, and the hubs over these.
//!
//! An owned enum is let go by `drop`, and never where a scope ends or a `?` returns: there the check
//! goes through each of its variants, which takes seconds at each such place.

ghost use Rattle.std.specs.Prelude.{◌≤◌, IfOk};
ghost use Rattle.amqp_engine.specs.Plan.{IsGivenPiece, ArePieces};

use amqp_engine::{Given, GivenStep, IoLoop, MemoryPort, Port, Step};
use amqp_hub::Hub;
use amqp_session::{ConnectionProperties, DefaultAuthProvider};
use amqp_types::Payload;
use amqp_uri::AMQPUri;
use amqp_vectors::octets_of;
use std::alloc::Global;
use std::test::Fail;

/// What a test answers, and what it is made of.
pub type Outcome<T> = Result<T, Fail>;

// ---- scripts

/// What happens at a port. Bytes are a text in hexadecimal.
#[derive(Clone, Copy)]
pub enum Happens {
    /// A link is there, with room for all.
    Link,
    /// A piece is received.
    Bytes(&'static str),
    /// Reading fails.
    Fault,
}

// A step goes last.
fn push(steps: &mut Vec<Given>, what: GivenStep) -> Outcome<()>
    requires piece { IsGivenPiece what }
    requires before { ArePieces steps.old.items }
    ensures { ArePieces steps.new.items }
{
    steps.push(Given { at: 0, what })?;
    Ok(())
}

// A piece goes last.
fn push_bytes(alloc: Global, steps: &mut Vec<Given>, text: &str) -> Outcome<()>
    requires { ArePieces steps.old.items }
    ensures { ArePieces steps.new.items }
{
    let bytes = octets_of(alloc, text)?;
    if bytes.is_empty() || bytes.len() > 4096 {
        drop(bytes);
        return Err("no piece")?;
    }
    let payload = Payload::from_vec(bytes);
    push(steps, GivenStep::Bytes(payload))
}

// What happens goes last.
fn push_happening(alloc: Global, steps: &mut Vec<Given>, happens: Happens) -> Outcome<()>
    requires { ArePieces steps.old.items }
    ensures { ArePieces steps.new.items }
{
    match happens {
        Happens::Link => push(steps, GivenStep::Link(None)),
        Happens::Bytes(text) => push_bytes(alloc, steps, text),
        Happens::Fault => push(steps, GivenStep::Fault),
    }
}

// The steps of a script.
fn steps(alloc: Global, script: &[Happens]) -> Outcome<Vec<Given>>
    ensures { IfOk result (λ steps. ArePieces steps.items) }
{
    let mut steps = Vec::new(alloc);
    'script: for happens in script {
        push_happening(alloc, &mut steps, *happens)?;
    }
    Ok(steps)
}

// A port that plays a script.
fn port(alloc: Global, script: &[Happens]) -> Outcome<MemoryPort> {
    let steps = steps(alloc, script)?;
    Ok(MemoryPort::new(alloc, steps)?)
}

// ---- hubs

/// A hub over a port that plays a script, and who answers what the server asks.
#[derive(Drop)]
pub struct Over {
    pub hub: Hub,
    pub port: MemoryPort,
    pub provider: DefaultAuthProvider,
}

// A hub of a new engine over a port.
fn hub_over(alloc: Global, port: &mut MemoryPort, uri: &AMQPUri) -> Outcome<Hub> {
    let options = ConnectionProperties::new(alloc)?;
    let engine = IoLoop::new(alloc, uri, options)?;
    Ok(Hub::new(alloc, engine, port)?)
}

// The same over a port that plays a script, and the port.
fn hub_and_port(alloc: Global, script: &[Happens], uri: &AMQPUri) -> Outcome<(Hub, MemoryPort)> {
    let mut port = port(alloc, script)?;
    match hub_over(alloc, &mut port, uri) {
        Ok(hub) => Ok((hub, port)),
        Err(fail) => {
            drop(port);
            Err(fail)
        }
    }
}

// The same with who answers as the user of the address.
fn hub_at(alloc: Global, script: &[Happens], uri: &AMQPUri) -> Outcome<Over> {
    let provider = DefaultAuthProvider::new(alloc, uri)?;
    match hub_and_port(alloc, script, uri) {
        Ok((hub, port)) => Ok(Over {
            hub,
            port,
            provider,
        }),
        Err(fail) => {
            drop(provider);
            Err(fail)
        }
    }
}

/// A new hub, over a port that plays this script.
pub fn hub_that_plays(alloc: Global, script: &[Happens]) -> Outcome<Over> {
    let uri = AMQPUri::local(alloc)?;
    let over = hub_at(alloc, script, &uri);
    drop(uri);
    over
}

// How many bytes a step has.
fn piece_len(step: &Step) -> usize {
    match step {
        Step::Piece(n) => *n,
        _ => 0,
    }
}

/// Takes one step of the port. Whether the turn was taken.
pub fn turn(over: &mut Over) -> bool
    ensures { over.old.hub.engine.talk.made ≤ over.new.hub.engine.talk.made }
{
    let mut space = [0; 4096];
    let told = over.port.next(&mut space);
    let n = piece_len(&told.step).min(4096);
    let taken = over
        .hub
        .apply(told, &space[..n], &mut over.port, &mut over.provider);
    match taken {
        Ok(()) => true,
        Err(error) => {
            drop(error);
            false
        }
    }
}

/// Takes so many steps of the port, each a turn.
pub fn turns(over: &mut Over, count: u64) -> Outcome<()> {
    for _ in 0..count {
        if !turn(over) {
            return Err("no turn")?;
        }
    }
    Ok(())
}
