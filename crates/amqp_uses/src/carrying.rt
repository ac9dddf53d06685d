//! An engine that is driven step by step, with what can be seen of it.

ghost use Rattle.std.specs.Prelude.{◌≡◌, ◌≤◌, IfErr, length};
ghost use Rattle.amqp_engine.specs.Log.{IsPiece};
ghost use Rattle.amqp_uses.specs.Opening.{IsCarried};

use amqp_engine::{IoLoop, Port, Record, Step, what_is_told_is_carried};
use amqp_session::{AuthProvider, Cmd, ErrorKind, Handed, Result};
use std::alloc::Global;

/// Tells an engine to do something, lets it take the next step of its port, and takes the frames of the
/// channel that a promise opened. The port puts its pieces into the space. A session that has ended takes
/// no step. Where memory is refused, that is told, and no frames are taken.
pub fn tell_and_take<P: Port, A: AuthProvider>(
    alloc: Global,
    engine: &mut IoLoop,
    port: &mut P,
    provider: &mut A,
    space: &mut [u8],
    command: Cmd,
    opened: u64,
) -> Result<Vec<Handed>>
    requires space { 4096 ≤ length space.old }
    requires can { A.can provider.old }
    ensures can { A.can provider.new }
    ensures carried { IsCarried engine.old → IsCarried engine.new }
    ensures only { IfErr result (λ e. e ≡ ErrorKind.NoMemory) }
{
    // What is told and taken between turns is in the history of the engine, which is carried.
    what_is_told_is_carried();
    engine.command(command)?;
    take_step(alloc, engine, port, provider, space)?;
    Ok(engine.take_frames(opened)?)
}

// Takes the next step of a port, where the session has not ended.
fn take_step<P: Port, A: AuthProvider>(
    alloc: Global,
    engine: &mut IoLoop,
    port: &mut P,
    provider: &mut A,
    space: &mut [u8],
) -> Result<()>
    requires space { 4096 ≤ length space.old }
    requires can { A.can provider.old }
    ensures can { A.can provider.new }
    ensures carried { IsCarried engine.old → IsCarried engine.new }
    ensures only { IfErr result (λ e. e ≡ ErrorKind.NoMemory) }
{
    what_is_told_is_carried();
    engine.ask(port);
    if engine.session().has_ended() {
        return Ok(());
    }
    let told = port.next(space);
    let n = octets_in(&told.step);
    let mut notes = Record::new(alloc);
    engine.apply(told, &space[..n], port, provider, &mut notes)
}

// How many octets a step brings.
fn octets_in(step: &Step) -> usize
    requires { IsPiece step.now }
    ensures { result ≤ 4096 }
{
    match step {
        Step::Piece(n) => *n,
        _ => 0,
    }
}
