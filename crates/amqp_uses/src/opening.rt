//! A connection and a channel that are opened over a port.

ghost use Rattle.std.specs.Prelude.{◌≡◌, IfErr, IfOk};
ghost use Rattle.amqp_uses.specs.Opening.{SaysLegally};

use amqp_engine::{IoLoop, Port};
use amqp_session::{
    Answer, ChanRef, Cmd, ConnectionProperties, DefaultAuthProvider, ErrorKind, Result,
};
use amqp_uri::AMQPUri;
use std::alloc::Global;

/// An engine, who logs in its client, and the channel that is open on it.
#[derive(Drop)]
pub struct Connection {
    pub engine: IoLoop,
    pub provider: DefaultAuthProvider,
    pub channel: Option<ChanRef>,
}

/// Connects over a port to the server of an address, as the user of the address, and opens a channel.
/// Either may take so many turns. There is no channel where it was refused, or is not open by then.
pub fn open_over<P: Port>(
    alloc: Global,
    uri: &AMQPUri,
    port: &mut P,
    turns: u64,
) -> Result<Connection>
    ensures legal { IfOk result (λ connection. SaysLegally connection.engine) }
    ensures only { IfErr result (λ e. e ≡ ErrorKind.NoMemory) }
{
    let mut provider = DefaultAuthProvider::new(alloc, uri)?;
    let options = ConnectionProperties::new(alloc)?;
    let mut engine = IoLoop::new(alloc, uri, options)?;
    // Whether the connection is open is told by the answer to the command, and not by how a run ends.
    drop(engine.run(port, &mut provider, turns));
    match open_channel(&mut engine, port, &mut provider, turns) {
        Ok(channel) => Ok(Connection {
            engine,
            provider,
            channel,
        }),
        Err(e) => {
            drop(engine);
            drop(provider);
            Err(e)
        }
    }
}

// Opens a channel, where the server lets it.
fn open_channel<P: Port>(
    engine: &mut IoLoop,
    port: &mut P,
    provider: &mut DefaultAuthProvider,
    turns: u64,
) -> Result<Option<ChanRef>>
    ensures legal { SaysLegally engine.old → SaysLegally engine.new }
    ensures only { IfErr result (λ e. e ≡ ErrorKind.NoMemory) }
{
    let opening = engine.command(Cmd::OpenChannel)?;
    drop(engine.run(port, provider, turns));
    Ok(channel_of(engine, opening.unwrap_or(0)))
}

// Takes the answer to an opening, and names the channel that it opened.
fn channel_of(engine: &mut IoLoop, opening: u64) -> Option<ChanRef>
    ensures { SaysLegally engine.old → SaysLegally engine.new }
{
    let answer = engine.answer(opening);
    let channel = match &answer {
        Some(Ok(Answer::Channel(id, opened))) => Some(ChanRef {
            id: *id,
            opened: Some(*opened),
        }),
        _ => None,
    };
    drop(answer);
    channel
}
