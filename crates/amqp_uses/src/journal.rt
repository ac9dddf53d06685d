//! A hub, in whose journal a caller finds its command.

ghost use Rattle.std.specs.Prelude.{◌≡◌, ◌+◌, [], IfErr, IfOk, OnOk};
ghost use Rattle.amqp_hub.specs.Entering.{called, begun_anew, next_entry};

use amqp_engine::{IoLoop, Port};
use amqp_hub::{Hub, Pass};
use amqp_session::{Cmd, ConnectionProperties, ErrorKind, Result};
use amqp_uri::AMQPUri;
use std::alloc::Global;

/// A hub of a new engine, which asks a port for a link to the server of an address.
pub fn new_hub<P: Port>(alloc: Global, uri: &AMQPUri, port: &mut P) -> Result<Hub>
    ensures empty { IfOk result (λ hub. hub.journal ≡ []) }
    ensures only { IfErr result (λ e. e ≡ ErrorKind.NoMemory) }
{
    let options = ConnectionProperties::new(alloc)?;
    let engine = IoLoop::new(alloc, uri, options)?;
    Hub::new(alloc, engine, port)
}

/// Opens a channel with a caller's pass, and lets the journal begin anew. It gives the index of the entry
/// that the command had, which its receipt holds.
pub fn open_and_settle(hub: &mut Hub, pass: &mut Pass) -> Result<u64>
    ensures entry { IfOk result (λ entry. entry ≡ next_entry hub.old) }
    ensures made { OnOk result (pass.new.made ≡ pass.old.made + 1) }
    ensures anew { OnOk result (hub.new
        ≡ begun_anew (called pass.old.number (pass.old.made + 1) Cmd.OpenChannel hub.old)) }
{
    let (_promise, receipt) = hub.command(pass, Cmd::OpenChannel)?;
    let entry = receipt.entry();
    drop(receipt);
    hub.settle()?;
    Ok(entry)
}
