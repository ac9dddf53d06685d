//! Messages on channels of a pool of a connection, whose hub is lent for one hold at a time.

ghost use Rattle.std.specs.Prelude.{◌≡◌, ◌+◌, IfOk, IfSome};
ghost use Rattle.amqp_hub.specs.Guarded.{Guarded};
ghost use Rattle.amqp_hub.specs.Entering.{called};
ghost use Rattle.amqp_hub.specs.Lending.{GoesOn};
ghost use Rattle.amqp_uses.specs.Messages.{publication};

use crate::pooling::{Begun, Finished, Sending, begin_message, finish_message};
use amqp_hub::{Hub, Pass};
use amqp_pool::{Lease, Pool};
use amqp_session::{ErrorKind, Result};
use amqp_types::ShortString;
use lapin_connection::Connection;
use std::alloc::Global;
use std::mem;
use std::sync::Wait;

// Within one hold: takes what was opened for the pool, and begins a message, where a channel is free. Of a
// hub that is lent nothing is known, so the pool is asked first whether it fits; else the answer is that there
// is no channel 0. After the end it is the state, since no channel is free then any more.
fn begin_within(
    alloc: Global,
    pool: &mut Pool,
    hub: &mut Hub,
    pass: &mut Pass,
    queue: &ShortString,
    text: &[u8],
) -> Result<Option<Sending>>
    ensures published { IfOk result (λ begun. IfSome begun (λ s. (before : Guarded) × (hub.new
        ≡ called pass.old.number (pass.old.made + 1) (publication s.lease queue.now text.now) before))) }
    ensures goes_on { GoesOn hub.old hub.new }
{
    if hub.session().has_ended() {
        return Err(ErrorKind::InvalidConnectionState(hub.session().state()).into());
    }
    if !pool.fits(hub) {
        return Err(ErrorKind::InvalidChannel(0).into());
    }
    pool.collect(hub);
    let (idle, _, opening) = pool.counts();
    if idle == 0 && opening > 0 {
        return Ok(None);
    }
    match begin_message(alloc, pool, hub, pass, queue, text)? {
        Begun::Sending(sending) => Ok(Some(sending)),
        Begun::Later => Ok(None),
    }
}

// The same, or nothing where no channel is free.
fn begun_within(
    alloc: Global,
    pool: &mut Pool,
    hub: &mut Hub,
    pass: &mut Pass,
    queue: &ShortString,
    text: &[u8],
) -> Option<Result<Sending>>
    ensures { GoesOn hub.old hub.new }
{
    match begin_within(alloc, pool, hub, pass, queue, text) {
        Ok(None) => None,
        Ok(Some(sending)) => Some(Ok(sending)),
        Err(error) => Some(Err(error)),
    }
}

// Within one hold: looks what became of the message on its way, which stays there while that is not known. A
// channel is given back to a pool of this hub alone. A closure holds nothing that can't be dropped, so the
// message is lent to it.
fn finish_within(
    pool: &mut Pool,
    hub: &mut Hub,
    on_its_way: &mut Option<Sending>,
) -> Option<Result<()>>
    ensures { GoesOn hub.old hub.new }
{
    let Some(sending) = on_its_way.take() else {
        return Some(Ok(()));
    };
    if !pool.fits(hub) {
        let Sending { lease, promise: _ } = sending;
        return Some(not_of_this_pool(lease));
    }
    match finish_message(pool, hub, sending) {
        Finished::Sent => Some(Ok(())),
        Finished::NotSent(error) => Some(Err(error)),
        Finished::Foreign(lease) => Some(not_of_this_pool(lease)),
        Finished::Later(later) => {
            give_up(mem::replace(on_its_way, Some(later)));
            None
        }
    }
}

// The lease of another pool is given up, and its channel is told.
fn not_of_this_pool(lease: Lease) -> Result<()> {
    let channel = lease.give_up();
    Err(ErrorKind::InvalidChannel(channel.id).into())
}

// Lets a message go, of which nothing more is asked.
fn give_up(sending: Option<Sending>) {
    if let Some(Sending { lease, promise: _ }) = sending {
        lease.give_up();
    }
}

/// Publishes a text to the queue of a name, on a channel of a pool of this connection, and waits until the
/// link took all of it. Where no channel is free it waits for one.
pub fn publish_from_pool<R: Wait>(
    rt: &R,
    alloc: Global,
    connection: &Connection,
    pool: &mut Pool,
    pass: &mut Pass,
    queue: &ShortString,
    text: &[u8],
) -> Result<()> {
    let begun = connection.wait_with_hub(
        rt,
        |hub| begun_within(alloc, pool, hub, pass, queue, text),
    );
    let mut on_its_way = Some(begun?);
    let sent = connection.wait_with_hub(rt, |hub| finish_within(pool, hub, &mut on_its_way));
    give_up(on_its_way);
    sent
}
