//! Messages that are published on channels of a pool.

ghost use Rattle.std.specs.Prelude.{◌≡◌, ◌≤◌, ◌+◌, Some, IfOk, OnOk, OnErr, IsTrue, Option, Result};
ghost use Rattle.amqp_promise.specs.declared.error.ErrorKind.{ErrorKind};
ghost use Rattle.amqp_answers.specs.declared.answer.Answer.{Answer};
ghost use Rattle.amqp_rules.specs.Answers.{Takes};
ghost use Rattle.amqp_hub.specs.Entering.{called};
ghost use Rattle.amqp_hub.specs.Lending.{GoesOn};
ghost use Rattle.amqp_pool.specs.declared.lease.Leased.TheVariants.{Now};
ghost use Rattle.amqp_pool.specs.Pooled.{AreMade};
ghost use Rattle.amqp_pool.specs.Leasing.{first_ready, after_lease, is_leased};
ghost use Rattle.amqp_uses.specs.Messages.{publication};
ghost use Rattle.amqp_uses.specs.Pooling.{IfSending, IsReturned, IsFinished};

use crate::messages;
use amqp_hub::{Hub, Pass};
use amqp_pool::{Back, Lease, Leased, Pool};
use amqp_session::{ChanRef, Error, Result};
use amqp_types::ShortString;
use std::alloc::Global;

/// A message on its way: the lease of its channel, and the promise that is answered once the link took all
/// of it.
pub struct Sending {
    pub lease: Lease,
    pub promise: u64,
}

/// What a message that is begun comes to.
pub enum Begun {
    /// It is on its way.
    Sending(Sending),
    /// No channel is free. Once the answers to more turns were collected, one may be.
    Later,
}

/// What a message on its way comes to.
pub enum Finished {
    /// The link took all of it.
    Sent,
    /// It did not, for this reason.
    NotSent(Error),
    /// That is not known yet.
    Later(Sending),
    /// The lease is not of this pool.
    Foreign(Lease),
}

/// Leases a channel of a pool, and publishes a text on it to the queue of a name. Where no channel is free
/// the pool may open one more; its answer comes with a later turn. Where the text is not published, the
/// channel is given back at once.
pub fn begin_message(
    alloc: Global,
    pool: &mut Pool,
    hub: &mut Hub,
    pass: &mut Pass,
    queue: &ShortString,
    text: &[u8],
) -> Result<Begun>
    requires made { AreMade pool.old hub.old.engine.talk }
    ensures channel { IfSending result (λ s. first_ready hub.old.engine.talk pool.old ≡ Some s.lease) }
    ensures leased { IfSending result (λ s. pool.new ≡ after_lease hub.old.engine.talk (Now s.lease) pool.old) }
    ensures published { IfSending result (λ s. hub.new
        ≡ called pass.old.number (pass.old.made + 1) (publication s.lease queue.now text.now) hub.old) }
    ensures promise { IfSending result (λ s. s.promise ≡ hub.old.engine.talk.made) }
    ensures goes_on { GoesOn hub.old hub.new }
    ensures still_made { AreMade pool.new hub.new.engine.talk }
{
    match pool.lease(hub, pass)? {
        Leased::Now(lease) => match publish_on(alloc, hub, pass, lease.channel(), queue, text) {
            Ok(promise) => Ok(Begun::Sending(Sending { lease, promise })),
            Err(error) => {
                return_now(pool, hub, lease);
                Err(error)
            }
        },
        Leased::Opening(_) | Leased::Full(_) => Ok(Begun::Later),
    }
}

// Publishes a text on a channel, and gives the promise.
fn publish_on(
    alloc: Global,
    hub: &mut Hub,
    pass: &mut Pass,
    channel: ChanRef,
    queue: &ShortString,
    text: &[u8],
) -> Result<u64>
    ensures published { OnOk result (hub.new
        ≡ called pass.old.number (pass.old.made + 1) (publication channel queue.now text.now) hub.old) }
    ensures promise { IfOk result (λ n. n ≡ hub.old.engine.talk.made) }
    ensures err { OnErr result (hub.new ≡ hub.old) }
    ensures promises { hub.old.engine.talk.made ≤ hub.new.engine.talk.made }
{
    let message = messages::publication_of(alloc, channel, queue, text)?;
    let (promise, receipt) = hub.command(pass, message)?;
    drop(receipt);
    match promise {
        Some(number) => Ok(number),
        None => unreachable!(),
    }
}

// Gives a channel back that is leased from here.
fn return_now(pool: &mut Pool, hub: &Hub, lease: Lease)
    requires leased { IsTrue (is_leased lease pool.old) }
    requires made { AreMade pool.old hub.now.engine.talk }
    ensures returned { IsReturned hub.now.engine.talk lease pool.old pool.new }
    ensures still_made { AreMade pool.new hub.now.engine.talk }
{
    match pool.give_back(lease, hub) {
        Back::Kept | Back::Lost => {}
        Back::Foreign(lease) => {
            lease.give_up();
            unreachable!()
        }
    }
}

/// Looks what became of a message on its way. Once its promise is answered its channel is given back, also
/// one that was lost in between.
pub fn finish_message(pool: &mut Pool, hub: &mut Hub, sending: Sending) -> Finished
    requires made { AreMade pool.old hub.old.engine.talk }
    ensures finished { (answer : Option (Result Answer ErrorKind))
        × Takes sending.promise answer hub.old.engine.talk hub.new.engine.talk
        × IsFinished answer hub.new.engine.talk sending pool.old result pool.new }
    ensures goes_on { GoesOn hub.old hub.new }
    ensures still_made { AreMade pool.new hub.new.engine.talk }
{
    let Some(answer) = hub.poll(sending.promise) else {
        return Finished::Later(sending);
    };
    let Sending { lease, promise: _ } = sending;
    match pool.give_back(lease, hub) {
        Back::Foreign(lease) => {
            drop(answer);
            Finished::Foreign(lease)
        }
        Back::Kept | Back::Lost => match answer {
            Ok(_) => Finished::Sent,
            Err(error) => Finished::NotSent(error),
        },
    }
}
