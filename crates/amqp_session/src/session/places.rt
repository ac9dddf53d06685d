//! The place of the close-ok that answers the server's close of a channel, and of the error owed with it.

ghost use Rattle.std.specs.Prelude.{◌≡◌, OnOk, OnErr};
ghost use Rattle.amqp_outbox.specs.Items.{dropped_with, size_of};
ghost use Rattle.amqp_answers.specs.Events.{owe_event};
ghost use Rattle.amqp_answers.specs.Seen.{noted_in};
ghost use Rattle.amqp_outgoing.specs.Outgoings.{queue_of, marks, HasFramePlaces};

use amqp_answers::Events;
use amqp_outbox::Item;
use amqp_outgoing::Outgoing;
use amqp_types::{AMQPError, NoMemory};

/// Makes places for this frame, which answers the server's close of its channel: with this error, which is
/// owed from now on, or without one.
pub fn reserve_owing(
    outgoing: &mut Outgoing,
    events: &mut Events,
    item: &Item,
    error: Option<AMQPError>,
) -> Result<(), NoMemory>
    ensures same { queue_of outgoing.new ≡ queue_of outgoing.old }
    ensures marks { marks outgoing.new ≡ marks outgoing.old }
    ensures places { OnOk result (HasFramePlaces (dropped_with item.now) 1 (size_of item.now) outgoing.new) }
    ensures owed { OnOk result (noted_in events.new ≡ owe_event item.now.channel error (noted_in events.old)) }
    ensures events { OnErr result (noted_in events.new ≡ noted_in events.old) }
{
    if let Err(refused) = outgoing.reserve_item(item) {
        drop(error);
        return Err(refused);
    }
    events.owe(item.channel(), error)
}
