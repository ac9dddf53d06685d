//! What goes where a channel or the connection is closed.

ghost use Rattle.std.specs.Prelude.{◌≡◌, ℕ, Option, filter};
ghost use Rattle.amqp_types.specs.declared.word.Word.TheVariants as word;
ghost use Rattle.amqp_outbox.specs.Queued.{is_on};
ghost use Rattle.amqp_outgoing.specs.Outgoings.{queue_of, marks, HasFramePlaces};
ghost use Rattle.amqp_rules.specs.Changes.{rejected, rejected_each, without_groups_of, without_groups, promises_on, without_all_on, replies_on, without_replies_on};
ghost use Rattle.amqp_answers.specs.Seen.{made_in, promised, HasPlace, HasWhy};

use amqp_answers::{Promises, Why};
use amqp_outbox::Scope;
use amqp_outgoing::Outgoing;
use amqp_promise::{ChannelState, ConnectionState, ErrorKind};
use amqp_types::{ChannelId, Word};

/// The groups of a channel that have not begun go, and the promise of each is answered: we closed the
/// channel.
pub fn drop_groups_of(outgoing: &mut Outgoing, promises: &mut Promises, id: ChannelId)
    ensures left { queue_of outgoing.new ≡ without_groups_of id (queue_of outgoing.old) }
    ensures marks { marks outgoing.new ≡ marks outgoing.old }
    ensures made { made_in promises.new ≡ made_in promises.old }
    ensures slots { promised promises.new ≡
        rejected (ErrorKind.InvalidChannelState ChannelState.Closing word.ChannelClose)
        (filter (is_on id) (queue_of outgoing.old).publish) (promised promises.old) }
    ensures place { HasPlace promises.old → HasPlace promises.new }
{
    'groups: while let Some(promise) = outgoing.drop_channel(id, Scope::Unbegun) {
        let closing = ErrorKind::InvalidChannelState(ChannelState::Closing, Word::ChannelClose);
        promises.reject(promise, closing);
    }
}

/// All groups that have not begun go, and the promise of each is answered: we closed the connection.
pub fn drop_groups(outgoing: &mut Outgoing, promises: &mut Promises)
    ensures left { queue_of outgoing.new ≡ without_groups (queue_of outgoing.old) }
    ensures marks { marks outgoing.new ≡ marks outgoing.old }
    ensures made { made_in promises.new ≡ made_in promises.old }
    ensures slots { promised promises.new ≡
        rejected (ErrorKind.InvalidConnectionState ConnectionState.Closing)
        (queue_of outgoing.old).publish (promised promises.old) }
    ensures place { HasPlace promises.old → HasPlace promises.new }
{
    'groups: while let Some(promise) = outgoing.drop_unbegun() {
        let closing = ErrorKind::InvalidConnectionState(ConnectionState::Closing);
        promises.reject(promise, closing);
    }
}

/// All that goes with a channel goes: its groups that have not begun, its frames in the control lane
/// but channel.open and channel.close, and its awaited replies. The promise of each is answered with
/// the error of this reason.
pub fn drop_channel_of(outgoing: &mut Outgoing, promises: &mut Promises, id: ChannelId, why: &Why)
    ensures left { queue_of outgoing.new ≡ without_all_on id (queue_of outgoing.old) }
    ensures marks { marks outgoing.new ≡ marks outgoing.old }
    ensures frames { (k : Option ℕ) (n octets : ℕ) → HasFramePlaces k n octets outgoing.old
        → HasFramePlaces k n octets outgoing.new }
    ensures made { made_in promises.new ≡ made_in promises.old }
    ensures slots { (e : ErrorKind) → HasWhy why.now e promises.old → promised promises.new
        ≡ rejected_each e (promises_on id (queue_of outgoing.old)) (promised promises.old) }
{
    'things: while let Some(promise) = outgoing.drop_channel(id, Scope::All) {
        promises.reject_with(promise, why);
    }
}

/// The replies that are awaited on a channel go, and the promise of each is answered: close-ok was read.
pub fn drop_replies_of(outgoing: &mut Outgoing, promises: &mut Promises, id: ChannelId)
    ensures left { queue_of outgoing.new ≡ without_replies_on id (queue_of outgoing.old) }
    ensures marks { marks outgoing.new ≡ marks outgoing.old }
    ensures made { made_in promises.new ≡ made_in promises.old }
    ensures slots { promised promises.new ≡
        rejected_each (ErrorKind.InvalidChannelState ChannelState.Closed word.ChannelCloseOkReceived)
        (replies_on id (queue_of outgoing.old)) (promised promises.old) }
{
    'replies: while let Some(promise) = outgoing.drop_reply(id) {
        let closed = ErrorKind::InvalidChannelState(
            ChannelState::Closed,
            Word::ChannelCloseOkReceived,
        );
        promises.reject(promise, closed);
    }
}
