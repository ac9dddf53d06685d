//! The awaited replies.

ghost use Rattle.std.specs.Prelude.{◌≡◌, ◌≢◌, ℕ, List, Option, IfNone, OnOk, OnErr, is_some};
ghost use Rattle.amqp_outbox.specs.declared.item.Item.{Item};
ghost use Rattle.amqp_outbox.specs.declared.reply.Reply.{Reply};
ghost use Rattle.amqp_outbox.specs.Queued.{with_awaited, awaited_promise, without_awaited};
ghost use Rattle.amqp_outbox.specs.Parts.{queued, HasControlPlaces, HasGroupPlace, HasReplyPlace};

use super::Outbox;
use crate::reply::{Awaited, Reply};
use amqp_types::{ChannelId, NoMemory};

impl Outbox {
    /// A reply is awaited on a channel, after the others.
    pub fn expect(
        &mut self,
        channel: ChannelId,
        reply: Reply,
        promise: Option<u64>,
    ) -> Result<(), NoMemory>
        ensures ok { OnOk result (queued self.new
            ≡ with_awaited channel (record { reply = reply; promise = promise }) (queued self.old)) }
        ensures err { OnErr result (queued self.new ≡ queued self.old) }
    {
        self.reserve_reply(channel, reply)?;
        self.expect_reserved(channel, Awaited { reply, promise });
        Ok(())
    }

    /// Makes a place for one more that awaits this reply on a channel.
    pub fn reserve_reply(&mut self, channel: ChannelId, reply: Reply) -> Result<(), NoMemory>
        ensures same { queued self.new ≡ queued self.old }
        ensures place { OnOk result (HasReplyPlace channel reply self.new) }
        ensures control { (k : Option ℕ) (n octets : ℕ) → HasControlPlaces k n octets self.old
            → HasControlPlaces k n octets self.new }
        ensures group { (g : List Item) → HasGroupPlace g self.old → HasGroupPlace g self.new }
        ensures reply { (c : ℕ) (r : Reply) → c ≢ channel → HasReplyPlace c r self.old → HasReplyPlace c r self.new }
    {
        self.awaiting.reserve(channel, reply)
    }

    /// A reply is awaited on a channel, after the others, where it has its place.
    pub fn expect_reserved(&mut self, channel: ChannelId, awaited: Awaited)
        requires { HasReplyPlace channel awaited.reply self.old }
        ensures queued { queued self.new ≡ with_awaited channel awaited (queued self.old) }
        ensures control { (k : Option ℕ) (n octets : ℕ) → HasControlPlaces k n octets self.old
            → HasControlPlaces k n octets self.new }
        ensures reply { (c : ℕ) (r : Reply) → c ≢ channel → HasReplyPlace c r self.old → HasReplyPlace c r self.new }
    {
        self.awaiting.expect_reserved(channel, awaited);
    }

    /// The reply came that the first such one on this channel awaits, which is taken out. `None`
    /// where none does.
    pub fn answer(&mut self, channel: ChannelId, reply: Reply) -> Option<Option<u64>>
        ensures promise { result ≡ awaited_promise channel reply (queued self.old) }
        ensures rest { queued self.new ≡ without_awaited channel reply (queued self.old) }
        ensures none { IfNone result (queued self.new ≡ queued self.old) }
    {
        let awaited = self.awaiting.answered(channel, reply)?;
        Some(awaited.promise)
    }

    /// Whether this reply is awaited on a channel.
    pub fn awaits(&self, channel: ChannelId, reply: Reply) -> bool
        ensures { result ≡ is_some (awaited_promise channel reply (queued self.now)) }
    {
        self.awaiting.awaits(channel, reply)
    }
}
