//! What is dropped: the things of a channel, one by one, and all.

ghost use Rattle.std.specs.Prelude.{◌≡◌, ◌≢◌, ℕ, Option, OnOk, OnErr};
ghost use Rattle.amqp_outbox.specs.declared.scope.Scope.TheVariants.{All};
ghost use Rattle.amqp_outbox.specs.declared.reply.Reply.{Reply};
ghost use Rattle.amqp_outbox.specs.Listed.{Ascends};
ghost use Rattle.amqp_outbox.specs.Queued.{nothing_queued, only, unbegun_promise, without_unbegun, dropped_promise, without_channel, group_promise, without_group, frame_promise, without_frame, reply_promise, without_reply, without_any};
ghost use Rattle.amqp_outbox.specs.Parts.{queued, HasControlPlaces, HasReplyPlace};

use super::Outbox;
use crate::item::Item;
use crate::scope::Scope;
use crate::tally::Tally;
use amqp_types::{ChannelId, NoMemory};

impl Outbox {
    /// Takes out the first thing of a channel in a scope, and gives its promise: of groups that have
    /// not begun, then of frames in the control lane, then of awaited replies. `None` where none is
    /// left.
    pub fn drop_channel(&mut self, channel: ChannelId, scope: Scope) -> Option<Option<u64>>
        ensures promise { result ≡ dropped_promise channel scope (queued self.old) }
        ensures rest { queued self.new ≡ without_channel channel scope (queued self.old) }
        ensures control { (k : Option ℕ) (n octets : ℕ) → HasControlPlaces k n octets self.old
            → HasControlPlaces k n octets self.new }
        ensures reply { scope ≢ All → (c : ℕ) (r : Reply) → HasReplyPlace c r self.old → HasReplyPlace c r self.new }
        ensures ordered { scope ≡ All → Ascends (queued self.old).awaited }
    {
        match scope {
            Scope::Unbegun => self.drop_group(channel),
            Scope::Control => self.drop_frame(channel),
            Scope::All => self.drop_any(channel),
        }
    }

    /// Takes out the first group that has not begun, whatever its channel, and gives its promise. `None`
    /// where none is left.
    pub fn drop_unbegun(&mut self) -> Option<Option<u64>>
        ensures promise { result ≡ unbegun_promise (queued self.old) }
        ensures rest { queued self.new ≡ without_unbegun (queued self.old) }
        ensures control { (k : Option ℕ) (n octets : ℕ) → HasControlPlaces k n octets self.old
            → HasControlPlaces k n octets self.new }
        ensures reply { (c : ℕ) (r : Reply) → HasReplyPlace c r self.old → HasReplyPlace c r self.new }
    {
        let group = self.publish.next()?;
        self.tally.take_group(&group);
        Some(group.promise())
    }

    fn drop_group(&mut self, channel: ChannelId) -> Option<Option<u64>>
        ensures promise { result ≡ group_promise channel (queued self.old) }
        ensures rest { queued self.new ≡ without_group channel (queued self.old) }
        ensures control { (k : Option ℕ) (n octets : ℕ) → HasControlPlaces k n octets self.old
            → HasControlPlaces k n octets self.new }
        ensures awaiting { self.new.awaiting ≡ self.old.awaiting }
    {
        match self.publish.take(channel) {
            Some(group) => {
                self.tally.take_group(&group);
                Some(group.promise())
            }
            None => {
                // What went out would tidy, but perhaps no publish comes on this channel again.
                self.publish.tidy(channel);
                None
            }
        }
    }

    fn drop_frame(&mut self, channel: ChannelId) -> Option<Option<u64>>
        ensures promise { result ≡ frame_promise channel (queued self.old) }
        ensures rest { queued self.new ≡ without_frame channel (queued self.old) }
        ensures control { (k : Option ℕ) (n octets : ℕ) → HasControlPlaces k n octets self.old
            → HasControlPlaces k n octets self.new }
        ensures awaiting { self.new.awaiting ≡ self.old.awaiting }
    {
        let item = self.control.take(channel)?;
        self.tally.take(&item);
        Some(item.promise())
    }

    /// Takes out the first reply that is awaited on a channel, and gives its promise. `None` where none
    /// is.
    pub fn drop_reply(&mut self, channel: ChannelId) -> Option<Option<u64>>
        ensures promise { result ≡ reply_promise channel (queued self.old) }
        ensures rest { queued self.new ≡ without_reply channel (queued self.old) }
        ensures ordered { Ascends (queued self.old).awaited }
        ensures control { (k : Option ℕ) (n octets : ℕ) → HasControlPlaces k n octets self.old
            → HasControlPlaces k n octets self.new }
    {
        let awaited = self.awaiting.drop_first(channel)?;
        Some(awaited.promise)
    }

    fn drop_any(&mut self, channel: ChannelId) -> Option<Option<u64>>
        ensures promise { result ≡ dropped_promise channel All (queued self.old) }
        ensures rest { queued self.new ≡ without_any channel (queued self.old) }
        ensures ordered { Ascends (queued self.old).awaited }
        ensures control { (k : Option ℕ) (n octets : ℕ) → HasControlPlaces k n octets self.old
            → HasControlPlaces k n octets self.new }
    {
        // Its clause tells that the channels ascend.
        let _ = self.awaiting.channels();
        if let Some(promise) = self.drop_group(channel) {
            return Some(promise);
        }
        if let Some(promise) = self.drop_frame(channel) {
            return Some(promise);
        }
        self.drop_reply(channel)
    }

    /// Nothing waits any more, and nothing is awaited.
    pub fn drop_all(&mut self)
        ensures { queued self.new ≡ nothing_queued }
    {
        self.control.clear();
        self.publish.clear();
        self.begun.clear();
        self.awaiting.clear();
        self.tally = Tally::none();
    }

    /// A frame alone waits in the control lane, and all else is dropped.
    pub fn restart(&mut self, item: Item) -> Result<(), NoMemory>
        ensures ok { OnOk result (queued self.new ≡ only item) }
        ensures err { OnErr result (queued self.new ≡ queued self.old) }
    {
        let mut fresh = Outbox::new(self.alloc);
        if let Err(refused) = fresh.push_control(item) {
            drop(fresh);
            return Err(refused);
        }
        *self = fresh;
        Ok(())
    }
}
