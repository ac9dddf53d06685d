//! The replies that are awaited, by channel.

ghost use Rattle.std.specs.Prelude.{◌≡◌, ◌≢◌, ℕ, [], IfOk, IfNone, OnOk, IsTrue, None, is_some, length};
ghost use Rattle.amqp_outbox.specs.declared.reply.Reply.{Reply};
ghost use Rattle.amqp_outbox.specs.Listed.{at, Ascends};
ghost use Rattle.amqp_outbox.specs.Replies.{expected, first_awaited, left_awaited, first_on, without_first_on};
ghost use Rattle.amqp_outbox.specs.Order.{seen, seen_at, put_seen};
ghost use Rattle.amqp_outbox.specs.Parts.{list_seen, HasReplyPlaces};

use crate::replies::Replies;
use crate::reply::{Awaited, Reply};
use amqp_types::{ChannelId, NoMemory};
use std::alloc::Global;
use std::collections::BTreeMap;

/// The replies that are awaited, by channel.
#[derive(Debug, Drop)]
pub struct Awaiting {
    alloc: Global,
    lists: BTreeMap<ChannelId, Replies>,
}

impl Awaiting {
    /// No reply is awaited.
    pub fn new(alloc: Global) -> Awaiting
        ensures { seen list_seen result.lists.entries ≡ [] }
    {
        Awaiting {
            alloc,
            lists: BTreeMap::new(alloc),
        }
    }

    /// Makes a place for one reply more on a channel.
    pub fn reserve(&mut self, channel: ChannelId, reply: Reply) -> Result<(), NoMemory>
        ensures same { seen list_seen self.new.lists.entries ≡ seen list_seen self.old.lists.entries }
        ensures place { OnOk result (HasReplyPlaces channel reply self.new.lists.entries) }
        ensures others { (c : ℕ) (r : Reply) → c ≢ channel
            → HasReplyPlaces c r self.old.lists.entries → HasReplyPlaces c r self.new.lists.entries }
    {
        match self.lists.get_mut(&channel) {
            Some(list) => list.reserve(),
            None => {
                let list = Replies::with_place(self.alloc)?;
                drop(self.lists.insert(channel, list)?);
                Ok(())
            }
        }
    }

    /// One more reply is awaited on a channel, where it has its place.
    pub fn expect_reserved(&mut self, channel: ChannelId, awaited: Awaited)
        requires { HasReplyPlaces channel awaited.reply self.old.lists.entries }
        ensures expected { seen list_seen self.new.lists.entries
            ≡ expected channel awaited (seen list_seen self.old.lists.entries) }
        ensures others { (c : ℕ) (r : Reply) → c ≢ channel
            → HasReplyPlaces c r self.old.lists.entries → HasReplyPlaces c r self.new.lists.entries }
    {
        if let Some(list) = self.lists.get_mut(&channel) {
            list.push_reserved(awaited);
        }
    }

    /// Takes out the first that awaits this reply on this channel.
    pub fn answered(&mut self, channel: ChannelId, reply: Reply) -> Option<Awaited>
        ensures first { result ≡ first_awaited channel reply (seen list_seen self.old.lists.entries) }
        ensures rest { seen list_seen self.new.lists.entries
            ≡ left_awaited channel reply (seen list_seen self.old.lists.entries) }
        ensures none { IfNone result (seen list_seen self.new.lists.entries ≡ seen list_seen self.old.lists.entries) }
    {
        let found = self.take(channel, reply);
        self.tidy(channel);
        found
    }

    fn take(&mut self, channel: ChannelId, reply: Reply) -> Option<Awaited>
        ensures first { result ≡ first_awaited channel reply (seen list_seen self.old.lists.entries) }
        ensures rest { seen list_seen self.new.lists.entries
            ≡ left_awaited channel reply (seen list_seen self.old.lists.entries) }
        ensures none { IfNone result (seen list_seen self.new.lists.entries ≡ seen list_seen self.old.lists.entries) }
    {
        match self.lists.get_mut(&channel) {
            Some(list) => list.take(reply),
            None => None,
        }
    }

    /// Whether one awaits this reply on this channel.
    pub fn awaits(&self, channel: ChannelId, reply: Reply) -> bool
        ensures { result ≡ is_some (first_awaited channel reply (seen list_seen self.now.lists.entries)) }
    {
        // Its clause tells that the numbers ascend.
        let _ = self.lists.len();
        match self.lists.get(&channel) {
            Some(list) => list.awaits(reply),
            None => false,
        }
    }

    /// How many channels have places for replies.
    pub fn channels(&self) -> usize
        ensures count { result ≡ length self.now.lists.entries }
        ensures ordered { Ascends (seen list_seen self.now.lists.entries) }
    {
        self.lists.len()
    }

    /// Takes out the first that is awaited on a channel.
    pub fn drop_first(&mut self, channel: ChannelId) -> Option<Awaited>
        ensures ordered { Ascends (seen list_seen self.old.lists.entries) }
        ensures first { result ≡ first_on channel (seen list_seen self.old.lists.entries) }
        ensures rest { seen list_seen self.new.lists.entries
            ≡ without_first_on channel (seen list_seen self.old.lists.entries) }
    {
        let found = self.take_first(channel);
        self.tidy(channel);
        found
    }

    fn take_first(&mut self, channel: ChannelId) -> Option<Awaited>
        ensures ordered { Ascends (seen list_seen self.old.lists.entries) }
        ensures first { result ≡ first_on channel (seen list_seen self.old.lists.entries) }
        ensures rest { seen list_seen self.new.lists.entries
            ≡ without_first_on channel (seen list_seen self.old.lists.entries) }
    {
        match self.lists.get_mut(&channel) {
            Some(list) => list.next(),
            None => None,
        }
    }

    // A channel on which nothing is awaited has no list.
    fn tidy(&mut self, channel: ChannelId)
        ensures { seen list_seen self.new.lists.entries ≡ seen list_seen self.old.lists.entries }
    {
        if self.is_idle(channel) {
            // Its clause tells that the numbers ascend.
            let _ = self.lists.len();
            drop(self.lists.remove(&channel));
        }
    }

    fn is_idle(&self, channel: ChannelId) -> bool
        ensures { IsTrue result → seen_at list_seen (at channel self.now.lists.entries) ≡ None }
    {
        match self.lists.get(&channel) {
            Some(list) => list.is_empty(),
            None => false,
        }
    }

    /// Nothing is awaited any more.
    pub fn clear(&mut self)
        ensures { seen list_seen self.new.lists.entries ≡ [] }
    {
        self.lists.clear();
    }

    /// The same replies on each channel. Places that were made are not copied.
    pub fn try_clone(&self, alloc: Global) -> Result<Awaiting, NoMemory>
        ensures { IfOk result (λ a. seen list_seen a.lists.entries ≡ seen list_seen self.now.lists.entries) }
    {
        // Its clause tells that the numbers ascend.
        let _ = self.lists.len();
        let mut copy = Awaiting::new(alloc);
        for (channel, list) in &self.lists {
            copy.add_copy(*channel, list)?;
        }
        Ok(copy)
    }

    // A channel awaits from now on what is in a list, where something is.
    fn add_copy(&mut self, channel: ChannelId, list: &Replies) -> Result<(), NoMemory>
        ensures { OnOk result (seen list_seen self.new.lists.entries
            ≡ put_seen channel (list_seen list.now) (seen list_seen self.old.lists.entries)) }
    {
        if list.is_empty() {
            return Ok(());
        }
        let copy = list.try_clone(self.alloc)?;
        drop(self.lists.insert(channel, copy)?);
        Ok(())
    }
}
