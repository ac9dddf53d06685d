//! The two lanes, and the group that has begun.

ghost use Rattle.std.specs.Prelude.{◌≡◌, ◌+◌, ◌<◌, ℕ, suc, List, Option, IfOk, OnOk, OnErr, length, option_copied};
ghost use Rattle.amqp_outbox.specs.declared.item.Item.{Item};
ghost use Rattle.amqp_outbox.specs.declared.reply.Reply.{Reply};
ghost use Rattle.amqp_outbox.specs.Items.{size_of, dropped_with, group_of};
ghost use Rattle.amqp_outbox.specs.Queued.{nothing_queued, next_item, after_next, waiting_items, unsent_octets, pushed_control, pushed_group};
ghost use Rattle.amqp_outbox.specs.Parts.{queued, HasControlPlaces, HasGroupPlace, HasReplyPlace};

use super::Outbox;
use crate::awaiting::Awaiting;
use crate::group::{Group, copies};
use crate::item::Item;
use crate::lane::{Keyed, Lane};
use crate::tally::Tally;
use amqp_frame::Frame;
use amqp_types::{ChannelId, NoMemory};
use std::alloc::Global;
use std::collections::VecDeque;

impl Outbox {
    /// Nothing waits, and nothing is awaited.
    pub fn new(alloc: Global) -> Outbox
        ensures { queued result ≡ nothing_queued }
    {
        Outbox {
            alloc,
            control: Lane::new(alloc),
            publish: Lane::new(alloc),
            begun: VecDeque::new(alloc),
            awaiting: Awaiting::new(alloc),
            tally: Tally::none(),
        }
    }

    /// An outbox of equal frames and of the same awaited replies. Places that were made are not copied.
    pub fn try_clone(&self, alloc: Global) -> Result<Outbox, NoMemory>
        ensures { IfOk result (λ o. queued o ≡ queued self.now) }
    {
        let control = self.control.try_clone(alloc)?;
        let publish = self.publish.try_clone(alloc)?;
        let begun = copies(alloc, &self.begun)?;
        let awaiting = self.awaiting.try_clone(alloc)?;
        Ok(Outbox {
            alloc,
            control,
            publish,
            begun,
            awaiting,
            tally: self.tally,
        })
    }

    /// How many frames wait: in the two lanes, and of the group that has begun.
    pub fn len(&self) -> u64
        ensures { result ≡ length (waiting_items (queued self.now)) }
    {
        self.tally.frames
    }

    /// How many octets spell the frames that wait.
    pub fn unsent_len(&self) -> u64
        ensures { result ≡ unsent_octets (queued self.now) }
    {
        self.tally.octets
    }

    /// The frame that `next` would give. Publishes wait where they do not flow.
    pub fn front(&self, flow: bool) -> Option<&Item>
        ensures { option_copied result ≡ next_item flow (queued self.now) }
    {
        if let Some(item) = self.begun.front() {
            return Some(item);
        }
        if let Some(item) = self.control.front() {
            return Some(item);
        }
        if !flow {
            return None;
        }
        let group = self.publish.front()?;
        Some(group.first())
    }

    /// Takes out the next frame: of the group that has begun, else of the control lane, else of the
    /// publish lane where publishes flow, whose first group begins then.
    pub fn next(&mut self, flow: bool) -> Option<Item>
        ensures item { result ≡ next_item flow (queued self.old) }
        ensures rest { queued self.new ≡ after_next flow (queued self.old) }
    {
        if let Some(item) = self.begun.pop_front() {
            self.tally.take(&item);
            return Some(item);
        }
        if let Some(item) = self.control.next() {
            self.tally.take(&item);
            return Some(item);
        }
        if !flow {
            return None;
        }
        let (first, rest) = self.publish.next()?.into_parts();
        self.begun = rest;
        self.tally.take(&first);
        Some(first)
    }

    /// A frame goes last in the control lane.
    pub fn push_control(&mut self, item: Item) -> Result<(), NoMemory>
        ensures ok { OnOk result (queued self.new ≡ pushed_control item (queued self.old)) }
        ensures err { OnErr result (queued self.new ≡ queued self.old) }
    {
        if let Err(refused) = self.reserve_item(&item) {
            drop(item);
            return Err(refused);
        }
        self.push_control_reserved(item);
        Ok(())
    }

    // Makes a place for a frame.
    fn reserve_item(&mut self, item: &Item) -> Result<(), NoMemory>
        ensures same { queued self.new ≡ queued self.old }
        ensures place { OnOk result (HasControlPlaces (dropped_with item.now) 1 (size_of item.now) self.new) }
    {
        let octets = item.octets()?;
        self.reserve_control(item.dropped_with(), 1, octets)
    }

    /// Frames of a channel go last in the publish lane, as one group that answers a promise.
    pub fn push_group(
        &mut self,
        channel: ChannelId,
        frames: Vec<Frame>,
        promise: u64,
    ) -> Result<(), NoMemory>
        requires { 0 < length frames.items }
        ensures ok { OnOk result (queued self.new
            ≡ pushed_group (group_of channel frames.items promise) (queued self.old)) }
        ensures err { OnErr result (queued self.new ≡ queued self.old) }
    {
        let group = Group::new(self.alloc, channel, frames, promise)?;
        if let Err(refused) = self.reserve_group(&group) {
            drop(group);
            return Err(refused);
        }
        self.push_group_reserved(group);
        Ok(())
    }

    /// Makes places for so many frames more in the control lane, of so many octets in all
    /// (`Item::octets`), each dropped with this channel, or with none (`Item::dropped_with`).
    pub fn reserve_control(
        &mut self,
        dropped_with: Option<ChannelId>,
        frames: usize,
        octets: u64,
    ) -> Result<(), NoMemory>
        ensures same { queued self.new ≡ queued self.old }
        ensures places { OnOk result (HasControlPlaces dropped_with frames octets self.new) }
        ensures group { (g : List Item) → HasGroupPlace g self.old → HasGroupPlace g self.new }
        ensures reply { (c : ℕ) (r : Reply) → HasReplyPlace c r self.old → HasReplyPlace c r self.new }
    {
        if !self.tally.has_room(frames as u64, octets) {
            return Err(NoMemory);
        }
        self.control.reserve(dropped_with, frames)
    }

    /// Makes a place for a group.
    pub fn reserve_group(&mut self, group: &Group) -> Result<(), NoMemory>
        ensures same { queued self.new ≡ queued self.old }
        ensures place { OnOk result (HasGroupPlace group.now self.new) }
        ensures control { (k : Option ℕ) (n octets : ℕ) → HasControlPlaces k n octets self.old
            → HasControlPlaces k n octets self.new }
        ensures reply { (c : ℕ) (r : Reply) → HasReplyPlace c r self.old → HasReplyPlace c r self.new }
    {
        if !self.tally.has_room(group.len(), group.octets()) {
            return Err(NoMemory);
        }
        self.publish.reserve(group.key(), 1)
    }

    /// A frame goes last in the control lane, where it has its place.
    pub fn push_control_reserved(&mut self, item: Item)
        requires { HasControlPlaces (dropped_with item) 1 (size_of item) self.old }
        ensures queued { queued self.new ≡ pushed_control item (queued self.old) }
        ensures control { (n octets : ℕ) → HasControlPlaces (dropped_with item) (suc n) (size_of item + octets) self.old
            → HasControlPlaces (dropped_with item) n octets self.new }
        ensures reply { (c : ℕ) (r : Reply) → HasReplyPlace c r self.old → HasReplyPlace c r self.new }
    {
        self.tally.add(&item);
        self.control.push_reserved(item);
    }

    /// A group goes last in the publish lane, where it has its place.
    pub fn push_group_reserved(&mut self, group: Group)
        requires { HasGroupPlace group self.old }
        ensures { queued self.new ≡ pushed_group group (queued self.old) }
    {
        self.tally.add_group(&group);
        self.publish.push_reserved(group);
    }
}
