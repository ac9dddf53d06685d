//! Frames that are said, and replies that are awaited, in one call: all of it or nothing.

ghost use Rattle.std.specs.Prelude.{◌≡◌, ℕ, ◌+◌, IfOk, OnOk, OnErr};
ghost use Rattle.amqp_outbox.specs.declared.reply.Reply.{Reply};
ghost use Rattle.amqp_outbox.specs.Items.{dropped_with, size_of};
ghost use Rattle.amqp_outbox.specs.Queued.{pushed_control, pushed_group, with_awaited};
ghost use Rattle.amqp_outgoing.specs.Outgoings.{queue_of, marks, HasFramePlaces, HasGroupPlaces, HasAwaitedPlace};

use super::Outgoing;
use amqp_outbox::{Awaited, Group, Item, Reply};
use amqp_types::NoMemory;

impl Outgoing {
    /// A frame goes last in the control lane.
    pub fn say(&mut self, item: Item) -> Result<(), NoMemory>
        ensures ok { OnOk result (queue_of self.new ≡ pushed_control item (queue_of self.old)) }
        ensures err { OnErr result (queue_of self.new ≡ queue_of self.old) }
        ensures marks { marks self.new ≡ marks self.old }
    {
        if let Err(refused) = self.reserve_item(&item) {
            drop(item);
            return Err(refused);
        }
        self.say_reserved(item);
        Ok(())
    }

    /// Two frames go last in the control lane. Both are dropped with the same channel, or with none.
    pub fn say_both(&mut self, first: Item, second: Item) -> Result<(), NoMemory>
        requires { dropped_with first ≡ dropped_with second }
        ensures ok { OnOk result (queue_of self.new
            ≡ pushed_control second (pushed_control first (queue_of self.old))) }
        ensures err { OnErr result (queue_of self.new ≡ queue_of self.old) }
        ensures marks { marks self.new ≡ marks self.old }
    {
        if let Err(refused) = self.reserve_both(&first, &second) {
            drop(first);
            drop(second);
            return Err(refused);
        }
        self.say_reserved(first);
        self.say_reserved(second);
        Ok(())
    }

    /// A group goes last in the publish lane.
    pub fn say_group(&mut self, group: Group) -> Result<(), NoMemory>
        ensures ok { OnOk result (queue_of self.new ≡ pushed_group group (queue_of self.old)) }
        ensures err { OnErr result (queue_of self.new ≡ queue_of self.old) }
        ensures marks { marks self.new ≡ marks self.old }
    {
        if let Err(refused) = self.reserve_group(&group) {
            drop(group);
            return Err(refused);
        }
        self.say_group_reserved(group);
        Ok(())
    }

    /// A frame goes last in the control lane, and a reply to it is awaited on its channel.
    pub fn ask(&mut self, item: Item, awaited: Awaited) -> Result<(), NoMemory>
        ensures ok { OnOk result (queue_of self.new
            ≡ with_awaited item.channel awaited (pushed_control item (queue_of self.old))) }
        ensures err { OnErr result (queue_of self.new ≡ queue_of self.old) }
        ensures marks { marks self.new ≡ marks self.old }
    {
        if let Err(refused) = self.reserve_question(&item, awaited.reply) {
            drop(item);
            return Err(refused);
        }
        let id = item.channel();
        self.say_reserved(item);
        self.expect_reserved(id, awaited);
        Ok(())
    }

    /// A frame goes last in the control lane, then another, and a reply to that one is awaited on its
    /// channel. Both are dropped with the same channel, or with none.
    pub fn ask_after(&mut self, first: Item, item: Item, awaited: Awaited) -> Result<(), NoMemory>
        requires { dropped_with first ≡ dropped_with item }
        ensures ok { OnOk result (queue_of self.new
            ≡ with_awaited item.channel awaited (pushed_control item (pushed_control first (queue_of self.old)))) }
        ensures err { OnErr result (queue_of self.new ≡ queue_of self.old) }
        ensures marks { marks self.new ≡ marks self.old }
    {
        let id = item.channel();
        if let Err(refused) = self.reserve_reply(id, awaited.reply) {
            drop(first);
            drop(item);
            return Err(refused);
        }
        self.say_both_awaited(first, item, awaited)
    }

    // The same, where there is a place for what is awaited.
    fn say_both_awaited(
        &mut self,
        first: Item,
        item: Item,
        awaited: Awaited,
    ) -> Result<(), NoMemory>
        requires key { dropped_with first ≡ dropped_with item }
        requires reply { HasAwaitedPlace item.channel awaited.reply self.old }
        ensures ok { OnOk result (queue_of self.new
            ≡ with_awaited item.channel awaited (pushed_control item (pushed_control first (queue_of self.old)))) }
        ensures err { OnErr result (queue_of self.new ≡ queue_of self.old) }
        ensures marks { marks self.new ≡ marks self.old }
    {
        if let Err(refused) = self.reserve_both(&first, &item) {
            drop(first);
            drop(item);
            return Err(refused);
        }
        let id = item.channel();
        self.say_reserved(first);
        self.say_reserved(item);
        self.expect_reserved(id, awaited);
        Ok(())
    }

    /// Makes places for this frame, and for one more that awaits this reply on the frame's channel.
    pub fn reserve_question(&mut self, item: &Item, reply: Reply) -> Result<(), NoMemory>
        ensures waits { queue_of self.new ≡ queue_of self.old }
        ensures marks { marks self.new ≡ marks self.old }
        ensures places { OnOk result (HasFramePlaces (dropped_with item.now) 1 (size_of item.now) self.new) }
        ensures place { OnOk result (HasAwaitedPlace item.now.channel reply self.new) }
    {
        self.reserve_reply(item.channel(), reply)?;
        self.reserve_item(item)
    }

    // Makes places for these two frames.
    fn reserve_both(&mut self, first: &Item, second: &Item) -> Result<(), NoMemory>
        ensures waits { queue_of self.new ≡ queue_of self.old }
        ensures marks { marks self.new ≡ marks self.old }
        ensures places { OnOk result
            (HasFramePlaces (dropped_with first.now) 2 (size_of first.now + size_of second.now) self.new) }
        ensures reply { (c : ℕ) (r : Reply) → HasAwaitedPlace c r self.old → HasAwaitedPlace c r self.new }
    {
        let octets = octets_of_both(first, second)?;
        self.reserve_frames(first.dropped_with(), 2, octets)
    }

    // Makes a place for a group.
    fn reserve_group(&mut self, group: &Group) -> Result<(), NoMemory>
        ensures waits { queue_of self.new ≡ queue_of self.old }
        ensures marks { marks self.new ≡ marks self.old }
        ensures places { OnOk result (HasGroupPlaces group.now self.new) }
    {
        self.outbox.reserve_group(group)?;
        self.committed
            .reserve((self.outbox.len() + group.len()) as usize)
    }

    // The frames of a group wait, where they have their places.
    fn say_group_reserved(&mut self, group: Group)
        requires { HasGroupPlaces group self.old }
        ensures waits { queue_of self.new ≡ pushed_group group (queue_of self.old) }
        ensures marks { marks self.new ≡ marks self.old }
    {
        self.outbox.push_group_reserved(group);
    }
}

// How many octets spell two frames, where 64 bits can count them.
fn octets_of_both(first: &Item, second: &Item) -> Result<u64, NoMemory>
    ensures { IfOk result (λ n. n ≡ size_of first.now + size_of second.now) }
{
    first
        .octets()?
        .checked_add(second.octets()?)
        .ok_or(NoMemory)
}
