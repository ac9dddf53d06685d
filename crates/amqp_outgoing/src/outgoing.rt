//! What is to go out.

ghost use Rattle.std.specs.Prelude.{◌≡◌, ◌≢◌, ◌∷◌, ◌++◌, ◌+◌, ◌≤◌, ◌<◌, ◌^◌, ℕ, suc, [], Option, IfOk, IfSome, IfNone, OnOk, OnErr, length, option_copied};
ghost use Rattle.amqp_outbox.specs.declared.item.Item.{Item};
ghost use Rattle.amqp_outbox.specs.declared.reply.Reply.{Reply};
ghost use Rattle.amqp_outbox.specs.declared.scope.Scope.TheVariants.{All};
ghost use Rattle.amqp_outbox.specs.Listed.{Ascends};
ghost use Rattle.amqp_outbox.specs.Items.{dropped_with, size_of};
ghost use Rattle.amqp_outbox.specs.Parts.{queued};
ghost use Rattle.amqp_outbox.specs.Queued.{nothing_queued, next_item, after_next, waiting_items, unsent_octets, pushed_control, with_awaited, awaited_promise, without_awaited, only, unbegun_promise, without_unbegun, dropped_promise, without_channel, reply_promise, without_reply};
ghost use Rattle.amqp_outgoing.specs.Marks.{left_in, mark_of, first_among, after_first};
ghost use Rattle.amqp_outgoing.specs.Places.{marks_in, places_in};

mod asking;

use crate::committed::{Committed, Mark};
use amqp_outbox::{Awaited, Item, Outbox, Reply, Scope};
use amqp_types::{ChannelId, NoMemory};
use std::alloc::Global;

/// What is to go out: the frames that wait, with the replies that are awaited, and the frames that are
/// committed and not wholly sent. Each frame that waits has its place among the committed ones, so
/// that no memory is taken when it is committed.
///
/// A call that adds takes memory, which can be refused; nothing is changed then. It is refused too where
/// more would wait than 64 bits can count. Where more is changed than what is to go out, places are made
/// first, by the calls `reserve_`, and those that end in `_reserved` take no memory.
#[derive(Drop)]
pub struct Outgoing {
    outbox: Outbox,
    committed: Committed,
    ghost placed: { length (marks_in committed) + length (waiting_items (queued outbox)) ≤ places_in committed },
}

impl Outgoing {
    ghost use Rattle.amqp_outgoing.specs.Outgoings.{queue_of, marks, HasFramePlaces, HasAwaitedPlace};

    /// Nothing is to go out.
    pub fn new(alloc: Global) -> Outgoing
        ensures waits { queue_of result ≡ nothing_queued }
        ensures marks { marks result ≡ [] }
    {
        Outgoing {
            outbox: Outbox::new(alloc),
            committed: Committed::new(alloc),
        }
    }

    /// The same frames and replies. Places beyond those of the frames that wait are not copied.
    pub fn try_clone(&self, alloc: Global) -> Result<Outgoing, NoMemory>
        ensures waits { IfOk result (λ o. queue_of o ≡ queue_of self.now) }
        ensures marks { IfOk result (λ o. marks o ≡ marks self.now) }
    {
        let waiting = self.outbox.len() as usize;
        let committed = self.committed.try_clone(alloc, waiting)?;
        let outbox = self.outbox.try_clone(alloc)?;
        Ok(Outgoing { outbox, committed })
    }

    /// How many frames wait; those that are committed are not counted.
    pub fn len(&self) -> u64
        ensures { result ≡ length (waiting_items (queue_of self.now)) }
    {
        self.outbox.len()
    }

    /// How many octets spell the frames that wait.
    pub fn waiting_len(&self) -> u64
        ensures { result ≡ unsent_octets (queue_of self.now) }
    {
        self.outbox.unsent_len()
    }

    /// How many bytes of the committed frames are unsent.
    pub fn unsent(&self) -> u64
        ensures { result ≡ left_in (marks self.now) }
    {
        self.committed.unsent()
    }

    // ---- what goes out

    /// The frame that is committed next. Publishes wait where they do not flow.
    pub fn front(&self, flow: bool) -> Option<&Item>
        ensures { option_copied result ≡ next_item flow (queue_of self.now) }
    {
        self.outbox.front(flow)
    }

    /// Commits the next frame, where it is at most so many bytes long, and gives it. It takes no memory.
    /// What is unsent and so many bytes are together below 2^63.
    pub fn commit(&mut self, flow: bool, space: u64) -> Option<Item>
        requires small { left_in (marks self.old) + space < 2 ^ 63 }
        ensures next { IfSome result (λ item. next_item flow (queue_of self.old) ≡ Some item) }
        ensures fits { IfSome result (λ item. size_of item ≤ space) }
        ensures waits { IfSome result (λ item. queue_of self.new ≡ after_next flow (queue_of self.old)) }
        ensures marks { IfSome result (λ item. marks self.new ≡ marks self.old ++ mark_of item ∷ []) }
        ensures long { IfNone result (IfSome (next_item flow (queue_of self.old)) (λ item. space < size_of item)) }
        ensures same_waits { IfNone result (queue_of self.new ≡ queue_of self.old) }
        ensures same_marks { IfNone result (marks self.new ≡ marks self.old) }
    {
        let mark = Mark::of_item(self.outbox.front(flow)?, space)?;
        self.committed.push(mark);
        self.outbox.next(flow)
    }

    /// Takes out the first committed frame, where its last byte is among the next n. Else these n are taken
    /// from it.
    pub fn take_first(&mut self, n: u64) -> Option<Mark>
        ensures first { result ≡ first_among n (marks self.old) }
        ensures rest { marks self.new ≡ after_first n (marks self.old) }
        ensures waits { queue_of self.new ≡ queue_of self.old }
    {
        self.committed.take_first(n)
    }

    // ---- places

    /// Makes places for so many frames more, of so many octets in all (`Item::octets`), each dropped with
    /// this channel, or with none (`Item::dropped_with`).
    pub fn reserve_frames(
        &mut self,
        dropped_with: Option<ChannelId>,
        frames: usize,
        octets: u64,
    ) -> Result<(), NoMemory>
        ensures waits { queue_of self.new ≡ queue_of self.old }
        ensures marks { marks self.new ≡ marks self.old }
        ensures places { OnOk result (HasFramePlaces dropped_with frames octets self.new) }
        ensures reply { (c : ℕ) (r : Reply) → HasAwaitedPlace c r self.old → HasAwaitedPlace c r self.new }
    {
        self.outbox.reserve_control(dropped_with, frames, octets)?;
        self.committed.reserve(self.outbox.len() as usize + frames)
    }

    /// Makes a place for this frame.
    pub fn reserve_item(&mut self, item: &Item) -> Result<(), NoMemory>
        ensures waits { queue_of self.new ≡ queue_of self.old }
        ensures marks { marks self.new ≡ marks self.old }
        ensures places { OnOk result (HasFramePlaces (dropped_with item.now) 1 (size_of item.now) self.new) }
        ensures reply { (c : ℕ) (r : Reply) → HasAwaitedPlace c r self.old → HasAwaitedPlace c r self.new }
    {
        let octets = item.octets()?;
        self.reserve_frames(item.dropped_with(), 1, octets)
    }

    /// Makes a place for one more that awaits this reply on a channel.
    pub fn reserve_reply(&mut self, id: ChannelId, reply: Reply) -> Result<(), NoMemory>
        ensures waits { queue_of self.new ≡ queue_of self.old }
        ensures marks { marks self.new ≡ marks self.old }
        ensures place { OnOk result (HasAwaitedPlace id reply self.new) }
        ensures frames { (k : Option ℕ) (n octets : ℕ) → HasFramePlaces k n octets self.old
            → HasFramePlaces k n octets self.new }
        ensures reply { (c : ℕ) (r : Reply) → c ≢ id → HasAwaitedPlace c r self.old → HasAwaitedPlace c r self.new }
    {
        self.outbox.reserve_reply(id, reply)
    }

    /// A frame goes last in the control lane, where it has its place.
    pub fn say_reserved(&mut self, item: Item)
        requires { HasFramePlaces (dropped_with item) 1 (size_of item) self.old }
        ensures waits { queue_of self.new ≡ pushed_control item (queue_of self.old) }
        ensures marks { marks self.new ≡ marks self.old }
        ensures frames { (n octets : ℕ) → HasFramePlaces (dropped_with item) (suc n) (size_of item + octets) self.old
            → HasFramePlaces (dropped_with item) n octets self.new }
        ensures reply { (c : ℕ) (r : Reply) → HasAwaitedPlace c r self.old → HasAwaitedPlace c r self.new }
    {
        self.outbox.push_control_reserved(item);
    }

    /// A reply is awaited on a channel, after the others, where it has its place.
    pub fn expect_reserved(&mut self, id: ChannelId, awaited: Awaited)
        requires { HasAwaitedPlace id awaited.reply self.old }
        ensures waits { queue_of self.new ≡ with_awaited id awaited (queue_of self.old) }
        ensures marks { marks self.new ≡ marks self.old }
        ensures frames { (k : Option ℕ) (n octets : ℕ) → HasFramePlaces k n octets self.old
            → HasFramePlaces k n octets self.new }
        ensures reply { (c : ℕ) (r : Reply) → c ≢ id → HasAwaitedPlace c r self.old → HasAwaitedPlace c r self.new }
    {
        self.outbox.expect_reserved(id, awaited);
    }

    // ---- what is dropped

    /// Takes out the first thing of a channel in a scope, and gives its promise: of groups that have not
    /// begun, then of frames in the control lane, then of awaited replies. `None` where none is left.
    pub fn drop_channel(&mut self, id: ChannelId, scope: Scope) -> Option<Option<u64>>
        ensures promise { result ≡ dropped_promise id scope (queue_of self.old) }
        ensures rest { queue_of self.new ≡ without_channel id scope (queue_of self.old) }
        ensures marks { marks self.new ≡ marks self.old }
        ensures frames { (k : Option ℕ) (n octets : ℕ) → HasFramePlaces k n octets self.old
            → HasFramePlaces k n octets self.new }
        ensures reply { scope ≢ All → (c : ℕ) (r : Reply) → HasAwaitedPlace c r self.old
            → HasAwaitedPlace c r self.new }
        ensures ordered { scope ≡ All → Ascends (queue_of self.old).awaited }
    {
        self.outbox.drop_channel(id, scope)
    }

    /// Takes out the first group that has not begun, whatever its channel, and gives its promise. `None`
    /// where none is left.
    pub fn drop_unbegun(&mut self) -> Option<Option<u64>>
        ensures promise { result ≡ unbegun_promise (queue_of self.old) }
        ensures rest { queue_of self.new ≡ without_unbegun (queue_of self.old) }
        ensures marks { marks self.new ≡ marks self.old }
        ensures frames { (k : Option ℕ) (n octets : ℕ) → HasFramePlaces k n octets self.old
            → HasFramePlaces k n octets self.new }
        ensures reply { (c : ℕ) (r : Reply) → HasAwaitedPlace c r self.old → HasAwaitedPlace c r self.new }
    {
        self.outbox.drop_unbegun()
    }

    /// Takes out the first reply that is awaited on a channel, and gives its promise. `None` where none
    /// is.
    pub fn drop_reply(&mut self, id: ChannelId) -> Option<Option<u64>>
        ensures promise { result ≡ reply_promise id (queue_of self.old) }
        ensures rest { queue_of self.new ≡ without_reply id (queue_of self.old) }
        ensures marks { marks self.new ≡ marks self.old }
        ensures frames { (k : Option ℕ) (n octets : ℕ) → HasFramePlaces k n octets self.old
            → HasFramePlaces k n octets self.new }
        ensures ordered { Ascends (queue_of self.old).awaited }
    {
        self.outbox.drop_reply(id)
    }

    /// The reply came that the first such one on this channel awaits, which is taken out. `None` where
    /// none does.
    pub fn answer(&mut self, id: ChannelId, reply: Reply) -> Option<Option<u64>>
        ensures promise { result ≡ awaited_promise id reply (queue_of self.old) }
        ensures rest { queue_of self.new ≡ without_awaited id reply (queue_of self.old) }
        ensures none { IfNone result (queue_of self.new ≡ queue_of self.old) }
        ensures marks { marks self.new ≡ marks self.old }
    {
        self.outbox.answer(id, reply)
    }

    /// Nothing is to go out any more, and nothing is awaited.
    pub fn clear(&mut self)
        ensures waits { queue_of self.new ≡ nothing_queued }
        ensures marks { marks self.new ≡ [] }
    {
        self.outbox.drop_all();
        self.committed.clear();
    }

    /// A frame alone waits, and nothing is awaited; what is committed stays.
    pub fn say_only(&mut self, item: Item) -> Result<(), NoMemory>
        ensures ok { OnOk result (queue_of self.new ≡ only item) }
        ensures err { OnErr result (queue_of self.new ≡ queue_of self.old) }
        ensures marks { marks self.new ≡ marks self.old }
    {
        if let Err(refused) = self.committed.reserve(1) {
            drop(item);
            return Err(refused);
        }
        self.outbox.restart(item)
    }

    /// A frame alone is to go out, on another link.
    pub fn restart(&mut self, item: Item) -> Result<(), NoMemory>
        ensures ok { OnOk result (queue_of self.new ≡ only item) }
        ensures marks { OnOk result (marks self.new ≡ []) }
        ensures err { OnErr result (queue_of self.new ≡ queue_of self.old) }
        ensures err_marks { OnErr result (marks self.new ≡ marks self.old) }
    {
        self.say_only(item)?;
        self.committed.clear();
        Ok(())
    }
}
