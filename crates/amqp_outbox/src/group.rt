//! The frames of one publish.

ghost use Rattle.std.specs.Prelude.{◌≡◌, ◌+◌, ◌<◌, ◌++◌, ◌∷◌, [], IfOk, drop, length, map, sum_by};
ghost use Rattle.amqp_frame.specs.Frames.{encoding};
ghost use Rattle.amqp_outbox.specs.Items.{plain_item, octets_of, channel_of, promise_of_group, group_of};

use crate::item::Item;
use crate::lane::Keyed;
use amqp_frame::{Frame, encoded_len};
use amqp_types::{ChannelId, NoMemory};
use std::alloc::Global;
use std::collections::VecDeque;
use std::marker::Model;

/// The frames of one publish, which go out unbroken. Its promise stands at the last of them.
#[derive(Debug, Drop)]
pub struct Group {
    first: Item,
    rest: VecDeque<Item>,
    /// How many octets spell all of them.
    octets: u64,
}

impl Model for Group {
    ghost use Rattle.std.specs.Prelude.{◌≡◌, List, ◌∷◌};
    ghost use Rattle.amqp_outbox.specs.declared.item.Item.{Item};
    ghost use Rattle.amqp_outbox.specs.Items.{octets_of};

    ghost Value = { List Item };

    ghost use Rattle.std.specs.Coded.{codes};
    ghost use Rattle.amqp_types.specs.ValueCode.{value_code};

    ghost coded = { Prim.hlevel (codes, value_code) };

    ghost view = { λ g. g.first ∷ g.rest.items };

    ghost invariant = { λ g. g.octets ≡ octets_of (g.first ∷ g.rest.items) };
}

impl Group {
    /// Frames of a channel as one group, which answers a promise. Memory is refused too where 64 bits
    /// cannot tell how many octets spell them.
    pub fn new(
        alloc: Global,
        channel: ChannelId,
        mut frames: Vec<Frame>,
        promise: u64,
    ) -> Result<Group, NoMemory>
        requires { 0 < length frames.items }
        ensures { IfOk result (λ g. g ≡ group_of channel frames.items promise) }
    {
        let octets = octets_in(&frames)?;
        let Some(last) = frames.pop() else {
            unreachable!()
        };
        let last = Item::promised(channel, last, promise);
        match items_of(alloc, channel, frames) {
            Ok(items) => Group::ended_by(items, last, octets),
            Err(refused) => {
                drop(last);
                Err(refused)
            }
        }
    }

    fn ended_by(mut items: VecDeque<Item>, last: Item, octets: u64) -> Result<Group, NoMemory>
        requires { octets ≡ octets_of (items.items ++ last ∷ []) }
        ensures { IfOk result (λ g. g ≡ items.items ++ last ∷ []) }
    {
        items.push_back(last)?;
        match items.pop_front() {
            Some(first) => Ok(Group {
                first,
                rest: items,
                octets,
            }),
            None => unreachable!(),
        }
    }

    /// The frame that goes first.
    pub fn first(&self) -> &Item
        ensures { self.now ≡ result.now ∷ drop 1 self.now }
    {
        &self.first
    }

    /// The frame that goes first, and the others.
    pub(crate) fn into_parts(self) -> (Item, VecDeque<Item>)
        ensures { self ≡ result.0 ∷ result.1.items }
    {
        (self.first, self.rest)
    }

    /// How many frames it has.
    pub fn len(&self) -> u64
        ensures { result ≡ length self.now }
    {
        self.rest.len() as u64 + 1
    }

    /// How many octets spell its frames.
    pub fn octets(&self) -> u64
        ensures { result ≡ octets_of self.now }
    {
        self.octets
    }

    /// The promise that it answers.
    pub fn promise(&self) -> Option<u64>
        ensures { result ≡ promise_of_group self.now }
    {
        match self.rest.back() {
            Some(last) => last.promise(),
            None => self.first.promise(),
        }
    }

    /// Equal frames in the same order.
    pub fn try_clone(&self, alloc: Global) -> Result<Group, NoMemory>
        ensures { IfOk result (λ g. g ≡ self.now) }
    {
        let rest = copies(alloc, &self.rest)?;
        Ok(Group {
            first: self.first.try_clone(alloc)?,
            rest,
            octets: self.octets,
        })
    }
}

// Equal frames in the same order.
pub(crate) fn copies(alloc: Global, items: &VecDeque<Item>) -> Result<VecDeque<Item>, NoMemory>
    ensures { IfOk result (λ q. q.items ≡ items.now.items) }
{
    let mut copies = VecDeque::with_capacity(alloc, items.len())?;
    for item in items {
        copies.push_back(item.try_clone(alloc)?)?;
    }
    Ok(copies)
}

// How many octets spell some frames, where 64 bits can tell.
fn octets_in(frames: &[Frame]) -> Result<u64, NoMemory>
    ensures { IfOk result (λ n. n ≡ sum_by (λ frame. length (encoding frame)) frames.now) }
{
    let mut octets = 0;
    for frame in frames {
        octets = plus(octets, frame)?;
    }
    Ok(octets)
}

fn plus(octets: u64, frame: &Frame) -> Result<u64, NoMemory>
    ensures { IfOk result (λ n. n ≡ octets + length (encoding frame.now)) }
{
    let size = encoded_len(frame);
    if u64::MAX - octets <= size {
        return Err(NoMemory);
    }
    Ok(octets + size)
}

// Frames of a channel that answer no promise.
fn items_of(
    alloc: Global,
    channel: ChannelId,
    frames: Vec<Frame>,
) -> Result<VecDeque<Item>, NoMemory>
    ensures { IfOk result (λ q. q.items ≡ map (plain_item channel) frames.items) }
{
    let mut items = VecDeque::with_capacity(alloc, frames.len() + 1)?;
    for frame in frames {
        items.push_back(Item::plain(channel, frame))?;
    }
    Ok(items)
}

impl Keyed for Group {
    ghost key_of = { channel_of };

    fn key(&self) -> Option<u16> {
        Some(self.first.channel())
    }

    fn copied(&self, alloc: Global) -> Result<Group, NoMemory> {
        self.try_clone(alloc)
    }
}
