//! Equal copies of what is kept, each value by its own copy.

ghost use Rattle.std.specs.Prelude.{◌≡◌, IfOk, OnOk};
ghost use Rattle.amqp_maps.specs.Listed.{put};

use amqp_types::{AMQPError, ChannelId, NoMemory};
use std::alloc::Global;
use std::collections::{BTreeMap, VecDeque};

/// What has equal copies.
pub trait Copied: Drop {
    /// An equal one.
    fn copied(&self, alloc: Global) -> Result<Self, NoMemory>
        ensures { IfOk result (λ copy. copy ≡ self.now) };
}

impl Copied for ChannelId {
    fn copied(&self, _alloc: Global) -> Result<ChannelId, NoMemory> {
        Ok(*self)
    }
}

impl Copied for AMQPError {
    fn copied(&self, alloc: Global) -> Result<AMQPError, NoMemory> {
        self.try_clone(alloc)
    }
}

/// A queue of equal values in the same order.
pub fn queue<T: Copied>(alloc: Global, values: &VecDeque<T>) -> Result<VecDeque<T>, NoMemory>
    ensures { IfOk result (λ copy. copy.items ≡ values.now.items) }
{
    let mut copy = VecDeque::new(alloc);
    for value in values {
        copy.push_back(value.copied(alloc)?)?;
    }
    Ok(copy)
}

/// A map of equal values at the same channels.
pub fn by_channel<T: Copied>(
    alloc: Global,
    map: &BTreeMap<ChannelId, T>,
) -> Result<BTreeMap<ChannelId, T>, NoMemory>
    ensures { IfOk result (λ copy. copy.entries ≡ map.now.entries) }
{
    // Its clause tells that the channels ascend.
    let _ = map.len();
    let mut copy = BTreeMap::new(alloc);
    for (id, value) in map {
        put_at_channel(alloc, &mut copy, *id, value)?;
    }
    Ok(copy)
}

fn put_at_channel<T: Copied>(
    alloc: Global,
    map: &mut BTreeMap<ChannelId, T>,
    id: ChannelId,
    value: &T,
) -> Result<(), NoMemory>
    ensures { OnOk result (map.new.entries ≡ put id value.now map.old.entries) }
{
    drop(map.insert(id, value.copied(alloc)?)?);
    Ok(())
}

/// A map of equal values at the same numbers.
pub fn by_number<T: Copied>(
    alloc: Global,
    map: &BTreeMap<u64, T>,
) -> Result<BTreeMap<u64, T>, NoMemory>
    ensures { IfOk result (λ copy. copy.entries ≡ map.now.entries) }
{
    // Its clause tells that the numbers ascend.
    let _ = map.len();
    let mut copy = BTreeMap::new(alloc);
    for (number, value) in map {
        put_at_number(alloc, &mut copy, *number, value)?;
    }
    Ok(copy)
}

fn put_at_number<T: Copied>(
    alloc: Global,
    map: &mut BTreeMap<u64, T>,
    number: u64,
    value: &T,
) -> Result<(), NoMemory>
    ensures { OnOk result (map.new.entries ≡ put number value.now map.old.entries) }
{
    drop(map.insert(number, value.copied(alloc)?)?);
    Ok(())
}
