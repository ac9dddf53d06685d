//! One run of memory, whose bytes are looked at and written round its end.

ghost use Rattle.std.specs.Prelude.{◌≡◌, ◌<◌, ◌≤◌, ◌-◌, ◌++◌, OnOk, OnErr, length, take, drop, replicate, vec_capacity};
ghost use Rattle.amqp_ring.specs.Memory.{rotate, wrap};

use amqp_types::NoMemory;

// Makes places for so many bytes in all.
pub(crate) fn reserve(memory: &mut Vec<u8>, size: usize) -> Result<(), NoMemory>
    ensures same { memory.new.items ≡ memory.old.items }
    ensures places { OnOk result (size ≤ vec_capacity memory.new) }
    ensures refused { OnErr result (length memory.old.items < size) }
{
    let more = size.saturating_sub(memory.len());
    memory.reserve_exact(more)?;
    Ok(())
}

// Where there are fewer, makes it so many bytes in all: those from the place on, round the end, and then zeros. The
// place is then the first.
pub(crate) fn widen(memory: &mut Vec<u8>, place: &mut usize, size: usize)
    requires within { place.old < length memory.old.items }
    requires places { size ≤ vec_capacity memory.old }
    ensures bytes { rotate place.new memory.new.items
        ≡ rotate place.old memory.old.items ++ replicate (size - length memory.old.items) 0 }
    ensures within { place.new < length memory.new.items }
    ensures longer { length memory.old.items ≤ length memory.new.items }
{
    let old = memory.len();
    if size <= old {
        return;
    }
    memory.rotate_left(*place);
    *place = 0;
    // The memory is there, so that nothing is refused.
    let _ = memory.resize(size, 0);
}

// The place `count` bytes behind `place`, round the end.
pub(crate) fn step_on(place: usize, count: usize, size: usize) -> usize
    requires within { place < size }
    requires once { count ≤ size }
    ensures value { result ≡ wrap size place count }
    ensures within { result < size }
{
    let to_end = size - place;
    if count < to_end {
        place + count
    } else {
        count - to_end
    }
}

// Writes these bytes from a place on, round the end.
pub(crate) fn put_from(memory: &mut [u8], place: usize, bytes: &[u8])
    requires within { place < length memory.old }
    requires fit { length bytes.now ≤ length memory.old }
    ensures len { length memory.new ≡ length memory.old }
    ensures put { rotate place memory.new ≡ bytes.now ++ drop (length bytes.now) (rotate place memory.old) }
{
    let to_end = memory.len() - place;
    if bytes.len() <= to_end {
        memory[place..place + bytes.len()].copy_from_slice(bytes);
    } else {
        let (first, rest) = bytes.split_at(to_end);
        memory[place..].copy_from_slice(first);
        memory[..rest.len()].copy_from_slice(rest);
    }
}

// The first `count` bytes from a place on, round the end, in two pieces.
pub(crate) fn pieces(memory: &[u8], place: usize, count: usize) -> (&[u8], &[u8])
    requires within { place < length memory.now }
    requires fit { count ≤ length memory.now }
    ensures { result.0.now ++ result.1.now ≡ take count (rotate place memory.now) }
{
    let to_end = memory.len() - place;
    if count <= to_end {
        (&memory[place..place + count], &[])
    } else {
        (&memory[place..], &memory[..count - to_end])
    }
}
