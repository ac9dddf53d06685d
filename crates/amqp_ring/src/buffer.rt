//! A buffer of bytes that are kept, and of room for more.

ghost use Rattle.std.specs.Prelude.{◌≡◌, ◌<◌, ◌≤◌, ◌+◌, ◌++◌, [], length, replicate, min, nat_lt, IfOk, OnOk, OnErr};
ghost use Rattle.amqp_ring.specs.Contexts.{context_bytes};
ghost use Rattle.amqp_ring.specs.Ring.{capacity, consumed, filled, written, rolled_back, grown, emptied};

use crate::checkpoint::Checkpoint;
use crate::context::ParsingContext;
use crate::memory::{pieces, put_from, reserve, step_on, widen};
use amqp_frame::Room;
use amqp_types::NoMemory;
use std::alloc::Global;
use std::fmt;
use std::marker::Model;

/// Bytes that are kept, oldest first, and free ones, as many together as the capacity. They lie in
/// one run of memory, round its end, so that no byte is moved but where the buffer grows. Its `Debug`
/// shows no byte, since what is to be sent may be secret.
#[derive(Drop)]
pub struct Buffer {
    memory: Vec<u8>,
    // where the kept bytes begin
    position: usize,
    // how many bytes are kept
    kept: usize,
}

impl Model for Buffer {
    ghost use Rattle.std.specs.Prelude.{◌<◌, ◌≤◌, length};
    ghost use Rattle.amqp_ring.specs.Ring.{Ring};
    ghost use Rattle.amqp_ring.specs.Memory.{ring_of};

    ghost Value = { Ring };

    ghost view = { λ b. ring_of b.position b.kept b.memory.items };

    ghost invariant = { λ b. (b.position < length b.memory.items) × (b.kept ≤ length b.memory.items) };
}

impl fmt::Debug for Buffer {
    ghost use Rattle.std.specs.Prelude.{Some, codes};

    ghost debug_output = { λ _. Some (codes "Buffer { .. }") };

    fn fmt<W: fmt::Write>(&self, f: &mut fmt::Formatter<W>) -> fmt::Result {
        f.write_str("Buffer { .. }")
    }
}

impl Buffer {
    /// Nothing is kept, and so many zeros are free.
    pub fn with_capacity(alloc: Global, capacity: usize) -> Result<Buffer, NoMemory>
        requires { 1 ≤ capacity }
        ensures { IfOk result (λ b. b ≡ record { kept = []; free = replicate capacity 0 }) }
    {
        Ok(Buffer {
            memory: Vec::from_elem(alloc, 0, capacity)?,
            position: 0,
            kept: 0,
        })
    }

    /// Keeps nothing any more.
    pub fn reset(&mut self)
        ensures { self.new ≡ emptied self.old }
    {
        self.kept = 0;
    }

    /// What is kept now, to roll back to it.
    pub fn checkpoint(&self) -> Checkpoint
        ensures { result ≡ length self.now.kept }
    {
        Checkpoint::of(self.kept)
    }

    /// Keeps as many bytes as at the checkpoint, the oldest ones, or all where there are fewer.
    pub fn rollback(&mut self, checkpoint: Checkpoint)
        ensures { self.new ≡ rolled_back checkpoint self.old }
    {
        self.kept = self.kept.min(checkpoint.kept());
    }

    /// Makes the capacity `new_size`, where it is less. Says whether it was.
    pub fn grow(&mut self, new_size: usize) -> Result<bool, NoMemory>
        ensures answer { IfOk result (λ grew. grew ≡ nat_lt (capacity self.old) new_size) }
        ensures grown { OnOk result (self.new ≡ grown new_size self.old) }
        ensures refused { OnErr result (capacity self.old < new_size) }
        ensures unchanged { OnErr result (self.new ≡ self.old) }
    {
        if new_size <= self.memory.len() {
            return Ok(false);
        }
        reserve(&mut self.memory, new_size)?;
        widen(&mut self.memory, &mut self.position, new_size);
        Ok(true)
    }

    /// Grows two buffers to the same capacity, each as `grow` does, or none of them where memory for
    /// both is refused.
    pub fn grow_both(
        first: &mut Buffer,
        second: &mut Buffer,
        new_size: usize,
    ) -> Result<(), NoMemory>
        ensures first { OnOk result (first.new ≡ grown new_size first.old) }
        ensures second { OnOk result (second.new ≡ grown new_size second.old) }
        ensures refused { OnErr result (min (capacity first.old) (capacity second.old) < new_size) }
        ensures unchanged { OnErr result ((first.new ≡ first.old) × (second.new ≡ second.old)) }
    {
        reserve(&mut first.memory, new_size)?;
        reserve(&mut second.memory, new_size)?;
        widen(&mut first.memory, &mut first.position, new_size);
        widen(&mut second.memory, &mut second.position, new_size);
        Ok(())
    }

    /// How many bytes are kept.
    pub fn available_data(&self) -> usize
        ensures { result ≡ length self.now.kept }
    {
        self.kept
    }

    /// How many bytes are free.
    pub fn available_space(&self) -> usize
        ensures { result ≡ length self.now.free }
    {
        self.memory.len() - self.kept
    }

    /// The oldest bytes are kept no more, `count` of them or all. Says how many.
    pub fn consume(&mut self, count: usize) -> usize
        ensures count { result ≡ min count (length self.old.kept) }
        ensures consumed { self.new ≡ consumed count self.old }
    {
        let count = count.min(self.kept);
        self.position = step_on(self.position, count, self.memory.len());
        self.kept -= count;
        count
    }

    /// The first free bytes are kept, `count` of them or all. Says how many.
    pub fn fill(&mut self, count: usize) -> usize
        ensures count { result ≡ min count (length self.old.free) }
        ensures filled { self.new ≡ filled count self.old }
    {
        let count = count.min(self.memory.len() - self.kept);
        self.kept += count;
        count
    }

    /// Keeps as many of these bytes as there is room for. Says how many.
    pub fn write(&mut self, bytes: &[u8]) -> usize
        ensures count { result ≡ min (length bytes.now) (length self.old.free) }
        ensures written { self.new ≡ written bytes.now self.old }
    {
        let size = self.memory.len();
        let count = bytes.len().min(size - self.kept);
        let place = step_on(self.position, self.kept, size);
        put_from(&mut self.memory, place, &bytes[..count]);
        self.kept += count;
        count
    }

    /// The kept bytes in order, the second slice behind the first.
    pub fn slices(&self) -> (&[u8], &[u8])
        ensures { result.0.now ++ result.1.now ≡ self.now.kept }
    {
        pieces(&self.memory, self.position, self.kept)
    }

    /// The kept bytes, to be read.
    pub fn parsing_context(&self) -> ParsingContext<'_>
        ensures { context_bytes result ≡ self.now.kept }
    {
        let (first, second) = self.slices();
        ParsingContext::from_slices(first, second)
    }

    /// How many kept bytes lie before a rest of them: what was read, and can be consumed.
    pub fn offset(&self, rest: ParsingContext<'_>) -> usize
        requires { length (context_bytes rest) ≤ length self.now.kept }
        ensures { result + length (context_bytes rest.entry) ≡ length self.now.kept }
    {
        self.kept - rest.input_len()
    }

    /// The free bytes in order, to be written; `fill` then keeps the first of them.
    pub fn spaces(&mut self) -> (&mut [u8], &mut [u8])
        ensures { result.0.now ++ result.1.now ≡ self.old.free }
    {
        let position = self.position;
        let kept = self.kept;
        let memory = self.memory.as_mut_slice();
        let to_end = memory.len() - position;
        if kept < to_end {
            let (front, back) = memory.split_at_mut(position + kept);
            (back, &mut front[..position])
        } else {
            let (front, back) = memory.split_at_mut(position);
            (&mut front[kept - to_end..], &mut back[..0])
        }
    }
}

impl Room for Buffer {
    ghost put_so_far = { λ b. b.kept };

    ghost free = { λ b. length b.free };

    fn space(&self) -> usize {
        self.available_space()
    }

    fn put(&mut self, bytes: &[u8]) {
        self.write(bytes);
    }
}
