//! Want of memory: what was refused once has changed nothing, and is asked for again. These tests are
//! to be run with each allocation failing in turn.

ghost use Rattle.std.specs.Prelude.{◌≤◌};

use crate::ring::steps::is;
use amqp_ring::Buffer;
use amqp_types::NoMemory;
use std::alloc::Global;

fn buffer_of(alloc: Global, capacity: usize) -> Result<Buffer, NoMemory>
    requires { 1 ≤ capacity }
{
    match Buffer::with_capacity(alloc, capacity) {
        Ok(buffer) => Ok(buffer),
        Err(NoMemory) => Buffer::with_capacity(alloc, capacity),
    }
}

// Whether these bytes are kept, and so many are free.
fn has(buffer: &Buffer, kept: &[u8], free: usize) -> bool {
    is(buffer.parsing_context(), kept) && buffer.available_space() == free
}

// Keeps `dxyz` round the end of a capacity of 4.
fn fill_round(buffer: &mut Buffer) {
    buffer.write(b"abcd");
    buffer.consume(3);
    buffer.write(b"xyz");
}

// Whether a buffer of this kind grows to 6, at once or after a refusal.
fn grows(buffer: &mut Buffer) -> bool {
    let grew = match buffer.grow(6) {
        Ok(grew) => grew,
        Err(NoMemory) => has(buffer, b"dxyz", 0) && buffer.grow(6) == Ok(true),
    };
    grew && has(buffer, b"dxyz", 2)
}

#[test]
fn a_refused_growth_changes_nothing(rt: HostRuntime) -> Result<(), NoMemory> {
    let mut buffer = buffer_of(rt.alloc(), 4)?;
    fill_round(&mut buffer);
    let told = grows(&mut buffer);
    drop(buffer);
    assert!(rt; told);
    Ok(())
}

// Whether one of this kind and an empty one of 7 both grow to 9, at once or after a refusal at which
// neither grew.
fn both_grow(first: &mut Buffer, second: &mut Buffer) -> bool {
    let grew = match Buffer::grow_both(first, second, 9) {
        Ok(()) => true,
        Err(NoMemory) => {
            has(first, b"dxyz", 0)
                && has(second, b"", 7)
                && Buffer::grow_both(first, second, 9).is_ok()
        }
    };
    grew && has(first, b"dxyz", 5) && has(second, b"", 9)
}

#[test]
fn a_refused_growth_of_two_changes_neither(rt: HostRuntime) -> Result<(), NoMemory> {
    let mut first = buffer_of(rt.alloc(), 4)?;
    let mut second = buffer_of(rt.alloc(), 7)?;
    fill_round(&mut first);
    let told = both_grow(&mut first, &mut second);
    drop(second);
    drop(first);
    assert!(rt; told);
    Ok(())
}
