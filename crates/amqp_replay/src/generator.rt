//! The script that a number makes.

ghost use Rattle.std.specs.Prelude.{◌≡◌, ◌++◌, OnOk, IfOk};
ghost use Rattle.std.specs.List.{flat_map, range_with_len};
ghost use Rattle.std.specs.String.{string_bytes};
ghost use Rattle.amqp_replay.specs.Generator.{opened, opening_lines, publishing, body_text, ending, generated};

use crate::report::put_digits;
use amqp_types::NoMemory;
use std::alloc::Global;

/// The script of a number: so many channels are opened, and a message is published on each.
pub fn generated(alloc: Global, count: u16) -> Result<String, NoMemory>
    ensures { IfOk result (λ text. string_bytes text ≡ generated count) }
{
    let mut out = String::new(alloc);
    match put_generated(alloc, &mut out, count) {
        Ok(()) => Ok(out),
        Err(e) => {
            drop(out);
            Err(e)
        }
    }
}

// All lines of the script.
fn put_generated(alloc: Global, out: &mut String, count: u16) -> Result<(), NoMemory>
    ensures { OnOk result (string_bytes out.new ≡ string_bytes out.old ++ generated count) }
{
    put_opened(out)?;
    put_openings(alloc, out, count)?;
    put_publishings(out, count)?;
    put_ending(out)?;
    Ok(())
}

// The lines of the handshake.
fn put_opened(out: &mut String) -> Result<(), NoMemory>
    ensures { OnOk result (string_bytes out.new ≡ string_bytes out.old ++ opened) }
{
    out.push_str(
        "link\n\
        bytes 01000000000061000a000a00090000003c\
        0c6361706162696c69746965734600000015\
        127075626c69736865725f636f6e6669726d737401\
        0770726f6475637453000000085261626269744d51\
        0000000e504c41494e20414d51504c41494e00000005656e5f5553ce\n\
        bytes 0100000000000c000a001e07ff00020000003cce\n\
        bytes 01000000000005000a002900ce\n",
    )?;
    Ok(())
}

// The lines that open the channels.
fn put_openings(alloc: Global, out: &mut String, count: u16) -> Result<(), NoMemory>
    ensures { OnOk result (string_bytes out.new
        ≡ string_bytes out.old ++ flat_map opening_lines (range_with_len 1 count)) }
{
    'channels: for id in 1..=count {
        put_opening(alloc, out, id)?;
    }
    Ok(())
}

// The lines that open a channel.
fn put_opening(alloc: Global, out: &mut String, id: u16) -> Result<(), NoMemory>
    ensures { OnOk result (string_bytes out.new ≡ string_bytes out.old ++ opening_lines id) }
{
    out.push_str("open\nbytes 01")?;
    put_digits(alloc, out, &id.to_be_bytes())?;
    out.push_str("000000080014000b00000000ce\n")?;
    Ok(())
}

// The lines that publish.
fn put_publishings(out: &mut String, count: u16) -> Result<(), NoMemory>
    ensures { OnOk result (string_bytes out.new
        ≡ string_bytes out.old ++ flat_map publishing (range_with_len 1 count)) }
{
    'channels: for id in 1..=count {
        put_publishing(out, id)?;
    }
    Ok(())
}

// The line that publishes on a channel.
fn put_publishing(out: &mut String, id: u16) -> Result<(), NoMemory>
    ensures { OnOk result (string_bytes out.new ≡ string_bytes out.old ++ publishing id) }
{
    write!(out, "publish {id} 60 40 0000000568656c6c6f00 0000 ")?;
    put_body(out, id as u64 * 7919 % 9000)?;
    out.push_str("\n")?;
    Ok(())
}

// A body of so many zeros.
fn put_body(out: &mut String, size: u64) -> Result<(), NoMemory>
    ensures { OnOk result (string_bytes out.new ≡ string_bytes out.old ++ body_text size) }
{
    if size == 0 {
        out.push_str("-")?;
    } else {
        write!(out, "z{size}")?;
    }
    Ok(())
}

// The lines that close the connection.
fn put_ending(out: &mut String) -> Result<(), NoMemory>
    ensures { OnOk result (string_bytes out.new ≡ string_bytes out.old ++ ending) }
{
    out.push_str("shut 200 OK\nbytes 01000000000004000a0033ce\n")?;
    Ok(())
}
