//! The headers of a message: a table among its properties.

ghost use Rattle.std.specs.Prelude.{◌≡◌, ℕ, List, Some, IfOk, option_map, if◌then◌else◌};
ghost use Rattle.amqp_types.specs.Spelling.{spell_pairs};
ghost use Rattle.amqp_types.specs.Value.{pairs_from};
ghost use Rattle.amqp_methods.specs.Heard.{ReadsOff};
ghost use Rattle.amqp_methods.specs.Headers.{width_of, tag_value_at, tagged_at, pair_at, header_in};

use crate::rest::Rest;
use crate::said::size_of;
use amqp_frame::{FixedRoom, put_table};
use amqp_types::{FieldTable, NoMemory, TypeFault};
use std::alloc::Global;

/// The octets of a table, without the four of its length: the headers of a message.
pub fn headers_of(alloc: Global, table: &FieldTable) -> Result<Vec<u8>, TypeFault>
    ensures { IfOk result (λ v. v.items ≡ spell_pairs (pairs_from table.now)) }
{
    let size = size_of(table)?;
    let mut room = FixedRoom::new(alloc, size)?;
    put_table(table, &mut room);
    match Vec::from_slice(alloc, &room.as_slice()[4..]) {
        Ok(octets) => Ok(octets),
        Err(_) => Err(TypeFault::NoMemory),
    }
}

// How many octets a value has behind its tag, where no length says it.
fn width_of(tag: u8) -> Option<usize>
    ensures { result ≡ width_of tag }
{
    match tag {
        b'V' => Some(0),
        b't' | b'b' | b'B' => Some(1),
        b's' | b'u' | b'U' => Some(2),
        b'I' | b'i' | b'f' => Some(4),
        b'D' => Some(5),
        b'l' | b'L' | b'd' | b'T' => Some(8),
        _ => None,
    }
}

impl<'a> Rest<'a> {
    // The octets of a value with this tag, without those of a length.
    fn value(&mut self, tag: u8) -> Option<&'a [u8]>
        ensures { ReadsOff (λ v. v.now) result self.new.bytes.now (tag_value_at tag self.old.bytes.now) }
    {
        match width_of(tag) {
            Some(width) => self.octets(width),
            None if matches!(tag, b'S' | b'x' | b'A' | b'F') => self.long(),
            None => None,
        }
    }

    // A tag, and the octets of a value with it.
    fn tagged(&mut self) -> Option<(u8, &'a [u8])>
        ensures { ReadsOff (λ v. (v.0, v.1.now)) result self.new.bytes.now (tagged_at self.old.bytes.now) }
    {
        let tag = self.octet()?;
        let value = self.value(tag)?;
        Some((tag, value))
    }

    // A name, and the value behind it.
    fn pair(&mut self) -> Option<(&'a [u8], (u8, &'a [u8]))>
        ensures { ReadsOff (λ p. (p.0.now, (p.1.0, p.1.1.now))) result self.new.bytes.now
            (pair_at self.old.bytes.now) }
    {
        let name = self.short()?;
        let value = self.tagged()?;
        Some((name, value))
    }
}

// A value where it has the name that is looked for, and else the one that was found before.
fn later<'a>(
    is_named: bool,
    value: (u8, &'a [u8]),
    found: Option<(u8, &'a [u8])>,
) -> Option<(u8, &'a [u8])>
    ensures { option_map {U = ℕ × List ℕ} (λ v. (v.0, v.1.now)) result
        ≡ (if is_named then Some (value.entry.0, value.entry.1.now)
        else option_map {U = ℕ × List ℕ} (λ v. (v.0, v.1.now)) found.entry) }
{
    if is_named { Some(value) } else { found }
}

/// The value of a name in headers: its tag, and its octets behind that, without those of a length. Of equal
/// names the last counts; none where the octets are no table.
pub fn header_named<'a>(headers: &'a [u8], name: &[u8]) -> Option<(u8, &'a [u8])>
    ensures { option_map (λ v. (v.0, v.1.now)) result ≡ header_in name.now headers.now }
{
    let mut rest = Rest { bytes: headers };
    let mut found = None;
    'pairs: for _ in 0..headers.len() {
        if rest.bytes.is_empty() {
            return found;
        }
        let (key, value) = rest.pair()?;
        let is_named = key == name;
        let newer = later(is_named, value, found);
        found = newer;
    }
    found
}
