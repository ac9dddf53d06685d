//! Reading of field values, arrays and tables.

ghost use Rattle.std.specs.Prelude.{◌≡◌, length, map};
ghost use Rattle.std.specs.Int.{w32};
ghost use Rattle.amqp_types.specs.Reading.{octet_at, number_at, long_string_at, ◌⊗◌, scalar_at, read_map};
ghost use Rattle.amqp_types.specs.Reading.{value_at, array_at, table_at, row_at, pair_with};
ghost use Rattle.amqp_types.specs.Value.{scalar as scalar_value, decimal as decimal_value};
ghost use Rattle.amqp_types.specs.View.{value_of, pair_of};
ghost use Rattle.amqp_frame.specs.Reads.{Reads, Gives};

use crate::read::cursor::{Cursor, Fault};
use crate::view::View;
use amqp_types::{AMQPValue, Entry, FieldTable, Payload, Values};
use std::alloc::Global;

// A scale and a number.
fn decimal<V: View>(cursor: &mut Cursor<'_, V>) -> Result<AMQPValue, Fault>
    ensures { Reads value_of result cursor.new
        (read_map (λ p. scalar_value (decimal_value p.0 p.1)) (octet_at ⊗ number_at w32) cursor.old) }
{
    let scale = cursor.octet()?;
    let number = cursor.number32()?;
    Ok(AMQPValue::DecimalValue(scale, number))
}

// A long string of octets.
fn byte_array<V: View>(alloc: Global, cursor: &mut Cursor<'_, V>) -> Result<Payload, Fault>
    ensures { Reads (λ p. p) result cursor.new (long_string_at cursor.old) }
{
    let content = cursor.long_split()?;
    Ok(Payload::from_vec(content.to_vec(alloc)?))
}

// A value that holds no other, behind its tag.
#[tactic(auto, unfolding(amqp_types::specs::Reading::scalar_at))]
fn scalar<V: View>(alloc: Global, tag: u8, cursor: &mut Cursor<'_, V>) -> Result<AMQPValue, Fault>
    ensures { Reads value_of result cursor.new (read_map scalar_value (scalar_at tag) cursor.old) }
{
    match tag {
        b't' => cursor.octet().map(|octet| AMQPValue::Boolean(octet != 0)),
        b'b' => cursor
            .octet()
            .map(|octet| AMQPValue::ShortShortInt(octet.cast_signed())),
        b'B' => cursor.octet().map(AMQPValue::ShortShortUInt),
        b's' => cursor
            .number16()
            .map(|number| AMQPValue::ShortInt(number.cast_signed())),
        b'u' => cursor.number16().map(AMQPValue::ShortUInt),
        b'I' => cursor
            .number32()
            .map(|number| AMQPValue::LongInt(number.cast_signed())),
        b'i' => cursor.number32().map(AMQPValue::LongUInt),
        b'l' => cursor
            .number64()
            .map(|number| AMQPValue::LongLongInt(number.cast_signed())),
        b'f' => cursor.octets().map(AMQPValue::Float),
        b'd' => cursor.octets().map(AMQPValue::Double),
        b'D' => decimal(cursor),
        b'S' => cursor.long_string(alloc).map(AMQPValue::LongString),
        b'x' => byte_array(alloc, cursor).map(AMQPValue::ByteArray),
        b'T' => cursor.number64().map(AMQPValue::Timestamp),
        b'V' => Ok(AMQPValue::Void),
        _ => Err(Fault::Bad),
    }
}

/// A tagged value, in which tables and arrays stand no deeper than `depth`.
#[cycle(value)]
pub fn value<V: View>(
    alloc: Global,
    depth: u8,
    cursor: &mut Cursor<'_, V>,
) -> Result<AMQPValue, Fault>
    ensures { Reads value_of result cursor.new (value_at depth cursor.old) }
{
    let tag = cursor.octet()?;
    match tag {
        b'A' => Ok(AMQPValue::FieldArray(array(alloc, depth, cursor)?)),
        b'F' => Ok(AMQPValue::FieldTable(table(alloc, depth, cursor)?)),
        _ => scalar(alloc, tag, cursor),
    }
}

/// An array, which counts for the depth.
#[cycle(value)]
pub fn array<V: View>(alloc: Global, depth: u8, cursor: &mut Cursor<'_, V>) -> Result<Values, Fault>
    ensures { Reads (λ v. v) result cursor.new (array_at depth cursor.old) }
{
    if depth == 0 {
        return Err(Fault::Bad);
    }
    let mut body = cursor.long_split()?;
    let found = values(alloc, depth - 1, &mut body)?;
    Ok(found)
}

// Values to the end of the octets.
#[cycle(value)]
fn values<V: View>(alloc: Global, depth: u8, body: &mut Cursor<'_, V>) -> Result<Values, Fault>
    ensures { Gives (λ v. v) result (row_at (value_at depth) (length body.old) body.old) }
{
    let mut values = Values::new(alloc);
    while !body.is_empty() {
        values.push(value(alloc, depth, body)?)?;
    }
    Ok(values)
}

/// A table, which counts for the depth. Of equal names the last counts.
#[cycle(value)]
pub fn table<V: View>(
    alloc: Global,
    depth: u8,
    cursor: &mut Cursor<'_, V>,
) -> Result<FieldTable, Fault>
    ensures { Reads (λ t. t) result cursor.new (table_at depth cursor.old) }
{
    if depth == 0 {
        return Err(Fault::Bad);
    }
    let mut body = cursor.long_split()?;
    let found = pairs(alloc, depth - 1, &mut body)?;
    Ok(FieldTable::from_entries(alloc, found)?)
}

// Pairs to the end of the octets.
#[cycle(value)]
fn pairs<V: View>(alloc: Global, depth: u8, body: &mut Cursor<'_, V>) -> Result<Vec<Entry>, Fault>
    ensures { Gives (λ v. map pair_of v.items) result (row_at (pair_with (value_at depth)) (length body.old) body.old) }
{
    let mut entries = Vec::new(alloc);
    while !body.is_empty() {
        let name = body.short_string(alloc)?;
        let value = value(alloc, depth, body)?;
        entries.push(Entry { name, value })?;
    }
    Ok(entries)
}
