//! How long the written values are.

ghost use Rattle.std.specs.Prelude.{◌≡◌, ◌+◌, length};
ghost use Rattle.amqp_types.specs.Spelling.{spell, spell_table};
ghost use Rattle.amqp_types.specs.View.{value_of};
ghost use Rattle.amqp_frame.specs.Lengths.{capped, spell_list, spell_pair_list};

use amqp_types::{AMQPValue, FieldTable, Values};

/// The length of a tagged value.
#[cycle(length)]
pub fn value_len(value: &AMQPValue) -> u64
    ensures { result ≡ capped (length (spell (value_of value.now))) }
{
    match value {
        AMQPValue::Boolean(_) => 2,
        AMQPValue::ShortShortInt(_) => 2,
        AMQPValue::ShortShortUInt(_) => 2,
        AMQPValue::ShortInt(_) => 3,
        AMQPValue::ShortUInt(_) => 3,
        AMQPValue::LongInt(_) => 5,
        AMQPValue::LongUInt(_) => 5,
        AMQPValue::LongLongInt(_) => 9,
        AMQPValue::Float(octets) => octets_len(octets),
        AMQPValue::Double(octets) => octets_len(octets),
        AMQPValue::DecimalValue(_, _) => 6,
        AMQPValue::LongString(content) => (content.len() as u64).saturating_add(5),
        AMQPValue::ByteArray(content) => (content.as_bytes().len() as u64).saturating_add(5),
        AMQPValue::FieldArray(values) => values_len(values).saturating_add(5),
        AMQPValue::FieldTable(table) => pairs_len(table).saturating_add(5),
        AMQPValue::Timestamp(_) => 9,
        AMQPValue::Void => 1,
    }
}

// The length of a tag and octets.
fn octets_len(octets: &[u8]) -> u64
    ensures { result ≡ length octets.now + 1 }
{
    octets.len() as u64 + 1
}

/// The length of the values of an array.
#[cycle(length)]
pub fn values_len(values: &Values) -> u64
    ensures { result ≡ capped (length (spell_list values.now)) }
{
    let mut total: u64 = 0;
    for value in values.as_slice() {
        total = total.saturating_add(value_len(value));
    }
    total
}

/// The length of the pairs of a table.
#[cycle(length)]
pub fn pairs_len(table: &FieldTable) -> u64
    ensures { result ≡ capped (length (spell_pair_list table.now)) }
{
    let mut total: u64 = 0;
    for entry in table.entries() {
        total = total
            .saturating_add(1 + entry.name.len() as u64)
            .saturating_add(value_len(&entry.value));
    }
    total
}

/// How many octets a field table takes without a tag, as `put_table` puts it, or the greatest number where
/// that is less.
#[tactic(auto, using(crate::proofs::Texts::method_lengths))]
pub fn table_len(table: &FieldTable) -> u64
    ensures { result ≡ capped (length (spell_table table.now)) }
{
    pairs_len(table).saturating_add(4)
}
