//! Putting of values into a room.

ghost use Rattle.std.specs.Prelude.{◌≡◌, ◌+◌, ◌^◌, ◌<◌, ◌≤◌, ◌++◌, ◌∷◌, [], length};
ghost use Rattle.std.specs.Int.{w16, w32, w64, to_be_bytes};
ghost use Rattle.amqp_types.specs.Forms.{spell_short_string, spell_long_string};
ghost use Rattle.amqp_types.specs.Spelling.{spell, spell_table};
ghost use Rattle.amqp_types.specs.View.{value_of, pair_of};
ghost use Rattle.amqp_frame.specs.Lengths.{spell_list, spell_pair_list, spell_pair};

use crate::room::Room;
use crate::write::lengths::{pairs_len, values_len};
use amqp_types::{AMQPValue, Entry, FieldTable, Values};

/// One octet.
pub fn put_octet<R: Room>(octet: u8, room: &mut R)
    requires { 1 ≤ R.free room.old }
    ensures bytes { R.put_so_far room.new ≡ R.put_so_far room.old ++ octet ∷ [] }
    ensures space { R.free room.new + 1 ≡ R.free room.old }
{
    room.put(&[octet]);
}

/// A number of 16 bits, the highest octet first.
pub fn put_number16<R: Room>(number: u16, room: &mut R)
    requires { 2 ≤ R.free room.old }
    ensures bytes { R.put_so_far room.new ≡ R.put_so_far room.old ++ to_be_bytes w16 number }
    ensures space { R.free room.new + 2 ≡ R.free room.old }
{
    room.put(&number.to_be_bytes());
}

/// A number of 32 bits, the highest octet first.
pub fn put_number32<R: Room>(number: u32, room: &mut R)
    requires { 4 ≤ R.free room.old }
    ensures bytes { R.put_so_far room.new ≡ R.put_so_far room.old ++ to_be_bytes w32 number }
    ensures space { R.free room.new + 4 ≡ R.free room.old }
{
    room.put(&number.to_be_bytes());
}

/// Puts a short string into a room: an octet of length, and the content, of at most 255 octets. It takes
/// an octet of space more than the content has, which the room must have, and it cannot fail.
///
/// With `put_long`, `put_table` and the room's own `put` this spells what is passed through: the arguments
/// of a method of another class, and the properties of a content header. Those of queue.declare are two
/// octets 0, the queue's name by `put_short`, an octet of bits (1 is passive, 2 durable, 4 exclusive,
/// 8 auto-delete and 16 no-wait), and the arguments by `put_table`. A content-type among the properties
/// of basic is put by `put_short`, and the headers by `put_table`.
pub fn put_short<R: Room>(content: &[u8], room: &mut R)
    requires short { length content.now < 256 }
    requires fits { length content.now + 1 ≤ R.free room.old }
    ensures bytes { R.put_so_far room.new ≡ R.put_so_far room.old ++ spell_short_string content.now }
    ensures space { R.free room.new + (length content.now + 1) ≡ R.free room.old }
{
    put_octet(content.len() as u8, room);
    room.put(content);
}

/// Puts a long string into a room: four octets of length, the highest first, and the content, of less than
/// 2 ^ 32 octets. It takes four octets of space more than the content has, which the room must have, and it
/// cannot fail. An example is the response to a challenge.
pub fn put_long<R: Room>(content: &[u8], room: &mut R)
    requires long { length content.now < 2 ^ 32 }
    requires fits { length content.now + 4 ≤ R.free room.old }
    ensures bytes { R.put_so_far room.new ≡ R.put_so_far room.old ++ spell_long_string content.now }
    ensures space { R.free room.new + (length content.now + 4) ≡ R.free room.old }
{
    room.put(&(content.len() as u32).to_be_bytes());
    room.put(content);
}

// A tag, and octets.
fn put_tagged<R: Room>(tag: u8, content: &[u8], room: &mut R)
    requires { length content.now + 1 ≤ R.free room.old }
    ensures bytes { R.put_so_far room.new ≡ R.put_so_far room.old ++ tag ∷ content.now }
    ensures space { R.free room.new + (length content.now + 1) ≡ R.free room.old }
{
    put_octet(tag, room);
    room.put(content);
}

// A tag, and an octet.
fn put_tagged8<R: Room>(tag: u8, octet: u8, room: &mut R)
    requires { 2 ≤ R.free room.old }
    ensures bytes { R.put_so_far room.new ≡ R.put_so_far room.old ++ tag ∷ octet ∷ [] }
    ensures space { R.free room.new + 2 ≡ R.free room.old }
{
    room.put(&[tag, octet]);
}

// A tag, and a number of 16 bits.
fn put_tagged16<R: Room>(tag: u8, number: u16, room: &mut R)
    requires { 3 ≤ R.free room.old }
    ensures bytes { R.put_so_far room.new ≡ R.put_so_far room.old ++ tag ∷ to_be_bytes w16 number }
    ensures space { R.free room.new + 3 ≡ R.free room.old }
{
    put_tagged(tag, &number.to_be_bytes(), room);
}

// A tag, and a number of 32 bits.
fn put_tagged32<R: Room>(tag: u8, number: u32, room: &mut R)
    requires { 5 ≤ R.free room.old }
    ensures bytes { R.put_so_far room.new ≡ R.put_so_far room.old ++ tag ∷ to_be_bytes w32 number }
    ensures space { R.free room.new + 5 ≡ R.free room.old }
{
    put_tagged(tag, &number.to_be_bytes(), room);
}

// A tag, and a number of 64 bits.
fn put_tagged64<R: Room>(tag: u8, number: u64, room: &mut R)
    requires { 9 ≤ R.free room.old }
    ensures bytes { R.put_so_far room.new ≡ R.put_so_far room.old ++ tag ∷ to_be_bytes w64 number }
    ensures space { R.free room.new + 9 ≡ R.free room.old }
{
    put_tagged(tag, &number.to_be_bytes(), room);
}

// A decimal: its scale, and the number without its point.
fn put_decimal<R: Room>(scale: u8, number: u32, room: &mut R)
    requires { 6 ≤ R.free room.old }
    ensures bytes { R.put_so_far room.new ≡ R.put_so_far room.old ++ 68 ∷ scale ∷ to_be_bytes w32 number }
    ensures space { R.free room.new + 6 ≡ R.free room.old }
{
    put_tagged8(b'D', scale, room);
    put_number32(number, room);
}

// A tag, and a long string.
fn put_tagged_long<R: Room>(tag: u8, content: &[u8], room: &mut R)
    requires long { length content.now < 2 ^ 32 }
    requires fits { length content.now + 5 ≤ R.free room.old }
    ensures bytes { R.put_so_far room.new ≡ R.put_so_far room.old ++ tag ∷ spell_long_string content.now }
    ensures space { R.free room.new + (length content.now + 5) ≡ R.free room.old }
{
    put_octet(tag, room);
    put_long(content, room);
}

/// A tagged value.
#[cycle(put)]
pub fn put_value<R: Room>(value: &AMQPValue, room: &mut R)
    requires small { length (spell (value_of value.now)) < 2 ^ 32 }
    requires fits { length (spell (value_of value.now)) ≤ R.free room.old }
    ensures bytes { R.put_so_far room.new ≡ R.put_so_far room.old ++ spell (value_of value.now) }
    ensures space { R.free room.new + length (spell (value_of value.now)) ≡ R.free room.old }
{
    match value {
        AMQPValue::Boolean(truth) => put_tagged8(b't', u8::from(*truth), room),
        AMQPValue::ShortShortInt(number) => put_tagged8(b'b', number.cast_unsigned(), room),
        AMQPValue::ShortShortUInt(number) => put_tagged8(b'B', *number, room),
        AMQPValue::ShortInt(number) => put_tagged16(b's', number.cast_unsigned(), room),
        AMQPValue::ShortUInt(number) => put_tagged16(b'u', *number, room),
        AMQPValue::LongInt(number) => put_tagged32(b'I', number.cast_unsigned(), room),
        AMQPValue::LongUInt(number) => put_tagged32(b'i', *number, room),
        AMQPValue::LongLongInt(number) => put_tagged64(b'l', number.cast_unsigned(), room),
        AMQPValue::Float(octets) => put_tagged(b'f', octets, room),
        AMQPValue::Double(octets) => put_tagged(b'd', octets, room),
        AMQPValue::DecimalValue(scale, number) => put_decimal(*scale, *number, room),
        AMQPValue::LongString(content) => put_tagged_long(b'S', content.as_bytes(), room),
        AMQPValue::ByteArray(content) => put_tagged_long(b'x', content.as_bytes(), room),
        AMQPValue::FieldArray(values) => {
            put_octet(b'A', room);
            put_array(values, room);
        }
        AMQPValue::FieldTable(table) => {
            put_octet(b'F', room);
            put_table(table, room);
        }
        AMQPValue::Timestamp(number) => put_tagged64(b'T', *number, room),
        AMQPValue::Void => put_octet(b'V', room),
    }
}

// An array without its tag.
#[cycle(put)]
fn put_array<R: Room>(values: &Values, room: &mut R)
    requires small { length (spell_list values.now) + 4 < 2 ^ 32 }
    requires fits { length (spell_list values.now) + 4 ≤ R.free room.old }
    ensures bytes { R.put_so_far room.new ≡ R.put_so_far room.old ++ spell_long_string (spell_list values.now) }
    ensures space { R.free room.new + (length (spell_list values.now) + 4) ≡ R.free room.old }
{
    room.put(&(values_len(values) as u32).to_be_bytes());
    for value in values.as_slice() {
        put_value(value, room);
    }
}

/// Puts a field table without a tag into a room: four octets of length, and the pairs, in the order of
/// their names' octets. It takes `table_len` octets of space, which the room must have and which must be
/// less than 2 ^ 32, and it cannot fail. The arguments of queue.declare are such a table, as with a number
/// under the name `x-max-length`.
#[cycle(put)]
#[tactic(auto, using(crate::proofs::Texts::method_lengths))]
pub fn put_table<R: Room>(table: &FieldTable, room: &mut R)
    requires small { length (spell_table table.now) < 2 ^ 32 }
    requires fits { length (spell_table table.now) ≤ R.free room.old }
    ensures bytes { R.put_so_far room.new ≡ R.put_so_far room.old ++ spell_table table.now }
    ensures space { R.free room.new + length (spell_table table.now) ≡ R.free room.old }
{
    room.put(&(pairs_len(table) as u32).to_be_bytes());
    for entry in table.entries() {
        put_entry(entry, room);
    }
}

// A name and its value.
#[cycle(put)]
fn put_entry<R: Room>(entry: &Entry, room: &mut R)
    requires small { length (spell_pair (pair_of entry.now)) < 2 ^ 32 }
    requires fits { length (spell_pair (pair_of entry.now)) ≤ R.free room.old }
    ensures bytes { R.put_so_far room.new ≡ R.put_so_far room.old ++ spell_pair (pair_of entry.now) }
    ensures space { R.free room.new + length (spell_pair (pair_of entry.now)) ≡ R.free room.old }
{
    put_short(entry.name.as_bytes(), room);
    put_value(&entry.value, room);
}
