//! Values and arrays, and tables as maps.

use crate::wire::support::{long, short};
use amqp_types::{
    AMQPValue, Entry, FieldTable, NoMemory, Payload, Payload64, ShortString, TypeFault, Values,
};
use std::alloc::Global;

// ---- copies

// A value of each kind that owns nothing, by its place among the kinds.
fn plain(kind: usize) -> AMQPValue {
    match kind {
        0 => AMQPValue::Boolean(true),
        1 => AMQPValue::ShortShortInt(-1),
        2 => AMQPValue::ShortShortUInt(255),
        3 => AMQPValue::ShortInt(-2),
        4 => AMQPValue::ShortUInt(65_535),
        5 => AMQPValue::LongInt(-3),
        6 => AMQPValue::LongUInt(4_294_967_295),
        7 => AMQPValue::LongLongInt(-4),
        8 => AMQPValue::Float([1, 2, 3, 4]),
        9 => AMQPValue::Double([1, 2, 3, 4, 5, 6, 7, 8]),
        10 => AMQPValue::DecimalValue(2, 314),
        11 => AMQPValue::Timestamp(1_700_000_000),
        _ => AMQPValue::Void,
    }
}

// A table of one name.
fn table_with(alloc: Global, name: &str, value: AMQPValue) -> Result<FieldTable, TypeFault> {
    let name = match short(alloc, name) {
        Ok(name) => name,
        Err(e) => {
            drop(value);
            return Err(e);
        }
    };
    let mut table = FieldTable::new(alloc);
    table.insert(name, value)?;
    Ok(table)
}

// An array of Void alone.
fn array_of_void(alloc: Global) -> Result<Values, TypeFault> {
    let mut values = Values::new(alloc);
    values.push(AMQPValue::Void)?;
    Ok(values)
}

// Pushes a value of each kind that owns octets or values.
fn push_owners(alloc: Global, values: &mut Values) -> Result<(), TypeFault> {
    let text = long(alloc, "xy")?;
    values.push(AMQPValue::LongString(text))?;
    let octets = Payload::new(alloc, &[0, 1])?;
    values.push(AMQPValue::ByteArray(octets))?;
    let array = array_of_void(alloc)?;
    values.push(AMQPValue::FieldArray(array))?;
    let table = table_with(alloc, "a", AMQPValue::Boolean(true))?;
    values.push(AMQPValue::FieldTable(table))?;
    Ok(())
}

// A value of each kind.
fn each_kind(alloc: Global) -> Result<Values, TypeFault> {
    let mut values = Values::new(alloc);
    for kind in 0..13 {
        values.push(plain(kind))?;
    }
    push_owners(alloc, &mut values)?;
    Ok(values)
}

// Whether a value is equal to the one at this place of a list, and to no other.
fn is_equal_at(place: usize, value: &AMQPValue, values: &[AMQPValue]) -> bool {
    for (other, i) in values.iter().zip(0..17) {
        if (value == other) != (i == place) {
            return false;
        }
    }
    true
}

// Whether the values of two lists are equal exactly where their places are.
fn are_equal_in_place(these: &[AMQPValue], those: &[AMQPValue]) -> bool {
    for (value, place) in these.iter().zip(0..17) {
        if !is_equal_at(place, value, those) {
            return false;
        }
    }
    true
}

// Whether a copy of each value is equal to it.
fn are_copied(alloc: Global, values: &[AMQPValue]) -> Result<bool, NoMemory> {
    for value in values {
        let copy = value.try_clone(alloc)?;
        let same = copy == *value;
        drop(copy);
        if !same {
            return Ok(false);
        }
    }
    Ok(true)
}

#[test]
fn every_kind_of_value_is_copied(rt: HostRuntime) -> Result<(), TypeFault> {
    let values = each_kind(rt.alloc())?;
    let copied = are_copied(rt.alloc(), values.as_slice())?;
    let copies = values.try_clone(rt.alloc())?;
    let same = copies == values && copies.len() == 17 && !copies.is_empty();
    let again = Values::from_vec(copies.into_vec());
    assert!(rt; copied && same && are_equal_in_place(again.as_slice(), values.as_slice()));
    assert!(rt; Values::new(rt.alloc()).is_empty());
    Ok(())
}

// ---- tables

// Inserts a number, and gives the number that the name had.
fn insert(table: &mut FieldTable, name: ShortString, number: u32) -> Result<Option<u32>, NoMemory> {
    let had = table.insert(name, AMQPValue::LongUInt(number))?;
    let number = match &had {
        Some(AMQPValue::LongUInt(number)) => Some(*number),
        _ => None,
    };
    drop(had);
    Ok(number)
}

// The number that stands under a name.
fn number_at(table: &FieldTable, name: &[u8]) -> Option<u32> {
    match table.get(name) {
        Some(AMQPValue::LongUInt(number)) => Some(*number),
        _ => None,
    }
}

// Inserts a number under a name of one octet, and tells whether the name had this number.
fn had(
    alloc: Global,
    table: &mut FieldTable,
    number: u32,
    wanted: Option<u32>,
) -> Result<bool, TypeFault> {
    let name = short(alloc, "a")?;
    Ok(insert(table, name, number)? == wanted)
}

#[test]
fn a_name_keeps_the_value_that_was_inserted_last(rt: HostRuntime) -> Result<(), TypeFault> {
    let mut table = FieldTable::new(rt.alloc());
    let empty = table.is_empty();
    assert!(rt; empty && had(rt.alloc(), &mut table, 1, None)?);
    assert!(rt; had(rt.alloc(), &mut table, 2, Some(1))?);
    assert!(rt; table.len() == 1 && number_at(&table, b"a") == Some(2));
    assert!(rt; table.contains_key(b"a") && !table.contains_key(b"b"));
    assert!(rt; number_at(&table, b"b") == None);
    Ok(())
}

// The place of the i-th of 40 names. 7 and 40 have no common divisor, so each place comes once.
fn place(i: u32) -> u8 {
    (i % 40 * 7 % 40) as u8
}

// A table of 40 names of one octet.
fn forty(alloc: Global) -> Result<FieldTable, TypeFault> {
    let mut table = FieldTable::new(alloc);
    for i in 0..40 {
        let name = ShortString::new(alloc, &[place(i)])?;
        insert(&mut table, name, i)?;
    }
    Ok(table)
}

// Whether names of one octet stand in order from 0 on.
fn stand_in_order(entries: &[Entry]) -> bool {
    for (entry, place) in entries.iter().zip(0..=255u8) {
        if entry.name.as_bytes() != [place].as_slice() {
            return false;
        }
    }
    true
}

// Whether each of the 40 names is found with its number, in order, and no other is.
fn are_found(table: &FieldTable) -> bool {
    for i in 0..40 {
        if number_at(table, &[place(i)]) != Some(i) {
            return false;
        }
    }
    table.len() == 40
        && stand_in_order(table.entries())
        && !table.contains_key(&[40])
        && !table.contains_key(b"")
}

#[test]
fn names_are_found_among_many(rt: HostRuntime) -> Result<(), TypeFault> {
    let table = forty(rt.alloc())?;
    let told = are_found(&table);
    drop(table);
    assert!(rt; told);
    Ok(())
}

fn push(entries: &mut Vec<Entry>, entry: Entry) -> Result<(), NoMemory> {
    entries.push(entry)?;
    Ok(())
}

// Entries of these names and numbers.
fn entries_of(alloc: Global, pairs: &[(&str, u32)]) -> Result<Vec<Entry>, TypeFault> {
    let mut entries = Vec::new(alloc);
    for (name, number) in pairs {
        let name = short(alloc, *name)?;
        let value = AMQPValue::LongUInt(*number);
        push(&mut entries, Entry { name, value })?;
    }
    Ok(entries)
}

// Whether an entry has this name and this number.
fn is_pair(entry: &Entry, name: &str, number: u32) -> bool {
    entry.name.as_bytes() == name.as_bytes()
        && matches!(entry.value, AMQPValue::LongUInt(it) if it == number)
}

// Whether entries have these names and numbers, in this order.
fn have(entries: &[Entry], pairs: &[(&str, u32)]) -> bool {
    for (entry, (name, number)) in entries.iter().zip(pairs) {
        if !is_pair(entry, *name, *number) {
            return false;
        }
    }
    entries.len() == pairs.len()
}

// Whether the table of some entries has others.
fn has(alloc: Global, given: &[(&str, u32)], wanted: &[(&str, u32)]) -> Result<bool, TypeFault> {
    let entries = entries_of(alloc, given)?;
    let table = FieldTable::from_entries(alloc, entries)?;
    let told = have(table.entries(), wanted);
    drop(table);
    Ok(told)
}

#[test]
fn of_equal_names_the_last_counts(rt: HostRuntime) -> Result<(), TypeFault> {
    let given = [("b", 1), ("c", 2), ("a", 3), ("b", 4)];
    assert!(rt; has(rt.alloc(), &given, &[("a", 3), ("b", 4), ("c", 2)])?);
    Ok(())
}

// Whether a table gives back these entries, which are in order, also in a copy.
fn gives_back(alloc: Global, pairs: &[(&str, u32)]) -> Result<bool, TypeFault> {
    let entries = entries_of(alloc, pairs)?;
    let table = FieldTable::from_entries(alloc, entries)?;
    let copy = table.try_clone(alloc)?;
    let same = copy == table;
    drop(table);
    let entries = copy.into_entries();
    let told = have(entries.as_slice(), pairs);
    drop(entries);
    Ok(same && told)
}

#[test]
fn entries_in_order_are_taken_as_they_stand_and_given_back(
    rt: HostRuntime,
) -> Result<(), TypeFault> {
    assert!(rt; gives_back(rt.alloc(), &[("", 1), ("a", 2), ("b", 3)])?);
    Ok(())
}

// A table of this value under `a`, and of an array under `b`.
fn nested(alloc: Global, value: AMQPValue) -> Result<FieldTable, TypeFault> {
    let mut table = table_with(alloc, "a", value)?;
    let array = array_of_void(alloc)?;
    let name = short(alloc, "b")?;
    table.insert(name, AMQPValue::FieldArray(array))?;
    Ok(table)
}

// A number with a sign or without, by its place among some.
fn number(place: usize) -> AMQPValue {
    match place {
        0 => AMQPValue::LongInt(-1),
        1 => AMQPValue::LongInt(1),
        _ => AMQPValue::LongUInt(1),
    }
}

// Whether the tables of two numbers are equal, as tables and as values.
fn are_equal(alloc: Global, this: usize, that: usize) -> Result<bool, TypeFault> {
    let this = nested(alloc, number(this))?;
    let that = nested(alloc, number(that))?;
    let same = this == that;
    let this = AMQPValue::FieldTable(this);
    let that = AMQPValue::FieldTable(that);
    let equal = this == that;
    drop(this);
    drop(that);
    Ok(same && equal)
}

#[test]
fn nested_values_are_compared(rt: HostRuntime) -> Result<(), TypeFault> {
    let rows = [
        ("the same number", 0, 0, true),
        ("another number", 0, 1, false),
        ("the same number without a sign", 1, 2, false),
    ];
    for (name, this, that, same) in rows {
        assert!(rt; are_equal(rt.alloc(), this, that)? == same, "{name}");
    }
    Ok(())
}

// ---- where memory was refused

// Whether a number was inserted under a name of one octet, or memory was refused.
fn inserts(alloc: Global, table: &mut FieldTable, octet: u8) -> bool {
    match ShortString::new(alloc, &[octet]) {
        Ok(name) => insert(table, name, u32::from(octet)).is_ok(),
        Err(_) => false,
    }
}

// Inserts a number, once more where memory was refused, which has to leave the table as it was.
fn insert_again(alloc: Global, table: &mut FieldTable, octet: u8) -> bool {
    let had = table.len();
    let kept = inserts(alloc, table, octet)
        || table.len() == had && !table.contains_key(&[octet]) && inserts(alloc, table, octet);
    kept && number_at(table, &[octet]) == Some(u32::from(octet))
}

// Pushes a value, once more where memory was refused, which has to leave the array as it was.
fn push_again(values: &mut Values, octet: u8) -> Result<bool, NoMemory> {
    let had = values.len();
    if values.push(AMQPValue::ShortShortUInt(octet)).is_err() {
        if values.len() != had {
            return Ok(false);
        }
        values.push(AMQPValue::ShortShortUInt(octet))?;
    }
    Ok(values.len() == had + 1)
}

// Reserves a place, once more where memory was refused, which has to leave the list as it was.
fn reserve_again(numbers: &mut Payload64, number: u64) -> Result<bool, NoMemory> {
    let had = numbers.len();
    if numbers.reserve().is_err() {
        if numbers.len() != had {
            return Ok(false);
        }
        numbers.reserve()?;
    }
    numbers.push(number);
    Ok(true)
}

// Whether a table, an array and a list, all empty, take five numbers each.
fn are_filled(
    alloc: Global,
    table: &mut FieldTable,
    values: &mut Values,
    numbers: &mut Payload64,
) -> Result<bool, NoMemory> {
    for octet in 0..5 {
        let taken = insert_again(alloc, table, octet)
            && push_again(values, octet)?
            && reserve_again(numbers, u64::from(octet))?;
        if !taken {
            return Ok(false);
        }
    }
    Ok(numbers.as_slice() == [0, 1, 2, 3, 4].as_slice())
}

// To be run with each allocation failing in turn: what was refused once is tried again.
#[test]
fn a_refusal_changes_nothing(rt: HostRuntime) -> Result<(), NoMemory> {
    let alloc = rt.alloc();
    let mut table = FieldTable::new(alloc);
    let mut values = Values::new(alloc);
    let mut numbers = Payload64::empty(alloc);
    let told = are_filled(alloc, &mut table, &mut values, &mut numbers);
    drop(numbers);
    drop(values);
    drop(table);
    assert!(rt; told?);
    Ok(())
}
