//! Copies of values, arrays and tables, which hold one another.

ghost use Rattle.std.specs.Prelude.{◌≡◌, IfOk};

use crate::memory::NoMemory;
use crate::value::{AMQPValue, Entry, FieldTable, Values};
use std::alloc::Global;

impl AMQPValue {
    /// Another value that is equal.
    #[cycle(copy)]
    pub fn try_clone(&self, alloc: Global) -> Result<AMQPValue, NoMemory>
        ensures { IfOk result (λ v. v ≡ self.now) }
    {
        match self {
            AMQPValue::Boolean(b) => Ok(AMQPValue::Boolean(*b)),
            AMQPValue::ShortShortInt(n) => Ok(AMQPValue::ShortShortInt(*n)),
            AMQPValue::ShortShortUInt(n) => Ok(AMQPValue::ShortShortUInt(*n)),
            AMQPValue::ShortInt(n) => Ok(AMQPValue::ShortInt(*n)),
            AMQPValue::ShortUInt(n) => Ok(AMQPValue::ShortUInt(*n)),
            AMQPValue::LongInt(n) => Ok(AMQPValue::LongInt(*n)),
            AMQPValue::LongUInt(n) => Ok(AMQPValue::LongUInt(*n)),
            AMQPValue::LongLongInt(n) => Ok(AMQPValue::LongLongInt(*n)),
            AMQPValue::Float(octets) => Ok(AMQPValue::Float(*octets)),
            AMQPValue::Double(octets) => Ok(AMQPValue::Double(*octets)),
            AMQPValue::DecimalValue(scale, n) => Ok(AMQPValue::DecimalValue(*scale, *n)),
            AMQPValue::LongString(text) => Ok(AMQPValue::LongString(text.try_clone(alloc)?)),
            AMQPValue::ByteArray(octets) => Ok(AMQPValue::ByteArray(octets.try_clone(alloc)?)),
            AMQPValue::FieldArray(values) => Ok(AMQPValue::FieldArray(values.try_clone(alloc)?)),
            AMQPValue::FieldTable(table) => Ok(AMQPValue::FieldTable(table.try_clone(alloc)?)),
            AMQPValue::Timestamp(n) => Ok(AMQPValue::Timestamp(*n)),
            AMQPValue::Void => Ok(AMQPValue::Void),
        }
    }
}

impl Values {
    /// Another array of equal values.
    #[cycle(copy)]
    pub fn try_clone(&self, alloc: Global) -> Result<Values, NoMemory>
        ensures { IfOk result (λ v. v ≡ self.now) }
    {
        let mut items = Vec::with_capacity(alloc, self.len())?;
        for value in self.as_slice() {
            items.push(value.try_clone(alloc)?)?;
        }
        Ok(Values::from_vec(items))
    }
}

impl FieldTable {
    /// Another table of the same names with equal values.
    #[cycle(copy)]
    pub fn try_clone(&self, alloc: Global) -> Result<FieldTable, NoMemory>
        ensures { IfOk result (λ t. t ≡ self.now) }
    {
        let mut entries = Vec::with_capacity(alloc, self.len())?;
        for entry in self.entries() {
            entries.push(Entry {
                name: entry.name.try_clone(alloc)?,
                value: entry.value.try_clone(alloc)?,
            })?;
        }
        Ok(FieldTable::from_ordered(entries))
    }
}
