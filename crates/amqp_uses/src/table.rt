//! A field table, made and looked into.

ghost use Rattle.std.specs.Prelude.{◌≡◌, Some, IfOk, IfSome};
ghost use Rattle.amqp_types.specs.Table.{get};
ghost use Rattle.amqp_types.specs.Value.{scalar, long_string};

use amqp_types::{AMQPValue, FieldTable, LongString, ShortString, TypeFault};
use std::alloc::Global;

/// A table with one name, whose value is a text.
#[tactic(auto, using(crate::proofs::Put::get_put))]
pub fn table_with(alloc: Global, name: &[u8], text: &[u8]) -> Result<FieldTable, TypeFault>
    ensures { IfOk result (λ table. get table name.now ≡ Some (scalar (long_string text.now))) }
{
    let name = ShortString::new(alloc, name)?;
    let text = LongString::new(alloc, text)?;
    let mut table = FieldTable::new(alloc);
    drop(table.insert(name, AMQPValue::LongString(text))?);
    Ok(table)
}

/// The text that a table has under a name.
pub fn text_in<'a>(table: &'a FieldTable, name: &[u8]) -> Option<&'a [u8]>
    ensures { IfSome result (λ text. get table.now name.now ≡ Some (scalar (long_string text.now))) }
{
    match table.get(name)? {
        AMQPValue::LongString(text) => Some(text.as_bytes()),
        _ => None,
    }
}
