//! Equality of values, arrays and tables: they are equal where contracts see equal trees.

ghost use Rattle.std.specs.Prelude.{◌≡◌};
ghost use Rattle.amqp_types.specs.View.{value_of};
ghost use Rattle.amqp_types.specs.Equality.{same_value, same_list, same_table};

use crate::value::{AMQPValue, FieldTable, Values};

impl PartialEq for AMQPValue {
    ghost use Rattle.std.specs.Prelude.{◌≡◌, ◌↔◌, IsTrue};
    ghost use Rattle.std.specs.Cmp.{partial_equiv_from_equiv, on_equiv};
    ghost use Rattle.amqp_types.specs.View.{value_of};
    ghost use Rattle.amqp_types.specs.Equality.{same_value};
    ghost use Rattle.amqp_types.specs.EqualityLaws.{value_equiv};

    ghost eq = { λ x y. same_value (value_of x) (value_of y) };

    ghost laws = { partial_equiv_from_equiv (on_equiv value_of value_equiv) };

    fn eq(&self, other: &Self) -> bool
        ensures answers { result ≡ same_value (value_of self.now) (value_of other.now) }
        ensures equal { IsTrue result ↔ (self.now ≡ other.now) }
    {
        same(self, other)
    }
}

impl Eq for AMQPValue {
    ghost use Rattle.std.specs.Cmp.{on_equiv};
    ghost use Rattle.amqp_types.specs.View.{value_of};
    ghost use Rattle.amqp_types.specs.EqualityLaws.{value_equiv};

    ghost laws = { on_equiv value_of value_equiv };
}

impl PartialEq for Values {
    ghost use Rattle.std.specs.Prelude.{◌≡◌, ◌↔◌, IsTrue};
    ghost use Rattle.std.specs.Cmp.{partial_equiv_from_equiv};
    ghost use Rattle.amqp_types.specs.Equality.{same_list};
    ghost use Rattle.amqp_types.specs.EqualityLaws.{list_equiv};

    ghost eq = { same_list };

    ghost laws = { partial_equiv_from_equiv list_equiv };

    fn eq(&self, other: &Self) -> bool
        ensures answers { result ≡ same_list self.now other.now }
        ensures equal { IsTrue result ↔ (self.now ≡ other.now) }
    {
        same_values_of(self, other)
    }
}

impl Eq for Values {
    ghost use Rattle.amqp_types.specs.EqualityLaws.{list_equiv};

    ghost laws = { list_equiv };
}

impl PartialEq for FieldTable {
    ghost use Rattle.std.specs.Prelude.{◌≡◌, ◌↔◌, IsTrue};
    ghost use Rattle.std.specs.Cmp.{partial_equiv_from_equiv};
    ghost use Rattle.amqp_types.specs.Equality.{same_table};
    ghost use Rattle.amqp_types.specs.EqualityLaws.{table_equiv};

    ghost eq = { same_table };

    ghost laws = { partial_equiv_from_equiv table_equiv };

    fn eq(&self, other: &Self) -> bool
        ensures answers { result ≡ same_table self.now other.now }
        ensures equal { IsTrue result ↔ (self.now ≡ other.now) }
    {
        same_entries(self, other)
    }
}

impl Eq for FieldTable {
    ghost use Rattle.amqp_types.specs.EqualityLaws.{table_equiv};

    ghost laws = { table_equiv };
}

// Whether two values are equal.
#[cycle(same)]
fn same(this: &AMQPValue, that: &AMQPValue) -> bool
    ensures { result ≡ same_value (value_of this.now) (value_of that.now) }
{
    match (this, that) {
        (AMQPValue::Boolean(a), AMQPValue::Boolean(b)) => *a == *b,
        (AMQPValue::ShortShortInt(a), AMQPValue::ShortShortInt(b)) => *a == *b,
        (AMQPValue::ShortShortUInt(a), AMQPValue::ShortShortUInt(b)) => *a == *b,
        (AMQPValue::ShortInt(a), AMQPValue::ShortInt(b)) => *a == *b,
        (AMQPValue::ShortUInt(a), AMQPValue::ShortUInt(b)) => *a == *b,
        (AMQPValue::LongInt(a), AMQPValue::LongInt(b)) => *a == *b,
        (AMQPValue::LongUInt(a), AMQPValue::LongUInt(b)) => *a == *b,
        (AMQPValue::LongLongInt(a), AMQPValue::LongLongInt(b)) => *a == *b,
        (AMQPValue::Float(a), AMQPValue::Float(b)) => *a == *b,
        (AMQPValue::Double(a), AMQPValue::Double(b)) => *a == *b,
        (AMQPValue::DecimalValue(s, a), AMQPValue::DecimalValue(t, b)) => *s == *t && *a == *b,
        (AMQPValue::LongString(a), AMQPValue::LongString(b)) => *a == *b,
        (AMQPValue::ByteArray(a), AMQPValue::ByteArray(b)) => *a == *b,
        (AMQPValue::FieldArray(a), AMQPValue::FieldArray(b)) => same_values_of(a, b),
        (AMQPValue::FieldTable(a), AMQPValue::FieldTable(b)) => same_entries(a, b),
        (AMQPValue::Timestamp(a), AMQPValue::Timestamp(b)) => *a == *b,
        (AMQPValue::Void, AMQPValue::Void) => true,
        _ => false,
    }
}

// Whether two arrays have equal values.
#[cycle(same)]
fn same_values_of(these: &Values, those: &Values) -> bool
    ensures { result ≡ same_list these.now those.now }
{
    let left = these.as_slice();
    let right = those.as_slice();
    if left.len() != right.len() {
        return false;
    }
    for (this, that) in left.iter().zip(right) {
        if !same(this, that) {
            return false;
        }
    }
    true
}

// Whether two tables have equal names and values.
#[cycle(same)]
fn same_entries(these: &FieldTable, those: &FieldTable) -> bool
    ensures { result ≡ same_table these.now those.now }
{
    let left = these.entries();
    let right = those.entries();
    if left.len() != right.len() {
        return false;
    }
    for (this, that) in left.iter().zip(right) {
        if this.name != that.name {
            return false;
        }
        if !same(&this.value, &that.value) {
            return false;
        }
    }
    true
}
