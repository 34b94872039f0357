//! The values of an index's attributes.

ghost use Rattle.std.specs.Prelude.{◌≡◌, IfOk};
ghost use Rattle.aql_value.specs.Compare.{compare};
ghost use Rattle.aql_value.specs.View.{datum_of, datums_in};
ghost use Rattle.aql_meaning.specs.Documents.{index_keys};
ghost use Rattle.aql_index.specs.inner.Numbers.{number_keys};

use aql_value::{Items, OutOfMemory, Text, Value, cmp, copy, copy_attribute};
use std::alloc::Global;
use std::cmp::Ordering;
use std::marker::Model;
use std::slice;

// One that is alone stands without a list of its own.
#[derive(Drop)]
enum Values {
    One(Value),
    Several(Items),
}

/// The values that a document has of an index's attributes. Contracts see the list of their datums.
pub struct Keys {
    values: Values,
}

impl Drop for Keys {
    fn drop(self) {
        let Keys { values: _ } = self;
    }
}

impl Model for Keys {
    ghost use Rattle.std.specs.Prelude.{List};
    ghost use Rattle.aql_value.specs.Datum.{Datum, coded_datums};
    ghost use Rattle.aql_index.specs.inner.Values.{datums_of};

    ghost Value = { List Datum };

    ghost coded = { coded_datums };

    ghost view = { λ k. datums_of k.values };
}

/// How two values compare. Most are numbers or texts, which need no call.
pub(crate) fn compare_values(left: &Value, right: &Value) -> Ordering
    ensures { result ≡ compare (datum_of left.now) (datum_of right.now) }
{
    match (left, right) {
        (Value::Num(first), Value::Num(second)) => first.cmp(second),
        (Value::Text(first), Value::Text(second)) => first.as_str().cmp(second.as_str()),
        _ => cmp(left, right),
    }
}

// Copies of the attributes of these names, in a list.
fn copy_attributes(alloc: Global, document: &Value, names: &[Text]) -> Result<Items, OutOfMemory>
    ensures { IfOk result (λ keys. keys ≡ index_keys names.now (datum_of document.now)) }
{
    let mut keys = Items::with_room(alloc, names.len())?;
    for name in names {
        keys.push(copy_attribute(alloc, document, name.as_str())?)?;
    }
    Ok(keys)
}

/// Copies of the attributes of these names.
pub(crate) fn keys_of(alloc: Global, document: &Value, names: &[Text]) -> Result<Keys, OutOfMemory>
    ensures { IfOk result (λ keys. keys ≡ index_keys names.now (datum_of document.now)) }
{
    let values = match names {
        [name] => Values::One(copy_attribute(alloc, document, name.as_str())?),
        _ => Values::Several(copy_attributes(alloc, document, names)?),
    };
    Ok(Keys { values })
}

// Copies of values, in a list.
fn copy_values(alloc: Global, values: &[Value]) -> Result<Items, OutOfMemory>
    ensures { IfOk result (λ copies. copies ≡ datums_in values.now) }
{
    let mut copies = Items::with_room(alloc, values.len())?;
    for value in values {
        copies.push(copy(alloc, value)?)?;
    }
    Ok(copies)
}

impl Keys {
    /// One number, or two.
    pub(crate) fn from_numbers(
        alloc: Global,
        first: i64,
        second: Option<i64>,
    ) -> Result<Keys, OutOfMemory>
        ensures { IfOk result (λ keys. keys ≡ number_keys first second) }
    {
        let values = match second {
            None => Values::One(Value::Num(first)),
            Some(second) => {
                let mut values = Items::with_room(alloc, 2)?;
                values.push(Value::Num(first))?;
                values.push(Value::Num(second))?;
                Values::Several(values)
            }
        };
        Ok(Keys { values })
    }

    /// A copy.
    pub(crate) fn copy(&self, alloc: Global) -> Result<Keys, OutOfMemory>
        ensures { IfOk result (λ keys. keys ≡ self.now) }
    {
        let values = match &self.values {
            Values::One(value) => Values::One(copy(alloc, value)?),
            Values::Several(values) => Values::Several(copy_values(alloc, values.as_slice())?),
        };
        Ok(Keys { values })
    }

    /// The values, borrowed.
    pub(crate) fn as_slice(&self) -> &[Value]
        ensures { datums_in result.now ≡ self.now }
    {
        match &self.values {
            Values::One(value) => slice::from_ref(value),
            Values::Several(values) => values.as_slice(),
        }
    }
}
