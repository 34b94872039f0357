//! The distinct members that an aggregate saw.

ghost use Rattle.std.specs.Prelude.{◌≡◌, List, [], ◌∷◌, ◌++◌, true, IfOk, OnOk};
ghost use Rattle.aql_value.specs.View.{datum_of, datums_in};
ghost use Rattle.aql_func.specs.Lists.{add, sort_values};
ghost use Rattle.aql_func.specs.Aggregates.{count_of};

use aql_value::{Items, OutOfMemory, Value, copy};
use indexmap::IndexSet;
use std::alloc::Global;

/// Keeps a value that isn't kept yet.
pub(crate) fn note(
    alloc: Global,
    seen: &mut IndexSet<Value>,
    value: &Value,
) -> Result<(), OutOfMemory>
    ensures { OnOk result
        (datums_in seen.new.keys ≡ add true (datums_in seen.old.keys) (datum_of value.now)) }
{
    seen.insert(copy(alloc, value)?)?;
    Ok(())
}

/// How many values there are.
pub(crate) fn count(seen: &IndexSet<Value>) -> Value
    ensures { datum_of result ≡ count_of (datums_in seen.now.keys) }
{
    Value::Num(seen.len() as i64)
}

/// The values in ascending order.
pub(crate) fn ascending(alloc: Global, seen: IndexSet<Value>) -> Result<Items, OutOfMemory>
    ensures { IfOk result (λ items. items ≡ sort_values (datums_in seen.keys)) }
{
    let mut values = Vec::new(alloc);
    for value in seen {
        values.push(value)?;
    }
    put_in_order(&mut values)?;
    into_items(alloc, values)
}

fn put_in_order(values: &mut Vec<Value>) -> Result<(), OutOfMemory>
    ensures { OnOk result
        (datums_in values.new.items ≡ sort_values (datums_in values.old.items)) }
{
    values.sort()?;
    Ok(())
}

fn into_items(alloc: Global, values: Vec<Value>) -> Result<Items, OutOfMemory>
    ensures { IfOk result (λ items. items ≡ datums_in values.items) }
{
    let mut items = Items::new(alloc);
    for value in values {
        items.push(value)?;
    }
    Ok(items)
}
