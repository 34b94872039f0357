//! States that are arrays of members.

ghost use Rattle.std.specs.Prelude.{◌≡◌, List, [], ◌∷◌, ◌++◌, cond, IfOk, OnOk};
ghost use Rattle.aql_value.specs.Datum.{Datum};
ghost use Rattle.aql_value.specs.View.{datum_of, datums_in};
ghost use Rattle.aql_value.specs.Contents.{list, elements};
ghost use Rattle.aql_func.specs.Aggregates.{Aggregate, count_of};
ghost use Rattle.aql_func.specs.Aggregates as aggregates;
ghost use Rattle.aql_aggregate.specs.States.{Keeps};

use crate::Accumulator;
use aql_value::{Items, OutOfMemory, Value};
use std::alloc::Global;

/// Takes each element of an array as a member.
pub(crate) fn add_elements(
    alloc: Global,
    accumulator: &mut Accumulator,
    state: &Value,
) -> Result<(), OutOfMemory>
    ensures { OnOk result ((kind : Aggregate) (ts : List Datum) → Keeps accumulator.old kind ts
        → Keeps accumulator.new kind (ts ++ elements (datum_of state.now))) }
{
    if let Value::List(items) = state {
        add_each(alloc, accumulator, items.as_slice())?;
    }
    Ok(())
}

// Takes each of the values as a member.
fn add_each(
    alloc: Global,
    accumulator: &mut Accumulator,
    values: &[Value],
) -> Result<(), OutOfMemory>
    ensures { OnOk result ((kind : Aggregate) (ts : List Datum) → Keeps accumulator.old kind ts
        → Keeps accumulator.new kind (ts ++ datums_in values.now)) }
{
    for value in values {
        accumulator.add(alloc, value)?;
    }
    Ok(())
}

/// The array of a value, the empty one of null.
pub(crate) fn at_most_one(alloc: Global, value: Value) -> Result<Value, OutOfMemory>
    ensures { IfOk result (λ v. datum_of v
        ≡ cond (aggregates.is_null (datum_of value)) (list []) (list (datum_of value ∷ []))) }
{
    let mut items = Items::new(alloc);
    if !is_null(&value) {
        items.push(value)?;
    }
    Ok(Value::List(items))
}

/// Whether it is null.
pub(crate) fn is_null(value: &Value) -> bool
    ensures { result ≡ aggregates.is_null (datum_of value.now) }
{
    matches!(value, Value::Null)
}

/// How many elements an array has.
pub(crate) fn element_count(state: &Value) -> Value
    ensures { datum_of result ≡ count_of (elements (datum_of state.now)) }
{
    match state {
        Value::List(items) => match i64::try_from(items.len()) {
            Ok(count) => Value::Num(count),
            Err(_) => Value::Null,
        },
        _ => Value::Num(0),
    }
}
