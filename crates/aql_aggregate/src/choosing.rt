//! The least and the greatest member that an aggregate saw.

ghost use Rattle.std.specs.Prelude.{◌≡◌, List, [], ◌∷◌, ◌++◌, cond, Some, OnOk};
ghost use Rattle.aql_value.specs.Datum.{Datum};
ghost use Rattle.aql_value.specs.View.{datum_of};
ghost use Rattle.aql_func.specs.Aggregates.{best, lesser, greater};
ghost use Rattle.aql_aggregate.specs.States.{datum_in, better};

use aql_value::{OutOfMemory, Value, cmp, copy};
use std::alloc::Global;

// Whether a member is to be kept: it isn't null, and less than the one that is kept.
fn is_less(value: &Value, kept: &Option<Value>) -> bool
    ensures { cond result (Some (datum_of value.now)) (datum_in kept.now)
        ≡ better lesser (datum_in kept.now) (datum_of value.now) }
{
    match value {
        Value::Null => false,
        _ => match kept {
            Some(kept) => cmp(value, kept).is_lt(),
            None => true,
        },
    }
}

// Whether a member is to be kept: it isn't null, and greater than the one that is kept.
fn is_greater(value: &Value, kept: &Option<Value>) -> bool
    ensures { cond result (Some (datum_of value.now)) (datum_in kept.now)
        ≡ better greater (datum_in kept.now) (datum_of value.now) }
{
    match value {
        Value::Null => false,
        _ => match kept {
            Some(kept) => cmp(kept, value).is_lt(),
            None => true,
        },
    }
}

/// Keeps the member where it is less than the one that is kept. Null is left out.
pub(crate) fn keep_least(
    alloc: Global,
    least: &mut Option<Value>,
    value: &Value,
) -> Result<(), OutOfMemory>
    ensures { OnOk result ((ts : List Datum) → datum_in least.old ≡ best lesser ts
        → datum_in least.new ≡ best lesser (ts ++ datum_of value.now ∷ [])) }
{
    if is_less(value, least) {
        *least = Some(copy(alloc, value)?);
    }
    Ok(())
}

/// Keeps the member where it is greater than the one that is kept. Null is left out.
pub(crate) fn keep_greatest(
    alloc: Global,
    greatest: &mut Option<Value>,
    value: &Value,
) -> Result<(), OutOfMemory>
    ensures { OnOk result ((ts : List Datum) → datum_in greatest.old ≡ best greater ts
        → datum_in greatest.new ≡ best greater (ts ++ datum_of value.now ∷ [])) }
{
    if is_greater(value, greatest) {
        *greatest = Some(copy(alloc, value)?);
    }
    Ok(())
}
