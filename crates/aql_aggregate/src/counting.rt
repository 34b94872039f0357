//! How many members an aggregate saw.

ghost use Rattle.std.specs.Prelude.{◌≡◌, List, [], ◌∷◌, ◌++◌, pos, Some};
ghost use Rattle.aql_value.specs.Datum.{Datum};
ghost use Rattle.aql_value.specs.View.{datum_of};
ghost use Rattle.aql_func.specs.Aggregates.{count_of};
ghost use Rattle.aql_aggregate.specs.States.{Counts};

use aql_value::Value;

/// A count of no members.
pub fn zero_count() -> Option<i64>
    ensures { Counts result [] }
{
    Some(0)
}

/// One member more. The count is lost where a number of 64 bits can't tell it.
pub fn one_more(count: Option<i64>) -> Option<i64>
    ensures { (ts : List Datum) (t : Datum) → Counts count ts → Counts result (ts ++ t ∷ []) }
{
    match count {
        Some(count) => count.checked_add(1),
        None => None,
    }
}

/// The count as a value, null where it was lost.
pub fn count_value(count: Option<i64>) -> Value
    ensures { (ts : List Datum) → Counts count ts → datum_of result ≡ count_of ts }
{
    match count {
        Some(count) => Value::Num(count),
        None => Value::Null,
    }
}
