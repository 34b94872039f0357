//! How many members there are, by the states of parts.

ghost use Rattle.std.specs.Prelude.{◌≡◌, List, ◌++◌};
ghost use Rattle.aql_value.specs.Datum.{Datum};
ghost use Rattle.aql_value.specs.View.{datum_of};
ghost use Rattle.aql_func.specs.Aggregates.{count_of};
ghost use Rattle.aql_aggregate.specs.States.{Counts};

use aql_value::Value;

/// As many members more as a state tells.
pub(crate) fn more(count: Option<i64>, state: &Value) -> Option<i64>
    ensures { (ts us : List Datum) → Counts count ts → datum_of state.now ≡ count_of us
        → Counts result (ts ++ us) }
{
    match state {
        Value::Num(others) => match count {
            Some(count) => count.checked_add(*others),
            None => None,
        },
        _ => None,
    }
}
