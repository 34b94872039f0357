//! The values of keys at a row, and the order that they give.

ghost use Rattle.std.specs.Prelude.{◌≡◌, IfOk};
ghost use Rattle.aql_value.specs.Datum.{null};
ghost use Rattle.aql_value.specs.View.{datum_of, datums_in};
ghost use Rattle.aql_func.specs.Arguments.{argument};
ghost use Rattle.aql_plan.specs.View.{directions, key_trees};
ghost use Rattle.aql_meaning.specs.Plain.{AllPlain};
ghost use Rattle.aql_meaning.specs.AtRows.{keys_of};
ghost use Rattle.aql_meaning.specs.Clauses.{key_cmp, keys_cmp};
ghost use Rattle.aql_block.specs.Rows.{row_of};

use aql_block::RowRef;
use aql_expr::eval;
use aql_tree::Key;
use aql_value::{OutOfMemory, Value, cmp};
use std::alloc::Global;
use std::cmp::Ordering;

/// The values of the keys at a row, in order.
pub(crate) fn keys_at(
    alloc: Global,
    keys: &[Key],
    row: &RowRef<'_>,
) -> Result<Vec<Value>, OutOfMemory>
    requires { AllPlain (key_trees keys.now) }
    ensures { IfOk result
        (λ values. datums_in values.items ≡ keys_of (key_trees keys.now) (row_of row.now)) }
{
    let mut values = Vec::with_capacity(alloc, keys.len())?;
    for key in keys {
        values.push(eval(alloc, &key.expr, row)?)?;
    }
    Ok(values)
}

// The value at a place; `missing`, which is null, where there is none.
fn value_at<'a>(values: &'a [Value], at: usize, missing: &'a Value) -> &'a Value
    requires { datum_of missing.now ≡ null }
    ensures { datum_of result.now ≡ argument (datums_in values.now) at }
{
    match values.get(at) {
        Some(value) => value,
        None => missing,
    }
}

// How two values of one key compare.
fn compare_key(descending: bool, left: &Value, right: &Value) -> Ordering
    ensures { result ≡ key_cmp descending (datum_of left.now) (datum_of right.now) }
{
    if descending {
        cmp(right, left)
    } else {
        cmp(left, right)
    }
}

/// How two lists of values compare: the first key that differs decides.
pub(crate) fn compare(keys: &[Key], left: &[Value], right: &[Value]) -> Ordering
    ensures { result
        ≡ keys_cmp (directions keys.now) (datums_in left.now) (datums_in right.now) }
{
    let missing = Value::Null;
    for (at, key) in keys.iter().enumerate() {
        let first = value_at(left, at, &missing);
        let second = value_at(right, at, &missing);
        let order = compare_key(key.descending, first, second);
        if order.is_ne() {
            return order;
        }
    }
    Ordering::Equal
}
