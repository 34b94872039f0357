//! Rows with their keys, and the order that keys give.

ghost use Rattle.std.specs.Prelude.{◌≡◌, List, ◌++◌, map, IfOk, OnOk, IsPermutation, IsSortedBy};
ghost use Rattle.aql_value.specs.Datum.{null};
ghost use Rattle.aql_value.specs.Compare.{compare};
ghost use Rattle.aql_value.specs.View.{datum_of, datums_in};
ghost use Rattle.aql_func.specs.Arguments.{argument};
ghost use Rattle.aql_plan.specs.View.{directions, key_trees};
ghost use Rattle.aql_meaning.specs.Plain.{AllPlain};
ghost use Rattle.aql_meaning.specs.AtRows.{keys_of};
ghost use Rattle.aql_meaning.specs.Clauses.{KeyedRow, key_cmp, keys_cmp, comes_before};
ghost use Rattle.aql_block.specs.Rows.{row_of};
ghost use Rattle.aql_block.specs.Tables.{rows_of};
ghost use Rattle.aql_exec_rows.specs.Keys.{values_in, with_keys, keyed_in, first_of};

use aql_block::{Block, Row};
use aql_expr::eval;
use aql_tree::Key;
use aql_value::{OutOfMemory, Value, cmp};
use std::alloc::Global;
use std::cmp::Ordering;
use std::slice;

/// The values of keys. One that is alone stands without a list of its own.
#[derive(Drop)]
pub(crate) enum KeyValues {
    One(Value),
    Several(Vec<Value>),
}

/// A row with the values of its keys.
#[derive(Drop)]
pub(crate) struct Keyed {
    pub(crate) keys: KeyValues,
    pub(crate) row: Row,
}

impl KeyValues {
    fn as_slice(&self) -> &[Value]
        ensures { datums_in result.now ≡ values_in self.now }
    {
        match self {
            KeyValues::One(value) => slice::from_ref(value),
            KeyValues::Several(values) => values.as_slice(),
        }
    }
}

impl Keyed {
    pub(crate) fn into_row(self) -> Row
        ensures { result ≡ self.row }
    {
        let Keyed { keys: _, row } = self;
        row
    }
}

// The values of the keys at a row, in order.
fn keys_at(alloc: Global, keys: &[Key], row: &Row) -> Result<KeyValues, OutOfMemory>
    requires { AllPlain (key_trees keys.now) }
    ensures { IfOk result (λ values. values_in values ≡ keys_of (key_trees keys.now) (row_of row.now)) }
{
    match keys {
        [key] => Ok(KeyValues::One(eval(alloc, &key.expr, row)?)),
        _ => Ok(KeyValues::Several(list_at(alloc, keys, row)?)),
    }
}

// The same as a list.
fn list_at(alloc: Global, keys: &[Key], row: &Row) -> Result<Vec<Value>, OutOfMemory>
    requires { AllPlain (key_trees keys.now) }
    ensures { IfOk result
        (λ values. datums_in values.items ≡ keys_of (key_trees keys.now) (row_of row.now)) }
{
    let mut values = Vec::with_capacity(alloc, keys.len())?;
    for key in keys {
        values.push(eval(alloc, &key.expr, row)?)?;
    }
    Ok(values)
}

/// Moves the rows of a block to those that are held, each with its keys.
pub(crate) fn add_rows(
    alloc: Global,
    keys: &[Key],
    mut block: Block,
    held: &mut Vec<Keyed>,
) -> Result<(), OutOfMemory>
    requires { AllPlain (key_trees keys.now) }
    ensures { OnOk result (keyed_in held.new.items
        ≡ keyed_in held.old.items ++ map (with_keys (key_trees keys.now)) (rows_of block)) }
{
    for at in 0..block.len() {
        let row = block.take_row(alloc, at)?;
        let keys = keys_at(alloc, keys, &row)?;
        held.push(Keyed { keys, row })?;
    }
    Ok(())
}

// The value at a place; `missing`, which is null, where there is none.
fn value_at<'a>(values: &'a [Value], at: usize, missing: &'a Value) -> &'a Value
    requires { datum_of missing.now ≡ null }
    ensures { datum_of result.now ≡ argument (datums_in values.now) at }
{
    match values.get(at) {
        Some(value) => value,
        None => missing,
    }
}

// How two values compare. Most keys are numbers, which need no call.
fn compare_values(left: &Value, right: &Value) -> Ordering
    ensures { result ≡ compare (datum_of left.now) (datum_of right.now) }
{
    match (left, right) {
        (Value::Num(first), Value::Num(second)) => first.cmp(second),
        _ => cmp(left, right),
    }
}

// How two values of one key compare.
fn compare_key(descending: bool, left: &Value, right: &Value) -> Ordering
    ensures { result ≡ key_cmp descending (datum_of left.now) (datum_of right.now) }
{
    if descending {
        compare_values(right, left)
    } else {
        compare_values(left, right)
    }
}

// How the values of two rows compare.
fn compare_keys(keys: &[Key], left: &KeyValues, right: &KeyValues) -> Ordering
    ensures { result
        ≡ keys_cmp (directions keys.now) (values_in left.now) (values_in right.now) }
{
    match (keys, left, right) {
        ([key], KeyValues::One(first), KeyValues::One(second)) => {
            compare_key(key.descending, first, second)
        }
        _ => compare_lists(keys, left.as_slice(), right.as_slice()),
    }
}

// How two lists of values compare: the first key that differs decides.
fn compare_lists(keys: &[Key], left: &[Value], right: &[Value]) -> Ordering
    ensures { result
        ≡ keys_cmp (directions keys.now) (datums_in left.now) (datums_in right.now) }
{
    let missing = Value::Null;
    for (at, key) in keys.iter().enumerate() {
        let first = value_at(left, at, &missing);
        let second = value_at(right, at, &missing);
        let order = compare_key(key.descending, first, second);
        if order.is_ne() {
            return order;
        }
    }
    Ordering::Equal
}

// Sorts the rows by their keys; rows with equal keys keep their order.
fn sort_rows(keys: &[Key], held: &mut Vec<Keyed>) -> Result<(), OutOfMemory>
    ensures permutation { IsPermutation (keyed_in held.old.items) (keyed_in held.new.items) }
    ensures sorted { OnOk result
        (IsSortedBy (comes_before (directions keys.now)) (keyed_in held.new.items)) }
{
    held.sort_by(|left, right| compare_keys(keys, &left.keys, &right.keys))?;
    Ok(())
}

/// Sorts the rows by their keys, and keeps the first of them, so many where there is a limit.
pub(crate) fn keep_first(
    keys: &[Key],
    limit: Option<u64>,
    held: &mut Vec<Keyed>,
) -> Result<(), OutOfMemory>
    ensures { OnOk result ((sorted : List KeyedRow)
        × IsPermutation (keyed_in held.old.items) sorted
        × IsSortedBy (comes_before (directions keys.now)) sorted
        × (keyed_in held.new.items ≡ first_of limit sorted)) }
{
    sort_rows(keys, held)?;
    if let Some(count) = limit {
        held.truncate(count as usize);
    }
    Ok(())
}
