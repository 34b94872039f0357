// The aggregates of an array's elements.
ghost use Rattle.std.specs.Prelude.{◌≡◌, IfOk, unwrap_or};
ghost use Rattle.aql_value.specs.Datum.{null};
ghost use Rattle.aql_value.specs.View.{datum_of, datums_in};
ghost use Rattle.aql_func.specs.Aggregates as spec;
ghost use Rattle.aql_func.specs.Functions.{call};
ghost use Rattle.aql_func.specs.inner.Optional.{optional_datum};

use crate::FuncName;
use crate::arguments::{array, is_null};
use aql_value::{Items, OutOfMemory, Value, cmp, copy};
use std::alloc::Global;

pub(crate) fn min(alloc: Global, args: &Items) -> Result<Value, OutOfMemory>
    ensures { IfOk result (λ v. datum_of v ≡ call FuncName.Min args.now) }
{
    let [any_array] = args.as_slice() else {
        return Ok(Value::Null);
    };
    match array(any_array) {
        None => Ok(Value::Null),
        Some(list) => copy_or_null(alloc, minimum(list.as_slice())),
    }
}

pub(crate) fn max(alloc: Global, args: &Items) -> Result<Value, OutOfMemory>
    ensures { IfOk result (λ v. datum_of v ≡ call FuncName.Max args.now) }
{
    let [any_array] = args.as_slice() else {
        return Ok(Value::Null);
    };
    match array(any_array) {
        None => Ok(Value::Null),
        Some(list) => copy_or_null(alloc, maximum(list.as_slice())),
    }
}

fn copy_or_null(alloc: Global, value: Option<&Value>) -> Result<Value, OutOfMemory>
    ensures { IfOk result (λ v. datum_of v ≡ unwrap_or (optional_datum value.entry) null) }
{
    match value {
        Some(value) => copy(alloc, value),
        None => Ok(Value::Null),
    }
}

// The least of the values that aren't null.
fn minimum(values: &[Value]) -> Option<&Value>
    ensures { optional_datum result ≡ spec.best spec.lesser (datums_in values.now) }
{
    let mut best = None;
    let mut at = values.len();
    while at > 0 {
        at -= 1;
        best = lesser(&values[at], best);
    }
    best
}

// The greatest of the values that aren't null.
fn maximum(values: &[Value]) -> Option<&Value>
    ensures { optional_datum result ≡ spec.best spec.greater (datums_in values.now) }
{
    let mut best = None;
    let mut at = values.len();
    while at > 0 {
        at -= 1;
        best = greater(&values[at], best);
    }
    best
}

fn lesser<'a>(value: &'a Value, best: Option<&'a Value>) -> Option<&'a Value>
    ensures { optional_datum result
        ≡ spec.prefer spec.lesser (datum_of value.now) (optional_datum best.entry) }
{
    if is_null(value) {
        return best;
    }
    match best {
        Some(other) => if cmp(other, value).is_lt() {
            Some(other)
        } else {
            Some(value)
        },
        None => Some(value),
    }
}

fn greater<'a>(value: &'a Value, best: Option<&'a Value>) -> Option<&'a Value>
    ensures { optional_datum result
        ≡ spec.prefer spec.greater (datum_of value.now) (optional_datum best.entry) }
{
    if is_null(value) {
        return best;
    }
    match best {
        Some(other) => if cmp(value, other).is_lt() {
            Some(other)
        } else {
            Some(value)
        },
        None => Some(value),
    }
}

pub(crate) fn sum(args: &Items) -> Value
    ensures { datum_of result ≡ call FuncName.Sum args.now }
{
    let [any_array] = args.as_slice() else {
        return Value::Null;
    };
    match array(any_array) {
        None => Value::Null,
        Some(list) => sum_of(list.as_slice()),
    }
}

fn sum_of(values: &[Value]) -> Value
    ensures { datum_of result ≡ spec.sum_of (datums_in values.now) }
{
    let mut total = 0i128;
    for value in values {
        match value {
            Value::Null => {}
            Value::Num(n) => total += i128::from(*n),
            _ => return Value::Null,
        }
    }
    match i64::try_from(total) {
        Ok(total) => Value::Num(total),
        Err(_) => Value::Null,
    }
}
