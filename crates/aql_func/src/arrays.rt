// Functions of one array.
ghost use Rattle.std.specs.Prelude.{[], ◌≡◌, IfOk, is_some, negsuc, option_map, unwrap_or};
ghost use Rattle.aql_value.specs.Convert as convert;
ghost use Rattle.aql_value.specs.Contents as contents;
ghost use Rattle.aql_value.specs.Contents.{at_index, elements, list};
ghost use Rattle.aql_value.specs.View.{datum_of, datums_in};
ghost use Rattle.aql_func.specs.Arguments.{is_array, of_list};
ghost use Rattle.aql_func.specs.Functions as functions;
ghost use Rattle.aql_func.specs.Functions.{call, or_empty};
ghost use Rattle.aql_func.specs.Lists as spec;
ghost use Rattle.aql_func.specs.inner.Optional.{optional_datum};

use crate::FuncName;
use crate::arguments::{array, opened_value, value_at};
use crate::arithmetic::count;
use crate::lists::{
    add_all, add_all_once, array_of, copy_all, copy_sorted, distinct_values, firsts, flat_copy,
    how_many,
};
use aql_value::{Items, OutOfMemory, Value, to_number, truthy};
use std::alloc::Global;
use std::slice;

pub(crate) fn first(alloc: Global, args: &Items) -> Result<Value, OutOfMemory>
    ensures { IfOk result (λ v. datum_of v ≡ call FuncName.First args.now) }
{
    let [any_array] = args.as_slice() else {
        return Ok(Value::Null);
    };
    match array(any_array) {
        None => Ok(Value::Null),
        Some(list) => value_at(alloc, list, 0),
    }
}

pub(crate) fn last(alloc: Global, args: &Items) -> Result<Value, OutOfMemory>
    ensures { IfOk result (λ v. datum_of v ≡ call FuncName.Last args.now) }
{
    let [any_array] = args.as_slice() else {
        return Ok(Value::Null);
    };
    match array(any_array) {
        None => Ok(Value::Null),
        Some(list) => last_element(alloc, list),
    }
}

fn last_element(alloc: Global, list: &Items) -> Result<Value, OutOfMemory>
    ensures { IfOk result (λ v. datum_of v ≡ at_index list.now (negsuc 0)) }
{
    match list.len().checked_sub(1) {
        Some(place) => value_at(alloc, list, place),
        None => Ok(Value::Null),
    }
}

pub(crate) fn nth(alloc: Global, args: &Items) -> Result<Value, OutOfMemory>
    ensures { IfOk result (λ v. datum_of v ≡ call FuncName.Nth args.now) }
{
    let [any_array, place] = args.as_slice() else {
        return Ok(Value::Null);
    };
    match array(any_array) {
        None => Ok(Value::Null),
        Some(list) => element(alloc, list, to_number(place)),
    }
}

fn element(alloc: Global, list: &Items, place: i64) -> Result<Value, OutOfMemory>
    ensures { IfOk result (λ v. datum_of v ≡ spec.nth list.now place) }
{
    match usize::try_from(place) {
        Ok(place) => value_at(alloc, list, place),
        Err(_) => Ok(Value::Null),
    }
}

// Whether a value is one of these.
pub(crate) fn is_in(values: &[Value], value: &Value) -> bool
    ensures { result ≡ contents.is_in (datums_in values.now) (datum_of value.now) }
{
    values.contains(value)
}

pub(crate) fn position(args: &Items) -> Value
    ensures { datum_of result ≡ call FuncName.Position args.now }
{
    let [any_array, sought] = args.as_slice() else {
        return Value::Null;
    };
    match array(any_array) {
        None => Value::Null,
        Some(list) => Value::Bool(is_in(list.as_slice(), sought)),
    }
}

pub(crate) fn push(alloc: Global, args: &Items) -> Result<Value, OutOfMemory>
    ensures { IfOk result (λ v. datum_of v ≡ call FuncName.Push args.now) }
{
    match args.as_slice() {
        [any_array, value] => extend(alloc, any_array, slice::from_ref(value), false),
        [any_array, value, unique] => {
            extend(alloc, any_array, slice::from_ref(value), truthy(unique))
        }
        _ => Ok(Value::Null),
    }
}

pub(crate) fn append(alloc: Global, args: &Items) -> Result<Value, OutOfMemory>
    ensures { IfOk result (λ v. datum_of v ≡ call FuncName.Append args.now) }
{
    match args.as_slice() {
        [any_array, values] => extend(alloc, any_array, opened_value(values), false),
        [any_array, values, unique] => {
            extend(alloc, any_array, opened_value(values), truthy(unique))
        }
        _ => Ok(Value::Null),
    }
}

// `more` added to an array, with `once` only what it doesn't have.
fn extend(
    alloc: Global,
    any_array: &Value,
    more: &[Value],
    once: bool,
) -> Result<Value, OutOfMemory>
    ensures { IfOk result (λ v. datum_of v
        ≡ functions.append_to (datum_of any_array.now) once (datums_in more.now)) }
{
    match values_or_empty(any_array) {
        None => Ok(Value::Null),
        Some(values) => {
            if once {
                add_all_once(alloc, values, more).map(Value::List)
            } else {
                add_all(alloc, values, more).map(Value::List)
            }
        }
    }
}

// The elements of an array, none of null; `None` for everything else.
fn values_or_empty(value: &Value) -> Option<&[Value]>
    ensures kind { is_some result ≡ is_array (or_empty (datum_of value.now)) }
    ensures values { unwrap_or (option_map (λ s. datums_in s.now) result) []
        ≡ elements (or_empty (datum_of value.now)) }
{
    match value {
        Value::Null => Some(&[]),
        _ => match array(value) {
            Some(list) => Some(list.as_slice()),
            None => None,
        },
    }
}

pub(crate) fn unique(alloc: Global, args: &Items) -> Result<Value, OutOfMemory>
    ensures { IfOk result (λ v. datum_of v ≡ call FuncName.Unique args.now) }
{
    let [any_array] = args.as_slice() else {
        return Ok(Value::Null);
    };
    match array(any_array) {
        None => Ok(Value::Null),
        Some(list) => {
            let out = firsts(alloc, list.as_slice())?;
            array_of(alloc, out).map(Value::List)
        }
    }
}

pub(crate) fn sorted_values(alloc: Global, args: &Items) -> Result<Value, OutOfMemory>
    ensures { IfOk result (λ v. datum_of v ≡ call FuncName.Sorted args.now) }
{
    let [any_array] = args.as_slice() else {
        return Ok(Value::Null);
    };
    match array(any_array) {
        None => Ok(Value::Null),
        Some(list) => copy_sorted(alloc, list.as_slice()).map(Value::List),
    }
}

pub(crate) fn sorted_unique(alloc: Global, args: &Items) -> Result<Value, OutOfMemory>
    ensures { IfOk result (λ v. datum_of v ≡ call FuncName.SortedUnique args.now) }
{
    let [any_array] = args.as_slice() else {
        return Ok(Value::Null);
    };
    match array(any_array) {
        None => Ok(Value::Null),
        Some(list) => distinct_values(alloc, list.as_slice()).map(Value::List),
    }
}

pub(crate) fn count_distinct(alloc: Global, args: &Items) -> Result<Value, OutOfMemory>
    ensures { IfOk result (λ v. datum_of v ≡ call FuncName.CountDistinct args.now) }
{
    let [any_array] = args.as_slice() else {
        return Ok(Value::Null);
    };
    match array(any_array) {
        None => Ok(Value::Null),
        Some(list) => Ok(count(distinct_values(alloc, list.as_slice())?.len())),
    }
}

pub(crate) fn flatten(alloc: Global, args: &Items) -> Result<Value, OutOfMemory>
    ensures { IfOk result (λ v. datum_of v ≡ call FuncName.Flatten args.now) }
{
    match args.as_slice() {
        [any_array] => flatten_to(alloc, any_array, 1),
        [any_array, depth] => { flatten_to(alloc, any_array, how_many(to_number(depth)).max(1)) }
        _ => Ok(Value::Null),
    }
}

fn flatten_to(alloc: Global, any_array: &Value, depth: usize) -> Result<Value, OutOfMemory>
    ensures { IfOk result (λ v. datum_of v
        ≡ of_list (datum_of any_array.now) (λ ts. list (spec.flatten depth ts))) }
{
    match array(any_array) {
        None => Ok(Value::Null),
        Some(list) => flat_copy(alloc, list.as_slice(), depth).map(Value::List),
    }
}

pub(crate) fn slice_of(alloc: Global, args: &Items) -> Result<Value, OutOfMemory>
    ensures { IfOk result (λ v. datum_of v ≡ call FuncName.Slice args.now) }
{
    match args.as_slice() {
        [any_array, start] => part(alloc, any_array, start, None),
        [any_array, start, count] => part(alloc, any_array, start, Some(count)),
        _ => Ok(Value::Null),
    }
}

fn part(
    alloc: Global,
    any_array: &Value,
    start: &Value,
    count: Option<&Value>,
) -> Result<Value, OutOfMemory>
    ensures { IfOk result (λ v. datum_of v ≡ of_list (datum_of any_array.now)
        (λ ts. list (spec.slice (convert.to_number (datum_of start.now))
        (optional_datum count.entry) ts))) }
{
    match array(any_array) {
        None => Ok(Value::Null),
        Some(list) => {
            let part = crate::lists::slice(list.as_slice(), to_number(start), count);
            copy_all(alloc, part).map(Value::List)
        }
    }
}
