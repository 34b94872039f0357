// Lists of values: copies, parts, order and distinct values.
ghost use Rattle.std.specs.Prelude.{[], ◌++◌, ◌∷◌, ◌≡◌, cond, drop, false, IfOk, not, OnOk, take, true};
ghost use Rattle.aql_value.specs.Contents.{is_in};
ghost use Rattle.aql_value.specs.View.{datum_of, datums_in};
ghost use Rattle.aql_func.specs.Lists as spec;
ghost use Rattle.aql_func.specs.inner.Prefixes.{prefix_length};
ghost use Rattle.aql_func.specs.inner.Optional.{optional_datum};
ghost use Rattle.aql_func.specs.inner.Sieves.{sift};

use aql_value::{Items, OutOfMemory, Value, copy, to_number};
use indexmap::IndexSet;
use std::alloc::Global;
use std::slice;

// These values as an array.
pub(crate) fn array_of(alloc: Global, values: Vec<Value>) -> Result<Items, OutOfMemory>
    ensures { IfOk result (λ w. w ≡ datums_in values.items) }
{
    let mut out = Items::new(alloc);
    for value in values {
        out.push(value)?;
    }
    Ok(out)
}

// An array of equal values.
pub(crate) fn copy_all(alloc: Global, values: &[Value]) -> Result<Items, OutOfMemory>
    ensures { IfOk result (λ w. w ≡ datums_in values.now) }
{
    let mut out = Vec::new(alloc);
    append(alloc, &mut out, values)?;
    array_of(alloc, out)
}

// Puts copies at the end.
pub(crate) fn append(
    alloc: Global,
    out: &mut Vec<Value>,
    values: &[Value],
) -> Result<(), OutOfMemory>
    ensures { OnOk result
        (datums_in out.new.items ≡ datums_in out.old.items ++ datums_in values.now) }
{
    for value in values {
        out.push(copy(alloc, value)?)?;
    }
    Ok(())
}

pub(crate) fn sort(values: &mut Vec<Value>) -> Result<(), OutOfMemory>
    ensures { OnOk result
        (datums_in values.new.items ≡ spec.sort_values (datums_in values.old.items)) }
{
    values.sort()?;
    Ok(())
}

// Notes a value, and says whether it is new.
fn note(alloc: Global, seen: &mut IndexSet<Value>, value: &Value) -> Result<bool, OutOfMemory>
    ensures new { IfOk result
        (λ b. b ≡ not (is_in (datums_in seen.old.keys) (datum_of value.now))) }
    ensures keys { OnOk result (datums_in seen.new.keys
        ≡ spec.add true (datums_in seen.old.keys) (datum_of value.now)) }
{
    Ok(seen.insert(copy(alloc, value)?)?)
}

// The distinct values, each at its first place.
pub(crate) fn distinct_set(alloc: Global, values: &[Value]) -> Result<IndexSet<Value>, OutOfMemory>
    ensures { IfOk result (λ w. datums_in w.keys ≡ spec.firsts (datums_in values.now)) }
{
    let mut seen = IndexSet::new(alloc);
    for value in values {
        note(alloc, &mut seen, value)?;
    }
    Ok(seen)
}

pub(crate) fn firsts(alloc: Global, values: &[Value]) -> Result<Vec<Value>, OutOfMemory>
    ensures { IfOk result (λ w. datums_in w.items ≡ spec.firsts (datums_in values.now)) }
{
    let mut out = Vec::new(alloc);
    for value in distinct_set(alloc, values)? {
        out.push(value)?;
    }
    Ok(out)
}

pub(crate) fn distinct_values(alloc: Global, values: &[Value]) -> Result<Items, OutOfMemory>
    ensures { IfOk result (λ w. w ≡ spec.distinct (datums_in values.now)) }
{
    let mut out = firsts(alloc, values)?;
    sort(&mut out)?;
    array_of(alloc, out)
}

pub(crate) fn copy_sorted(alloc: Global, values: &[Value]) -> Result<Items, OutOfMemory>
    ensures { IfOk result (λ w. w ≡ spec.sort_values (datums_in values.now)) }
{
    let mut out = Vec::new(alloc);
    append(alloc, &mut out, values)?;
    sort(&mut out)?;
    array_of(alloc, out)
}

// The values that are in the other list, where `present` says so, and else those that are not.
pub(crate) fn sift(
    alloc: Global,
    values: &[Value],
    other: &[Value],
    present: bool,
) -> Result<Vec<Value>, OutOfMemory>
    ensures { IfOk result
        (λ w. datums_in w.items ≡ sift present (datums_in other.now) (datums_in values.now)) }
{
    let set = distinct_set(alloc, other)?;
    sift_by(alloc, values, &set, present)
}

fn sift_by(
    alloc: Global,
    values: &[Value],
    set: &IndexSet<Value>,
    present: bool,
) -> Result<Vec<Value>, OutOfMemory>
    ensures { IfOk result
        (λ w. datums_in w.items ≡ sift present (datums_in set.now.keys) (datums_in values.now)) }
{
    let mut out = Vec::new(alloc);
    for value in values {
        if set.contains(value) == present {
            append(alloc, &mut out, slice::from_ref(value))?;
        }
    }
    Ok(out)
}

// Where a number points in a list of this size.
pub(crate) fn index_from(size: usize, number: i64) -> usize
    ensures { result ≡ spec.index_from size number }
{
    match usize::try_from(number) {
        Ok(place) => place,
        Err(_) => size.saturating_sub(number.unsigned_abs() as usize),
    }
}

// How many a number asks for.
pub(crate) fn how_many(number: i64) -> usize
    ensures { result ≡ spec.how_many number }
{
    match usize::try_from(number) {
        Ok(count) => count,
        Err(_) => 0,
    }
}

pub(crate) fn front<T>(items: &[T], count: usize) -> &[T]
    ensures { result.now ≡ take count items.now }
{
    if count < items.len() {
        &items[..count]
    } else {
        items
    }
}

pub(crate) fn rest_from<T>(items: &[T], start: usize) -> &[T]
    ensures { result.now ≡ drop start items.now }
{
    if start < items.len() {
        &items[start..]
    } else {
        &items[..0]
    }
}

pub(crate) fn at_most<'a, T>(items: &'a [T], count: Option<&Value>) -> &'a [T]
    ensures { result.now ≡ spec.at_most (optional_datum count.entry) items.now }
{
    match count {
        Some(count) => front(items, how_many(to_number(count))),
        None => items,
    }
}

pub(crate) fn last_of<T>(items: &[T], count: usize) -> &[T]
    ensures { result.now ≡ spec.last_of count items.now }
{
    rest_from(items, items.len().saturating_sub(count))
}

fn up_to(values: &[Value], count: i64) -> &[Value]
    ensures { datums_in result.now ≡ spec.up_to count (datums_in values.now) }
{
    front(values, count_up_to(values.len(), count))
}

fn count_up_to(size: usize, count: i64) -> usize
    ensures { result ≡ prefix_length size count }
{
    match usize::try_from(count) {
        Ok(count) => count,
        Err(_) => size.saturating_sub(count.unsigned_abs() as usize),
    }
}

pub(crate) fn slice<'a>(values: &'a [Value], start: i64, count: Option<&Value>) -> &'a [Value]
    ensures { datums_in result.now
        ≡ spec.slice start (optional_datum count.entry) (datums_in values.now) }
{
    let rest = rest_from(values, index_from(values.len(), start));
    match count {
        Some(count) => up_to(rest, to_number(count)),
        None => rest,
    }
}

// Puts the values at the end, with arrays inside opened to a depth.
fn flatten_into(
    alloc: Global,
    values: &[Value],
    depth: usize,
    out: &mut Items,
) -> Result<(), OutOfMemory>
    ensures { OnOk result (out.new ≡ out.old ++ spec.flatten depth (datums_in values.now)) }
{
    for value in values {
        match value {
            Value::List(list) if depth > 0 => flatten_into(alloc, list.as_slice(), depth - 1, out)?,
            _ => out.push(copy(alloc, value)?)?,
        }
    }
    Ok(())
}

pub(crate) fn flat_copy(alloc: Global, values: &[Value], depth: usize) -> Result<Items, OutOfMemory>
    ensures { IfOk result (λ w. w ≡ spec.flatten depth (datums_in values.now)) }
{
    let mut out = Items::new(alloc);
    flatten_into(alloc, values, depth, &mut out)?;
    Ok(out)
}

// Copies of `more` added to the list, one by one.
pub(crate) fn add_all(alloc: Global, values: &[Value], more: &[Value]) -> Result<Items, OutOfMemory>
    ensures { IfOk result
        (λ w. w ≡ spec.add_all false (datums_in values.now) (datums_in more.now)) }
{
    let mut out = copy_all(alloc, values)?;
    for value in more {
        out.push(copy(alloc, value)?)?;
    }
    Ok(out)
}

// Copies of `more` added to the list, one by one, where the list doesn't have it.
pub(crate) fn add_all_once(
    alloc: Global,
    values: &[Value],
    more: &[Value],
) -> Result<Items, OutOfMemory>
    ensures { IfOk result
        (λ w. w ≡ spec.add_all true (datums_in values.now) (datums_in more.now)) }
{
    let mut out = copy_all(alloc, values)?;
    let mut seen = distinct_set(alloc, values)?;
    for value in more {
        add_once(alloc, value, &mut seen, &mut out)?;
    }
    Ok(out)
}

fn add_once(
    alloc: Global,
    value: &Value,
    seen: &mut IndexSet<Value>,
    out: &mut Items,
) -> Result<(), OutOfMemory>
    ensures seen { OnOk result (datums_in seen.new.keys
        ≡ spec.add true (datums_in seen.old.keys) (datum_of value.now)) }
    ensures out { OnOk result (out.new ≡ cond (is_in (datums_in seen.old.keys) (datum_of value.now))
        out.old (out.old ++ datum_of value.now ∷ [])) }
{
    if note(alloc, seen, value)? {
        out.push(copy(alloc, value)?)?;
    }
    Ok(())
}
