// Functions of several arrays.
ghost use Rattle.std.specs.List.{list_all};
ghost use Rattle.std.specs.Prelude.{◌≡◌, drop, flat_map, IfOk, map};
ghost use Rattle.aql_value.specs.Contents as contents;
ghost use Rattle.aql_value.specs.Contents.{list};
ghost use Rattle.aql_value.specs.View.{datum_of, datums_in};
ghost use Rattle.aql_func.specs.Arguments as given_args;
ghost use Rattle.aql_func.specs.Arguments.{of_lists};
ghost use Rattle.aql_func.specs.Functions.{call, head};
ghost use Rattle.aql_func.specs.Lists as spec;
ghost use Rattle.aql_func.specs.inner.Sieves.{sieve};

use crate::FuncName;
use crate::arguments::{array, is_array};
use crate::lists::{append, array_of, distinct_values, sift};
use aql_value::{Items, OutOfMemory, Value};
use std::alloc::Global;

fn all_arrays(args: &[Value]) -> bool
    ensures { result ≡ list_all given_args.is_array (datums_in args.now) }
{
    for arg in args {
        if !is_array(arg) {
            return false;
        }
    }
    true
}

// The elements of an array; everything else has none.
fn elements(value: &Value) -> &[Value]
    ensures { datums_in result.now ≡ contents.elements (datum_of value.now) }
{
    match array(value) {
        Some(list) => list.as_slice(),
        None => &[],
    }
}

pub(crate) fn intersection(alloc: Global, args: &Items) -> Result<Value, OutOfMemory>
    ensures { IfOk result (λ v. datum_of v ≡ call FuncName.Intersection args.now) }
{
    sieve_all(alloc, args.as_slice(), true)
}

pub(crate) fn minus(alloc: Global, args: &Items) -> Result<Value, OutOfMemory>
    ensures { IfOk result (λ v. datum_of v ≡ call FuncName.Minus args.now) }
{
    sieve_all(alloc, args.as_slice(), false)
}

// The distinct elements of the first array that are in all the others, where `present` says so, and
// else those that are in none of them.
fn sieve_all(alloc: Global, args: &[Value], present: bool) -> Result<Value, OutOfMemory>
    ensures { IfOk result (λ v. datum_of v ≡ of_lists (datums_in args.now)
        (λ lists. list (spec.distinct (sieve present (drop 1 lists) (head lists))))) }
{
    if !all_arrays(args) {
        return Ok(Value::Null);
    }
    match args.split_first() {
        None => Ok(Value::List(Items::new(alloc))),
        Some((first, others)) => {
            let left = sieve_through(alloc, elements(first), others, present)?;
            distinct_values(alloc, &left).map(Value::List)
        }
    }
}

fn sieve_through(
    alloc: Global,
    values: &[Value],
    others: &[Value],
    present: bool,
) -> Result<Vec<Value>, OutOfMemory>
    ensures { IfOk result (λ w. datums_in w.items
        ≡ sieve present (map contents.elements (datums_in others.now)) (datums_in values.now)) }
{
    let mut left = Vec::new(alloc);
    append(alloc, &mut left, values)?;
    for other in others {
        left = sift(alloc, &left, elements(other), present)?;
    }
    Ok(left)
}

pub(crate) fn union(alloc: Global, args: &Items) -> Result<Value, OutOfMemory>
    ensures { IfOk result (λ v. datum_of v ≡ call FuncName.Union args.now) }
{
    let lists = args.as_slice();
    if !all_arrays(lists) {
        return Ok(Value::Null);
    }
    let out = gather(alloc, lists)?;
    array_of(alloc, out).map(Value::List)
}

pub(crate) fn union_distinct(alloc: Global, args: &Items) -> Result<Value, OutOfMemory>
    ensures { IfOk result (λ v. datum_of v ≡ call FuncName.UnionDistinct args.now) }
{
    let lists = args.as_slice();
    if !all_arrays(lists) {
        return Ok(Value::Null);
    }
    let out = gather(alloc, lists)?;
    distinct_values(alloc, &out).map(Value::List)
}

// The elements of all the arrays, in order.
fn gather(alloc: Global, lists: &[Value]) -> Result<Vec<Value>, OutOfMemory>
    ensures { IfOk result (λ w. datums_in w.items
        ≡ flat_map (λ ts. ts) (map contents.elements (datums_in lists.now))) }
{
    let mut out = Vec::new(alloc);
    for list in lists {
        append(alloc, &mut out, elements(list))?;
    }
    Ok(out)
}
