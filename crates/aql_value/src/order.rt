ghost use Rattle.std.specs.Prelude.{◌≡◌};
ghost use Rattle.aql_value.specs.Datum.{array_of, object_of};
ghost use Rattle.aql_value.specs.View.{datum_of};
ghost use Rattle.aql_value.specs.Fields.{compare_entry};
ghost use Rattle.aql_value.specs.Order.{Compares, kind};
ghost use Rattle.aql_value.specs.Compare.{compare, compare_items, compare_fields};
ghost use Rattle.aql_value.specs.TotalOrder.{BelowIsTotal, BelowIsTransitive, ObjectsCompareAtLeastName, CompareAgrees};

use crate::values::{Member, entries_in};
use crate::{Items, Members, Value};
use std::cmp::Ordering;

/// How `a` stands to `b` in the order of AQL's values (AQL fundamentals, Type and value order):
/// null < bools < numbers < texts < arrays < objects, and within a kind by that kind's own rule.
/// `Equal` means identical.
pub fn cmp(a: &Value, b: &Value) -> Ordering
    ensures order { Compares result (datum_of a.now) (datum_of b.now) }
    ensures value { result ≡ compare (datum_of a.now) (datum_of b.now) }
{
    order(a, b)
}

/// The law of the order: of two values exactly one of less, identical and greater holds; less is
/// transitive; objects compare at the least attribute at which they differ, where a missing
/// attribute is below null; and `compare`, the function by which values are sorted, looked up and
/// grouped, answers by this order.
pub fn order_is_total()
    ensures total { BelowIsTotal }
    ensures transitive { BelowIsTransitive }
    ensures objects { ObjectsCompareAtLeastName }
    ensures compare { CompareAgrees }
{}

#[cycle(ordering)]
pub(crate) fn order(a: &Value, b: &Value) -> Ordering
    ensures { result ≡ compare (datum_of a.now) (datum_of b.now) }
{
    match (a, b) {
        (Value::Bool(x), Value::Bool(y)) => x.cmp(y),
        (Value::Num(x), Value::Num(y)) => x.cmp(y),
        (Value::Text(x), Value::Text(y)) => x.as_str().cmp(y.as_str()),
        (Value::List(x), Value::List(y)) => order_items(x, y),
        (Value::Object(x), Value::Object(y)) => order_members(x, y),
        _ => kind_of(a).cmp(&kind_of(b)),
    }
}

fn kind_of(value: &Value) -> u8
    ensures { result ≡ kind (datum_of value.now) }
{
    match value {
        Value::Null => 0,
        Value::Bool(_) => 1,
        Value::Num(_) => 2,
        Value::Text(_) => 3,
        Value::List(_) => 4,
        Value::Object(_) => 5,
    }
}

#[cycle(ordering)]
fn order_items(a: &Items, b: &Items) -> Ordering
    ensures { result ≡ compare_items (array_of a.now) (array_of b.now) }
{
    for (i, x) in a.items.iter().enumerate() {
        match b.items.get(i) {
            None => return Ordering::Greater,
            Some(y) => match order(x, y) {
                Ordering::Equal => {}
                other => return other,
            },
        }
    }
    a.items.len().cmp(&b.items.len())
}

#[cycle(ordering)]
fn order_members(a: &Members, b: &Members) -> Ordering
    ensures { result ≡ compare_fields (object_of a.now) (object_of b.now) }
{
    for (i, x) in entries_in(&a.entries).iter().enumerate() {
        match entries_in(&b.entries).get(i) {
            None => return Ordering::Greater,
            Some(y) => match order_entry(x, y) {
                Ordering::Equal => {}
                other => return other,
            },
        }
    }
    entries_in(&a.entries)
        .len()
        .cmp(&entries_in(&b.entries).len())
}

// The object that has the lesser name is the greater one, since the other lacks that attribute.
#[cycle(ordering)]
fn order_entry(a: &Member, b: &Member) -> Ordering
    ensures { result ≡ compare_entry a.now b.now }
{
    match b.name.as_str().cmp(a.name.as_str()) {
        Ordering::Equal => order(&a.value, &b.value),
        other => other,
    }
}
