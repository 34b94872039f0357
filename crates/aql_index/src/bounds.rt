//! Bounds of an index, and where the values of its attributes stand to them.

ghost use Rattle.std.specs.Prelude.{◌≡◌};
ghost use Rattle.aql_value.specs.View.{datum_of, datums_in};
ghost use Rattle.aql_meaning.specs.Documents.{is_above, is_beneath};
ghost use Rattle.aql_index.specs.Bounds.{end_of, range_of};
ghost use Rattle.aql_index.specs.inner.Zones.{IsTail, range_zone, tail_zone, zone};

use crate::keys::compare_values;
use aql_value::{Value, cmp};
use std::cmp::Ordering;

/// One end of a range of values: none, a value that belongs to the range, or one that does not. So
/// `At` is `>=` at the low end and `<=` at the high end, and `Past` is `>` and `<`.
#[derive(Drop)]
pub enum Bound {
    Free,
    At(Value),
    Past(Value),
}

/// Places of an index, from one up to another, which is not one of them.
#[derive(Clone, Copy, Debug, PartialEq, Eq)]
pub struct Span {
    pub from: u32,
    pub to: u32,
}

// The bound of the attribute after those with equal values: none, one value, or a range.
#[derive(Clone, Copy)]
pub(crate) enum Tail<'a> {
    Any,
    One(&'a Value),
    Between(&'a Bound, &'a Bound),
}

/// The range between two ends; none where both are free.
pub(crate) fn tail_of<'a>(low: &'a Bound, high: &'a Bound) -> Tail<'a>
    ensures { IsTail result (range_of low.now high.now) }
{
    match (low, high) {
        (Bound::Free, Bound::Free) => Tail::Any,
        (Bound::Free, Bound::At(_) | Bound::Past(_)) | (Bound::At(_) | Bound::Past(_), _) => {
            Tail::Between(low, high)
        }
    }
}

fn is_above(low: &Bound, value: &Value) -> bool
    ensures { result ≡ is_above (end_of low.now) (datum_of value.now) }
{
    match low {
        Bound::Free => true,
        Bound::At(limit) => !cmp(value, limit).is_lt(),
        Bound::Past(limit) => cmp(limit, value).is_lt(),
    }
}

fn is_beneath(high: &Bound, value: &Value) -> bool
    ensures { result ≡ is_beneath (end_of high.now) (datum_of value.now) }
{
    match high {
        Bound::Free => true,
        Bound::At(limit) => !cmp(limit, value).is_lt(),
        Bound::Past(limit) => cmp(value, limit).is_lt(),
    }
}

fn range_zone(low: &Bound, high: &Bound, value: &Value) -> Ordering
    ensures { result ≡ range_zone (end_of low.now) (end_of high.now) (datum_of value.now) }
{
    if !is_above(low, value) {
        return Ordering::Less;
    }
    if is_beneath(high, value) {
        Ordering::Equal
    } else {
        Ordering::Greater
    }
}

fn tail_zone(tail: &Tail<'_>, keys: &[Value]) -> Ordering
    ensures { result ≡ tail_zone tail.now (datums_in keys.now) }
{
    match (tail, keys.first()) {
        (Tail::Any, _) => Ordering::Equal,
        (_, None) => Ordering::Less,
        (Tail::One(value), Some(key)) => compare_values(key, value),
        (Tail::Between(low, high), Some(key)) => range_zone(low, high, key),
    }
}

/// Whether the values of an index's attributes are below these bounds, within them or above them.
pub(crate) fn zone(keys: &[Value], equal: &[Value], tail: &Tail<'_>) -> Ordering
    ensures { result ≡ zone (tail_zone tail.now) (datums_in equal.now) (datums_in keys.now) }
{
    // A lookup is for one value of one attribute.
    if let ([key], [value], Tail::Any) = (keys, equal, tail) {
        return compare_values(key, value);
    }
    for (i, value) in equal.iter().enumerate() {
        match keys.get(i) {
            None => return Ordering::Less,
            Some(key) => match compare_values(key, value) {
                Ordering::Equal => {}
                order => return order,
            },
        }
    }
    tail_zone(tail, &keys[equal.len()..])
}
