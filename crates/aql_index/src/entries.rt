//! The entries of an index.

ghost use Rattle.std.specs.Prelude.{◌≡◌, ◌<◌, ◌≤◌, ◌^◌, length, option_map, IfOk, OnOk, IsSortedBy, false, slice_index_or};
ghost use Rattle.std.specs.Ordering.{is_le};
ghost use Rattle.aql_value.specs.View.{datums_in};
ghost use Rattle.aql_value.specs.Compare.{compare};
ghost use Rattle.aql_value.specs.Contents.{list};
ghost use Rattle.aql_index.specs.Entries.{entries_of, is_before, IsIndex};
ghost use Rattle.aql_index.specs.IndexOrder.{index_entries, sort};
ghost use Rattle.aql_index.specs.inner.Places.{Selects};
ghost use Rattle.aql_index.specs.declared.entries.Entry.{Entry};
ghost use Rattle.aql_index.specs.inner.Zones.{tail_zone, zone, in_zone};

use crate::bounds::{Span, Tail, zone};
use crate::keys::{Keys, compare_values, keys_of};
use crate::numbers::number_entries;
use aql_value::{OutOfMemory, Text, Value};
use std::alloc::Global;
use std::cmp::Ordering;

/// The values of an index's attributes, and the place of the document that has them.
#[derive(Drop)]
pub struct Entry {
    pub keys: Keys,
    pub place: u32,
}

/// How two lists of values compare: the first that differ decide, and a list is less than one that
/// goes on after it.
pub(crate) fn compare(left: &[Value], right: &[Value]) -> Ordering
    ensures { result ≡ compare (list (datums_in left.now)) (list (datums_in right.now)) }
{
    match (left, right) {
        ([first], [second]) => compare_values(first, second),
        _ => compare_lists(left, right),
    }
}

fn compare_lists(left: &[Value], right: &[Value]) -> Ordering
    ensures { result ≡ compare (list (datums_in left.now)) (list (datums_in right.now)) }
{
    for (i, value) in left.iter().enumerate() {
        match right.get(i) {
            None => return Ordering::Greater,
            Some(other) => match compare_values(value, other) {
                Ordering::Equal => {}
                order => return order,
            },
        }
    }
    left.len().cmp(&right.len())
}

// The entry of each document, in the order of the documents.
fn unsorted(alloc: Global, documents: &[Value], names: &[Text]) -> Result<Vec<Entry>, OutOfMemory>
    requires { length documents.now < 2 ^ 32 }
    ensures { IfOk result
        (λ entries. entries.items ≡ entries_of names.now (datums_in documents.now)) }
{
    let mut entries = Vec::with_capacity(alloc, documents.len())?;
    for (place, document) in documents.iter().enumerate() {
        let keys = keys_of(alloc, document, names)?;
        entries.push(Entry {
            keys,
            place: place as u32,
        })?;
    }
    Ok(entries)
}

// Sorts entries by their values; those with the same ones keep their order.
fn sort_entries(entries: &mut Vec<Entry>) -> Result<(), OutOfMemory>
    ensures { OnOk result (entries.new.items ≡ sort is_before entries.old.items) }
{
    entries.sort_by(|a, b| compare(a.keys.as_slice(), b.keys.as_slice()))?;
    Ok(())
}

/// The entries of the documents, in the order of the values of these attributes.
pub(crate) fn sorted_entries(
    alloc: Global,
    documents: &[Value],
    names: &[Text],
) -> Result<Vec<Entry>, OutOfMemory>
    requires { length documents.now < 2 ^ 32 }
    ensures entries { IfOk result
        (λ entries. entries.items ≡ index_entries names.now (datums_in documents.now)) }
    ensures index { IfOk result (λ entries. IsIndex (length names.now) entries.items) }
{
    if let Some(sorted) = number_entries(alloc, documents, names)? {
        return Ok(sorted);
    }
    let mut entries = unsorted(alloc, documents, names)?;
    sort_entries(&mut entries)?;
    Ok(entries)
}

// A place from `from` on up to which the entries go that are not above these bounds: the next one
// is above them, or there is none. Steps that double lead there.
fn end_near(entries: &[Entry], from: usize, equal: &[Value], tail: &Tail<'_>) -> usize
    requires { from ≤ length entries.now }
    ensures from { from ≤ result }
    ensures within { result ≤ length entries.now }
    ensures above { (d : Entry) → result < length entries.now
        → is_le (zone (tail_zone tail.now) (datums_in equal.now)
        (slice_index_or entries.now result d).keys) ≡ false }
{
    let mut end = from;
    let mut step: usize = 1;
    'steps: while end < entries.len() && zone(entries[end].keys.as_slice(), equal, tail).is_le() {
        end = entries.len().min(end.saturating_add(step));
        step = step.saturating_mul(2);
    }
    end
}

/// The span of the entries within these bounds.
pub(crate) fn span_of(entries: &[Entry], equal: &[Value], tail: &Tail<'_>) -> Span
    requires sorted { IsSortedBy is_before entries.now }
    requires few { length entries.now < 2 ^ 32 }
    ensures { Selects entries.now (in_zone (tail_zone tail.now) (datums_in equal.now)) result }
{
    let from = entries.partition_point(|e| zone(e.keys.as_slice(), equal, tail).is_lt());
    let end = end_near(entries, from, equal, tail);
    let near = &entries[from..end];
    let count = near.partition_point(|e| zone(e.keys.as_slice(), equal, tail).is_le());
    Span {
        from: from as u32,
        to: (from + count) as u32,
    }
}
