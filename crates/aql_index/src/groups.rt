//! Groups of entries with the same first values.

ghost use Rattle.std.specs.Prelude.{◌≡◌, ◌<◌, ◌≤◌, ◌+◌, ◌-◌, ◌^◌, length, take, IsSortedBy, slice_index_or};
ghost use Rattle.aql_value.specs.Contents.{list, same};
ghost use Rattle.aql_value.specs.View.{datums_in};
ghost use Rattle.aql_index.specs.Entries.{is_before};
ghost use Rattle.aql_index.specs.Groups.{alike, widest_of};
ghost use Rattle.aql_index.specs.inner.Places.{no_entry};

use crate::entries::{Entry, compare};
use aql_value::Value;

// Whether the first values are the same, so many of them.
fn agree(left: &[Value], right: &[Value], width: usize) -> bool
    ensures { result
        ≡ same (list (take width (datums_in left.now))) (list (take width (datums_in right.now))) }
{
    compare(first(left, width), first(right, width)).is_eq()
}

// The first values, so many of them.
fn first(values: &[Value], width: usize) -> &[Value]
    ensures { datums_in result.now ≡ take width (datums_in values.now) }
{
    if width < values.len() {
        &values[..width]
    } else {
        values
    }
}

// The size of the group of the entry at a place, of those up to there; `before` is that of the
// entry in front. The entries of a group stand next to each other.
fn group_to(entries: &[Entry], at: usize, width: usize, before: u64) -> u64
    requires sorted { IsSortedBy is_before entries.now }
    requires place { at < length entries.now }
    requires before { 0 < at → before
        ≡ length
        (alike width (take at entries.now) (slice_index_or entries.now (at - 1) no_entry)) }
    requires few { length entries.now < 2 ^ 32 }
    ensures { result ≡
        length (alike width (take at entries.now) (slice_index_or entries.now at no_entry)) + 1 }
{
    if at == 0 {
        return 1;
    }
    if agree(
        entries[at - 1].keys.as_slice(),
        entries[at].keys.as_slice(),
        width,
    ) {
        before + 1
    } else {
        1
    }
}

/// The size of the largest group of entries with the same first values, so many of them.
pub(crate) fn widest_of(entries: &[Entry], width: usize) -> u64
    requires sorted { IsSortedBy is_before entries.now }
    requires few { length entries.now < 2 ^ 32 }
    ensures { result ≡ widest_of width entries.now }
{
    let mut most = 0;
    let mut group = 0;
    for at in 0..entries.len() {
        group = group_to(entries, at, width, group);
        most = most.max(group);
    }
    most
}
