//! The spans of the elements of an array.

ghost use Rattle.std.specs.Prelude.{◌≡◌, ℕ, ◌<◌, ◌^◌, ◌++◌, ◌∷◌, [], length, filter, flat_map, IfOk, IsSortedBy, slice_index_or};
ghost use Rattle.std.specs.List.Sorted.{IsNonDecreasingBy};
ghost use Rattle.std.specs.List.{All, Contains, list_any};
ghost use Rattle.aql_value.specs.Datum.{Datum};
ghost use Rattle.aql_value.specs.View.{datums_in};
ghost use Rattle.aql_meaning.specs.Documents.{no_last};
ghost use Rattle.aql_index.specs.Entries.{is_before, entries_within};
ghost use Rattle.aql_index.specs.Spans.{spanned, AreApart};
ghost use Rattle.aql_index.specs.inner.Places.{holds, AreSpansOnce, IsSpanOf};
ghost use Rattle.aql_index.specs.inner.Zones.{lone_zone, in_zone};

use crate::bounds::{Span, Tail};
use crate::entries::{Entry, span_of};
use aql_value::{OutOfMemory, Seq, Value};
use std::alloc::Global;

/// A list of spans.
pub type Spans = Seq<Span>;

// For each element the span of the entries that have it after the equal values, where there are
// any.
fn find_each(
    alloc: Global,
    entries: &[Entry],
    equal: &[Value],
    elements: &[Value],
) -> Result<Vec<Span>, OutOfMemory>
    requires sorted { IsSortedBy is_before entries.now }
    requires few { length entries.now < 2 ^ 32 }
    ensures each { IfOk result (λ spans.
        All (IsSpanOf entries.now (datums_in equal.now)) spans.items) }
    ensures all { IfOk result (λ spans. (k : ℕ) (d : Entry) → k < length entries.now
        → list_any (holds k) spans.items ≡ list_any
        (λ v. in_zone (lone_zone v) (datums_in equal.now) (slice_index_or entries.now k d).keys)
        (datums_in elements.now)) }
{
    let mut spans = Vec::new(alloc);
    for element in elements {
        let span = span_of(entries, equal, &Tail::One(element));
        if span.from < span.to {
            spans.push(span)?;
        }
    }
    Ok(spans)
}

// The spans, each once.
fn each_once(alloc: Global, spans: &[Span]) -> Result<Spans, OutOfMemory>
    requires sorted { IsNonDecreasingBy (λ s. s.from) spans.now }
    requires some { All (λ s. s.from < s.to) spans.now }
    requires once { AreSpansOnce spans.now }
    ensures apart { IfOk result (λ out. (end : ℕ) × AreApart 0 out end) }
    ensures all { IfOk result (λ out. (k : ℕ)
        → list_any (holds k) out ≡ list_any (holds k) spans.now) }
    ensures some_of_them { IfOk result (λ out. All (Contains spans.now) out) }
{
    let mut out = Spans::new(alloc);
    let mut end = 0;
    for span in spans {
        if span.from >= end {
            out.push(*span)?;
            end = span.to;
        }
    }
    Ok(out)
}

/// The spans of the entries that have the equal values and then one of the elements. No entry is
/// in two of them.
pub(crate) fn find_spans(
    alloc: Global,
    entries: &[Entry],
    equal: &[Value],
    elements: &[Value],
) -> Result<Spans, OutOfMemory>
    requires sorted { IsSortedBy is_before entries.now }
    requires few { length entries.now < 2 ^ 32 }
    ensures apart { IfOk result (λ spans. AreApart 0 spans (length entries.now)) }
    ensures exactly { IfOk result (λ spans. flat_map (spanned entries.now) spans ≡ filter
        (λ e. list_any (λ v. in_zone (lone_zone v) (datums_in equal.now) e.keys)
        (datums_in elements.now)) entries.now) }
    ensures each { IfOk result (λ spans. All (λ span. (v : Datum) × (spanned entries.now span
        ≡ entries_within (datums_in equal.now ++ v ∷ []) no_last entries.now)) spans) }
{
    let mut found = find_each(alloc, entries, equal, elements)?;
    found.sort_by_key(|span| span.from)?;
    let spans = each_once(alloc, found.as_slice())?;
    Ok(spans)
}
