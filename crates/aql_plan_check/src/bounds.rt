//! How an index may be used.

ghost use Rattle.std.specs.Prelude.{◌≡◌, ◌↔◌, IsTrue, true, length, option_map, bytes_eq};
ghost use Rattle.std.specs.List.{list_any, list_all};
ghost use Rattle.aql_meaning.specs.View.{end_tree, last_tree};
ghost use Rattle.aql_plan.specs.Fits.{EndPlain, LastPlain, BoundsFit, LookupFits, KindFits, KeepsOrder};

use crate::plain::is_plain;
use aql_plan::{Edge, IndexFact, IndexKind, Last};
use aql_value::{Names, Text};

fn end_plain(end: &Option<Edge>) -> bool
    ensures { IsTrue result ↔ EndPlain (option_map end_tree end.now) }
{
    match end {
        Some(end) => is_plain(&end.expr),
        None => true,
    }
}

/// Whether the last bound holds no subquery.
pub(crate) fn last_plain(last: &Last) -> bool
    ensures { IsTrue result ↔ LastPlain (last_tree last.now) }
{
    match last {
        Last::None => true,
        Last::OneOf(list) => is_plain(list),
        Last::Range { low, high } => end_plain(low) && end_plain(high),
    }
}

fn bounds_fit(attributes: usize, equal: usize, last: &Last) -> bool
    ensures { IsTrue result ↔ BoundsFit attributes equal (last_tree last.now) }
{
    match last {
        Last::None => equal <= attributes,
        Last::OneOf(_) => equal < attributes,
        Last::Range { .. } => equal < attributes,
    }
}

fn lookup_fits(equal: usize, last: &Last, ordered: Option<bool>) -> bool
    ensures { IsTrue result ↔ LookupFits equal (last_tree last.now) ordered }
{
    match (last, ordered) {
        (Last::None, None) => equal == 1,
        (Last::OneOf(_), None) => equal == 0,
        _ => false,
    }
}

fn kind_fits(kind: IndexKind, equal: usize, last: &Last, ordered: Option<bool>) -> bool
    ensures { IsTrue result ↔ KindFits kind equal (last_tree last.now) ordered }
{
    match kind {
        IndexKind::Sorted => true,
        IndexKind::Primary => lookup_fits(equal, last, ordered),
        IndexKind::Edge => lookup_fits(equal, last, ordered),
    }
}

fn is_among(name: &Text, names: &[Text]) -> bool
    ensures { result ≡ list_any (bytes_eq name.now) names.now }
{
    for other in names {
        if name.as_str() == other.as_str() {
            return true;
        }
    }
    false
}

fn are_among(attributes: &[Text], names: &[Text]) -> bool
    ensures { result ≡ list_all (λ a. list_any (bytes_eq a) names.now) attributes.now }
{
    for name in attributes {
        if !is_among(name, names) {
            return false;
        }
    }
    true
}

fn keeps_order(attributes: &[Text], kept: &Option<Names>, ordered: Option<bool>) -> bool
    ensures { IsTrue result ↔ KeepsOrder attributes.now kept.now ordered }
{
    match (kept, ordered) {
        (Some(names), Some(_)) => are_among(attributes, names.as_slice()),
        _ => true,
    }
}

/// Whether an index may be used so by a reader that keeps these attributes.
pub(crate) fn index_fits(
    known: &IndexFact,
    kept: &Option<Names>,
    equal: usize,
    last: &Last,
    ordered: Option<bool>,
) -> bool
    ensures { IsTrue result ↔ (BoundsFit (length known.now.attributes) equal (last_tree last.now)
        × KindFits known.now.kind equal (last_tree last.now) ordered
        × KeepsOrder known.now.attributes kept.now ordered) }
{
    bounds_fit(known.attributes.len(), equal, last)
        && kind_fits(known.kind, equal, last, ordered)
        && keeps_order(known.attributes.as_slice(), kept, ordered)
}
