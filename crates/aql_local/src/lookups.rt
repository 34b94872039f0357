//! Lookups by a system attribute, through the index that a collection has over it alone.

ghost use Rattle.std.specs.Prelude.{◌≡◌, ◌≤◌, [], ◌∷◌, filter, length, IfOk};
ghost use Rattle.aql_value.specs.Datum.{Datum, text};
ghost use Rattle.aql_value.specs.Contents.{at_name, same};
ghost use Rattle.aql_value.specs.Database.{documents_of};
ghost use Rattle.aql_index.specs.Spans.{spanned, IsSpan};
ghost use Rattle.aql_shard.specs.Datasets.{stock};
ghost use Rattle.aql_local.specs.inner.Lookups.{index_by, name_of, order_by, HasIndexBy};

use aql_index::{Bound, Span};
use aql_shard::Servers;
use aql_value::{CollNo, Items, OutOfMemory, Text, Value};
use std::alloc::Global;

/// A system attribute by which documents are looked up. Only edge collections have indexes by the
/// ends of edges.
#[derive(Clone, Copy)]
pub(crate) enum SystemAttribute {
    Id,
    From,
    To,
}

/// The number of the index over it.
pub(crate) fn index_by(attribute: SystemAttribute) -> u32
    ensures { result ≡ index_by attribute }
{
    match attribute {
        SystemAttribute::Id => 1,
        SystemAttribute::From => 2,
        SystemAttribute::To => 3,
    }
}

/// One text, as an index is searched for it.
pub(crate) fn lone_text(alloc: Global, value: &Text) -> Result<Items, OutOfMemory>
    ensures { IfOk result (λ values. values ≡ text value.now ∷ []) }
{
    let mut values = Items::new(alloc);
    values.push(Value::Text(value.copy(alloc)?))?;
    Ok(values)
}

/// The span of the documents with one value at a system attribute. They stand in it as in their
/// collection.
pub(crate) fn find_span(
    servers: &Servers,
    coll: CollNo,
    attribute: SystemAttribute,
    values: &Items,
) -> Span
    requires index { HasIndexBy attribute (stock servers.now).facts coll.0 }
    requires one { length values.now ≡ 1 }
    ensures within { IsSpan (length (order_by attribute (stock servers.now) coll.0)) result }
    ensures exactly { (value : Datum) → values.now ≡ value ∷ []
        → spanned (order_by attribute (stock servers.now) coll.0) result
        ≡ filter (λ d. same (at_name d (name_of attribute)) value)
        (documents_of (stock servers.now).db coll.0) }
{
    let index = index_by(attribute);
    servers.span(coll, None, index, values, &Bound::Free, &Bound::Free)
}

/// Recalls, for a proof, that the counts of servers are numbers of 64 bits.
pub(crate) fn recall_counts(servers: &Servers)
    ensures full { servers.now.counts.scanned_full ≤ 18446744073709551615 }
    ensures index { servers.now.counts.scanned_index ≤ 18446744073709551615 }
{
    let counts = servers.counts();
    let _full = counts.scanned_full;
    let _index = counts.scanned_index;
}
