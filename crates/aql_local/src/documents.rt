//! The document with an id.

ghost use Rattle.std.specs.Prelude.{◌≡◌, ℕ, ◌<◌, List, [], ◌∷◌, length, slice_get, option_map, find, Some, None, IfOk, IfSome, OnOk, MatchOption};
ghost use Rattle.aql_value.specs.Datum.{Datum, text};
ghost use Rattle.aql_value.specs.Attributes.{attribute as find_attribute};
ghost use Rattle.aql_value.specs.Contents.{at_name, attributes, same};
ghost use Rattle.aql_value.specs.View.{datum_of};
ghost use Rattle.aql_meaning.specs.Paths.{vertex_of};
ghost use Rattle.aql_exec_graph.specs.Found.{found_more, vertices_found};
ghost use Rattle.aql_shard.specs.Datasets.{stock};
ghost use Rattle.aql_local.specs.declared.lookups.SystemAttribute.TheVariants.{Id};
ghost use Rattle.aql_local.specs.inner.Lookups.{order_by, has_id, all_documents};

use crate::lookups::{SystemAttribute, find_span, index_by, lone_text, recall_counts};
use aql_block::Tally;
use aql_shard::Servers;
use aql_value::{CollNo, Items, OutOfMemory, Text, Value, copy};
use std::alloc::Global;

/// The document with an id, null where there is none. A document that is found is counted, in the
/// tally and in the servers' own counts.
pub fn document_of(
    alloc: Global,
    servers: &mut Servers,
    id: &Text,
    tally: &mut Tally,
) -> Result<Value, OutOfMemory>
    ensures servers { servers.new ≡ record servers.old { counts = servers.new.counts } }
    ensures document { IfOk result (λ v. datum_of v ≡ vertex_of (stock servers.old).db id.now) }
    ensures tally { OnOk result
        (tally.new ≡ found_more (vertices_found (stock servers.old).db id.now) tally.old) }
    ensures counts { OnOk result (servers.new.counts
        ≡ found_more (vertices_found (stock servers.old).db id.now) servers.old.counts) }
{
    let _found = tally.scanned_index;
    recall_counts(servers);
    let values = lone_text(alloc, id)?;
    let Some((coll, place)) = find_place(servers, &values) else {
        return Ok(Value::Null);
    };
    let index = index_by(SystemAttribute::Id);
    let document = servers.indexed(coll, None, index, u64::from(place), tally);
    copy(alloc, document)
}

// The collection of the first document with an `_id`, and its place in the index over that; `None`
// exactly where there is none.
fn find_place(servers: &Servers, values: &Items) -> Option<(CollNo, u32)>
    requires one { length values.now ≡ 1 }
    ensures declared { IfSome result (λ found. found.0.0 < length servers.now.held) }
    ensures found { (id : List ℕ) → values.now ≡ text id ∷ []
        → MatchOption result (find (has_id id) (all_documents (stock servers.now).db) ≡ None)
        (λ found. (document : Datum)
        × (slice_get (order_by Id (stock servers.now) found.0.0) found.1 ≡ Some document)
        × (find (has_id id) (all_documents (stock servers.now).db) ≡ Some document)) }
{
    for number in 0..servers.collections() {
        let coll = CollNo(number);
        let span = find_span(servers, coll, SystemAttribute::Id, values);
        if span.from < span.to {
            return Some((coll, span.from));
        }
    }
    None
}

// Whether an attribute is this text.
pub(crate) fn is_text_at(value: &Value, name: &str, wanted: &Text) -> bool
    ensures { result ≡ same (at_name (datum_of value.now) name.now) (text wanted.now) }
{
    match attribute(value, name) {
        Some(found) => is_text(found, wanted),
        None => false,
    }
}

// An attribute of an object; nothing else has any.
pub(crate) fn attribute<'a>(value: &'a Value, name: &str) -> Option<&'a Value>
    ensures { option_map (λ v. datum_of v.now) result
        ≡ find_attribute name.now (attributes (datum_of value.now)) }
{
    match value {
        Value::Object(members) => members.value(name),
        Value::Null | Value::Bool(_) | Value::Num(_) | Value::Text(_) | Value::List(_) => None,
    }
}

fn is_text(value: &Value, wanted: &Text) -> bool
    ensures { result ≡ same (datum_of value.now) (text wanted.now) }
{
    match value {
        Value::Text(found) => found.as_str().cmp(wanted.as_str()).is_eq(),
        Value::Null | Value::Bool(_) | Value::Num(_) | Value::List(_) | Value::Object(_) => false,
    }
}
