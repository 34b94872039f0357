//! What is known of the collections.

ghost use Rattle.std.specs.Prelude.{◌≡◌, ◌≤◌, map, option_map, slice_get, All, IfOk, Some};
ghost use Rattle.aql_doc.specs.Limits.{IsDeclared};
ghost use Rattle.aql_shard.specs.Known.{coll_fact, facts_of, shapes};
ghost use Rattle.aql_shard.specs.Parts.{indexes_by, parts_of};
ghost use Rattle.aql_shard.specs.inner.Kept.{IsNarrow, widths_in, fact_by, facts_by};

use crate::collections::{collection_at, shard_count};
use crate::parts::{AllParts, Parts, SortedIndexes};
use crate::shapes::{Shape, shapes_of};
use aql_doc::{Catalog, CollInfo};
use aql_index::SortedIndex;
use aql_plan::{CollFact, Facts, IndexFact, IndexFacts, Widths};
use aql_tree::copy_texts;
use aql_value::{CollNo, Items, OutOfMemory, Seq};
use std::alloc::Global;

// For each number of attributes, from none to so many, the size of the largest group of documents
// that are equal in that many first ones.
fn widths(alloc: Global, index: &SortedIndex, attributes: u32) -> Result<Widths, OutOfMemory>
    requires { attributes ≤ 8 }
    ensures { IfOk result (λ widths. widths ≡ widths_in attributes index.now) }
{
    let mut all = Widths::new(alloc);
    for width in 0..attributes + 1 {
        all.push(index.widest(width))?;
    }
    Ok(all)
}

fn index_fact(alloc: Global, shape: &Shape, index: &SortedIndex) -> Result<IndexFact, OutOfMemory>
    requires { IsNarrow shape.now }
    ensures { IfOk result (λ fact. fact ≡ fact_by shape.now index.now) }
{
    Ok(IndexFact {
        kind: shape.kind,
        attributes: copy_texts(alloc, shape.attributes.as_slice())?,
        widths: widths(alloc, index, shape.attributes.len() as u32)?,
    })
}

// What is known of each index.
fn index_facts(
    alloc: Global,
    shapes: &[Shape],
    indexes: &[SortedIndex],
) -> Result<IndexFacts, OutOfMemory>
    requires { All IsNarrow shapes.now }
    ensures { IfOk result (λ facts. facts ≡ facts_by shapes.now indexes.now) }
{
    let mut facts = IndexFacts::new(alloc);
    for (shape, index) in shapes.iter().zip(indexes) {
        facts.push(index_fact(alloc, shape, index)?)?;
    }
    Ok(facts)
}

// What is known of a collection, on so many servers.
fn coll_fact(
    alloc: Global,
    servers: u32,
    info: &CollInfo,
    documents: &Items,
    indexes: &SortedIndexes,
) -> Result<CollFact, OutOfMemory>
    requires declared { IsDeclared info.now }
    requires indexes { indexes.now ≡ indexes_by (shapes info.now) documents.now }
    ensures { IfOk result (λ fact. fact
        ≡ coll_fact servers (record { info = info.now; documents = documents.now })) }
{
    let shapes = shapes_of(alloc, info)?;
    Ok(CollFact {
        name: info.name.copy(alloc)?,
        edge: info.edge,
        documents: documents.len() as u64,
        shards: shard_count(servers, info),
        keys: copy_texts(alloc, info.keys.as_slice())?,
        indexes: index_facts(alloc, shapes.as_slice(), indexes.as_slice())?,
    })
}

// What is known of the collection with this number.
fn fact_at(
    alloc: Global,
    servers: u32,
    catalog: &Catalog,
    coll: CollNo,
    parts: &Parts,
) -> Result<CollFact, OutOfMemory>
    requires { option_map (parts_of servers) (slice_get catalog.now coll.0) ≡ Some parts.now }
    ensures { IfOk result
        (λ fact. option_map (coll_fact servers) (slice_get catalog.now coll.0) ≡ Some fact) }
{
    let (info, documents) = collection_at(catalog, coll);
    let fact = coll_fact(alloc, servers, info, documents, &parts.whole.indexes)?;
    Ok(fact)
}

/// What is known of all collections, which are kept in these parts.
pub(crate) fn collect_facts(
    alloc: Global,
    servers: u32,
    catalog: &Catalog,
    all: &AllParts,
) -> Result<Facts, OutOfMemory>
    requires { all.now ≡ map (parts_of servers) catalog.now }
    ensures { IfOk result (λ facts. facts ≡ facts_of servers catalog.now) }
{
    catalog.recall_limits();
    let mut collections = Seq::new(alloc);
    for (i, parts) in all.as_slice().iter().enumerate() {
        collections.push(fact_at(alloc, servers, catalog, CollNo(i as u32), parts)?)?;
    }
    Ok(Facts {
        servers,
        collections,
    })
}
