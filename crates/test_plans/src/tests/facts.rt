//! What is known of two collections.

use crate::tests::exprs::names;
use aql_plan::{CollFact, CollFacts, Facts, IndexFact, IndexFacts, IndexKind, Widths};
use aql_value::{OutOfMemory, Text};
use std::alloc::Global;

fn index(
    alloc: Global,
    kind: IndexKind,
    attributes: &[u8],
    widths: usize,
) -> Result<IndexFact, OutOfMemory> {
    let mut all = Widths::new(alloc);
    for _ in 0..widths {
        all.push(1)?;
    }
    Ok(IndexFact {
        kind,
        attributes: names(alloc, attributes)?,
        widths: all,
    })
}

/// Collection 0 has documents, these shards and shard keys, a sorted index over `a` and `b` with
/// this many widths, and two for lookups; collection 1 has edges.
pub fn facts(alloc: Global, shards: u32, keys: &[u8], widths: usize) -> Result<Facts, OutOfMemory> {
    let mut indexes = IndexFacts::new(alloc);
    indexes.push(index(alloc, IndexKind::Sorted, b"ab", widths)?)?;
    indexes.push(index(alloc, IndexKind::Primary, b"k", 2)?)?;
    indexes.push(index(alloc, IndexKind::Edge, b"k", 2)?)?;
    let mut collections = CollFacts::new(alloc);
    collections.push(CollFact {
        name: Text::new(alloc, "c")?,
        edge: false,
        documents: 3,
        shards,
        keys: names(alloc, keys)?,
        indexes,
    })?;
    collections.push(CollFact {
        name: Text::new(alloc, "e")?,
        edge: true,
        documents: 3,
        shards: 1,
        keys: names(alloc, b"k")?,
        indexes: IndexFacts::new(alloc),
    })?;
    Ok(Facts {
        servers: 2,
        collections,
    })
}

/// One collection with so many documents and shards, and a sorted index over `a` with so many
/// documents a value.
pub fn indexed(
    alloc: Global,
    documents: u64,
    shards: u32,
    width: u64,
) -> Result<Facts, OutOfMemory> {
    let mut widths = Widths::new(alloc);
    widths.push(documents)?;
    widths.push(width)?;
    let mut indexes = IndexFacts::new(alloc);
    indexes.push(IndexFact {
        kind: IndexKind::Sorted,
        attributes: names(alloc, b"a")?,
        widths,
    })?;
    let mut collections = CollFacts::new(alloc);
    collections.push(CollFact {
        name: Text::new(alloc, "c")?,
        edge: false,
        documents,
        shards,
        keys: names(alloc, b"k")?,
        indexes,
    })?;
    Ok(Facts {
        servers: 0,
        collections,
    })
}
