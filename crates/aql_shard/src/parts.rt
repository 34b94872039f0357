//! The parts of a collection that servers keep: all its documents, and those of each shard.

ghost use Rattle.std.specs.Prelude.{◌≡◌, ◌<◌, ◌≤◌, ◌^◌, List, [], length, map, option_map, slice_get, IfOk, OnOk, IsSome, Some};
ghost use Rattle.std.specs.List.{All};
ghost use Rattle.aql_value.specs.View.{datums_in};
ghost use Rattle.aql_plan.specs.Facts.{numbers_below};
ghost use Rattle.aql_index.specs.Dealing.{places_from, IsOver};
ghost use Rattle.aql_shard.specs.Parts.{indexes_by, whole_of, shard_parts, parts_of, part_at};
ghost use Rattle.aql_shard.specs.Sharding.{shard_by};
ghost use Rattle.aql_shard.specs.declared.shapes.Shape.{Shape};
ghost use Rattle.aql_shard.specs.inner.Dealt.{part_dealt, handed};

use crate::collections::{collection_at, shard_count};
use crate::shapes::{Shape, shapes_of};
use crate::sharding::shard_by;
use aql_doc::Catalog;
use aql_index::SortedIndex;
use aql_value::{CollNo, Items, Names, OutOfMemory, Seq, Value};
use std::alloc::Global;

/// The indexes of some documents.
pub(crate) type SortedIndexes = Seq<SortedIndex>;

type Numbers = Seq<u32>;

/// Documents of a collection that are read together: their places in it, and their indexes.
#[derive(Drop)]
pub(crate) struct Part {
    pub(crate) places: Numbers,
    pub(crate) indexes: SortedIndexes,
}

/// All documents of a collection and, where it has several shards, those of each.
#[derive(Drop)]
pub(crate) struct Parts {
    pub(crate) whole: Part,
    pub(crate) shards: Seq<Part>,
}

/// The parts of each collection of a catalog.
pub(crate) type AllParts = Seq<Parts>;

// The places of so many documents.
fn all_places(alloc: Global, count: usize) -> Result<Numbers, OutOfMemory>
    requires { count < 2 ^ 32 }
    ensures { IfOk result (λ places. places ≡ numbers_below count) }
{
    let mut places = Numbers::new(alloc);
    for place in 0..count {
        places.push(place as u32)?;
    }
    Ok(places)
}

// The shard of each document.
fn shards_by(
    alloc: Global,
    documents: &[Value],
    keys: &Names,
    shards: u32,
) -> Result<Numbers, OutOfMemory>
    requires { 1 ≤ shards }
    ensures { IfOk result
        (λ all. all ≡ map (shard_by shards keys.now) (datums_in documents.now)) }
{
    let mut all = Numbers::new(alloc);
    for document in documents {
        all.push(shard_by(alloc, document, keys, shards)?)?;
    }
    Ok(all)
}

// The places of the documents of a shard, by the shards of all.
fn places_on(alloc: Global, shards: &[u32], shard: u32) -> Result<Numbers, OutOfMemory>
    requires { length shards.now < 2 ^ 32 }
    ensures { IfOk result (λ places. places ≡ places_from 0 shard shards.now) }
{
    let mut places = Numbers::new(alloc);
    for (place, number) in shards.iter().enumerate() {
        if *number == shard {
            places.push(place as u32)?;
        }
    }
    Ok(places)
}

// The part of all documents of a collection, with indexes of these shapes.
fn build_whole(alloc: Global, shapes: &[Shape], documents: &Items) -> Result<Part, OutOfMemory>
    requires { length documents.now < 2 ^ 32 }
    ensures { IfOk result (λ part. part ≡ whole_of shapes.now documents.now) }
{
    let places = all_places(alloc, documents.len())?;
    let mut indexes = SortedIndexes::new(alloc);
    for shape in shapes {
        indexes.push(SortedIndex::build(alloc, documents, &shape.attributes)?)?;
    }
    Ok(Part { places, indexes })
}

// The parts of the shards, so many, without indexes, by the shards of all documents.
fn empty_parts(alloc: Global, of: &[u32], shards: u32) -> Result<Seq<Part>, OutOfMemory>
    requires { length of.now < 2 ^ 32 }
    ensures { IfOk result
        (λ parts. parts ≡ map (part_dealt [] of.now) (numbers_below shards)) }
{
    let mut parts = Seq::new(alloc);
    for shard in 0..shards {
        parts.push(Part {
            places: places_on(alloc, of, shard)?,
            indexes: SortedIndexes::new(alloc),
        })?;
    }
    Ok(parts)
}

// Gives each part the index at its place in the list.
fn hand_out(parts: &mut Seq<Part>, mut indexes: Vec<SortedIndex>) -> Result<(), OutOfMemory>
    requires { length indexes.items ≡ length parts.old }
    ensures { OnOk result (parts.new ≡ handed parts.old indexes.items) }
{
    let list = parts.as_mut_slice();
    while let Some(index) = indexes.pop() {
        list[indexes.len()].indexes.push(index)?;
    }
    Ok(())
}

// The parts of the shards of a collection, so many; one that is alone is the whole. The indexes are
// those of the whole, dealt out.
fn build_shards(
    alloc: Global,
    indexes: &[SortedIndex],
    documents: &Items,
    keys: &Names,
    shards: u32,
) -> Result<Seq<Part>, OutOfMemory>
    requires shards { 1 ≤ shards }
    requires few { length documents.now < 2 ^ 32 }
    requires there { All (IsOver (length documents.now)) indexes.now }
    ensures { IfOk result (λ parts. (shapes : List Shape)
        → indexes.now ≡ indexes_by shapes documents.now
        → parts ≡ shard_parts shapes keys.now documents.now shards) }
{
    if shards == 1 {
        return Ok(Seq::new(alloc));
    }
    let of = shards_by(alloc, documents.as_slice(), keys, shards)?;
    let mut parts = empty_parts(alloc, of.as_slice(), shards)?;
    for index in indexes {
        let dealt = index.deal_out(alloc, of.as_slice(), shards)?;
        hand_out(&mut parts, dealt)?;
    }
    Ok(parts)
}

// The parts of the collection with this number.
fn build_at(
    alloc: Global,
    catalog: &Catalog,
    coll: CollNo,
    servers: u32,
) -> Result<Parts, OutOfMemory>
    requires { coll.0 < length catalog.now }
    ensures { IfOk result
        (λ parts. option_map (parts_of servers) (slice_get catalog.now coll.0) ≡ Some parts) }
{
    catalog.recall_limits();
    let (info, documents) = collection_at(catalog, coll);
    let shapes = shapes_of(alloc, info)?;
    let whole = build_whole(alloc, shapes.as_slice(), documents)?;
    let count = shard_count(servers, info);
    let indexes = whole.indexes.as_slice();
    let shards = build_shards(alloc, indexes, documents, &info.keys, count)?;
    Ok(Parts { whole, shards })
}

/// The parts of all collections, on so many servers.
pub(crate) fn build_all(
    alloc: Global,
    catalog: &Catalog,
    servers: u32,
) -> Result<AllParts, OutOfMemory>
    ensures { IfOk result (λ all. all ≡ map (parts_of servers) catalog.now) }
{
    let mut all = AllParts::new(alloc);
    for i in 0..catalog.len() {
        all.push(build_at(alloc, catalog, CollNo(i as u32), servers)?)?;
    }
    Ok(all)
}

/// The part that a reader of a collection, or of one shard of it, finds.
pub(crate) fn part_at(all: &AllParts, coll: CollNo, shard: Option<u32>) -> &Part
    requires { coll.0 < length all.now }
    ensures { part_at all.now coll.0 shard ≡ Some result.now }
{
    let Some(parts) = all.get(coll.0 as usize) else {
        unreachable!()
    };
    let Some(shard) = shard else {
        return &parts.whole;
    };
    match parts.shards.get(shard as usize) {
        Some(part) => part,
        None => &parts.whole,
    }
}

/// The index of a part with a number.
pub(crate) fn index_in(part: &Part, index: u32) -> &SortedIndex
    requires { IsSome (slice_get part.now.indexes index) }
    ensures { slice_get part.now.indexes index ≡ Some result.now }
{
    let Some(found) = part.indexes.get(index as usize) else {
        unreachable!()
    };
    found
}

/// Where in a collection the document stands that has a place in this part of it.
pub(crate) fn place_in(part: &Part, place: usize) -> u32
    requires { place < length part.now.places }
    ensures { slice_get part.now.places place ≡ Some result }
{
    let Some(at) = part.places.get(place) else {
        unreachable!()
    };
    *at
}
