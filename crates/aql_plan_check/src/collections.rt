//! What is known of the collections.

ghost use Rattle.std.specs.Prelude.{◌≡◌, ◌+◌, ◌↔◌, IsTrue, length, map, eqb};
ghost use Rattle.std.specs.List.{list_any, AllByRecursion, IsDistinct};
ghost use Rattle.aql_plan.specs.declared.facts.CollFact.{CollFact};
ghost use Rattle.aql_plan.specs.declared.facts.IndexFact.{IndexFact};
ghost use Rattle.aql_plan.specs.Facts.{keys_in, attributes_in};
ghost use Rattle.aql_plan.specs.Fits.{IsShard, IsEdgeCollection};
ghost use Rattle.aql_plan.specs.WellFormed.{CollectionFits};

use aql_plan::{CollFact, Facts, IndexFact, index_of};
use aql_value::{CollNo, Text};

fn widths_fit(indexes: &[IndexFact]) -> bool
    ensures { IsTrue result
        ↔ AllByRecursion (λ (i : IndexFact). length i.widths ≡ length i.attributes + 1)
        indexes.now }
{
    for index in indexes {
        if index.widths.len() == 0 || index.widths.len() - 1 != index.attributes.len() {
            return false;
        }
    }
    true
}

fn collection_fits(known: &CollFact) -> bool
    ensures { IsTrue result ↔ CollectionFits known.now }
{
    known.shards >= 1
        && known.keys.len() >= 1
        && known.keys.len() <= 8
        && widths_fit(known.indexes.as_slice())
}

/// Whether what is known of each collection fits.
pub fn collections_fit(all: &[CollFact]) -> bool
    ensures { IsTrue result ↔ AllByRecursion CollectionFits all.now }
{
    for known in all {
        if !collection_fits(known) {
            return false;
        }
    }
    true
}

/// Whether there is this collection, and this shard of it, where one is named.
pub(crate) fn is_shard(facts: &Facts, coll: CollNo, shard: Option<u32>) -> bool
    ensures { IsTrue result ↔ IsShard facts.now coll.0 shard }
{
    match (facts.collections.get(coll.0 as usize), shard) {
        (Some(known), Some(shard)) => shard < known.shards,
        (found, None) => found.is_some(),
        (None, Some(_)) => false,
    }
}

fn is_edge_collection(facts: &Facts, coll: CollNo) -> bool
    ensures { IsTrue result ↔ IsEdgeCollection facts.now coll.0 }
{
    match facts.collections.get(coll.0 as usize) {
        Some(known) => known.edge,
        None => false,
    }
}

/// Whether each of these collections is there and has edges.
pub(crate) fn are_edge_collections(facts: &Facts, all: &[CollNo]) -> bool
    ensures { IsTrue result
        ↔ AllByRecursion (IsEdgeCollection facts.now) (map (λ (c : CollNo). c.0) all.now) }
{
    for coll in all {
        if !is_edge_collection(facts, *coll) {
            return false;
        }
    }
    true
}

fn is_among(coll: CollNo, others: &[CollNo]) -> bool
    ensures { result ≡ list_any (eqb coll.0) (map (λ (c : CollNo). c.0) others.now) }
{
    for other in others {
        if coll.0 == other.0 {
            return true;
        }
    }
    false
}

/// Whether each of these collections is named once.
pub(crate) fn are_distinct(all: &[CollNo]) -> bool
    ensures { IsTrue result ↔ IsDistinct eqb (map (λ (c : CollNo). c.0) all.now) }
{
    match all.split_first() {
        None => true,
        Some((first, others)) => !is_among(*first, others) && are_distinct(others),
    }
}

/// How many shard keys a collection has.
pub(crate) fn key_count(facts: &Facts, coll: CollNo) -> usize
    ensures { result ≡ length (keys_in facts.now coll.0) }
{
    match facts.collections.get(coll.0 as usize) {
        Some(known) => known.keys.len(),
        None => 0,
    }
}

/// The attributes of an index of a collection.
pub(crate) fn attributes_of(facts: &Facts, coll: CollNo, index: u32) -> &[Text]
    ensures { result.now ≡ attributes_in facts.now coll.0 index }
{
    match index_of(facts, coll, index) {
        Some(known) => known.attributes.as_slice(),
        None => &[],
    }
}
