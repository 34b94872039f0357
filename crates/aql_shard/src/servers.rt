ghost use Rattle.std.specs.Prelude.{◌≡◌, ◌<◌, ◌≤◌, length, filter, flat_map, option_map, slice_get, Some, IfOk, IfSome};
ghost use Rattle.std.specs.Borrow.{sem};
ghost use Rattle.std.specs.Io.BufRead.{Rests};
ghost use Rattle.aql_value.specs.View.{datum_of};
ghost use Rattle.aql_doc.specs.Declarations.{collection_index};
ghost use Rattle.aql_meaning.specs.Documents.{in_bounds, one_of};
ghost use Rattle.aql_plan.specs.Facts.{attributes_in, Meets};
ghost use Rattle.aql_plan.specs.Fits.{IsShard};
ghost use Rattle.aql_plan.specs.Runs.{Outside};
ghost use Rattle.aql_index.specs.Bounds.{range_of};
ghost use Rattle.aql_index.specs.Found.{in_order_of};
ghost use Rattle.aql_index.specs.Spans.{spanned, IsSpan, AreApart};
ghost use Rattle.aql_index.specs.Usable.{IsIndexFor, IsSearched, IsSearchedForEach};
ghost use Rattle.aql_shard.specs.Datasets.{stock, nothing_counted, one_read, one_found, documents_read};
ghost use Rattle.aql_shard.specs.Known.{shards_of};
ghost use Rattle.aql_shard.specs.contracts.servers.Servers.{the_row};

use crate::collections::{document_at, shard_count};
use crate::known::collect_facts;
use crate::parts::{AllParts, Part, build_all, index_in, part_at, place_in};
use aql_block::Tally;
use aql_doc::Catalog;
use aql_index::{Bound, Span, Spans, spans_of};
use aql_plan::Facts;
use aql_value::{CollNo, DocNo, Items, OutOfMemory, Text, Value};
use std::alloc::Global;
use std::marker::Model;

// So many documents are looked at together, before the first of them is handed out.
const AHEAD: usize = 32;

/// The documents of a catalog with their indexes, as the servers hold them, and what the servers
/// have counted. Contracts see what the catalog held, the number of servers and the counts; `stock`
/// gives the documents with what is known of them, as plans see both. The indexes of a collection
/// are lookups by `_key` and by `_id`, of an edge collection also by `_from` and by `_to`, and then
/// its sorted indexes as they were declared.
pub struct Servers {
    catalog: Catalog,
    servers: u32,
    parts: AllParts,
    counts: Tally,
    /// what looking ahead found last; it is kept so that no compiler leaves the looking out
    longest: usize,
}

impl Drop for Servers {
    fn drop(self) {
        let Servers {
            catalog: _,
            servers: _,
            parts: _,
            counts: _,
            longest: _,
        } = self;
    }
}

impl Model for Servers {
    ghost use Rattle.std.specs.Prelude.{◌≡◌, map};
    ghost use Rattle.aql_shard.specs.Holding.{Holding, coded_holding};
    ghost use Rattle.aql_shard.specs.Parts.{parts_of};

    ghost Value = { Holding };

    ghost coded = { coded_holding };

    ghost view = { λ s.
        record { held = s.catalog; servers = s.servers; counts = s.counts } };

    ghost invariant = { λ s. s.parts ≡ map (parts_of s.servers) s.catalog };
}

/// The documents of a catalog on at most 16 servers, with their indexes. With 0, every collection
/// is one shard, and all are in one place; else each has the shards of its declaration, and each
/// document is on the one shard of its shard keys. Only want of memory is refused.
pub fn split(alloc: Global, catalog: Catalog, servers: u32) -> Result<Servers, OutOfMemory>
    requires { servers ≤ 16 }
    ensures { IfOk result (λ s.
        s ≡ record { held = catalog; servers = servers; counts = nothing_counted }) }
{
    let parts = build_all(alloc, &catalog, servers)?;
    Ok(Servers {
        catalog,
        servers,
        parts,
        counts: Tally::new(),
        longest: 0,
    })
}

impl Servers {
    /// What the servers have counted so far. No row is dropped there.
    pub fn counts(&self) -> Tally
        ensures { result ≡ self.now.counts }
    {
        self.counts
    }

    /// What is known of the collections: names, kinds, numbers of documents, shards, shard keys and
    /// indexes. With 0 servers each collection is one shard, in one place. Only want of memory is
    /// refused.
    pub fn facts(&self, alloc: Global) -> Result<Facts, OutOfMemory>
        ensures known { IfOk result (λ facts. facts ≡ (stock self.now).facts) }
        ensures meets { IfOk result (λ facts. Meets facts (stock self.now).db) }
    {
        let facts = collect_facts(alloc, self.servers, &self.catalog, &self.parts)?;
        Ok(facts)
    }

    /// How many collections there are.
    pub fn collections(&self) -> u32
        ensures { result ≡ length self.now.held }
    {
        self.catalog.len() as u32
    }

    /// The number of the collection with a name; `None` exactly where there is none.
    pub fn find(&self, name: &str) -> Option<CollNo>
        ensures value { option_map (λ n. n.0) result ≡ collection_index self.now.held name.now }
        ensures within { IfSome result (λ n. n.0 < length self.now.held) }
    {
        self.catalog.find(name)
    }

    /// How many shards a collection has: none where it is not declared.
    pub fn shards(&self, coll: CollNo) -> u32
        ensures { result ≡ shards_of self.now.servers self.now.held coll.0 }
    {
        match self.catalog.info(coll) {
            Some(info) => shard_count(self.servers, info),
            None => 0,
        }
    }

    /// How many documents a collection has, or one shard of it.
    pub fn length(&self, coll: CollNo, shard: Option<u32>) -> u64
        requires { IsShard (stock self.now).facts coll.0 shard }
        ensures { result ≡ length (documents_read (stock self.now) coll.0 shard) }
    {
        part_at(&self.parts, coll, shard).places.len() as u64
    }

    /// The span of the documents in these bounds, in the order of an index, which is searched as
    /// its kind allows: a lookup by one value, a sorted index by values of its first attributes and
    /// a range of the next. Nothing is counted, and no memory taken.
    pub fn span(
        &self,
        coll: CollNo,
        shard: Option<u32>,
        index: u32,
        equal: &Items,
        low: &Bound,
        high: &Bound,
    ) -> Span
        requires { IsSearched (stock self.now).facts coll.0 shard index (length equal.now)
            (range_of low.now high.now) }
        ensures within { IsSpan
            (length (in_order_of (stock self.now) Outside coll.0 shard index)) result }
        ensures exactly { spanned (in_order_of (stock self.now) Outside coll.0 shard index) result
            ≡ filter (in_bounds (attributes_in (stock self.now).facts coll.0 index) equal.now
            (range_of low.now high.now))
            (in_order_of (stock self.now) Outside coll.0 shard index) }
    {
        let part = part_at(&self.parts, coll, shard);
        index_in(part, index).range(equal, low, high)
    }

    /// The spans of the documents that have the equal values and then an element of the array, none
    /// where it is no array. No document is in two of them. Nothing is counted. Only want of memory
    /// is refused.
    pub fn spans(
        &self,
        alloc: Global,
        coll: CollNo,
        shard: Option<u32>,
        index: u32,
        equal: &Items,
        list: &Value,
    ) -> Result<Spans, OutOfMemory>
        requires { IsSearchedForEach (stock self.now).facts coll.0 shard index (length equal.now) }
        ensures apart { IfOk result (λ spans. AreApart 0 spans
            (length (in_order_of (stock self.now) Outside coll.0 shard index))) }
        ensures exactly { IfOk result (λ spans.
            flat_map (spanned (in_order_of (stock self.now) Outside coll.0 shard index)) spans
            ≡ filter (in_bounds (attributes_in (stock self.now).facts coll.0 index) equal.now
            (one_of (datum_of list.now)))
            (in_order_of (stock self.now) Outside coll.0 shard index)) }
    {
        let part = part_at(&self.parts, coll, shard);
        let spans = spans_of(alloc, index_in(part, index), equal, list)?;
        Ok(spans)
    }

    /// The document at a place of a collection, or of one shard of it. It is handed out and
    /// counted as one that was read, both in the tally and in the servers' own counts.
    pub fn full(
        &mut self,
        coll: CollNo,
        shard: Option<u32>,
        place: u64,
        tally: &mut Tally,
    ) -> &Value
        requires shard { IsShard (stock self.old).facts coll.0 shard }
        requires place { place < length (documents_read (stock self.old) coll.0 shard) }
        ensures document { slice_get (documents_read (stock self.old) coll.0 shard) place
            ≡ Some (datum_of result.now) }
        ensures tally { tally.new ≡ one_read tally.old }
        ensures* counts { sem 𝓛 (Rests the_row self.entry
            (λ after. after ≡ record self.old { counts = one_read self.old.counts })) }
    {
        tally.add_full(1);
        self.counts.add_full(1);
        let part = part_at(&self.parts, coll, shard);
        self.longest = look_ahead(&self.catalog, coll, part, place as usize);
        let at = place_in(part, place as usize);
        document_at(&self.catalog, coll, at)
    }

    /// The document at a place in the order of an index. It is handed out and counted as one that
    /// an index found, both in the tally and in the servers' own counts.
    pub fn indexed(
        &mut self,
        coll: CollNo,
        shard: Option<u32>,
        index: u32,
        place: u64,
        tally: &mut Tally,
    ) -> &Value
        requires index { IsIndexFor (stock self.old).facts coll.0 shard index (λ i. Unit {0}) }
        requires place { place
            < length (in_order_of (stock self.old) Outside coll.0 shard index) }
        ensures document { slice_get (in_order_of (stock self.old) Outside coll.0 shard index) place
            ≡ Some (datum_of result.now) }
        ensures tally { tally.new ≡ one_found tally.old }
        ensures* counts { sem 𝓛 (Rests the_row self.entry
            (λ after. after ≡ record self.old { counts = one_found self.old.counts })) }
    {
        tally.add_indexed(1);
        self.counts.add_indexed(1);
        self.catalog.recall_limits();
        let part = part_at(&self.parts, coll, shard);
        let Some(found) = index_in(part, index).doc_at(place as u32) else {
            unreachable!()
        };
        let at = place_in(part, found as usize);
        document_at(&self.catalog, coll, at)
    }
}

// Where a run of documents begins at this place, looks at each of them: the length of the longest
// first name. A processor fetches their memory together, where it would wait for that of each as
// they are handed out.
fn look_ahead(catalog: &Catalog, coll: CollNo, part: &Part, place: usize) -> usize {
    if place % AHEAD > 0 {
        return 0;
    }
    let mut longest = 0;
    for step in 0..AHEAD {
        if let Some(name) = first_name(catalog, coll, part, place.saturating_add(step)) {
            longest = name.as_str().len().max(longest);
        }
    }
    longest
}

// The first name of the document at a place.
fn first_name<'a>(
    catalog: &'a Catalog,
    coll: CollNo,
    part: &Part,
    place: usize,
) -> Option<&'a Text> {
    let at = part.places.get(place)?;
    match catalog.document(coll, DocNo(*at))? {
        Value::Object(members) => members.name(0),
        _ => None,
    }
}
