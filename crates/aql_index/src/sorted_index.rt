//! Sorted indexes.

ghost use Rattle.std.specs.Prelude.{◌≡◌, ◌<◌, ◌^◌, ◌++◌, ◌∷◌, [], length, map, option_map, slice_get, flat_map, IfOk, OnOk};
ghost use Rattle.std.specs.List.{All};
ghost use Rattle.aql_value.specs.Datum.{Datum};
ghost use Rattle.aql_value.specs.Contents.{elements};
ghost use Rattle.aql_value.specs.View.{datum_of, datums_in};
ghost use Rattle.aql_meaning.specs.Documents.{no_last, one_of};
ghost use Rattle.aql_index.specs.Bounds.{range_of, BoundsFit};
ghost use Rattle.aql_plan.specs.Facts.{numbers_below};
ghost use Rattle.aql_index.specs.Dealing.{dealt, IsOver};
ghost use Rattle.aql_index.specs.Entries.{entries_within, IsIndex};
ghost use Rattle.aql_index.specs.IndexOrder.{index_of};
ghost use Rattle.aql_index.specs.Spans.{spanned, IsSpan, AreApart};
ghost use Rattle.aql_index.specs.Groups.{widest_of};

use crate::bounds::{Bound, Span, tail_of};
use crate::dealing::deal;
use crate::entries::{Entry, sorted_entries, span_of};
use crate::groups::widest_of;
use crate::spans::{Spans, find_spans};
use aql_value::{Items, Names, OutOfMemory, Value};
use std::alloc::Global;
use std::marker::Model;

/// The documents of a collection, or of one shard of it, by the values of some attributes, where
/// one that a document lacks counts as null (AQL manual, Indexing: persistent indexes). Contracts
/// see the number of attributes and the entries in the order of these values.
pub struct SortedIndex {
    width: usize,
    entries: Vec<Entry>,
}

impl Drop for SortedIndex {
    fn drop(self) {
        let SortedIndex {
            width: _,
            entries: _,
        } = self;
    }
}

impl Model for SortedIndex {
    ghost use Rattle.aql_index.specs.Entries.{IndexView, coded_index, IsIndex};

    ghost Value = { IndexView };

    ghost coded = { coded_index };

    ghost view = { λ s. record { width = s.width; entries = s.entries.items } };

    ghost invariant = { λ s. IsIndex s.width s.entries.items };
}

impl SortedIndex {
    /// The index of these documents by these attributes: at most 4,294,967,295 documents, of any
    /// kind of value; documents that are equal in all attributes keep their order. Only want of
    /// memory is refused.
    pub fn build(
        alloc: Global,
        docs: &Items,
        attributes: &Names,
    ) -> Result<SortedIndex, OutOfMemory>
        requires { length docs.now < 2 ^ 32 }
        ensures { IfOk result (λ index. index ≡ index_of attributes.now docs.now) }
    {
        let entries = sorted_entries(alloc, docs.as_slice(), attributes.as_slice())?;
        Ok(SortedIndex {
            width: attributes.len(),
            entries,
        })
    }

    /// The indexes of the shards of the documents, so many: `shards` has the shard of the document
    /// at each place. The documents of a shard count as a list of their own, in the same order. No
    /// document is read. Only want of memory is refused.
    pub fn deal_out(
        &self,
        alloc: Global,
        shards: &[u32],
        count: u32,
    ) -> Result<Vec<SortedIndex>, OutOfMemory>
        requires few { length shards.now < 2 ^ 32 }
        requires within { All (λ shard. shard < count) shards.now }
        requires there { IsOver (length shards.now) self.now }
        ensures { IfOk result
            (λ all. all.items ≡ map (dealt self.now shards.now) (numbers_below count)) }
    {
        deal(alloc, self.width, self.entries.as_slice(), shards, count)
    }

    /// An index of no documents over so many attributes, with room for some entries.
    pub(crate) fn with_room(
        alloc: Global,
        width: usize,
        room: usize,
    ) -> Result<SortedIndex, OutOfMemory>
        ensures { IfOk result (λ index. index ≡ record { width = width; entries = [] }) }
    {
        let entries = Vec::with_capacity(alloc, room)?;
        Ok(SortedIndex { width, entries })
    }

    /// Appends an entry that stands behind all that are there.
    pub(crate) fn append(&mut self, entry: Entry) -> Result<(), OutOfMemory>
        requires { IsIndex self.old.width (self.old.entries ++ entry ∷ []) }
        ensures { OnOk result (self.new
            ≡ record self.old { entries = self.old.entries ++ entry ∷ [] }) }
    {
        self.entries.push(entry)?;
        Ok(())
    }

    /// The places, in the index, of exactly the documents whose first attributes have the values
    /// `equal` and whose next one is between `low` and `high`. There are at most as many equal
    /// values as attributes, and fewer where an end is not free. It takes no memory and refuses
    /// nothing; where there is no such document, as where the ends cross, the span is empty.
    pub fn range(&self, equal: &Items, low: &Bound, high: &Bound) -> Span
        requires { BoundsFit self.now.width (length equal.now) (range_of low.now high.now) }
        ensures within { IsSpan (length self.now.entries) result }
        ensures exactly { spanned self.now.entries result
            ≡ entries_within equal.now (range_of low.now high.now) self.now.entries }
    {
        let tail = tail_of(low, high);
        span_of(self.entries.as_slice(), equal.as_slice(), &tail)
    }

    /// The size of the largest group of documents that are equal in the first attributes, so many
    /// of them: with none all documents are one group, and more than there are count as all. It
    /// takes no memory.
    pub fn widest(&self, width: u32) -> u64
        ensures { result ≡ widest_of width self.now.entries }
    {
        widest_of(self.entries.as_slice(), width as usize)
    }

    /// The place, in the list that the index was built of, of the document at this place of the
    /// index; `None` exactly where the index has no such place.
    pub fn doc_at(&self, place: u32) -> Option<u32>
        ensures { result ≡ option_map (λ e. e.place) (slice_get self.now.entries place) }
    {
        match self.entries.get(place as usize) {
            Some(entry) => Some(entry.place),
            None => None,
        }
    }
}

/// The spans of the documents whose first attributes have the values `equal` and whose next one is
/// an element of the array `list`; none where `list` is no array. There are fewer equal values than
/// attributes. Each distinct element that some document has gives one span, in the order of the
/// index, and no document is in two of them. Only want of memory is refused.
pub fn spans_of(
    alloc: Global,
    index: &SortedIndex,
    equal: &Items,
    list: &Value,
) -> Result<Spans, OutOfMemory>
    requires { length equal.now < index.now.width }
    ensures apart { IfOk result (λ spans. AreApart 0 spans (length index.now.entries)) }
    ensures exactly { IfOk result (λ spans. flat_map (spanned index.now.entries) spans
        ≡ entries_within equal.now (one_of (datum_of list.now)) index.now.entries) }
    ensures each { IfOk result (λ spans. All (λ span. (v : Datum) × (spanned index.now.entries span
        ≡ entries_within (equal.now ++ v ∷ []) no_last index.now.entries)) spans) }
{
    let elements = elements_of(list);
    let spans = find_spans(alloc, index.entries.as_slice(), equal.as_slice(), elements)?;
    Ok(spans)
}

// The elements of an array; nothing else has any.
fn elements_of(value: &Value) -> &[Value]
    ensures { datums_in result.now ≡ elements (datum_of value.now) }
{
    match value {
        Value::List(items) => items.as_slice(),
        Value::Null | Value::Bool(_) | Value::Num(_) | Value::Text(_) | Value::Object(_) => &[],
    }
}
