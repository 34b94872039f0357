//! What scans read.

ghost use Rattle.std.specs.Prelude.{◌≡◌, ◌<◌, length, slice_get, Some, filter, flat_map, IfOk};
ghost use Rattle.std.specs.Borrow.{sem};
ghost use Rattle.std.specs.Io.BufRead.{Rests};
ghost use Rattle.aql_value.specs.View.{datum_of};
ghost use Rattle.aql_meaning.specs.Documents.{in_bounds, one_of};
ghost use Rattle.aql_plan.specs.Facts.{attributes_in};
ghost use Rattle.aql_plan.specs.Fits.{IsShard};
ghost use Rattle.aql_plan.specs.Runs.{Outside, read};
ghost use Rattle.aql_exec.specs.Promises.{IsStill};
ghost use Rattle.aql_index.specs.Bounds.{range_of};
ghost use Rattle.aql_index.specs.Found.{in_order_of};
ghost use Rattle.aql_index.specs.Spans.{spanned, IsSpan, AreApart};
ghost use Rattle.aql_index.specs.Usable.{IsIndexFor, IsSearched, IsSearchedForEach};
ghost use Rattle.aql_exec_scan.specs.Shelves.{one_read, OwnRead, one_found, OwnFound};

use aql_block::Tally;
use aql_exec::Surroundings;
use aql_index::{Bound, Span, Spans};
use aql_value::{CollNo, Items, OutOfMemory, Value};
use std::alloc::Global;

/// A world whose documents can be read one at a time, and found by indexes.
pub trait Shelf: Surroundings {
    /// How many documents there are to read in a collection, or in one shard of it.
    fn length(&self, coll: CollNo, shard: Option<u32>) -> u64
        requires { IsShard (Self.stock self.now).facts coll.0 shard }
        ensures { result ≡ length (read (Self.stock self.now) coll.0 shard Outside) };

    /// The document at a place of a collection, or of one shard of it. It is handed out and
    /// counted as one that was read, both in the tally and by its server.
    fn full(&mut self, coll: CollNo, shard: Option<u32>, place: u64, tally: &mut Tally) -> &Value
        requires shard { IsShard (Self.stock self.old).facts coll.0 shard }
        requires place { place < length (read (Self.stock self.old) coll.0 shard Outside) }
        ensures document { slice_get (read (Self.stock self.old) coll.0 shard Outside) place
            ≡ Some (datum_of result.now) }
        ensures tally { tally.new ≡ one_read tally.old }
        ensures* counted { sem 𝓛 (Rests Self.row self.entry (λ after.
            IsStill Self.Surroundings self.old after
            × OwnRead (Self.counted self.old) (Self.counted after) 1)) };

    /// The span of the documents in these bounds, in the order of an index of a collection, or of
    /// one shard of it. Nothing is counted, and no memory taken.
    fn span(
        &self,
        coll: CollNo,
        shard: Option<u32>,
        index: u32,
        equal: &Items,
        low: &Bound,
        high: &Bound,
    ) -> Span
        requires { IsSearched (Self.stock self.now).facts coll.0 shard index (length equal.now)
            (range_of low.now high.now) }
        ensures within { IsSpan
            (length (in_order_of (Self.stock self.now) Outside coll.0 shard index)) result }
        ensures exactly { spanned (in_order_of (Self.stock self.now) Outside coll.0 shard index) result
            ≡ filter (in_bounds (attributes_in (Self.stock self.now).facts coll.0 index) equal.now
            (range_of low.now high.now))
            (in_order_of (Self.stock self.now) Outside coll.0 shard index) };

    /// The spans of the documents whose first attributes have the equal values, and whose next one
    /// is an element of the array. Nothing is counted.
    fn spans(
        &self,
        alloc: Global,
        coll: CollNo,
        shard: Option<u32>,
        index: u32,
        equal: &Items,
        list: &Value,
    ) -> Result<Spans, OutOfMemory>
        requires { IsSearchedForEach (Self.stock self.now).facts coll.0 shard index
            (length equal.now) }
        ensures apart { IfOk result (λ spans. AreApart 0 spans
            (length (in_order_of (Self.stock self.now) Outside coll.0 shard index))) }
        ensures exactly { IfOk result (λ spans. flat_map
            (spanned (in_order_of (Self.stock self.now) Outside coll.0 shard index)) spans
            ≡ filter (in_bounds (attributes_in (Self.stock self.now).facts coll.0 index) equal.now
            (one_of (datum_of list.now)))
            (in_order_of (Self.stock self.now) Outside coll.0 shard index)) };

    /// The document at a place in the order of an index. It is handed out and counted as one that
    /// an index found, both in the tally and by its server.
    fn indexed(
        &mut self,
        coll: CollNo,
        shard: Option<u32>,
        index: u32,
        place: u64,
        tally: &mut Tally,
    ) -> &Value
        requires index { IsIndexFor (Self.stock self.old).facts coll.0 shard index (λ i. Unit {0}) }
        requires place { place
            < length (in_order_of (Self.stock self.old) Outside coll.0 shard index) }
        ensures document { slice_get (in_order_of (Self.stock self.old) Outside coll.0 shard index) place
            ≡ Some (datum_of result.now) }
        ensures tally { tally.new ≡ one_found tally.old }
        ensures* counted { sem 𝓛 (Rests Self.row self.entry (λ after.
            IsStill Self.Surroundings self.old after
            × OwnFound (Self.counted self.old) (Self.counted after) 1)) };
}
