// A world with one collection.

ghost use Rattle.std.specs.Prelude.{◌≡◌, ◌<◌, ◌≤◌, ◌^◌, length, IfOk};
ghost use Rattle.aql_index.specs.IndexOrder.{index_of};

use aql_block::Tally;
use aql_exec::Surroundings;
use aql_exec_scan::Shelf;
use aql_index::{Bound, SortedIndex, Span, Spans, spans_of};
use aql_value::{CollNo, Items, Names, OutOfMemory, Text, Value};
use std::alloc::Global;

// Its documents are in one place, so no shard of it can be named, and it has one index, by `n` and
// then by `t`.
#[derive(Drop)]
pub struct OneCollection {
    names: Names,
    documents: Items,
    index: SortedIndex,
    counts: Tally,
    ghost few: { length documents < 2 ^ 32 },
    ghost two: { length names ≡ 2 },
    ghost indexed: { index ≡ index_of names documents },
}

impl OneCollection {
    pub fn new(alloc: Global, documents: Items) -> Result<OneCollection, OutOfMemory>
        requires { length documents < 2 ^ 32 }
        ensures { IfOk result (λ w. length w.names ≡ 2) }
    {
        let mut names = Names::new(alloc);
        names.push(Text::new(alloc, "n")?)?;
        names.push(Text::new(alloc, "t")?)?;
        let index = SortedIndex::build(alloc, &documents, &names)?;
        Ok(OneCollection {
            names,
            documents,
            index,
            counts: Tally::new(),
        })
    }

    // How many documents were handed out.
    pub fn handed_out(&self) -> u64 {
        self.counts.scanned_full
    }

    // How many of them the index found.
    pub fn handed_out_by_index(&self) -> u64 {
        self.counts.scanned_index
    }
}

impl Surroundings for OneCollection {
    ghost use Rattle.std.specs.Prelude.{[]};
    ghost use Rattle.aql_exec.specs.Lines.{no_line};
    ghost use Rattle.test_executors.specs.Worlds.{one_collection};

    ghost stock = { λ s. one_collection s.names s.documents };

    ghost counted = { λ s. s.counts };

    ghost links = { λ _. 0 };

    ghost flight = { λ _ _. no_line };

    ghost deliveries = { λ _. record { picks = []; left = 0 } };

    ghost batch = { λ _. 10000 };
}

// A count is a number of 64 bits.
fn recall_count(count: u64)
    ensures { count ≤ 18446744073709551615 }
{}

impl Shelf for OneCollection {
    fn length(&self, _coll: CollNo, _shard: Option<u32>) -> u64 {
        self.documents.len() as u64
    }

    fn full(
        &mut self,
        _coll: CollNo,
        _shard: Option<u32>,
        place: u64,
        tally: &mut Tally,
    ) -> &Value {
        tally.add_full(1);
        recall_count(self.counts.scanned_full);
        self.counts.add_full(1);
        let Some(document) = self.documents.get(place as usize) else {
            unreachable!()
        };
        document
    }

    fn span(
        &self,
        _coll: CollNo,
        _shard: Option<u32>,
        _index: u32,
        equal: &Items,
        low: &Bound,
        high: &Bound,
    ) -> Span {
        self.index.range(equal, low, high)
    }

    fn spans(
        &self,
        alloc: Global,
        _coll: CollNo,
        _shard: Option<u32>,
        _index: u32,
        equal: &Items,
        list: &Value,
    ) -> Result<Spans, OutOfMemory> {
        let spans = spans_of(alloc, &self.index, equal, list)?;
        Ok(spans)
    }

    fn indexed(
        &mut self,
        _coll: CollNo,
        _shard: Option<u32>,
        _index: u32,
        place: u64,
        tally: &mut Tally,
    ) -> &Value {
        tally.add_indexed(1);
        recall_count(self.counts.scanned_index);
        self.counts.add_indexed(1);
        let Some(at) = self.index.doc_at(place as u32) else {
            unreachable!()
        };
        let Some(document) = self.documents.get(at as usize) else {
            unreachable!()
        };
        document
    }
}
