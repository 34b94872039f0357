//! What makes rows of rows, block by block: the part of an executor that knows its node.

ghost use Rattle.std.specs.Prelude.{◌≡◌, ℕ, ◌+◌, ◌*◌, ◌<◌, ◌≤◌, ◌++◌, List, [], length, IfOk, OnOk};
ghost use Rattle.std.specs.Prelude.{Bool, true, false};
ghost use Rattle.aql_meaning.specs.Row as meaning;
ghost use Rattle.aql_plan.specs.Plan.{Node};
ghost use Rattle.aql_plan.specs.Fits.{Fits};
ghost use Rattle.aql_plan.specs.Runs.{Dataset};
ghost use Rattle.aql_block.specs.Rows.{row_of};
ghost use Rattle.aql_block.specs.Tables.{rows_of};
ghost use Rattle.aql_exec.specs.Rests.{Counter, filtered, Counts, Rest, Prefixed, all_exact, IsOver};
ghost use Rattle.aql_exec.specs.Rising.{IsExact, Rises};
ghost use Rattle.aql_exec.specs.Counting.{GivesCounting, NoneSent};
ghost use Rattle.aql_exec.specs.Operators.{OnRows, exact_at};
ghost use Rattle.aql_exec.specs.Reads.{hands_on, scans_all};
ghost use Rattle.aql_exec.specs.Promises.{IsStill};
ghost use Rattle.aql_exec.specs.RowCosts.{row_cost_of};

use crate::surroundings::Surroundings;
use aql_block::{Block, Row, Tally};
use aql_value::OutOfMemory;
use std::alloc::Global;

/// Makes rows of rows. It is given blocks of input rows, the next one where the one before is used
/// up, and gives its own rows a few at a time.
pub trait Transform<W: Surroundings> {
    /// the node that it works for
    ghost node: { Self → Node };

    /// which rows may come of it still, and what is counted on the way, where these rows are still
    /// to be put in
    ghost left: { Self → Dataset → List meaning.Row → Rest → Type 0 };

    /// how many rows may come of what it holds
    ghost held: { Self → Dataset → ℕ };

    /// the block that was put in last is used up
    ghost ready: { Self → Type 0 };

    /// all rows were put in
    ghost closed: { Self → Bool };

    ghost valid: { Self → Dataset → Type 0 };

    /// Forgets what it holds, and starts from this row. One row at most is owed from the start.
    fn begin(&mut self, alloc: Global, start: &Row) -> Result<(), OutOfMemory>
        ensures node { node self.new ≡ node self.old }
        ensures valid { OnOk result ((w : Dataset) → valid self.new w) }
        ensures ready { OnOk result (ready self.new) }
        ensures closed { OnOk result (closed self.new ≡ false) }
        ensures held { OnOk result ((w : Dataset) → held self.new w ≤ 1) }
        ensures left { OnOk result ((w : Dataset) (rows : List meaning.Row) (r : Rest)
            → left self.new w rows r → NoneSent r.counts
            × GivesCounting (node self.new) w (row_of start.now) rows r.rows r.counts) };

    /// Puts a block in.
    fn put(&mut self, alloc: Global, block: Block) -> Result<(), OutOfMemory>
        requires ready { ready self.old }
        requires closed { closed self.old ≡ false }
        ensures node { node self.new ≡ node self.old }
        ensures valid { OnOk result ((w : Dataset) → valid self.old w → valid self.new w) }
        ensures closed { OnOk result (closed self.new ≡ false) }
        ensures held { OnOk result
            ((w : Dataset) → held self.new w ≤ held self.old w
            + row_cost_of (node self.old) * length (rows_of block)) }
        ensures left { OnOk result ((w : Dataset) (rows : List meaning.Row) (r : Rest)
            → left self.new w rows r → left self.old w (rows_of block ++ rows) r) };

    /// Nothing more is put in.
    fn close(&mut self)
        requires closed { closed self.old ≡ false }
        ensures node { node self.new ≡ node self.old }
        ensures valid { (w : Dataset) → valid self.old w → valid self.new w }
        ensures closed { closed self.new ≡ true }
        ensures held { (w : Dataset) → held self.new w ≤ held self.old w }
        ensures left { (w : Dataset) (r : Rest) → left self.new w [] r → left self.old w [] r };

    /// The next rows, at most so many; none where it is used up.
    fn next(
        &mut self,
        alloc: Global,
        world: &mut W,
        most: u64,
        tally: &mut Tally,
    ) -> Result<Block, OutOfMemory>
        requires valid { valid self.old (W.stock world.old) }
        requires fits { Fits (W.stock world.old).facts (node self.old) }
        requires most { 1 ≤ most }
        ensures node { node self.new ≡ node self.old }
        ensures world { IsStill W.Surroundings world.old world.new }
        ensures valid { OnOk result (valid self.new (W.stock world.old)) }
        ensures closed { OnOk result (closed self.new ≡ closed self.old) }
        ensures most { IfOk result (λ block. length (rows_of block) ≤ most) }
        ensures held { IfOk result (λ block. held self.new (W.stock world.old)
            + length (rows_of block) ≤ held self.old (W.stock world.old)) }
        ensures left { IfOk result (λ block. (d : Counts)
            × Rises W.Surroundings (IsExact (exact_at (OnRows (node self.old))))
            tally.old world.old tally.new world.new d
            × ((rows : List meaning.Row) (r : Rest) → left self.new (W.stock world.old) rows r
            → (b : Rest) × Prefixed all_exact (rows_of block) d r b
            × left self.old (W.stock world.old) rows b)) }
        ensures none { IfOk result (λ block. length (rows_of block) ≡ 0 → ready self.new
            × (closed self.new ≡ true → (r : Rest) → left self.new (W.stock world.old) [] r
            → IsOver all_exact r)) }
        ensures reads { IfOk result (λ block. scans_all (OnRows (node self.old)) ≡ true
            → tally.new.scanned_full ≤ tally.old.scanned_full + length (rows_of block)) };

    /// Leaves out its next rows, at most so many, and says how many they were; none where it is
    /// used up. The rows that its filter drops are counted all the same; documents may be passed
    /// over unread.
    fn skip(
        &mut self,
        alloc: Global,
        world: &mut W,
        most: u64,
        tally: &mut Tally,
    ) -> Result<u64, OutOfMemory>
        requires valid { valid self.old (W.stock world.old) }
        requires fits { Fits (W.stock world.old).facts (node self.old) }
        requires most { 1 ≤ most }
        ensures node { node self.new ≡ node self.old }
        ensures world { IsStill W.Surroundings world.old world.new }
        ensures valid { OnOk result (valid self.new (W.stock world.old)) }
        ensures closed { OnOk result (closed self.new ≡ closed self.old) }
        ensures most { IfOk result (λ count. count ≤ most) }
        ensures held { IfOk result (λ count. held self.new (W.stock world.old)
            + count ≤ held self.old (W.stock world.old)) }
        ensures left { IfOk result (λ count. (d : Counts)
            × Rises W.Surroundings (λ c. c ≡ filtered) tally.old world.old tally.new world.new d
            × ((rows : List meaning.Row) (r : Rest) → left self.new (W.stock world.old) rows r
            → (skipped : List meaning.Row) × (b : Rest) × (length skipped ≡ count)
            × Prefixed all_exact skipped d r b × left self.old (W.stock world.old) rows b)) }
        ensures none { IfOk result (λ count. count ≡ 0 → ready self.new
            × (closed self.new ≡ true → (r : Rest) → left self.new (W.stock world.old) [] r
            → IsOver all_exact r)) }
        ensures reads { OnOk result (scans_all (OnRows (node self.old)) ≡ true
            → tally.new.scanned_full ≤ tally.old.scanned_full) };

    /// it is not such that a row is made of each row
    ghost not_handed_on: { (s : Self) → hands_on (OnRows (node s)) ≡ false };

    /// there is always a list
    ghost some: { (s : Self) (w : Dataset) (rows : List meaning.Row) → valid s w
        → (r : Rest) × left s w rows r };
}
