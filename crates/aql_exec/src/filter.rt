//! FILTER: the rows at which a condition is true-like.

ghost use Rattle.std.specs.Prelude.{◌≡◌, refl, ℕ, ◌+◌, List, [], length, true, false, OnOk};
ghost use Rattle.aql_tree.specs.View.{tree};
ghost use Rattle.aql_plan.specs.Plan as plan;
ghost use Rattle.aql_meaning.specs.Plain.{IsPlain};
ghost use Rattle.aql_block.specs.Tables.{rows_of};
ghost use Rattle.aql_exec.specs.Rests.{saturated};
ghost use Rattle.aql_exec.specs.Rising.{TallyRose};
ghost use Rattle.aql_exec.specs.Filters.{kept_of, lost_of, failing};

use crate::stream::Stream;
use crate::surroundings::Surroundings;
use crate::transform::Transform;
use crate::values::{take_front, values_in};
use aql_block::{Block, Row, Tally};
use aql_tree::Expr;
use aql_value::{OutOfMemory, truthy};
use std::alloc::Global;

/// FILTER as an executor.
pub type Filter = Stream<Keep>;

/// Keeps the rows at which a condition is true-like. The condition has no subquery: that is asked
/// where rows are made, as `Fits` of its node.
#[derive(Drop)]
pub struct Keep {
    condition: Expr,
    /// the rows that are held, and whether those that don't pass were taken out
    block: Block,
    judged: bool,
    closed: bool,
}

impl Keep {
    /// By this condition.
    pub fn new(alloc: Global, condition: Expr) -> Keep
        ensures { tree result.condition ≡ tree condition }
    {
        Keep {
            condition,
            block: Block::empty(alloc),
            judged: true,
            closed: false,
        }
    }

    // Takes the rows out that don't pass, and counts them.
    fn judge(&mut self, alloc: Global, tally: &mut Tally) -> Result<(), OutOfMemory>
        requires { IsPlain (tree self.old.condition) }
        ensures condition { self.new.condition ≡ self.old.condition }
        ensures closed { self.new.closed ≡ self.old.closed }
        ensures judged { OnOk result (self.new.judged ≡ true) }
        ensures rows { OnOk result (rows_of self.new.block
            ≡ kept_of (tree self.old.condition) self.old.judged (rows_of self.old.block)) }
        ensures counted { OnOk result (self.old.judged ≡ false
            → tally.new.filtered ≡ saturated tally.old.filtered
            (length (failing (tree self.old.condition) (rows_of self.old.block)))) }
        ensures tally { OnOk result (TallyRose tally.old tally.new 0 0 (length
            (lost_of (tree self.old.condition) self.old.judged (rows_of self.old.block)))) }
    {
        if self.judged {
            return Ok(());
        }
        let values = values_in(alloc, &self.condition, &self.block)?;
        let marks: Vec<bool> = values.iter().map(|value| truthy(value)).collect(alloc)?;
        let before = self.block.len();
        self.block.retain(&marks);
        self.judged = true;
        count_dropped(tally, before - self.block.len());
        Ok(())
    }
}

// Counts rows that were dropped.
fn count_dropped(tally: &mut Tally, rows: u32)
    ensures rises { TallyRose tally.old tally.new 0 0 rows }
    ensures counted { tally.new.filtered ≡ saturated tally.old.filtered rows }
{
    let _before = tally.filtered;
    tally.add_filtered(u64::from(rows));
}

impl<W: Surroundings> Transform<W> for Keep {
    ghost use Rattle.aql_exec.specs.Filters.{left_keep, some_keep};

    ghost node = { λ s. plan.Filter (tree s.condition) };

    ghost left = { λ s _ rows r. left_keep (tree s.condition) s.judged (rows_of s.block) rows r };

    ghost held = { λ s _. length (rows_of s.block) };

    ghost ready = { λ s. rows_of s.block ≡ [] };

    ghost closed = { λ s. s.closed };

    ghost valid = { λ _ _. Unit {0} };

    fn begin(&mut self, alloc: Global, _start: &Row) -> Result<(), OutOfMemory> {
        self.block = Block::empty(alloc);
        self.judged = true;
        self.closed = false;
        Ok(())
    }

    fn put(&mut self, _alloc: Global, block: Block) -> Result<(), OutOfMemory> {
        self.block = block;
        self.judged = false;
        Ok(())
    }

    fn close(&mut self) {
        self.closed = true;
    }

    fn next(
        &mut self,
        alloc: Global,
        _world: &mut W,
        most: u64,
        tally: &mut Tally,
    ) -> Result<Block, OutOfMemory> {
        self.judge(alloc, tally)?;
        take_front(alloc, &mut self.block, most)
    }

    fn skip(
        &mut self,
        alloc: Global,
        _world: &mut W,
        most: u64,
        tally: &mut Tally,
    ) -> Result<u64, OutOfMemory> {
        self.judge(alloc, tally)?;
        let block = take_front(alloc, &mut self.block, most)?;
        Ok(u64::from(block.len()))
    }

    ghost not_handed_on = { λ _. refl };

    ghost some = { λ s _ rows _. some_keep (tree s.condition) s.judged (rows_of s.block) rows };
}
