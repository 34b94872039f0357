//! RETURN DISTINCT: each value of an expression at the first row that has it, under the variable 0.

ghost use Rattle.std.specs.Prelude.{◌≡◌, refl, ℕ, ◌≤◌, List, [], length, true, false, IfOk, OnOk};
ghost use Rattle.aql_value.specs.View.{datums_in};
ghost use Rattle.aql_tree.specs.View.{tree};
ghost use Rattle.aql_func.specs.Lists.{add_all};
ghost use Rattle.aql_meaning.specs.Plain.{IsPlain};
ghost use Rattle.aql_plan.specs.Plan as plan;
ghost use Rattle.aql_block.specs.Tables.{rows_of};
ghost use Rattle.aql_exec.specs.FirstResults.{unseen, shown, seen_after};

use crate::stream::Stream;
use crate::surroundings::Surroundings;
use crate::transform::Transform;
use crate::values::{take_front, values_in};
use aql_block::{Block, Row, Tally};
use aql_tree::Expr;
use aql_value::{OutOfMemory, Value, copy};
use indexmap::IndexSet;
use std::alloc::Global;

/// RETURN DISTINCT as an executor.
pub type ReturnDistinct = Stream<FirstResults>;

/// Gives each value of an expression once, at the first row that has it. The expression has no
/// subquery: that is asked where rows are made, as `Fits` of its node.
#[derive(Drop)]
pub struct FirstResults {
    expr: Expr,
    /// the values that were found so far
    seen: IndexSet<Value>,
    /// rows of the input, or rows of results that were made of them
    block: Block,
    made: bool,
    closed: bool,
}

impl FirstResults {
    /// Of this expression.
    pub fn new(alloc: Global, expr: Expr) -> FirstResults
        ensures { tree result.expr ≡ tree expr }
    {
        FirstResults {
            expr,
            seen: IndexSet::new(alloc),
            block: Block::empty(alloc),
            made: true,
            closed: false,
        }
    }

    // Makes rows of results of the rows of the input that are held.
    fn make(&mut self, alloc: Global) -> Result<(), OutOfMemory>
        requires { IsPlain (tree self.old.expr) }
        ensures expr { self.new.expr ≡ self.old.expr }
        ensures closed { self.new.closed ≡ self.old.closed }
        ensures made { OnOk result (self.new.made ≡ true) }
        ensures rows { OnOk result (rows_of self.new.block
            ≡ shown (tree self.old.expr) self.old.made (datums_in self.old.seen.keys)
            (rows_of self.old.block)) }
        ensures seen { OnOk result (datums_in self.new.seen.keys ≡ seen_after (tree self.old.expr)
            self.old.made (datums_in self.old.seen.keys) (rows_of self.old.block)) }
    {
        if self.made {
            return Ok(());
        }
        // a block has fewer than 2^32 rows, so there are no more values
        let _count = self.block.len();
        let values = values_in(alloc, &self.expr, &self.block)?;
        let results = take_new(alloc, &mut self.seen, values)?;
        self.block = Block::from_values(alloc, 0, results)?;
        self.made = true;
        Ok(())
    }
}

// The values that a set doesn't have, each at its first place. The set takes them.
fn take_new(
    alloc: Global,
    seen: &mut IndexSet<Value>,
    values: Vec<Value>,
) -> Result<Vec<Value>, OutOfMemory>
    ensures results { IfOk result
        (λ out. datums_in out.items ≡ unseen (datums_in seen.old.keys) (datums_in values.items)) }
    ensures seen { OnOk result (datums_in seen.new.keys
        ≡ add_all true (datums_in seen.old.keys) (datums_in values.items)) }
    ensures fewer { IfOk result (λ out. length out.items ≤ length values.items) }
{
    let mut out = Vec::new(alloc);
    for value in values {
        if seen.insert(copy(alloc, &value)?)? {
            out.push(value)?;
        }
    }
    Ok(out)
}

impl<W: Surroundings> Transform<W> for FirstResults {
    ghost use Rattle.aql_exec.specs.FirstResults.{left_results, some_results};

    ghost node = { λ s. plan.Return true (tree s.expr) };

    ghost left = { λ s _ rows r.
        left_results (tree s.expr) s.made (datums_in s.seen.keys) (rows_of s.block) rows r };

    ghost held = { λ s _. length (rows_of s.block) };

    ghost ready = { λ s. rows_of s.block ≡ [] };

    ghost closed = { λ s. s.closed };

    ghost valid = { λ _ _. Unit {0} };

    fn begin(&mut self, alloc: Global, _start: &Row) -> Result<(), OutOfMemory> {
        self.seen = IndexSet::new(alloc);
        self.block = Block::empty(alloc);
        self.made = true;
        self.closed = false;
        Ok(())
    }

    fn put(&mut self, _alloc: Global, block: Block) -> Result<(), OutOfMemory> {
        self.block = block;
        self.made = false;
        Ok(())
    }

    fn close(&mut self) {
        self.closed = true;
    }

    fn next(
        &mut self,
        alloc: Global,
        _world: &mut W,
        most: u64,
        _tally: &mut Tally,
    ) -> Result<Block, OutOfMemory> {
        self.make(alloc)?;
        take_front(alloc, &mut self.block, most)
    }

    fn skip(
        &mut self,
        alloc: Global,
        _world: &mut W,
        most: u64,
        _tally: &mut Tally,
    ) -> Result<u64, OutOfMemory> {
        self.make(alloc)?;
        let block = take_front(alloc, &mut self.block, most)?;
        Ok(u64::from(block.len()))
    }

    ghost not_handed_on = { λ _. refl };

    ghost some = { λ s _ rows _.
        some_results (tree s.expr) s.made (datums_in s.seen.keys) (rows_of s.block) rows };
}
