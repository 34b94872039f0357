//! The rows that came of one input, in their order.

ghost use Rattle.std.specs.Prelude.{◌≡◌, ◌≤◌, ◌<◌, ◌∷◌, ℕ, List, [], length, drop};
ghost use Rattle.std.specs.Prelude.{Some, IfOk, OnOk, true, false};
ghost use Rattle.aql_value.specs.View.{datums_in};
ghost use Rattle.aql_plan.specs.View.{key_trees};
ghost use Rattle.aql_meaning.specs.Plain.{AllPlain};
ghost use Rattle.aql_meaning.specs.AtRows.{keys_of};
ghost use Rattle.aql_meaning.specs.Row as meaning;
ghost use Rattle.aql_block.specs.Rows.{row_of, HasAll, only};
ghost use Rattle.aql_block.specs.Tables.{rows_of};
ghost use Rattle.aql_exec_cluster.specs.Queues.{rows_left, IsKeyed};

use crate::keys::keys_at;
use aql_block::{Block, Row};
use aql_tree::Key;
use aql_value::{OutOfMemory, Value};
use std::alloc::Global;

/// The rows of a block from a place on, and the values of the keys at the first of them.
#[derive(Drop)]
pub(crate) struct Queue {
    pub(crate) block: Block,
    pub(crate) at: u32,
    pub(crate) keys: Vec<Value>,
}

impl Queue {
    /// No rows.
    pub(crate) fn empty(alloc: Global) -> Queue
        ensures { rows_left result ≡ [] }
    {
        Queue {
            block: Block::empty(alloc),
            at: 0,
            keys: Vec::new(alloc),
        }
    }

    /// All rows of a block.
    pub(crate) fn new(alloc: Global, keys: &[Key], block: Block) -> Result<Queue, OutOfMemory>
        requires { AllPlain (key_trees keys.now) }
        ensures rows { IfOk result (λ queue. rows_left queue ≡ rows_of block) }
        ensures keyed { IfOk result (λ queue. IsKeyed (key_trees keys.now) queue) }
    {
        let values = keys_in(alloc, keys, &block, 0)?;
        Ok(Queue {
            block,
            at: 0,
            keys: values,
        })
    }

    /// Whether there is a row.
    pub(crate) fn has_next(&self) -> bool
        ensures none { result ≡ false → rows_left self.now ≡ [] }
        ensures some { result ≡ true → 1 ≤ length (rows_left self.now) }
    {
        self.at < self.block.len()
    }

    /// How many rows there are.
    pub(crate) fn len(&self) -> u64
        ensures { result ≡ length (rows_left self.now) }
    {
        u64::from(self.block.len().saturating_sub(self.at))
    }

    /// Moves the first row out.
    pub(crate) fn pop(&mut self, alloc: Global, keys: &[Key]) -> Result<Row, OutOfMemory>
        requires plain { AllPlain (key_trees keys.now) }
        requires some { 1 ≤ length (rows_left self.old) }
        ensures row { IfOk result
            (λ row. rows_left self.old ≡ row_of row ∷ rows_left self.new) }
        ensures keyed { OnOk result (IsKeyed (key_trees keys.now) self.new) }
        ensures has { IfOk result (λ row. HasAll self.old.block.registers (row_of row)) }
        ensures only { IfOk result
            (λ row. only self.old.block.registers (row_of row) ≡ row_of row) }
    {
        prove!(self.at < self.block.len());
        let row = self.block.take_row(alloc, self.at)?;
        self.at += 1;
        self.keys = keys_in(alloc, keys, &self.block, self.at)?;
        Ok(row)
    }
}

// The values of the keys at the row at a place, where there is one.
fn keys_in(alloc: Global, keys: &[Key], block: &Block, at: u32) -> Result<Vec<Value>, OutOfMemory>
    requires { AllPlain (key_trees keys.now) }
    ensures { IfOk result (λ values. (row : meaning.Row) (rows : List meaning.Row)
        → drop at (rows_of block.now) ≡ row ∷ rows
        → datums_in values.items ≡ keys_of (key_trees keys.now) row) }
{
    match block.row(at) {
        Some(row) => {
            let values = keys_at(alloc, keys, &row)?;
            Ok(values)
        }
        None => Ok(Vec::new(alloc)),
    }
}
