//! Feeds that run over the rows that came to a shard.

ghost use Rattle.std.specs.Prelude.{◌≡◌, ℕ, ◌≤◌, OnOk};
ghost use Rattle.aql_plan.specs.declared.facts.Facts.{Facts};
ghost use Rattle.aql_block.specs.declared.calls.Call.{Call};
ghost use Rattle.aql_block.specs.Rows.{row_of};
ghost use Rattle.aql_exec.specs.Rests.{Rest};
ghost use Rattle.aql_exec.specs.Steps.{IsCall};
ghost use Rattle.aql_exec.specs.Operators.{ProducesOver, IsTree};
ghost use Rattle.aql_engine.specs.Run.{rows_in};

use crate::blocks::Blocks;
use crate::founded::Founded;
use aql_block::Row;
use aql_engine::Tree;
use aql_exec::{Delivers, Surroundings};
use aql_value::OutOfMemory;
use std::alloc::Global;
use std::rc::Rc;

/// A feed that can run over the rows that came to a shard.
pub trait Parted<W: Surroundings>: Delivers<W> {
    /// Begins from a row, where these rows came to its shard.
    fn restart_over(
        &mut self,
        alloc: Global,
        start: &Row,
        part: &Rc<Blocks>,
    ) -> Result<(), OutOfMemory>
        requires plan { (facts : Facts) × IsTree facts (Self.plan self.old) }
        ensures plan { Self.plan self.new ≡ Self.plan self.old }
        ensures full { Self.full self.new ≡ Self.full self.old }
        ensures valid { OnOk result ((w : W) → Self.valid self.new w) }
        ensures produces { OnOk result ((w : W) (r : Rest) → Self.rests self.new w r
            → ProducesOver (Self.plan self.new) (W.stock w) (rows_in part.now.value)
            (row_of start.now) r) }
        ensures may { OnOk result ((c : Call) → IsCall c → Self.may self.new c) }
        ensures ours { OnOk result ((l : ℕ) → Self.ours self.new l → ⊥) }
        ensures budget { OnOk result ((w : W) → Self.budget self.new w ≤ Self.full self.new) };
}

impl<W: Surroundings, X: Founded<W>> Parted<W> for Tree<X> {
    fn restart_over(
        &mut self,
        alloc: Global,
        start: &Row,
        part: &Rc<Blocks>,
    ) -> Result<(), OutOfMemory> {
        match self {
            Tree::Leaf(x) => x.begin_over(alloc, start, part),
            Tree::Sub(x, below, _) => {
                x.begin_over(alloc, start, part)?;
                below.restart_over(alloc, start, part)
            }
        }
    }
}
