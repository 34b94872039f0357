//! Executors that may stand in a fragment.

ghost use Rattle.std.specs.Prelude.{◌≡◌, ℕ, ◌<◌, ◌≤◌, ◌⊎◌, OnOk};
ghost use Rattle.aql_plan.specs.declared.facts.Facts.{Facts};
ghost use Rattle.aql_block.specs.Rows.{row_of};
ghost use Rattle.aql_exec.specs.Rests.{Rest};
ghost use Rattle.aql_exec.specs.Operators.{OperatorTree, Makes, Produces, IsOperator, ports};
ghost use Rattle.aql_exec.specs.Promises.{SameNode, Begun};
ghost use Rattle.aql_engine.specs.Run.{rows_in};

use crate::blocks::Blocks;
use crate::remote::Remote;
use aql_block::Row;
use aql_engine::Choice;
use aql_exec::{Executor, Surroundings, Wired, Wires};
use aql_value::OutOfMemory;
use std::alloc::Global;
use std::rc::Rc;

/// An executor that may stand in a fragment, also at its foot.
pub trait Founded<W: Surroundings>: Wired<W> {
    /// Begins from a row, where these rows came to its shard.
    fn begin_over(
        &mut self,
        alloc: Global,
        start: &Row,
        part: &Rc<Blocks>,
    ) -> Result<(), OutOfMemory>
        requires node { (facts : Facts) × IsOperator facts (Self.node self.old) }
        ensures node { SameNode (Self.node self.old) (Self.node self.new)
            (Self.full self.old) (Self.full self.new)
            (Self.row_cost self.old) (Self.row_cost self.new) }
        ensures valid { OnOk result ((w : W) → Self.valid self.new w) }
        ensures begun { OnOk result (Begun (Self.node self.new) (Self.unreported self.new)
            (Self.ours self.new) (Self.waited self.new) (Self.stuck self.new)
            (Self.busy self.new) (Self.may self.new) (Self.asks self.new)
            (Self.ended self.new) (Self.started self.new)) }
        ensures makes { OnOk result ((w : W) (p : ℕ) (body : OperatorTree) (ins : ℕ → Rest)
            (r : Rest) → (p ≡ 0) ⊎ (p < ports (Self.node self.new))
            → Self.gives self.new w p body ins r
            → Makes (Self.node self.new) (W.stock w) (rows_in part.now.value)
            (row_of start.now) p (Produces body (W.stock w)) ins r) }
        ensures budget { OnOk result
            ((w : W) (f : ℕ) → Self.budget self.new w f ≤ Self.full self.new f) };
}

impl<W: Surroundings, A: Founded<W>, B: Founded<W>> Founded<W> for Choice<A, B> {
    fn begin_over(
        &mut self,
        alloc: Global,
        start: &Row,
        part: &Rc<Blocks>,
    ) -> Result<(), OutOfMemory> {
        match self {
            Choice::First(a) => a.begin_over(alloc, start, part),
            Choice::Second(b) => b.begin_over(alloc, start, part),
        }
    }
}

impl<W: Wires> Founded<W> for Remote {
    fn begin_over(
        &mut self,
        alloc: Global,
        start: &Row,
        _part: &Rc<Blocks>,
    ) -> Result<(), OutOfMemory> {
        <Remote as Executor<W>>::begin(self, alloc, start)
    }
}
