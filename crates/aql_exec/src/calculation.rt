//! LET: each row with the value of an expression.

ghost use Rattle.std.specs.Prelude.{◌≡◌, List, map};
ghost use Rattle.aql_tree.specs.declared.syntax.Ident.TheVariants.{Num};
ghost use Rattle.aql_tree.specs.View.{tree};
ghost use Rattle.aql_meaning.specs.Row.{bind};
ghost use Rattle.aql_meaning.specs.AtRows.{value_of};
ghost use Rattle.aql_plan.specs.Plan as plan;

use crate::mapped::{Mapped, RowMap};
use crate::surroundings::Surroundings;
use crate::values::values_in;
use aql_block::Block;
use aql_tree::Expr;
use aql_value::OutOfMemory;
use std::alloc::Global;

/// LET as an executor.
pub type Calculation = Mapped<Let>;

/// Sets a variable in each row to the value of an expression. The expression has no subquery: that
/// is asked where rows are made, as `Fits` of its node.
#[derive(Drop)]
pub struct Let {
    pub var: u32,
    pub expr: Expr,
}

impl<W: Surroundings> RowMap<W> for Let {
    ghost use Rattle.aql_exec.specs.RowMaps.{let_maps};

    ghost node = { λ s. plan.Calculation (Num s.var) (tree s.expr) };

    ghost image = { λ s row. bind (Num s.var) row (value_of (tree s.expr) row) };

    fn map(&self, alloc: Global, _world: &W, block: Block) -> Result<Block, OutOfMemory> {
        let values = values_in(alloc, &self.expr, &block)?;
        let mut block = block;
        block.set(self.var, values)?;
        Ok(block)
    }

    ghost maps = { λ s w start rows. let_maps (Num s.var) (tree s.expr) w start rows };
}
