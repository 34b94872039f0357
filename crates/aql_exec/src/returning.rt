//! RETURN: the value of an expression at each row, under the variable 0.

ghost use Rattle.std.specs.Prelude.{◌≡◌, List, map, false};
ghost use Rattle.aql_tree.specs.View.{tree};
ghost use Rattle.aql_meaning.specs.AtRows.{value_of};
ghost use Rattle.aql_plan.specs.Plan as plan;
ghost use Rattle.aql_plan.specs.Runs.{result_row};

use crate::mapped::{Mapped, RowMap};
use crate::surroundings::Surroundings;
use crate::values::into_values;
use aql_block::Block;
use aql_tree::Expr;
use aql_value::OutOfMemory;
use std::alloc::Global;

/// RETURN without DISTINCT as an executor.
pub type Return = Mapped<Results>;

/// Makes of each row a row of the one variable 0, with the value of an expression. The expression
/// has no subquery: that is asked where rows are made, as `Fits` of its node.
#[derive(Drop)]
pub struct Results {
    pub expr: Expr,
}

impl<W: Surroundings> RowMap<W> for Results {
    ghost use Rattle.aql_exec.specs.RowMaps.{return_maps};

    ghost node = { λ s. plan.Return false (tree s.expr) };

    ghost image = { λ s row. result_row (value_of (tree s.expr) row) };

    fn map(&self, alloc: Global, _world: &W, block: Block) -> Result<Block, OutOfMemory> {
        // a block has fewer than 2^32 rows, so there are no more values
        let _count = block.len();
        let values = into_values(alloc, &self.expr, block)?;
        Block::from_values(alloc, 0, values)
    }

    ghost maps = { λ s w start rows. return_maps (tree s.expr) w start rows };
}
