//! The values that a run gives.

ghost use Rattle.std.specs.Prelude.{◌≡◌, map, IfOk};
ghost use Rattle.aql_plan.specs.Runs.{result_of};
ghost use Rattle.aql_engine.specs.Run.{rows_in};

use aql_block::Block;
use aql_exec_rows::add_results;
use aql_value::{Items, OutOfMemory};
use std::alloc::Global;

/// The results of all rows, in order.
pub fn results_of(alloc: Global, blocks: Vec<Block>) -> Result<Items, OutOfMemory>
    ensures { IfOk result (λ values. values ≡ map result_of (rows_in blocks.items)) }
{
    let mut results = Items::new(alloc);
    for block in blocks {
        add_results(alloc, block, &mut results)?;
    }
    Ok(results)
}
