//! How the fragments of a Gather begin.

ghost use Rattle.std.specs.Prelude.{◌≡◌, ℕ, suc, length, true, Some, slice_get, OnOk};
ghost use Rattle.aql_plan.specs.declared.facts.Facts.{Facts};
ghost use Rattle.aql_block.specs.Rows.{row_of};
ghost use Rattle.aql_exec.specs.Operators.{ports, IsOperator, AreTrees};
ghost use Rattle.aql_exec_fragments.specs.Feeds.{trees_of, SameFeeds};
ghost use Rattle.aql_exec_fragments.specs.Filling.{IsFresh};

use aql_block::Row;
use aql_exec::Surroundings;
use aql_exec_cluster::{Parted, Splits};
use aql_value::OutOfMemory;
use std::alloc::Global;

/// Begins each fragment from a row, over the rows that a Scatter which is filled has for its shard.
pub fn begin_fragments<W: Surroundings, S: Splits<W>, F: Parted<W>>(
    alloc: Global,
    scatter: &S,
    world: &W,
    start: &Row,
    fragments: &mut Vec<F>,
) -> Result<(), OutOfMemory>
    requires valid { S.valid scatter.now world.now }
    requires node { IsOperator (W.stock world.now).facts (S.node scatter.now) }
    requires filled { S.ended scatter.now 0 ≡ true }
    requires ports { ports (S.node scatter.now) ≡ suc (length fragments.old.items) }
    requires trees { (facts : Facts) × AreTrees facts (trees_of F.Feed fragments.old.items) }
    ensures same { SameFeeds F.Feed fragments.old.items fragments.new.items }
    ensures fresh { OnOk result ((k : ℕ) (f : F) → slice_get fragments.new.items k ≡ Some f
        → IsFresh S.Executor F.Feed W.Surroundings scatter.now (W.stock world.now)
        (row_of start.now) k f) }
{
    for at in 0..fragments.len() {
        let part = scatter.part(alloc, world, at)?;
        fragments[at].restart_over(alloc, start, &part)?;
    }
    Ok(())
}
