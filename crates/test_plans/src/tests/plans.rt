//! Plans by words.

use crate::tests::facts::facts;
use crate::tests::nodes::node;
use aql_plan::Plan;
use aql_plan_check::well_formed;
use aql_value::OutOfMemory;
use std::alloc::Global;

/// The plan of these words, the lowest node first.
pub fn plan(alloc: Global, words: &str) -> Result<Plan, OutOfMemory> {
    plan_over(alloc, words, Plan::Singleton)
}

/// The nodes of these words over a plan, the lowest first.
pub fn plan_over(alloc: Global, words: &str, below: Plan) -> Result<Plan, OutOfMemory> {
    let mut plan = below;
    for word in words.split(' ') {
        plan = node(alloc, word.as_bytes(), plan)?;
    }
    Ok(plan)
}

/// Whether the plan of these words is well formed.
pub fn is_well_formed(alloc: Global, words: &str) -> Result<bool, OutOfMemory> {
    let plan = plan(alloc, words)?;
    well_formed(alloc, &plan, &facts(alloc, 2, b"k", 3)?)
}

/// Whether a plan is well formed where the first collection has these shards, keys and widths.
pub fn fits_facts(
    alloc: Global,
    shards: u32,
    keys: &[u8],
    widths: usize,
) -> Result<bool, OutOfMemory> {
    let plan = plan(alloc, "R_-")?;
    well_formed(alloc, &plan, &facts(alloc, shards, keys, widths)?)
}
