//! Whether a plan is well formed: the shape of one with a result, what its nodes need, and what is
//! known of the collections.
#![tactic(auto)]

mod aggregates;
mod bounds;
mod collections;
mod equality;
mod fits;
mod found;
mod plain;
mod plan_shape;
mod rows;
mod sets;
mod shapes;
mod standing;
mod uses;

ghost use Rattle.std.specs.Prelude.{[], ◌↔◌, IfOk, IsTrue};
ghost use Rattle.aql_plan.specs.View.{plan_tree};
ghost use Rattle.aql_plan.specs.WellFormed.{IsWellFormed};

use crate::sets::{no_duplicates, sets_numbers};
use crate::uses::result_finds;
use aql_plan::{Facts, Plan};
use aql_value::OutOfMemory;
pub use collections::collections_fit;
use indexmap::IndexSet;
pub use plan_shape::has_result;
use std::alloc::Global;

/// Whether a query's plan is well formed where this is known of the collections.
pub fn well_formed(alloc: Global, plan: &Plan, facts: &Facts) -> Result<bool, OutOfMemory>
    ensures { IfOk result
        (λ answer. IsTrue answer ↔ IsWellFormed facts.now [] (plan_tree plan.now)) }
{
    if !collections_fit(facts.collections.as_slice()) {
        return Ok(false);
    }
    if !has_result(plan, facts) {
        return Ok(false);
    }
    if !sets_numbers(plan) {
        return Ok(false);
    }
    let vars = plan.vars_set(alloc)?;
    if !no_duplicates(alloc, vars.as_slice())? {
        return Ok(false);
    }
    result_finds(plan, &mut IndexSet::new(alloc))
}
