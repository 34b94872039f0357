//! Sorts over a Gather, and what they become in the fragment.

ghost use Rattle.std.specs.Prelude.{◌≡◌, true, IfOk, option_map};
ghost use Rattle.aql_plan.specs.View.{node_tree, plan_tree};
ghost use Rattle.aql_rules_cluster.specs.inner.Sortings.{sorting, sorting_by, sorting_tree};
ghost use Rattle.aql_rules_cluster.specs.inner.Sortings.{IsSortedInside};

use crate::fragments::{is_gathered, moved_below};
use aql_plan::{Node, Plan};
use aql_rewrite::replace_below;
use aql_tree::{Keys, copy_keys};
use aql_value::OutOfMemory;
use std::alloc::Global;

/// The keys of a Sort, and its limit.
#[derive(Drop)]
pub(crate) struct Sorting {
    pub order: Keys,
    pub limit: Option<u64>,
}

fn node_sorting(alloc: Global, node: &Node) -> Result<Option<Sorting>, OutOfMemory>
    ensures { IfOk result
        (λ s. option_map sorting_tree s ≡ sorting_by (node_tree node.now) true) }
{
    match node {
        Node::Sort { keys, limit } => Ok(Some(Sorting {
            order: copy_keys(alloc, keys.as_slice())?,
            limit: *limit,
        })),
        _ => Ok(None),
    }
}

/// How the top node of a plan sorts what a Gather below it gives. `None` exactly where the plan is
/// no Sort over a Gather over a link.
pub(crate) fn sorting_of(alloc: Global, plan: &Plan) -> Result<Option<Sorting>, OutOfMemory>
    ensures { IfOk result (λ s. option_map sorting_tree s ≡ sorting (plan_tree plan.now)) }
{
    match plan {
        Plan::Over { below, node } => {
            if !is_gathered(below) {
                return Ok(None);
            }
            node_sorting(alloc, node)
        }
        _ => Ok(None),
    }
}

/// The Sort over a Gather in the fragment below it, under a Gather by its keys.
pub(crate) fn sorted_inside(
    alloc: Global,
    plan: Plan,
    sorting: Sorting,
) -> Result<Plan, OutOfMemory>
    ensures { IfOk result
        (λ q. IsSortedInside (sorting_tree sorting) (plan_tree plan) (plan_tree q)) }
{
    let Sorting { order, limit } = sorting;
    let mut gathered = moved_below(plan);
    let sent = replace_below(&mut gathered, Plan::Singleton);
    let merged = Node::Gather { order }.over(alloc, sent)?;
    match limit {
        None => Ok(merged),
        Some(count) => Node::Limit { offset: 0, count }.over(alloc, merged),
    }
}
