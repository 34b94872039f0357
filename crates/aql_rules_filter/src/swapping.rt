//! Which variables are used, and with which nodes a Filter may swap places.

ghost use Rattle.std.specs.Prelude.{◌≡◌, ◌++◌, ◌&&◌, IfOk, OnOk, option_map, option_to_list};
ghost use Rattle.aql_tree.specs.declared.syntax.Ident.TheVariants.{Num};
ghost use Rattle.aql_tree.specs.View.{tree, maybe};
ghost use Rattle.aql_meaning.specs.Uses.{uses, maybe_uses};
ghost use Rattle.aql_plan.specs.Needs.{sets};
ghost use Rattle.aql_plan.specs.Plan.{top};
ghost use Rattle.aql_plan.specs.View.{node_tree, plan_tree};
ghost use Rattle.aql_plan.specs.Used.{uses_tree};
ghost use Rattle.aql_rewrite.specs.View.{above_uses};
ghost use Rattle.aql_rules_filter.specs.MoveFiltersUp.{may_swap as spec_may_swap, none_used};
ghost use Rattle.aql_rules_filter.specs.OptimizeTraversals.{tests_use, is_gone as spec_is_gone};

use aql_plan::{Node, Plan, Uses, add_uses};
use aql_rewrite::is_used;
use aql_tree::Expr;
use aql_value::{OutOfMemory, Seq};
use std::alloc::Global;

/// What a condition uses, as one list.
pub(crate) fn uses_of(alloc: Global, cond: &Expr) -> Result<Vec<Uses>, OutOfMemory>
    ensures { IfOk result (λ used. above_uses used.items ≡ uses (tree cond.now)) }
{
    let mut own = Seq::new(alloc);
    add_uses(cond, alloc, &mut own)?;
    let mut used = Vec::new(alloc);
    used.push(own)?;
    Ok(used)
}

/// Whether a variable that may be missing is not used.
pub(crate) fn is_unused(var: Option<u32>, used: &[Uses]) -> bool
    ensures { result
        ≡ none_used (option_to_list (option_map (λ x. Num x) var)) (above_uses used.now) }
{
    match var {
        Some(var) => !is_used(var, used),
        None => true,
    }
}

fn node_may_swap(node: &Node, used: &[Uses]) -> bool
    ensures { result ≡ (spec_may_swap (node_tree node.now)
        && none_used (sets (node_tree node.now)) (above_uses used.now)) }
{
    match node {
        Node::EnumerateCollection { var, .. } => !is_used(*var, used),
        Node::EnumerateList { var, .. } => !is_used(*var, used),
        Node::Traversal {
            vertex,
            edge,
            path,
            ..
        } => !is_used(*vertex, used) && is_unused(*edge, used) && is_unused(*path, used),
        Node::Calculation { var, .. } => !is_used(*var, used),
        Node::Sort { limit: None, .. } => true,
        _ => false,
    }
}

/// Whether a Filter may swap places with a node that stands below it, by what its condition uses.
pub(crate) fn may_swap(node: &Plan, used: &[Uses]) -> bool
    ensures { result ≡ (spec_may_swap (top (plan_tree node.now))
        && none_used (sets (top (plan_tree node.now))) (above_uses used.now)) }
{
    match node {
        Plan::Singleton => false,
        Plan::Over { node, .. } => node_may_swap(node, used),
        Plan::Subquery { var, .. } => !is_used(*var, used),
    }
}

// Appends what a test uses that may be missing.
fn add_test_uses(test: &Option<Expr>, alloc: Global, to: &mut Uses) -> Result<(), OutOfMemory>
    ensures { OnOk result
        (uses_tree to.new ≡ uses_tree to.old ++ maybe_uses (maybe (option_map tree test.now))) }
{
    match test {
        Some(test) => add_uses(test, alloc, to),
        None => Ok(()),
    }
}

/// What the PRUNE and the filter of a Traversal use, as one list.
pub(crate) fn test_uses(
    alloc: Global,
    prune: &Option<Expr>,
    filter: &Option<Expr>,
) -> Result<Vec<Uses>, OutOfMemory>
    ensures { IfOk result (λ used. above_uses used.items ≡ tests_use
        (maybe (option_map tree prune.now)) (maybe (option_map tree filter.now))) }
{
    let mut own = Seq::new(alloc);
    add_test_uses(prune, alloc, &mut own)?;
    add_test_uses(filter, alloc, &mut own)?;
    let mut used = Vec::new(alloc);
    used.push(own)?;
    Ok(used)
}

/// Whether there is a variable that neither of two lists uses.
pub(crate) fn is_gone(var: Option<u32>, above: &[Uses], own: &[Uses]) -> bool
    ensures { result ≡ spec_is_gone (option_map (λ x. Num x) var) (above_uses above.now)
        (above_uses own.now) }
{
    match var {
        Some(var) => !is_used(var, above) && !is_used(var, own),
        None => false,
    }
}
