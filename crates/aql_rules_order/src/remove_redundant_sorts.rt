//! A Sort goes where nothing is left of its order.

ghost use Rattle.std.specs.Prelude.{◌≡◌, ◌↔◌, IsTrue, IfOk};
ghost use Rattle.aql_plan.specs.Nodes.{over};
ghost use Rattle.aql_plan.specs.Plan.{top};
ghost use Rattle.aql_plan.specs.View.{node_tree, plan_tree, key_trees};
ghost use Rattle.aql_rewrite.specs.Constant.{AreConstant};
ghost use Rattle.aql_rewrite.specs.Children.{list_children};
ghost use Rattle.aql_rules_order.specs.Readers.{Becomes, InputBecomes};
ghost use Rattle.aql_rules_order.specs.RemoveRedundantSorts.{IsIdle, WithoutSort};
ghost use Rattle.aql_rules_order.specs.RemoveRedundantSorts.{goes_by_row as spec_goes_by_row};
ghost use Rattle.aql_rules_order.specs.RemoveRedundantSorts.{ignores_order as spec_ignores_order};

use crate::readers::is_open_sort;
use aql_plan::{Facts, Node, Plan, Uses};
use aql_rewrite::{PartRule, Rule, Swap, is_constant, replace_below};
use aql_tree::Key;
use aql_value::OutOfMemory;
use std::alloc::Global;

fn are_constant(alloc: Global, keys: &[Key]) -> Result<bool, OutOfMemory>
    ensures { IfOk result
        (λ answer. IsTrue answer ↔ AreConstant (list_children (key_trees keys.now))) }
{
    for key in keys {
        if !is_constant(alloc, &key.expr)? {
            return Ok(false);
        }
    }
    Ok(true)
}

fn node_is_idle(alloc: Global, node: &Node) -> Result<bool, OutOfMemory>
    ensures { IfOk result (λ answer. IsTrue answer ↔ IsIdle (node_tree node.now)) }
{
    match node {
        Node::Sort { keys, limit: None } => are_constant(alloc, keys.as_slice()),
        _ => Ok(false),
    }
}

// Whether a node is a Sort without limit that may give its rows in any order.
fn is_idle(alloc: Global, plan: &Plan) -> Result<bool, OutOfMemory>
    ensures { IfOk result (λ answer. IsTrue answer ↔ IsIdle (top (plan_tree plan.now))) }
{
    match plan {
        Plan::Over { node, .. } => node_is_idle(alloc, node),
        _ => Ok(false),
    }
}

fn node_goes_by_row(node: &Node) -> bool
    ensures { result ≡ spec_goes_by_row (node_tree node.now) }
{
    matches!(
        node,
        Node::Calculation { .. } | Node::Filter { .. } | Node::EnumerateList { .. }
    )
}

fn goes_by_row(plan: &Plan) -> bool
    ensures { result ≡ spec_goes_by_row (top (plan_tree plan.now)) }
{
    match plan {
        Plan::Singleton => false,
        Plan::Over { node, .. } => node_goes_by_row(node),
        Plan::Subquery { .. } => true,
    }
}

fn node_ignores_order(node: &Node) -> bool
    ensures { result ≡ spec_ignores_order (node_tree node.now) }
{
    matches!(
        node,
        Node::Sort { .. }
            | Node::Collect { .. }
            | Node::EnumerateCollection { .. }
            | Node::Traversal { .. }
    )
}

fn ignores_order(plan: &Plan) -> bool
    ensures { result ≡ spec_ignores_order (top (plan_tree plan.now)) }
{
    match plan {
        Plan::Over { node, .. } => node_ignores_order(node),
        _ => false,
    }
}

// Takes the top node of a plan away.
fn remove_top(plan: &mut Plan)
    ensures { plan_tree plan.old ≡ over (plan_tree plan.old) (plan_tree plan.new) }
{
    let below = replace_below(plan, Plan::Singleton);
    *plan = below;
}

// Takes away the Sort that stands at the top of a plan, or below nodes that go by row; `false`
// exactly where there is none.
#[cycle(remove)]
fn remove_sort(plan: &mut Plan) -> bool
    ensures { Becomes WithoutSort (plan_tree plan.old) (plan_tree plan.new) result }
{
    if is_open_sort(plan) {
        remove_top(plan);
        return true;
    }
    if !goes_by_row(plan) {
        return false;
    }
    remove_sort_below(plan)
}

// The same of the input of a node.
#[cycle(remove)]
fn remove_sort_below(plan: &mut Plan) -> bool
    ensures { InputBecomes WithoutSort (plan_tree plan.old) (plan_tree plan.new) result }
{
    match plan {
        Plan::Singleton => false,
        Plan::Over { below, .. } => remove_sort(&mut **below),
        Plan::Subquery { below, .. } => remove_sort(&mut **below),
    }
}

/// The rule remove-redundant-sorts. A Sort that may go by itself, as its keys are constant, goes
/// before one that stands below it.
#[derive(Clone, Copy, Drop)]
pub struct RemoveRedundantSorts;

impl Rule for RemoveRedundantSorts {
    ghost use Rattle.std.specs.Prelude.{false};
    ghost use Rattle.aql_plan.specs.Nodes.{weight};
    ghost use Rattle.aql_rules_order.specs.RemoveRedundantSorts.{Unsorts};
    ghost use Rattle.aql_rules_order.specs.laws.SortsRemoved.{unsorts_refine, unsorts_keep, unsorts_fall};

    ghost rewrites = { λ _ _. Unsorts };

    ghost fragments = { λ _. false };

    ghost measure = { λ _. weight };

    fn at(
        &self,
        alloc: Global,
        part: &Plan,
        above: &[Uses],
        facts: &Facts,
    ) -> Result<Option<Swap>, OutOfMemory> {
        let mut part = part.copy(alloc)?;
        if self.rewrite(alloc, &mut part, above, facts)? {
            return Ok(Some(Swap { part, rename: None }));
        }
        Ok(None)
    }

    ghost refines = { λ _ facts outer away us p q r placed h.
        unsorts_refine facts outer away us p q r placed h };

    ghost keeps = { λ _ facts outer away us p q r placed h.
        unsorts_keep facts outer away us p q r placed h };

    ghost falls = { λ _ facts p q r whole h. unsorts_fall facts p q r whole h };
}

impl PartRule for RemoveRedundantSorts {
    ghost use Rattle.std.specs.Prelude.{refl, false};
    ghost use Rattle.aql_rules_order.specs.laws.SortsRemoved.{nothing};
    ghost use Rattle.aql_rules_order.specs.laws.SortsRemoved.{unsorts_blind, unsorts_nameless, unsorts_shrink};

    ghost looks = { λ _. false };

    fn rewrite(
        &self,
        alloc: Global,
        part: &mut Plan,
        _above: &[Uses],
        _facts: &Facts,
    ) -> Result<bool, OutOfMemory> {
        if is_idle(alloc, part)? {
            remove_top(part);
            return Ok(true);
        }
        if !ignores_order(part) {
            return Ok(false);
        }
        Ok(remove_sort_below(part))
    }

    fn looks_above(&self) -> bool {
        false
    }

    ghost blind = { λ _ e facts us vs p q r h. unsorts_blind us vs p q r h };

    ghost lone = { λ _. refl };

    ghost nameless = { λ _ _ us p q r h. unsorts_nameless us p q r h };

    ghost size = { λ _. nothing };

    ghost lowers = { λ _ _ us p q r h. unsorts_shrink us p q r h };
}
