//! The pass of a rule on expressions: the plan from its lowest node up, each node's expressions one
//! after another, and a body with its node. No node is copied, and an expression without a place
//! only where it stands beside one that changes.

ghost use Rattle.std.specs.Prelude.{false, IfOk, OnOk, map, option_map, unwrap_or};
ghost use Rattle.aql_tree.specs.View.{tree};
ghost use Rattle.aql_plan.specs.Refines.{Refines};
ghost use Rattle.aql_plan.specs.Shapes.{HasNoFragment};
ghost use Rattle.aql_plan.specs.View.{plan_tree, node_tree};
ghost use Rattle.aql_rewrite.specs.NodeExprs.{node_exprs};
ghost use Rattle.aql_rewrite.specs.Places.{IsPass};
ghost use Rattle.aql_rewrite.specs.Placed.{IsWhole};
ghost use Rattle.aql_rewrite.specs.Swaps.{SetsNoMore};
ghost use Rattle.aql_passes.specs.AtExprs.{AtExprs};
ghost use Rattle.aql_passes.specs.inner.Ends.{AllEnd, ExprsEnd, PlanEnds};

use crate::exprs::all_to_end;
use aql_plan::{Facts, Node, Passed, Plan};
use aql_rewrite::{ExprRule, exprs_of, set_exprs};
use aql_tree::Expr;
use aql_value::OutOfMemory;
use std::alloc::Global;
use std::collections::VecDeque;

// A node's expressions with the rule applied until they have no place; `None` where they stay as
// they are.
fn ended_exprs<R: ExprRule>(
    alloc: Global,
    rule: &R,
    node: &Node,
    changed: &mut bool,
) -> Result<Option<VecDeque<Expr>>, OutOfMemory>
    ensures { IfOk result (λ new. AllEnd (R.rewrites rule.now) (node_exprs (node_tree node.now))
        (unwrap_or (option_map (λ q. map tree q.items) new) (node_exprs (node_tree node.now)))
        changed.old changed.new) }
{
    let all = exprs_of(alloc, node)?;
    all_to_end(alloc, rule, &all, changed)
}

// The same where they stand. It is not inlined, so that a recursion through a long plan has small
// frames.
#[inline(never)]
fn exprs_to_end<R: ExprRule>(
    alloc: Global,
    rule: &R,
    node: &mut Node,
    changed: &mut bool,
) -> Result<(), OutOfMemory>
    ensures { OnOk result (ExprsEnd (R.rewrites rule.now) (node_tree node.old)
        (node_tree node.new) changed.old changed.new) }
{
    match ended_exprs(alloc, rule, node, changed)? {
        Some(mut queue) => {
            set_exprs(node, &mut queue);
            Ok(())
        }
        None => Ok(()),
    }
}

// Applies the rule until the plan has no place.
fn to_end<R: ExprRule>(
    alloc: Global,
    rule: &R,
    plan: &mut Plan,
    changed: &mut bool,
) -> Result<(), OutOfMemory>
    requires { HasNoFragment (plan_tree plan.old) }
    ensures { OnOk result (PlanEnds (R.rewrites rule.now) (plan_tree plan.old)
        (plan_tree plan.new) changed.old changed.new) }
{
    match plan {
        Plan::Singleton => Ok(()),
        Plan::Over { below, node } => {
            to_end(alloc, rule, &mut **below, changed)?;
            exprs_to_end(alloc, rule, &mut **node, changed)
        }
        Plan::Subquery { below, body, .. } => {
            to_end(alloc, rule, &mut **below, changed)?;
            to_end(alloc, rule, &mut **body, changed)
        }
    }
}

/// The plan after the rule was applied at its first place again and again, until it has none: at
/// the first of the plan's expressions where it applies. What a rule makes of an expression depends
/// on nothing around it, so the pass goes on from the place that it rewrote. It is one for plans
/// without fragments.
pub fn run_expr_pass<R: ExprRule>(
    alloc: Global,
    rule: &R,
    plan: Plan,
    facts: &Facts,
) -> Result<Passed, OutOfMemory>
    requires { IsWhole false facts.now (plan_tree plan) }
    ensures passed { IfOk result (λ x. IsPass (AtExprs (R.rewrites rule.now))
        (plan_tree plan) (plan_tree x.plan) x.changed) }
    ensures refines { IfOk result (λ x. Refines facts.now (plan_tree x.plan) (plan_tree plan)) }
    ensures whole { IfOk result (λ x. IsWhole false facts.now (plan_tree x.plan)) }
    ensures sets { IfOk result (λ x. SetsNoMore (plan_tree plan) (plan_tree x.plan)) }
{
    let mut plan = plan;
    let mut changed = false;
    to_end(alloc, rule, &mut plan, &mut changed)?;
    Ok(Passed { plan, changed })
}
