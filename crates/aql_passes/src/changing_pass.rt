//! The pass of a rule that changes nothing but the top node of a part: the plan from its lowest
//! node up, each node once. No node is copied, and what the nodes above use is found once.

ghost use Rattle.std.specs.Prelude.{◌≡◌, false, OnOk, IfOk};
ghost use Rattle.aql_plan.specs.Needs.{under};
ghost use Rattle.aql_plan.specs.Plan.{top};
ghost use Rattle.aql_plan.specs.Refines.{Refines};
ghost use Rattle.aql_plan.specs.Shapes.{HasNoFragment};
ghost use Rattle.aql_plan.specs.View.{plan_tree};
ghost use Rattle.aql_rewrite.specs.Places.{IsPass};
ghost use Rattle.aql_rewrite.specs.Placed.{IsWhole};
ghost use Rattle.aql_rewrite.specs.Swaps.{SetsNoMore};
ghost use Rattle.aql_rewrite.specs.View.{above_uses};
ghost use Rattle.aql_passes.specs.inner.Finished.{Finishes};

use aql_plan::{Facts, Passed, Plan, Uses};
use aql_rewrite::{
    ChangingRule, gives_new_rows, has_body, is_start, only, replace_below, replace_body,
    result_uses, uses_of, with_below, with_body,
};
use aql_value::OutOfMemory;
use std::alloc::Global;

// The part with the rule applied until it has no place.
#[cycle(settle)]
fn settle<R: ChangingRule>(
    alloc: Global,
    rule: &R,
    plan: Plan,
    above: &mut Vec<Uses>,
    facts: &Facts,
    changed: &mut bool,
) -> Result<Plan, OutOfMemory>
    requires { HasNoFragment (plan_tree plan) }
    ensures finishes { IfOk result (λ p. Finishes (R.rewrites rule.now facts.now)
        (above_uses above.old.items) (plan_tree plan) (plan_tree p) changed.old changed.new) }
    ensures kept { OnOk result (above.new.items ≡ above.old.items) }
{
    if is_start(&plan) {
        return Ok(plan);
    }
    let mut node = plan;
    let below = replace_below(&mut node, Plan::Singleton);
    let below = settle_below(alloc, rule, &node, below, above, facts, changed)?;
    if has_body(&node) {
        let mut results = result_uses(alloc)?;
        let body = replace_body(&mut node, Plan::Singleton);
        let body = settle(alloc, rule, body, &mut results, facts, changed)?;
        let node = with_body(node, body);
        return Ok(with_below(node, below));
    }
    let mut part = with_below(node, below);
    if !rule.change(alloc, &mut part, above.as_slice(), facts)? {
        return Ok(part);
    }
    *changed = true;
    Ok(part)
}

// The same of the input that a node had.
#[cycle(settle)]
fn settle_below<R: ChangingRule>(
    alloc: Global,
    rule: &R,
    node: &Plan,
    below: Plan,
    above: &mut Vec<Uses>,
    facts: &Facts,
    changed: &mut bool,
) -> Result<Plan, OutOfMemory>
    requires { HasNoFragment (plan_tree below) }
    ensures finishes { IfOk result (λ p. Finishes (R.rewrites rule.now facts.now)
        (under (top (plan_tree node.now)) (above_uses above.old.items)) (plan_tree below)
        (plan_tree p) changed.old changed.new) }
    ensures kept { OnOk result (above.new.items ≡ above.old.items) }
{
    let own = uses_of(node, alloc)?;
    if gives_new_rows(node) {
        let mut alone = only(alloc, own)?;
        return settle(alloc, rule, below, &mut alone, facts, changed);
    }
    let held = above.len();
    above.push(own)?;
    let below = settle(alloc, rule, below, above, facts, changed)?;
    above.truncate(held);
    Ok(below)
}

/// The plan after the rule was applied at its first place again and again, until it has none. A
/// node that was changed uses what it used before, so nothing below it becomes a place.
pub fn run_changing_pass<R: ChangingRule>(
    alloc: Global,
    rule: &R,
    plan: Plan,
    facts: &Facts,
) -> Result<Passed, OutOfMemory>
    requires { IsWhole false facts.now (plan_tree plan) }
    ensures passed { IfOk result (λ x. IsPass (R.rewrites rule.now facts.now)
        (plan_tree plan) (plan_tree x.plan) x.changed) }
    ensures refines { IfOk result (λ x. Refines facts.now (plan_tree x.plan) (plan_tree plan)) }
    ensures whole { IfOk result (λ x. IsWhole false facts.now (plan_tree x.plan)) }
    ensures sets { IfOk result (λ x. SetsNoMore (plan_tree plan) (plan_tree x.plan)) }
{
    let mut above = result_uses(alloc)?;
    let mut changed = false;
    let plan = settle(alloc, rule, plan, &mut above, facts, &mut changed)?;
    Ok(Passed { plan, changed })
}
