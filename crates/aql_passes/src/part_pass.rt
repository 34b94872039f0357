//! The pass of a rule that renames nothing: the plan from its lowest node up. Where the rule
//! rewrote a part, the pass goes on with what stands there now. No node is copied, and what the
//! nodes above use is found only for a rule that looks at it.

ghost use Rattle.std.specs.Prelude.{◌≡◌, false, OnOk, IfOk};
ghost use Rattle.aql_plan.specs.Needs.{under};
ghost use Rattle.aql_plan.specs.Plan.{Over, top};
ghost use Rattle.aql_plan.specs.Refines.{Refines};
ghost use Rattle.aql_plan.specs.View.{plan_tree};
ghost use Rattle.aql_rewrite.specs.Places.{IsPass};
ghost use Rattle.aql_rewrite.specs.Placed.{IsPlaced, IsWhole};
ghost use Rattle.aql_rewrite.specs.Swaps.{SetsNoMore};
ghost use Rattle.aql_rewrite.specs.View.{above_uses};
ghost use Rattle.aql_passes.specs.inner.Finished.{Finishes};

use crate::first_rewrite::rewrite_here;
use aql_plan::{Facts, Passed, Plan, Uses};
use aql_rewrite::{
    PartRule, gives_new_rows, is_start, only, replace_below, result_uses, uses_of, with_below,
};
use aql_value::OutOfMemory;
use std::alloc::Global;

// The part with the rule applied until it has no place.
#[cycle(settle)]
fn settle<R: PartRule>(
    alloc: Global,
    rule: &R,
    plan: Plan,
    above: &mut Vec<Uses>,
    facts: &Facts,
    changed: &mut bool,
) -> Result<Plan, OutOfMemory>
    requires { IsPlaced false false facts.now (above_uses above.old.items) (plan_tree plan) }
    ensures finishes { IfOk result (λ p. Finishes (R.rewrites rule.now facts.now)
        (above_uses above.old.items) (plan_tree plan) (plan_tree p) changed.old changed.new) }
    ensures kept { OnOk result (above.new.items ≡ above.old.items) }
{
    if is_start(&plan) {
        return Ok(plan);
    }
    let mut node = plan;
    let below = replace_below(&mut node, Plan::Singleton);
    let below = settle_below(alloc, rule, &node, below, above, facts, changed)?;
    let mut part = with_below(node, below);
    if !rewrite_here(alloc, rule, &mut part, above.as_slice(), facts)? {
        return Ok(part);
    }
    *changed = true;
    settle(alloc, rule, part, above, facts, changed)
}

// The same of the input that a node had.
#[cycle(settle)]
fn settle_below<R: PartRule>(
    alloc: Global,
    rule: &R,
    node: &Plan,
    below: Plan,
    above: &mut Vec<Uses>,
    facts: &Facts,
    changed: &mut bool,
) -> Result<Plan, OutOfMemory>
    requires { IsPlaced false false facts.now (above_uses above.old.items)
        (Over (plan_tree below) (top (plan_tree node.now))) }
    ensures finishes { IfOk result (λ p. Finishes (R.rewrites rule.now facts.now)
        (under (top (plan_tree node.now)) (above_uses above.old.items)) (plan_tree below)
        (plan_tree p) changed.old changed.new) }
    ensures kept { OnOk result (above.new.items ≡ above.old.items) }
{
    if !rule.looks_above() {
        let mut unseen = Vec::new(alloc);
        return settle(alloc, rule, below, &mut unseen, facts, changed);
    }
    let own = uses_of(node, alloc)?;
    if gives_new_rows(node) {
        let mut alone = only(alloc, own)?;
        return settle(alloc, rule, below, &mut alone, facts, changed);
    }
    let held = above.len();
    above.push(own)?;
    let below = settle(alloc, rule, below, above, facts, changed)?;
    above.truncate(held);
    Ok(below)
}

/// The plan after the rule was applied at its first place again and again, until it has none. Below
/// a part that was rewritten nothing else changes, so the pass goes on there.
pub fn run_part_pass<R: PartRule>(
    alloc: Global,
    rule: &R,
    plan: Plan,
    facts: &Facts,
) -> Result<Passed, OutOfMemory>
    requires { IsWhole false facts.now (plan_tree plan) }
    ensures passed { IfOk result (λ x. IsPass (R.rewrites rule.now facts.now)
        (plan_tree plan) (plan_tree x.plan) x.changed) }
    ensures refines { IfOk result (λ x. Refines facts.now (plan_tree x.plan) (plan_tree plan)) }
    ensures whole { IfOk result (λ x. IsWhole false facts.now (plan_tree x.plan)) }
    ensures sets { IfOk result (λ x. SetsNoMore (plan_tree plan) (plan_tree x.plan)) }
{
    let mut above = result_uses(alloc)?;
    let mut changed = false;
    let plan = settle(alloc, rule, plan, &mut above, facts, &mut changed)?;
    Ok(Passed { plan, changed })
}
