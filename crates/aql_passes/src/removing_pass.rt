//! The pass of a rule that takes nodes away and renames above: the plan from its lowest node up.
//! All that is renamed below a node is renamed in it, where it stands, before the rule is tried at
//! it.

ghost use Rattle.std.specs.Prelude.{◌≡◌, false, [], Some, None, IfOk};
ghost use Rattle.aql_plan.specs.Plan.{top};
ghost use Rattle.aql_plan.specs.Refines.{Refines};
ghost use Rattle.aql_plan.specs.View.{plan_tree};
ghost use Rattle.aql_rewrite.specs.Places.{Stays, IsPass};
ghost use Rattle.aql_rewrite.specs.Placed.{IsPlaced, IsWhole};
ghost use Rattle.aql_rewrite.specs.Plain.{NodePlain};
ghost use Rattle.aql_rewrite.specs.Renames.{over_each};
ghost use Rattle.aql_rewrite.specs.Swaps.{SetsNoMore};
ghost use Rattle.aql_passes.specs.inner.Removed.{Removes, NoPlaceUnder};

use aql_plan::{Facts, Passed, Plan};
use aql_rewrite::{
    RemovingRule, Rename, has_body, is_start, rename_top, replace_below, replace_body, with_below,
    with_body,
};
use aql_value::OutOfMemory;
use std::alloc::Global;

// A node over another input, with renamings one after another in it; where there is none, the node
// itself.
fn renamed_over(
    alloc: Global,
    node: Plan,
    below: Plan,
    renames: &[Rename],
) -> Result<Plan, OutOfMemory>
    requires { NodePlain (top (plan_tree node)) }
    ensures { IfOk result (λ p. plan_tree p
        ≡ over_each renames.now (plan_tree node) (plan_tree below)) }
{
    let mut part = with_below(node, below);
    if renames.is_empty() {
        return Ok(part);
    }
    rename_top(alloc, &mut part, renames)?;
    Ok(part)
}

// The part with the rule applied until it has no place, and what is renamed above it.
#[cycle(settle)]
fn settle<R: RemovingRule>(
    alloc: Global,
    rule: &R,
    plan: Plan,
    facts: &Facts,
    renames: &mut Vec<Rename>,
    changed: &mut bool,
) -> Result<Plan, OutOfMemory>
    requires placed { IsPlaced false false facts.now [] (plan_tree plan) }
    requires none { renames.old.items ≡ [] }
    ensures { IfOk result (λ p. Removes (R.rewrites rule.now facts.now) (plan_tree plan)
        (plan_tree p) renames.new.items changed.old changed.new) }
{
    if is_start(&plan) {
        return Ok(plan);
    }
    let mut node = plan;
    let below = replace_below(&mut node, Plan::Singleton);
    let below = settle(alloc, rule, below, facts, renames, changed)?;
    let part = renamed_over(alloc, node, below, renames.as_slice())?;
    match rule.removal(&part, facts) {
        None => settle_body(alloc, rule, part, facts, changed),
        Some(rename) => {
            *changed = true;
            renames.push(rename)?;
            let mut node = part;
            Ok(replace_below(&mut node, Plan::Singleton))
        }
    }
}

// The same of a part whose top node stays over an input without a place. What is renamed in a body
// is renamed nowhere else.
#[cycle(settle)]
fn settle_body<R: RemovingRule>(
    alloc: Global,
    rule: &R,
    part: Plan,
    facts: &Facts,
    changed: &mut bool,
) -> Result<Plan, OutOfMemory>
    requires placed { IsPlaced false false facts.now [] (plan_tree part) }
    requires input { NoPlaceUnder (R.rewrites rule.now facts.now) (plan_tree part) }
    requires stays { Stays (R.rewrites rule.now facts.now) [] (plan_tree part) }
    ensures { IfOk result (λ p. Removes (R.rewrites rule.now facts.now) (plan_tree part)
        (plan_tree p) [] changed.old changed.new) }
{
    if !has_body(&part) {
        return Ok(part);
    }
    let mut node = part;
    let mut renames = Vec::new(alloc);
    let body = replace_body(&mut node, Plan::Singleton);
    let body = settle(alloc, rule, body, facts, &mut renames, changed)?;
    Ok(with_body(node, body))
}

/// The plan after the rule was applied at its first place again and again, until it has none. Below
/// a part that was rewritten nothing changes, so the pass goes on above it.
pub fn run_removing_pass<R: RemovingRule>(
    alloc: Global,
    rule: &R,
    plan: Plan,
    facts: &Facts,
) -> Result<Passed, OutOfMemory>
    requires { IsWhole false facts.now (plan_tree plan) }
    ensures passed { IfOk result (λ x. IsPass (R.rewrites rule.now facts.now)
        (plan_tree plan) (plan_tree x.plan) x.changed) }
    ensures refines { IfOk result (λ x. Refines facts.now (plan_tree x.plan) (plan_tree plan)) }
    ensures whole { IfOk result (λ x. IsWhole false facts.now (plan_tree x.plan)) }
    ensures sets { IfOk result (λ x. SetsNoMore (plan_tree plan) (plan_tree x.plan)) }
{
    let mut renames = Vec::new(alloc);
    let mut changed = false;
    let plan = settle(alloc, rule, plan, facts, &mut renames, &mut changed)?;
    Ok(Passed { plan, changed })
}
