//! The pass of a rule by which two nodes swap places: the plan from its lowest node up. Each node
//! goes down as far as it may, and then its body has its turn.

ghost use Rattle.std.specs.Prelude.{◌≡◌, false, IfOk};
ghost use Rattle.aql_plan.specs.Nodes.{over};
ghost use Rattle.aql_plan.specs.Plan.{Singleton, Over, top};
ghost use Rattle.aql_plan.specs.Refines.{Refines};
ghost use Rattle.aql_plan.specs.Shapes.{HasNoFragment};
ghost use Rattle.aql_plan.specs.View.{plan_tree};
ghost use Rattle.aql_rewrite.specs.Places.{IsPass};
ghost use Rattle.aql_rewrite.specs.Placed.{IsWhole};
ghost use Rattle.aql_rewrite.specs.Swaps.{SetsNoMore};
ghost use Rattle.aql_passes.specs.inner.Settled.{Settled, Settles};
ghost use Rattle.aql_rewrite.specs.Exchanged.{goes_below as spec_goes_below};

use aql_plan::{Facts, Passed, Plan};
use aql_rewrite::{
    ExchangeRule, has_body, is_start, replace_below, replace_body, with_below, with_body,
};
use aql_value::OutOfMemory;
use std::alloc::Global;

// Whether a node swaps places with the top node of its input.
fn goes_below<R: ExchangeRule>(
    alloc: Global,
    rule: &R,
    node: &Plan,
    below: &Plan,
) -> Result<bool, OutOfMemory>
    ensures { IfOk result (λ b. b
        ≡ spec_goes_below (R.swaps rule.now) (plan_tree below.now) (top (plan_tree node.now))) }
{
    if is_start(below) {
        return Ok(false);
    }
    rule.may_exchange(alloc, node, below)
}

// The plan with the rule applied until it has no place.
#[cycle(settle)]
fn settle<R: ExchangeRule>(
    alloc: Global,
    rule: &R,
    plan: Plan,
    facts: &Facts,
    changed: &mut bool,
) -> Result<Plan, OutOfMemory>
    requires { HasNoFragment (plan_tree plan) }
    ensures { IfOk result (λ p. Settles (R.rewrites rule.now facts.now) (R.swaps rule.now)
        (plan_tree plan) (plan_tree p) changed.old changed.new) }
{
    let mut node = plan;
    if is_start(&node) {
        return Ok(node);
    }
    let below = replace_below(&mut node, Plan::Singleton);
    let below = settle(alloc, rule, below, facts, changed)?;
    sink(alloc, rule, node, below, facts, changed)
}

// The same of a node over an input in which the rule has no place.
#[cycle(settle)]
fn sink<R: ExchangeRule>(
    alloc: Global,
    rule: &R,
    node: Plan,
    below: Plan,
    facts: &Facts,
    changed: &mut bool,
) -> Result<Plan, OutOfMemory>
    requires node { plan_tree node ≡ Over Singleton (top (plan_tree node)) }
    requires lone { HasNoFragment (Over (plan_tree below) (top (plan_tree node))) }
    requires settled { Settled (R.swaps rule.now) (plan_tree below) }
    ensures { IfOk result (λ p. Settles (R.rewrites rule.now facts.now) (R.swaps rule.now)
        (Over (plan_tree below) (top (plan_tree node))) (plan_tree p) changed.old changed.new) }
{
    if !goes_below(alloc, rule, &node, &below)? {
        return settle_body(alloc, rule, node, below, facts, changed);
    }
    *changed = true;
    let mut lower = below;
    let input = replace_below(&mut lower, Plan::Singleton);
    let upper = sink(alloc, rule, node, input, facts, changed)?;
    Ok(with_below(lower, upper))
}

// The same where the node stays over its input.
#[cycle(settle)]
fn settle_body<R: ExchangeRule>(
    alloc: Global,
    rule: &R,
    node: Plan,
    below: Plan,
    facts: &Facts,
    changed: &mut bool,
) -> Result<Plan, OutOfMemory>
    requires node { plan_tree node ≡ Over Singleton (top (plan_tree node)) }
    requires lone { HasNoFragment (Over (plan_tree below) (top (plan_tree node))) }
    requires settled { Settled (R.swaps rule.now) (plan_tree below) }
    requires stays { spec_goes_below (R.swaps rule.now) (plan_tree below) (top (plan_tree node))
        ≡ false }
    ensures { IfOk result (λ p. Settles (R.rewrites rule.now facts.now) (R.swaps rule.now)
        (Over (plan_tree below) (top (plan_tree node))) (plan_tree p) changed.old changed.new) }
{
    if !has_body(&node) {
        return Ok(with_below(node, below));
    }
    let mut node = node;
    let body = replace_body(&mut node, Plan::Singleton);
    let body = settle(alloc, rule, body, facts, changed)?;
    let node = with_body(node, body);
    Ok(with_below(node, below))
}

/// The plan after the rule was applied at its first place again and again, until it has none. What
/// swaps places depends on two nodes alone, so the pass goes on from the place that it rewrote, and
/// no node is copied.
pub fn run_exchange_pass<R: ExchangeRule>(
    alloc: Global,
    rule: &R,
    plan: Plan,
    facts: &Facts,
) -> Result<Passed, OutOfMemory>
    requires { IsWhole false facts.now (plan_tree plan) }
    ensures passed { IfOk result (λ x. IsPass (R.rewrites rule.now facts.now)
        (plan_tree plan) (plan_tree x.plan) x.changed) }
    ensures refines { IfOk result (λ x. Refines facts.now (plan_tree x.plan) (plan_tree plan)) }
    ensures whole { IfOk result (λ x. IsWhole false facts.now (plan_tree x.plan)) }
    ensures sets { IfOk result (λ x. SetsNoMore (plan_tree plan) (plan_tree x.plan)) }
{
    let mut changed = false;
    let plan = settle(alloc, rule, plan, facts, &mut changed)?;
    Ok(Passed { plan, changed })
}
