//! One application of a rule at its first place, and its pass.

ghost use Rattle.std.specs.Prelude.{IfOk};
ghost use Rattle.aql_plan.specs.Refines.{Refines};
ghost use Rattle.aql_plan.specs.View.{plan_tree};
ghost use Rattle.aql_rewrite.specs.Places.{AppliesOnce, IsPass};
ghost use Rattle.aql_rewrite.specs.Placed.{IsWhole};
ghost use Rattle.aql_rewrite.specs.Swaps.{SetsNoMore};

use crate::above::result_uses;
use crate::first_swap::swap_first;
use crate::rule::Rule;
use aql_plan::{Facts, Passed, Plan};
use aql_value::OutOfMemory;
use std::alloc::Global;

/// The plan after one application at the first place of the rule; unchanged exactly where there is
/// no place.
pub fn first_place<R: Rule>(
    alloc: Global,
    rule: &R,
    plan: Plan,
    facts: &Facts,
) -> Result<Passed, OutOfMemory>
    requires { IsWhole (R.fragments rule.now) facts.now (plan_tree plan) }
    ensures stepped { IfOk result (λ x. AppliesOnce (R.rewrites rule.now facts.now)
        (plan_tree plan) (plan_tree x.plan) x.changed) }
    ensures refines { IfOk result (λ x. Refines facts.now (plan_tree x.plan) (plan_tree plan)) }
    ensures whole { IfOk result
        (λ x. IsWhole (R.fragments rule.now) facts.now (plan_tree x.plan)) }
    ensures sets { IfOk result (λ x. SetsNoMore (plan_tree plan) (plan_tree x.plan)) }
{
    let mut above = result_uses(alloc)?;
    match swap_first(alloc, rule, &plan, &mut above, false, facts)? {
        Some(swap) => Ok(Passed {
            plan: swap.part,
            changed: true,
        }),
        None => Ok(Passed {
            plan,
            changed: false,
        }),
    }
}

/// The plan after the rule was applied at its first place again and again, until it has none.
pub fn run_pass<R: Rule>(
    alloc: Global,
    rule: &R,
    plan: Plan,
    facts: &Facts,
) -> Result<Passed, OutOfMemory>
    requires { IsWhole (R.fragments rule.now) facts.now (plan_tree plan) }
    ensures passed { IfOk result (λ x. IsPass (R.rewrites rule.now facts.now)
        (plan_tree plan) (plan_tree x.plan) x.changed) }
    ensures refines { IfOk result (λ x. Refines facts.now (plan_tree x.plan) (plan_tree plan)) }
    ensures whole { IfOk result
        (λ x. IsWhole (R.fragments rule.now) facts.now (plan_tree x.plan)) }
    ensures sets { IfOk result (λ x. SetsNoMore (plan_tree plan) (plan_tree x.plan)) }
{
    let mut plan = plan;
    let mut changed = false;
    loop {
        let step = first_place(alloc, rule, plan, facts)?;
        if !step.changed {
            return Ok(Passed {
                plan: step.plan,
                changed,
            });
        }
        plan = step.plan;
        changed = true;
    }
}
