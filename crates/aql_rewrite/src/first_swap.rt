//! The search for the first place.

ghost use Rattle.std.specs.Prelude.{◌≡◌, false, OnOk, IfOk, MatchOption};
ghost use Rattle.aql_plan.specs.Plan.{Over, top};
ghost use Rattle.aql_plan.specs.View.{plan_tree};
ghost use Rattle.aql_rewrite.specs.Nodes.{over_renamed as spec_over_renamed};
ghost use Rattle.aql_rewrite.specs.Places.{NoPlace, First};
ghost use Rattle.aql_rewrite.specs.Placed.{IsPlaced};
ghost use Rattle.aql_rewrite.specs.InputPlaces.{NoPlaceBelow, FirstBelow, NoPlaceHere, FirstHere};
ghost use Rattle.aql_rewrite.specs.View.{above_uses};

use crate::above::{only, result_uses};
use crate::nodes::{gives_new_rows, input_inside, uses_of};
use crate::renaming::over_renamed;
use crate::rule::Rule;
use crate::swap::Swap;
use aql_plan::{Facts, Plan, Uses};
use aql_value::OutOfMemory;
use std::alloc::Global;

/// The plan after one application at its first place; `None` exactly where there is no place.
/// `inside` tells whether the plan stands in a fragment, whose nodes are no places.
#[cycle(swap_first)]
pub(crate) fn swap_first<R: Rule>(
    alloc: Global,
    rule: &R,
    plan: &Plan,
    above: &mut Vec<Uses>,
    inside: bool,
    facts: &Facts,
) -> Result<Option<Swap>, OutOfMemory>
    requires { IsPlaced (R.fragments rule.now) inside facts.now (above_uses above.old.items)
        (plan_tree plan.now) }
    ensures found { IfOk result (λ o. MatchOption o
        (NoPlace (R.rewrites rule.now facts.now) inside (above_uses above.old.items)
        (plan_tree plan.now))
        (λ s. First (R.rewrites rule.now facts.now) inside (above_uses above.old.items)
        (plan_tree plan.now) (plan_tree s.part) s.rename)) }
    ensures kept { OnOk result (above.new.items ≡ above.old.items) }
{
    match plan.below() {
        None => Ok(None),
        Some(below) => match swap_first_below(alloc, rule, plan, below, above, inside, facts)? {
            Some(swap) => {
                let part = over_renamed(alloc, plan, swap.part, &swap.rename)?;
                Ok(Some(Swap {
                    part,
                    rename: swap.rename,
                }))
            }
            None => {
                if inside {
                    return Ok(None);
                }
                swap_here(alloc, rule, plan, above.as_slice(), facts)
            }
        },
    }
}

/// The same for the input of the plan's top node.
#[cycle(swap_first)]
fn swap_first_below<R: Rule>(
    alloc: Global,
    rule: &R,
    plan: &Plan,
    below: &Plan,
    above: &mut Vec<Uses>,
    inside: bool,
    facts: &Facts,
) -> Result<Option<Swap>, OutOfMemory>
    requires is_input { plan_tree plan.now ≡ Over (plan_tree below.now) (top (plan_tree plan.now)) }
    requires placed { IsPlaced (R.fragments rule.now) inside facts.now (above_uses above.old.items)
        (plan_tree plan.now) }
    ensures found { IfOk result (λ o. MatchOption o
        (NoPlaceBelow (R.rewrites rule.now facts.now) inside (above_uses above.old.items)
        (plan_tree plan.now) (plan_tree below.now))
        (λ s. FirstBelow (R.rewrites rule.now facts.now) inside (above_uses above.old.items)
        (plan_tree plan.now) (plan_tree below.now) (plan_tree s.part) s.rename)) }
    ensures kept { OnOk result (above.new.items ≡ above.old.items) }
{
    let own = uses_of(plan, alloc)?;
    let within = input_inside(plan, inside);
    if gives_new_rows(plan) {
        let mut alone = only(alloc, own)?;
        return swap_first(alloc, rule, below, &mut alone, within, facts);
    }
    let held = above.len();
    above.push(own)?;
    let found = swap_first(alloc, rule, below, above, within, facts)?;
    above.truncate(held);
    Ok(found)
}

/// The part after one application at its top node, or else at the first place in the body of this;
/// `None` exactly where neither is a place. The part stands in no fragment, and `above` is what the
/// nodes above use of its rows. Where the input has no place, this is the first place.
#[cycle(swap_first)]
fn swap_here<R: Rule>(
    alloc: Global,
    rule: &R,
    plan: &Plan,
    above: &[Uses],
    facts: &Facts,
) -> Result<Option<Swap>, OutOfMemory>
    requires { IsPlaced (R.fragments rule.now) false facts.now (above_uses above.now)
        (plan_tree plan.now) }
    ensures { IfOk result (λ o. MatchOption o
        (NoPlaceHere (R.rewrites rule.now facts.now) (above_uses above.now) (plan_tree plan.now))
        (λ s. FirstHere (R.rewrites rule.now facts.now) (above_uses above.now)
        (plan_tree plan.now) (plan_tree s.part) s.rename)) }
{
    match rule.at(alloc, plan, above, facts)? {
        Some(swap) => Ok(Some(swap)),
        None => match plan.body() {
            None => Ok(None),
            Some(body) => {
                let mut results = result_uses(alloc)?;
                match swap_first(alloc, rule, body, &mut results, false, facts)? {
                    None => Ok(None),
                    Some(swap) => {
                        let part = plan.with_body(alloc, swap.part)?;
                        Ok(Some(Swap { part, rename: None }))
                    }
                }
            }
        },
    }
}
