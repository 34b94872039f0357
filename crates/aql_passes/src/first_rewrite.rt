//! One application of a rule that renames nothing, at its first place, where the plan stands. No
//! node is copied, and what the nodes above use is found only for a rule that looks at it.

ghost use Rattle.std.specs.Prelude.{◌≡◌, false, OnOk, IfOk};
ghost use Rattle.aql_plan.specs.Needs.{under};
ghost use Rattle.aql_plan.specs.Plan.{Over, top};
ghost use Rattle.aql_plan.specs.View.{plan_tree};
ghost use Rattle.aql_rewrite.specs.Placed.{IsPlaced};
ghost use Rattle.aql_rewrite.specs.View.{above_uses};
ghost use Rattle.aql_passes.specs.inner.Finished.{IsRewritten, IsRewrittenHere};

use aql_plan::{Facts, Plan, Uses};
use aql_rewrite::{
    PartRule, gives_new_rows, has_body, is_start, only, replace_below, replace_body, result_uses,
    uses_of,
};
use aql_value::OutOfMemory;
use std::alloc::Global;

// One application at the first place of a plan; `false` exactly where it has none.
#[cycle(rewrite)]
fn rewrite_first<R: PartRule>(
    alloc: Global,
    rule: &R,
    plan: &mut Plan,
    above: &mut Vec<Uses>,
    facts: &Facts,
) -> Result<bool, OutOfMemory>
    requires { IsPlaced false false facts.now (above_uses above.old.items) (plan_tree plan.old) }
    ensures rewritten { IfOk result (IsRewritten (R.rewrites rule.now facts.now)
        (above_uses above.old.items) (plan_tree plan.old) (plan_tree plan.new)) }
    ensures kept { OnOk result (above.new.items ≡ above.old.items) }
{
    if is_start(plan) {
        return Ok(false);
    }
    let mut below = replace_below(plan, Plan::Singleton);
    let found = rewrite_below(alloc, rule, plan, &mut below, above, facts)?;
    replace_below(plan, below);
    if found {
        return Ok(true);
    }
    rewrite_here(alloc, rule, plan, above.as_slice(), facts)
}

// The same of the input that a node had.
#[cycle(rewrite)]
fn rewrite_below<R: PartRule>(
    alloc: Global,
    rule: &R,
    node: &Plan,
    below: &mut Plan,
    above: &mut Vec<Uses>,
    facts: &Facts,
) -> Result<bool, OutOfMemory>
    requires { IsPlaced false false facts.now (above_uses above.old.items)
        (Over (plan_tree below.old) (top (plan_tree node.now))) }
    ensures rewritten { IfOk result (IsRewritten (R.rewrites rule.now facts.now)
        (under (top (plan_tree node.now)) (above_uses above.old.items)) (plan_tree below.old)
        (plan_tree below.new)) }
    ensures kept { OnOk result (above.new.items ≡ above.old.items) }
{
    if !rule.looks_above() {
        let mut unseen = Vec::new(alloc);
        return rewrite_first(alloc, rule, below, &mut unseen, facts);
    }
    let own = uses_of(node, alloc)?;
    if gives_new_rows(node) {
        let mut alone = only(alloc, own)?;
        return rewrite_first(alloc, rule, below, &mut alone, facts);
    }
    let held = above.len();
    above.push(own)?;
    let found = rewrite_first(alloc, rule, below, above, facts)?;
    above.truncate(held);
    Ok(found)
}

// One application at the top node of a part, or else at the first place in its body; `false`
// exactly where neither is a place. Where the input has none, this is the first place.
#[cycle(rewrite)]
pub(crate) fn rewrite_here<R: PartRule>(
    alloc: Global,
    rule: &R,
    part: &mut Plan,
    above: &[Uses],
    facts: &Facts,
) -> Result<bool, OutOfMemory>
    requires { IsPlaced false false facts.now (above_uses above.now) (plan_tree part.old) }
    ensures { IfOk result (IsRewrittenHere (R.rewrites rule.now facts.now) (above_uses above.now)
        (plan_tree part.old) (plan_tree part.new)) }
{
    if rule.rewrite(alloc, part, above, facts)? {
        return Ok(true);
    }
    if !has_body(part) {
        return Ok(false);
    }
    let mut results = result_uses(alloc)?;
    let mut body = replace_body(part, Plan::Singleton);
    let found = rewrite_first(alloc, rule, &mut body, &mut results, facts)?;
    replace_body(part, body);
    Ok(found)
}
