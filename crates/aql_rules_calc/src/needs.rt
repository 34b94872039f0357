//! Whether a node uses a variable of its input's rows.

ghost use Rattle.std.specs.Prelude.{◌≡◌, ◌||◌, cond, IfOk};
ghost use Rattle.aql_tree.specs.declared.syntax.Ident.TheVariants.{Num};
ghost use Rattle.aql_meaning.specs.Uses.{Uses as spec_Uses, is_used as spec_is_used};
ghost use Rattle.aql_plan.specs.Needs.{needs};
ghost use Rattle.aql_plan.specs.Plan.{top};
ghost use Rattle.aql_plan.specs.View.{plan_tree};
ghost use Rattle.aql_rewrite.specs.Nodes.{uses_alone, gives_new_rows as spec_gives_new_rows};
ghost use Rattle.aql_rewrite.specs.Nodes.{is_collect as spec_is_collect};

use aql_plan::{Plan, add_own_uses};
use aql_rewrite::{gives_new_rows, is_collect, is_used};
use aql_value::{OutOfMemory, Seq};
use std::alloc::Global;

// Whether a node's input needs a variable, by whether the node uses it, and the nodes above.
fn input_needs(node: &Plan, own: bool, above: bool) -> bool
    ensures { result
        ≡ cond (spec_gives_new_rows (top (plan_tree node.now))) own (own || above) }
{
    if gives_new_rows(node) {
        return own;
    }
    own || above
}

// Whether a plan needs a variable of its start row, by whether its input does, and the nodes above.
fn start_needs(node: &Plan, below: bool, above: bool) -> bool
    ensures { result ≡ cond (spec_is_collect (top (plan_tree node.now))) (below || above) below }
{
    if is_collect(node) {
        return below || above;
    }
    below
}

/// Whether the expressions of a node use a variable, or its body needs it.
#[cycle(needs)]
pub(crate) fn node_uses(alloc: Global, node: &Plan, var: u32) -> Result<bool, OutOfMemory>
    ensures { IfOk result
        (λ used. used ≡ spec_is_used (Num var) (uses_alone (top (plan_tree node.now)))) }
{
    match node.body() {
        Some(body) => plan_needs(alloc, body, var, var == 0),
        None => {
            let mut own = Seq::new(alloc);
            add_own_uses(node, alloc, &mut own)?;
            let mut all = Vec::new(alloc);
            all.push(own)?;
            Ok(is_used(var, &all))
        }
    }
}

// Whether a plan uses a variable of its start row, where `above` tells whether the nodes above use
// this variable of the plan's rows.
#[cycle(needs)]
fn plan_needs(alloc: Global, plan: &Plan, var: u32, above: bool) -> Result<bool, OutOfMemory>
    ensures { IfOk result (λ needed. (us : spec_Uses) → above ≡ spec_is_used (Num var) us
        → needed ≡ spec_is_used (Num var) (needs (plan_tree plan.now) us)) }
{
    match plan.below() {
        None => Ok(above),
        Some(below) => {
            let own = node_uses(alloc, plan, var)?;
            let used = input_needs(plan, own, above);
            let needed = plan_needs(alloc, below, var, used)?;
            Ok(start_needs(plan, needed, above))
        }
    }
}
