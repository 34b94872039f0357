//! What the search asks of nodes.

ghost use Rattle.std.specs.Prelude.{◌≡◌, ◌++◌, OnOk, IfOk};
ghost use Rattle.aql_plan.specs.Above.{input_inside as spec_input_inside};
ghost use Rattle.aql_plan.specs.Needs.{needs, under};
ghost use Rattle.aql_plan.specs.Plan.{Over, top};
ghost use Rattle.aql_plan.specs.View.{plan_tree, node_tree};
ghost use Rattle.aql_plan.specs.Used.{uses_tree};
ghost use Rattle.aql_rewrite.specs.Nodes.{uses_alone, gives_new_rows as spec_gives_new_rows};
ghost use Rattle.aql_rewrite.specs.Nodes.{is_collect as spec_is_collect};
ghost use Rattle.aql_rewrite.specs.View.{above_uses};

use crate::above::{add_above, only, result_uses};
use aql_plan::{Node, Plan, Uses, add_own_uses};
use aql_value::{OutOfMemory, Seq};
use std::alloc::Global;

fn node_input_inside(node: &Node, inside: bool) -> bool
    ensures { result ≡ spec_input_inside (node_tree node.now) inside }
{
    match node {
        Node::Gather { .. } => true,
        Node::Scatter { .. } | Node::Distribute { .. } => false,
        _ => inside,
    }
}

/// Whether the input of a node stands in a fragment, where `inside` tells it of the node.
pub(crate) fn input_inside(plan: &Plan, inside: bool) -> bool
    ensures { result ≡ spec_input_inside (top (plan_tree plan.now)) inside }
{
    match plan {
        Plan::Over { node, .. } => node_input_inside(node, inside),
        _ => inside,
    }
}

fn node_gives_new_rows(node: &Node) -> bool
    ensures { result ≡ spec_gives_new_rows (node_tree node.now) }
{
    matches!(node, Node::Collect { .. } | Node::Return { .. })
}

/// Whether a node makes new rows, in which nothing of its input's rows is left.
pub fn gives_new_rows(plan: &Plan) -> bool
    ensures { result ≡ spec_gives_new_rows (top (plan_tree plan.now)) }
{
    match plan {
        Plan::Over { node, .. } => node_gives_new_rows(node),
        _ => false,
    }
}

fn node_is_collect(node: &Node) -> bool
    ensures { result ≡ spec_is_collect (node_tree node.now) }
{
    matches!(node, Node::Collect { .. })
}

/// Whether a node is a Collect.
pub fn is_collect(plan: &Plan) -> bool
    ensures { result ≡ spec_is_collect (top (plan_tree plan.now)) }
{
    match plan {
        Plan::Over { node, .. } => node_is_collect(node),
        _ => false,
    }
}

/// What a node uses of its input by itself: what its expressions use, or what its body needs.
#[cycle(needs)]
pub fn uses_of(node: &Plan, alloc: Global) -> Result<Uses, OutOfMemory>
    ensures { IfOk result (λ own. uses_tree own ≡ uses_alone (top (plan_tree node.now))) }
{
    let mut own = Seq::new(alloc);
    match node.body() {
        Some(body) => {
            let mut above = result_uses(alloc)?;
            add_needs(body, &mut above, alloc, &mut own)?;
            Ok(own)
        }
        None => {
            add_own_uses(node, alloc, &mut own)?;
            Ok(own)
        }
    }
}

/// Appends what is used of the start row of a plan.
#[cycle(needs)]
fn add_needs(
    plan: &Plan,
    above: &mut Vec<Uses>,
    alloc: Global,
    to: &mut Uses,
) -> Result<(), OutOfMemory>
    ensures needs { OnOk result (uses_tree to.new
        ≡ uses_tree to.old ++ needs (plan_tree plan.now) (above_uses above.old.items)) }
    ensures kept { OnOk result (above.new.items ≡ above.old.items) }
{
    match plan.below() {
        None => add_above(above.as_slice(), alloc, to),
        Some(below) => {
            add_needs_below(plan, below, above, alloc, to)?;
            if is_collect(plan) {
                return add_above(above.as_slice(), alloc, to);
            }
            Ok(())
        }
    }
}

/// The same of the input of its top node.
#[cycle(needs)]
fn add_needs_below(
    plan: &Plan,
    below: &Plan,
    above: &mut Vec<Uses>,
    alloc: Global,
    to: &mut Uses,
) -> Result<(), OutOfMemory>
    requires { plan_tree plan.now ≡ Over (plan_tree below.now) (top (plan_tree plan.now)) }
    ensures needs { OnOk result (uses_tree to.new ≡ uses_tree to.old
        ++ needs (plan_tree below.now) (under (top (plan_tree plan.now))
        (above_uses above.old.items))) }
    ensures kept { OnOk result (above.new.items ≡ above.old.items) }
{
    let own = uses_of(plan, alloc)?;
    if gives_new_rows(plan) {
        let mut alone = only(alloc, own)?;
        return add_needs(below, &mut alone, alloc, to);
    }
    let held = above.len();
    above.push(own)?;
    add_needs(below, above, alloc, to)?;
    above.truncate(held);
    Ok(())
}
