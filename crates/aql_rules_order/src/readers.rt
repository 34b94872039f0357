//! Sorts without limit.

ghost use Rattle.std.specs.Prelude.{◌≡◌};
ghost use Rattle.aql_plan.specs.Plan.{top};
ghost use Rattle.aql_plan.specs.View.{node_tree, plan_tree};
ghost use Rattle.aql_rules_order.specs.Readers.{is_open_sort as spec_is_open_sort};

use aql_plan::{Node, Plan};

fn node_is_open_sort(node: &Node) -> bool
    ensures { result ≡ spec_is_open_sort (node_tree node.now) }
{
    matches!(node, Node::Sort { limit: None, .. })
}

/// Whether a node is a Sort without limit.
pub(crate) fn is_open_sort(plan: &Plan) -> bool
    ensures { result ≡ spec_is_open_sort (top (plan_tree plan.now)) }
{
    match plan {
        Plan::Over { node, .. } => node_is_open_sort(node),
        _ => false,
    }
}
