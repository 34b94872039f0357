//! A Gather over the link of a fragment, and what goes below them.

ghost use Rattle.std.specs.Prelude.{◌≡◌};
ghost use Rattle.aql_plan.specs.Plan.{top};
ghost use Rattle.aql_plan.specs.View.{node_tree, plan_tree};
ghost use Rattle.aql_rules_cluster.specs.inner.Fragments.{is_gather as spec_is_gather};
ghost use Rattle.aql_rules_cluster.specs.inner.Fragments.{is_gathered as spec_is_gathered};
ghost use Rattle.aql_rules_cluster.specs.inner.Fragments.{is_link as spec_is_link};
ghost use Rattle.aql_rules_cluster.specs.inner.Fragments.{IsMovedBelow};

use aql_plan::{Node, Plan};
use aql_rewrite::{replace_below, with_below};

/// Whether a node is a link.
pub(crate) fn is_link(node: &Node) -> bool
    ensures { result ≡ spec_is_link (node_tree node.now) }
{
    matches!(node, Node::Remote)
}

// Whether the top node of a plan is a link.
fn comes_over_link(plan: &Plan) -> bool
    ensures { result ≡ spec_is_link (top (plan_tree plan.now)) }
{
    match plan {
        Plan::Over { node, .. } => is_link(node),
        _ => false,
    }
}

/// Whether a node is a Gather.
pub(crate) fn is_gather(node: &Node) -> bool
    ensures { result ≡ spec_is_gather (node_tree node.now) }
{
    matches!(node, Node::Gather { .. })
}

/// Whether a plan is a Gather over a link.
pub(crate) fn is_gathered(plan: &Plan) -> bool
    ensures { result ≡ spec_is_gathered (plan_tree plan.now) }
{
    match plan {
        Plan::Over { below, node } => is_gather(node) && comes_over_link(below),
        _ => false,
    }
}

/// The top node of a plan below the next two.
pub(crate) fn moved_below(plan: Plan) -> Plan
    ensures { IsMovedBelow (plan_tree plan) (plan_tree result) }
{
    let mut node = plan;
    let mut gather = replace_below(&mut node, Plan::Singleton);
    let mut link = replace_below(&mut gather, Plan::Singleton);
    let fragment = replace_below(&mut link, Plan::Singleton);
    let moved = with_below(node, fragment);
    let sent = with_below(link, moved);
    with_below(gather, sent)
}
