//! The bottom of a fragment: its lowest node, over a link, and the foot below. The same fragment
//! over another foot.

ghost use Rattle.std.specs.Prelude.{◌≡◌, option_map};
ghost use Rattle.aql_plan.specs.Plan.{top};
ghost use Rattle.aql_plan.specs.View.{node_tree, plan_tree};
ghost use Rattle.aql_rules_cluster.specs.FragmentParts.{is_above_foot as spec_is_above_foot};
ghost use Rattle.aql_rules_cluster.specs.FragmentParts.{is_foot as spec_is_foot};
ghost use Rattle.aql_rules_cluster.specs.inner.Bottoms.{bottom, bottom_view, gathered_bottom};
ghost use Rattle.aql_rules_cluster.specs.inner.Bottoms.{reads_here as spec_reads_here};
ghost use Rattle.aql_rules_cluster.specs.inner.Bottoms.{sent_bottom as spec_sent_bottom};
ghost use Rattle.aql_rules_cluster.specs.inner.Bottoms.{sent_foot as spec_sent_foot, with_foot};

use crate::fragments::{is_gather, is_link};
use aql_plan::{Node, Plan};
use aql_value::CollNo;

/// The lowest node of a fragment, and its foot with all that is below.
#[derive(Clone, Copy, Drop)]
pub(crate) struct Bottom<'a> {
    pub lowest: &'a Node,
    pub foot: &'a Plan,
}

fn node_is_foot(node: &Node) -> bool
    ensures { result ≡ spec_is_foot (node_tree node.now) }
{
    matches!(node, Node::Scatter { .. } | Node::Distribute { .. })
}

/// Whether the top node of a plan is the foot of a fragment.
pub(crate) fn is_foot(plan: &Plan) -> bool
    ensures { result ≡ spec_is_foot (top (plan_tree plan.now)) }
{
    match plan {
        Plan::Over { node, .. } => node_is_foot(node),
        _ => false,
    }
}

/// Whether a node may stand above the foot of a fragment.
pub(crate) fn is_above_foot(node: &Node) -> bool
    ensures { result ≡ spec_is_above_foot (node_tree node.now) }
{
    !node_is_foot(node) && !is_gather(node)
}

/// The foot that a plan is the link of; `None` exactly where it is none.
pub(crate) fn sent_foot(plan: &Plan) -> Option<&Plan>
    ensures { option_map (λ c. plan_tree c.now) result ≡ spec_sent_foot (plan_tree plan.now) }
{
    match plan {
        Plan::Over { below, node } => {
            if is_link(node) && is_foot(below) {
                Some(below)
            } else {
                None
            }
        }
        _ => None,
    }
}

// The bottom of a fragment.
#[cycle(fragment_bottom)]
fn fragment_bottom(plan: &Plan) -> Option<Bottom<'_>>
    ensures { option_map bottom_view result ≡ bottom (plan_tree plan.now) }
{
    match plan {
        Plan::Over { below, node } => {
            if !is_above_foot(node) {
                return None;
            }
            match sent_foot(below) {
                Some(foot) => Some(Bottom { lowest: node, foot }),
                None => fragment_bottom(below),
            }
        }
        _ => None,
    }
}

fn sent_bottom(plan: &Plan) -> Option<Bottom<'_>>
    ensures { option_map bottom_view result ≡ spec_sent_bottom (plan_tree plan.now) }
{
    match plan {
        Plan::Over { below, node } => {
            if !is_link(node) {
                return None;
            }
            fragment_bottom(below)
        }
        _ => None,
    }
}

/// The bottom of the fragment below a Gather over a link; `None` exactly where there is no such
/// fragment, with a node over the link of a foot.
pub(crate) fn bottom_of(plan: &Plan) -> Option<Bottom<'_>>
    ensures { option_map bottom_view result ≡ gathered_bottom (plan_tree plan.now) }
{
    match plan {
        Plan::Over { below, node } => {
            if !is_gather(node) {
                return None;
            }
            sent_bottom(below)
        }
        _ => None,
    }
}

/// Whether a node reads this collection, on the shard of its fragment.
pub(crate) fn reads_here(node: &Node, of: CollNo) -> bool
    ensures { result ≡ spec_reads_here of.0 (node_tree node.now) }
{
    match node {
        Node::EnumerateCollection { coll, shard, .. } | Node::Index { coll, shard, .. } => {
            coll.0 == of.0 && shard.is_none()
        }
        _ => false,
    }
}

/// Another node as the foot of a fragment, over what the old one was over.
#[cycle(set_foot)]
pub(crate) fn set_foot(plan: &mut Plan, foot: Node)
    ensures { plan_tree plan.new ≡ with_foot (node_tree foot) (plan_tree plan.old) }
{
    match plan {
        Plan::Singleton => {}
        Plan::Over { below, node } => {
            if node_is_foot(node) {
                **node = foot;
            } else {
                set_foot(below, foot);
            }
        }
        Plan::Subquery { below, .. } => set_foot(below, foot),
    }
}
