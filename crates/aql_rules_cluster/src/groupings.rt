//! Collects over a Gather, and what they become in two stages, the first in the fragment.

ghost use Rattle.std.specs.Prelude.{◌≡◌, true, IfOk, option_map};
ghost use Rattle.aql_plan.specs.View.{node_tree, plan_tree};
ghost use Rattle.aql_rules_cluster.specs.inner.Groupings.{grouping, grouping_by, grouping_tree};
ghost use Rattle.aql_rules_cluster.specs.inner.Groupings.{first_stage as spec_first_stage};
ghost use Rattle.aql_rules_cluster.specs.inner.Groupings.{with_first_stage as spec_with_first_stage};
ghost use Rattle.aql_rules_cluster.specs.inner.Groupings.{IsGroupedInside};

use crate::fragments::{is_gathered, moved_below};
use aql_plan::{Node, Plan, Stage};
use aql_rewrite::replace_below;
use aql_tree::{Aggregates, Lets, copy_aggregates, copy_lets};
use aql_value::{OutOfMemory, Seq};
use std::alloc::Global;

/// The criteria of a Collect with their variables, and its aggregates.
#[derive(Drop)]
pub(crate) struct Grouping {
    pub groups: Lets,
    pub aggregates: Aggregates,
}

fn node_grouping(alloc: Global, node: &Node) -> Result<Option<Grouping>, OutOfMemory>
    ensures { IfOk result
        (λ g. option_map grouping_tree g ≡ grouping_by (node_tree node.now) true) }
{
    match node {
        Node::Collect {
            groups,
            aggregates,
            into: None,
            stage: Stage::Whole,
        } => Ok(Some(Grouping {
            groups: copy_lets(alloc, groups.as_slice())?,
            aggregates: copy_aggregates(alloc, aggregates.as_slice())?,
        })),
        _ => Ok(None),
    }
}

/// How the top node of a plan groups what a Gather below it gives. `None` exactly where the plan is
/// no Collect in one stage, without INTO, over a Gather over a link.
pub(crate) fn grouping_of(alloc: Global, plan: &Plan) -> Result<Option<Grouping>, OutOfMemory>
    ensures { IfOk result (λ g. option_map grouping_tree g ≡ grouping (plan_tree plan.now)) }
{
    match plan {
        Plan::Over { below, node } => {
            if !is_gathered(below) {
                return Ok(None);
            }
            node_grouping(alloc, node)
        }
        _ => Ok(None),
    }
}

// Makes a Collect the first of two stages; another node stays as it is.
fn set_first_stage(node: &mut Node)
    ensures { node_tree node.new ≡ spec_first_stage (node_tree node.old) }
{
    if let Node::Collect { stage, .. } = node {
        *stage = Stage::Partial;
    }
}

// A plan with the Collect at its top as the first of two stages.
fn with_first_stage(plan: Plan) -> Plan
    ensures { plan_tree result ≡ spec_with_first_stage (plan_tree plan) }
{
    let mut plan = plan;
    if let Plan::Over { node, .. } = &mut plan {
        set_first_stage(&mut **node);
    }
    plan
}

/// The Collect over a Gather in two stages: the first in the fragment below it, and the final one
/// over a Gather without keys.
pub(crate) fn grouped_inside(
    alloc: Global,
    plan: Plan,
    grouping: Grouping,
) -> Result<Plan, OutOfMemory>
    ensures { IfOk result
        (λ q. IsGroupedInside (grouping_tree grouping) (plan_tree plan) (plan_tree q)) }
{
    let Grouping { groups, aggregates } = grouping;
    let mut gathered = moved_below(with_first_stage(plan));
    let sent = replace_below(&mut gathered, Plan::Singleton);
    let order = Seq::new(alloc);
    let joined = Node::Gather { order }.over(alloc, sent)?;
    let last = Node::Collect {
        groups,
        aggregates,
        into: None,
        stage: Stage::Final,
    };
    last.over(alloc, joined)
}
