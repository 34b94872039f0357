//! Where the lowest node of a fragment gives an expression for each shard key, each row goes to the
//! one shard on which it may find documents.

ghost use Rattle.std.specs.Prelude.{◌≡◌, [], IfOk, option_map};
ghost use Rattle.aql_plan.specs.Plan.{top};
ghost use Rattle.aql_plan.specs.Refines.{Refines};
ghost use Rattle.aql_plan.specs.View.{node_tree, plan_tree};
ghost use Rattle.aql_plan.specs.WellFormed.{IsWellFormed};
ghost use Rattle.aql_rewrite.specs.Places.{IsPass};
ghost use Rattle.aql_rewrite.specs.Swaps.{SetsNoMore};
ghost use Rattle.aql_rules_cluster.specs.DistributeInCluster.{Distributes};
ghost use Rattle.aql_rules_cluster.specs.OnShards.{ReadsOnShards};
ghost use Rattle.aql_rules_cluster.specs.inner.Distributions.{scattered as spec_scattered};
ghost use Rattle.aql_rules_cluster.specs.inner.Distributions.{IsDistribution};
ghost use Rattle.aql_rules_cluster.specs.inner.KeyItems.{IsFound};

use crate::bottoms::{bottom_of, reads_here, set_foot};
use crate::cluster_pass::{ClusterRule, run_cluster_pass};
use crate::key_items::{Wanted, key_items};
use aql_plan::{Facts, Node, Passed, Plan, Uses};
use aql_rewrite::{Rule, Swap};
use aql_value::{CollNo, OutOfMemory};
use std::alloc::Global;

/// The rule distribute-in-cluster.
#[derive(Clone, Copy, Drop)]
pub struct DistributeInCluster;

impl Rule for DistributeInCluster {
    ghost use Rattle.std.specs.Prelude.{true, false};
    ghost use Rattle.aql_rules_cluster.specs.DistributeInCluster.{Distributes};
    ghost use Rattle.aql_rules_cluster.specs.ScattersToAll.{scatters_to_all};
    ghost use Rattle.aql_rules_cluster.specs.laws.DistributePlaces.{distributes_fall};
    ghost use Rattle.aql_rules_cluster.specs.laws.DistributeRefines.{distributes_refine};
    ghost use Rattle.aql_rules_cluster.specs.laws.DistributeStaysWell.{distributes_keep};

    ghost rewrites = { λ _ facts. Distributes facts };

    ghost fragments = { λ _. true };

    ghost measure = { λ _. scatters_to_all };

    fn at(
        &self,
        alloc: Global,
        part: &Plan,
        _above: &[Uses],
        facts: &Facts,
    ) -> Result<Option<Swap>, OutOfMemory> {
        let Some(foot) = distribution_of(alloc, part, facts)? else {
            return Ok(None);
        };
        let mut part = part.copy(alloc)?;
        set_foot(&mut part, foot);
        Ok(Some(Swap { part, rename: None }))
    }

    ghost refines = { λ _ facts _ _ us p q r _ h. distributes_refine facts us p q r h };

    ghost keeps = { λ _ facts outer away us p q r placed h.
        distributes_keep facts outer away us p q r placed h };

    ghost falls = { λ _ facts p q r whole h. distributes_fall facts p q r whole h };
}

fn node_scattered(node: &Node) -> Option<CollNo>
    ensures { option_map (λ coll. coll.0) result ≡ spec_scattered (node_tree node.now) }
{
    match node {
        Node::Scatter { coll, only: None } => Some(*coll),
        _ => None,
    }
}

/// The collection of a Scatter to all shards, at the top of a plan.
pub(crate) fn scattered(plan: &Plan) -> Option<CollNo>
    ensures { option_map (λ coll. coll.0) result ≡ spec_scattered (top (plan_tree plan.now)) }
{
    match plan {
        Plan::Over { node, .. } => node_scattered(node),
        _ => None,
    }
}

// The Distribute that may be the foot of the fragment below the top node, in place of a Scatter to
// all shards.
fn distribution_of(alloc: Global, plan: &Plan, facts: &Facts) -> Result<Option<Node>, OutOfMemory>
    ensures { IfOk result (λ foot. IsFound (IsDistribution facts.now (plan_tree plan.now))
        (option_map node_tree foot)) }
{
    let Some(bottom) = bottom_of(plan) else {
        return Ok(None);
    };
    let Some(coll) = scattered(bottom.foot) else {
        return Ok(None);
    };
    if !reads_here(bottom.lowest, coll) {
        return Ok(None);
    }
    let Some(exprs) = key_items(alloc, Wanted::Apart, bottom.lowest, facts)? else {
        return Ok(None);
    };
    Ok(Some(Node::Distribute { coll, exprs }))
}

impl ClusterRule for DistributeInCluster {
    ghost use Rattle.aql_rules_cluster.specs.laws.Passing.{distribute_in_cluster};

    type Memory = Global;

    type Failure = OutOfMemory;

    fn rewrite(
        &self,
        alloc: Global,
        part: Plan,
        facts: &Facts,
        changed: &mut bool,
    ) -> Result<Plan, OutOfMemory> {
        let Some(foot) = distribution_of(alloc, &part, facts)? else {
            return Ok(part);
        };
        *changed = true;
        let mut part = part;
        set_foot(&mut part, foot);
        Ok(part)
    }

    ghost for_cluster = { λ _ facts. distribute_in_cluster facts };
}

/// The plan after distribute-in-cluster was applied at its first place again and again, until it
/// has none: without servers the plan as it is. A fragment over a Distribute is no place, so each
/// Gather is looked at once.
pub fn run_distribute_pass(alloc: Global, plan: Plan, facts: &Facts) -> Result<Passed, OutOfMemory>
    requires { IsWellFormed facts.now [] (plan_tree plan) }
    ensures passed { IfOk result
        (λ x. IsPass (Distributes facts.now) (plan_tree plan) (plan_tree x.plan) x.changed) }
    ensures refines { IfOk result (λ x. Refines facts.now (plan_tree x.plan) (plan_tree plan)) }
    ensures well_formed { IfOk result (λ x. IsWellFormed facts.now [] (plan_tree x.plan)) }
    ensures sets { IfOk result (λ x. SetsNoMore (plan_tree plan) (plan_tree x.plan)) }
    ensures on_shards { IfOk result (λ x. ReadsOnShards facts.now (plan_tree plan)
        → ReadsOnShards facts.now (plan_tree x.plan)) }
    ensures alone { IfOk result
        (λ x. facts.now.servers ≡ 0 → plan_tree x.plan ≡ plan_tree plan) }
{
    run_cluster_pass(alloc, &DistributeInCluster, plan, facts)
}
