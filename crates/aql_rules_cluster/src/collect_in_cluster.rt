//! A Collect over a Gather becomes one in two stages: each shard groups its own rows, and a final
//! stage joins the groups of all shards.

ghost use Rattle.std.specs.Prelude.{◌≡◌, [], IfOk};
ghost use Rattle.aql_plan.specs.Refines.{Refines};
ghost use Rattle.aql_plan.specs.View.{plan_tree};
ghost use Rattle.aql_plan.specs.WellFormed.{IsWellFormed};
ghost use Rattle.aql_rewrite.specs.Places.{IsPass};
ghost use Rattle.aql_rewrite.specs.Swaps.{SetsNoMore};
ghost use Rattle.aql_rules_cluster.specs.CollectInCluster.{CollectsInside};
ghost use Rattle.aql_rules_cluster.specs.OnShards.{ReadsOnShards};

use crate::cluster_pass::{ClusterRule, run_cluster_pass};
use crate::groupings::{grouped_inside, grouping_of};
use aql_plan::{Facts, Passed, Plan, Uses};
use aql_rewrite::{Rule, Swap};
use aql_value::OutOfMemory;
use std::alloc::Global;

/// The rule collect-in-cluster.
#[derive(Clone, Copy, Drop)]
pub struct CollectInCluster;

impl Rule for CollectInCluster {
    ghost use Rattle.std.specs.Prelude.{true, false};
    ghost use Rattle.aql_rules_cluster.specs.CollectInCluster.{CollectsInside};
    ghost use Rattle.aql_rules_cluster.specs.CollectsOutside.{collects_outside};
    ghost use Rattle.aql_rules_cluster.specs.laws.CollectPlaces.{collects_fall};
    ghost use Rattle.aql_rules_cluster.specs.laws.CollectsOnShards.{collects_refine};
    ghost use Rattle.aql_rules_cluster.specs.laws.CollectsStayWell.{collects_keep};

    ghost rewrites = { λ _ facts. CollectsInside facts };

    ghost fragments = { λ _. true };

    ghost measure = { λ _. collects_outside false };

    fn at(
        &self,
        alloc: Global,
        part: &Plan,
        _above: &[Uses],
        _facts: &Facts,
    ) -> Result<Option<Swap>, OutOfMemory> {
        let Some(grouping) = grouping_of(alloc, part)? else {
            return Ok(None);
        };
        let part = part.copy(alloc)?;
        let part = grouped_inside(alloc, part, grouping)?;
        Ok(Some(Swap { part, rename: None }))
    }

    ghost refines = { λ _ facts outer away us p q r placed h.
        collects_refine facts outer away us p q r placed h };

    ghost keeps = { λ _ facts outer away us p q r placed h.
        collects_keep facts outer away us p q r placed h };

    ghost falls = { λ _ facts p q r whole h. collects_fall facts p q r whole h };
}

impl ClusterRule for CollectInCluster {
    ghost use Rattle.aql_rules_cluster.specs.laws.Passing.{collect_in_cluster};

    type Memory = Global;

    type Failure = OutOfMemory;

    fn rewrite(
        &self,
        alloc: Global,
        part: Plan,
        _facts: &Facts,
        changed: &mut bool,
    ) -> Result<Plan, OutOfMemory> {
        let Some(grouping) = grouping_of(alloc, &part)? else {
            return Ok(part);
        };
        *changed = true;
        grouped_inside(alloc, part, grouping)
    }

    ghost for_cluster = { λ _ facts. collect_in_cluster facts };
}

/// The plan after collect-in-cluster was applied at its first place again and again, until it has
/// none: without servers the plan as it is. What the rule puts into a plan has no place of its own,
/// so each node is looked at once.
pub fn run_collect_pass(alloc: Global, plan: Plan, facts: &Facts) -> Result<Passed, OutOfMemory>
    requires { IsWellFormed facts.now [] (plan_tree plan) }
    ensures passed { IfOk result
        (λ x. IsPass (CollectsInside facts.now) (plan_tree plan) (plan_tree x.plan) x.changed) }
    ensures refines { IfOk result (λ x. Refines facts.now (plan_tree x.plan) (plan_tree plan)) }
    ensures well_formed { IfOk result (λ x. IsWellFormed facts.now [] (plan_tree x.plan)) }
    ensures sets { IfOk result (λ x. SetsNoMore (plan_tree plan) (plan_tree x.plan)) }
    ensures on_shards { IfOk result (λ x. ReadsOnShards facts.now (plan_tree plan)
        → ReadsOnShards facts.now (plan_tree x.plan)) }
    ensures alone { IfOk result
        (λ x. facts.now.servers ≡ 0 → plan_tree x.plan ≡ plan_tree plan) }
{
    run_cluster_pass(alloc, &CollectInCluster, plan, facts)
}
