//! Each node outside fragments that reads a collection reads in a fragment on all of the
//! collection's shards.

ghost use Rattle.std.specs.Prelude.{◌≡◌, [], IfOk};
ghost use Rattle.aql_plan.specs.Refines.{Refines};
ghost use Rattle.aql_plan.specs.View.{plan_tree};
ghost use Rattle.aql_plan.specs.WellFormed.{IsWellFormed};
ghost use Rattle.aql_rewrite.specs.Places.{IsPass};
ghost use Rattle.aql_rewrite.specs.Swaps.{SetsNoMore};
ghost use Rattle.aql_rules_cluster.specs.OnShards.{ReadsOnShards};
ghost use Rattle.aql_rules_cluster.specs.ScatterInCluster.{Scatters};

use crate::cluster_pass::{ClusterRule, run_cluster_pass};
use crate::gathers::{gathering_of, on_all_shards};
use aql_plan::{Facts, Passed, Plan, Uses};
use aql_rewrite::{Rule, Swap};
use aql_value::OutOfMemory;
use std::alloc::Global;

/// The rule scatter-in-cluster.
#[derive(Clone, Copy, Drop)]
pub struct ScatterInCluster;

impl Rule for ScatterInCluster {
    ghost use Rattle.std.specs.Prelude.{true, false};
    ghost use Rattle.aql_rules_cluster.specs.Measures.{readers_outside};
    ghost use Rattle.aql_rules_cluster.specs.ScatterInCluster.{Scatters};
    ghost use Rattle.aql_rules_cluster.specs.laws.Places.{scatters_fall};
    ghost use Rattle.aql_rules_cluster.specs.laws.Scattered.{scatters_refine};
    ghost use Rattle.aql_rules_cluster.specs.laws.StayWell.{scatters_keep};

    ghost rewrites = { λ _ facts. Scatters facts };

    ghost fragments = { λ _. true };

    ghost measure = { λ _. readers_outside false };

    fn at(
        &self,
        alloc: Global,
        part: &Plan,
        _above: &[Uses],
        facts: &Facts,
    ) -> Result<Option<Swap>, OutOfMemory> {
        let Some(gathering) = gathering_of(alloc, part, facts)? else {
            return Ok(None);
        };
        let part = part.copy(alloc)?;
        let part = on_all_shards(alloc, part, gathering)?;
        Ok(Some(Swap { part, rename: None }))
    }

    ghost refines = { λ _ facts outer away us p q r placed h.
        scatters_refine facts outer away us p q r placed h };

    ghost keeps = { λ _ facts outer away us p q r placed h.
        scatters_keep facts outer away us p q r placed h };

    ghost falls = { λ _ facts p q r whole h. scatters_fall facts p q r whole h };
}

impl ClusterRule for ScatterInCluster {
    ghost use Rattle.aql_rules_cluster.specs.laws.Passing.{scatter_in_cluster};

    type Memory = Global;

    type Failure = OutOfMemory;

    fn rewrite(
        &self,
        alloc: Global,
        part: Plan,
        facts: &Facts,
        changed: &mut bool,
    ) -> Result<Plan, OutOfMemory> {
        let Some(gathering) = gathering_of(alloc, &part, facts)? else {
            return Ok(part);
        };
        *changed = true;
        on_all_shards(alloc, part, gathering)
    }

    ghost for_cluster = { λ _ facts. scatter_in_cluster facts };
}

/// The plan after scatter-in-cluster was applied at its first place again and again, until it has
/// none: without servers the plan as it is, else each node that reads a collection stands in a
/// fragment. Nothing that the rule puts into a plan is a place, so each node is looked at once.
pub fn run_scatter_pass(alloc: Global, plan: Plan, facts: &Facts) -> Result<Passed, OutOfMemory>
    requires { IsWellFormed facts.now [] (plan_tree plan) }
    ensures passed { IfOk result
        (λ x. IsPass (Scatters facts.now) (plan_tree plan) (plan_tree x.plan) x.changed) }
    ensures refines { IfOk result (λ x. Refines facts.now (plan_tree x.plan) (plan_tree plan)) }
    ensures well_formed { IfOk result (λ x. IsWellFormed facts.now [] (plan_tree x.plan)) }
    ensures sets { IfOk result (λ x. SetsNoMore (plan_tree plan) (plan_tree x.plan)) }
    ensures on_shards { IfOk result (λ x. ReadsOnShards facts.now (plan_tree x.plan)) }
    ensures alone { IfOk result
        (λ x. facts.now.servers ≡ 0 → plan_tree x.plan ≡ plan_tree plan) }
{
    run_cluster_pass(alloc, &ScatterInCluster, plan, facts)
}
