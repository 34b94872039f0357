//! The lowest node of a fragment on one shard that takes the rows of another such fragment on the
//! same server reads its shard in that one. The links between them go.

ghost use Rattle.std.specs.Prelude.{◌≡◌, []};
ghost use Rattle.aql_plan.specs.Refines.{Refines};
ghost use Rattle.aql_plan.specs.View.{plan_tree};
ghost use Rattle.aql_plan.specs.WellFormed.{IsWellFormed};
ghost use Rattle.aql_rewrite.specs.Places.{IsPass};
ghost use Rattle.aql_rewrite.specs.Swaps.{SetsNoMore};
ghost use Rattle.aql_rules_cluster.specs.OnShards.{ReadsOnShards};
ghost use Rattle.aql_rules_cluster.specs.RemoveUnnecessaryRemoteScatter.{Joins};

use crate::cluster_pass::{ClusterRule, run_cluster_pass};
use crate::joinings::{joined, joining_of};
use aql_plan::{Facts, Passed, Plan, Uses};
use aql_rewrite::{Rule, Swap};
use aql_value::OutOfMemory;
use std::alloc::Global;
use std::convert::Infallible;

/// The rule remove-unnecessary-remote-scatter.
#[derive(Clone, Copy, Drop)]
pub struct RemoveUnnecessaryRemoteScatter;

impl Rule for RemoveUnnecessaryRemoteScatter {
    ghost use Rattle.std.specs.Prelude.{true};
    ghost use Rattle.aql_plan.specs.Nodes.{weight};
    ghost use Rattle.aql_rules_cluster.specs.RemoveUnnecessaryRemoteScatter.{Joins};
    ghost use Rattle.aql_rules_cluster.specs.laws.JoinedPlaces.{joins_fall};
    ghost use Rattle.aql_rules_cluster.specs.laws.JoinedShards.{joins_refine};
    ghost use Rattle.aql_rules_cluster.specs.laws.JoinedWell.{joins_keep};

    ghost rewrites = { λ _ facts. Joins facts };

    ghost fragments = { λ _. true };

    ghost measure = { λ _. weight };

    fn at(
        &self,
        alloc: Global,
        part: &Plan,
        _above: &[Uses],
        facts: &Facts,
    ) -> Result<Option<Swap>, OutOfMemory> {
        let Some(shard) = joining_of(part, facts) else {
            return Ok(None);
        };
        let part = joined(part.copy(alloc)?, shard);
        Ok(Some(Swap { part, rename: None }))
    }

    ghost refines = { λ _ facts outer away us p q r placed h.
        joins_refine facts outer away us p q r placed h };

    ghost keeps = { λ _ facts outer away us p q r placed h.
        joins_keep facts outer away us p q r placed h };

    ghost falls = { λ _ facts p q r whole h. joins_fall facts p q r whole h };
}

impl ClusterRule for RemoveUnnecessaryRemoteScatter {
    ghost use Rattle.aql_rules_cluster.specs.laws.Passing.{remove_remote_scatter};

    type Memory = ();

    type Failure = Infallible;

    fn rewrite(
        &self,
        _memory: (),
        part: Plan,
        facts: &Facts,
        changed: &mut bool,
    ) -> Result<Plan, Infallible> {
        let Some(shard) = joining_of(&part, facts) else {
            return Ok(part);
        };
        *changed = true;
        Ok(joined(part, shard))
    }

    ghost for_cluster = { λ _ facts. remove_remote_scatter facts };
}

/// The plan after remove-unnecessary-remote-scatter was applied at its first place again and again,
/// until it has none: without servers the plan as it is. What goes leaves no place behind, so each
/// node is looked at once.
pub fn run_join_pass(plan: Plan, facts: &Facts) -> Passed
    requires { IsWellFormed facts.now [] (plan_tree plan) }
    ensures passed { IsPass (Joins facts.now) (plan_tree plan) (plan_tree result.plan)
        result.changed }
    ensures refines { Refines facts.now (plan_tree result.plan) (plan_tree plan) }
    ensures well_formed { IsWellFormed facts.now [] (plan_tree result.plan) }
    ensures sets { SetsNoMore (plan_tree plan) (plan_tree result.plan) }
    ensures on_shards { ReadsOnShards facts.now (plan_tree plan)
        → ReadsOnShards facts.now (plan_tree result.plan) }
    ensures alone { facts.now.servers ≡ 0 → plan_tree result.plan ≡ plan_tree plan }
{
    match run_cluster_pass((), &RemoveUnnecessaryRemoteScatter, plan, facts) {
        Ok(passed) => passed,
        Err(never) => match never {},
    }
}
