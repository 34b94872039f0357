//! A Sort over a Gather sorts on the shards, and the Gather merges by its keys what they give.

ghost use Rattle.std.specs.Prelude.{◌≡◌, [], IfOk};
ghost use Rattle.aql_plan.specs.Refines.{Refines};
ghost use Rattle.aql_plan.specs.View.{plan_tree};
ghost use Rattle.aql_plan.specs.WellFormed.{IsWellFormed};
ghost use Rattle.aql_rewrite.specs.Places.{IsPass};
ghost use Rattle.aql_rewrite.specs.Swaps.{SetsNoMore};
ghost use Rattle.aql_rules_cluster.specs.DistributeSortToCluster.{SortsInside};
ghost use Rattle.aql_rules_cluster.specs.OnShards.{ReadsOnShards};

use crate::cluster_pass::{ClusterRule, run_cluster_pass};
use crate::sortings::{sorted_inside, sorting_of};
use aql_plan::{Facts, Passed, Plan, Uses};
use aql_rewrite::{Rule, Swap};
use aql_value::OutOfMemory;
use std::alloc::Global;

/// The rule distribute-sort-to-cluster.
#[derive(Clone, Copy, Drop)]
pub struct DistributeSortToCluster;

impl Rule for DistributeSortToCluster {
    ghost use Rattle.std.specs.Prelude.{true, false};
    ghost use Rattle.aql_rules_cluster.specs.DistributeSortToCluster.{SortsInside};
    ghost use Rattle.aql_rules_cluster.specs.SortsOutside.{sorts_outside};
    ghost use Rattle.aql_rules_cluster.specs.laws.SortPlaces.{sorts_fall};
    ghost use Rattle.aql_rules_cluster.specs.laws.SortsOnShards.{sorts_refine};
    ghost use Rattle.aql_rules_cluster.specs.laws.SortsStayWell.{sorts_keep};

    ghost rewrites = { λ _ facts. SortsInside facts };

    ghost fragments = { λ _. true };

    ghost measure = { λ _. sorts_outside false };

    fn at(
        &self,
        alloc: Global,
        part: &Plan,
        _above: &[Uses],
        _facts: &Facts,
    ) -> Result<Option<Swap>, OutOfMemory> {
        let Some(sorting) = sorting_of(alloc, part)? else {
            return Ok(None);
        };
        let part = part.copy(alloc)?;
        let part = sorted_inside(alloc, part, sorting)?;
        Ok(Some(Swap { part, rename: None }))
    }

    ghost refines = { λ _ facts _ _ us p q r _ h. sorts_refine facts us p q r h };

    ghost keeps = { λ _ facts outer away us p q r placed h.
        sorts_keep facts outer away us p q r placed h };

    ghost falls = { λ _ facts p q r whole h. sorts_fall facts p q r whole h };
}

impl ClusterRule for DistributeSortToCluster {
    ghost use Rattle.aql_rules_cluster.specs.laws.Passing.{distribute_sort};

    type Memory = Global;

    type Failure = OutOfMemory;

    fn rewrite(
        &self,
        alloc: Global,
        part: Plan,
        _facts: &Facts,
        changed: &mut bool,
    ) -> Result<Plan, OutOfMemory> {
        let Some(sorting) = sorting_of(alloc, &part)? else {
            return Ok(part);
        };
        *changed = true;
        sorted_inside(alloc, part, sorting)
    }

    ghost for_cluster = { λ _ facts. distribute_sort facts };
}

/// The plan after distribute-sort-to-cluster was applied at its first place again and again, until
/// it has none: without servers the plan as it is. What the rule puts into a plan has no place of
/// its own, so each node is looked at once.
pub fn run_sort_pass(alloc: Global, plan: Plan, facts: &Facts) -> Result<Passed, OutOfMemory>
    requires { IsWellFormed facts.now [] (plan_tree plan) }
    ensures passed { IfOk result
        (λ x. IsPass (SortsInside facts.now) (plan_tree plan) (plan_tree x.plan) x.changed) }
    ensures refines { IfOk result (λ x. Refines facts.now (plan_tree x.plan) (plan_tree plan)) }
    ensures well_formed { IfOk result (λ x. IsWellFormed facts.now [] (plan_tree x.plan)) }
    ensures sets { IfOk result (λ x. SetsNoMore (plan_tree plan) (plan_tree x.plan)) }
    ensures on_shards { IfOk result (λ x. ReadsOnShards facts.now (plan_tree plan)
        → ReadsOnShards facts.now (plan_tree x.plan)) }
    ensures alone { IfOk result
        (λ x. facts.now.servers ≡ 0 → plan_tree x.plan ≡ plan_tree plan) }
{
    run_cluster_pass(alloc, &DistributeSortToCluster, plan, facts)
}
