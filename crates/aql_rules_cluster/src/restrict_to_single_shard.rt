//! A fragment whose lowest node finds documents of one shard alone runs on this shard alone.

ghost use Rattle.std.specs.Prelude.{◌≡◌, [], IfOk, option_map};
ghost use Rattle.aql_plan.specs.Refines.{Refines};
ghost use Rattle.aql_plan.specs.View.{node_tree, plan_tree};
ghost use Rattle.aql_plan.specs.WellFormed.{IsWellFormed};
ghost use Rattle.aql_rewrite.specs.Places.{IsPass};
ghost use Rattle.aql_rewrite.specs.Swaps.{SetsNoMore};
ghost use Rattle.aql_rules_cluster.specs.OnShards.{ReadsOnShards};
ghost use Rattle.aql_rules_cluster.specs.RestrictToSingleShard.{Restricts};
ghost use Rattle.aql_rules_cluster.specs.inner.KeyItems.{IsFound};
ghost use Rattle.aql_rules_cluster.specs.inner.SingleShards.{NarrowsAt};

use crate::bottoms::{bottom_of, set_foot};
use crate::cluster_pass::{ClusterRule, run_cluster_pass};
use crate::single_shards::{narrower_foot, none_of_none};
use aql_plan::{Facts, Node, Passed, Plan, Uses};
use aql_rewrite::{Rule, Swap};
use aql_value::OutOfMemory;
use std::alloc::Global;

// The foot of one shard that may stand for the foot of the fragment below a Gather.
fn narrower_at(alloc: Global, plan: &Plan, facts: &Facts) -> Result<Option<Node>, OutOfMemory>
    ensures { IfOk result (λ found.
        IsFound (NarrowsAt facts.now (plan_tree plan.now)) (option_map node_tree found)) }
{
    if !none_of_none(plan) {
        return Ok(None);
    }
    let Some(bottom) = bottom_of(plan) else {
        return Ok(None);
    };
    let found = narrower_foot(alloc, bottom.lowest, bottom.foot, facts)?;
    Ok(found)
}

/// The rule restrict-to-single-shard.
#[derive(Clone, Copy, Drop)]
pub struct RestrictToSingleShard;

impl Rule for RestrictToSingleShard {
    ghost use Rattle.std.specs.Prelude.{true};
    ghost use Rattle.aql_rewrite.specs.Sums.{total};
    ghost use Rattle.aql_rules_cluster.specs.OpenFeet.{open_foot};
    ghost use Rattle.aql_rules_cluster.specs.RestrictToSingleShard.{Restricts};
    ghost use Rattle.aql_rules_cluster.specs.laws.Narrowed.{restricts_refine};
    ghost use Rattle.aql_rules_cluster.specs.laws.RestrictPlaces.{restricts_fall, restricts_keep};

    ghost rewrites = { λ _ facts. Restricts facts };

    ghost fragments = { λ _. true };

    ghost measure = { λ _. total open_foot };

    fn at(
        &self,
        alloc: Global,
        part: &Plan,
        _above: &[Uses],
        facts: &Facts,
    ) -> Result<Option<Swap>, OutOfMemory> {
        let Some(foot) = narrower_at(alloc, part, facts)? else {
            return Ok(None);
        };
        let mut part = part.copy(alloc)?;
        set_foot(&mut part, foot);
        Ok(Some(Swap { part, rename: None }))
    }

    ghost refines = { λ _ facts _ _ us p q r _ h. restricts_refine facts us p q r h };

    ghost keeps = { λ _ facts outer away us p q r placed h.
        restricts_keep facts outer away us p q r placed h };

    ghost falls = { λ _ facts p q r whole h. restricts_fall facts p q r whole h };
}

impl ClusterRule for RestrictToSingleShard {
    ghost use Rattle.aql_rules_cluster.specs.laws.Passing.{restrict_to_single_shard};

    type Memory = Global;

    type Failure = OutOfMemory;

    fn rewrite(
        &self,
        alloc: Global,
        part: Plan,
        facts: &Facts,
        changed: &mut bool,
    ) -> Result<Plan, OutOfMemory> {
        let Some(foot) = narrower_at(alloc, &part, facts)? else {
            return Ok(part);
        };
        *changed = true;
        let mut part = part;
        set_foot(&mut part, foot);
        Ok(part)
    }

    ghost for_cluster = { λ _ facts. restrict_to_single_shard facts };
}

/// The plan after restrict-to-single-shard was applied at its first place again and again, until it
/// has none: without servers the plan as it is. What the rule puts into a plan has no place of its
/// own, so each node is looked at once.
pub fn run_restrict_pass(alloc: Global, plan: Plan, facts: &Facts) -> Result<Passed, OutOfMemory>
    requires { IsWellFormed facts.now [] (plan_tree plan) }
    ensures passed { IfOk result
        (λ x. IsPass (Restricts facts.now) (plan_tree plan) (plan_tree x.plan) x.changed) }
    ensures refines { IfOk result (λ x. Refines facts.now (plan_tree x.plan) (plan_tree plan)) }
    ensures well_formed { IfOk result (λ x. IsWellFormed facts.now [] (plan_tree x.plan)) }
    ensures sets { IfOk result (λ x. SetsNoMore (plan_tree plan) (plan_tree x.plan)) }
    ensures on_shards { IfOk result (λ x. ReadsOnShards facts.now (plan_tree plan)
        → ReadsOnShards facts.now (plan_tree x.plan)) }
    ensures alone { IfOk result
        (λ x. facts.now.servers ≡ 0 → plan_tree x.plan ≡ plan_tree plan) }
{
    run_cluster_pass(alloc, &RestrictToSingleShard, plan, facts)
}
