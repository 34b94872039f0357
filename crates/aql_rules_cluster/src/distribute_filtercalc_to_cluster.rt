//! Each Filter or Calculation over the Gather of a fragment goes into the fragment, below the link
//! under the Gather.

ghost use Rattle.std.specs.Prelude.{◌≡◌, []};
ghost use Rattle.aql_plan.specs.Refines.{Refines};
ghost use Rattle.aql_plan.specs.View.{node_tree, plan_tree};
ghost use Rattle.aql_plan.specs.WellFormed.{IsWellFormed};
ghost use Rattle.aql_rewrite.specs.Places.{IsPass};
ghost use Rattle.aql_rewrite.specs.Swaps.{SetsNoMore};
ghost use Rattle.aql_rules_cluster.specs.DistributeFiltercalcToCluster.{MovesInside};
ghost use Rattle.aql_rules_cluster.specs.OnShards.{ReadsOnShards};
ghost use Rattle.aql_rules_cluster.specs.inner.FilterParts.{is_filtercalc as spec_is_filtercalc};
ghost use Rattle.aql_rules_cluster.specs.inner.FilterParts.{goes_inside as spec_goes_inside};

use crate::cluster_pass::{ClusterRule, run_cluster_pass};
use crate::fragments::{is_gathered, moved_below};
use aql_plan::{Facts, Node, Passed, Plan, Uses};
use aql_rewrite::{Rule, Swap};
use aql_value::OutOfMemory;
use std::alloc::Global;
use std::convert::Infallible;

/// The rule distribute-filtercalc-to-cluster.
#[derive(Clone, Copy, Drop)]
pub struct DistributeFiltercalcToCluster;

impl Rule for DistributeFiltercalcToCluster {
    ghost use Rattle.std.specs.Prelude.{true, false};
    ghost use Rattle.aql_rules_cluster.specs.DistributeFiltercalcToCluster.{MovesInside};
    ghost use Rattle.aql_rules_cluster.specs.FiltersOutside.{filters_outside};
    ghost use Rattle.aql_rules_cluster.specs.laws.FiltercalcPlaces.{moves_fall};
    ghost use Rattle.aql_rules_cluster.specs.laws.FiltercalcRefines.{moves_refine, moves_keep};

    ghost rewrites = { λ _ facts. MovesInside facts };

    ghost fragments = { λ _. true };

    ghost measure = { λ _. filters_outside false };

    fn at(
        &self,
        alloc: Global,
        part: &Plan,
        _above: &[Uses],
        _facts: &Facts,
    ) -> Result<Option<Swap>, OutOfMemory> {
        if !goes_inside(part) {
            return Ok(None);
        }
        let part = moved_below(part.copy(alloc)?);
        Ok(Some(Swap { part, rename: None }))
    }

    ghost refines = { λ _ facts outer away us p q r placed h.
        moves_refine facts outer away us p q r placed h };

    ghost keeps = { λ _ facts outer away us p q r placed h.
        moves_keep facts outer away us p q r placed h };

    ghost falls = { λ _ facts p q r whole h. moves_fall facts p q r whole h };
}

fn is_filtercalc(node: &Node) -> bool
    ensures { result ≡ spec_is_filtercalc (node_tree node.now) }
{
    matches!(node, Node::Filter { .. } | Node::Calculation { .. })
}

// Whether a Filter or a Calculation stands over the Gather of a fragment.
fn goes_inside(plan: &Plan) -> bool
    ensures { result ≡ spec_goes_inside (plan_tree plan.now) }
{
    match plan {
        Plan::Over { node, below } => is_filtercalc(node) && is_gathered(below),
        _ => false,
    }
}

impl ClusterRule for DistributeFiltercalcToCluster {
    ghost use Rattle.aql_rules_cluster.specs.laws.Passing.{distribute_filtercalc};

    type Memory = ();

    type Failure = Infallible;

    fn rewrite(
        &self,
        _memory: (),
        part: Plan,
        _facts: &Facts,
        changed: &mut bool,
    ) -> Result<Plan, Infallible> {
        if !goes_inside(&part) {
            return Ok(part);
        }
        *changed = true;
        Ok(moved_below(part))
    }

    ghost for_cluster = { λ _ facts. distribute_filtercalc facts };
}

/// The plan after distribute-filtercalc-to-cluster was applied at its first place again and again,
/// until it has none: without servers the plan as it is, else no Filter or Calculation stands over
/// the Gather of a fragment. Where one went into a fragment nothing else moves, so each node is
/// looked at once.
pub fn run_filtercalc_pass(plan: Plan, facts: &Facts) -> Passed
    requires { IsWellFormed facts.now [] (plan_tree plan) }
    ensures passed { IsPass (MovesInside facts.now) (plan_tree plan) (plan_tree result.plan)
        result.changed }
    ensures refines { Refines facts.now (plan_tree result.plan) (plan_tree plan) }
    ensures well_formed { IsWellFormed facts.now [] (plan_tree result.plan) }
    ensures sets { SetsNoMore (plan_tree plan) (plan_tree result.plan) }
    ensures on_shards { ReadsOnShards facts.now (plan_tree plan)
        → ReadsOnShards facts.now (plan_tree result.plan) }
    ensures alone { facts.now.servers ≡ 0 → plan_tree result.plan ≡ plan_tree plan }
{
    match run_cluster_pass((), &DistributeFiltercalcToCluster, plan, facts) {
        Ok(passed) => passed,
        Err(never) => match never {},
    }
}
