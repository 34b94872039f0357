//! The passes, by the names of their rules.

ghost use Rattle.std.specs.Prelude.{◌≡◌, ◌⊎◌, [], true, false, IfOk};
ghost use Rattle.aql_plan.specs.declared.rules.RuleName.TheVariants as spec_rule;
ghost use Rattle.aql_plan.specs.Refines.{Refines};
ghost use Rattle.aql_plan.specs.View.{plan_tree};
ghost use Rattle.aql_plan.specs.WellFormed.{IsWellFormed};
ghost use Rattle.aql_rewrite.specs.Placed.{IsWhole};
ghost use Rattle.aql_rewrite.specs.Swaps.{SetsNoMore};
ghost use Rattle.aql_rules_cluster.specs.OnShards.{ReadsOnShards};
ghost use Rattle.aql_opt.specs.Passes.{IsPassOf};
ghost use Rattle.aql_opt.specs.inner.Later.{is_of_cluster};

use aql_passes::{
    run_changing_pass, run_exchange_pass, run_expr_pass, run_part_pass, run_removing_pass,
};
use aql_plan::{Facts, Passed, Plan, RuleName};
use aql_rules_calc::{
    MoveCalculationsUp, ReduceExtractionToProjection, RemoveRedundantCalculations,
    RemoveUnnecessaryCalculations, ReplaceOrWithIn, SimplifyConditions,
};
use aql_rules_cluster::{
    run_collect_pass, run_distribute_pass, run_filtercalc_pass, run_join_pass, run_restrict_pass,
    run_scatter_pass, run_sort_pass,
};
use aql_rules_filter::{
    FuseFilters, MoveFiltersIntoEnumerate, MoveFiltersUp, OptimizeTraversals,
    RemoveUnnecessaryFilters,
};
use aql_rules_index::{RemoveFilterCoveredByIndex, UseIndexForSort, UseIndexes};
use aql_rules_order::{InlineSubqueries, RemoveCollectVariables, RemoveRedundantSorts, SortLimit};
use aql_value::OutOfMemory;
use std::alloc::Global;

/// The plan after the pass of a rule that is not of a cluster. The rule of the order of loops
/// leaves it as it is: it gives candidates.
pub(crate) fn pass_of(
    alloc: Global,
    rule: RuleName,
    plan: Plan,
    facts: &Facts,
) -> Result<Passed, OutOfMemory>
    requires local { is_of_cluster rule ≡ false }
    requires whole { IsWhole false facts.now (plan_tree plan) }
    ensures passed { IfOk result
        (λ x. IsPassOf rule facts.now (plan_tree plan) (plan_tree x.plan) x.changed) }
    ensures refines { IfOk result (λ x. Refines facts.now (plan_tree x.plan) (plan_tree plan)) }
    ensures whole { IfOk result (λ x. IsWhole false facts.now (plan_tree x.plan)) }
    ensures sets { IfOk result (λ x. SetsNoMore (plan_tree plan) (plan_tree x.plan)) }
{
    match rule {
        RuleName::SimplifyConditions => run_expr_pass(alloc, &SimplifyConditions, plan, facts),
        RuleName::InlineSubqueries => run_part_pass(alloc, &InlineSubqueries, plan, facts),
        RuleName::MoveCalculationsUp => run_exchange_pass(alloc, &MoveCalculationsUp, plan, facts),
        RuleName::MoveFiltersUp => run_exchange_pass(alloc, &MoveFiltersUp, plan, facts),
        RuleName::RemoveRedundantCalculations => {
            run_removing_pass(alloc, &RemoveRedundantCalculations, plan, facts)
        }
        RuleName::RemoveUnnecessaryFilters => {
            run_part_pass(alloc, &RemoveUnnecessaryFilters, plan, facts)
        }
        RuleName::RemoveUnnecessaryCalculations => {
            run_part_pass(alloc, &RemoveUnnecessaryCalculations, plan, facts)
        }
        RuleName::RemoveRedundantSorts => run_part_pass(alloc, &RemoveRedundantSorts, plan, facts),
        RuleName::RemoveCollectVariables => run_part_pass(
            alloc,
            &RemoveCollectVariables,
            plan,
            facts,
        ),
        RuleName::ReplaceOrWithIn => run_expr_pass(alloc, &ReplaceOrWithIn, plan, facts),
        RuleName::FuseFilters => run_part_pass(alloc, &FuseFilters, plan, facts),
        RuleName::OptimizeTraversals => run_part_pass(alloc, &OptimizeTraversals, plan, facts),
        RuleName::UseIndexes => run_part_pass(alloc, &UseIndexes, plan, facts),
        RuleName::RemoveFilterCoveredByIndex => {
            run_part_pass(alloc, &RemoveFilterCoveredByIndex, plan, facts)
        }
        RuleName::UseIndexForSort => run_part_pass(alloc, &UseIndexForSort, plan, facts),
        RuleName::SortLimit => run_part_pass(alloc, &SortLimit, plan, facts),
        RuleName::MoveFiltersIntoEnumerate => {
            run_part_pass(alloc, &MoveFiltersIntoEnumerate, plan, facts)
        }
        RuleName::ReduceExtractionToProjection => {
            run_changing_pass(alloc, &ReduceExtractionToProjection, plan, facts)
        }
        RuleName::InterchangeAdjacentEnumerations => Ok(Passed {
            plan,
            changed: false,
        }),
        _ => unreachable!(),
    }
}

/// The plan after the pass of a rule of a cluster.
pub(crate) fn cluster_pass_of(
    alloc: Global,
    rule: RuleName,
    plan: Plan,
    facts: &Facts,
) -> Result<Passed, OutOfMemory>
    requires cluster { is_of_cluster rule ≡ true }
    requires well_formed { IsWellFormed facts.now [] (plan_tree plan) }
    ensures passed { IfOk result
        (λ x. IsPassOf rule facts.now (plan_tree plan) (plan_tree x.plan) x.changed) }
    ensures refines { IfOk result (λ x. Refines facts.now (plan_tree x.plan) (plan_tree plan)) }
    ensures well_formed { IfOk result (λ x. IsWellFormed facts.now [] (plan_tree x.plan)) }
    ensures sets { IfOk result (λ x. SetsNoMore (plan_tree plan) (plan_tree x.plan)) }
    ensures on_shards { IfOk result
        (λ x. (rule ≡ spec_rule.ScatterInCluster) ⊎ ReadsOnShards facts.now (plan_tree plan)
        → ReadsOnShards facts.now (plan_tree x.plan)) }
    ensures alone { IfOk result
        (λ x. facts.now.servers ≡ 0 → plan_tree x.plan ≡ plan_tree plan) }
{
    match rule {
        RuleName::ScatterInCluster => run_scatter_pass(alloc, plan, facts),
        RuleName::DistributeInCluster => run_distribute_pass(alloc, plan, facts),
        RuleName::RestrictToSingleShard => run_restrict_pass(alloc, plan, facts),
        RuleName::DistributeFiltercalcToCluster => Ok(run_filtercalc_pass(plan, facts)),
        RuleName::RemoveUnnecessaryRemoteScatter => Ok(run_join_pass(plan, facts)),
        RuleName::CollectInCluster => run_collect_pass(alloc, plan, facts),
        RuleName::DistributeSortToCluster => run_sort_pass(alloc, plan, facts),
        _ => unreachable!(),
    }
}
