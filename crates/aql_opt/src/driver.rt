//! The driver of the optimiser.

ghost use Rattle.std.specs.Prelude.{◌≡◌, ◌≤◌, ◌⊎◌, ◌↔◌, ◌++◌, ◌∷◌, [], true, false};
ghost use Rattle.std.specs.Prelude.{IsTrue, IfOk, OnOk, List, map, length};
ghost use Rattle.std.specs.List.{AllByRecursion};
ghost use Rattle.aql_plan.specs.declared.facts.Facts.{Facts as spec_Facts};
ghost use Rattle.aql_plan.specs.declared.rule_sets.Rules.{Rules as spec_Rules};
ghost use Rattle.aql_plan.specs.declared.rules.RuleName.{RuleName as spec_RuleName};
ghost use Rattle.aql_plan.specs.declared.rules.RuleName.TheVariants as spec_rule;
ghost use Rattle.aql_plan.specs.Plan.{Plan as spec_Plan};
ghost use Rattle.aql_plan.specs.Refines.{Refines};
ghost use Rattle.aql_plan.specs.Shapes.{HasNoFragment};
ghost use Rattle.aql_plan.specs.View.{plan_tree};
ghost use Rattle.aql_plan.specs.WellFormed.{IsWellFormed};
ghost use Rattle.aql_rewrite.specs.Placed.{IsWhole};
ghost use Rattle.aql_rewrite.specs.Swaps.{SetsNoMore};
ghost use Rattle.aql_rules_order.specs.StandsFor.{StandsFor};
ghost use Rattle.aql_rules_cluster.specs.OnShards.{ReadsOnShards};
ghost use Rattle.aql_opt.specs.Passes.{IsPassOf};
ghost use Rattle.aql_opt.specs.Chosen.{IsEnabled, RunsRule, AfterRules, CandidatesBy, Chosen};
ghost use Rattle.aql_opt.specs.Chosen.{cluster_rules, later_rules, cost_of};
ghost use Rattle.aql_opt.specs.inner.Later.{is_of_cluster, Finished};
ghost use Rattle.aql_opt.specs.laws.Cheapest.{Best, order_names};

use crate::estimate;
use crate::passes::{cluster_pass_of, pass_of};
use aql_plan::{Facts, Passed, Plan, Plans, RuleName, RuleNames, Rules};
use aql_rules_order::candidates;
use aql_value::{OutOfMemory, Seq};
use std::alloc::Global;
use std::mem;

/// The rules whose passes run before there are candidates.
const FIRST: [RuleName; 2] = [RuleName::SimplifyConditions, RuleName::InlineSubqueries];

/// The rules whose passes run over each candidate.
const LATER: [RuleName; 16] = [
    RuleName::MoveCalculationsUp,
    RuleName::MoveFiltersUp,
    RuleName::RemoveRedundantCalculations,
    RuleName::RemoveUnnecessaryFilters,
    RuleName::RemoveUnnecessaryCalculations,
    RuleName::RemoveRedundantSorts,
    RuleName::RemoveCollectVariables,
    RuleName::ReplaceOrWithIn,
    RuleName::FuseFilters,
    RuleName::OptimizeTraversals,
    RuleName::UseIndexes,
    RuleName::RemoveFilterCoveredByIndex,
    RuleName::UseIndexForSort,
    RuleName::SortLimit,
    RuleName::MoveFiltersIntoEnumerate,
    RuleName::ReduceExtractionToProjection,
];

/// The rules of a cluster, whose passes run over each candidate after those.
const CLUSTER: [RuleName; 7] = [
    RuleName::ScatterInCluster,
    RuleName::DistributeInCluster,
    RuleName::RestrictToSingleShard,
    RuleName::DistributeFiltercalcToCluster,
    RuleName::RemoveUnnecessaryRemoteScatter,
    RuleName::CollectInCluster,
    RuleName::DistributeSortToCluster,
];

/// A chosen plan, the rules that changed it, in the order of their passes, and its estimated cost.
#[derive(Drop)]
pub struct Optimised {
    pub plan: Plan,
    pub applied: RuleNames,
    pub cost: u64,
}

// A plan after some passes, and the rules that changed it.
#[derive(Drop)]
struct Rewritten {
    plan: Plan,
    applied: RuleNames,
}

// A candidate after the later passes.
#[derive(Drop)]
struct Candidate {
    plan: Plan,
    applied: RuleNames,
    cost: u64,
    // Whether it is another one than the first candidate.
    reordered: bool,
}

// Whether a rule runs.
fn is_enabled(rule: RuleName, rules: &Rules, facts: &Facts) -> bool
    ensures { IsTrue result ↔ IsEnabled facts.now rules.now rule }
{
    rules.has(rule) || (rule == RuleName::ScatterInCluster && facts.servers > 0)
}

// The plan after the pass of a rule that runs.
fn with_rule(rule: RuleName, applied: RuleNames, passed: Passed) -> Result<Rewritten, OutOfMemory>
    ensures plan { IfOk result (λ x. x.plan ≡ passed.plan) }
    ensures runs { IfOk result (λ x. (facts : spec_Facts) (rules : spec_Rules) (p : spec_Plan)
        → IsEnabled facts rules rule → IsPassOf rule facts p (plan_tree passed.plan) passed.changed
        → RunsRule facts rules rule p applied (plan_tree x.plan) x.applied) }
{
    let Passed { plan, changed } = passed;
    let mut applied = applied;
    if changed {
        applied.push(rule)?;
        return Ok(Rewritten { plan, applied });
    }
    Ok(Rewritten { plan, applied })
}

// Runs one rule that is not of a cluster.
fn run_rule(
    alloc: Global,
    rule: RuleName,
    before: Rewritten,
    rules: &Rules,
    facts: &Facts,
) -> Result<Rewritten, OutOfMemory>
    requires local { is_of_cluster rule ≡ false }
    requires whole { IsWhole false facts.now (plan_tree before.plan) }
    ensures runs { IfOk result (λ x. RunsRule facts.now rules.now rule (plan_tree before.plan)
        before.applied (plan_tree x.plan) x.applied) }
    ensures refines { IfOk result
        (λ x. Refines facts.now (plan_tree x.plan) (plan_tree before.plan)) }
    ensures whole { IfOk result (λ x. IsWhole false facts.now (plan_tree x.plan)) }
    ensures sets { IfOk result (λ x. SetsNoMore (plan_tree before.plan) (plan_tree x.plan)) }
{
    if !is_enabled(rule, rules, facts) {
        return Ok(before);
    }
    let Rewritten { plan, applied } = before;
    let passed = pass_of(alloc, rule, plan, facts)?;
    with_rule(rule, applied, passed)
}

// Runs these rules, one after another, none of which is of a cluster.
fn run_rules(
    alloc: Global,
    order: &[RuleName],
    plan: Plan,
    rules: &Rules,
    facts: &Facts,
) -> Result<Rewritten, OutOfMemory>
    requires local { AllByRecursion (λ (r : spec_RuleName). is_of_cluster r ≡ false) order.now }
    requires whole { IsWhole false facts.now (plan_tree plan) }
    ensures runs { IfOk result (λ x. AfterRules facts.now rules.now (plan_tree plan) order.now
        (plan_tree x.plan) x.applied) }
    ensures refines { IfOk result (λ x. Refines facts.now (plan_tree x.plan) (plan_tree plan)) }
    ensures whole { IfOk result (λ x. IsWhole false facts.now (plan_tree x.plan)) }
    ensures sets { IfOk result (λ x. SetsNoMore (plan_tree plan) (plan_tree x.plan)) }
{
    let mut rewritten = Rewritten {
        plan,
        applied: Seq::new(alloc),
    };
    for rule in order {
        rewritten = run_rule(alloc, *rule, rewritten, rules, facts)?;
    }
    Ok(rewritten)
}

// Runs one rule of a cluster.
fn run_cluster_rule(
    alloc: Global,
    rule: RuleName,
    before: Rewritten,
    rules: &Rules,
    facts: &Facts,
) -> Result<Rewritten, OutOfMemory>
    requires cluster { is_of_cluster rule ≡ true }
    requires well_formed { IsWellFormed facts.now [] (plan_tree before.plan) }
    ensures runs { IfOk result (λ x. RunsRule facts.now rules.now rule (plan_tree before.plan)
        before.applied (plan_tree x.plan) x.applied) }
    ensures refines { IfOk result
        (λ x. Refines facts.now (plan_tree x.plan) (plan_tree before.plan)) }
    ensures well_formed { IfOk result (λ x. IsWellFormed facts.now [] (plan_tree x.plan)) }
    ensures sets { IfOk result (λ x. SetsNoMore (plan_tree before.plan) (plan_tree x.plan)) }
    ensures on_shards { IfOk result
        (λ x. (rule ≡ spec_rule.ScatterInCluster) ⊎ ReadsOnShards facts.now (plan_tree before.plan)
        → ReadsOnShards facts.now (plan_tree x.plan)) }
    ensures alone { IfOk result
        (λ x. facts.now.servers ≡ 0 → plan_tree x.plan ≡ plan_tree before.plan) }
{
    if !is_enabled(rule, rules, facts) {
        return Ok(before);
    }
    let Rewritten { plan, applied } = before;
    let passed = cluster_pass_of(alloc, rule, plan, facts)?;
    with_rule(rule, applied, passed)
}

// Runs the rules of a cluster, one after another.
fn run_cluster_rules(
    alloc: Global,
    plan: Plan,
    rules: &Rules,
    facts: &Facts,
) -> Result<Rewritten, OutOfMemory>
    requires { IsWellFormed facts.now [] (plan_tree plan) }
    ensures runs { IfOk result (λ x. AfterRules facts.now rules.now (plan_tree plan) cluster_rules
        (plan_tree x.plan) x.applied) }
    ensures refines { IfOk result (λ x. Refines facts.now (plan_tree x.plan) (plan_tree plan)) }
    ensures well_formed { IfOk result (λ x. IsWellFormed facts.now [] (plan_tree x.plan)) }
    ensures sets { IfOk result (λ x. SetsNoMore (plan_tree plan) (plan_tree x.plan)) }
    ensures on_shards { IfOk result (λ x. ReadsOnShards facts.now (plan_tree x.plan)) }
    ensures alone { IfOk result
        (λ x. facts.now.servers ≡ 0 → plan_tree x.plan ≡ plan_tree plan) }
{
    let mut rewritten = Rewritten {
        plan,
        applied: Seq::new(alloc),
    };
    for rule in &CLUSTER {
        rewritten = run_cluster_rule(alloc, *rule, rewritten, rules, facts)?;
    }
    Ok(rewritten)
}

// The plans to choose from.
fn candidates_by(
    alloc: Global,
    plan: Plan,
    rules: &Rules,
    facts: &Facts,
) -> Result<Plans, OutOfMemory>
    requires { IsWhole false facts.now (plan_tree plan) }
    ensures candidates { IfOk result
        (λ all. CandidatesBy rules.now (plan_tree plan) (map plan_tree all)) }
    ensures stand { IfOk result (λ all. AllByRecursion
        (StandsFor facts.now (plan_tree plan)) (map plan_tree all)) }
    ensures some { IfOk result (λ all. 1 ≤ length all) }
{
    if rules.has(RuleName::InterchangeAdjacentEnumerations) {
        return candidates(alloc, plan, facts);
    }
    let mut all = Seq::new(alloc);
    all.push(plan)?;
    Ok(all)
}

// Puts these names after others.
fn add_names(names: &[RuleName], to: &mut RuleNames) -> Result<(), OutOfMemory>
    ensures { OnOk result (to.new ≡ to.old ++ names.now) }
{
    for name in names {
        to.push(*name)?;
    }
    Ok(())
}

// A candidate with the later passes.
fn finish(
    alloc: Global,
    candidate: Plan,
    reordered: bool,
    rules: &Rules,
    facts: &Facts,
) -> Result<Candidate, OutOfMemory>
    requires { IsWhole false facts.now (plan_tree candidate) }
    ensures runs { IfOk result (λ x. AfterRules facts.now rules.now (plan_tree candidate)
        later_rules (plan_tree x.plan) x.applied) }
    ensures finished { IfOk result
        (λ x. Finished facts.now (plan_tree candidate) (plan_tree x.plan)) }
    ensures cost { IfOk result (λ x. x.cost ≡ cost_of facts.now (plan_tree x.plan)) }
    ensures reordered { IfOk result (λ x. x.reordered ≡ reordered) }
{
    let Rewritten { plan, mut applied } = run_rules(alloc, &LATER, candidate, rules, facts)?;
    let last = run_cluster_rules(alloc, plan, rules, facts)?;
    add_names(last.applied.as_slice(), &mut applied)?;
    let plan = last.plan;
    let cost = estimate(&plan, facts).cost;
    Ok(Candidate {
        plan,
        applied,
        cost,
        reordered,
    })
}

// The candidate that ends cheapest, the first of these. The others are taken out of their list.
fn cheapest_of(
    alloc: Global,
    first: Plan,
    others: &mut [Plan],
    rules: &Rules,
    facts: &Facts,
) -> Result<Candidate, OutOfMemory>
    requires first { IsWhole false facts.now (plan_tree first) }
    requires others { AllByRecursion (IsWhole false facts.now) (map plan_tree others.old) }
    ensures best { IfOk result (λ x. Best facts.now rules.now
        (plan_tree first ∷ map plan_tree others.old) (plan_tree x.plan) x.applied x.reordered) }
    ensures finished { IfOk result (λ x. (p : spec_Plan) → StandsFor facts.now p (plan_tree first)
        → AllByRecursion (StandsFor facts.now p) (map plan_tree others.old)
        → Finished facts.now p (plan_tree x.plan)) }
    ensures cost { IfOk result (λ x. x.cost ≡ cost_of facts.now (plan_tree x.plan)) }
{
    let mut best = finish(alloc, first, false, rules, facts)?;
    for candidate in others.iter_mut() {
        let candidate = mem::replace(candidate, Plan::Singleton);
        let other = finish(alloc, candidate, true, rules, facts)?;
        if other.cost < best.cost {
            best = other;
        }
    }
    Ok(best)
}

// The candidate for a plan that ends cheapest, the first of these.
fn cheapest(
    alloc: Global,
    plan: Plan,
    rules: &Rules,
    facts: &Facts,
) -> Result<Candidate, OutOfMemory>
    requires { IsWhole false facts.now (plan_tree plan) }
    ensures best { IfOk result (λ x. (candidates : List spec_Plan)
        × CandidatesBy rules.now (plan_tree plan) candidates
        × Best facts.now rules.now candidates (plan_tree x.plan) x.applied x.reordered) }
    ensures finished { IfOk result
        (λ x. Finished facts.now (plan_tree plan) (plan_tree x.plan)) }
    ensures cost { IfOk result (λ x. x.cost ≡ cost_of facts.now (plan_tree x.plan)) }
{
    let mut candidates = candidates_by(alloc, plan, rules, facts)?;
    match candidates.as_mut_slice().split_first_mut() {
        None => unreachable!(),
        Some((first, others)) => {
            let first = mem::replace(first, Plan::Singleton);
            cheapest_of(alloc, first, others, rules, facts)
        }
    }
}

// The names of the first rules, with that of the candidates' rule where it changed the plan.
fn with_order(applied: RuleNames, reordered: bool) -> Result<RuleNames, OutOfMemory>
    ensures { IfOk result (λ names. names ≡ applied ++ order_names reordered) }
{
    let mut applied = applied;
    if reordered {
        applied.push(RuleName::InterchangeAdjacentEnumerations)?;
        return Ok(applied);
    }
    Ok(applied)
}

/// The plan after the pass of each enabled rule, in their order, each once: of the candidates that
/// the order of loops gives, each after the later passes, the cheapest one, and the first of
/// equally cheap ones. Where there is a server, it reads on shards alone; else it has no fragment.
pub fn optimise(
    alloc: Global,
    plan: Plan,
    rules: &Rules,
    facts: &Facts,
) -> Result<Optimised, OutOfMemory>
    requires { IsWhole false facts.now (plan_tree plan) }
    ensures chosen { IfOk result
        (λ x. Chosen facts.now rules.now (plan_tree plan) (plan_tree x.plan) x.applied) }
    ensures cost { IfOk result (λ x. x.cost ≡ cost_of facts.now (plan_tree x.plan)) }
    ensures refines { IfOk result (λ x. Refines facts.now (plan_tree x.plan) (plan_tree plan)) }
    ensures well_formed { IfOk result (λ x. IsWellFormed facts.now [] (plan_tree x.plan)) }
    ensures on_shards { IfOk result (λ x. ReadsOnShards facts.now (plan_tree x.plan)) }
    ensures alone { IfOk result
        (λ x. facts.now.servers ≡ 0 → HasNoFragment (plan_tree x.plan)) }
    ensures sets { IfOk result (λ x. SetsNoMore (plan_tree plan) (plan_tree x.plan)) }
{
    let Rewritten { plan, applied } = run_rules(alloc, &FIRST, plan, rules, facts)?;
    let chosen = cheapest(alloc, plan, rules, facts)?;
    let mut applied = with_order(applied, chosen.reordered)?;
    add_names(chosen.applied.as_slice(), &mut applied)?;
    Ok(Optimised {
        plan: chosen.plan,
        applied,
        cost: chosen.cost,
    })
}
