//! Lists of the names of rules.

ghost use Rattle.std.specs.Prelude.{◌≡◌, ◌≢◌, ◌↔◌, IfOk, List, ℕ, map, MatchOption, nat_eq};
ghost use Rattle.std.specs.List.{slice_split, Contains};
ghost use Rattle.aql_plan.specs.declared.rules.RuleName.{RuleName};
ghost use Rattle.aql_plan.specs.RuleNames.{rule_text};
ghost use Rattle.aql_plan.specs.declared.rule_sets.Rules.{Rules};
ghost use Rattle.aql_plan.specs.RuleSets.{Has};
ghost use Rattle.aql_options.specs.Words.{AreRules, HasNamed};

use aql_plan::{RuleName, Rules};
use aql_value::OutOfMemory;
use std::alloc::Global;

// The rules of a list: all, none, or those of the names between its commas.
pub(crate) fn rules_of(alloc: Global, list: &str) -> Result<Option<Rules>, OutOfMemory>
    ensures { IfOk result (λ rules. MatchOption rules
        ((others : Rules) → AreRules (Some list.now) others → ⊥) (AreRules (Some list.now))) }
{
    match list {
        "all" => Ok(Some(Rules::all())),
        "none" => Ok(Some(Rules::none())),
        _ => named(alloc, list),
    }
}

fn named(alloc: Global, list: &str) -> Result<Option<Rules>, OutOfMemory>
    ensures { IfOk result (λ rules. MatchOption rules
        ((others : Rules) → HasNamed list.now others → ⊥) (HasNamed list.now)) }
{
    let names = pieces(alloc, list)?;
    let mut rules = Rules::none();
    for name in names.as_slice() {
        let Some(rule) = rule_named(name) else {
            return Ok(None);
        };
        rules = rules.with(rule);
    }
    Ok(Some(rules))
}

// The texts between the commas.
fn pieces<'a>(alloc: Global, list: &'a str) -> Result<Vec<&'a str>, OutOfMemory>
    ensures { IfOk result
        (λ ps. map (λ p. p.now) ps.items ≡ slice_split (λ b. nat_eq b 44) list.now) }
{
    let found: Vec<&'a str> = list.split(',').collect(alloc)?;
    Ok(found)
}

fn rule_named(name: &str) -> Option<RuleName>
    ensures { MatchOption result ((r : RuleName) → rule_text r ≢ name.now)
        (λ r. rule_text r ≡ name.now) }
{
    match name {
        "simplify-conditions" => Some(RuleName::SimplifyConditions),
        "inline-subqueries" => Some(RuleName::InlineSubqueries),
        "interchange-adjacent-enumerations" => Some(RuleName::InterchangeAdjacentEnumerations),
        "move-calculations-up" => Some(RuleName::MoveCalculationsUp),
        "move-filters-up" => Some(RuleName::MoveFiltersUp),
        "remove-redundant-calculations" => Some(RuleName::RemoveRedundantCalculations),
        "remove-unnecessary-filters" => Some(RuleName::RemoveUnnecessaryFilters),
        "remove-unnecessary-calculations" => Some(RuleName::RemoveUnnecessaryCalculations),
        "remove-redundant-sorts" => Some(RuleName::RemoveRedundantSorts),
        "remove-collect-variables" => Some(RuleName::RemoveCollectVariables),
        "replace-or-with-in" => Some(RuleName::ReplaceOrWithIn),
        "fuse-filters" => Some(RuleName::FuseFilters),
        "optimize-traversals" => Some(RuleName::OptimizeTraversals),
        "use-indexes" => Some(RuleName::UseIndexes),
        "remove-filter-covered-by-index" => Some(RuleName::RemoveFilterCoveredByIndex),
        "use-index-for-sort" => Some(RuleName::UseIndexForSort),
        "sort-limit" => Some(RuleName::SortLimit),
        "move-filters-into-enumerate" => Some(RuleName::MoveFiltersIntoEnumerate),
        "reduce-extraction-to-projection" => Some(RuleName::ReduceExtractionToProjection),
        "scatter-in-cluster" => Some(RuleName::ScatterInCluster),
        "distribute-in-cluster" => Some(RuleName::DistributeInCluster),
        "restrict-to-single-shard" => Some(RuleName::RestrictToSingleShard),
        "distribute-filtercalc-to-cluster" => Some(RuleName::DistributeFiltercalcToCluster),
        "remove-unnecessary-remote-scatter" => Some(RuleName::RemoveUnnecessaryRemoteScatter),
        "collect-in-cluster" => Some(RuleName::CollectInCluster),
        "distribute-sort-to-cluster" => Some(RuleName::DistributeSortToCluster),
        _ => None,
    }
}
