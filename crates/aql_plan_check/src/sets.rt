//! That each variable is set once, and is a number from 1 on.

ghost use Rattle.std.specs.Prelude.{◌≡◌, ◌↔◌, ◌++◌, IsTrue, IfOk, map, option_map, option_to_list};
ghost use Rattle.std.specs.List.{AllByRecursion};
ghost use Rattle.aql_tree.specs.View.{let_part, aggregate_part, into_part, aggregates as aggregate_trees, into_tree};
ghost use Rattle.aql_tree.specs.declared.syntax.Ident.TheVariants.{Num};
ghost use Rattle.aql_meaning.specs.Numbered.{IsNumber};
ghost use Rattle.aql_meaning.specs.Visible.{aggregate_vars, into_var};
ghost use Rattle.aql_plan.specs.Plan.{top};
ghost use Rattle.aql_plan.specs.Variables.{vars_set, set_once, are_distinct};
ghost use Rattle.aql_plan.specs.View.{node_tree, plan_tree};
ghost use Rattle.aql_plan_check.specs.inner.Rows.{variables};

use aql_plan::{Node, Plan, Stage};
use aql_tree::{AggregateItem, Ident, Into, Let};
use aql_value::OutOfMemory;
use indexmap::IndexSet;
use std::alloc::Global;

fn is_number(ident: &Ident) -> bool
    ensures { IsTrue result ↔ IsNumber ident.now }
{
    match ident {
        Ident::Num(n) => *n != 0,
        Ident::Name(_) => false,
    }
}

fn maybe_number(var: Option<u32>) -> bool
    ensures { IsTrue result
        ↔ AllByRecursion IsNumber (option_to_list (option_map (λ x. Num x) var)) }
{
    match var {
        Some(var) => var != 0,
        None => true,
    }
}

fn groups_numbers(groups: &[Let]) -> bool
    ensures { IsTrue result ↔ AllByRecursion IsNumber (map (λ l. l.0) (map let_part groups.now)) }
{
    for group in groups {
        if !is_number(&group.var) {
            return false;
        }
    }
    true
}

fn aggregates_numbers(all: &[AggregateItem]) -> bool
    ensures { IsTrue result ↔ AllByRecursion IsNumber
        (aggregate_vars (aggregate_trees (map aggregate_part all.now))) }
{
    for aggregate in all {
        if !is_number(&aggregate.var) {
            return false;
        }
    }
    true
}

fn into_number(into: &Option<Into>) -> bool
    ensures { IsTrue result ↔ AllByRecursion IsNumber
        (option_to_list (into_var (into_tree (option_map into_part into.now)))) }
{
    match into {
        Some(into) => is_number(&into.var),
        None => true,
    }
}

fn results_numbers(all: &[AggregateItem], into: &Option<Into>) -> bool
    ensures { IsTrue result ↔ AllByRecursion IsNumber
        (aggregate_vars (aggregate_trees (map aggregate_part all.now))
        ++ option_to_list (into_var (into_tree (option_map into_part into.now)))) }
{
    aggregates_numbers(all) && into_number(into)
}

fn collect_numbers(groups: &[Let], all: &[AggregateItem], into: &Option<Into>) -> bool
    ensures { IsTrue result ↔ AllByRecursion IsNumber (map (λ l. l.0) (map let_part groups.now)
        ++ (aggregate_vars (aggregate_trees (map aggregate_part all.now))
        ++ option_to_list (into_var (into_tree (option_map into_part into.now))))) }
{
    groups_numbers(groups) && results_numbers(all, into)
}

fn node_sets_numbers(node: &Node) -> bool
    ensures { IsTrue result ↔ AllByRecursion IsNumber (set_once (node_tree node.now)) }
{
    match node {
        Node::EnumerateCollection { var, .. } => *var != 0,
        Node::Index { var, .. } => *var != 0,
        Node::EnumerateList { var, .. } => *var != 0,
        Node::Traversal {
            vertex,
            edge,
            path,
            ..
        } => *vertex != 0 && maybe_number(*edge) && maybe_number(*path),
        Node::Calculation { var, .. } => *var != 0,
        Node::Collect {
            groups,
            aggregates,
            into,
            stage,
            ..
        } => match stage {
            Stage::Final => true,
            Stage::Whole => collect_numbers(groups.as_slice(), aggregates.as_slice(), into),
            Stage::Partial => collect_numbers(groups.as_slice(), aggregates.as_slice(), into),
        },
        _ => true,
    }
}

#[cycle(numbers)]
fn top_sets_numbers(plan: &Plan) -> bool
    ensures { IsTrue result ↔ AllByRecursion IsNumber (set_once (top (plan_tree plan.now))) }
{
    match plan {
        Plan::Singleton => true,
        Plan::Over { node, .. } => node_sets_numbers(node),
        Plan::Subquery { var, body, .. } => *var != 0 && sets_numbers(body),
    }
}

/// Whether each variable that a plan sets is a number from 1 on.
#[cycle(numbers)]
pub(crate) fn sets_numbers(plan: &Plan) -> bool
    ensures { IsTrue result ↔ AllByRecursion IsNumber (vars_set (plan_tree plan.now)) }
{
    match plan.below() {
        None => true,
        Some(below) => top_sets_numbers(plan) && sets_numbers(below),
    }
}

/// Whether no variable is twice in a list.
pub(crate) fn no_duplicates(alloc: Global, vars: &[u32]) -> Result<bool, OutOfMemory>
    ensures { IfOk result (λ answer. answer ≡ are_distinct (variables vars.now)) }
{
    let mut seen = IndexSet::new(alloc);
    let mut at = vars.len();
    while at > 0 {
        at -= 1;
        if !seen.insert(vars[at])? {
            return Ok(false);
        }
    }
    Ok(true)
}
