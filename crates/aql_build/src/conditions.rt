//! A FILTER as nodes: one for each part of an `&&` chain, where a query has few of them.

ghost use Rattle.std.specs.Prelude.{◌≡◌, ◌-◌, IfOk, map, length};
ghost use Rattle.aql_tree.specs.View.{tree, links, link_part, clause_tree, query_tree};
ghost use Rattle.aql_plan.specs.Plan as spec;
ghost use Rattle.aql_plan.specs.View.{plan_tree};
ghost use Rattle.aql_plan.specs.FirstPlan.{right_sides, conjuncts, clause_conditions, conditions, has_few_conditions as has_few, conditions_of, filters};

use crate::clauses::{take, take_boxed};
use aql_plan::{Node, Plan, is_all_and};
use aql_tree::{Clause, Expr, Links, Query};
use aql_value::OutOfMemory;
use std::alloc::Global;

// So many conditions of a query are nodes of their own.
const MOST_CONDITIONS: usize = 256;

fn filter(cond: Expr, below: Plan, alloc: Global) -> Result<Plan, OutOfMemory>
    ensures { IfOk result
        (λ p. plan_tree p ≡ spec.Over (plan_tree below) (spec.Filter (tree cond))) }
{
    Node::Filter { cond }.over(alloc, below)
}

fn filter_sides(rest: &mut Links, below: Plan, alloc: Global) -> Result<Plan, OutOfMemory>
    ensures { IfOk result (λ p. plan_tree p
        ≡ filters (plan_tree below) (right_sides (links (map link_part rest.old)))) }
{
    let mut plan = below;
    let items = rest.as_mut_slice();
    for link in items.iter_mut() {
        plan = filter(take(&mut link.right), plan, alloc)?;
    }
    Ok(plan)
}

fn filter_conjuncts(cond: &mut Expr, below: Plan, alloc: Global) -> Result<Plan, OutOfMemory>
    ensures { IfOk result
        (λ p. plan_tree p ≡ filters (plan_tree below) (conjuncts (tree cond.old))) }
{
    match cond {
        Expr::Chain { first, rest } if is_all_and(rest.as_slice()) => {
            let plan = filter(take_boxed(first), below, alloc)?;
            filter_sides(rest, plan, alloc)
        }
        _ => filter(take(cond), below, alloc),
    }
}

/// The rows at which a condition holds: where FILTERs are split, a Filter for each part of an `&&`
/// chain, the first lowest.
pub fn filter_conditions(
    cond: &mut Expr,
    below: Plan,
    alloc: Global,
    split: bool,
) -> Result<Plan, OutOfMemory>
    ensures { IfOk result
        (λ p. plan_tree p ≡ filters (plan_tree below) (conditions_of split (tree cond.old))) }
{
    if split {
        filter_conjuncts(cond, below, alloc)
    } else {
        filter(take(cond), below, alloc)
    }
}

// What is left of so many conditions, without those of a FILTER.
fn less_conjuncts(cond: &Expr, most: usize) -> usize
    ensures { result ≡ most - length (conjuncts (tree cond.now)) }
{
    match cond {
        Expr::Chain { rest, .. } if is_all_and(rest.as_slice()) => {
            most.saturating_sub(1).saturating_sub(rest.len())
        }
        _ => most.saturating_sub(1),
    }
}

// The same, without those of a clause.
#[cycle(counting)]
fn less_clause(clause: &Clause, most: usize) -> usize
    ensures { result ≡ most - clause_conditions (clause_tree clause.now) }
{
    match clause {
        Clause::Filter(cond) => less_conjuncts(cond, most),
        Clause::Let { expr, .. } => match expr {
            Expr::Sub(query) => less_query(query, most),
            _ => most,
        },
        _ => most,
    }
}

// The same, without those of a query.
#[cycle(counting)]
fn less_query(query: &Query, most: usize) -> usize
    ensures { result ≡ most - conditions (query_tree query.now) }
{
    let mut left = most;
    for clause in query.clauses.as_slice() {
        left = less_clause(clause, left);
    }
    left
}

/// Whether a query has so few conditions that its FILTERs are split: at most 256, those of its
/// subqueries too.
pub fn has_few_conditions(query: &Query) -> bool
    ensures { result ≡ has_few (query_tree query.now) }
{
    less_query(query, MOST_CONDITIONS + 1) > 0
}
