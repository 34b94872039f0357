//! The first fault of a query, and of its clauses.

ghost use Rattle.std.specs.Prelude.{◌≡◌, Some, map, option_map, OnOk};
ghost use Rattle.aql_tree.specs.View.{tree, trees, maybe, aggregates, into_tree, query_tree};
ghost use Rattle.aql_tree.specs.View.{clause_tree, key_part, let_part, aggregate_part, into_part};
ghost use Rattle.aql_tree.specs.View.{collect_part, collect_clause, traversal_part, traversal_clause};
ghost use Rattle.aql_meaning.specs.Visible.{onto, aggregate_vars};
ghost use Rattle.aql_scope.specs.Numbering.{idents};
ghost use Rattle.aql_scope.specs.Faults as spec;
ghost use Rattle.aql_scope.specs.Contexts.{context_of, Judges};

use crate::checks::{
    Judged, aggregate_fault, edge_collections, keep_fault, known_collection, known_collections,
    new_alone, new_name, option_fault, source_fault,
};
use crate::expr_faults::{in_expr, in_maybe};
use crate::names::{At, NameList};
use crate::option_faults::{in_options, new_traversal_names};
use aql_tree::{AggregateItem, Clause, Collect, Expr, Into, Key, Let, Query, Traversal};

/// The first fault of a query that stands at this place.
#[cycle(faults)]
pub fn in_query(query: &Query, at: &At<'_>) -> Judged
    ensures { Judges result
        (spec.in_query (spec.within_subquery (context_of at.now)) (query_tree query.now)) }
{
    known_collections(query.with.as_slice(), at)?;
    let mut scope = at.scope.subquery(at.alloc)?;
    for clause in query.clauses.as_slice() {
        in_clause(clause, &at.within(&scope))?;
        scope.enter_clause(at.alloc, clause)?;
    }
    in_expr(&query.result, &at.within(&scope))
}

#[cycle(faults)]
fn in_clause(clause: &Clause, at: &At<'_>) -> Judged
    ensures { Judges result (spec.in_clause (context_of at.now) (clause_tree clause.now)) }
{
    match clause {
        Clause::For { var, list } => {
            new_alone(var, at)?;
            match list {
                Expr::Var(ident) => source_fault(ident, at),
                _ => in_expr(list, at),
            }
        }
        Clause::ForDocs { var, collection } => {
            new_alone(var, at)?;
            known_collection(collection, at)
        }
        Clause::Traversal(traversal) => in_traversal(traversal, at),
        Clause::Filter(expr) => in_expr(expr, at),
        Clause::Let { var, expr } => {
            new_alone(var, at)?;
            in_expr(expr, at)
        }
        Clause::Sort(keys) => in_keys(keys.as_slice(), at),
        Clause::Limit { .. } => Ok(()),
        Clause::Collect(collect) => in_collect(collect, at),
    }
}

#[cycle(faults)]
fn in_traversal(traversal: &Traversal, at: &At<'_>) -> Judged
    ensures { Judges result
        (spec.in_clause (context_of at.now) (traversal_clause (traversal_part traversal.now))) }
{
    new_traversal_names(traversal, at)?;
    if traversal.min > traversal.max {
        return option_fault("depth", at.alloc);
    }
    in_expr(&traversal.start, at)?;
    edge_collections(traversal.collections.as_slice(), at)?;
    in_prune(traversal, at)?;
    in_options(traversal.options.settings.as_slice(), &at.inline())
}

// The names of a traversal are visible in its PRUNE, and not in its OPTIONS.
#[cycle(faults)]
fn in_prune(traversal: &Traversal, at: &At<'_>) -> Judged
    ensures { Judges result (spec.in_maybe (spec.inline
        (spec.after_clause (traversal_clause (traversal_part traversal.now)) (context_of at.now)))
        (maybe (option_map tree traversal.now.prune))) }
{
    let mut inner = at.scope.copy(at.alloc)?;
    inner.enter_traversal(at.alloc, traversal)?;
    in_maybe(&traversal.prune, &at.within(&inner).inline())
}

#[cycle(faults)]
fn in_keys(keys: &[Key], at: &At<'_>) -> Judged
    ensures { Judges result
        (spec.in_exprs (context_of at.now) (trees (map (λ k. k.0) (map key_part keys.now)))) }
{
    for key in keys {
        in_expr(&key.expr, at)?;
    }
    Ok(())
}

#[cycle(faults)]
fn in_collect(collect: &Collect, at: &At<'_>) -> Judged
    ensures { Judges result
        (spec.in_clause (context_of at.now) (collect_clause (collect_part collect.now))) }
{
    let mut earlier = NameList::new(at.alloc);
    in_criteria(collect.groups.as_slice(), at, &mut earlier)?;
    in_aggregates(collect.aggregates.as_slice(), at, &mut earlier)?;
    match &collect.into {
        Some(into) => in_into(into, at, &earlier),
        None => Ok(()),
    }
}

// Each variable is then one of those declared earlier.
#[cycle(faults)]
fn in_criteria(groups: &[Let], at: &At<'_>, earlier: &mut NameList) -> Judged
    ensures fault { Judges result (spec.in_criteria (context_of at.now) (idents earlier.old)
        (map (λ l. l.0) (map let_part groups.now))
        (trees (map (λ l. l.1) (map let_part groups.now)))) }
    ensures earlier { OnOk result (idents earlier.new
        ≡ onto (map (λ l. l.0) (map let_part groups.now)) (idents earlier.old)) }
{
    for group in groups {
        new_name(&group.var, at, earlier)?;
        in_expr(&group.expr, at)?;
        earlier.enter(at.alloc, &group.var, 0)?;
    }
    Ok(())
}

#[cycle(faults)]
fn in_aggregates(all: &[AggregateItem], at: &At<'_>, earlier: &mut NameList) -> Judged
    ensures fault { Judges result (spec.in_aggregates (context_of at.now) (idents earlier.old)
        (aggregates (map aggregate_part all.now))) }
    ensures earlier { OnOk result (idents earlier.new
        ≡ onto (aggregate_vars (aggregates (map aggregate_part all.now))) (idents earlier.old)) }
{
    for item in all {
        new_name(&item.var, at, earlier)?;
        aggregate_fault(&item.arg, &item.name, at.alloc)?;
        in_maybe(&item.arg, at)?;
        earlier.enter(at.alloc, &item.var, 0)?;
    }
    Ok(())
}

#[cycle(faults)]
fn in_into(into: &Into, at: &At<'_>, earlier: &NameList) -> Judged
    ensures { Judges result (spec.in_into (context_of at.now) (idents earlier.now)
        (into_tree (Some (into_part into.now)))) }
{
    new_name(&into.var, at, earlier)?;
    in_maybe(&into.what, at)?;
    keep_fault(into.keep.as_slice(), at)
}
