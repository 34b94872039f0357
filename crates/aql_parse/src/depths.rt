//! How deep the traversals of a query go.

ghost use Rattle.std.specs.Prelude.{◌≡◌, map, option_map, option_copied};
ghost use Rattle.aql_tree.specs.View.{tree, trees, maybe, members, steps, links, clauses};
ghost use Rattle.aql_tree.specs.View.{aggregates, into_tree, query_tree, clause_tree, step_part};
ghost use Rattle.aql_tree.specs.View.{member_part, link_part, key_part, let_part, aggregate_part};
ghost use Rattle.aql_tree.specs.View.{into_part};
ghost use Rattle.aql_parse.specs.Within as spec;

use aql_tree::{AggregateItem, Clause, Expr, Field, Into, Key, Let, Link, Query, Step};

#[cycle(within)]
fn expr_within(expr: &Expr, most: u32) -> bool
    ensures { result ≡ spec.expr_within most (tree expr.now) }
{
    match expr {
        Expr::Lit(_) => true,
        Expr::Var(_) => true,
        Expr::Current => true,
        Expr::List(items) => exprs_within(items.as_slice(), most),
        Expr::Object(fields) => members_within(fields.as_slice(), most),
        Expr::Access { of, steps } => {
            expr_within(of, most) && steps_within(steps.as_slice(), most)
        }
        Expr::Call { args, .. } => exprs_within(args.as_slice(), most),
        Expr::Unary { of, .. } => expr_within(of, most),
        Expr::Chain { first, rest } => {
            expr_within(first, most) && links_within(rest.as_slice(), most)
        }
        Expr::Quant { left, right, .. } => expr_within(left, most) && expr_within(right, most),
        Expr::Cond { test, yes, no } => {
            expr_within(test, most)
                && match yes {
                    Some(yes) => expr_within(yes, most),
                    None => true,
                }
                && expr_within(no, most)
        }
        Expr::Range { low, high } => expr_within(low, most) && expr_within(high, most),
        Expr::Sub(query) => traversals_within(query, most),
    }
}

#[cycle(within)]
fn maybe_within(expr: &Option<Expr>, most: u32) -> bool
    ensures { result ≡ spec.maybe_within most (maybe (option_map tree expr.now)) }
{
    match expr {
        Some(expr) => expr_within(expr, most),
        None => true,
    }
}

#[cycle(within)]
fn exprs_within(exprs: &[Expr], most: u32) -> bool
    ensures { result ≡ spec.exprs_within most (trees (map tree exprs.now)) }
{
    for first in exprs {
        if !expr_within(first, most) {
            return false;
        }
    }
    true
}

#[cycle(within)]
fn members_within(fields: &[Field], most: u32) -> bool
    ensures { result ≡ spec.members_within most (members (map member_part fields.now)) }
{
    for first in fields {
        let is_within = match first {
            Field::Named { value, .. } => expr_within(value, most),
            Field::Computed { name, value } => {
                expr_within(name, most) && expr_within(value, most)
            }
        };
        if !is_within {
            return false;
        }
    }
    true
}

#[cycle(within)]
fn steps_within(all: &[Step], most: u32) -> bool
    ensures { result ≡ spec.steps_within most (steps (map step_part all.now)) }
{
    for first in all {
        let is_within = match first {
            Step::Name(_) => true,
            Step::At(expr) => expr_within(expr, most),
            Step::Each { filter, project } => {
                maybe_within(filter, most) && maybe_within(project, most)
            }
        };
        if !is_within {
            return false;
        }
    }
    true
}

#[cycle(within)]
fn links_within(all: &[Link], most: u32) -> bool
    ensures { result ≡ spec.links_within most (links (map link_part all.now)) }
{
    for first in all {
        if !expr_within(&first.right, most) {
            return false;
        }
    }
    true
}

#[cycle(within)]
fn keys_within(keys: &[Key], most: u32) -> bool
    ensures { result ≡ spec.exprs_within most (trees (map (λ k. k.0) (map key_part keys.now))) }
{
    for first in keys {
        if !expr_within(&first.expr, most) {
            return false;
        }
    }
    true
}

#[cycle(within)]
fn lets_within(lets: &[Let], most: u32) -> bool
    ensures { result ≡ spec.exprs_within most (trees (map (λ l. l.1) (map let_part lets.now))) }
{
    for first in lets {
        if !expr_within(&first.expr, most) {
            return false;
        }
    }
    true
}

#[cycle(within)]
fn aggregates_within(all: &[AggregateItem], most: u32) -> bool
    ensures { result ≡ spec.aggregates_within most (aggregates (map aggregate_part all.now)) }
{
    for first in all {
        if !maybe_within(&first.arg, most) {
            return false;
        }
    }
    true
}

#[cycle(within)]
fn into_within(into: &Option<Into>, most: u32) -> bool
    ensures { result ≡ spec.into_within most (into_tree (option_map into_part into.now)) }
{
    match into {
        Some(into) => maybe_within(&into.what, most),
        None => true,
    }
}

#[cycle(within)]
fn clause_within(clause: &Clause, most: u32) -> bool
    ensures { result ≡ spec.clause_within most (clause_tree clause.now) }
{
    match clause {
        Clause::For { list, .. } => expr_within(list, most),
        Clause::ForDocs { .. } => true,
        Clause::Traversal(traversal) => {
            traversal.max <= most
                && expr_within(&traversal.start, most)
                && maybe_within(&traversal.prune, most)
                && members_within(traversal.options.settings.as_slice(), most)
        }
        Clause::Filter(expr) => expr_within(expr, most),
        Clause::Let { expr, .. } => expr_within(expr, most),
        Clause::Sort(keys) => keys_within(keys.as_slice(), most),
        Clause::Limit { .. } => true,
        Clause::Collect(collect) => {
            lets_within(collect.groups.as_slice(), most)
                && aggregates_within(collect.aggregates.as_slice(), most)
                && into_within(&collect.into, most)
        }
    }
}

#[cycle(within)]
fn clauses_within(all: &[Clause], most: u32) -> bool
    ensures { result ≡ spec.clauses_within most (clauses (map clause_tree all.now)) }
{
    for first in all {
        if !clause_within(first, most) {
            return false;
        }
    }
    true
}

/// Whether each traversal of the query, wherever it stands, goes at most `most` edges deep.
#[cycle(within)]
pub fn traversals_within(query: &Query, most: u32) -> bool
    ensures { result ≡ spec.traversals_within most (query_tree query.now) }
{
    clauses_within(query.clauses.as_slice(), most) && expr_within(&query.result, most)
}
