//! The clauses of a query are lifted, and the query.

ghost use Rattle.std.specs.Prelude.{◌≡◌, suc, [], ◌∷◌, ◌++◌, map, IfOk, OnOk};
ghost use Rattle.aql_tree.specs.Tree.{let_be};
ghost use Rattle.aql_tree.specs.View.{tree, trees, query_tree, clause_tree, key_part};
ghost use Rattle.aql_scope.specs.Numbering.{number_of, from_name, text_of};
ghost use Rattle.aql_scope.specs.Lifting as spec;
ghost use Rattle.aql_scope.specs.Lifts.{LiftsNext, LiftsClause, LiftsQuery, bound, visible};

use crate::Made;
use crate::lift_collect::lift_collect;
use crate::lift_exprs::{lift_boxed, lift_expr};
use crate::lift_traversals::lift_traversal;
use crate::names::{NameList, Scope};
use crate::numbers::{LiftState, Numbers};
use aql_tree::{Clause, Expr, Ident, Keys, Query};
use aql_value::{Seq, Value};
use std::alloc::Global;
use std::mem;

/// A query among the names that are visible where it stands.
#[cycle(lift)]
pub fn lift_query(query: &mut Query, around: &Scope, walk: &mut LiftState) -> Made<()>
    ensures query { LiftsQuery (spec.scope_query (visible around.now) walk.old.numbers.next
        (query_tree query.old)) walk.old.numbers result walk.new.numbers (query_tree query.new) }
    ensures lets { OnOk result (walk.new.lets ≡ walk.old.lets) }
{
    let mut scope = around.subquery(walk.numbers.alloc)?;
    let lets_around = mem::replace(&mut walk.lets, Seq::new(walk.numbers.alloc));
    let clauses = query.clauses.as_mut_slice();
    for clause in clauses.iter_mut() {
        lift_clause(clause, &mut scope, walk)?;
        // The clause moves behind its LETs; what stands in its place is let go below.
        let lifted = mem::replace(clause, Clause::Sort(Seq::new(walk.numbers.alloc)));
        walk.lets.push(lifted)?;
    }
    lift_boxed(&mut query.result, &scope, walk)?;
    query.clauses = mem::replace(&mut walk.lets, lets_around);
    Ok(())
}

/// A subquery.
#[cycle(lift)]
pub fn lift_inner(query: &mut Box<Query>, around: &Scope, walk: &mut LiftState) -> Made<()>
    ensures query { LiftsQuery (spec.scope_query (visible around.now) walk.old.numbers.next
        (query_tree query.old.value)) walk.old.numbers result walk.new.numbers
        (query_tree query.new.value) }
    ensures lets { OnOk result (walk.new.lets ≡ walk.old.lets) }
{
    lift_query(&mut **query, around, walk)
}

// A clause; the query's own names are then those after it.
#[cycle(lift)]
fn lift_clause(clause: &mut Clause, scope: &mut Scope, walk: &mut LiftState) -> Made<()>
    ensures { LiftsClause scope.old walk.old result scope.new walk.new (clause_tree clause.old)
        (clause_tree clause.new) }
{
    match clause {
        Clause::For { var, list } => match list {
            Expr::Var(ident) => {
                *clause = over_name(var, ident, scope, &mut walk.numbers)?;
                Ok(())
            }
            _ => lift_bound(var, list, scope, walk),
        },
        Clause::ForDocs { var, collection: _ } => walk.numbers.enter(var, &mut scope.own),
        Clause::Traversal(traversal) => lift_traversal(traversal, scope, walk),
        Clause::Filter(test) => lift_expr(test, scope, walk),
        Clause::Let { var, expr } => lift_let(var, expr, scope, walk),
        Clause::Sort(keys) => lift_keys(keys, scope, walk),
        Clause::Limit {
            offset: _,
            count: _,
        } => Ok(()),
        Clause::Collect(collect) => lift_collect(collect, scope, walk),
    }
}

// FOR over a single name: a visible variable, or else a collection.
fn over_name(
    var: &mut Ident,
    ident: &Ident,
    scope: &mut Scope,
    numbers: &mut Numbers,
) -> Made<Clause>
    ensures clause { IfOk result (λ c. clause_tree c
        ≡ from_name numbers.old.next (number_of (visible scope.old) ident.now) ident.now) }
    ensures own { OnOk result (scope.new.own ≡ (var.old, numbers.old.next) ∷ scope.old.own) }
    ensures outer { scope.new.outer ≡ scope.old.outer }
    ensures next { OnOk result (numbers.new.next ≡ suc numbers.old.next) }
    ensures said { OnOk result (numbers.new.said ≡ numbers.old.said ++ text_of var.old ∷ []) }
{
    let found = scope.find(ident);
    let number = numbers.next;
    numbers.enter(var, &mut scope.own)?;
    source(ident, number, found, numbers.alloc)
}

// FOR over a variable of this number, or else over a collection.
fn source(ident: &Ident, number: u32, found: Option<u32>, alloc: Global) -> Made<Clause>
    ensures { IfOk result (λ c. clause_tree c ≡ from_name number found ident.now) }
{
    let var = Ident::Num(number);
    match (found, ident) {
        (Some(found), _) => Ok(Clause::For {
            var,
            list: Expr::Var(Ident::Num(found)),
        }),
        (None, Ident::Name(name)) => Ok(Clause::ForDocs {
            var,
            collection: name.copy(alloc)?,
        }),
        (None, Ident::Num(_)) => Ok(Clause::For {
            var,
            list: Expr::Lit(Value::Null),
        }),
    }
}

// The variable of FOR or LET, and its expression, in which it is not visible.
#[cycle(lift)]
fn lift_bound(var: &mut Ident, expr: &mut Expr, scope: &mut Scope, walk: &mut LiftState) -> Made<()>
    ensures part { LiftsNext walk.old result walk.new (var.new, tree expr.new)
        (λ n. bound (visible scope.old) n var.old (tree expr.old)) }
    ensures own { OnOk result (scope.new.own ≡ (var.old, walk.old.numbers.next) ∷ scope.old.own) }
    ensures outer { scope.new.outer ≡ scope.old.outer }
{
    let number = walk.numbers.declare(var)?;
    lift_expr(expr, scope, walk)?;
    scope.own.number(var, number)
}

// LET of a subquery, which stays there, or of any other expression.
#[cycle(lift)]
fn lift_let(var: &mut Ident, expr: &mut Expr, scope: &mut Scope, walk: &mut LiftState) -> Made<()>
    ensures { LiftsClause scope.old walk.old result scope.new walk.new
        (let_be var.old (tree expr.old)) (let_be var.new (tree expr.new)) }
{
    match expr {
        Expr::Sub(query) => {
            let number = walk.numbers.declare(var)?;
            lift_inner(query, scope, walk)?;
            scope.own.number(var, number)
        }
        _ => lift_bound(var, expr, scope, walk),
    }
}

#[cycle(lift)]
fn lift_keys(keys: &mut Keys, scope: &Scope, walk: &mut LiftState) -> Made<()>
    ensures keys { LiftsNext walk.old result walk.new
        (trees (map (λ k. k.0) (map key_part keys.new)))
        (λ n. spec.exprs (visible scope.now) n (trees (map (λ k. k.0) (map key_part keys.old)))) }
    ensures directions { OnOk result (map (λ k. k.1) (map key_part keys.new)
        ≡ map (λ k. k.1) (map key_part keys.old)) }
{
    let items = keys.as_mut_slice();
    for key in items.iter_mut() {
        lift_expr(&mut key.expr, scope, walk)?;
    }
    Ok(())
}
