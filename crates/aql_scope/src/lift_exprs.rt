//! The expressions of a query are lifted where they stand.

ghost use Rattle.std.specs.Prelude.{◌≡◌, [], ◌∷◌, ◌++◌, map, option_map, OnOk};
ghost use Rattle.aql_tree.specs.Tree.{variable, let_be};
ghost use Rattle.aql_tree.specs.View.{tree, trees, maybe, members, steps, links, clause_tree};
ghost use Rattle.aql_tree.specs.View.{step_part, member_part, link_part};
ghost use Rattle.aql_tree.specs.declared.syntax.Ident.TheVariants.{Num};
ghost use Rattle.aql_scope.specs.Numbering.{number_of, numbered_variable};
ghost use Rattle.aql_scope.specs.Lifting as spec;
ghost use Rattle.aql_scope.specs.Lifts.{LiftsNext, visible, one_member, one_step};

use crate::Made;
use crate::lift_clauses::lift_inner;
use crate::names::Scope;
use crate::numbers::LiftState;
use aql_tree::{Clause, Clauses, Expr, Exprs, Field, Fields, Ident, Links, Step, Steps};
use aql_value::Value;
use std::mem;

/// A variable by its number; null for a name that is not visible.
pub fn number_variable(ident: &Ident, scope: &Scope) -> Expr
    ensures { tree result ≡ numbered_variable (number_of (visible scope.now) ident.now) }
{
    match scope.find(ident) {
        Some(number) => Expr::Var(Ident::Num(number)),
        None => Expr::Lit(Value::Null),
    }
}

#[cycle(lift)]
pub fn lift_expr(expr: &mut Expr, scope: &Scope, walk: &mut LiftState) -> Made<()>
    ensures { LiftsNext walk.old result walk.new (tree expr.new)
        (λ n. spec.expr (visible scope.now) n (tree expr.old)) }
{
    match expr {
        Expr::Lit(_) | Expr::Current => Ok(()),
        Expr::Var(ident) => {
            *expr = number_variable(ident, scope);
            Ok(())
        }
        Expr::List(items) => lift_all(items, scope, walk),
        Expr::Object(fields) => lift_members(fields, scope, walk),
        Expr::Access { of, steps } => {
            lift_boxed(of, scope, walk)?;
            lift_steps(steps, scope, walk)
        }
        Expr::Call { name: _, args } => lift_all(args, scope, walk),
        Expr::Unary { op: _, of } => lift_boxed(of, scope, walk),
        Expr::Chain { first, rest } => {
            lift_boxed(first, scope, walk)?;
            lift_links(rest, scope, walk)
        }
        Expr::Quant {
            left,
            kind: _,
            op: _,
            right,
        } => {
            lift_boxed(left, scope, walk)?;
            lift_boxed(right, scope, walk)
        }
        Expr::Cond { test, yes, no } => {
            lift_boxed(test, scope, walk)?;
            lift_branch(yes, scope, walk)?;
            lift_boxed(no, scope, walk)
        }
        Expr::Range { low, high } => {
            lift_boxed(low, scope, walk)?;
            lift_boxed(high, scope, walk)
        }
        Expr::Sub(query) => {
            let number = walk.numbers.subquery()?;
            lift_inner(query, scope, walk)?;
            take_out(expr, number, &mut walk.lets)
        }
    }
}

#[cycle(lift)]
pub fn lift_boxed(expr: &mut Box<Expr>, scope: &Scope, walk: &mut LiftState) -> Made<()>
    ensures { LiftsNext walk.old result walk.new (tree expr.new.value)
        (λ n. spec.expr (visible scope.now) n (tree expr.old.value)) }
{
    lift_expr(&mut **expr, scope, walk)
}

// What stands between `?` and `:`.
#[cycle(lift)]
fn lift_branch(expr: &mut Option<Box<Expr>>, scope: &Scope, walk: &mut LiftState) -> Made<()>
    ensures { LiftsNext walk.old result walk.new (maybe (option_map (λ b. tree b.value) expr.new))
        (λ n. spec.maybe (visible scope.now) n (maybe (option_map (λ b. tree b.value) expr.old))) }
{
    match expr {
        Some(expr) => lift_expr(&mut **expr, scope, walk),
        None => Ok(()),
    }
}

#[cycle(lift)]
pub fn lift_maybe(expr: &mut Option<Expr>, scope: &Scope, walk: &mut LiftState) -> Made<()>
    ensures { LiftsNext walk.old result walk.new (maybe (option_map tree expr.new))
        (λ n. spec.maybe (visible scope.now) n (maybe (option_map tree expr.old))) }
{
    match expr {
        Some(expr) => lift_expr(expr, scope, walk),
        None => Ok(()),
    }
}

#[cycle(lift)]
fn lift_all(exprs: &mut Exprs, scope: &Scope, walk: &mut LiftState) -> Made<()>
    ensures { LiftsNext walk.old result walk.new (trees (map tree exprs.new))
        (λ n. spec.exprs (visible scope.now) n (trees (map tree exprs.old))) }
{
    let items = exprs.as_mut_slice();
    for expr in items.iter_mut() {
        lift_expr(expr, scope, walk)?;
    }
    Ok(())
}

#[cycle(lift)]
fn lift_members(fields: &mut Fields, scope: &Scope, walk: &mut LiftState) -> Made<()>
    ensures { LiftsNext walk.old result walk.new (members (map member_part fields.new))
        (λ n. spec.members (visible scope.now) n (members (map member_part fields.old))) }
{
    let items = fields.as_mut_slice();
    for field in items.iter_mut() {
        lift_member(field, scope, walk)?;
    }
    Ok(())
}

#[cycle(lift)]
fn lift_member(field: &mut Field, scope: &Scope, walk: &mut LiftState) -> Made<()>
    ensures { LiftsNext walk.old result walk.new (member_part field.new)
        (λ n. one_member (visible scope.now) n (member_part field.old)) }
{
    match field {
        Field::Named { name: _, value } => lift_expr(value, scope, walk),
        Field::Computed { name, value } => {
            lift_expr(name, scope, walk)?;
            lift_expr(value, scope, walk)
        }
    }
}

#[cycle(lift)]
fn lift_steps(all: &mut Steps, scope: &Scope, walk: &mut LiftState) -> Made<()>
    ensures { LiftsNext walk.old result walk.new (steps (map step_part all.new))
        (λ n. spec.steps (visible scope.now) n (steps (map step_part all.old))) }
{
    let items = all.as_mut_slice();
    for step in items.iter_mut() {
        lift_step(step, scope, walk)?;
    }
    Ok(())
}

#[cycle(lift)]
fn lift_step(step: &mut Step, scope: &Scope, walk: &mut LiftState) -> Made<()>
    ensures { LiftsNext walk.old result walk.new (step_part step.new)
        (λ n. one_step (visible scope.now) n (step_part step.old)) }
{
    match step {
        Step::Name(_) => Ok(()),
        Step::At(place) => lift_expr(place, scope, walk),
        Step::Each { filter, project } => {
            lift_maybe(filter, scope, walk)?;
            lift_maybe(project, scope, walk)
        }
    }
}

#[cycle(lift)]
fn lift_links(all: &mut Links, scope: &Scope, walk: &mut LiftState) -> Made<()>
    ensures { LiftsNext walk.old result walk.new (links (map link_part all.new))
        (λ n. spec.links (visible scope.now) n (links (map link_part all.old))) }
{
    let items = all.as_mut_slice();
    for link in items.iter_mut() {
        lift_expr(&mut link.right, scope, walk)?;
    }
    Ok(())
}

// Leaves the variable of this number in place of a subquery, whose LET then stands before the
// clause at hand.
fn take_out(subquery: &mut Expr, number: u32, lets: &mut Clauses) -> Made<()>
    ensures variable { tree subquery.new ≡ variable (Num number) }
    ensures lets { OnOk result (map clause_tree lets.new
        ≡ map clause_tree lets.old ++ let_be (Num number) (tree subquery.old) ∷ []) }
{
    let expr = mem::replace(subquery, Expr::Var(Ident::Num(number)));
    let var = Ident::Num(number);
    lets.push(Clause::Let { var, expr })
}
