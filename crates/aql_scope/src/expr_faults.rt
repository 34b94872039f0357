//! The first fault of an expression.

ghost use Rattle.std.specs.Prelude.{map, option_map};
ghost use Rattle.aql_tree.specs.Tree.{function_call};
ghost use Rattle.aql_tree.specs.View.{tree, trees, maybe, members, steps, links};
ghost use Rattle.aql_tree.specs.View.{step_part, member_part, link_part};
ghost use Rattle.aql_scope.specs.Faults as spec;
ghost use Rattle.aql_scope.specs.Contexts.{context_of, Judges};

use crate::ScopeFault;
use crate::checks::{Judged, call_fault, variable_fault};
use crate::clause_faults::in_query;
use crate::names::At;
use aql_tree::{Expr, Field, Link, Step};
use aql_value::Text;

#[cycle(faults)]
pub fn in_expr(expr: &Expr, at: &At<'_>) -> Judged
    ensures { Judges result (spec.in_expr (context_of at.now) (tree expr.now)) }
{
    match expr {
        Expr::Lit(_) => Ok(()),
        Expr::Var(ident) => variable_fault(ident, at),
        Expr::Current => Ok(()),
        Expr::List(items) => in_exprs(items.as_slice(), at),
        Expr::Object(fields) => in_members(fields.as_slice(), at),
        Expr::Access { of, steps } => {
            in_expr(of, at)?;
            in_steps(steps.as_slice(), at)
        }
        Expr::Call { name, args } => in_call(args.as_slice(), name, at),
        Expr::Unary { of, .. } => in_expr(of, at),
        Expr::Chain { first, rest } => {
            in_expr(first, at)?;
            in_links(rest.as_slice(), at)
        }
        Expr::Quant { left, right, .. } => {
            in_expr(left, at)?;
            in_expr(right, at)
        }
        Expr::Cond { test, yes, no } => {
            in_expr(test, at)?;
            in_branch(yes, at)?;
            in_expr(no, at)
        }
        Expr::Range { low, high } => {
            in_expr(low, at)?;
            in_expr(high, at)
        }
        Expr::Sub(_) if !at.lifts => Err(ScopeFault::SubqueryNotAllowed),
        Expr::Sub(query) => in_query(query, at),
    }
}

// A call is judged at the function's name, before its arguments.
#[cycle(faults)]
#[tactic(auto, using(crate::proofs::Words::count_args))]
fn in_call(args: &[Expr], name: &Text, at: &At<'_>) -> Judged
    ensures { Judges result
        (spec.in_expr (context_of at.now) (function_call name.now (trees (map tree args.now)))) }
{
    call_fault(args.len(), name, at.alloc)?;
    in_exprs(args, at)
}

// What stands between `?` and `:`.
#[cycle(faults)]
fn in_branch(expr: &Option<Box<Expr>>, at: &At<'_>) -> Judged
    ensures { Judges result
        (spec.in_maybe (context_of at.now) (maybe (option_map (λ b. tree b.value) expr.now))) }
{
    match expr {
        Some(expr) => in_expr(expr, at),
        None => Ok(()),
    }
}

#[cycle(faults)]
pub fn in_maybe(expr: &Option<Expr>, at: &At<'_>) -> Judged
    ensures { Judges result (spec.in_maybe (context_of at.now) (maybe (option_map tree expr.now))) }
{
    match expr {
        Some(expr) => in_expr(expr, at),
        None => Ok(()),
    }
}

#[cycle(faults)]
fn in_exprs(exprs: &[Expr], at: &At<'_>) -> Judged
    ensures { Judges result (spec.in_exprs (context_of at.now) (trees (map tree exprs.now))) }
{
    for expr in exprs {
        in_expr(expr, at)?;
    }
    Ok(())
}

#[cycle(faults)]
fn in_members(fields: &[Field], at: &At<'_>) -> Judged
    ensures { Judges result
        (spec.in_members (context_of at.now) (members (map member_part fields.now))) }
{
    for field in fields {
        match field {
            Field::Named { value, .. } => in_expr(value, at)?,
            Field::Computed { name, value } => {
                in_expr(name, at)?;
                in_expr(value, at)?;
            }
        }
    }
    Ok(())
}

// In an inline expression no subquery may stand.
#[cycle(faults)]
fn in_steps(all: &[Step], at: &At<'_>) -> Judged
    ensures { Judges result (spec.in_steps (context_of at.now) (steps (map step_part all.now))) }
{
    for step in all {
        match step {
            Step::Name(_) => {}
            Step::At(expr) => in_expr(expr, at)?,
            Step::Each { filter, project } => {
                in_maybe(filter, &at.inline())?;
                in_maybe(project, &at.inline())?;
            }
        }
    }
    Ok(())
}

#[cycle(faults)]
fn in_links(all: &[Link], at: &At<'_>) -> Judged
    ensures { Judges result (spec.in_links (context_of at.now) (links (map link_part all.now))) }
{
    for link in all {
        in_expr(&link.right, at)?;
    }
    Ok(())
}
