//! Whether each variable that is used is there.

ghost use Rattle.std.specs.Prelude.{◌↔◌, [], ◌∷◌, IsTrue, map, option_map};
ghost use Rattle.aql_tree.specs.View.{tree, trees, maybe, members, member_part, steps, step_part, links, link_part};
ghost use Rattle.aql_plan_check.specs.inner.Findings.{IsAmong, Finds, AllFind, MaybeFinds, MembersFind, StepsFind, LinksFind};
ghost use Rattle.aql_plan_check.specs.inner.Rows.{variables};

use crate::rows::Variables;
use aql_tree::{Expr, Field, Ident, Link, Step};

/// Whether there is this variable.
pub(crate) fn is_there(ident: &Ident, rows: &Variables) -> bool
    ensures { IsTrue result ↔ IsAmong (variables rows.now.keys) ident.now }
{
    match ident {
        Ident::Num(n) => rows.contains(n),
        Ident::Name(_) => false,
    }
}

/// Whether each variable that an expression uses is there.
#[cycle(found)]
pub(crate) fn finds(expr: &Expr, rows: &Variables) -> bool
    ensures { IsTrue result ↔ Finds (variables rows.now.keys) (tree expr.now) }
{
    match expr {
        Expr::Lit(_) | Expr::Current | Expr::Sub(_) => true,
        Expr::Var(ident) => is_there(ident, rows),
        Expr::List(items) => all_find(items.as_slice(), rows),
        Expr::Object(fields) => fields_find(fields.as_slice(), rows),
        Expr::Access { of, steps } => finds(of, rows) && steps_find(steps.as_slice(), rows),
        Expr::Call { args, .. } => all_find(args.as_slice(), rows),
        Expr::Unary { of, .. } => finds(of, rows),
        Expr::Chain { first, rest } => finds(first, rows) && links_find(rest.as_slice(), rows),
        Expr::Quant { left, right, .. } => finds(left, rows) && finds(right, rows),
        Expr::Cond { test, yes, no } => {
            finds(test, rows) && boxed_finds(yes, rows) && finds(no, rows)
        }
        Expr::Range { low, high } => finds(low, rows) && finds(high, rows),
    }
}

#[cycle(found)]
fn boxed_finds(expr: &Option<Box<Expr>>, rows: &Variables) -> bool
    ensures { IsTrue result ↔ MaybeFinds (variables rows.now.keys)
        (maybe (option_map (λ e. tree e.value) expr.now)) }
{
    match expr {
        Some(expr) => finds(expr, rows),
        None => true,
    }
}

/// The same of an expression that may be missing.
#[cycle(found)]
pub(crate) fn maybe_finds(expr: &Option<Expr>, rows: &Variables) -> bool
    ensures { IsTrue result
        ↔ MaybeFinds (variables rows.now.keys) (maybe (option_map tree expr.now)) }
{
    match expr {
        Some(expr) => finds(expr, rows),
        None => true,
    }
}

/// The same of each of these expressions.
#[cycle(found)]
pub(crate) fn all_find(exprs: &[Expr], rows: &Variables) -> bool
    ensures { IsTrue result ↔ AllFind (variables rows.now.keys) (trees (map tree exprs.now)) }
{
    for expr in exprs {
        if !finds(expr, rows) {
            return false;
        }
    }
    true
}

#[cycle(found)]
fn field_finds(field: &Field, rows: &Variables) -> bool
    ensures { IsTrue result
        ↔ MembersFind (variables rows.now.keys) (members (member_part field.now ∷ [])) }
{
    match field {
        Field::Named { value, .. } => finds(value, rows),
        Field::Computed { name, value } => finds(name, rows) && finds(value, rows),
    }
}

#[cycle(found)]
fn fields_find(fields: &[Field], rows: &Variables) -> bool
    ensures { IsTrue result
        ↔ MembersFind (variables rows.now.keys) (members (map member_part fields.now)) }
{
    for field in fields {
        if !field_finds(field, rows) {
            return false;
        }
    }
    true
}

#[cycle(found)]
fn step_finds(step: &Step, rows: &Variables) -> bool
    ensures { IsTrue result
        ↔ StepsFind (variables rows.now.keys) (steps (step_part step.now ∷ [])) }
{
    match step {
        Step::Name(_) => true,
        Step::At(expr) => finds(expr, rows),
        Step::Each { filter, project } => maybe_finds(filter, rows) && maybe_finds(project, rows),
    }
}

#[cycle(found)]
fn steps_find(all: &[Step], rows: &Variables) -> bool
    ensures { IsTrue result ↔ StepsFind (variables rows.now.keys) (steps (map step_part all.now)) }
{
    for step in all {
        if !step_finds(step, rows) {
            return false;
        }
    }
    true
}

#[cycle(found)]
fn links_find(all: &[Link], rows: &Variables) -> bool
    ensures { IsTrue result ↔ LinksFind (variables rows.now.keys) (links (map link_part all.now)) }
{
    for link in all {
        if !finds(&link.right, rows) {
            return false;
        }
    }
    true
}
