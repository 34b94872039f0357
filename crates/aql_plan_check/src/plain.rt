//! Expressions without a subquery.

ghost use Rattle.std.specs.Prelude.{◌↔◌, [], ◌∷◌, IsTrue, map, option_map};
ghost use Rattle.aql_meaning.specs.Plain.{IsPlain, AllPlain, MaybePlain, MembersPlain, StepsPlain, LinksPlain};
ghost use Rattle.aql_tree.specs.View.{tree, trees, maybe, members, member_part, steps, step_part, links, link_part};
ghost use Rattle.aql_tree.specs.View.{key_part, let_part};

use aql_tree::{Expr, Field, Key, Let, Link, Step};

/// Whether an expression holds no subquery.
#[cycle(plain)]
pub(crate) fn is_plain(expr: &Expr) -> bool
    ensures { IsTrue result ↔ IsPlain (tree expr.now) }
{
    match expr {
        Expr::Lit(_) | Expr::Var(_) | Expr::Current => true,
        Expr::List(items) => all_plain(items.as_slice()),
        Expr::Object(fields) => fields_plain(fields.as_slice()),
        Expr::Access { of, steps } => is_plain(of) && steps_plain(steps.as_slice()),
        Expr::Call { args, .. } => all_plain(args.as_slice()),
        Expr::Unary { of, .. } => is_plain(of),
        Expr::Chain { first, rest } => is_plain(first) && links_plain(rest.as_slice()),
        Expr::Quant { left, right, .. } => is_plain(left) && is_plain(right),
        Expr::Cond { test, yes, no } => is_plain(test) && boxed_plain(yes) && is_plain(no),
        Expr::Range { low, high } => is_plain(low) && is_plain(high),
        Expr::Sub(_) => false,
    }
}

#[cycle(plain)]
fn boxed_plain(expr: &Option<Box<Expr>>) -> bool
    ensures { IsTrue result ↔ MaybePlain (maybe (option_map (λ e. tree e.value) expr.now)) }
{
    match expr {
        Some(expr) => is_plain(expr),
        None => true,
    }
}

/// The same of an expression that may be missing.
#[cycle(plain)]
pub(crate) fn maybe_plain(expr: &Option<Expr>) -> bool
    ensures { IsTrue result ↔ MaybePlain (maybe (option_map tree expr.now)) }
{
    match expr {
        Some(expr) => is_plain(expr),
        None => true,
    }
}

/// The same of each of these expressions.
#[cycle(plain)]
pub(crate) fn all_plain(exprs: &[Expr]) -> bool
    ensures { IsTrue result ↔ AllPlain (trees (map tree exprs.now)) }
{
    for expr in exprs {
        if !is_plain(expr) {
            return false;
        }
    }
    true
}

#[cycle(plain)]
fn field_plain(field: &Field) -> bool
    ensures { IsTrue result ↔ MembersPlain (members (member_part field.now ∷ [])) }
{
    match field {
        Field::Named { value, .. } => is_plain(value),
        Field::Computed { name, value } => is_plain(name) && is_plain(value),
    }
}

#[cycle(plain)]
fn fields_plain(fields: &[Field]) -> bool
    ensures { IsTrue result ↔ MembersPlain (members (map member_part fields.now)) }
{
    for field in fields {
        if !field_plain(field) {
            return false;
        }
    }
    true
}

#[cycle(plain)]
fn step_plain(step: &Step) -> bool
    ensures { IsTrue result ↔ StepsPlain (steps (step_part step.now ∷ [])) }
{
    match step {
        Step::Name(_) => true,
        Step::At(expr) => is_plain(expr),
        Step::Each { filter, project } => maybe_plain(filter) && maybe_plain(project),
    }
}

#[cycle(plain)]
fn steps_plain(all: &[Step]) -> bool
    ensures { IsTrue result ↔ StepsPlain (steps (map step_part all.now)) }
{
    for step in all {
        if !step_plain(step) {
            return false;
        }
    }
    true
}

#[cycle(plain)]
fn links_plain(all: &[Link]) -> bool
    ensures { IsTrue result ↔ LinksPlain (links (map link_part all.now)) }
{
    for link in all {
        if !is_plain(&link.right) {
            return false;
        }
    }
    true
}

/// The same of each of these keys.
pub(crate) fn keys_plain(keys: &[Key]) -> bool
    ensures { IsTrue result ↔ AllPlain (trees (map (λ k. k.0) (map key_part keys.now))) }
{
    for key in keys {
        if !is_plain(&key.expr) {
            return false;
        }
    }
    true
}

/// The same of what each of these variables takes.
pub(crate) fn lets_plain(lets: &[Let]) -> bool
    ensures { IsTrue result ↔ AllPlain (trees (map (λ l. l.1) (map let_part lets.now))) }
{
    for each in lets {
        if !is_plain(&each.expr) {
            return false;
        }
    }
    true
}
