//! Lists of two nodes compared.

ghost use Rattle.std.specs.Prelude.{◌≡◌, ◌↔◌, [], ◌∷◌, IsTrue, map, option_map};
ghost use Rattle.aql_tree.specs.Tree.{access, variable, name_then, no_steps};
ghost use Rattle.aql_tree.specs.View.{tree, maybe, let_part, key_part, aggregate_part, steps, step_part};
ghost use Rattle.aql_tree.specs.declared.syntax.Ident.TheVariants.{Num};
ghost use Rattle.aql_meaning.specs.Plain.{AllPlain, MaybePlain};
ghost use Rattle.aql_plan.specs.View.{directions, key_trees};
ghost use Rattle.aql_plan_check.specs.inner.View.{order_of};
ghost use Rattle.aql_plan.specs.Shapes as spec;
ghost use Rattle.aql_plan_check.specs.inner.Sameness.{LetsSame, KeysSame, AggregatesSame, AreAttributes};

use crate::shapes::Order;
use aql_meaning::same_variable;
use aql_rewrite::same_expr;
use aql_tree::{AggregateItem, Expr, Ident, Key, Let, Step};
use aql_value::Text;

fn same_let(a: &Let, b: &Let) -> bool
    ensures { IsTrue result ↔ LetsSame (let_part a.now ∷ []) (let_part b.now ∷ []) }
{
    same_variable(&a.var, &b.var) && same_expr(&a.expr, &b.expr)
}

/// Whether these variables take the same expressions, without a subquery.
pub(crate) fn same_lets(a: &[Let], b: &[Let]) -> bool
    ensures { IsTrue result ↔ LetsSame (map let_part a.now) (map let_part b.now) }
{
    if a.len() != b.len() {
        return false;
    }
    for (i, each) in a.iter().enumerate() {
        if !same_let(each, &b[i]) {
            return false;
        }
    }
    true
}

fn same_key(a: &Key, b: &Key) -> bool
    ensures { IsTrue result ↔ KeysSame (key_part a.now ∷ []) (key_part b.now ∷ []) }
{
    a.descending == b.descending && same_expr(&a.expr, &b.expr)
}

/// Whether these keys are the same, without a subquery.
fn same_keys(a: &[Key], b: &[Key]) -> bool
    ensures { IsTrue result ↔ KeysSame (map key_part a.now) (map key_part b.now) }
{
    if a.len() != b.len() {
        return false;
    }
    for (i, key) in a.iter().enumerate() {
        if !same_key(key, &b[i]) {
            return false;
        }
    }
    true
}

fn same_argument(a: &Option<Expr>, b: &Option<Expr>) -> bool
    ensures { IsTrue result ↔ (MaybePlain (maybe (option_map tree a.now))
        × (maybe (option_map tree a.now) ≡ maybe (option_map tree b.now))) }
{
    match (a, b) {
        (None, None) => true,
        (Some(a), Some(b)) => same_expr(a, b),
        _ => false,
    }
}

fn same_aggregate(a: &AggregateItem, b: &AggregateItem) -> bool
    ensures { IsTrue result
        ↔ AggregatesSame (aggregate_part a.now ∷ []) (aggregate_part b.now ∷ []) }
{
    same_variable(&a.var, &b.var)
        && a.name.as_str() == b.name.as_str()
        && same_argument(&a.arg, &b.arg)
}

/// Whether these aggregates are the same, without a subquery.
pub(crate) fn same_aggregates(a: &[AggregateItem], b: &[AggregateItem]) -> bool
    ensures { IsTrue result
        ↔ AggregatesSame (map aggregate_part a.now) (map aggregate_part b.now) }
{
    if a.len() != b.len() {
        return false;
    }
    for (i, aggregate) in a.iter().enumerate() {
        if !same_aggregate(aggregate, &b[i]) {
            return false;
        }
    }
    true
}

fn is_variable(expr: &Expr, var: u32) -> bool
    ensures { IsTrue result ↔ (tree expr.now ≡ variable (Num var)) }
{
    match expr {
        Expr::Var(ident) => match ident {
            Ident::Num(of) => *of == var,
            Ident::Name(_) => false,
        },
        _ => false,
    }
}

fn is_one_name(all: &[Step], name: &Text) -> bool
    ensures { IsTrue result ↔ (steps (map step_part all.now) ≡ name_then name.now no_steps) }
{
    match all.split_first() {
        Some((Step::Name(step), more)) => match more.split_first() {
            None => step.as_str() == name.as_str(),
            Some(_) => false,
        },
        _ => false,
    }
}

fn is_attribute(expr: &Expr, var: u32, name: &Text) -> bool
    ensures { IsTrue result
        ↔ (tree expr.now ≡ access (variable (Num var)) (name_then name.now no_steps)) }
{
    match expr {
        Expr::Access { of, steps } => {
            is_variable(of, var) && is_one_name(steps.as_slice(), name)
        }
        _ => false,
    }
}

fn is_attribute_key(key: &Key, var: u32, name: &Text, descending: bool) -> bool
    ensures { IsTrue result ↔ AreAttributes (key.now ∷ []) var (name.now ∷ []) descending }
{
    key.descending == descending && is_attribute(&key.expr, var, name)
}

// Whether these keys are these attributes of a variable, all in one direction.
fn are_attributes(keys: &[Key], var: u32, names: &[Text], descending: bool) -> bool
    ensures { IsTrue result ↔ AreAttributes keys.now var names.now descending }
{
    if keys.len() != names.len() {
        return false;
    }
    for (i, key) in keys.iter().enumerate() {
        if !is_attribute_key(key, var, &names[i], descending) {
            return false;
        }
    }
    true
}

/// Whether rows in this order are in that of these keys, which hold no subquery.
pub(crate) fn orders_by(order: Order<'_>, keys: &[Key]) -> bool
    requires { AllPlain (key_trees keys.now) }
    ensures { IsTrue result
        ↔ (order_of order.entry ≡ spec.by_keys (directions keys.now) (key_trees keys.now)) }
{
    match order {
        Order::Unordered => false,
        Order::Keys(of) => same_keys(keys, of),
        Order::Attributes {
            var,
            names,
            descending,
        } => are_attributes(keys, var, names, descending),
    }
}
