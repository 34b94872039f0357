//! The parts of conditions, and those that compare an attribute of a document.

ghost use Rattle.std.specs.Prelude.{◌≡◌, Some, None, Option, List, ℕ, cond, map, option_map, IfOk, MatchOption};
ghost use Rattle.aql_tree.specs.declared.syntax.Ident.{Ident as spec_Ident};
ghost use Rattle.aql_tree.specs.declared.syntax.Ident.TheVariants.{Num};
ghost use Rattle.aql_tree.specs.View.{tree, steps, step_part};
ghost use Rattle.aql_meaning.specs.Uses.{uses, is_used as spec_is_used};
ghost use Rattle.aql_plan.specs.FirstPlan.{conjuncts};
ghost use Rattle.aql_rewrite.specs.ExprView.{lent};
ghost use Rattle.aql_rules_index.specs.Choice.{lone_name as spec_lone_name, of_variable};
ghost use Rattle.aql_rules_index.specs.Choice.{attribute_of as spec_attribute_of};
ghost use Rattle.aql_rules_index.specs.Choice.{is_bound as spec_is_bound, mirrored as spec_mirrored};
ghost use Rattle.aql_rules_index.specs.Choice.{where_apart as spec_where_apart, from_left};
ghost use Rattle.aql_rules_index.specs.Choice.{item_of as spec_item_of, items_of as spec_items_of};
ghost use Rattle.aql_rules_index.specs.inner.Parts.{is_and_chain as spec_is_and_chain, name_in as spec_name_in};
ghost use Rattle.aql_rules_index.specs.inner.Views.{item_tree};

use aql_func::BinOp;
use aql_meaning::same_variable;
use aql_plan::{add_uses, is_all_and};
use aql_rewrite::{children, is_used, only};
use aql_tree::{Expr, Ident, Link, Step};
use aql_value::{OutOfMemory, Seq, Text};
use std::alloc::Global;

/// A part of a condition as `x.name op other`, where x is the variable of a document and the other
/// side does not use it.
#[derive(Clone, Copy, Drop)]
pub struct Item<'a> {
    pub name: &'a Text,
    pub op: BinOp,
    pub other: &'a Expr,
}

// Whether a condition is a chain of `&&`.
fn is_and_chain(cond: &Expr) -> bool
    ensures { result ≡ spec_is_and_chain (tree cond.now) }
{
    match cond {
        Expr::Chain { rest, .. } => is_all_and(rest.as_slice()),
        _ => false,
    }
}

/// The parts of an `&&` chain; any other condition is one part.
pub fn parts_of(alloc: Global, cond: &Expr) -> Result<Vec<&Expr>, OutOfMemory>
    ensures { IfOk result (λ parts. map lent parts.items ≡ conjuncts (tree cond.now)) }
{
    if is_and_chain(cond) {
        let parts = children(alloc, cond)?;
        return Ok(parts);
    }
    let mut parts = Vec::new(alloc);
    parts.push(cond)?;
    Ok(parts)
}

fn name_in(step: &Step) -> Option<&Text>
    ensures { option_map (λ name. name.now) result ≡ spec_name_in (step_part step.now) }
{
    match step {
        Step::Name(name) => Some(name),
        _ => None,
    }
}

// The name of the one step of `.name`.
fn lone_name(all: &[Step]) -> Option<&Text>
    ensures { option_map (λ name. name.now) result
        ≡ spec_lone_name (steps (map step_part all.now)) }
{
    match all {
        [step] => name_in(step),
        _ => None,
    }
}

fn is_variable(var: u32, expr: &Expr) -> bool
    ensures { (name : Option (List ℕ))
        → of_variable (Num var) (tree expr.now) name ≡ cond result name None }
{
    match expr {
        Expr::Var(ident) => same_variable(&Ident::Num(var), ident),
        _ => false,
    }
}

/// The name in `x.name`, where x is the variable of this number.
pub(crate) fn attribute_of(var: u32, expr: &Expr) -> Option<&Text>
    ensures { option_map (λ name. name.now) result
        ≡ spec_attribute_of (Num var) (tree expr.now) }
{
    match expr {
        Expr::Access { of, steps } => {
            if !is_variable(var, of) {
                return None;
            }
            lone_name(steps.as_slice())
        }
        _ => None,
    }
}

// Whether bounds have an operator.
fn is_bound(op: BinOp) -> bool
    ensures { result ≡ spec_is_bound op }
{
    matches!(
        op,
        BinOp::Eq | BinOp::Lt | BinOp::Le | BinOp::Gt | BinOp::Ge | BinOp::IsIn
    )
}

// The operator between the same sides in the other order, where bounds have it.
fn mirrored(op: BinOp) -> Option<BinOp>
    ensures { result ≡ spec_mirrored op }
{
    match op {
        BinOp::Eq => Some(BinOp::Eq),
        BinOp::Lt => Some(BinOp::Gt),
        BinOp::Le => Some(BinOp::Ge),
        BinOp::Gt => Some(BinOp::Lt),
        BinOp::Ge => Some(BinOp::Le),
        _ => None,
    }
}

/// Whether an expression uses the variable of this number.
pub fn uses_variable(alloc: Global, var: u32, expr: &Expr) -> Result<bool, OutOfMemory>
    ensures { IfOk result (λ answer. answer ≡ spec_is_used (Num var) (uses (tree expr.now))) }
{
    let mut own_uses = Seq::new(alloc);
    add_uses(expr, alloc, &mut own_uses)?;
    let all = only(alloc, own_uses)?;
    Ok(is_used(var, all.as_slice()))
}

// The item, where its other side does not use the document.
fn where_apart<'a>(alloc: Global, var: u32, item: Item<'a>) -> Result<Option<Item<'a>>, OutOfMemory>
    ensures { IfOk result (λ found. option_map item_tree found
        ≡ spec_where_apart (Num var) (item_tree item.entry).other (Some (item_tree item.entry))) }
{
    if uses_variable(alloc, var, item.other)? {
        return Ok(None);
    }
    Ok(Some(item))
}

// The left side of a chain of one link, and the link.
fn comparison_in(expr: &Expr) -> Option<(&Expr, &Link)>
    ensures { MatchOption result ((x : spec_Ident) → spec_item_of x (tree expr.now) ≡ None)
        (λ c. (x : spec_Ident) → spec_item_of x (tree expr.now)
        ≡ from_left x c.1.now.op (tree c.0.now) (tree c.1.now.right)
        (spec_attribute_of x (tree c.0.now))) }
{
    match expr {
        Expr::Chain { first, rest } => match rest.as_slice() {
            [link] => Some((first, link)),
            _ => None,
        },
        _ => None,
    }
}

/// What a part of a condition says of an attribute of the document; `None` exactly where it is no
/// such item.
pub fn item_of<'a>(alloc: Global, var: u32, part: &'a Expr) -> Result<Option<Item<'a>>, OutOfMemory>
    ensures { IfOk result
        (λ found. option_map item_tree found ≡ spec_item_of (Num var) (tree part.now)) }
{
    let Some((left, link)) = comparison_in(part) else {
        return Ok(None);
    };
    if let Some(name) = attribute_of(var, left) {
        if !is_bound(link.op) {
            return Ok(None);
        }
        let item = Item {
            name,
            op: link.op,
            other: &link.right,
        };
        let found = where_apart(alloc, var, item)?;
        return Ok(found);
    }
    let Some(op) = mirrored(link.op) else {
        return Ok(None);
    };
    let Some(name) = attribute_of(var, &link.right) else {
        return Ok(None);
    };
    let item = Item {
        name,
        op,
        other: left,
    };
    let found = where_apart(alloc, var, item)?;
    Ok(found)
}

/// The items among the parts of a condition, in their order.
pub(crate) fn items_of<'a>(
    alloc: Global,
    var: u32,
    parts: &[&'a Expr],
) -> Result<Vec<Item<'a>>, OutOfMemory>
    ensures { IfOk result (λ items. map item_tree items.items
        ≡ spec_items_of (Num var) (map lent parts.now)) }
{
    let mut items = Vec::new(alloc);
    for part in parts {
        if let Some(item) = item_of(alloc, var, *part)? {
            items.push(item)?;
        }
    }
    Ok(items)
}
