//! Conditions of filters, and their items.

ghost use Rattle.std.specs.Prelude.{◌≡◌, ◌++◌, Some, None, OnOk, MatchOption, map, option_map};
ghost use Rattle.aql_value.specs.View.{datum_of};
ghost use Rattle.aql_tree.specs.Tree.{no_expr, one_expr};
ghost use Rattle.aql_tree.specs.View.{tree, maybe, links, link_part};
ghost use Rattle.aql_plan.specs.FirstPlan.{right_sides, conjuncts};
ghost use Rattle.aql_rules_filter.specs.Conditions.{joined};
ghost use Rattle.aql_rules_filter.specs.Readers.{literal_in as spec_literal_in, and_link};

use aql_func::BinOp;
use aql_plan::is_all_and;
use aql_tree::{Expr, Link, Links};
use aql_value::{OutOfMemory, Seq, Value};
use std::alloc::Global;
use std::mem;

/// The value of a literal; `None` exactly at every other expression.
pub(crate) fn literal_in(expr: &Expr) -> Option<&Value>
    ensures { MatchOption result (spec_literal_in (tree expr.now) ≡ None)
        (λ v. spec_literal_in (tree expr.now) ≡ Some (datum_of v.now)) }
{
    match expr {
        Expr::Lit(value) => Some(value),
        _ => None,
    }
}

// Moves the right sides of links to the end of an `&&` chain.
fn move_sides(from: &mut Links, to: &mut Links) -> Result<(), OutOfMemory>
    ensures { OnOk result (map link_part to.new ≡ map link_part to.old
        ++ map and_link (right_sides (links (map link_part from.old)))) }
{
    let items = from.as_mut_slice();
    for link in items.iter_mut() {
        let side = mem::replace(&mut link.right, Expr::Current);
        to.push(Link::new(BinOp::And, side))?;
    }
    Ok(())
}

// Moves the items of a condition to the end of an `&&` chain.
fn move_items(from: &mut Expr, to: &mut Links) -> Result<(), OutOfMemory>
    ensures { OnOk result
        (map link_part to.new ≡ map link_part to.old ++ map and_link (conjuncts (tree from.old))) }
{
    match from {
        Expr::Chain { first, rest } if is_all_and(rest.as_slice()) => {
            let first = mem::replace(&mut **first, Expr::Current);
            to.push(Link::new(BinOp::And, first))?;
            move_sides(rest, to)
        }
        _ => to.push(Link::new(BinOp::And, mem::replace(from, Expr::Current))),
    }
}

/// Appends the items of another condition to those of one.
pub(crate) fn append_items(
    alloc: Global,
    cond: &mut Expr,
    more: &mut Expr,
) -> Result<(), OutOfMemory>
    ensures { OnOk result
        (tree cond.new ≡ joined (one_expr (tree cond.old)) (tree more.old)) }
{
    match cond {
        Expr::Chain { first: _, rest } if is_all_and(rest.as_slice()) => {
            move_items(more, rest)?;
            Ok(())
        }
        _ => {
            let mut rest = Seq::new(alloc);
            move_items(more, &mut rest)?;
            let first = mem::replace(cond, Expr::Current);
            *cond = Expr::chain(alloc, first, rest)?;
            Ok(())
        }
    }
}

// The items of a condition as one: a chain without links is its first part.
fn own_items(cond: &mut Expr) -> Expr
    ensures { tree result ≡ joined no_expr (tree cond.old) }
{
    match cond {
        Expr::Chain { first, rest } if rest.len() == 0 => {
            mem::replace(&mut **first, Expr::Current)
        }
        _ => mem::replace(cond, Expr::Current),
    }
}

/// The same where the first condition may be missing.
pub(crate) fn append_to_filter(
    alloc: Global,
    filter: &mut Option<Expr>,
    more: &mut Expr,
) -> Result<(), OutOfMemory>
    ensures { OnOk result (maybe (option_map tree filter.new)
        ≡ one_expr (joined (maybe (option_map tree filter.old)) (tree more.old))) }
{
    match filter {
        Some(cond) => append_items(alloc, cond, more),
        None => {
            *filter = Some(own_items(more));
            Ok(())
        }
    }
}
