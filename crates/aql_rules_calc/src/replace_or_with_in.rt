//! replace-or-with-in: a `||` chain that compares one expression with constants becomes one IN.

ghost use Rattle.std.specs.Prelude.{◌≡◌, ◌++◌, Some, None, IfOk, OnOk, MatchOption, map};
ghost use Rattle.aql_value.specs.declared.operators.BinOp.TheVariants.{IsIn};
ghost use Rattle.aql_tree.specs.Tree.{array_literal};
ghost use Rattle.aql_tree.specs.View.{tree, trees, links, link_part};
ghost use Rattle.aql_rewrite.specs.FirstInExpr.{Stays};
ghost use Rattle.aql_rewrite.specs.ExprView.{lent};
ghost use Rattle.aql_rules_calc.specs.inner.Operations.{chain_in as spec_chain_in};
ghost use Rattle.aql_rules_calc.specs.inner.Operations.{array_in as spec_array_in};
ghost use Rattle.aql_rules_calc.specs.inner.Operations.{operation_in as spec_operation_in};
ghost use Rattle.aql_rules_calc.specs.inner.Operations.{right_sides as spec_right_sides};
ghost use Rattle.aql_rules_calc.specs.inner.Operations.{first_left as spec_first_left};
ghost use Rattle.aql_rules_calc.specs.ReplaceOrWithIn.{is_or as spec_is_or};
ghost use Rattle.aql_rules_calc.specs.ReplaceOrWithIn.{each_or as spec_each_or};
ghost use Rattle.aql_rules_calc.specs.ReplaceOrWithIn.{is_or_chain as spec_is_or_chain};
ghost use Rattle.aql_rules_calc.specs.ReplaceOrWithIn.{operation, Compares, AllCompare};
ghost use Rattle.aql_rules_calc.specs.ReplaceOrWithIn.{Replaces};

use aql_func::BinOp;
use aql_rewrite::{ExprRule, children, is_constant, same_expr};
use aql_tree::{Expr, Exprs, Link, copy_expr};
use aql_value::{OutOfMemory, Seq};
use std::alloc::Global;
use std::slice::from_ref;

// `first op right op right ..`.
#[derive(Clone, Copy, Drop)]
struct ChainParts<'a> {
    first: &'a Expr,
    rest: &'a [Link],
}

fn chain_in(expr: &Expr) -> Option<ChainParts<'_>>
    ensures { MatchOption result (spec_chain_in (tree expr.now) ≡ None)
        (λ c. spec_chain_in (tree expr.now)
        ≡ Some (tree c.first.now, links (map link_part c.rest.now))) }
{
    match expr {
        Expr::Chain { first, rest } => Some(ChainParts {
            first,
            rest: rest.as_slice(),
        }),
        _ => None,
    }
}

fn is_or(op: BinOp) -> bool
    ensures { result ≡ spec_is_or op }
{
    match op {
        BinOp::Or => true,
        _ => false,
    }
}

fn each_or(rest: &[Link]) -> bool
    ensures { result ≡ spec_each_or (links (map link_part rest.now)) }
{
    for link in rest {
        if !is_or(link.op) {
            return false;
        }
    }
    true
}

fn is_or_chain(rest: &[Link]) -> bool
    ensures { result ≡ spec_is_or_chain (links (map link_part rest.now)) }
{
    match rest.split_first() {
        Some((link, more)) => is_or(link.op) && each_or(more),
        None => false,
    }
}

// `left op right`.
#[derive(Clone, Copy, Drop)]
struct Operation<'a> {
    left: &'a Expr,
    op: BinOp,
    right: &'a Expr,
}

// A chain of one link.
fn operation_in(expr: &Expr) -> Option<Operation<'_>>
    ensures { MatchOption result (spec_operation_in (tree expr.now) ≡ None)
        (λ o. spec_operation_in (tree expr.now) ≡ Some (tree o.left.now, o.op, tree o.right.now)) }
{
    match chain_in(expr) {
        Some(found) => match found.rest {
            [link] => Some(Operation {
                left: found.first,
                op: link.op,
                right: &link.right,
            }),
            _ => None,
        },
        None => None,
    }
}

// The elements of an array literal, if it has any.
fn array_in(expr: &Expr) -> Option<&[Expr]>
    ensures { MatchOption result (spec_array_in (tree expr.now) ≡ None)
        (λ es. spec_array_in (tree expr.now) ≡ Some (map tree es.now)) }
{
    match expr {
        Expr::List(items) => {
            if items.len() == 0 {
                return None;
            }
            Some(items.as_slice())
        }
        _ => None,
    }
}

fn right_sides(op: BinOp, right: &Expr) -> Option<&[Expr]>
    ensures { MatchOption result (spec_right_sides op (tree right.now) ≡ None)
        (λ es. spec_right_sides op (tree right.now) ≡ Some (map tree es.now)) }
{
    match op {
        BinOp::Eq => Some(from_ref(right)),
        BinOp::IsIn => array_in(right),
        _ => None,
    }
}

// The constants that a part of the chain compares an expression with, if it does.
fn constants_in<'a>(
    alloc: Global,
    left: &Expr,
    part: &'a Expr,
) -> Result<Option<&'a [Expr]>, OutOfMemory>
    ensures { IfOk result (λ found. MatchOption found
        ((ks : _) → Compares (tree left.now) (tree part.now) ks → ⊥)
        (λ ks. Compares (tree left.now) (tree part.now) (map tree ks.now))) }
{
    match operation_in(part) {
        Some(found) => {
            if !same_expr(left, found.left) {
                return Ok(None);
            }
            if !is_constant(alloc, found.right)? {
                return Ok(None);
            }
            Ok(right_sides(found.op, found.right))
        }
        None => Ok(None),
    }
}

fn add_copies(alloc: Global, all: &[Expr], to: &mut Exprs) -> Result<(), OutOfMemory>
    ensures { OnOk result (map tree to.new ≡ map tree to.old ++ map tree all.now) }
{
    for expr in all {
        to.push(copy_expr(alloc, expr)?)?;
    }
    Ok(())
}

// The constants that all parts of the chain compare an expression with, if they do.
fn constants_in_all(alloc: Global, left: &Expr, all: &[&Expr]) -> Result<Option<Exprs>, OutOfMemory>
    ensures { IfOk result (λ found. MatchOption found
        ((ks : _) → AllCompare (tree left.now) (map lent all.now) ks → ⊥)
        (λ ks. AllCompare (tree left.now) (map lent all.now) (map tree ks))) }
{
    let mut out = Seq::new(alloc);
    for part in all {
        match constants_in(alloc, left, part)? {
            Some(right) => add_copies(alloc, right, &mut out)?,
            None => return Ok(None),
        }
    }
    Ok(Some(out))
}

// `left IN [right, ..]`.
fn in_array(alloc: Global, left: &Expr, right: Exprs) -> Result<Expr, OutOfMemory>
    ensures { IfOk result (λ e. tree e
        ≡ operation (tree left.now) IsIn (array_literal (trees (map tree right)))) }
{
    let first = copy_expr(alloc, left)?;
    let mut rest = Seq::new(alloc);
    rest.push(Link::new(BinOp::IsIn, Expr::List(right)))?;
    Expr::chain(alloc, first, rest)
}

// The left side of the first part of a `||` chain.
fn first_left(expr: &Expr) -> Option<&Expr>
    ensures { MatchOption result (spec_first_left (tree expr.now) ≡ None)
        (λ e. spec_first_left (tree expr.now) ≡ Some (tree e.now)) }
{
    match chain_in(expr) {
        Some(found) => {
            if !is_or_chain(found.rest) {
                return None;
            }
            match operation_in(found.first) {
                Some(first) => Some(first.left),
                None => None,
            }
        }
        None => None,
    }
}

fn as_in(alloc: Global, left: &Expr, expr: &Expr) -> Result<Option<Expr>, OutOfMemory>
    requires { spec_first_left (tree expr.now) ≡ Some (tree left.now) }
    ensures { IfOk result (λ found. MatchOption found (Stays Replaces (tree expr.now))
        (λ new. Replaces (tree expr.now) (tree new))) }
{
    if is_constant(alloc, left)? {
        return Ok(None);
    }
    let all = children(alloc, expr)?;
    match constants_in_all(alloc, left, &all)? {
        Some(right) => {
            let new = in_array(alloc, left, right)?;
            Ok(Some(new))
        }
        None => Ok(None),
    }
}

/// The rule replace-or-with-in, on expressions: a `||` chain whose every part is `e == k` or
/// `e IN [k, ..]`, with one `e` that is not constant and constant `k`, one or more, becomes `e IN`
/// the array of all `k`, in order.
#[derive(Clone, Copy, Drop)]
pub struct ReplaceOrWithIn;

impl ExprRule for ReplaceOrWithIn {
    ghost use Rattle.aql_rules_calc.specs.ReplaceOrWithIn.{Replaces};
    ghost use Rattle.aql_rules_calc.specs.laws.OrWithIn.{replaces_keep, replaces_fall};

    ghost rewrites = { λ _. Replaces };

    fn at(&self, alloc: Global, expr: &Expr) -> Result<Option<Expr>, OutOfMemory> {
        match first_left(expr) {
            Some(left) => as_in(alloc, left, expr),
            None => Ok(None),
        }
    }

    ghost keeps = { λ _ p q h. replaces_keep p q h };

    ghost falls = { λ _ p q h. replaces_fall p q h };
}
