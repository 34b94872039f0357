//! The search for the first place of a rule: through the children in the order of the text, and
//! after them the whole.

ghost use Rattle.std.specs.Prelude.{◌≡◌, ◌<◌, ◌+◌, ◌++◌, ◌∷◌, IfOk, IfSome, MatchOption};
ghost use Rattle.std.specs.Prelude.{length, map, take, drop};
ghost use Rattle.std.specs.List.{AllZip};
ghost use Rattle.aql_tree.specs.View.{tree};
ghost use Rattle.aql_rewrite.specs.FirstInExpr.{NoneIn, NoneInAll, FirstIn, FirstOf};
ghost use Rattle.aql_rewrite.specs.Keeps.{Keeps};
ghost use Rattle.aql_rewrite.specs.Size.{size, size_all};
ghost use Rattle.aql_rewrite.specs.ExprView.{lent};

use crate::expr_rule::ExprRule;
use crate::looking::children;
use crate::rebuilding::{add_copies, over_children};
use aql_tree::Expr;
use aql_value::OutOfMemory;
use std::alloc::Global;
use std::collections::VecDeque;

// Copies of all but the one at a place, where the new one stands.
fn with_new(
    alloc: Global,
    all: &[&Expr],
    at: usize,
    new: Expr,
) -> Result<VecDeque<Expr>, OutOfMemory>
    requires { at < length all.now }
    ensures { IfOk result (λ out. map tree out.items
        ≡ map lent (take at all.now) ++ tree new ∷ map lent (drop (at + 1) all.now)) }
{
    let mut out = VecDeque::new(alloc);
    add_copies(alloc, &all[..at], &mut out)?;
    out.push_back(new)?;
    add_copies(alloc, &all[at + 1..], &mut out)?;
    Ok(out)
}

#[cycle(first)]
fn first_in<R: ExprRule>(alloc: Global, rule: &R, expr: &Expr) -> Result<Option<Expr>, OutOfMemory>
    ensures { IfOk result (λ found. MatchOption found
        (NoneIn (R.rewrites rule.now) (tree expr.now))
        (λ new. FirstIn (R.rewrites rule.now) (tree expr.now) (tree new))) }
{
    let all = children(alloc, expr)?;
    match first_among(alloc, rule, &all)? {
        Some(new) => {
            let whole = over_children(alloc, expr, new)?;
            Ok(Some(whole))
        }
        None => match rule.at(alloc, expr)? {
            Some(new) => Ok(Some(new)),
            None => Ok(None),
        },
    }
}

#[cycle(first)]
fn first_among<R: ExprRule>(
    alloc: Global,
    rule: &R,
    all: &[&Expr],
) -> Result<Option<VecDeque<Expr>>, OutOfMemory>
    ensures { IfOk result (λ found. MatchOption found
        (NoneInAll (R.rewrites rule.now) (map lent all.now))
        (λ new. FirstOf (R.rewrites rule.now) (map lent all.now) (map tree new.items))) }
{
    for (at, expr) in all.iter().enumerate() {
        match first_in(alloc, rule, expr)? {
            Some(new) => {
                let out = with_new(alloc, all, at, new)?;
                return Ok(Some(out));
            }
            None => {}
        }
    }
    Ok(None)
}

/// The expression with the first place of the rule rewritten, or `None` exactly where it has none.
/// Places go by the order of the text, a child before its whole. It is copied only where there is
/// one.
pub fn first_in_expr<R: ExprRule>(
    alloc: Global,
    rule: &R,
    expr: &Expr,
) -> Result<Option<Expr>, OutOfMemory>
    ensures first { IfOk result (λ found. MatchOption found
        (NoneIn (R.rewrites rule.now) (tree expr.now))
        (λ new. FirstIn (R.rewrites rule.now) (tree expr.now) (tree new))) }
    ensures keeps { IfOk result (λ found. IfSome found (λ new. Keeps (tree expr.now) (tree new))) }
    ensures falls { IfOk result
        (λ found. IfSome found (λ new. size (tree new) < size (tree expr.now))) }
{
    first_in(alloc, rule, expr)
}

/// The same of expressions one after another, as a node of a plan has them: all of them, copied,
/// with the first place rewritten.
pub fn first_of<R: ExprRule>(
    alloc: Global,
    rule: &R,
    all: &[&Expr],
) -> Result<Option<VecDeque<Expr>>, OutOfMemory>
    ensures first { IfOk result (λ found. MatchOption found
        (NoneInAll (R.rewrites rule.now) (map lent all.now))
        (λ new. FirstOf (R.rewrites rule.now) (map lent all.now) (map tree new.items))) }
    ensures keeps { IfOk result (λ found. IfSome found
        (λ new. AllZip Keeps (map lent all.now) (map tree new.items))) }
    ensures falls { IfOk result (λ found. IfSome found
        (λ new. size_all (map tree new.items) < size_all (map lent all.now))) }
{
    first_among(alloc, rule, all)
}
