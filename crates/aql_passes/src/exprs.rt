//! Expressions with a rule applied until it has no place: each part to its end, in the order of the
//! text, and then the whole. Where the whole is rewritten, it goes on with the new expression. What
//! stays as it is is not copied, unless it stands beside what changes.

ghost use Rattle.std.specs.Prelude.{IfOk, map, option_map, unwrap_or};
ghost use Rattle.aql_tree.specs.View.{tree};
ghost use Rattle.aql_rewrite.specs.Children.{children as spec_children};
ghost use Rattle.aql_rewrite.specs.ExprView.{lent};
ghost use Rattle.aql_rewrite.specs.FirstInExpr.{NoneInAll};
ghost use Rattle.aql_passes.specs.inner.Ends.{Ends, AllEnd};

use aql_rewrite::{ExprRule, add_new, children, over_children};
use aql_tree::Expr;
use aql_value::OutOfMemory;
use std::alloc::Global;
use std::collections::VecDeque;

/// The expression with the rule applied until it has no place; `None` where it stays as it is.
/// `changed` becomes true where there was a place.
#[cycle(ends)]
fn to_end<R: ExprRule>(
    alloc: Global,
    rule: &R,
    expr: &Expr,
    changed: &mut bool,
) -> Result<Option<Expr>, OutOfMemory>
    ensures { IfOk result (λ new. Ends (R.rewrites rule.now) (tree expr.now)
        (unwrap_or (option_map tree new) (tree expr.now)) changed.old changed.new) }
{
    let all = children(alloc, expr)?;
    match all_to_end(alloc, rule, &all, changed)? {
        Some(new) => {
            let whole = over_children(alloc, expr, new)?;
            match whole_to_end(alloc, rule, &whole, changed)? {
                Some(next) => Ok(Some(next)),
                None => Ok(Some(whole)),
            }
        }
        None => whole_to_end(alloc, rule, expr, changed),
    }
}

// The same of an expression whose children have no place.
#[cycle(ends)]
fn whole_to_end<R: ExprRule>(
    alloc: Global,
    rule: &R,
    whole: &Expr,
    changed: &mut bool,
) -> Result<Option<Expr>, OutOfMemory>
    requires { NoneInAll (R.rewrites rule.now) (spec_children (tree whole.now)) }
    ensures { IfOk result (λ new. Ends (R.rewrites rule.now) (tree whole.now)
        (unwrap_or (option_map tree new) (tree whole.now)) changed.old changed.new) }
{
    match rule.at(alloc, whole)? {
        Some(next) => {
            *changed = true;
            match to_end(alloc, rule, &next, changed)? {
                Some(last) => Ok(Some(last)),
                None => Ok(Some(next)),
            }
        }
        None => Ok(None),
    }
}

/// The same of expressions one after another.
#[cycle(ends)]
pub(crate) fn all_to_end<R: ExprRule>(
    alloc: Global,
    rule: &R,
    all: &[&Expr],
    changed: &mut bool,
) -> Result<Option<VecDeque<Expr>>, OutOfMemory>
    ensures { IfOk result (λ new. AllEnd (R.rewrites rule.now) (map lent all.now)
        (unwrap_or (option_map (λ q. map tree q.items) new) (map lent all.now))
        changed.old changed.new) }
{
    let mut out = None;
    for (at, expr) in all.iter().enumerate() {
        let new = to_end(alloc, rule, expr, changed)?;
        add_new(alloc, &all[..at], expr, new, &mut out)?;
    }
    Ok(out)
}
