//! Constant expressions.

ghost use Rattle.std.specs.Prelude.{◌≡◌, ◌↔◌, [], IfOk, IsTrue, map};
ghost use Rattle.aql_meaning.specs.Plain.{IsPlain};
ghost use Rattle.aql_tree.specs.View.{tree};
ghost use Rattle.aql_rewrite.specs.Constant as spec;
ghost use Rattle.aql_rewrite.specs.Constant.{IsConstant, AreConstant, HasOneValue};
ghost use Rattle.aql_rewrite.specs.Keeps.{variables};
ghost use Rattle.aql_rewrite.specs.ExprView.{lent};

use crate::looking::children;
use aql_tree::Expr;
use aql_value::OutOfMemory;
use std::alloc::Global;

fn is_open(expr: &Expr) -> bool
    ensures { result ≡ spec.is_open (tree expr.now) }
{
    match expr {
        Expr::Var(_) | Expr::Current | Expr::Sub(_) => true,
        _ => false,
    }
}

#[cycle(constant)]
fn is_closed(alloc: Global, expr: &Expr) -> Result<bool, OutOfMemory>
    ensures { IfOk result (λ answer. IsTrue answer ↔ IsConstant (tree expr.now)) }
{
    if is_open(expr) {
        return Ok(false);
    }
    let all = children(alloc, expr)?;
    are_closed(alloc, &all)
}

#[cycle(constant)]
fn are_closed(alloc: Global, all: &[&Expr]) -> Result<bool, OutOfMemory>
    ensures { IfOk result (λ answer. IsTrue answer ↔ AreConstant (map lent all.now)) }
{
    for expr in all {
        if !is_closed(alloc, expr)? {
            return Ok(false);
        }
    }
    Ok(true)
}

/// Whether an expression has no variable, no CURRENT and no subquery in it. Then it has one value.
pub fn is_constant(alloc: Global, expr: &Expr) -> Result<bool, OutOfMemory>
    ensures answer { IfOk result (λ answer. IsTrue answer ↔ IsConstant (tree expr.now)) }
    ensures plain { IfOk result (λ answer. IsTrue answer → IsPlain (tree expr.now)) }
    ensures variables { IfOk result (λ answer. IsTrue answer → variables (tree expr.now) ≡ []) }
    ensures value { IfOk result (λ answer. IsTrue answer → HasOneValue (tree expr.now)) }
{
    is_closed(alloc, expr)
}
