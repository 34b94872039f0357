//! Rules on expressions.

ghost use Rattle.std.specs.Prelude.{◌≡◌, ◌<◌, IfOk, MatchOption};
ghost use Rattle.aql_tree.specs.Tree.{ExprTree};
ghost use Rattle.aql_tree.specs.View.{tree};
ghost use Rattle.aql_rewrite.specs.FirstInExpr.{Stays};
ghost use Rattle.aql_rewrite.specs.Keeps.{Keeps};
ghost use Rattle.aql_rewrite.specs.Size.{size};

use aql_tree::Expr;
use aql_value::OutOfMemory;
use std::alloc::Global;

/// A rule that rewrites expressions part by part. `first_in_expr` finds its first place.
pub trait ExprRule {
    /// What may stand in place of an expression.
    ghost rewrites: { Self → ExprTree → ExprTree → Type 0 };

    /// What stands in place of the whole expression, or `None` exactly where the rule doesn't apply
    /// to it. Its children are not looked through.
    fn at(&self, alloc: Global, expr: &Expr) -> Result<Option<Expr>, OutOfMemory>
        ensures { IfOk result (λ found. MatchOption found
            (Stays (rewrites self.now) (tree expr.now))
            (λ new. rewrites self.now (tree expr.now) (tree new))) };

    /// It has the same value, and holds no subquery, variable or CURRENT that wasn't there.
    ghost keeps: { (x : Self) (p q : ExprTree) → rewrites x p q → Keeps p q };

    /// It is smaller, so that a pass ends.
    ghost falls: { (x : Self) (p q : ExprTree) → rewrites x p q → size q < size p };
}
