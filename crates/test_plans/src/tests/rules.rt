// Two rules on expressions, and one on plans.
ghost use Rattle.std.specs.Prelude.{◌≡◌, refl};
ghost use Rattle.test_plans.specs.NotFalse.{IsTurned, turned_falls, turned_keeps};

use aql_func::UnaryOp;
use aql_plan::{Facts, Plan, Uses};
use aql_rewrite::{ExprRule, Rule, Swap};
use aql_tree::Expr;
use aql_value::{OutOfMemory, Value};
use std::alloc::Global;

// `!false` becomes `true`.
#[derive(Drop)]
pub struct NotFalse {}

impl ExprRule for NotFalse {
    ghost rewrites = { λ x p q. IsTurned p q };

    fn at(&self, alloc: Global, expr: &Expr) -> Result<Option<Expr>, OutOfMemory> {
        match expr {
            Expr::Unary {
                op: UnaryOp::Not,
                of,
            } => match &**of {
                Expr::Lit(Value::Bool(false)) => Ok(Some(Expr::Lit(Value::Bool(true)))),
                _ => Ok(None),
            },
            _ => Ok(None),
        }
    }

    ghost keeps = { λ x p q h. turned_keeps p q h };

    ghost falls = { λ x p q h. turned_falls p q h };
}

// A rule that applies nowhere.
#[derive(Drop)]
pub struct Never {}

impl ExprRule for Never {
    ghost rewrites = { λ x p q. ⊥ };

    fn at(&self, alloc: Global, expr: &Expr) -> Result<Option<Expr>, OutOfMemory> {
        Ok(None)
    }

    ghost keeps = { λ x p q h. absurd h };

    ghost falls = { λ x p q h. absurd h };
}

// The same on plans.
#[derive(Drop)]
pub struct Nowhere {}

impl Rule for Nowhere {
    ghost use Rattle.std.specs.Prelude.{false};
    ghost use Rattle.test_plans.specs.Nowhere.{Nothing, no_first};

    ghost rewrites = { λ _ _. Nothing };

    ghost fragments = { λ _. false };

    ghost measure = { λ _ _. 0 };

    fn at(
        &self,
        alloc: Global,
        part: &Plan,
        above: &[Uses],
        facts: &Facts,
    ) -> Result<Option<Swap>, OutOfMemory> {
        Ok(None)
    }

    ghost refines = { λ _ _ _ _ _ _ _ _ _ h. absurd h };

    ghost keeps = { λ _ _ _ _ _ _ _ _ _ h. absurd h };

    ghost falls = { λ _ _ _ _ _ _ h. absurd (no_first h) };
}
