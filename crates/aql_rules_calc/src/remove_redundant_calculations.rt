//! A Calculation goes where a lower node has calculated the same expression.

ghost use Rattle.std.specs.Prelude.{◌≡◌, None, MatchOption};
ghost use Rattle.aql_tree.specs.declared.syntax.Ident.{Ident as spec_Ident};
ghost use Rattle.aql_tree.specs.declared.syntax.Ident.TheVariants.{Num};
ghost use Rattle.aql_tree.specs.View.{tree};
ghost use Rattle.aql_meaning.specs.Plain.{IsPlain};
ghost use Rattle.aql_plan.specs.Plan as spec;
ghost use Rattle.aql_plan.specs.Plan.{top};
ghost use Rattle.aql_plan.specs.View.{plan_tree};
ghost use Rattle.aql_rules_calc.specs.Readers.{calculation_in as spec_calculation_in, IsRedundant, IsNotRedundant};
ghost use Rattle.aql_rewrite.specs.Plain.{NodePlain};
ghost use Rattle.aql_rules_calc.specs.RemoveRedundantCalculations.{IsNotOf, Calculates};

use aql_plan::{Facts, Node, Plan, Uses};
use aql_rewrite::{RemovingRule, Rename, Rule, Swap, gives_new_rows, same_expr};
use aql_tree::Expr;
use aql_value::OutOfMemory;
use std::alloc::Global;

// The input, the variable and the expression of a Calculation; `None` exactly at every other node.
fn calculation_in(plan: &Plan) -> Option<(&Plan, u32, &Expr)>
    ensures { MatchOption result (spec_calculation_in (plan_tree plan.now) ≡ None)
        (λ c. plan_tree plan.now
        ≡ spec.Over (plan_tree c.0.now) (spec.Calculation (Num c.1) (tree c.2.now))) }
{
    match plan {
        Plan::Over { below, node } => match &**node {
            Node::Calculation { var, expr } => Some((below, *var, expr)),
            _ => None,
        },
        _ => None,
    }
}

// The variable under which the top node calculates an expression, if it does.
fn calculates(plan: &Plan, expr: &Expr) -> Option<u32>
    requires { IsPlain (tree expr.now) }
    ensures { MatchOption result (IsNotOf (tree expr.now) (top (plan_tree plan.now)))
        (λ w. top (plan_tree plan.now) ≡ spec.Calculation (Num w) (tree expr.now)) }
{
    match calculation_in(plan) {
        None => None,
        Some((_, var, own)) => {
            if same_expr(expr, own) {
                return Some(var);
            }
            None
        }
    }
}

// The variable under which the rows of a plan have the value of an expression, where a node
// calculates it and none above that makes new rows.
fn find_calculation(plan: &Plan, expr: &Expr) -> Option<u32>
    requires { IsPlain (tree expr.now) }
    ensures { MatchOption result
        ((w : spec_Ident) → Calculates (tree expr.now) w (plan_tree plan.now) → ⊥)
        (λ w. Calculates (tree expr.now) (Num w) (plan_tree plan.now)) }
{
    match plan.below() {
        None => None,
        Some(below) => match calculates(plan, expr) {
            Some(var) => Some(var),
            None => {
                if gives_new_rows(plan) {
                    return None;
                }
                find_calculation(below, expr)
            }
        },
    }
}

// The input of a redundant Calculation, and what its variable goes by above.
fn redundant_calculation(part: &Plan) -> Option<(&Plan, Rename)>
    requires { NodePlain (top (plan_tree part.now)) }
    ensures { MatchOption result (IsNotRedundant (plan_tree part.now))
        (λ c. IsRedundant (plan_tree part.now) (plan_tree c.0.now) c.1) }
{
    match calculation_in(part) {
        None => None,
        Some((below, var, expr)) => match find_calculation(below, expr) {
            None => None,
            Some(lower) => Some((
                below,
                Rename {
                    from: var,
                    to: lower,
                },
            )),
        },
    }
}

/// The rule remove-redundant-calculations.
#[derive(Clone, Copy, Drop)]
pub struct RemoveRedundantCalculations;

impl Rule for RemoveRedundantCalculations {
    ghost use Rattle.std.specs.Prelude.{false};
    ghost use Rattle.aql_plan.specs.Nodes.{weight};
    ghost use Rattle.aql_rules_calc.specs.RemoveRedundantCalculations.{Redundant};
    ghost use Rattle.aql_rules_calc.specs.laws.CalculatedTwice.{redundant_refine, redundant_keep};
    ghost use Rattle.aql_rules_calc.specs.laws.CalculatedTwice.{redundant_fall};

    ghost rewrites = { λ _ _. Redundant };

    ghost fragments = { λ _. false };

    ghost measure = { λ _. weight };

    fn at(
        &self,
        alloc: Global,
        part: &Plan,
        _above: &[Uses],
        _facts: &Facts,
    ) -> Result<Option<Swap>, OutOfMemory> {
        match redundant_calculation(part) {
            None => Ok(None),
            Some((below, rename)) => {
                let part = below.copy(alloc)?;
                Ok(Some(Swap {
                    part,
                    rename: Some(rename),
                }))
            }
        }
    }

    ghost refines = { λ _ facts outer away us p q r placed h.
        redundant_refine facts outer away us p q r placed h };

    ghost keeps = { λ _ facts outer away us p q r placed h.
        redundant_keep facts outer away us p q r placed h };

    ghost falls = { λ _ facts p q r whole h. redundant_fall facts p q r whole h };
}

impl RemovingRule for RemoveRedundantCalculations {
    ghost use Rattle.std.specs.Prelude.{refl};
    ghost use Rattle.aql_rules_calc.specs.laws.CalculatedTwice.{redundant_blind, redundant_removes};

    fn removal(&self, part: &Plan, _facts: &Facts) -> Option<Rename> {
        match redundant_calculation(part) {
            None => None,
            Some((_, rename)) => Some(rename),
        }
    }

    ghost blind = { λ _ _ us vs p q r h. redundant_blind us vs p q r h };

    ghost lone = { λ _. refl };

    ghost removes = { λ _ _ us p q r h. redundant_removes us p q r h };
}
