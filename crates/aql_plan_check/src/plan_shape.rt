//! The shape of a plan, from its start up.

ghost use Rattle.std.specs.Prelude.{◌≡◌, ◌↔◌, IsTrue, MatchOption};
ghost use Rattle.aql_plan.specs.Plan.{Over, top};
ghost use Rattle.aql_plan.specs.Shapes as spec;
ghost use Rattle.aql_plan.specs.Shapes.{Shaped};
ghost use Rattle.aql_plan.specs.View.{plan_tree};
ghost use Rattle.aql_plan_laws.specs.laws.ShapeOnce as once;
ghost use Rattle.aql_plan_check.specs.inner.Standing.{BodyFits};
ghost use Rattle.aql_plan_check.specs.inner.View.{shape_of};

use crate::fits::fits;
use crate::shapes::Shape;
use crate::standing::shape_over;
use aql_plan::{Facts, Plan};

#[cycle(shape)]
fn shape<'a>(plan: &'a Plan, facts: &'a Facts) -> Option<Shape<'a>>
    ensures { MatchOption result
        ((s : spec.Shape) → Shaped facts.now (plan_tree plan.now) s → ⊥)
        (λ s. Shaped facts.now (plan_tree plan.now) (shape_of s)
        × (shape_of s ≡ once.shape_of facts.now (plan_tree plan.now))) }
{
    match plan.below() {
        None => Some(Shape::Rows(true)),
        Some(below) => shape_above(plan, below, facts),
    }
}

#[cycle(shape)]
fn shape_above<'a>(plan: &'a Plan, below: &'a Plan, facts: &'a Facts) -> Option<Shape<'a>>
    requires { plan_tree plan.now ≡ Over (plan_tree below.now) (top (plan_tree plan.now)) }
    ensures { MatchOption result
        ((s : spec.Shape) → Shaped facts.now (plan_tree plan.now) s → ⊥)
        (λ s. Shaped facts.now (plan_tree plan.now) (shape_of s)
        × (shape_of s ≡ once.shape_of facts.now (plan_tree plan.now))) }
{
    match shape(below, facts) {
        None => None,
        Some(under) => {
            if !fits(plan, facts) {
                return None;
            }
            if !body_fits(plan, facts) {
                return None;
            }
            shape_over(plan, facts, under)
        }
    }
}

#[cycle(shape)]
fn body_fits(plan: &Plan, facts: &Facts) -> bool
    ensures { IsTrue result ↔ BodyFits facts.now (top (plan_tree plan.now)) }
{
    match plan {
        Plan::Subquery { body, .. } => has_result(body, facts),
        _ => true,
    }
}

fn is_result(shape: Shape<'_>) -> bool
    ensures { IsTrue result ↔ (shape_of shape.entry ≡ spec.Result) }
{
    match shape {
        Shape::Result => true,
        _ => false,
    }
}

/// Whether a plan has the shape of one with a result.
#[cycle(shape)]
pub fn has_result(plan: &Plan, facts: &Facts) -> bool
    ensures { IsTrue result ↔ Shaped facts.now (plan_tree plan.now) spec.Result }
{
    match shape(plan, facts) {
        None => false,
        Some(found) => is_result(found),
    }
}
