//! What a rule is that takes nodes away and renames above.

ghost use Rattle.std.specs.Prelude.{◌≡◌, false, [], Option, None, MatchOption};
ghost use Rattle.aql_meaning.specs.Uses.{Uses as spec_Uses};
ghost use Rattle.aql_plan.specs.declared.facts.Facts.{Facts as spec_Facts};
ghost use Rattle.aql_plan.specs.Nodes.{body_in};
ghost use Rattle.aql_plan.specs.Plan.{Plan as spec_Plan, Over, top};
ghost use Rattle.aql_plan.specs.View.{plan_tree};
ghost use Rattle.aql_rewrite.specs.declared.swap.Rename.{Rename as spec_Rename};
ghost use Rattle.aql_rewrite.specs.Places.{Stays};
ghost use Rattle.aql_rewrite.specs.Placed.{IsPlaced};
ghost use Rattle.aql_rewrite.specs.Removed.{TakesAway};

use crate::{Rename, Rule};
use aql_plan::{Facts, Plan};

/// A rule that takes the top node of a part away, and lets one variable go by another in the nodes
/// above.
pub trait RemovingRule: Rule {
    /// What is renamed above where the top node goes; `None` exactly where it stays.
    fn removal(&self, part: &Plan, facts: &Facts) -> Option<Rename>
        requires { IsPlaced false false facts.now [] (plan_tree part.now) }
        ensures { MatchOption result
            (Stays (Self.rewrites self.now facts.now) [] (plan_tree part.now))
            (λ r. TakesAway (Self.rewrites self.now facts.now) (plan_tree part.now) r) };

    /// It does not look at what the nodes above use.
    ghost blind: { (x : Self) (facts : spec_Facts) (us vs : spec_Uses)
        (p q : spec_Plan) (r : Option spec_Rename) → Self.rewrites x facts us p q r
        → Self.rewrites x facts vs p q r };

    /// It is a rule for plans without fragments.
    ghost lone: { (x : Self) → Self.fragments x ≡ false };

    /// What it makes of a part is the input of the top node, which has no body.
    ghost removes: { (x : Self) (facts : spec_Facts) (us : spec_Uses) (p q : spec_Plan)
        (r : Option spec_Rename) → Self.rewrites x facts us p q r
        → (p ≡ Over q (top p)) × (body_in (top p) ≡ None) };
}
