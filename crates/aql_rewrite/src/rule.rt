//! What a rule is, and what it shows of itself.

ghost use Rattle.std.specs.Prelude.{ℕ, ◌<◌, Bool, false, List, Option, IfOk, MatchOption};
ghost use Rattle.aql_tree.specs.declared.syntax.Ident.{Ident};
ghost use Rattle.aql_meaning.specs.Uses.{Uses};
ghost use Rattle.aql_plan.specs.declared.facts.Facts.{Facts as spec_Facts};
ghost use Rattle.aql_plan.specs.Plan.{Plan as spec_Plan};
ghost use Rattle.aql_plan.specs.Needs.{result_uses};
ghost use Rattle.aql_plan.specs.View.{plan_tree};
ghost use Rattle.aql_rewrite.specs.declared.swap.Rename.{Rename as spec_Rename};
ghost use Rattle.aql_rewrite.specs.Places.{Stays, First};
ghost use Rattle.aql_rewrite.specs.Placed.{Placed, IsPlaced, IsWhole};
ghost use Rattle.aql_rewrite.specs.Swaps.{Replaced, KeepsPlaced};
ghost use Rattle.aql_rewrite.specs.View.{above_uses};

use crate::swap::Swap;
use aql_plan::{Facts, Plan, Uses};
use aql_value::OutOfMemory;
use std::alloc::Global;

/// A rule rewrites a part of a plan at the top node of the part.
pub trait Rule {
    /// By the facts, by what is used above a part and by the part: what may stand in its place, and
    /// what is renamed in the nodes above.
    ghost rewrites: { Self → spec_Facts → Uses → spec_Plan → spec_Plan → Option spec_Rename
        → Type 0 };

    /// Whether the rule is one for plans with fragments.
    ghost fragments: { Self → Bool };

    /// A number that each application lowers.
    ghost measure: { Self → spec_Plan → ℕ };

    /// The part after one application at its top node; `None` exactly where the rule does not apply
    /// there. `above` is what the nodes above use of its rows, the nearest node's last; the part
    /// stands in no fragment.
    fn at(
        &self,
        alloc: Global,
        part: &Plan,
        above: &[Uses],
        facts: &Facts,
    ) -> Result<Option<Swap>, OutOfMemory>
        requires { IsPlaced (fragments self.now) false facts.now (above_uses above.now)
            (plan_tree part.now) }
        ensures { IfOk result (λ o. MatchOption o
            (Stays (rewrites self.now facts.now) (above_uses above.now) (plan_tree part.now))
            (λ s. rewrites self.now facts.now (above_uses above.now) (plan_tree part.now)
            (plan_tree s.part) s.rename)) };

    /// The new part refines the old one for what is used above.
    ghost refines: { (x : Self) (facts : spec_Facts) (outer away : List Ident) (us : Uses)
        (p q : spec_Plan) (r : Option spec_Rename)
        → Placed (fragments x) false facts outer away us p → rewrites x facts us p q r
        → Replaced (fragments x) facts us p q r };

    /// A well-formed plan stays so with it, and it sets only what the old one sets.
    ghost keeps: { (x : Self) (facts : spec_Facts) (outer away : List Ident) (us : Uses)
        (p q : spec_Plan) (r : Option spec_Rename)
        → Placed (fragments x) false facts outer away us p → rewrites x facts us p q r
        → KeepsPlaced (fragments x) false facts outer us p q r };

    /// Each application to a whole plan lowers the measure.
    ghost falls: { (x : Self) (facts : spec_Facts) (p q : spec_Plan) (r : Option spec_Rename)
        → IsWhole (fragments x) facts p → First (rewrites x facts) false result_uses p q r
        → measure x q < measure x p };
}
