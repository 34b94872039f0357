//! What a rule is whose pass goes on at the part that it rewrote.

ghost use Rattle.std.specs.Prelude.{ℕ, ◌+◌, ◌<◌, ◌≡◌, Bool, false, Option, None, IfOk};
ghost use Rattle.aql_meaning.specs.Uses.{Uses as spec_Uses};
ghost use Rattle.aql_plan.specs.declared.facts.Facts.{Facts as spec_Facts};
ghost use Rattle.aql_plan.specs.Nodes.{weight};
ghost use Rattle.aql_plan.specs.Plan.{Plan as spec_Plan, Node};
ghost use Rattle.aql_plan.specs.View.{plan_tree};
ghost use Rattle.aql_rewrite.specs.declared.swap.Rename.{Rename as spec_Rename};
ghost use Rattle.aql_rewrite.specs.Changed.{IsChanged};
ghost use Rattle.aql_rewrite.specs.Placed.{IsPlaced};
ghost use Rattle.aql_rewrite.specs.Sums.{total};
ghost use Rattle.aql_rewrite.specs.View.{above_uses};

use crate::Rule;
use aql_plan::{Facts, Plan, Uses};
use aql_value::OutOfMemory;
use std::alloc::Global;

/// A rule that renames nothing, and whose every application lowers a number of the part that it
/// rewrites.
pub trait PartRule: Rule {
    /// Whether the rule looks at what the nodes above use.
    ghost looks: { Self → Bool };

    /// What a node counts beside one in the number that each application lowers.
    ghost size: { Self → Node → ℕ };

    /// Rewrites a part at its top node, where it stands; `false` exactly where the rule does not
    /// apply there, and then the part stays.
    fn rewrite(
        &self,
        alloc: Global,
        part: &mut Plan,
        above: &[Uses],
        facts: &Facts,
    ) -> Result<bool, OutOfMemory>
        requires { IsPlaced (Self.fragments self.now) false facts.now (above_uses above.now)
            (plan_tree part.old) }
        ensures { IfOk result (IsChanged (Self.rewrites self.now facts.now) (above_uses above.now)
            (plan_tree part.old) (plan_tree part.new)) };

    /// Whether the rule looks at what the nodes above use.
    fn looks_above(&self) -> bool
        ensures { result ≡ looks self.now };

    /// It does not, where it says so.
    ghost blind: { (x : Self) → looks x ≡ false → (facts : spec_Facts) (us vs : spec_Uses)
        (p q : spec_Plan) (r : Option spec_Rename) → Self.rewrites x facts us p q r
        → Self.rewrites x facts vs p q r };

    /// It is a rule for plans without fragments.
    ghost lone: { (x : Self) → Self.fragments x ≡ false };

    /// It renames nothing.
    ghost nameless: { (x : Self) (facts : spec_Facts) (us : spec_Uses) (p q : spec_Plan)
        (r : Option spec_Rename) → Self.rewrites x facts us p q r → r ≡ None };

    /// Each application to a part lowers the sum over its nodes.
    ghost lowers: { (x : Self) (facts : spec_Facts) (us : spec_Uses) (p q : spec_Plan)
        (r : Option spec_Rename) → Self.rewrites x facts us p q r
        → weight q + total (size x) q < weight p + total (size x) p };
}
