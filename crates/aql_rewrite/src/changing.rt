//! What a rule is that changes nothing but the top node of a part.

ghost use Rattle.std.specs.Prelude.{◌≡◌, false, Option, IfOk};
ghost use Rattle.aql_meaning.specs.Uses.{Uses as spec_Uses};
ghost use Rattle.aql_plan.specs.declared.facts.Facts.{Facts as spec_Facts};
ghost use Rattle.aql_plan.specs.Plan.{Plan as spec_Plan};
ghost use Rattle.aql_plan.specs.View.{plan_tree};
ghost use Rattle.aql_rewrite.specs.declared.swap.Rename.{Rename as spec_Rename};
ghost use Rattle.aql_rewrite.specs.View.{above_uses};
ghost use Rattle.aql_rewrite.specs.Changed.{Changes, IsChanged};

use crate::Rule;
use aql_plan::{Facts, Plan, Uses};
use aql_value::OutOfMemory;
use std::alloc::Global;

/// A rule that changes nothing but the top node of a part, and not what this uses of its input.
pub trait ChangingRule: Rule {
    /// Changes the top node of a part; `false` exactly where the rule does not apply there.
    fn change(
        &self,
        alloc: Global,
        part: &mut Plan,
        above: &[Uses],
        facts: &Facts,
    ) -> Result<bool, OutOfMemory>
        ensures { IfOk result (IsChanged (Self.rewrites self.now facts.now) (above_uses above.now)
            (plan_tree part.old) (plan_tree part.new)) };

    /// It is a rule for plans without fragments.
    ghost lone: { (x : Self) → Self.fragments x ≡ false };

    /// What it makes of a part is this with another top node, to which it does not apply again.
    ghost changes: { (x : Self) (facts : spec_Facts) (us : spec_Uses) (p q : spec_Plan)
        (r : Option spec_Rename) → Self.rewrites x facts us p q r
        → Changes (Self.rewrites x facts) us p q r };
}
