//! What a rule is by which two nodes swap places.

ghost use Rattle.std.specs.Prelude.{◌≡◌, Bool, true, false, Option, None, IfOk};
ghost use Rattle.aql_tree.specs.declared.syntax.Ident.{Ident};
ghost use Rattle.aql_meaning.specs.Uses.{Uses};
ghost use Rattle.aql_plan.specs.declared.facts.Facts.{Facts as spec_Facts};
ghost use Rattle.aql_plan.specs.Needs.{result_uses};
ghost use Rattle.aql_plan.specs.Plan.{Plan as spec_Plan, Over, Node, Subquery, top};
ghost use Rattle.aql_plan.specs.View.{plan_tree};
ghost use Rattle.aql_rewrite.specs.declared.swap.Rename.{Rename as spec_Rename};
ghost use Rattle.aql_rewrite.specs.Places.{First};
ghost use Rattle.aql_rewrite.specs.Exchanged.{Swaps};

use crate::Rule;
use aql_plan::Plan;
use aql_value::OutOfMemory;
use std::alloc::Global;

/// A rule by which a node swaps places with the node below it, whatever else the plan has.
pub trait ExchangeRule: Rule {
    /// By the upper and by the lower node: whether they swap places.
    ghost swaps: { Self → Node → Node → Bool };

    /// Whether the top nodes of two plans swap places, where the first stands over the second.
    fn may_exchange(&self, alloc: Global, upper: &Plan, lower: &Plan) -> Result<bool, OutOfMemory>
        ensures { IfOk result (λ b. b
            ≡ swaps self.now (top (plan_tree upper.now)) (top (plan_tree lower.now))) };

    /// It is a rule for plans without fragments.
    ghost lone: { (x : Self) → Self.fragments x ≡ false };

    /// As a rule on plans it lets such nodes swap places.
    ghost exchanged: { (x : Self) (facts : spec_Facts) (us : Uses) (b : spec_Plan)
        (upper lower : Node) → swaps x upper lower ≡ true
        → Self.rewrites x facts us (Over (Over b lower) upper) (Over (Over b upper) lower) None };

    /// It applies nowhere else.
    ghost alone: { (x : Self) (facts : spec_Facts) (us : Uses) (p q : spec_Plan)
        (r : Option spec_Rename) → Self.rewrites x facts us p q r → Swaps (swaps x) p };

    /// A node over which another one stood does not go below a third.
    ghost apart: { (x : Self) (upper lower further : Node) → swaps x upper lower ≡ true
        → swaps x lower further ≡ false };

    /// What becomes of a body by the rule does not count.
    ghost steady: { (x : Self) (facts : spec_Facts) (v : Ident) (s t : spec_Plan) (lower : Node)
        → First (Self.rewrites x facts) false result_uses s t None
        → swaps x (Subquery v t) lower ≡ swaps x (Subquery v s) lower };
}
