//! A Calculation or Subquery whose variable isn't used goes.

ghost use Rattle.std.specs.Prelude.{◌≡◌};
ghost use Rattle.aql_plan.specs.Plan.{top};
ghost use Rattle.aql_plan.specs.View.{node_tree, plan_tree};
ghost use Rattle.aql_rewrite.specs.View.{above_uses};
ghost use Rattle.aql_rules_calc.specs.Readers.{is_unneeded as spec_is_unneeded};

use aql_plan::{Facts, Node, Plan, Uses};
use aql_rewrite::{PartRule, Rule, Swap, is_used, replace_below};
use aql_value::OutOfMemory;
use std::alloc::Global;

fn node_is_unneeded(node: &Node, above: &[Uses]) -> bool
    ensures { result ≡ spec_is_unneeded (above_uses above.now) (node_tree node.now) }
{
    match node {
        Node::Calculation { var, .. } => !is_used(*var, above),
        _ => false,
    }
}

// Whether the top node of a part is a Calculation or a Subquery whose variable isn't used.
fn is_unneeded(part: &Plan, above: &[Uses]) -> bool
    ensures { result ≡ spec_is_unneeded (above_uses above.now) (top (plan_tree part.now)) }
{
    match part {
        Plan::Singleton => false,
        Plan::Over { node, .. } => node_is_unneeded(node, above),
        Plan::Subquery { var, .. } => !is_used(*var, above),
    }
}

/// The rule remove-unnecessary-calculations.
#[derive(Clone, Copy, Drop)]
pub struct RemoveUnnecessaryCalculations;

impl Rule for RemoveUnnecessaryCalculations {
    ghost use Rattle.std.specs.Prelude.{false};
    ghost use Rattle.aql_plan.specs.Nodes.{weight};
    ghost use Rattle.aql_rules_calc.specs.RemoveUnnecessaryCalculations.{Removes};
    ghost use Rattle.aql_rules_calc.specs.laws.UnnecessaryCalculations.{removes_refine};
    ghost use Rattle.aql_rules_calc.specs.laws.UnnecessaryCalculations.{removes_keep, removes_fall};

    ghost rewrites = { λ _ _. Removes };

    ghost fragments = { λ _. false };

    ghost measure = { λ _. weight };

    fn at(
        &self,
        alloc: Global,
        part: &Plan,
        above: &[Uses],
        _facts: &Facts,
    ) -> Result<Option<Swap>, OutOfMemory> {
        if !is_unneeded(part, above) {
            return Ok(None);
        }
        match part.below() {
            None => Ok(None),
            Some(below) => {
                let part = below.copy(alloc)?;
                Ok(Some(Swap { part, rename: None }))
            }
        }
    }

    ghost refines = { λ _ facts _ _ us p q r _ h. removes_refine facts us p q r h };

    ghost keeps = { λ _ facts outer away us p q r placed h.
        removes_keep facts outer away us p q r placed h };

    ghost falls = { λ _ facts p q r whole h. removes_fall facts p q r whole h };
}

impl PartRule for RemoveUnnecessaryCalculations {
    ghost use Rattle.std.specs.Prelude.{refl, true};
    ghost use Rattle.std.proofs.Common.{true≢false};
    ghost use Rattle.aql_rules_calc.specs.laws.UnnecessaryCalculations.{nothing};
    ghost use Rattle.aql_rules_calc.specs.laws.UnnecessaryCalculations.{removes_nameless, removes_shrink};

    ghost looks = { λ _. true };

    fn rewrite(
        &self,
        _alloc: Global,
        part: &mut Plan,
        above: &[Uses],
        _facts: &Facts,
    ) -> Result<bool, OutOfMemory> {
        if !is_unneeded(part, above) {
            return Ok(false);
        }
        let below = replace_below(part, Plan::Singleton);
        *part = below;
        Ok(true)
    }

    fn looks_above(&self) -> bool {
        true
    }

    ghost blind = { λ _ e facts us vs p q r h. absurd (true≢false e) };

    ghost lone = { λ _. refl };

    ghost nameless = { λ _ _ us p q r h. removes_nameless us p q r h };

    ghost size = { λ _. nothing };

    ghost lowers = { λ _ _ us p q r h. removes_shrink us p q r h };
}
