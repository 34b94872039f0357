//! The variable of a Traversal's edges or paths goes where it is not used, and a Filter over a
//! Traversal goes into it.

ghost use Rattle.std.specs.Prelude.{◌≡◌, IfOk, None};
ghost use Rattle.aql_tree.specs.View.{tree};
ghost use Rattle.aql_plan.specs.Plan.{top};
ghost use Rattle.aql_plan.specs.View.{plan_tree};
ghost use Rattle.aql_rewrite.specs.Changed.{IsChanged};
ghost use Rattle.aql_rewrite.specs.View.{above_uses};
ghost use Rattle.aql_rules_filter.specs.OptimizeTraversals.{Optimizes};
ghost use Rattle.aql_rules_filter.specs.Readers.{filter_in, may_go_in};

use crate::readers::{filter_of, open_path, push_filter, remove_edge, remove_path, traversal_of};
use crate::swapping::{is_gone, is_unused, test_uses, uses_of};
use aql_plan::{Facts, Plan, Uses};
use aql_rewrite::{PartRule, Rule, Swap};
use aql_tree::Expr;
use aql_value::OutOfMemory;
use std::alloc::Global;

// Whether a Filter with this condition goes into this node.
fn fits_inside(alloc: Global, node: &Plan, cond: &Expr) -> Result<bool, OutOfMemory>
    ensures { IfOk result
        (λ fits. fits ≡ may_go_in (top (plan_tree node.now)) (tree cond.now)) }
{
    match open_path(node) {
        None => Ok(false),
        Some(path) => {
            let used = uses_of(alloc, cond)?;
            Ok(is_unused(path, &used))
        }
    }
}

// A variable goes from a Traversal; `false` exactly where none does.
fn remove_variable(alloc: Global, part: &mut Plan, above: &[Uses]) -> Result<bool, OutOfMemory>
    requires { filter_in (plan_tree part.old) ≡ None }
    ensures { IfOk result (IsChanged Optimizes (above_uses above.now) (plan_tree part.old)
        (plan_tree part.new)) }
{
    let Some((edge, path, prune, filter)) = traversal_of(part) else {
        return Ok(false);
    };
    let own = test_uses(alloc, prune, filter)?;
    if is_gone(edge, above, &own) {
        remove_edge(part);
        return Ok(true);
    }
    if is_gone(path, above, &own) {
        remove_path(part);
        return Ok(true);
    }
    Ok(false)
}

/// The rule optimize-traversals.
#[derive(Clone, Copy, Drop)]
pub struct OptimizeTraversals;

impl Rule for OptimizeTraversals {
    ghost use Rattle.std.specs.Prelude.{false};
    ghost use Rattle.aql_rewrite.specs.Sums.{total};
    ghost use Rattle.aql_rules_filter.specs.Measures.{parts_to_go};
    ghost use Rattle.aql_rules_filter.specs.laws.TraversalsOptimized.{optimizes_refine, optimizes_keep, optimizes_fall};

    ghost rewrites = { λ _ _. Optimizes };

    ghost fragments = { λ _. false };

    ghost measure = { λ _. total parts_to_go };

    fn at(
        &self,
        alloc: Global,
        part: &Plan,
        above: &[Uses],
        facts: &Facts,
    ) -> Result<Option<Swap>, OutOfMemory> {
        let mut part = part.copy(alloc)?;
        if self.rewrite(alloc, &mut part, above, facts)? {
            return Ok(Some(Swap { part, rename: None }));
        }
        Ok(None)
    }

    ghost refines = { λ _ facts _ _ us p q r _ h. optimizes_refine facts us p q r h };

    ghost keeps = { λ _ facts outer away us p q r placed h.
        optimizes_keep facts outer away us p q r placed h };

    ghost falls = { λ _ facts p q r whole h. optimizes_fall facts p q r whole h };
}

impl PartRule for OptimizeTraversals {
    ghost use Rattle.std.specs.Prelude.{refl, true};
    ghost use Rattle.std.proofs.Common.{true≢false};
    ghost use Rattle.aql_rules_filter.specs.Measures.{parts_to_go};
    ghost use Rattle.aql_rules_filter.specs.laws.TraversalsOptimized.{optimizes_nameless, optimizes_shrink};

    ghost looks = { λ _. true };

    fn rewrite(
        &self,
        alloc: Global,
        part: &mut Plan,
        above: &[Uses],
        _facts: &Facts,
    ) -> Result<bool, OutOfMemory> {
        let Some((node, cond)) = filter_of(part) else {
            return remove_variable(alloc, part, above);
        };
        if !fits_inside(alloc, node, cond)? {
            return Ok(false);
        }
        push_filter(alloc, part)?;
        Ok(true)
    }

    fn looks_above(&self) -> bool {
        true
    }

    ghost blind = { λ _ e facts us vs p q r h. absurd (true≢false e) };

    ghost lone = { λ _. refl };

    ghost nameless = { λ _ _ us p q r h. optimizes_nameless us p q r h };

    ghost size = { λ _. parts_to_go };

    ghost lowers = { λ _ _ us p q r h. optimizes_shrink us p q r h };
}
