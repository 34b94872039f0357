//! A Filter swaps places with the node below it, whose variables it does not use.

use crate::readers::filter_of;
use crate::swapping::{may_swap, uses_of};
use aql_plan::{Facts, Node, Plan, Uses};
use aql_rewrite::{ExchangeRule, Rule, Swap};
use aql_tree::copy_expr;
use aql_value::OutOfMemory;
use std::alloc::Global;

/// The rule move-filters-up.
#[derive(Clone, Copy, Drop)]
pub struct MoveFiltersUp;

impl Rule for MoveFiltersUp {
    ghost use Rattle.std.specs.Prelude.{false};
    ghost use Rattle.aql_rules_filter.specs.MoveFiltersUp.{MovesUp};
    ghost use Rattle.aql_rules_filter.specs.Measures.{height};
    ghost use Rattle.aql_rules_filter.specs.laws.FiltersUp.{moves_up_refine, moves_up_keep, moves_up_fall};

    ghost rewrites = { λ _ _. MovesUp };

    ghost fragments = { λ _. false };

    ghost measure = { λ _. height };

    fn at(
        &self,
        alloc: Global,
        part: &Plan,
        _above: &[Uses],
        _facts: &Facts,
    ) -> Result<Option<Swap>, OutOfMemory> {
        match filter_of(part) {
            None => Ok(None),
            Some((node, cond)) => match node.below() {
                None => Ok(None),
                Some(below) => {
                    let used = uses_of(alloc, cond)?;
                    if !may_swap(node, &used) {
                        return Ok(None);
                    }
                    let below = below.copy(alloc)?;
                    let cond = copy_expr(alloc, cond)?;
                    let lower = Node::Filter { cond }.over(alloc, below)?;
                    let part = node.over(alloc, lower)?;
                    Ok(Some(Swap { part, rename: None }))
                }
            },
        }
    }

    ghost refines = { λ _ facts _ _ us p q r _ h. moves_up_refine facts us p q r h };

    ghost keeps = { λ _ facts outer away us p q r placed h.
        moves_up_keep facts outer away us p q r placed h };

    ghost falls = { λ _ facts p q r whole h. moves_up_fall facts p q r whole h };
}

impl ExchangeRule for MoveFiltersUp {
    ghost use Rattle.std.specs.Prelude.{refl};
    ghost use Rattle.aql_rules_filter.specs.laws.FiltersExchanged.{filter_swaps};
    ghost use Rattle.aql_rules_filter.specs.laws.FiltersExchanged.{filters_exchanged, filters_alone};
    ghost use Rattle.aql_rules_filter.specs.laws.FiltersExchanged.{filters_apart, filters_steady};

    ghost swaps = { λ _. filter_swaps };

    fn may_exchange(&self, alloc: Global, upper: &Plan, lower: &Plan) -> Result<bool, OutOfMemory> {
        match filter_of(upper) {
            None => Ok(false),
            Some((_, cond)) => {
                let used = uses_of(alloc, cond)?;
                Ok(may_swap(lower, &used))
            }
        }
    }

    ghost lone = { λ _. refl };

    ghost exchanged = { λ _ _ us b upper lower h. filters_exchanged us b upper lower h };

    ghost alone = { λ _ _ us p q r h. filters_alone us p q r h };

    ghost apart = { λ _ upper lower further h. filters_apart upper lower further h };

    ghost steady = { λ _ _ v s t lower _. filters_steady v s t lower };
}
