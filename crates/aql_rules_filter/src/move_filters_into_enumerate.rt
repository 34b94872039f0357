//! A Filter over an EnumerateCollection or an Index that keeps all attributes goes into it.

use crate::readers::{filter_of, keeps_all, push_filter};
use aql_plan::{Facts, Plan, Uses};
use aql_rewrite::{PartRule, Rule, Swap};
use aql_value::OutOfMemory;
use std::alloc::Global;

/// The rule move-filters-into-enumerate.
#[derive(Clone, Copy, Drop)]
pub struct MoveFiltersIntoEnumerate;

impl Rule for MoveFiltersIntoEnumerate {
    ghost use Rattle.std.specs.Prelude.{false};
    ghost use Rattle.aql_rules_filter.specs.Measures.{filters};
    ghost use Rattle.aql_rules_filter.specs.MoveFiltersIntoEnumerate.{MovesIn};
    ghost use Rattle.aql_rules_filter.specs.laws.FiltersInside.{moves_in_refine, moves_in_keep, moves_in_fall};

    ghost rewrites = { λ _ _. MovesIn };

    ghost fragments = { λ _. false };

    ghost measure = { λ _. filters };

    fn at(
        &self,
        alloc: Global,
        part: &Plan,
        above: &[Uses],
        facts: &Facts,
    ) -> Result<Option<Swap>, OutOfMemory> {
        let mut part = part.copy(alloc)?;
        if self.rewrite(alloc, &mut part, above, facts)? {
            return Ok(Some(Swap { part, rename: None }));
        }
        Ok(None)
    }

    ghost refines = { λ _ facts _ _ us p q r _ h. moves_in_refine facts us p q r h };

    ghost keeps = { λ _ facts outer away us p q r placed h.
        moves_in_keep facts outer away us p q r placed h };

    ghost falls = { λ _ facts p q r whole h. moves_in_fall facts p q r whole h };
}

impl PartRule for MoveFiltersIntoEnumerate {
    ghost use Rattle.std.specs.Prelude.{refl, false};
    ghost use Rattle.aql_rules_filter.specs.Measures.{is_filter};
    ghost use Rattle.aql_rules_filter.specs.laws.FiltersInside.{moves_in_blind, moves_in_nameless, moves_in_shrink};

    ghost looks = { λ _. false };

    fn rewrite(
        &self,
        alloc: Global,
        part: &mut Plan,
        _above: &[Uses],
        _facts: &Facts,
    ) -> Result<bool, OutOfMemory> {
        let Some((node, _)) = filter_of(part) else {
            return Ok(false);
        };
        if !keeps_all(node) {
            return Ok(false);
        }
        push_filter(alloc, part)?;
        Ok(true)
    }

    fn looks_above(&self) -> bool {
        false
    }

    ghost blind = { λ _ e facts us vs p q r h. moves_in_blind us vs p q r h };

    ghost lone = { λ _. refl };

    ghost nameless = { λ _ _ us p q r h. moves_in_nameless us p q r h };

    ghost size = { λ _. is_filter };

    ghost lowers = { λ _ _ us p q r h. moves_in_shrink us p q r h };
}
