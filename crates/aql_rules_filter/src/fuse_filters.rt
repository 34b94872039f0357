//! A Filter over a Filter becomes one with the items of the lower, then of the upper.

use crate::readers::{filter_of, is_filter, push_filter};
use aql_plan::{Facts, Plan, Uses};
use aql_rewrite::{PartRule, Rule, Swap};
use aql_value::OutOfMemory;
use std::alloc::Global;

/// The rule fuse-filters.
#[derive(Clone, Copy, Drop)]
pub struct FuseFilters;

impl Rule for FuseFilters {
    ghost use Rattle.std.specs.Prelude.{false};
    ghost use Rattle.aql_rules_filter.specs.Measures.{filters};
    ghost use Rattle.aql_rules_filter.specs.FuseFilters.{Fuses};
    ghost use Rattle.aql_rules_filter.specs.laws.FiltersFused.{fuses_refine, fuses_keep, fuses_fall};

    ghost rewrites = { λ _ _. Fuses };

    ghost fragments = { λ _. false };

    ghost measure = { λ _. filters };

    fn at(
        &self,
        alloc: Global,
        part: &Plan,
        above: &[Uses],
        facts: &Facts,
    ) -> Result<Option<Swap>, OutOfMemory> {
        let mut part = part.copy(alloc)?;
        if self.rewrite(alloc, &mut part, above, facts)? {
            return Ok(Some(Swap { part, rename: None }));
        }
        Ok(None)
    }

    ghost refines = { λ _ facts _ _ us p q r _ h. fuses_refine facts us p q r h };

    ghost keeps = { λ _ facts outer away us p q r placed h.
        fuses_keep facts outer away us p q r placed h };

    ghost falls = { λ _ facts p q r whole h. fuses_fall facts p q r whole h };
}

impl PartRule for FuseFilters {
    ghost use Rattle.std.specs.Prelude.{refl, false};
    ghost use Rattle.aql_rules_filter.specs.Measures.{is_filter};
    ghost use Rattle.aql_rules_filter.specs.laws.FiltersFused.{fuses_blind, fuses_nameless, fuses_shrink};

    ghost looks = { λ _. false };

    fn rewrite(
        &self,
        alloc: Global,
        part: &mut Plan,
        _above: &[Uses],
        _facts: &Facts,
    ) -> Result<bool, OutOfMemory> {
        let Some((below, _)) = filter_of(part) else {
            return Ok(false);
        };
        if !is_filter(below) {
            return Ok(false);
        }
        push_filter(alloc, part)?;
        Ok(true)
    }

    fn looks_above(&self) -> bool {
        false
    }

    ghost blind = { λ _ e facts us vs p q r h. fuses_blind us vs p q r h };

    ghost lone = { λ _. refl };

    ghost nameless = { λ _ _ us p q r h. fuses_nameless us p q r h };

    ghost size = { λ _. is_filter };

    ghost lowers = { λ _ _ us p q r h. fuses_shrink us p q r h };
}
