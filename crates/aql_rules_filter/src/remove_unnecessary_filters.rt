//! A Filter with a literal goes where this is true-like, and becomes NoResults where it is not.

use crate::conditions::literal_in;
use crate::readers::{empty_filter, filter_of, take_filter};
use aql_plan::{Facts, Plan, Uses};
use aql_rewrite::{PartRule, Rule, Swap};
use aql_value::{OutOfMemory, truthy};
use std::alloc::Global;

/// The rule remove-unnecessary-filters.
#[derive(Clone, Copy, Drop)]
pub struct RemoveUnnecessaryFilters;

impl Rule for RemoveUnnecessaryFilters {
    ghost use Rattle.std.specs.Prelude.{false};
    ghost use Rattle.aql_rules_filter.specs.Measures.{filters};
    ghost use Rattle.aql_rules_filter.specs.RemoveUnnecessaryFilters.{Removes};
    ghost use Rattle.aql_rules_filter.specs.laws.FiltersRemoved.{removes_refine, removes_keep, removes_fall};

    ghost rewrites = { λ _ _. Removes };

    ghost fragments = { λ _. false };

    ghost measure = { λ _. filters };

    fn at(
        &self,
        alloc: Global,
        part: &Plan,
        above: &[Uses],
        facts: &Facts,
    ) -> Result<Option<Swap>, OutOfMemory> {
        let mut part = part.copy(alloc)?;
        if self.rewrite(alloc, &mut part, above, facts)? {
            return Ok(Some(Swap { part, rename: None }));
        }
        Ok(None)
    }

    ghost refines = { λ _ facts _ _ us p q r _ h. removes_refine facts us p q r h };

    ghost keeps = { λ _ facts outer away us p q r placed h.
        removes_keep facts outer away us p q r placed h };

    ghost falls = { λ _ facts p q r whole h. removes_fall facts p q r whole h };
}

impl PartRule for RemoveUnnecessaryFilters {
    ghost use Rattle.std.specs.Prelude.{refl, false};
    ghost use Rattle.aql_rules_filter.specs.Measures.{is_filter};
    ghost use Rattle.aql_rules_filter.specs.laws.FiltersRemoved.{removes_blind, removes_nameless, removes_shrink};

    ghost looks = { λ _. false };

    fn rewrite(
        &self,
        _alloc: Global,
        part: &mut Plan,
        _above: &[Uses],
        _facts: &Facts,
    ) -> Result<bool, OutOfMemory> {
        let Some((_, cond)) = filter_of(part) else {
            return Ok(false);
        };
        let Some(value) = literal_in(cond) else {
            return Ok(false);
        };
        if truthy(value) {
            take_filter(part);
        } else {
            empty_filter(part);
        }
        Ok(true)
    }

    fn looks_above(&self) -> bool {
        false
    }

    ghost blind = { λ _ e facts us vs p q r h. removes_blind us vs p q r h };

    ghost lone = { λ _. refl };

    ghost nameless = { λ _ _ us p q r h. removes_nameless us p q r h };

    ghost size = { λ _. is_filter };

    ghost lowers = { λ _ _ us p q r h. removes_shrink us p q r h };
}
