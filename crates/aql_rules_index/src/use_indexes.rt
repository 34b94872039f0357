//! Under a Filter an EnumerateCollection becomes the Index that the condition's items bound best.

ghost use Rattle.std.specs.Prelude.{◌≡◌, None, IfOk, MatchOption, option_map, []};
ghost use Rattle.aql_tree.specs.declared.syntax.Ident.TheVariants.{Num};
ghost use Rattle.aql_plan.specs.Plan.{top};
ghost use Rattle.aql_plan.specs.View.{node_tree, plan_tree};
ghost use Rattle.aql_rewrite.specs.Places.{Stays};
ghost use Rattle.aql_rules_index.specs.UseIndexes.{UsesIndex};
ghost use Rattle.aql_rules_index.specs.inner.Readers.{bare_reading as spec_bare_reading};
ghost use Rattle.aql_rules_index.specs.inner.Readers.{var_and_coll, input_indexed};
ghost use Rattle.aql_rules_index.specs.inner.Views.{candidate_tree};

use crate::choice::{Candidate, choose};
use crate::readers::set_index;
use aql_plan::{Facts, Node, Plan, Uses};
use aql_rewrite::{PartRule, Rule, Swap};
use aql_rules_filter::filter_of;
use aql_value::{CollNo, OutOfMemory};
use std::alloc::Global;

fn node_bare_reading(node: &Node) -> Option<(u32, CollNo)>
    ensures { option_map (λ r. (Num r.0, r.1.0)) result
        ≡ var_and_coll (spec_bare_reading (node_tree node.now)) }
{
    match node {
        Node::EnumerateCollection {
            var,
            coll,
            filter: None,
            attrs: None,
            ..
        } => Some((*var, *coll)),
        _ => None,
    }
}

// The variable and the collection of an EnumerateCollection without a filter that keeps all
// attributes.
fn bare_reading(plan: &Plan) -> Option<(u32, CollNo)>
    ensures { option_map (λ r. (Num r.0, r.1.0)) result
        ≡ var_and_coll (spec_bare_reading (top (plan_tree plan.now))) }
{
    match plan {
        Plan::Over { node, .. } => node_bare_reading(node),
        _ => None,
    }
}

// The index for a Filter over an EnumerateCollection; `None` exactly where the rule does not apply.
fn index_for(alloc: Global, part: &Plan, facts: &Facts) -> Result<Option<Candidate>, OutOfMemory>
    ensures { IfOk result (λ chosen. MatchOption chosen
        (Stays (UsesIndex facts.now) [] (plan_tree part.now))
        (λ c. UsesIndex facts.now [] (plan_tree part.now)
        (input_indexed (candidate_tree c) None (plan_tree part.now)) None)) }
{
    let Some((below, cond)) = filter_of(part) else {
        return Ok(None);
    };
    let Some((var, coll)) = bare_reading(below) else {
        return Ok(None);
    };
    let chosen = choose(alloc, var, coll, cond, facts)?;
    Ok(chosen)
}

fn set_input_index(plan: &mut Plan, chosen: Candidate)
    ensures { plan_tree plan.new ≡ input_indexed (candidate_tree chosen) None (plan_tree plan.old) }
{
    match plan {
        Plan::Singleton => {}
        Plan::Over { below, .. } => set_index(&mut **below, chosen, None),
        Plan::Subquery { below, .. } => set_index(&mut **below, chosen, None),
    }
}

/// The rule use-indexes.
#[derive(Clone, Copy, Drop)]
pub struct UseIndexes;

impl Rule for UseIndexes {
    ghost use Rattle.std.specs.Prelude.{false};
    ghost use Rattle.aql_rewrite.specs.Sums.{total};
    ghost use Rattle.aql_rules_index.specs.Measures.{is_enumeration};
    ghost use Rattle.aql_rules_index.specs.UseIndexes.{UsesIndex};
    ghost use Rattle.aql_rules_index.specs.laws.Chosen.{chosen_refines};
    ghost use Rattle.aql_rules_index.specs.laws.IndexUsed.{uses_keep, uses_fall};

    ghost rewrites = { λ _ facts. UsesIndex facts };

    ghost fragments = { λ _. false };

    ghost measure = { λ _. total is_enumeration };

    fn at(
        &self,
        alloc: Global,
        part: &Plan,
        above: &[Uses],
        facts: &Facts,
    ) -> Result<Option<Swap>, OutOfMemory> {
        let mut part = part.copy(alloc)?;
        if self.rewrite(alloc, &mut part, above, facts)? {
            return Ok(Some(Swap { part, rename: None }));
        }
        Ok(None)
    }

    ghost refines = { λ _ facts _ _ us p q r _ h. chosen_refines facts us p q r h };

    ghost keeps = { λ _ facts outer away us p q r placed h.
        uses_keep facts outer away us p q r placed h };

    ghost falls = { λ _ facts p q r whole h. uses_fall facts p q r whole h };
}

impl PartRule for UseIndexes {
    ghost use Rattle.std.specs.Prelude.{refl, false};
    ghost use Rattle.aql_rules_index.specs.Measures.{is_enumeration};
    ghost use Rattle.aql_rules_index.specs.laws.Shrinking.{uses_look, uses_shrink};

    ghost looks = { λ _. false };

    fn rewrite(
        &self,
        alloc: Global,
        part: &mut Plan,
        _above: &[Uses],
        facts: &Facts,
    ) -> Result<bool, OutOfMemory> {
        let Some(chosen) = index_for(alloc, part, facts)? else {
            return Ok(false);
        };
        set_input_index(part, chosen);
        Ok(true)
    }

    fn looks_above(&self) -> bool {
        false
    }

    ghost blind = { λ _ e facts us vs p q r h. (uses_look facts us vs p q r h).0 };

    ghost lone = { λ _. refl };

    ghost nameless = { λ _ facts us p q r h. (uses_look facts us us p q r h).1 };

    ghost size = { λ _. is_enumeration };

    ghost lowers = { λ _ facts us p q r h. uses_shrink facts us p q r h };
}
