//! A Sort below a Limit gives only as many rows as the Limit asks for.

ghost use Rattle.std.specs.Prelude.{◌≡◌, None, MatchOption};
ghost use Rattle.aql_plan.specs.Plan as spec;
ghost use Rattle.aql_plan.specs.Plan.{top};
ghost use Rattle.aql_plan.specs.View.{node_tree, plan_tree};
ghost use Rattle.aql_rules_order.specs.Readers.{Becomes, InputBecomes, limit_in};
ghost use Rattle.aql_rules_order.specs.Readers.{with_limit};
ghost use Rattle.aql_rules_order.specs.SortLimit.{Limited, sets_value as spec_sets_value};

use crate::readers::is_open_sort;
use aql_plan::{Facts, Node, Plan, Uses};
use aql_rewrite::{PartRule, Rule, Swap};
use aql_value::OutOfMemory;
use std::alloc::Global;

fn is_calculation(node: &Node) -> bool
    ensures { result ≡ spec_sets_value (node_tree node.now) }
{
    matches!(node, Node::Calculation { .. })
}

fn sets_value(plan: &Plan) -> bool
    ensures { result ≡ spec_sets_value (top (plan_tree plan.now)) }
{
    match plan {
        Plan::Singleton => false,
        Plan::Over { node, .. } => is_calculation(node),
        Plan::Subquery { .. } => true,
    }
}

fn set_limit(plan: &mut Plan, limit: u64)
    ensures { plan_tree plan.new ≡ with_limit limit (plan_tree plan.old) }
{
    if let Plan::Over { node, .. } = plan {
        if let Node::Sort { limit: own, .. } = &mut **node {
            *own = Some(limit);
        }
    }
}

// Limits the Sort that stands at the top of a plan without a limit, or below nodes that set a
// value; `false` exactly where there is none.
#[cycle(limit)]
fn limit_sort(plan: &mut Plan, limit: u64) -> bool
    ensures { Becomes (Limited limit) (plan_tree plan.old) (plan_tree plan.new) result }
{
    if is_open_sort(plan) {
        set_limit(plan, limit);
        return true;
    }
    if !sets_value(plan) {
        return false;
    }
    limit_below(plan, limit)
}

// The same of the input of a node.
#[cycle(limit)]
fn limit_below(plan: &mut Plan, limit: u64) -> bool
    ensures { InputBecomes (Limited limit) (plan_tree plan.old) (plan_tree plan.new) result }
{
    match plan {
        Plan::Singleton => false,
        Plan::Over { below, .. } => limit_sort(&mut **below, limit),
        Plan::Subquery { below, .. } => limit_sort(&mut **below, limit),
    }
}

fn limit_at(node: &Node) -> Option<(u64, u64)>
    ensures { MatchOption result (limit_in (node_tree node.now) ≡ None)
        (λ l. node_tree node.now ≡ spec.Limit l.0 l.1) }
{
    match node {
        Node::Limit { offset, count } => Some((*offset, *count)),
        _ => None,
    }
}

// How many rows a Limit leaves out, and how many it keeps at most.
fn limit_of(plan: &Plan) -> Option<(u64, u64)>
    ensures { MatchOption result (limit_in (top (plan_tree plan.now)) ≡ None)
        (λ l. top (plan_tree plan.now) ≡ spec.Limit l.0 l.1) }
{
    match plan {
        Plan::Over { node, .. } => limit_at(node),
        _ => None,
    }
}

/// The rule sort-limit.
#[derive(Clone, Copy, Drop)]
pub struct SortLimit;

impl Rule for SortLimit {
    ghost use Rattle.std.specs.Prelude.{false};
    ghost use Rattle.aql_rewrite.specs.Sums.{total};
    ghost use Rattle.aql_rules_order.specs.SortLimit.{Limits};
    ghost use Rattle.aql_rules_order.specs.Measures.{is_unlimited};
    ghost use Rattle.aql_rules_order.specs.laws.SortsLimited.{limits_refine, limits_keep, limits_fall};

    ghost rewrites = { λ _ _. Limits };

    ghost fragments = { λ _. false };

    ghost measure = { λ _. total is_unlimited };

    fn at(
        &self,
        alloc: Global,
        part: &Plan,
        above: &[Uses],
        facts: &Facts,
    ) -> Result<Option<Swap>, OutOfMemory> {
        let mut part = part.copy(alloc)?;
        if self.rewrite(alloc, &mut part, above, facts)? {
            return Ok(Some(Swap { part, rename: None }));
        }
        Ok(None)
    }

    ghost refines = { λ _ facts _ _ us p q r _ h. limits_refine facts us p q r h };

    ghost keeps = { λ _ facts outer away us p q r placed h.
        limits_keep facts outer away us p q r placed h };

    ghost falls = { λ _ facts p q r whole h. limits_fall facts p q r whole h };
}

impl PartRule for SortLimit {
    ghost use Rattle.std.specs.Prelude.{refl, false};
    ghost use Rattle.aql_rules_order.specs.Measures.{is_unlimited};
    ghost use Rattle.aql_rules_order.specs.laws.SortsLimited.{limits_blind, limits_nameless, limits_shrink};

    ghost looks = { λ _. false };

    fn rewrite(
        &self,
        _alloc: Global,
        part: &mut Plan,
        _above: &[Uses],
        _facts: &Facts,
    ) -> Result<bool, OutOfMemory> {
        match limit_of(part) {
            None => Ok(false),
            Some((offset, count)) => Ok(limit_below(part, offset + count)),
        }
    }

    fn looks_above(&self) -> bool {
        false
    }

    ghost blind = { λ _ e facts us vs p q r h. limits_blind us vs p q r h };

    ghost lone = { λ _. refl };

    ghost nameless = { λ _ _ us p q r h. limits_nameless us p q r h };

    ghost size = { λ _. is_unlimited };

    ghost lowers = { λ _ _ us p q r h. limits_shrink us p q r h };
}
