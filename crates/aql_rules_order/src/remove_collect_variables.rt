//! A variable of INTO or of an aggregate goes where it isn't used.

ghost use Rattle.std.specs.Prelude.{◌≡◌, IfOk, OnOk, map, filter, option_map, option_to_list};
ghost use Rattle.std.specs.List.{AllByRecursion};
ghost use Rattle.aql_tree.specs.View.{AggregatePart, aggregate_part, into_part, aggregates as aggregate_trees, into_tree};
ghost use Rattle.aql_meaning.specs.Numbered.{IsNumber};
ghost use Rattle.aql_meaning.specs.Visible.{aggregate_vars, into_var};
ghost use Rattle.aql_meaning.specs.Uses.{is_used as spec_is_used};
ghost use Rattle.aql_plan.specs.View.{node_tree};
ghost use Rattle.aql_rewrite.specs.View.{above_uses};
ghost use Rattle.aql_rules_order.specs.Readers.{vars_beside, used_alone};
ghost use Rattle.aql_rules_order.specs.RemoveCollectVariables.{all_used, used_into};

use aql_plan::{Facts, Node, Plan, Uses};
use aql_rewrite::{PartRule, Rule, Swap, is_used};
use aql_tree::{AggregateItem, Aggregates, Ident, Into, copy_ident, copy_maybe};
use aql_value::{OutOfMemory, Seq};
use std::alloc::Global;

// Whether the nodes above use a variable.
fn is_kept(var: &Ident, above: &[Uses]) -> bool
    requires { IsNumber var.now }
    ensures { result ≡ spec_is_used var.now (above_uses above.now) }
{
    match var {
        Ident::Num(n) => is_used(*n, above),
        Ident::Name(_) => true,
    }
}

fn all_kept(all: &[AggregateItem], above: &[Uses]) -> bool
    requires { AllByRecursion IsNumber
        (aggregate_vars (aggregate_trees (map aggregate_part all.now))) }
    ensures { result ≡ all_used (above_uses above.now)
        (aggregate_vars (aggregate_trees (map aggregate_part all.now))) }
{
    for item in all {
        if !is_kept(&item.var, above) {
            return false;
        }
    }
    true
}

fn into_kept(into: &Option<Into>, above: &[Uses]) -> bool
    requires { AllByRecursion IsNumber
        (option_to_list (into_var (into_tree (option_map into_part into.now)))) }
    ensures { result ≡ all_used (above_uses above.now)
        (option_to_list (into_var (into_tree (option_map into_part into.now)))) }
{
    match into {
        Some(into) => is_kept(&into.var, above),
        None => true,
    }
}

// The aggregates whose variables are used.
fn kept_aggregates(
    alloc: Global,
    all: &[AggregateItem],
    above: &[Uses],
) -> Result<Aggregates, OutOfMemory>
    requires { AllByRecursion IsNumber
        (aggregate_vars (aggregate_trees (map aggregate_part all.now))) }
    ensures { IfOk result (λ out. map aggregate_part out
        ≡ filter (λ (a : AggregatePart). spec_is_used a.0 (above_uses above.now))
        (map aggregate_part all.now)) }
{
    let mut out = Seq::new(alloc);
    for item in all {
        if is_kept(&item.var, above) {
            let var = copy_ident(alloc, &item.var)?;
            let name = item.name.copy(alloc)?;
            out.push(AggregateItem::new(var, name, copy_maybe(alloc, &item.arg)?))?;
        }
    }
    Ok(out)
}

// Drops INTO, if its variable is not used.
fn drop_into(into: &mut Option<Into>, above: &[Uses])
    requires { AllByRecursion IsNumber
        (option_to_list (into_var (into_tree (option_map into_part into.old)))) }
    ensures { into_tree (option_map into_part into.new)
        ≡ used_into (above_uses above.now) (into_tree (option_map into_part into.old)) }
{
    if !into_kept(into, above) {
        *into = None;
    }
}

// Whether the nodes above use all that a Collect sets beside its groups.
fn are_kept(node: &Node, above: &[Uses]) -> bool
    requires { AllByRecursion IsNumber (vars_beside (node_tree node.now)) }
    ensures { result ≡ all_used (above_uses above.now) (vars_beside (node_tree node.now)) }
{
    match node {
        Node::Collect {
            aggregates,
            into,
            ..
        } => all_kept(aggregates.as_slice(), above) && into_kept(into, above),
        _ => true,
    }
}

// Drops the aggregates and the INTO variable of a Collect that the nodes above do not use.
fn drop_unused(alloc: Global, node: &mut Node, above: &[Uses]) -> Result<(), OutOfMemory>
    requires { AllByRecursion IsNumber (vars_beside (node_tree node.old)) }
    ensures { OnOk result
        (node_tree node.new ≡ used_alone (above_uses above.now) (node_tree node.old)) }
{
    match node {
        Node::Collect {
            aggregates,
            into,
            ..
        } => {
            *aggregates = kept_aggregates(alloc, aggregates.as_slice(), above)?;
            drop_into(into, above);
            Ok(())
        }
        _ => Ok(()),
    }
}

/// The rule remove-collect-variables. One application drops all that is unused of its Collect.
#[derive(Clone, Copy, Drop)]
pub struct RemoveCollectVariables;

impl Rule for RemoveCollectVariables {
    ghost use Rattle.std.specs.Prelude.{false};
    ghost use Rattle.aql_rewrite.specs.Sums.{total};
    ghost use Rattle.aql_rules_order.specs.RemoveCollectVariables.{Drops};
    ghost use Rattle.aql_rules_order.specs.Measures.{vars_to_go};
    ghost use Rattle.aql_rules_order.specs.laws.VariablesDropped.{drops_refine, drops_keep, drops_fall};

    ghost rewrites = { λ _ _. Drops };

    ghost fragments = { λ _. false };

    ghost measure = { λ _. total vars_to_go };

    fn at(
        &self,
        alloc: Global,
        part: &Plan,
        above: &[Uses],
        facts: &Facts,
    ) -> Result<Option<Swap>, OutOfMemory> {
        let mut part = part.copy(alloc)?;
        if self.rewrite(alloc, &mut part, above, facts)? {
            return Ok(Some(Swap { part, rename: None }));
        }
        Ok(None)
    }

    ghost refines = { λ _ facts outer away us p q r placed h.
        drops_refine facts outer away us p q r placed h };

    ghost keeps = { λ _ facts outer away us p q r placed h.
        drops_keep facts outer away us p q r placed h };

    ghost falls = { λ _ facts p q r whole h. drops_fall facts p q r whole h };
}

impl PartRule for RemoveCollectVariables {
    ghost use Rattle.std.specs.Prelude.{refl, true};
    ghost use Rattle.std.proofs.Common.{true≢false};
    ghost use Rattle.aql_rules_order.specs.Measures.{vars_to_go};
    ghost use Rattle.aql_rules_order.specs.laws.VariablesDropped.{drops_nameless, drops_shrink};

    ghost looks = { λ _. true };

    fn rewrite(
        &self,
        alloc: Global,
        part: &mut Plan,
        above: &[Uses],
        _facts: &Facts,
    ) -> Result<bool, OutOfMemory> {
        match part {
            Plan::Over { node, .. } => {
                if are_kept(node, above) {
                    return Ok(false);
                }
                drop_unused(alloc, &mut **node, above)?;
                Ok(true)
            }
            _ => Ok(false),
        }
    }

    fn looks_above(&self) -> bool {
        true
    }

    ghost blind = { λ _ e facts us vs p q r h. absurd (true≢false e) };

    ghost lone = { λ _. refl };

    ghost nameless = { λ _ _ us p q r h. drops_nameless us p q r h };

    ghost size = { λ _. vars_to_go };

    ghost lowers = { λ _ _ us p q r h. drops_shrink us p q r h };
}
