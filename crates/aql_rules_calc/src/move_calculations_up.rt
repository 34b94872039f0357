//! A Calculation or Subquery swaps places with the node below it, of whose variables it uses none.

ghost use Rattle.std.specs.Prelude.{◌≡◌, true, IfOk, option_map, option_to_list};
ghost use Rattle.aql_tree.specs.declared.syntax.Ident.TheVariants.{Num};
ghost use Rattle.aql_plan.specs.Needs.{sets};
ghost use Rattle.aql_plan.specs.Plan.{top};
ghost use Rattle.aql_plan.specs.View.{node_tree, plan_tree};
ghost use Rattle.aql_rewrite.specs.Nodes.{uses_alone};
ghost use Rattle.aql_rules_calc.specs.MoveCalculationsUp.{enumerates as spec_enumerates};
ghost use Rattle.aql_rules_calc.specs.MoveCalculationsUp.{enumerates_or_sorts as spec_enumerates_or_sorts};
ghost use Rattle.aql_rules_calc.specs.MoveCalculationsUp.{may_pass as spec_may_pass, none_used};

use crate::needs::node_uses;
use aql_plan::{Facts, Node, Plan, Uses};
use aql_rewrite::{ExchangeRule, Rule, Swap};
use aql_value::OutOfMemory;
use std::alloc::Global;

fn node_enumerates(node: &Node) -> bool
    ensures { result ≡ spec_enumerates (node_tree node.now) }
{
    matches!(
        node,
        Node::EnumerateCollection { .. } | Node::EnumerateList { .. } | Node::Traversal { .. }
    )
}

fn enumerates(plan: &Plan) -> bool
    ensures { result ≡ spec_enumerates (top (plan_tree plan.now)) }
{
    match plan {
        Plan::Over { node, .. } => node_enumerates(node),
        _ => false,
    }
}

fn node_enumerates_or_sorts(node: &Node) -> bool
    ensures { result ≡ spec_enumerates_or_sorts (node_tree node.now) }
{
    matches!(node, Node::Sort { .. }) || node_enumerates(node)
}

fn enumerates_or_sorts(plan: &Plan) -> bool
    ensures { result ≡ spec_enumerates_or_sorts (top (plan_tree plan.now)) }
{
    match plan {
        Plan::Over { node, .. } => node_enumerates_or_sorts(node),
        _ => false,
    }
}

fn node_may_pass(upper: &Node, lower: &Plan) -> bool
    ensures { result ≡ spec_may_pass (node_tree upper.now) (top (plan_tree lower.now)) }
{
    match upper {
        Node::Calculation { .. } => enumerates_or_sorts(lower),
        _ => false,
    }
}

// Whether the upper node may go below the lower one, whatever it uses.
fn may_pass(upper: &Plan, lower: &Plan) -> bool
    ensures { result ≡ spec_may_pass (top (plan_tree upper.now)) (top (plan_tree lower.now)) }
{
    match upper {
        Plan::Singleton => false,
        Plan::Over { node, .. } => node_may_pass(node, lower),
        Plan::Subquery { .. } => enumerates(lower),
    }
}

// Whether a node does not use a variable that may be missing.
fn leaves_out(alloc: Global, node: &Plan, var: Option<u32>) -> Result<bool, OutOfMemory>
    ensures { IfOk result (λ b. b ≡ none_used (option_to_list (option_map (λ x. Num x) var))
        (uses_alone (top (plan_tree node.now)))) }
{
    match var {
        Some(var) => Ok(!node_uses(alloc, node, var)?),
        None => Ok(true),
    }
}

// Whether the upper node uses none of the variables of a node below which it may go.
fn uses_none_of(alloc: Global, upper: &Plan, lower: &Node) -> Result<bool, OutOfMemory>
    requires { spec_may_pass (top (plan_tree upper.now)) (node_tree lower.now) ≡ true }
    ensures { IfOk result (λ b. b
        ≡ none_used (sets (node_tree lower.now)) (uses_alone (top (plan_tree upper.now)))) }
{
    match lower {
        Node::EnumerateCollection { var, .. } => Ok(!node_uses(alloc, upper, *var)?),
        Node::EnumerateList { var, .. } => Ok(!node_uses(alloc, upper, *var)?),
        Node::Traversal {
            vertex,
            edge,
            path,
            ..
        } => {
            let other_vertex = !node_uses(alloc, upper, *vertex)?;
            let other_edge = leaves_out(alloc, upper, *edge)?;
            let other_path = leaves_out(alloc, upper, *path)?;
            Ok(other_vertex && other_edge && other_path)
        }
        _ => Ok(true),
    }
}

// The same of the top node of a plan.
fn uses_none(alloc: Global, upper: &Plan, lower: &Plan) -> Result<bool, OutOfMemory>
    requires { spec_may_pass (top (plan_tree upper.now)) (top (plan_tree lower.now)) ≡ true }
    ensures { IfOk result (λ b. b
        ≡ none_used (sets (top (plan_tree lower.now))) (uses_alone (top (plan_tree upper.now)))) }
{
    match lower {
        Plan::Over { node, .. } => uses_none_of(alloc, upper, node),
        _ => Ok(true),
    }
}

/// The rule move-calculations-up.
#[derive(Clone, Copy, Drop)]
pub struct MoveCalculationsUp;

impl Rule for MoveCalculationsUp {
    ghost use Rattle.std.specs.Prelude.{false};
    ghost use Rattle.aql_rules_calc.specs.MoveCalculationsUp.{Moves};
    ghost use Rattle.aql_rules_calc.specs.Measures.{height};
    ghost use Rattle.aql_rules_calc.specs.laws.Moved.{moves_refine, moves_keep, moves_fall};

    ghost rewrites = { λ _ _. Moves };

    ghost fragments = { λ _. false };

    ghost measure = { λ _. height };

    fn at(
        &self,
        alloc: Global,
        part: &Plan,
        _above: &[Uses],
        _facts: &Facts,
    ) -> Result<Option<Swap>, OutOfMemory> {
        match part.below() {
            None => Ok(None),
            Some(lower) => match lower.below() {
                None => Ok(None),
                Some(below) => {
                    if !may_pass(part, lower) {
                        return Ok(None);
                    }
                    if !uses_none(alloc, part, lower)? {
                        return Ok(None);
                    }
                    let below = below.copy(alloc)?;
                    let upper = part.over(alloc, below)?;
                    let part = lower.over(alloc, upper)?;
                    Ok(Some(Swap { part, rename: None }))
                }
            },
        }
    }

    ghost refines = { λ _ facts outer away us p q r placed h.
        moves_refine facts outer away us p q r placed h };

    ghost keeps = { λ _ facts outer away us p q r placed h.
        moves_keep facts outer away us p q r placed h };

    ghost falls = { λ _ facts p q r whole h. moves_fall facts p q r whole h };
}

impl ExchangeRule for MoveCalculationsUp {
    ghost use Rattle.std.specs.Prelude.{refl};
    ghost use Rattle.aql_rules_calc.specs.laws.CalculationsExchanged.{calculation_swaps};
    ghost use Rattle.aql_rules_calc.specs.laws.CalculationsExchanged.{calculations_exchanged};
    ghost use Rattle.aql_rules_calc.specs.laws.CalculationsExchanged.{calculations_alone};
    ghost use Rattle.aql_rules_calc.specs.laws.CalculationsExchanged.{calculations_apart};
    ghost use Rattle.aql_rules_calc.specs.laws.CalculationsExchanged.{calculations_steady};

    ghost swaps = { λ _. calculation_swaps };

    fn may_exchange(&self, alloc: Global, upper: &Plan, lower: &Plan) -> Result<bool, OutOfMemory> {
        if !may_pass(upper, lower) {
            return Ok(false);
        }
        uses_none(alloc, upper, lower)
    }

    ghost lone = { λ _. refl };

    ghost exchanged = { λ _ _ us b upper lower h. calculations_exchanged us b upper lower h };

    ghost alone = { λ _ _ us p q r h. calculations_alone us p q r h };

    ghost apart = { λ _ upper lower further h. calculations_apart upper lower further h };

    ghost steady = { λ _ _ v s t lower h. calculations_steady v s t lower h };
}
