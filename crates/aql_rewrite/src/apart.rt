//! Nodes that are given another input or another body, in place.

ghost use Rattle.std.specs.Prelude.{◌≡◌, true, false};
ghost use Rattle.aql_plan.specs.Nodes.{over, with_body as spec_with_body};
ghost use Rattle.aql_plan.specs.Plan.{top};
ghost use Rattle.aql_plan.specs.View.{plan_tree};
ghost use Rattle.aql_rewrite.specs.Apart.{is_start as spec_is_start, has_body as spec_has_body};

use aql_plan::Plan;
use std::mem;

/// Whether a plan is `Singleton`, which has no input.
pub fn is_start(plan: &Plan) -> bool
    ensures { result ≡ spec_is_start (plan_tree plan.now) }
{
    matches!(plan, Plan::Singleton)
}

/// Whether a node has a body.
pub fn has_body(node: &Plan) -> bool
    ensures { result ≡ spec_has_body (top (plan_tree node.now)) }
{
    matches!(node, Plan::Subquery { .. })
}

/// Gives a node another input, and gives back the one that it had. `Singleton`, which has none,
/// stays as it is, and the new one is given back.
pub fn replace_below(node: &mut Plan, below: Plan) -> Plan
    ensures over { plan_tree node.new ≡ over (plan_tree node.old) (plan_tree below) }
    ensures input { plan_tree node.old ≡ over (plan_tree node.old) (plan_tree result) }
    ensures given_back { spec_is_start (plan_tree node.old) ≡ true
        → plan_tree result ≡ plan_tree below }
{
    match node {
        Plan::Singleton => below,
        Plan::Over { below: own, .. } => mem::replace(&mut **own, below),
        Plan::Subquery { below: own, .. } => mem::replace(&mut **own, below),
    }
}

/// Gives a Subquery another body, and gives back the one that it had. Another node stays as it is,
/// and the new one is given back.
pub fn replace_body(node: &mut Plan, body: Plan) -> Plan
    ensures with { plan_tree node.new ≡ spec_with_body (plan_tree node.old) (plan_tree body) }
    ensures had { plan_tree node.old ≡ spec_with_body (plan_tree node.old) (plan_tree result) }
    ensures given_back { spec_has_body (top (plan_tree node.old)) ≡ false
        → plan_tree result ≡ plan_tree body }
{
    match node {
        Plan::Subquery { body: own, .. } => mem::replace(&mut **own, body),
        _ => body,
    }
}

/// A node over another input; `Singleton`, which has none, as it is.
pub fn with_below(node: Plan, below: Plan) -> Plan
    ensures { plan_tree result ≡ over (plan_tree node) (plan_tree below) }
{
    let mut node = node;
    replace_below(&mut node, below);
    node
}

/// A Subquery with another body; another node as it is.
pub fn with_body(node: Plan, body: Plan) -> Plan
    ensures { plan_tree result ≡ spec_with_body (plan_tree node) (plan_tree body) }
{
    let mut node = node;
    replace_body(&mut node, body);
    node
}
