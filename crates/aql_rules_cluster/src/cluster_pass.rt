//! The pass of a rule for a cluster: the plan from its lowest node up. Nothing that the rule puts
//! into a plan is a place, so each node is looked at once. No node is copied.

ghost use Rattle.std.specs.Prelude.{◌≡◌, ◌≤◌, [], true, false, IfOk};
ghost use Rattle.aql_plan.specs.Above.{input_inside as spec_input_inside};
ghost use Rattle.aql_plan.specs.Plan.{top};
ghost use Rattle.aql_plan.specs.Refines.{Refines};
ghost use Rattle.aql_plan.specs.View.{node_tree, plan_tree};
ghost use Rattle.aql_plan.specs.WellFormed.{IsWellFormed};
ghost use Rattle.aql_plan.specs.declared.facts.Facts.{Facts as spec_Facts};
ghost use Rattle.aql_rewrite.specs.Places.{IsPass};
ghost use Rattle.aql_rewrite.specs.Swaps.{SetsNoMore};
ghost use Rattle.aql_rules_cluster.specs.OnShards.{ReadsOnShards};
ghost use Rattle.aql_rules_cluster.specs.inner.Walks.{IsRewritten, IsWalked};
ghost use Rattle.aql_rules_cluster.specs.laws.Passes.{ForCluster};

use aql_plan::{Facts, Node, Passed, Plan};
use aql_rewrite::{Rule, has_body, is_start, replace_below, replace_body, with_below, with_body};

/// A rule for a cluster: it renames nothing, and puts nothing that is a place into a plan.
pub(crate) trait ClusterRule: Rule {
    /// What an application makes new nodes with.
    type Memory: Copy;

    /// How an application fails.
    type Failure;

    /// Rewrites a part outside fragments at its top node; where the rule does not apply there, the
    /// part stays, and else `changed` tells it.
    fn rewrite(
        &self,
        memory: Self::Memory,
        part: Plan,
        facts: &Facts,
        changed: &mut bool,
    ) -> Result<Plan, Self::Failure>
        requires { 1 ≤ facts.now.servers }
        ensures { IfOk result (λ p. IsRewritten (Self.rewrites self.now facts.now)
            (plan_tree part) (plan_tree p) changed.old changed.new) };

    /// What its pass rests on.
    ghost for_cluster: { (x : Self) (facts : spec_Facts)
        → ForCluster facts (Self.rewrites x facts) };
}

fn node_input_inside(node: &Node, inside: bool) -> bool
    ensures { result ≡ spec_input_inside (node_tree node.now) inside }
{
    match node {
        Node::Gather { .. } => true,
        Node::Scatter { .. } | Node::Distribute { .. } => false,
        _ => inside,
    }
}

// Whether the input of the top node stands in a fragment, where `inside` tells it of the node.
fn input_inside(plan: &Plan, inside: bool) -> bool
    ensures { result ≡ spec_input_inside (top (plan_tree plan.now)) inside }
{
    match plan {
        Plan::Over { node, .. } => node_input_inside(node, inside),
        _ => inside,
    }
}

// The plan with the rule applied until it has no place. `inside` tells whether the plan stands in a
// fragment.
#[cycle(walk)]
fn walk<R: ClusterRule>(
    memory: R::Memory,
    rule: &R,
    plan: Plan,
    inside: bool,
    facts: &Facts,
    changed: &mut bool,
) -> Result<Plan, R::Failure>
    requires { 1 ≤ facts.now.servers }
    ensures { IfOk result (λ p. IsWalked (R.rewrites rule.now facts.now) inside
        (plan_tree plan) (plan_tree p) changed.old changed.new) }
{
    if is_start(&plan) {
        return Ok(plan);
    }
    let mut node = plan;
    let within = input_inside(&node, inside);
    let below = replace_below(&mut node, Plan::Singleton);
    let below = walk(memory, rule, below, within, facts, changed)?;
    if inside {
        return Ok(with_below(node, below));
    }
    if has_body(&node) {
        let body = replace_body(&mut node, Plan::Singleton);
        let body = walk(memory, rule, body, false, facts, changed)?;
        let node = with_body(node, body);
        return Ok(with_below(node, below));
    }
    let part = with_below(node, below);
    rule.rewrite(memory, part, facts, changed)
}

fn has_server(facts: &Facts) -> bool
    ensures there { result ≡ true → 1 ≤ facts.now.servers }
    ensures alone { result ≡ false → facts.now.servers ≡ 0 }
{
    facts.servers > 0
}

/// The plan after the rule was applied at its first place again and again, until it has none:
/// without servers the plan as it is.
pub(crate) fn run_cluster_pass<R: ClusterRule>(
    memory: R::Memory,
    rule: &R,
    plan: Plan,
    facts: &Facts,
) -> Result<Passed, R::Failure>
    requires { IsWellFormed facts.now [] (plan_tree plan) }
    ensures passed { IfOk result (λ x. IsPass (R.rewrites rule.now facts.now)
        (plan_tree plan) (plan_tree x.plan) x.changed) }
    ensures refines { IfOk result (λ x. Refines facts.now (plan_tree x.plan) (plan_tree plan)) }
    ensures well_formed { IfOk result (λ x. IsWellFormed facts.now [] (plan_tree x.plan)) }
    ensures sets { IfOk result (λ x. SetsNoMore (plan_tree plan) (plan_tree x.plan)) }
    ensures on_shards { IfOk result (λ x. ReadsOnShards facts.now (plan_tree plan)
        → ReadsOnShards facts.now (plan_tree x.plan)) }
    ensures alone { IfOk result
        (λ x. facts.now.servers ≡ 0 → plan_tree x.plan ≡ plan_tree plan) }
{
    if !has_server(facts) {
        return Ok(Passed {
            plan,
            changed: false,
        });
    }
    let mut changed = false;
    let plan = walk(memory, rule, plan, false, facts, &mut changed)?;
    Ok(Passed { plan, changed })
}
