//! The tree of executors of a plan.

ghost use Rattle.std.specs.Prelude.{◌≡◌, ◌<◌, ◌^◌, length, true, IfOk};
ghost use Rattle.aql_plan.specs.declared.facts.Facts.{Facts};
ghost use Rattle.aql_plan.specs.Plan as spec;
ghost use Rattle.aql_plan.specs.Fits.{Fits};
ghost use Rattle.aql_plan.specs.View.{node_tree, plan_tree};
ghost use Rattle.aql_exec.specs.Operators.{StartRow, NoRows};
ghost use Rattle.aql_engine.specs.EachFits.{EachFits, BodyFits};
ghost use Rattle.aql_engine.specs.OperatorsOf.{operators_of};
ghost use Rattle.aql_shard.specs.Datasets.{stock};
ghost use Rattle.aql_local.specs.Building.{operator_of, body_operators, gives_none, node_gives_none};
ghost use Rattle.aql_local.specs.Building.{SetsNumbers, NodeSetsNumbers};
ghost use Rattle.aql_local.specs.Fragments.{StandsApart, StandsOutside, is_gather};
ghost use Rattle.aql_local.specs.Fragments.{gather_operator};

use crate::World;
use crate::fragments::{ShardExecutor, below_foot, foot_of, with_body};
use crate::gathers::{OfNode, gather_executor, unlinked};
use crate::nodes::{
    UnlinkedNode, by_transform, calculation, limit, no_results, results, start_row, subquery,
};
use crate::reach::shards_reached;
use crate::settings::transform_of;
use crate::whole::{either, whole_below};
use aql_engine::Tree;
use aql_exec::{Executor, Feed, Unlinked, Wired};
use aql_plan::{Node, Plan};
use aql_shard::Servers;
use aql_tree::copy_expr;
use aql_value::OutOfMemory;
use std::alloc::Global;

/// Executors of which the tree of a plan is made. The tree is made of any such type, so its proof
/// does not look into the executors.
pub trait PlanExecutor: Wired<World> + Drop {
    /// The executor of the start row.
    fn start_row() -> Self
        ensures { Self.node result ≡ StartRow };

    /// The executor that gives no row.
    fn no_results() -> Self
        ensures { Self.node result ≡ NoRows };

    /// The executor of the node at the top of a plan, where that is no Gather.
    fn of_node(alloc: Global, plan: &Plan) -> Result<Self, OutOfMemory>
        requires outside { StandsOutside (spec.top (plan_tree plan.now)) }
        requires fits { (facts : Facts) × Fits facts (spec.top (plan_tree plan.now)) }
        requires numbers { NodeSetsNumbers (spec.top (plan_tree plan.now)) }
        ensures { IfOk result (λ x. Self.node x ≡ operator_of (spec.top (plan_tree plan.now))) };

    /// The executor of a Gather at the top of a plan, with its fragment on each of these shards.
    fn of_gather(alloc: Global, plan: &Plan, shards: Vec<u32>) -> Result<Self, OutOfMemory>
        requires gather { is_gather (spec.top (plan_tree plan.now)) ≡ true }
        requires apart { StandsApart (plan_tree plan.now) }
        requires numbers { SetsNumbers (plan_tree plan.now) }
        requires few { length shards.items < 2 ^ 32 }
        ensures { IfOk result (λ x. (facts : Facts) → Self.node x
            ≡ gather_operator facts shards.items (plan_tree plan.now)) };
}

/// Those of them that own no link.
pub trait UnlinkedExecutor: Unlinked<World> + Drop {
    /// The executor of the start row.
    fn start_row() -> Self
        ensures { Self.node result ≡ StartRow };

    /// The executor that gives no row.
    fn no_results() -> Self
        ensures { Self.node result ≡ NoRows };

    /// The executor of the node at the top of a plan, where that is no Gather.
    fn of_node(alloc: Global, plan: &Plan) -> Result<Self, OutOfMemory>
        requires outside { StandsOutside (spec.top (plan_tree plan.now)) }
        requires fits { (facts : Facts) × Fits facts (spec.top (plan_tree plan.now)) }
        requires numbers { NodeSetsNumbers (spec.top (plan_tree plan.now)) }
        ensures { IfOk result (λ x. Self.node x ≡ operator_of (spec.top (plan_tree plan.now))) };
}

impl UnlinkedExecutor for UnlinkedNode {
    fn start_row() -> UnlinkedNode {
        start_row()
    }

    fn no_results() -> UnlinkedNode {
        no_results()
    }

    fn of_node(alloc: Global, plan: &Plan) -> Result<UnlinkedNode, OutOfMemory> {
        top_executor(alloc, plan)
    }
}

impl<U: UnlinkedExecutor, X: ShardExecutor> PlanExecutor for OfNode<U, X> {
    fn start_row() -> OfNode<U, X> {
        unlinked(U::start_row())
    }

    fn no_results() -> OfNode<U, X> {
        unlinked(U::no_results())
    }

    fn of_node(alloc: Global, plan: &Plan) -> Result<OfNode<U, X>, OutOfMemory> {
        Ok(unlinked(U::of_node(alloc, plan)?))
    }

    fn of_gather(
        alloc: Global,
        plan: &Plan,
        shards: Vec<u32>,
    ) -> Result<OfNode<U, X>, OutOfMemory> {
        gather_executor(alloc, plan, shards)
    }
}

/// The executors of a plan as one tree, over these servers.
#[cycle(tree)]
pub fn tree_of<X: PlanExecutor>(
    alloc: Global,
    servers: &Servers,
    plan: &Plan,
) -> Result<Tree<X>, OutOfMemory>
    requires apart { StandsApart (plan_tree plan.now) }
    requires fits { EachFits (stock servers.now).facts (plan_tree plan.now) }
    requires numbers { SetsNumbers (plan_tree plan.now) }
    ensures { IfOk result (λ t. ⟦<Tree<X> as Feed<World>>⟧.plan t
        ≡ operators_of (stock servers.now).facts (plan_tree plan.now)) }
{
    match plan.below() {
        None => Ok(Tree::Leaf(X::start_row())),
        Some(below) => {
            if is_no_results(plan) {
                return Ok(Tree::Leaf(X::no_results()));
            }
            if has_gather(plan) {
                return gather_tree(alloc, servers, plan, below);
            }
            let executor = X::of_node(alloc, plan)?;
            let whole = whole_below(alloc, plan, below)?;
            let below = tree_of(alloc, servers, either(&whole, below))?;
            let body = body_of(alloc, servers, plan)?;
            with_body(alloc, executor, below, body)
        }
    }
}

// The tree of a plan with a Gather at its top: over what stands below the foot of its fragment.
#[cycle(tree)]
fn gather_tree<X: PlanExecutor>(
    alloc: Global,
    servers: &Servers,
    plan: &Plan,
    fragment: &Plan,
) -> Result<Tree<X>, OutOfMemory>
    requires fragment { plan_tree plan.now
        ≡ spec.Over (plan_tree fragment.now) (spec.top (plan_tree plan.now)) }
    requires gather { is_gather (spec.top (plan_tree plan.now)) ≡ true }
    requires apart { StandsApart (plan_tree plan.now) }
    requires fits { EachFits (stock servers.now).facts (plan_tree plan.now) }
    requires numbers { SetsNumbers (plan_tree plan.now) }
    ensures { IfOk result (λ t. ⟦<Tree<X> as Feed<World>>⟧.plan t
        ≡ operators_of (stock servers.now).facts (plan_tree plan.now)) }
{
    let shards = shards_reached(alloc, servers, foot_of(fragment))?;
    let executor = X::of_gather(alloc, plan, shards)?;
    let below = tree_of(alloc, servers, below_foot(fragment))?;
    let body = Tree::Leaf(X::no_results());
    with_body(alloc, executor, below, body)
}

// The tree of the body of a plan's top node. Where it has none, this is a leaf that never begins.
#[cycle(tree)]
fn body_of<X: PlanExecutor>(
    alloc: Global,
    servers: &Servers,
    plan: &Plan,
) -> Result<Tree<X>, OutOfMemory>
    requires outside { StandsOutside (spec.top (plan_tree plan.now)) }
    requires fits { BodyFits (stock servers.now).facts (spec.top (plan_tree plan.now)) }
    requires numbers { NodeSetsNumbers (spec.top (plan_tree plan.now)) }
    ensures { IfOk result (λ t. ⟦<Tree<X> as Feed<World>>⟧.plan t
        ≡ body_operators (stock servers.now).facts (spec.top (plan_tree plan.now))) }
{
    match plan.body() {
        Some(body) => tree_of(alloc, servers, body),
        None => Ok(Tree::Leaf(X::no_results())),
    }
}

fn node_is_gather(node: &Node) -> bool
    ensures { result ≡ is_gather (node_tree node.now) }
{
    matches!(node, Node::Gather { .. })
}

fn has_gather(plan: &Plan) -> bool
    ensures { result ≡ is_gather (spec.top (plan_tree plan.now)) }
{
    match plan {
        Plan::Over { node, .. } => node_is_gather(node),
        _ => false,
    }
}

fn node_is_no_results(node: &Node) -> bool
    ensures { result ≡ node_gives_none (node_tree node.now) }
{
    matches!(node, Node::NoResults)
}

fn is_no_results(plan: &Plan) -> bool
    ensures { result ≡ gives_none (plan_tree plan.now) }
{
    match plan {
        Plan::Over { node, .. } => node_is_no_results(node),
        _ => false,
    }
}

// The executor of the node at the top of a plan.
fn top_executor(alloc: Global, plan: &Plan) -> Result<UnlinkedNode, OutOfMemory>
    requires outside { StandsOutside (spec.top (plan_tree plan.now)) }
    requires fits { (facts : Facts) × Fits facts (spec.top (plan_tree plan.now)) }
    requires numbers { NodeSetsNumbers (spec.top (plan_tree plan.now)) }
    ensures { IfOk result (λ x. ⟦<UnlinkedNode as Executor<World>>⟧.node x
        ≡ operator_of (spec.top (plan_tree plan.now))) }
{
    match plan {
        Plan::Singleton => Ok(no_results()),
        Plan::Over { node, .. } => executor_of(alloc, node),
        Plan::Subquery { var, .. } => Ok(subquery(alloc, *var)),
    }
}

// The executor of a node without a body.
fn executor_of(alloc: Global, node: &Node) -> Result<UnlinkedNode, OutOfMemory>
    requires outside { StandsOutside (node_tree node.now) }
    requires fits { (facts : Facts) × Fits facts (node_tree node.now) }
    requires numbers { NodeSetsNumbers (node_tree node.now) }
    ensures { IfOk result (λ x. ⟦<UnlinkedNode as Executor<World>>⟧.node x
        ≡ operator_of (node_tree node.now)) }
{
    match node {
        Node::NoResults => Ok(no_results()),
        Node::Calculation { var, expr, .. } => {
            Ok(calculation(alloc, *var, copy_expr(alloc, expr)?))
        }
        Node::Limit { offset, count, .. } => Ok(limit(alloc, *offset, *count)),
        Node::Return {
            distinct: false,
            expr,
            ..
        } => Ok(results(alloc, copy_expr(alloc, expr)?)),
        Node::EnumerateCollection { .. }
        | Node::Index { .. }
        | Node::EnumerateList { .. }
        | Node::Traversal { .. }
        | Node::Filter { .. }
        | Node::Sort { .. }
        | Node::Collect { .. }
        | Node::Return { .. } => Ok(by_transform(transform_of(alloc, node, None)?)),
        _ => unreachable!(),
    }
}
