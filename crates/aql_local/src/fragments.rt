//! The trees of executors of a fragment, one for each shard that it reaches.

ghost use Rattle.std.specs.Prelude.{◌≡◌, IfOk, Some};
ghost use Rattle.aql_plan.specs.declared.facts.Facts.{Facts};
ghost use Rattle.aql_plan.specs.View.{node_tree, plan_tree};
ghost use Rattle.aql_exec.specs.Operators.{NoRows, ShardRows, within};
ghost use Rattle.aql_engine.specs.OperatorsOf.{each_tree, foot, operators_at};
ghost use Rattle.aql_local.specs.Building.{SetsNumbers, NodeSetsNumbers};
ghost use Rattle.aql_local.specs.Fragments.{StandsOnShard, IsFragment, is_foot, below_foot};
ghost use Rattle.aql_local.specs.Fragments.{operator_on, all_trees};

use crate::World;
use crate::whole::{either, whole_below};
use aql_engine::Tree;
use aql_exec::{Executor, Feed, Wired};
use aql_exec_cluster::Founded;
use aql_plan::{Node, Plan};
use aql_value::OutOfMemory;
use std::alloc::Global;

/// Executors of which the trees of a fragment are made. As those of a plan, they are made of any
/// such type.
pub trait ShardExecutor: Founded<World> + Drop {
    /// The executor of the rows that came to a shard.
    fn shard_rows() -> Self
        ensures { Self.node result ≡ ShardRows };

    /// The executor that gives no row.
    fn no_results() -> Self
        ensures { Self.node result ≡ NoRows };

    /// The executor of a node of a fragment, on a shard.
    fn on_shard(alloc: Global, node: &Node, shard: u32) -> Result<Self, OutOfMemory>
        requires stands { StandsOnShard (node_tree node.now) }
        requires numbers { NodeSetsNumbers (node_tree node.now) }
        ensures { IfOk result (λ x. Self.node x ≡ operator_on shard (node_tree node.now)) };
}

// An executor over its input, and with a body.
pub(crate) fn with_body<X: Wired<World> + Drop>(
    alloc: Global,
    executor: X,
    below: Tree<X>,
    body: Tree<X>,
) -> Result<Tree<X>, OutOfMemory>
    ensures { IfOk result (λ t. ⟦<Tree<X> as Feed<World>>⟧.plan t ≡ within (X.node executor)
        (⟦<Tree<X> as Feed<World>>⟧.plan below) (⟦<Tree<X> as Feed<World>>⟧.plan body)) }
{
    let below = Box::new(alloc, below)?;
    let body = Box::new(alloc, body)?;
    Ok(Tree::Sub(executor, below, body))
}

fn node_is_foot(node: &Node) -> bool
    ensures { result ≡ is_foot (node_tree node.now) }
{
    matches!(node, Node::Scatter { .. } | Node::Distribute { .. })
}

/// The node at the foot of a fragment.
pub fn foot_of(plan: &Plan) -> &Node
    requires { IsFragment (plan_tree plan.now) }
    ensures { node_tree result.now ≡ foot (plan_tree plan.now) }
{
    match plan {
        Plan::Over { below, node } => {
            if node_is_foot(node) {
                return node;
            }
            foot_of(below)
        }
        _ => unreachable!(),
    }
}

/// What stands below the foot of a fragment.
pub fn below_foot(plan: &Plan) -> &Plan
    requires { IsFragment (plan_tree plan.now) }
    ensures { plan_tree result.now ≡ below_foot (plan_tree plan.now) }
{
    match plan {
        Plan::Over { below, node } => {
            if node_is_foot(node) {
                return below;
            }
            below_foot(below)
        }
        _ => unreachable!(),
    }
}

/// The executors of a fragment on a shard as one tree.
pub fn tree_on_shard<X: ShardExecutor>(
    alloc: Global,
    plan: &Plan,
    shard: u32,
) -> Result<Tree<X>, OutOfMemory>
    requires fragment { IsFragment (plan_tree plan.now) }
    requires numbers { SetsNumbers (plan_tree plan.now) }
    ensures { IfOk result (λ t. (facts : Facts) → ⟦<Tree<X> as Feed<World>>⟧.plan t
        ≡ operators_at facts (Some shard) (plan_tree plan.now)) }
{
    match plan {
        Plan::Over { below, node } => {
            if node_is_foot(node) {
                return Ok(Tree::Leaf(X::shard_rows()));
            }
            let executor = X::on_shard(alloc, node, shard)?;
            let whole = whole_below(alloc, plan, below)?;
            let below = tree_on_shard(alloc, either(&whole, below), shard)?;
            let body = Tree::Leaf(X::no_results());
            with_body(alloc, executor, below, body)
        }
        _ => unreachable!(),
    }
}

/// The trees of a fragment, one for each of these shards.
pub fn trees_on_shards<X: ShardExecutor>(
    alloc: Global,
    plan: &Plan,
    shards: &[u32],
) -> Result<Vec<Tree<X>>, OutOfMemory>
    requires fragment { IsFragment (plan_tree plan.now) }
    requires numbers { SetsNumbers (plan_tree plan.now) }
    ensures { IfOk result (λ trees. (facts : Facts)
        → all_trees ⟦<Tree<X> as Feed<World>>⟧.plan trees.items
        ≡ each_tree (λ shard. operators_at facts (Some shard) (plan_tree plan.now)) shards.now) }
{
    let mut trees = Vec::with_capacity(alloc, shards.len())?;
    for shard in shards {
        trees.push(tree_on_shard(alloc, plan, *shard)?)?;
    }
    Ok(trees)
}
