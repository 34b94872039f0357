//! The executor of a Gather, with its fragment on each shard.

ghost use Rattle.std.specs.Prelude.{◌≡◌, ◌<◌, ◌^◌, length, true, IfOk};
ghost use Rattle.aql_plan.specs.declared.facts.Facts.{Facts};
ghost use Rattle.aql_plan.specs.Plan as spec;
ghost use Rattle.aql_plan.specs.View.{directions, key_trees, node_tree, plan_tree};
ghost use Rattle.aql_exec.specs.Operators as operator;
ghost use Rattle.aql_local.specs.Building.{SetsNumbers};
ghost use Rattle.aql_local.specs.Fragments.{StandsApart, all_trees, is_gather, is_foot};
ghost use Rattle.aql_local.specs.Fragments.{gather_of, gather_operator};

use crate::World;
use crate::fragments::{ShardExecutor, foot_of, trees_on_shards};
use aql_engine::{Choice, Tree};
use aql_exec::{AsWired, Executor, Feed, Unlinked};
use aql_exec_cluster::{Gather, Scatter, SortedGather};
use aql_exec_fragments::GatherNode;
use aql_plan::{Node, Plan};
use aql_tree::{Keys, copy_exprs, copy_keys};
use aql_value::OutOfMemory;
use std::alloc::Global;

/// A Gather, by keys or without.
type AnyGather = Choice<Gather, SortedGather>;

/// A Gather with its fragments.
type Gathered<X> = GatherNode<AnyGather, Scatter, Tree<X>>;

/// One of these executors that own no link, or a Gather with its fragments.
pub type OfNode<U, X> = Choice<AsWired<U>, Gathered<X>>;

/// An executor that owns no link, as that of any node. It is proved for any types, as the Gather's,
/// so their proofs do not look into the executors.
pub fn unlinked<U: Unlinked<World>, X: ShardExecutor>(executor: U) -> OfNode<U, X>
    ensures { ⟦<OfNode<U, X> as Executor<World>>⟧.node result ≡ U.node executor }
{
    Choice::First(AsWired::new(executor))
}

// A Gather over these fragments, and over the Scatter below them.
fn gather_node<U: Unlinked<World>, X: ShardExecutor>(
    alloc: Global,
    gather: AnyGather,
    scatter: Scatter,
    fragments: Vec<Tree<X>>,
) -> OfNode<U, X>
    ensures { ⟦<OfNode<U, X> as Executor<World>>⟧.node result
        ≡ operator.Shards (⟦<AnyGather as Executor<World>>⟧.node gather)
        (⟦<Scatter as Executor<World>>⟧.node scatter)
        (all_trees ⟦<Tree<X> as Feed<World>>⟧.plan fragments.items) }
{
    Choice::Second(GatherNode::new(alloc, gather, scatter, fragments))
}

// A Gather over so many inputs: with keys one that merges.
fn gather_by(alloc: Global, keys: &Keys, inputs: u32) -> Result<AnyGather, OutOfMemory>
    ensures { IfOk result (λ x. ⟦<AnyGather as Executor<World>>⟧.node x
        ≡ operator.Gather inputs (directions keys.now) (key_trees keys.now)) }
{
    if keys.len() == 0 {
        return Ok(Choice::First(Gather::new(alloc, inputs)?));
    }
    let keys = copy_keys(alloc, keys.as_slice())?;
    Ok(Choice::Second(SortedGather::new(alloc, keys, inputs)?))
}

// What is at the foot of a fragment, over these shards.
fn scatter_to(alloc: Global, foot: &Node, shards: Vec<u32>) -> Result<Scatter, OutOfMemory>
    requires { is_foot (node_tree foot.now) ≡ true }
    ensures { IfOk result (λ x. ⟦<Scatter as Executor<World>>⟧.node x
        ≡ operator.Scatter (node_tree foot.now) shards.items) }
{
    match foot {
        Node::Scatter { coll, only } => Ok(Scatter::new(alloc, coll.0, *only, shards)),
        Node::Distribute { coll, exprs } => {
            let keys = copy_exprs(alloc, exprs.as_slice())?;
            Ok(Scatter::by_keys(alloc, coll.0, keys, shards))
        }
        _ => unreachable!(),
    }
}

fn gather_over(alloc: Global, gather: &Node, inputs: u32) -> Result<AnyGather, OutOfMemory>
    requires { is_gather (node_tree gather.now) ≡ true }
    ensures { IfOk result (λ x. ⟦<AnyGather as Executor<World>>⟧.node x
        ≡ gather_of inputs (node_tree gather.now)) }
{
    match gather {
        Node::Gather { order } => Ok(gather_by(alloc, order, inputs)?),
        _ => unreachable!(),
    }
}

/// The executor of a Gather at the top of a plan, with its fragment on each of these shards.
pub fn gather_executor<U: Unlinked<World>, X: ShardExecutor>(
    alloc: Global,
    plan: &Plan,
    shards: Vec<u32>,
) -> Result<OfNode<U, X>, OutOfMemory>
    requires gather { is_gather (spec.top (plan_tree plan.now)) ≡ true }
    requires apart { StandsApart (plan_tree plan.now) }
    requires numbers { SetsNumbers (plan_tree plan.now) }
    requires few { length shards.items < 2 ^ 32 }
    ensures { IfOk result (λ x. (facts : Facts) → ⟦<OfNode<U, X> as Executor<World>>⟧.node x
        ≡ gather_operator facts shards.items (plan_tree plan.now)) }
{
    match plan {
        Plan::Over { below, node } => {
            let gather = gather_over(alloc, node, shards.len() as u32)?;
            let fragments = trees_on_shards::<X>(alloc, below, shards.as_slice())?;
            let scatter = scatter_to(alloc, foot_of(below), shards)?;
            Ok(gather_node(alloc, gather, scatter, fragments))
        }
        _ => unreachable!(),
    }
}
