//! The executors of the nodes of a fragment, on a shard.

ghost use Rattle.std.specs.Prelude.{◌≡◌, false, IfOk};
ghost use Rattle.aql_tree.specs.declared.syntax.Ident.TheVariants.{Num};
ghost use Rattle.aql_tree.specs.View.{tree};
ghost use Rattle.aql_plan.specs.Plan as plan;
ghost use Rattle.aql_plan.specs.View.{node_tree};
ghost use Rattle.aql_exec.specs.Operators.{NoRows, OnRows};
ghost use Rattle.aql_local.specs.Fragments.{StandsOnShard, is_remote, operator_on};
ghost use Rattle.aql_local.specs.Building.{NodeSetsNumbers};

use crate::World;
use crate::fragments::ShardExecutor;
use crate::settings::transform_of;
use crate::transforms::NodeTransform;
use aql_engine::Choice;
use aql_exec::{Calculation, Executor, Let, Mapped, NoResults, Stream, Transform};
use aql_exec_cluster::{AboveFoot, Inner, Part, Remote};
use aql_plan::Node;
use aql_tree::{Expr, copy_expr};
use aql_value::OutOfMemory;
use std::alloc::Global;

/// Those that own no link.
pub type UnlinkedOnShard = Choice<Choice<Stream<NodeTransform>, Calculation>, NoResults>;

/// The executor of any node of a fragment, on a shard: one of these that own no link, or one of the
/// two that take what comes from elsewhere.
pub type OnShard<U> = Choice<Choice<Part, Remote>, Inner<U>>;

/// Executors of nodes of a fragment that own no link, on a shard.
pub trait UnlinkedShardExecutor: AboveFoot<World> + Drop {
    /// The executor that gives no row.
    fn no_results() -> Self
        ensures { Self.node result ≡ NoRows };

    /// The executor of a node that is no Remote, on a shard.
    fn on_shard(alloc: Global, node: &Node, shard: u32) -> Result<Self, OutOfMemory>
        requires stands { StandsOnShard (node_tree node.now) }
        requires numbers { NodeSetsNumbers (node_tree node.now) }
        requires no_link { is_remote (node_tree node.now) ≡ false }
        ensures { IfOk result (λ x. Self.node x ≡ operator_on shard (node_tree node.now)) };
}

fn unlinked<U: AboveFoot<World>>(executor: U) -> OnShard<U>
    ensures { ⟦<OnShard<U> as Executor<World>>⟧.node result ≡ U.node executor }
{
    Choice::Second(Inner::new(executor))
}

fn by_transform(transform: NodeTransform) -> UnlinkedOnShard
    ensures { ⟦<UnlinkedOnShard as Executor<World>>⟧.node result
        ≡ OnRows (⟦<NodeTransform as Transform<World>>⟧.node transform) }
{
    Choice::First(Choice::First(Stream::new(transform)))
}

fn calculation(alloc: Global, var: u32, expr: Expr) -> UnlinkedOnShard
    ensures { ⟦<UnlinkedOnShard as Executor<World>>⟧.node result
        ≡ OnRows (plan.Calculation (Num var) (tree expr)) }
{
    let executor = Mapped::new(alloc, Let { var, expr });
    Choice::First(Choice::Second(executor))
}

// The executor of a node that is no Remote, on a shard.
fn unlinked_on(alloc: Global, node: &Node, shard: u32) -> Result<UnlinkedOnShard, OutOfMemory>
    requires stands { StandsOnShard (node_tree node.now) }
    requires numbers { NodeSetsNumbers (node_tree node.now) }
    requires no_link { is_remote (node_tree node.now) ≡ false }
    ensures { IfOk result (λ x. ⟦<UnlinkedOnShard as Executor<World>>⟧.node x
        ≡ operator_on shard (node_tree node.now)) }
{
    match node {
        Node::Calculation { var, expr, .. } => {
            Ok(calculation(alloc, *var, copy_expr(alloc, expr)?))
        }
        Node::EnumerateCollection { .. }
        | Node::Index { .. }
        | Node::Filter { .. }
        | Node::Sort { .. }
        | Node::Collect { .. } => Ok(by_transform(transform_of(alloc, node, Some(shard))?)),
        _ => unreachable!(),
    }
}

fn is_remote(node: &Node) -> bool
    ensures { result ≡ is_remote (node_tree node.now) }
{
    matches!(node, Node::Remote)
}

impl UnlinkedShardExecutor for UnlinkedOnShard {
    fn no_results() -> UnlinkedOnShard {
        Choice::Second(NoResults)
    }

    fn on_shard(alloc: Global, node: &Node, shard: u32) -> Result<UnlinkedOnShard, OutOfMemory> {
        unlinked_on(alloc, node, shard)
    }
}

impl<U: UnlinkedShardExecutor> ShardExecutor for OnShard<U> {
    fn shard_rows() -> OnShard<U> {
        Choice::First(Choice::First(Part::new()))
    }

    fn no_results() -> OnShard<U> {
        unlinked(U::no_results())
    }

    fn on_shard(alloc: Global, node: &Node, shard: u32) -> Result<OnShard<U>, OutOfMemory> {
        if is_remote(node) {
            return Ok(Choice::First(Choice::Second(Remote::new(alloc))));
        }
        Ok(unlinked(U::on_shard(alloc, node, shard)?))
    }
}
