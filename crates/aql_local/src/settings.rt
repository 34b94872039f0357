//! What the transform of a node is set to.

ghost use Rattle.std.specs.Prelude.{◌≡◌, IfOk};
ghost use Rattle.aql_plan.specs.View.{node_tree};
ghost use Rattle.aql_exec_graph.specs.Searches as graph;
ghost use Rattle.aql_engine.specs.OperatorsOf.{node_at};
ghost use Rattle.aql_local.specs.Building.{HasTransform, IsCollect, IsIndexNode, IsTraversal, NodeSetsNumbers};

use crate::World;
use crate::bounds::copy_last;
use crate::readings::reading_of;
use crate::transforms::NodeTransform;
use aql_exec::{FirstResults, Keep, Transform};
use aql_exec_graph::{Paths, Search};
use aql_exec_rows::{GroupRows, Order};
use aql_exec_scan::{Documents, Elements, Found};
use aql_plan::Node;
use aql_tree::{
    copy_aggregates, copy_colls, copy_expr, copy_exprs, copy_into, copy_keys, copy_lets, copy_maybe,
};
use aql_value::OutOfMemory;
use std::alloc::Global;

/// The transform of a node that has one, at a shard or outside fragments.
pub fn transform_of(
    alloc: Global,
    node: &Node,
    shard: Option<u32>,
) -> Result<NodeTransform, OutOfMemory>
    requires has { HasTransform (node_tree node.now) }
    requires numbers { NodeSetsNumbers (node_tree node.now) }
    ensures { IfOk result (λ t. ⟦<NodeTransform as Transform<World>>⟧.node t
        ≡ node_at shard (node_tree node.now)) }
{
    match node {
        Node::EnumerateCollection {
            var,
            coll,
            filter,
            attrs,
            shard: own,
        } => {
            let reading = reading_of(alloc, *var, *coll, filter, attrs, own.or(shard))?;
            Ok(NodeTransform::Collection(Documents::new(alloc, reading)))
        }
        Node::Index { .. } => Ok(NodeTransform::Index(found_by(alloc, node, shard)?)),
        Node::EnumerateList { var, list, .. } => {
            let list = copy_expr(alloc, list)?;
            Ok(NodeTransform::List(Elements::new(alloc, *var, list)))
        }
        Node::Traversal { .. } => {
            let search = search_of(alloc, node)?;
            Ok(NodeTransform::Traversal(Paths::new(alloc, search)))
        }
        Node::Filter { cond, .. } => {
            let cond = copy_expr(alloc, cond)?;
            Ok(NodeTransform::Filter(Keep::new(alloc, cond)))
        }
        Node::Sort { keys, limit, .. } => {
            let keys = copy_keys(alloc, keys.as_slice())?;
            Ok(NodeTransform::Sort(Order::new(alloc, keys, *limit)))
        }
        Node::Collect { .. } => Ok(NodeTransform::Collect(groups_of(alloc, node)?)),
        Node::Return { expr, .. } => {
            let expr = copy_expr(alloc, expr)?;
            Ok(NodeTransform::Distinct(FirstResults::new(alloc, expr)))
        }
        _ => unreachable!(),
    }
}

// FOR over a collection by an index.
fn found_by(alloc: Global, node: &Node, shard: Option<u32>) -> Result<Found, OutOfMemory>
    requires { IsIndexNode (node_tree node.now) }
    ensures { IfOk result (λ t. ⟦<Found as Transform<World>>⟧.node t
        ≡ node_at shard (node_tree node.now)) }
{
    match node {
        Node::Index {
            var,
            coll,
            filter,
            attrs,
            shard: own,
            index,
            equal,
            last,
            ordered,
        } => {
            let reading = reading_of(alloc, *var, *coll, filter, attrs, own.or(shard))?;
            let equal = copy_exprs(alloc, equal.as_slice())?;
            let last = copy_last(alloc, last)?;
            Ok(Found::new(alloc, reading, *index, equal, last, *ordered))
        }
        _ => unreachable!(),
    }
}

// COLLECT, as one step or as one of two.
fn groups_of(alloc: Global, node: &Node) -> Result<GroupRows, OutOfMemory>
    requires collect { IsCollect (node_tree node.now) }
    requires numbers { NodeSetsNumbers (node_tree node.now) }
    ensures { IfOk result (λ t. ⟦<GroupRows as Transform<World>>⟧.node t ≡ node_tree node.now) }
{
    match node {
        Node::Collect {
            groups,
            aggregates,
            into,
            stage,
        } => {
            let criteria = copy_lets(alloc, groups.as_slice())?;
            let aggregates = copy_aggregates(alloc, aggregates.as_slice())?;
            let into = copy_into(alloc, into)?;
            Ok(GroupRows::at_stage(alloc, *stage, criteria, aggregates, into))
        }
        _ => unreachable!(),
    }
}

// What a traversal is set to.
fn search_of(alloc: Global, node: &Node) -> Result<Search, OutOfMemory>
    requires traversal { IsTraversal (node_tree node.now) }
    ensures { IfOk result (λ s. graph.node_of s ≡ node_tree node.now) }
{
    match node {
        Node::Traversal {
            vertex,
            edge,
            path,
            min,
            max,
            direction,
            start,
            collections,
            prune,
            options,
            filter,
        } => Ok(Search {
            vertex: *vertex,
            edge: *edge,
            path: *path,
            min: *min,
            max: *max,
            direction: *direction,
            unique_edges: options.edges,
            unique_vertices: options.vertices,
            bfs: options.bfs,
            start: copy_expr(alloc, start)?,
            collections: copy_colls(alloc, collections.as_slice())?,
            prune: copy_maybe(alloc, prune)?,
            filter: copy_maybe(alloc, filter)?,
        }),
        _ => unreachable!(),
    }
}
