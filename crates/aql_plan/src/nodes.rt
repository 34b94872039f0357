//! Plans made from the nodes of others.

ghost use Rattle.std.specs.Prelude.{◌≡◌, IfOk, MatchOption, Some, None, option_map};
ghost use Rattle.aql_tree.specs.declared.syntax.Ident.TheVariants.{Num};
ghost use Rattle.aql_plan.specs.Plan as spec;
ghost use Rattle.aql_plan.specs.Nodes.{over, body_in, with_body};
ghost use Rattle.aql_meaning.specs.View.{end_tree, last_tree};
ghost use Rattle.aql_plan.specs.View.{node_tree, plan_tree};

use crate::plan::{Node, Plan};
use aql_meaning::{Edge, Last};
use aql_tree::{
    copy_aggregates, copy_colls, copy_expr, copy_exprs, copy_into, copy_keys, copy_lets,
    copy_maybe, copy_maybe_texts,
};
use aql_value::OutOfMemory;
use std::alloc::Global;

fn copy_edge(alloc: Global, edge: &Edge) -> Result<Edge, OutOfMemory>
    ensures { IfOk result (λ e. end_tree e ≡ end_tree edge.now) }
{
    Ok(Edge {
        expr: copy_expr(alloc, &edge.expr)?,
        inclusive: edge.inclusive,
    })
}

fn copy_maybe_edge(alloc: Global, edge: &Option<Edge>) -> Result<Option<Edge>, OutOfMemory>
    ensures { IfOk result (λ e. option_map end_tree e ≡ option_map end_tree edge.now) }
{
    match edge {
        Some(edge) => Ok(Some(copy_edge(alloc, edge)?)),
        None => Ok(None),
    }
}

fn copy_last(alloc: Global, last: &Last) -> Result<Last, OutOfMemory>
    ensures { IfOk result (λ l. last_tree l ≡ last_tree last.now) }
{
    match last {
        Last::None => Ok(Last::None),
        Last::OneOf(e) => Ok(Last::OneOf(copy_expr(alloc, e)?)),
        Last::Range { low, high } => {
            let low = copy_maybe_edge(alloc, low)?;
            Ok(Last::Range {
                low,
                high: copy_maybe_edge(alloc, high)?,
            })
        }
    }
}

// An equal node.
fn copy_node(alloc: Global, node: &Node) -> Result<Node, OutOfMemory>
    ensures { IfOk result (λ n. node_tree n ≡ node_tree node.now) }
{
    match node {
        Node::EnumerateCollection {
            var,
            coll,
            filter,
            attrs,
            shard,
        } => Ok(Node::EnumerateCollection {
            var: *var,
            coll: *coll,
            filter: copy_maybe(alloc, filter)?,
            attrs: copy_maybe_texts(alloc, attrs)?,
            shard: *shard,
        }),
        Node::Index {
            var,
            coll,
            filter,
            attrs,
            shard,
            index,
            equal,
            last,
            ordered,
        } => Ok(Node::Index {
            var: *var,
            coll: *coll,
            filter: copy_maybe(alloc, filter)?,
            attrs: copy_maybe_texts(alloc, attrs)?,
            shard: *shard,
            index: *index,
            equal: copy_exprs(alloc, equal.as_slice())?,
            last: copy_last(alloc, last)?,
            ordered: *ordered,
        }),
        Node::EnumerateList { var, list } => Ok(Node::EnumerateList {
            var: *var,
            list: copy_expr(alloc, list)?,
        }),
        Node::Traversal {
            vertex,
            edge,
            path,
            min,
            max,
            direction,
            start,
            collections,
            prune,
            options,
            filter,
        } => Ok(Node::Traversal {
            vertex: *vertex,
            edge: *edge,
            path: *path,
            min: *min,
            max: *max,
            direction: *direction,
            start: copy_expr(alloc, start)?,
            collections: copy_colls(alloc, collections.as_slice())?,
            prune: copy_maybe(alloc, prune)?,
            options: *options,
            filter: copy_maybe(alloc, filter)?,
        }),
        Node::Calculation { var, expr } => Ok(Node::Calculation {
            var: *var,
            expr: copy_expr(alloc, expr)?,
        }),
        Node::Filter { cond } => Ok(Node::Filter {
            cond: copy_expr(alloc, cond)?,
        }),
        Node::Sort { keys, limit } => Ok(Node::Sort {
            keys: copy_keys(alloc, keys.as_slice())?,
            limit: *limit,
        }),
        Node::Limit { offset, count } => Ok(Node::Limit {
            offset: *offset,
            count: *count,
        }),
        Node::Collect {
            groups,
            aggregates,
            into,
            stage,
        } => Ok(Node::Collect {
            groups: copy_lets(alloc, groups.as_slice())?,
            aggregates: copy_aggregates(alloc, aggregates.as_slice())?,
            into: copy_into(alloc, into)?,
            stage: *stage,
        }),
        Node::Return { expr, distinct } => Ok(Node::Return {
            expr: copy_expr(alloc, expr)?,
            distinct: *distinct,
        }),
        Node::NoResults => Ok(Node::NoResults),
        Node::Scatter { coll, only } => Ok(Node::Scatter {
            coll: *coll,
            only: *only,
        }),
        Node::Distribute { coll, exprs } => Ok(Node::Distribute {
            coll: *coll,
            exprs: copy_exprs(alloc, exprs.as_slice())?,
        }),
        Node::Remote => Ok(Node::Remote),
        Node::Gather { order } => Ok(Node::Gather {
            order: copy_keys(alloc, order.as_slice())?,
        }),
    }
}

impl Node {
    /// The node over its input.
    pub fn over(self, alloc: Global, below: Plan) -> Result<Plan, OutOfMemory>
        ensures { IfOk result (λ p. plan_tree p ≡ spec.Over (plan_tree below) (node_tree self)) }
    {
        let below = Box::new(alloc, below)?;
        let node = Box::new(alloc, self)?;
        Ok(Plan::Over { below, node })
    }
}

// A copy of a node over another input.
fn copy_over(alloc: Global, node: &Node, below: Plan) -> Result<Plan, OutOfMemory>
    ensures { IfOk result (λ p. plan_tree p ≡ spec.Over (plan_tree below) (node_tree node.now)) }
{
    let copy = copy_node(alloc, node)?;
    copy.over(alloc, below)
}

impl Plan {
    /// A Subquery over its input: each row with the array of what the body gives from it.
    pub fn subquery(alloc: Global, below: Plan, var: u32, body: Plan) -> Result<Plan, OutOfMemory>
        ensures { IfOk result (λ p. plan_tree p
            ≡ spec.Over (plan_tree below) (spec.Subquery (Num var) (plan_tree body))) }
    {
        let below = Box::new(alloc, below)?;
        let body = Box::new(alloc, body)?;
        Ok(Plan::Subquery { below, var, body })
    }

    /// The body of a subquery; `None` exactly at every other node.
    pub fn body(&self) -> Option<&Plan>
        ensures { MatchOption result (body_in (spec.top (plan_tree self.now)) ≡ None)
            (λ b. body_in (spec.top (plan_tree self.now)) ≡ Some (plan_tree b.now)) }
    {
        match self {
            Plan::Subquery { body, .. } => Some(body),
            _ => None,
        }
    }

    /// An equal plan.
    #[cycle(copy)]
    pub fn copy(&self, alloc: Global) -> Result<Plan, OutOfMemory>
        ensures { IfOk result (λ p. plan_tree p ≡ plan_tree self.now) }
    {
        match self.below() {
            None => Ok(Plan::Singleton),
            Some(below) => {
                let below = below.copy(alloc)?;
                self.over(alloc, below)
            }
        }
    }

    /// The node over another input; `Singleton`, which has none, stays itself.
    #[cycle(copy)]
    pub fn over(&self, alloc: Global, below: Plan) -> Result<Plan, OutOfMemory>
        ensures { IfOk result (λ p. plan_tree p ≡ over (plan_tree self.now) (plan_tree below)) }
    {
        match self {
            Plan::Subquery { var, body, .. } => {
                let body = body.copy(alloc)?;
                Plan::subquery(alloc, below, *var, body)
            }
            Plan::Over { node, .. } => copy_over(alloc, node, below),
            Plan::Singleton => Ok(Plan::Singleton),
        }
    }

    /// The node with another body; a node without one stays itself.
    pub fn with_body(&self, alloc: Global, body: Plan) -> Result<Plan, OutOfMemory>
        ensures { IfOk result (λ p. plan_tree p ≡ with_body (plan_tree self.now) (plan_tree body)) }
    {
        match self {
            Plan::Subquery { below, var, .. } => {
                let below = below.copy(alloc)?;
                Plan::subquery(alloc, below, *var, body)
            }
            _ => self.copy(alloc),
        }
    }
}
