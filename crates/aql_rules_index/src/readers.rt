//! Nodes that read documents, and changes of them and of Filters.

ghost use Rattle.std.specs.Prelude.{◌≡◌, option_map};
ghost use Rattle.aql_tree.specs.View.{tree};
ghost use Rattle.aql_plan.specs.Facts.{attributes_in};
ghost use Rattle.aql_plan.specs.Plan.{top};
ghost use Rattle.aql_plan.specs.View.{node_tree, plan_tree};
ghost use Rattle.aql_rules_index.specs.inner.Readers.{indexed, plan_indexed, with_cond};
ghost use Rattle.aql_rules_index.specs.inner.Readers.{plan_with_cond};
ghost use Rattle.aql_rules_index.specs.inner.Readers.{whole_index as spec_whole_index};
ghost use Rattle.aql_rules_index.specs.inner.Views.{candidate_tree, read_tree};

use crate::choice::{Bounds, Candidate};
use aql_plan::{Facts, Last, Node, Plan, index_of};
use aql_tree::Expr;
use aql_value::{CollNo, Text};
use std::mem;

/// An Index that keeps all attributes.
#[derive(Clone, Copy, Drop)]
pub(crate) struct IndexRead<'a> {
    pub var: u32,
    pub coll: CollNo,
    pub index: u32,
    pub equal: &'a [Expr],
    pub last: &'a Last,
    pub ordered: Option<bool>,
}

fn node_whole_index(node: &Node) -> Option<IndexRead<'_>>
    ensures { option_map read_tree result ≡ spec_whole_index (node_tree node.now) }
{
    match node {
        Node::Index {
            var,
            coll,
            attrs: None,
            index,
            equal,
            last,
            ordered,
            ..
        } => Some(IndexRead {
            var: *var,
            coll: *coll,
            index: *index,
            equal: equal.as_slice(),
            last,
            ordered: *ordered,
        }),
        _ => None,
    }
}

/// The Index at the top of a plan, if it keeps all attributes; `None` exactly at every other node.
pub(crate) fn whole_index(plan: &Plan) -> Option<IndexRead<'_>>
    ensures { option_map read_tree result ≡ spec_whole_index (top (plan_tree plan.now)) }
{
    match plan {
        Plan::Over { node, .. } => node_whole_index(node),
        _ => None,
    }
}

/// The attributes of an index, the first that decides at the front; none where it is not declared.
pub fn attributes_of(facts: &Facts, coll: CollNo, index: u32) -> &[Text]
    ensures { result.now ≡ attributes_in facts.now coll.0 index }
{
    match index_of(facts, coll, index) {
        Some(known) => known.attributes.as_slice(),
        None => &[],
    }
}

fn set_node_index(node: &mut Node, chosen: Candidate, ordered: Option<bool>)
    ensures { node_tree node.new ≡ indexed (candidate_tree chosen) ordered (node_tree node.old) }
{
    if let Node::EnumerateCollection {
        var,
        coll,
        filter,
        attrs,
        shard,
    } = node
    {
        let Candidate { index, bounds } = chosen;
        let Bounds { equal, last } = bounds;
        *node = Node::Index {
            var: *var,
            coll: *coll,
            filter: mem::replace(filter, None),
            attrs: mem::replace(attrs, None),
            shard: *shard,
            index,
            equal,
            last,
            ordered,
        };
    }
}

/// An EnumerateCollection at the top of a plan becomes an Index; any other node stays as it is.
pub(crate) fn set_index(plan: &mut Plan, chosen: Candidate, ordered: Option<bool>)
    ensures { plan_tree plan.new
        ≡ plan_indexed (candidate_tree chosen) ordered (plan_tree plan.old) }
{
    if let Plan::Over { node, .. } = plan {
        set_node_index(&mut **node, chosen, ordered);
    }
}

fn set_node_cond(node: &mut Node, cond: Expr)
    ensures { node_tree node.new ≡ with_cond (tree cond) (node_tree node.old) }
{
    if let Node::Filter { cond: own } = node {
        *own = cond;
    }
}

/// Gives a Filter at the top of a plan another condition; any other node stays as it is.
pub(crate) fn set_cond(plan: &mut Plan, cond: Expr)
    ensures { plan_tree plan.new ≡ plan_with_cond (tree cond) (plan_tree plan.old) }
{
    if let Plan::Over { node, .. } = plan {
        set_node_cond(&mut **node, cond);
    }
}
