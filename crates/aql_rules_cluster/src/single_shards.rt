//! Fragments that find documents on one shard alone.

ghost use Rattle.std.specs.Prelude.{◌≡◌, ◌≤◌, ◌↔◌, IsTrue, IfOk, Option, option_map};
ghost use Rattle.aql_meaning.specs.AtRows.{keys_of};
ghost use Rattle.aql_meaning.specs.Plain.{AllPlain};
ghost use Rattle.aql_meaning.specs.Row.{empty_row};
ghost use Rattle.aql_plan.specs.Facts.{shards_in};
ghost use Rattle.aql_plan.specs.Plan.{top};
ghost use Rattle.aql_plan.specs.View.{expr_trees, node_tree, plan_tree};
ghost use Rattle.aql_rules_cluster.specs.declared.key_items.Wanted.TheVariants as wanted;
ghost use Rattle.aql_rules_cluster.specs.KeyItems.{GivesKeys};
ghost use Rattle.aql_rules_cluster.specs.RestrictToSingleShard.{gives_none as spec_gives_none};
ghost use Rattle.aql_rules_cluster.specs.RestrictToSingleShard.{none_of_none as spec_none_of_none};
ghost use Rattle.aql_rules_cluster.specs.RestrictToSingleShard.{TakesToAll, Narrows};
ghost use Rattle.aql_rules_cluster.specs.inner.KeyItems.{IsFound};
ghost use Rattle.aql_rules_cluster.specs.inner.SingleShards.{distribution as spec_distribution};
ghost use Rattle.aql_rules_cluster.specs.inner.SingleShards.{sending_view, IsShardOf};

use crate::bottoms::{is_foot, reads_here};
use crate::distribute_in_cluster::scattered;
use crate::key_items::{Wanted, key_items};
use aql_plan::{Facts, Node, Plan};
use aql_rewrite::same_expr;
use aql_rules_calc::constant_value;
use aql_shard::shard_of;
use aql_tree::Expr;
use aql_value::{CollNo, Items, OutOfMemory};
use std::alloc::Global;

fn gives_none(node: &Node) -> bool
    ensures { result ≡ spec_gives_none (node_tree node.now) }
{
    match node {
        Node::Collect { groups, .. } => groups.len() > 0,
        _ => true,
    }
}

/// Whether the nodes of a fragment, down to its foot, give no row where none comes.
pub(crate) fn none_of_none(plan: &Plan) -> bool
    ensures { result ≡ spec_none_of_none (plan_tree plan.now) }
{
    if is_foot(plan) {
        return true;
    }
    match plan {
        Plan::Singleton => true,
        Plan::Over { below, node } => gives_none(node) && none_of_none(below),
        Plan::Subquery { below, .. } => none_of_none(below),
    }
}

// Whether two lists have the same expressions, without a subquery.
fn same_exprs(a: &[Expr], b: &[Expr]) -> bool
    ensures { IsTrue result
        ↔ (AllPlain (expr_trees a.now) × (expr_trees a.now ≡ expr_trees b.now)) }
{
    let Some((x, more)) = a.split_first() else {
        return b.len() == 0;
    };
    let Some((y, rest)) = b.split_first() else {
        return false;
    };
    same_expr(x, y) && same_exprs(more, rest)
}

// Whether these expressions are those that give the shard keys of what a node finds.
fn are_key_items(
    alloc: Global,
    lowest: &Node,
    exprs: &[Expr],
    facts: &Facts,
) -> Result<bool, OutOfMemory>
    ensures { IfOk result (λ answer. IsTrue answer ↔ (AllPlain (expr_trees exprs.now)
        × GivesKeys facts.now wanted.Apart (node_tree lowest.now) (expr_trees exprs.now))) }
{
    match key_items(alloc, Wanted::Apart, lowest, facts)? {
        Some(found) => Ok(same_exprs(exprs, found.as_slice())),
        None => Ok(false),
    }
}

// What a Distribute sends rows by.
#[derive(Clone, Copy, Drop)]
struct Sending<'a> {
    coll: CollNo,
    exprs: &'a [Expr],
}

fn node_distribution(node: &Node) -> Option<Sending<'_>>
    ensures { option_map sending_view result ≡ spec_distribution (node_tree node.now) }
{
    match node {
        Node::Distribute { coll, exprs } => Some(Sending {
            coll: *coll,
            exprs: exprs.as_slice(),
        }),
        _ => None,
    }
}

// What the Distribute at the top of a plan sends rows by.
fn distribution(plan: &Plan) -> Option<Sending<'_>>
    ensures { option_map sending_view result ≡ spec_distribution (top (plan_tree plan.now)) }
{
    match plan {
        Plan::Over { node, .. } => node_distribution(node),
        _ => None,
    }
}

// The collection to all of whose shards a foot takes the rows.
fn takes_to_all(
    alloc: Global,
    lowest: &Node,
    foot: &Plan,
    facts: &Facts,
) -> Result<Option<CollNo>, OutOfMemory>
    ensures { IfOk result (λ found.
        IsFound (λ coll. TakesToAll facts.now coll (node_tree lowest.now)
        (top (plan_tree foot.now))) (option_map (λ c. c.0) found)) }
{
    if let Some(coll) = scattered(foot) {
        return Ok(Some(coll));
    }
    let Some(sent) = distribution(foot) else {
        return Ok(None);
    };
    if are_key_items(alloc, lowest, sent.exprs, facts)? {
        return Ok(Some(sent.coll));
    }
    Ok(None)
}

// The values of constants.
fn constant_values(alloc: Global, exprs: &[Expr]) -> Result<Items, OutOfMemory>
    requires { AllPlain (expr_trees exprs.now) }
    ensures { IfOk result
        (λ values. values ≡ keys_of (expr_trees exprs.now) empty_row) }
{
    let mut values = Items::new(alloc);
    for expr in exprs {
        values.push(constant_value(alloc, expr)?)?;
    }
    Ok(values)
}

// How many shards a collection has; one where it is not declared.
fn shards_of(facts: &Facts, coll: CollNo) -> u32
    ensures { result ≡ shards_in facts.now coll.0 }
{
    match facts.collections.get(coll.0 as usize) {
        Some(known) => known.shards,
        None => 1,
    }
}

// The shard of the documents that a node finds, where constants give their shard keys.
fn single_shard(
    alloc: Global,
    lowest: &Node,
    coll: CollNo,
    facts: &Facts,
) -> Result<Option<u32>, OutOfMemory>
    requires { 1 ≤ shards_in facts.now coll.0 }
    ensures { IfOk result
        (λ found. IsShardOf facts.now coll.0 (node_tree lowest.now) found) }
{
    let Some(exprs) = key_items(alloc, Wanted::Constant, lowest, facts)? else {
        return Ok(None);
    };
    let values = constant_values(alloc, exprs.as_slice())?;
    let shard = shard_of(alloc, &values, shards_of(facts, coll))?;
    Ok(Some(shard))
}

/// The foot of one shard that may stand for the foot of a fragment, below its lowest node.
pub(crate) fn narrower_foot(
    alloc: Global,
    lowest: &Node,
    foot: &Plan,
    facts: &Facts,
) -> Result<Option<Node>, OutOfMemory>
    ensures { IfOk result (λ found.
        IsFound (Narrows facts.now (node_tree lowest.now) (top (plan_tree foot.now)))
        (option_map node_tree found)) }
{
    let Some(coll) = takes_to_all(alloc, lowest, foot, facts)? else {
        return Ok(None);
    };
    if !reads_here(lowest, coll) || shards_of(facts, coll) == 0 {
        return Ok(None);
    }
    match single_shard(alloc, lowest, coll, facts)? {
        Some(shard) => Ok(Some(Node::Scatter {
            coll,
            only: Some(shard),
        })),
        None => Ok(None),
    }
}
