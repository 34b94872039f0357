//! What each node needs by itself.

ghost use Rattle.std.specs.Prelude.{◌≡◌, ◌↔◌, ◌≤◌, ◌<◌, ◌^◌, IsTrue, MatchOption, length, map, eqb, option_map, option_copied};
ghost use Rattle.std.specs.List.{AllByRecursion, IsDistinct};
ghost use Rattle.aql_tree.specs.View.{let_part, tree, trees, maybe};
ghost use Rattle.aql_meaning.specs.Plain.{AllPlain, IsPlain, MaybePlain};
ghost use Rattle.aql_meaning.specs.View.{last_tree};
ghost use Rattle.aql_plan.specs.Facts.{keys_in};
ghost use Rattle.aql_plan.specs.Fits.{Fits, LastPlain, IsEdgeCollection, BoundsFit, KindFits, KeepsOrder, exprs_in};
ghost use Rattle.aql_plan.specs.Plan.{top};
ghost use Rattle.aql_plan.specs.View.{node_tree, plan_tree};

use crate::aggregates::{all_known, into_plain};
use crate::bounds::{index_fits, last_plain};
use crate::collections::{are_distinct, are_edge_collections, is_shard, key_count};
use crate::plain::{all_plain, is_plain, keys_plain, lets_plain, maybe_plain};
use aql_plan::{Facts, IndexFact, Last, Node, Plan, index_of};
use aql_tree::{Expr, Let};
use aql_value::{CollNo, Names};

// How many expressions there are.
fn count(exprs: &[Expr]) -> usize
    ensures { result ≡ exprs_in (trees (map tree exprs.now)) }
{
    exprs.len()
}

fn index_is_usable(
    known: Option<&IndexFact>,
    kept: &Option<Names>,
    equal: usize,
    last: &Last,
    ordered: Option<bool>,
) -> bool
    ensures { IsTrue result ↔ MatchOption (option_copied known.entry) ⊥
        (λ i. BoundsFit (length i.attributes) equal (last_tree last.now)
        × KindFits i.kind equal (last_tree last.now) ordered
        × KeepsOrder i.attributes kept.now ordered) }
{
    match known {
        Some(known) => index_fits(known, kept, equal, last, ordered),
        None => false,
    }
}

fn traversal_is_plain(start: &Expr, prune: &Option<Expr>, filter: &Option<Expr>) -> bool
    ensures { IsTrue result ↔ (IsPlain (tree start.now)
        × MaybePlain (maybe (option_map tree prune.now))
        × MaybePlain (maybe (option_map tree filter.now))) }
{
    is_plain(start) && maybe_plain(prune) && maybe_plain(filter)
}

fn edges_fit(facts: &Facts, collections: &[CollNo], min: u32, max: u32) -> bool
    ensures { IsTrue result
        ↔ (AllByRecursion (IsEdgeCollection facts.now) (map (λ (c : CollNo). c.0) collections.now)
        × (min ≤ max) × IsDistinct eqb (map (λ (c : CollNo). c.0) collections.now)) }
{
    are_edge_collections(facts, collections) && min <= max && are_distinct(collections)
}

// A limit is a number of 64 bits.
fn recall_limit(limit: Option<u64>)
    ensures { MatchOption limit (Unit {0}) (λ most. most < 2 ^ 64) }
{
    match limit {
        Some(_most) => {}
        None => {}
    }
}

fn index_node_fits(
    known: Option<&IndexFact>,
    kept: &Option<Names>,
    equal: &[Expr],
    last: &Last,
    ordered: Option<bool>,
) -> bool
    ensures { IsTrue result ↔ (AllPlain (trees (map tree equal.now))
        × LastPlain (last_tree last.now)
        × MatchOption (option_copied known.entry) ⊥
        (λ i. BoundsFit (length i.attributes) (exprs_in (trees (map tree equal.now)))
        (last_tree last.now) × KindFits i.kind (exprs_in (trees (map tree equal.now)))
        (last_tree last.now) ordered × KeepsOrder i.attributes kept.now ordered)) }
{
    all_plain(equal)
        && last_plain(last)
        && index_is_usable(known, kept, count(equal), last, ordered)
}

fn distribution_fits(facts: &Facts, coll: CollNo, exprs: &[Expr]) -> bool
    ensures { IsTrue result ↔ (AllPlain (trees (map tree exprs.now))
        × (exprs_in (trees (map tree exprs.now)) ≡ length (keys_in facts.now coll.0))) }
{
    all_plain(exprs) && count(exprs) == key_count(facts, coll)
}

// Each variable of a COLLECT stands with its expression.
fn recall_pairs(_groups: &[Let])
    ensures { exprs_in (trees (map (λ l. l.1) (map let_part _groups.now)))
        ≡ length (map (λ l. l.0) (map let_part _groups.now)) }
{}

fn node_fits(node: &Node, facts: &Facts) -> bool
    ensures { IsTrue result ↔ Fits facts.now (node_tree node.now) }
{
    match node {
        Node::EnumerateCollection {
            coll,
            filter,
            shard,
            ..
        } => is_shard(facts, *coll, *shard) && maybe_plain(filter),
        Node::Index {
            coll,
            filter,
            attrs,
            shard,
            index,
            equal,
            last,
            ordered,
            ..
        } => {
            let known = index_of(facts, *coll, *index);
            is_shard(facts, *coll, *shard)
                && maybe_plain(filter)
                && index_node_fits(known, attrs, equal.as_slice(), last, *ordered)
        }
        Node::EnumerateList { list, .. } => is_plain(list),
        Node::Traversal {
            min,
            max,
            start,
            collections,
            prune,
            filter,
            ..
        } => {
            traversal_is_plain(start, prune, filter)
                && edges_fit(facts, collections.as_slice(), *min, *max)
        }
        Node::Calculation { expr, .. } => is_plain(expr),
        Node::Filter { cond, .. } => is_plain(cond),
        Node::Sort { keys, limit, .. } => {
            recall_limit(*limit);
            keys_plain(keys.as_slice())
        }
        Node::Limit { offset, count, .. } => offset.checked_add(*count).is_some(),
        Node::Collect {
            groups,
            aggregates,
            into,
            ..
        } => {
            recall_pairs(groups.as_slice());
            lets_plain(groups.as_slice()) && all_known(aggregates.as_slice()) && into_plain(into)
        }
        Node::Return { expr, .. } => is_plain(expr),
        Node::Scatter { coll, only, .. } => is_shard(facts, *coll, *only),
        Node::Distribute { coll, exprs, .. } => {
            is_shard(facts, *coll, None) && distribution_fits(facts, *coll, exprs.as_slice())
        }
        Node::Gather { order, .. } => keys_plain(order.as_slice()),
        _ => true,
    }
}

/// Whether the node at the top has what it needs by itself.
pub(crate) fn fits(plan: &Plan, facts: &Facts) -> bool
    ensures { IsTrue result ↔ Fits facts.now (top (plan_tree plan.now)) }
{
    match plan {
        Plan::Over { node, .. } => node_fits(node, facts),
        _ => true,
    }
}
