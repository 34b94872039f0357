//! The expressions that give the shard keys of the documents that a node finds.

ghost use Rattle.std.specs.Prelude.{◌≡◌, ◌++◌, ◌↔◌, IsTrue, IfOk, OnOk, map, option_map};
ghost use Rattle.aql_tree.specs.declared.syntax.Ident.TheVariants.{Num};
ghost use Rattle.aql_tree.specs.View.{tree};
ghost use Rattle.aql_plan.specs.Facts.{keys_in};
ghost use Rattle.aql_plan.specs.View.{expr_trees, maybe_tree, node_tree};
ghost use Rattle.aql_rewrite.specs.ExprView.{lent};
ghost use Rattle.aql_rules_index.specs.inner.Views.{item_tree};
ghost use Rattle.aql_rules_cluster.specs.KeyItems.{bound_items, filter_items};
ghost use Rattle.aql_rules_cluster.specs.KeyItems.{Wants, GivesKey, FirstFor, FirstForEach, KeysBy};
ghost use Rattle.aql_rules_cluster.specs.KeyItems.{GivesKeys};
ghost use Rattle.aql_rules_cluster.specs.inner.KeyItems.{IsFound};

use aql_func::BinOp;
use aql_plan::{Facts, Node};
use aql_rewrite::is_constant;
use aql_rules_index::{Item, attributes_of, item_of, parts_of, uses_variable};
use aql_tree::{Expr, Exprs, copy_expr};
use aql_value::{CollNo, OutOfMemory, Seq, Text};
use std::alloc::Global;

/// Which expressions are wanted for the shard keys.
#[derive(Clone, Copy, Drop)]
pub(crate) enum Wanted {
    /// Those that do not use the document.
    Apart,
    /// Those that are constant.
    Constant,
}

fn is_wanted(alloc: Global, wanted: Wanted, var: u32, expr: &Expr) -> Result<bool, OutOfMemory>
    ensures { IfOk result
        (λ answer. IsTrue answer ↔ Wants wanted (Num var) (tree expr.now)) }
{
    match wanted {
        Wanted::Apart => Ok(!uses_variable(alloc, var, expr)?),
        Wanted::Constant => is_constant(alloc, expr),
    }
}

// Whether an item has a wanted expression stand equal to a key.
fn gives_key(
    alloc: Global,
    wanted: Wanted,
    var: u32,
    key: &Text,
    item: Item<'_>,
) -> Result<bool, OutOfMemory>
    ensures { IfOk result (λ answer.
        IsTrue answer ↔ GivesKey (Wants wanted (Num var)) key.now (item_tree item.entry)) }
{
    if item.name.as_str() == key.as_str() && matches!(item.op, BinOp::Eq) {
        return is_wanted(alloc, wanted, var, item.other);
    }
    Ok(false)
}

// The first wanted expression that stands equal to a key.
fn first_for<'a>(
    alloc: Global,
    wanted: Wanted,
    var: u32,
    key: &Text,
    items: &[Item<'a>],
) -> Result<Option<&'a Expr>, OutOfMemory>
    ensures { IfOk result (λ found.
        IsFound (FirstFor (Wants wanted (Num var)) key.now (map item_tree items.now))
        (option_map lent found)) }
{
    for item in items {
        if gives_key(alloc, wanted, var, key, *item)? {
            return Ok(Some(item.other));
        }
    }
    Ok(None)
}

// The first one for each key.
fn first_for_each(
    alloc: Global,
    wanted: Wanted,
    var: u32,
    keys: &[Text],
    items: &[Item<'_>],
) -> Result<Option<Exprs>, OutOfMemory>
    ensures { IfOk result (λ found.
        IsFound (FirstForEach (Wants wanted (Num var)) (map item_tree items.now) keys.now)
        (option_map expr_trees found)) }
{
    let mut exprs = Seq::new(alloc);
    for key in keys {
        let Some(expr) = first_for(alloc, wanted, var, key, items)? else {
            return Ok(None);
        };
        exprs.push(copy_expr(alloc, expr)?)?;
    }
    Ok(Some(exprs))
}

// Appends the equal bounds of an index over these attributes.
fn add_bound_items<'a>(
    names: &'a [Text],
    equal: &'a [Expr],
    to: &mut Vec<Item<'a>>,
) -> Result<(), OutOfMemory>
    ensures { OnOk result (map item_tree to.new.items
        ≡ map item_tree to.old.items ++ bound_items names.now (expr_trees equal.now)) }
{
    let Some((name, more)) = names.split_first() else {
        return Ok(());
    };
    let Some((other, rest)) = equal.split_first() else {
        return Ok(());
    };
    to.push(Item {
        name,
        op: BinOp::Eq,
        other,
    })?;
    add_bound_items(more, rest, to)
}

// Appends the items of a node's own filter.
fn add_filter_items<'a>(
    alloc: Global,
    var: u32,
    filter: &'a Option<Expr>,
    to: &mut Vec<Item<'a>>,
) -> Result<(), OutOfMemory>
    ensures { OnOk result (map item_tree to.new.items
        ≡ map item_tree to.old.items ++ filter_items (Num var) (maybe_tree filter.now)) }
{
    let Some(cond) = filter else {
        return Ok(());
    };
    let parts = parts_of(alloc, cond)?;
    for part in &parts {
        if let Some(item) = item_of(alloc, var, *part)? {
            to.push(item)?;
        }
    }
    Ok(())
}

// The shard keys of a collection; none where it is not declared.
fn shard_keys(facts: &Facts, coll: CollNo) -> &[Text]
    ensures { result.now ≡ keys_in facts.now coll.0 }
{
    match facts.collections.get(coll.0 as usize) {
        Some(known) => known.keys.as_slice(),
        None => &[],
    }
}

// The first one for each shard key, among bounds and then among the items of a filter.
fn keys_by<'a>(
    alloc: Global,
    wanted: Wanted,
    var: u32,
    coll: CollNo,
    bounds: Vec<Item<'a>>,
    filter: &'a Option<Expr>,
    facts: &Facts,
) -> Result<Option<Exprs>, OutOfMemory>
    ensures { IfOk result (λ found. IsFound (KeysBy facts.now wanted (Num var) coll.0
        (map item_tree bounds.entry.items ++ filter_items (Num var) (maybe_tree filter.now)))
        (option_map expr_trees found)) }
{
    let mut items = bounds;
    add_filter_items(alloc, var, filter, &mut items)?;
    first_for_each(alloc, wanted, var, shard_keys(facts, coll), &items)
}

/// For each shard key of the collection that a node reads, the first wanted expression that stands
/// equal to it among the equal bounds of an Index, and then among the items of the node's filter.
/// `None` exactly where a key has none, and at nodes that read no collection.
pub(crate) fn key_items(
    alloc: Global,
    wanted: Wanted,
    node: &Node,
    facts: &Facts,
) -> Result<Option<Exprs>, OutOfMemory>
    ensures { IfOk result (λ found.
        IsFound (GivesKeys facts.now wanted (node_tree node.now)) (option_map expr_trees found)) }
{
    match node {
        Node::EnumerateCollection {
            var,
            coll,
            filter,
            ..
        } => {
            let bounds = Vec::new(alloc);
            keys_by(alloc, wanted, *var, *coll, bounds, filter, facts)
        }
        Node::Index {
            var,
            coll,
            filter,
            index,
            equal,
            ..
        } => {
            let names = attributes_of(facts, *coll, *index);
            let mut bounds = Vec::new(alloc);
            add_bound_items(names, equal.as_slice(), &mut bounds)?;
            keys_by(alloc, wanted, *var, *coll, bounds, filter, facts)
        }
        _ => Ok(None),
    }
}
