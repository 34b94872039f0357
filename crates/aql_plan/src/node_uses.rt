//! What the nodes of plans use.

ghost use Rattle.std.specs.Prelude.{◌≡◌, ◌++◌, OnOk, IfOk, map, option_map};
ghost use Rattle.aql_tree.specs.View.{trees, key_part, let_part, aggregate_part, into_part, into_tree};
ghost use Rattle.aql_tree.specs.View.{aggregates as aggregate_trees};
ghost use Rattle.aql_meaning.specs.Uses.{all_uses, aggregate_uses, into_uses};
ghost use Rattle.aql_meaning.specs.View.{end_tree, last_tree};
ghost use Rattle.aql_meaning.specs.Visible.{aggregate_vars};
ghost use Rattle.aql_plan.specs.Needs.{end_uses, last_uses, as_wholes, own_uses};
ghost use Rattle.aql_plan.specs.Plan.{top};
ghost use Rattle.aql_plan.specs.View.{node_tree, plan_tree};
ghost use Rattle.aql_plan.specs.Used.{uses_tree};

use crate::plan::{Node, Plan};
use crate::{Use, Uses, add_all_uses, add_maybe_uses, add_uses};
use aql_meaning::{Edge, Last, Stage};
use aql_tree::{AggregateItem, Into, Key, Let, copy_ident};
use aql_value::OutOfMemory;
use std::alloc::Global;

fn add_key_uses(keys: &[Key], alloc: Global, to: &mut Uses) -> Result<(), OutOfMemory>
    ensures { OnOk result (uses_tree to.new ≡ uses_tree to.old
        ++ all_uses (trees (map (λ k. k.0) (map key_part keys.now)))) }
{
    for key in keys {
        add_uses(&key.expr, alloc, to)?;
    }
    Ok(())
}

fn add_group_uses(groups: &[Let], alloc: Global, to: &mut Uses) -> Result<(), OutOfMemory>
    ensures { OnOk result (uses_tree to.new ≡ uses_tree to.old
        ++ all_uses (trees (map (λ l. l.1) (map let_part groups.now)))) }
{
    for group in groups {
        add_uses(&group.expr, alloc, to)?;
    }
    Ok(())
}

fn add_aggregate_uses(
    all: &[AggregateItem],
    alloc: Global,
    to: &mut Uses,
) -> Result<(), OutOfMemory>
    ensures { OnOk result (uses_tree to.new ≡ uses_tree to.old
        ++ aggregate_uses (aggregate_trees (map aggregate_part all.now))) }
{
    for aggregate in all {
        add_maybe_uses(&aggregate.arg, alloc, to)?;
    }
    Ok(())
}

fn add_into_uses(into: &Option<Into>, alloc: Global, to: &mut Uses) -> Result<(), OutOfMemory>
    ensures { OnOk result (uses_tree to.new ≡ uses_tree to.old
        ++ into_uses (into_tree (option_map into_part into.now))) }
{
    match into {
        Some(into) => add_maybe_uses(&into.what, alloc, to),
        None => Ok(()),
    }
}

fn add_end_uses(end: &Option<Edge>, alloc: Global, to: &mut Uses) -> Result<(), OutOfMemory>
    ensures { OnOk result
        (uses_tree to.new ≡ uses_tree to.old ++ end_uses (option_map end_tree end.now)) }
{
    match end {
        Some(end) => add_uses(&end.expr, alloc, to),
        None => Ok(()),
    }
}

fn add_last_uses(last: &Last, alloc: Global, to: &mut Uses) -> Result<(), OutOfMemory>
    ensures { OnOk result (uses_tree to.new ≡ uses_tree to.old ++ last_uses (last_tree last.now)) }
{
    match last {
        Last::None => Ok(()),
        Last::OneOf(list) => add_uses(list, alloc, to),
        Last::Range { low, high } => {
            add_end_uses(low, alloc, to)?;
            add_end_uses(high, alloc, to)
        }
    }
}

fn add_groups_whole(groups: &[Let], alloc: Global, to: &mut Uses) -> Result<(), OutOfMemory>
    ensures { OnOk result (uses_tree to.new ≡ uses_tree to.old
        ++ as_wholes (map (λ l. l.0) (map let_part groups.now))) }
{
    for group in groups {
        to.push(Use::Whole(copy_ident(alloc, &group.var)?))?;
    }
    Ok(())
}

fn add_aggregates_whole(
    all: &[AggregateItem],
    alloc: Global,
    to: &mut Uses,
) -> Result<(), OutOfMemory>
    ensures { OnOk result (uses_tree to.new ≡ uses_tree to.old
        ++ as_wholes (aggregate_vars (aggregate_trees (map aggregate_part all.now)))) }
{
    for aggregate in all {
        to.push(Use::Whole(copy_ident(alloc, &aggregate.var)?))?;
    }
    Ok(())
}

fn add_node_uses(node: &Node, alloc: Global, to: &mut Uses) -> Result<(), OutOfMemory>
    ensures { OnOk result (uses_tree to.new ≡ uses_tree to.old ++ own_uses (node_tree node.now)) }
{
    match node {
        Node::EnumerateCollection { filter, .. } => add_maybe_uses(filter, alloc, to),
        Node::Index {
            filter,
            equal,
            last,
            ..
        } => {
            add_all_uses(equal.as_slice(), alloc, to)?;
            add_last_uses(last, alloc, to)?;
            add_maybe_uses(filter, alloc, to)
        }
        Node::EnumerateList { list, .. } => add_uses(list, alloc, to),
        Node::Traversal {
            start,
            prune,
            filter,
            ..
        } => {
            add_uses(start, alloc, to)?;
            add_maybe_uses(prune, alloc, to)?;
            add_maybe_uses(filter, alloc, to)
        }
        Node::Calculation { expr, .. } => add_uses(expr, alloc, to),
        Node::Filter { cond, .. } => add_uses(cond, alloc, to),
        Node::Sort { keys, .. } => add_key_uses(keys.as_slice(), alloc, to),
        Node::Collect {
            groups,
            aggregates,
            into,
            stage,
            ..
        } => match stage {
            Stage::Final => {
                add_groups_whole(groups.as_slice(), alloc, to)?;
                add_aggregates_whole(aggregates.as_slice(), alloc, to)
            }
            Stage::Whole | Stage::Partial => {
                add_group_uses(groups.as_slice(), alloc, to)?;
                add_aggregate_uses(aggregates.as_slice(), alloc, to)?;
                add_into_uses(into, alloc, to)
            }
        },
        Node::Return { expr, .. } => add_uses(expr, alloc, to),
        Node::Distribute { exprs, .. } => add_all_uses(exprs.as_slice(), alloc, to),
        Node::Gather { order, .. } => add_key_uses(order.as_slice(), alloc, to),
        _ => Ok(()),
    }
}

/// Appends what the expressions of a node use. A final Collect finds what it needs under its own
/// variables; of a subquery's body this says nothing.
pub fn add_own_uses(plan: &Plan, alloc: Global, to: &mut Uses) -> Result<(), OutOfMemory>
    ensures { OnOk result
        (uses_tree to.new ≡ uses_tree to.old ++ own_uses (top (plan_tree plan.now))) }
{
    match plan {
        Plan::Over { node, .. } => add_node_uses(node, alloc, to),
        _ => Ok(()),
    }
}
