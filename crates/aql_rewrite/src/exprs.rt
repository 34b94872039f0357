//! The expressions of a node, by reference, and other expressions in their places. New ones wait in
//! a queue, in the order of the plan's text; where it is empty the old one stays.

ghost use Rattle.std.specs.Prelude.{◌≡◌, ◌++◌, OnOk, IfOk, map, option_map};
ghost use Rattle.aql_tree.specs.View.{tree, trees, key_part, let_part, aggregate_part};
ghost use Rattle.aql_tree.specs.View.{into_part, aggregates as aggregate_trees, into_tree};
ghost use Rattle.aql_meaning.specs.View.{end_tree, last_tree};
ghost use Rattle.aql_plan.specs.Plan as spec;
ghost use Rattle.aql_plan.specs.View.{node_tree, plan_tree};
ghost use Rattle.aql_rewrite.specs.Children.{list_children};
ghost use Rattle.aql_rewrite.specs.OverChildren.{first_or, after_first};
ghost use Rattle.aql_rewrite.specs.ExprView.{lent, each_over, option_over, after_option};
ghost use Rattle.aql_rewrite.specs.NodeExprs.{end_exprs, last_exprs, aggregate_exprs, into_exprs};
ghost use Rattle.aql_rewrite.specs.NodeExprs.{node_exprs as spec_node_exprs, over_end as spec_over_end};
ghost use Rattle.aql_rewrite.specs.NodeExprs.{over_exprs};
ghost use Rattle.aql_rewrite.specs.NodeExprs.{after_end, over_last as spec_over_last, after_last};
ghost use Rattle.aql_rewrite.specs.inner.NodeViews.{after_each, keys_over, lets_over, aggregates_over};
ghost use Rattle.aql_rewrite.specs.inner.NodeViews.{after_each_aggregate, into_over};

use crate::add_maybe;
use aql_plan::{Edge, Last, Node, Plan};
use aql_tree::{AggregateItem, Aggregates, Expr, Exprs, Into, Key, Keys, Let, Lets};
use aql_value::OutOfMemory;
use std::alloc::Global;
use std::collections::VecDeque;
use std::mem;

fn add_exprs<'a>(to: &mut Vec<&'a Expr>, all: &'a [Expr]) -> Result<(), OutOfMemory>
    ensures { OnOk result (map lent to.new.items
        ≡ map lent to.old.items ++ list_children (trees (map tree all.now))) }
{
    for expr in all {
        to.push(expr)?;
    }
    Ok(())
}

fn add_keys<'a>(to: &mut Vec<&'a Expr>, keys: &'a [Key]) -> Result<(), OutOfMemory>
    ensures { OnOk result (map lent to.new.items ≡ map lent to.old.items
        ++ list_children (trees (map (λ k. k.0) (map key_part keys.now)))) }
{
    for key in keys {
        to.push(&key.expr)?;
    }
    Ok(())
}

fn add_groups<'a>(to: &mut Vec<&'a Expr>, groups: &'a [Let]) -> Result<(), OutOfMemory>
    ensures { OnOk result (map lent to.new.items ≡ map lent to.old.items
        ++ list_children (trees (map (λ l. l.1) (map let_part groups.now)))) }
{
    for group in groups {
        to.push(&group.expr)?;
    }
    Ok(())
}

fn add_aggregates<'a>(to: &mut Vec<&'a Expr>, all: &'a [AggregateItem]) -> Result<(), OutOfMemory>
    ensures { OnOk result (map lent to.new.items ≡ map lent to.old.items
        ++ aggregate_exprs (aggregate_trees (map aggregate_part all.now))) }
{
    for aggregate in all {
        add_maybe(to, &aggregate.arg)?;
    }
    Ok(())
}

fn add_into<'a>(to: &mut Vec<&'a Expr>, into: &'a Option<Into>) -> Result<(), OutOfMemory>
    ensures { OnOk result (map lent to.new.items ≡ map lent to.old.items
        ++ into_exprs (into_tree (option_map into_part into.now))) }
{
    match into {
        Some(into) => add_maybe(to, &into.what),
        None => Ok(()),
    }
}

fn add_end<'a>(to: &mut Vec<&'a Expr>, end: &'a Option<Edge>) -> Result<(), OutOfMemory>
    ensures { OnOk result (map lent to.new.items ≡ map lent to.old.items
        ++ end_exprs (option_map end_tree end.now)) }
{
    match end {
        Some(end) => {
            to.push(&end.expr)?;
            Ok(())
        }
        None => Ok(()),
    }
}

fn add_last<'a>(to: &mut Vec<&'a Expr>, last: &'a Last) -> Result<(), OutOfMemory>
    ensures { OnOk result (map lent to.new.items ≡ map lent to.old.items
        ++ last_exprs (last_tree last.now)) }
{
    match last {
        Last::None => Ok(()),
        Last::OneOf(list) => {
            to.push(list)?;
            Ok(())
        }
        Last::Range { low, high } => {
            add_end(to, low)?;
            add_end(to, high)
        }
    }
}

fn add_node_exprs<'a>(to: &mut Vec<&'a Expr>, node: &'a Node) -> Result<(), OutOfMemory>
    ensures { OnOk result (map lent to.new.items ≡ map lent to.old.items
        ++ spec_node_exprs (node_tree node.now)) }
{
    match node {
        Node::EnumerateCollection { filter, .. } => add_maybe(to, filter),
        Node::Index {
            filter,
            equal,
            last,
            ..
        } => {
            add_exprs(to, equal.as_slice())?;
            add_last(to, last)?;
            add_maybe(to, filter)
        }
        Node::EnumerateList { list, .. } => {
            to.push(list)?;
            Ok(())
        }
        Node::Traversal {
            start,
            prune,
            filter,
            ..
        } => {
            to.push(start)?;
            add_maybe(to, prune)?;
            add_maybe(to, filter)
        }
        Node::Calculation { expr, .. } => {
            to.push(expr)?;
            Ok(())
        }
        Node::Filter { cond, .. } => {
            to.push(cond)?;
            Ok(())
        }
        Node::Sort { keys, .. } => add_keys(to, keys.as_slice()),
        Node::Collect {
            groups,
            aggregates,
            into,
            ..
        } => {
            add_groups(to, groups.as_slice())?;
            add_aggregates(to, aggregates.as_slice())?;
            add_into(to, into)
        }
        Node::Return { expr, .. } => {
            to.push(expr)?;
            Ok(())
        }
        Node::Distribute { exprs, .. } => add_exprs(to, exprs.as_slice()),
        Node::Gather { order, .. } => add_keys(to, order.as_slice()),
        _ => Ok(()),
    }
}

/// The expressions of a node, in the order of the plan's text.
pub fn exprs_of<'a>(alloc: Global, node: &'a Node) -> Result<Vec<&'a Expr>, OutOfMemory>
    ensures { IfOk result (λ es. map lent es.items ≡ spec_node_exprs (node_tree node.now)) }
{
    let mut all = Vec::new(alloc);
    add_node_exprs(&mut all, node)?;
    Ok(all)
}

/// The expressions of a plan's top node; those of a body are none of them.
pub fn node_exprs<'a>(alloc: Global, plan: &'a Plan) -> Result<Vec<&'a Expr>, OutOfMemory>
    ensures { IfOk result
        (λ es. map lent es.items ≡ spec_node_exprs (spec.top (plan_tree plan.now))) }
{
    match plan {
        Plan::Over { node, .. } => exprs_of(alloc, node),
        _ => Ok(Vec::new(alloc)),
    }
}

// The next expression of the queue, in the place of this one; where the queue is empty, this stays.
fn set_expr(expr: &mut Expr, queue: &mut VecDeque<Expr>)
    ensures expr { tree expr.new ≡ first_or (tree expr.old) (map tree queue.old.items) }
    ensures left { map tree queue.new.items ≡ after_first (map tree queue.old.items) }
{
    if let Some(next) = queue.pop_front() {
        mem::replace(expr, next);
    }
}

fn set_maybe(expr: &mut Option<Expr>, queue: &mut VecDeque<Expr>)
    ensures expr { option_map tree expr.new
        ≡ option_over (option_map tree expr.old) (map tree queue.old.items) }
    ensures left { map tree queue.new.items
        ≡ after_option (option_map tree expr.old) (map tree queue.old.items) }
{
    if let Some(expr) = expr {
        set_expr(expr, queue);
    }
}

fn set_list(list: &mut Exprs, queue: &mut VecDeque<Expr>)
    ensures exprs { map tree list.new ≡ each_over (map tree list.old) (map tree queue.old.items) }
    ensures left { map tree queue.new.items
        ≡ after_each (map tree list.old) (map tree queue.old.items) }
{
    let items = list.as_mut_slice();
    for expr in items.iter_mut() {
        set_expr(expr, queue);
    }
}

fn set_keys(keys: &mut Keys, queue: &mut VecDeque<Expr>)
    ensures { map key_part keys.new ≡ keys_over (map key_part keys.old) (map tree queue.old.items) }
{
    let items = keys.as_mut_slice();
    for key in items.iter_mut() {
        set_expr(&mut key.expr, queue);
    }
}

fn set_groups(groups: &mut Lets, queue: &mut VecDeque<Expr>)
    ensures exprs { map let_part groups.new
        ≡ lets_over (map let_part groups.old) (map tree queue.old.items) }
    ensures left { map tree queue.new.items
        ≡ after_each (map (λ l. l.1) (map let_part groups.old)) (map tree queue.old.items) }
{
    let items = groups.as_mut_slice();
    for group in items.iter_mut() {
        set_expr(&mut group.expr, queue);
    }
}

fn set_aggregates(aggregates: &mut Aggregates, queue: &mut VecDeque<Expr>)
    ensures exprs { map aggregate_part aggregates.new
        ≡ aggregates_over (map aggregate_part aggregates.old) (map tree queue.old.items) }
    ensures left { map tree queue.new.items
        ≡ after_each_aggregate (map aggregate_part aggregates.old) (map tree queue.old.items) }
{
    let items = aggregates.as_mut_slice();
    for aggregate in items.iter_mut() {
        set_maybe(&mut aggregate.arg, queue);
    }
}

fn set_into(into: &mut Option<Into>, queue: &mut VecDeque<Expr>)
    ensures { option_map into_part into.new
        ≡ into_over (option_map into_part into.old) (map tree queue.old.items) }
{
    if let Some(into) = into {
        set_maybe(&mut into.what, queue);
    }
}

fn set_end(end: &mut Option<Edge>, queue: &mut VecDeque<Expr>)
    ensures expr { option_map end_tree end.new
        ≡ spec_over_end (option_map end_tree end.old) (map tree queue.old.items) }
    ensures left { map tree queue.new.items
        ≡ after_end (option_map end_tree end.old) (map tree queue.old.items) }
{
    if let Some(end) = end {
        set_expr(&mut end.expr, queue);
    }
}

fn set_last(last: &mut Last, queue: &mut VecDeque<Expr>)
    ensures expr { last_tree last.new
        ≡ spec_over_last (last_tree last.old) (map tree queue.old.items) }
    ensures left { map tree queue.new.items
        ≡ after_last (last_tree last.old) (map tree queue.old.items) }
{
    match last {
        Last::None => {}
        Last::OneOf(list) => set_expr(list, queue),
        Last::Range { low, high } => {
            set_end(low, queue);
            set_end(high, queue);
        }
    }
}

/// Puts other expressions, taken in order, in the places of a node's own. Where they run out, the
/// others stay.
pub fn set_exprs(node: &mut Node, queue: &mut VecDeque<Expr>)
    ensures { node_tree node.new ≡ over_exprs (node_tree node.old) (map tree queue.old.items) }
{
    match node {
        Node::EnumerateCollection { filter, .. } => set_maybe(filter, queue),
        Node::Index {
            filter,
            equal,
            last,
            ..
        } => {
            set_list(equal, queue);
            set_last(last, queue);
            set_maybe(filter, queue)
        }
        Node::EnumerateList { list, .. } => set_expr(list, queue),
        Node::Traversal {
            start,
            prune,
            filter,
            ..
        } => {
            set_expr(start, queue);
            set_maybe(prune, queue);
            set_maybe(filter, queue)
        }
        Node::Calculation { expr, .. } => set_expr(expr, queue),
        Node::Filter { cond } => set_expr(cond, queue),
        Node::Sort { keys, .. } => set_keys(keys, queue),
        Node::Collect {
            groups,
            aggregates,
            into,
            ..
        } => {
            set_groups(groups, queue);
            set_aggregates(aggregates, queue);
            set_into(into, queue)
        }
        Node::Return { expr, .. } => set_expr(expr, queue),
        Node::Distribute { exprs, .. } => set_list(exprs, queue),
        Node::Gather { order } => set_keys(order, queue),
        Node::Limit { .. } | Node::NoResults | Node::Scatter { .. } | Node::Remote => {}
    }
}
