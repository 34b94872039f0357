//! Whether what each node uses is there.

ghost use Rattle.std.specs.Prelude.{◌≡◌, ◌↔◌, IsTrue, IfOk, cond, map, option_map, take};
ghost use Rattle.aql_tree.specs.View.{trees, let_part, aggregate_part, into_part, into_tree};
ghost use Rattle.aql_tree.specs.View.{aggregates as aggregate_trees};
ghost use Rattle.aql_meaning.specs.View.{end_tree, last_tree};
ghost use Rattle.aql_meaning.specs.Visible.{aggregate_vars};
ghost use Rattle.aql_plan.specs.Plan.{top};
ghost use Rattle.aql_plan.specs.Variables.{FindsAll, FindsInside};
ghost use Rattle.aql_plan.specs.View.{node_tree, plan_tree, key_trees};
ghost use Rattle.aql_plan_check.specs.inner.Findings.{AllFind, AggregatesFind, IntoFinds, EndFinds, LastFinds};
ghost use Rattle.aql_plan_check.specs.inner.Findings.{AreAmong, InputFinds, FilterFinds};
ghost use Rattle.aql_rewrite.specs.Nodes.{is_collect as spec_is_collect};
ghost use Rattle.aql_plan_check.specs.inner.Rows.{variables, RowsNumbered, ResultNumbered, BodyNumbered, Finds, Grows};

use crate::found::{all_find, finds, is_there, maybe_finds};
use crate::rows::{Variables, add_sets};
use aql_plan::{Edge, Last, Node, Plan, Stage};
use aql_rewrite::is_collect;
use aql_tree::{AggregateItem, Into, Key, Let};
use aql_value::OutOfMemory;

fn keys_find(keys: &[Key], rows: &Variables) -> bool
    ensures { IsTrue result ↔ AllFind (variables rows.now.keys) (key_trees keys.now) }
{
    for key in keys {
        if !finds(&key.expr, rows) {
            return false;
        }
    }
    true
}

fn groups_find(groups: &[Let], rows: &Variables) -> bool
    ensures { IsTrue result
        ↔ AllFind (variables rows.now.keys) (trees (map (λ l. l.1) (map let_part groups.now))) }
{
    for group in groups {
        if !finds(&group.expr, rows) {
            return false;
        }
    }
    true
}

fn aggregates_find(all: &[AggregateItem], rows: &Variables) -> bool
    ensures { IsTrue result
        ↔ AggregatesFind (variables rows.now.keys) (aggregate_trees (map aggregate_part all.now)) }
{
    for aggregate in all {
        if !maybe_finds(&aggregate.arg, rows) {
            return false;
        }
    }
    true
}

fn into_finds(into: &Option<Into>, rows: &Variables) -> bool
    ensures { IsTrue result
        ↔ IntoFinds (variables rows.now.keys) (into_tree (option_map into_part into.now)) }
{
    match into {
        Some(into) => maybe_finds(&into.what, rows),
        None => true,
    }
}

fn collect_finds(
    groups: &[Let],
    all: &[AggregateItem],
    into: &Option<Into>,
    rows: &Variables,
) -> bool
    ensures { IsTrue result
        ↔ (AllFind (variables rows.now.keys) (trees (map (λ l. l.1) (map let_part groups.now)))
        × AggregatesFind (variables rows.now.keys) (aggregate_trees (map aggregate_part all.now))
        × IntoFinds (variables rows.now.keys) (into_tree (option_map into_part into.now))) }
{
    groups_find(groups, rows) && aggregates_find(all, rows) && into_finds(into, rows)
}

fn groups_there(groups: &[Let], rows: &Variables) -> bool
    ensures { IsTrue result
        ↔ AreAmong (variables rows.now.keys) (map (λ l. l.0) (map let_part groups.now)) }
{
    for group in groups {
        if !is_there(&group.var, rows) {
            return false;
        }
    }
    true
}

fn aggregates_there(all: &[AggregateItem], rows: &Variables) -> bool
    ensures { IsTrue result ↔ AreAmong (variables rows.now.keys)
        (aggregate_vars (aggregate_trees (map aggregate_part all.now))) }
{
    for aggregate in all {
        if !is_there(&aggregate.var, rows) {
            return false;
        }
    }
    true
}

fn end_finds(end: &Option<Edge>, rows: &Variables) -> bool
    ensures { IsTrue result ↔ EndFinds (variables rows.now.keys) (option_map end_tree end.now) }
{
    match end {
        Some(end) => finds(&end.expr, rows),
        None => true,
    }
}

fn last_finds(last: &Last, rows: &Variables) -> bool
    ensures { IsTrue result ↔ LastFinds (variables rows.now.keys) (last_tree last.now) }
{
    match last {
        Last::None => true,
        Last::OneOf(list) => finds(list, rows),
        Last::Range { low, high } => end_finds(low, rows) && end_finds(high, rows),
    }
}

fn node_input_finds(node: &Node, rows: &Variables) -> bool
    ensures { IsTrue result ↔ InputFinds (variables rows.now.keys) (node_tree node.now) }
{
    match node {
        Node::Index { equal, last, .. } => {
            all_find(equal.as_slice(), rows) && last_finds(last, rows)
        }
        Node::EnumerateList { list, .. } => finds(list, rows),
        Node::Traversal { start, .. } => finds(start, rows),
        Node::Calculation { expr, .. } => finds(expr, rows),
        Node::Filter { cond, .. } => finds(cond, rows),
        Node::Sort { keys, .. } => keys_find(keys.as_slice(), rows),
        Node::Collect {
            groups,
            aggregates,
            into,
            stage,
            ..
        } => match stage {
            Stage::Final => {
                groups_there(groups.as_slice(), rows)
                    && aggregates_there(aggregates.as_slice(), rows)
            }
            Stage::Whole => collect_finds(groups.as_slice(), aggregates.as_slice(), into, rows),
            Stage::Partial => collect_finds(groups.as_slice(), aggregates.as_slice(), into, rows),
        },
        Node::Return { expr, .. } => finds(expr, rows),
        Node::Distribute { exprs, .. } => all_find(exprs.as_slice(), rows),
        Node::Gather { order, .. } => keys_find(order.as_slice(), rows),
        _ => true,
    }
}

fn input_finds(plan: &Plan, rows: &Variables) -> bool
    ensures { IsTrue result
        ↔ InputFinds (variables rows.now.keys) (top (plan_tree plan.now)) }
{
    match plan {
        Plan::Over { node, .. } => node_input_finds(node, rows),
        _ => true,
    }
}

fn node_filter_finds(node: &Node, rows: &Variables) -> bool
    ensures { IsTrue result ↔ FilterFinds (variables rows.now.keys) (node_tree node.now) }
{
    match node {
        Node::EnumerateCollection { filter, .. } => maybe_finds(filter, rows),
        Node::Index { filter, .. } => maybe_finds(filter, rows),
        Node::Traversal { prune, filter, .. } => {
            maybe_finds(prune, rows) && maybe_finds(filter, rows)
        }
        _ => true,
    }
}

fn filter_finds(plan: &Plan, rows: &Variables) -> bool
    ensures { IsTrue result
        ↔ FilterFinds (variables rows.now.keys) (top (plan_tree plan.now)) }
{
    match plan {
        Plan::Over { node, .. } => node_filter_finds(node, rows),
        _ => true,
    }
}

// The rows of a Collect have the first variables alone, and its own.
fn start_again(plan: &Plan, rows: &mut Variables, start: usize)
    ensures { rows.new.keys ≡ cond (spec_is_collect (top (plan_tree plan.now)))
        (take start rows.old.keys) rows.old.keys }
{
    if is_collect(plan) {
        rows.truncate(start);
    }
}

// Whether each variable that is used is there, where `rows` are those of the start row; after it
// they are those of the plan's rows.
#[cycle(finding)]
fn rows_find(plan: &Plan, rows: &mut Variables) -> Result<bool, OutOfMemory>
    requires { RowsNumbered (plan_tree plan.now) }
    ensures { IfOk result (λ found. Finds rows.old.keys (plan_tree plan.now) rows.new.keys found) }
{
    let start = rows.len();
    let Some(below) = plan.below() else {
        return Ok(true);
    };
    if !rows_find(below, rows)? {
        return Ok(false);
    }
    if !input_finds(plan, rows) {
        return Ok(false);
    }
    if !body_finds(plan, rows)? {
        return Ok(false);
    }
    start_again(plan, rows, start);
    add_sets(rows, plan)?;
    Ok(filter_finds(plan, rows))
}

#[cycle(finding)]
fn body_finds(plan: &Plan, rows: &mut Variables) -> Result<bool, OutOfMemory>
    requires { BodyNumbered (top (plan_tree plan.now)) }
    ensures found { IfOk result (λ found. IsTrue found
        ↔ FindsInside (variables rows.old.keys) (top (plan_tree plan.now))) }
    ensures rows { IfOk result (λ found. IsTrue found → rows.new.keys ≡ rows.old.keys) }
{
    match plan {
        Plan::Subquery { body, .. } => {
            let start = rows.len();
            let found = result_finds(body, rows)?;
            rows.truncate(start);
            Ok(found)
        }
        _ => Ok(true),
    }
}

/// The same for a plan with a result.
#[cycle(finding)]
pub(crate) fn result_finds(plan: &Plan, rows: &mut Variables) -> Result<bool, OutOfMemory>
    requires { ResultNumbered (plan_tree plan.now) }
    ensures found { IfOk result (λ found. IsTrue found
        ↔ FindsAll (variables rows.old.keys) (plan_tree plan.now)) }
    ensures rows { IfOk result (λ found. IsTrue found → Grows rows.old.keys rows.new.keys) }
{
    match plan.below() {
        None => Ok(false),
        Some(below) => Ok(rows_find(below, rows)? && input_finds(plan, rows)),
    }
}
