//! How many rows a plan gives, and what they cost, as far as can be told before it runs.

ghost use Rattle.std.specs.Prelude.{◌≡◌, ◌≤◌, ◌+◌, ◌-◌, ◌*◌, option_map};
ghost use Rattle.std.specs.Int.{div_ceil};
ghost use Rattle.aql_tree.specs.Tree.{range_of};
ghost use Rattle.aql_tree.specs.View.{tree, maybe};
ghost use Rattle.aql_plan.specs.View.{node_tree, plan_tree};
ghost use Rattle.aql_index.specs.Guess.{times};
ghost use Rattle.aql_opt.specs.Estimate.{binary_digits, range_size, elements_in, filtered, at_most};
ghost use Rattle.aql_opt.specs.Estimate.{shards_reached, gives, estimate, node_estimate};

use aql_index::{documents_in, guess, literal_elements};
use aql_plan::{Facts, Node, Plan};
use aql_tree::Expr;
use aql_value::{CollNo, Value};

/// How many rows a plan gives, and what they cost, in documents and rows that are touched.
#[derive(Clone, Copy, Debug, PartialEq, Eq)]
pub struct Cost {
    pub rows: u64,
    pub cost: u64,
}

fn half(n: u64) -> u64
    ensures { result ≡ div_ceil n 2 }
{
    n.div_ceil(2)
}

#[tactic(auto, using(crate::proofs::Digits::digits_of_none, crate::proofs::Digits::digits_are))]
fn binary_digits(n: u64) -> u64
    ensures value { result ≡ binary_digits n }
    ensures bound { result ≤ 64 }
{
    if n == 0 { 0 } else { u64::from(n.ilog2()) + 1 }
}

fn shards(coll: CollNo, only: Option<u32>, facts: &Facts) -> u64
    ensures { result ≡ shards_reached facts.now coll.0 only }
{
    match only {
        Some(_) => 1,
        None => match facts.collections.get(coll.0 as usize) {
            Some(collection) => u64::from(collection.shards),
            None => 1,
        },
    }
}

fn range_size(low: i64, high: i64) -> u64
    ensures { result ≡ range_size low high }
{
    let size = high.abs_diff(low);
    if size < 1_000_000 { size + 1 } else { 0 }
}

// The elements of an array literal, or of a range of two numbers; else the number given.
fn elements(expr: &Expr, other: u64) -> u64
    ensures { result ≡ elements_in other (tree expr.now) }
{
    match expr {
        Expr::Range { low, high } => range_elements(low, high, other),
        _ => literal_elements(expr, other),
    }
}

fn range_elements(low: &Expr, high: &Expr, other: u64) -> u64
    ensures { result ≡ elements_in other (range_of (tree low.now) (tree high.now)) }
{
    match low {
        Expr::Lit(Value::Num(low)) => match high {
            Expr::Lit(Value::Num(high)) => range_size(*low, *high),
            _ => other,
        },
        _ => other,
    }
}

// So many rows, which cost so much beside the input.
fn cost_after(input: Cost, rows: u64, more: u64) -> Cost
    ensures { result ≡ gives input rows more }
{
    Cost {
        rows,
        cost: input.cost.saturating_add(more),
    }
}

fn rows_after_filter(filter: &Option<Expr>, rows: u64) -> u64
    ensures { result ≡ filtered (maybe (option_map tree filter.now)) rows }
{
    match filter {
        Some(_) => half(rows),
        None => rows,
    }
}

fn traversal_estimate(input: Cost, min: u32, max: u32) -> Cost
    ensures { result ≡ gives input (times input.rows (10 * (max - min + 1)))
        (times input.rows (10 * (max + 1))) }
{
    let depths = u64::from(max.saturating_sub(min)) + 1;
    let rows = input.rows.saturating_mul(10 * depths);
    cost_after(
        input,
        rows,
        input.rows.saturating_mul(10 * (u64::from(max) + 1)),
    )
}

fn sort_estimate(input: Cost, limit: Option<u64>) -> Cost
    ensures { result ≡ gives input (at_most limit input.rows)
        (times input.rows (1 + binary_digits input.rows)) }
{
    let rows = match limit {
        Some(limit) => input.rows.min(limit),
        None => input.rows,
    };
    cost_after(
        input,
        rows,
        input.rows.saturating_mul(1 + binary_digits(input.rows)),
    )
}

fn node_estimate(node: &Node, input: Cost, facts: &Facts) -> Cost
    ensures { result ≡ node_estimate facts.now (node_tree node.now) input }
{
    let rows = input.rows;
    match node {
        Node::EnumerateCollection { coll, filter, .. } => {
            let read = rows.saturating_mul(documents_in(*coll, facts));
            cost_after(input, rows_after_filter(filter, read), read)
        }
        Node::Index {
            coll,
            filter,
            index,
            equal,
            last,
            ..
        } => {
            let found = guess(*coll, *index, equal.as_slice(), last, facts);
            let read = rows.saturating_mul(found);
            let more = rows.saturating_mul(found.saturating_add(1));
            cost_after(input, rows_after_filter(filter, read), more)
        }
        Node::EnumerateList { list, .. } => {
            let read = rows.saturating_mul(elements(list, 100));
            cost_after(input, read, read)
        }
        Node::Traversal { min, max, .. } => traversal_estimate(input, *min, *max),
        Node::Filter { .. } => cost_after(input, half(rows), rows),
        Node::Sort { limit, .. } => sort_estimate(input, *limit),
        Node::Limit { offset, count, .. } => {
            let kept = rows.saturating_sub(*offset).min(*count);
            cost_after(input, kept, kept)
        }
        Node::Collect { groups, .. } => {
            let classes = if groups.len() == 0 { 1 } else { half(rows) };
            cost_after(input, classes, rows)
        }
        Node::NoResults => Cost { rows: 0, cost: 1 },
        Node::Scatter { coll, only, .. } => {
            cost_after(
                input,
                rows,
                rows.saturating_mul(shards(*coll, *only, facts)),
            )
        }
        _ => cost_after(input, rows, rows),
    }
}

// A Subquery, whose body runs once for each row.
fn subquery_estimate(input: Cost, body: Cost) -> Cost
    ensures { result ≡ gives input input.rows (times input.rows body.cost) }
{
    cost_after(input, input.rows, input.rows.saturating_mul(body.cost))
}

/// The estimate of a plan: a line for each node in `specs/Estimate.antt`. Sums and products end at
/// the greatest number, and halves are rounded up.
pub fn estimate(plan: &Plan, facts: &Facts) -> Cost
    ensures { result ≡ estimate facts.now (plan_tree plan.now) }
{
    match plan {
        Plan::Singleton => Cost { rows: 1, cost: 1 },
        Plan::Over { below, node } => node_estimate(node, estimate(below, facts), facts),
        Plan::Subquery { below, body, .. } => {
            subquery_estimate(estimate(below, facts), estimate(body, facts))
        }
    }
}
