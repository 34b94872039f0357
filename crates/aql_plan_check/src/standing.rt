//! What a node makes of the part that it stands over.

ghost use Rattle.std.specs.Prelude.{◌≡◌, ◌↔◌, IsTrue, false, MatchOption, map, option_map};
ghost use Rattle.aql_tree.specs.View.{trees, let_part, aggregate_part, aggregates as aggregate_trees, into_part, into_tree};
ghost use Rattle.aql_meaning.specs.Plain.{AllPlain};
ghost use Rattle.aql_plan.specs.declared.facts.Facts.{Facts};
ghost use Rattle.aql_plan.specs.Fits.{AllKnown, Fits};
ghost use Rattle.aql_plan.specs.Plan.{top};
ghost use Rattle.aql_plan.specs.Shapes.{Rows, Foot, Sent, IsSent};
ghost use Rattle.aql_plan.specs.View.{node_tree, plan_tree, directions, key_trees};
ghost use Rattle.aql_plan_laws.specs.laws.ShapeOnce.{is_one, reading_over, ordering_over, filter_over, gather_over};
ghost use Rattle.aql_plan_check.specs.inner.Standing.{IsRows, HasRows, MayRead, MayReadInOrder, MayGather, MayStand, next};
ghost use Rattle.aql_plan_check.specs.inner.Sameness.{LetsSame, AggregatesSame};
ghost use Rattle.aql_plan_check.specs.inner.View.{all_states_of, collect_of, order_of, shape_of};

use crate::collections::attributes_of;
use crate::equality::{orders_by, same_aggregates, same_lets};
use crate::shapes::{Order, Shape, States};
use aql_plan::{Facts, Node, Plan, Stage};
use aql_tree::{Into, Key};
use aql_value::CollNo;

fn over_rows<'a>(below: Shape<'a>, then: Shape<'a>) -> Option<Shape<'a>>
    ensures { MatchOption result (IsRows (shape_of below.entry) → ⊥)
        (λ s. IsRows (shape_of below.entry) × (shape_of s ≡ shape_of then.entry)) }
{
    match below {
        Shape::Rows(_) => Some(then),
        _ => None,
    }
}

fn over_same<'a>(below: Shape<'a>) -> Option<Shape<'a>>
    ensures { MatchOption result (HasRows (shape_of below.entry) → ⊥)
        (λ s. HasRows (shape_of below.entry) × (shape_of s ≡ shape_of below.entry)) }
{
    match below {
        Shape::Rows(_) | Shape::Fragment(_) => Some(below),
        _ => None,
    }
}

fn over_filtered<'a>(below: Shape<'a>) -> Option<Shape<'a>>
    ensures { MatchOption result (HasRows (shape_of below.entry) → ⊥)
        (λ s. HasRows (shape_of below.entry) × (shape_of s ≡ filter_over (shape_of below.entry))) }
{
    match below {
        Shape::Rows(_) => Some(Shape::Rows(false)),
        Shape::Fragment(order) => Some(Shape::Fragment(order)),
        _ => None,
    }
}

fn over_sorted<'a>(order: Order<'a>, below: Shape<'a>) -> Option<Shape<'a>>
    ensures { MatchOption result (HasRows (shape_of below.entry) → ⊥)
        (λ s. HasRows (shape_of below.entry)
        × (shape_of s ≡ ordering_over (order_of order.entry) (shape_of below.entry))) }
{
    match below {
        Shape::Rows(_) => Some(Shape::Rows(false)),
        Shape::Fragment(_) => Some(Shape::Fragment(order)),
        _ => None,
    }
}

fn over_read<'a>(coll: CollNo, shard: Option<u32>, below: Shape<'a>) -> Option<Shape<'a>>
    ensures { MatchOption result (MayRead coll.0 shard (shape_of below.entry) → ⊥)
        (λ s. MayRead coll.0 shard (shape_of below.entry)
        × (shape_of s ≡ reading_over (shape_of below.entry))) }
{
    match (below, shard) {
        (Shape::Rows(_), None) => Some(Shape::Rows(false)),
        (Shape::SentFoot(foot, _), None) => if foot.0 == coll.0 {
            Some(Shape::Fragment(Order::Unordered))
        } else {
            None
        },
        (Shape::Fragment(_), Some(_)) => Some(Shape::Fragment(Order::Unordered)),
        _ => None,
    }
}

fn over_read_in_order<'a>(
    coll: CollNo,
    shard: Option<u32>,
    order: Order<'a>,
    below: Shape<'a>,
) -> Option<Shape<'a>>
    ensures { MatchOption result (MayReadInOrder coll.0 shard (shape_of below.entry) → ⊥)
        (λ s. MayReadInOrder coll.0 shard (shape_of below.entry)
        × (shape_of s ≡ ordering_over (order_of order.entry) (shape_of below.entry))) }
{
    match (below, shard) {
        (Shape::Rows(true), None) => Some(Shape::Rows(false)),
        (Shape::SentFoot(foot, true), None) => if foot.0 == coll.0 {
            Some(Shape::Fragment(order))
        } else {
            None
        },
        _ => None,
    }
}

fn over_foot<'a>(coll: CollNo, below: Shape<'a>) -> Option<Shape<'a>>
    ensures { MatchOption result (IsRows (shape_of below.entry) → ⊥)
        (λ s. IsRows (shape_of below.entry)
        × (shape_of s ≡ Foot coll.0 (is_one (shape_of below.entry)))) }
{
    match below {
        Shape::Rows(one) => Some(Shape::Foot(coll, one)),
        _ => None,
    }
}

fn over_link<'a>(below: Shape<'a>) -> Option<Shape<'a>>
    ensures { MatchOption result (IsSent (shape_of below.entry) → ⊥)
        (λ s. IsSent (shape_of below.entry) × (shape_of s ≡ Sent (shape_of below.entry))) }
{
    match below {
        Shape::Foot(coll, one) => Some(Shape::SentFoot(coll, one)),
        Shape::Fragment(order) => Some(Shape::SentFragment(order)),
        Shape::States(states) => Some(Shape::SentStates(states)),
        _ => None,
    }
}

fn over_gathered<'a>(keys: &[Key], below: Shape<'a>) -> Option<Shape<'a>>
    requires { AllPlain (key_trees keys.now) }
    ensures { MatchOption result
        (MayGather (directions keys.now) (key_trees keys.now) (shape_of below.entry) → ⊥)
        (λ s. MayGather (directions keys.now) (key_trees keys.now) (shape_of below.entry)
        × (shape_of s ≡ gather_over (shape_of below.entry))) }
{
    match below {
        Shape::SentFragment(order) => if keys.is_empty() || orders_by(order, keys) {
            Some(Shape::Rows(false))
        } else {
            None
        },
        Shape::SentStates(states) => if keys.is_empty() {
            Some(Shape::AllStates(states))
        } else {
            None
        },
        _ => None,
    }
}

// Whether these are states of the same, without a subquery.
fn same_states(a: States<'_>, b: States<'_>) -> bool
    ensures { IsTrue result
        ↔ (LetsSame (map let_part a.entry.groups.now) (map let_part b.entry.groups.now)
        × AggregatesSame (map aggregate_part a.entry.aggregates.now)
        (map aggregate_part b.entry.aggregates.now)) }
{
    same_lets(a.groups, b.groups) && same_aggregates(a.aggregates, b.aggregates)
}

fn over_all_states<'a>(states: States<'a>, all: States<'a>) -> Option<Shape<'a>>
    requires plain { AllPlain (trees (map (λ l. l.1) (map let_part states.groups.now))) }
    requires known { AllKnown (aggregate_trees (map aggregate_part states.aggregates.now)) }
    ensures { MatchOption result (all_states_of all.entry ≡ all_states_of states.entry → ⊥)
        (λ s. (all_states_of all.entry ≡ all_states_of states.entry) × (shape_of s ≡ Rows false)) }
{
    if same_states(states, all) {
        Some(Shape::Rows(false))
    } else {
        None
    }
}

fn over_collected<'a>(
    states: States<'a>,
    into: &Option<Into>,
    stage: Stage,
    below: Shape<'a>,
) -> Option<Shape<'a>>
    requires plain { AllPlain (trees (map (λ l. l.1) (map let_part states.groups.now))) }
    requires known { AllKnown (aggregate_trees (map aggregate_part states.aggregates.now)) }
    ensures { let n = collect_of states.entry.groups.now states.entry.aggregates.now
        (into_tree (option_map into_part into.now)) stage in
        MatchOption result (MayStand n (shape_of below.entry) → ⊥)
        (λ s. MayStand n (shape_of below.entry)
        × ((facts : Facts) → shape_of s ≡ next facts n (shape_of below.entry))) }
{
    match (stage, below) {
        (Stage::Whole, Shape::Rows(_)) => Some(Shape::Rows(false)),
        (Stage::Partial, Shape::Fragment(_)) => if into.is_none() {
            Some(Shape::States(states))
        } else {
            None
        },
        (Stage::Final, Shape::AllStates(all)) => if into.is_none() {
            over_all_states(states, all)
        } else {
            None
        },
        _ => None,
    }
}

fn node_shape_over<'a>(node: &'a Node, facts: &'a Facts, below: Shape<'a>) -> Option<Shape<'a>>
    requires { Fits facts.now (node_tree node.now) }
    ensures { MatchOption result (MayStand (node_tree node.now) (shape_of below.entry) → ⊥)
        (λ s. MayStand (node_tree node.now) (shape_of below.entry)
        × (shape_of s ≡ next facts.now (node_tree node.now) (shape_of below.entry))) }
{
    match node {
        Node::EnumerateCollection { coll, shard, .. } => over_read(*coll, *shard, below),
        Node::Index {
            var,
            coll,
            shard,
            index,
            ordered,
            ..
        } => match ordered {
            None => over_read(*coll, *shard, below),
            Some(descending) => {
                let order = Order::Attributes {
                    var: *var,
                    names: attributes_of(facts, *coll, *index),
                    descending: *descending,
                };
                over_read_in_order(*coll, *shard, order, below)
            }
        },
        Node::Calculation { .. } => over_same(below),
        Node::Filter { .. } => over_filtered(below),
        Node::Sort { keys, .. } => over_sorted(Order::Keys(keys.as_slice()), below),
        Node::Collect {
            groups,
            aggregates,
            into,
            stage,
            ..
        } => {
            let states = States {
                groups: groups.as_slice(),
                aggregates: aggregates.as_slice(),
            };
            over_collected(states, into, *stage, below)
        }
        Node::Return { .. } => over_rows(below, Shape::Result),
        Node::Scatter { coll, .. } => over_foot(*coll, below),
        Node::Distribute { coll, .. } => over_foot(*coll, below),
        Node::Remote => over_link(below),
        Node::Gather { order, .. } => over_gathered(order.as_slice(), below),
        Node::EnumerateList { .. } => over_rows(below, Shape::Rows(false)),
        Node::Traversal { .. } => over_rows(below, Shape::Rows(false)),
        Node::Limit { .. } => over_rows(below, Shape::Rows(false)),
        Node::NoResults => over_rows(below, Shape::Rows(false)),
    }
}

/// The shape of the node at the top of a plan over a part of this shape; `None` exactly where it
/// may not stand there.
pub(crate) fn shape_over<'a>(
    plan: &'a Plan,
    facts: &'a Facts,
    below: Shape<'a>,
) -> Option<Shape<'a>>
    requires { Fits facts.now (top (plan_tree plan.now)) }
    ensures { MatchOption result (MayStand (top (plan_tree plan.now)) (shape_of below.entry) → ⊥)
        (λ s. MayStand (top (plan_tree plan.now)) (shape_of below.entry)
        × (shape_of s ≡ next facts.now (top (plan_tree plan.now)) (shape_of below.entry))) }
{
    match plan {
        Plan::Singleton => over_rows(below, Shape::Rows(false)),
        Plan::Over { node, .. } => node_shape_over(node, facts, below),
        Plan::Subquery { .. } => over_rows(below, below),
    }
}
