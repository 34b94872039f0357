//! Filters, and nodes with a filter of their own.

ghost use Rattle.std.specs.Prelude.{◌≡◌, Some, None, OnOk, MatchOption, is_some, option_map};
ghost use Rattle.aql_tree.specs.declared.syntax.Ident.TheVariants.{Num};
ghost use Rattle.aql_tree.specs.View.{tree, maybe};
ghost use Rattle.aql_plan.specs.Plan as spec;
ghost use Rattle.aql_plan.specs.Plan.{top};
ghost use Rattle.aql_plan.specs.View.{node_tree, plan_tree};
ghost use Rattle.aql_rules_filter.specs.Readers.{cond_in, filter_in, narrowed, plan_narrowed, pushed};
ghost use Rattle.aql_rules_filter.specs.Readers.{emptied, plan_emptied, keeps_all as spec_keeps_all};
ghost use Rattle.aql_rules_filter.specs.Readers.{open_path as spec_open_path, traversal_in};
ghost use Rattle.aql_rules_filter.specs.Readers.{without_edge, without_path};
ghost use Rattle.aql_rules_filter.specs.Readers.{plan_without_edge, plan_without_path};

use crate::conditions::{append_items, append_to_filter};
use aql_plan::{Node, Plan};
use aql_tree::Expr;
use aql_value::OutOfMemory;
use std::alloc::Global;
use std::mem;

fn cond_of(node: &Node) -> Option<&Expr>
    ensures { option_map (λ c. tree c.now) result ≡ cond_in (node_tree node.now) }
{
    match node {
        Node::Filter { cond } => Some(cond),
        _ => None,
    }
}

/// The input and the condition of a Filter; `None` exactly at every other node.
pub fn filter_of(plan: &Plan) -> Option<(&Plan, &Expr)>
    ensures { MatchOption result (filter_in (plan_tree plan.now) ≡ None)
        (λ f. plan_tree plan.now ≡ spec.Over (plan_tree f.0.now) (spec.Filter (tree f.1.now))) }
{
    match plan {
        Plan::Over { below, node } => match cond_of(node) {
            Some(cond) => Some((below, cond)),
            None => None,
        },
        _ => None,
    }
}

/// Whether the top node of a plan is a Filter.
pub(crate) fn is_filter(plan: &Plan) -> bool
    ensures { result ≡ is_some (filter_in (plan_tree plan.now)) }
{
    match filter_of(plan) {
        Some(_) => true,
        None => false,
    }
}

// Takes the condition out of a Filter; `None` exactly at every other node, which stays as it is.
fn take_cond(node: &mut Node) -> Option<Expr>
    ensures taken { option_map tree result ≡ cond_in (node_tree node.old) }
    ensures stays { cond_in (node_tree node.old) ≡ None
        → node_tree node.new ≡ node_tree node.old }
{
    match node {
        Node::Filter { cond } => Some(mem::replace(cond, Expr::Current)),
        _ => None,
    }
}

/// Takes a Filter from the top of a plan, of which its input is left, and gives its condition;
/// `None` exactly where there is none, and then the plan stays as it is.
pub fn take_filter(plan: &mut Plan) -> Option<Expr>
    ensures { MatchOption result ((filter_in (plan_tree plan.old) ≡ None)
        × (plan_tree plan.new ≡ plan_tree plan.old))
        (λ c. plan_tree plan.old ≡ spec.Over (plan_tree plan.new) (spec.Filter (tree c))) }
{
    match plan {
        Plan::Over { below, node } => match take_cond(&mut **node) {
            Some(cond) => {
                *plan = mem::replace(&mut **below, Plan::Singleton);
                Some(cond)
            }
            None => None,
        },
        _ => None,
    }
}

// Adds a condition to what a node tests; a Traversal tests it alone. Another node stays as it is.
fn narrow_node(alloc: Global, node: &mut Node, cond: &mut Expr) -> Result<(), OutOfMemory>
    ensures { OnOk result (node_tree node.new ≡ narrowed (node_tree node.old) (tree cond.old)) }
{
    match node {
        Node::Filter { cond: own } => append_items(alloc, own, cond),
        Node::EnumerateCollection { filter, .. } => append_to_filter(alloc, filter, cond),
        Node::Index { filter, .. } => append_to_filter(alloc, filter, cond),
        Node::Traversal { filter, .. } => {
            *filter = Some(mem::replace(cond, Expr::Current));
            Ok(())
        }
        _ => Ok(()),
    }
}

fn narrow(alloc: Global, plan: &mut Plan, cond: &mut Expr) -> Result<(), OutOfMemory>
    ensures { OnOk result
        (plan_tree plan.new ≡ plan_narrowed (plan_tree plan.old) (tree cond.old)) }
{
    match plan {
        Plan::Over { node, .. } => narrow_node(alloc, &mut **node, cond),
        _ => Ok(()),
    }
}

/// A Filter at the top of a plan goes into the node below it.
pub(crate) fn push_filter(alloc: Global, plan: &mut Plan) -> Result<(), OutOfMemory>
    ensures { OnOk result (plan_tree plan.new ≡ pushed (plan_tree plan.old)) }
{
    match take_filter(plan) {
        Some(cond) => {
            let mut cond = cond;
            narrow(alloc, plan, &mut cond)
        }
        None => Ok(()),
    }
}

fn empty_node(node: &mut Node)
    ensures { node_tree node.new ≡ emptied (node_tree node.old) }
{
    if let Node::Filter { cond: _ } = node {
        *node = Node::NoResults;
    }
}

/// A Filter at the top of a plan becomes NoResults.
pub(crate) fn empty_filter(plan: &mut Plan)
    ensures { plan_tree plan.new ≡ plan_emptied (plan_tree plan.old) }
{
    if let Plan::Over { node, .. } = plan {
        empty_node(&mut **node);
    }
}

fn node_keeps_all(node: &Node) -> bool
    ensures { result ≡ spec_keeps_all (node_tree node.now) }
{
    match node {
        Node::EnumerateCollection { attrs: None, .. } => true,
        Node::Index { attrs: None, .. } => true,
        _ => false,
    }
}

/// Whether the top node of a plan is an EnumerateCollection or an Index that keeps all attributes.
pub(crate) fn keeps_all(plan: &Plan) -> bool
    ensures { result ≡ spec_keeps_all (top (plan_tree plan.now)) }
{
    match plan {
        Plan::Over { node, .. } => node_keeps_all(node),
        _ => false,
    }
}

fn node_open_path(node: &Node) -> Option<Option<u32>>
    ensures { option_map (λ path. option_map (λ x. Num x) path) result
        ≡ spec_open_path (node_tree node.now) }
{
    match node {
        Node::Traversal {
            path,
            filter: None,
            ..
        } => Some(*path),
        _ => None,
    }
}

/// The variable of the paths of a Traversal without a filter; `None` exactly where the top node is
/// none.
pub(crate) fn open_path(plan: &Plan) -> Option<Option<u32>>
    ensures { option_map (λ path. option_map (λ x. Num x) path) result
        ≡ spec_open_path (top (plan_tree plan.now)) }
{
    match plan {
        Plan::Over { node, .. } => node_open_path(node),
        _ => None,
    }
}

fn node_traversal(node: &Node) -> Option<(Option<u32>, Option<u32>, &Option<Expr>, &Option<Expr>)>
    ensures { MatchOption result (traversal_in (node_tree node.now) ≡ None)
        (λ t. traversal_in (node_tree node.now) ≡ Some (
          option_map (λ x. Num x) t.0,
          option_map (λ x. Num x) t.1,
          maybe (option_map tree t.2.now),
          maybe (option_map tree t.3.now),
        )) }
{
    match node {
        Node::Traversal {
            edge,
            path,
            prune,
            filter,
            ..
        } => Some((*edge, *path, prune, filter)),
        _ => None,
    }
}

/// The variables of edges and paths of a Traversal, its PRUNE and its filter; `None` exactly where
/// the top node is none.
pub(crate) fn traversal_of(
    plan: &Plan,
) -> Option<(Option<u32>, Option<u32>, &Option<Expr>, &Option<Expr>)>
    ensures { MatchOption result (traversal_in (top (plan_tree plan.now)) ≡ None)
        (λ t. traversal_in (top (plan_tree plan.now)) ≡ Some (
          option_map (λ x. Num x) t.0,
          option_map (λ x. Num x) t.1,
          maybe (option_map tree t.2.now),
          maybe (option_map tree t.3.now),
        )) }
{
    match plan {
        Plan::Over { node, .. } => node_traversal(node),
        _ => None,
    }
}

fn clear_edge(node: &mut Node)
    ensures { node_tree node.new ≡ without_edge (node_tree node.old) }
{
    if let Node::Traversal { edge, .. } = node {
        *edge = None;
    }
}

/// Takes the variable of the edges from a Traversal.
pub(crate) fn remove_edge(plan: &mut Plan)
    ensures { plan_tree plan.new ≡ plan_without_edge (plan_tree plan.old) }
{
    if let Plan::Over { node, .. } = plan {
        clear_edge(&mut **node);
    }
}

fn clear_path(node: &mut Node)
    ensures { node_tree node.new ≡ without_path (node_tree node.old) }
{
    if let Node::Traversal { path, .. } = node {
        *path = None;
    }
}

/// Takes the variable of the paths from a Traversal.
pub(crate) fn remove_path(plan: &mut Plan)
    ensures { plan_tree plan.new ≡ plan_without_path (plan_tree plan.old) }
{
    if let Plan::Over { node, .. } = plan {
        clear_path(&mut **node);
    }
}
