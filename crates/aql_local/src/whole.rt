//! Scans of which only what is kept of their documents is looked at, up to a node that hands on no
//! row: the documents need not be cut.

ghost use Rattle.std.specs.Prelude.{◌≡◌, Some, None, option_map, unwrap_or, MatchOption, IfOk};
ghost use Rattle.std.specs.List.{list_all};
ghost use Rattle.aql_tree.specs.declared.syntax.Ident.TheVariants.{Num};
ghost use Rattle.aql_meaning.specs.Row.{same_ident};
ghost use Rattle.aql_plan.specs.Plan.{top};
ghost use Rattle.aql_plan.specs.Used.{use_tree, uses_tree};
ghost use Rattle.aql_plan.specs.View.{node_tree, plan_tree};
ghost use Rattle.aql_engine.specs.OperatorsOf.{is_kept, is_covered, last_looks};
ghost use Rattle.aql_local.specs.inner.Whole as spec;
ghost use Rattle.aql_local.specs.inner.Whole.{below_looks};

use aql_plan::{Node, Plan, Use, Uses, add_own_uses};
use aql_tree::Ident;
use aql_value::{Names, OutOfMemory, Text};
use std::alloc::Global;

fn is_number(var: u32, ident: &Ident) -> bool
    ensures { result ≡ same_ident (Num var) ident.now }
{
    match ident {
        Ident::Num(n) => var == *n,
        Ident::Name(_) => false,
    }
}

fn is_kept(names: &Names, name: &Text) -> bool
    ensures { result ≡ is_kept (Some names.now) name.now }
{
    let name = name.as_str();
    names.as_slice().iter().any(|other| name == other.as_str())
}

fn is_covered(var: u32, names: &Names, used: &Use) -> bool
    ensures { result ≡ is_covered (Num var) (Some names.now) (use_tree used.now) }
{
    match used {
        Use::Whole(own) => !is_number(var, own),
        Use::Attribute(own, name) => !is_number(var, own) || is_kept(names, name),
    }
}

fn are_covered(var: u32, names: &Names, uses: &[Use]) -> bool
    ensures { result ≡ list_all (is_covered (Num var) (Some names.now)) (uses_tree uses.now) }
{
    match uses.split_first() {
        None => true,
        Some((first, rest)) => is_covered(var, names, first) && are_covered(var, names, rest),
    }
}

fn node_is_last(node: &Node) -> bool
    ensures { result ≡ spec.is_last (node_tree node.now) }
{
    matches!(node, Node::Collect { .. } | Node::Return { .. })
}

fn is_last(plan: &Plan) -> bool
    ensures { result ≡ spec.is_last (top (plan_tree plan.now)) }
{
    match plan {
        Plan::Over { node, .. } => node_is_last(node),
        _ => false,
    }
}

// What the top node of a plan looks at of rows that it does not hand on; `None` exactly where it
// hands them on.
fn last_looks(alloc: Global, plan: &Plan) -> Result<Option<Uses>, OutOfMemory>
    ensures { IfOk result (λ looks. option_map (λ us. uses_tree us) looks
        ≡ last_looks (top (plan_tree plan.now))) }
{
    if !is_last(plan) {
        return Ok(None);
    }
    let mut uses = Uses::new(alloc);
    add_own_uses(plan, alloc, &mut uses)?;
    Ok(Some(uses))
}

fn node_is_passing(node: &Node) -> bool
    ensures { result ≡ spec.is_passing (node_tree node.now) }
{
    matches!(
        node,
        Node::Calculation { .. } | Node::Filter { .. } | Node::Sort { .. } | Node::Limit { .. }
    )
}

fn node_cuts(node: &Node) -> Option<(u32, &Names)>
    ensures { MatchOption result (spec.node_cuts (node_tree node.now) ≡ None)
        (λ r. spec.node_cuts (node_tree node.now) ≡ Some (Num r.0, r.1.now)) }
{
    match node {
        Node::EnumerateCollection {
            var,
            attrs: Some(names),
            ..
        } => Some((*var, names)),
        _ => None,
    }
}

// The variable of a scan that cuts its documents, and what it keeps of them, below nodes that pass
// its rows on.
fn cuts(plan: &Plan) -> Option<(u32, &Names)>
    ensures { MatchOption result (spec.cuts (plan_tree plan.now) ≡ None)
        (λ r. spec.cuts (plan_tree plan.now) ≡ Some (Num r.0, r.1.now)) }
{
    match plan {
        Plan::Over { below, node } => {
            if node_is_passing(node) {
                return cuts(below);
            }
            node_cuts(node)
        }
        _ => None,
    }
}

// Whether what such nodes use of the variable is kept.
fn passes_covered(alloc: Global, var: u32, names: &Names, plan: &Plan) -> Result<bool, OutOfMemory>
    ensures { IfOk result
        (λ b. b ≡ spec.passes_covered (Num var) names.now (plan_tree plan.now)) }
{
    match plan {
        Plan::Over { below, node } => {
            if !node_is_passing(node) {
                return Ok(true);
            }
            let mut own = Uses::new(alloc);
            add_own_uses(plan, alloc, &mut own)?;
            if !are_covered(var, names, own.as_slice()) {
                return Ok(false);
            }
            passes_covered(alloc, var, names, below)
        }
        _ => Ok(true),
    }
}

fn uncut_node(node: &mut Node)
    ensures { node_tree node.new ≡ spec.node_uncut (node_tree node.old) }
{
    match node {
        Node::EnumerateCollection { attrs, .. } => *attrs = None,
        _ => {}
    }
}

fn uncut(plan: &mut Plan)
    ensures { plan_tree plan.new ≡ spec.uncut (plan_tree plan.old) }
{
    match plan {
        Plan::Over { below, node } => {
            if node_is_passing(node) {
                uncut(below);
            } else {
                uncut_node(node);
            }
        }
        _ => {}
    }
}

/// What stands below the top node of a plan, with documents whole where this node hands on no row
/// and only what is kept of them is looked at; `None` where that is `below` itself.
pub(crate) fn whole_below(
    alloc: Global,
    plan: &Plan,
    below: &Plan,
) -> Result<Option<Plan>, OutOfMemory>
    ensures { IfOk result (λ whole. unwrap_or (option_map plan_tree whole) (plan_tree below.now)
        ≡ below_looks (last_looks (top (plan_tree plan.now))) (plan_tree below.now)) }
{
    let Some((var, names)) = cuts(below) else {
        return Ok(None);
    };
    let Some(looks) = last_looks(alloc, plan)? else {
        return Ok(None);
    };
    if !are_covered(var, names, looks.as_slice()) {
        return Ok(None);
    }
    if !passes_covered(alloc, var, names, below)? {
        return Ok(None);
    }
    let mut whole = below.copy(alloc)?;
    uncut(&mut whole);
    Ok(Some(whole))
}

/// The first plan, or the other one where there is none.
pub(crate) fn either<'a>(first: &'a Option<Plan>, other: &'a Plan) -> &'a Plan
    ensures { plan_tree result.now ≡ unwrap_or (option_map plan_tree first.now) (plan_tree other.now) }
{
    match first {
        Some(plan) => plan,
        None => other,
    }
}
