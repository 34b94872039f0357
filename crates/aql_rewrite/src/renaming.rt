//! Variables renamed in the expressions and the bodies of nodes: a variable goes by the first of
//! the renamings, what that gives by the next, and so on.

ghost use Rattle.std.specs.Prelude.{◌≡◌, IfOk, OnOk, MatchOption, Some, None, map, option_map};
ghost use Rattle.std.specs.Prelude.{unwrap_or};
ghost use Rattle.std.specs.List.{AllByRecursion};
ghost use Rattle.aql_tree.specs.declared.syntax.Ident.TheVariants.{Num};
ghost use Rattle.aql_tree.specs.Tree.{variable};
ghost use Rattle.aql_tree.specs.View.{tree};
ghost use Rattle.aql_meaning.specs.Plain.{IsPlain};
ghost use Rattle.aql_plan.specs.Exprs.{map_plan, map_node};
ghost use Rattle.aql_plan.specs.Plan.{top};
ghost use Rattle.aql_plan.specs.View.{plan_tree, node_tree};
ghost use Rattle.aql_rewrite.specs.ExprView.{lent};
ghost use Rattle.aql_rewrite.specs.NodeExprs.{node_exprs};
ghost use Rattle.aql_rewrite.specs.Nodes.{over_renamed as spec_over_renamed};
ghost use Rattle.aql_rewrite.specs.Plain.{NodePlain, PlanPlain, variable_in};
ghost use Rattle.aql_rewrite.specs.Renames.{renaming, put_each, top_each};

use crate::exprs::{exprs_of, set_exprs};
use crate::swap::Rename;
use crate::{add_new, children, over_children};
use aql_plan::{Node, Plan};
use aql_tree::{Expr, Ident};
use aql_value::OutOfMemory;
use std::alloc::Global;
use std::collections::VecDeque;

fn variable_of(expr: &Expr) -> Option<&Ident>
    ensures { MatchOption result (variable_in (tree expr.now) ≡ None)
        (λ x. variable_in (tree expr.now) ≡ Some x.now) }
{
    match expr {
        Expr::Var(var) => Some(var),
        _ => None,
    }
}

fn renamed_once(number: u32, rename: Rename) -> u32
    ensures { renaming rename (variable (Num number)) ≡ variable (Num result) }
{
    if number == rename.from {
        return rename.to;
    }
    number
}

// What a variable is called in the end.
fn renamed_number(number: u32, renames: &[Rename]) -> u32
    ensures { put_each renames.now (variable (Num number)) ≡ variable (Num result) }
{
    let mut name = number;
    for rename in renames {
        name = renamed_once(name, *rename);
    }
    name
}

// A variable by its new name; `None` where it keeps its name.
fn renamed_variable(var: &Ident, renames: &[Rename]) -> Option<Expr>
    ensures { unwrap_or (option_map tree result) (variable var.now)
        ≡ put_each renames.now (variable var.now) }
{
    match var {
        Ident::Num(n) => {
            let number = renamed_number(*n, renames);
            if number == *n {
                return None;
            }
            Some(Expr::Var(Ident::Num(number)))
        }
        Ident::Name(_) => None,
    }
}

// An expression with its variables renamed; `None` where it stays as it is.
#[cycle(exprs)]
fn renamed_expr(alloc: Global, expr: &Expr, renames: &[Rename]) -> Result<Option<Expr>, OutOfMemory>
    requires { IsPlain (tree expr.now) }
    ensures { IfOk result (λ new. unwrap_or (option_map tree new) (tree expr.now)
        ≡ put_each renames.now (tree expr.now)) }
{
    match variable_of(expr) {
        Some(var) => Ok(renamed_variable(var, renames)),
        None => {
            let all = children(alloc, expr)?;
            match renamed_exprs(alloc, &all, renames)? {
                Some(new) => {
                    let whole = over_children(alloc, expr, new)?;
                    Ok(Some(whole))
                }
                None => Ok(None),
            }
        }
    }
}

// The same of expressions one after another.
#[cycle(exprs)]
fn renamed_exprs(
    alloc: Global,
    all: &[&Expr],
    renames: &[Rename],
) -> Result<Option<VecDeque<Expr>>, OutOfMemory>
    requires { AllByRecursion IsPlain (map lent all.now) }
    ensures { IfOk result
        (λ new. unwrap_or (option_map (λ q. map tree q.items) new) (map lent all.now)
        ≡ map (put_each renames.now) (map lent all.now)) }
{
    let mut out = None;
    for (at, expr) in all.iter().enumerate() {
        let new = renamed_expr(alloc, expr, renames)?;
        add_new(alloc, &all[..at], expr, new, &mut out)?;
    }
    Ok(out)
}

// The same of the expressions of a node.
fn renamed_exprs_of(
    alloc: Global,
    node: &Node,
    renames: &[Rename],
) -> Result<Option<VecDeque<Expr>>, OutOfMemory>
    requires { NodePlain (node_tree node.now) }
    ensures { IfOk result (λ new. unwrap_or (option_map (λ q. map tree q.items) new)
        (node_exprs (node_tree node.now))
        ≡ map (put_each renames.now) (node_exprs (node_tree node.now))) }
{
    let all = exprs_of(alloc, node)?;
    renamed_exprs(alloc, &all, renames)
}

fn rename_node(alloc: Global, node: &mut Node, renames: &[Rename]) -> Result<(), OutOfMemory>
    requires { NodePlain (node_tree node.old) }
    ensures { OnOk result (node_tree node.new
        ≡ map_node (put_each renames.now) (node_tree node.old)) }
{
    match renamed_exprs_of(alloc, node, renames)? {
        Some(mut queue) => {
            set_exprs(node, &mut queue);
            Ok(())
        }
        None => Ok(()),
    }
}

fn rename_plan(alloc: Global, plan: &mut Plan, renames: &[Rename]) -> Result<(), OutOfMemory>
    requires { PlanPlain (plan_tree plan.old) }
    ensures { OnOk result (plan_tree plan.new
        ≡ map_plan (put_each renames.now) (plan_tree plan.old)) }
{
    match plan {
        Plan::Singleton => Ok(()),
        Plan::Over { below, node } => {
            rename_plan(alloc, &mut **below, renames)?;
            rename_node(alloc, &mut **node, renames)
        }
        Plan::Subquery { below, body, .. } => {
            rename_plan(alloc, &mut **below, renames)?;
            rename_plan(alloc, &mut **body, renames)
        }
    }
}

/// Renames variables in the expressions of a plan's top node and in its body: by each of the
/// renamings in turn.
pub fn rename_top(alloc: Global, plan: &mut Plan, renames: &[Rename]) -> Result<(), OutOfMemory>
    requires { NodePlain (top (plan_tree plan.old)) }
    ensures { OnOk result (plan_tree plan.new ≡ top_each renames.now (plan_tree plan.old)) }
{
    match plan {
        Plan::Singleton => Ok(()),
        Plan::Over { node, .. } => rename_node(alloc, &mut **node, renames),
        Plan::Subquery { body, .. } => rename_plan(alloc, &mut **body, renames),
    }
}

/// The node at the top of a plan over another input, with the renaming in its expressions and its
/// body.
pub(crate) fn over_renamed(
    alloc: Global,
    node: &Plan,
    below: Plan,
    rename: &Option<Rename>,
) -> Result<Plan, OutOfMemory>
    requires { NodePlain (top (plan_tree node.now)) }
    ensures { IfOk result (λ p. plan_tree p
        ≡ spec_over_renamed rename.now (plan_tree node.now) (plan_tree below)) }
{
    let mut new = node.over(alloc, below)?;
    if let Some(rename) = rename {
        rename_top(alloc, &mut new, &[*rename])?;
    }
    Ok(new)
}
