//! The children of an expression, by reference.

ghost use Rattle.std.specs.Prelude.{◌≡◌, ◌++◌, OnOk, IfOk, map, option_map};
ghost use Rattle.aql_tree.specs.View.{tree, maybe, steps, step_part, members, member_part};
ghost use Rattle.aql_tree.specs.View.{links, link_part};
ghost use Rattle.aql_rewrite.specs.Children.{maybe_children, member_children, step_children, link_children};
ghost use Rattle.aql_rewrite.specs.Children.{children as spec_children};
ghost use Rattle.aql_rewrite.specs.ExprView.{lent, one_member_children, one_step_children};

use aql_tree::{Expr, Field, Link, Step};
use aql_value::OutOfMemory;
use std::alloc::Global;

fn add_exprs<'a>(to: &mut Vec<&'a Expr>, all: &'a [Expr]) -> Result<(), OutOfMemory>
    ensures { OnOk result (map lent to.new.items ≡ map lent to.old.items ++ map tree all.now) }
{
    for expr in all {
        to.push(expr)?;
    }
    Ok(())
}

/// Puts the expression, where there is one, after the others.
pub fn add_maybe<'a>(to: &mut Vec<&'a Expr>, expr: &'a Option<Expr>) -> Result<(), OutOfMemory>
    ensures { OnOk result (map lent to.new.items ≡ map lent to.old.items
        ++ maybe_children (maybe (option_map tree expr.now))) }
{
    match expr {
        Some(expr) => {
            to.push(expr)?;
            Ok(())
        }
        None => Ok(()),
    }
}

fn add_maybe_boxed<'a>(
    to: &mut Vec<&'a Expr>,
    expr: &'a Option<Box<Expr>>,
) -> Result<(), OutOfMemory>
    ensures { OnOk result (map lent to.new.items ≡ map lent to.old.items
        ++ maybe_children (maybe (option_map (λ b. tree b.value) expr.now))) }
{
    match expr {
        Some(expr) => {
            to.push(expr)?;
            Ok(())
        }
        None => Ok(()),
    }
}

fn add_field<'a>(to: &mut Vec<&'a Expr>, field: &'a Field) -> Result<(), OutOfMemory>
    ensures { OnOk result (map lent to.new.items ≡ map lent to.old.items
        ++ one_member_children (member_part field.now)) }
{
    match field {
        Field::Named { value, .. } => {
            to.push(value)?;
            Ok(())
        }
        Field::Computed { name, value } => {
            to.push(name)?;
            to.push(value)?;
            Ok(())
        }
    }
}

fn add_fields<'a>(to: &mut Vec<&'a Expr>, fields: &'a [Field]) -> Result<(), OutOfMemory>
    ensures { OnOk result (map lent to.new.items ≡ map lent to.old.items
        ++ member_children (members (map member_part fields.now))) }
{
    for field in fields {
        add_field(to, field)?;
    }
    Ok(())
}

fn add_step<'a>(to: &mut Vec<&'a Expr>, step: &'a Step) -> Result<(), OutOfMemory>
    ensures { OnOk result (map lent to.new.items ≡ map lent to.old.items
        ++ one_step_children (step_part step.now)) }
{
    match step {
        Step::Name(_) => Ok(()),
        Step::At(expr) => {
            to.push(expr)?;
            Ok(())
        }
        Step::Each { filter, project } => {
            add_maybe(to, filter)?;
            add_maybe(to, project)
        }
    }
}

fn add_steps<'a>(to: &mut Vec<&'a Expr>, all: &'a [Step]) -> Result<(), OutOfMemory>
    ensures { OnOk result (map lent to.new.items ≡ map lent to.old.items
        ++ step_children (steps (map step_part all.now))) }
{
    for step in all {
        add_step(to, step)?;
    }
    Ok(())
}

fn add_links<'a>(to: &mut Vec<&'a Expr>, all: &'a [Link]) -> Result<(), OutOfMemory>
    ensures { OnOk result (map lent to.new.items ≡ map lent to.old.items
        ++ link_children (links (map link_part all.now))) }
{
    for link in all {
        to.push(&link.right)?;
    }
    Ok(())
}

fn add_children<'a>(to: &mut Vec<&'a Expr>, expr: &'a Expr) -> Result<(), OutOfMemory>
    ensures { OnOk result (map lent to.new.items ≡ map lent to.old.items
        ++ spec_children (tree expr.now)) }
{
    match expr {
        Expr::Lit(_) | Expr::Var(_) | Expr::Current | Expr::Sub(_) => Ok(()),
        Expr::List(items) => add_exprs(to, items.as_slice()),
        Expr::Object(fields) => add_fields(to, fields.as_slice()),
        Expr::Access { of, steps } => {
            to.push(of)?;
            add_steps(to, steps.as_slice())
        }
        Expr::Call { args, .. } => add_exprs(to, args.as_slice()),
        Expr::Unary { of, .. } => {
            to.push(of)?;
            Ok(())
        }
        Expr::Chain { first, rest } => {
            to.push(first)?;
            add_links(to, rest.as_slice())
        }
        Expr::Quant { left, right, .. } => {
            to.push(left)?;
            to.push(right)?;
            Ok(())
        }
        Expr::Cond { test, yes, no } => {
            to.push(test)?;
            add_maybe_boxed(to, yes)?;
            to.push(no)?;
            Ok(())
        }
        Expr::Range { low, high } => {
            to.push(low)?;
            to.push(high)?;
            Ok(())
        }
    }
}

/// The children of an expression, in the order of the text. The expressions of a subquery are no
/// children of it.
pub fn children<'a>(alloc: Global, expr: &'a Expr) -> Result<Vec<&'a Expr>, OutOfMemory>
    ensures { IfOk result (λ all. map lent all.items ≡ spec_children (tree expr.now)) }
{
    let mut all = Vec::new(alloc);
    add_children(&mut all, expr)?;
    Ok(all)
}
