//! What expressions use: a variable as a whole, or only one of its attributes.

ghost use Rattle.std.specs.Prelude.{◌≡◌, ◌++◌, OnOk, IfOk, map, option_map};
ghost use Rattle.aql_tree.specs.View.{tree, trees, maybe, members, member_part, steps, step_part, links, link_part};
ghost use Rattle.aql_meaning.specs.Uses.{used_variable, uses, all_uses, maybe_uses, member_uses, step_uses, link_uses};
ghost use Rattle.aql_plan.specs.Used.{use_tree, uses_tree, attribute_used};

use aql_tree::{Expr, Field, Ident, Link, Step, copy_ident};
use aql_value::{OutOfMemory, Seq, Text};
use std::alloc::Global;

/// What is used of a variable.
pub enum Use {
    /// All of it.
    Whole(Ident),
    /// Its attribute of a name alone.
    Attribute(Ident, Text),
}

impl Drop for Use {
    fn drop(self) {
        match self {
            Use::Whole(_) | Use::Attribute(_, _) => {}
        }
    }
}

/// A list of uses.
pub type Uses = Seq<Use>;

impl Use {
    /// The variable.
    pub fn variable(&self) -> &Ident
        ensures { result.now ≡ used_variable (use_tree self.now) }
    {
        match self {
            Use::Whole(var) => var,
            Use::Attribute(var, _) => var,
        }
    }
}

fn attribute_of(of: &Expr, all: &[Step], alloc: Global) -> Result<Option<Use>, OutOfMemory>
    ensures { IfOk result (λ o. option_map use_tree o
        ≡ attribute_used (tree of.now) (steps (map step_part all.now))) }
{
    match of {
        Expr::Var(var) => match all.split_first() {
            Some((Step::Name(name), _)) => {
                let var = copy_ident(alloc, var)?;
                Ok(Some(Use::Attribute(var, name.copy(alloc)?)))
            }
            _ => Ok(None),
        },
        _ => Ok(None),
    }
}

/// Appends what an expression uses, in the order in which it is written.
#[cycle(uses)]
pub fn add_uses(expr: &Expr, alloc: Global, to: &mut Uses) -> Result<(), OutOfMemory>
    ensures { OnOk result (uses_tree to.new ≡ uses_tree to.old ++ uses (tree expr.now)) }
{
    match expr {
        Expr::Lit(_) => Ok(()),
        Expr::Var(var) => to.push(Use::Whole(copy_ident(alloc, var)?)),
        Expr::Current => Ok(()),
        Expr::List(items) => add_all_uses(items.as_slice(), alloc, to),
        Expr::Object(fields) => add_member_uses(fields.as_slice(), alloc, to),
        Expr::Access { of, steps } => {
            match attribute_of(of, steps.as_slice(), alloc)? {
                Some(part) => to.push(part)?,
                None => add_uses(of, alloc, to)?,
            }
            add_step_uses(steps.as_slice(), alloc, to)
        }
        Expr::Call { args, .. } => add_all_uses(args.as_slice(), alloc, to),
        Expr::Unary { of, .. } => add_uses(of, alloc, to),
        Expr::Chain { first, rest } => {
            add_uses(first, alloc, to)?;
            add_link_uses(rest.as_slice(), alloc, to)
        }
        Expr::Quant { left, right, .. } => {
            add_uses(left, alloc, to)?;
            add_uses(right, alloc, to)
        }
        Expr::Cond { test, yes, no } => {
            add_uses(test, alloc, to)?;
            match yes {
                Some(yes) => add_uses(yes, alloc, to)?,
                None => {}
            }
            add_uses(no, alloc, to)
        }
        Expr::Range { low, high } => {
            add_uses(low, alloc, to)?;
            add_uses(high, alloc, to)
        }
        Expr::Sub(_) => Ok(()),
    }
}

/// The same of an expression that may be missing.
#[cycle(uses)]
pub fn add_maybe_uses(expr: &Option<Expr>, alloc: Global, to: &mut Uses) -> Result<(), OutOfMemory>
    ensures { OnOk result
        (uses_tree to.new ≡ uses_tree to.old ++ maybe_uses (maybe (option_map tree expr.now))) }
{
    match expr {
        Some(expr) => add_uses(expr, alloc, to),
        None => Ok(()),
    }
}

/// The same of expressions, one after another.
#[cycle(uses)]
pub fn add_all_uses(exprs: &[Expr], alloc: Global, to: &mut Uses) -> Result<(), OutOfMemory>
    ensures { OnOk result
        (uses_tree to.new ≡ uses_tree to.old ++ all_uses (trees (map tree exprs.now))) }
{
    for expr in exprs {
        add_uses(expr, alloc, to)?;
    }
    Ok(())
}

#[cycle(uses)]
fn add_member_uses(fields: &[Field], alloc: Global, to: &mut Uses) -> Result<(), OutOfMemory>
    ensures { OnOk result (uses_tree to.new ≡ uses_tree to.old
        ++ member_uses (members (map member_part fields.now))) }
{
    for field in fields {
        match field {
            Field::Named { value, .. } => add_uses(value, alloc, to)?,
            Field::Computed { name, value } => {
                add_uses(name, alloc, to)?;
                add_uses(value, alloc, to)?;
            }
        }
    }
    Ok(())
}

#[cycle(uses)]
fn add_step_uses(all: &[Step], alloc: Global, to: &mut Uses) -> Result<(), OutOfMemory>
    ensures { OnOk result
        (uses_tree to.new ≡ uses_tree to.old ++ step_uses (steps (map step_part all.now))) }
{
    for step in all {
        match step {
            Step::Name(_) => {}
            Step::At(expr) => add_uses(expr, alloc, to)?,
            Step::Each { filter, project } => {
                add_maybe_uses(filter, alloc, to)?;
                add_maybe_uses(project, alloc, to)?;
            }
        }
    }
    Ok(())
}

#[cycle(uses)]
fn add_link_uses(all: &[Link], alloc: Global, to: &mut Uses) -> Result<(), OutOfMemory>
    ensures { OnOk result
        (uses_tree to.new ≡ uses_tree to.old ++ link_uses (links (map link_part all.now))) }
{
    for link in all {
        add_uses(&link.right, alloc, to)?;
    }
    Ok(())
}
