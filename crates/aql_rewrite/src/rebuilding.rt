//! Expressions over other children. New children wait in a queue, in the order of the text; where
//! it is empty the old child is copied.

ghost use Rattle.std.specs.Prelude.{◌≡◌, [], ◌∷◌, ◌++◌, OnOk, IfOk, map, option_map, unwrap_or};
ghost use Rattle.aql_tree.specs.View.{tree, step_part, member_part, link_part};
ghost use Rattle.aql_rewrite.specs.OverChildren.{first_or, after_first};
ghost use Rattle.aql_rewrite.specs.OverChildren.{over_children as spec_over_children};
ghost use Rattle.aql_rewrite.specs.ExprView.{lent, each_over, option_over, after_option};
ghost use Rattle.aql_rewrite.specs.ExprView.{member_over, after_member, members_over};
ghost use Rattle.aql_rewrite.specs.ExprView.{step_over, after_step, steps_over, links_over};

use aql_tree::{Expr, Field, Link, Step, copy_expr};
use aql_value::{OutOfMemory, Seq};
use std::alloc::Global;
use std::collections::VecDeque;

// The next child of the queue; where it is empty, a copy of the old one.
fn next_child(alloc: Global, queue: &mut VecDeque<Expr>, old: &Expr) -> Result<Expr, OutOfMemory>
    ensures part { IfOk result (λ e. tree e ≡ first_or (tree old.now) (map tree queue.old.items)) }
    ensures left { map tree queue.new.items ≡ after_first (map tree queue.old.items) }
{
    match queue.pop_front() {
        Some(part) => Ok(part),
        None => copy_expr(alloc, old),
    }
}

// The next child of the queue, or a copy of the old one, where there is an old one.
fn over_maybe(
    alloc: Global,
    queue: &mut VecDeque<Expr>,
    old: &Option<Expr>,
) -> Result<Option<Expr>, OutOfMemory>
    ensures part { IfOk result (λ o. option_map tree o
        ≡ option_over (option_map tree old.now) (map tree queue.old.items)) }
    ensures left { map tree queue.new.items
        ≡ after_option (option_map tree old.now) (map tree queue.old.items) }
{
    match old {
        Some(old) => Ok(Some(next_child(alloc, queue, old)?)),
        None => Ok(None),
    }
}

fn over_maybe_boxed(
    alloc: Global,
    queue: &mut VecDeque<Expr>,
    old: &Option<Box<Expr>>,
) -> Result<Option<Expr>, OutOfMemory>
    ensures part { IfOk result (λ o. option_map tree o
        ≡ option_over (option_map (λ b. tree b.value) old.now) (map tree queue.old.items)) }
    ensures left { map tree queue.new.items
        ≡ after_option (option_map (λ b. tree b.value) old.now) (map tree queue.old.items) }
{
    match old {
        Some(old) => Ok(Some(next_child(alloc, queue, old)?)),
        None => Ok(None),
    }
}

fn over_exprs(
    alloc: Global,
    queue: &mut VecDeque<Expr>,
    all: &[Expr],
) -> Result<Seq<Expr>, OutOfMemory>
    ensures { IfOk result
        (λ out. map tree out ≡ each_over (map tree all.now) (map tree queue.old.items)) }
{
    let mut out = Seq::new(alloc);
    for old in all {
        out.push(next_child(alloc, queue, old)?)?;
    }
    Ok(out)
}

fn over_field(alloc: Global, queue: &mut VecDeque<Expr>, old: &Field) -> Result<Field, OutOfMemory>
    ensures part { IfOk result
        (λ f. member_part f ≡ member_over (member_part old.now) (map tree queue.old.items)) }
    ensures left { OnOk result (map tree queue.new.items
        ≡ after_member (member_part old.now) (map tree queue.old.items)) }
{
    match old {
        Field::Named { name, value } => Ok(Field::Named {
            name: name.copy(alloc)?,
            value: next_child(alloc, queue, value)?,
        }),
        Field::Computed { name, value } => Ok(Field::Computed {
            name: next_child(alloc, queue, name)?,
            value: next_child(alloc, queue, value)?,
        }),
    }
}

fn over_fields(
    alloc: Global,
    queue: &mut VecDeque<Expr>,
    all: &[Field],
) -> Result<Seq<Field>, OutOfMemory>
    ensures { IfOk result (λ out. map member_part out
        ≡ members_over (map member_part all.now) (map tree queue.old.items)) }
{
    let mut out = Seq::new(alloc);
    for old in all {
        out.push(over_field(alloc, queue, old)?)?;
    }
    Ok(out)
}

fn over_step(alloc: Global, queue: &mut VecDeque<Expr>, old: &Step) -> Result<Step, OutOfMemory>
    ensures part { IfOk result
        (λ s. step_part s ≡ step_over (step_part old.now) (map tree queue.old.items)) }
    ensures left { OnOk result (map tree queue.new.items
        ≡ after_step (step_part old.now) (map tree queue.old.items)) }
{
    match old {
        Step::Name(name) => Ok(Step::Name(name.copy(alloc)?)),
        Step::At(old) => Ok(Step::At(next_child(alloc, queue, old)?)),
        Step::Each { filter, project } => {
            let filter = over_maybe(alloc, queue, filter)?;
            let project = over_maybe(alloc, queue, project)?;
            Ok(Step::each(filter, project))
        }
    }
}

fn over_steps(
    alloc: Global,
    queue: &mut VecDeque<Expr>,
    all: &[Step],
) -> Result<Seq<Step>, OutOfMemory>
    ensures { IfOk result (λ out. map step_part out
        ≡ steps_over (map step_part all.now) (map tree queue.old.items)) }
{
    let mut out = Seq::new(alloc);
    for old in all {
        out.push(over_step(alloc, queue, old)?)?;
    }
    Ok(out)
}

fn over_links(
    alloc: Global,
    queue: &mut VecDeque<Expr>,
    all: &[Link],
) -> Result<Seq<Link>, OutOfMemory>
    ensures { IfOk result (λ out. map link_part out
        ≡ links_over (map link_part all.now) (map tree queue.old.items)) }
{
    let mut out = Seq::new(alloc);
    for old in all {
        out.push(Link::new(old.op, next_child(alloc, queue, &old.right)?))?;
    }
    Ok(out)
}

fn over_queue(alloc: Global, expr: &Expr, queue: &mut VecDeque<Expr>) -> Result<Expr, OutOfMemory>
    ensures { IfOk result (λ e. tree e
        ≡ spec_over_children (tree expr.now) (map tree queue.old.items)) }
{
    match expr {
        Expr::Lit(_) | Expr::Var(_) | Expr::Current | Expr::Sub(_) => copy_expr(alloc, expr),
        Expr::List(items) => Ok(Expr::List(over_exprs(alloc, queue, items.as_slice())?)),
        Expr::Object(fields) => Ok(Expr::Object(over_fields(alloc, queue, fields.as_slice())?)),
        Expr::Access { of, steps } => {
            let of = next_child(alloc, queue, of)?;
            let steps = over_steps(alloc, queue, steps.as_slice())?;
            Expr::access(alloc, of, steps)
        }
        Expr::Call { name, args } => Ok(Expr::Call {
            name: name.copy(alloc)?,
            args: over_exprs(alloc, queue, args.as_slice())?,
        }),
        Expr::Unary { op, of } => {
            let of = next_child(alloc, queue, of)?;
            Expr::unary(alloc, *op, of)
        }
        Expr::Chain { first, rest } => {
            let first = next_child(alloc, queue, first)?;
            let rest = over_links(alloc, queue, rest.as_slice())?;
            Expr::chain(alloc, first, rest)
        }
        Expr::Quant {
            left,
            kind,
            op,
            right,
        } => {
            let left = next_child(alloc, queue, left)?;
            let right = next_child(alloc, queue, right)?;
            Expr::array_comparison(alloc, left, *kind, *op, right)
        }
        Expr::Cond { test, yes, no } => {
            let test = next_child(alloc, queue, test)?;
            let yes = over_maybe_boxed(alloc, queue, yes)?;
            let no = next_child(alloc, queue, no)?;
            Expr::conditional(alloc, test, yes, no)
        }
        Expr::Range { low, high } => {
            let low = next_child(alloc, queue, low)?;
            let high = next_child(alloc, queue, high)?;
            Expr::range(alloc, low, high)
        }
    }
}

/// The same form over other children, taken in order. Where they run out, the old children are
/// copied, so without any this is a copy; what is too many is dropped.
pub fn over_children(alloc: Global, expr: &Expr, new: VecDeque<Expr>) -> Result<Expr, OutOfMemory>
    ensures { IfOk result (λ e. tree e ≡ spec_over_children (tree expr.now) (map tree new.items)) }
{
    let mut queue = new;
    over_queue(alloc, expr, &mut queue)
}

/// Puts copies of expressions at the end of a queue.
pub(crate) fn add_copies(
    alloc: Global,
    all: &[&Expr],
    to: &mut VecDeque<Expr>,
) -> Result<(), OutOfMemory>
    ensures { OnOk result (map tree to.new.items ≡ map tree to.old.items ++ map lent all.now) }
{
    for expr in all {
        to.push_back(copy_expr(alloc, expr)?)?;
    }
    Ok(())
}

// A new expression; where there is none, a copy of the old one.
fn new_or_copy(alloc: Global, new: Option<Expr>, old: &Expr) -> Result<Expr, OutOfMemory>
    ensures { IfOk result (λ e. tree e ≡ unwrap_or (option_map tree new) (tree old.now)) }
{
    match new {
        Some(new) => Ok(new),
        None => copy_expr(alloc, old),
    }
}

/// One more expression after those that come in the places of others: `new` in the place of `old`,
/// or where it is `None` the old one. As long as all stay as they are, `out` is `None`, and none is
/// copied.
pub fn add_new(
    alloc: Global,
    before: &[&Expr],
    old: &Expr,
    new: Option<Expr>,
    out: &mut Option<VecDeque<Expr>>,
) -> Result<(), OutOfMemory>
    ensures { OnOk result (unwrap_or (option_map (λ q. map tree q.items) out.new)
        (map lent before.now ++ tree old.now ∷ [])
        ≡ unwrap_or (option_map (λ q. map tree q.items) out.old) (map lent before.now)
        ++ unwrap_or (option_map tree new) (tree old.now) ∷ []) }
{
    match out {
        Some(queue) => {
            queue.push_back(new_or_copy(alloc, new, old)?)?;
            Ok(())
        }
        None => match new {
            Some(new) => {
                let mut queue = VecDeque::new(alloc);
                add_copies(alloc, before, &mut queue)?;
                queue.push_back(new)?;
                *out = Some(queue);
                Ok(())
            }
            None => Ok(()),
        },
    }
}
