// Evaluation, part by part of an expression.
ghost use Rattle.std.specs.Prelude.{[], ◌∷◌, ◌≡◌, cond, drop, IfOk, map, OnOk, option_map, true};
ghost use Rattle.std.specs.Prelude.{unwrap_or};
ghost use Rattle.aql_value.specs.Contents.{at_value, list};
ghost use Rattle.aql_value.specs.Convert as convert;
ghost use Rattle.aql_value.specs.Database.{Database};
ghost use Rattle.aql_value.specs.Datum.{boolean, null};
ghost use Rattle.aql_value.specs.Truth.{truth};
ghost use Rattle.aql_value.specs.View.{datum_of};
ghost use Rattle.aql_func.specs.Named.{call_named};
ghost use Rattle.aql_func.specs.Objects.{with_all};
ghost use Rattle.aql_func.specs.Operators as operators;
ghost use Rattle.aql_tree.specs.Tree.{inline_then};
ghost use Rattle.aql_tree.specs.View.{tree, trees, maybe, members, steps, links};
ghost use Rattle.aql_tree.specs.View.{member_part, step_part, link_part};
ghost use Rattle.aql_meaning.specs.Expressions as expressions;
ghost use Rattle.aql_meaning.specs.Expressions.{object_value};
ghost use Rattle.aql_meaning.specs.Meaning.{Evaluates};
ghost use Rattle.aql_meaning.specs.Plain.{IsPlain};
ghost use Rattle.aql_meaning.specs.Row.{value_at};
ghost use Rattle.aql_meaning.specs.Value as spec;

use crate::RowView;
use crate::contents::{access, attribute, elements, value_or};
use crate::quantifiers::quantify;
use crate::rows::{copy_of, value_of};
use aql_func::{BinOp, UnaryOp, arity, binary, call, lookup, range, unary};
use aql_tree::{Expr, Field, Ident, Link, QuantKind, Step};
use aql_value::{Items, Members, OutOfMemory, Value, copy, to_number, to_text, truthy};
use std::alloc::Global;

/// The value of an expression without a subquery at a row, outside of an inline expression (AQL
/// fundamentals, Operators). Every form of an expression is taken; `&&`, `||` and `? :` look only
/// at the operands that they need. A variable that the row lacks, access that finds nothing, and a
/// call of an unknown function or with a wrong number of arguments give null.
pub fn eval<R: RowView>(alloc: Global, expr: &Expr, row: &R) -> Result<Value, OutOfMemory>
    requires { IsPlain (tree expr.now) }
    ensures value { IfOk result (λ v. datum_of v
        ≡ spec.value (tree expr.now) null (R.vars row.now)) }
    ensures meaning { IfOk result (λ v. (db : Database)
        → Evaluates db (tree expr.now) null (R.vars row.now) (datum_of v)) }
{
    evaluate(alloc, expr, row, &Value::Null)
}

// `cur` is the value of CURRENT; a subquery counts as null.
#[cycle(evaluation)]
fn evaluate<R: RowView>(
    alloc: Global,
    expr: &Expr,
    row: &R,
    cur: &Value,
) -> Result<Value, OutOfMemory>
    ensures { IfOk result (λ v. datum_of v
        ≡ spec.value (tree expr.now) (datum_of cur.now) (R.vars row.now)) }
{
    match expr {
        Expr::Lit(value) => copy(alloc, value),
        Expr::Var(ident) => copy_of(alloc, row, ident),
        Expr::Current => copy(alloc, cur),
        Expr::List(items) => evaluate_list(alloc, items.as_slice(), row, cur),
        Expr::Object(fields) => evaluate_object(alloc, fields.as_slice(), row, cur),
        Expr::Access { of, steps } => evaluate_access(alloc, of, steps.as_slice(), row, cur),
        Expr::Call { name, args } => evaluate_call(alloc, name.as_str(), args.as_slice(), row, cur),
        Expr::Unary { op, of } => evaluate_unary(alloc, *op, of, row, cur),
        Expr::Chain { first, rest } => evaluate_chain(alloc, first, rest.as_slice(), row, cur),
        Expr::Quant {
            left,
            kind,
            op,
            right,
        } => evaluate_comparison(alloc, left, *kind, *op, right, row, cur),
        Expr::Cond { test, yes, no } => evaluate_condition(alloc, test, yes, no, row, cur),
        Expr::Range { low, high } => evaluate_range(alloc, low, high, row, cur),
        Expr::Sub(_) => Ok(Value::Null),
    }
}

// An array literal.
#[cycle(evaluation)]
fn evaluate_list<R: RowView>(
    alloc: Global,
    items: &[Expr],
    row: &R,
    cur: &Value,
) -> Result<Value, OutOfMemory>
    ensures { IfOk result (λ v. datum_of v
        ≡ list (spec.values (trees (map tree items.now)) (datum_of cur.now) (R.vars row.now))) }
{
    let values = evaluate_all(alloc, items, row, cur)?;
    Ok(Value::List(values))
}

// An object literal.
#[cycle(evaluation)]
fn evaluate_object<R: RowView>(
    alloc: Global,
    fields: &[Field],
    row: &R,
    cur: &Value,
) -> Result<Value, OutOfMemory>
    ensures { IfOk result (λ v. datum_of v ≡ object_value
        (spec.members (members (map member_part fields.now)) (datum_of cur.now) (R.vars row.now))) }
{
    let members = evaluate_members(alloc, fields, row, cur)?;
    Ok(Value::Object(members))
}

// A part of a variable or of CURRENT is taken without a copy of the whole.
#[cycle(evaluation)]
fn evaluate_access<R: RowView>(
    alloc: Global,
    of: &Expr,
    all: &[Step],
    row: &R,
    cur: &Value,
) -> Result<Value, OutOfMemory>
    ensures { IfOk result (λ v. datum_of v ≡ spec.steps_value (steps (map step_part all.now))
        (datum_of cur.now) (R.vars row.now)
        (spec.value (tree of.now) (datum_of cur.now) (R.vars row.now))) }
{
    match of {
        Expr::Var(ident) => follow_variable(alloc, all, row, cur, ident),
        Expr::Current => follow(alloc, all, 0, row, cur, cur),
        of => evaluate_accessed(alloc, of, all, row, cur),
    }
}

// Any other value is made first, then the steps are taken.
#[cycle(evaluation)]
fn evaluate_accessed<R: RowView>(
    alloc: Global,
    of: &Expr,
    all: &[Step],
    row: &R,
    cur: &Value,
) -> Result<Value, OutOfMemory>
    ensures { IfOk result (λ v. datum_of v ≡ spec.steps_value (steps (map step_part all.now))
        (datum_of cur.now) (R.vars row.now)
        (spec.value (tree of.now) (datum_of cur.now) (R.vars row.now))) }
{
    let from = evaluate(alloc, of, row, cur)?;
    follow(alloc, all, 0, row, cur, &from)
}

#[cycle(evaluation)]
fn evaluate_call<R: RowView>(
    alloc: Global,
    name: &str,
    args: &[Expr],
    row: &R,
    cur: &Value,
) -> Result<Value, OutOfMemory>
    ensures { IfOk result (λ v. datum_of v ≡ call_named name.now
        (spec.values (trees (map tree args.now)) (datum_of cur.now) (R.vars row.now))) }
{
    let args = evaluate_all(alloc, args, row, cur)?;
    call_by_name(alloc, name, &args)
}

#[cycle(evaluation)]
fn evaluate_unary<R: RowView>(
    alloc: Global,
    op: UnaryOp,
    of: &Expr,
    row: &R,
    cur: &Value,
) -> Result<Value, OutOfMemory>
    ensures { IfOk result (λ v. datum_of v
        ≡ operators.unary op (spec.value (tree of.now) (datum_of cur.now) (R.vars row.now))) }
{
    let of = evaluate(alloc, of, row, cur)?;
    unary(op, &of)
}

#[cycle(evaluation)]
fn evaluate_chain<R: RowView>(
    alloc: Global,
    first: &Expr,
    rest: &[Link],
    row: &R,
    cur: &Value,
) -> Result<Value, OutOfMemory>
    ensures { IfOk result (λ v. datum_of v ≡ spec.links_value (links (map link_part rest.now))
        (datum_of cur.now) (R.vars row.now)
        (spec.value (tree first.now) (datum_of cur.now) (R.vars row.now))) }
{
    let first = evaluate(alloc, first, row, cur)?;
    evaluate_links(alloc, rest, row, cur, first)
}

// An array comparison, as `left ALL op right`.
#[cycle(evaluation)]
fn evaluate_comparison<R: RowView>(
    alloc: Global,
    left: &Expr,
    kind: QuantKind,
    op: BinOp,
    right: &Expr,
    row: &R,
    cur: &Value,
) -> Result<Value, OutOfMemory>
    ensures { IfOk result (λ v. datum_of v ≡ expressions.quantify kind op
        (spec.value (tree left.now) (datum_of cur.now) (R.vars row.now))
        (spec.value (tree right.now) (datum_of cur.now) (R.vars row.now))) }
{
    let left = evaluate(alloc, left, row, cur)?;
    let right = evaluate(alloc, right, row, cur)?;
    quantify(alloc, kind, op, &left, &right)
}

// `test ? yes : no`.
#[cycle(evaluation)]
fn evaluate_condition<R: RowView>(
    alloc: Global,
    test: &Expr,
    yes: &Option<Box<Expr>>,
    no: &Expr,
    row: &R,
    cur: &Value,
) -> Result<Value, OutOfMemory>
    ensures { IfOk result (λ v. datum_of v
        ≡ cond (truth (spec.value (tree test.now) (datum_of cur.now) (R.vars row.now)))
        (spec.value_or (maybe (option_map (λ b. tree b.value) yes.now)) (datum_of cur.now)
        (R.vars row.now)
        (spec.value (tree test.now) (datum_of cur.now) (R.vars row.now)))
        (spec.value (tree no.now) (datum_of cur.now) (R.vars row.now))) }
{
    let test = evaluate(alloc, test, row, cur)?;
    if truthy(&test) {
        match yes {
            Some(yes) => evaluate(alloc, yes, row, cur),
            None => Ok(test),
        }
    } else {
        evaluate(alloc, no, row, cur)
    }
}

#[cycle(evaluation)]
fn evaluate_range<R: RowView>(
    alloc: Global,
    low: &Expr,
    high: &Expr,
    row: &R,
    cur: &Value,
) -> Result<Value, OutOfMemory>
    ensures { IfOk result (λ v. datum_of v ≡ operators.range
        (convert.to_number (spec.value (tree low.now) (datum_of cur.now) (R.vars row.now)))
        (convert.to_number (spec.value (tree high.now) (datum_of cur.now) (R.vars row.now)))) }
{
    let low = evaluate(alloc, low, row, cur)?;
    let high = evaluate(alloc, high, row, cur)?;
    range(alloc, to_number(&low), to_number(&high))
}

#[cycle(evaluation)]
fn evaluate_all<R: RowView>(
    alloc: Global,
    exprs: &[Expr],
    row: &R,
    cur: &Value,
) -> Result<Items, OutOfMemory>
    ensures { IfOk result (λ w. w
        ≡ spec.values (trees (map tree exprs.now)) (datum_of cur.now) (R.vars row.now)) }
{
    let mut out = Items::with_room(alloc, exprs.len())?;
    for expr in exprs {
        out.push(evaluate(alloc, expr, row, cur)?)?;
    }
    Ok(out)
}

#[cycle(evaluation)]
fn evaluate_members<R: RowView>(
    alloc: Global,
    fields: &[Field],
    row: &R,
    cur: &Value,
) -> Result<Members, OutOfMemory>
    ensures { IfOk result (λ w. w ≡ with_all []
        (spec.members (members (map member_part fields.now)) (datum_of cur.now) (R.vars row.now))) }
{
    let mut out = Members::new(alloc);
    for field in fields {
        set_member(alloc, field, row, cur, &mut out)?;
    }
    Ok(out)
}

#[cycle(evaluation)]
fn set_member<R: RowView>(
    alloc: Global,
    field: &Field,
    row: &R,
    cur: &Value,
    out: &mut Members,
) -> Result<(), OutOfMemory>
    ensures { OnOk result (out.new ≡ with_all out.old
        (spec.members (members (member_part field.now ∷ [])) (datum_of cur.now) (R.vars row.now))) }
{
    match field {
        Field::Named { name, value } => {
            let name = name.copy(alloc)?;
            out.set(name, evaluate(alloc, value, row, cur)?)?;
        }
        Field::Computed { name, value } => {
            let name = to_text(alloc, &evaluate(alloc, name, row, cur)?)?;
            out.set(name, evaluate(alloc, value, row, cur)?)?;
        }
    }
    Ok(())
}

// The steps after a variable, whose value is only borrowed.
#[cycle(evaluation)]
fn follow_variable<R: RowView>(
    alloc: Global,
    all: &[Step],
    row: &R,
    cur: &Value,
    ident: &Ident,
) -> Result<Value, OutOfMemory>
    ensures { IfOk result (λ v. datum_of v ≡ spec.steps_value (steps (map step_part all.now))
        (datum_of cur.now) (R.vars row.now) (value_at (R.vars row.now) ident.now)) }
{
    follow(alloc, all, 0, row, cur, value_of(row, ident, &Value::Null))
}

// The steps from the one at `start` on.
#[cycle(evaluation)]
fn follow<R: RowView>(
    alloc: Global,
    all: &[Step],
    start: usize,
    row: &R,
    cur: &Value,
    from: &Value,
) -> Result<Value, OutOfMemory>
    ensures { IfOk result (λ v. datum_of v
        ≡ spec.steps_value (steps (map step_part (drop start all.now)))
        (datum_of cur.now) (R.vars row.now) (datum_of from.now)) }
{
    let null = &Value::Null;
    let mut value = from;
    for at in start..all.len() {
        match &all[at] {
            Step::Name(name) => value = attribute(value, name.as_str(), null),
            Step::At(which) => value = access_at(alloc, which, row, cur, value, null)?,
            Step::Each { filter, project } => {
                return follow_each(alloc, all, at + 1, row, cur, value, filter, project);
            }
        }
    }
    copy(alloc, value)
}

// `value[which]`; null where there is no such part.
#[cycle(evaluation)]
fn access_at<'a, R: RowView>(
    alloc: Global,
    which: &Expr,
    row: &R,
    cur: &Value,
    value: &'a Value,
    missing: &'a Value,
) -> Result<&'a Value, OutOfMemory>
    requires { datum_of missing.now ≡ null }
    ensures { IfOk result (λ v. datum_of v.now ≡ at_value (datum_of value.now)
        (spec.value (tree which.now) (datum_of cur.now) (R.vars row.now))) }
{
    let which = evaluate(alloc, which, row, cur)?;
    Ok(access(value, &which, missing))
}

// The elements that an inline expression keeps, each followed on from the step at `next`.
#[cycle(evaluation)]
fn follow_each<R: RowView>(
    alloc: Global,
    all: &[Step],
    next: usize,
    row: &R,
    cur: &Value,
    value: &Value,
    filter: &Option<Expr>,
    project: &Option<Expr>,
) -> Result<Value, OutOfMemory>
    ensures { IfOk result (λ v. datum_of v ≡ spec.steps_value
        (inline_then (maybe (option_map tree filter.now)) (maybe (option_map tree project.now))
        (steps (map step_part (drop next all.now))))
        (datum_of cur.now) (R.vars row.now) (datum_of value.now)) }
{
    let mut out = Items::new(alloc);
    for element in elements(value) {
        if is_kept(alloc, filter, row, element)? {
            let given = projection_of(alloc, project, row, element)?;
            out.push(follow_given(alloc, all, next, row, cur, given, element)?)?;
        }
    }
    Ok(Value::List(out))
}

// Whether an inline expression keeps the element.
#[cycle(evaluation)]
fn is_kept<R: RowView>(
    alloc: Global,
    filter: &Option<Expr>,
    row: &R,
    element: &Value,
) -> Result<bool, OutOfMemory>
    ensures { IfOk result (λ b. b ≡ truth (spec.value_or (maybe (option_map tree filter.now))
        (datum_of element.now) (R.vars row.now) (boolean true))) }
{
    match filter {
        Some(filter) => Ok(truthy(&evaluate(alloc, filter, row, element)?)),
        None => Ok(true),
    }
}

// What an inline expression gives for the element; `None` stands for the element itself.
#[cycle(evaluation)]
fn projection_of<R: RowView>(
    alloc: Global,
    project: &Option<Expr>,
    row: &R,
    element: &Value,
) -> Result<Option<Value>, OutOfMemory>
    ensures { IfOk result (λ o. unwrap_or (option_map datum_of o) (datum_of element.now)
        ≡ spec.value_or (maybe (option_map tree project.now)) (datum_of element.now)
        (R.vars row.now)
        (datum_of element.now)) }
{
    match project {
        Some(project) => Ok(Some(evaluate(alloc, project, row, element)?)),
        None => Ok(None),
    }
}

// The steps after an inline expression, for what it gave for an element.
#[cycle(evaluation)]
fn follow_given<R: RowView>(
    alloc: Global,
    all: &[Step],
    at: usize,
    row: &R,
    cur: &Value,
    given: Option<Value>,
    element: &Value,
) -> Result<Value, OutOfMemory>
    ensures { IfOk result
        (λ v. datum_of v ≡ spec.steps_value (steps (map step_part (drop at all.now)))
        (datum_of cur.now) (R.vars row.now)
        (unwrap_or (option_map datum_of given) (datum_of element.now))) }
{
    follow(alloc, all, at, row, cur, value_or(&given, element))
}

#[cycle(evaluation)]
fn evaluate_links<R: RowView>(
    alloc: Global,
    all: &[Link],
    row: &R,
    cur: &Value,
    first: Value,
) -> Result<Value, OutOfMemory>
    ensures { IfOk result (λ v. datum_of v ≡ spec.links_value (links (map link_part all.now))
        (datum_of cur.now) (R.vars row.now) (datum_of first)) }
{
    let mut left = first;
    for link in all {
        left = evaluate_link(alloc, link, row, cur, left)?;
    }
    Ok(left)
}

// `&&` and `||` take the right side only where the left side does not decide.
#[cycle(evaluation)]
fn evaluate_link<R: RowView>(
    alloc: Global,
    link: &Link,
    row: &R,
    cur: &Value,
    left: Value,
) -> Result<Value, OutOfMemory>
    ensures { IfOk result (λ v. datum_of v ≡ operators.binary (link_part link.now).0 (datum_of left)
        (spec.value (link_part link.now).1 (datum_of cur.now) (R.vars row.now))) }
{
    match link.op {
        BinOp::And if !truthy(&left) => Ok(left),
        BinOp::Or if truthy(&left) => Ok(left),
        BinOp::And | BinOp::Or => evaluate(alloc, &link.right, row, cur),
        op => {
            let right = evaluate(alloc, &link.right, row, cur)?;
            binary(alloc, op, &left, &right)
        }
    }
}

// The value of a call by its name.
fn call_by_name(alloc: Global, name: &str, args: &Items) -> Result<Value, OutOfMemory>
    ensures { IfOk result (λ v. datum_of v ≡ call_named name.now args.now) }
{
    match lookup(name) {
        Some(f) => if arity(f).allows(args.len()) {
            call(alloc, f, args)
        } else {
            Ok(Value::Null)
        },
        None => Ok(Value::Null),
    }
}
