//! simplify-conditions: constant expressions become literals, and access to a member of an object
//! literal becomes the member.

ghost use Rattle.std.specs.Prelude.{◌≡◌, IfOk, MatchOption, Some, None, map, option_map, cond};
ghost use Rattle.aql_value.specs.Datum.{null};
ghost use Rattle.aql_value.specs.View.{datum_of};
ghost use Rattle.aql_tree.specs.Tree.{literal};
ghost use Rattle.aql_tree.specs.View.{tree, members, member_part, steps, step_part};
ghost use Rattle.aql_rules_calc.specs.SimplifyConditions.{is_scalar as spec_is_scalar};
ghost use Rattle.aql_rules_calc.specs.SimplifyConditions.{is_literal as spec_is_literal};
ghost use Rattle.aql_rules_calc.specs.SimplifyConditions.{all_named as spec_all_named};
ghost use Rattle.aql_rules_calc.specs.SimplifyConditions.{IsComputed};
ghost use Rattle.aql_rules_calc.specs.SimplifyConditions.{constant_value as spec_constant_value};
ghost use Rattle.aql_meaning.specs.Plain.{IsPlain};
ghost use Rattle.aql_rules_calc.specs.SimplifyConditions.{with_steps as spec_with_steps};
ghost use Rattle.aql_rules_calc.specs.SimplifyConditions.{last_of as spec_last_of};
ghost use Rattle.aql_rules_calc.specs.inner.Members.{access_in as spec_access_in, members_in};
ghost use Rattle.aql_rules_calc.specs.inner.Members.{name_in};
ghost use Rattle.aql_rules_calc.specs.inner.Members.{named_in, or_null, member_taken};

use aql_expr::{RowView, eval};
use aql_rewrite::{ExprRule, is_constant};
use aql_tree::{Expr, Field, Step, Steps, copy_expr, copy_maybe};
use aql_value::{OutOfMemory, Seq, Value};
use std::alloc::Global;

// The row without variables.
#[derive(Clone, Copy, Drop)]
struct NoVariables;

impl RowView for NoVariables {
    ghost use Rattle.std.proofs.Common.{refl};
    ghost use Rattle.aql_meaning.specs.Row.{empty_row};

    ghost vars = { λ _. empty_row };

    fn value(&self, _var: u32) -> Option<&Value> {
        None
    }

    ghost numbered = { λ row name. refl };
}

/// The value of an expression without variables.
pub fn constant_value(alloc: Global, expr: &Expr) -> Result<Value, OutOfMemory>
    requires { IsPlain (tree expr.now) }
    ensures { IfOk result (λ v. datum_of v ≡ spec_constant_value (tree expr.now)) }
{
    eval(alloc, expr, &NoVariables)
}

fn is_literal(expr: &Expr) -> bool
    ensures { result ≡ spec_is_literal (tree expr.now) }
{
    match expr {
        Expr::Lit(_) => true,
        _ => false,
    }
}

fn is_scalar(value: &Value) -> bool
    ensures { result ≡ spec_is_scalar (datum_of value.now) }
{
    match value {
        Value::Null | Value::Bool(_) | Value::Num(_) => true,
        _ => false,
    }
}

// The literal that a constant expression becomes, if it does.
fn fold_constant(alloc: Global, expr: &Expr) -> Result<Option<Expr>, OutOfMemory>
    ensures { IfOk result (λ found. MatchOption found (IsComputed (tree expr.now) → ⊥)
        (λ new. IsComputed (tree expr.now)
        × (tree new ≡ literal (spec_constant_value (tree expr.now))))) }
{
    if is_literal(expr) {
        return Ok(None);
    }
    if !is_constant(alloc, expr)? {
        return Ok(None);
    }
    let value = constant_value(alloc, expr)?;
    if !is_scalar(&value) {
        return Ok(None);
    }
    Ok(Some(Expr::Lit(value)))
}

// `of.name[e]..`.
#[derive(Clone, Copy, Drop)]
struct AccessParts<'a> {
    of: &'a Expr,
    steps: &'a [Step],
}

fn access_in(expr: &Expr) -> Option<AccessParts<'_>>
    ensures { MatchOption result (spec_access_in (tree expr.now) ≡ None)
        (λ a. spec_access_in (tree expr.now)
        ≡ Some (tree a.of.now, steps (map step_part a.steps.now))) }
{
    match expr {
        Expr::Access { of, steps } => Some(AccessParts {
            of,
            steps: steps.as_slice(),
        }),
        _ => None,
    }
}

fn fields_in(expr: &Expr) -> Option<&[Field]>
    ensures { MatchOption result (members_in (tree expr.now) ≡ None)
        (λ fs. members_in (tree expr.now) ≡ Some (members (map member_part fs.now))) }
{
    match expr {
        Expr::Object(fields) => Some(fields.as_slice()),
        _ => None,
    }
}

// `.name` with the steps after it.
#[derive(Clone, Copy, Drop)]
struct NamedStep<'a> {
    name: &'a str,
    rest: &'a [Step],
}

fn named_step(all: &[Step]) -> Option<NamedStep<'_>>
    ensures { MatchOption result (name_in (steps (map step_part all.now)) ≡ None)
        (λ s. name_in (steps (map step_part all.now))
        ≡ Some (s.name.now, steps (map step_part s.rest.now))) }
{
    match all.split_first() {
        Some((Step::Name(name), rest)) => Some(NamedStep {
            name: name.as_str(),
            rest,
        }),
        _ => None,
    }
}

fn all_named(fields: &[Field]) -> bool
    ensures { result ≡ spec_all_named (members (map member_part fields.now)) }
{
    for field in fields {
        match field {
            Field::Named { .. } => {}
            Field::Computed { .. } => return false,
        }
    }
    true
}

// The value of a member of this name, else what was found before.
fn value_if_named<'a>(field: &'a Field, name: &str, before: Option<&'a Expr>) -> Option<&'a Expr>
    ensures { or_null result ≡ named_in name.now (member_part field.now) (or_null before.entry) }
{
    match field {
        Field::Named { name: own, value } => {
            if name == own.as_str() {
                return Some(value);
            }
            before
        }
        Field::Computed { name: _, value: _ } => before,
    }
}

// The last member of a name, null where there is none.
fn last_of(alloc: Global, fields: &[Field], name: &str) -> Result<Expr, OutOfMemory>
    ensures { IfOk result (λ e. tree e
        ≡ spec_last_of name.now (members (map member_part fields.now)) (literal null)) }
{
    let mut found = None;
    for field in fields {
        found = value_if_named(field, name, found);
    }
    match found {
        Some(expr) => copy_expr(alloc, expr),
        None => Ok(Expr::Lit(Value::Null)),
    }
}

fn copy_step(alloc: Global, step: &Step) -> Result<Step, OutOfMemory>
    ensures { IfOk result (λ s. step_part s ≡ step_part step.now) }
{
    match step {
        Step::Name(name) => Ok(Step::Name(name.copy(alloc)?)),
        Step::At(expr) => Ok(Step::At(copy_expr(alloc, expr)?)),
        Step::Each { filter, project } => {
            let filter = copy_maybe(alloc, filter)?;
            let project = copy_maybe(alloc, project)?;
            Ok(Step::Each { filter, project })
        }
    }
}

fn copy_steps(alloc: Global, all: &[Step]) -> Result<Steps, OutOfMemory>
    ensures { IfOk result (λ out. map step_part out ≡ map step_part all.now) }
{
    let mut out = Seq::new(alloc);
    for step in all {
        out.push(copy_step(alloc, step)?)?;
    }
    Ok(out)
}

fn with_steps(alloc: Global, of: Expr, rest: &[Step]) -> Result<Expr, OutOfMemory>
    ensures { IfOk result
        (λ e. tree e ≡ spec_with_steps (tree of) (steps (map step_part rest.now))) }
{
    if rest.is_empty() {
        return Ok(of);
    }
    let steps = copy_steps(alloc, rest)?;
    Expr::access(alloc, of, steps)
}

// The member with the steps after the name, where all names are fixed.
fn member_access(
    alloc: Global,
    fields: &[Field],
    name: &str,
    rest: &[Step],
) -> Result<Option<Expr>, OutOfMemory>
    ensures { IfOk result (λ found. option_map tree found
        ≡ cond (spec_all_named (members (map member_part fields.now)))
        (Some (spec_with_steps
        (spec_last_of name.now (members (map member_part fields.now)) (literal null))
        (steps (map step_part rest.now)))) None) }
{
    if !all_named(fields) {
        return Ok(None);
    }
    let member = last_of(alloc, fields, name)?;
    let whole = with_steps(alloc, member, rest)?;
    Ok(Some(whole))
}

fn member_at(alloc: Global, expr: &Expr) -> Result<Option<Expr>, OutOfMemory>
    ensures { IfOk result (λ found. option_map tree found ≡ member_taken (tree expr.now)) }
{
    match access_in(expr) {
        Some(found) => match fields_in(found.of) {
            Some(fields) => match named_step(found.steps) {
                Some(step) => member_access(alloc, fields, step.name, step.rest),
                None => Ok(None),
            },
            None => Ok(None),
        },
        None => Ok(None),
    }
}

/// The rule simplify-conditions, on expressions: a constant expression that is no literal and whose
/// value is null, a bool or a number becomes this literal; else, where an expression begins with
/// access to a name of an object literal whose names are all fixed, the member takes their place.
#[derive(Clone, Copy, Drop)]
pub struct SimplifyConditions;

impl ExprRule for SimplifyConditions {
    ghost use Rattle.aql_rules_calc.specs.SimplifyConditions.{Simplifies};
    ghost use Rattle.aql_rules_calc.specs.laws.Simplified.{simplifies_keep, simplifies_fall};

    ghost rewrites = { λ _. Simplifies };

    fn at(&self, alloc: Global, expr: &Expr) -> Result<Option<Expr>, OutOfMemory> {
        match fold_constant(alloc, expr)? {
            Some(new) => Ok(Some(new)),
            None => member_at(alloc, expr),
        }
    }

    ghost keeps = { λ _ p q h. simplifies_keep p q h };

    ghost falls = { λ _ p q h. simplifies_fall p q h };
}
