//! What a COLLECT is set to: its stage, what it groups by, computes and takes.

ghost use Rattle.std.specs.Prelude.{◌≡◌, List, length, map, option_map, true, IfOk};
ghost use Rattle.std.specs.List.{list_all};
ghost use Rattle.aql_value.specs.Datum.{null};
ghost use Rattle.aql_value.specs.Contents.{list};
ghost use Rattle.aql_value.specs.View.{datum_of, datums_in};
ghost use Rattle.aql_func.specs.Aggregates.{aggregate_named};
ghost use Rattle.aql_tree.specs.declared.syntax.Ident.TheVariants.{Num};
ghost use Rattle.aql_meaning.specs.AtRows.{keys_of};
ghost use Rattle.aql_meaning.specs.Row.{value_at};
ghost use Rattle.aql_meaning.specs.Plain.{AllPlain, MaybePlain};
ghost use Rattle.aql_meaning.specs.Lifted.{IntoPlain};
ghost use Rattle.aql_meaning.specs.Value.{value_or};
ghost use Rattle.aql_meaning.specs.Stages.{arguments_at};
ghost use Rattle.aql_meaning.specs.Visible.{aggregate_vars};
ghost use Rattle.aql_plan.specs.Fits.{AllKnown};
ghost use Rattle.aql_plan.specs.Needs.{sets};
ghost use Rattle.aql_plan.specs.View.{maybe_tree};
ghost use Rattle.aql_exec_rows.specs.Settings.{is_number, criteria_vars, criteria_trees};
ghost use Rattle.aql_exec_rows.specs.Settings.{aggregate_trees, into_of, seen_by};
ghost use Rattle.aql_exec_rows.specs.Settings.{node_of, AreKinds};

use aql_aggregate::{StagedKind, aggregate_kind};
use aql_expr::{RowView, eval};
use aql_meaning::Stage;
use aql_tree::{AggregateItem, Aggregates, Expr, Ident, Into, Let, Lets};
use aql_value::{Items, OutOfMemory, Value, copy};
use std::alloc::Global;

/// The stage of a COLLECT, what it groups by, what it computes and what it takes of each row. Its
/// variables are numbers.
#[derive(Drop)]
pub(crate) struct Grouping {
    pub(crate) stage: Stage,
    pub(crate) criteria: Lets,
    pub(crate) aggregates: Aggregates,
    pub(crate) into: Option<Into>,
    ghost numbered: { list_all is_number (sets (node_of criteria aggregates into)) ≡ true },
}

/// The number of a variable.
pub(crate) fn number_of(var: &Ident) -> u32
    requires { is_number var.now ≡ true }
    ensures { Num result ≡ var.now }
{
    match var {
        Ident::Num(number) => *number,
        Ident::Name(_) => unreachable!(),
    }
}

/// The aggregates that are known, in a stage, in order.
pub(crate) fn kinds_of(
    alloc: Global,
    stage: Stage,
    aggregates: &[AggregateItem],
) -> Result<Vec<StagedKind>, OutOfMemory>
    ensures { IfOk result (λ kinds. AllKnown (aggregate_trees aggregates.now)
        → AreKinds stage aggregates.now kinds.items) }
{
    let mut kinds = Vec::with_capacity(alloc, aggregates.len())?;
    for item in aggregates {
        if let Some(kind) = aggregate_kind(item.name.as_str()) {
            kinds.push(StagedKind { stage, kind })?;
        }
    }
    Ok(kinds)
}

// The value of an argument; null where there is none.
fn argument<R: RowView>(alloc: Global, arg: &Option<Expr>, row: &R) -> Result<Value, OutOfMemory>
    requires { MaybePlain (maybe_tree arg.now) }
    ensures { IfOk result
        (λ v. datum_of v ≡ value_or (maybe_tree arg.now) null (R.vars row.now) null) }
{
    match arg {
        Some(expr) => eval(alloc, expr, row),
        None => Ok(Value::Null),
    }
}

// A copy of the value of a variable; null where the row has no such variable.
fn value_in_row<R: RowView>(alloc: Global, var: &Ident, row: &R) -> Result<Value, OutOfMemory>
    ensures { IfOk result (λ v. datum_of v ≡ value_at (R.vars row.now) var.now) }
{
    match var {
        Ident::Name(_) => Ok(Value::Null),
        Ident::Num(number) => match row.value(*number) {
            Some(value) => copy(alloc, value),
            None => Ok(Value::Null),
        },
    }
}

// The values of the criteria.
fn criteria_values<R: RowView>(
    alloc: Global,
    criteria: &[Let],
    row: &R,
) -> Result<Items, OutOfMemory>
    requires { AllPlain (criteria_trees criteria.now) }
    ensures { IfOk result
        (λ values. values ≡ keys_of (criteria_trees criteria.now) (R.vars row.now)) }
{
    let mut values = Items::new(alloc);
    for item in criteria {
        values.push(eval(alloc, &item.expr, row)?)?;
    }
    Ok(values)
}

// What a row has under the variables of the criteria.
fn criteria_in_row<R: RowView>(
    alloc: Global,
    criteria: &[Let],
    row: &R,
) -> Result<Items, OutOfMemory>
    ensures { IfOk result
        (λ values. values ≡ map (value_at (R.vars row.now)) (criteria_vars criteria.now)) }
{
    let mut values = Items::new(alloc);
    for item in criteria {
        values.push(value_in_row(alloc, &item.var, row)?)?;
    }
    Ok(values)
}

// The values of the arguments of the aggregates.
fn argument_values<R: RowView>(
    alloc: Global,
    aggregates: &[AggregateItem],
    row: &R,
) -> Result<Vec<Value>, OutOfMemory>
    requires { AllKnown (aggregate_trees aggregates.now) }
    ensures { IfOk result (λ values. datums_in values.items
        ≡ arguments_at (aggregate_trees aggregates.now) (R.vars row.now)) }
{
    let mut values = Vec::with_capacity(alloc, aggregates.len())?;
    for item in aggregates {
        values.push(argument(alloc, &item.arg, row)?)?;
    }
    Ok(values)
}

// What a row has under the variables of the aggregates.
fn arguments_in_row<R: RowView>(
    alloc: Global,
    aggregates: &[AggregateItem],
    row: &R,
) -> Result<Vec<Value>, OutOfMemory>
    ensures { IfOk result (λ values. datums_in values.items
        ≡ map (value_at (R.vars row.now)) (aggregate_vars (aggregate_trees aggregates.now))) }
{
    let mut values = Vec::with_capacity(alloc, aggregates.len())?;
    for item in aggregates {
        values.push(value_in_row(alloc, &item.var, row)?)?;
    }
    Ok(values)
}

impl Grouping {
    /// The criteria of a row as one array.
    pub(crate) fn key<R: RowView>(&self, alloc: Global, row: &R) -> Result<Value, OutOfMemory>
        requires { AllPlain (criteria_trees self.now.criteria) }
        ensures { IfOk result (λ v. datum_of v
            ≡ list (seen_by self.now.stage self.now.criteria self.now.aggregates self.now.into
            (R.vars row.now)).criteria) }
    {
        let criteria = self.criteria.as_slice();
        let values = match self.stage {
            Stage::Final => criteria_in_row(alloc, criteria, row)?,
            Stage::Whole | Stage::Partial => criteria_values(alloc, criteria, row)?,
        };
        Ok(Value::List(values))
    }

    /// The arguments of the aggregates at a row, or the states that it has, in order.
    pub(crate) fn arguments<R: RowView>(
        &self,
        alloc: Global,
        row: &R,
    ) -> Result<Vec<Value>, OutOfMemory>
        requires { AllKnown (aggregate_trees self.now.aggregates) }
        ensures { IfOk result (λ values. datums_in values.items
            ≡ (seen_by self.now.stage self.now.criteria self.now.aggregates self.now.into
            (R.vars row.now)).arguments) }
    {
        let aggregates = self.aggregates.as_slice();
        match self.stage {
            Stage::Final => arguments_in_row(alloc, aggregates, row),
            Stage::Whole | Stage::Partial => argument_values(alloc, aggregates, row),
        }
    }

    /// What INTO takes of a row; `None` exactly where there is no INTO.
    pub(crate) fn into_value<R: RowView>(
        &self,
        alloc: Global,
        row: &R,
    ) -> Result<Option<Value>, OutOfMemory>
        requires { IntoPlain (into_of self.now.into) }
        ensures { IfOk result (λ v. option_map datum_of v
            ≡ option_map (λ _. (seen_by self.now.stage self.now.criteria self.now.aggregates
            self.now.into (R.vars row.now)).into_value) self.now.into) }
    {
        let Some(into) = &self.into else {
            return Ok(None);
        };
        match self.stage {
            Stage::Final => Ok(Some(Value::Null)),
            Stage::Whole | Stage::Partial => Ok(Some(argument(alloc, &into.what, row)?)),
        }
    }
}
