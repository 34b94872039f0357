//! The values of one register.

ghost use Rattle.std.specs.Prelude.{ℕ, ◌≡◌, ◌<◌, ◌≤◌, ◌++◌, ◌∷◌, [], length, map, take, drop, replicate, vec_capacity, IfOk, OnOk, OnErr, Some, option_map, slice_get, slice_set};
ghost use Rattle.std.specs.List.{AllByRecursion};
ghost use Rattle.aql_value.specs.Datum.{null};
ghost use Rattle.aql_value.specs.View.{datum_of, datums_in};
ghost use Rattle.aql_block.specs.Rows.{row_of, HasAll};
ghost use Rattle.aql_block.specs.Tables.{cells, marked};
ghost use Rattle.aql_block.specs.Columns.{HasRoom, single_columns, pushed, moved_values, copied_values, values_at, without, first_of, rest_of, marked_of};

use crate::rows::Entry;
use crate::{Row, RowRef};
use aql_value::{OutOfMemory, Value, copy};
use std::alloc::Global;
use std::marker::Model;
use std::mem;

// The values of one register, and how many have room without more memory.
pub(crate) struct Column {
    room: usize,
    values: Vec<Value>,
}

impl Drop for Column {
    fn drop(self) {
        let Column { room: _, values: _ } = self;
    }
}

impl Model for Column {
    ghost use Rattle.std.specs.Prelude.{◌≤◌, vec_capacity};
    ghost use Rattle.aql_block.specs.Columns.{ColumnView, coded_column};

    ghost Value = { ColumnView };

    ghost coded = { coded_column };

    ghost use Rattle.aql_value.specs.View.{datums_in};

    ghost view = { λ c. record { room = c.room; held = datums_in c.values.items } };

    ghost invariant = { λ c. c.room ≤ vec_capacity c.values };
}

impl Column {
    // Without values; takes the memory for its room.
    pub(crate) fn new(alloc: Global, room: usize) -> Result<Column, OutOfMemory>
        ensures { IfOk result (λ c. c ≡ record { room = room; held = [] }) }
    {
        let values = Vec::with_capacity(alloc, room)?;
        Ok(Column { room, values })
    }

    // These values, with no more room.
    pub(crate) fn from_values(values: Vec<Value>) -> Column
        ensures { result ≡ record { room = length values.items; held = datums_in values.items } }
    {
        Column {
            room: values.len(),
            values,
        }
    }

    pub(crate) fn into_values(self) -> Vec<Value>
        ensures { datums_in result.items ≡ self.held }
    {
        let Column { room: _, values } = self;
        values
    }

    pub(crate) fn get(&self, at: usize) -> Option<&Value>
        ensures { option_map (λ v. datum_of v.now) result ≡ slice_get self.now.held at }
    {
        self.values.get(at)
    }

    // Appends a value, where there is room; takes no memory.
    pub(crate) fn push(&mut self, value: Value)
        requires { length self.old.held < self.old.room }
        ensures { self.new ≡
            record self.old { held = self.old.held ++ datum_of value ∷ [] } }
    {
        match self.values.push(value) {
            Ok(()) => {}
            Err(_) => unreachable!(),
        }
    }

    // A copy of a value.
    pub(crate) fn copy(&self, alloc: Global, at: usize) -> Result<Value, OutOfMemory>
        requires { at < length self.now.held }
        ensures { IfOk result (λ v. slice_get self.now.held at ≡ Some (datum_of v)) }
    {
        copy(alloc, &self.values[at])
    }

    // Moves a value out; null takes its place.
    pub(crate) fn take(&mut self, at: usize) -> Value
        requires { at < length self.old.held }
        ensures value { slice_get self.old.held at ≡ Some (datum_of result) }
        ensures rest { self.new ≡ record self.old { held = slice_set self.old.held at null } }
    {
        mem::replace(&mut self.values[at], Value::Null)
    }

    // Keeps the first values.
    pub(crate) fn truncate(&mut self, len: usize)
        ensures { self.new ≡ record self.old { held = take len self.old.held } }
    {
        self.values.truncate(len);
    }

    // Keeps the first values, and hands the others on.
    pub(crate) fn split(&mut self, at: usize) -> Result<Column, OutOfMemory>
        requires { at ≤ length self.old.held }
        ensures first { OnOk result
            (self.new ≡ record self.old { held = take at self.old.held }) }
        ensures rest { IfOk result (λ c. c ≡
            record { room = length (drop at self.old.held); held = drop at self.old.held }) }
    {
        let rest = self.values.split_off(at)?;
        Ok(Column::from_values(rest))
    }

    // Keeps the values whose mark is true.
    pub(crate) fn retain(&mut self, marks: &[bool])
        requires { length self.old.held ≡ length marks.now }
        ensures { self.new ≡ record self.old { held = marked self.old.held marks.now } }
    {
        keep(&mut self.values, marks);
    }
}

// Keeps the values whose mark is true.
fn keep(values: &mut Vec<Value>, marks: &[bool])
    requires { length values.old.items ≡ length marks.now }
    ensures items { values.new.items ≡ marked values.old.items marks.now }
    ensures capacity { vec_capacity values.new ≡ vec_capacity values.old }
{
    let mut kept = 0;
    for (at, mark) in marks.iter().enumerate() {
        if *mark {
            values.swap(kept, at);
            kept += 1;
        }
    }
    values.truncate(kept);
}

// Columns without values.
pub(crate) fn new_columns(
    alloc: Global,
    count: usize,
    room: usize,
) -> Result<Vec<Column>, OutOfMemory>
    ensures { IfOk result
        (λ cs. cs.items ≡ replicate count (record { room = room; held = [] })) }
{
    let mut columns = Vec::with_capacity(alloc, count)?;
    for _made in 0..count {
        columns.push(Column::new(alloc, room)?)?;
    }
    Ok(columns)
}

// The variables of a row, and a column of the one value for each.
pub(crate) fn row_columns(alloc: Global, row: Row) -> Result<(Vec<u32>, Vec<Column>), OutOfMemory>
    ensures registers { IfOk result (λ both. both.0.items ≡ map (λ e. e.0) row) }
    ensures columns { IfOk result (λ both. both.1.items ≡ single_columns row) }
{
    let mut registers = Vec::new(alloc);
    let mut columns = Vec::new(alloc);
    for entry in row.into_entries() {
        let (var, value) = entry.into_parts();
        registers.push(var)?;
        columns.push(Column::from_values(vec![in alloc; value]?))?;
    }
    Ok((registers, columns))
}

// Moves the values of a row to the ends of the columns.
pub(crate) fn push_values(registers: &[u32], columns: &mut [Column], row: &mut Row)
    requires count { length columns.old ≡ length registers.now }
    requires room { AllByRecursion HasRoom columns.old }
    requires all { HasAll registers.now (row_of row.old) }
    ensures { columns.new ≡ pushed columns.old (moved_values registers.now (row_of row.old)) }
{
    for (at, register) in registers.iter().enumerate() {
        let value = row.take(*register);
        columns[at].push(value);
    }
}

// Pushes copies of the values of a row to the ends of the columns, and `value` itself to that of
// `var`. Where memory runs out some columns have one more value.
pub(crate) fn push_copies(
    alloc: Global,
    registers: &[u32],
    columns: &mut [Column],
    row: &RowRef<'_>,
    var: u32,
    mut value: Value,
) -> Result<(), OutOfMemory>
    requires count { length columns.old ≡ length registers.now }
    requires room { AllByRecursion HasRoom columns.old }
    ensures ok { OnOk result (columns.new ≡ pushed columns.old
        (copied_values registers.now var (row_of row.now) (datum_of value))) }
    ensures err { OnErr result ((n : ℕ) → AllByRecursion (λ c. length c.held ≡ n) columns.old
        → map (first_of n) columns.new ≡ columns.old) }
{
    for (at, register) in registers.iter().enumerate() {
        let next = if *register == var {
            mem::replace(&mut value, Value::Null)
        } else {
            row.copy_value(alloc, *register)?
        };
        columns[at].push(next);
    }
    Ok(())
}

// Moves the values at a place out of the columns, as a row; null takes their place. The row is made
// in `entries`, which is empty and has the memory for it.
pub(crate) fn take_values(
    registers: &[u32],
    columns: &mut [Column],
    at: usize,
    mut entries: Vec<Entry>,
) -> Row
    requires count { length columns.old ≡ length registers.now }
    requires place { AllByRecursion (λ c. at < length c.held) columns.old }
    requires empty { entries.items ≡ [] }
    requires memory { length registers.now ≤ vec_capacity entries }
    ensures row { result ≡ cells registers.now (values_at columns.old at) }
    ensures rest { columns.new ≡ map (without at) columns.old }
{
    for (place, register) in registers.iter().enumerate() {
        let value = columns[place].take(at);
        match entries.push(Entry {
            var: *register,
            value,
        }) {
            Ok(()) => {}
            Err(_) => unreachable!(),
        }
    }
    Row { entries }
}

// A copy of the values at a place, as a row with room for one more.
pub(crate) fn copy_values(
    alloc: Global,
    registers: &[u32],
    columns: &[Column],
    at: usize,
) -> Result<Row, OutOfMemory>
    requires count { length columns.now ≡ length registers.now }
    requires place { AllByRecursion (λ c. at < length c.held) columns.now }
    ensures { IfOk result (λ row. row ≡ cells registers.now (values_at columns.now at)) }
{
    let mut entries = Vec::with_capacity(alloc, registers.len().saturating_add(1))?;
    for (place, register) in registers.iter().enumerate() {
        let value = columns[place].copy(alloc, at)?;
        entries.push(Entry {
            var: *register,
            value,
        })?;
    }
    Ok(Row { entries })
}

// Keeps in each column the first values.
pub(crate) fn truncate_all(columns: &mut [Column], len: usize)
    ensures { columns.new ≡ map (first_of len) columns.old }
{
    for column in columns {
        column.truncate(len);
    }
}

// Keeps in each column the values whose mark is true.
pub(crate) fn retain_all(columns: &mut [Column], marks: &[bool])
    requires { AllByRecursion (λ c. length c.held ≡ length marks.now) columns.old }
    ensures { columns.new ≡ map (marked_of marks.now) columns.old }
{
    for column in columns {
        column.retain(marks);
    }
}

// Keeps in each column the first values, and hands the others on.
pub(crate) fn split_all(
    alloc: Global,
    columns: &mut [Column],
    at: usize,
) -> Result<Vec<Column>, OutOfMemory>
    requires { AllByRecursion (λ c. at ≤ length c.held) columns.old }
    ensures first { OnOk result (columns.new ≡ map (first_of at) columns.old) }
    ensures rest { IfOk result (λ cs. cs.items ≡ map (rest_of at) columns.old) }
{
    let mut rest = Vec::with_capacity(alloc, columns.len())?;
    for column in columns {
        rest.push(column.split(at)?)?;
    }
    Ok(rest)
}
