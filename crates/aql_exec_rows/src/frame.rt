//! The rows of groups.

ghost use Rattle.std.specs.Prelude.{◌≡◌, ◌≤◌, ◌<◌, ◌+◌, ◌++◌, [], length, map, drop, option_map, option_to_list, reverse, true, IfOk, OnOk};
ghost use Rattle.std.specs.List.{list_all};
ghost use Rattle.aql_value.specs.View.{datum_of, datums_in};
ghost use Rattle.aql_value.specs.Contents.{elements};
ghost use Rattle.aql_func.specs.Arguments.{argument};
ghost use Rattle.aql_tree.specs.declared.syntax.Ident.TheVariants.{Num};
ghost use Rattle.aql_meaning.specs.Row.{bind_all};
ghost use Rattle.aql_meaning.specs.Visible.{aggregate_vars, into_var};
ghost use Rattle.aql_block.specs.Rows.{row_of};
ghost use Rattle.aql_block.specs.Tables.{rows_of};
ghost use Rattle.aql_exec_rows.specs.Settings.{is_number, criteria_vars, aggregate_trees, into_of};
ghost use Rattle.aql_exec_rows.specs.Framed.{numbered, IsFrame, framed, FitsFrame};
ghost use Rattle.aql_exec_rows.specs.GroupStates.{finished_of, finished_in};

use crate::group::Finished;
use crate::grouping::{Grouping, number_of};
use aql_block::{Block, Row};
use aql_tree::{AggregateItem, Into, Let};
use aql_value::{OutOfMemory, Value, copy};
use std::alloc::Global;

/// What is common to the rows of all groups: the start row, and the variables that are set in it.
#[derive(Drop)]
pub(crate) struct Frame {
    start: Row,
    criteria: Vec<u32>,
    aggregates: Vec<u32>,
    into: Option<u32>,
    /// the variables of each row
    registers: Vec<u32>,
}

// The numbers of the variables of the criteria.
fn criteria_numbers(alloc: Global, all: &[Let]) -> Result<Vec<u32>, OutOfMemory>
    requires { list_all is_number (criteria_vars all.now) ≡ true }
    ensures { IfOk result (λ numbers. numbered numbers.items ≡ criteria_vars all.now) }
{
    let mut numbers = Vec::with_capacity(alloc, all.len())?;
    for item in all {
        numbers.push(number_of(&item.var))?;
    }
    Ok(numbers)
}

// The numbers of the variables of the aggregates.
fn aggregate_numbers(alloc: Global, all: &[AggregateItem]) -> Result<Vec<u32>, OutOfMemory>
    requires { list_all is_number (aggregate_vars (aggregate_trees all.now)) ≡ true }
    ensures { IfOk result
        (λ numbers. numbered numbers.items ≡ aggregate_vars (aggregate_trees all.now)) }
{
    let mut numbers = Vec::with_capacity(alloc, all.len())?;
    for item in all {
        numbers.push(number_of(&item.var))?;
    }
    Ok(numbers)
}

// The number of the variable of INTO.
fn into_number(into: &Option<Into>) -> Option<u32>
    requires { list_all is_number (option_to_list (into_var (into_of into.now))) ≡ true }
    ensures { option_map (λ n. Num n) result ≡ into_var (into_of into.now) }
{
    match into {
        Some(into) => Some(number_of(&into.var)),
        None => None,
    }
}

// Copies of values.
fn copies(alloc: Global, values: &[Value]) -> Result<Vec<Value>, OutOfMemory>
    ensures { IfOk result (λ all. datums_in all.items ≡ datums_in values.now) }
{
    let mut all = Vec::with_capacity(alloc, values.len())?;
    for value in values {
        all.push(copy(alloc, value)?)?;
    }
    Ok(all)
}

// Takes the last value; null where there is none.
fn last_or_null(values: &mut Vec<Value>) -> Value
    ensures value { datum_of result ≡ argument (reverse (datums_in values.old.items)) 0 }
    ensures rest { reverse (datums_in values.new.items)
        ≡ drop 1 (reverse (datums_in values.old.items)) }
{
    match values.pop() {
        Some(value) => value,
        None => Value::Null,
    }
}

// Sets each variable to the value at its place; to null where there is none.
fn set_all(row: &mut Row, vars: &[u32], mut values: Vec<Value>) -> Result<(), OutOfMemory>
    ensures { OnOk result (row_of row.new
        ≡ bind_all (numbered vars.now) (datums_in values.items) (row_of row.old)) }
{
    values.reverse();
    for var in vars {
        row.set(*var, last_or_null(&mut values))?;
    }
    Ok(())
}

impl Frame {
    /// Of no variables.
    pub(crate) fn none(alloc: Global) -> Frame {
        Frame {
            start: Row::new(alloc),
            criteria: Vec::new(alloc),
            aggregates: Vec::new(alloc),
            into: None,
            registers: Vec::new(alloc),
        }
    }

    /// Of a grouping and a start row.
    pub(crate) fn new(alloc: Global, grouping: &Grouping, start: &Row) -> Result<Frame, OutOfMemory>
        ensures start { IfOk result (λ frame. frame.start ≡ start.now) }
        ensures is { IfOk result (λ frame. IsFrame grouping.now frame) }
    {
        let mut frame = Frame {
            start: start.copy(alloc)?,
            criteria: criteria_numbers(alloc, grouping.criteria.as_slice())?,
            aggregates: aggregate_numbers(alloc, grouping.aggregates.as_slice())?,
            into: into_number(&grouping.into),
            registers: Vec::new(alloc),
        };
        frame.registers = frame.all_registers(alloc)?;
        Ok(frame)
    }

    // The variables of each row.
    fn all_registers(&self, alloc: Global) -> Result<Vec<u32>, OutOfMemory>
        ensures { IfOk result (λ registers. FitsFrame self.now registers.items) }
    {
        let row = self.row(alloc, Finished::empty(alloc))?;
        let block = Block::from_row(alloc, row)?;
        let registers = Vec::from_slice(alloc, block.registers())?;
        Ok(registers)
    }

    // The row of a group.
    fn row(&self, alloc: Global, group: Finished) -> Result<Row, OutOfMemory>
        ensures { IfOk result (λ row. row_of row ≡ framed self.now (finished_of group)) }
    {
        let Finished {
            criteria,
            aggregates,
            taken,
        } = group;
        let mut row = self.start.copy(alloc)?;
        set_all(&mut row, &self.criteria, criteria_values(alloc, criteria)?)?;
        set_all(&mut row, &self.aggregates, aggregates)?;
        if let Some(var) = self.into {
            row.set(var, Value::List(taken))?;
        }
        Ok(row)
    }

    /// The rows of the last groups, the last first, at most so many.
    pub(crate) fn take_last(
        &self,
        alloc: Global,
        groups: &mut Vec<Finished>,
        most: u64,
    ) -> Result<Block, OutOfMemory>
        requires most { 1 ≤ most }
        requires fits { FitsFrame self.now self.now.registers.items }
        ensures most { IfOk result (λ block. length (rows_of block) ≤ most) }
        ensures rows { IfOk result (λ block.
            map (framed self.now) (reverse (finished_in groups.old.items))
            ≡ rows_of block ++ map (framed self.now) (reverse (finished_in groups.new.items))) }
        ensures none { IfOk result
            (λ block. length (rows_of block) ≡ 0 → groups.new.items ≡ []) }
    {
        let count = most.min(groups.len() as u64).min(u64::from(u32::MAX)) as u32;
        let mut block = Block::new(alloc, &self.registers, count)?;
        for _taken in 0..count {
            self.move_last(alloc, groups, &mut block)?;
        }
        Ok(block)
    }

    // Moves the last group to a block that isn't full.
    fn move_last(
        &self,
        alloc: Global,
        groups: &mut Vec<Finished>,
        block: &mut Block,
    ) -> Result<(), OutOfMemory>
        requires some { 1 ≤ length groups.old.items }
        requires room { length (rows_of block.old) < block.old.room }
        requires fits { FitsFrame self.now block.old.registers }
        ensures registers { block.new.registers ≡ block.old.registers }
        ensures room { block.new.room ≡ block.old.room }
        ensures more { OnOk result (length (rows_of block.new) ≡ length (rows_of block.old) + 1) }
        ensures fewer { OnOk result (length groups.new.items + 1 ≡ length groups.old.items) }
        ensures rows { OnOk result
            (rows_of block.new ++ map (framed self.now) (reverse (finished_in groups.new.items))
            ≡ rows_of block.old
            ++ map (framed self.now) (reverse (finished_in groups.old.items))) }
    {
        match groups.pop() {
            Some(last) => {
                let row = self.row(alloc, last)?;
                match block.append(row) {
                    Ok(()) => Ok(()),
                    Err(_) => unreachable!(),
                }
            }
            None => unreachable!(),
        }
    }
}

// The elements of an array; none where it is no array.
fn criteria_values(alloc: Global, criteria: Value) -> Result<Vec<Value>, OutOfMemory>
    ensures { IfOk result (λ values. datums_in values.items ≡ elements (datum_of criteria)) }
{
    match criteria.into_items() {
        Some(items) => copies(alloc, items.as_slice()),
        None => Ok(Vec::new(alloc)),
    }
}
