//! Blocks of rows.

ghost use Rattle.std.specs.Prelude.{◌≡◌, ◌<◌, ◌^◌, ◌↔◌, ◌++◌, ◌∷◌, [], ◌≤◌, length, map, take, drop, false, IsTrue, IsNone, IsErr, IfSome, IfOk, IfErr, OnOk, OnErr, Some, MatchOption, option_map, slice_get, slice_set};
ghost use Rattle.aql_value.specs.View.{datum_of, datums_in};
ghost use Rattle.aql_tree.specs.declared.syntax.Ident.TheVariants.{Num};
ghost use Rattle.aql_meaning.specs.Row.{empty_row, bind, value_at};
ghost use Rattle.aql_meaning.specs.Clauses.{with_values};
ghost use Rattle.aql_block.specs.Rows.{row_of, HasAll, is_among, only, IsFirst};
ghost use Rattle.aql_block.specs.Tables.{cells, cells_at, rows_of, marked};

use crate::Row;
use crate::columns::{
    Column, copy_values, new_columns, push_copies, push_values, retain_all, row_columns, split_all,
    take_values, truncate_all,
};
use aql_value::{OutOfMemory, Value, copy};
use std::alloc::Global;
use std::marker::Model;

/// Rows that all have the same variables, the registers, with room for so many. It is held by
/// columns: one list of values a register. Contracts see a table and speak of its rows, `rows_of`.
pub struct Block {
    registers: Vec<u32>,
    columns: Vec<Column>,
    rows: u32,
    room: u32,
}

/// A row of a block, borrowed. Contracts see its entries, as those of a `Row`.
#[derive(Drop)]
pub struct RowRef<'a> {
    block: &'a Block,
    at: u32,
}

impl Drop for Block {
    fn drop(self) {
        let Block {
            registers: _,
            columns: _,
            rows: _,
            room: _,
        } = self;
    }
}

impl Model for Block {
    ghost use Rattle.aql_block.specs.Tables.{Table, coded_table};

    ghost Value = { Table };

    ghost coded = { coded_table };

    ghost use Rattle.aql_block.specs.Columns.{rows_in, IsFilled};

    ghost view = { λ b. record {
      registers = b.registers.items;
      room = b.room;
      values = rows_in b.rows b.columns.items;
    } };

    ghost invariant = { λ b. IsFilled b.registers.items b.columns.items b.rows b.room };
}

impl<'a> Model for RowRef<'a> {
    ghost use Rattle.std.specs.Prelude.{ℕ, ◌<◌, List, length};
    ghost use Rattle.aql_value.specs.Datum.{Datum};
    ghost use Rattle.aql_block.specs.Rows.{coded_entries};
    ghost use Rattle.aql_block.specs.Tables.{cells_at};

    ghost Value = { List (ℕ × Datum) };

    ghost coded = { coded_entries };

    ghost view = { λ r. cells_at r.block.now r.at };

    ghost invariant = { λ r. r.at < length r.block.now.values };
}

impl Block {
    /// No rows, with these registers; takes the memory for `room` rows.
    pub fn new(alloc: Global, registers: &[u32], room: u32) -> Result<Block, OutOfMemory>
        ensures { IfOk result
            (λ b. b ≡ record { registers = registers.now; room = room; values = [] }) }
    {
        let own = copy_registers(alloc, registers)?;
        let columns = new_columns(alloc, own.len(), room as usize)?;
        Ok(Block {
            registers: own,
            columns,
            rows: 0,
            room,
        })
    }

    /// No rows, no registers and no room; takes no memory.
    pub fn empty(alloc: Global) -> Block
        ensures { result ≡ record { registers = []; room = 0; values = [] } }
    {
        Block {
            registers: Vec::new(alloc),
            columns: Vec::new(alloc),
            rows: 0,
            room: 0,
        }
    }

    /// No rows, with the registers of this block and one more in front; takes the memory for `room`
    /// rows.
    pub fn with_register(&self, alloc: Global, var: u32, room: u32) -> Result<Block, OutOfMemory>
        ensures { IfOk result (λ b. b ≡
            record { registers = var ∷ self.now.registers; room = room; values = [] }) }
    {
        let mut registers = copy_registers(alloc, &self.registers)?;
        registers.insert(0, var)?;
        let columns = new_columns(alloc, registers.len(), room as usize)?;
        Ok(Block {
            registers,
            columns,
            rows: 0,
            room,
        })
    }

    /// The one row, with its variables as registers and no more room. Its values are moved.
    pub fn from_row(alloc: Global, row: Row) -> Result<Block, OutOfMemory>
        ensures rows { IfOk result (λ b. rows_of b ≡ row_of row ∷ []) }
        ensures room { IfOk result (λ b. b.room ≡ 1) }
    {
        let (registers, columns) = row_columns(alloc, row)?;
        Ok(Block {
            registers,
            columns,
            rows: 1,
            room: 1,
        })
    }

    /// A row of the one variable for each of the values, and no more room. The values are moved.
    pub fn from_values(alloc: Global, var: u32, values: Vec<Value>) -> Result<Block, OutOfMemory>
        requires { length values.items < 2 ^ 32 }
        ensures rows { IfOk result
            (λ b. rows_of b ≡ map (bind (Num var) empty_row) (datums_in values.items)) }
        ensures registers { IfOk result (λ b. b.registers ≡ var ∷ []) }
        ensures room { IfOk result (λ b. b.room ≡ length values.items) }
    {
        let rows = values.len() as u32;
        let registers = vec![in alloc; var]?;
        let columns = vec![in alloc; Column::from_values(values)]?;
        Ok(Block {
            registers,
            columns,
            rows,
            room: rows,
        })
    }

    /// How many rows the block holds.
    pub fn len(&self) -> u32
        ensures { result ≡ length (rows_of self.now) }
    {
        self.rows
    }

    /// For how many rows there is room.
    pub fn room(&self) -> u32
        ensures room { result ≡ self.now.room }
        ensures within { length (rows_of self.now) ≤ self.now.room }
    {
        self.room
    }

    /// Whether as many rows are held as there is room for.
    pub fn is_full(&self) -> bool
        ensures { IsTrue result ↔ (length (rows_of self.now) ≡ self.now.room) }
    {
        self.rows == self.room
    }

    /// The registers, in their order.
    pub fn registers(&self) -> &[u32]
        ensures { result.now ≡ self.now.registers }
    {
        self.registers.as_slice()
    }

    /// Appends a row: of its values those of the registers, which are moved. Hands the row back
    /// exactly where the block is full. Takes no memory.
    pub fn append(&mut self, mut row: Row) -> Result<(), Row>
        requires { HasAll self.old.registers (row_of row) }
        ensures full { IsErr result ↔ (length (rows_of self.old) ≡ self.old.room) }
        ensures ok { OnOk result
            (rows_of self.new ≡ rows_of self.old ++ only self.old.registers (row_of row) ∷ []) }
        ensures err { IfErr result (λ back. (back ≡ row) × (self.new ≡ self.old)) }
        ensures registers { self.new.registers ≡ self.old.registers }
        ensures room { self.new.room ≡ self.old.room }
    {
        if self.is_full() {
            return Err(row);
        }
        push_values(&self.registers, &mut self.columns, &mut row);
        self.rows += 1;
        Ok(())
    }

    /// Appends a copy of a row with one more value; where memory runs out the block stays as it
    /// was. Needs a block that isn't full.
    pub fn append_with(
        &mut self,
        alloc: Global,
        row: &RowRef<'_>,
        var: u32,
        value: Value,
    ) -> Result<(), OutOfMemory>
        requires room { length (rows_of self.old) < self.old.room }
        requires all { HasAll self.old.registers
            (bind (Num var) (row_of row.now) (datum_of value)) }
        ensures ok { OnOk result (rows_of self.new ≡ rows_of self.old
            ++ only self.old.registers (bind (Num var) (row_of row.now) (datum_of value)) ∷ []) }
        ensures err { OnErr result (self.new ≡ self.old) }
        ensures registers { self.new.registers ≡ self.old.registers }
        ensures room { self.new.room ≡ self.old.room }
    {
        match push_copies(alloc, &self.registers, &mut self.columns, row, var, value) {
            Ok(()) => {
                self.rows += 1;
                Ok(())
            }
            Err(error) => {
                truncate_all(&mut self.columns, self.rows as usize);
                Err(error)
            }
        }
    }

    /// The row at a place, counted from 0; `None` exactly where there is no such row.
    pub fn row(&self, at: u32) -> Option<RowRef<'_>>
        ensures { option_map row_of result ≡ slice_get (rows_of self.now) at }
    {
        if at < self.rows {
            Some(RowRef { block: self, at })
        } else {
            None
        }
    }

    /// Moves the row at a place out, which then has null in each register; where memory runs out
    /// the block stays as it was.
    pub fn take_row(&mut self, alloc: Global, at: u32) -> Result<Row, OutOfMemory>
        requires { at < length (rows_of self.old) }
        ensures row { IfOk result (λ row. slice_get (rows_of self.old) at ≡ Some (row_of row)) }
        ensures rest { OnOk result (rows_of self.new
            ≡ slice_set (rows_of self.old) at (row_of (cells self.old.registers []))) }
        ensures err { OnErr result (self.new ≡ self.old) }
        ensures registers { self.new.registers ≡ self.old.registers }
        ensures room { self.new.room ≡ self.old.room }
    {
        let entries = Vec::with_capacity(alloc, self.registers.len())?;
        Ok(take_values(&self.registers, &mut self.columns, at as usize, entries))
    }

    /// Sets a variable in each row, to the value at the row's place. The values are moved, and the
    /// block has no more room after that. Where memory runs out the block stays as it was, and the
    /// values are dropped.
    pub fn set(&mut self, var: u32, values: Vec<Value>) -> Result<(), OutOfMemory>
        requires { length values.items ≡ length (rows_of self.old) }
        ensures ok { OnOk result (rows_of self.new
            ≡ with_values (Num var) (rows_of self.old) (datums_in values.items)) }
        ensures registers { OnOk result (self.new.registers ≡ var ∷ self.old.registers) }
        ensures room { OnOk result (self.new.room ≡ length (rows_of self.old)) }
        ensures err { OnErr result (self.new ≡ self.old) }
    {
        self.registers.reserve(1)?;
        self.columns.insert(0, Column::from_values(values))?;
        self.registers.insert(0, var)?;
        self.room = self.rows;
        Ok(())
    }

    /// The values of a variable in all rows, moved out; `None` exactly where it is no register.
    pub fn into_values(self, var: u32) -> Option<Vec<Value>>
        ensures found { IsNone result ↔ (is_among self.registers (Num var) ≡ false) }
        ensures values { IfSome result
            (λ vs. map (λ row. row (Num var)) (rows_of self) ≡ map Some (datums_in vs.items)) }
    {
        let at = index_of(&self.registers, var)?;
        let Block {
            registers: _,
            mut columns,
            rows: _,
            room: _,
        } = self;
        Some(columns.swap_remove(at).into_values())
    }

    /// Keeps the rows whose mark is true, in their order. Takes no memory.
    pub fn retain(&mut self, marks: &[bool])
        requires { length marks.now ≡ length (rows_of self.old) }
        ensures rows { rows_of self.new ≡ marked (rows_of self.old) marks.now }
        ensures registers { self.new.registers ≡ self.old.registers }
        ensures room { self.new.room ≡ self.old.room }
    {
        retain_all(&mut self.columns, marks);
        self.rows = count_of(marks);
    }

    /// Keeps the first `len` rows. Takes no memory.
    pub fn truncate(&mut self, len: u32)
        ensures rows { rows_of self.new ≡ take len (rows_of self.old) }
        ensures registers { self.new.registers ≡ self.old.registers }
        ensures room { self.new.room ≡ self.old.room }
    {
        truncate_all(&mut self.columns, len as usize);
        self.rows = self.rows.min(len);
    }

    /// The first `at` rows, with the room of this block, and the others, with no more room. Both
    /// have its registers. The values are moved.
    pub fn split(self, alloc: Global, at: u32) -> Result<(Block, Block), OutOfMemory>
        ensures first { IfOk result (λ both. rows_of both.0 ≡ take at (rows_of self)) }
        ensures rest { IfOk result (λ both. rows_of both.1 ≡ drop at (rows_of self)) }
        ensures registers { IfOk result (λ both.
            (both.0.registers ≡ self.registers) × (both.1.registers ≡ self.registers)) }
        ensures room { IfOk result (λ both. both.0.room ≡ self.room) }
    {
        let Block {
            registers,
            mut columns,
            rows,
            room,
        } = self;
        let at = at.min(rows);
        let same = copy_registers(alloc, &registers)?;
        let rest = split_all(alloc, &mut columns, at as usize)?;
        let first = Block {
            registers: same,
            columns,
            rows: at,
            room,
        };
        let others = Block {
            registers,
            columns: rest,
            rows: rows - at,
            room: rows - at,
        };
        Ok((first, others))
    }

    // The value of a variable at the row at a place.
    fn value_at(&self, at: u32, var: u32) -> Option<&Value>
        requires { at < length self.now.values }
        ensures { option_map (λ v. datum_of v.now) result
            ≡ row_of (cells_at self.now at) (Num var) }
    {
        match index_of(&self.registers, var) {
            Some(place) => self.columns[place].get(at as usize),
            None => None,
        }
    }

    // A copy of the row at a place.
    fn copy_row(&self, alloc: Global, at: u32) -> Result<Row, OutOfMemory>
        requires { at < length self.now.values }
        ensures { IfOk result (λ row. row ≡ cells_at self.now at) }
    {
        copy_values(alloc, &self.registers, &self.columns, at as usize)
    }
}

impl RowRef<'_> {
    /// The value of a variable; `None` exactly where the row has no such variable. Takes no memory.
    pub fn value(&self, var: u32) -> Option<&Value>
        ensures { option_map (λ v. datum_of v.now) result ≡ row_of self.now (Num var) }
    {
        self.block.value_at(self.at, var)
    }

    /// A copy.
    pub fn to_row(&self, alloc: Global) -> Result<Row, OutOfMemory>
        ensures { IfOk result (λ row. row ≡ self.now) }
    {
        self.block.copy_row(alloc, self.at)
    }

    // A copy of the value of a variable; null where the row has no such variable.
    pub(crate) fn copy_value(&self, alloc: Global, var: u32) -> Result<Value, OutOfMemory>
        ensures { IfOk result (λ v. datum_of v ≡ value_at (row_of self.now) (Num var)) }
    {
        match self.value(var) {
            Some(value) => copy(alloc, value),
            None => Ok(Value::Null),
        }
    }
}

fn copy_registers(alloc: Global, registers: &[u32]) -> Result<Vec<u32>, OutOfMemory>
    ensures { IfOk result (λ xs. xs.items ≡ registers.now) }
{
    let mut own = Vec::with_capacity(alloc, registers.len())?;
    for register in registers {
        own.push(*register)?;
    }
    Ok(own)
}

// The place of a register, the first where there are several.
fn index_of(registers: &[u32], var: u32) -> Option<usize>
    ensures { MatchOption result (is_among registers.now (Num var) ≡ false)
        (IsFirst registers.now var) }
{
    for (at, register) in registers.iter().enumerate() {
        if *register == var {
            return Some(at);
        }
    }
    None
}

// How many marks are true.
fn count_of(marks: &[bool]) -> u32
    requires { length marks.now < 2 ^ 32 }
    ensures { result ≡ length (marked marks.now marks.now) }
{
    let mut count = 0;
    for mark in marks {
        if *mark {
            count += 1;
        }
    }
    count
}
