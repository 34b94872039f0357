//! Rows by themselves.

ghost use Rattle.std.specs.Prelude.{◌≡◌, IfOk, OnOk, OnErr, IsSome, None, MatchOption, option_map};
ghost use Rattle.aql_value.specs.Datum.{null};
ghost use Rattle.aql_value.specs.View.{datum_of};
ghost use Rattle.aql_tree.specs.declared.syntax.Ident.TheVariants.{Num};
ghost use Rattle.aql_meaning.specs.Row.{empty_row, bind, value_at};
ghost use Rattle.aql_block.specs.Rows.{row_of, variables_of, IsFirst};

use aql_value::{OutOfMemory, Value, copy};
use std::alloc::Global;
use std::marker::Model;
use std::mem;

/// A row: values of variables, by number. Contracts see its entries, which stand for a row of the
/// meaning by `row_of`.
pub struct Row {
    pub(crate) entries: Vec<Entry>,
}

// A variable with its value.
pub(crate) struct Entry {
    pub(crate) var: u32,
    pub(crate) value: Value,
}

impl Drop for Row {
    fn drop(self) {
        let Row { entries: _ } = self;
    }
}

impl Drop for Entry {
    fn drop(self) {
        let Entry { var: _, value: _ } = self;
    }
}

impl Model for Row {
    ghost use Rattle.std.specs.Prelude.{ℕ, List};
    ghost use Rattle.aql_value.specs.Datum.{Datum};
    ghost use Rattle.aql_block.specs.Rows.{coded_entries};

    ghost Value = { List (ℕ × Datum) };

    ghost coded = { coded_entries };

    ghost use Rattle.aql_block.specs.Entries.{entries_in};

    ghost view = { λ r. entries_in r.entries.items };
}

impl Row {
    ghost use Rattle.aql_block.specs.Entries.{entries_in};

    /// The row without variables.
    pub fn new(alloc: Global) -> Row
        ensures { row_of result ≡ empty_row }
    {
        Row {
            entries: Vec::new(alloc),
        }
    }

    /// The value of a variable; `None` exactly where the row has no such variable.
    pub fn value(&self, var: u32) -> Option<&Value>
        ensures { option_map (λ v. datum_of v.now) result ≡ row_of self.now (Num var) }
    {
        for entry in &self.entries {
            if entry.var == var {
                return Some(&entry.value);
            }
        }
        None
    }

    /// Sets a variable, which has no other value after that; where memory runs out the row stays
    /// as it was and the value is dropped.
    pub fn set(&mut self, var: u32, value: Value) -> Result<(), OutOfMemory>
        ensures ok { OnOk result
            (row_of self.new ≡ bind (Num var) (row_of self.old) (datum_of value)) }
        ensures err { OnErr result (self.new ≡ self.old) }
    {
        match self.index_of(var) {
            Some(at) => self.entries[at].value = value,
            None => self.entries.push(Entry { var, value })?,
        }
        Ok(())
    }

    /// An identical row.
    pub fn copy(&self, alloc: Global) -> Result<Row, OutOfMemory>
        ensures { IfOk result (λ row. row ≡ self.now) }
    {
        let mut entries = Vec::with_capacity(alloc, self.entries.len())?;
        for entry in &self.entries {
            let value = copy(alloc, &entry.value)?;
            entries.push(Entry {
                var: entry.var,
                value,
            })?;
        }
        Ok(Row { entries })
    }

    // Moves a value out; null takes its place.
    pub(crate) fn take(&mut self, var: u32) -> Value
        requires { IsSome (row_of self.old (Num var)) }
        ensures value { datum_of result ≡ value_at (row_of self.old) (Num var) }
        ensures rest { row_of self.new ≡ bind (Num var) (row_of self.old) null }
    {
        match self.index_of(var) {
            Some(at) => mem::replace(&mut self.entries[at].value, Value::Null),
            None => unreachable!(),
        }
    }

    pub(crate) fn into_entries(self) -> Vec<Entry>
        ensures { entries_in result.items ≡ self }
    {
        let Row { entries } = self;
        entries
    }

    // The place of a variable's entry.
    fn index_of(&self, var: u32) -> Option<usize>
        ensures { MatchOption result (row_of self.now (Num var) ≡ None)
            (IsFirst (variables_of self.now) var) }
    {
        for (at, entry) in self.entries.iter().enumerate() {
            if entry.var == var {
                return Some(at);
            }
        }
        None
    }
}

impl Entry {
    pub(crate) fn into_parts(self) -> (u32, Value)
        ensures { result ≡ (self.var, self.value) }
    {
        let Entry { var, value } = self;
        (var, value)
    }
}
