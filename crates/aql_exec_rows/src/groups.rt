//! The groups of the rows that came.

ghost use Rattle.std.specs.Prelude.{◌≡◌, List, [], ◌∷◌, ◌++◌, ◌+◌, ◌≤◌, length, map, slice_get, true, Some, IfOk, OnOk};
ghost use Rattle.aql_value.specs.View.{datum_of, datums_in};
ghost use Rattle.aql_value.specs.Datum.{Datum};
ghost use Rattle.aql_value.specs.Contents.{is_in};
ghost use Rattle.aql_func.specs.Lists.{add, sort_values};
ghost use Rattle.aql_meaning.specs.Plain.{AllPlain};
ghost use Rattle.aql_meaning.specs.Lifted.{IntoPlain};
ghost use Rattle.aql_meaning.specs.Groups.{GroupedRow};
ghost use Rattle.aql_plan.specs.Fits.{AllKnown};
ghost use Rattle.aql_block.specs.Rows.{row_of};
ghost use Rattle.aql_block.specs.Tables.{rows_of};
ghost use Rattle.aql_aggregate.specs.declared.staged.StagedKind.{StagedKind};
ghost use Rattle.aql_exec_rows.specs.Settings.{criteria_trees, aggregate_trees, into_of, AreKinds};
ghost use Rattle.aql_exec_rows.specs.declared.grouping.Grouping.{Grouping};
ghost use Rattle.aql_exec_rows.specs.GroupStates.{Result, seen, Holds, Grows, finished_in, result_of};

use crate::group::{Finished, Group, add_member};
use crate::grouping::Grouping;
use aql_aggregate::StagedKind;
use aql_block::{Block, RowRef};
use aql_value::{Items, OutOfMemory, Value, cmp};
use indexmap::IndexSet;
use std::alloc::Global;

/// The groups of the rows that came so far, each under the array of its criteria, in the order in
/// which they were seen first.
#[derive(Drop)]
pub(crate) struct Groups {
    keys: IndexSet<Value>,
    kept: Vec<Group>,
}

impl Groups {
    /// Of no rows: without criteria there is one group nevertheless.
    pub(crate) fn new(
        alloc: Global,
        grouping: &Grouping,
        kinds: &[StagedKind],
    ) -> Result<Groups, OutOfMemory>
        ensures held { IfOk result (λ groups. Holds grouping.now kinds.now [] groups) }
        ensures count { IfOk result (λ groups. length groups.kept.items ≤ 1) }
    {
        let mut groups = Groups::none(alloc);
        if grouping.criteria.len() == 0 {
            groups.group_index(alloc, Value::List(Items::new(alloc)), kinds)?;
        }
        Ok(groups)
    }

    /// No group.
    pub(crate) fn none(alloc: Global) -> Groups
        ensures keys { datums_in result.keys.keys ≡ [] }
        ensures kept { result.kept.items ≡ [] }
    {
        Groups {
            keys: IndexSet::new(alloc),
            kept: Vec::new(alloc),
        }
    }

    /// Takes the rows of a block.
    pub(crate) fn add_block(
        &mut self,
        alloc: Global,
        grouping: &Grouping,
        kinds: &[StagedKind],
        block: Block,
    ) -> Result<(), OutOfMemory>
        requires plain { AllPlain (criteria_trees grouping.now.criteria) }
        requires known { AllKnown (aggregate_trees grouping.now.aggregates) }
        requires into { IntoPlain (into_of grouping.now.into) }
        requires kinds { AreKinds grouping.now.stage grouping.now.aggregates kinds.now }
        requires holds { (rows : List GroupedRow) × Holds grouping.now kinds.now rows self.old }
        ensures held { OnOk result ((rows : List GroupedRow)
            → Holds grouping.now kinds.now rows self.old
            → Holds grouping.now kinds.now
            (rows ++ map (seen grouping.now) (rows_of block)) self.new) }
        ensures count { OnOk result (length self.new.kept.items
            ≤ length self.old.kept.items + length (rows_of block)) }
    {
        for at in 0..block.len() {
            if let Some(row) = block.row(at) {
                self.add(alloc, grouping, kinds, &row)?;
            }
        }
        Ok(())
    }

    // Takes a row.
    fn add(
        &mut self,
        alloc: Global,
        grouping: &Grouping,
        kinds: &[StagedKind],
        row: &RowRef<'_>,
    ) -> Result<(), OutOfMemory>
        requires plain { AllPlain (criteria_trees grouping.now.criteria) }
        requires known { AllKnown (aggregate_trees grouping.now.aggregates) }
        requires into { IntoPlain (into_of grouping.now.into) }
        requires kinds { AreKinds grouping.now.stage grouping.now.aggregates kinds.now }
        requires holds { (rows : List GroupedRow) × Holds grouping.now kinds.now rows self.old }
        ensures held { OnOk result ((rows : List GroupedRow)
            → Holds grouping.now kinds.now rows self.old
            → Holds grouping.now kinds.now
            (rows ++ seen grouping.now (row_of row.now) ∷ []) self.new) }
        ensures count { OnOk result (length self.new.kept.items ≤ length self.old.kept.items + 1) }
    {
        let arguments = grouping.arguments(alloc, row)?;
        let taken = grouping.into_value(alloc, row)?;
        let key = grouping.key(alloc, row)?;
        let at = self.group_index(alloc, key, kinds)?;
        add_member(alloc, &mut self.kept, at, &arguments, taken)?;
        Ok(())
    }

    // The place of the group of a key. A new key gets a group without members.
    fn group_index(
        &mut self,
        alloc: Global,
        key: Value,
        kinds: &[StagedKind],
    ) -> Result<usize, OutOfMemory>
        ensures keys { OnOk result (datums_in self.new.keys.keys
            ≡ add true (datums_in self.old.keys.keys) (datum_of key)) }
        ensures place { IfOk result
            (λ at. slice_get (datums_in self.new.keys.keys) at ≡ Some (datum_of key)) }
        ensures kept { OnOk result (Grows kinds.now
            (is_in (datums_in self.old.keys.keys) (datum_of key))
            self.old.kept.items self.new.kept.items) }
    {
        let (at, is_new) = self.keys.insert_full(key)?;
        if is_new {
            self.kept.push(Group::new(alloc, kinds)?)?;
        }
        Ok(at)
    }

    /// What comes of each group, in ascending order of the criteria.
    pub(crate) fn finish(self, alloc: Global) -> Result<Vec<Finished>, OutOfMemory>
        requires { length self.kept.items ≡ length self.keys.keys }
        ensures results { IfOk result (λ all. (grouping : Grouping) (kinds : List StagedKind)
            (rows : List GroupedRow) → Holds grouping kinds rows self
            → finished_in all.items ≡ map (result_of grouping.into kinds rows)
            (sort_values (datums_in self.keys.keys))) }
        ensures count { IfOk result (λ all. length all.items ≡ length self.kept.items) }
    {
        let Groups { keys, mut kept } = self;
        kept.reverse();
        let mut all = Vec::with_capacity(alloc, kept.len())?;
        for key in keys {
            match kept.pop() {
                Some(group) => all.push(group.finish(alloc, key)?)?,
                None => unreachable!(),
            }
        }
        put_in_order(&mut all)?;
        Ok(all)
    }
}

// Sorts by the criteria.
fn put_in_order(all: &mut Vec<Finished>) -> Result<(), OutOfMemory>
    ensures results { OnOk result ((of : Datum → Result) (keys : List Datum)
        → ((key : Datum) → (of key).criteria ≡ key) → finished_in all.old.items ≡ map of keys
        → finished_in all.new.items ≡ map of (sort_values keys)) }
    ensures count { OnOk result (length all.new.items ≡ length all.old.items) }
{
    all.sort_by(|left, right| cmp(&left.criteria, &right.criteria))?;
    Ok(())
}
