//! COLLECT: a row for each group of rows with equal criteria, in ascending order of the criteria.

ghost use Rattle.std.specs.Prelude.{◌≡◌, refl, ◌≤◌, List, [], true, false, OnOk};
ghost use Rattle.std.specs.List.{AllByRecursion};
ghost use Rattle.aql_meaning.specs.Lifted.{IntoPlain};
ghost use Rattle.aql_meaning.specs.Numbered.{IsNumber};
ghost use Rattle.aql_meaning.specs.Plain.{AllPlain};
ghost use Rattle.aql_meaning.specs.Row as meaning;
ghost use Rattle.aql_meaning.specs.declared.grouping.Stage.TheVariants.{Whole};
ghost use Rattle.aql_plan.specs.Fits.{AllKnown};
ghost use Rattle.aql_plan.specs.Needs.{sets};
ghost use Rattle.aql_block.specs.Tables.{rows_of};
ghost use Rattle.aql_exec.specs.Rests.{Rest};
ghost use Rattle.aql_exec_rows.specs.Settings.{node_of, node_at};
ghost use Rattle.aql_exec_rows.specs.Settings.{criteria_trees, aggregate_trees, into_of};
ghost use Rattle.aql_exec_rows.specs.Collecting.{left_collect, room_of, CollectIs};

use crate::frame::Frame;
use crate::group::Finished;
use crate::grouping::{Grouping, kinds_of};
use crate::groups::Groups;
use aql_aggregate::StagedKind;
use aql_block::{Block, Row, Tally};
use aql_exec::{Stream, Surroundings, Transform};
use aql_meaning::Stage;
use aql_tree::{Aggregates, Into, Lets};
use aql_value::OutOfMemory;
use std::alloc::Global;
use std::mem;

/// A stage of COLLECT as an executor.
pub type Collect = Stream<GroupRows>;

/// Makes a row of each group once the last rows were put in. Of the rows it keeps what the
/// aggregates and INTO need, and the block that was put in last. The expressions have no subquery,
/// each aggregate is known and has its argument, and INTO has an expression: that is asked where
/// rows are made, as `Fits` of its node.
#[derive(Drop)]
pub struct GroupRows {
    grouping: Grouping,
    /// the aggregates, in order
    kinds: Vec<StagedKind>,
    /// what the rows of all groups have in common
    frame: Frame,
    /// the rows that were put in last, which are in no group yet
    block: Block,
    /// the groups of the rows before
    groups: Groups,
    /// once they were made of all groups: those that were not given yet, the first of them last
    finished: Vec<Finished>,
    made: bool,
    closed: bool,
}

impl GroupRows {
    /// COLLECT as one step, by these criteria, aggregates and INTO, whose variables are numbers.
    pub fn new(
        alloc: Global,
        criteria: Lets,
        aggregates: Aggregates,
        into: Option<Into>,
    ) -> GroupRows
        requires { AllByRecursion IsNumber (sets (node_of criteria aggregates into)) }
        ensures { (result.grouping.stage ≡ Whole) × (result.grouping.criteria ≡ criteria)
            × (result.grouping.aggregates ≡ aggregates) × (result.grouping.into ≡ into) }
    {
        GroupRows::at_stage(alloc, Stage::Whole, criteria, aggregates, into)
    }

    /// A stage of COLLECT. The final one of two finds the criteria and the states of the aggregates
    /// under the variables that the first one set.
    pub fn at_stage(
        alloc: Global,
        stage: Stage,
        criteria: Lets,
        aggregates: Aggregates,
        into: Option<Into>,
    ) -> GroupRows
        requires { AllByRecursion IsNumber (sets (node_at stage criteria aggregates into)) }
        ensures { (result.grouping.stage ≡ stage) × (result.grouping.criteria ≡ criteria)
            × (result.grouping.aggregates ≡ aggregates) × (result.grouping.into ≡ into) }
    {
        GroupRows {
            grouping: Grouping {
                stage,
                criteria,
                aggregates,
                into,
            },
            kinds: Vec::new(alloc),
            frame: Frame::none(alloc),
            block: Block::empty(alloc),
            groups: Groups::none(alloc),
            finished: Vec::new(alloc),
            made: false,
            closed: false,
        }
    }

    // Takes the rows that were put in last into their groups; finishes these once the last were
    // put in.
    fn prepare(&mut self, alloc: Global) -> Result<(), OutOfMemory>
        requires plain { AllPlain (criteria_trees self.old.grouping.criteria) }
        requires known { AllKnown (aggregate_trees self.old.grouping.aggregates) }
        requires into { IntoPlain (into_of self.old.grouping.into) }
        requires is { CollectIs self.old }
        ensures grouping { self.new.grouping ≡ self.old.grouping }
        ensures closed { self.new.closed ≡ self.old.closed }
        ensures is { OnOk result (CollectIs self.new) }
        ensures block { OnOk result (rows_of self.new.block ≡ []) }
        ensures made { OnOk result (self.new.made ≡ self.new.closed) }
        ensures held { OnOk result (room_of self.new ≤ room_of self.old) }
        ensures left { OnOk result ((rows : List meaning.Row) (r : Rest)
            → left_collect self.new rows r → left_collect self.old rows r) }
    {
        if self.made {
            return Ok(());
        }
        let block = mem::replace(&mut self.block, Block::empty(alloc));
        self.groups
            .add_block(alloc, &self.grouping, &self.kinds, block)?;
        if self.closed {
            let groups = mem::replace(&mut self.groups, Groups::none(alloc));
            self.finished = groups.finish(alloc)?;
            self.finished.reverse();
            self.made = true;
        }
        Ok(())
    }
}

impl<W: Surroundings> Transform<W> for GroupRows {
    ghost use Rattle.aql_exec_rows.specs.laws.SomeGroups.{some_left};

    ghost node = { λ s. node_at s.grouping.stage s.grouping.criteria s.grouping.aggregates
        s.grouping.into };

    ghost left = { λ s _ rows r. left_collect s rows r };

    ghost held = { λ s _. room_of s };

    ghost ready = { λ s. rows_of s.block ≡ [] };

    ghost closed = { λ s. s.closed };

    ghost valid = { λ s _. CollectIs s };

    fn begin(&mut self, alloc: Global, start: &Row) -> Result<(), OutOfMemory> {
        let aggregates = self.grouping.aggregates.as_slice();
        self.kinds = kinds_of(alloc, self.grouping.stage, aggregates)?;
        self.frame = Frame::new(alloc, &self.grouping, start)?;
        self.block = Block::empty(alloc);
        self.groups = Groups::new(alloc, &self.grouping, &self.kinds)?;
        self.finished.clear();
        self.made = false;
        self.closed = false;
        Ok(())
    }

    fn put(&mut self, _alloc: Global, block: Block) -> Result<(), OutOfMemory> {
        self.block = block;
        Ok(())
    }

    fn close(&mut self) {
        self.closed = true;
    }

    fn next(
        &mut self,
        alloc: Global,
        _world: &mut W,
        most: u64,
        _tally: &mut Tally,
    ) -> Result<Block, OutOfMemory> {
        self.prepare(alloc)?;
        if !self.made {
            return Ok(Block::empty(alloc));
        }
        self.frame.take_last(alloc, &mut self.finished, most)
    }

    fn skip(
        &mut self,
        alloc: Global,
        _world: &mut W,
        most: u64,
        _tally: &mut Tally,
    ) -> Result<u64, OutOfMemory> {
        self.prepare(alloc)?;
        if !self.made {
            return Ok(0);
        }
        let count = most.min(self.finished.len() as u64);
        self.finished.truncate(self.finished.len() - count as usize);
        Ok(count)
    }

    ghost not_handed_on = { λ _. refl };

    ghost some = { λ s _ rows is. some_left s rows is };
}
