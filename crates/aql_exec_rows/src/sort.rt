//! SORT: the rows in the order of their keys, or the first of these.

ghost use Rattle.std.specs.Prelude.{◌≡◌, refl, ◌+◌, ◌<◌, ◌≤◌, ◌++◌, ◌⊎◌, List, [], length, map, reverse};
ghost use Rattle.std.specs.Prelude.{true, false, IfOk, OnOk};
ghost use Rattle.aql_meaning.specs.Plain.{AllPlain};
ghost use Rattle.aql_meaning.specs.Row as meaning;
ghost use Rattle.aql_plan.specs.Plan as plan;
ghost use Rattle.aql_plan.specs.View.{directions, key_trees};
ghost use Rattle.aql_block.specs.Tables.{rows_of};
ghost use Rattle.aql_exec.specs.Rests.{Rest};
ghost use Rattle.aql_exec_rows.specs.Keys.{with_keys, keyed_in, rows_alone};
ghost use Rattle.aql_exec_rows.specs.Sorting.{left_order, OrderIs, AllHave, AreFew};

use crate::keyed::{Keyed, add_rows, keep_first};
use aql_block::{Block, Row, Tally};
use aql_exec::{Stream, Surroundings, Transform};
use aql_tree::Keys;
use aql_value::OutOfMemory;
use std::alloc::Global;
use std::mem;

/// SORT as an executor.
pub type Sort = Stream<Order>;

/// Holds the rows with their keys until the last was put in, and gives them then in the order of
/// their keys; rows with equal keys in the order in which they came. With a limit it gives so many
/// at most, and holds no more than twice as many besides the block that was put in last. The keys
/// have no subquery: that is asked where rows are made, as `Fits` of its node.
#[derive(Drop)]
pub struct Order {
    keys: Keys,
    limit: Option<u64>,
    /// the rows that were put in last, whose keys are not known yet
    block: Block,
    /// the rows with their keys; once they are sorted, the last is given first
    rows: Vec<Keyed>,
    /// the variables of these rows, where all have the same
    registers: Vec<u32>,
    uniform: bool,
    sorted: bool,
    closed: bool,
}

impl Order {
    /// By these keys, and of the rows the first `limit` alone where there is one.
    pub fn new(alloc: Global, keys: Keys, limit: Option<u64>) -> Order
        ensures { (result.keys ≡ keys) × (result.limit ≡ limit) }
    {
        Order {
            keys,
            limit,
            block: Block::empty(alloc),
            rows: Vec::new(alloc),
            registers: Vec::new(alloc),
            uniform: true,
            sorted: false,
            closed: false,
        }
    }

    // Whether the rows that are held and those of a block have the same variables.
    fn join(&mut self, alloc: Global, block: &Block) -> Result<(), OutOfMemory>
        ensures keys { self.new.keys ≡ self.old.keys }
        ensures limit { self.new.limit ≡ self.old.limit }
        ensures block { self.new.block ≡ self.old.block }
        ensures rows { self.new.rows ≡ self.old.rows }
        ensures sorted { self.new.sorted ≡ self.old.sorted }
        ensures closed { self.new.closed ≡ self.old.closed }
        ensures alike { OnOk result (self.new.uniform ≡ true
            → (self.new.registers.items ≡ block.now.registers)
            × ((self.old.rows.items ≡ []) ⊎ ((self.old.uniform ≡ true)
            × (self.old.registers.items ≡ block.now.registers)))) }
    {
        if self.rows.is_empty() {
            self.registers = Vec::from_slice(alloc, block.registers())?;
            self.uniform = true;
        } else if self.registers.as_slice() != block.registers() {
            self.uniform = false;
        }
        Ok(())
    }

    // Gives the rows that were put in last their keys.
    fn absorb(&mut self, alloc: Global) -> Result<(), OutOfMemory>
        requires plain { AllPlain (key_trees self.old.keys) }
        ensures keys { self.new.keys ≡ self.old.keys }
        ensures limit { self.new.limit ≡ self.old.limit }
        ensures block { OnOk result (rows_of self.new.block ≡ []) }
        ensures rows { OnOk result (keyed_in self.new.rows.items ≡ keyed_in self.old.rows.items
            ++ map (with_keys (key_trees self.old.keys)) (rows_of self.old.block)) }
        ensures alike { OnOk result
            ((self.old.uniform ≡ true → AllHave self.old.registers.items
            (keyed_in self.old.rows.items))
            → self.new.uniform ≡ true → AllHave self.new.registers.items
            (keyed_in self.new.rows.items)) }
        ensures sorted { self.new.sorted ≡ self.old.sorted }
        ensures closed { self.new.closed ≡ self.old.closed }
    {
        if self.block.len() == 0 {
            return Ok(());
        }
        let block = mem::replace(&mut self.block, Block::empty(alloc));
        self.join(alloc, &block)?;
        add_rows(alloc, self.keys.as_slice(), block, &mut self.rows)
    }

    // Gives the rows that were put in last their keys; sorts all once the last were put in, and
    // drops those that are not wanted where more than twice as many are held.
    fn prepare(&mut self, alloc: Global) -> Result<(), OutOfMemory>
        requires plain { AllPlain (key_trees self.old.keys) }
        requires is { OrderIs self.old }
        ensures keys { self.new.keys ≡ self.old.keys }
        ensures limit { self.new.limit ≡ self.old.limit }
        ensures closed { self.new.closed ≡ self.old.closed }
        ensures is { OnOk result (OrderIs self.new) }
        ensures block { OnOk result (rows_of self.new.block ≡ []) }
        ensures sorted { OnOk result (self.new.sorted ≡ self.new.closed) }
        ensures held { OnOk result (length self.new.rows.items
            ≤ length self.old.rows.items + length (rows_of self.old.block)) }
        ensures left { OnOk result ((rows : List meaning.Row) (r : Rest)
            → left_order self.new rows r → left_order self.old rows r) }
    {
        if self.sorted {
            return Ok(());
        }
        self.absorb(alloc)?;
        if self.closed {
            keep_first(self.keys.as_slice(), self.limit, &mut self.rows)?;
            self.rows.reverse();
            self.sorted = true;
            return Ok(());
        }
        if are_many(self.limit, self.rows.len()) {
            keep_first(self.keys.as_slice(), self.limit, &mut self.rows)?;
        }
        Ok(())
    }

    // The next of the sorted rows, at most so many.
    fn give(&mut self, alloc: Global, most: u64) -> Result<Block, OutOfMemory>
        requires most { 1 ≤ most }
        requires alike { self.old.uniform ≡ true
            → AllHave self.old.registers.items (keyed_in self.old.rows.items) }
        ensures keys { self.new.keys ≡ self.old.keys }
        ensures limit { self.new.limit ≡ self.old.limit }
        ensures block { self.new.block ≡ self.old.block }
        ensures alike { OnOk result (self.new.uniform ≡ true
            → AllHave self.new.registers.items (keyed_in self.new.rows.items)) }
        ensures sorted { self.new.sorted ≡ self.old.sorted }
        ensures closed { self.new.closed ≡ self.old.closed }
        ensures most { IfOk result (λ block. length (rows_of block) ≤ most) }
        ensures rows { IfOk result (λ block. rows_alone (reverse (keyed_in self.old.rows.items))
            ≡ rows_of block ++ rows_alone (reverse (keyed_in self.new.rows.items))) }
        ensures none { IfOk result
            (λ block. length (rows_of block) ≡ 0 → self.new.rows.items ≡ []) }
    {
        if self.uniform {
            return give_alike(alloc, &self.registers, &mut self.rows, most);
        }
        match self.rows.pop() {
            Some(last) => Block::from_row(alloc, last.into_row()),
            None => Ok(Block::empty(alloc)),
        }
    }
}

// Whether more than twice as many rows are held as are wanted.
fn are_many(limit: Option<u64>, rows: usize) -> bool
    ensures { result ≡ false → AreFew limit rows }
{
    match limit {
        Some(count) => rows as u64 > count.saturating_mul(2),
        None => false,
    }
}

// The last of the rows that are held, the last first, at most so many; all have these variables.
fn give_alike(
    alloc: Global,
    registers: &[u32],
    held: &mut Vec<Keyed>,
    most: u64,
) -> Result<Block, OutOfMemory>
    requires most { 1 ≤ most }
    requires alike { AllHave registers.now (keyed_in held.old.items) }
    ensures alike { OnOk result (AllHave registers.now (keyed_in held.new.items)) }
    ensures most { IfOk result (λ block. length (rows_of block) ≤ most) }
    ensures rows { IfOk result (λ block. rows_alone (reverse (keyed_in held.old.items))
        ≡ rows_of block ++ rows_alone (reverse (keyed_in held.new.items))) }
    ensures none { IfOk result (λ block. length (rows_of block) ≡ 0 → held.new.items ≡ []) }
{
    let count = most.min(held.len() as u64).min(u64::from(u32::MAX)) as u32;
    let mut block = Block::new(alloc, registers, count)?;
    for _moved in 0..count {
        move_last(held, &mut block);
    }
    Ok(block)
}

// Moves the last row to a block that isn't full.
fn move_last(held: &mut Vec<Keyed>, block: &mut Block)
    requires some { 1 ≤ length held.old.items }
    requires room { length (rows_of block.old) < block.old.room }
    requires alike { AllHave block.old.registers (keyed_in held.old.items) }
    ensures alike { AllHave block.old.registers (keyed_in held.new.items) }
    ensures registers { block.new.registers ≡ block.old.registers }
    ensures room { block.new.room ≡ block.old.room }
    ensures more { length (rows_of block.new) ≡ length (rows_of block.old) + 1 }
    ensures fewer { length held.new.items + 1 ≡ length held.old.items }
    ensures rows { rows_of block.new ++ rows_alone (reverse (keyed_in held.new.items))
        ≡ rows_of block.old ++ rows_alone (reverse (keyed_in held.old.items)) }
{
    match held.pop() {
        Some(last) => match block.append(last.into_row()) {
            Ok(()) => {}
            Err(_) => unreachable!(),
        },
        None => unreachable!(),
    }
}

impl<W: Surroundings> Transform<W> for Order {
    ghost use Rattle.aql_exec_rows.specs.Sorting.{some_left};

    ghost node = { λ s. plan.Sort (directions s.keys) (key_trees s.keys) s.limit };

    ghost left = { λ s _ rows r. left_order s rows r };

    ghost held = { λ s _. length s.rows.items + length (rows_of s.block) };

    ghost ready = { λ s. rows_of s.block ≡ [] };

    ghost closed = { λ s. s.closed };

    ghost valid = { λ s _. OrderIs s };

    fn begin(&mut self, alloc: Global, _start: &Row) -> Result<(), OutOfMemory> {
        self.block = Block::empty(alloc);
        self.rows.clear();
        self.uniform = false;
        self.sorted = false;
        self.closed = false;
        Ok(())
    }

    fn put(&mut self, _alloc: Global, block: Block) -> Result<(), OutOfMemory> {
        self.block = block;
        Ok(())
    }

    fn close(&mut self) {
        self.closed = true;
    }

    fn next(
        &mut self,
        alloc: Global,
        _world: &mut W,
        most: u64,
        _tally: &mut Tally,
    ) -> Result<Block, OutOfMemory> {
        self.prepare(alloc)?;
        if !self.sorted {
            return Ok(Block::empty(alloc));
        }
        self.give(alloc, most)
    }

    fn skip(
        &mut self,
        alloc: Global,
        _world: &mut W,
        most: u64,
        _tally: &mut Tally,
    ) -> Result<u64, OutOfMemory> {
        self.prepare(alloc)?;
        if !self.sorted {
            return Ok(0);
        }
        let count = most.min(self.rows.len() as u64);
        self.rows.truncate(self.rows.len() - count as usize);
        Ok(count)
    }

    ghost not_handed_on = { λ _. refl };

    ghost some = { λ s _ rows _. some_left s rows };
}
