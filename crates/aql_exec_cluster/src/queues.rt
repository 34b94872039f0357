//! The rows that came of several inputs, and the merge of them.

ghost use Rattle.std.specs.Prelude.{◌≡◌, ℕ, ◌+◌, ◌<◌, ◌≤◌, ◌++◌, ◌∷◌, List, [], length};
ghost use Rattle.std.specs.Prelude.{MatchOption, IfSome, IfOk, OnOk, true, false, slice_set};
ghost use Rattle.std.specs.List.{All};
ghost use Rattle.std.specs.Ordering.{is_lt};
ghost use Rattle.aql_value.specs.View.{datums_in};
ghost use Rattle.aql_plan.specs.View.{directions, key_trees};
ghost use Rattle.aql_meaning.specs.Plain.{AllPlain};
ghost use Rattle.aql_meaning.specs.AtRows.{row_before};
ghost use Rattle.aql_meaning.specs.Clauses.{keys_cmp};
ghost use Rattle.aql_meaning.specs.Row as meaning;
ghost use Rattle.aql_block.specs.Tables.{rows_of};
ghost use Rattle.aql_exec_cluster.specs.Standing.{standing, is_done};
ghost use Rattle.aql_exec_cluster.specs.Queues.{rows_left, IsKeyed, left_at, count_left};
ghost use Rattle.aql_exec_cluster.specs.Queues.{IsFirst, FirstUpTo, AreReady, Merges};
ghost use Rattle.aql_exec_cluster.specs.Queues.{HasRegisters, Popped};

use crate::inputs::Inputs;
use crate::keys::compare;
use crate::queue::Queue;
use aql_block::{Block, Progress};
use aql_tree::Key;
use aql_value::OutOfMemory;
use std::alloc::Global;

/// A queue for each input.
#[derive(Drop)]
pub(crate) struct Queues {
    pub(crate) list: Vec<Queue>,
}

impl Queues {
    /// So many, without rows.
    pub(crate) fn new(alloc: Global, count: usize) -> Result<Queues, OutOfMemory>
        ensures count { IfOk result (λ queues. length queues.list.items ≡ count) }
        ensures none { IfOk result (λ queues. (k : ℕ) → left_at queues.list.items k ≡ []) }
    {
        let mut list = Vec::with_capacity(alloc, count)?;
        for _input in 0..count {
            list.push(Queue::empty(alloc))?;
        }
        Ok(Queues { list })
    }

    /// Puts a queue in the place of another.
    pub(crate) fn put(&mut self, input: usize, queue: Queue)
        requires { input < length self.old.list.items }
        ensures { self.new.list.items ≡ slice_set self.old.list.items input queue }
    {
        self.list[input] = queue;
    }

    /// The first input that may be asked and has no row.
    pub(crate) fn next_to_ask(&self, inputs: &Inputs) -> Option<usize>
        requires { length inputs.now.progress.items ≡ length self.now.list.items }
        ensures { MatchOption result
            ((k : ℕ) → k < length self.now.list.items
            → standing inputs.now.progress.items k ≡ Progress.HasMore
            → left_at self.now.list.items k ≡ [] → ⊥)
            (λ k. (k < length self.now.list.items)
            × (standing inputs.now.progress.items k ≡ Progress.HasMore)
            × (left_at self.now.list.items k ≡ [])) }
    {
        for input in 0..self.list.len() {
            if self.may_ask(inputs, input) {
                return Some(input);
            }
        }
        None
    }

    /// Whether each input that is not done has a row.
    pub(crate) fn are_ready(&self, inputs: &Inputs) -> bool
        requires { length inputs.now.progress.items ≡ length self.now.list.items }
        ensures yes { result ≡ true → AreReady inputs.now.progress.items self.now.list.items }
        ensures not_all { result ≡ false → (k : ℕ) × (k < length self.now.list.items)
            × (left_at self.now.list.items k ≡ [])
            × (is_done (standing inputs.now.progress.items k) ≡ false) }
    {
        for input in 0..self.list.len() {
            if !self.is_ready(inputs, input) {
                return false;
            }
        }
        true
    }

    // Whether an input may be asked and has no row.
    fn may_ask(&self, inputs: &Inputs, input: usize) -> bool
        requires inputs { input < length inputs.now.progress.items }
        requires queues { input < length self.now.list.items }
        ensures yes { result ≡ true
            → (standing inputs.now.progress.items input ≡ Progress.HasMore)
            × (left_at self.now.list.items input ≡ []) }
        ensures not_so { result ≡ false
            → standing inputs.now.progress.items input ≡ Progress.HasMore
            → left_at self.now.list.items input ≡ [] → ⊥ }
    {
        match inputs.at(input) {
            Progress::Waiting => false,
            Progress::HasMore => self.is_empty_at(input),
            Progress::Done => false,
        }
    }

    // Whether an input is done or has a row.
    fn is_ready(&self, inputs: &Inputs, input: usize) -> bool
        requires inputs { input < length inputs.now.progress.items }
        requires queues { input < length self.now.list.items }
        ensures yes { result ≡ true → left_at self.now.list.items input ≡ []
            → is_done (standing inputs.now.progress.items input) ≡ true }
        ensures not_so { result ≡ false → (left_at self.now.list.items input ≡ [])
            × (is_done (standing inputs.now.progress.items input) ≡ false) }
    {
        match inputs.at(input) {
            Progress::Waiting => !self.is_empty_at(input),
            Progress::HasMore => !self.is_empty_at(input),
            Progress::Done => true,
        }
    }

    // Whether an input has no row.
    fn is_empty_at(&self, input: usize) -> bool
        requires { input < length self.now.list.items }
        ensures yes { result ≡ true → left_at self.now.list.items input ≡ [] }
        ensures not_so { result ≡ false → 1 ≤ length (left_at self.now.list.items input) }
    {
        !self.list[input].has_next()
    }

    // How many rows an input has.
    fn len_at(&self, input: usize) -> u64
        requires { input < length self.now.list.items }
        ensures { result ≡ length (left_at self.now.list.items input) }
    {
        self.list[input].len()
    }

    /// The next rows in the order of the keys, at most so many and as long as each input that is
    /// not done has one; fewer where rows have other variables than the first. There is one unless
    /// no input has a row.
    pub(crate) fn merge(
        &mut self,
        alloc: Global,
        keys: &[Key],
        inputs: &Inputs,
        most: u64,
    ) -> Result<Block, OutOfMemory>
        requires plain { AllPlain (key_trees keys.now) }
        requires keyed { All (IsKeyed (key_trees keys.now)) self.old.list.items }
        requires count { length inputs.now.progress.items ≡ length self.old.list.items }
        requires ready { AreReady inputs.now.progress.items self.old.list.items }
        requires most { 1 ≤ most }
        ensures count { OnOk result
            (length self.new.list.items ≡ length self.old.list.items) }
        ensures keyed { OnOk result (All (IsKeyed (key_trees keys.now)) self.new.list.items) }
        ensures merges { IfOk result (λ block.
            Merges (row_before (directions keys.now) (key_trees keys.now))
            (length inputs.now.progress.items) inputs.now.progress.items self.new.list.items
            (rows_of block) self.old.list.items) }
        ensures most { IfOk result (λ block. length (rows_of block) ≤ most) }
        ensures left { IfOk result (λ block. count_left self.new.list.items
            + length (rows_of block) ≡ count_left self.old.list.items) }
        ensures none { IfOk result (λ block. length (rows_of block) ≡ 0
            → (k : ℕ) → left_at self.old.list.items k ≡ []) }
    {
        let Some(first) = self.first(keys) else {
            return Ok(Block::empty(alloc));
        };
        let room = most.min(self.len()).min(u64::from(u32::MAX)) as u32;
        let mut block = self.block_for(alloc, first, room)?;
        self.move_row(alloc, keys, first, &mut block)?;
        for _row in 1..room {
            let Some(next) = self.next(keys, inputs, block.registers()) else {
                return Ok(block);
            };
            self.move_row(alloc, keys, next, &mut block)?;
        }
        Ok(block)
    }

    // The queue whose first row comes first.
    fn first(&self, keys: &[Key]) -> Option<usize>
        requires { All (IsKeyed (key_trees keys.now)) self.now.list.items }
        ensures { FirstUpTo (row_before (directions keys.now) (key_trees keys.now))
            self.now.list.items (length self.now.list.items) result }
    {
        let mut first = None;
        for other in 0..self.list.len() {
            first = self.earlier(keys, first, other);
        }
        first
    }

    // The queue whose first row comes first, of the first so far and one more.
    fn earlier(&self, keys: &[Key], first: Option<usize>, other: usize) -> Option<usize>
        requires keyed { All (IsKeyed (key_trees keys.now)) self.now.list.items }
        requires other { other < length self.now.list.items }
        requires first { FirstUpTo (row_before (directions keys.now) (key_trees keys.now))
            self.now.list.items other first }
        ensures { FirstUpTo (row_before (directions keys.now) (key_trees keys.now))
            self.now.list.items (other + 1) result }
    {
        if self.is_empty_at(other) {
            return first;
        }
        let Some(best) = first else {
            return Some(other);
        };
        if self.comes_before(keys, other, best) {
            return Some(other);
        }
        Some(best)
    }

    // Whether the first row of a queue comes before that of another.
    fn comes_before(&self, keys: &[Key], at: usize, other: usize) -> bool
        requires keyed { All (IsKeyed (key_trees keys.now)) self.now.list.items }
        requires at { at < length self.now.list.items }
        requires other { other < length self.now.list.items }
        ensures { (x y : meaning.Row) (xs ys : List meaning.Row)
            → left_at self.now.list.items at ≡ x ∷ xs → left_at self.now.list.items other ≡ y ∷ ys
            → result ≡ row_before (directions keys.now) (key_trees keys.now) x y }
    {
        let left = &self.list[at];
        let right = &self.list[other];
        compare(keys, &left.keys, &right.keys).is_lt()
    }

    // The queue whose first row comes first, where each input that is not done has a row, and where
    // this one has these variables.
    fn next(&self, keys: &[Key], inputs: &Inputs, registers: &[u32]) -> Option<usize>
        requires keyed { All (IsKeyed (key_trees keys.now)) self.now.list.items }
        requires count { length inputs.now.progress.items ≡ length self.now.list.items }
        ensures ready { IfSome result
            (λ k. AreReady inputs.now.progress.items self.now.list.items) }
        ensures first { IfSome result (λ k.
            IsFirst (row_before (directions keys.now) (key_trees keys.now)) self.now.list.items
            (length self.now.list.items) k) }
        ensures registers { IfSome result (λ k.
            HasRegisters registers.now self.now.list.items k) }
    {
        if !self.are_ready(inputs) {
            return None;
        }
        let first = self.first(keys)?;
        if !self.has_registers(first, registers) {
            return None;
        }
        Some(first)
    }

    // Whether the rows of a queue have these variables.
    fn has_registers(&self, at: usize, registers: &[u32]) -> bool
        requires { at < length self.now.list.items }
        ensures { result ≡ true → HasRegisters registers.now self.now.list.items at }
    {
        self.list[at].block.registers() == registers
    }

    // No row yet, with the variables of a queue and room for so many rows.
    fn block_for(&self, alloc: Global, at: usize, room: u32) -> Result<Block, OutOfMemory>
        requires { at < length self.now.list.items }
        ensures registers { IfOk result
            (λ block. HasRegisters block.registers self.now.list.items at) }
        ensures none { IfOk result (λ block. rows_of block ≡ []) }
        ensures room { IfOk result (λ block. block.room ≡ room) }
    {
        Block::new(alloc, self.list[at].block.registers(), room)
    }

    // How many rows there are; it stops at the largest number.
    fn len(&self) -> u64
        ensures { (k : ℕ) → 1 ≤ length (left_at self.now.list.items k) → 1 ≤ result }
    {
        let mut count: u64 = 0;
        for input in 0..self.list.len() {
            let more = self.len_at(input);
            count = count.saturating_add(more);
        }
        count
    }

    // Moves the first row of a queue to a block that isn't full and has the same variables.
    fn move_row(
        &mut self,
        alloc: Global,
        keys: &[Key],
        at: usize,
        block: &mut Block,
    ) -> Result<(), OutOfMemory>
        requires plain { AllPlain (key_trees keys.now) }
        requires keyed { All (IsKeyed (key_trees keys.now)) self.old.list.items }
        requires at { at < length self.old.list.items }
        requires some { 1 ≤ length (left_at self.old.list.items at) }
        requires registers { HasRegisters block.old.registers self.old.list.items at }
        requires room { length (rows_of block.old) < block.old.room }
        ensures keyed { OnOk result (All (IsKeyed (key_trees keys.now)) self.new.list.items) }
        ensures moved { OnOk result ((row : meaning.Row)
            × (rows_of block.new ≡ rows_of block.old ++ row ∷ [])
            × Popped at row self.old.list.items self.new.list.items) }
        ensures registers { block.new.registers ≡ block.old.registers }
        ensures room { block.new.room ≡ block.old.room }
    {
        let row = self.list[at].pop(alloc, keys)?;
        match block.append(row) {
            Ok(()) => Ok(()),
            Err(_) => unreachable!(),
        }
    }
}
