//! GATHER with keys: the merge of the rows of the shards.

ghost use Rattle.std.specs.Prelude.{◌≡◌, ℕ, ◌+◌, ◌<◌, ◌≤◌, ◌++◌, List, [], length, IfOk, OnOk};
ghost use Rattle.std.specs.List.{All};
ghost use Rattle.aql_plan.specs.View.{directions, key_trees};
ghost use Rattle.aql_meaning.specs.Plain.{AllPlain};
ghost use Rattle.aql_meaning.specs.AtRows.{row_before};
ghost use Rattle.aql_meaning.specs.Row as meaning;
ghost use Rattle.aql_exec.specs.Steps.{IsCall, InCall, given, reported};
ghost use Rattle.aql_exec.specs.Operators as operator;
ghost use Rattle.aql_exec.specs.Operators.{is_below};
ghost use Rattle.aql_exec_cluster.specs.Queues.{IsKeyed, left_at, count_left, AreReady, Merges};

use crate::inputs::Inputs;
use crate::local::Local;
use crate::queue::Queue;
use crate::queues::Queues;
use aql_block::{Block, Call, Progress, Row, Step, Tally};
use aql_exec::{Executor, Surroundings, Turn, Unlinked, nothing};
use aql_tree::{Key, Keys};
use aql_value::OutOfMemory;
use std::alloc::Global;

/// Gives the rows of its inputs in the order of the keys, where each input gives its own so. It
/// holds one block of each, and gives rows as long as each input that is not done has a next one;
/// the keys of a row are computed once.
#[derive(Drop)]
pub struct SortedGather {
    keys: Keys,
    inputs: Inputs,
    /// by input the rows that came and were not given
    queues: Queues,
}

impl SortedGather {
    /// By these keys, over so many inputs, one for each shard.
    pub fn new(alloc: Global, keys: Keys, inputs: u32) -> Result<SortedGather, OutOfMemory>
        ensures { IfOk result (λ gather. (gather.keys ≡ keys)
            × (length gather.inputs.progress.items ≡ inputs)) }
    {
        let queues = Queues::new(alloc, inputs as usize)?;
        let inputs = Inputs::new(alloc, inputs)?;
        Ok(SortedGather {
            keys,
            inputs,
            queues,
        })
    }
}

// The next rows in the order of the keys, or a skip of some of them; it tells of none where no
// input has a row.
fn give(
    alloc: Global,
    keys: &[Key],
    inputs: &Inputs,
    queues: &mut Queues,
    call: Call,
) -> Result<Step, OutOfMemory>
    requires plain { AllPlain (key_trees keys.now) }
    requires keyed { All (IsKeyed (key_trees keys.now)) queues.old.list.items }
    requires count { length inputs.now.progress.items ≡ length queues.old.list.items }
    requires ready { AreReady inputs.now.progress.items queues.old.list.items }
    requires call { IsCall call }
    ensures count { OnOk result
        (length queues.new.list.items ≡ length queues.old.list.items) }
    ensures keyed { OnOk result (All (IsKeyed (key_trees keys.now)) queues.new.list.items) }
    ensures bounds { IfOk result (λ step. InCall call step) }
    ensures progress { IfOk result (λ step. step.progress ≡ Progress.HasMore) }
    ensures left { IfOk result (λ step.
        count_left queues.new.list.items + reported step ≡ count_left queues.old.list.items) }
    ensures none { IfOk result (λ step. reported step ≡ 0
        → (k : ℕ) → left_at queues.old.list.items k ≡ []) }
    ensures rows { IfOk result (λ step. (skipped : List meaning.Row)
        × (length skipped ≡ step.skipped)
        × Merges (row_before (directions keys.now) (key_trees keys.now))
        (length inputs.now.progress.items) inputs.now.progress.items queues.new.list.items
        (skipped ++ given step) queues.old.list.items) }
{
    if call.offset > 0 {
        let block = queues.merge(alloc, keys, inputs, call.offset)?;
        return Ok(Step {
            skipped: u64::from(block.len()),
            block: Block::empty(alloc),
            progress: Progress::HasMore,
        });
    }
    let block = queues.merge(alloc, keys, inputs, call.soft)?;
    Ok(Step {
        skipped: 0,
        block,
        progress: Progress::HasMore,
    })
}

impl<W: Surroundings> Executor<W> for SortedGather {
    ghost use Rattle.aql_exec_cluster.specs.Standing.{standing, is_done, count_going, count_awake};
    ghost use Rattle.aql_exec_cluster.specs.Standing.{IsWaiting, AsksInput, asks_input};
    ghost use Rattle.aql_exec_cluster.specs.SortedGathering.{gives_sorted, some_sorted};
    ghost use Rattle.aql_exec_cluster.specs.SortedGathering.{more_sorted, QueuesAre, budget_sorted};
    ghost use Rattle.std.proofs.Math.Nat.{le_refl};

    ghost gives = { λ s _ _ _ ins r. gives_sorted (directions s.keys) (key_trees s.keys)
        (length s.inputs.progress.items) s.queues.list.items ins r };

    ghost node = { λ s. operator.Gather (length s.inputs.progress.items) (directions s.keys)
        (key_trees s.keys) };

    ghost unreported = { λ _ _. 0 };

    ghost asking = { λ s k ask. AsksInput s.inputs.progress.items k ask
        × (left_at s.queues.list.items k ≡ []) };

    ghost ended = { λ s k. is_done (standing s.inputs.progress.items k) };

    ghost started = { λ s k. is_below (length s.inputs.progress.items) k };

    ghost valid = { λ s _. QueuesAre (key_trees s.keys) (length s.inputs.progress.items)
        s.queues.list.items };

    ghost ours = { λ _ _. ⊥ };

    ghost waited = { λ s k. IsWaiting s.inputs.progress.items k };

    ghost stuck = { λ _ _. ⊥ };

    ghost budget = { λ s _ _. budget_sorted s.queues.list.items s.inputs.progress.items };

    ghost full = { λ s _. length s.inputs.progress.items };

    ghost row_cost = { λ _ _ _. 2 };

    ghost may = { λ _ _ _. Unit {0} };

    ghost asks = { λ s k c. asks_input s.inputs.progress.items k c };

    ghost waits_left = { λ s. count_awake s.inputs.progress.items };

    ghost busy = { λ _. ⊥ };

    ghost held = { λ _. 0 };

    fn begin(&mut self, alloc: Global, _start: &Row) -> Result<(), OutOfMemory> {
        self.queues = Queues::new(alloc, self.inputs.len())?;
        self.inputs.begin();
        Ok(())
    }

    fn turn(
        &mut self,
        alloc: Global,
        _port: u32,
        _world: &mut W,
        call: Call,
        _tally: &mut Tally,
    ) -> Result<Turn, OutOfMemory> {
        if let Some(input) = self.queues.next_to_ask(&self.inputs) {
            return Ok(Turn::Ask {
                input: input as u32,
                call: Call {
                    offset: 0,
                    soft: call.soft,
                    hard: u64::MAX,
                },
            });
        }
        if !self.queues.are_ready(&self.inputs) {
            self.inputs.wake();
            return Ok(Turn::Give(nothing(alloc, Progress::Waiting)));
        }
        let step = give(
            alloc,
            self.keys.as_slice(),
            &self.inputs,
            &mut self.queues,
            call,
        )?;
        self.inputs.wake();
        if step.skipped == 0 && step.block.len() == 0 {
            return Ok(Turn::Give(nothing(alloc, Progress::Done)));
        }
        Ok(Turn::Give(step))
    }

    fn take(
        &mut self,
        alloc: Global,
        _port: u32,
        input: u32,
        step: Step,
    ) -> Result<(), OutOfMemory> {
        let input = input as usize;
        if input >= self.inputs.len() {
            return Ok(());
        }
        let Step {
            skipped: _,
            block,
            progress,
        } = step;
        let queue = Queue::new(alloc, self.keys.as_slice(), block)?;
        self.queues.put(input, queue);
        self.inputs.progress[input] = progress;
        Ok(())
    }

    ghost some = { λ s _ _ _ ins _. some_sorted (directions s.keys) (key_trees s.keys)
        (length s.inputs.progress.items) s.queues.list.items ins };

    ghost more_counts = { λ e s _ _ _ k d ins ins' r l p o h.
        more_sorted e (directions s.keys) (key_trees s.keys) (length s.inputs.progress.items)
        s.queues.list.items k d ins ins' r l p o h };

    ghost kept_gives = { λ _ _ _ _ _ _ _ _ _ h. h };

    ghost kept_valid = { λ _ _ _ _ _ _ _ h. h };

    ghost kept_budget = { λ s _ _ _ _ _.
        le_refl (budget_sorted s.queues.list.items s.inputs.progress.items) };

    ghost own_links = { λ _ _ _ _ h. absurd h };

    ghost no_link = { λ _ _ h. absurd h };
}

impl<W: Surroundings> Unlinked<W> for SortedGather {
    fn begun(&self, input: u32) -> bool {
        (input as usize) < self.inputs.len()
    }

    ghost no_links = { λ _ _ h. absurd h };

    ghost not_stuck = { λ _ _ h. absurd h };
}

impl<W: Surroundings> Local<W> for SortedGather {
    ghost no_busy = { λ _ h. absurd h };
}
