//! GATHER without keys: the rows of the shards in any order.

ghost use Rattle.std.specs.Prelude.{◌≡◌, ℕ, ◌+◌, ◌≤◌, ◌++◌, List, [], length, IfOk, OnOk};
ghost use Rattle.aql_tree.specs.Tree.{no_exprs};
ghost use Rattle.aql_meaning.specs.Row as meaning;
ghost use Rattle.aql_block.specs.Tables.{rows_of};
ghost use Rattle.aql_exec.specs.Steps.{IsCall, InCall, given, reported};
ghost use Rattle.aql_exec.specs.Operators as operator;
ghost use Rattle.aql_exec.specs.Operators.{is_below};

use crate::inputs::Inputs;
use crate::local::Local;
use aql_block::{Block, Call, Progress, Row, Step, Tally};
use aql_exec::{Executor, Surroundings, Turn, Unlinked, nothing, take_front};
use aql_value::OutOfMemory;
use std::alloc::Global;

/// Gives the rows of its inputs block by block, in the order in which they come. It asks each input
/// that is not done before it waits, and gives what came before it asks again.
#[derive(Drop)]
pub struct Gather {
    /// the rows that came and were not given
    held: Block,
    inputs: Inputs,
}

impl Gather {
    /// Over so many inputs, one for each shard.
    pub fn new(alloc: Global, inputs: u32) -> Result<Gather, OutOfMemory>
        ensures { IfOk result (λ gather. length gather.inputs.progress.items ≡ inputs) }
    {
        let inputs = Inputs::new(alloc, inputs)?;
        Ok(Gather {
            held: Block::empty(alloc),
            inputs,
        })
    }
}

// The first of the rows that are held, or a skip of some of them.
fn give(alloc: Global, held: &mut Block, call: Call) -> Result<Step, OutOfMemory>
    requires call { IsCall call }
    requires some { 1 ≤ length (rows_of held.old) }
    ensures bounds { IfOk result (λ step. InCall call step) }
    ensures progress { IfOk result (λ step. step.progress ≡ Progress.HasMore) }
    ensures more { IfOk result (λ step. 1 ≤ reported step) }
    ensures reported { IfOk result
        (λ step. length (rows_of held.new) + reported step ≡ length (rows_of held.old)) }
    ensures rows { IfOk result (λ step. (skipped : List meaning.Row)
        × (length skipped ≡ step.skipped)
        × (rows_of held.old ≡ (skipped ++ given step) ++ rows_of held.new)) }
{
    if call.offset > 0 {
        let block = take_front(alloc, held, call.offset)?;
        return Ok(Step {
            skipped: u64::from(block.len()),
            block: Block::empty(alloc),
            progress: Progress::HasMore,
        });
    }
    let block = take_front(alloc, held, call.soft)?;
    Ok(Step {
        skipped: 0,
        block,
        progress: Progress::HasMore,
    })
}

impl<W: Surroundings> Executor<W> for Gather {
    ghost use Rattle.aql_exec_cluster.specs.Standing.{standing, is_done, count_going, count_awake};
    ghost use Rattle.aql_exec_cluster.specs.Standing.{IsWaiting, AsksInput, asks_input};
    ghost use Rattle.aql_exec_cluster.specs.Gathering.{gives_gather, some_gather, more_gather};
    ghost use Rattle.std.proofs.Math.Nat.{le_refl};

    ghost gives = { λ s _ _ _ ins r.
        gives_gather (length s.inputs.progress.items) (rows_of s.held) ins r };

    ghost node = { λ s. operator.Gather (length s.inputs.progress.items) [] no_exprs };

    ghost unreported = { λ _ _. 0 };

    ghost asking = { λ s k ask. AsksInput s.inputs.progress.items k ask × (rows_of s.held ≡ []) };

    ghost ended = { λ s k. is_done (standing s.inputs.progress.items k) };

    ghost started = { λ s k. is_below (length s.inputs.progress.items) k };

    ghost valid = { λ _ _. Unit {0} };

    ghost ours = { λ _ _. ⊥ };

    ghost waited = { λ s k. IsWaiting s.inputs.progress.items k };

    ghost stuck = { λ _ _. ⊥ };

    ghost budget = { λ s _ _. length (rows_of s.held) + count_going s.inputs.progress.items };

    ghost full = { λ s _. length s.inputs.progress.items };

    ghost row_cost = { λ _ _ _. 2 };

    ghost may = { λ _ _ _. Unit {0} };

    ghost asks = { λ s k c. asks_input s.inputs.progress.items k c };

    ghost waits_left = { λ s. count_awake s.inputs.progress.items };

    ghost busy = { λ _. ⊥ };

    ghost held = { λ _. 0 };

    fn begin(&mut self, alloc: Global, _start: &Row) -> Result<(), OutOfMemory> {
        self.held = Block::empty(alloc);
        self.inputs.begin();
        Ok(())
    }

    fn turn(
        &mut self,
        alloc: Global,
        _port: u32,
        _world: &mut W,
        call: Call,
        _tally: &mut Tally,
    ) -> Result<Turn, OutOfMemory> {
        if self.held.len() > 0 {
            let step = give(alloc, &mut self.held, call)?;
            self.inputs.wake();
            return Ok(Turn::Give(step));
        }
        if let Some(input) = self.inputs.first_ready() {
            return Ok(Turn::Ask {
                input: input as u32,
                call: Call {
                    offset: 0,
                    soft: call.soft,
                    hard: u64::MAX,
                },
            });
        }
        if let Some(_input) = self.inputs.first_waiting() {
            self.inputs.wake();
            return Ok(Turn::Give(nothing(alloc, Progress::Waiting)));
        }
        Ok(Turn::Give(nothing(alloc, Progress::Done)))
    }

    fn take(
        &mut self,
        _alloc: Global,
        _port: u32,
        input: u32,
        step: Step,
    ) -> Result<(), OutOfMemory> {
        let input = input as usize;
        if input >= self.inputs.len() {
            return Ok(());
        }
        let Step {
            skipped: _,
            block,
            progress,
        } = step;
        self.held = block;
        self.inputs.progress[input] = progress;
        Ok(())
    }

    ghost some = { λ s _ _ _ ins _.
        some_gather (length s.inputs.progress.items) (rows_of s.held) ins };

    ghost more_counts = { λ e s _ _ _ k d ins ins' r l p o h.
        more_gather e (length s.inputs.progress.items) (rows_of s.held) k d ins ins' r l p o h };

    ghost kept_gives = { λ _ _ _ _ _ _ _ _ _ h. h };

    ghost kept_valid = { λ _ _ _ _ _ _ _ h. h };

    ghost kept_budget = { λ s _ _ _ _ _.
        le_refl (length (rows_of s.held) + count_going s.inputs.progress.items) };

    ghost own_links = { λ _ _ _ _ h. absurd h };

    ghost no_link = { λ _ _ h. absurd h };
}

impl<W: Surroundings> Unlinked<W> for Gather {
    fn begun(&self, input: u32) -> bool {
        (input as usize) < self.inputs.len()
    }

    ghost no_links = { λ _ _ h. absurd h };

    ghost not_stuck = { λ _ _ h. absurd h };
}

impl<W: Surroundings> Local<W> for Gather {
    ghost no_busy = { λ _ h. absurd h };
}
