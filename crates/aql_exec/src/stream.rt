//! The executor that makes its rows by a transform, and counts them for itself: it asks its input
//! for all rows, whatever is asked of it.

ghost use Rattle.std.specs.Prelude.{◌≡◌, ℕ, ◌+◌, ◌≤◌, List, [], length, cond, true, false, IfOk, OnOk};
ghost use Rattle.std.proofs.Math.Nat.{le_refl};
ghost use Rattle.aql_meaning.specs.Row as meaning;
ghost use Rattle.aql_plan.specs.Fits.{Fits};
ghost use Rattle.aql_exec.specs.Rests.{Counts, Rest, all_exact, IsOver};
ghost use Rattle.aql_exec.specs.Rising.{ExactFor, Rises};
ghost use Rattle.aql_exec.specs.Steps.{IsCall, InCall, Continues, given, reported};
ghost use Rattle.aql_exec.specs.Promises.{IsStill};
ghost use Rattle.aql_exec.specs.Reads.{scans_all};
ghost use Rattle.aql_exec.specs.RowCosts.{row_cost_of};
ghost use Rattle.aql_exec.specs.Operators.{OnRows, is_first, exact_at};

use crate::feed::Executor;
use crate::surroundings::Surroundings;
use crate::transform::Transform;
use crate::turns::Turn;
use crate::unlinked::Unlinked;
use aql_block::{Block, Call, Progress, Row, Step, Tally};
use aql_value::OutOfMemory;
use std::alloc::Global;

/// An executor over one input, by a transform.
#[derive(Drop)]
pub struct Stream<T> {
    transform: T,
    /// the input is done
    done: bool,
    /// the last step of the input was waiting, and nothing was given since
    waiting: bool,
}

impl<T> Stream<T> {
    /// By this transform; it gives nothing before it begins.
    pub fn new(transform: T) -> Stream<T>
        ensures { result.transform ≡ transform }
    {
        Stream {
            transform,
            done: false,
            waiting: false,
        }
    }
}

// The next step of a transform: it skips rows as long as the call has an offset, and else gives
// rows; it tells of none where the transform is used up.
fn advance<W: Surroundings, T: Transform<W>>(
    transform: &mut T,
    alloc: Global,
    world: &mut W,
    call: Call,
    tally: &mut Tally,
) -> Result<Step, OutOfMemory>
    requires valid { T.valid transform.old (W.stock world.old) }
    requires fits { Fits (W.stock world.old).facts (T.node transform.old) }
    requires call { IsCall call }
    ensures node { T.node transform.new ≡ T.node transform.old }
    ensures world { IsStill W.Surroundings world.old world.new }
    ensures valid { OnOk result (T.valid transform.new (W.stock world.old)) }
    ensures closed { OnOk result (T.closed transform.new ≡ T.closed transform.old) }
    ensures bounds { IfOk result (λ step. InCall call step) }
    ensures progress { IfOk result (λ step. step.progress ≡ Progress.HasMore) }
    ensures held { IfOk result (λ step. T.held transform.new (W.stock world.old)
        + reported step ≤ T.held transform.old (W.stock world.old)) }
    ensures left { IfOk result (λ step. (d : Counts)
        × Rises W.Surroundings (ExactFor (exact_at (OnRows (T.node transform.old))) call)
        tally.old world.old tally.new world.new d
        × ((rows : List meaning.Row) → Continues all_exact
        (T.left transform.old (W.stock world.old) rows) d step
        (T.left transform.new (W.stock world.old) rows))) }
    ensures none { IfOk result (λ step. reported step ≡ 0 → T.ready transform.new
        × (T.closed transform.new ≡ true → (r : Rest)
        → T.left transform.new (W.stock world.old) [] r → IsOver all_exact r)) }
    ensures reads { IfOk result (λ step. scans_all (OnRows (T.node transform.old)) ≡ true
        → tally.new.scanned_full ≤ tally.old.scanned_full + length (given step)) }
{
    if call.offset > 0 {
        let skipped = transform.skip(alloc, world, call.offset, tally)?;
        return Ok(Step {
            skipped,
            block: Block::empty(alloc),
            progress: Progress::HasMore,
        });
    }
    let block = transform.next(alloc, world, call.soft, tally)?;
    Ok(Step {
        skipped: 0,
        block,
        progress: Progress::HasMore,
    })
}

impl<W: Surroundings, T: Transform<W>> Executor<W> for Stream<T> {
    ghost use Rattle.aql_exec.specs.Streaming.{gives_stream, some_stream, more_stream, AsksAll, asks_all};
    ghost use Rattle.aql_exec.specs.Streaming.{ended_first, waited_first, stream_valid, stream_budget};

    ghost gives = { λ s w _ _ ins r. gives_stream T.Transform W.Surroundings s w ins r };

    ghost node = { λ s. OnRows (T.node s.transform) };

    ghost unreported = { λ _ _. 0 };

    ghost asking = { λ s k ask. AsksAll T.Transform W.Surroundings s k ask };

    ghost ended = { λ s k. ended_first s.done k };

    ghost started = { λ _ k. is_first k };

    ghost valid = { λ s w. stream_valid T.Transform W.Surroundings s w };

    ghost ours = { λ _ _. ⊥ };

    ghost waited = { λ s k. waited_first s.waiting k };

    ghost stuck = { λ _ _. ⊥ };

    ghost budget = { λ s w _. stream_budget T.Transform W.Surroundings s w };

    ghost full = { λ _ _. 2 };

    ghost row_cost = { λ s _ _. row_cost_of (T.node s.transform) + 1 };

    ghost may = { λ _ _ _. Unit {0} };

    ghost asks = { λ s k c. asks_all s.done k c };

    ghost waits_left = { λ s. cond s.waiting 0 1 };

    ghost busy = { λ _. ⊥ };

    ghost held = { λ _. 0 };

    fn begin(&mut self, alloc: Global, start: &Row) -> Result<(), OutOfMemory> {
        self.transform.begin(alloc, start)?;
        self.done = false;
        self.waiting = false;
        Ok(())
    }

    fn turn(
        &mut self,
        alloc: Global,
        _port: u32,
        world: &mut W,
        call: Call,
        tally: &mut Tally,
    ) -> Result<Turn, OutOfMemory> {
        let step = advance(&mut self.transform, alloc, world, call, tally)?;
        if step.skipped > 0 || step.block.len() > 0 {
            self.waiting = false;
            return Ok(Turn::Give(step));
        }
        if self.done {
            self.waiting = false;
            return Ok(Turn::Give(Step {
                skipped: 0,
                block: Block::empty(alloc),
                progress: Progress::Done,
            }));
        }
        if self.waiting {
            self.waiting = false;
            return Ok(Turn::Give(Step {
                skipped: 0,
                block: Block::empty(alloc),
                progress: Progress::Waiting,
            }));
        }
        Ok(Turn::Ask {
            input: 0,
            call: Call {
                offset: 0,
                soft: call.soft,
                hard: u64::MAX,
            },
        })
    }

    fn take(
        &mut self,
        alloc: Global,
        _port: u32,
        _input: u32,
        step: Step,
    ) -> Result<(), OutOfMemory> {
        let Step {
            skipped: _,
            block,
            progress,
        } = step;
        self.transform.put(alloc, block)?;
        match progress {
            Progress::Waiting => self.waiting = true,
            Progress::HasMore => {}
            Progress::Done => {
                self.transform.close();
                self.done = true;
            }
        }
        Ok(())
    }

    ghost some = { λ s w _ _ ins v. some_stream T.Transform.own W.Surroundings T.some s w ins v };

    ghost more_counts = { λ x s w _ _ k d ins ins' r e a o h.
        more_stream T.Transform.own W.Surroundings x s w k d ins ins' r e a o h };

    ghost kept_gives = { λ _ _ _ e _ _ _ _ _ h. rw (← e) h };

    ghost kept_valid = { λ _ _ _ e _ _ _ h. rw e h };

    ghost kept_budget = { λ s w _ e _ _. rw e (le_refl _) };

    ghost own_links = { λ _ _ _ _ h. absurd h };

    ghost no_link = { λ _ _ h. absurd h };
}

impl<W: Surroundings, T: Transform<W>> Unlinked<W> for Stream<T> {
    fn begun(&self, input: u32) -> bool {
        input == 0
    }

    ghost no_links = { λ _ _ h. absurd h };

    ghost not_stuck = { λ _ _ h. absurd h };
}
