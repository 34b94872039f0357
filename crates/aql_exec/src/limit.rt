//! LIMIT: it hands its offset and its count on to its input.

ghost use Rattle.std.specs.Prelude.{◌≡◌, ℕ, ◌+◌, ◌-◌, ◌<◌, ◌≤◌, ◌^◌, ◌⊎◌, [], length, true, false, cond};
ghost use Rattle.aql_plan.specs.Plan as plan;
ghost use Rattle.aql_block.specs.Tables.{rows_of};
ghost use Rattle.aql_exec.specs.Steps.{given};
ghost use Rattle.aql_exec.specs.Limiting.{ask_of};
ghost use Rattle.aql_exec.specs.Operators.{OnRows, is_first};

use crate::feed::Executor;
use crate::mapped::ended_early;
use crate::surroundings::Surroundings;
use crate::turns::Turn;
use crate::unlinked::Unlinked;
use aql_block::{Block, Call, Progress, Row, Step, Tally};
use aql_value::OutOfMemory;
use std::alloc::Global;
use std::mem;

/// Leaves out the first `offset` rows of its input and gives at most `count` of the others.
#[derive(Drop)]
pub struct Limit {
    offset: u64,
    count: u64,
    /// how many rows of the input are still to be left out, and how many still to be given
    skip: u64,
    left: u64,
    /// the call that is worked on, or was last, and what was asked for it last
    call: Call,
    ask: Call,
    /// no step came since it began
    fresh: bool,
    /// it asked for the call, and did not answer it yet
    asked: bool,
    /// the answer of the input did not come yet
    pending: bool,
    /// a step came of which something is to be reported
    has: bool,
    /// how many rows the input skipped for this call
    skipped: u64,
    /// of the last step: how many rows it skipped, its rows and their number, and how it ended
    came: u64,
    block: Block,
    rows: u32,
    progress: Progress,
    /// what was answered last
    reported_skips: u64,
    reported_rows: u32,
    reported: Progress,
    /// the input is done
    done: bool,
}

impl Limit {
    /// Leaves out `offset` rows and gives at most `count`; their sum is below 2^64.
    pub fn new(alloc: Global, offset: u64, count: u64) -> Limit
        requires { offset + count < 2 ^ 64 }
        ensures { (result.offset ≡ offset) × (result.count ≡ count) }
    {
        let call = Call {
            offset: 0,
            soft: 1,
            hard: 1,
        };
        Limit {
            offset,
            count,
            skip: offset,
            left: count,
            call,
            ask: call,
            fresh: true,
            asked: false,
            pending: false,
            has: false,
            skipped: 0,
            came: 0,
            block: Block::empty(alloc),
            rows: 0,
            progress: Progress::HasMore,
            reported_skips: 0,
            reported_rows: 0,
            reported: Progress::HasMore,
            done: false,
        }
    }
}

// What is asked of the input for a call, where `skip` rows are still to be left out and `left`, at
// least one, to be given: of the rows that the call skips all but the last one that is left are
// skipped there too.
fn ask_for(call: Call, skip: u64, left: u64) -> Call
    requires left { 1 ≤ left }
    requires sum { skip + left < 2 ^ 64 }
    ensures { result ≡ ask_of call skip left }
{
    let offset = call.offset.min(left - 1);
    let hard = call.hard.min(left - offset);
    Call {
        offset: skip + offset,
        soft: call.soft.min(hard),
        hard,
    }
}

// The answer to a call with this offset, where `past` rows were skipped beyond those that are left
// out: where the call skips more, the rows that came are skipped too.
fn answer(alloc: Global, offset: u64, past: u64, block: Block, progress: Progress) -> Step
    requires { past + length (rows_of block) < 2 ^ 64 }
    ensures over { past < offset → (given result ≡ [])
        × (result.skipped ≡ past + length (rows_of block)) }
    ensures whole { offset ≤ past → (given result ≡ rows_of block) × (result.skipped ≡ past) }
    ensures progress { result.progress ≡ progress }
{
    if past < offset {
        return Step {
            skipped: past + u64::from(block.len()),
            block: Block::empty(alloc),
            progress,
        };
    }
    Step {
        skipped: past,
        block,
        progress,
    }
}

// How things stand after a step, where so many rows may still be given.
fn progress_at(left: u64, progress: Progress) -> Progress
    ensures { (left ≡ 0 → result ≡ Progress.Done) × (1 ≤ left → result ≡ progress) }
{
    if left == 0 { Progress::Done } else { progress }
}

// Whether there is something to tell of: not where all that came is to be left out and more may
// come.
fn tells(progress: Progress, skipped: u64, skip: u64, rows: u32) -> bool
    ensures none { result ≡ false → (progress ≡ Progress.HasMore) × (skipped ≤ skip) × (rows ≡ 0) }
    ensures some { result ≡ true → progress ≡ Progress.HasMore → 1 ≤ (skipped - skip) + rows }
{
    !matches!(progress, Progress::HasMore) || skipped > skip || rows > 0
}

impl<W: Surroundings> Executor<W> for Limit {
    ghost use Rattle.aql_exec.specs.Limiting.{gives_limit, some_limit, more_limit, unreported_limit};
    ghost use Rattle.aql_exec.specs.Limiting.{AsksLimit, asks_limit, may_limit};
    ghost use Rattle.aql_exec.specs.Limiting.{LimitIs, budget_limit, waited_limit, waits_left_limit};
    ghost use Rattle.aql_exec.specs.Streaming.{ended_first};
    ghost use Rattle.std.proofs.Math.Nat.{le_refl};

    ghost gives = { λ s _ _ _ ins r. gives_limit s ins r };

    ghost node = { λ s. OnRows (plan.Limit s.offset s.count) };

    ghost unreported = { λ s k. unreported_limit s k };

    ghost asking = { λ s k ask. AsksLimit s k ask };

    ghost ended = { λ s k. ended_first s.done k };

    ghost started = { λ _ k. is_first k };

    ghost valid = { λ s _. LimitIs s };

    ghost ours = { λ _ _. ⊥ };

    ghost waited = { λ s k. waited_limit s k };

    ghost stuck = { λ _ _. ⊥ };

    ghost budget = { λ s _ _. budget_limit s };

    ghost full = { λ _ _. 1 };

    ghost row_cost = { λ _ _ _. 2 };

    ghost may = { λ s p c. may_limit s p c };

    ghost asks = { λ s k c. asks_limit s k c };

    ghost waits_left = { λ s. waits_left_limit s };

    ghost busy = { λ _. ⊥ };

    ghost held = { λ s. cond s.has (length (rows_of s.block)) 0 };

    fn begin(&mut self, alloc: Global, _start: &Row) -> Result<(), OutOfMemory> {
        self.skip = self.offset;
        self.left = self.count;
        self.block = Block::empty(alloc);
        self.skipped = 0;
        self.fresh = true;
        self.asked = false;
        self.pending = false;
        self.has = false;
        self.done = false;
        Ok(())
    }

    fn turn(
        &mut self,
        alloc: Global,
        _port: u32,
        _world: &mut W,
        call: Call,
        _tally: &mut Tally,
    ) -> Result<Turn, OutOfMemory> {
        if self.has {
            let past = self.skipped.saturating_sub(self.skip);
            let left = self.left - (past + u64::from(self.rows));
            let block = mem::replace(&mut self.block, Block::empty(alloc));
            let progress = progress_at(left, self.progress);
            let step = answer(alloc, self.call.offset, past, block, progress);
            self.skip = self.skip.saturating_sub(self.skipped);
            self.left = left;
            self.skipped = 0;
            self.has = false;
            self.asked = false;
            self.reported_skips = step.skipped;
            self.reported_rows = step.block.len();
            self.reported = progress;
            return Ok(Turn::Give(step));
        }
        if self.done || self.left == 0 {
            return Ok(Turn::Give(Step {
                skipped: 0,
                block: Block::empty(alloc),
                progress: Progress::Done,
            }));
        }
        let ask = ask_for(call, self.skip - self.skipped, self.left);
        self.call = call;
        self.ask = ask;
        self.asked = true;
        self.pending = true;
        Ok(Turn::Ask {
            input: 0,
            call: ask,
        })
    }

    fn take(
        &mut self,
        _alloc: Global,
        _port: u32,
        _input: u32,
        step: Step,
    ) -> Result<(), OutOfMemory> {
        let Step {
            skipped,
            block,
            progress,
        } = step;
        self.rows = block.len();
        self.skipped += skipped;
        self.came = skipped;
        self.done = ended_early(progress, self.rows, self.ask.hard);
        self.has = tells(progress, self.skipped, self.skip, self.rows);
        self.fresh = false;
        self.pending = false;
        self.block = block;
        self.progress = progress;
        Ok(())
    }

    ghost some = { λ s _ _ _ ins _. some_limit s ins };

    ghost more_counts = { λ x s _ _ _ k d ins ins' r e a o h. more_limit x s k d ins ins' r e a o h };

    ghost kept_gives = { λ _ _ _ _ _ _ _ _ _ h. h };

    ghost kept_valid = { λ _ _ _ _ _ _ _ h. h };

    ghost kept_budget = { λ s _ _ _ _ _. le_refl (budget_limit s) };

    ghost own_links = { λ _ _ _ _ h. absurd h };

    ghost no_link = { λ _ _ h. absurd h };
}

impl<W: Surroundings> Unlinked<W> for Limit {
    fn begun(&self, input: u32) -> bool {
        input == 0
    }

    ghost no_links = { λ _ _ h. absurd h };

    ghost not_stuck = { λ _ _ h. absurd h };
}
