//! The executor that makes one row of each row, and hands its calls on to its input.

ghost use Rattle.std.specs.Prelude.{◌≡◌, ℕ, ◌+◌, ◌≤◌, ◌⊎◌, List, [], length, map, true, false, cond, IfOk};
ghost use Rattle.aql_meaning.specs.Row as meaning;
ghost use Rattle.aql_plan.specs.Plan.{Node};
ghost use Rattle.aql_plan.specs.Fits.{Fits};
ghost use Rattle.aql_plan.specs.Runs.{Dataset};
ghost use Rattle.aql_block.specs.Tables.{rows_of};
ghost use Rattle.aql_exec.specs.Counting.{GivesCounting, nothing};
ghost use Rattle.aql_exec.specs.Operators.{OnRows, is_first};

use crate::feed::Executor;
use crate::surroundings::Surroundings;
use crate::turns::Turn;
use crate::unlinked::Unlinked;
use aql_block::{Block, Call, Progress, Row, Step, Tally};
use aql_value::OutOfMemory;
use std::alloc::Global;
use std::mem;

/// Makes one row of each row.
pub trait RowMap<W: Surroundings> {
    /// the node that it works for
    ghost node: { Self → Node };

    /// the row that it makes of a row
    ghost image: { Self → meaning.Row → meaning.Row };

    /// The rows made of these, in order.
    fn map(&self, alloc: Global, world: &W, block: Block) -> Result<Block, OutOfMemory>
        requires fits { Fits (W.stock world.now).facts (node self.now) }
        ensures { IfOk result (λ b. rows_of b ≡ map (image self.now) (rows_of block)) };

    /// so its node makes them
    ghost maps: { (s : Self) (w : Dataset) (start : meaning.Row) (rows : List meaning.Row)
        → GivesCounting (node s) w start rows (map (image s) rows) nothing };
}

/// An executor over one input, by a map of its rows.
#[derive(Drop)]
pub struct Mapped<M> {
    by: M,
    /// the call that was handed on last, if any was
    last: Call,
    /// no answer came since it began
    fresh: bool,
    /// it was handed on, and its answer was not handed back yet
    asked: bool,
    /// its answer, which came and was not handed back yet
    has: bool,
    skipped: u64,
    block: Block,
    /// how many rows came with it
    count: u32,
    progress: Progress,
    /// the input is done
    done: bool,
}

impl<M> Mapped<M> {
    /// By this map; it gives nothing before it begins.
    pub fn new(alloc: Global, by: M) -> Mapped<M>
        ensures { result.by ≡ by }
    {
        Mapped {
            by,
            last: Call {
                offset: 0,
                soft: 1,
                hard: 1,
            },
            fresh: true,
            asked: false,
            has: false,
            skipped: 0,
            block: Block::empty(alloc),
            count: 0,
            progress: Progress::HasMore,
            done: false,
        }
    }
}

// Whether an input that answered so ended before it gave all that was wanted of it.
pub(crate) fn ended_early(progress: Progress, rows: u32, hard: u64) -> bool
    ensures early { result ≡ true → (progress ≡ Progress.Done) × (rows ≡ hard → ⊥) }
    ensures done { progress ≡ Progress.Done → (rows ≡ hard) ⊎ (result ≡ true) }
{
    matches!(progress, Progress::Done) && u64::from(rows) != hard
}

impl<W: Surroundings, M: RowMap<W>> Executor<W> for Mapped<M> {
    ghost use Rattle.aql_exec.specs.Mapping.{gives_mapped, some_mapped, more_mapped, unreported_mapped};
    ghost use Rattle.aql_exec.specs.Mapping.{AsksOn, asks_on, may_at};
    ghost use Rattle.aql_exec.specs.Mapping.{MappedIs, budget_mapped, waited_mapped};
    ghost use Rattle.aql_exec.specs.Streaming.{ended_first};
    ghost use Rattle.std.proofs.Math.Nat.{le_refl};

    ghost gives = { λ s _ _ _ ins r. gives_mapped M.RowMap s ins r };

    ghost node = { λ s. OnRows (M.node s.by) };

    ghost unreported = { λ s k. unreported_mapped s k };

    ghost asking = { λ s k ask. AsksOn s k ask };

    ghost ended = { λ s k. ended_first s.done k };

    ghost started = { λ _ k. is_first k };

    ghost valid = { λ s _. MappedIs s };

    ghost ours = { λ _ _. ⊥ };

    ghost waited = { λ s k. waited_mapped s k };

    ghost stuck = { λ _ _. ⊥ };

    ghost budget = { λ s _ _. budget_mapped s };

    ghost full = { λ _ _. 1 };

    ghost row_cost = { λ _ _ _. 2 };

    ghost may = { λ s p c. may_at s p c };

    ghost asks = { λ s k c. asks_on s k c };

    ghost waits_left = { λ s. cond s.has 0 1 };

    ghost busy = { λ _. ⊥ };

    ghost held = { λ s. cond s.has (length (rows_of s.block)) 0 };

    fn begin(&mut self, alloc: Global, _start: &Row) -> Result<(), OutOfMemory> {
        self.block = Block::empty(alloc);
        self.skipped = 0;
        self.fresh = true;
        self.asked = false;
        self.has = false;
        self.done = false;
        Ok(())
    }

    fn turn(
        &mut self,
        alloc: Global,
        _port: u32,
        world: &mut W,
        call: Call,
        _tally: &mut Tally,
    ) -> Result<Turn, OutOfMemory> {
        if self.has {
            let block = mem::replace(&mut self.block, Block::empty(alloc));
            let block = self.by.map(alloc, world, block)?;
            self.has = false;
            self.asked = false;
            return Ok(Turn::Give(Step {
                skipped: self.skipped,
                block,
                progress: self.progress,
            }));
        }
        self.asked = false;
        if self.done {
            return Ok(Turn::Give(Step {
                skipped: 0,
                block: Block::empty(alloc),
                progress: Progress::Done,
            }));
        }
        self.last = call;
        self.asked = true;
        Ok(Turn::Ask { input: 0, call })
    }

    fn take(
        &mut self,
        _alloc: Global,
        _port: u32,
        _input: u32,
        step: Step,
    ) -> Result<(), OutOfMemory> {
        let Step {
            skipped,
            block,
            progress,
        } = step;
        self.count = block.len();
        self.done = ended_early(progress, self.count, self.last.hard);
        self.has = true;
        self.fresh = false;
        self.skipped = skipped;
        self.block = block;
        self.progress = progress;
        Ok(())
    }

    ghost some = { λ s _ _ _ ins _. some_mapped M.RowMap.own s ins };

    ghost more_counts = { λ x s _ _ _ k d ins ins' r e a o h.
        more_mapped M.RowMap.own x s k d ins ins' r e a o h };

    ghost kept_gives = { λ _ _ _ _ _ _ _ _ _ h. h };

    ghost kept_valid = { λ _ _ _ _ _ _ _ h. h };

    ghost kept_budget = { λ s _ _ _ _ _. le_refl (budget_mapped s) };

    ghost own_links = { λ _ _ _ _ h. absurd h };

    ghost no_link = { λ _ _ h. absurd h };
}

impl<W: Surroundings, M: RowMap<W>> Unlinked<W> for Mapped<M> {
    fn begun(&self, input: u32) -> bool {
        input == 0
    }

    ghost no_links = { λ _ _ h. absurd h };

    ghost not_stuck = { λ _ _ h. absurd h };
}
