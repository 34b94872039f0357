//! The foot of a fragment: the rows that came to its shard.

ghost use Rattle.std.specs.Prelude.{◌≡◌, ◌⊎◌, ℕ, ◌+◌, ◌<◌, ◌≤◌, ◌^◌, ◌++◌, List, [], length};
ghost use Rattle.std.specs.Prelude.{option_map, true, false, IfOk};
ghost use Rattle.std.specs.Rc.{rc_value};
ghost use Rattle.std.proofs.Math.Nat.{le_refl};
ghost use mathlib.Core.Bool.{false≢true};
ghost use Rattle.aql_meaning.specs.Row as meaning;
ghost use Rattle.aql_block.specs.declared.calls.Progress.{Progress};
ghost use Rattle.aql_exec.specs.Steps.{IsCall, InCall, given, reported};
ghost use Rattle.aql_exec.specs.Operators.{ShardRows};
ghost use Rattle.aql_exec_cluster.specs.Shared.{rows_left};

use crate::blocks::{Blocks, Place};
use crate::founded::Founded;
use aql_block::{Block, Call, Progress, Row, Step, Tally};
use aql_exec::{Executor, Message, Surroundings, Turn, Wired, nothing};
use aql_value::OutOfMemory;
use std::alloc::Global;
use std::rc::Rc;

/// Gives the rows that came to its shard. The list may be shared with other shards: each keeps its
/// own place in it.
#[derive(Drop)]
pub struct Part {
    list: Option<Rc<Blocks>>,
    place: Place,
}

// Nothing more comes where a step tells of no row, or where none is left.
fn progress_after(reported: u64, is_over: bool) -> Progress
    ensures done { result ≡ Progress.Done → (reported ≡ 0) ⊎ (is_over ≡ true) }
    ensures more { result ≡ Progress.HasMore → 0 < reported }
    ensures ready { result ≡ Progress.Waiting → ⊥ }
{
    if reported == 0 || is_over {
        Progress::Done
    } else {
        Progress::HasMore
    }
}

impl Part {
    /// It gives nothing before it begins.
    pub fn new() -> Part {
        Part {
            list: None,
            place: Place::start(),
        }
    }

    // The next rows for a call.
    fn next(&mut self, alloc: Global, call: Call) -> Result<Step, OutOfMemory>
        requires { IsCall call }
        ensures rows { IfOk result (λ step. (s : List meaning.Row) × (length s ≡ step.skipped)
            × (rows_left (option_map rc_value self.old.list) self.old.place
            ≡ (s ++ given step) ++ rows_left (option_map rc_value self.new.list) self.new.place)) }
        ensures bounds { IfOk result (λ step. InCall call step) }
        ensures done { IfOk result (λ step. step.progress ≡ Progress.Done
            → rows_left (option_map rc_value self.new.list) self.new.place ≡ []) }
        ensures more { IfOk result
            (λ step. step.progress ≡ Progress.HasMore → 0 < reported step) }
        ensures ready { IfOk result (λ step. step.progress ≡ Progress.Waiting → ⊥) }
    {
        let Some(list) = &self.list else {
            return Ok(nothing(alloc, Progress::Done));
        };
        if call.offset > 0 {
            let skipped = list.skip(&mut self.place, call.offset);
            return Ok(Step {
                skipped,
                block: Block::empty(alloc),
                progress: progress_after(skipped, false),
            });
        }
        let block = list.copy_rows(alloc, &mut self.place, call.soft)?;
        let is_over = list.is_over(&mut self.place);
        let progress = progress_after(u64::from(block.len()), is_over);
        Ok(Step {
            skipped: 0,
            block,
            progress,
        })
    }
}

impl<W: Surroundings> Executor<W> for Part {
    ghost use Rattle.aql_exec.specs.Leaves.{gives_alone, some_alone, more_alone};

    ghost gives = { λ s _ _ _ _ r. gives_alone (rows_left (option_map rc_value s.list) s.place) r };

    ghost node = { λ _. ShardRows };

    ghost unreported = { λ _ _. 0 };

    ghost asking = { λ _ _ _. ⊥ };

    ghost ended = { λ _ _. false };

    ghost started = { λ _ _. false };

    ghost valid = { λ _ _. Unit {0} };

    ghost ours = { λ _ _. ⊥ };

    ghost waited = { λ _ _. ⊥ };

    ghost stuck = { λ _ _. ⊥ };

    ghost budget = { λ s _ _. length (rows_left (option_map rc_value s.list) s.place) };

    ghost full = { λ _ _. 2 ^ 96 };

    ghost row_cost = { λ _ _ _. 0 };

    ghost may = { λ _ _ _. Unit {0} };

    ghost asks = { λ _ _ _. ⊥ };

    ghost waits_left = { λ _. 0 };

    ghost busy = { λ _. ⊥ };

    ghost held = { λ _. 0 };

    fn begin(&mut self, _alloc: Global, _start: &Row) -> Result<(), OutOfMemory> {
        self.list = None;
        Ok(())
    }

    fn turn(
        &mut self,
        alloc: Global,
        _port: u32,
        _world: &mut W,
        call: Call,
        _tally: &mut Tally,
    ) -> Result<Turn, OutOfMemory> {
        let step = self.next(alloc, call)?;
        Ok(Turn::Give(step))
    }

    fn take(
        &mut self,
        _alloc: Global,
        _port: u32,
        _input: u32,
        _step: Step,
    ) -> Result<(), OutOfMemory> {
        Ok(())
    }

    ghost some = { λ s _ _ _ _ _. some_alone (rows_left (option_map rc_value s.list) s.place) };

    ghost more_counts = { λ _ _ _ _ _ _ _ _ _ _ e _ _ _. more_alone e };

    ghost kept_gives = { λ _ _ _ _ _ _ _ _ _ h. h };

    ghost kept_valid = { λ _ _ _ _ _ _ _ h. h };

    ghost kept_budget = { λ s _ _ _ _ _.
        le_refl (length (rows_left (option_map rc_value s.list) s.place)) };

    ghost own_links = { λ _ _ _ _ h. absurd h };

    ghost no_link = { λ _ _ h. absurd h };
}

impl<W: Surroundings> Wired<W> for Part {
    ghost serves = { λ _. false };

    fn owns(&self, _link: u64) -> bool {
        false
    }

    fn begun(&self, _input: u32) -> bool {
        false
    }

    fn received(&self) -> Option<Call> {
        None
    }

    fn deliver(
        &mut self,
        _alloc: Global,
        _world: &mut W,
        _tally: &mut Tally,
        _link: u64,
        _message: Message,
    ) -> Result<(), OutOfMemory> {
        Ok(())
    }

    ghost stuck_serves = { λ _ _ h. absurd h };

    ghost may_serve = { λ _ _ h. absurd (false≢true h) };

    ghost serves_port = { λ _ h. absurd (false≢true h) };
}

impl<W: Surroundings> Founded<W> for Part {
    fn begin_over(
        &mut self,
        _alloc: Global,
        _start: &Row,
        part: &Rc<Blocks>,
    ) -> Result<(), OutOfMemory> {
        // each block has fewer than 2^32 rows
        let _blocks = part.len();
        self.list = Some(part.clone()?);
        self.place = Place::start();
        Ok(())
    }
}
