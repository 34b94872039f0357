//! A node of which no row can come.

ghost use Rattle.std.specs.Prelude.{◌≡◌, ℕ, [], false};
ghost use Rattle.std.proofs.Math.Nat.{le_refl};
ghost use Rattle.aql_exec.specs.Operators.{NoRows};

use crate::feed::Executor;
use crate::surroundings::Surroundings;
use crate::turns::Turn;
use crate::unlinked::Unlinked;
use aql_block::{Block, Call, Progress, Row, Step, Tally};
use aql_value::OutOfMemory;
use std::alloc::Global;

/// Gives no row.
#[derive(Drop)]
pub struct NoResults;

impl<W: Surroundings> Executor<W> for NoResults {
    ghost use Rattle.aql_exec.specs.Leaves.{gives_alone, some_alone, more_alone};

    ghost gives = { λ _ _ _ _ _ r. gives_alone [] r };

    ghost node = { λ _. NoRows };

    ghost unreported = { λ _ _. 0 };

    ghost asking = { λ _ _ _. ⊥ };

    ghost ended = { λ _ _. false };

    ghost started = { λ _ _. false };

    ghost valid = { λ _ _. Unit {0} };

    ghost ours = { λ _ _. ⊥ };

    ghost waited = { λ _ _. ⊥ };

    ghost stuck = { λ _ _. ⊥ };

    ghost budget = { λ _ _ _. 0 };

    ghost full = { λ _ _. 0 };

    ghost row_cost = { λ _ _ _. 0 };

    ghost may = { λ _ _ _. Unit {0} };

    ghost asks = { λ _ _ _. ⊥ };

    ghost waits_left = { λ _. 0 };

    ghost busy = { λ _. ⊥ };

    ghost held = { λ _. 0 };

    fn begin(&mut self, _alloc: Global, _start: &Row) -> Result<(), OutOfMemory> {
        Ok(())
    }

    fn turn(
        &mut self,
        alloc: Global,
        _port: u32,
        _world: &mut W,
        _call: Call,
        _tally: &mut Tally,
    ) -> Result<Turn, OutOfMemory> {
        Ok(Turn::Give(Step {
            skipped: 0,
            block: Block::empty(alloc),
            progress: Progress::Done,
        }))
    }

    fn take(
        &mut self,
        _alloc: Global,
        _port: u32,
        _input: u32,
        _step: Step,
    ) -> Result<(), OutOfMemory> {
        Ok(())
    }

    ghost some = { λ _ _ _ _ _ _. some_alone [] };

    ghost more_counts = { λ _ _ _ _ _ _ _ _ _ _ e _ _ _. more_alone e };

    ghost kept_gives = { λ _ _ _ _ _ _ _ _ _ h. h };

    ghost kept_valid = { λ _ _ _ _ _ _ _ h. h };

    ghost kept_budget = { λ _ _ _ _ _ _. le_refl 0 };

    ghost own_links = { λ _ _ _ _ h. absurd h };

    ghost no_link = { λ _ _ h. absurd h };
}

impl<W: Surroundings> Unlinked<W> for NoResults {
    fn begun(&self, _input: u32) -> bool {
        false
    }

    ghost no_links = { λ _ _ h. absurd h };

    ghost not_stuck = { λ _ _ h. absurd h };
}
