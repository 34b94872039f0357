//! Executors that own no link, where one that may own some is asked for.

ghost use Rattle.std.specs.Prelude.{◌≡◌, ℕ, false};

use crate::feed::Executor;
use crate::links::Wired;
use crate::surroundings::Surroundings;
use crate::turns::{Message, Turn};
use aql_block::{Call, Row, Step, Tally};
use aql_value::OutOfMemory;
use std::alloc::Global;

/// An executor that owns no link.
pub trait Unlinked<W: Surroundings>: Executor<W> {
    /// this input was begun
    fn begun(&self, input: u32) -> bool
        ensures { result ≡ Self.started self.now input };

    ghost no_links: { (s : Self) (l : ℕ) → Self.ours s l → ⊥ };

    ghost not_stuck: { (s : Self) (k : ℕ) → Self.stuck s k → ⊥ };
}

/// An executor that owns no link, as one that may own some.
#[derive(Drop)]
pub struct AsWired<X> {
    executor: X,
}

impl<X> AsWired<X> {
    pub fn new(executor: X) -> AsWired<X>
        ensures { result.executor ≡ executor }
    {
        AsWired { executor }
    }
}

impl<W: Surroundings, X: Executor<W>> Executor<W> for AsWired<X> {
    ghost gives = { λ s w p body ins r. X.gives s.executor w p body ins r };

    ghost node = { λ s. X.node s.executor };

    ghost unreported = { λ s k. X.unreported s.executor k };

    ghost asking = { λ s k c. X.asking s.executor k c };

    ghost ended = { λ s k. X.ended s.executor k };

    ghost started = { λ s k. X.started s.executor k };

    ghost valid = { λ s w. X.valid s.executor w };

    ghost ours = { λ s l. X.ours s.executor l };

    ghost waited = { λ s k. X.waited s.executor k };

    ghost stuck = { λ s k. X.stuck s.executor k };

    ghost budget = { λ s w f. X.budget s.executor w f };

    ghost full = { λ s f. X.full s.executor f };

    ghost row_cost = { λ s k f. X.row_cost s.executor k f };

    ghost may = { λ s p c. X.may s.executor p c };

    ghost asks = { λ s k c. X.asks s.executor k c };

    ghost waits_left = { λ s. X.waits_left s.executor };

    ghost busy = { λ s. X.busy s.executor };

    ghost held = { λ s. X.held s.executor };

    fn begin(&mut self, alloc: Global, start: &Row) -> Result<(), OutOfMemory> {
        self.executor.begin(alloc, start)
    }

    fn turn(
        &mut self,
        alloc: Global,
        port: u32,
        world: &mut W,
        call: Call,
        tally: &mut Tally,
    ) -> Result<Turn, OutOfMemory> {
        self.executor.turn(alloc, port, world, call, tally)
    }

    fn take(
        &mut self,
        alloc: Global,
        port: u32,
        input: u32,
        step: Step,
    ) -> Result<(), OutOfMemory> {
        self.executor.take(alloc, port, input, step)
    }

    ghost some = { λ s. X.some s.executor };

    ghost more_counts = { λ e s. X.more_counts e s.executor };

    ghost kept_gives = { λ s. X.kept_gives s.executor };

    ghost kept_valid = { λ s. X.kept_valid s.executor };

    ghost kept_budget = { λ s. X.kept_budget s.executor };

    ghost own_links = { λ s. X.own_links s.executor };

    ghost no_link = { λ s. X.no_link s.executor };
}

impl<W: Surroundings, X: Unlinked<W>> Wired<W> for AsWired<X> {
    ghost use mathlib.Core.Bool.{false≢true};

    ghost serves = { λ _. false };

    fn owns(&self, _link: u64) -> bool {
        false
    }

    fn begun(&self, input: u32) -> bool {
        self.executor.begun(input)
    }

    fn received(&self) -> Option<Call> {
        None
    }

    fn deliver(
        &mut self,
        _alloc: Global,
        _world: &mut W,
        _tally: &mut Tally,
        _link: u64,
        _message: Message,
    ) -> Result<(), OutOfMemory> {
        Ok(())
    }

    ghost stuck_serves = { λ s k h. absurd (X.not_stuck s.executor k h) };

    ghost may_serve = { λ _ _ h. absurd (false≢true h) };

    ghost serves_port = { λ _ h. absurd (false≢true h) };
}
