//! Executors that stand in a fragment above its foot.

ghost use Rattle.std.specs.Prelude.{◌≡◌, ℕ, false};
ghost use Rattle.aql_exec_cluster.specs.Fragments.{is_foot};

use crate::blocks::Blocks;
use crate::founded::Founded;
use aql_block::{Call, Row, Step, Tally};
use aql_engine::Choice;
use aql_exec::{
    Executor, Mapped, Message, NoResults, RowMap, Stream, Surroundings, Transform, Turn, Unlinked,
    Wired,
};
use aql_value::OutOfMemory;
use std::alloc::Global;
use std::rc::Rc;

/// An executor that owns no link and takes its rows from its inputs alone, so it is no foot of a
/// fragment.
pub trait AboveFoot<W: Surroundings>: Unlinked<W> {
    ghost not_foot: { (s : Self) → is_foot (Self.node s) ≡ false };
}

impl<W: Surroundings, T: Transform<W>> AboveFoot<W> for Stream<T> {
    ghost use Rattle.std.proofs.Common.{refl};

    ghost not_foot = { λ _. refl };
}

impl<W: Surroundings, M: RowMap<W>> AboveFoot<W> for Mapped<M> {
    ghost use Rattle.std.proofs.Common.{refl};

    ghost not_foot = { λ _. refl };
}

impl<W: Surroundings> AboveFoot<W> for NoResults {
    ghost use Rattle.std.proofs.Common.{refl};

    ghost not_foot = { λ _. refl };
}

impl<W: Surroundings, A: AboveFoot<W>, B: AboveFoot<W>> AboveFoot<W> for Choice<A, B> {
    ghost use Rattle.aql_exec_cluster.specs.laws.Locals.{neither_foot};

    ghost not_foot = { neither_foot A.node B.node A.not_foot B.not_foot };
}

/// An executor above the foot, where one that may stand at it is asked for: it begins over any rows
/// as it begins without.
#[derive(Drop)]
pub struct Inner<X> {
    executor: X,
}

impl<X> Inner<X> {
    pub fn new(executor: X) -> Inner<X>
        ensures { result.executor ≡ executor }
    {
        Inner { executor }
    }
}

impl<W: Surroundings, X: Executor<W>> Executor<W> for Inner<X> {
    ghost gives = { λ s w p body ins r. X.gives s.executor w p body ins r };

    ghost node = { λ s. X.node s.executor };

    ghost unreported = { λ s k. X.unreported s.executor k };

    ghost asking = { λ s k c. X.asking s.executor k c };

    ghost ended = { λ s k. X.ended s.executor k };

    ghost started = { λ s k. X.started s.executor k };

    ghost valid = { λ s w. X.valid s.executor w };

    ghost ours = { λ s l. X.ours s.executor l };

    ghost waited = { λ s k. X.waited s.executor k };

    ghost stuck = { λ s k. X.stuck s.executor k };

    ghost budget = { λ s w f. X.budget s.executor w f };

    ghost full = { λ s f. X.full s.executor f };

    ghost row_cost = { λ s k f. X.row_cost s.executor k f };

    ghost may = { λ s p c. X.may s.executor p c };

    ghost asks = { λ s k c. X.asks s.executor k c };

    ghost waits_left = { λ s. X.waits_left s.executor };

    ghost busy = { λ s. X.busy s.executor };

    ghost held = { λ s. X.held s.executor };

    fn begin(&mut self, alloc: Global, start: &Row) -> Result<(), OutOfMemory> {
        self.executor.begin(alloc, start)
    }

    fn turn(
        &mut self,
        alloc: Global,
        port: u32,
        world: &mut W,
        call: Call,
        tally: &mut Tally,
    ) -> Result<Turn, OutOfMemory> {
        self.executor.turn(alloc, port, world, call, tally)
    }

    fn take(
        &mut self,
        alloc: Global,
        port: u32,
        input: u32,
        step: Step,
    ) -> Result<(), OutOfMemory> {
        self.executor.take(alloc, port, input, step)
    }

    ghost some = { λ s. X.some s.executor };

    ghost more_counts = { λ e s. X.more_counts e s.executor };

    ghost kept_gives = { λ s. X.kept_gives s.executor };

    ghost kept_valid = { λ s. X.kept_valid s.executor };

    ghost kept_budget = { λ s. X.kept_budget s.executor };

    ghost own_links = { λ s. X.own_links s.executor };

    ghost no_link = { λ s. X.no_link s.executor };
}

impl<W: Surroundings, X: Unlinked<W>> Wired<W> for Inner<X> {
    ghost use mathlib.Core.Bool.{false≢true};

    ghost serves = { λ _. false };

    fn owns(&self, _link: u64) -> bool {
        false
    }

    fn begun(&self, input: u32) -> bool {
        self.executor.begun(input)
    }

    fn received(&self) -> Option<Call> {
        None
    }

    fn deliver(
        &mut self,
        _alloc: Global,
        _world: &mut W,
        _tally: &mut Tally,
        _link: u64,
        _message: Message,
    ) -> Result<(), OutOfMemory> {
        Ok(())
    }

    ghost stuck_serves = { λ s k h. absurd (X.not_stuck s.executor k h) };

    ghost may_serve = { λ _ _ h. absurd (false≢true h) };

    ghost serves_port = { λ _ h. absurd (false≢true h) };
}

impl<W: Surroundings, X: AboveFoot<W>> Founded<W> for Inner<X> {
    fn begin_over(
        &mut self,
        alloc: Global,
        start: &Row,
        _part: &Rc<Blocks>,
    ) -> Result<(), OutOfMemory> {
        self.executor.begin(alloc, start)
    }
}
