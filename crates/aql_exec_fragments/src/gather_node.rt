//! GATHER over the fragments of its shards.

ghost use Rattle.std.specs.Prelude.{◌≡◌, ℕ, true, false};

use crate::filling::begin_fragments;
use crate::owners::owner_of;
use crate::running::run_gather;
use aql_block::{Call, Progress, Row, Step, Tally};
use aql_exec::{Executor, Message, Surroundings, Turn, Wired};
use aql_exec_cluster::{Local, Parted, Splits};
use aql_value::OutOfMemory;
use std::alloc::Global;

/// A Gather, the fragments whose rows it gathers, one for each shard, and the Scatter below them:
/// one executor over the input of the Scatter. It fills the Scatter, then begins each fragment over
/// the rows of its shard, and pulls those that the Gather asks.
pub struct GatherNode<X, S, F> {
    gather: X,
    scatter: S,
    fragments: Vec<F>,
    /// the Scatter is filled, and the fragments began
    filled: bool,
    /// the row that it was begun from
    start: Row,
}

// Written, and not derived, so that a drop on a way out is one call.
impl<X: Drop, S: Drop, F: Drop> Drop for GatherNode<X, S, F> {
    fn drop(self) {
        let GatherNode {
            gather: _,
            scatter: _,
            fragments: _,
            filled: _,
            start: _,
        } = self;
    }
}

impl<X, S, F> GatherNode<X, S, F> {
    /// Over these fragments, one for each shard that the Scatter reaches.
    pub fn new(alloc: Global, gather: X, scatter: S, fragments: Vec<F>) -> GatherNode<X, S, F>
        ensures gather { result.gather ≡ gather }
        ensures scatter { result.scatter ≡ scatter }
        ensures fragments { result.fragments ≡ fragments }
    {
        GatherNode {
            gather,
            scatter,
            fragments,
            filled: false,
            start: Row::new(alloc),
        }
    }
}

impl<W: Surroundings, X: Local<W>, S: Splits<W>, F: Parted<W>> Executor<W> for GatherNode<X, S, F> {
    ghost use Rattle.std.proofs.lemmas.Bool.{false≢true};
    ghost use Rattle.aql_exec_fragments.specs.GatherNodes.{node_of, NodeGives, NodeIs, own_of};
    ghost use Rattle.aql_exec_fragments.specs.GatherNodes.{budget_of, full_of};
    ghost use Rattle.aql_exec_fragments.specs.laws.GatherNodes.{node_some, node_more};
    ghost use Rattle.aql_exec_fragments.specs.laws.GatherNodes.{node_kept_gives, node_kept_valid};
    ghost use Rattle.aql_exec_fragments.specs.laws.GatherNodes.{node_kept_budget, node_own_links};

    ghost gives = { λ s w _ _ ins r.
        NodeGives X.Executor S.Executor F.Feed W.Surroundings s w ins r };

    ghost node = { node_of X.Executor S.Executor F.Feed W.Surroundings };

    ghost unreported = { λ s k. S.unreported s.scatter k };

    ghost asking = { λ s k c. (s.filled ≡ false) × S.asking s.scatter k c };

    ghost ended = { λ s k. S.ended s.scatter k };

    ghost started = { λ s k. S.started s.scatter k };

    ghost valid = { NodeIs X.Executor S.Executor F.Feed W.Surroundings };

    ghost ours = { own_of X.Executor S.Executor F.Feed W.Surroundings };

    ghost waited = { λ s k. S.waited s.scatter k };

    ghost stuck = { λ s k. S.stuck s.scatter k };

    ghost budget = { λ s w _. budget_of X.Executor S.Executor F.Feed W.Surroundings s w };

    ghost full = { λ s _. full_of X.Executor S.Executor F.Feed W.Surroundings s };

    ghost row_cost = { λ s k _. S.row_cost s.scatter k 0 };

    ghost may = { λ s p c. p ≡ 0 → X.may s.gather 0 c };

    ghost asks = { λ s k c. S.asks s.scatter k c };

    ghost waits_left = { λ s. S.waits_left s.scatter };

    ghost busy = { λ _. ⊥ };

    ghost held = { λ _. 0 };

    fn begin(&mut self, alloc: Global, start: &Row) -> Result<(), OutOfMemory> {
        self.filled = false;
        self.start = start.copy(alloc)?;
        self.gather.begin(alloc, start)?;
        self.scatter.begin(alloc, start)?;
        Ok(())
    }

    fn turn(
        &mut self,
        alloc: Global,
        _port: u32,
        world: &mut W,
        call: Call,
        tally: &mut Tally,
    ) -> Result<Turn, OutOfMemory> {
        if self.filled {
            let step = run_gather(
                alloc,
                &mut self.gather,
                &mut self.fragments,
                world,
                call,
                tally,
            )?;
            return Ok(Turn::Give(step));
        }
        let last = self.fragments.len() as u32;
        match self.scatter.turn(alloc, last, world, call, tally)? {
            Turn::Ask { input, call: ask } => Ok(Turn::Ask { input, call: ask }),
            Turn::Start { input: _, row: _ } => unreachable!(),
            Turn::Give(step) => {
                let Progress::Done = step.progress else {
                    return Ok(Turn::Give(step));
                };
                begin_fragments(
                    alloc,
                    &self.scatter,
                    world,
                    &self.start,
                    &mut self.fragments,
                )?;
                self.filled = true;
                let step = run_gather(
                    alloc,
                    &mut self.gather,
                    &mut self.fragments,
                    world,
                    call,
                    tally,
                )?;
                Ok(Turn::Give(step))
            }
        }
    }

    fn take(
        &mut self,
        alloc: Global,
        _port: u32,
        input: u32,
        step: Step,
    ) -> Result<(), OutOfMemory> {
        let last = self.fragments.len() as u32;
        self.scatter.take(alloc, last, input, step)?;
        Ok(())
    }

    ghost some = { λ s w _ _ ins v. node_some X.Executor.own S.Executor.own F.Feed.own
        W.Surroundings X.some S.some F.some_rest s w ins v };

    ghost more_counts = { λ e s w _ _ k d ins ins' r f a o h. node_more X.Executor.own
        S.Executor.own F.Feed.own W.Surroundings S.more_counts e s w k d ins ins' r f a o h };

    ghost kept_gives = { λ s w w' e o _ _ ins r. node_kept_gives X.Executor.own S.Executor.own
        F.Feed.own W.Surroundings X.kept_gives X.no_links S.kept_gives S.no_links F.kept_rests
        s w w' e o ins r };

    ghost kept_valid = { node_kept_valid X.Executor.own S.Executor.own F.Feed.own W.Surroundings
        X.kept_valid X.no_links S.kept_valid S.no_links F.kept_rests F.kept_valid };

    ghost kept_budget = { λ s w w' e o _. node_kept_budget X.Executor.own S.Executor.own
        F.Feed.own W.Surroundings X.kept_budget X.no_links S.kept_budget S.no_links
        F.kept_budget s w w' e o };

    ghost own_links = { node_own_links X.Executor.own S.Executor.own F.Feed.own W.Surroundings
        F.own_links };

    ghost no_link = { λ _ _ _ e. absurd (false≢true e) };
}

impl<W: Surroundings, X: Local<W>, S: Splits<W>, F: Parted<W>> Wired<W> for GatherNode<X, S, F> {
    ghost use Rattle.std.proofs.lemmas.Bool.{false≢true};

    ghost serves = { λ _. false };

    fn owns(&self, link: u64) -> bool {
        self.filled && owner_of::<W, F>(&self.fragments, link).is_some()
    }

    fn begun(&self, input: u32) -> bool {
        input == 0
    }

    fn received(&self) -> Option<Call> {
        None
    }

    fn deliver(
        &mut self,
        alloc: Global,
        world: &mut W,
        tally: &mut Tally,
        link: u64,
        message: Message,
    ) -> Result<(), OutOfMemory> {
        if !self.filled {
            return Ok(());
        }
        let Some(at) = owner_of::<W, F>(&self.fragments, link) else {
            return Ok(());
        };
        self.fragments[at].deliver(alloc, world, tally, link, message)?;
        Ok(())
    }

    ghost stuck_serves = { λ s k h. absurd (S.not_stuck s.scatter k h) };

    ghost may_serve = { λ _ _ e. absurd (false≢true e) };

    ghost serves_port = { λ _ e. absurd (false≢true e) };
}
