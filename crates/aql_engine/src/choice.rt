//! One of two executors.

ghost use Rattle.std.specs.Prelude.{◌≡◌, ℕ, ◌+◌, ◌<◌, ◌≤◌, ◌⊎◌, List, length, true, false};
ghost use Rattle.aql_block.specs.declared.calls.Call.{Call};
ghost use Rattle.aql_exec.specs.Rests.{Rest};
ghost use Rattle.aql_exec.specs.Operators.{OperatorTree};

use aql_block::{Call, Row, Step, Tally};
use aql_exec::{Executor, Message, Surroundings, Turn, Unlinked, Wired};
use aql_value::OutOfMemory;
use std::alloc::Global;

/// One executor or another.
pub enum Choice<A, B> {
    First(A),
    Second(B),
}

// Written, and not derived, so that a drop on a way out is one call.
impl<A: Drop, B: Drop> Drop for Choice<A, B> {
    fn drop(self) {
        match self {
            Choice::First(_) | Choice::Second(_) => {}
        }
    }
}

impl<W: Surroundings, A: Executor<W>, B: Executor<W>> Executor<W> for Choice<A, B> {
    ghost use Rattle.aql_engine.specs.Choices.{on, On};
    ghost use Rattle.aql_engine.specs.laws.Choices.{choice_some, choice_more, choice_gives};
    ghost use Rattle.aql_engine.specs.laws.Choices.{choice_valid, choice_budget, choice_links};
    ghost use Rattle.aql_engine.specs.laws.Choices.{choice_no_link};

    ghost gives = { λ s w p body ins r.
        On (λ a. A.gives a w p body ins r) (λ b. B.gives b w p body ins r) s };

    ghost node = { on A.node B.node };

    ghost unreported = { λ s k. on (λ a. A.unreported a k) (λ b. B.unreported b k) s };

    ghost asking = { λ s k c. On (λ a. A.asking a k c) (λ b. B.asking b k c) s };

    ghost ended = { λ s k. on (λ a. A.ended a k) (λ b. B.ended b k) s };

    ghost started = { λ s k. on (λ a. A.started a k) (λ b. B.started b k) s };

    ghost valid = { λ s w. On (λ a. A.valid a w) (λ b. B.valid b w) s };

    ghost ours = { λ s l. On (λ a. A.ours a l) (λ b. B.ours b l) s };

    ghost waited = { λ s k. On (λ a. A.waited a k) (λ b. B.waited b k) s };

    ghost stuck = { λ s k. On (λ a. A.stuck a k) (λ b. B.stuck b k) s };

    ghost budget = { λ s w f. on (λ a. A.budget a w f) (λ b. B.budget b w f) s };

    ghost full = { λ s f. on (λ a. A.full a f) (λ b. B.full b f) s };

    ghost row_cost = { λ s k f. on (λ a. A.row_cost a k f) (λ b. B.row_cost b k f) s };

    ghost may = { λ s p c. On (λ a. A.may a p c) (λ b. B.may b p c) s };

    ghost asks = { λ s k c. On (λ a. A.asks a k c) (λ b. B.asks b k c) s };

    ghost waits_left = { on A.waits_left B.waits_left };

    ghost busy = { On A.busy B.busy };

    ghost held = { on A.held B.held };

    fn begin(&mut self, alloc: Global, start: &Row) -> Result<(), OutOfMemory> {
        match self {
            Choice::First(a) => a.begin(alloc, start),
            Choice::Second(b) => b.begin(alloc, start),
        }
    }

    fn turn(
        &mut self,
        alloc: Global,
        port: u32,
        world: &mut W,
        call: Call,
        tally: &mut Tally,
    ) -> Result<Turn, OutOfMemory> {
        match self {
            Choice::First(a) => a.turn(alloc, port, world, call, tally),
            Choice::Second(b) => b.turn(alloc, port, world, call, tally),
        }
    }

    fn take(
        &mut self,
        alloc: Global,
        port: u32,
        input: u32,
        step: Step,
    ) -> Result<(), OutOfMemory> {
        match self {
            Choice::First(a) => a.take(alloc, port, input, step),
            Choice::Second(b) => b.take(alloc, port, input, step),
        }
    }

    ghost some = { choice_some A.Executor.own B.Executor.own A.some B.some };

    ghost more_counts = { choice_more A.Executor.own B.Executor.own A.more_counts B.more_counts };

    ghost kept_gives = { choice_gives A.Executor.own B.Executor.own W.Surroundings
        A.kept_gives B.kept_gives };

    ghost kept_valid = { choice_valid A.Executor.own B.Executor.own W.Surroundings
        A.kept_valid B.kept_valid };

    ghost kept_budget = { choice_budget A.Executor.own B.Executor.own W.Surroundings A.kept_budget B.kept_budget };

    ghost own_links = { choice_links A.Executor.own B.Executor.own W.Surroundings
        A.own_links B.own_links };

    ghost no_link = { choice_no_link A.Executor.own B.Executor.own W.Surroundings
        A.no_link B.no_link };
}

impl<W: Surroundings, A: Unlinked<W>, B: Unlinked<W>> Unlinked<W> for Choice<A, B> {
    ghost use Rattle.aql_engine.specs.laws.Choices.{choice_none};

    fn begun(&self, input: u32) -> bool {
        match self {
            Choice::First(a) => a.begun(input),
            Choice::Second(b) => b.begun(input),
        }
    }

    ghost no_links = { choice_none A.ours B.ours A.no_links B.no_links };

    ghost not_stuck = { choice_none A.stuck B.stuck A.not_stuck B.not_stuck };
}

impl<W: Surroundings, A: Wired<W>, B: Wired<W>> Wired<W> for Choice<A, B> {
    ghost use Rattle.aql_engine.specs.Choices.{on, On};
    ghost use Rattle.aql_engine.specs.laws.Choices.{choice_stuck, choice_may, choice_ports};

    ghost serves = { on A.serves B.serves };

    fn owns(&self, link: u64) -> bool {
        match self {
            Choice::First(a) => a.owns(link),
            Choice::Second(b) => b.owns(link),
        }
    }

    fn begun(&self, input: u32) -> bool {
        match self {
            Choice::First(a) => a.begun(input),
            Choice::Second(b) => b.begun(input),
        }
    }

    fn received(&self) -> Option<Call> {
        match self {
            Choice::First(a) => a.received(),
            Choice::Second(b) => b.received(),
        }
    }

    fn deliver(
        &mut self,
        alloc: Global,
        world: &mut W,
        tally: &mut Tally,
        link: u64,
        message: Message,
    ) -> Result<(), OutOfMemory> {
        match self {
            Choice::First(a) => a.deliver(alloc, world, tally, link, message),
            Choice::Second(b) => b.deliver(alloc, world, tally, link, message),
        }
    }

    ghost stuck_serves = { choice_stuck A.stuck B.stuck A.serves B.serves
        A.stuck_serves B.stuck_serves };

    ghost may_serve = { choice_may A.may B.may A.serves B.serves A.may_serve B.may_serve };

    ghost serves_port = { choice_ports A.node B.node A.serves B.serves
        A.serves_port B.serves_port };
}
