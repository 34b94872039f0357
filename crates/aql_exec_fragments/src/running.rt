//! An executor over feeds, each one of its inputs.

ghost use Rattle.std.specs.Prelude.{◌≡◌, ℕ, ◌+◌, ◌<◌, ◌≤◌, ◌⊎◌, List, length, IfOk, OnOk};
ghost use Rattle.aql_block.specs.declared.calls.Call.{Call};
ghost use Rattle.aql_exec.specs.Rests.{Counts, Over};
ghost use Rattle.aql_exec.specs.Rising.{ExactFor, Rises};
ghost use Rattle.aql_exec.specs.Steps.{IsCall, InCall, Continues, Follows, given, reported};
ghost use Rattle.aql_exec.specs.Promises.{SameNode, Beside};
ghost use Rattle.aql_exec_fragments.specs.Feeds.{Gathers, Gathering, GatheredRests, SameFeeds};
ghost use Rattle.aql_exec_fragments.specs.Feeds.{exact_over, OwnOfAny, gathered_budget};

use aql_block::{Call, Progress, Step, Tally};
use aql_exec::{Feed, Surroundings, Turn};
use aql_exec_cluster::Local;
use aql_value::OutOfMemory;
use std::alloc::Global;

/// Turns an executor until it answers the call; pulls the feed that it asks, each an input of its.
pub fn run_gather<W: Surroundings, X: Local<W>, F: Feed<W>>(
    alloc: Global,
    gather: &mut X,
    feeds: &mut Vec<F>,
    world: &mut W,
    call: Call,
    tally: &mut Tally,
) -> Result<Step, OutOfMemory>
    requires valid { Gathering X.Executor F.Feed W.Surroundings gather.old feeds.old.items world.old }
    requires fits { Gathers X.Executor F.Feed W.Surroundings (W.stock world.old).facts
        gather.old feeds.old.items }
    requires call { IsCall call }
    requires batch { call.soft ≤ W.batch world.old }
    requires may { X.may gather.old 0 call }
    ensures node { SameNode (X.node gather.old) (X.node gather.new)
        (X.full gather.old) (X.full gather.new) (X.row_cost gather.old) (X.row_cost gather.new) }
    ensures feeds { SameFeeds F.Feed feeds.old.items feeds.new.items }
    ensures world { Beside W.Surroundings (OwnOfAny F.Feed feeds.old.items) world.old world.new }
    ensures ours { OnOk result ((l : ℕ) → OwnOfAny F.Feed feeds.new.items l
        → OwnOfAny F.Feed feeds.old.items l ⊎ (W.links world.old ≤ l)) }
    ensures valid { OnOk result
        (Gathering X.Executor F.Feed W.Surroundings gather.new feeds.new.items world.new) }
    ensures leads { IfOk result (λ step. (d : Counts) × Rises W.Surroundings
        (ExactFor (exact_over X.Executor F.Feed W.Surroundings gather.old feeds.old.items) call)
        tally.old world.old tally.new world.new d
        × Continues (exact_over X.Executor F.Feed W.Surroundings gather.old feeds.old.items)
        (GatheredRests X.Executor F.Feed W.Surroundings gather.old feeds.old.items world.old) d step
        (GatheredRests X.Executor F.Feed W.Surroundings gather.new feeds.new.items world.new)) }
    ensures bounds { IfOk result (λ step. InCall call step) }
    ensures done { IfOk result (λ step. step.progress ≡ Progress.Done
        → ((length (given step) ≡ call.hard)
        ⊎ Over (exact_over X.Executor F.Feed W.Surroundings gather.old feeds.old.items)
        (GatheredRests X.Executor F.Feed W.Surroundings gather.new feeds.new.items world.new))) }
    ensures may { IfOk result (λ step. (c : Call) → IsCall c
        → Follows call step.skipped (length (given step)) step.progress c → X.may gather.new 0 c) }
    ensures more { IfOk result (λ step. step.progress ≡ Progress.HasMore → 0 < reported step) }
    ensures waiting { IfOk result (λ step. step.progress ≡ Progress.Waiting → (l : ℕ)
        × OwnOfAny F.Feed feeds.new.items l × (0 < length (W.flight world.new l).flying)) }
    ensures budget { IfOk result (λ step. gathered_budget X.Executor F.Feed W.Surroundings
        gather.old gather.new feeds.new.items world.new + reported step
        ≤ gathered_budget X.Executor F.Feed W.Surroundings
        gather.old gather.old feeds.old.items world.old) }
{
    loop {
        match gather.turn(alloc, 0, world, call, tally)? {
            Turn::Ask { input, call: ask } => {
                let at = input as usize;
                let step = feeds[at].pull(alloc, world, ask, tally)?;
                gather.take(alloc, 0, input, step)?;
            }
            Turn::Start { input: _, row: _ } => unreachable!(),
            Turn::Give(step) => return Ok(step),
        }
    }
}
