//! The tree of executors.

ghost use Rattle.std.specs.Prelude.{◌≡◌, ℕ, ◌+◌, ◌<◌, ◌≤◌, ◌⊎◌, [], length, IfOk, OnOk};
ghost use Rattle.aql_block.specs.declared.calls.Call.{Call};
ghost use Rattle.aql_block.specs.declared.calls.Progress.{Progress};
ghost use Rattle.aql_exec.specs.Rests.{Counts, Rest, Prefixed, Over};
ghost use Rattle.aql_exec.specs.Rising.{ExactFor, Rises};
ghost use Rattle.aql_exec.specs.Promises.{SameNode, Beside};
ghost use Rattle.aql_exec.specs.Reads.{ReadInStep};
ghost use Rattle.aql_exec.specs.Steps.{IsCall, InCall, Continues, Follows, given, reported};
ghost use Rattle.aql_exec.specs.Operators.{within, ports, IsTree};
ghost use Rattle.aql_engine.specs.Tree.{Flies, Waits, WaitsAt, tree_plan, tree_full, node_exact};
ghost use Rattle.aql_engine.specs.Tree.{NodeRests, NodeOwn, NodeValid, NodeDrained, NodeBudget};

use aql_block::{Call, Row, Step, Tally};
use aql_exec::{Executor, Feed, Surroundings, Turn};
use aql_value::OutOfMemory;
use std::alloc::Global;

/// An executor without inputs, or one over its input and with a body. An executor with one input
/// has any leaf as its body, which never begins.
pub enum Tree<X> {
    Leaf(X),
    Sub(X, Box<Tree<X>>, Box<Tree<X>>),
}

// Written, and not derived, so that a drop on a way out is one call.
impl<X: Drop> Drop for Tree<X> {
    fn drop(self) {
        match self {
            Tree::Leaf(_) | Tree::Sub(_, _, _) => {}
        }
    }
}

impl<W: Surroundings, X: Executor<W>> Feed<W> for Tree<X> {
    ghost use Rattle.aql_engine.specs.Tree.{TreeRests, tree_plan, TreeOwn, TreeMay, TreeValid};
    ghost use Rattle.aql_engine.specs.Tree.{tree_budget, tree_full, TreeDrained};
    ghost use Rattle.aql_engine.specs.laws.TreesKept.{tree_some, tree_kept_rests, tree_kept_valid};
    ghost use Rattle.aql_engine.specs.laws.TreesKept.{tree_kept_budget, tree_own_links};
    ghost use Rattle.aql_engine.specs.laws.Unlinked.{tree_no_link};

    ghost rests = { TreeRests X.Executor W.Surroundings };

    ghost plan = { tree_plan X.Executor W.Surroundings };

    ghost valid = { TreeValid X.Executor W.Surroundings };

    ghost budget = { tree_budget X.Executor W.Surroundings };

    ghost full = { tree_full X.Executor W.Surroundings };

    ghost drained = { TreeDrained X.Executor W.Surroundings };

    ghost may = { TreeMay X.Executor W.Surroundings };

    ghost ours = { TreeOwn X.Executor W.Surroundings };

    fn restart(&mut self, alloc: Global, start: &Row) -> Result<(), OutOfMemory> {
        match self {
            Tree::Leaf(x) => x.begin(alloc, start),
            Tree::Sub(x, below, _) => {
                x.begin(alloc, start)?;
                below.restart(alloc, start)
            }
        }
    }

    #[cycle(pull)]
    fn pull(
        &mut self,
        alloc: Global,
        world: &mut W,
        call: Call,
        tally: &mut Tally,
    ) -> Result<Step, OutOfMemory> {
        match self {
            Tree::Leaf(x) => match x.turn(alloc, 0, world, call, tally)? {
                Turn::Ask { input: _, call: _ } => unreachable!(),
                Turn::Start { input: _, row: _ } => unreachable!(),
                Turn::Give(step) => Ok(step),
            },
            Tree::Sub(x, below, body) => {
                let below = &mut **below;
                let body = &mut **body;
                let step = run_node(alloc, x, below, body, 0, world, call, tally)?;
                Ok(step)
            }
        }
    }

    ghost some_rest = { tree_some X.Executor.own W.Surroundings X.some };

    ghost kept_rests = { tree_kept_rests X.Executor.own W.Surroundings X.kept_gives };

    ghost kept_valid = { tree_kept_valid X.Executor.own W.Surroundings X.kept_gives X.kept_valid };

    ghost kept_budget = { tree_kept_budget X.Executor.own W.Surroundings X.kept_budget };

    ghost own_links = { tree_own_links X.Executor.own W.Surroundings X.own_links };

    ghost no_link = { tree_no_link X.Executor.own W.Surroundings X.no_link };
}

/// Turns the executor of a node at a port until it answers the call; pulls its inputs where it
/// asks, and begins its body where it says so.
#[cycle(pull)]
pub fn run_node<W: Surroundings, X: Executor<W>>(
    alloc: Global,
    x: &mut X,
    below: &mut Tree<X>,
    body: &mut Tree<X>,
    port: u32,
    world: &mut W,
    call: Call,
    tally: &mut Tally,
) -> Result<Step, OutOfMemory>
    requires valid { NodeValid X.Executor W.Surroundings (WaitsAt X.Executor W.Surroundings port)
        x.old below.old body.old world.old }
    requires plan { IsTree (W.stock world.old).facts (within (X.node x.old)
        (tree_plan X.Executor W.Surroundings below.old)
        (tree_plan X.Executor W.Surroundings body.old)) }
    requires call { IsCall call }
    requires batch { call.soft ≤ W.batch world.old }
    requires may { X.may x.old port call }
    requires port { (port ≡ 0) ⊎ (port < ports (X.node x.old)) }
    ensures node { SameNode (X.node x.old) (X.node x.new) (X.full x.old) (X.full x.new)
        (X.row_cost x.old) (X.row_cost x.new) }
    ensures below_plan { tree_plan X.Executor W.Surroundings below.new
        ≡ tree_plan X.Executor W.Surroundings below.old }
    ensures body_plan { tree_plan X.Executor W.Surroundings body.new
        ≡ tree_plan X.Executor W.Surroundings body.old }
    ensures below_full { tree_full X.Executor W.Surroundings below.new
        ≡ tree_full X.Executor W.Surroundings below.old }
    ensures body_full { tree_full X.Executor W.Surroundings body.new
        ≡ tree_full X.Executor W.Surroundings body.old }
    ensures world { Beside W.Surroundings
        (NodeOwn X.Executor W.Surroundings x.old below.old body.old) world.old world.new }
    ensures ours { OnOk result
        ((l : ℕ) → NodeOwn X.Executor W.Surroundings x.new below.new body.new l
        → NodeOwn X.Executor W.Surroundings x.old below.old body.old l ⊎ (W.links world.old ≤ l)) }
    ensures valid { OnOk result
        (NodeValid X.Executor W.Surroundings (Waits X.Executor W.Surroundings)
        x.new below.new body.new world.new) }
    ensures leads { IfOk result (λ step. port ≡ 0 → (d : Counts) × Rises W.Surroundings
        (ExactFor (node_exact X.Executor W.Surroundings x.old below.old body.old) call)
        tally.old world.old tally.new world.new d
        × Continues (node_exact X.Executor W.Surroundings x.old below.old body.old)
        (NodeRests X.Executor W.Surroundings x.old below.old body.old world.old) d step
        (NodeRests X.Executor W.Surroundings x.new below.new body.new world.new)) }
    ensures beside { OnOk result ((port ≡ 0 → ⊥) → (d : Counts) × Rises W.Surroundings
        (ExactFor (node_exact X.Executor W.Surroundings x.old below.old body.old) call)
        tally.old world.old tally.new world.new d
        × ((r : Rest) → NodeRests X.Executor W.Surroundings x.new below.new body.new world.new r
        → (b : Rest)
        × Prefixed (node_exact X.Executor W.Surroundings x.old below.old body.old) [] d r b
        × NodeRests X.Executor W.Surroundings x.old below.old body.old world.old b)) }
    ensures bounds { IfOk result (λ step. InCall call step) }
    ensures done { IfOk result (λ step. port ≡ 0 → step.progress ≡ Progress.Done
        → ((length (given step) ≡ call.hard)
        ⊎ Over (node_exact X.Executor W.Surroundings x.old below.old body.old)
        (NodeRests X.Executor W.Surroundings x.new below.new body.new world.new))) }
    ensures drained { IfOk result (λ step. port ≡ 0 → step.progress ≡ Progress.Done
        → length (given step) < call.hard
        → NodeDrained X.Executor W.Surroundings x.new) }
    ensures may { IfOk result (λ step. (c : Call) → IsCall c
        → Follows call step.skipped (length (given step)) step.progress c → X.may x.new port c) }
    ensures other_ports { OnOk result
        ((q : ℕ) (c : Call) → (q ≡ port → ⊥) → X.may x.old q c → X.may x.new q c) }
    ensures more { IfOk result (λ step. step.progress ≡ Progress.HasMore → 0 < reported step) }
    ensures waiting { IfOk result (λ step. port ≡ 0 → step.progress ≡ Progress.Waiting → (l : ℕ)
        × NodeOwn X.Executor W.Surroundings x.new below.new body.new l
        × Flies X.Executor W.Surroundings world.new l) }
    ensures reads { IfOk result (λ step. ReadInStep (within (X.node x.old)
        (tree_plan X.Executor W.Surroundings below.old)
        (tree_plan X.Executor W.Surroundings body.old)) call.offset
        tally.old.scanned_full tally.new.scanned_full step) }
    ensures budget { IfOk result (λ step.
        NodeBudget X.Executor W.Surroundings x.old body.old x.new below.new body.new world.new +
        reported step
        ≤ NodeBudget X.Executor W.Surroundings x.old body.old x.old below.old body.old world.old) }
{
    loop {
        match x.turn(alloc, port, world, call, tally)? {
            Turn::Ask {
                input: at,
                call: ask,
            } => {
                if at == 0 {
                    let step = below.pull(alloc, world, ask, tally)?;
                    x.take(alloc, port, 0, step)?;
                } else {
                    let step = body.pull(alloc, world, ask, tally)?;
                    x.take(alloc, port, 1, step)?;
                }
            }
            Turn::Start { input: _, row } => body.restart(alloc, &row)?,
            Turn::Give(step) => return Ok(step),
        }
    }
}
