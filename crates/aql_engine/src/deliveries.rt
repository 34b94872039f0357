//! Deliveries to a tree of executors.

ghost use Rattle.std.specs.Prelude.{◌≡◌, ℕ, ◌<◌, ◌≤◌, ◌⊎◌, [], OnOk};
ghost use Rattle.aql_block.specs.declared.calls.Call.{Call};
ghost use Rattle.aql_exec.specs.Rests.{Counts, Rest, Prefixed};
ghost use Rattle.aql_exec.specs.Rising.{IsExact, Rises};
ghost use Rattle.aql_exec.specs.Promises.{SameNode, Beside};
ghost use Rattle.aql_exec.specs.Operators.{within, IsTree};
ghost use Rattle.aql_engine.specs.Tree.{Waits, tree_plan, tree_full, NodeRests, NodeOwn, node_exact};
ghost use Rattle.aql_engine.specs.Tree.{NodeValid, NodeBudget};

use crate::tree::{Tree, run_node};
use aql_block::Tally;
use aql_exec::{Delivers, Executor, Feed, Message, Surroundings, Wired};
use aql_value::OutOfMemory;
use std::alloc::Global;

/// Where the executor of a node serves an ask that it received, it works until it waits or has
/// answered.
fn work_on<W: Surroundings, X: Wired<W>>(
    alloc: Global,
    x: &mut X,
    below: &mut Tree<X>,
    body: &mut Tree<X>,
    world: &mut W,
    tally: &mut Tally,
) -> Result<(), OutOfMemory>
    requires valid { NodeValid X.Executor W.Surroundings X.waited x.old below.old body.old world.old }
    requires plan { IsTree (W.stock world.old).facts (within (X.node x.old)
        (tree_plan X.Executor W.Surroundings below.old)
        (tree_plan X.Executor W.Surroundings body.old)) }
    ensures node { SameNode (X.node x.old) (X.node x.new) (X.full x.old) (X.full x.new)
        (X.row_cost x.old) (X.row_cost x.new) }
    ensures below_plan { tree_plan X.Executor W.Surroundings below.new
        ≡ tree_plan X.Executor W.Surroundings below.old }
    ensures body_plan { tree_plan X.Executor W.Surroundings body.new
        ≡ tree_plan X.Executor W.Surroundings body.old }
    ensures below_full { tree_full X.Executor W.Surroundings below.new
        ≡ tree_full X.Executor W.Surroundings below.old }
    ensures body_full { tree_full X.Executor W.Surroundings body.new
        ≡ tree_full X.Executor W.Surroundings body.old }
    ensures world { Beside W.Surroundings
        (NodeOwn X.Executor W.Surroundings x.old below.old body.old) world.old world.new }
    ensures ours { OnOk result
        ((l : ℕ) → NodeOwn X.Executor W.Surroundings x.new below.new body.new l
        → NodeOwn X.Executor W.Surroundings x.old below.old body.old l ⊎ (W.links world.old ≤ l)) }
    ensures valid { OnOk result
        (NodeValid X.Executor W.Surroundings (Waits X.Executor W.Surroundings)
        x.new below.new body.new world.new) }
    ensures may { OnOk result ((c : Call) → X.may x.old 0 c → X.may x.new 0 c) }
    ensures undisturbed { OnOk result ((d : Counts) × Rises W.Surroundings
        (IsExact (node_exact X.Executor W.Surroundings x.old below.old body.old))
        tally.old world.old tally.new world.new d
        × ((r : Rest) → NodeRests X.Executor W.Surroundings x.new below.new body.new world.new r
        → (b : Rest)
        × Prefixed (node_exact X.Executor W.Surroundings x.old below.old body.old) [] d r b
        × NodeRests X.Executor W.Surroundings x.old below.old body.old world.old b)) }
    ensures budget { OnOk result
        (NodeBudget X.Executor W.Surroundings x.old body.old x.new below.new body.new world.new
        ≤ NodeBudget X.Executor W.Surroundings x.old body.old x.old below.old body.old world.old) }
{
    let Some(call) = x.received() else {
        return Ok(());
    };
    run_node(alloc, x, below, body, 1, world, call, tally)?;
    Ok(())
}

impl<W: Surroundings, X: Wired<W>> Delivers<W> for Tree<X> {
    fn owns(&self, link: u64) -> bool {
        match self {
            Tree::Leaf(x) => x.owns(link),
            Tree::Sub(x, below, body) => {
                x.owns(link) || below.owns(link) || (x.begun(1) && body.owns(link))
            }
        }
    }

    fn deliver(
        &mut self,
        alloc: Global,
        world: &mut W,
        tally: &mut Tally,
        link: u64,
        message: Message,
    ) -> Result<(), OutOfMemory> {
        match self {
            Tree::Leaf(x) => x.deliver(alloc, world, tally, link, message),
            Tree::Sub(x, below, body) => {
                let below = &mut **below;
                let body = &mut **body;
                if x.owns(link) {
                    x.deliver(alloc, world, tally, link, message)?;
                    work_on(alloc, x, below, body, world, tally)?;
                    return Ok(());
                }
                if below.owns(link) {
                    below.deliver(alloc, world, tally, link, message)?;
                    work_on(alloc, x, below, body, world, tally)?;
                    return Ok(());
                }
                body.deliver(alloc, world, tally, link, message)?;
                work_on(alloc, x, below, body, world, tally)?;
                Ok(())
            }
        }
    }
}
