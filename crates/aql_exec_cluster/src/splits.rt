//! Executors that keep the rows of their input for the shards of a fragment.

ghost use Rattle.std.specs.Prelude.{◌≡◌, ℕ, suc, ◌<◌, [], true, IfOk};
ghost use Rattle.aql_block.specs.declared.calls.Call.{Call};
ghost use Rattle.aql_exec.specs.Rests.{Counter, Rest};
ghost use Rattle.aql_exec.specs.Operators.{OperatorTree, IsOperator, is_first, ports};
ghost use Rattle.aql_engine.specs.Run.{rows_in};

use crate::blocks::Blocks;
use crate::local::Local;
use aql_exec::Surroundings;
use aql_value::OutOfMemory;
use std::alloc::Global;
use std::rc::Rc;

/// An executor that keeps the rows of its one input for the shards. A port for each of them comes
/// first; the last port is the one at which it is filled. Once its input is done it is filled, and
/// has a part for each shard.
pub trait Splits<W: Surroundings>: Local<W> {
    /// The rows of a shard, once it is filled: by how many shards there are in this world.
    fn part(&self, alloc: Global, world: &W, shard: usize) -> Result<Rc<Blocks>, OutOfMemory>
        requires valid { Self.valid self.now world.now }
        requires node { IsOperator (W.stock world.now).facts (Self.node self.now) }
        requires filled { Self.ended self.now 0 ≡ true }
        requires shard { suc shard < ports (Self.node self.now) }
        ensures { IfOk result (λ part. (w : W) (body : OperatorTree) (ins : ℕ → Rest)
            → W.stock w ≡ W.stock world.now → (ins 0).rows ≡ [] → (r : Rest) × (r.rows ≡ rows_in part.value)
            × Self.gives self.now w shard body ins r) };

    /// it reports each row at once
    ghost none_unreported: { (s : Self) (k : ℕ) → Self.unreported s k ≡ 0 };

    /// it has one input
    ghost starts: { (s : Self) (k : ℕ) → Self.started s k ≡ is_first k };

    ghost any_call: { (s : Self) (p : ℕ) (c : Call) → Self.may s p c };

    /// at the port at which it is filled it gives no row, and counts what its input does
    ghost silent: { (s : Self) (w : W) (n : ℕ) (body : OperatorTree) (ins : ℕ → Rest) (r : Rest)
        → ports (Self.node s) ≡ suc n → Self.gives s w n body ins r
        → (r.rows ≡ []) × ((c : Counter) → r.counts c ≡ (ins 0).counts c) };
}
