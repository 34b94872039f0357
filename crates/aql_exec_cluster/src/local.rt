//! Executors that own no link and do the work of one port at a time.

use aql_engine::Choice;
use aql_exec::{Surroundings, Unlinked};

/// An executor that owns no link and is never in the midst of the work of a port.
pub trait Local<W: Surroundings>: Unlinked<W> {
    ghost no_busy: { (s : Self) → Self.busy s → ⊥ };
}

impl<W: Surroundings, A: Local<W>, B: Local<W>> Local<W> for Choice<A, B> {
    ghost use Rattle.aql_exec_cluster.specs.laws.Locals.{neither_busy};

    ghost no_busy = { neither_busy A.busy B.busy A.no_busy B.no_busy };
}
