//! What an aggregate keeps in any stage of a COLLECT.

ghost use Rattle.std.specs.Prelude.{◌≡◌, List, [], ◌∷◌, ◌++◌, IfOk, OnOk};
ghost use Rattle.aql_value.specs.Datum.{Datum};
ghost use Rattle.aql_value.specs.View.{datum_of};
ghost use Rattle.aql_aggregate.specs.Staged.{Staged, staged, made, KeepsIn};

use crate::joining::StateAccumulator;
use crate::staged_accumulator::PartialAccumulator;
use crate::{Accumulator, AggregateKind};
use aql_meaning::Stage;
use aql_value::{OutOfMemory, Value};
use std::alloc::Global;

/// An aggregate in a stage of a COLLECT.
#[derive(Clone, Copy, Debug, PartialEq, Eq)]
pub struct StagedKind {
    pub stage: Stage,
    pub kind: AggregateKind,
}

/// What an aggregate keeps in a stage: of members, or in the final one of the states of parts.
#[derive(Drop)]
pub enum StagedAccumulator {
    Whole(Accumulator),
    Partial(PartialAccumulator),
    Final(StateAccumulator),
}

impl StagedAccumulator {
    /// Of no members.
    pub fn new(alloc: Global, aggregate: StagedKind) -> StagedAccumulator
        ensures { KeepsIn result (staged aggregate) [] }
    {
        let kind = aggregate.kind;
        match aggregate.stage {
            Stage::Whole => StagedAccumulator::Whole(Accumulator::new(alloc, kind)),
            Stage::Partial => StagedAccumulator::Partial(PartialAccumulator::new(alloc, kind)),
            Stage::Final => StagedAccumulator::Final(StateAccumulator::new(alloc, kind)),
        }
    }

    /// Takes one member or state more.
    pub fn add(&mut self, alloc: Global, value: &Value) -> Result<(), OutOfMemory>
        ensures { OnOk result ((kind : Staged) (ts : List Datum) → KeepsIn self.old kind ts
            → KeepsIn self.new kind (ts ++ datum_of value.now ∷ [])) }
    {
        match self {
            StagedAccumulator::Whole(kept) => kept.add(alloc, value),
            StagedAccumulator::Partial(kept) => kept.add(alloc, value),
            StagedAccumulator::Final(kept) => kept.add(alloc, value),
        }
    }

    /// What the stage makes of all of them: the aggregate's value, or its state in the first of two
    /// stages.
    pub fn finish(self, alloc: Global) -> Result<Value, OutOfMemory>
        ensures { IfOk result (λ v. (kind : Staged) (ts : List Datum) → KeepsIn self kind ts
            → datum_of v ≡ made kind ts) }
    {
        match self {
            StagedAccumulator::Whole(kept) => kept.finish(alloc),
            StagedAccumulator::Partial(kept) => kept.state(alloc),
            StagedAccumulator::Final(kept) => kept.finish(alloc),
        }
    }
}
