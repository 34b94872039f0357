//! What an aggregate keeps of members that it saw one by one, or by the states of parts of them.

ghost use Rattle.std.specs.Prelude.{◌≡◌, List, [], ◌∷◌, ◌++◌, IfOk, OnOk};
ghost use Rattle.std.specs.List.{AllByRecursion};
ghost use Rattle.aql_value.specs.Datum.{Datum};
ghost use Rattle.aql_value.specs.View.{datum_of};
ghost use Rattle.aql_value.specs.WellFormed.{WellFormed};
ghost use Rattle.aql_func.specs.Aggregates.{aggregate, state};
ghost use Rattle.aql_aggregate.specs.View.{aggregate_of};
ghost use Rattle.aql_aggregate.specs.PartialStates.{kind_of, Keeps};

use crate::elements::{add_elements, at_most_one, element_count};
use crate::partial_counts::more;
use crate::summing::RunningSum;
use crate::{Accumulator, AggregateKind, count_value, one_more, zero_count};
use aql_value::{OutOfMemory, Value};
use std::alloc::Global;

/// What an aggregate keeps of the members that it saw, one by one or by the states of parts of
/// them: never the members themselves, but those that are its result.
#[derive(Drop)]
pub enum PartialAccumulator {
    Count(Option<i64>),
    Sum(RunningSum),
    Min(Accumulator),
    Max(Accumulator),
    SortedUnique(Accumulator),
    /// the distinct members
    CountDistinct(Accumulator),
}

impl PartialAccumulator {
    /// Of no members.
    pub fn new(alloc: Global, kind: AggregateKind) -> PartialAccumulator
        ensures kind { kind_of result ≡ aggregate_of kind }
        ensures keeps { Keeps result [] }
    {
        let distinct = AggregateKind::SortedUnique;
        match kind {
            AggregateKind::Count => PartialAccumulator::Count(zero_count()),
            AggregateKind::Sum => PartialAccumulator::Sum(RunningSum::new()),
            AggregateKind::Min => PartialAccumulator::Min(Accumulator::new(alloc, kind)),
            AggregateKind::Max => PartialAccumulator::Max(Accumulator::new(alloc, kind)),
            AggregateKind::SortedUnique => {
                PartialAccumulator::SortedUnique(Accumulator::new(alloc, distinct))
            }
            AggregateKind::CountDistinct => {
                PartialAccumulator::CountDistinct(Accumulator::new(alloc, distinct))
            }
        }
    }

    /// Takes one member more.
    pub fn add(&mut self, alloc: Global, value: &Value) -> Result<(), OutOfMemory>
        ensures kind { kind_of self.new ≡ kind_of self.old }
        ensures keeps { OnOk result ((ts : List Datum) → Keeps self.old ts
            → Keeps self.new (ts ++ datum_of value.now ∷ [])) }
    {
        match self {
            PartialAccumulator::Count(count) => *count = one_more(*count),
            PartialAccumulator::Sum(sum) => sum.add(value),
            PartialAccumulator::Min(kept) => kept.add(alloc, value)?,
            PartialAccumulator::Max(kept) => kept.add(alloc, value)?,
            PartialAccumulator::SortedUnique(kept) => kept.add(alloc, value)?,
            PartialAccumulator::CountDistinct(kept) => kept.add(alloc, value)?,
        }
        Ok(())
    }

    /// Takes the members of a part more, by the part's state.
    pub fn join(&mut self, alloc: Global, part: &Value) -> Result<(), OutOfMemory>
        ensures kind { kind_of self.new ≡ kind_of self.old }
        ensures keeps { OnOk result ((ts us : List Datum) → Keeps self.old ts
            → AllByRecursion WellFormed us → datum_of part.now ≡ state (kind_of self.old) us
            → Keeps self.new (ts ++ us)) }
    {
        match self {
            PartialAccumulator::Count(count) => *count = more(*count, part),
            PartialAccumulator::Sum(sum) => sum.join(part),
            PartialAccumulator::Min(kept) => add_elements(alloc, kept, part)?,
            PartialAccumulator::Max(kept) => add_elements(alloc, kept, part)?,
            PartialAccumulator::SortedUnique(kept) => add_elements(alloc, kept, part)?,
            PartialAccumulator::CountDistinct(kept) => add_elements(alloc, kept, part)?,
        }
        Ok(())
    }

    /// The state of all members.
    pub fn state(self, alloc: Global) -> Result<Value, OutOfMemory>
        ensures { IfOk result (λ v. (ts : List Datum) → Keeps self ts
            → datum_of v ≡ state (kind_of self) ts) }
    {
        match self {
            PartialAccumulator::Count(count) => Ok(count_value(count)),
            PartialAccumulator::Sum(sum) => sum.state(alloc),
            PartialAccumulator::Min(kept) => Ok(at_most_one(alloc, kept.finish(alloc)?)?),
            PartialAccumulator::Max(kept) => Ok(at_most_one(alloc, kept.finish(alloc)?)?),
            PartialAccumulator::SortedUnique(kept) => kept.finish(alloc),
            PartialAccumulator::CountDistinct(kept) => kept.finish(alloc),
        }
    }

    /// The aggregate of all members.
    pub fn finish(self, alloc: Global) -> Result<Value, OutOfMemory>
        ensures { IfOk result (λ v. (ts : List Datum) → Keeps self ts
            → datum_of v ≡ aggregate (kind_of self) ts) }
    {
        match self {
            PartialAccumulator::Count(count) => Ok(count_value(count)),
            PartialAccumulator::Sum(sum) => Ok(sum.value()),
            PartialAccumulator::Min(kept) => kept.finish(alloc),
            PartialAccumulator::Max(kept) => kept.finish(alloc),
            PartialAccumulator::SortedUnique(kept) => kept.finish(alloc),
            PartialAccumulator::CountDistinct(kept) => Ok(element_count(&kept.finish(alloc)?)),
        }
    }
}
