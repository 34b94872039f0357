//! What an aggregate keeps of the members that it saw.

ghost use Rattle.std.specs.Prelude.{◌≡◌, List, [], ◌∷◌, ◌++◌, unwrap_or, IfOk, OnOk};
ghost use Rattle.aql_value.specs.Datum.{Datum, null};
ghost use Rattle.aql_value.specs.View.{datum_of};
ghost use Rattle.aql_func.specs.Aggregates.{Aggregate, aggregate};
ghost use Rattle.aql_aggregate.specs.View.{aggregate_of};
ghost use Rattle.aql_aggregate.specs.States.{Keeps, datum_in};

use crate::choosing::{keep_greatest, keep_least};
use crate::counting::{count_value, one_more, zero_count};
use crate::distinct::{ascending, count, note};
use crate::kinds::AggregateKind;
use crate::summing::RunningSum;
use aql_value::{Items, OutOfMemory, Value};
use indexmap::IndexSet;
use std::alloc::Global;

/// What an aggregate keeps of the members that it saw: never the members themselves, but those that
/// are its result.
#[derive(Drop)]
pub enum Accumulator {
    Count(Option<i64>),
    Sum(RunningSum),
    Min(Option<Value>),
    Max(Option<Value>),
    SortedUnique(IndexSet<Value>),
    CountDistinct(IndexSet<Value>),
}

impl Accumulator {
    /// Of no members.
    pub fn new(alloc: Global, kind: AggregateKind) -> Accumulator
        ensures { Keeps result (aggregate_of kind) [] }
    {
        match kind {
            AggregateKind::Count => Accumulator::Count(zero_count()),
            AggregateKind::Sum => Accumulator::Sum(RunningSum::new()),
            AggregateKind::Min => Accumulator::Min(None),
            AggregateKind::Max => Accumulator::Max(None),
            AggregateKind::SortedUnique => Accumulator::SortedUnique(IndexSet::new(alloc)),
            AggregateKind::CountDistinct => Accumulator::CountDistinct(IndexSet::new(alloc)),
        }
    }

    /// Takes one member more.
    pub fn add(&mut self, alloc: Global, value: &Value) -> Result<(), OutOfMemory>
        ensures { OnOk result ((kind : Aggregate) (ts : List Datum) → Keeps self.old kind ts
            → Keeps self.new kind (ts ++ datum_of value.now ∷ [])) }
    {
        match self {
            Accumulator::Count(count) => *count = one_more(*count),
            Accumulator::Sum(sum) => sum.add(value),
            Accumulator::Min(least) => keep_least(alloc, least, value)?,
            Accumulator::Max(greatest) => keep_greatest(alloc, greatest, value)?,
            Accumulator::SortedUnique(seen) => note(alloc, seen, value)?,
            Accumulator::CountDistinct(seen) => note(alloc, seen, value)?,
        }
        Ok(())
    }

    /// The aggregate of all members.
    pub fn finish(self, alloc: Global) -> Result<Value, OutOfMemory>
        ensures { IfOk result (λ v. (kind : Aggregate) (ts : List Datum) → Keeps self kind ts
            → datum_of v ≡ aggregate kind ts) }
    {
        match self {
            Accumulator::Count(members) => Ok(count_value(members)),
            Accumulator::Sum(sum) => Ok(sum.value()),
            Accumulator::Min(least) => Ok(or_null(least)),
            Accumulator::Max(greatest) => Ok(or_null(greatest)),
            Accumulator::SortedUnique(seen) => Ok(Value::List(ascending(alloc, seen)?)),
            Accumulator::CountDistinct(seen) => Ok(count(&seen)),
        }
    }
}

fn or_null(value: Option<Value>) -> Value
    ensures { datum_of result ≡ unwrap_or (datum_in value) null }
{
    match value {
        Some(value) => value,
        None => Value::Null,
    }
}
