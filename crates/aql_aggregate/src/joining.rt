//! The join of states, which may be any values.

ghost use Rattle.std.specs.Prelude.{◌≡◌, pos, List, [], ◌∷◌, ◌++◌, ◌+ℤ◌, ◌*ℤ◌, ◌^◌, IfOk, OnOk};
ghost use Rattle.aql_value.specs.Datum.{Datum, null};
ghost use Rattle.aql_value.specs.View.{datum_of, datums_in};
ghost use Rattle.aql_value.specs.Contents.{elements};
ghost use Rattle.aql_value.specs.Convert.{number_or_null};
ghost use Rattle.aql_func.specs.Arguments.{argument};
ghost use Rattle.aql_func.specs.Aggregates.{Aggregate, join, join_counts, join_sums, exact_sum};
ghost use Rattle.aql_aggregate.specs.View.{aggregate_of};
ghost use Rattle.aql_aggregate.specs.Joined.{Adds, CountsJoin, SumsJoin, Joins};

use crate::elements::{add_elements, is_null};
use crate::summing::{HALF, in_64_bits};
use crate::{Accumulator, AggregateKind};
use aql_value::{OutOfMemory, Value, to_number, truthy};
use std::alloc::Global;

/// The sum of the numbers of values.
#[derive(Clone, Copy, Debug)]
pub struct WideSum {
    total: i128,
}

impl WideSum {
    /// Of no values.
    pub fn new() -> WideSum
        ensures { Adds result [] }
    {
        WideSum { total: 0 }
    }

    /// Takes one value more. 2^64 numbers of 64 bits may have a sum beyond 128 bits; that is told
    /// like want of memory.
    pub fn add(&mut self, value: &Value) -> Result<(), OutOfMemory>
        ensures { OnOk result ((ts : List Datum) → Adds self.old ts
            → Adds self.new (ts ++ datum_of value.now ∷ [])) }
    {
        match self.total.checked_add(i128::from(to_number(value))) {
            Some(total) => {
                self.total = total;
                Ok(())
            }
            None => Err(OutOfMemory),
        }
    }

    /// The sum.
    pub fn total(&self) -> i128
        ensures { (ts : List Datum) → Adds self.now ts → result ≡ exact_sum ts }
    {
        self.total
    }
}

/// What is kept of counts: whether one of them is null, and their sum.
#[derive(Clone, Copy, Debug)]
pub struct JoinedCounts {
    lost: bool,
    sum: WideSum,
}

impl JoinedCounts {
    /// Of no counts.
    pub fn new() -> JoinedCounts
        ensures { CountsJoin result [] }
    {
        JoinedCounts {
            lost: false,
            sum: WideSum::new(),
        }
    }

    /// Takes one count more.
    pub fn add(&mut self, count: &Value) -> Result<(), OutOfMemory>
        ensures { OnOk result ((ts : List Datum) → CountsJoin self.old ts
            → CountsJoin self.new (ts ++ datum_of count.now ∷ [])) }
    {
        self.sum.add(count)?;
        self.lost = self.lost | is_null(count);
        Ok(())
    }

    /// The sum of the counts; null where one of them is null or the sum is out of range.
    pub fn value(&self) -> Value
        ensures { (ts : List Datum) → CountsJoin self.now ts → datum_of result ≡ join_counts ts }
    {
        if self.lost {
            return Value::Null;
        }
        in_64_bits(self.sum.total())
    }
}

/// What is kept of states of SUM: of each of their four parts.
#[derive(Clone, Copy, Debug)]
pub struct JoinedSums {
    counts: JoinedCounts,
    bad: bool,
    high: WideSum,
    low: WideSum,
}

// The value at a place; another one where there is none.
fn item_at<'a>(values: &'a [Value], place: usize, missing: &'a Value) -> &'a Value
    requires { datum_of missing.now ≡ null }
    ensures { datum_of result.now ≡ argument (datums_in values.now) place }
{
    match values.get(place) {
        Some(value) => value,
        None => missing,
    }
}

// The elements of an array; none of anything else.
fn elements_of(value: &Value) -> &[Value]
    ensures { datums_in result.now ≡ elements (datum_of value.now) }
{
    match value {
        Value::List(items) => items.as_slice(),
        _ => &[],
    }
}

impl JoinedSums {
    /// Of no states.
    pub fn new() -> JoinedSums
        ensures { SumsJoin result [] }
    {
        JoinedSums {
            counts: JoinedCounts::new(),
            bad: false,
            high: WideSum::new(),
            low: WideSum::new(),
        }
    }

    /// Takes one state more.
    pub fn add(&mut self, state: &Value) -> Result<(), OutOfMemory>
        ensures { OnOk result ((ts : List Datum) → SumsJoin self.old ts
            → SumsJoin self.new (ts ++ datum_of state.now ∷ [])) }
    {
        let parts = elements_of(state);
        let missing = Value::Null;
        self.counts.add(item_at(parts, 0, &missing))?;
        self.bad = self.bad | truthy(item_at(parts, 1, &missing));
        self.high.add(item_at(parts, 2, &missing))?;
        self.low.add(item_at(parts, 3, &missing))?;
        Ok(())
    }

    /// The sum of all parts; null where a part has a value that is neither null nor a number, and
    /// where the sum or the number of members is out of range.
    pub fn value(&self) -> Value
        ensures { (ts : List Datum) → SumsJoin self.now ts → datum_of result ≡ join_sums ts }
    {
        if self.bad || is_null(&self.counts.value()) {
            return Value::Null;
        }
        whole(self.high.total(), self.low.total())
    }
}

// The number `high * 2^63 + low`; null where it is out of the range of numbers.
fn whole(high: i128, low: i128) -> Value
    ensures { datum_of result ≡ number_or_null (high *ℤ pos (2 ^ 63) +ℤ low) }
{
    let rest = low.rem_euclid(HALF);
    let Some(top) = high.checked_add(low.div_euclid(HALF)) else {
        return Value::Null;
    };
    if top == 0 {
        return in_64_bits(rest);
    }
    if top == -1 {
        return in_64_bits(rest - HALF);
    }
    Value::Null
}

/// What an aggregate keeps of the states of parts, or of any values in their place.
#[derive(Drop)]
pub enum StateAccumulator {
    Count(JoinedCounts),
    Sum(JoinedSums),
    Min(Accumulator),
    Max(Accumulator),
    SortedUnique(Accumulator),
    CountDistinct(Accumulator),
}

impl StateAccumulator {
    /// Of no states.
    pub fn new(alloc: Global, kind: AggregateKind) -> StateAccumulator
        ensures { Joins result (aggregate_of kind) [] }
    {
        match kind {
            AggregateKind::Count => StateAccumulator::Count(JoinedCounts::new()),
            AggregateKind::Sum => StateAccumulator::Sum(JoinedSums::new()),
            AggregateKind::Min => StateAccumulator::Min(Accumulator::new(alloc, kind)),
            AggregateKind::Max => StateAccumulator::Max(Accumulator::new(alloc, kind)),
            AggregateKind::SortedUnique => {
                StateAccumulator::SortedUnique(Accumulator::new(alloc, kind))
            }
            AggregateKind::CountDistinct => {
                StateAccumulator::CountDistinct(Accumulator::new(alloc, kind))
            }
        }
    }

    /// Takes one state more.
    pub fn add(&mut self, alloc: Global, state: &Value) -> Result<(), OutOfMemory>
        ensures { OnOk result ((kind : Aggregate) (ts : List Datum) → Joins self.old kind ts
            → Joins self.new kind (ts ++ datum_of state.now ∷ [])) }
    {
        match self {
            StateAccumulator::Count(counts) => counts.add(state)?,
            StateAccumulator::Sum(sums) => sums.add(state)?,
            StateAccumulator::Min(kept) => add_elements(alloc, kept, state)?,
            StateAccumulator::Max(kept) => add_elements(alloc, kept, state)?,
            StateAccumulator::SortedUnique(kept) => add_elements(alloc, kept, state)?,
            StateAccumulator::CountDistinct(kept) => add_elements(alloc, kept, state)?,
        }
        Ok(())
    }

    /// The aggregate's value from all states.
    pub fn finish(self, alloc: Global) -> Result<Value, OutOfMemory>
        ensures { IfOk result (λ v. (kind : Aggregate) (ts : List Datum) → Joins self kind ts
            → datum_of v ≡ join kind ts) }
    {
        match self {
            StateAccumulator::Count(counts) => Ok(counts.value()),
            StateAccumulator::Sum(sums) => Ok(sums.value()),
            StateAccumulator::Min(kept) => kept.finish(alloc),
            StateAccumulator::Max(kept) => kept.finish(alloc),
            StateAccumulator::SortedUnique(kept) => kept.finish(alloc),
            StateAccumulator::CountDistinct(kept) => kept.finish(alloc),
        }
    }
}
