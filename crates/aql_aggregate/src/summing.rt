//! The sum of the members that an aggregate saw.

ghost use Rattle.std.specs.Prelude.{◌≡◌, List, [], ◌∷◌, ◌++◌, IfOk};
ghost use Rattle.std.specs.List.{AllByRecursion};
ghost use Rattle.aql_value.specs.Datum.{Datum};
ghost use Rattle.aql_value.specs.View.{datum_of};
ghost use Rattle.aql_value.specs.WellFormed.{WellFormed};
ghost use Rattle.aql_value.specs.Convert.{number_or_null};
ghost use Rattle.aql_func.specs.Aggregates.{sum_of, sum_state};
ghost use Rattle.aql_aggregate.specs.States.{Sums};

use crate::partial_counts::more;
use crate::{count_value, one_more, zero_count};
use aql_value::{Items, OutOfMemory, Value, to_number, truthy};
use std::alloc::Global;

/// A state tells a sum as a multiple of this and a rest.
pub(crate) const HALF: i128 = 9_223_372_036_854_775_808;

/// What SUM keeps: how many members there were, whether one is neither null nor a number, and the
/// sum of the numbers.
#[derive(Clone, Copy, Debug)]
pub struct RunningSum {
    count: Option<i64>,
    bad: bool,
    total: i128,
}

impl RunningSum {
    /// Of no members.
    pub fn new() -> RunningSum
        ensures { Sums result [] }
    {
        RunningSum {
            count: zero_count(),
            bad: false,
            total: 0,
        }
    }

    /// Takes one member more.
    pub fn add(&mut self, value: &Value)
        ensures { (ts : List Datum) → Sums self.old ts
            → Sums self.new (ts ++ datum_of value.now ∷ []) }
    {
        self.count = one_more(self.count);
        match value {
            Value::Null => {}
            Value::Num(n) => self.total = self.total.saturating_add(i128::from(*n)),
            _ => self.bad = true,
        }
    }

    /// Takes the members of a part more, by the part's state.
    pub fn join(&mut self, state: &Value)
        ensures { (ts us : List Datum) → Sums self.old ts → AllByRecursion WellFormed us
            → datum_of state.now ≡ sum_state us → Sums self.new (ts ++ us) }
    {
        let Value::List(items) = state else {
            return;
        };
        let [count, bad, high, low] = items.as_slice() else {
            return;
        };
        self.count = more(self.count, count);
        self.bad = self.bad | truthy(bad);
        let part = i128::from(to_number(high)) * HALF + i128::from(to_number(low));
        self.total = self.total.saturating_add(part);
    }

    /// The state of all members.
    pub fn state(&self, alloc: Global) -> Result<Value, OutOfMemory>
        ensures { IfOk result (λ v. (ts : List Datum) → Sums self.now ts
            → datum_of v ≡ sum_state ts) }
    {
        let total = match self.count {
            Some(_) => self.total,
            None => 0,
        };
        let mut items = Items::new(alloc);
        items.push(count_value(self.count))?;
        items.push(Value::Bool(self.bad))?;
        items.push(in_64_bits(total.div_euclid(HALF)))?;
        items.push(in_64_bits(total.rem_euclid(HALF)))?;
        Ok(Value::List(items))
    }

    /// The sum; null where a member is neither null nor a number, where the sum is out of the range
    /// of numbers, and for 2^63 members or more.
    pub fn value(&self) -> Value
        ensures { (ts : List Datum) → Sums self.now ts → datum_of result ≡ sum_of ts }
    {
        if self.bad || self.count.is_none() {
            return Value::Null;
        }
        in_64_bits(self.total)
    }
}

/// The number, or null where it is out of the range of numbers.
pub(crate) fn in_64_bits(number: i128) -> Value
    ensures { datum_of result ≡ number_or_null number }
{
    match i64::try_from(number) {
        Ok(number) => Value::Num(number),
        Err(_) => Value::Null,
    }
}
