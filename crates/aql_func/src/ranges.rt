// Ranges of numbers.
ghost use Rattle.std.specs.Prelude.{◌≡◌, ◌≤ℤ◌, IfOk, negsuc, pos};
ghost use Rattle.aql_value.specs.View.{datum_of};
ghost use Rattle.aql_func.specs.Operators as spec;
ghost use Rattle.aql_func.specs.Operators.{numbers, range_length};

use aql_value::{Items, OutOfMemory, Value};
use std::alloc::Global;

/// `low..high` (AQL fundamentals, Operators): the numbers from `low` to `high`, upwards or
/// downwards, both of them counted; null where these are more than 1,000,000.
pub fn range(alloc: Global, low: i64, high: i64) -> Result<Value, OutOfMemory>
    ensures { IfOk result (λ v. datum_of v ≡ spec.range low high) }
{
    if high.abs_diff(low) >= 1_000_000 {
        return Ok(Value::Null);
    }
    if low <= high {
        upwards(alloc, low, high).map(Value::List)
    } else {
        downwards(alloc, low, high).map(Value::List)
    }
}

// How many numbers go from one to the other.
fn count_between(low: i64, high: i64) -> usize {
    (high.abs_diff(low) as usize).saturating_add(1)
}

fn upwards(alloc: Global, low: i64, high: i64) -> Result<Items, OutOfMemory>
    requires { low ≤ℤ high }
    ensures { IfOk result (λ w. w ≡ numbers (pos 1) low (range_length low high)) }
{
    let mut out = Items::with_room(alloc, count_between(low, high))?;
    let mut next = low;
    while next < high {
        out.push(Value::Num(next))?;
        next += 1;
    }
    out.push(Value::Num(next))?;
    Ok(out)
}

fn downwards(alloc: Global, low: i64, high: i64) -> Result<Items, OutOfMemory>
    requires { high ≤ℤ low }
    ensures { IfOk result (λ w. w ≡ numbers (negsuc 0) low (range_length low high)) }
{
    let mut out = Items::with_room(alloc, count_between(low, high))?;
    let mut next = low;
    while high < next {
        out.push(Value::Num(next))?;
        next -= 1;
    }
    out.push(Value::Num(next))?;
    Ok(out)
}
