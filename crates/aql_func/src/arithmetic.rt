// Arithmetic over numbers of 64 bits, null where it has no such number.
ghost use Rattle.std.specs.Prelude.{◌*ℤ◌, ◌+ℤ◌, ◌-ℤ◌, ◌≡◌, neg_ℤ, option_map, pos, unsigned_abs, unwrap_or};
ghost use Rattle.aql_value.specs.Convert.{number_or_null};
ghost use Rattle.aql_value.specs.Datum.{null, number};
ghost use Rattle.aql_value.specs.View.{datum_of};
ghost use Rattle.aql_func.specs.Operators as spec;

use aql_value::Value;

fn number_or_null(n: Option<i64>) -> Value
    ensures { datum_of result ≡ unwrap_or (option_map (λ z. number z) n) null }
{
    match n {
        Some(n) => Value::Num(n),
        None => Value::Null,
    }
}

pub(crate) fn sum(a: i64, b: i64) -> Value
    ensures { datum_of result ≡ number_or_null (a +ℤ b) }
{
    number_or_null(a.checked_add(b))
}

pub(crate) fn difference(a: i64, b: i64) -> Value
    ensures { datum_of result ≡ number_or_null (a -ℤ b) }
{
    number_or_null(a.checked_sub(b))
}

pub(crate) fn product(a: i64, b: i64) -> Value
    ensures { datum_of result ≡ number_or_null (a *ℤ b) }
{
    number_or_null(a.checked_mul(b))
}

pub(crate) fn negative(a: i64) -> Value
    ensures { datum_of result ≡ number_or_null (neg_ℤ a) }
{
    number_or_null(a.checked_neg())
}

pub(crate) fn quotient(a: i64, b: i64) -> Value
    ensures { datum_of result ≡ spec.quotient a b }
{
    if b == 0 {
        return Value::Null;
    }
    match a.checked_rem(b) {
        Some(0) => number_or_null(a.checked_div(b)),
        Some(_) => Value::Null,
        // The least number by -1, whose quotient is out of range.
        None => Value::Null,
    }
}

pub(crate) fn remainder(a: i64, b: i64) -> Value
    ensures { datum_of result ≡ spec.remainder a b }
{
    if b == 0 {
        return Value::Null;
    }
    match a.checked_rem(b) {
        Some(r) => Value::Num(r),
        // The least number by -1.
        None => Value::Num(0),
    }
}

// A count as a value; null where it is no number of 64 bits with a sign.
pub(crate) fn count(n: usize) -> Value
    ensures { datum_of result ≡ number_or_null (pos n) }
{
    match i64::try_from(n) {
        Ok(n) => Value::Num(n),
        Err(_) => Value::Null,
    }
}

pub(crate) fn absolute(a: i64) -> Value
    ensures { datum_of result ≡ number_or_null (pos (unsigned_abs a)) }
{
    number_or_null(a.checked_abs())
}
