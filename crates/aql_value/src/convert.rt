ghost use Rattle.std.specs.Prelude.{◌≡◌};
ghost use Rattle.aql_value.specs.View.{datum_of};
ghost use Rattle.aql_value.specs.Convert.{text_number};
ghost use Rattle.aql_value.specs.Convert as convert;
ghost use Rattle.aql_value.specs.Truth.{truth};

use crate::Value;

/// Whether a condition holds where it has this value (AQL fundamentals, Type casts): null, false, 0
/// and "" are false-like, and every other value is true-like, also `[]` and `{}`.
pub fn truthy(value: &Value) -> bool
    ensures { result ≡ truth (datum_of value.now) }
{
    match value {
        Value::Null => false,
        Value::Bool(b) => *b,
        Value::Num(n) => *n != 0,
        Value::Text(text) => !text.as_str().is_empty(),
        Value::List(_) | Value::Object(_) => true,
    }
}

/// The number that a value stands for in arithmetic (AQL fundamentals, Type casts): null and false
/// give 0 and true 1; a text gives the whole number that it writes, with an optional `-`, and 0
/// where it writes none of 64 bits; an array of one element gives that element's number; longer
/// arrays, `[]` and objects give 0.
pub fn to_number(value: &Value) -> i64
    ensures { result ≡ convert.to_number (datum_of value.now) }
{
    match value {
        Value::Null | Value::Object(_) => 0,
        Value::Bool(b) => i64::from(*b),
        Value::Num(n) => *n,
        Value::Text(text) => number_in(text.as_str()),
        Value::List(list) => if list.items.len() == 1 {
            to_number(&list.items[0])
        } else {
            0
        },
    }
}

// `parse` takes a leading `+`, and AQL does not.
fn number_in(text: &str) -> i64
    ensures { result ≡ text_number text.now }
{
    if text.starts_with('+') {
        0
    } else {
        match text.parse() {
            Ok(number) => number,
            Err(_) => 0,
        }
    }
}
