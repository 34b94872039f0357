ghost use Rattle.std.specs.Prelude.{◌≡◌, IfOk};
ghost use Rattle.aql_value.specs.View.{datum_of};
ghost use Rattle.aql_value.specs.Convert as convert;
ghost use Rattle.aql_value.specs.Json.{json_text};

use crate::{OutOfMemory, Text, Value, recall_well_formed, write_json};
use std::alloc::Global;

/// The text that a value stands for (AQL fundamentals, Type casts): null gives "", a text itself, a
/// bool `true` or `false`, a number its decimal digits, an array or object its canonical JSON.
pub fn to_text(alloc: Global, value: &Value) -> Result<Text, OutOfMemory>
    ensures { IfOk result (λ t. t ≡ convert.to_text (datum_of value.now)) }
{
    match value {
        Value::Null => Text::new(alloc, ""),
        Value::Text(text) => text.copy(alloc),
        Value::Bool(_) | Value::Num(_) | Value::List(_) | Value::Object(_) => json_of(alloc, value),
    }
}

fn json_of(alloc: Global, value: &Value) -> Result<Text, OutOfMemory>
    ensures { IfOk result (λ t. t ≡ json_text (datum_of value.now)) }
{
    let mut bytes = Vec::new(alloc);
    write_json(value, &mut bytes)?;
    recall_well_formed(value);
    match String::from_utf8(bytes) {
        Ok(text) => Text::from_string(text),
        Err(_) => unreachable!(),
    }
}
