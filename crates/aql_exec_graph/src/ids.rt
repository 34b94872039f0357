//! The id where a traversal starts.

ghost use Rattle.std.specs.Prelude.{◌≡◌, IfOk};
ghost use Rattle.aql_value.specs.View.{datum_of};
ghost use Rattle.aql_func.specs.Objects as spec;

use aql_value::{OutOfMemory, Text, Value};
use std::alloc::Global;

// The id text of a value: the value itself, or an object's `_id`; `None` where it has none.
pub(crate) fn id_text(alloc: Global, value: &Value) -> Result<Option<Text>, OutOfMemory>
    ensures { IfOk result (λ id. id ≡ spec.id_text (datum_of value.now)) }
{
    match value {
        Value::Object(members) => match members.value("_id") {
            Some(id) => id_of_text(alloc, id),
            None => Ok(None),
        },
        _ => id_of_text(alloc, value),
    }
}

fn id_of_text(alloc: Global, value: &Value) -> Result<Option<Text>, OutOfMemory>
    ensures { IfOk result (λ id. id ≡ spec.id_of_text (datum_of value.now)) }
{
    match value {
        Value::Text(text) => {
            if is_id(text.as_str()) {
                Ok(Some(text.copy(alloc)?))
            } else {
                Ok(None)
            }
        }
        _ => Ok(None),
    }
}

fn is_id(id: &str) -> bool
    ensures { result ≡ spec.is_id id.now }
{
    match id.split_once('/') {
        Some((collection, key)) => {
            if collection.is_empty() || key.is_empty() || key.contains('/') {
                return false;
            }
            true
        }
        None => false,
    }
}
