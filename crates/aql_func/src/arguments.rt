// What a function asks of an argument: its kind, its elements, its attributes.
ghost use Rattle.std.specs.Prelude.{[], ◌≡◌, IfOk, is_some, option_map, unwrap_or};
ghost use Rattle.aql_value.specs.Contents.{attributes, elements};
ghost use Rattle.aql_value.specs.View.{datum_of, datums_in};
ghost use Rattle.aql_func.specs.Aggregates as spec;
ghost use Rattle.aql_func.specs.Arguments as given_args;
ghost use Rattle.aql_func.specs.Arguments.{argument, is_object};

use aql_value::{Items, Members, OutOfMemory, Value, copy};
use std::alloc::Global;
use std::slice;

// The elements of an array; `None` for everything else.
pub(crate) fn array(value: &Value) -> Option<&Items>
    ensures kind { is_some result ≡ given_args.is_array (datum_of value.now) }
    ensures elements { unwrap_or (option_map (λ l. l.now) result) []
        ≡ elements (datum_of value.now) }
{
    match value {
        Value::List(list) => Some(list),
        _ => None,
    }
}

// The elements of an array, or any other value by itself.
pub(crate) fn opened_value(value: &Value) -> &[Value]
    ensures { datums_in result.now ≡ given_args.elements_or_self (datum_of value.now) }
{
    match value {
        Value::List(list) => list.as_slice(),
        _ => slice::from_ref(value),
    }
}

// The attributes of an object; `None` for everything else.
pub(crate) fn object(value: &Value) -> Option<&Members>
    ensures kind { is_some result ≡ is_object (datum_of value.now) }
    ensures attributes { unwrap_or (option_map (λ m. m.now) result) []
        ≡ attributes (datum_of value.now) }
{
    match value {
        Value::Object(members) => Some(members),
        _ => None,
    }
}

// A copy of the element at a place, null where there is none.
pub(crate) fn value_at(alloc: Global, list: &Items, place: usize) -> Result<Value, OutOfMemory>
    ensures { IfOk result (λ v. datum_of v ≡ argument list.now place) }
{
    match list.get(place) {
        Some(value) => copy(alloc, value),
        None => Ok(Value::Null),
    }
}

pub(crate) fn is_array(value: &Value) -> bool
    ensures { result ≡ given_args.is_array (datum_of value.now) }
{
    matches!(value, Value::List(_))
}

pub(crate) fn is_null(value: &Value) -> bool
    ensures { result ≡ spec.is_null (datum_of value.now) }
{
    matches!(value, Value::Null)
}
