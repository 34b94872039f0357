// Parts of values, borrowed. Where there is no such part, `missing` is given, which is null.
ghost use Rattle.std.specs.Prelude.{◌≡◌, option_map, slice_get, unwrap_or};
ghost use Rattle.aql_value.specs.Contents as spec;
ghost use Rattle.aql_value.specs.Datum.{null};
ghost use Rattle.aql_value.specs.View.{datum_of, datums_in};

use aql_value::Value;

// The elements of an array; nothing else has elements.
pub(crate) fn elements(value: &Value) -> &[Value]
    ensures { datums_in result.now ≡ spec.elements (datum_of value.now) }
{
    match value {
        Value::List(list) => list.as_slice(),
        _ => &[],
    }
}

// `value.name`.
pub(crate) fn attribute<'a>(value: &'a Value, name: &str, missing: &'a Value) -> &'a Value
    requires { datum_of missing.now ≡ null }
    ensures { datum_of result.now ≡ spec.at_name (datum_of value.now) name.now }
{
    match value {
        Value::Object(members) => match members.value(name) {
            Some(value) => value,
            None => missing,
        },
        _ => missing,
    }
}

// `value[which]`.
pub(crate) fn access<'a>(value: &'a Value, which: &Value, missing: &'a Value) -> &'a Value
    requires { datum_of missing.now ≡ null }
    ensures { datum_of result.now ≡ spec.at_value (datum_of value.now) (datum_of which.now) }
{
    match which {
        Value::Text(name) => attribute(value, name.as_str(), missing),
        Value::Num(place) => element_at(elements(value), *place, missing),
        _ => missing,
    }
}

fn element_at<'a>(values: &'a [Value], place: i64, missing: &'a Value) -> &'a Value
    requires { datum_of missing.now ≡ null }
    ensures { datum_of result.now ≡ spec.at_index (datums_in values.now) place }
{
    match usize::try_from(place) {
        Ok(place) => value_at(values, place, missing),
        Err(_) => match values.len().checked_sub(place.unsigned_abs() as usize) {
            Some(place) => value_at(values, place, missing),
            None => missing,
        },
    }
}

fn value_at<'a>(values: &'a [Value], place: usize, missing: &'a Value) -> &'a Value
    requires { datum_of missing.now ≡ null }
    ensures { datum_of result.now ≡ unwrap_or (slice_get (datums_in values.now) place) null }
{
    match values.get(place) {
        Some(value) => value,
        None => missing,
    }
}

// The value that is given, else the other one.
pub(crate) fn value_or<'a>(given: &'a Option<Value>, other: &'a Value) -> &'a Value
    ensures { datum_of result.now ≡ unwrap_or (option_map datum_of given.now) (datum_of other.now) }
{
    match given {
        Some(value) => value,
        None => other,
    }
}
