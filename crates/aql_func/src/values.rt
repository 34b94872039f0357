// Functions of any value: its type, its conversions, its length.
ghost use Rattle.std.specs.Prelude.{[], ◌∷◌, ◌≡◌, chars, IfOk, length, pos, reverse};
ghost use Rattle.aql_value.specs.Convert as convert;
ghost use Rattle.aql_value.specs.Convert.{number_or_null};
ghost use Rattle.aql_value.specs.Contents.{list};
ghost use Rattle.aql_value.specs.View.{datum_of, datums_in};
ghost use Rattle.aql_func.specs.Functions as spec;
ghost use Rattle.aql_func.specs.Functions.{call};
ghost use Rattle.aql_func.specs.Texts.{by_characters};

use crate::arithmetic::absolute;
use crate::lists::copy_all;
use crate::objects::values_of;
use crate::ranges::range;
use crate::texts::{characters, text_of};
use crate::{FuncName, arguments, arithmetic};
use aql_value::{Items, OutOfMemory, Text, Value, copy, to_number, to_text, truthy};
use std::alloc::Global;

fn type_name(value: &Value) -> &'static str
    ensures { result.now ≡ spec.type_name (datum_of value.now) }
{
    match value {
        Value::Null => "null",
        Value::Bool(_) => "bool",
        Value::Num(_) => "number",
        Value::Text(_) => "string",
        Value::List(_) => "array",
        Value::Object(_) => "object",
    }
}

fn has_type(value: &Value, name: &str) -> Value
    ensures { datum_of result ≡ spec.has_type name.now (datum_of value.now) }
{
    Value::Bool(type_name(value) == name)
}

pub(crate) fn is_null(args: &Items) -> Value
    ensures { datum_of result ≡ call FuncName.IsNull args.now }
{
    let [value] = args.as_slice() else {
        return Value::Null;
    };
    has_type(value, "null")
}

pub(crate) fn is_bool(args: &Items) -> Value
    ensures { datum_of result ≡ call FuncName.IsBool args.now }
{
    let [value] = args.as_slice() else {
        return Value::Null;
    };
    has_type(value, "bool")
}

pub(crate) fn is_number(args: &Items) -> Value
    ensures { datum_of result ≡ call FuncName.IsNumber args.now }
{
    let [value] = args.as_slice() else {
        return Value::Null;
    };
    has_type(value, "number")
}

pub(crate) fn is_string(args: &Items) -> Value
    ensures { datum_of result ≡ call FuncName.IsString args.now }
{
    let [value] = args.as_slice() else {
        return Value::Null;
    };
    has_type(value, "string")
}

pub(crate) fn is_array(args: &Items) -> Value
    ensures { datum_of result ≡ call FuncName.IsArray args.now }
{
    let [value] = args.as_slice() else {
        return Value::Null;
    };
    has_type(value, "array")
}

pub(crate) fn is_object(args: &Items) -> Value
    ensures { datum_of result ≡ call FuncName.IsObject args.now }
{
    let [value] = args.as_slice() else {
        return Value::Null;
    };
    has_type(value, "object")
}

pub(crate) fn typename(alloc: Global, args: &Items) -> Result<Value, OutOfMemory>
    ensures { IfOk result (λ v. datum_of v ≡ call FuncName.Typename args.now) }
{
    let [value] = args.as_slice() else {
        return Ok(Value::Null);
    };
    Text::new(alloc, type_name(value)).map(Value::Text)
}

pub(crate) fn bool_of(args: &Items) -> Value
    ensures { datum_of result ≡ call FuncName.ToBool args.now }
{
    let [value] = args.as_slice() else {
        return Value::Null;
    };
    Value::Bool(truthy(value))
}

pub(crate) fn number_of(args: &Items) -> Value
    ensures { datum_of result ≡ call FuncName.ToNumber args.now }
{
    let [value] = args.as_slice() else {
        return Value::Null;
    };
    Value::Num(to_number(value))
}

pub(crate) fn string_of(alloc: Global, args: &Items) -> Result<Value, OutOfMemory>
    ensures { IfOk result (λ v. datum_of v ≡ call FuncName.ToString args.now) }
{
    let [value] = args.as_slice() else {
        return Ok(Value::Null);
    };
    to_text(alloc, value).map(Value::Text)
}

pub(crate) fn array_of(alloc: Global, args: &Items) -> Result<Value, OutOfMemory>
    ensures { IfOk result (λ v. datum_of v ≡ call FuncName.ToArray args.now) }
{
    let [value] = args.as_slice() else {
        return Ok(Value::Null);
    };
    elements_of(alloc, value).map(Value::List)
}

fn elements_of(alloc: Global, value: &Value) -> Result<Items, OutOfMemory>
    ensures { IfOk result (λ w. list w ≡ spec.to_array (datum_of value.now)) }
{
    match value {
        Value::Null => Ok(Items::new(alloc)),
        Value::List(list) => copy_all(alloc, list.as_slice()),
        Value::Object(members) => values_of(alloc, members),
        Value::Bool(_) => array_of_one(alloc, value),
        Value::Num(_) => array_of_one(alloc, value),
        Value::Text(_) => array_of_one(alloc, value),
    }
}

fn array_of_one(alloc: Global, value: &Value) -> Result<Items, OutOfMemory>
    ensures { IfOk result (λ w. w ≡ datum_of value.now ∷ []) }
{
    let mut out = Items::new(alloc);
    out.push(copy(alloc, value)?)?;
    Ok(out)
}

pub(crate) fn not_null(alloc: Global, args: &Items) -> Result<Value, OutOfMemory>
    ensures { IfOk result (λ v. datum_of v ≡ call FuncName.NotNull args.now) }
{
    for value in args.as_slice() {
        if !arguments::is_null(value) {
            return copy(alloc, value);
        }
    }
    Ok(Value::Null)
}

pub(crate) fn abs(args: &Items) -> Value
    ensures { datum_of result ≡ call FuncName.Abs args.now }
{
    let [value] = args.as_slice() else {
        return Value::Null;
    };
    absolute(to_number(value))
}

pub(crate) fn range_of(alloc: Global, args: &Items) -> Result<Value, OutOfMemory>
    ensures { IfOk result (λ v. datum_of v ≡ call FuncName.Range args.now) }
{
    let [start, stop] = args.as_slice() else {
        return Ok(Value::Null);
    };
    range(alloc, to_number(start), to_number(stop))
}

pub(crate) fn length(alloc: Global, args: &Items) -> Result<Value, OutOfMemory>
    ensures { IfOk result (λ v. datum_of v ≡ call FuncName.Length args.now) }
{
    let [value] = args.as_slice() else {
        return Ok(Value::Null);
    };
    length_of(alloc, value)
}

pub(crate) fn count(alloc: Global, args: &Items) -> Result<Value, OutOfMemory>
    ensures { IfOk result (λ v. datum_of v ≡ call FuncName.Count args.now) }
{
    let [value] = args.as_slice() else {
        return Ok(Value::Null);
    };
    length_of(alloc, value)
}

fn length_of(alloc: Global, value: &Value) -> Result<Value, OutOfMemory>
    ensures { IfOk result (λ v. datum_of v ≡ spec.length_of (datum_of value.now)) }
{
    match value {
        Value::Null => Ok(Value::Num(0)),
        Value::Bool(true) => Ok(Value::Num(1)),
        Value::Bool(false) => Ok(Value::Num(0)),
        Value::List(list) => Ok(arithmetic::count(list.len())),
        Value::Object(members) => Ok(arithmetic::count(members.len())),
        Value::Num(_) => characters_in(alloc, value),
        Value::Text(_) => characters_in(alloc, value),
    }
}

fn characters_in(alloc: Global, value: &Value) -> Result<Value, OutOfMemory>
    ensures { IfOk result
        (λ v. datum_of v
        ≡ number_or_null (pos (length (chars (convert.to_text (datum_of value.now)))))) }
{
    let text = to_text(alloc, value)?;
    Ok(arithmetic::count(characters(alloc, text.as_str())?.len()))
}

pub(crate) fn reverse(alloc: Global, args: &Items) -> Result<Value, OutOfMemory>
    ensures { IfOk result (λ v. datum_of v ≡ call FuncName.Reverse args.now) }
{
    let [value] = args.as_slice() else {
        return Ok(Value::Null);
    };
    reverse_value(alloc, value)
}

fn reverse_value(alloc: Global, value: &Value) -> Result<Value, OutOfMemory>
    ensures { IfOk result (λ v. datum_of v ≡ spec.reverse_value (datum_of value.now)) }
{
    match value {
        Value::List(list) => Ok(Value::List(reverse_values(alloc, list.as_slice())?)),
        Value::Text(text) => Ok(Value::Text(reverse_text(alloc, text.as_str())?)),
        Value::Null => Ok(Value::Null),
        Value::Bool(_) => Ok(Value::Null),
        Value::Num(_) => Ok(Value::Null),
        Value::Object(_) => Ok(Value::Null),
    }
}

fn reverse_text(alloc: Global, s: &str) -> Result<Text, OutOfMemory>
    ensures { IfOk result (λ t. t ≡ by_characters reverse s.now) }
{
    let mut characters = characters(alloc, s)?;
    characters.reverse();
    text_of(alloc, &characters)
}

fn reverse_values(alloc: Global, values: &[Value]) -> Result<Items, OutOfMemory>
    ensures { IfOk result (λ w. w ≡ reverse (datums_in values.now)) }
{
    let mut out = Items::new(alloc);
    let mut rest = values;
    while let Some((last, before)) = rest.split_last() {
        out.push(copy(alloc, last)?)?;
        rest = before;
    }
    Ok(out)
}
