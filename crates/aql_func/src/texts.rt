// Functions of texts. Lengths and places count characters.
ghost use Rattle.std.specs.Prelude.{[], ◌++◌, ◌<◌, ◌∷◌, ◌≡◌, chars, encode_utf8_all, IfOk, length, map, OnOk, string_bytes};
ghost use Rattle.aql_value.specs.Convert.{to_number, to_text};
ghost use Rattle.aql_value.specs.Datum.{text};
ghost use Rattle.aql_value.specs.View.{datum_of, datums_in};
ghost use Rattle.aql_func.specs.Arguments as given_args;
ghost use Rattle.aql_func.specs.Functions.{call, concatenate};
ghost use Rattle.aql_func.specs.inner.Joins.{with_part};
ghost use Rattle.aql_func.specs.inner.Optional.{optional_datum};
ghost use Rattle.aql_func.specs.Texts as spec;
ghost use Rattle.aql_func.specs.Texts.{begins_with, occurs_in, parts_of};

use crate::FuncName;
use crate::arguments::{array, is_null};
use crate::lists::{at_most, front, how_many, index_from, last_of, rest_from};
use aql_value::{Items, OutOfMemory, Text, Value, to_number, to_text};
use std::alloc::Global;

pub(crate) fn characters(alloc: Global, s: &str) -> Result<Vec<char>, OutOfMemory>
    ensures { IfOk result (λ w. w.items ≡ chars s.now) }
{
    let out: Vec<char> = s.chars().collect(alloc)?;
    Ok(out)
}

pub(crate) fn text_of(alloc: Global, characters: &[char]) -> Result<Text, OutOfMemory>
    ensures { IfOk result (λ t. t ≡ encode_utf8_all characters.now) }
{
    let mut out = String::new(alloc);
    for c in characters {
        out.push(*c)?;
    }
    Text::from_string(out)
}

pub(crate) fn substring(alloc: Global, args: &Items) -> Result<Value, OutOfMemory>
    ensures { IfOk result (λ v. datum_of v ≡ call FuncName.Substring args.now) }
{
    match args.as_slice() {
        [value, offset] => part(alloc, value, offset, None),
        [value, offset, count] => part(alloc, value, offset, Some(count)),
        _ => Ok(Value::Null),
    }
}

fn part(
    alloc: Global,
    value: &Value,
    offset: &Value,
    count: Option<&Value>,
) -> Result<Value, OutOfMemory>
    ensures { IfOk result (λ v. datum_of v ≡ text (spec.substring (to_number (datum_of offset.now))
        (optional_datum count.entry) (to_text (datum_of value.now)))) }
{
    let text = to_text(alloc, value)?;
    let characters = characters(alloc, text.as_str())?;
    let start = index_from(characters.len(), to_number(offset));
    let part = at_most(rest_from(&characters, start), count);
    text_of(alloc, part).map(Value::Text)
}

pub(crate) fn left(alloc: Global, args: &Items) -> Result<Value, OutOfMemory>
    ensures { IfOk result (λ v. datum_of v ≡ call FuncName.Left args.now) }
{
    let [value, n] = args.as_slice() else {
        return Ok(Value::Null);
    };
    let text = to_text(alloc, value)?;
    let characters = characters(alloc, text.as_str())?;
    let part = front(&characters, how_many(to_number(n)));
    text_of(alloc, part).map(Value::Text)
}

pub(crate) fn right(alloc: Global, args: &Items) -> Result<Value, OutOfMemory>
    ensures { IfOk result (λ v. datum_of v ≡ call FuncName.Right args.now) }
{
    let [value, n] = args.as_slice() else {
        return Ok(Value::Null);
    };
    let text = to_text(alloc, value)?;
    let characters = characters(alloc, text.as_str())?;
    let part = last_of(&characters, how_many(to_number(n)));
    text_of(alloc, part).map(Value::Text)
}

pub(crate) fn contains(alloc: Global, args: &Items) -> Result<Value, OutOfMemory>
    ensures { IfOk result (λ v. datum_of v ≡ call FuncName.Contains args.now) }
{
    let [value, part] = args.as_slice() else {
        return Ok(Value::Null);
    };
    let text = to_text(alloc, value)?;
    let part = to_text(alloc, part)?;
    Ok(Value::Bool(has(text.as_str(), part.as_str())))
}

fn has(s: &str, part: &str) -> bool
    ensures { result ≡ occurs_in s.now part.now }
{
    s.contains(part)
}

pub(crate) fn starts_with(alloc: Global, args: &Items) -> Result<Value, OutOfMemory>
    ensures { IfOk result (λ v. datum_of v ≡ call FuncName.StartsWith args.now) }
{
    let [value, prefix] = args.as_slice() else {
        return Ok(Value::Null);
    };
    let text = to_text(alloc, value)?;
    let front = to_text(alloc, prefix)?;
    Ok(Value::Bool(begins(text.as_str(), front.as_str())))
}

fn begins(s: &str, front: &str) -> bool
    ensures { result ≡ begins_with s.now front.now }
{
    s.starts_with(front)
}

pub(crate) fn split(alloc: Global, args: &Items) -> Result<Value, OutOfMemory>
    ensures { IfOk result (λ v. datum_of v ≡ call FuncName.Split args.now) }
{
    let [value, separator] = args.as_slice() else {
        return Ok(Value::Null);
    };
    let text = to_text(alloc, value)?;
    let separator = to_text(alloc, separator)?;
    parts(alloc, text.as_str(), separator.as_str()).map(Value::List)
}

fn parts(alloc: Global, s: &str, separator: &str) -> Result<Items, OutOfMemory>
    ensures { IfOk result (λ w. w ≡ map (λ t. text t) (parts_of separator.now s.now)) }
{
    if separator.is_empty() {
        letters(alloc, s)
    } else {
        parts_between(alloc, s, separator)
    }
}

// Each character by itself.
fn letters(alloc: Global, s: &str) -> Result<Items, OutOfMemory>
    ensures { IfOk result (λ w. w ≡ map (λ c. text (encode_utf8_all (c ∷ []))) (chars s.now)) }
{
    let characters = characters(alloc, s)?;
    let mut out = Items::new(alloc);
    for c in &characters {
        out.push(Value::Text(text_of(alloc, &[*c])?))?;
    }
    Ok(out)
}

fn parts_between(alloc: Global, s: &str, separator: &str) -> Result<Items, OutOfMemory>
    requires { 0 < length separator.now }
    ensures { IfOk result (λ w. w ≡ map (λ t. text t) (parts_of separator.now s.now)) }
{
    let mut out = Items::new(alloc);
    let mut rest = s;
    while let Some((before, after)) = rest.split_once(separator) {
        push_text(alloc, &mut out, before)?;
        rest = after;
    }
    push_text(alloc, &mut out, rest)?;
    Ok(out)
}

pub(crate) fn push_text(alloc: Global, out: &mut Items, part: &str) -> Result<(), OutOfMemory>
    ensures { OnOk result (out.new ≡ out.old ++ text part.now ∷ []) }
{
    out.push(Value::Text(Text::new(alloc, part)?))
}

pub(crate) fn concat(alloc: Global, args: &Items) -> Result<Value, OutOfMemory>
    ensures { IfOk result (λ v. datum_of v ≡ call FuncName.Concat args.now) }
{
    join(alloc, "", spread(args.as_slice()))
}

pub(crate) fn concat_separator(alloc: Global, args: &Items) -> Result<Value, OutOfMemory>
    ensures { IfOk result (λ v. datum_of v ≡ call FuncName.ConcatSeparator args.now) }
{
    let [separator, values @ ..] = args.as_slice() else {
        return Ok(Value::Null);
    };
    let separator = to_text(alloc, separator)?;
    join(alloc, separator.as_str(), spread(values))
}

// A sole array stands for its elements.
pub(crate) fn spread(args: &[Value]) -> &[Value]
    ensures { datums_in result.now ≡ given_args.spread (datums_in args.now) }
{
    match args {
        [] => args,
        [only] => match array(only) {
            Some(list) => list.as_slice(),
            None => args,
        },
        _ => args,
    }
}

// The texts of all that aren't null, with the separator between.
fn join(alloc: Global, separator: &str, values: &[Value]) -> Result<Value, OutOfMemory>
    ensures { IfOk result (λ v. datum_of v ≡ concatenate separator.now (datums_in values.now)) }
{
    let mut out = String::new(alloc);
    let mut started = false;
    for value in values {
        if !is_null(value) {
            let part = to_text(alloc, value)?;
            push_part(&mut out, started, separator, part.as_str())?;
            started = true;
        }
    }
    Ok(Value::Text(Text::from_string(out)?))
}

// Puts a text at the end, after the separator where something was put before.
fn push_part(
    out: &mut String,
    started: bool,
    separator: &str,
    part: &str,
) -> Result<(), OutOfMemory>
    ensures { OnOk result (string_bytes out.new
        ≡ with_part started separator.now (string_bytes out.old) part.now) }
{
    if started {
        out.push_str(separator)?;
    }
    out.push_str(part)?;
    Ok(())
}
