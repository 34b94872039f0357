// Functions of objects.
ghost use Rattle.std.specs.List.{after_first, before_first};
ghost use Rattle.std.specs.Prelude.{[], ◌∷◌, ◌≡◌, codes, flat_map, IfOk, IfSome, is_some, List, map, OnOk, ℕ};
ghost use Rattle.aql_value.specs.Attributes.{attribute, with_attribute};
ghost use Rattle.aql_value.specs.Contents.{is_in, record_of};
ghost use Rattle.aql_value.specs.Datum.{object_of, text, Datum};
ghost use Rattle.aql_value.specs.View.{datum_of, datums_in};
ghost use Rattle.aql_value.specs.WellFormed.{FieldsWellFormed};
ghost use Rattle.aql_func.specs.Arguments.{of_object, elements_or_self};
ghost use Rattle.aql_func.specs.inner.Choices.{choose};
ghost use Rattle.aql_func.specs.Functions.{call};
ghost use Rattle.aql_func.specs.Objects as spec;

use crate::FuncName;
use crate::arguments::{object, opened_value};
use crate::lists::{append, distinct_set};
use crate::texts::{push_text, spread};
use aql_value::{
    Items, Member, Members, OutOfMemory, Text, Value, copy, recall_well_formed, to_text,
};
use indexmap::IndexSet;
use std::alloc::Global;

pub(crate) fn values_of(alloc: Global, members: &Members) -> Result<Items, OutOfMemory>
    ensures { IfOk result (λ w. w ≡ map (λ (f : List ℕ × Datum). f.1) members.now) }
{
    let mut out = Items::new(alloc);
    for member in members.as_slice() {
        out.push(copy(alloc, &member.value)?)?;
    }
    Ok(out)
}

fn names_of(alloc: Global, members: &Members) -> Result<Items, OutOfMemory>
    ensures { IfOk result (λ w. w ≡ map (λ (f : List ℕ × Datum). text f.0) members.now) }
{
    let mut out = Items::new(alloc);
    for member in members.as_slice() {
        push_text(alloc, &mut out, member.name.as_str())?;
    }
    Ok(out)
}

pub(crate) fn attributes(alloc: Global, args: &Items) -> Result<Value, OutOfMemory>
    ensures { IfOk result (λ v. datum_of v ≡ call FuncName.Attributes args.now) }
{
    let [document] = args.as_slice() else {
        return Ok(Value::Null);
    };
    match object(document) {
        None => Ok(Value::Null),
        Some(members) => Ok(Value::List(names_of(alloc, members)?)),
    }
}

pub(crate) fn values(alloc: Global, args: &Items) -> Result<Value, OutOfMemory>
    ensures { IfOk result (λ v. datum_of v ≡ call FuncName.Values args.now) }
{
    let [document] = args.as_slice() else {
        return Ok(Value::Null);
    };
    match object(document) {
        None => Ok(Value::Null),
        Some(members) => Ok(Value::List(values_of(alloc, members)?)),
    }
}

pub(crate) fn has(alloc: Global, args: &Items) -> Result<Value, OutOfMemory>
    ensures { IfOk result (λ v. datum_of v ≡ call FuncName.Has args.now) }
{
    let [document, name] = args.as_slice() else {
        return Ok(Value::Null);
    };
    let name = to_text(alloc, name)?;
    match object(document) {
        None => Ok(Value::Null),
        Some(members) => Ok(Value::Bool(has_attribute(members, name.as_str()))),
    }
}

fn has_attribute(members: &Members, name: &str) -> bool
    ensures { result ≡ is_some (attribute name.now members.now) }
{
    members.value(name).is_some()
}

// Sets all attributes of the second object in the first.
fn set_all(alloc: Global, out: &mut Members, members: &Members) -> Result<(), OutOfMemory>
    ensures { OnOk result (out.new ≡ spec.with_all out.old members.now) }
{
    for attribute in members.as_slice() {
        set_copy(alloc, out, attribute)?;
    }
    Ok(())
}

fn set_copy(alloc: Global, out: &mut Members, member: &Member) -> Result<(), OutOfMemory>
    ensures { OnOk result (out.new
        ≡ with_attribute member.now.name (datum_of member.now.value) out.old) }
{
    let name = member.name.copy(alloc)?;
    out.set(name, copy(alloc, &member.value)?)
}

pub(crate) fn merge(alloc: Global, args: &Items) -> Result<Value, OutOfMemory>
    ensures { IfOk result (λ v. datum_of v ≡ call FuncName.Merge args.now) }
{
    merge_all(alloc, spread(args.as_slice()))
}

fn merge_all(alloc: Global, values: &[Value]) -> Result<Value, OutOfMemory>
    ensures { IfOk result (λ v. datum_of v ≡ spec.merge (datums_in values.now)) }
{
    let mut out = Members::new(alloc);
    for value in values {
        match object(value) {
            Some(members) => set_all(alloc, &mut out, members)?,
            None => return Ok(Value::Null),
        }
    }
    Ok(Value::Object(out))
}

pub(crate) fn unset(alloc: Global, args: &Items) -> Result<Value, OutOfMemory>
    ensures { IfOk result (λ v. datum_of v ≡ call FuncName.Unset args.now) }
{
    let [document, names @ ..] = args.as_slice() else {
        return Ok(Value::Null);
    };
    let names = sought_names(alloc, names)?;
    choose(alloc, document, &names, false)
}

pub(crate) fn keep(alloc: Global, args: &Items) -> Result<Value, OutOfMemory>
    ensures { IfOk result (λ v. datum_of v ≡ call FuncName.Keep args.now) }
{
    let [document, names @ ..] = args.as_slice() else {
        return Ok(Value::Null);
    };
    let names = sought_names(alloc, names)?;
    choose(alloc, document, &names, true)
}

// The values among which an attribute's name is sought: the arguments, with arrays opened.
fn sought_names(alloc: Global, args: &[Value]) -> Result<Vec<Value>, OutOfMemory>
    ensures { IfOk result
        (λ w. datums_in w.items ≡ flat_map elements_or_self (datums_in args.now)) }
{
    let mut out = Vec::new(alloc);
    for arg in args {
        append(alloc, &mut out, opened_value(arg))?;
    }
    Ok(out)
}

// The attributes whose names are among these values, where `present` says so, and else the others.
fn choose(
    alloc: Global,
    value: &Value,
    names: &[Value],
    present: bool,
) -> Result<Value, OutOfMemory>
    ensures { IfOk result (λ v. datum_of v ≡ of_object (datum_of value.now)
        (λ fs. record_of (choose present (datums_in names.now) fs))) }
{
    recall_well_formed(value);
    match value {
        Value::Object(members) => Ok(Value::Object(choose_members(
            alloc, members, names, present,
        )?)),
        _ => Ok(Value::Null),
    }
}

fn choose_members(
    alloc: Global,
    members: &Members,
    names: &[Value],
    present: bool,
) -> Result<Members, OutOfMemory>
    requires { FieldsWellFormed (object_of members.now) }
    ensures { IfOk result (λ w. w ≡ choose present (datums_in names.now) members.now) }
{
    let sought = distinct_set(alloc, names)?;
    members_among(alloc, members, &sought, present)
}

fn members_among(
    alloc: Global,
    members: &Members,
    sought: &IndexSet<Value>,
    present: bool,
) -> Result<Members, OutOfMemory>
    requires { FieldsWellFormed (object_of members.now) }
    ensures { IfOk result (λ w. w ≡ choose present (datums_in sought.now.keys) members.now) }
{
    let mut out = Members::new(alloc);
    for member in members.as_slice() {
        if is_among(alloc, sought, &member.name)? == present {
            set_copy(alloc, &mut out, member)?;
        }
    }
    Ok(out)
}

fn is_among(alloc: Global, names: &IndexSet<Value>, name: &Text) -> Result<bool, OutOfMemory>
    ensures { IfOk result (λ b. b ≡ is_in (datums_in names.now.keys) (text name.now)) }
{
    let name = Value::Text(name.copy(alloc)?);
    Ok(names.contains(&name))
}

pub(crate) fn parse_identifier(alloc: Global, args: &Items) -> Result<Value, OutOfMemory>
    ensures { IfOk result (λ v. datum_of v ≡ call FuncName.ParseIdentifier args.now) }
{
    let [value] = args.as_slice() else {
        return Ok(Value::Null);
    };
    parse_id(alloc, value)
}

fn parse_id(alloc: Global, value: &Value) -> Result<Value, OutOfMemory>
    ensures { IfOk result (λ v. datum_of v ≡ spec.parse_identifier (datum_of value.now)) }
{
    match value {
        Value::Object(members) => match members.value("_id") {
            Some(id) => parse_id_text(alloc, id),
            None => Ok(Value::Null),
        },
        _ => parse_id_text(alloc, value),
    }
}

fn parse_id_text(alloc: Global, value: &Value) -> Result<Value, OutOfMemory>
    ensures { IfOk result
        (λ v. datum_of v ≡ spec.identifier_or_null (spec.id_of_text (datum_of value.now))) }
{
    match value {
        Value::Text(text) => identifier(alloc, text.as_str()),
        _ => Ok(Value::Null),
    }
}

fn identifier(alloc: Global, id: &str) -> Result<Value, OutOfMemory>
    ensures { IfOk result
        (λ v. datum_of v ≡ spec.identifier_or_null (spec.id_of_text (text id.now))) }
{
    match sides(id) {
        Some((collection, key)) => Ok(Value::Object(members_of_id(alloc, collection, key)?)),
        None => Ok(Value::Null),
    }
}

// The two sides of an id text; `None` where a text is none.
fn sides(id: &str) -> Option<(&str, &str)>
    ensures found { is_some result ≡ spec.is_id id.now }
    ensures sides { IfSome result (λ s. (s.0.now ≡ before_first spec.is_slash id.now)
        × (s.1.now ≡ after_first spec.is_slash id.now)) }
{
    match id.split_once('/') {
        Some((collection, key)) => {
            if collection.is_empty() || key.is_empty() || key.contains('/') {
                return None;
            }
            Some((collection, key))
        }
        None => None,
    }
}

fn members_of_id(alloc: Global, collection: &str, key: &str) -> Result<Members, OutOfMemory>
    ensures { IfOk result (λ m. m ≡ (codes "collection", text collection.now)
        ∷ (codes "key", text key.now) ∷ []) }
{
    let mut out = Members::new(alloc);
    set_text(alloc, &mut out, "collection", collection)?;
    set_text(alloc, &mut out, "key", key)?;
    Ok(out)
}

fn set_text(alloc: Global, out: &mut Members, name: &str, part: &str) -> Result<(), OutOfMemory>
    ensures { OnOk result (out.new ≡ with_attribute name.now (text part.now) out.old) }
{
    let name = Text::new(alloc, name)?;
    out.set(name, Value::Text(Text::new(alloc, part)?))
}
