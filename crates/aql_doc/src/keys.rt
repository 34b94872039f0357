//! The keys of documents, their ids, and the ends of edges.

ghost use Rattle.std.specs.Prelude.{◌≡◌, ◌∷◌, ◌++◌, IfOk, codes, count_by, nat_eq, option_map};
ghost use Rattle.std.specs.List.{list_all};
ghost use Rattle.aql_value.specs.Datum.{Datum};
ghost use Rattle.aql_value.specs.View.{datum_of};
ghost use Rattle.aql_value.specs.Attributes.{attribute};
ghost use Rattle.aql_doc.specs.Keys.{is_key, is_key_byte, is_slash, is_id, is_end, is_text, rest_after};
ghost use Rattle.aql_doc.specs.Documents.{key_allowed, key_beside, key_from_id, key_given, has_ends};
ghost use Rattle.aql_doc.specs.Meets.{MeetsText};

use crate::DocFault;
use crate::limits::KEY_BYTES;
use aql_value::{Members, OutOfMemory, Text, Value};
use std::alloc::Global;

// The key that `_key` and `_id` give in the collection of a name.
pub(crate) fn key_in<'a>(
    alloc: Global,
    name: &Text,
    members: &'a Members,
) -> Result<&'a str, DocFault>
    ensures { MeetsText result (key_given name.now
        (attribute (codes "_key") members.now) (attribute (codes "_id") members.now)) }
{
    match members.value("_key") {
        Some(key) => key_beside_id(alloc, name, key, members.value("_id")),
        None => match members.value("_id") {
            Some(id) => key_of_id(alloc, name, id),
            None => Err(DocFault::BadKey),
        },
    }
}

fn key_beside_id<'a>(
    alloc: Global,
    name: &Text,
    key: &'a Value,
    id: Option<&Value>,
) -> Result<&'a str, DocFault>
    ensures { MeetsText result
        (key_beside name.now (datum_of key.now) (option_map (λ v. datum_of v.now) id.entry)) }
{
    let Value::Text(key) = key else {
        return Err(DocFault::BadKey);
    };
    let key = key.as_str();
    if !is_key(key.as_bytes()) {
        return Err(DocFault::BadKey);
    }
    let Some(id) = id else {
        return Ok(key);
    };
    let wanted = id_of(alloc, name, key)?;
    if is_text(id, &wanted) {
        Ok(key)
    } else {
        Err(DocFault::IdMismatch)
    }
}

// The key after the collection's name and a slash.
fn key_of_id<'a>(alloc: Global, name: &Text, id: &'a Value) -> Result<&'a str, DocFault>
    ensures { MeetsText result (key_from_id name.now (datum_of id.now)) }
{
    match id {
        Value::Text(id) => {
            let front = id_of(alloc, name, "")?;
            allow(rest_after(front.as_str(), id.as_str()))
        }
        _ => Err(DocFault::IdMismatch),
    }
}

// What stands after a front, where it is one.
fn rest_after<'a>(front: &str, text: &'a str) -> Option<&'a str>
    ensures { option_map (λ r. r.now) result ≡ rest_after front.now text.now }
{
    text.strip_prefix(front)
}

// The key, where it is one.
fn allow(key: Option<&str>) -> Result<&str, DocFault>
    ensures { MeetsText result (key_allowed (option_map (λ r. r.now) key.entry)) }
{
    match key {
        Some(key) if is_key(key.as_bytes()) => Ok(key),
        _ => Err(DocFault::IdMismatch),
    }
}

// The name, a slash and the key.
pub(crate) fn id_of(alloc: Global, name: &Text, key: &str) -> Result<Text, OutOfMemory>
    ensures { IfOk result (λ id. id ≡ name.now ++ 47 ∷ key.now) }
{
    Text::with_slash(alloc, name.as_str(), key)
}

fn is_text(value: &Value, text: &Text) -> bool
    ensures { result ≡ is_text text.now (datum_of value.now) }
{
    match value {
        Value::Text(other) => other.as_str() == text.as_str(),
        _ => false,
    }
}

fn is_key(key: &[u8]) -> bool
    ensures { result ≡ is_key key.now }
{
    !key.is_empty() && key.len() <= KEY_BYTES && has_key_bytes(key)
}

fn has_key_bytes(key: &[u8]) -> bool
    ensures { result ≡ list_all is_key_byte key.now }
{
    key.iter().all(|b| is_key_byte(*b))
}

#[tactic(auto, unfolding(crate::specs::Keys::is_key_byte))]
fn is_key_byte(b: u8) -> bool
    ensures { result ≡ is_key_byte b }
{
    b.is_ascii_alphanumeric() || b"_-:.@()+,=;$!*'%".contains(&b)
}

// Whether `_from` and `_to` are the ends of an edge.
#[tactic(auto, unfolding(crate::specs::Documents::has_ends))]
pub(crate) fn has_ends(members: &Members) -> bool
    ensures { result ≡ has_ends members.now }
{
    is_end(members.value("_from")) && is_end(members.value("_to"))
}

fn is_end(value: Option<&Value>) -> bool
    ensures { result ≡ is_end (option_map (λ v. datum_of v.now) value.entry) }
{
    match value {
        Some(Value::Text(id)) => is_id(id.as_str().as_bytes()),
        _ => false,
    }
}

fn is_id(id: &[u8]) -> bool
    ensures { result ≡ is_id id.now }
{
    slashes(id) == 1 && !id.starts_with(b"/") && !id.ends_with(b"/")
}

fn slashes(id: &[u8]) -> usize
    ensures { result ≡ count_by is_slash id.now }
{
    id.iter().filter(|b| **b == b'/').count()
}
