ghost use Rattle.std.specs.Prelude.{◌≡◌, map, option_map, IfOk};
ghost use Rattle.aql_value.specs.View.{datum_of};
ghost use Rattle.aql_value.specs.Attributes.{attribute as find_attribute};
ghost use Rattle.aql_value.specs.Contents.{at_name, attributes, list};
ghost use Rattle.aql_value.specs.Json.{json_text};
ghost use Rattle.aql_value.specs.Shards.{fnv};

use crate::writing::write_items;
use crate::{Items, Names, OutOfMemory, Value, copy};
use std::alloc::Global;

/// FNV-1a of 64 bits.
pub fn fnv64(bytes: &[u8]) -> u64
    ensures { result ≡ fnv bytes.now }
{
    let mut hash = 14_695_981_039_346_656_037_u64;
    for byte in bytes {
        hash = (hash ^ u64::from(*byte)).wrapping_mul(1_099_511_628_211);
    }
    hash
}

/// The hash of values of shard keys (Cluster, sharding): that of the canonical JSON of the array
/// of the values.
pub fn shard_hash(alloc: Global, values: &Items) -> Result<u64, OutOfMemory>
    ensures { IfOk result (λ hash. hash ≡ fnv (json_text (list values.now))) }
{
    let mut text = Vec::new(alloc);
    write_items(values, &mut text)?;
    Ok(fnv64(&text))
}

/// The hash of a document by the names of the shard keys; an attribute that it lacks counts as null.
pub fn document_hash(alloc: Global, document: &Value, keys: &Names) -> Result<u64, OutOfMemory>
    ensures { IfOk result
        (λ hash. hash ≡ fnv (json_text (list (map (at_name (datum_of document.now)) keys.now)))) }
{
    let mut values = Items::new(alloc);
    for key in keys.as_slice() {
        values.push(copy_attribute(alloc, document, key.as_str())?)?;
    }
    shard_hash(alloc, &values)
}

/// A copy of an attribute; null where the value has none of this name.
pub fn copy_attribute(alloc: Global, value: &Value, name: &str) -> Result<Value, OutOfMemory>
    ensures { IfOk result (λ v. datum_of v ≡ at_name (datum_of value.now) name.now) }
{
    match attribute(value, name) {
        Some(value) => copy(alloc, value),
        None => Ok(Value::Null),
    }
}

// An attribute of an object; nothing else has any.
fn attribute<'a>(value: &'a Value, name: &str) -> Option<&'a Value>
    ensures { option_map (λ v. datum_of v.now) result
        ≡ find_attribute name.now (attributes (datum_of value.now)) }
{
    match value {
        Value::Object(members) => members.value(name),
        Value::Null | Value::Bool(_) | Value::Num(_) | Value::Text(_) | Value::List(_) => None,
    }
}
