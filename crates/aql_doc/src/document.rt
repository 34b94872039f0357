//! The form in which a document is held.

ghost use Rattle.std.specs.Prelude.{◌≡◌, IfOk, IfSome, codes};
ghost use Rattle.aql_value.specs.Attributes.{attribute, with_attribute};
ghost use Rattle.aql_value.specs.Datum.{object_of, text};
ghost use Rattle.aql_value.specs.View.{datum_of};
ghost use Rattle.aql_value.specs.WellFormed.{FieldsWellFormed};
ghost use Rattle.aql_doc.specs.Documents.{fill};

use crate::keys::id_of;
use aql_value::{Members, OutOfMemory, Text, Value};
use std::alloc::Global;

// The document with its `_key` and its `_id`.
#[tactic(auto, unfolding(crate::specs::Documents::fill))]
pub(crate) fn fill(
    alloc: Global,
    name: &Text,
    key: &str,
    members: Members,
) -> Result<Value, OutOfMemory>
    requires names { FieldsWellFormed (object_of members) }
    requires key { IfSome (attribute (codes "_key") members) (λ t. t ≡ text key.now) }
    ensures { IfOk result (λ v. datum_of v ≡ fill name.now key.now members) }
{
    let mut filled = with_key(alloc, key, members)?;
    let id = id_of(alloc, name, key)?;
    filled.reserve(1)?;
    filled.set(Text::new(alloc, "_id")?, Value::Text(id))?;
    Ok(Value::Object(filled))
}

// The attributes with `_key`, which stays as it is where it is there.
fn with_key(alloc: Global, key: &str, members: Members) -> Result<Members, OutOfMemory>
    requires names { FieldsWellFormed (object_of members) }
    requires key { IfSome (attribute (codes "_key") members) (λ t. t ≡ text key.now) }
    ensures { IfOk result (λ ms. ms ≡ with_attribute (codes "_key") (text key.now) members) }
{
    if members.value("_key").is_some() {
        return Ok(members);
    }
    let mut keyed = members;
    keyed.set(
        Text::new(alloc, "_key")?,
        Value::Text(Text::new(alloc, key)?),
    )?;
    Ok(keyed)
}
