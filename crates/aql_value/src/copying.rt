ghost use Rattle.std.specs.Prelude.{◌≡◌, IfOk};
ghost use Rattle.aql_value.specs.View.{datum_of};
ghost use Rattle.aql_value.specs.Fields.{fields_in};

use crate::values::Member;
use crate::{Items, Members, OutOfMemory, Value};
use std::alloc::Global;

/// A value that is identical to `value`.
#[cycle(copying)]
pub fn copy(alloc: Global, value: &Value) -> Result<Value, OutOfMemory>
    ensures { IfOk result (λ w. datum_of w ≡ datum_of value.now) }
{
    match value {
        Value::Null => Ok(Value::Null),
        Value::Bool(b) => Ok(Value::Bool(*b)),
        Value::Num(n) => Ok(Value::Num(*n)),
        Value::Text(text) => Ok(Value::Text(text.copy(alloc)?)),
        Value::List(list) => Ok(Value::List(copy_items(alloc, list)?)),
        Value::Object(members) => Ok(Value::Object(share_members(members)?)),
    }
}

#[cycle(copying)]
fn copy_items(alloc: Global, list: &Items) -> Result<Items, OutOfMemory>
    ensures { IfOk result (λ w. w ≡ list.now) }
{
    let mut out = Items::with_room(alloc, list.len())?;
    for item in &list.items {
        out.push(copy(alloc, item)?)?;
    }
    Ok(out)
}

fn share_members(members: &Members) -> Result<Members, OutOfMemory>
    ensures { IfOk result (λ w. w ≡ members.now) }
{
    let entries = match &members.entries {
        Some(shared) => Some(shared.clone()?),
        None => None,
    };
    Ok(Members { entries })
}

/// Attributes that are identical to these, with room for one more.
pub(crate) fn copy_entries(alloc: Global, entries: &[Member]) -> Result<Vec<Member>, OutOfMemory>
    ensures { IfOk result (λ copies. fields_in copies.items ≡ fields_in entries.now) }
{
    let mut copies = Vec::with_capacity(alloc, entries.len().saturating_add(1))?;
    for entry in entries {
        copies.push(copy_member(alloc, entry)?)?;
    }
    Ok(copies)
}

/// An attribute that is identical to `member`.
pub(crate) fn copy_member(alloc: Global, member: &Member) -> Result<Member, OutOfMemory>
    ensures { IfOk result (λ m. (m.name ≡ member.now.name)
        × (datum_of m.value ≡ datum_of member.now.value)) }
{
    let name = member.name.copy(alloc)?;
    let value = copy(alloc, &member.value)?;
    Ok(Member { name, value })
}
