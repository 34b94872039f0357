ghost use Rattle.std.specs.Prelude.{◌≡◌, ◌≤◌, ◌↔◌, ◌⊎◌, Some, None, Ok, Err, MatchResult, IfOk, IfErr, IsTrue};
ghost use Rattle.serde_json.specs.Data.{depth, items_depth, members_depth};
ghost use Rattle.serde_json.specs.View.{view, items_view, members_view};
ghost use Rattle.aql_value.specs.Datum.{array_of, object_of};
ghost use Rattle.aql_value.specs.View.{datum_of};
ghost use Rattle.aql_value.specs.FromJson.{from_json, items_from_json, members_from_json};
ghost use Rattle.aql_value.specs.RoundTrip.{TextIsCompact, TextReadsBack};
ghost use Rattle.aql_value.specs.JsonLine.{json_line, Refuses};
ghost use Rattle.aql_value.specs.declared.reading.JsonFault.TheVariants.{Memory};

use crate::texts::recall_utf8;
use crate::tokens::value_in;
use crate::values::{Member, recall_well_formed};
use crate::{Items, Members, OutOfMemory, Text, Value};
use json::Scratch;
use serde_json::Map;
use std::alloc::{AllocError, AllocFailed, Global};
use std::rc::Rc;
use thiserror::Error;

/// The deepest nesting of arrays and objects that a line may have.
const DEEPEST: u8 = 64;

/// Why a line of JSON gives no value. Where several hold, the first of these is answered.
#[derive(Debug, Clone, Copy, PartialEq, Eq, Drop, Error)]
pub enum JsonFault {
    /// `serde_json` reads no value from the line; one that nests deeper than 127 is such a line.
    #[error("not JSON")]
    NotJson,
    /// The arrays and objects of the value that `serde_json` reads nest deeper than 64.
    #[error("nested too deep")]
    TooDeep,
    /// The value that `serde_json` reads holds a number that is no whole number from -2^63 to
    /// 2^63 - 1, is written with an exponent, or is `-0`.
    #[error("number not whole")]
    NotWhole,
    /// Memory ran out.
    #[error("out of memory")]
    Memory,
}

/// The value that a line of JSON writes. Blanks around it are skipped, and of a name that an object
/// repeats the last value counts.
pub fn from_json_line(alloc: Global, line: &[u8]) -> Result<Value, JsonFault>
    ensures value { IfOk result (λ v. json_line line.now ≡ Ok (datum_of v)) }
    ensures fault { IfErr result (λ e. (e ≡ Memory) ⊎ (json_line line.now ≡ Err e)) }
{
    match serde_json::Value::from_slice(alloc, line) {
        Ok(json) => {
            if nests_within(&json, DEEPEST) {
                value_of(alloc, json)
            } else {
                Err(JsonFault::TooDeep)
            }
        }
        Err(e) => if e.is_memory() {
            Err(JsonFault::Memory)
        } else {
            Err(JsonFault::NotJson)
        },
    }
}

/// Reads lines of JSON one after another, and keeps the room that it needs for one.
#[derive(Drop)]
pub struct LineReader {
    scratch: Scratch,
    // how many attributes the object of the next line may have, by that of the last one
    usual: usize,
}

impl LineReader {
    /// A reader that has read no line yet.
    pub fn new(alloc: Global) -> LineReader {
        LineReader {
            scratch: Scratch::new(alloc),
            usual: 1,
        }
    }

    /// The value that a line of JSON writes, or its fault, as `from_json_line` gives them.
    ///
    /// One pass over the tokens makes the value of a line that has no fault. Where it does not come
    /// to an end, the line is read again, so that of several faults the first is answered.
    pub fn read(&mut self, alloc: Global, line: &[u8]) -> Result<Value, JsonFault>
        ensures value { IfOk result (λ v. json_line line.now ≡ Ok (datum_of v)) }
        ensures fault { IfErr result (λ e. (e ≡ Memory) ⊎ (json_line line.now ≡ Err e)) }
    {
        match value_in(alloc, line, &mut self.scratch, self.usual) {
            Some(value) => {
                if let Value::Object(members) = &value {
                    self.usual = members.len().saturating_add(1);
                }
                Ok(value)
            }
            None => from_json_line(alloc, line),
        }
    }
}

/// Two laws of the canonical JSON: it is the compact text that `serde_json` writes, and reading it
/// gives the value back where its arrays and objects nest at most 64 deep.
pub fn text_is_read_back()
    ensures compact { TextIsCompact }
    ensures back { TextReadsBack }
{}

#[cycle(nesting)]
fn nests_within(json: &serde_json::Value, room: u8) -> bool
    ensures { IsTrue result ↔ (depth (view json.now) ≤ room) }
{
    match json {
        serde_json::Value::Array(items) => room > 0 && items_nest_within(items, room - 1),
        serde_json::Value::Object(members) => room > 0 && members_nest_within(members, room - 1),
        _ => true,
    }
}

#[cycle(nesting)]
fn items_nest_within(items: &Vec<serde_json::Value>, room: u8) -> bool
    ensures { IsTrue result ↔ (items_depth (items_view items.now.items) ≤ room) }
{
    for item in items {
        if !nests_within(item, room) {
            return false;
        }
    }
    true
}

#[cycle(nesting)]
fn members_nest_within(members: &Map<String, serde_json::Value>, room: u8) -> bool
    ensures { IsTrue result ↔ (members_depth (members_view members.now.entries) ≤ room) }
{
    for (_, member) in members.iter() {
        if !nests_within(member, room) {
            return false;
        }
    }
    true
}

impl From<OutOfMemory> for JsonFault {
    ghost use Rattle.aql_value.specs.declared.reading.JsonFault.{JsonFault};

    ghost from_gives = { λ _ e. e ≡ JsonFault.Memory };

    fn from(_: OutOfMemory) -> JsonFault {
        JsonFault::Memory
    }
}

impl<T: Drop> From<AllocFailed<T>> for JsonFault {
    ghost use Rattle.aql_value.specs.declared.reading.JsonFault.{JsonFault};

    ghost from_gives = { λ _ e. e ≡ JsonFault.Memory };

    fn from(_: AllocFailed<T>) -> JsonFault {
        JsonFault::Memory
    }
}

impl From<AllocError> for JsonFault {
    ghost use Rattle.aql_value.specs.declared.reading.JsonFault.{JsonFault};

    ghost from_gives = { λ _ e. e ≡ JsonFault.Memory };

    fn from(_: AllocError) -> JsonFault {
        JsonFault::Memory
    }
}

// The value that the data stands for; its texts and names are moved and not copied.
#[cycle(values)]
fn value_of(alloc: Global, json: serde_json::Value) -> Result<Value, JsonFault>
    ensures { MatchResult result
        (λ v. from_json (view json) ≡ Some (datum_of v))
        (λ e. Refuses e (from_json (view json) ≡ None)) }
{
    match json {
        serde_json::Value::Null => Ok(Value::Null),
        serde_json::Value::Bool(b) => Ok(Value::Bool(b)),
        serde_json::Value::Number(n) => match n.as_i64() {
            Some(n) => Ok(Value::Num(n)),
            None => Err(JsonFault::NotWhole),
        },
        serde_json::Value::String(text) => Ok(Value::Text(Text::from_string(text)?)),
        serde_json::Value::Array(items) => Ok(Value::List(items_of(alloc, items)?)),
        serde_json::Value::Object(members) => Ok(Value::Object(members_of(alloc, members)?)),
    }
}

#[cycle(values)]
fn items_of(alloc: Global, items: Vec<serde_json::Value>) -> Result<Items, JsonFault>
    ensures { MatchResult result
        (λ v. items_from_json (items_view items.items) ≡ Some (array_of v))
        (λ e. Refuses e (items_from_json (items_view items.items) ≡ None)) }
{
    let mut out = Items::new(alloc);
    for item in items {
        out.push(value_of(alloc, item)?)?;
    }
    Ok(out)
}

#[cycle(values)]
fn members_of(alloc: Global, members: Map<String, serde_json::Value>) -> Result<Members, JsonFault>
    ensures { MatchResult result
        (λ v. members_from_json (members_view members.entries) ≡ Some (object_of v))
        (λ e. Refuses e (members_from_json (members_view members.entries) ≡ None)) }
{
    let mut entries = Vec::with_capacity(alloc, members.len())?;
    for (key, member) in members {
        let name = Text::from_string(key)?;
        let value = value_of(alloc, member)?;
        recall_well_formed(&value);
        recall_utf8(&name);
        entries.push(Member { name, value })?;
    }
    Ok(Members {
        entries: Some(Rc::new(alloc, entries)?),
    })
}
