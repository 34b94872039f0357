// A line of JSON, read in one pass over its tokens.
ghost use Rattle.std.specs.Prelude.{◌≡◌, ◌<◌, length, option_and_then, slice_index, ◌==◌, Some, Ok, IfSome, OnSome, IsTrue, true};
ghost use Rattle.serde_json.specs.Find.{as_i64};
ghost use Rattle.serde_json.specs.Read.{number_of, number_from};
ghost use Rattle.aql_value.specs.JsonLine.{json_line};
ghost use Rattle.aql_value.specs.inner.Tokens.{ReadsValue, ReadsItems, ReadsMembers};
ghost use Rattle.aql_value.specs.View.{datum_of};

use crate::attributes::{set_in, shared};
use crate::texts::recall_utf8;
use crate::values::recall_well_formed;
use crate::{Items, Members, Text, Value};
use fast_float::Numeral;
use json::{Reader, Scratch, Token};
use std::alloc::Global;

// The most levels of arrays and objects that are opened here.
const LEVELS: usize = 64;

// The most attributes of an object that are put in order here, where each moves those after it.
const ATTRIBUTES: usize = 128;

// The value that a line writes. `None` says nothing of the line: it may have a fault, or memory
// ran out. An object gets room for as many attributes as is usual.
pub(crate) fn value_in(
    alloc: Global,
    line: &[u8],
    scratch: &mut Scratch,
    usual: usize,
) -> Option<Value>
    ensures { IfSome result (λ v. json_line line.now ≡ Ok (datum_of v)) }
{
    let Ok(text) = str::from_utf8(line) else {
        return None;
    };
    let Ok(mut reader) = Reader::new(text, scratch) else {
        return None;
    };
    let value = read(alloc, &mut reader, LEVELS, usual)?;
    match reader.next() {
        Some(_) => None,
        None => Some(value),
    }
}

#[cycle(tokens)]
fn read(alloc: Global, reader: &mut Reader<'_>, room: usize, usual: usize) -> Option<Value>
    ensures reads { IfSome result (λ v. ReadsValue room reader.old reader.new (datum_of v)) }
    ensures shorter { OnSome result (length reader.new < length reader.old) }
{
    let token = reader.next()?;
    match token {
        Token::Null => Some(Value::Null),
        Token::Bool(b) => Some(Value::Bool(b)),
        Token::Number(text) => Some(Value::Num(whole_number(text)?)),
        Token::String(text) => {
            let Ok(text) = Text::new(alloc, text) else {
                return None;
            };
            Some(Value::Text(text))
        }
        Token::BeginArray => {
            if room == 0 {
                return None;
            }
            Some(Value::List(read_items(alloc, reader, room - 1)?))
        }
        Token::BeginObject => {
            if room == 0 {
                return None;
            }
            Some(Value::Object(read_members(alloc, reader, room - 1, usual)?))
        }
        Token::EndArray | Token::EndObject | Token::Key(_) | Token::Bad => None,
    }
}

#[cycle(tokens)]
fn read_items(alloc: Global, reader: &mut Reader<'_>, room: usize) -> Option<Items>
    ensures reads { IfSome result (λ ts. ReadsItems room reader.old reader.new ts) }
    ensures shorter { OnSome result (length reader.new < length reader.old) }
{
    let mut found = Items::new(alloc);
    'items: while !reader.take_end_array() {
        let item = read(alloc, reader, room, 1)?;
        if found.push(item).is_err() {
            return None;
        }
    }
    found.shrink();
    Some(found)
}

#[cycle(tokens)]
fn read_members(
    alloc: Global,
    reader: &mut Reader<'_>,
    room: usize,
    usual: usize,
) -> Option<Members>
    ensures reads { IfSome result (λ fs. ReadsMembers room reader.old reader.new fs) }
    ensures shorter { OnSome result (length reader.new < length reader.old) }
{
    let Ok(mut found) = Vec::with_capacity(alloc, usual) else {
        return None;
    };
    'members: loop {
        let Ok(key) = reader.next_key() else {
            return None;
        };
        let Some(key) = key else {
            found.shrink_to(usual);
            return shared(alloc, found);
        };
        if found.len() == ATTRIBUTES {
            return None;
        }
        let Ok(name) = Text::new(alloc, key) else {
            return None;
        };
        let value = read(alloc, reader, room, 1)?;
        recall_utf8(&name);
        recall_well_formed(&value);
        if set_in(&mut found, name, value).is_err() {
            return None;
        }
    }
}

// The number that a token of JSON writes, where it is whole and has 64 bits.
fn whole_number(text: &str) -> Option<i64>
    ensures { IfSome result (λ z. option_and_then as_i64 (number_of text.now) ≡ Some z) }
{
    let bytes = text.as_bytes();
    if has_minus(bytes) {
        negative(&Numeral::scan(&bytes[1..]))
    } else {
        Numeral::scan(bytes).to_i64(false)
    }
}

fn negative(numeral: &Numeral<'_>) -> Option<i64>
    ensures { IfSome result (λ z. option_and_then as_i64 (number_from true numeral.now) ≡ Some z) }
{
    match numeral.to_i64(true) {
        Some(number) if number < 0 => Some(number),
        _ => None,
    }
}

fn has_minus(bytes: &[u8]) -> bool
    ensures value { result ≡ (slice_index bytes.now 0 == 45) }
    ensures some { IsTrue result → 0 < length bytes.now }
{
    bytes.len() > 0 && bytes[0] == b'-'
}
