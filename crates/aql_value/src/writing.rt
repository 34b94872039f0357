ghost use Rattle.std.specs.Prelude.{◌≡◌, ◌++◌, ◌<◌, OnOk, OnErr};
ghost use Rattle.std.specs.Char.{digit_char};
ghost use Rattle.std.specs.Fmt.{signed_decimal};
ghost use Rattle.json.specs.Print.{quoted, escape_byte};
ghost use Rattle.aql_value.specs.Datum.{array, object, array_of, object_of};
ghost use Rattle.aql_value.specs.View.{datum_of};
ghost use Rattle.aql_value.specs.Json.{json_text, comma_if};
ghost use Rattle.aql_value.specs.inner.Writes.{Writes, member_text};

use crate::values::{Member, entries_in};
use crate::{Items, Members, OutOfMemory, Text, Value};

/// Appends the canonical JSON of a value: no blanks, attributes in the order of their names,
/// numbers in decimal. Where memory runs out, `out` is left as it was.
pub fn write_json(value: &Value, out: &mut Vec<u8>) -> Result<(), OutOfMemory>
    ensures ok { OnOk result (out.new.items ≡ out.old.items ++ json_text (datum_of value.now)) }
    ensures err { OnErr result (out.new.items ≡ out.old.items) }
{
    let before = out.len();
    match write_value(value, out) {
        Ok(()) => Ok(()),
        Err(e) => {
            out.truncate(before);
            Err(e)
        }
    }
}

#[cycle(writing)]
fn write_value(v: &Value, out: &mut Vec<u8>) -> Result<(), OutOfMemory>
    ensures { Writes result out.old.items out.new.items (json_text (datum_of v.now)) }
{
    match v {
        Value::Null => put(b"null", out),
        Value::Bool(true) => put(b"true", out),
        Value::Bool(false) => put(b"false", out),
        Value::Num(n) => write_number(*n, out),
        Value::Text(text) => write_quoted(text, out),
        Value::List(list) => write_items(list, out),
        Value::Object(members) => write_members(members, out),
    }
}

#[cycle(writing)]
pub(crate) fn write_items(list: &Items, out: &mut Vec<u8>) -> Result<(), OutOfMemory>
    ensures { Writes result out.old.items out.new.items (json_text (array (array_of list.now))) }
{
    put(b"[", out)?;
    for (i, item) in list.items.iter().enumerate() {
        write_item(i > 0, item, out)?;
    }
    put(b"]", out)
}

#[cycle(writing)]
fn write_item(later: bool, item: &Value, out: &mut Vec<u8>) -> Result<(), OutOfMemory>
    ensures { Writes result out.old.items out.new.items
        (comma_if later ++ json_text (datum_of item.now)) }
{
    if later {
        put(b",", out)?;
    }
    write_value(item, out)
}

#[cycle(writing)]
fn write_members(members: &Members, out: &mut Vec<u8>) -> Result<(), OutOfMemory>
    ensures { Writes result out.old.items out.new.items
        (json_text (object (object_of members.now))) }
{
    put(b"{", out)?;
    for (i, member) in entries_in(&members.entries).iter().enumerate() {
        write_member(i > 0, member, out)?;
    }
    put(b"}", out)
}

#[cycle(writing)]
fn write_member(later: bool, member: &Member, out: &mut Vec<u8>) -> Result<(), OutOfMemory>
    ensures { Writes result out.old.items out.new.items (member_text later member.now) }
{
    if later {
        put(b",", out)?;
    }
    write_quoted(&member.name, out)?;
    put(b":", out)?;
    write_value(&member.value, out)
}

fn put(bytes: &[u8], out: &mut Vec<u8>) -> Result<(), OutOfMemory>
    ensures { Writes result out.old.items out.new.items bytes.now }
{
    out.extend_from_slice(bytes)?;
    Ok(())
}

fn write_number(n: i64, out: &mut Vec<u8>) -> Result<(), OutOfMemory>
    ensures { Writes result out.old.items out.new.items (signed_decimal n) }
{
    let mut buffer = itoa::Buffer::new();
    put(buffer.format(n).as_bytes(), out)
}

// One byte of a text, escaped where JSON asks it.
#[tactic(auto, unfolding(json::specs::Print::escape_byte))]
fn write_byte(b: u8, out: &mut Vec<u8>) -> Result<(), OutOfMemory>
    ensures { Writes result out.old.items out.new.items (escape_byte b) }
{
    match b {
        b'"' | b'\\' => put(&[b'\\', b], out),
        8 => put(b"\\b", out),
        9 => put(b"\\t", out),
        10 => put(b"\\n", out),
        12 => put(b"\\f", out),
        13 => put(b"\\r", out),
        _ => {
            if b < 32 {
                put(
                    &[
                        b'\\',
                        b'u',
                        b'0',
                        b'0',
                        hex_digit(b / 16),
                        hex_digit(b % 16),
                    ],
                    out,
                )
            } else {
                put(&[b], out)
            }
        }
    }
}

fn hex_digit(n: u8) -> u8
    requires { n < 16 }
    ensures { result ≡ digit_char n }
{
    if n < 10 { b'0' + n } else { b'a' + (n - 10) }
}

fn write_quoted(text: &Text, out: &mut Vec<u8>) -> Result<(), OutOfMemory>
    ensures { Writes result out.old.items out.new.items (quoted text.now) }
{
    put(b"\"", out)?;
    for b in text.as_str().as_bytes() {
        write_byte(*b, out)?;
    }
    put(b"\"", out)
}
