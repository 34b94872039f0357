//! Texts and numbers at the end of a text.

ghost use Rattle.std.specs.Prelude.{◌≡◌, ◌++◌, OnOk, decimal};
ghost use Rattle.json.specs.Print.{quoted};
ghost use Rattle.aql_show.specs.Lists.{number_after};
ghost use Rattle.aql_show.specs.Exprs.{function_text};

use aql_value::{OutOfMemory, Text, Value, write_json};
use std::alloc::Global;

pub fn put(text: &[u8], out: &mut Vec<u8>) -> Result<(), OutOfMemory>
    ensures { OnOk result (out.new.items ≡ out.old.items ++ text.now) }
{
    out.extend_from_slice(text)?;
    Ok(())
}

pub fn write_number(n: u64, out: &mut Vec<u8>) -> Result<(), OutOfMemory>
    ensures { OnOk result (out.new.items ≡ out.old.items ++ decimal n) }
{
    let mut buffer = itoa::Buffer::new();
    put(buffer.format(n).as_bytes(), out)
}

/// Appends a number that may be missing, after what stands before it.
pub fn write_number_after(
    front: &[u8],
    n: Option<u64>,
    out: &mut Vec<u8>,
) -> Result<(), OutOfMemory>
    ensures { OnOk result (out.new.items ≡ out.old.items ++ number_after front.now n) }
{
    match n {
        Some(n) => {
            put(front, out)?;
            write_number(n, out)
        }
        None => Ok(()),
    }
}

/// Appends the name of a function.
pub fn write_function(name: &str, out: &mut Vec<u8>) -> Result<(), OutOfMemory>
    ensures { OnOk result (out.new.items ≡ out.old.items ++ function_text name.now) }
{
    for byte in name.as_bytes() {
        out.push(byte.to_ascii_uppercase())?;
    }
    Ok(())
}

/// Appends a text as JSON writes it.
pub fn write_quoted(text: &Text, alloc: Global, out: &mut Vec<u8>) -> Result<(), OutOfMemory>
    ensures { OnOk result (out.new.items ≡ out.old.items ++ quoted text.now) }
{
    let value = Value::Text(text.copy(alloc)?);
    write_json(&value, out)
}
