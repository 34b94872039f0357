// Rows of one variable with numbers, and what comes of rows as a text.

ghost use Rattle.std.specs.Prelude.{◌≡◌, ◌<◌, ◌^◌, length, IfOk};
ghost use Rattle.aql_block.specs.Tables.{rows_of};

use crate::tests::driving::Ran;
use aql_block::{Block, Tally};
use aql_value::{Items, OutOfMemory, Value, write_json};
use std::alloc::Global;
use std::process::Abort;

// A row of the variable for each of the numbers.
#[tactic(auto, using(crate::proofs::Counted::as_many))]
pub fn block_of(alloc: Global, var: u32, numbers: &[i64]) -> Result<Block, OutOfMemory>
    requires { length numbers.now < 2 ^ 32 }
    ensures { IfOk result (λ block. length (rows_of block) ≡ length numbers.now) }
{
    let mut values = Vec::with_capacity(alloc, numbers.len())?;
    for number in numbers {
        values.push(Value::Num(*number))?;
    }
    let block = Block::from_values(alloc, var, values)?;
    Ok(block)
}

// Adds the values of a variable; nothing where it is no register.
pub fn add_values(block: Block, var: u32, all: &mut Items) -> Result<(), OutOfMemory> {
    if let Some(values) = block.into_values(var) {
        for value in values {
            all.push(value)?;
        }
    }
    Ok(())
}

// Whether the values are those of this JSON text.
fn is_json(alloc: Global, values: Items, want: &str) -> bool {
    let mut text = Vec::new(alloc);
    match write_json(&Value::List(values), &mut text) {
        Ok(()) => text.as_slice() == want.as_bytes(),
        Err(_) => false,
    }
}

// Whether the values are those of this JSON text, where so many rows of the inputs came, so many
// documents were read and so many rows dropped.
pub fn is_counted(
    alloc: Global,
    ran: Result<Ran, OutOfMemory>,
    want: &str,
    rows: u64,
    read: u64,
    dropped: u64,
) -> bool {
    let Ok(Ran { values, tally }) = ran else {
        return false;
    };
    let counts = Tally {
        scanned_full: read,
        scanned_index: rows,
        filtered: dropped,
    };
    tally == counts && is_json(alloc, values, want)
}

// Whether memory ran out, or the values are those of this JSON text.
pub fn is_right(alloc: Global, ran: Result<Ran, OutOfMemory>, want: &str) -> bool {
    let Ok(Ran { values, tally: _ }) = ran else {
        return true;
    };
    let mut text = Vec::new(alloc);
    match write_json(&Value::List(values), &mut text) {
        Ok(()) => text.as_slice() == want.as_bytes(),
        Err(_) => true,
    }
}

// A list of the numbers.
pub fn numbers(alloc: Global, numbers: &[i64]) -> Result<Vec<i64>, OutOfMemory> {
    Ok(Vec::from_slice(alloc, numbers)?)
}

pub fn expect(rt: &impl Abort, holds: bool, of: &str, batch: u64) {
    assert!(rt; holds, "{of} in steps of {batch}");
}
