//! The script that is made where none is read.

ghost use Rattle.std.specs.Prelude.{◌≡◌, ◌≤◌, ◌++◌, IfOk, OnOk, flat_map, decimal};
ghost use Rattle.aql_options.specs.Generated.{generated, user, edge, up_to};

use aql_value::OutOfMemory;
use itoa::Buffer;
use std::alloc::Global;

const LOOPS: &[u8] = b"FOR u IN users FILTER u.g < 3 FOR v IN 1..2 OUTBOUND u knows ";

const GROUPS: &[u8] = b"COLLECT g = u.g AGGREGATE c = COUNT(v), s = SUM(v.n) RETURN [g, c, s]\n";

/// The script of n users, each of whom knows one, and of a query over them.
pub fn generate(alloc: Global, n: u32) -> Result<Vec<u8>, OutOfMemory>
    requires { (1 ≤ n) × (n ≤ 100000) }
    ensures { IfOk result (λ script. script.items ≡ generated n) }
{
    let mut script = Vec::new(alloc);
    script.extend_from_slice(b"%document users shards=4\n")?;
    add_users(n, &mut script)?;
    script.extend_from_slice(b"%edge knows shards=4\n")?;
    add_edges(n, &mut script)?;
    script.extend_from_slice(b"%index users g\n%query\n")?;
    script.extend_from_slice(LOOPS)?;
    script.extend_from_slice(GROUPS)?;
    Ok(script)
}

fn add_users(n: u32, script: &mut Vec<u8>) -> Result<(), OutOfMemory>
    requires { n ≤ 100000 }
    ensures { OnOk result (script.new.items ≡ script.old.items ++ flat_map user (up_to n)) }
{
    for before in 0..n {
        add_user(before + 1, script)?;
    }
    Ok(())
}

fn add_user(i: u32, script: &mut Vec<u8>) -> Result<(), OutOfMemory>
    ensures { OnOk result (script.new.items ≡ script.old.items ++ user i) }
{
    script.extend_from_slice(b"{\"_key\":\"u")?;
    add_number(i, script)?;
    script.extend_from_slice(b"\",\"g\":")?;
    add_number(i % 7, script)?;
    script.extend_from_slice(b",\"n\":")?;
    add_number(i, script)?;
    script.extend_from_slice(b"}\n")?;
    Ok(())
}

fn add_edges(n: u32, script: &mut Vec<u8>) -> Result<(), OutOfMemory>
    requires { (1 ≤ n) × (n ≤ 100000) }
    ensures { OnOk result (script.new.items ≡ script.old.items ++ flat_map (edge n) (up_to n)) }
{
    for before in 0..n {
        add_edge(n, before + 1, script)?;
    }
    Ok(())
}

fn add_edge(n: u32, i: u32, script: &mut Vec<u8>) -> Result<(), OutOfMemory>
    requires { (1 ≤ n) × (i ≤ 100000) }
    ensures { OnOk result (script.new.items ≡ script.old.items ++ edge n i) }
{
    script.extend_from_slice(b"{\"_key\":\"e")?;
    add_number(i, script)?;
    script.extend_from_slice(b"\",\"_from\":\"users/u")?;
    add_number(i, script)?;
    script.extend_from_slice(b"\",\"_to\":\"users/u")?;
    add_number(3 * i % n + 1, script)?;
    script.extend_from_slice(b"\"}\n")?;
    Ok(())
}

// Appends a number in decimal.
fn add_number(n: u32, script: &mut Vec<u8>) -> Result<(), OutOfMemory>
    ensures { OnOk result (script.new.items ≡ script.old.items ++ decimal n) }
{
    let mut digits = Buffer::new();
    script.extend_from_slice(digits.format(n).as_bytes())?;
    Ok(())
}
