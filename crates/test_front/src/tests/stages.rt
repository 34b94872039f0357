// Aggregates of members in parts: the state of each part, and what the states have together, worked
// out by hand.
use crate::tests::pages::expect;
use crate::tests::values::is_written;
use aql_aggregate::{StagedAccumulator, StagedKind, aggregate_kind};
use aql_meaning::Stage;
use aql_value::{Items, OutOfMemory, Value, copy, from_json_line};
use std::alloc::Global;

fn add_all(
    alloc: Global,
    kept: &mut StagedAccumulator,
    values: &[Value],
) -> Result<(), OutOfMemory> {
    for value in values {
        kept.add(alloc, value)?;
    }
    Ok(())
}

// What a stage of an aggregate makes of these values. The accumulator is finished in either case,
// so that no way out lets it go.
fn made(alloc: Global, aggregate: StagedKind, values: &[Value]) -> Result<Value, OutOfMemory> {
    let mut kept = StagedAccumulator::new(alloc, aggregate);
    let added = add_all(alloc, &mut kept, values);
    let value = kept.finish(alloc)?;
    added?;
    Ok(value)
}

fn add_copies(alloc: Global, values: &[Value], all: &mut Items) -> Result<(), OutOfMemory> {
    for value in values {
        all.push(copy(alloc, value)?)?;
    }
    Ok(())
}

// What a stage of the aggregate of this name makes of the elements of an array; of those of all its
// elements, which are arrays, where they are to be taken together.
fn gives(
    alloc: Global,
    name: &str,
    stage: Stage,
    values: &Value,
    together: bool,
) -> Result<Value, OutOfMemory> {
    let (Some(kind), Value::List(items)) = (aggregate_kind(name), values) else {
        return Ok(Value::Bool(false));
    };
    let aggregate = StagedKind { stage, kind };
    if !together {
        return made(alloc, aggregate, items.as_slice());
    }
    let mut all = Items::new(alloc);
    for part in items.as_slice() {
        if let Value::List(members) = part {
            add_copies(alloc, members.as_slice(), &mut all)?;
        }
    }
    made(alloc, aggregate, all.as_slice())
}

// The state of each part.
fn states(alloc: Global, name: &str, parts: &Value) -> Result<Value, OutOfMemory> {
    let mut all = Items::new(alloc);
    if let Value::List(parts) = parts {
        for part in parts.as_slice() {
            all.push(gives(alloc, name, Stage::Partial, part, false)?)?;
        }
    }
    Ok(Value::List(all))
}

fn has_text(alloc: Global, value: Result<Value, OutOfMemory>, want: &str) -> bool {
    match value {
        Ok(value) => is_written(alloc, &value, want),
        Err(_) => false,
    }
}

// Whether parts of members have these states, and this value, in one stage and in two.
fn is_joined(alloc: Global, name: &str, parts: &str, handed: &str, want: &str) -> bool {
    let Ok(parts) = from_json_line(alloc, parts.as_bytes()) else {
        return false;
    };
    let Ok(states) = states(alloc, name, &parts) else {
        return false;
    };
    is_written(alloc, &states, handed)
        && has_text(
            alloc,
            gives(alloc, name, Stage::Final, &states, false),
            want,
        )
        && has_text(alloc, gives(alloc, name, Stage::Whole, &parts, true), want)
}

// A name, parts of members, the state of each part, and the aggregate of all members.
static PARTS: [(&str, &str, &str, &str); 15] = [
    ("LENGTH", "[]", "[]", "0"),
    ("COUNT", "[[1,null],[],[\"a\"]]", "[2,0,1]", "3"),
    ("SUM", "[]", "[]", "0"),
    (
        "SUM",
        "[[1,null,2],[],[-5]]",
        "[[3,false,0,3],[0,false,0,0],[1,false,-1,9223372036854775803]]",
        "-2",
    ),
    (
        "SUM",
        "[[9223372036854775807,1],[-1]]",
        "[[2,false,1,0],[1,false,-1,9223372036854775807]]",
        "9223372036854775807",
    ),
    (
        "SUM",
        "[[9223372036854775807],[1]]",
        "[[1,false,0,9223372036854775807],[1,false,0,1]]",
        "null",
    ),
    (
        "SUM",
        "[[1],[\"a\",4],[2]]",
        "[[1,false,0,1],[2,true,0,4],[1,false,0,2]]",
        "null",
    ),
    ("MIN", "[]", "[]", "null"),
    ("MIN", "[[null],[]]", "[[],[]]", "null"),
    ("MIN", "[[null,3],[null],[],[2,4]]", "[[3],[],[],[2]]", "2"),
    ("MAX", "[[null,3],[null],[],[2,4]]", "[[3],[],[],[4]]", "4"),
    ("SORTED_UNIQUE", "[]", "[]", "[]"),
    (
        "SORTED_UNIQUE",
        "[[2,1,2],[],[1,null]]",
        "[[1,2],[],[null,1]]",
        "[null,1,2]",
    ),
    (
        "COUNT_DISTINCT",
        "[[2,1,2],[],[1,null]]",
        "[[1,2],[],[null,1]]",
        "3",
    ),
    ("COUNT_DISTINCT", "[[],[]]", "[[],[]]", "0"),
];

#[test]
fn joined(rt: HostRuntime) {
    for (name, parts, handed, want) in &PARTS {
        expect(
            &rt,
            is_joined(rt.alloc(), name, parts, handed, want),
            name,
            parts,
        );
    }
}

// What the final stage makes of values of which some are no state.
static VALUES: [(&str, &str, &str); 8] = [
    ("COUNT", "[5,-2,\"4\",true]", "8"),
    ("COUNT", "[9223372036854775807,1,-1]", "9223372036854775807"),
    ("COUNT", "[9223372036854775807,1]", "null"),
    ("COUNT", "[1,null]", "null"),
    ("SUM", "[7]", "null"),
    (
        "SUM",
        "[[1,0,4611686018427387904,1],[1,0,-4611686018427387904,2]]",
        "3",
    ),
    ("MIN", "[7,[9,3],[null]]", "3"),
    ("COUNT_DISTINCT", "[7,[3,3],{\"a\":1}]", "1"),
];

#[test]
fn any_values(rt: HostRuntime) {
    let alloc = rt.alloc();
    for (name, values, want) in &VALUES {
        let is_given = match from_json_line(alloc, values.as_bytes()) {
            Ok(values) => has_text(
                alloc,
                gives(alloc, name, Stage::Final, &values, false),
                want,
            ),
            Err(_) => false,
        };
        expect(&rt, is_given, name, values);
    }
}
