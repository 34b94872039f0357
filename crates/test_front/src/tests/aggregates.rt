// Aggregates of lists of members, worked out by hand from the chapter on COLLECT.
use crate::tests::pages::expect;
use crate::tests::values::is_written;
use aql_aggregate::{Accumulator, AggregateKind, aggregate_kind};
use aql_value::{OutOfMemory, Value, from_json_line};
use std::alloc::Global;

fn aggregate(alloc: Global, kind: AggregateKind, members: &[Value]) -> Result<Value, OutOfMemory> {
    let mut kept = Accumulator::new(alloc, kind);
    for member in members {
        kept.add(alloc, member)?;
    }
    kept.finish(alloc)
}

// Whether the aggregate of this name over the elements of an array has this text.
fn gives(alloc: Global, name: &str, members: &str, want: &str) -> bool {
    let Some(kind) = aggregate_kind(name) else {
        return false;
    };
    let Ok(members) = from_json_line(alloc, members.as_bytes()) else {
        return false;
    };
    let Some(items) = members.into_items() else {
        return false;
    };
    match aggregate(alloc, kind, items.as_slice()) {
        Ok(value) => is_written(alloc, &value, want),
        Err(_) => false,
    }
}

// A name, members, and the aggregate of them; `cases/groups.cases` has more.
static AGGREGATES: [(&str, &str, &str); 8] = [
    ("count", "[]", "0"),
    ("LENGTH", "[\"a\",1,null,1]", "4"),
    ("MIN", "[\"a\",1,null,1]", "1"),
    ("SORTED_UNIQUE", "[\"a\",1,null,1]", "[null,1,\"a\"]"),
    ("COUNT_DISTINCT", "[\"a\",1,null,1]", "3"),
    ("Max", "[[1],{\"a\":1},false]", "{\"a\":1}"),
    ("SUM", "[9223372036854775807,1]", "null"),
    ("SUM", "[9223372036854775807,1,-1]", "9223372036854775807"),
];

#[test]
fn aggregates(rt: HostRuntime) {
    for (name, members, want) in &AGGREGATES {
        expect(&rt, gives(rt.alloc(), name, members, want), name, members);
    }
    expect(&rt, aggregate_kind("AVERAGE").is_none(), "AVERAGE", "");
    expect(&rt, aggregate_kind("").is_none(), "", "");
}
