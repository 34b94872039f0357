use crate::tests::pages::expect;
use aql_func::{FuncName, arity, lookup};

static NAMES: [(&str, Option<FuncName>); 5] = [
    ("Length", Some(FuncName::Length)),
    ("is_null", Some(FuncName::IsNull)),
    ("LENGTHS", None),
    ("", None),
    ("IS NULL", None),
];

static ARITIES: [(FuncName, usize, bool); 6] = [
    (FuncName::Length, 0, false),
    (FuncName::Length, 2, false),
    (FuncName::Concat, 1000, true),
    (FuncName::Concat, 0, false),
    (FuncName::Slice, 3, true),
    (FuncName::Slice, 4, false),
];

#[test]
fn names_and_arities(rt: HostRuntime) {
    for (name, want) in &NAMES {
        expect(&rt, lookup(name) == *want, "name", name);
    }
    for (f, count, is_allowed) in &ARITIES {
        expect(&rt, arity(*f).allows(*count) == *is_allowed, "arity", "");
    }
}
