use crate::tests::pages::{Page, expect};
use aql_value::{
    CollNo, CollNos, Items, JsonFault, LineReader, Members, Names, Text, Value, cmp, copy,
    from_json_line, order_is_total, recall_well_formed, text_is_read_back, to_number, to_text,
    truthy, write_json,
};
use std::alloc::Global;
use std::cmp::Ordering;
use std::collections::HashSet;
use std::process::Abort;

// Whether this is the canonical JSON of a value.
pub fn is_written(alloc: Global, value: &Value, json: &str) -> bool {
    let mut out = Vec::new(alloc);
    write_json(value, &mut out).is_ok() && out.as_slice() == json.as_bytes()
}

fn is_copied(alloc: Global, value: &Value, json: &str) -> bool {
    match copy(alloc, value) {
        Ok(copied) => is_written(alloc, &copied, json),
        Err(_) => false,
    }
}

// A line, and the canonical JSON of its value, also of a copy.
fn reads(alloc: Global, line: &str, json: &str) -> bool {
    match from_json_line(alloc, line.as_bytes()) {
        Ok(value) => is_written(alloc, &value, json) && is_copied(alloc, &value, json),
        Err(_) => false,
    }
}

// The same of a reader of lines.
fn reads_line(alloc: Global, line: &str, json: &str) -> bool {
    let mut reader = LineReader::new(alloc);
    match reader.read(alloc, line.as_bytes()) {
        Ok(value) => is_written(alloc, &value, json),
        Err(_) => false,
    }
}

fn is_refused(alloc: Global, line: &str, fault: JsonFault) -> bool {
    let mut reader = LineReader::new(alloc);
    from_json_line(alloc, line.as_bytes()).err() == Some(fault)
        && reader.read(alloc, line.as_bytes()).err() == Some(fault)
}

// A line of `depth` nested arrays.
fn nested(alloc: Global, depth: usize) -> Page {
    let mut line = Page::new(alloc);
    line.put_times("[", depth);
    line.put_times("]", depth);
    line
}

static LINES: [(&str, &str); 7] = [
    ("{\"b\":1,\"a\":[true,null]}", "{\"a\":[true,null],\"b\":1}"),
    (" {\"a\" : 1 , \"a\" : 2}\r", "{\"a\":2}"),
    ("[false,{},[],\"\"]", "[false,{},[],\"\"]"),
    (
        "[9223372036854775807,-9223372036854775808,0]",
        "[9223372036854775807,-9223372036854775808,0]",
    ),
    (
        "\"\\u0001\\b\\t\\n\\f\\r\\\"\\\\\\/\\u001f\\u007f\"",
        "\"\\u0001\\b\\t\\n\\f\\r\\\"\\\\/\\u001f\u{7f}\"",
    ),
    ("\"\\u00f1\\ud83d\\ude00\"", "\"ñ😀\""),
    (
        "{\"é\":0,\"z\":1,\"Z\":2,\"\":3}",
        "{\"\":3,\"Z\":2,\"z\":1,\"é\":0}",
    ),
];

#[test]
fn lines(rt: HostRuntime) {
    for (line, json) in &LINES {
        expect(&rt, reads(rt.alloc(), line, json), line, "");
        expect(&rt, reads_line(rt.alloc(), line, json), line, "");
    }
}

static NOT_JSON: [&str; 8] = [
    "",
    "[1",
    "{a:1}",
    "1 2",
    "01",
    "\"\\ud800\"",
    "nul",
    "1e999",
];

static NOT_WHOLE: [&str; 6] = [
    "1.5",
    "[-0]",
    "1e2",
    "9223372036854775808",
    "-9223372036854775809",
    "1.0",
];

#[test]
fn refused_lines(rt: HostRuntime) {
    let alloc = rt.alloc();
    for line in &NOT_JSON {
        expect(&rt, is_refused(alloc, line, JsonFault::NotJson), line, "");
    }
    for line in &NOT_WHOLE {
        expect(&rt, is_refused(alloc, line, JsonFault::NotWhole), line, "");
    }
}

static TOO_DEEP: [(usize, JsonFault); 3] = [
    (65, JsonFault::TooDeep),
    (127, JsonFault::TooDeep),
    (128, JsonFault::NotJson),
];

#[test]
fn depths(rt: HostRuntime) {
    let alloc = rt.alloc();
    for (depth, fault) in &TOO_DEEP {
        let line = nested(alloc, *depth);
        let is_refused = is_refused(alloc, line.as_str(), *fault);
        expect(&rt, is_refused, line.as_str(), "");
    }
    let deepest = nested(alloc, 64);
    let is_read = reads(alloc, deepest.as_str(), deepest.as_str())
        && reads_line(alloc, deepest.as_str(), deepest.as_str());
    expect(&rt, is_read, deepest.as_str(), "");
}

// Each of these is below the next.
static ASCENDING: [&str; 18] = [
    "null",
    "false",
    "true",
    "-9223372036854775808",
    "-1",
    "0",
    "7",
    "\"\"",
    "\"a\"",
    "\"a\\u0000\"",
    "\"ab\"",
    "\"b\"",
    "[]",
    "[null]",
    "[false,9]",
    "{}",
    "{\"b\":1}",
    "{\"a\":null}",
];

fn are_ordered(x: &Value, y: &Value, want: Ordering) -> bool {
    cmp(x, y) == want
        && (x == y) == (want == Ordering::Equal)
        && (x < y) == (want == Ordering::Less)
}

// Whether the value stands so to each of the lines, of which it is the one at `at`.
fn is_in_order(alloc: Global, value: &Value, at: usize) -> bool {
    let mut holds = true;
    for (k, line) in ASCENDING.iter().enumerate() {
        holds = holds && compares(alloc, value, line, at.cmp(&k));
    }
    holds
}

fn compares(alloc: Global, value: &Value, line: &str, want: Ordering) -> bool {
    match from_json_line(alloc, line.as_bytes()) {
        Ok(other) => are_ordered(value, &other, want),
        Err(_) => false,
    }
}

fn orders_at(alloc: Global, line: &str, at: usize) -> bool {
    match from_json_line(alloc, line.as_bytes()) {
        Ok(value) => is_in_order(alloc, &value, at),
        Err(_) => false,
    }
}

#[test]
fn orders(rt: HostRuntime) {
    for (i, line) in ASCENDING.iter().enumerate() {
        expect(&rt, orders_at(rt.alloc(), line, i), line, "");
    }
    order_is_total();
    text_is_read_back();
}

static UNSORTED: [&str; 4] = ["[2]", "null", "[1,5]", "null"];

fn push(alloc: Global, values: &mut Vec<Value>, line: &str) -> bool {
    match from_json_line(alloc, line.as_bytes()) {
        Ok(value) => values.push(value).is_ok(),
        Err(_) => false,
    }
}

fn insert(alloc: Global, values: &mut HashSet<Value>, line: &str) -> bool {
    match from_json_line(alloc, line.as_bytes()) {
        Ok(value) => values.insert(value).is_ok(),
        Err(_) => false,
    }
}

fn holds_json(alloc: Global, value: Option<&Value>, json: &str) -> bool {
    match value {
        Some(value) => is_written(alloc, value, json),
        None => false,
    }
}

fn are_sorted(alloc: Global, values: &mut Vec<Value>) -> bool {
    values.sort().is_ok()
        && values.len() == 4
        && holds_json(alloc, values.get(0), "null")
        && holds_json(alloc, values.get(3), "[2]")
}

#[test]
fn sorts(rt: HostRuntime) {
    let alloc = rt.alloc();
    let mut values = Vec::new(alloc);
    for line in &UNSORTED {
        expect(&rt, push(alloc, &mut values, line), line, "");
    }
    expect(&rt, are_sorted(alloc, &mut values), "sorted", "");
}

#[test]
fn hashes(rt: HostRuntime) {
    let mut distinct = HashSet::new(rt.alloc());
    for line in &UNSORTED {
        expect(&rt, insert(rt.alloc(), &mut distinct, line), line, "");
    }
    expect(&rt, distinct.len() == 3, "distinct values", "");
}

// `cases/functions.cases` has more.
static CONVERSIONS: [(&str, bool, i64); 7] = [
    ("null", false, 0),
    ("true", true, 1),
    ("-7", true, -7),
    ("\"-9223372036854775808\"", true, i64::MIN),
    ("\"9223372036854775808\"", true, 0),
    ("[[\"5\"]]", true, 5),
    ("{\"a\":3}", true, 0),
];

fn converts(alloc: Global, line: &str, truth: bool, number: i64) -> bool {
    match from_json_line(alloc, line.as_bytes()) {
        Ok(value) => {
            recall_well_formed(&value);
            truthy(&value) == truth && to_number(&value) == number
        }
        Err(_) => false,
    }
}

#[test]
fn conversions(rt: HostRuntime) {
    for (line, truth, number) in &CONVERSIONS {
        expect(&rt, converts(rt.alloc(), line, *truth, *number), line, "");
    }
}

fn is_name(name: Option<&Text>, want: &str) -> bool {
    match name {
        Some(name) => name.as_str() == want,
        None => false,
    }
}

fn is_number(value: Option<&Value>, want: i64) -> bool {
    match value {
        Some(Value::Num(number)) => *number == want,
        _ => false,
    }
}

fn push_name(alloc: Global, names: &mut Names, name: &str) -> bool {
    match Text::new(alloc, name) {
        Ok(name) => names.push(name).is_ok(),
        Err(_) => false,
    }
}

fn copies_name(alloc: Global, name: Option<&Text>, want: &str) -> bool {
    match name {
        Some(name) => is_name(name.copy(alloc).ok().as_ref(), want),
        None => false,
    }
}

#[test]
fn lists(rt: HostRuntime) {
    let alloc = rt.alloc();
    let mut names = Names::new(alloc);
    expect(&rt, push_name(alloc, &mut names, "a"), "pushed", "");
    expect(&rt, copies_name(alloc, names.get(0), "a"), "a copy", "");
    expect(&rt, names.len() == names.as_slice().len(), "its length", "");
}

#[test]
fn lists_of_numbers(rt: HostRuntime) {
    let mut numbers = CollNos::new(rt.alloc());
    expect(&rt, numbers.push(CollNo(3)).is_ok(), "pushed", "");
    let found = numbers.get(0) == Some(&CollNo(3)) && numbers.get(1).is_none();
    expect(&rt, found, "the numbers", "");
}

#[test]
fn lists_of_values(rt: HostRuntime) {
    let mut items = Items::new(rt.alloc());
    expect(&rt, items.push(Value::Num(4)).is_ok(), "pushed", "");
    let found = is_number(items.get(0), 4) && items.get(1).is_none();
    expect(
        &rt,
        found && items.as_slice().len() == items.len(),
        "items",
        "",
    );
}

// An array with room for its values beforehand.
fn takes_room(alloc: Global) -> bool {
    match Items::with_room(alloc, 1) {
        Ok(mut items) => {
            items.reserve(2).is_ok()
                && items.push(Value::Num(4)).is_ok()
                && is_number(items.get(0), 4)
                && items.len() == 1
        }
        Err(_) => false,
    }
}

#[test]
fn lists_with_room(rt: HostRuntime) {
    expect(&rt, takes_room(rt.alloc()), "with room", "");
}

fn set(alloc: Global, members: &mut Members, name: &str, number: i64) -> bool {
    match Text::new(alloc, name) {
        Ok(name) => members.set(name, Value::Num(number)).is_ok(),
        Err(_) => false,
    }
}

static MEMBERS: [(&str, i64); 4] = [("b", 1), ("a", 2), ("b", 3), ("c", 4)];

static PLACES: [(usize, &str, i64); 3] = [(0, "a", 2), (1, "b", 3), (2, "c", 4)];

fn stands_at(members: &Members, at: usize, name: &str, number: i64) -> bool {
    is_name(members.name(at), name)
        && is_number(members.value_at(at), number)
        && is_number(members.value(name), number)
}

fn ends_at(members: &Members, at: usize) -> bool {
    members.len() == at
        && members.name(at).is_none()
        && members.value_at(at).is_none()
        && members.value("d").is_none()
}

fn check_members(rt: &impl Abort, members: &Members) {
    for (at, name, number) in &PLACES {
        expect(rt, stands_at(members, *at, name, *number), name, "");
    }
    expect(rt, ends_at(members, 3), "the end", "");
}

// The attributes of the names `c`, `x` and `a`, where there is no `x`.
fn keeps_two(alloc: Global, members: &Members) -> bool {
    let mut names = Names::new(alloc);
    let named = push_name(alloc, &mut names, "c")
        && push_name(alloc, &mut names, "x")
        && push_name(alloc, &mut names, "a");
    match members.only(alloc, &names) {
        Ok(kept) => {
            named && kept.len() == 2 && stands_at(&kept, 0, "a", 2) && stands_at(&kept, 1, "c", 4)
        }
        Err(_) => false,
    }
}

#[test]
fn members(rt: HostRuntime) {
    let mut members = Members::new(rt.alloc());
    for (name, number) in &MEMBERS {
        expect(&rt, set(rt.alloc(), &mut members, name, *number), name, "");
    }
    check_members(&rt, &members);
    expect(&rt, keeps_two(rt.alloc(), &members), "only two", "");
}

fn has_text(alloc: Global, value: &Value, want: &str) -> bool {
    is_name(to_text(alloc, value).ok().as_ref(), want)
}

#[test]
fn texts_of_values(rt: HostRuntime) {
    let alloc = rt.alloc();
    let empty = Value::Object(Members::new(alloc));
    expect(&rt, has_text(alloc, &Value::Num(-7), "-7"), "-7", "");
    expect(&rt, has_text(alloc, &empty, "{}"), "{}", "");
}
