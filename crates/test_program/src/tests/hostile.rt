//! The table of hostile cases: streams that fail, scripts that are cut short or damaged, and limits.

use crate::tests::pages::expect;
use crate::tests::shell::{FIRST, KEPT, SOUND, Streams, gives};
use aql_options::generate;
use aql_value::OutOfMemory;
use std::alloc::Global;
use std::process::Abort;

// A script; `Line`, `Key` and `Nested` have one document, on line 2.
#[derive(Clone, Copy)]
enum Script {
    Text(&'static str),
    // the line of the document has so many bytes
    Line(usize),
    // the key has so many letters
    Key(usize),
    // an attribute is so many arrays, each in the one before
    Nested(usize),
    // the script that is made for 100,000 users, with one more edge before its `%index`
    OneMoreEdge,
    // the query has the byte 255
    NotUtf8,
}

// Which stream fails, once so many bytes passed.
#[derive(Clone, Copy)]
enum Fails {
    Nothing,
    Source(u64),
    Output(u64),
    Errors(u64),
}

// A script, which stream fails, the status, what is written, and the line on the error output.
type Case = (Script, Fails, u8, &'static str, &'static str);

const READ_FAULT: &str = "aql: read fault\n";

const WRITE_FAULT: &str = "aql: write fault\n";

// The first 40 of the 41 bytes that the first script gives.
const ALL_BUT_ONE: &str = "{\"_id\":\"c/k1\",\"_key\":\"k1\",\"a\":1,\"b\":\"x\"}";

// The first script has 102 bytes.
static CASES: [Case; 17] = [
    (Script::Text(FIRST), Fails::Source(0), 6, "", READ_FAULT),
    (Script::Text(FIRST), Fails::Source(102), 6, "", READ_FAULT),
    (Script::Text(FIRST), Fails::Source(103), 0, KEPT, ""),
    (Script::Text(FIRST), Fails::Output(0), 7, "", WRITE_FAULT),
    (Script::Text(FIRST), Fails::Output(1), 7, "{", WRITE_FAULT),
    (
        Script::Text(FIRST),
        Fails::Output(40),
        7,
        ALL_BUT_ONE,
        WRITE_FAULT,
    ),
    (Script::Text(FIRST), Fails::Output(41), 0, KEPT, ""),
    (
        Script::Text("%query\nRETURN y"),
        Fails::Errors(0),
        4,
        "",
        "",
    ),
    (
        Script::Line(1_048_577),
        Fails::Nothing,
        5,
        "",
        "aql: limit: line 2: line bytes\n",
    ),
    (
        Script::OneMoreEdge,
        Fails::Nothing,
        5,
        "",
        "aql: limit: line 200003: documents\n",
    ),
    (Script::Key(254), Fails::Nothing, 0, "254\n", ""),
    (
        Script::Key(255),
        Fails::Nothing,
        3,
        "",
        "aql: script: line 2: bad key\n",
    ),
    (
        Script::Nested(126),
        Fails::Nothing,
        5,
        "",
        "aql: limit: line 2: JSON depth\n",
    ),
    (
        Script::Nested(127),
        Fails::Nothing,
        3,
        "",
        "aql: script: line 2: not JSON\n",
    ),
    (
        Script::NotUtf8,
        Fails::Nothing,
        3,
        "",
        "aql: script: line 2: query not UTF-8\n",
    ),
    (
        Script::Text("%query\nRETURN [LENGTH(1..1000000), 1..1000001]"),
        Fails::Nothing,
        0,
        "[1000000,null]\n",
        "",
    ),
    (
        Script::Text("%query\nRETURN -9223372036854775807 - 1"),
        Fails::Nothing,
        0,
        "-9223372036854775808\n",
        "",
    ),
];

// The first script up to the last letter of `%query`, in pieces, and what is told of each front of it
// that ends in a piece or with it.
static PIECES: [(&str, &str); 7] = [
    ("%document ", "aql: script: line 1: bad directive\n"),
    ("c\n", "aql: script: line 1: no query\n"),
    (
        "{\"_key\":\"k1\",\"a\":1,\"b\":\"x\"",
        "aql: script: line 2: not JSON\n",
    ),
    ("}\n", "aql: script: line 2: no query\n"),
    (
        "{\"_key\":\"k2\",\"a\":2",
        "aql: script: line 3: not JSON\n",
    ),
    ("}\n", "aql: script: line 3: no query\n"),
    ("%quer", "aql: script: line 4: bad directive\n"),
];

fn streams(fails: Fails) -> Streams {
    let mut streams = SOUND;
    match fails {
        Fails::Nothing => {}
        Fails::Source(count) => streams.source_fails = Some(count),
        Fails::Output(count) => streams.out_fails = Some(count),
        Fails::Errors(count) => streams.err_fails = Some(count),
    }
    streams
}

// Texts one after the other, each so many times.
fn repeated(alloc: Global, texts: &[(&str, usize)]) -> Result<Vec<u8>, OutOfMemory> {
    let mut script = Vec::new(alloc);
    for (text, count) in texts {
        for _ in 0..*count {
            script.extend_from_slice(text.as_bytes())?;
        }
    }
    Ok(script)
}

const DOCUMENT: &str = "{\"_key\":\"k\"}";

const QUERY: &str = "\n%query\nFOR x IN c RETURN LENGTH(x._key)";

fn script_of(alloc: Global, script: Script) -> Result<Vec<u8>, OutOfMemory> {
    match script {
        Script::Text(text) => repeated(alloc, &[(text, 1)]),
        Script::Line(bytes) => {
            let spaces = bytes.saturating_sub(DOCUMENT.len());
            repeated(
                alloc,
                &[
                    ("%document c\n", 1),
                    (DOCUMENT, 1),
                    (" ", spaces),
                    (QUERY, 1),
                ],
            )
        }
        Script::Key(letters) => {
            let front = "%document c\n{\"_key\":\"";
            repeated(alloc, &[(front, 1), ("k", letters), ("\"}", 1), (QUERY, 1)])
        }
        Script::Nested(arrays) => {
            let front = "%document c\n{\"_key\":\"k\",\"v\":";
            repeated(
                alloc,
                &[
                    (front, 1),
                    ("[", arrays),
                    ("]", arrays),
                    ("}", 1),
                    (QUERY, 1),
                ],
            )
        }
        Script::OneMoreEdge => one_more_edge(alloc),
        Script::NotUtf8 => Ok(b"%document c\n%query\nRETURN \"\xff\"".to_vec(alloc)?),
    }
}

const EDGE: &str = "{\"_key\":\"e0\",\"_from\":\"users/u1\",\"_to\":\"users/u2\"}\n";

fn one_more_edge(alloc: Global) -> Result<Vec<u8>, OutOfMemory> {
    let made = generate(alloc, 100_000)?;
    match str::from_utf8(&made).unwrap_or("").split_once("%index") {
        Some((front, back)) => repeated(alloc, &[(front, 1), (EDGE, 1), ("%index", 1), (back, 1)]),
        None => repeated(alloc, &[]),
    }
}

// Each front of the first script that ends before `%query` is whole.
fn check_fronts(rt: &impl Abort, alloc: Global) {
    let mut front = Vec::new(alloc);
    gives(
        rt,
        alloc,
        b"",
        &SOUND,
        3,
        b"",
        "aql: script: line 0: no query\n",
    );
    for (piece, line) in &PIECES {
        for byte in piece.as_bytes() {
            expect(rt, front.push(*byte).is_ok(), "no memory", line);
            gives(rt, alloc, &front, &SOUND, 3, b"", line);
        }
    }
    expect(rt, front.push(b'y').is_ok(), "no memory", "");
    expect(
        rt,
        FIRST.as_bytes().starts_with(&front) && front.ends_with(b"%query"),
        "the pieces",
        "",
    );
}

#[test]
fn hostile_cases(rt: HostRuntime) {
    let alloc = rt.alloc();
    for (script, fails, status, text, line) in &CASES {
        match script_of(alloc, *script) {
            Ok(script) => gives(
                &rt,
                alloc,
                &script,
                &streams(*fails),
                *status,
                text.as_bytes(),
                line,
            ),
            Err(_) => expect(&rt, false, "no memory", line),
        }
    }
    check_fronts(&rt, alloc);
}
