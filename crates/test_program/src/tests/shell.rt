ghost use Rattle.std.specs.Prelude.{◌≤◌};

use crate::tests::catalogs::names;
use crate::tests::pages::expect;
use aql_io::{MemorySink, MemorySource};
use aql_local::Local;
use aql_top::run_shell;
use aql_value::Names;
use std::alloc::Global;
use std::process::Abort;

// The streams of a run: where each fails, and how much room the output has.
#[derive(Clone, Copy)]
pub(crate) struct Streams {
    pub(crate) source_fails: Option<u64>,
    pub(crate) out_fails: Option<u64>,
    pub(crate) err_fails: Option<u64>,
    room: usize,
}

pub(crate) const SOUND: Streams = Streams {
    source_fails: None,
    out_fails: None,
    err_fails: None,
    room: 1000,
};

// The status of a run; 255 where there is no memory for its streams.
fn run_on(
    alloc: Global,
    words: &Names,
    script: &[u8],
    source_fails: Option<u64>,
    out: &mut MemorySink,
    err: &mut MemorySink,
) -> u8 {
    match script.to_vec(alloc) {
        Ok(script) => {
            let mut source = MemorySource::new(script, 7, source_fails);
            let mut engine = Local::new(alloc);
            run_shell(alloc, words, &mut source, out, err, &mut engine)
        }
        Err(_) => 255,
    }
}

pub(crate) fn sink(alloc: Global, piece: usize, fail_at: Option<u64>, room: usize) -> MemorySink
    requires { 1 ≤ piece }
{
    let mut sink = MemorySink::new(alloc, piece, fail_at);
    let _ = sink.reserve(room);
    sink
}

// Runs a script, and compares the status, what was written and the line on the error output.
pub(crate) fn gives(
    rt: &impl Abort,
    alloc: Global,
    script: &[u8],
    streams: &Streams,
    status: u8,
    text: &[u8],
    line: &str,
) {
    let words = names(alloc, &["aql_shell"]);
    let mut out = sink(alloc, 5, streams.out_fails, streams.room);
    let mut err = sink(alloc, 3, streams.err_fails, 100);
    let found = run_on(
        alloc,
        &words,
        script,
        streams.source_fails,
        &mut out,
        &mut err,
    );
    expect(rt, found == status, "the status", line);
    expect(rt, out.written() == text, "the output", line);
    expect(
        rt,
        err.written() == line.as_bytes(),
        "the error output",
        line,
    );
}

pub(crate) const FIRST: &str =
    "%document c\n{\"_key\":\"k1\",\"a\":1,\"b\":\"x\"}\n{\"_key\":\"k2\",\"a\":2}\n%query\n\
    FOR x IN c FILTER x.a == 1 RETURN x";

pub(crate) const KEPT: &str = "{\"_id\":\"c/k1\",\"_key\":\"k1\",\"a\":1,\"b\":\"x\"}\n";

static RUNS: [(&str, u8, &str, &str); 4] = [
    (FIRST, 0, KEPT, ""),
    ("%document c\n", 3, "", "aql: script: line 1: no query\n"),
    ("%query\nRETURN y", 4, "", "aql: query: unknown name y\n"),
    (
        "%document c shards=33\n%query\nRETURN y",
        5,
        "",
        "aql: limit: line 1: shards\n",
    ),
];

// One script for each status; `cases/` has the others.
#[test]
fn runs(rt: HostRuntime) {
    for (script, status, text, line) in &RUNS {
        let script = script.as_bytes();
        gives(
            &rt,
            rt.alloc(),
            script,
            &SOUND,
            *status,
            text.as_bytes(),
            line,
        );
    }
}

#[test]
fn sources_fail(rt: HostRuntime) {
    let alloc = rt.alloc();
    for count in 0..=FIRST.len() as u64 {
        let mut streams = SOUND;
        streams.source_fails = Some(count);
        let line = "aql: read fault\n";
        gives(&rt, alloc, FIRST.as_bytes(), &streams, 6, b"", line);
    }
    let mut late = SOUND;
    late.source_fails = Some(FIRST.len() as u64 + 1);
    gives(&rt, alloc, FIRST.as_bytes(), &late, 0, KEPT.as_bytes(), "");
}

#[test]
fn outputs_fail(rt: HostRuntime) {
    let alloc = rt.alloc();
    let script = FIRST.as_bytes();
    let kept = KEPT.as_bytes();
    let line = "aql: write fault\n";
    for count in 0..kept.len() {
        let mut streams = SOUND;
        streams.out_fails = Some(count as u64);
        gives(&rt, alloc, script, &streams, 7, &kept[..count], line);
    }
    let mut late = SOUND;
    late.out_fails = Some(kept.len() as u64);
    gives(&rt, alloc, script, &late, 0, kept, "");
    let mut full = SOUND;
    full.room = 3;
    gives(&rt, alloc, script, &full, 7, b"{\"_", line);
}

static ENDS: [(&str, u8, &str, &str); 6] = [
    ("%query\nRETURN 1", 0, "1\n", ""),
    ("", 3, "", "aql: s"),
    ("%query\nRETURN y", 4, "", "aql: q"),
    ("%query\nRETURN 1.5", 4, "", "aql: q"),
    ("%document c shards=33\n%query\n", 5, "", "aql: l"),
    (
        "%edge e\n%query\nFOR v IN 33 ANY 'c/a' e RETURN v",
        5,
        "",
        "aql: l",
    ),
];

#[test]
fn error_output_fails(rt: HostRuntime) {
    let alloc = rt.alloc();
    let mut streams = SOUND;
    streams.err_fails = Some(6);
    for (script, status, text, line) in &ENDS {
        let script = script.as_bytes();
        gives(&rt, alloc, script, &streams, *status, text.as_bytes(), line);
    }
}

// Words that are refused, on an error output that fails.
#[test]
fn words_fail(rt: HostRuntime) {
    let alloc = rt.alloc();
    let words = names(alloc, &["aql_shell", "--help"]);
    let mut err = sink(alloc, 4, Some(6), 100);
    let mut out = MemorySink::new(alloc, 1, None);
    let status = run_on(alloc, &words, FIRST.as_bytes(), None, &mut out, &mut err);
    expect(&rt, status == 2, "the status", "");
    expect(
        &rt,
        err.written() == b"aql: w".as_slice(),
        "the error output",
        "",
    );
    expect(&rt, out.written().is_empty(), "the output", "");
}
