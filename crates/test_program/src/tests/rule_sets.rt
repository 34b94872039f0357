//! Whatever rules are chosen, a query whose order is fixed prints the same lines.

use crate::tests::catalogs::names;
use crate::tests::pages::expect;
use crate::tests::shell::sink;
use aql_io::MemorySource;
use aql_local::Local;
use aql_plan::RuleName;
use aql_top::run_shell;
use std::alloc::Global;
use std::fmt::Write;
use std::process::Abort;

// The rules on filters, calculations and conditions.
static TURNED: [RuleName; 11] = [
    RuleName::SimplifyConditions,
    RuleName::MoveCalculationsUp,
    RuleName::MoveFiltersUp,
    RuleName::RemoveRedundantCalculations,
    RuleName::RemoveUnnecessaryFilters,
    RuleName::RemoveUnnecessaryCalculations,
    RuleName::ReplaceOrWithIn,
    RuleName::FuseFilters,
    RuleName::OptimizeTraversals,
    RuleName::MoveFiltersIntoEnumerate,
    RuleName::ReduceExtractionToProjection,
];

// The other rules that have a pass.
static OTHERS: [RuleName; 8] = [
    RuleName::InlineSubqueries,
    RuleName::InterchangeAdjacentEnumerations,
    RuleName::RemoveRedundantSorts,
    RuleName::RemoveCollectVariables,
    RuleName::UseIndexes,
    RuleName::RemoveFilterCoveredByIndex,
    RuleName::UseIndexForSort,
    RuleName::SortLimit,
];

const KEYS: &str =
    "%document c\n{\"_key\":\"k1\",\"a\":1,\"b\":\"x\"}\n{\"_key\":\"k2\",\"a\":2}\n%query\n";

const PEOPLE: &str = "%document users shards=2\n\
    {\"_key\":\"1001\",\"_id\":\"users/1001\",\"_rev\":\"_a\",\"name\":\"Ann\",\"age\":31}\n\
    {\"_key\":\"1002\",\"_id\":\"users/1002\",\"_rev\":\"_a\",\"name\":\"Bob\",\"age\":25}\n\
    {\"_key\":\"1003\",\"_id\":\"users/1003\",\"_rev\":\"_a\",\"name\":\"Cyd\",\"age\":40}\n\
    %edge knows\n\
    {\"_key\":\"1\",\"_id\":\"knows/1\",\
    \"_from\":\"users/1001\",\"_to\":\"users/1002\",\"_rev\":\"_b\"}\n\
    {\"_key\":\"2\",\"_id\":\"knows/2\",\
    \"_from\":\"users/1001\",\"_to\":\"users/1003\",\"_rev\":\"_b\"}\n\
    %index users age\n%index users name\n%query\n";

// Lines of a script, its query, and what it prints.
static ROWS: [(&str, &str, &str); 6] = [
    (
        KEYS,
        "FOR x IN c FILTER x.a == 1 RETURN x",
        "{\"_id\":\"c/k1\",\"_key\":\"k1\",\"a\":1,\"b\":\"x\"}\n",
    ),
    (
        "%document c\n{\"_key\":\"p\"}\n%query\n",
        "LET x = (FOR a IN c LIMIT 1 RETURN a._key) FOR i IN 1..3 RETURN x[0]",
        "\"p\"\n\"p\"\n\"p\"\n",
    ),
    (KEYS, "FOR x IN c LIMIT 2, 9223372036854775807 RETURN x", ""),
    (
        PEOPLE,
        "FOR u IN users FILTER u.age > 30 && u.name == \"Ann\" FOR f IN 1..1 OUTBOUND u knows \
        SORT f.name RETURN {from: u.name, to: f.name}",
        "{\"from\":\"Ann\",\"to\":\"Bob\"}\n{\"from\":\"Ann\",\"to\":\"Cyd\"}\n",
    ),
    (
        KEYS,
        "FOR x IN c LET u = x.a + 1 LET v = x.a + 1 LET w = 5 FILTER 1 + 1 == 2 \
        FILTER x.a == 1 || x.a == 2 FOR y IN [x.b] FILTER v > 1 SORT v RETURN [u, v, y]",
        "[2,2,\"x\"]\n[3,3,null]\n",
    ),
    (
        PEOPLE,
        "FOR u IN users FOR f, e, p IN 1..1 OUTBOUND u knows FILTER f.age > 1 + 24 FILTER true \
        LET n = f.name LET m = f.name SORT n RETURN [n, m, e._key]",
        "[\"Cyd\",\"Cyd\",\"2\"]\n",
    ),
];

// Runs a script by a list of rules, and compares what it prints.
fn prints(rt: &impl Abort, alloc: Global, rules: &str, row: &(&str, &str, &str)) {
    let (lines, query, text) = *row;
    let words = names(alloc, &["aql_shell", "--rules", rules]);
    let mut out = sink(alloc, 1000, None, 1000);
    let mut err = sink(alloc, 1000, None, 100);
    let mut script = lines.as_bytes().to_vec(alloc).unwrap_or(Vec::new(alloc));
    let added = script.extend_from_slice(query.as_bytes());
    expect(rt, added.is_ok(), "memory for", query);
    let mut source = MemorySource::new(script, 1000, None);
    let mut engine = Local::new(alloc);
    let status = run_shell(alloc, &words, &mut source, &mut out, &mut err, &mut engine);
    expect(rt, status == 0, "the status of", query);
    expect(rt, out.written() == text.as_bytes(), "the lines of", query);
}

// The names of these rules, with commas between them.
fn list(alloc: Global, rules: &[RuleName]) -> String {
    let mut text = String::new(alloc);
    for rule in rules {
        let before = if text.is_empty() { "" } else { "," };
        let _ = write!(text, "{before}{rule}");
    }
    text
}

// The rules of the eleven whose bits are set, and one more.
fn turned(alloc: Global, bits: u32, more: Option<RuleName>) -> String {
    let mut rules = Vec::new(alloc);
    let mut rest = bits;
    for rule in &TURNED {
        if rest % 2 == 1 {
            let _ = rules.push(*rule);
        }
        rest /= 2;
    }
    if let Some(rule) = more {
        let _ = rules.push(rule);
    }
    list(alloc, &rules)
}

#[test]
fn any_rules_give_the_same_lines(rt: HostRuntime) {
    let alloc = rt.alloc();
    for row in &ROWS {
        prints(&rt, alloc, "none", row);
        for bits in 1..2048 {
            prints(&rt, alloc, &turned(alloc, bits, None), row);
        }
        for rule in &OTHERS {
            prints(&rt, alloc, &turned(alloc, 0, Some(*rule)), row);
            prints(&rt, alloc, &turned(alloc, 2047, Some(*rule)), row);
        }
        prints(&rt, alloc, "all", row);
    }
}
