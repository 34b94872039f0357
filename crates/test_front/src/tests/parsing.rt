// What `parse` gives for texts whose trees were worked out by hand from the chapter on syntax.
// `cases/` has more texts that are refused.
use crate::tests::pages::{Page, expect_page};
use aql_lex::lex;
use aql_parse::{ParseFault, parse};
use aql_tree::Query;
use std::alloc::Global;
use std::process::Abort;
use test_support::{Notation, write_query};

fn write_parsed(parsed: &Result<Query, ParseFault>, page: &mut Page) {
    match parsed {
        Ok(query) => write_query(query, Notation::Bracketed, page),
        Err(fault) => page.put_shown(fault),
    }
}

// The tree of a text, or the fault.
fn shown(alloc: Global, text: &str) -> Page {
    let mut page = Page::new(alloc);
    if text.len() > 65536 {
        page.put("a text is too long");
    } else {
        match lex(alloc, text) {
            Ok(tokens) => write_parsed(&parse(alloc, &tokens), &mut page),
            Err(_) => page.put("no tokens"),
        }
    }
    page
}

const NOT: &str = "not in the grammar";

static LITERALS: [(&str, &str); 7] = [
    ("1", "1"),
    ("'a'", "'a'"),
    ("null", "null"),
    ("TRUE", "true"),
    ("false", "false"),
    ("x", "x"),
    ("`x y`", "x y"),
];

static SUMS_AND_RANGES: [(&str, &str); 6] = [
    ("10 - 3 - 2", "(10 Sub 3 Sub 2)"),
    ("1 + 2 * 3", "(1 Add (2 Mul 3))"),
    ("(1 + 2) * 3", "((1 Add 2) Mul 3)"),
    ("1 * 2 % 3 / 4", "(1 Mul 2 Rem 3 Div 4)"),
    ("1 + 2 .. 3 + 4", "((1 Add 2)..(3 Add 4))"),
    ("1..2 < 3", "((1..2) Lt 3)"),
];

static COMPARISONS: [(&str, &str); 10] = [
    ("1 < 2 <= 3 > 4 >= 5", "(1 Lt 2 Le 3 Gt 4 Ge 5)"),
    ("1 < 2 IN x", "((1 Lt 2) IsIn x)"),
    ("1 NOT IN x", "(1 NotIn x)"),
    ("NOT 1 IN x", "((Not 1) IsIn x)"),
    ("NOT NOT x", "(Not (Not x))"),
    ("x IN y == z", "((x IsIn y) Eq z)"),
    ("1 IN [1] == true", "((1 IsIn [ 1 ]) Eq true)"),
    ("x == y != z", "(x Eq y Ne z)"),
    ("x LIKE 'a'", "(x Like 'a')"),
    ("x NOT LIKE 'a'", "(x NotLike 'a')"),
];

static QUANTIFIERS: [(&str, &str); 4] = [
    ("x ALL == y", "(x All Eq y)"),
    ("x ANY NOT IN y", "(x Any NotIn y)"),
    ("x NONE >= y", "(x None Ge y)"),
    ("x == 1 ANY == y == 2", "((x Eq 1) Any Eq (y Eq 2))"),
];

static CHOICES: [(&str, &str); 8] = [
    ("a || b && c", "(a Or (b And c))"),
    ("a OR b AND c", "(a Or (b And c))"),
    ("a && b || c", "((a And b) Or c)"),
    ("a && b ANY == c", "(a And (b Any Eq c))"),
    ("a ? b : c", "(a ? b : c)"),
    ("a ? : c", "(a ?  : c)"),
    ("a ? b ? 1 : 2 : c", "(a ? (b ? 1 : 2) : c)"),
    ("a || b ? c : d ? e : f", "((a Or b) ? c : (d ? e : f))"),
];

static SIGNS: [(&str, &str); 4] = [
    ("-1", "(Minus 1)"),
    ("- - 1", "(Minus (Minus 1))"),
    ("1 - -1", "(1 Sub (Minus 1))"),
    ("!x.y", "(Not <x.y>)"),
];

static ACCESSES: [(&str, &str); 6] = [
    ("x.y.`z z`[1]", "<x.y.z z[1]>"),
    ("x[*]", "<x[* filter return]>"),
    (
        "x[* FILTER CURRENT.a RETURN {CURRENT, b: CURRENT}]",
        "<x[* filter <@.a> return { CURRENT: @ b: @ }]>",
    ),
    ("x[* RETURN `CURRENT`]", "<x[* filter return CURRENT]>"),
    ("CURRENT", "CURRENT"),
    ("x[* RETURN current]", "<x[* filter return current]>"),
];

static ARRAYS_AND_OBJECTS: [(&str, &str); 6] = [
    ("[]", "[ ]"),
    ("[1, 2]", "[ 1 2 ]"),
    ("[1, 2,]", "[ 1 2 ]"),
    ("{}", "{ }"),
    ("{x}", "{ x: x }"),
    ("{x: 1, 'y z': 2, [z]: 3,}", "{ x: 1 y z: 2 [z]: 3 }"),
];

static CALLS: [(&str, &str); 4] = [
    ("F()", "F( )"),
    ("F(1, 2)", "F( 1 2 )"),
    ("F(FOR x IN y RETURN x)", "F( (query for x in y return x) )"),
    ("(RETURN 1)", "(query return 1)"),
];

static WHOLE_QUERIES: [(&str, &str); 7] = [
    ("", NOT),
    ("RETURN", NOT),
    ("RETURN DISTINCT x", " return distinct x"),
    ("WITH c, d RETURN 1", " with c d return 1"),
    (
        "FOR v IN 1..32 OUTBOUND s c RETURN v",
        " walk v 1..32 Outbound s c prune options return v",
    ),
    (
        "FOR v IN 1..33 OUTBOUND s c RETURN v",
        "a traversal goes too deep",
    ),
    (
        "FOR x IN (FOR y IN c RETURN y) RETURN x",
        " for x in (query for y in c return y) return x",
    ),
];

static CLAUSES: [(&str, &str); 6] = [
    ("FOR x IN c RETURN x", " for x in c return x"),
    ("FILTER 1 RETURN 1", " filter 1 return 1"),
    ("LET a = 1, b = 2 RETURN a", " let a = 1 let b = 2 return a"),
    (
        "SORT a, b DESC, c ASC RETURN 1",
        " sort a b desc c return 1",
    ),
    ("LIMIT 5 RETURN 1", " limit 0 5 return 1"),
    ("LIMIT 1, 2 RETURN 1", " limit 1 2 return 1"),
];

static GROUPINGS: [(&str, &str); 9] = [
    (
        "COLLECT WITH COUNT INTO n RETURN n",
        " collect aggregate n = LENGTH( ) return n",
    ),
    (
        "COLLECT a = x with count into n RETURN n",
        " collect a = x aggregate n = LENGTH( ) return n",
    ),
    (
        "COLLECT a = x, b = y RETURN a",
        " collect a = x b = y return a",
    ),
    ("COLLECT INTO g RETURN g", " collect into g keep return g"),
    (
        "COLLECT INTO g = 1 RETURN g",
        " collect into g 1 keep return g",
    ),
    (
        "COLLECT INTO g KEEP a, b RETURN g",
        " collect into g keep a b return g",
    ),
    (
        "COLLECT INTO KEEP keep KEEP RETURN 1",
        " collect into KEEP keep KEEP return 1",
    ),
    (
        "COLLECT a = 1 AGGREGATE s = SUM(x), n = LENGTH() INTO g RETURN 1",
        " collect a = 1 aggregate s = SUM( x ) aggregate n = LENGTH( ) into g keep return 1",
    ),
    ("COLLECT COUNT = 1 RETURN 1", " collect COUNT = 1 return 1"),
];

static WALKS: [(&str, &str); 5] = [
    (
        "FOR v IN OUTBOUND s e RETURN v",
        " walk v 1..1 Outbound s e prune options return v",
    ),
    (
        "FOR v, e, p IN 2..5 INBOUND 'a/b' c, d RETURN p",
        " walk v edge e path p 2..5 Inbound 'a/b' c d prune options return p",
    ),
    (
        "FOR v, e IN 3 ANY s c RETURN 1",
        " walk v edge e 3..3 Any s c prune options return 1",
    ),
    (
        "FOR v IN OUTBOUND s c PRUNE v.x OPTIONS {order: 'bfs'} RETURN v",
        " walk v 1..1 Outbound s c prune <v.x> options order: 'bfs' return v",
    ),
    (
        "FOR v IN OUTBOUND s PRUNE PRUNE (c) RETURN v",
        " walk v 1..1 Outbound s PRUNE prune c options return v",
    ),
];

static LOOPS: [(&str, &str); 6] = [
    (
        "FOR v IN OUTBOUND s OPTIONS OPTIONS {} RETURN v",
        " walk v 1..1 Outbound s OPTIONS prune options return v",
    ),
    (
        "FOR v IN OUTBOUND PRUNE (x) e RETURN v",
        " walk v 1..1 Outbound PRUNE( x ) e prune options return v",
    ),
    (
        "FOR x IN 1..2 ANY == y RETURN x",
        " for x in ((1..2) Any Eq y) return x",
    ),
    (
        "FOR x IN 1 ANY NOT IN y RETURN x",
        " for x in (1 Any NotIn y) return x",
    ),
    (
        "FOR v IN 1..2 ANY NOT x c RETURN v",
        " walk v 1..2 Any (Not x) c prune options return v",
    ),
    (
        "FOR v IN 1..2 ANY -x c RETURN v",
        " walk v 1..2 Any (Minus x) c prune options return v",
    ),
];

fn check_queries(rt: &impl Abort, alloc: Global, rows: &[(&str, &str)]) {
    for (text, tree) in rows {
        expect_page(rt, &shown(alloc, text), tree, text);
    }
}

#[test]
fn trees_of_queries(rt: HostRuntime) {
    let alloc = rt.alloc();
    check_queries(&rt, alloc, &WHOLE_QUERIES);
    check_queries(&rt, alloc, &CLAUSES);
    check_queries(&rt, alloc, &GROUPINGS);
    check_queries(&rt, alloc, &WALKS);
    check_queries(&rt, alloc, &LOOPS);
}

// Both after a RETURN.
fn check_expressions(rt: &impl Abort, alloc: Global, rows: &[(&str, &str)]) {
    for (text, tree) in rows {
        let mut whole = Page::new(alloc);
        whole.put_pair("RETURN ", text);
        let mut expected = Page::new(alloc);
        expected.put_pair(" return ", tree);
        expect_page(rt, &shown(alloc, whole.as_str()), expected.as_str(), text);
    }
}

#[test]
fn trees_of_expressions(rt: HostRuntime) {
    let alloc = rt.alloc();
    check_expressions(&rt, alloc, &LITERALS);
    check_expressions(&rt, alloc, &SUMS_AND_RANGES);
    check_expressions(&rt, alloc, &COMPARISONS);
    check_expressions(&rt, alloc, &QUANTIFIERS);
    check_expressions(&rt, alloc, &CHOICES);
    check_expressions(&rt, alloc, &SIGNS);
    check_expressions(&rt, alloc, &ACCESSES);
    check_expressions(&rt, alloc, &ARRAYS_AND_OBJECTS);
    check_expressions(&rt, alloc, &CALLS);
}
