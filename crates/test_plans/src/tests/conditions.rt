// The rules on expressions at their first places, worked out by hand.
use crate::tests::checked::{NONE, expect_page};
use aql_rewrite::ExprRule;
use aql_rules_calc::{ReplaceOrWithIn, SimplifyConditions};
use std::alloc::Global;
use std::process::Abort;
use test_support::{Page, rewritten};

fn check_rewritten<R: ExprRule>(rt: &impl Abort, alloc: Global, rule: &R, rows: &[(&str, &str)]) {
    for (text, want) in rows {
        let mut whole = Page::new(alloc);
        whole.put_pair("RETURN ", text);
        expect_page(rt, &rewritten(alloc, rule, whole.as_str()), want, text);
    }
}

static TO_LITERALS: [(&str, &str); 10] = [
    ("1 + 2", "3"),
    ("null == null", "true"),
    ("[1].a", "null"),
    ("LENGTH([1, 2])", "2"),
    ("true ? 1 : 2", "1"),
    ("x && 1 < 2", "(x And true)"),
    ("[!false, !false]", "[ true (Not false) ]"),
    ("CONCAT('a', 1 + 1)", "CONCAT( 'a' 2 )"),
    ("(1 + 2) * (3 + 4)", "(3 Mul (3 Add 4))"),
    (
        "x[* FILTER 1 < 2 RETURN CURRENT]",
        "<x[* filter true return @]>",
    ),
];

static TO_MEMBERS: [(&str, &str); 9] = [
    ("{a: 1}.a", "1"),
    ("{a: x}.a", "x"),
    ("{a: x, b: y}.a", "x"),
    ("{a: x, a: y}.a", "y"),
    ("{a: x}.b", "null"),
    ("{a: x}.a.b", "<x.b>"),
    ("{a: x}.a[y].b", "<x[y].b>"),
    ("{a: [1]}.a", "[ 1 ]"),
    ("{a: 1 + 1, b: x}.b", "<{ a: 2 b: x }.b>"),
];

static NOT_SIMPLIFIED: [(&str, &str); 10] = [
    ("1", NONE),
    ("[1, 2]", NONE),
    ("x + 1", NONE),
    ("x[* RETURN CURRENT]", NONE),
    ("CONCAT('a', 'b')", NONE),
    ("(RETURN 1 + 2)", NONE),
    ("{a: x, [y]: 1}.a", NONE),
    ("{a: x}['a']", NONE),
    ("{a: x}[*].a", NONE),
    ("y.a", NONE),
];

static TO_IN: [(&str, &str); 6] = [
    ("x == 1 || x == 2", "(x IsIn [ 1 2 ])"),
    (
        "x.a == 1 || x.a IN [2, 3] || x.a == 4",
        "(<x.a> IsIn [ 1 2 3 4 ])",
    ),
    ("x IN [1] || x IN [1]", "(x IsIn [ 1 1 ])"),
    ("x == [1] || x == 1 + 1", "(x IsIn [ [ 1 ] (1 Add 1) ])"),
    (
        "(x == 1 || x == 2) && (y == 1 || y == 2)",
        "((x IsIn [ 1 2 ]) And ((y Eq 1) Or (y Eq 2)))",
    ),
    (
        "x == 1 || (x == 2 || x == 3)",
        "((x Eq 1) Or (x IsIn [ 2 3 ]))",
    ),
];

static NO_IN: [(&str, &str); 12] = [
    ("x == 1", NONE),
    ("x == 1 && x == 2", NONE),
    ("x == 1 || x", NONE),
    ("x == 1 || y == 2", NONE),
    ("x == 1 || x == 2 || x.a == 3", NONE),
    ("x == 1 || x != 2", NONE),
    ("x == 1 || x == y", NONE),
    ("x == 1 || x IN y", NONE),
    ("x == 1 || x IN []", NONE),
    ("x == 1 || x IN [2, y]", NONE),
    ("1 == x || 2 == x", NONE),
    ("1 == 2 || 1 == 3", NONE),
];

#[test]
fn simplify_conditions(rt: HostRuntime) {
    let alloc = rt.alloc();
    check_rewritten(&rt, alloc, &SimplifyConditions, &TO_LITERALS);
    check_rewritten(&rt, alloc, &SimplifyConditions, &TO_MEMBERS);
    check_rewritten(&rt, alloc, &SimplifyConditions, &NOT_SIMPLIFIED);
}

#[test]
fn replace_or_with_in(rt: HostRuntime) {
    let alloc = rt.alloc();
    check_rewritten(&rt, alloc, &ReplaceOrWithIn, &TO_IN);
    check_rewritten(&rt, alloc, &ReplaceOrWithIn, &NO_IN);
}
