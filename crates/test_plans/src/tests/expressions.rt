// The first place of a rule in expressions of each form, worked out by hand.
use crate::tests::pages::{Page, expect_page};
use crate::tests::rules::{Never, NotFalse};
use aql_rewrite::ExprRule;
use std::alloc::Global;
use std::process::Abort;
use test_support::rewritten;

const NONE: &str = "no place";

static WITHOUT_PLACE: [(&str, &str); 8] = [
    ("1", NONE),
    ("x", NONE),
    ("-false", NONE),
    ("!true", NONE),
    ("[1, x.y[2], F()]", NONE),
    ("x[* FILTER CURRENT RETURN !CURRENT]", NONE),
    ("(RETURN !false)", NONE),
    ("F((RETURN !false))", NONE),
];

static LISTS: [(&str, &str); 8] = [
    ("!false", "true"),
    ("[!false, !false]", "[ true (Not false) ]"),
    ("[1, [x, !false], !false]", "[ 1 [ x true ] (Not false) ]"),
    ("{a: !false, [1]: !false}", "{ a: true [1]: (Not false) }"),
    ("{a: 1, [!false]: !false}", "{ a: 1 [true]: (Not false) }"),
    ("{[x]: !false, b: 2}", "{ [x]: true b: 2 }"),
    ("F(x, !false, 2)", "F( x true 2 )"),
    ("!!false", "(Not true)"),
];

static STEPS: [(&str, &str); 6] = [
    ("(!false).a[!false]", "<true.a[(Not false)]>"),
    (
        "x.a[!false].b[* FILTER !false]",
        "<x.a[true].b[* filter (Not false) return]>",
    ),
    (
        "x.a[* FILTER !false RETURN !false]",
        "<x.a[* filter true return (Not false)]>",
    ),
    (
        "x[*][* RETURN !false][!false].b",
        "<x[* filter return][* filter return true][(Not false)].b>",
    ),
    ("x[* FILTER y RETURN !false]", "<x[* filter y return true]>"),
    ("x[1][!false]", "<x[1][true]>"),
];

static OPERATIONS: [(&str, &str); 9] = [
    ("!false || x", "(true Or x)"),
    ("x && !false && !false", "(x And true And (Not false))"),
    ("!false ANY IN x", "(true Any IsIn x)"),
    ("x ALL == !false", "(x All Eq true)"),
    (
        "!false ? !false : !false",
        "(true ? (Not false) : (Not false))",
    ),
    ("x ? !false : !false", "(x ? true : (Not false))"),
    ("x ? : !false", "(x ?  : true)"),
    ("(!false)..(!false)", "(true..(Not false))"),
    ("1..(!false)", "(1..true)"),
];

static NOWHERE: [(&str, &str); 3] = [
    ("!false", NONE),
    ("[!false, !false]", NONE),
    ("x[* FILTER !false]", NONE),
];

fn check_rewritten<R: ExprRule>(rt: &impl Abort, alloc: Global, rule: &R, rows: &[(&str, &str)]) {
    for (text, tree) in rows {
        let mut whole = Page::new(alloc);
        whole.put_pair("RETURN ", text);
        expect_page(rt, &rewritten(alloc, rule, whole.as_str()), tree, text);
    }
}

#[test]
fn first_places(rt: HostRuntime) {
    let alloc = rt.alloc();
    let rule = NotFalse {};
    check_rewritten(&rt, alloc, &rule, &WITHOUT_PLACE);
    check_rewritten(&rt, alloc, &rule, &LISTS);
    check_rewritten(&rt, alloc, &rule, &STEPS);
    check_rewritten(&rt, alloc, &rule, &OPERATIONS);
    check_rewritten(&rt, alloc, &Never {}, &NOWHERE);
}

// The last part of 20,001.
#[test]
fn long_list(rt: HostRuntime) {
    let alloc = rt.alloc();
    let mut text = Page::new(alloc);
    text.put("RETURN [");
    text.put_times("1, ", 20000);
    text.put("!false]");
    let mut want = Page::new(alloc);
    want.put("[");
    want.put_times(" 1", 20000);
    want.put(" true ]");
    let found = rewritten(alloc, &NotFalse {}, text.as_str());
    expect_page(&rt, &found, want.as_str(), "a long list");
}
