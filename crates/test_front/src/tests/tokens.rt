// What `lex` gives for texts whose tokens were worked out by hand from the chapter on tokens.
use crate::tests::pages::{Page, expect_page};
use aql_lex::{LexFault, Token, TokenKind, lex, text_has_one_reading};
use std::alloc::Global;
use std::process::Abort;

fn write_kind(kind: &TokenKind, page: &mut Page) {
    match kind {
        TokenKind::Word(name) => page.put_pair("w:", name.as_str()),
        TokenKind::Quoted(name) => page.put_pair("q:", name.as_str()),
        TokenKind::Text(value) => page.put_pair("t:", value.as_str()),
        TokenKind::Keyword(keyword) => {
            page.put("k:");
            page.put_named(keyword);
        }
        TokenKind::Number(number) => {
            page.put("n:");
            page.put_shown(number);
        }
        TokenKind::Symbol(symbol) => {
            page.put("s:");
            page.put_named(symbol);
        }
    }
}

// Each token as its first byte, the byte after it, a letter for its kind, and what it holds.
fn write_tokens(tokens: &[Token], page: &mut Page) {
    for token in tokens {
        if !page.as_str().is_empty() {
            page.put(", ");
        }
        page.put_shown(&token.start);
        page.put("-");
        page.put_shown(&token.end);
        page.put(" ");
        write_kind(&token.kind, page);
    }
}

fn write_fault(fault: LexFault, page: &mut Page) {
    match fault {
        LexFault::At { place, kind } => {
            page.put_shown(&place);
            page.put(": ");
            page.put_shown(&kind);
        }
        LexFault::Memory => page.put("no memory"),
    }
}

fn write_lexed(alloc: Global, text: &str, page: &mut Page) {
    if text.len() <= 65536 {
        match lex(alloc, text) {
            Ok(tokens) => write_tokens(tokens.as_slice(), page),
            Err(fault) => write_fault(fault, page),
        }
    }
}

static WORDS: [(&str, &str); 9] = [
    ("", ""),
    (" \t\r\n", ""),
    ("a", "0-1 w:a"),
    ("_", "0-1 w:_"),
    ("a_1B9", "0-5 w:a_1B9"),
    ("count", "0-5 w:count"),
    ("Current", "0-7 w:Current"),
    (
        "fore in_ _in inn",
        "0-4 w:fore, 5-8 w:in_, 9-12 w:_in, 13-16 w:inn",
    ),
    ("a\tb\r\nc", "0-1 w:a, 2-3 w:b, 5-6 w:c"),
];

static KEYWORDS: [(&str, &str); 2] = [
    (
        "for FOR For fOr",
        "0-3 k:For, 4-7 k:For, 8-11 k:For, 12-15 k:For",
    ),
    (
        "Aggregate all All_shortest_paths and Any asc Collect desc Distinct false \
            Filter for Graph in Inbound insert Into k_paths K_shortest_paths let Like \
            limit None not Null or Outbound remove Replace return Shortest_path sort \
            True update Upsert window With",
        "0-9 k:Aggregate, 10-13 k:All, 14-32 k:AllShortestPaths, 33-36 k:And, 37-40 \
            k:Any, 41-44 k:Asc, 45-52 k:Collect, 53-57 k:Desc, 58-66 k:Distinct, 67-72 \
            k:False, 73-79 k:Filter, 80-83 k:For, 84-89 k:Graph, 90-92 k:In, 93-100 \
            k:Inbound, 101-107 k:Insert, 108-112 k:Into, 113-120 k:KPaths, 121-137 \
            k:KShortestPaths, 138-141 k:Let, 142-146 k:Like, 147-152 k:Limit, 153-157 \
            k:None, 158-161 k:Not, 162-166 k:Null, 167-169 k:Or, 170-178 k:Outbound, \
            179-185 k:Remove, 186-193 k:Replace, 194-200 k:Return, 201-214 \
            k:ShortestPath, 215-219 k:Sort, 220-224 k:True, 225-231 k:Update, 232-238 \
            k:Upsert, 239-245 k:Window, 246-250 k:With",
    ),
];

static QUOTED_NAMES: [(&str, &str); 7] = [
    ("`a b`", "0-5 q:a b"),
    ("`FOR`", "0-5 q:FOR"),
    ("`é`", "0-4 q:é"),
    ("`a\\`", "0-4 q:a\\"),
    ("`\"`", "0-3 q:\""),
    ("`a``b`", "0-3 q:a, 3-6 q:b"),
    ("`//\n`", "0-5 q://\n"),
];

static NUMBERS: [(&str, &str); 15] = [
    ("0", "0-1 n:0"),
    ("007", "0-3 n:7"),
    ("9223372036854775807", "0-19 n:9223372036854775807"),
    ("000000000000000000001", "0-21 n:1"),
    ("12ab", "0-2 n:12, 2-4 w:ab"),
    ("1.", "0-1 n:1, 1-2 s:Dot"),
    ("1.e", "0-1 n:1, 1-2 s:Dot, 2-3 w:e"),
    ("1.e5", "0-1 n:1, 1-2 s:Dot, 2-4 w:e5"),
    ("1e", "0-1 n:1, 1-2 w:e"),
    ("1e+", "0-1 n:1, 1-2 w:e, 2-3 s:Plus"),
    ("1..3", "0-1 n:1, 1-3 s:Range, 3-4 n:3"),
    ("1 .5", "0-1 n:1, 2-3 s:Dot, 3-4 n:5"),
    ("a.5", "0-1 w:a, 1-2 s:Dot, 2-3 n:5"),
    ("-1", "0-1 s:Minus, 1-2 n:1"),
    ("1_0", "0-1 n:1, 1-3 w:_0"),
];

static TEXTS: [(&str, &str); 10] = [
    ("\"\"", "0-2 t:"),
    ("''", "0-2 t:"),
    ("\"a\"", "0-3 t:a"),
    ("'a\"b'", "0-5 t:a\"b"),
    ("\"a'b\"", "0-5 t:a'b"),
    ("\"é\"", "0-4 t:é"),
    ("\"a\nb\"", "0-5 t:a\nb"),
    ("\"a\\\"b\"", "0-6 t:a\"b"),
    ("'\\''", "0-4 t:'"),
    ("\"\\\\\"", "0-4 t:\\"),
];

static ESCAPES: [(&str, &str); 10] = [
    ("\"\\/\"", "0-4 t:/"),
    ("\"\\b\\f\\n\\r\\t\"", "0-12 t:\u{8}\u{c}\n\r\t"),
    ("\"\\u00e9\"", "0-8 t:é"),
    ("\"\\u00E9x\"", "0-9 t:éx"),
    ("\"\\uD7FF\\uE000\"", "0-14 t:\u{d7ff}\u{e000}"),
    ("\"\\ud83d\\ude00\"", "0-14 t:\u{1f600}"),
    ("\"\\udbff\\udfff\"", "0-14 t:\u{10ffff}"),
    ("\"\\ud800\\udc00\"", "0-14 t:\u{10000}"),
    ("\"a\"'b'1", "0-3 t:a, 3-6 t:b, 6-7 n:1"),
    ("\"//\"", "0-4 t://"),
];

static SYMBOLS: [(&str, &str); 13] = [
    (
        "== != <= >= < > = .. . + - * / % && || ! ? :: : , ( ) [ ] { }",
        "0-2 s:Equal, 3-5 s:NotEqual, 6-8 s:LessOrEqual, 9-11 s:GreaterOrEqual, 12-13 \
            s:Less, 14-15 s:Greater, 16-17 s:Assign, 18-20 s:Range, 21-22 s:Dot, 23-24 \
            s:Plus, 25-26 s:Minus, 27-28 s:Star, 29-30 s:Slash, 31-32 s:Percent, 33-35 \
            s:And, 36-38 s:Or, 39-40 s:Not, 41-42 s:Question, 43-45 s:DoubleColon, 46-47 \
            s:Colon, 48-49 s:Comma, 50-51 s:OpenParen, 52-53 s:CloseParen, 54-55 \
            s:OpenBracket, 56-57 s:CloseBracket, 58-59 s:OpenBrace, 60-61 s:CloseBrace",
    ),
    ("a.b", "0-1 w:a, 1-2 s:Dot, 2-3 w:b"),
    ("...", "0-2 s:Range, 2-3 s:Dot"),
    ("....", "0-2 s:Range, 2-4 s:Range"),
    (":::", "0-2 s:DoubleColon, 2-3 s:Colon"),
    ("!==", "0-2 s:NotEqual, 2-3 s:Assign"),
    ("===", "0-2 s:Equal, 2-3 s:Assign"),
    ("<=>", "0-2 s:LessOrEqual, 2-3 s:Greater"),
    (">==", "0-2 s:GreaterOrEqual, 2-3 s:Assign"),
    ("=!", "0-1 s:Assign, 1-2 s:Not"),
    ("[*]", "0-1 s:OpenBracket, 1-2 s:Star, 2-3 s:CloseBracket"),
    ("1/2", "0-1 n:1, 1-2 s:Slash, 2-3 n:2"),
    ("/ /", "0-1 s:Slash, 2-3 s:Slash"),
];

static COMMENTS: [(&str, &str); 12] = [
    ("/**/", ""),
    ("//", ""),
    ("// é", ""),
    ("1//2", "0-1 n:1"),
    ("a//b\nc", "0-1 w:a, 5-6 w:c"),
    ("//a\r1", ""),
    ("/* * / */1", "9-10 n:1"),
    ("/***/2", "5-6 n:2"),
    ("/*/**/3", "6-7 n:3"),
    ("/* é */x", "8-9 w:x"),
    ("/**/ */", "5-6 s:Star, 6-7 s:Slash"),
    ("/*\n//*/4", "7-8 n:4"),
];

static QUERIES: [(&str, &str); 1] = [(
    "FOR u IN c FILTER u.age>=21 RETURN u",
    "0-3 k:For, 4-5 w:u, 6-8 k:In, 9-10 w:c, 11-17 k:Filter, 18-19 w:u, 19-20 \
            s:Dot, 20-23 w:age, 23-25 s:GreaterOrEqual, 25-27 n:21, 28-34 k:Return, \
            35-36 w:u",
)];

// `cases/refused-queries.cases` has more of them.
static FAULTS: [(&str, &str); 7] = [
    ("a ; b", "2: bad character"),
    ("x `", "2: open string"),
    ("a /*", "2: open comment"),
    ("\"é\\q\"", "3: bad escape"),
    ("\"\\ud83d\\u0041\"", "1: bad escape"),
    ("1e5", "0: fraction"),
    ("9223372036854775808", "0: number too large"),
];

fn check(rt: &impl Abort, alloc: Global, rows: &[(&str, &str)]) {
    for (text, want) in rows {
        let mut page = Page::new(alloc);
        write_lexed(alloc, text, &mut page);
        expect_page(rt, &page, want, text);
    }
}

#[test]
fn texts_give_these_tokens_and_faults(rt: HostRuntime) {
    let alloc = rt.alloc();
    check(&rt, alloc, &WORDS);
    check(&rt, alloc, &KEYWORDS);
    check(&rt, alloc, &QUOTED_NAMES);
    check(&rt, alloc, &NUMBERS);
    check(&rt, alloc, &TEXTS);
    check(&rt, alloc, &ESCAPES);
    check(&rt, alloc, &SYMBOLS);
    check(&rt, alloc, &COMMENTS);
    check(&rt, alloc, &QUERIES);
    check(&rt, alloc, &FAULTS);
    text_has_one_reading();
}
