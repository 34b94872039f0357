//! What indexes over a few documents find, worked out by hand.

use crate::tests::exprs::names;
use aql_index::{Bound, Lookup, SortedIndex, Span, spans_of};
use aql_value::{Items, Text, Value, from_json_line};
use std::alloc::Global;
use std::process::Abort;
use test_support::Page;

fn value(alloc: Global, text: &[u8]) -> Option<Value> {
    from_json_line(alloc, text).ok()
}

fn items(alloc: Global, text: &str) -> Option<Items> {
    value(alloc, text.as_bytes())?.into_items()
}

// One end of a range: nothing, or `<`, `<=`, `>`, `>=` and a value.
fn bound(alloc: Global, text: &str) -> Option<Bound> {
    match text.as_bytes() {
        [] => Some(Bound::Free),
        [_, b'=', limit @ ..] => Some(Bound::At(value(alloc, limit)?)),
        [_, limit @ ..] => Some(Bound::Past(value(alloc, limit)?)),
    }
}

fn put_place(page: &mut Page, place: Option<u32>) {
    match place {
        Some(place) => page.put_shown(&place),
        None => page.put("none"),
    }
    page.put(" ");
}

// Writes the places of the documents in a span.
fn put_span(page: &mut Page, index: &SortedIndex, span: Span) {
    for at in span.from..span.to {
        put_place(page, index.doc_at(at));
    }
}

// Four documents by `k`, and five by `a` and `b`.
static KINDS: &str = "[{},{\"k\":true},{\"k\":3},{\"k\":\"x\"}]";

static PAIRS: &str = "[{\"a\":2,\"b\":1},{\"a\":1,\"b\":2},{\"a\":1},{\"a\":1,\"b\":2},5]";

// Whether a page was written, and has this text.
fn expect(rt: &impl Abort, page: Option<Page>, want: &str, of: &str) {
    let is_given = match page {
        Some(page) => page.is_whole() && page.as_str() == want,
        None => false,
    };
    assert!(rt; is_given, "{want} of {of}");
}

// Equal values, two ends of a range, and the places of the documents that are found, in the order
// of the index.
type Range = (&'static str, &'static str, &'static str, &'static str);

static BY_KIND: [Range; 8] = [
    ("[]", "", "", "0 1 2 3 "),
    ("[]", "", "<5", "0 1 2 "),
    ("[]", ">=5", "", "3 "),
    ("[]", ">null", "<=3", "1 2 "),
    ("[]", ">=3", "<=3", "2 "),
    ("[]", ">3", "<3", ""),
    ("[]", ">3", "<=3", ""),
    ("[]", ">=5", "<=3", ""),
];

static BY_PAIR: [Range; 9] = [
    ("[]", "", "", "4 2 1 3 0 "),
    ("[]", ">=1", "<2", "2 1 3 "),
    ("[1]", "", "", "2 1 3 "),
    ("[1]", ">=2", "", "1 3 "),
    ("[1]", "", "<2", "2 "),
    ("[1]", ">null", "", "1 3 "),
    ("[1]", ">2", "", ""),
    ("[null]", "", "", "4 "),
    ("[3]", "", "", ""),
];

fn range(alloc: Global, documents: &str, attributes: &str, row: &Range) -> Option<Page> {
    let (equal, low, high, _) = *row;
    let documents = items(alloc, documents)?;
    let attributes = names(alloc, attributes.as_bytes()).ok()?;
    let equal = items(alloc, equal)?;
    let low = bound(alloc, low)?;
    let high = bound(alloc, high)?;
    if documents.len() > 100 || equal.len() >= attributes.len() {
        return None;
    }
    let index = SortedIndex::build(alloc, &documents, &attributes).ok()?;
    let mut page = Page::new(alloc);
    put_span(&mut page, &index, index.range(&equal, &low, &high));
    Some(page)
}

#[test]
fn ranges(rt: HostRuntime) {
    for row in &BY_KIND {
        expect(&rt, range(rt.alloc(), KINDS, "k", row), row.3, row.1);
    }
    for row in &BY_PAIR {
        expect(&rt, range(rt.alloc(), PAIRS, "ab", row), row.3, row.0);
    }
}

// Values for both attributes, and the places of the documents that have them.
static BOTH: [(&str, &str); 3] = [("[1,2]", "1 3 "), ("[null,null]", "4 "), ("[1,1]", "")];

fn equal_in_both(alloc: Global, values: &str) -> Option<Page> {
    let documents = items(alloc, PAIRS)?;
    let attributes = names(alloc, b"ab").ok()?;
    let values = items(alloc, values)?;
    if documents.len() > 100 || values.len() > attributes.len() {
        return None;
    }
    let index = SortedIndex::build(alloc, &documents, &attributes).ok()?;
    let mut page = Page::new(alloc);
    let span = index.range(&values, &Bound::Free, &Bound::Free);
    put_span(&mut page, &index, span);
    Some(page)
}

#[test]
fn equal_values(rt: HostRuntime) {
    for (values, want) in &BOTH {
        expect(&rt, equal_in_both(rt.alloc(), values), want, values);
    }
}

// Equal values, an array, and the places of the documents in each span.
type Spread = (&'static str, &'static str, &'static str);

static KIND_SPANS: [Spread; 4] = [
    ("[]", "[3,true,3,9,\"x\",3]", "1 |2 |3 |"),
    ("[]", "[null]", "0 |"),
    ("[]", "[]", ""),
    ("[]", "3", ""),
];

static PAIR_SPANS: [Spread; 4] = [
    ("[]", "[1,1]", "2 1 3 |"),
    ("[]", "[2,1]", "2 1 3 |0 |"),
    ("[1]", "[2,null,7,2]", "2 |1 3 |"),
    ("[3]", "[2,null]", ""),
];

fn spans(alloc: Global, documents: &str, attributes: &str, row: &Spread) -> Option<Page> {
    let documents = items(alloc, documents)?;
    let attributes = names(alloc, attributes.as_bytes()).ok()?;
    let equal = items(alloc, row.0)?;
    let list = value(alloc, row.1.as_bytes())?;
    if documents.len() > 100 || equal.len() >= attributes.len() {
        return None;
    }
    let index = SortedIndex::build(alloc, &documents, &attributes).ok()?;
    let mut page = Page::new(alloc);
    let spans = spans_of(alloc, &index, &equal, &list).ok()?;
    for span in &spans {
        put_span(&mut page, &index, *span);
        page.put("|");
    }
    Some(page)
}

#[test]
fn spans_of_arrays(rt: HostRuntime) {
    for row in &KIND_SPANS {
        expect(&rt, spans(rt.alloc(), KINDS, "k", row), row.2, row.1);
    }
    for row in &PAIR_SPANS {
        expect(&rt, spans(rt.alloc(), PAIRS, "ab", row), row.2, row.1);
    }
}

// A value of `k`, and the places of the documents that have it.
static FINDS: [(&str, &str); 4] = [("null", "0 "), ("3", "2 "), ("\"x\"", "3 "), ("9", "")];

fn find(alloc: Global, wanted: &str) -> Option<Page> {
    let documents = items(alloc, KINDS)?;
    let wanted = value(alloc, wanted.as_bytes())?;
    if documents.len() > 100 {
        return None;
    }
    let lookup = Lookup::build(alloc, &documents, &Text::new(alloc, "k").ok()?).ok()?;
    let mut page = Page::new(alloc);
    let span = lookup.find(&wanted);
    for at in span.from..span.to {
        put_place(&mut page, lookup.doc_at(at));
    }
    Some(page)
}

#[test]
fn finds(rt: HostRuntime) {
    for (wanted, want) in &FINDS {
        expect(&rt, find(rt.alloc(), wanted), want, wanted);
    }
}

// Attributes, how many of them are looked at, and the size of the largest group.
type Width = (&'static str, u32, u64);

static PAIR_WIDTHS: [Width; 6] = [
    ("ab", 0, 5),
    ("ab", 1, 3),
    ("ab", 2, 2),
    ("ab", 3, 2),
    ("ba", 1, 2),
    ("k", 1, 5),
];

static KIND_WIDTHS: [Width; 2] = [("k", 0, 4), ("k", 1, 1)];

// Three documents of which two are equal in `a`, two in `b`, and none in both.
static THREE: &str = "[{\"a\":1,\"b\":1},{\"a\":1,\"b\":2},{\"a\":2,\"b\":1}]";

static THREE_WIDTHS: [Width; 3] = [("ab", 0, 3), ("ab", 1, 2), ("ab", 2, 1)];

fn widest(alloc: Global, documents: &str, attributes: &str, width: u32) -> Option<u64> {
    let documents = items(alloc, documents)?;
    let attributes = names(alloc, attributes.as_bytes()).ok()?;
    if documents.len() > 100 {
        return None;
    }
    let index = SortedIndex::build(alloc, &documents, &attributes).ok()?;
    Some(index.widest(width))
}

fn expect_widths(rt: &impl Abort, alloc: Global, documents: &str, rows: &[Width]) {
    for (attributes, width, want) in rows {
        let found = widest(alloc, documents, attributes, *width);
        assert!(rt; found == Some(*want), "{width} of {attributes}");
    }
}

#[test]
fn widths(rt: HostRuntime) {
    expect_widths(&rt, rt.alloc(), PAIRS, &PAIR_WIDTHS);
    expect_widths(&rt, rt.alloc(), KINDS, &KIND_WIDTHS);
    expect_widths(&rt, rt.alloc(), THREE, &THREE_WIDTHS);
    expect_widths(&rt, rt.alloc(), "[]", &[("a", 0, 0), ("a", 1, 0)]);
}
