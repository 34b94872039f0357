// What `read_query` gives for texts that were judged by hand from the chapter on names and scopes.
use crate::tests::catalogs::declare;
use crate::tests::pages::{Page, expect, expect_page};
use crate::tests::scoping_rows::{
    COLLECTION_NAMES, COLLECTS, COLLECTS_WITHIN, PLAIN, REFUSED, SEVERAL_SUBQUERIES, SUBQUERIES,
    WALKS,
};
use aql_doc::Catalog;
use aql_scope::Scoped;
use aql_top::{query_fault_text, read_query};
use aql_value::{OutOfMemory, Text};
use std::alloc::Global;
use std::process::Abort;
use test_support::{Notation, write_names, write_query};

static DECLARED: [(&str, bool); 3] = [("c", false), ("d", false), ("e", true)];

// Document collections c and d, and an edge collection e.
fn collections(rt: &impl Abort, alloc: Global) -> Catalog {
    let mut catalog = Catalog::new(alloc);
    for (name, edge) in &DECLARED {
        let declared = declare(alloc, &mut catalog, name, *edge, 1, &["_key"]);
        expect(rt, declared.is_ok(), name, "");
    }
    catalog
}

// The query, and after a bar the names of its variables.
fn write_scoped(scoped: &Scoped, page: &mut Page) {
    write_query(&scoped.query, Notation::Spelled, page);
    page.put(" |");
    write_names(scoped.names.as_slice(), page);
}

fn write_fault(text: &Result<Text, OutOfMemory>, page: &mut Page) {
    match text {
        Ok(text) => page.put(text.as_str()),
        Err(_) => page.put("no memory"),
    }
}

// The scoped query of a text, or the text of its fault.
fn shown(alloc: Global, text: &str, catalog: &Catalog) -> Page {
    let mut page = Page::new(alloc);
    match read_query(alloc, text, catalog) {
        Ok(scoped) => write_scoped(&scoped, &mut page),
        Err(fault) => write_fault(&query_fault_text(alloc, &fault), &mut page),
    }
    page
}

// Compares what is shown for each text of a table.
fn judge(rt: &impl Abort, alloc: Global, rows: &[(&str, &str)]) {
    let catalog = collections(rt, alloc);
    for (text, want) in rows {
        expect_page(rt, &shown(alloc, text, &catalog), want, text);
    }
}

#[test]
fn scoped(rt: HostRuntime) {
    let alloc = rt.alloc();
    judge(&rt, alloc, &PLAIN);
    judge(&rt, alloc, &COLLECTION_NAMES);
    judge(&rt, alloc, &SUBQUERIES);
    judge(&rt, alloc, &SEVERAL_SUBQUERIES);
    judge(&rt, alloc, &WALKS);
    judge(&rt, alloc, &COLLECTS);
    judge(&rt, alloc, &COLLECTS_WITHIN);
    judge(&rt, alloc, &REFUSED);
}
