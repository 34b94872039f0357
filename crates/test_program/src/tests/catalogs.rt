use crate::tests::pages::expect;
use aql_doc::{Catalog, CatalogFault, CollInfo, DocFault};
use aql_value::{CollNo, DocNo, Names, Text, Value, from_json_line, write_json};
use std::alloc::Global;
use std::process::Abort;

fn push(alloc: Global, names: &mut Names, name: &str) -> bool {
    match Text::new(alloc, name) {
        Ok(name) => names.push(name).is_ok(),
        Err(_) => false,
    }
}

// A list of names; none where memory is short.
pub fn names(alloc: Global, list: &[&str]) -> Names {
    let mut names = Names::new(alloc);
    for name in list {
        if !push(alloc, &mut names, name) {
            return Names::new(alloc);
        }
    }
    names
}

// Declares a collection with these keys.
pub fn declare(
    alloc: Global,
    catalog: &mut Catalog,
    name: &str,
    edge: bool,
    shards: u32,
    keys: &[&str],
) -> Result<CollNo, CatalogFault> {
    let keys = names(alloc, keys);
    if keys.len() < 1 || keys.len() > 8 || shards < 1 || shards > 32 {
        return Err(CatalogFault::Memory);
    }
    match Text::new(alloc, name) {
        Ok(name) => catalog.declare(alloc, name, edge, shards, keys),
        Err(_) => Err(CatalogFault::Memory),
    }
}

fn is_indexed(alloc: Global, catalog: &mut Catalog, list: &[&str]) -> bool {
    let attributes = names(alloc, list);
    if attributes.len() < 1 || attributes.len() > 8 || catalog.len() != 2 {
        return false;
    }
    catalog.add_index(CollNo(0), attributes).is_ok()
}

// Whether a collection is declared so, with so many shard keys and indexes.
pub fn is_info(
    info: Option<&CollInfo>,
    edge: bool,
    shards: u32,
    keys: usize,
    indexes: usize,
) -> bool {
    match info {
        Some(info) => {
            info.edge == edge
                && info.shards == shards
                && info.keys.len() == keys
                && info.indexes.len() == indexes
        }
        None => false,
    }
}

static DECLARED: [(&str, bool, u32, &[&str], Result<CollNo, CatalogFault>); 3] = [
    ("c", false, 1, &["_key"], Ok(CollNo(0))),
    ("e", true, 32, &["_key", "g"], Ok(CollNo(1))),
    ("c", true, 1, &["_key"], Err(CatalogFault::Twice)),
];

static INDEXED: [&[&str]; 4] = [&["a"], &["a", "b"], &["a"], &["b", "a"]];

fn check_declared(rt: &impl Abort, alloc: Global, catalog: &mut Catalog) {
    for (name, edge, shards, keys, want) in &DECLARED {
        let declared = declare(alloc, catalog, name, *edge, *shards, keys);
        expect(rt, declared == *want, name, "");
    }
}

fn check_indexed(rt: &impl Abort, alloc: Global, catalog: &mut Catalog) {
    for list in &INDEXED {
        expect(rt, is_indexed(alloc, catalog, list), "indexed", "");
    }
}

fn are_declared(catalog: &Catalog) -> bool {
    catalog.len() == 2
        && catalog.find("e") == Some(CollNo(1))
        && catalog.find("d").is_none()
        && is_info(catalog.info(CollNo(0)), false, 1, 1, 3)
        && catalog.info(CollNo(2)).is_none()
        && catalog.documents(CollNo(2)).is_none()
}

#[test]
fn declarations(rt: HostRuntime) {
    let alloc = rt.alloc();
    let mut catalog = Catalog::new(alloc);
    check_declared(&rt, alloc, &mut catalog);
    check_indexed(&rt, alloc, &mut catalog);
    expect(&rt, are_declared(&catalog), "collections", "");
}

fn fault_name(fault: &DocFault) -> &'static str {
    match fault {
        DocFault::NotObject => "not an object",
        DocFault::BadKey => "bad key",
        DocFault::IdMismatch => "id mismatch",
        DocFault::BadEdge => "bad edge",
        DocFault::DuplicateKey { .. } => "duplicate key",
        DocFault::TooMany => "too many",
        DocFault::Memory => "memory",
    }
}

// What a document of the collection 0 is refused with, or nothing where it is added.
fn refusal(alloc: Global, catalog: &mut Catalog, line: &str) -> &'static str {
    if catalog.len() != 1 {
        return "no collection";
    }
    match from_json_line(alloc, line.as_bytes()) {
        Ok(value) => match &catalog.add_document(alloc, CollNo(0), value) {
            Ok(_) => "",
            Err(fault) => fault_name(fault),
        },
        Err(_) => "not JSON",
    }
}

fn is_written(alloc: Global, value: &Value, json: &str) -> bool {
    let mut out = Vec::new(alloc);
    write_json(value, &mut out).is_ok() && out.as_slice() == json.as_bytes()
}

// Whether a document has this text.
pub fn is_held(alloc: Global, catalog: &Catalog, coll: u32, doc: u32, json: &str) -> bool {
    match catalog.document(CollNo(coll), DocNo(doc)) {
        Some(document) => is_written(alloc, document, json),
        None => false,
    }
}

fn holds(catalog: &Catalog, coll: u32, count: usize) -> bool {
    match catalog.documents(CollNo(coll)) {
        Some(documents) => {
            documents.len() == count && catalog.count(CollNo(coll)) == count as u64
        }
        None => false,
    }
}

static DOCUMENTS: [(&str, &str); 11] = [
    ("{\"_key\":\"1\",\"_from\":\"a/b\",\"_to\":\"c/d\"}", ""),
    ("7", "not an object"),
    ("{\"_key\":\"a b\"}", "bad key"),
    ("{}", "bad key"),
    ("{\"_key\":\"1\",\"_id\":\"e/2\"}", "id mismatch"),
    ("{\"_id\":\"e/\"}", "id mismatch"),
    ("{\"_id\":7}", "id mismatch"),
    (
        "{\"_key\":\"1\",\"_from\":\"a/b\",\"_to\":\"/d\"}",
        "bad edge",
    ),
    (
        "{\"_key\":\"1\",\"_from\":\"a/\",\"_to\":\"c/d\"}",
        "bad edge",
    ),
    (
        "{\"_key\":\"1\",\"_from\":\"a/b\",\"_to\":\"c/d\"}",
        "duplicate key",
    ),
    ("{\"_id\":\"e/2\",\"_from\":\"a/b\",\"_to\":\"c/d\"}", ""),
];

fn check_documents(rt: &impl Abort, alloc: Global, catalog: &mut Catalog) {
    for (line, wanted) in &DOCUMENTS {
        expect(rt, refusal(alloc, catalog, line) == *wanted, line, "");
    }
}

#[test]
fn documents(rt: HostRuntime) {
    let alloc = rt.alloc();
    let mut catalog = Catalog::new(alloc);
    let e = declare(alloc, &mut catalog, "e", true, 1, &["_key"]);
    expect(&rt, e == Ok(CollNo(0)), "e", "");
    check_documents(&rt, alloc, &mut catalog);
    expect(&rt, are_held(alloc, &catalog), "two documents", "");
}

fn are_held(alloc: Global, catalog: &Catalog) -> bool {
    let json = "{\"_from\":\"a/b\",\"_id\":\"e/2\",\"_key\":\"2\",\"_to\":\"c/d\"}";
    holds(catalog, 0, 2)
        && catalog.count(CollNo(1)) == 0
        && is_held(alloc, catalog, 0, 1, json)
        && catalog.document(CollNo(0), DocNo(2)).is_none()
}
