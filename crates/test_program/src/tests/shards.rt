//! Which shards values belong to, and on which servers shards are, worked out by hand.

use crate::tests::catalogs::declare;
use crate::tests::pages::{Page, expect, expect_page};
use aql_doc::Catalog;
use aql_shard::{server_of, shard_of, split};
use aql_value::{CollNo, Items, from_json_line};
use std::alloc::Global;

fn items(alloc: Global, text: &str) -> Option<Items> {
    from_json_line(alloc, text.as_bytes()).ok()?.into_items()
}

// Values of the shard keys, and of one shard up to four the one that has them.
static VALUES: [(&str, &str); 6] = [
    ("[\"a\"]", "0 0 2 2 "),
    ("[\"b\"]", "0 1 1 3 "),
    ("[null]", "0 0 0 2 "),
    ("[1]", "0 0 1 0 "),
    ("[\"x\",null]", "0 0 0 2 "),
    ("[[],{}]", "0 1 0 1 "),
];

fn shards(alloc: Global, values: &str) -> Page {
    let mut page = Page::new(alloc);
    let Some(values) = items(alloc, values) else {
        return page;
    };
    for shards in 1..5 {
        match shard_of(alloc, &values, shards) {
            Ok(shard) => page.put_shown(&shard),
            Err(_) => page.put("memory"),
        }
        page.put(" ");
    }
    page
}

#[test]
fn shards_of_values(rt: HostRuntime) {
    for (values, want) in &VALUES {
        expect_page(&rt, &shards(rt.alloc(), values), want, values);
    }
}

// The shards that a collection is declared with, the servers, and how many shards it has there, and
// one that is not declared.
static SHARDS: [(u32, u32, &str); 5] = [
    (3, 0, "1 0"),
    (1, 2, "1 0"),
    (3, 1, "3 0"),
    (3, 16, "3 0"),
    (32, 2, "32 0"),
];

static LINES: [&str; 4] = [
    "{\"_key\":\"a\"}",
    "{\"_key\":\"b\"}",
    "{\"_key\":\"c\",\"n\":1}",
    "{\"_key\":\"d\"}",
];

// A collection of these documents, with so many shards.
pub(crate) fn catalog(alloc: Global, shards: u32) -> Option<Catalog> {
    let mut catalog = Catalog::new(alloc);
    declare(alloc, &mut catalog, "c", false, shards, &["_key"]).ok()?;
    for line in &LINES {
        let document = from_json_line(alloc, line.as_bytes()).ok()?;
        if catalog.len() != 1 {
            return None;
        }
        catalog.add_document(alloc, CollNo(0), document).ok()?;
    }
    Some(catalog)
}

fn split_over(alloc: Global, shards: u32, servers: u32) -> Page {
    let mut page = Page::new(alloc);
    let Some(catalog) = catalog(alloc, shards) else {
        return page;
    };
    if servers > 16 {
        return page;
    }
    match split(alloc, catalog, servers) {
        Ok(servers) => {
            page.put_shown(&servers.shards(CollNo(0)));
            page.put(" ");
            page.put_shown(&servers.shards(CollNo(1)));
        }
        Err(_) => page.put("memory"),
    }
    page
}

#[test]
fn shards_of_collections(rt: HostRuntime) {
    for (shards, servers, want) in &SHARDS {
        expect_page(&rt, &split_over(rt.alloc(), *shards, *servers), want, want);
    }
}

// A collection, a shard and a number of servers, and the server that has the shard.
static SERVERS: [(u32, u32, u32, u32); 4] = [
    (0, 0, 1, 0),
    (0, 2, 3, 2),
    (2, 2, 3, 1),
    (63, 31, 16, 14),
];

#[test]
fn servers_of_shards(rt: HostRuntime) {
    for (collection, shard, servers, want) in &SERVERS {
        let holds = *servers > 0 && server_of(CollNo(*collection), *shard, *servers) == *want;
        expect(&rt, holds, "a shard", "");
    }
}
