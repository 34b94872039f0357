use crate::tests::catalogs::{is_held, is_info};
use crate::tests::pages::expect;
use aql_io::MemorySource;
use aql_script::{LineKind, LoadFault, Loaded, load};
use aql_value::CollNo;
use std::alloc::Global;
use std::process::Abort;

// What is loaded from a source that hands out so many bytes at once.
fn loaded(
    alloc: Global,
    script: &[u8],
    piece: usize,
    fail_at: Option<u64>,
) -> Result<Loaded, LoadFault> {
    if piece < 1 {
        return Err(LoadFault::Memory);
    }
    match script.to_vec(alloc) {
        Ok(bytes) => load(alloc, &mut MemorySource::new(bytes, piece, fail_at)),
        Err(_) => Err(LoadFault::Memory),
    }
}

static EXPORTED: [(u32, u32, &str); 3] = [
    (
        0,
        0,
        "{\"_id\":\"users/1001\",\"_key\":\"1001\",\"_rev\":\"_a\",\"age\":31,\"name\":\"Ann\"}",
    ),
    (
        0,
        1,
        "{\"_id\":\"users/1002\",\"_key\":\"1002\",\"age\":25,\"name\":\"Bob\"}",
    ),
    (
        1,
        0,
        "{\"_from\":\"users/1001\",\"_id\":\"knows/1\",\"_key\":\"1\",\"_to\":\"users/1002\"}",
    ),
];

fn is_exported(script: &Loaded) -> bool {
    let catalog = &script.catalog;
    script.query.as_str() == "RETURN 1\r\n"
        && catalog.len() == 2
        && catalog.find("users") == Some(CollNo(0))
        && catalog.count(CollNo(0)) == 2
        && catalog.count(CollNo(2)) == 0
        && is_info(catalog.info(CollNo(0)), false, 2, 1, 2)
        && is_info(catalog.info(CollNo(1)), true, 4, 2, 0)
}

fn check_export(rt: &impl Abort, alloc: Global, script: &Loaded) {
    expect(rt, is_exported(script), "collections", "");
    for (coll, doc, json) in &EXPORTED {
        expect(
            rt,
            is_held(alloc, &script.catalog, *coll, *doc, json),
            json,
            "",
        );
    }
}

#[test]
fn an_export(rt: HostRuntime) {
    let text = "%document users shards=2\r\n\
        {\"_key\":\"1001\",\"_id\":\"users/1001\",\"_rev\":\"_a\",\"name\":\"Ann\",\"age\":31}\r\n\
        {\"_id\":\"users/1002\",\"name\":\"Bob\",\"age\":25}\n\
        \t \n\
        \t%edge knows  keys=_from,_to\tshards=4\n\
        {\"_key\":\"1\",\"_from\":\"users/1001\",\"_to\":\"users/1002\"}\n\
        %index users age\n%index users name,age\n%index users age\n\
        %query\n\
        RETURN 1\r\n";
    match loaded(rt.alloc(), text.as_bytes(), 4096, None) {
        Ok(script) => check_export(&rt, rt.alloc(), &script),
        Err(_) => expect(&rt, false, "a fault", ""),
    }
}

const NONSENSE: LoadFault = LoadFault::Line {
    line: 3,
    kind: LineKind::NotJson,
};

static FAILURES: [(u64, LoadFault); 5] = [
    (0, LoadFault::Read),
    (5, LoadFault::Read),
    (30, LoadFault::Read),
    (45, LoadFault::Read),
    (100, NONSENSE),
];

#[test]
fn failing_sources(rt: HostRuntime) {
    let script = b"%document c\n{\"_key\":\"k\"}\nnonsense\n%query\nRETURN 1";
    for (fail_at, fault) in &FAILURES {
        let found = loaded(rt.alloc(), script, 3, Some(*fail_at)).err();
        expect(&rt, found == Some(*fault), "failing", "");
    }
}
