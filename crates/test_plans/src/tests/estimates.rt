//! Estimates worked out by hand.

use crate::tests::facts::indexed;
use crate::tests::plans::plan;
use aql_opt::{Cost, estimate};
use aql_value::OutOfMemory;
use std::alloc::Global;
use std::process::Abort;
use std::test::Fail;

// How many documents, shards, and documents of an index a value; a plan; its rows and its cost.
type Row = (u64, u32, u64, &'static str, u64, u64);

static LARGEST: u64 = 18446744073709551615;

static SCANS: [Row; 7] = [
    (3, 1, 1, "E10--", 3, 4),
    (3, 1, 1, "E10-- F_", 2, 7),
    (3, 1, 1, "E10-- L2_", 300, 304),
    (3, 1, 1, "E10-- Q2d", 3, 25),
    (3, 1, 1, "E10-- M19", 2, 6),
    (3, 1, 1, "E10-- Kw-------", 1, 7),
    (3, 1, 1, "E10-- N", 0, 1),
];

static OTHERS: [Row; 6] = [
    (9, 1, 1, "I10-01--- R_-", 1, 4),
    (2, 2, 1, "A0- > E10-- > Ga F_ R_-", 1, 13),
    (9, 1, 5, "I10-00t--", 9, 11),
    (LARGEST, 1, 1, "E10-- E10--", LARGEST, LARGEST),
    (3, 1, 1, "E10-- Sa_", 3, 13),
    (3, 1, 1, "T1--12_0--", 20, 31),
];

fn estimated(alloc: Global, row: &Row) -> Result<Cost, OutOfMemory> {
    let (documents, shards, width, words, _, _) = *row;
    let facts = indexed(alloc, documents, shards, width)?;
    Ok(estimate(&plan(alloc, words)?, &facts))
}

fn expect_rows(rt: &impl Abort, alloc: Global, rows: &[Row]) -> Result<(), Fail> {
    for row in rows {
        let found = estimated(alloc, row)?;
        assert!(rt; found.rows == row.4 && found.cost == row.5, "{}", row.3);
    }
    Ok(())
}

#[test]
fn estimates(rt: HostRuntime) -> Result<(), Fail> {
    let alloc = rt.alloc();
    expect_rows(&rt, alloc, &SCANS)?;
    expect_rows(&rt, alloc, &OTHERS)
}
