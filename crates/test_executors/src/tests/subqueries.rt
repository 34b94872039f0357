// LET of a subquery: the array of the numbers below that of the row.

ghost use Rattle.std.specs.Prelude.{◌≤◌};

use crate::tests::driving::{Ran, run};
use crate::tests::rows::{expect, is_counted, numbers};
use crate::tests::sources::{Source, Still};
use aql_exec_rows::Subquery;
use aql_value::OutOfMemory;
use std::alloc::Global;

pub fn ran(
    alloc: Global,
    input: &[i64],
    offset: u64,
    batch: u64,
    waits: bool,
) -> Result<Ran, OutOfMemory>
    requires { (1 ≤ batch) × (batch ≤ 10000) }
{
    let mut subquery = Subquery::new(alloc, 9);
    let mut below = Source::new(1, numbers(alloc, input)?, waits);
    let mut world = Still::new(alloc);
    run(
        alloc,
        &mut subquery,
        &mut below,
        &mut world,
        offset,
        batch,
        9,
    )
}

// The rows, how many are skipped, what comes, and how many rows come of both inputs.
static CASES: [(&[i64], u64, &str, u64); 5] = [
    (&[2, 0, 1, 5], 0, "[[0,1],[],[0],[0,1,2,3,4]]", 12),
    (&[2, 0, 1, 5], 2, "[[0],[0,1,2,3,4]]", 12),
    (&[0, 0], 0, "[[],[]]", 2),
    (&[1, 2], 7, "[]", 5),
    (&[], 0, "[]", 0),
];

// The body runs for each row, whatever is skipped.
#[test]
fn arrays(rt: HostRuntime) {
    let alloc = rt.alloc();
    for (input, offset, want, rows) in CASES {
        for batch in [1, 2, 3, 1000] {
            for waits in [false, true] {
                let ran = ran(alloc, input, offset, batch, waits);
                expect(&rt, is_counted(alloc, ran, want, rows, 0, 0), want, batch);
            }
        }
    }
}
