// The start row, and a node that gives no row.

ghost use Rattle.std.specs.Prelude.{◌≤◌};

use crate::tests::driving::{Ran, run};
use crate::tests::rows::{expect, is_counted, numbers};
use crate::tests::sources::{Source, Still};
use aql_exec::{NoResults, Singleton};
use aql_value::OutOfMemory;
use std::alloc::Global;

pub fn start(alloc: Global, offset: u64, batch: u64) -> Result<Ran, OutOfMemory>
    requires { (1 ≤ batch) × (batch ≤ 10000) }
{
    let mut below = Source::new(1, numbers(alloc, &[])?, false);
    let mut world = Still::new(alloc);
    run(
        alloc,
        &mut Singleton::new(),
        &mut below,
        &mut world,
        offset,
        batch,
        1,
    )
}

pub fn nothing(alloc: Global, offset: u64, batch: u64) -> Result<Ran, OutOfMemory>
    requires { (1 ≤ batch) × (batch ≤ 10000) }
{
    let mut below = Source::new(1, numbers(alloc, &[4, 5])?, false);
    let mut world = Still::new(alloc);
    run(
        alloc,
        &mut NoResults,
        &mut below,
        &mut world,
        offset,
        batch,
        1,
    )
}

// They count nothing, and ask for nothing.
#[test]
fn ends(rt: HostRuntime) {
    let alloc = rt.alloc();
    for (offset, want) in [(0, "[8]"), (1, "[]"), (5, "[]")] {
        for batch in [1, 1000] {
            let start = start(alloc, offset, batch);
            expect(&rt, is_counted(alloc, start, want, 0, 0, 0), want, batch);
            let nothing = nothing(alloc, offset, batch);
            let is_given = is_counted(alloc, nothing, "[]", 0, 0, 0);
            expect(&rt, is_given, "no row", batch);
        }
    }
}
