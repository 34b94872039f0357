// SORT.

ghost use Rattle.std.specs.Prelude.{◌≤◌, IfOk};
ghost use Rattle.aql_plan.specs.declared.facts.Facts.{Facts};
ghost use Rattle.aql_exec.specs.Operators.{IsOperator};

use crate::tests::driving::{Ran, run};
use crate::tests::rows::{expect, is_counted, numbers};
use crate::tests::sources::{Source, Still};
use aql_exec::{Executor, Stream};
use aql_exec_rows::{Order, Sort};
use aql_tree::{Expr, Ident, Key};
use aql_value::{OutOfMemory, Seq};
use std::alloc::Global;

// By the variable 1.
fn sort(alloc: Global, descending: bool, limit: Option<u64>) -> Result<Sort, OutOfMemory>
    ensures { IfOk result (λ x. (facts : Facts)
        → IsOperator facts (⟦<Sort as Executor<Still>>⟧.node x)) }
{
    let mut keys = Seq::new(alloc);
    keys.push(Key {
        expr: Expr::Var(Ident::Num(1)),
        descending,
    })?;
    Ok(Stream::new(Order::new(alloc, keys, limit)))
}

// The rows, whether they are to descend, how many are wanted at most, how many are skipped, and
// what comes.
pub type Case = (&'static [i64], bool, Option<u64>, u64, &'static str);

// The least two of ten.
pub static LIMITED: Case = (&[5, 4, 9, 1, 3, 3, 8, 2, 7, 6], false, Some(2), 0, "[1,2]");

static CASES: [Case; 10] = [
    (&[3, 1, 2], false, None, 0, "[1,2,3]"),
    (&[3, 1, 2], true, None, 0, "[3,2,1]"),
    (&[2, 1, 2, 1], false, None, 1, "[1,2,2]"),
    (&[3, 1, 2], false, None, 3, "[]"),
    (&[3, 1, 2], false, None, 9, "[]"),
    (&[], false, None, 0, "[]"),
    (&[5, 4, 9, 1, 3, 3, 8, 2, 7, 6], false, Some(2), 0, "[1,2]"),
    (&[5, 4, 9, 1, 3, 3, 8, 2, 7, 6], true, Some(3), 1, "[8,7]"),
    (&[2, 1], false, Some(5), 0, "[1,2]"),
    (&[2, 1], false, Some(0), 0, "[]"),
];

pub fn ran(alloc: Global, case: &Case, batch: u64, waits: bool) -> Result<Ran, OutOfMemory>
    requires { (1 ≤ batch) × (batch ≤ 10000) }
{
    let (input, descending, limit, offset, _) = *case;
    let mut sort = sort(alloc, descending, limit)?;
    let mut below = Source::new(1, numbers(alloc, input)?, waits);
    let mut world = Still::new(alloc);
    run(alloc, &mut sort, &mut below, &mut world, offset, batch, 1)
}

// All rows of the input come, whatever is skipped and however few are wanted.
#[test]
fn sorted(rt: HostRuntime) {
    let alloc = rt.alloc();
    for case in &CASES {
        for batch in [1, 2, 3, 1000] {
            for waits in [false, true] {
                let ran = ran(alloc, case, batch, waits);
                let rows = case.0.len() as u64;
                let is_given = is_counted(alloc, ran, case.4, rows, 0, 0);
                expect(&rt, is_given, case.4, batch);
            }
        }
    }
}
