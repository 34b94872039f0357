// FOR over an array: the numbers of the row and 9.

ghost use Rattle.std.specs.Prelude.{◌≤◌, IfOk};
ghost use Rattle.aql_plan.specs.declared.facts.Facts.{Facts};
ghost use Rattle.aql_exec.specs.Operators.{IsOperator};

use crate::tests::driving::{Ran, run};
use crate::tests::rows::{expect, is_counted, numbers};
use crate::tests::sources::{Source, Still};
use aql_exec::{Executor, Stream};
use aql_exec_scan::{Elements, EnumerateList};
use aql_tree::{Expr, Exprs, Ident};
use aql_value::{OutOfMemory, Value};
use std::alloc::Global;

fn each(alloc: Global) -> Result<EnumerateList, OutOfMemory>
    ensures { IfOk result (λ x. (facts : Facts)
        → IsOperator facts (⟦<EnumerateList as Executor<Still>>⟧.node x)) }
{
    let mut items = Exprs::new(alloc);
    items.push(Expr::Var(Ident::Num(1)))?;
    items.push(Expr::Lit(Value::Num(9)))?;
    Ok(Stream::new(Elements::new(alloc, 2, Expr::List(items))))
}

pub fn ran(
    alloc: Global,
    input: &[i64],
    offset: u64,
    batch: u64,
    waits: bool,
) -> Result<Ran, OutOfMemory>
    requires { (1 ≤ batch) × (batch ≤ 10000) }
{
    let mut each = each(alloc)?;
    let mut below = Source::new(1, numbers(alloc, input)?, waits);
    let mut world = Still::new(alloc);
    run(alloc, &mut each, &mut below, &mut world, offset, batch, 2)
}

static CASES: [(&[i64], u64, &str); 5] = [
    (&[4, 5], 0, "[4,9,5,9]"),
    (&[4, 5, 6], 3, "[9,6,9]"),
    (&[4, 5], 4, "[]"),
    (&[4, 5], 7, "[]"),
    (&[], 0, "[]"),
];

// All rows of the input come, whatever is skipped.
#[test]
fn elements(rt: HostRuntime) {
    let alloc = rt.alloc();
    for (input, offset, want) in CASES {
        for batch in [1, 2, 3, 1000] {
            for waits in [false, true] {
                let ran = ran(alloc, input, offset, batch, waits);
                let rows = input.len() as u64;
                expect(&rt, is_counted(alloc, ran, want, rows, 0, 0), want, batch);
            }
        }
    }
}
