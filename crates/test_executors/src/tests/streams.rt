// FILTER, LIMIT, LET, RETURN and RETURN DISTINCT.

ghost use Rattle.std.specs.Prelude.{◌≤◌};
ghost use Rattle.aql_plan.specs.declared.facts.Facts.{Facts};
ghost use Rattle.aql_exec.specs.Operators.{IsOperator};

use crate::tests::driving::{Ran, run};
use crate::tests::rows::{expect, is_counted, numbers};
use crate::tests::sources::{Source, Still};
use aql_exec::{
    Calculation, Executor, Filter, FirstResults, Keep, Let, Limit, Mapped, Results, Return,
    ReturnDistinct, Stream,
};
use aql_tree::{Expr, Ident};
use aql_value::OutOfMemory;
use std::alloc::Global;

fn filter(alloc: Global) -> Filter
    ensures { (facts : Facts) → IsOperator facts (⟦<Filter as Executor<Still>>⟧.node result) }
{
    Stream::new(Keep::new(alloc, Expr::Var(Ident::Num(1))))
}

fn let_be(alloc: Global) -> Calculation
    ensures { (facts : Facts) → IsOperator facts (⟦<Calculation as Executor<Still>>⟧.node result) }
{
    Mapped::new(
        alloc,
        Let {
            var: 2,
            expr: Expr::Var(Ident::Num(1)),
        },
    )
}

fn returns(alloc: Global) -> Return
    ensures { (facts : Facts) → IsOperator facts (⟦<Return as Executor<Still>>⟧.node result) }
{
    Mapped::new(
        alloc,
        Results {
            expr: Expr::Var(Ident::Num(1)),
        },
    )
}

// Each value of a variable once.
fn distinct(alloc: Global, var: u32) -> ReturnDistinct
    ensures { (facts : Facts)
        → IsOperator facts (⟦<ReturnDistinct as Executor<Still>>⟧.node result) }
{
    Stream::new(FirstResults::new(alloc, Expr::Var(Ident::Num(var))))
}

// Runs an executor over these rows of the variable 1.
fn ran<X: Executor<Still>>(
    alloc: Global,
    x: &mut X,
    var: u32,
    input: &[i64],
    offset: u64,
    batch: u64,
    waits: bool,
) -> Result<Ran, OutOfMemory>
    requires node { (facts : Facts) → IsOperator facts (X.node x.old) }
    requires batch { (1 ≤ batch) × (batch ≤ 10000) }
{
    let mut below = Source::new(1, numbers(alloc, input)?, waits);
    let mut world = Still::new(alloc);
    run(alloc, x, &mut below, &mut world, offset, batch, var)
}

const INPUT: [i64; 6] = [0, 3, 0, 5, 7, 0];

pub fn kept(alloc: Global, batch: u64) -> Result<Ran, OutOfMemory>
    requires { (1 ≤ batch) × (batch ≤ 10000) }
{
    ran(alloc, &mut filter(alloc), 1, &INPUT, 0, batch, false)
}

pub fn first(alloc: Global, batch: u64) -> Result<Ran, OutOfMemory>
    requires { (1 ≤ batch) × (batch ≤ 10000) }
{
    ran(
        alloc,
        &mut Limit::new(alloc, 1, 2),
        1,
        &INPUT,
        0,
        batch,
        false,
    )
}

pub fn set(alloc: Global, batch: u64) -> Result<Ran, OutOfMemory>
    requires { (1 ≤ batch) × (batch ≤ 10000) }
{
    ran(alloc, &mut let_be(alloc), 2, &INPUT, 0, batch, false)
}

pub fn results(alloc: Global, batch: u64) -> Result<Ran, OutOfMemory>
    requires { (1 ≤ batch) × (batch ≤ 10000) }
{
    ran(alloc, &mut returns(alloc), 0, &INPUT, 0, batch, false)
}

pub fn first_results(alloc: Global, batch: u64) -> Result<Ran, OutOfMemory>
    requires { (1 ≤ batch) × (batch ≤ 10000) }
{
    ran(alloc, &mut distinct(alloc, 1), 0, &INPUT, 0, batch, false)
}

// All rows come, and the three that are dropped are counted, whatever is skipped.
#[test]
fn filtered(rt: HostRuntime) {
    let alloc = rt.alloc();
    for (offset, want) in [(0, "[3,5,7]"), (2, "[7]"), (3, "[]"), (9, "[]")] {
        for batch in [1, 2, 3, 1000] {
            for waits in [false, true] {
                let ran = ran(alloc, &mut filter(alloc), 1, &INPUT, offset, batch, waits);
                expect(&rt, is_counted(alloc, ran, want, 6, 0, 3), want, batch);
            }
        }
    }
}

// Of the rows that are wanted the input skips those that the call skips, but the last.
#[test]
fn limited(rt: HostRuntime) {
    let alloc = rt.alloc();
    for (skip, count, offset, want, rows) in [
        (1, 2, 0, "[3,0]", 2),
        (0, 9, 0, "[0,3,0,5,7,0]", 6),
        (1, 4, 2, "[5,7]", 2),
        (9, 1, 0, "[]", 0),
        (0, 0, 0, "[]", 0),
        (0, 2, 5, "[]", 1),
    ] {
        for batch in [1, 2, 3, 1000] {
            for waits in [false, true] {
                let mut limit = Limit::new(alloc, skip, count);
                let ran = ran(alloc, &mut limit, 1, &INPUT, offset, batch, waits);
                expect(&rt, is_counted(alloc, ran, want, rows, 0, 0), want, batch);
            }
        }
    }
}

// The input skips what the call skips.
#[test]
fn made(rt: HostRuntime) {
    let alloc = rt.alloc();
    for (offset, want, rows) in [(0, "[0,3,0,5,7,0]", 6), (4, "[7,0]", 2), (6, "[]", 0)] {
        for batch in [1, 2, 3, 1000] {
            for waits in [false, true] {
                let set = ran(alloc, &mut let_be(alloc), 2, &INPUT, offset, batch, waits);
                expect(&rt, is_counted(alloc, set, want, rows, 0, 0), want, batch);
                let given = ran(alloc, &mut returns(alloc), 0, &INPUT, offset, batch, waits);
                expect(&rt, is_counted(alloc, given, want, rows, 0, 0), want, batch);
            }
        }
    }
}

// All rows come. One without the variable stands for null.
#[test]
fn made_distinct(rt: HostRuntime) {
    let alloc = rt.alloc();
    for (var, offset, want) in [
        (1, 0, "[0,3,5,7]"),
        (1, 2, "[5,7]"),
        (1, 4, "[]"),
        (1, 9, "[]"),
        (2, 0, "[null]"),
    ] {
        for batch in [1, 2, 3, 1000] {
            for waits in [false, true] {
                let mut distinct = distinct(alloc, var);
                let ran = ran(alloc, &mut distinct, 0, &INPUT, offset, batch, waits);
                expect(&rt, is_counted(alloc, ran, want, 6, 0, 0), want, batch);
            }
        }
    }
}
