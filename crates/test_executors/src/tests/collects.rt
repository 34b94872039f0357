// COLLECT: the numbers of the rows by their remainder, or all in one group.

ghost use Rattle.std.specs.Prelude.{◌≡◌, ◌≤◌, IfOk, length};
ghost use Rattle.std.specs.List.{AllByRecursion};
ghost use Rattle.aql_meaning.specs.Plain.{IsPlain, AllPlain};
ghost use Rattle.aql_meaning.specs.Numbered.{IsNumber};
ghost use Rattle.aql_tree.specs.View.{tree};
ghost use Rattle.aql_plan.specs.declared.facts.Facts.{Facts};
ghost use Rattle.aql_plan.specs.Fits.{exprs_in};
ghost use Rattle.aql_exec.specs.Operators.{IsOperator};
ghost use Rattle.aql_exec_rows.specs.Settings.{criteria_vars, criteria_trees};

use crate::tests::driving::{Ran, run};
use crate::tests::rows::{expect, is_counted, numbers};
use crate::tests::sources::{Source, Still};
use aql_exec::{Executor, Stream};
use aql_exec_rows::{Collect, GroupRows};
use aql_func::BinOp;
use aql_tree::{AggregateItem, Aggregates, Expr, Ident, Into, Let, Lets, Link, Links};
use aql_value::{OutOfMemory, Seq, Text, Value};
use std::alloc::Global;
use std::process::Abort;

// The number of the row modulo 2.
fn remainder(alloc: Global) -> Result<Expr, OutOfMemory>
    ensures { IfOk result (λ e. IsPlain (tree e)) }
{
    let mut rest = Links::new(alloc);
    rest.push(Link::new(BinOp::Rem, Expr::Lit(Value::Num(2))))?;
    Expr::chain(alloc, Expr::Var(Ident::Num(1)), rest)
}

fn criteria(alloc: Global, groups: bool) -> Result<Lets, OutOfMemory>
    ensures plain { IfOk result (λ lets. AllPlain (criteria_trees lets)) }
    ensures numbers { IfOk result (λ lets. AllByRecursion IsNumber (criteria_vars lets)) }
    ensures pairs { IfOk result
        (λ lets. exprs_in (criteria_trees lets) ≡ length (criteria_vars lets)) }
{
    let mut lets = Lets::new(alloc);
    if groups {
        lets.push(Let::new(Ident::Num(2), remainder(alloc)?))?;
    }
    Ok(lets)
}

// COLLECT 2 = 1 % 2 AGGREGATE 3 = COUNT(), 4 = SUM(1) INTO 5 = 1, or the same without a criterion.
fn collect(alloc: Global, groups: bool) -> Result<Collect, OutOfMemory>
    ensures { IfOk result (λ x. (facts : Facts)
        → IsOperator facts (⟦<Collect as Executor<Still>>⟧.node x)) }
{
    let criteria = criteria(alloc, groups)?;
    let mut aggregates = Aggregates::new(alloc);
    let count = Text::new(alloc, "COUNT")?;
    aggregates.push(AggregateItem::new(Ident::Num(3), count, None))?;
    let sum = Text::new(alloc, "SUM")?;
    let number = Some(Expr::Var(Ident::Num(1)));
    aggregates.push(AggregateItem::new(Ident::Num(4), sum, number))?;
    let number = Some(Expr::Var(Ident::Num(1)));
    let into = Into::new(Ident::Num(5), number, Seq::new(alloc));
    let rows = GroupRows::new(alloc, criteria, aggregates, Some(into));
    Ok(Stream::new(rows))
}

// The numbers of the rows, how many groups are skipped, which variable is looked at, and what it is
// in the rows that come.
pub type Case = (&'static [i64], u64, u32, &'static str);

pub fn ran(
    alloc: Global,
    groups: bool,
    case: &Case,
    batch: u64,
    waits: bool,
) -> Result<Ran, OutOfMemory>
    requires { (1 ≤ batch) × (batch ≤ 10000) }
{
    let (input, offset, var, _) = *case;
    let mut collect = collect(alloc, groups)?;
    let mut below = Source::new(1, numbers(alloc, input)?, waits);
    let mut world = Still::new(alloc);
    run(
        alloc,
        &mut collect,
        &mut below,
        &mut world,
        offset,
        batch,
        var,
    )
}

// All rows of the input come, whatever is skipped.
fn expect_all(rt: &impl Abort, alloc: Global, groups: bool, cases: &[Case]) {
    for case in cases {
        let rows = case.0.len() as u64;
        for batch in [1, 2, 3, 1000] {
            for waits in [false, true] {
                let ran = ran(alloc, groups, case, batch, waits);
                expect(
                    rt,
                    is_counted(alloc, ran, case.3, rows, 0, 0),
                    case.3,
                    batch,
                );
            }
        }
    }
}

// The members of each group.
pub static MEMBERS: Case = (&[3, 4, 1, 6, 8], 0, 5, "[[4,6,8],[3,1]]");

static GROUPED: [Case; 8] = [
    (&[3, 4, 1, 6, 8], 0, 2, "[0,1]"),
    (&[3, 4, 1, 6, 8], 0, 3, "[3,2]"),
    (&[3, 4, 1, 6, 8], 0, 4, "[18,4]"),
    (&[3, 4, 1, 6, 8], 0, 5, "[[4,6,8],[3,1]]"),
    (&[3, 4, 1, 6, 8], 1, 5, "[[3,1]]"),
    (&[3, 4, 1, 6, 8], 2, 2, "[]"),
    (&[3, 4, 1, 6, 8], 7, 2, "[]"),
    (&[], 0, 3, "[]"),
];

#[test]
fn grouped(rt: HostRuntime) {
    expect_all(&rt, rt.alloc(), true, &GROUPED);
}

// Without a criterion there is one group, also of no row.
static WHOLE: [Case; 8] = [
    (&[3, 4, 1], 0, 3, "[3]"),
    (&[3, 4, 1], 0, 4, "[8]"),
    (&[3, 4, 1], 0, 5, "[[3,4,1]]"),
    (&[3, 4, 1], 1, 3, "[]"),
    (&[], 0, 3, "[0]"),
    (&[], 0, 4, "[0]"),
    (&[], 0, 5, "[[]]"),
    (&[], 1, 3, "[]"),
];

#[test]
fn in_one_group(rt: HostRuntime) {
    expect_all(&rt, rt.alloc(), false, &WHOLE);
}
