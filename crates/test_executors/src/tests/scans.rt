// FOR over a collection, with a filter and without, of whole documents and of one attribute alone.

ghost use Rattle.std.specs.Prelude.{◌≡◌, ◌<◌, ◌≤◌, length, IfOk};
ghost use Rattle.aql_meaning.specs.Plain.{IsPlain, MaybePlain};
ghost use Rattle.aql_tree.specs.View.{tree};
ghost use Rattle.aql_plan.specs.View.{maybe_tree};
ghost use Rattle.aql_plan.specs.declared.facts.Facts.{Facts};
ghost use Rattle.aql_exec.specs.Operators.{IsOperator};

use crate::tests::driving::{Ran, run};
use crate::tests::rows::{expect, is_counted, numbers};
use crate::tests::shelves::OneCollection;
use crate::tests::sources::Source;
use aql_exec::{Executor, Stream};
use aql_exec_scan::{Documents, EnumerateCollection, Reading};
use aql_func::BinOp;
use aql_tree::{Expr, Ident, Link, Links, Step, Steps};
use aql_value::{CollNo, Items, Members, Names, OutOfMemory, Text, Value};
use std::alloc::Global;
use std::process::Abort;

// An object with these attributes `n` and `t`.
pub fn document(alloc: Global, n: i64, t: &str) -> Result<Value, OutOfMemory> {
    let mut members = Members::new(alloc);
    members.set(Text::new(alloc, "n")?, Value::Num(n))?;
    members.set(Text::new(alloc, "t")?, Value::Text(Text::new(alloc, t)?))?;
    Ok(Value::Object(members))
}

fn documents(alloc: Global) -> Result<Items, OutOfMemory>
    ensures { IfOk result (λ documents. length documents ≤ 3) }
{
    let mut documents = Items::new(alloc);
    documents.push(document(alloc, 1, "a")?)?;
    documents.push(document(alloc, 2, "b")?)?;
    documents.push(document(alloc, 3, "c")?)?;
    Ok(documents)
}

// That `n` of the document is more than the number of the row.
fn is_more(alloc: Global) -> Result<Expr, OutOfMemory>
    ensures { IfOk result (λ e. IsPlain (tree e)) }
{
    let mut steps = Steps::new(alloc);
    steps.push(Step::Name(Text::new(alloc, "n")?))?;
    let mut rest = Links::new(alloc);
    rest.push(Link::new(BinOp::Gt, Expr::Var(Ident::Num(1))))?;
    let n = Expr::access(alloc, Expr::Var(Ident::Num(2)), steps)?;
    Expr::chain(alloc, n, rest)
}

pub fn filter(alloc: Global, filters: bool) -> Result<Option<Expr>, OutOfMemory>
    ensures { IfOk result (λ filter. MaybePlain (maybe_tree filter)) }
{
    if !filters {
        return Ok(None);
    }
    Ok(Some(is_more(alloc)?))
}

fn attributes(alloc: Global, cuts: bool) -> Result<Option<Names>, OutOfMemory> {
    if !cuts {
        return Ok(None);
    }
    let mut names = Names::new(alloc);
    names.push(Text::new(alloc, "t")?)?;
    Ok(Some(names))
}

fn scan(alloc: Global, filters: bool, cuts: bool) -> Result<EnumerateCollection, OutOfMemory>
    ensures { IfOk result (λ x. (facts : Facts) → length facts.collections ≡ 1
        → IsOperator facts (⟦<EnumerateCollection as Executor<OneCollection>>⟧.node x)) }
{
    let filter = filter(alloc, filters)?;
    let attrs = attributes(alloc, cuts)?;
    let reading = Reading {
        var: 2,
        coll: CollNo(0),
        filter,
        attrs,
        shard: None,
    };
    Ok(Stream::new(Documents::new(alloc, reading)))
}

// The numbers of the rows, how many rows are skipped, which variable is looked at, what it is in
// the rows that come, how many documents are read, and how many rows are dropped.
pub type Case = (&'static [i64], u64, u32, &'static str, u64, u64);

// What a case gives, and how many documents the world handed out.
pub fn gives(
    alloc: Global,
    filters: bool,
    cuts: bool,
    case: &Case,
    batch: u64,
    waits: bool,
) -> Result<(Ran, u64), OutOfMemory>
    requires { (1 ≤ batch) × (batch ≤ 10000) }
{
    let (input, offset, var, _, _, _) = *case;
    let mut scan = scan(alloc, filters, cuts)?;
    let mut below = Source::new(1, numbers(alloc, input)?, waits);
    let mut world = OneCollection::new(alloc, documents(alloc)?)?;
    let ran = run(alloc, &mut scan, &mut below, &mut world, offset, batch, var)?;
    Ok((ran, world.handed_out()))
}

fn expect_all(rt: &impl Abort, alloc: Global, filters: bool, cuts: bool, cases: &[Case]) {
    for case in cases {
        let (input, _, _, want, read, dropped) = *case;
        let rows = input.len() as u64;
        for batch in [1, 2, 3, 1000] {
            for waits in [false, true] {
                let is_given = match gives(alloc, filters, cuts, case, batch, waits) {
                    Ok((ran, handed_out)) => handed_out == read
                        && is_counted(alloc, Ok(ran), want, rows, read, dropped),
                    Err(_) => false,
                };
                expect(rt, is_given, want, batch);
            }
        }
    }
}

// Documents that are passed over are not read.
static WHOLE: [Case; 6] = [
    (
        &[7],
        0,
        2,
        r#"[{"n":1,"t":"a"},{"n":2,"t":"b"},{"n":3,"t":"c"}]"#,
        3,
        0,
    ),
    (&[7, 8], 0, 1, "[7,7,7,8,8,8]", 6, 0),
    (&[7, 8], 4, 2, r#"[{"n":2,"t":"b"},{"n":3,"t":"c"}]"#, 2, 0),
    (&[7, 8], 6, 1, "[]", 0, 0),
    (&[7, 8], 9, 1, "[]", 0, 0),
    (&[], 0, 1, "[]", 0, 0),
];

static CUT: [Case; 2] = [
    (&[7], 0, 2, r#"[{"t":"a"},{"t":"b"},{"t":"c"}]"#, 3, 0),
    (&[7, 8], 4, 2, r#"[{"t":"b"},{"t":"c"}]"#, 2, 0),
];

#[test]
fn unfiltered(rt: HostRuntime) {
    let alloc = rt.alloc();
    expect_all(&rt, alloc, false, false, &WHOLE);
    expect_all(&rt, alloc, false, true, &CUT);
}

// Each document is read for each row, and what is dropped is counted, whatever is skipped.
static FILTERED: [Case; 4] = [
    (&[2, 5], 0, 2, r#"[{"n":3,"t":"c"}]"#, 6, 5),
    (&[1, 2, 0], 0, 1, "[1,1,2,0,0,0]", 9, 3),
    (&[1, 2, 0], 6, 1, "[]", 9, 3),
    (&[1, 2, 0], 8, 1, "[]", 9, 3),
];

// The filter looks at an attribute that is not kept.
pub static FILTERED_AND_CUT: [Case; 2] = [
    (&[2, 1], 0, 2, r#"[{"t":"c"},{"t":"b"},{"t":"c"}]"#, 6, 3),
    (
        &[1, 0],
        1,
        2,
        r#"[{"t":"c"},{"t":"a"},{"t":"b"},{"t":"c"}]"#,
        6,
        1,
    ),
];

#[test]
fn filtered(rt: HostRuntime) {
    let alloc = rt.alloc();
    expect_all(&rt, alloc, true, false, &FILTERED);
    expect_all(&rt, alloc, true, true, &FILTERED_AND_CUT);
}
