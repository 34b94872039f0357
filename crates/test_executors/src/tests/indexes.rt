// FOR over a collection by an index, up and down: by equal values, by the elements of an array and
// between ends, with a filter and without.

ghost use Rattle.std.specs.Prelude.{◌≡◌, ◌≤◌, ℕ, List, length, IfOk};
ghost use Rattle.aql_value.specs.Datum.{Datum};
ghost use Rattle.aql_tree.specs.View.{tree};
ghost use Rattle.aql_meaning.specs.Plain.{IsPlain, AllPlain};
ghost use Rattle.aql_meaning.specs.View.{last_tree};
ghost use Rattle.aql_plan.specs.Fits.{LastPlain, BoundsFit, exprs_in};
ghost use Rattle.aql_plan.specs.View.{expr_trees};
ghost use Rattle.aql_exec.specs.Operators.{IsOperator};
ghost use Rattle.test_executors.specs.Worlds.{facts_of};

use crate::tests::driving::{Ran, run};
use crate::tests::rows::{expect, is_counted, numbers};
use crate::tests::scans::{document, filter};
use crate::tests::shelves::OneCollection;
use crate::tests::sources::Source;
use aql_exec::{Executor, Stream};
use aql_exec_scan::{Found, Index, Reading};
use aql_meaning::{Edge, Last};
use aql_tree::{Expr, Exprs, Ident};
use aql_value::{CollNo, Items, OutOfMemory, Text, Value};
use std::alloc::Global;
use std::process::Abort;

// In the order of the index: 1 a, 1 b, 2 a, 3 c.
fn documents(alloc: Global) -> Result<Items, OutOfMemory>
    ensures { IfOk result (λ documents. length documents ≤ 4) }
{
    let mut documents = Items::new(alloc);
    documents.push(document(alloc, 3, "c")?)?;
    documents.push(document(alloc, 1, "b")?)?;
    documents.push(document(alloc, 2, "a")?)?;
    documents.push(document(alloc, 1, "a")?)?;
    Ok(documents)
}

// Which documents are sought, where `n` is set against the number of the row.
#[derive(Clone, Copy)]
pub enum Search {
    All,
    Equal,
    // `n` is that number, and `t` is between free ends
    EqualFree,
    // `n` is that number, and `t` is more than "a"
    EqualMore,
    // `n` is 2 or that number
    Elements,
    // `n` is not less
    From,
    // `n` is less
    Below,
}

fn text(alloc: Global, t: &str) -> Result<Expr, OutOfMemory>
    ensures { IfOk result (λ e. IsPlain (tree e)) }
{
    Ok(Expr::Lit(Value::Text(Text::new(alloc, t)?)))
}

fn elements(alloc: Global) -> Result<Exprs, OutOfMemory>
    ensures { IfOk result (λ es. AllPlain (expr_trees es)) }
{
    let mut elements = Exprs::new(alloc);
    elements.push(Expr::Lit(Value::Num(2)))?;
    elements.push(Expr::Var(Ident::Num(1)))?;
    elements.push(Expr::Lit(Value::Null))?;
    elements.push(Expr::Var(Ident::Num(1)))?;
    Ok(elements)
}

fn number(inclusive: bool) -> Edge
    ensures { IsPlain (tree result.expr) }
{
    Edge {
        expr: Expr::Var(Ident::Num(1)),
        inclusive,
    }
}

fn bounds(alloc: Global, search: Search) -> Result<(Exprs, Last), OutOfMemory>
    ensures { IfOk result (λ b. AllPlain (expr_trees b.0) × LastPlain (last_tree b.1)
        × BoundsFit 2 (exprs_in (expr_trees b.0)) (last_tree b.1)) }
{
    let none = Exprs::new(alloc);
    let mut one = Exprs::new(alloc);
    one.push(Expr::Var(Ident::Num(1)))?;
    Ok(match search {
        Search::All => (none, Last::None),
        Search::Equal => (one, Last::None),
        Search::EqualFree => (
            one,
            Last::Range {
                low: None,
                high: None,
            },
        ),
        Search::EqualMore => (
            one,
            Last::Range {
                low: Some(Edge {
                    expr: text(alloc, "a")?,
                    inclusive: false,
                }),
                high: None,
            },
        ),
        Search::Elements => (none, Last::OneOf(Expr::List(elements(alloc)?))),
        Search::From => (
            none,
            Last::Range {
                low: Some(number(true)),
                high: None,
            },
        ),
        Search::Below => (
            none,
            Last::Range {
                low: None,
                high: Some(number(false)),
            },
        ),
    })
}

fn index(
    alloc: Global,
    filters: bool,
    search: Search,
    ordered: Option<bool>,
) -> Result<Index, OutOfMemory>
    ensures { IfOk result (λ x. (names : List (List ℕ)) (documents : List Datum)
        → length names ≡ 2 → IsOperator (facts_of names documents)
        (⟦<Index as Executor<OneCollection>>⟧.node x)) }
{
    let filter = filter(alloc, filters)?;
    let (equal, last) = bounds(alloc, search)?;
    let reading = Reading {
        var: 2,
        coll: CollNo(0),
        filter,
        attrs: None,
        shard: None,
    };
    Ok(Stream::new(Found::new(alloc, reading, 0, equal, last, ordered)))
}

// Which documents are sought and in which order, the numbers of the rows, how many rows are
// skipped, the documents of the rows that come, how many documents are found, and how many rows are
// dropped.
pub type Case = (
    Search,
    Option<bool>,
    &'static [i64],
    u64,
    &'static str,
    u64,
    u64,
);

// What a case gives, and how many documents the world's index found.
pub fn gives(
    alloc: Global,
    filters: bool,
    case: &Case,
    batch: u64,
    waits: bool,
) -> Result<(Ran, u64), OutOfMemory>
    requires { (1 ≤ batch) × (batch ≤ 10000) }
{
    let (search, ordered, input, offset, _, _, _) = *case;
    let mut index = index(alloc, filters, search, ordered)?;
    let mut below = Source::new(1, numbers(alloc, input)?, waits);
    let mut world = OneCollection::new(alloc, documents(alloc)?)?;
    let ran = run(alloc, &mut index, &mut below, &mut world, offset, batch, 2)?;
    Ok((ran, world.handed_out_by_index()))
}

fn expect_all(rt: &impl Abort, alloc: Global, filters: bool, cases: &[Case]) {
    for case in cases {
        let (_, _, input, _, want, found, dropped) = *case;
        let rows = input.len() as u64;
        for batch in [1, 2, 3, 1000] {
            for waits in [false, true] {
                let is_given = match gives(alloc, filters, case, batch, waits) {
                    Ok((ran, by_index)) => by_index == found
                        && is_counted(alloc, Ok(ran), want, rows.saturating_add(found), 0, dropped),
                    Err(_) => false,
                };
                expect(rt, is_given, want, batch);
            }
        }
    }
}

static BY_VALUES: [Case; 6] = [
    (
        Search::Equal,
        None,
        &[1, 2, 9],
        0,
        r#"[{"n":1,"t":"a"},{"n":1,"t":"b"},{"n":2,"t":"a"}]"#,
        3,
        0,
    ),
    (
        Search::Equal,
        Some(true),
        &[1, 2],
        0,
        r#"[{"n":1,"t":"b"},{"n":1,"t":"a"},{"n":2,"t":"a"}]"#,
        3,
        0,
    ),
    (
        Search::EqualFree,
        Some(false),
        &[1],
        0,
        r#"[{"n":1,"t":"a"},{"n":1,"t":"b"}]"#,
        2,
        0,
    ),
    (
        Search::Elements,
        None,
        &[1, 7],
        0,
        r#"[{"n":1,"t":"a"},{"n":1,"t":"b"},{"n":2,"t":"a"},{"n":2,"t":"a"}]"#,
        4,
        0,
    ),
    (
        Search::Elements,
        Some(true),
        &[1],
        0,
        r#"[{"n":2,"t":"a"},{"n":1,"t":"b"},{"n":1,"t":"a"}]"#,
        3,
        0,
    ),
    (Search::Equal, None, &[], 0, "[]", 0, 0),
];

#[test]
fn by_values(rt: HostRuntime) {
    let alloc = rt.alloc();
    expect_all(&rt, alloc, false, &BY_VALUES);
}

static BETWEEN_ENDS: [Case; 4] = [
    (
        Search::All,
        Some(true),
        &[7],
        0,
        r#"[{"n":3,"t":"c"},{"n":2,"t":"a"},{"n":1,"t":"b"},{"n":1,"t":"a"}]"#,
        4,
        0,
    ),
    (
        Search::From,
        Some(false),
        &[2],
        0,
        r#"[{"n":2,"t":"a"},{"n":3,"t":"c"}]"#,
        2,
        0,
    ),
    (
        Search::Below,
        Some(true),
        &[3, 1],
        0,
        r#"[{"n":2,"t":"a"},{"n":1,"t":"b"},{"n":1,"t":"a"}]"#,
        3,
        0,
    ),
    (
        Search::EqualMore,
        None,
        &[1, 2, 3],
        0,
        r#"[{"n":1,"t":"b"},{"n":3,"t":"c"}]"#,
        2,
        0,
    ),
];

#[test]
fn between_ends(rt: HostRuntime) {
    let alloc = rt.alloc();
    expect_all(&rt, alloc, false, &BETWEEN_ENDS);
}

// Documents that are passed over are not read.
pub static SKIPPED: [Case; 4] = [
    (
        Search::All,
        Some(false),
        &[7, 8],
        5,
        r#"[{"n":1,"t":"b"},{"n":2,"t":"a"},{"n":3,"t":"c"}]"#,
        3,
        0,
    ),
    (
        Search::All,
        Some(true),
        &[7, 8],
        6,
        r#"[{"n":1,"t":"b"},{"n":1,"t":"a"}]"#,
        2,
        0,
    ),
    (
        Search::Elements,
        Some(true),
        &[1, 3],
        2,
        r#"[{"n":1,"t":"a"},{"n":3,"t":"c"},{"n":2,"t":"a"}]"#,
        3,
        0,
    ),
    (Search::Equal, None, &[1, 2], 9, "[]", 0, 0),
];

#[test]
fn skipped(rt: HostRuntime) {
    let alloc = rt.alloc();
    expect_all(&rt, alloc, false, &SKIPPED);
}

// The filter looks at each document that is found, whatever is skipped.
static FILTERED: [Case; 2] = [
    (
        Search::All,
        Some(false),
        &[1, 2],
        0,
        r#"[{"n":2,"t":"a"},{"n":3,"t":"c"},{"n":3,"t":"c"}]"#,
        8,
        5,
    ),
    (
        Search::All,
        Some(true),
        &[1],
        1,
        r#"[{"n":2,"t":"a"}]"#,
        4,
        2,
    ),
];

#[test]
fn filtered(rt: HostRuntime) {
    let alloc = rt.alloc();
    expect_all(&rt, alloc, true, &FILTERED);
}
