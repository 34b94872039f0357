//! Runs of plans whose rows are dealt out to shards by keys, or grouped on each shard first, worked
//! out by hand, with messages delivered in hostile orders.

use crate::tests::catalogs::declare;
use crate::tests::fragments::{ORDERS, run_plan_over};
use crate::tests::pages::{Page, expect_page};
use aql_doc::Catalog;
use aql_plan::{Node, Plan, Stage};
use aql_tree::{AggregateItem, Aggregates, Expr, Exprs, Ident, Key, Keys, Let, Lets, Link, Step};
use aql_value::{BinOp, CollNo, OutOfMemory, Seq, Text, from_json_line};
use std::alloc::Global;

// An attribute of a variable.
type Attribute = (u32, &'static str);

// A node of a plan.
#[derive(Clone, Copy)]
enum Part {
    Docs(u32, u32),
    Scatter(u32),
    Distribute(u32, &'static [Attribute]),
    Link,
    Equal(Attribute, Attribute),
    Gather,
    Sort(Attribute),
    // grouped by an attribute of the document, or all documents at once
    Collect(Stage, bool),
    Return(Attribute),
    // what a COLLECT gives, as a text
    ReturnGroup(bool),
}

fn attribute(alloc: Global, of: Attribute) -> Result<Expr, OutOfMemory> {
    let mut steps = Seq::new(alloc);
    steps.push(Step::Name(Text::new(alloc, of.1)?))?;
    Expr::access(alloc, Expr::Var(Ident::Num(of.0)), steps)
}

fn attributes(alloc: Global, list: &[Attribute]) -> Result<Exprs, OutOfMemory> {
    let mut all = Exprs::new(alloc);
    for of in list {
        all.push(attribute(alloc, *of)?)?;
    }
    Ok(all)
}

fn equal(alloc: Global, left: Attribute, right: Attribute) -> Result<Expr, OutOfMemory> {
    let mut links = Seq::new(alloc);
    links.push(Link::new(BinOp::Eq, attribute(alloc, right)?))?;
    Expr::chain(alloc, attribute(alloc, left)?, links)
}

fn keys(alloc: Global, of: Attribute) -> Result<Keys, OutOfMemory> {
    let mut keys = Keys::new(alloc);
    keys.push(Key::new(attribute(alloc, of)?, false))?;
    Ok(keys)
}

// The group of a document, if it is grouped.
fn groups(alloc: Global, grouped: bool) -> Result<Lets, OutOfMemory> {
    let mut groups = Lets::new(alloc);
    if grouped {
        groups.push(Let::new(Ident::Num(2), attribute(alloc, (1, "g"))?))?;
    }
    Ok(groups)
}

static AGGREGATES: [(u32, &str); 5] = [
    (3, "SUM"),
    (4, "LENGTH"),
    (5, "MIN"),
    (6, "MAX"),
    (7, "SORTED_UNIQUE"),
];

fn aggregates(alloc: Global) -> Result<Aggregates, OutOfMemory> {
    let mut all = Aggregates::new(alloc);
    for (var, name) in &AGGREGATES {
        let number = attribute(alloc, (1, "n"))?;
        let item = AggregateItem::new(Ident::Num(*var), Text::new(alloc, name)?, Some(number));
        all.push(item)?;
    }
    Ok(all)
}

// What a COLLECT sets, in order.
fn group(alloc: Global, grouped: bool) -> Result<Expr, OutOfMemory> {
    let mut items = Exprs::new(alloc);
    if grouped {
        items.push(Expr::Var(Ident::Num(2)))?;
    }
    for (var, _) in &AGGREGATES {
        items.push(Expr::Var(Ident::Num(*var)))?;
    }
    let mut args = Exprs::new(alloc);
    args.push(Expr::List(items))?;
    Ok(Expr::Call {
        name: Text::new(alloc, "TO_STRING")?,
        args,
    })
}

fn enumeration(var: u32, coll: u32) -> Node {
    Node::EnumerateCollection {
        var,
        coll: CollNo(coll),
        filter: None,
        attrs: None,
        shard: None,
    }
}

fn result_of(expr: Expr) -> Node {
    Node::Return {
        expr,
        distinct: false,
    }
}

fn node_of(alloc: Global, part: Part) -> Result<Node, OutOfMemory> {
    match part {
        Part::Docs(var, coll) => Ok(enumeration(var, coll)),
        Part::Scatter(coll) => Ok(Node::Scatter {
            coll: CollNo(coll),
            only: None,
        }),
        Part::Distribute(coll, of) => Ok(Node::Distribute {
            coll: CollNo(coll),
            exprs: attributes(alloc, of)?,
        }),
        Part::Link => Ok(Node::Remote),
        Part::Equal(left, right) => Ok(Node::Filter {
            cond: equal(alloc, left, right)?,
        }),
        Part::Gather => Ok(Node::Gather {
            order: Keys::new(alloc),
        }),
        Part::Sort(of) => Ok(Node::Sort {
            keys: keys(alloc, of)?,
            limit: None,
        }),
        Part::Collect(stage, grouped) => Ok(Node::Collect {
            groups: groups(alloc, grouped)?,
            aggregates: aggregates(alloc)?,
            into: None,
            stage,
        }),
        Part::Return(of) => Ok(result_of(attribute(alloc, of)?)),
        Part::ReturnGroup(grouped) => Ok(result_of(group(alloc, grouped)?)),
    }
}

fn plan_of(alloc: Global, parts: &[Part]) -> Result<Plan, OutOfMemory> {
    let mut plan = Plan::Singleton;
    for part in parts {
        plan = node_of(alloc, *part)?.over(alloc, plan)?;
    }
    Ok(plan)
}

// A collection, the number of its shards, its shard keys and its documents.
type Collection = (
    &'static str,
    u32,
    &'static [&'static str],
    &'static [&'static str],
);

static COLLECTIONS: [Collection; 6] = [
    (
        "users",
        1,
        &["_key"],
        &["{\"_key\":\"a\"}", "{\"_key\":\"b\"}"],
    ),
    // those of a on shard 2, that of b on shard 1, the last on shard 0
    (
        "orders",
        3,
        &["user"],
        &[
            "{\"_key\":\"1\",\"user\":\"a\"}",
            "{\"_key\":\"2\",\"user\":\"b\"}",
            "{\"_key\":\"3\",\"user\":\"a\"}",
            "{\"_key\":\"4\"}",
        ],
    ),
    // two on each shard
    (
        "pairs",
        3,
        &["x", "y"],
        &[
            "{\"_key\":\"1\",\"x\":\"x\",\"y\":1}",
            "{\"_key\":\"2\",\"x\":\"x\",\"y\":2}",
            "{\"_key\":\"3\",\"x\":\"y\",\"y\":1}",
            "{\"_key\":\"4\",\"x\":\"y\",\"y\":2}",
            "{\"_key\":\"5\",\"x\":\"y\"}",
            "{\"_key\":\"6\",\"x\":\"z\",\"y\":1}",
        ],
    ),
    // a on shard 2, b on shard 1, d on shard 0
    (
        "numbers",
        3,
        &["k"],
        &[
            "{\"_key\":\"1\",\"k\":\"a\",\"g\":1,\"n\":9223372036854775807}",
            "{\"_key\":\"2\",\"k\":\"b\",\"g\":1,\"n\":1}",
            "{\"_key\":\"3\",\"k\":\"d\",\"g\":1,\"n\":-1}",
            "{\"_key\":\"4\",\"k\":\"a\",\"g\":2,\"n\":9223372036854775807}",
            "{\"_key\":\"5\",\"k\":\"b\",\"g\":2,\"n\":1}",
            "{\"_key\":\"6\",\"k\":\"a\",\"g\":3,\"n\":-9223372036854775808}",
            "{\"_key\":\"7\",\"k\":\"d\",\"g\":3,\"n\":9223372036854775807}",
            "{\"_key\":\"8\",\"k\":\"b\",\"g\":3,\"n\":-9223372036854775808}",
            "{\"_key\":\"9\",\"k\":\"d\",\"g\":3,\"n\":9223372036854775807}",
            "{\"_key\":\"10\",\"k\":\"b\",\"g\":4,\"n\":\"1\"}",
            "{\"_key\":\"11\",\"k\":\"d\",\"g\":4,\"n\":2}",
            "{\"_key\":\"12\",\"k\":\"d\",\"g\":5}",
        ],
    ),
    ("none", 3, &["k"], &[]),
    ("one", 3, &["k"], &["{\"_key\":\"1\",\"k\":\"b\",\"n\":5}"]),
];

fn catalog(alloc: Global) -> Option<Catalog> {
    let mut catalog = Catalog::new(alloc);
    for (name, shards, keys, _) in &COLLECTIONS {
        declare(alloc, &mut catalog, name, false, *shards, keys).ok()?;
    }
    for (number, (_, _, _, documents)) in COLLECTIONS.iter().enumerate() {
        for line in *documents {
            let document = from_json_line(alloc, line.as_bytes()).ok()?;
            let coll = CollNo(number as u32);
            if coll.0 as usize >= catalog.len() {
                return None;
            }
            catalog.add_document(alloc, coll, document).ok()?;
        }
    }
    Some(catalog)
}

// Each user with the orders that name it: only their shards are read, once for each user.
const JOIN: [Part; 9] = [
    Part::Docs(1, 0),
    Part::Distribute(1, &[(1, "_key")]),
    Part::Link,
    Part::Docs(2, 1),
    Part::Equal((2, "user"), (1, "_key")),
    Part::Link,
    Part::Gather,
    Part::Sort((2, "_key")),
    Part::Return((2, "_key")),
];

// Each pair with itself, by both of its keys.
const PAIRS: [Part; 10] = [
    Part::Docs(1, 2),
    Part::Distribute(2, &[(1, "x"), (1, "y")]),
    Part::Link,
    Part::Docs(2, 2),
    Part::Equal((2, "x"), (1, "x")),
    Part::Equal((2, "y"), (1, "y")),
    Part::Link,
    Part::Gather,
    Part::Sort((2, "_key")),
    Part::Return((2, "_key")),
];

// No row to deal out.
const NO_ROWS: [Part; 7] = [
    Part::Docs(1, 4),
    Part::Distribute(1, &[(1, "k")]),
    Part::Link,
    Part::Docs(2, 1),
    Part::Link,
    Part::Gather,
    Part::Return((2, "_key")),
];

// Sums to the ends of 64 bits and past them, over all shards.
const GROUPS: [Part; 8] = [
    Part::Scatter(3),
    Part::Link,
    Part::Docs(1, 3),
    Part::Collect(Stage::Partial, true),
    Part::Link,
    Part::Gather,
    Part::Collect(Stage::Final, true),
    Part::ReturnGroup(true),
];

const ALL: [Part; 8] = [
    Part::Scatter(3),
    Part::Link,
    Part::Docs(1, 3),
    Part::Collect(Stage::Partial, false),
    Part::Link,
    Part::Gather,
    Part::Collect(Stage::Final, false),
    Part::ReturnGroup(false),
];

// Shards without documents.
const ALL_OF_NONE: [Part; 8] = [
    Part::Scatter(4),
    Part::Link,
    Part::Docs(1, 4),
    Part::Collect(Stage::Partial, false),
    Part::Link,
    Part::Gather,
    Part::Collect(Stage::Final, false),
    Part::ReturnGroup(false),
];

const GROUPS_OF_NONE: [Part; 8] = [
    Part::Scatter(4),
    Part::Link,
    Part::Docs(1, 4),
    Part::Collect(Stage::Partial, true),
    Part::Link,
    Part::Gather,
    Part::Collect(Stage::Final, true),
    Part::ReturnGroup(true),
];

const ALL_OF_ONE: [Part; 8] = [
    Part::Scatter(5),
    Part::Link,
    Part::Docs(1, 5),
    Part::Collect(Stage::Partial, false),
    Part::Link,
    Part::Gather,
    Part::Collect(Stage::Final, false),
    Part::ReturnGroup(false),
];

// Plans, and what is written of their runs.
static RUNS: [(&[Part], &str); 8] = [
    (&JOIN, "123 full 5"),
    (&PAIRS, "123456 full 18"),
    (&NO_ROWS, " full 0"),
    (
        &GROUPS,
        concat!(
            "[1,9223372036854775807,3,-1,9223372036854775807,[-1,1,9223372036854775807]]",
            "[2,null,2,1,9223372036854775807,[1,9223372036854775807]]",
            "[3,-2,4,-9223372036854775808,9223372036854775807,",
            "[-9223372036854775808,9223372036854775807]]",
            "[4,null,2,2,\"1\",[2,\"1\"]]",
            "[5,0,1,null,null,[null]] full 12",
        ),
    ),
    (
        &ALL,
        concat!(
            "[null,12,-9223372036854775808,\"1\",",
            "[null,-9223372036854775808,-1,1,2,9223372036854775807,\"1\"]] full 12",
        ),
    ),
    (&ALL_OF_NONE, "[0,0,null,null,[]] full 0"),
    (&GROUPS_OF_NONE, " full 0"),
    (&ALL_OF_ONE, "[5,1,5,5,[5]] full 1"),
];

#[test]
fn rows_are_dealt_out_and_grouped(rt: HostRuntime) {
    for (parts, want) in &RUNS {
        for (servers, order, batch) in [(1, 0, 1000), (3, 1, 1), (2, 2, 2), (16, 2, 1000)] {
            let alloc = rt.alloc();
            let mut page = Page::new(alloc);
            let ran = match plan_of(alloc, parts) {
                Ok(plan) => {
                    let order = ORDERS[order];
                    run_plan_over(
                        alloc,
                        catalog(alloc),
                        plan,
                        servers,
                        order,
                        batch,
                        &mut page,
                    )
                }
                Err(error) => Err(error),
            };
            page.put(if ran.is_err() { "memory" } else { "" });
            expect_page(&rt, &page, want, want);
        }
    }
}
