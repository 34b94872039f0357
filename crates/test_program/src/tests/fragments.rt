//! Runs of plans with fragments over several servers, worked out by hand, with messages delivered in
//! hostile orders.

ghost use Rattle.std.specs.Prelude.{IsTrue, IfOk};
ghost use Rattle.aql_shard.specs.Datasets.{stock};
ghost use Rattle.aql_engine.specs.Engine.{CanRun};

use crate::tests::pages::{Page, expect, expect_page};
use crate::tests::shards::catalog;
use aql_doc::Catalog;
use aql_engine::Ran;
use aql_exec::Picker;
use aql_local::run_plan;
use aql_net::{ListPicker, Picks};
use aql_plan::{Node, Plan};
use aql_plan_check::well_formed;
use aql_shard::{Servers, split};
use aql_tree::{Expr, Ident, Key, Keys, Step};
use aql_value::{CollNo, OutOfMemory, Seq, Text, Value};
use std::alloc::Global;

// A node of a plan, with its variable or the variable whose key it uses.
#[derive(Clone, Copy)]
enum Part {
    Scatter,
    Link,
    Docs(u32),
    Sort(u32),
    Gather,
    GatherBy(u32),
    Return(u32),
}

fn key_of(alloc: Global, var: u32) -> Result<Expr, OutOfMemory> {
    let mut steps = Seq::new(alloc);
    steps.push(Step::Name(Text::new(alloc, "_key")?))?;
    Expr::access(alloc, Expr::Var(Ident::Num(var)), steps)
}

fn by_key(alloc: Global, var: u32) -> Result<Keys, OutOfMemory> {
    let mut keys = Seq::new(alloc);
    keys.push(Key::new(key_of(alloc, var)?, false))?;
    Ok(keys)
}

fn node_of(alloc: Global, part: Part) -> Result<Node, OutOfMemory> {
    match part {
        Part::Scatter => Ok(Node::Scatter {
            coll: CollNo(0),
            only: None,
        }),
        Part::Link => Ok(Node::Remote),
        Part::Docs(var) => Ok(Node::EnumerateCollection {
            var,
            coll: CollNo(0),
            filter: None,
            attrs: None,
            shard: None,
        }),
        Part::Sort(var) => Ok(Node::Sort {
            keys: by_key(alloc, var)?,
            limit: None,
        }),
        Part::Gather => Ok(Node::Gather {
            order: Seq::new(alloc),
        }),
        Part::GatherBy(var) => Ok(Node::Gather {
            order: by_key(alloc, var)?,
        }),
        Part::Return(var) => Ok(Node::Return {
            expr: key_of(alloc, var)?,
            distinct: false,
        }),
    }
}

fn plan_of(alloc: Global, parts: &[Part]) -> Result<Plan, OutOfMemory> {
    let mut plan = Plan::Singleton;
    for part in parts {
        plan = node_of(alloc, *part)?.over(alloc, plan)?;
    }
    Ok(plan)
}

// Whether a plan can be run over the documents of these servers.
fn can_run(alloc: Global, plan: &Plan, servers: &Servers) -> Result<bool, OutOfMemory>
    ensures { IfOk result (λ answer. IsTrue answer → CanRun (stock servers.now) plan.now) }
{
    let facts = servers.facts(alloc)?;
    well_formed(alloc, plan, &facts)
}

fn put_ran(page: &mut Page, ran: &Ran) {
    for value in ran.values.as_slice() {
        if let Value::Text(text) = value {
            page.put(text.as_str());
        }
    }
    page.put(" full ");
    page.put_shown(&ran.tally.scanned_full);
    page.put(if ran.log.len() == 0 { " at once" } else { "" });
}

// Which messages are delivered: how many picks, the first one, and by what each is multiplied to
// give the next.
#[derive(Clone, Copy)]
pub(crate) struct Order {
    count: u32,
    first: u64,
    factor: u64,
}

fn picks(alloc: Global, order: Order) -> Result<Picks, OutOfMemory> {
    let mut all = Seq::new(alloc);
    let mut pick = order.first;
    for _ in 0..order.count {
        all.push(pick)?;
        pick = pick.wrapping_mul(order.factor);
    }
    Ok(all)
}

// On how many servers a plan runs, and how many rows a step gives.
#[derive(Clone, Copy)]
struct Cluster {
    servers: u32,
    batch: u32,
}

// Runs a plan over documents; `None` where it is none that can be run.
fn ran_by<P: Picker>(
    alloc: Global,
    catalog: Option<Catalog>,
    plan: Plan,
    cluster: Cluster,
    picker: &mut P,
) -> Result<Option<Ran>, OutOfMemory> {
    let Some(catalog) = catalog else {
        return Err(OutOfMemory);
    };
    if cluster.servers > 16 || cluster.batch < 1 || cluster.batch > 10000 {
        return Ok(None);
    }
    let mut servers = split(alloc, catalog, cluster.servers)?;
    if !can_run(alloc, &plan, &servers)? {
        return Ok(None);
    }
    Ok(Some(run_plan(alloc, plan, &mut servers, picker, cluster.batch)?))
}

// Runs a plan over documents, and writes its values, how many documents it read, and whether no
// message was sent.
pub(crate) fn run_plan_over(
    alloc: Global,
    catalog: Option<Catalog>,
    plan: Plan,
    servers: u32,
    order: Order,
    batch: u32,
    page: &mut Page,
) -> Result<(), OutOfMemory> {
    let cluster = Cluster { servers, batch };
    let mut picker = ListPicker::new(picks(alloc, order)?);
    match ran_by(alloc, catalog, plan, cluster, &mut picker)? {
        Some(ran) => put_ran(page, &ran),
        None => page.put("no such plan"),
    }
    Ok(())
}

// Runs a plan over a collection of three shards.
fn run(
    alloc: Global,
    parts: &[Part],
    servers: u32,
    order: Order,
    batch: u32,
    page: &mut Page,
) -> Result<(), OutOfMemory> {
    let plan = plan_of(alloc, parts)?;
    let catalog = catalog(alloc, 3);
    run_plan_over(alloc, catalog, plan, servers, order, batch, page)
}

// Plans over the documents a, b, c and d, and what is written of their runs.
static RUNS: [(&[Part], &str); 5] = [
    (
        &[Part::Docs(1), Part::Sort(1), Part::Return(1)],
        "abcd full 4 at once",
    ),
    (
        &[
            Part::Scatter,
            Part::Link,
            Part::Docs(1),
            Part::Link,
            Part::Gather,
            Part::Sort(1),
            Part::Return(1),
        ],
        "abcd full 4",
    ),
    (
        &[
            Part::Scatter,
            Part::Link,
            Part::Docs(1),
            Part::Sort(1),
            Part::Link,
            Part::GatherBy(1),
            Part::Return(1),
        ],
        "abcd full 4",
    ),
    // each document again for each of the four rows below
    (
        &[
            Part::Docs(2),
            Part::Scatter,
            Part::Link,
            Part::Docs(1),
            Part::Link,
            Part::Gather,
            Part::Sort(1),
            Part::Return(1),
        ],
        "aaaabbbbccccdddd full 20",
    ),
    (
        &[
            Part::Scatter,
            Part::Link,
            Part::Docs(1),
            Part::Link,
            Part::Gather,
            Part::Scatter,
            Part::Link,
            Part::Docs(2),
            Part::Link,
            Part::Gather,
            Part::Sort(2),
            Part::Return(2),
        ],
        "aaaabbbbccccdddd full 20",
    ),
];

// The oldest message each time, the place that the largest number picks, and a thousand places.
pub(crate) static ORDERS: [Order; 3] = [
    Order {
        count: 0,
        first: 0,
        factor: 0,
    },
    Order {
        count: 1000,
        first: u64::MAX,
        factor: 1,
    },
    Order {
        count: 1000,
        first: 7,
        factor: 6_364_136_223_846_793_005,
    },
];

#[test]
fn fragments_are_run(rt: HostRuntime) {
    for (parts, want) in &RUNS {
        for (servers, order, batch) in [(2, 0, 1000), (3, 1, 1), (3, 2, 3), (16, 2, 1000)] {
            let mut page = Page::new(rt.alloc());
            let ran = run(rt.alloc(), parts, servers, ORDERS[order], batch, &mut page);
            page.put(if ran.is_err() { "memory" } else { "" });
            expect_page(&rt, &page, want, want);
        }
    }
}

// Takes the newest message each time.
#[derive(Drop)]
struct Newest;

impl Picker for Newest {
    ghost use Rattle.std.specs.Prelude.{suc, ◌≡◌};

    ghost picks = { λ before n place after. suc place ≡ n };

    fn pick(&mut self, n: u64) -> u64 {
        n - 1
    }
}

fn has_key(ran: &Ran, key: &str) -> bool {
    for value in ran.values.as_slice() {
        if let Value::Text(text) = value {
            if text.as_str() == key {
                return true;
            }
        }
    }
    false
}

// Each document of its own shard and server, as it is read; the values may come in any order.
static EACH: [Part; 6] = [
    Part::Scatter,
    Part::Link,
    Part::Docs(1),
    Part::Link,
    Part::Gather,
    Part::Return(1),
];

// Which of the keys are among the values of such a run, and how many values there are.
fn keys_by<P: Picker>(alloc: Global, batch: u32, picker: &mut P) -> Page {
    let mut page = Page::new(alloc);
    let Ok(plan) = plan_of(alloc, &EACH) else {
        page.put("no plan");
        return page;
    };
    let cluster = Cluster { servers: 4, batch };
    let Ok(Some(ran)) = ran_by(alloc, catalog(alloc, 4), plan, cluster, picker) else {
        page.put("no run");
        return page;
    };
    for key in ["a", "b", "c", "d"] {
        page.put(if has_key(&ran, key) { key } else { "-" });
    }
    page.put(" of ");
    page.put_shown(&ran.values.len());
    page
}

// The newest message each time, the place that the largest number picks, and the oldest each time.
#[test]
fn hostile_orders(rt: HostRuntime) {
    let alloc = rt.alloc();
    for batch in [1, 2] {
        expect_page(
            &rt,
            &keys_by(alloc, batch, &mut Newest),
            "abcd of 4",
            "the newest",
        );
        for (order, of) in [(1, "the largest"), (0, "the oldest")] {
            match picks(alloc, ORDERS[order]) {
                Ok(list) => {
                    let page = keys_by(alloc, batch, &mut ListPicker::new(list));
                    expect_page(&rt, &page, "abcd of 4", of);
                }
                Err(_) => expect(&rt, false, "memory", of),
            }
        }
    }
}
