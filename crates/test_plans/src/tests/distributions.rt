// distribute-in-cluster over a fragment that joins a collection with the rows of another fragment,
// at its first place and in its pass, worked out by hand.
use crate::tests::checked::expect_page;
use crate::tests::facts::{facts, indexed};
use crate::tests::joins::Reader::{Found, Scan};
use crate::tests::joins::Side::{Number, Of};
use crate::tests::joins::{EQ, Join, joined};
use crate::tests::texts::write_plan;
use aql_func::BinOp;
use aql_plan::{Facts, Plan};
use aql_plan_check::well_formed;
use aql_rewrite::first_place;
use aql_rules_cluster::{DistributeInCluster, run_distribute_pass};
use aql_value::OutOfMemory;
use std::alloc::Global;
use std::process::Abort;
use std::test::Fail;
use test_support::Page;

// What the pass makes of the plan.
fn distributed(alloc: Global, plan: Plan, facts: &Facts) -> Result<Page, OutOfMemory> {
    let mut page = Page::new(alloc);
    if !well_formed(alloc, &plan, facts)? {
        page.put("no such plan");
        return Ok(page);
    }
    let passed = run_distribute_pass(alloc, plan, facts)?;
    page.put(if passed.changed { "changed " } else { "" });
    write_plan(&passed.plan, &mut page);
    Ok(page)
}

// What the rule makes of the plan at its first place.
fn first_distributed(alloc: Global, plan: Plan, facts: &Facts) -> Result<Page, OutOfMemory> {
    let mut page = Page::new(alloc);
    if !well_formed(alloc, &plan, facts)? || facts.servers == 0 {
        page.put("no such plan");
        return Ok(page);
    }
    let step = first_place(alloc, &DistributeInCluster, plan, facts)?;
    page.put(if step.changed { "changed " } else { "" });
    write_plan(&step.plan, &mut page);
    Ok(page)
}

fn check(
    rt: &impl Abort,
    alloc: Global,
    keys: &[u8],
    changed: &str,
    rows: &[(Join, &str)],
) -> Result<(), Fail> {
    let facts = facts(alloc, 2, keys, 3)?;
    for (of, want) in rows {
        let mut page = Page::new(alloc);
        page.put_pair(
            changed,
            "start / scatter 0 / link / docs #1 / link / gather / ",
        );
        page.put(want);
        let given = distributed(alloc, joined(alloc, of)?, &facts)?;
        expect_page(rt, &given, page.as_str(), "a join");
    }
    Ok(())
}

// The shard key is `k`.
static DISTRIBUTED: [(Join, &str); 11] = [
    (
        ("A0-", Scan, &[(Of(2, "k"), EQ, Of(1, "a"))], "> Ga R2-"),
        "distribute 0 by #1.a / link / docs #2 if #2.k == #1.a / link / gather / return #2",
    ),
    // mirrored
    (
        ("A0-", Scan, &[(Of(1, "a"), EQ, Of(2, "k"))], "> Ga R2-"),
        "distribute 0 by #1.a / link / docs #2 if #1.a == #2.k / link / gather / return #2",
    ),
    // by a constant too
    (
        ("A0-", Scan, &[(Of(2, "k"), EQ, Number(7))], "> Ga R2-"),
        "distribute 0 by 7 / link / docs #2 if #2.k == 7 / link / gather / return #2",
    ),
    // the first of two, and the first that does not use the document
    (
        (
            "A0-",
            Scan,
            &[(Of(2, "k"), EQ, Of(1, "b")), (Of(2, "k"), EQ, Of(1, "a"))],
            "> Ga R2-",
        ),
        "distribute 0 by #1.b / link / docs #2 if #2.k == #1.b && #2.k == #1.a / link / gather \
         / return #2",
    ),
    (
        (
            "A0-",
            Scan,
            &[
                (Of(2, "k"), EQ, Of(2, "a")),
                (Of(2, "k"), BinOp::Lt, Of(1, "b")),
                (Of(2, "k"), EQ, Of(1, "a")),
            ],
            "> Ga R2-",
        ),
        "distribute 0 by #1.a / link / docs #2 if #2.k == #2.a && #2.k < #1.b && #2.k == #1.a \
         / link / gather / return #2",
    ),
    // by an index
    (
        ("A0-", Found(1, &[Of(1, "a")]), &[], "> Ga R2-"),
        "distribute 0 by #1.a / link / found #2 / link / gather / return #2",
    ),
    (
        (
            "A0-",
            Found(0, &[Of(1, "a")]),
            &[(Of(2, "k"), EQ, Of(1, "b"))],
            "> Ga R2-",
        ),
        "distribute 0 by #1.b / link / found #2 if #2.k == #1.b / link / gather / return #2",
    ),
    // the equal bounds count before the items of the filter
    (
        (
            "A0-",
            Found(1, &[Of(1, "b")]),
            &[(Of(2, "k"), EQ, Of(1, "a"))],
            "> Ga R2-",
        ),
        "distribute 0 by #1.b / link / found #2 if #2.k == #1.a / link / gather / return #2",
    ),
    // below other nodes of the fragment
    (
        (
            "A0-",
            Scan,
            &[(Of(2, "k"), EQ, Of(1, "a"))],
            "F_ C3_ Sd2 > Gd2 R2-",
        ),
        "distribute 0 by #1.a / link / docs #2 if #2.k == #1.a / filter null / let #3 = null \
         / sort #2 down / link / gather #2 down / return #2",
    ),
    (
        (
            "A0-",
            Scan,
            &[(Of(2, "k"), EQ, Of(1, "a"))],
            "Kp32----- > Ga Kf32----- R3-",
        ),
        "distribute 0 by #1.a / link / docs #2 if #2.k == #1.a / collect partial #3 = #2 / link \
         / gather / collect final #3 = #2 / return #3",
    ),
    // below another fragment
    (
        (
            "A0-",
            Scan,
            &[(Of(2, "k"), EQ, Of(1, "a"))],
            "> Ga A0- > E30-- > Ga R3-",
        ),
        "distribute 0 by #1.a / link / docs #2 if #2.k == #1.a / link / gather / scatter 0 / link \
         / docs #3 / link / gather / return #3",
    ),
];

static NOT_DISTRIBUTED: [(Join, &str); 8] = [
    // the document is used, another operator, another attribute
    (
        ("A0-", Scan, &[(Of(2, "k"), EQ, Of(2, "a"))], "> Ga R2-"),
        "scatter 0 / link / docs #2 if #2.k == #2.a / link / gather / return #2",
    ),
    (
        (
            "A0-",
            Scan,
            &[(Of(2, "k"), BinOp::Lt, Of(1, "a"))],
            "> Ga R2-",
        ),
        "scatter 0 / link / docs #2 if #2.k < #1.a / link / gather / return #2",
    ),
    (
        ("A0-", Scan, &[(Of(2, "a"), EQ, Of(1, "k"))], "> Ga R2-"),
        "scatter 0 / link / docs #2 if #2.a == #1.k / link / gather / return #2",
    ),
    // no filter
    (
        ("A0-", Scan, &[], "> Ga R2-"),
        "scatter 0 / link / docs #2 / link / gather / return #2",
    ),
    (
        ("A0-", Found(0, &[Of(1, "a")]), &[], "> Ga R2-"),
        "scatter 0 / link / found #2 / link / gather / return #2",
    ),
    // the foot is another one
    (
        ("A01", Scan, &[(Of(2, "k"), EQ, Of(1, "a"))], "> Ga R2-"),
        "scatter 0 only #1 / link / docs #2 if #2.k == #1.a / link / gather / return #2",
    ),
    (
        ("D0a", Scan, &[(Of(2, "k"), EQ, Of(1, "b"))], "> Ga R2-"),
        "distribute 0 by #1.a / link / docs #2 if #2.k == #1.b / link / gather / return #2",
    ),
    // a Filter above is no filter of the reader
    (
        ("A0-", Scan, &[], "F1 > Ga R2-"),
        "scatter 0 / link / docs #2 / filter #1 / link / gather / return #2",
    ),
];

// The shard keys are `a` and `b`.
static BY_TWO_KEYS: [(Join, &str); 3] = [
    // in the order of the keys
    (
        (
            "A0-",
            Scan,
            &[(Of(2, "b"), EQ, Of(1, "a")), (Of(1, "b"), EQ, Of(2, "a"))],
            "> Ga R2-",
        ),
        "distribute 0 by #1.b by #1.a / link / docs #2 if #2.b == #1.a && #1.b == #2.a / link \
         / gather / return #2",
    ),
    (
        ("A0-", Found(0, &[Of(1, "a"), Number(3)]), &[], "> Ga R2-"),
        "distribute 0 by #1.a by 3 / link / found #2 / link / gather / return #2",
    ),
    // one by a bound, the other by the filter
    (
        (
            "A0-",
            Found(0, &[Of(1, "a")]),
            &[(Number(3), EQ, Of(2, "b"))],
            "> Ga R2-",
        ),
        "distribute 0 by #1.a by 3 / link / found #2 if 3 == #2.b / link / gather / return #2",
    ),
];

// One of the two is not fixed.
static BY_ONE_KEY: [(Join, &str); 3] = [
    (
        ("A0-", Scan, &[(Of(2, "a"), EQ, Of(1, "a"))], "> Ga R2-"),
        "scatter 0 / link / docs #2 if #2.a == #1.a / link / gather / return #2",
    ),
    (
        (
            "A0-",
            Scan,
            &[(Of(2, "b"), EQ, Of(1, "b")), (Of(2, "a"), EQ, Of(2, "b"))],
            "> Ga R2-",
        ),
        "scatter 0 / link / docs #2 if #2.b == #1.b && #2.a == #2.b / link / gather / return #2",
    ),
    (
        ("A0-", Found(0, &[Of(1, "a")]), &[], "> Ga R2-"),
        "scatter 0 / link / found #2 / link / gather / return #2",
    ),
];

#[test]
fn rows_go_to_their_shard(rt: HostRuntime) -> Result<(), Fail> {
    check(&rt, rt.alloc(), b"k", "changed ", &DISTRIBUTED)
}

#[test]
fn other_rows_go_to_all_shards(rt: HostRuntime) -> Result<(), Fail> {
    check(&rt, rt.alloc(), b"k", "", &NOT_DISTRIBUTED)
}

#[test]
fn rows_go_by_two_keys(rt: HostRuntime) -> Result<(), Fail> {
    check(&rt, rt.alloc(), b"ab", "changed ", &BY_TWO_KEYS)
}

#[test]
fn one_of_two_keys_is_not_enough(rt: HostRuntime) -> Result<(), Fail> {
    check(&rt, rt.alloc(), b"ab", "", &BY_ONE_KEY)
}

static IN_TURN: Join = (
    "A0-",
    Scan,
    &[(Of(2, "k"), EQ, Of(1, "a"))],
    "> Ga A0- > I30-11--- > Ga R2-",
);

static ALONE: Join = ("A0-", Scan, &[(Of(2, "k"), EQ, Of(1, "a"))], "> Ga R2-");

#[test]
fn first_foot_distributes(rt: HostRuntime) -> Result<(), Fail> {
    let alloc = rt.alloc();
    let facts = facts(alloc, 2, b"k", 3)?;
    let plan = joined(alloc, &IN_TURN)?;
    let want = "changed start / scatter 0 / link / docs #1 / link / gather / distribute 0 by #1.a \
                / link / docs #2 if #2.k == #1.a / link / gather / scatter 0 / link / found #3 \
                / link / gather / return #2";
    expect_page(
        &rt,
        &first_distributed(alloc, plan, &facts)?,
        want,
        "a plan",
    );
    Ok(())
}

#[test]
fn without_servers_no_foot_distributes(rt: HostRuntime) -> Result<(), Fail> {
    let alloc = rt.alloc();
    let facts = indexed(alloc, 3, 2, 1)?;
    let page = distributed(alloc, joined(alloc, &ALONE)?, &facts)?;
    let want = "start / scatter 0 / link / docs #1 / link / gather / scatter 0 / link \
                / docs #2 if #2.k == #1.a / link / gather / return #2";
    expect_page(&rt, &page, want, "a plan");
    Ok(())
}
