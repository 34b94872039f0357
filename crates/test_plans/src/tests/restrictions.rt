// restrict-to-single-shard over a fragment that joins a collection with the rows of another
// fragment, at its first place and in its pass, worked out by hand. With two shards the document
// whose shard key is 7 is on shard 0, and that of 8 on shard 1; with three shards and two keys that
// of 1 and 2 is on shard 0, of 2 and 1 on shard 1, of 4 and 3 on shard 2.
use crate::tests::checked::expect_page;
use crate::tests::facts::{facts, indexed};
use crate::tests::joins::Reader::{Found, Scan};
use crate::tests::joins::Side::{Number, Of, Sum};
use crate::tests::joins::{EQ, Join, joined};
use crate::tests::texts::write_plan;
use aql_func::BinOp;
use aql_plan::{Facts, Plan};
use aql_plan_check::well_formed;
use aql_rewrite::first_place;
use aql_rules_cluster::{RestrictToSingleShard, run_restrict_pass};
use aql_value::OutOfMemory;
use std::alloc::Global;
use std::process::Abort;
use std::test::Fail;
use test_support::Page;

// What the pass makes of the plan.
fn restricted(alloc: Global, plan: Plan, facts: &Facts) -> Result<Page, OutOfMemory> {
    let mut page = Page::new(alloc);
    if !well_formed(alloc, &plan, facts)? {
        page.put("no such plan");
        return Ok(page);
    }
    let passed = run_restrict_pass(alloc, plan, facts)?;
    page.put(if passed.changed { "changed " } else { "" });
    write_plan(&passed.plan, &mut page);
    Ok(page)
}

// What the rule makes of the plan at its first place.
fn first_restricted(alloc: Global, plan: Plan, facts: &Facts) -> Result<Page, OutOfMemory> {
    let mut page = Page::new(alloc);
    if !well_formed(alloc, &plan, facts)? || facts.servers == 0 {
        page.put("no such plan");
        return Ok(page);
    }
    let step = first_place(alloc, &RestrictToSingleShard, plan, facts)?;
    page.put(if step.changed { "changed " } else { "" });
    write_plan(&step.plan, &mut page);
    Ok(page)
}

fn check(
    rt: &impl Abort,
    alloc: Global,
    facts: &Facts,
    changed: &str,
    rows: &[(Join, &str)],
) -> Result<(), Fail> {
    for (of, want) in rows {
        let mut page = Page::new(alloc);
        page.put_pair(
            changed,
            "start / scatter 0 / link / docs #1 / link / gather / ",
        );
        page.put(want);
        let given = restricted(alloc, joined(alloc, of)?, facts)?;
        expect_page(rt, &given, page.as_str(), "a join");
    }
    Ok(())
}

// The shard key is `k`.
static RESTRICTED: [(Join, &str); 12] = [
    (
        ("A0-", Scan, &[(Of(2, "k"), EQ, Number(7))], "> Ga R2-"),
        "scatter 0 only #0 / link / docs #2 if #2.k == 7 / link / gather / return #2",
    ),
    (
        ("A0-", Scan, &[(Of(2, "k"), EQ, Number(8))], "> Ga R2-"),
        "scatter 0 only #1 / link / docs #2 if #2.k == 8 / link / gather / return #2",
    ),
    // mirrored
    (
        ("A0-", Scan, &[(Number(8), EQ, Of(2, "k"))], "> Ga R2-"),
        "scatter 0 only #1 / link / docs #2 if 8 == #2.k / link / gather / return #2",
    ),
    // a constant that is no literal
    (
        ("A0-", Scan, &[(Of(2, "k"), EQ, Sum(3, 5))], "> Ga R2-"),
        "scatter 0 only #1 / link / docs #2 if #2.k == 3 + 5 / link / gather / return #2",
    ),
    // the first of two constants, and the first that is one
    (
        (
            "A0-",
            Scan,
            &[(Of(2, "k"), EQ, Number(8)), (Of(2, "k"), EQ, Number(7))],
            "> Ga R2-",
        ),
        "scatter 0 only #1 / link / docs #2 if #2.k == 8 && #2.k == 7 / link / gather / return #2",
    ),
    (
        (
            "A0-",
            Scan,
            &[
                (Of(2, "k"), EQ, Of(1, "a")),
                (Of(2, "k"), BinOp::Lt, Number(7)),
                (Of(2, "a"), EQ, Number(7)),
                (Of(2, "k"), EQ, Number(8)),
            ],
            "> Ga R2-",
        ),
        "scatter 0 only #1 / link / docs #2 if #2.k == #1.a && #2.k < 7 && #2.a == 7 \
         && #2.k == 8 / link / gather / return #2",
    ),
    // by an index, whose equal bounds count before the items of the filter
    (
        ("A0-", Found(1, &[Number(8)]), &[], "> Ga R2-"),
        "scatter 0 only #1 / link / found #2 / link / gather / return #2",
    ),
    (
        (
            "A0-",
            Found(1, &[Number(8)]),
            &[(Of(2, "k"), EQ, Number(7))],
            "> Ga R2-",
        ),
        "scatter 0 only #1 / link / found #2 if #2.k == 7 / link / gather / return #2",
    ),
    (
        (
            "A0-",
            Found(1, &[Of(1, "a")]),
            &[(Of(2, "k"), EQ, Number(8))],
            "> Ga R2-",
        ),
        "scatter 0 only #1 / link / found #2 if #2.k == 8 / link / gather / return #2",
    ),
    // over a Distribute by what the reader gives for the key
    (
        (
            "D0a",
            Scan,
            &[(Of(2, "k"), EQ, Of(1, "a")), (Of(2, "k"), EQ, Number(8))],
            "> Ga R2-",
        ),
        "scatter 0 only #1 / link / docs #2 if #2.k == #1.a && #2.k == 8 / link / gather \
         / return #2",
    ),
    // below other nodes of the fragment
    (
        (
            "A0-",
            Scan,
            &[(Of(2, "k"), EQ, Number(8))],
            "F_ C3_ Sd2 > Gd2 R2-",
        ),
        "scatter 0 only #1 / link / docs #2 if #2.k == 8 / filter null / let #3 = null \
         / sort #2 down / link / gather #2 down / return #2",
    ),
    (
        (
            "A0-",
            Scan,
            &[(Of(2, "k"), EQ, Number(8))],
            "Kp32----- > Ga Kf32----- R3-",
        ),
        "scatter 0 only #1 / link / docs #2 if #2.k == 8 / collect partial #3 = #2 / link \
         / gather / collect final #3 = #2 / return #3",
    ),
];

static NOT_RESTRICTED: [(Join, &str); 8] = [
    // no constant, a constant of another key, another operator
    (
        ("A0-", Scan, &[(Of(2, "k"), EQ, Of(1, "a"))], "> Ga R2-"),
        "scatter 0 / link / docs #2 if #2.k == #1.a / link / gather / return #2",
    ),
    (
        ("A0-", Scan, &[(Of(2, "a"), EQ, Number(8))], "> Ga R2-"),
        "scatter 0 / link / docs #2 if #2.a == 8 / link / gather / return #2",
    ),
    (
        (
            "A0-",
            Scan,
            &[(Of(2, "k"), BinOp::Lt, Number(8))],
            "> Ga R2-",
        ),
        "scatter 0 / link / docs #2 if #2.k < 8 / link / gather / return #2",
    ),
    // an index over other attributes
    (
        ("A0-", Found(0, &[Number(8)]), &[], "> Ga R2-"),
        "scatter 0 / link / found #2 / link / gather / return #2",
    ),
    // the foot is that of one shard
    (
        ("A00", Scan, &[(Of(2, "k"), EQ, Number(8))], "> Ga R2-"),
        "scatter 0 only #0 / link / docs #2 if #2.k == 8 / link / gather / return #2",
    ),
    // a Distribute by something else
    (
        (
            "D0a",
            Scan,
            &[(Of(2, "k"), EQ, Of(1, "b")), (Of(2, "k"), EQ, Number(8))],
            "> Ga R2-",
        ),
        "distribute 0 by #1.a / link / docs #2 if #2.k == #1.b && #2.k == 8 / link / gather \
         / return #2",
    ),
    // a Filter above is no filter of the reader
    (
        ("A0-", Scan, &[], "F1 > Ga R2-"),
        "scatter 0 / link / docs #2 / filter #1 / link / gather / return #2",
    ),
    // a Collect without criteria gives a row on each shard
    (
        (
            "A0-",
            Scan,
            &[(Of(2, "k"), EQ, Number(8))],
            "Kp--3l--- > Ga Kf--3l--- R3-",
        ),
        "scatter 0 / link / docs #2 if #2.k == 8 / collect partial #3 = length / link \
         / gather / collect final #3 = length / return #3",
    ),
];

// The shard keys are `a` and `b`, and there are three shards.
static BY_TWO_KEYS: [(Join, &str); 4] = [
    // in the order of the keys
    (
        (
            "A0-",
            Scan,
            &[(Of(2, "a"), EQ, Number(2)), (Of(2, "b"), EQ, Number(1))],
            "> Ga R2-",
        ),
        "scatter 0 only #1 / link / docs #2 if #2.a == 2 && #2.b == 1 / link / gather / return #2",
    ),
    (
        (
            "A0-",
            Scan,
            &[(Of(2, "b"), EQ, Number(2)), (Number(1), EQ, Of(2, "a"))],
            "> Ga R2-",
        ),
        "scatter 0 only #0 / link / docs #2 if #2.b == 2 && 1 == #2.a / link / gather / return #2",
    ),
    (
        ("A0-", Found(0, &[Number(4), Number(3)]), &[], "> Ga R2-"),
        "scatter 0 only #2 / link / found #2 / link / gather / return #2",
    ),
    // one by a bound, the other by the filter
    (
        (
            "A0-",
            Found(0, &[Number(4)]),
            &[(Number(3), EQ, Of(2, "b"))],
            "> Ga R2-",
        ),
        "scatter 0 only #2 / link / found #2 if 3 == #2.b / link / gather / return #2",
    ),
];

// One of the two is not fixed.
static BY_ONE_KEY: [(Join, &str); 3] = [
    (
        ("A0-", Scan, &[(Of(2, "a"), EQ, Number(2))], "> Ga R2-"),
        "scatter 0 / link / docs #2 if #2.a == 2 / link / gather / return #2",
    ),
    (
        (
            "A0-",
            Scan,
            &[(Of(2, "a"), EQ, Number(2)), (Of(2, "b"), EQ, Of(1, "a"))],
            "> Ga R2-",
        ),
        "scatter 0 / link / docs #2 if #2.a == 2 && #2.b == #1.a / link / gather / return #2",
    ),
    (
        ("A0-", Found(0, &[Number(4)]), &[], "> Ga R2-"),
        "scatter 0 / link / found #2 / link / gather / return #2",
    ),
];

#[test]
fn one_shard_is_enough(rt: HostRuntime) -> Result<(), Fail> {
    let facts = facts(rt.alloc(), 2, b"k", 3)?;
    check(&rt, rt.alloc(), &facts, "changed ", &RESTRICTED)
}

#[test]
fn other_fragments_run_on_all_shards(rt: HostRuntime) -> Result<(), Fail> {
    let facts = facts(rt.alloc(), 2, b"k", 3)?;
    check(&rt, rt.alloc(), &facts, "", &NOT_RESTRICTED)
}

#[test]
fn two_keys_choose_the_shard(rt: HostRuntime) -> Result<(), Fail> {
    let facts = facts(rt.alloc(), 3, b"ab", 3)?;
    check(&rt, rt.alloc(), &facts, "changed ", &BY_TWO_KEYS)
}

#[test]
fn one_of_two_keys_chooses_no_shard(rt: HostRuntime) -> Result<(), Fail> {
    let facts = facts(rt.alloc(), 3, b"ab", 3)?;
    check(&rt, rt.alloc(), &facts, "", &BY_ONE_KEY)
}

static IN_TURN: Join = (
    "A0-",
    Scan,
    &[(Of(2, "k"), EQ, Number(8))],
    "> Ga A0- > I30-11--- > Ga R2-",
);

static ALONE: Join = ("A0-", Scan, &[(Of(2, "k"), EQ, Number(8))], "> Ga R2-");

#[test]
fn first_fragment_is_restricted(rt: HostRuntime) -> Result<(), Fail> {
    let alloc = rt.alloc();
    let facts = facts(alloc, 2, b"k", 3)?;
    let plan = joined(alloc, &IN_TURN)?;
    let want = "changed start / scatter 0 / link / docs #1 / link / gather / scatter 0 only #1 \
                / link / docs #2 if #2.k == 8 / link / gather / scatter 0 / link / found #3 \
                / link / gather / return #2";
    expect_page(&rt, &first_restricted(alloc, plan, &facts)?, want, "a plan");
    Ok(())
}

#[test]
fn one_shard_is_named_too(rt: HostRuntime) -> Result<(), Fail> {
    let alloc = rt.alloc();
    let facts = facts(alloc, 1, b"k", 3)?;
    let want = "changed start / scatter 0 / link / docs #1 / link / gather / scatter 0 only #0 \
                / link / docs #2 if #2.k == 8 / link / gather / return #2";
    expect_page(
        &rt,
        &restricted(alloc, joined(alloc, &ALONE)?, &facts)?,
        want,
        "a plan",
    );
    Ok(())
}

#[test]
fn without_servers_no_fragment_is_restricted(rt: HostRuntime) -> Result<(), Fail> {
    let alloc = rt.alloc();
    let facts = indexed(alloc, 3, 2, 1)?;
    let page = restricted(alloc, joined(alloc, &ALONE)?, &facts)?;
    let want = "start / scatter 0 / link / docs #1 / link / gather / scatter 0 / link \
                / docs #2 if #2.k == 8 / link / gather / return #2";
    expect_page(&rt, &page, want, "a plan");
    Ok(())
}
