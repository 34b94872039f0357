// scatter-in-cluster over plans by words, at its first place and in its pass, worked out by hand.
use crate::tests::checked::expect_page;
use crate::tests::facts::{facts, indexed};
use crate::tests::plans::plan;
use crate::tests::texts::write_plan;
use aql_plan::Facts;
use aql_plan_check::well_formed;
use aql_rewrite::first_place;
use aql_rules_cluster::{ScatterInCluster, run_scatter_pass};
use aql_value::OutOfMemory;
use std::alloc::Global;
use std::test::Fail;
use test_support::Page;

// What the pass makes of the plan of these words.
fn scattered(alloc: Global, words: &str, facts: &Facts) -> Result<Page, OutOfMemory> {
    let mut page = Page::new(alloc);
    let plan = plan(alloc, words)?;
    if !well_formed(alloc, &plan, facts)? {
        page.put("no such plan");
        return Ok(page);
    }
    let passed = run_scatter_pass(alloc, plan, facts)?;
    page.put(if passed.changed { "changed " } else { "" });
    write_plan(&passed.plan, &mut page);
    Ok(page)
}

// What the rule makes of the plan of these words at its first place.
fn first_scattered(alloc: Global, words: &str, facts: &Facts) -> Result<Page, OutOfMemory> {
    let mut page = Page::new(alloc);
    let plan = plan(alloc, words)?;
    if !well_formed(alloc, &plan, facts)? || facts.servers == 0 {
        page.put("no such plan");
        return Ok(page);
    }
    let step = first_place(alloc, &ScatterInCluster, plan, facts)?;
    page.put(if step.changed { "changed " } else { "" });
    write_plan(&step.plan, &mut page);
    Ok(page)
}

// With two servers, each collection with two shards.
static SCATTERED: [(&str, &str); 10] = [
    (
        "E10-- R1-",
        "changed start / scatter 0 / link / docs #1 / link / gather / return #1",
    ),
    (
        "E11-- R1-",
        "changed start / scatter 1 / link / docs #1 / link / gather / return #1",
    ),
    (
        "I10-00--- R1-",
        "changed start / scatter 0 / link / found #1 / link / gather / return #1",
    ),
    // in the order of an index
    (
        "C3_ I10-00-a- R1-",
        "changed start / let #3 = null / scatter 0 / link / found #1 / link \
         / gather #1.a #1.b / return #1",
    ),
    (
        "I10-00-d- R1-",
        "changed start / scatter 0 / link / found #1 / link \
         / gather #1.a down #1.b down / return #1",
    ),
    // each of several, and in bodies
    (
        "E10-- F_ E20-- R1-",
        "changed start / scatter 0 / link / docs #1 / link / gather / filter null \
         / scatter 0 / link / docs #2 / link / gather / return #1",
    ),
    (
        "Q2d R2-",
        "changed start / let #2 = {start / scatter 0 / link / docs #1 / link / gather \
         / return null} / return #2",
    ),
    // what stands in a fragment stays
    (
        "A0- > E10-- E201- > Ga R1-",
        "start / scatter 0 / link / docs #1 / docs #2 on 1 / link / gather / return #1",
    ),
    (
        "A0- > E10-- > Ga E20-- R1-",
        "changed start / scatter 0 / link / docs #1 / link / gather \
         / scatter 0 / link / docs #2 / link / gather / return #1",
    ),
    ("L1_ R1-", "start / each #1 in null / return #1"),
];

#[test]
fn readers_are_scattered(rt: HostRuntime) -> Result<(), Fail> {
    let alloc = rt.alloc();
    let facts = facts(alloc, 2, b"k", 3)?;
    for (words, want) in &SCATTERED {
        expect_page(&rt, &scattered(alloc, words, &facts)?, want, words);
    }
    Ok(())
}

#[test]
fn first_reader_is_scattered(rt: HostRuntime) -> Result<(), Fail> {
    let alloc = rt.alloc();
    let facts = facts(alloc, 2, b"k", 3)?;
    let page = first_scattered(alloc, "E10-- E20-- R1-", &facts)?;
    let want = "changed start / scatter 0 / link / docs #1 / link / gather / docs #2 / return #1";
    expect_page(&rt, &page, want, "a plan");
    Ok(())
}

#[test]
fn without_servers_none_is_scattered(rt: HostRuntime) -> Result<(), Fail> {
    let alloc = rt.alloc();
    let facts = indexed(alloc, 3, 2, 1)?;
    let page = scattered(alloc, "E10-- R1-", &facts)?;
    expect_page(&rt, &page, "start / docs #1 / return #1", "a plan");
    Ok(())
}
