// collect-in-cluster over plans by words, at its first place and in its pass, worked out by hand.
use crate::tests::checked::expect_page;
use crate::tests::facts::{facts, indexed};
use crate::tests::plans::plan;
use crate::tests::texts::write_plan;
use aql_plan::Facts;
use aql_plan_check::well_formed;
use aql_rewrite::first_place;
use aql_rules_cluster::{CollectInCluster, run_collect_pass};
use aql_value::OutOfMemory;
use std::alloc::Global;
use std::test::Fail;
use test_support::Page;

// What the pass makes of the plan of these words.
fn collected(alloc: Global, words: &str, facts: &Facts) -> Result<Page, OutOfMemory> {
    let mut page = Page::new(alloc);
    let plan = plan(alloc, words)?;
    if !well_formed(alloc, &plan, facts)? {
        page.put("no such plan");
        return Ok(page);
    }
    let passed = run_collect_pass(alloc, plan, facts)?;
    page.put(if passed.changed { "changed " } else { "" });
    write_plan(&passed.plan, &mut page);
    Ok(page)
}

// What the rule makes of the plan of these words at its first place.
fn first_collected(alloc: Global, words: &str, facts: &Facts) -> Result<Page, OutOfMemory> {
    let mut page = Page::new(alloc);
    let plan = plan(alloc, words)?;
    if !well_formed(alloc, &plan, facts)? || facts.servers == 0 {
        page.put("no such plan");
        return Ok(page);
    }
    let step = first_place(alloc, &CollectInCluster, plan, facts)?;
    page.put(if step.changed { "changed " } else { "" });
    write_plan(&step.plan, &mut page);
    Ok(page)
}

// With two servers, each collection with two shards.
static COLLECTED: [(&str, &str); 11] = [
    // criteria and aggregates
    (
        "A0- > E10-- > Ga Kw2a3sb-- R2-",
        "changed start / scatter 0 / link / docs #1 / collect partial #2 = #1.a #3 = SUM #1.b \
         / link / gather / collect final #2 = #1.a #3 = SUM #1.b / return #2",
    ),
    (
        "A0- > E10-- > Ga Kw2a----- R2-",
        "changed start / scatter 0 / link / docs #1 / collect partial #2 = #1.a / link / gather \
         / collect final #2 = #1.a / return #2",
    ),
    // without criteria
    (
        "A0- > E10-- > Ga Kw--2l--- R2-",
        "changed start / scatter 0 / link / docs #1 / collect partial #2 = length / link / gather \
         / collect final #2 = length / return #2",
    ),
    // the Gather loses its keys
    (
        "A0- > I10-00-a- > Gaab Kw2a----- R2-",
        "changed start / scatter 0 / link / found #1 / collect partial #2 = #1.a / link / gather \
         / collect final #2 = #1.a / return #2",
    ),
    // of one over another, the lower alone
    (
        "A0- > E10-- > Ga Kw2a----- Kw32----- R3-",
        "changed start / scatter 0 / link / docs #1 / collect partial #2 = #1.a / link / gather \
         / collect final #2 = #1.a / collect #3 = #2 / return #3",
    ),
    // below another fragment, and in a body
    (
        "A0- > E10-- > Ga Kw2a----- A0- > E30-- > Ga R2-",
        "changed start / scatter 0 / link / docs #1 / collect partial #2 = #1.a / link / gather \
         / collect final #2 = #1.a / scatter 0 / link / docs #3 / link / gather / return #2",
    ),
    (
        "Q2c R2-",
        "changed start / let #2 = {start / scatter 0 / link / docs #1 / collect partial #3 = #1.a \
         / link / gather / collect final #3 = #1.a / return null} / return #2",
    ),
    // not with INTO
    (
        "A0- > E10-- > Ga Kw2a---3_ R2-",
        "start / scatter 0 / link / docs #1 / link / gather / collect #2 = #1.a into #3 = null \
         / return #2",
    ),
    // not over a final one, over another node, or without a fragment
    (
        "A0- > E10-- Kp2a----- > Ga Kf2a----- Kw32----- R3-",
        "start / scatter 0 / link / docs #1 / collect partial #2 = #1.a / link / gather \
         / collect final #2 = #1.a / collect #3 = #2 / return #3",
    ),
    (
        "A0- > E10-- > Ga F_ Kw2a----- R2-",
        "start / scatter 0 / link / docs #1 / link / gather / filter null / collect #2 = #1.a \
         / return #2",
    ),
    (
        "E10-- Kw2a----- R2-",
        "start / docs #1 / collect #2 = #1.a / return #2",
    ),
];

#[test]
fn collects_go_inside(rt: HostRuntime) -> Result<(), Fail> {
    let alloc = rt.alloc();
    let facts = facts(alloc, 2, b"k", 3)?;
    for (words, want) in &COLLECTED {
        expect_page(&rt, &collected(alloc, words, &facts)?, want, words);
    }
    Ok(())
}

#[test]
fn first_collect_goes_inside(rt: HostRuntime) -> Result<(), Fail> {
    let alloc = rt.alloc();
    let facts = facts(alloc, 2, b"k", 3)?;
    let words = "A0- > E10-- > Ga Kw2a----- A0- > E30-- > Ga Kw42----- R4-";
    let page = first_collected(alloc, words, &facts)?;
    let want = "changed start / scatter 0 / link / docs #1 / collect partial #2 = #1.a / link \
                / gather / collect final #2 = #1.a / scatter 0 / link / docs #3 / link / gather \
                / collect #4 = #2 / return #4";
    expect_page(&rt, &page, want, words);
    Ok(())
}

#[test]
fn without_servers_no_collect_goes_inside(rt: HostRuntime) -> Result<(), Fail> {
    let alloc = rt.alloc();
    let facts = indexed(alloc, 3, 2, 1)?;
    let page = collected(alloc, "A0- > E10-- > Ga Kw2a----- R2-", &facts)?;
    let want = "start / scatter 0 / link / docs #1 / link / gather / collect #2 = #1.a / return #2";
    expect_page(&rt, &page, want, "a plan");
    Ok(())
}
