// distribute-sort-to-cluster over plans by words, at its first place and in its pass, worked out by
// hand.
use crate::tests::checked::expect_page;
use crate::tests::facts::{facts, indexed};
use crate::tests::plans::plan;
use crate::tests::texts::write_plan;
use aql_plan::Facts;
use aql_plan_check::well_formed;
use aql_rewrite::first_place;
use aql_rules_cluster::{DistributeSortToCluster, run_sort_pass};
use aql_value::OutOfMemory;
use std::alloc::Global;
use std::test::Fail;
use test_support::Page;

// What the pass makes of the plan of these words.
fn sorted(alloc: Global, words: &str, facts: &Facts) -> Result<Page, OutOfMemory> {
    let mut page = Page::new(alloc);
    let plan = plan(alloc, words)?;
    if !well_formed(alloc, &plan, facts)? {
        page.put("no such plan");
        return Ok(page);
    }
    let passed = run_sort_pass(alloc, plan, facts)?;
    page.put(if passed.changed { "changed " } else { "" });
    write_plan(&passed.plan, &mut page);
    Ok(page)
}

// What the rule makes of the plan of these words at its first place.
fn first_sorted(alloc: Global, words: &str, facts: &Facts) -> Result<Page, OutOfMemory> {
    let mut page = Page::new(alloc);
    let plan = plan(alloc, words)?;
    if !well_formed(alloc, &plan, facts)? || facts.servers == 0 {
        page.put("no such plan");
        return Ok(page);
    }
    let step = first_place(alloc, &DistributeSortToCluster, plan, facts)?;
    page.put(if step.changed { "changed " } else { "" });
    write_plan(&step.plan, &mut page);
    Ok(page)
}

// With two servers, each collection with two shards.
static SORTED: [(&str, &str); 9] = [
    (
        "A0- > E10-- > Ga Sda R1-",
        "changed start / scatter 0 / link / docs #1 / sort #1.a down / link \
         / gather #1.a down / return #1",
    ),
    // the first rows
    (
        "A0- > E10-- > Ga P2aa R1-",
        "changed start / scatter 0 / link / docs #1 / sort #1.a first 2 / link \
         / gather #1.a / limit 2 / return #1",
    ),
    // in place of another order
    (
        "A0- > I10-00-a- > Gaab Sdb R1-",
        "changed start / scatter 0 / link / found #1 / sort #1.b down / link \
         / gather #1.b down / return #1",
    ),
    // one after the other, and not past a limit
    (
        "A0- > E10-- > Ga Saa Sdb R1-",
        "changed start / scatter 0 / link / docs #1 / sort #1.a / sort #1.b down / link \
         / gather #1.b down / return #1",
    ),
    (
        "A0- > E10-- > Ga P2aa Sdb R1-",
        "changed start / scatter 0 / link / docs #1 / sort #1.a first 2 / link \
         / gather #1.a / limit 2 / sort #1.b down / return #1",
    ),
    // below another fragment, and in a body
    (
        "A0- > E10-- > Ga Saa A0- > E20-- > Ga R2-",
        "changed start / scatter 0 / link / docs #1 / sort #1.a / link / gather #1.a \
         / scatter 0 / link / docs #2 / link / gather / return #2",
    ),
    (
        "Q2o R2-",
        "changed start / let #2 = {start / scatter 0 / link / docs #1 / sort #1.a / link \
         / gather #1.a / return null} / return #2",
    ),
    // not over other nodes
    (
        "A0- > E10-- > Ga F_ Saa R1-",
        "start / scatter 0 / link / docs #1 / link / gather / filter null / sort #1.a / return #1",
    ),
    ("E10-- Saa R1-", "start / docs #1 / sort #1.a / return #1"),
];

#[test]
fn sorts_go_inside(rt: HostRuntime) -> Result<(), Fail> {
    let alloc = rt.alloc();
    let facts = facts(alloc, 2, b"k", 3)?;
    for (words, want) in &SORTED {
        expect_page(&rt, &sorted(alloc, words, &facts)?, want, words);
    }
    Ok(())
}

#[test]
fn first_sort_goes_inside(rt: HostRuntime) -> Result<(), Fail> {
    let alloc = rt.alloc();
    let facts = facts(alloc, 2, b"k", 3)?;
    let page = first_sorted(alloc, "A0- > E10-- > Ga Saa Sdb R1-", &facts)?;
    let want = "changed start / scatter 0 / link / docs #1 / sort #1.a / link / gather #1.a \
                / sort #1.b down / return #1";
    expect_page(&rt, &page, want, "a plan");
    Ok(())
}

#[test]
fn without_servers_no_sort_goes_inside(rt: HostRuntime) -> Result<(), Fail> {
    let alloc = rt.alloc();
    let facts = indexed(alloc, 3, 2, 1)?;
    let page = sorted(alloc, "A0- > E10-- > Ga Saa R1-", &facts)?;
    let want = "start / scatter 0 / link / docs #1 / link / gather / sort #1.a / return #1";
    expect_page(&rt, &page, want, "a plan");
    Ok(())
}
