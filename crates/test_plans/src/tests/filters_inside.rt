// distribute-filtercalc-to-cluster over plans by words, at its first place and in its pass, worked
// out by hand.
use crate::tests::checked::expect_page;
use crate::tests::facts::{facts, indexed};
use crate::tests::plans::plan;
use crate::tests::texts::write_plan;
use aql_plan::Facts;
use aql_plan_check::well_formed;
use aql_rewrite::first_place;
use aql_rules_cluster::{DistributeFiltercalcToCluster, run_filtercalc_pass};
use aql_value::OutOfMemory;
use std::alloc::Global;
use std::test::Fail;
use test_support::Page;

// What the pass makes of the plan of these words.
fn moved(alloc: Global, words: &str, facts: &Facts) -> Result<Page, OutOfMemory> {
    let mut page = Page::new(alloc);
    let plan = plan(alloc, words)?;
    if !well_formed(alloc, &plan, facts)? {
        page.put("no such plan");
        return Ok(page);
    }
    let passed = run_filtercalc_pass(plan, facts);
    page.put(if passed.changed { "changed " } else { "" });
    write_plan(&passed.plan, &mut page);
    Ok(page)
}

// What the rule makes of the plan of these words at its first place.
fn first_moved(alloc: Global, words: &str, facts: &Facts) -> Result<Page, OutOfMemory> {
    let mut page = Page::new(alloc);
    let plan = plan(alloc, words)?;
    if !well_formed(alloc, &plan, facts)? || facts.servers == 0 {
        page.put("no such plan");
        return Ok(page);
    }
    let step = first_place(alloc, &DistributeFiltercalcToCluster, plan, facts)?;
    page.put(if step.changed { "changed " } else { "" });
    write_plan(&step.plan, &mut page);
    Ok(page)
}

// With two servers.
static MOVED: [(&str, &str); 9] = [
    (
        "A0- > E10-- > Ga F1 R1-",
        "changed start / scatter 0 / link / docs #1 / filter #1 / link / gather / return #1",
    ),
    (
        "A0- > E10-- > Ga C2a R2-",
        "changed start / scatter 0 / link / docs #1 / let #2 = #1.a / link / gather / return #2",
    ),
    // one after another, in their order
    (
        "A0- > E10-- > Ga C2a F2 R1-",
        "changed start / scatter 0 / link / docs #1 / let #2 = #1.a / filter #2 / link / gather \
         / return #1",
    ),
    // the keys stay
    (
        "A0- > I10-00-d- > Gdab F1 R1-",
        "changed start / scatter 0 / link / found #1 / filter #1 / link \
         / gather #1.a down #1.b down / return #1",
    ),
    // in each fragment, and in bodies
    (
        "A0- > E10-- > Ga F1 A0- > E20-- > Ga F2 R1-",
        "changed start / scatter 0 / link / docs #1 / filter #1 / link / gather \
         / scatter 0 / link / docs #2 / filter #2 / link / gather / return #1",
    ),
    (
        "Q2g R2-",
        "changed start / let #2 = {start / scatter 0 / link / docs #1 / filter #1 / link / gather \
         / return null} / return #2",
    ),
    // not past another node
    (
        "A0- > E10-- > Ga M01 F1 R1-",
        "start / scatter 0 / link / docs #1 / link / gather / limit 1 / filter #1 / return #1",
    ),
    // what stands in a fragment stays, and where there is none
    (
        "A0- > E10-- F1 > Ga R1-",
        "start / scatter 0 / link / docs #1 / filter #1 / link / gather / return #1",
    ),
    (
        "F_ C1_ R1-",
        "start / filter null / let #1 = null / return #1",
    ),
];

#[test]
fn filters_and_calculations_go_inside(rt: HostRuntime) -> Result<(), Fail> {
    let alloc = rt.alloc();
    let facts = facts(alloc, 2, b"k", 3)?;
    for (words, want) in &MOVED {
        expect_page(&rt, &moved(alloc, words, &facts)?, want, words);
    }
    Ok(())
}

#[test]
fn first_filter_goes_inside(rt: HostRuntime) -> Result<(), Fail> {
    let alloc = rt.alloc();
    let facts = facts(alloc, 2, b"k", 3)?;
    let page = first_moved(alloc, "A0- > E10-- > Ga F1 C2a R1-", &facts)?;
    let want = "changed start / scatter 0 / link / docs #1 / filter #1 / link / gather \
                / let #2 = #1.a / return #1";
    expect_page(&rt, &page, want, "a plan");
    Ok(())
}

#[test]
fn without_servers_none_goes_inside(rt: HostRuntime) -> Result<(), Fail> {
    let alloc = rt.alloc();
    let facts = indexed(alloc, 3, 2, 1)?;
    let page = moved(alloc, "A0- > E10-- > Ga F1 R1-", &facts)?;
    let want = "start / scatter 0 / link / docs #1 / link / gather / filter #1 / return #1";
    expect_page(&rt, &page, want, "a plan");
    Ok(())
}
