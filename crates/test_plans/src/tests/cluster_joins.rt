// remove-unnecessary-remote-scatter over plans by words, at its first place and in its pass, worked
// out by hand.
use crate::tests::checked::expect_page;
use crate::tests::facts::{facts, indexed};
use crate::tests::plans::plan;
use crate::tests::texts::write_plan;
use aql_plan::Facts;
use aql_plan_check::well_formed;
use aql_rewrite::first_place;
use aql_rules_cluster::{RemoveUnnecessaryRemoteScatter, run_join_pass};
use aql_value::OutOfMemory;
use std::alloc::Global;
use std::test::Fail;
use test_support::Page;

// What the pass makes of the plan of these words.
fn joined(alloc: Global, words: &str, facts: &Facts) -> Result<Page, OutOfMemory> {
    let mut page = Page::new(alloc);
    let plan = plan(alloc, words)?;
    if !well_formed(alloc, &plan, facts)? {
        page.put("no such plan");
        return Ok(page);
    }
    let passed = run_join_pass(plan, facts);
    page.put(if passed.changed { "changed " } else { "" });
    write_plan(&passed.plan, &mut page);
    Ok(page)
}

// What the rule makes of the plan of these words at its first place.
fn first_joined(alloc: Global, words: &str, facts: &Facts) -> Result<Page, OutOfMemory> {
    let mut page = Page::new(alloc);
    let plan = plan(alloc, words)?;
    if !well_formed(alloc, &plan, facts)? || facts.servers == 0 {
        page.put("no such plan");
        return Ok(page);
    }
    let step = first_place(alloc, &RemoveUnnecessaryRemoteScatter, plan, facts)?;
    page.put(if step.changed { "changed " } else { "" });
    write_plan(&step.plan, &mut page);
    Ok(page)
}

// With two servers. Shard 0 of collection 0 is on the first one; its shard 1, and the only shard of
// collection 1, are on the second.
static JOINED: [(&str, &str); 16] = [
    (
        "A01 > E10-- > Ga A1- > E21-- > Ga R1-",
        "changed start / scatter 0 only #1 / link / docs #1 / docs #2 on 0 / link / gather \
         / return #1",
    ),
    (
        "A1- > E11-- > Ga A01 > E20-- > Ga R1-",
        "changed start / scatter 1 / link / docs #1 / docs #2 on 1 / link / gather / return #1",
    ),
    (
        "A1- > E11-- > Ga A01 > I20-01--- > Ga R1-",
        "changed start / scatter 1 / link / docs #1 / found #2 on 1 / link / gather / return #1",
    ),
    (
        "D1_ > E11-- > Ga A01 > E20-- > Ga R1-",
        "changed start / distribute 1 by null / link / docs #1 / docs #2 on 1 / link / gather \
         / return #1",
    ),
    // the other nodes of both stay, and so do the keys of the upper Gather
    (
        "A1- > E11-- F1 > Ga A01 > E20-- C3_ > Ga R1-",
        "changed start / scatter 1 / link / docs #1 / filter #1 / docs #2 on 1 / let #3 = null \
         / link / gather / return #1",
    ),
    (
        "A1- > E11-- Saa > Gaa A01 > E20-- Sdb > Gdb R1-",
        "changed start / scatter 1 / link / docs #1 / sort #1.a / docs #2 on 1 / sort #1.b down \
         / link / gather #1.b down / return #1",
    ),
    // three fragments on one server, and two of three
    (
        "A1- > E11-- > Ga A1- > E21-- > Ga A01 > E30-- > Ga R1-",
        "changed start / scatter 1 / link / docs #1 / docs #2 on 0 / docs #3 on 1 / link / gather \
         / return #1",
    ),
    (
        "A1- > E11-- > Ga A01 > E20-- > Ga A00 > E30-- > Ga R1-",
        "changed start / scatter 1 / link / docs #1 / docs #2 on 1 / link / gather \
         / scatter 0 only #0 / link / docs #3 / link / gather / return #1",
    ),
    (
        "A00 > E10-- > Ga A1- > E21-- > Ga A01 > E30-- > Ga R1-",
        "changed start / scatter 0 only #0 / link / docs #1 / link / gather \
         / scatter 1 / link / docs #2 / docs #3 on 1 / link / gather / return #1",
    ),
    // not over two servers
    (
        "A00 > E10-- > Ga A1- > E21-- > Ga R1-",
        "start / scatter 0 only #0 / link / docs #1 / link / gather \
         / scatter 1 / link / docs #2 / link / gather / return #1",
    ),
    (
        "A1- > E11-- > Ga A00 > E20-- > Ga R1-",
        "start / scatter 1 / link / docs #1 / link / gather \
         / scatter 0 only #0 / link / docs #2 / link / gather / return #1",
    ),
    // not over two shards
    (
        "A0- > E10-- > Ga A1- > E21-- > Ga R1-",
        "start / scatter 0 / link / docs #1 / link / gather \
         / scatter 1 / link / docs #2 / link / gather / return #1",
    ),
    (
        "A1- > E11-- > Ga A0- > E20-- > Ga R1-",
        "start / scatter 1 / link / docs #1 / link / gather \
         / scatter 0 / link / docs #2 / link / gather / return #1",
    ),
    // not with a node between, nor where the upper fragment takes each row to the shard of its
    // values
    (
        "A1- > E11-- > Ga F1 A01 > E20-- > Ga R1-",
        "start / scatter 1 / link / docs #1 / link / gather / filter #1 \
         / scatter 0 only #1 / link / docs #2 / link / gather / return #1",
    ),
    (
        "A1- > E11-- > Ga D1_ > E21-- > Ga R1-",
        "start / scatter 1 / link / docs #1 / link / gather \
         / distribute 1 by null / link / docs #2 / link / gather / return #1",
    ),
    (
        "A1- > E11-- > Ga R1-",
        "start / scatter 1 / link / docs #1 / link / gather / return #1",
    ),
];

#[test]
fn fragments_join(rt: HostRuntime) -> Result<(), Fail> {
    let alloc = rt.alloc();
    let facts = facts(alloc, 2, b"k", 3)?;
    for (words, want) in &JOINED {
        expect_page(&rt, &joined(alloc, words, &facts)?, want, words);
    }
    Ok(())
}

#[test]
fn first_fragments_join(rt: HostRuntime) -> Result<(), Fail> {
    let alloc = rt.alloc();
    let facts = facts(alloc, 2, b"k", 3)?;
    let words = "A1- > E11-- > Ga A1- > E21-- > Ga A01 > E30-- > Ga R1-";
    let want = "changed start / scatter 1 / link / docs #1 / docs #2 on 0 / link / gather \
                / scatter 0 only #1 / link / docs #3 / link / gather / return #1";
    expect_page(&rt, &first_joined(alloc, words, &facts)?, want, words);
    Ok(())
}

#[test]
fn on_one_server_all_shards_join(rt: HostRuntime) -> Result<(), Fail> {
    let alloc = rt.alloc();
    let mut facts = facts(alloc, 2, b"k", 3)?;
    facts.servers = 1;
    let words = "A00 > E10-- > Ga A01 > E20-- > Ga R1-";
    let want = "changed start / scatter 0 only #0 / link / docs #1 / docs #2 on 1 / link / gather \
                / return #1";
    expect_page(&rt, &joined(alloc, words, &facts)?, want, words);
    Ok(())
}

#[test]
fn without_servers_no_fragments_join(rt: HostRuntime) -> Result<(), Fail> {
    let alloc = rt.alloc();
    let facts = indexed(alloc, 3, 1, 1)?;
    let words = "A0- > E10-- > Ga A0- > E20-- > Ga R1-";
    let want = "start / scatter 0 / link / docs #1 / link / gather \
                / scatter 0 / link / docs #2 / link / gather / return #1";
    expect_page(&rt, &joined(alloc, words, &facts)?, want, words);
    Ok(())
}
