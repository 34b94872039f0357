// Plans that the optimiser chooses, with their costs and the rules that it tells of, worked out by
// hand.
ghost use Rattle.std.specs.Prelude.{false};
ghost use Rattle.aql_plan.specs.View.{plan_tree};
ghost use Rattle.aql_rewrite.specs.Placed.{IsWhole};

use crate::tests::checked::{expect_page, is_taken};
use crate::tests::facts::{facts, indexed};
use crate::tests::lines::Line::{self, Docs, Filter, FilterBy, Let, Lone, Return, ReturnPart};
use crate::tests::lines::{plan_of, two_collections};
use crate::tests::plans::plan;
use crate::tests::texts::write_plan;
use aql_opt::{Optimised, optimise};
use aql_plan::{Facts, Plan, RuleName, Rules};
use aql_value::OutOfMemory;
use std::alloc::Global;
use std::process::Abort;
use std::test::Fail;
use test_support::Page;

fn write_optimised(optimised: &Optimised, page: &mut Page) {
    write_plan(&optimised.plan, page);
    page.put(" costs ");
    page.put_shown(&optimised.cost);
    for name in &optimised.applied {
        page.put(" + ");
        page.put_shown(name);
    }
}

fn write_chosen(alloc: Global, rules: &Rules, plan: Plan, facts: &Facts, page: &mut Page)
    requires { IsWhole false facts.now (plan_tree plan) }
{
    match optimise(alloc, plan, rules, facts) {
        Ok(optimised) => write_optimised(&optimised, page),
        Err(_) => page.put("no memory"),
    }
}

// What is chosen for a plan by these rules.
fn chosen_of(alloc: Global, rules: &Rules, plan: Result<Plan, OutOfMemory>, facts: &Facts) -> Page {
    let mut page = Page::new(alloc);
    match plan {
        Ok(plan) => {
            if is_taken(alloc, &plan, facts) {
                write_chosen(alloc, rules, plan, facts, &mut page);
            } else {
                page.put("no such plan");
            }
        }
        Err(_) => page.put("no memory"),
    }
    page
}

fn check_chosen(rt: &impl Abort, alloc: Global, rules: &Rules, rows: &[(&[Line], &str)]) {
    match two_collections(alloc) {
        Ok(facts) => {
            for (lines, want) in rows {
                let plan = plan_of(alloc, lines);
                expect_page(rt, &chosen_of(alloc, rules, plan, &facts), want, "a plan");
            }
        }
        Err(_) => assert!(rt; false, "no memory"),
    }
}

const FILTERED: &[Line] = &[
    Docs(1),
    Docs(2),
    FilterBy(1),
    Filter(&[(1, "a")]),
    Filter(&[(1, "b")]),
    Return(2),
];

static UNCHANGED: [(&[Line], &str); 1] = [(
    FILTERED,
    "start / docs #1 / docs #2 / filter 1 / filter #1.a / filter #1.b / return #2 costs 299",
)];

static BY_FUSE_FILTERS: [(&[Line], &str); 1] = [(
    FILTERED,
    "start / docs #1 / docs #2 / filter 1 && #1.a && #1.b / return #2 costs 261 + fuse-filters",
)];

static BY_TWO_RULES: [(&[Line], &str); 1] = [(
    FILTERED,
    "start / filter 1 / docs #1 / filter #1.a && #1.b / docs #2 / return #2 costs 122 \
        + move-filters-up + fuse-filters",
)];

static BY_ALL_RULES: [(&[Line], &str); 3] = [
    (
        FILTERED,
        "start / docs #1 if #1.a && #1.b cut / docs #2 / return #2 costs 111 + move-filters-up \
        + remove-unnecessary-filters + fuse-filters + move-filters-into-enumerate \
        + reduce-extraction-to-projection",
    ),
    (
        &[Docs(1), FilterBy(0), Return(1)],
        "start / nothing / docs #1 / return #1 costs 1 + move-filters-up \
        + remove-unnecessary-filters",
    ),
    (
        &[Docs(1), Let(2, 3), Return(2)],
        "start / let #2 = 3 / docs #1 cut / return #2 costs 22 + move-calculations-up \
        + reduce-extraction-to-projection",
    ),
];

const JOINED: &[Line] = &[
    Docs(1),
    Lone(2),
    Filter(&[(1, "n"), (2, "n")]),
    ReturnPart((1, "k")),
];

static BY_MOVES: [(&[Line], &str); 1] = [(
    JOINED,
    "start / docs #1 / docs #2 if #1.n && #2.n / return #1.k costs 26 \
        + move-filters-into-enumerate",
)];

static BY_ORDER: [(&[Line], &str); 5] = [
    (
        JOINED,
        "start / docs #2 cut n / docs #1 if #1.n && #2.n cut k / return #1.k costs 17 \
        + interchange-adjacent-enumerations + move-filters-into-enumerate \
        + reduce-extraction-to-projection",
    ),
    (
        &[Docs(1), Docs(2), Filter(&[(2, "a")]), Return(2)],
        "start / docs #2 if #2.a / docs #1 cut / return #2 costs 111 \
        + interchange-adjacent-enumerations + move-filters-up + move-filters-into-enumerate \
        + reduce-extraction-to-projection",
    ),
    (
        &[Docs(1), Docs(2), Filter(&[(1, "a")]), Return(2)],
        "start / docs #1 if #1.a cut / docs #2 / return #2 costs 111 + move-filters-up \
        + move-filters-into-enumerate + reduce-extraction-to-projection",
    ),
    (
        &[Docs(1), Docs(2), Return(2)],
        "start / docs #1 cut / docs #2 / return #2 costs 211 + reduce-extraction-to-projection",
    ),
    (
        &[Docs(1), Lone(2), Docs(3), Lone(4), Return(1)],
        "start / docs #2 cut / docs #4 cut / docs #1 / docs #3 cut / return #1 costs 213 \
        + interchange-adjacent-enumerations + reduce-extraction-to-projection",
    ),
];

#[test]
fn plans_are_chosen(rt: HostRuntime) {
    let alloc = rt.alloc();
    let none = Rules::none();
    check_chosen(&rt, alloc, &none, &UNCHANGED);
    let fuse = none.with(RuleName::FuseFilters);
    check_chosen(&rt, alloc, &fuse, &BY_FUSE_FILTERS);
    let two = fuse.with(RuleName::MoveFiltersUp);
    check_chosen(&rt, alloc, &two, &BY_TWO_RULES);
    check_chosen(&rt, alloc, &Rules::all(), &BY_ALL_RULES);
}

#[test]
fn orders_are_chosen(rt: HostRuntime) {
    let alloc = rt.alloc();
    let moves = Rules::none().with(RuleName::MoveFiltersIntoEnumerate);
    check_chosen(&rt, alloc, &moves, &BY_MOVES);
    check_chosen(&rt, alloc, &Rules::all(), &BY_ORDER);
}

// What is chosen for a FOR over a collection of three documents in two shards.
fn check_read(rt: &impl Abort, alloc: Global, rules: &Rules, facts: &Facts, want: &str) {
    let plan = plan(alloc, "E10-- R1-");
    expect_page(rt, &chosen_of(alloc, rules, plan, facts), want, "a plan");
}

#[test]
fn plans_of_a_cluster_are_chosen(rt: HostRuntime) -> Result<(), Fail> {
    let alloc = rt.alloc();
    let two = facts(alloc, 2, b"k", 3)?;
    let scattered = "start / scatter 0 / link / docs #1 / link / gather / return #1 costs 16 \
        + scatter-in-cluster";
    // also where it is switched off
    check_read(&rt, alloc, &Rules::none(), &two, scattered);
    check_read(&rt, alloc, &Rules::all(), &two, scattered);
    let alone = indexed(alloc, 3, 2, 1)?;
    let read = "start / docs #1 / return #1 costs 7";
    check_read(&rt, alloc, &Rules::all(), &alone, read);
    Ok(())
}
