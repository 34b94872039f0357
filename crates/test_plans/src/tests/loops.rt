// The orders that the rule interchange-adjacent-enumerations gives, worked out by hand.
ghost use Rattle.std.specs.Prelude.{false};
ghost use Rattle.aql_plan.specs.View.{plan_tree};
ghost use Rattle.aql_rewrite.specs.Placed.{IsWhole};

use crate::tests::checked::{expect_page, is_taken};
use crate::tests::lines::Line::{self, Docs, DocsCut, DocsIf, FilterBy, Found, Let, Return};
use crate::tests::lines::{plan_of, two_collections};
use aql_plan::{Facts, Node, Plan};
use aql_rules_order::candidates;
use std::alloc::Global;
use std::process::Abort;
use test_support::Page;

fn write_loop(node: &Node, page: &mut Page) {
    match node {
        Node::EnumerateCollection { var, .. } => page.put_shown(var),
        Node::Index { var, .. } => page.put_shown(var),
        _ => {}
    }
}

// The variables of the FORs over collections, the lowest first.
fn write_loops(plan: &Plan, page: &mut Page) {
    if let Plan::Over { below, node } = plan {
        write_loops(below, page);
        write_loop(node, page);
    }
}

fn write_candidates(alloc: Global, plan: Plan, facts: &Facts, page: &mut Page)
    requires { IsWhole false facts.now (plan_tree plan) }
{
    match candidates(alloc, plan, facts) {
        Ok(all) => {
            for candidate in &all {
                page.put(" ");
                write_loops(candidate, page);
            }
        }
        Err(_) => page.put("no memory"),
    }
}

// The loops of each candidate for a plan.
fn candidates_of(alloc: Global, lines: &[Line], facts: &Facts) -> Page {
    let mut page = Page::new(alloc);
    match plan_of(alloc, lines) {
        Ok(plan) => {
            if is_taken(alloc, &plan, facts) {
                write_candidates(alloc, plan, facts, &mut page);
            } else {
                page.put("no such plan");
            }
        }
        Err(_) => page.put("no memory"),
    }
    page
}

fn check_candidates(rt: &impl Abort, alloc: Global, rows: &[(&[Line], &str)]) {
    match two_collections(alloc) {
        Ok(facts) => {
            for (lines, want) in rows {
                expect_page(rt, &candidates_of(alloc, lines, &facts), want, "a plan");
            }
        }
        Err(_) => assert!(rt; false, "no memory"),
    }
}

static REORDERED: [(&[Line], &str); 9] = [
    (&[Docs(1), Docs(2), Return(1)], " 12 21"),
    (
        &[Docs(1), Docs(2), Docs(3), Return(1)],
        " 123 132 213 231 312 321",
    ),
    (
        &[Docs(1), Docs(2), Docs(3), Docs(4), Return(1)],
        " 1234 1243 1324 1342 1423 1432 2134 2143 2314 2341 2413 2431 3124 3142 3214 3241 3412 \
        3421 4123 4132 4213 4231 4312 4321",
    ),
    (
        &[Docs(1), Docs(2), Docs(3), Docs(4), Docs(5), Return(1)],
        " 12345 12435 13245 13425 14235 14325 21345 21435 23145 23415 24135 24315 31245 31425 \
        32145 32415 34125 34215 41235 41325 42135 42315 43125 43215",
    ),
    (&[Docs(1), DocsCut(2), Return(1)], " 12 21"),
    (
        &[Docs(5), FilterBy(1), Docs(1), Docs(2), Return(1)],
        " 512 521",
    ),
    (
        &[Docs(1), Docs(2), Let(5, 1), Docs(3), Docs(4), Return(1)],
        " 1234 2134",
    ),
    (
        &[Docs(1), Docs(2), DocsIf(3, &[(1, "a")]), Return(1)],
        " 123 213",
    ),
    (
        &[Docs(1), DocsIf(2, &[(1, "a")]), Docs(3), Docs(4), Return(1)],
        " 1234 1243",
    ),
];

static ALONE: [(&[Line], &str); 6] = [
    (&[Docs(1), Return(1)], " 1"),
    (&[Docs(1), FilterBy(1), Docs(2), Return(1)], " 12"),
    (&[Docs(1), DocsIf(2, &[(1, "a")]), Return(1)], " 12"),
    (&[DocsIf(1, &[(1, "a")]), Docs(2), Return(1)], " 12"),
    (&[Docs(1), Found(2), Return(1)], " 12"),
    (&[Let(1, 1), Return(1)], " "),
];

#[test]
fn loops_take_each_order(rt: HostRuntime) {
    let alloc = rt.alloc();
    check_candidates(&rt, alloc, &REORDERED);
    check_candidates(&rt, alloc, &ALONE);
}
