// Rules at the first place of a plan, once it is seen that the plan is one that they take.
ghost use Rattle.std.specs.Prelude.{◌≡◌, false, IsTrue};
ghost use Rattle.aql_plan.specs.Shapes.{HasNoFragment, IsNoFragment};
ghost use Rattle.aql_plan.specs.View.{node_tree, plan_tree};
ghost use Rattle.aql_rewrite.specs.Placed.{IsWhole};

use crate::tests::lines::{Line, plan_of, two_collections};
use crate::tests::texts::write_plan;
use aql_plan::{Facts, Node, Plan, Stage};
use aql_plan_check::well_formed;
use aql_rewrite::{Rule, first_place};
use std::alloc::Global;
use std::process::Abort;
use test_support::Page;

/// Where a rule changes nothing.
pub const NONE: &str = "no place";

/// The page holds this text.
pub fn expect_page(rt: &impl Abort, page: &Page, want: &str, of: &str) {
    assert!(rt; page.is_whole());
    assert_eq!(rt; page.as_str(), want, "of {of}");
}

fn is_no_fragment(node: &Node) -> bool
    ensures { IsTrue result → IsNoFragment (node_tree node.now) }
{
    match node {
        Node::Collect { stage, .. } => match stage {
            Stage::Whole => true,
            _ => false,
        },
        Node::Scatter { .. } | Node::Distribute { .. } | Node::Remote | Node::Gather { .. } => {
            false
        }
        _ => true,
    }
}

#[cycle(alone)]
fn has_no_fragment(plan: &Plan) -> bool
    ensures { IsTrue result → HasNoFragment (plan_tree plan.now) }
{
    match plan {
        Plan::Singleton => true,
        Plan::Over { below, node } => is_no_fragment(node) && has_no_fragment(below),
        Plan::Subquery { below, body, .. } => has_no_fragment(below) && has_no_fragment(body),
    }
}

/// Whether a plan is well formed and without fragments.
pub fn is_taken(alloc: Global, plan: &Plan, facts: &Facts) -> bool
    ensures { IsTrue result → IsWhole false facts.now (plan_tree plan.now) }
{
    match well_formed(alloc, plan, facts) {
        Ok(true) => has_no_fragment(plan),
        _ => false,
    }
}

fn write_first<R: Rule>(alloc: Global, rule: &R, plan: Plan, facts: &Facts, page: &mut Page)
    requires fragments { R.fragments rule.now ≡ false }
    requires whole { IsWhole false facts.now (plan_tree plan) }
{
    match first_place(alloc, rule, plan, facts) {
        Ok(step) => {
            if step.changed {
                write_plan(&step.plan, page);
            } else {
                page.put(NONE);
            }
        }
        Err(_) => page.put("no memory"),
    }
}

// What the rule makes of a plan at its first place.
fn first_of<R: Rule>(alloc: Global, rule: &R, lines: &[Line], facts: &Facts) -> Page
    requires { R.fragments rule.now ≡ false }
{
    let mut page = Page::new(alloc);
    match plan_of(alloc, lines) {
        Ok(plan) => {
            if is_taken(alloc, &plan, facts) {
                write_first(alloc, rule, plan, facts, &mut page);
            } else {
                page.put("no such plan");
            }
        }
        Err(_) => page.put("no memory"),
    }
    page
}

/// The rule makes these of these plans.
pub fn check_rule<R: Rule>(rt: &impl Abort, alloc: Global, rule: &R, rows: &[(&[Line], &str)])
    requires { R.fragments rule.now ≡ false }
{
    match two_collections(alloc) {
        Ok(facts) => {
            for (lines, want) in rows {
                expect_page(rt, &first_of(alloc, rule, lines, &facts), want, "a plan");
            }
        }
        Err(_) => assert!(rt; false, "no memory"),
    }
}
