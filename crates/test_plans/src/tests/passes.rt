// Passes over a plan with a body, worked out by hand.
ghost use Rattle.std.specs.Prelude.{◌≡◌, [], false, IfOk};
ghost use Rattle.aql_tree.specs.View.{tree};
ghost use Rattle.aql_plan.specs.Plan.{Over, Singleton, Filter, Return};
ghost use Rattle.aql_plan.specs.View.{plan_tree};
ghost use Rattle.test_plans.specs.NotFalse.{not_false as spec_not_false};
ghost use Rattle.test_plans.specs.Sample.{two_of as spec_two_of, sample as spec_sample};
ghost use Rattle.test_plans.specs.Sample.{sample_body as spec_sample_body};

use crate::tests::pages::{Page, expect_page};
use crate::tests::rules::{Never, NotFalse, Nowhere};
use aql_func::UnaryOp;
use aql_passes::run_expr_pass;
use aql_plan::{CollFacts, Facts, Node, Passed, Plan};
use aql_rewrite::{ExprRule, first_place, node_exprs, run_pass};
use aql_tree::Expr;
use aql_value::{OutOfMemory, Seq, Value};
use std::alloc::Global;
use std::process::Abort;
use test_support::{Notation, write_expr};

fn not_false(alloc: Global) -> Result<Expr, OutOfMemory>
    ensures { IfOk result (λ e. tree e ≡ spec_not_false) }
{
    Ok(Expr::Unary {
        op: UnaryOp::Not,
        of: Box::new(alloc, Expr::Lit(Value::Bool(false)))?,
    })
}

fn two_of(alloc: Global) -> Result<Expr, OutOfMemory>
    ensures { IfOk result (λ e. tree e ≡ spec_two_of) }
{
    let mut items = Seq::new(alloc);
    items.push(not_false(alloc)?)?;
    items.push(not_false(alloc)?)?;
    Ok(Expr::List(items))
}

fn filtered(alloc: Global) -> Result<Plan, OutOfMemory>
    ensures { IfOk result (λ p. plan_tree p ≡ Over Singleton (Filter spec_not_false)) }
{
    let cond = not_false(alloc)?;
    Node::Filter { cond }.over(alloc, Plan::Singleton)
}

fn returned(alloc: Global, below: Plan, expr: Expr) -> Result<Plan, OutOfMemory>
    ensures { IfOk result (λ p. plan_tree p ≡ Over (plan_tree below) (Return false (tree expr))) }
{
    let node = Node::Return {
        expr,
        distinct: false,
    };
    node.over(alloc, below)
}

fn sample_body(alloc: Global) -> Result<Plan, OutOfMemory>
    ensures { IfOk result (λ p. plan_tree p ≡ spec_sample_body) }
{
    let below = filtered(alloc)?;
    returned(alloc, below, not_false(alloc)?)
}

fn sample(alloc: Global) -> Result<Plan, OutOfMemory>
    ensures { IfOk result (λ p. plan_tree p ≡ spec_sample) }
{
    let below = filtered(alloc)?;
    let body = sample_body(alloc)?;
    let subquery = Plan::subquery(alloc, below, 1, body)?;
    returned(alloc, subquery, two_of(alloc)?)
}

fn no_facts(alloc: Global) -> Facts
    ensures { result.collections ≡ [] }
{
    Facts {
        servers: 0,
        collections: CollFacts::new(alloc),
    }
}

// A node by its expressions, with its body in brackets after them.
fn write_plan(alloc: Global, plan: &Plan, page: &mut Page) {
    if let Some(below) = plan.below() {
        write_plan(alloc, below, page);
    }
    page.put("|");
    match node_exprs(alloc, plan) {
        Ok(all) => {
            for expr in &all {
                write_expr(" ", expr, Notation::Bracketed, page);
            }
        }
        Err(_) => page.put("no memory"),
    }
    if let Some(body) = plan.body() {
        page.put(" (");
        write_plan(alloc, body, page);
        page.put(")");
    }
}

fn write_passed(alloc: Global, passed: Result<Passed, OutOfMemory>, page: &mut Page) {
    match passed {
        Ok(passed) => {
            page.put(if passed.changed {
                "changed "
            } else {
                "unchanged "
            });
            write_plan(alloc, &passed.plan, page);
        }
        Err(_) => page.put("no memory"),
    }
}

// The pass of a rule over the sample.
#[tactic(auto, using(crate::specs::Sample::whole_of))]
fn write_rewritten<R: ExprRule>(alloc: Global, rule: &R, page: &mut Page) {
    match sample(alloc) {
        Ok(plan) => {
            let facts = no_facts(alloc);
            write_passed(alloc, run_expr_pass(alloc, rule, plan, &facts), page);
        }
        Err(_) => page.put("no memory"),
    }
}

fn expect_rewritten<R: ExprRule>(rt: &impl Abort, alloc: Global, rule: &R, want: &str) {
    let mut page = Page::new(alloc);
    write_rewritten(alloc, rule, &mut page);
    expect_page(rt, &page, want, "a rule over a plan");
}

// The sample after a rule on plans was applied at its first place, if there is one, and after its
// pass.
#[tactic(auto, using(crate::specs::Sample::whole_of))]
fn write_step(alloc: Global, rule: &Nowhere, page: &mut Page) {
    match sample(alloc) {
        Ok(plan) => {
            let facts = no_facts(alloc);
            write_passed(alloc, first_place(alloc, rule, plan, &facts), page);
        }
        Err(_) => page.put("no memory"),
    }
}

#[tactic(auto, using(crate::specs::Sample::whole_of))]
fn write_pass(alloc: Global, rule: &Nowhere, page: &mut Page) {
    match sample(alloc) {
        Ok(plan) => {
            let facts = no_facts(alloc);
            write_passed(alloc, run_pass(alloc, rule, plan, &facts), page);
        }
        Err(_) => page.put("no memory"),
    }
}

static OLD: &str =
    "unchanged || (Not false)| (|| (Not false)| (Not false))| [ (Not false) (Not false) ]";

static NEW: &str = "changed || true| (|| true| true)| [ true true ]";

#[test]
fn rule_over_plan(rt: HostRuntime) {
    let alloc = rt.alloc();
    expect_rewritten(&rt, alloc, &Never {}, OLD);
    expect_rewritten(&rt, alloc, &NotFalse {}, NEW);
}

#[test]
fn rule_without_place(rt: HostRuntime) {
    let alloc = rt.alloc();
    let mut step = Page::new(alloc);
    write_step(alloc, &Nowhere {}, &mut step);
    expect_page(&rt, &step, OLD, "a step of a rule without a place");
    let mut pass = Page::new(alloc);
    write_pass(alloc, &Nowhere {}, &mut pass);
    expect_page(&rt, &pass, OLD, "a pass of a rule without a place");
}
