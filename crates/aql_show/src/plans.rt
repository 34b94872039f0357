//! The lines of a plan.

ghost use Rattle.std.specs.Prelude.{◌≡◌, ◌+◌, ◌*◌, ◌≤◌, ◌++◌, replicate, length, codes, decimal};
ghost use Rattle.std.specs.Prelude.{OnOk, IfOk};
ghost use Rattle.aql_plan.specs.RuleNames.{rule_text};
ghost use Rattle.aql_plan.specs.View.{plan_tree};
ghost use Rattle.aql_tree.specs.declared.syntax.Ident.TheVariants.{Num};
ghost use Rattle.aql_show.specs.Names.{variable_text};
ghost use Rattle.aql_show.specs.PlanText.{numbered, ended, rules_line, lines, plan_text};

use crate::known::Known;
use crate::names::write_variable;
use crate::nodes::write_node;
use crate::writing::{put, write_number};
use aql_plan::{Facts, Plan, RuleName, RuleNames};
use aql_value::{Names, OutOfMemory};
use std::alloc::Global;

// What stands before a line: two spaces per level, its number and a space.
#[tactic(auto, using(crate::proofs::Lines::indented, crate::proofs::Lines::room_left))]
fn begin_line(level: u64, next: &mut u64, out: &mut Vec<u8>) -> Result<(), OutOfMemory>
    requires { next.old ≤ length out.old.items }
    ensures text { OnOk result (out.new.items
        ≡ out.old.items ++ replicate (2 * level) 32 ++ decimal next.old ++ codes " ") }
    ensures next { OnOk result (next.new ≡ next.old + 1) }
    ensures room { OnOk result (next.new ≤ length out.new.items) }
{
    for _ in 0..level {
        put(b"  ", out)?;
    }
    write_number(*next, out)?;
    put(b" ", out)?;
    *next += 1;
    Ok(())
}

fn write_subquery(var: u32, names: &Names, out: &mut Vec<u8>) -> Result<(), OutOfMemory>
    ensures { OnOk result (out.new.items
        ≡ out.old.items ++ codes "Subquery " ++ variable_text names.now (Num var)) }
{
    put(b"Subquery ", out)?;
    write_variable(var, names, out)
}

// The lines of the nodes from the start on; those of a body stand after their Subquery.
#[cycle(lines)]
fn write_lines(
    plan: &Plan,
    level: u64,
    next: &mut u64,
    known: &Known<'_>,
    out: &mut Vec<u8>,
) -> Result<(), OutOfMemory>
    requires level { level ≤ next.old }
    requires room { next.old ≤ length out.old.items }
    ensures text { OnOk result (out.new.items ≡ out.old.items ++ ended (numbered next.old
        (lines known.now.names.now known.now.facts.now level (plan_tree plan.now)))) }
    ensures next { OnOk result (next.new ≡ next.old
        + length (lines known.now.names.now known.now.facts.now level (plan_tree plan.now))) }
    ensures room { OnOk result (next.new ≤ length out.new.items) }
{
    match plan {
        Plan::Singleton => {
            begin_line(level, next, out)?;
            put(b"Singleton\n", out)
        }
        Plan::Over { below, node } => {
            write_lines(below, level, next, known, out)?;
            begin_line(level, next, out)?;
            write_node(node, known, out)?;
            put(b"\n", out)
        }
        Plan::Subquery { below, var, body } => {
            write_lines(below, level, next, known, out)?;
            begin_line(level, next, out)?;
            write_subquery(*var, known.names, out)?;
            put(b"\n", out)?;
            write_lines(body, level + 1, next, known, out)
        }
    }
}

fn write_rule(rule: RuleName, alloc: Global, out: &mut Vec<u8>) -> Result<(), OutOfMemory>
    ensures { OnOk result (out.new.items ≡ out.old.items ++ rule_text rule) }
{
    let name = format!(in alloc; "{rule}")?;
    put(name.as_str().as_bytes(), out)
}

fn write_rules(applied: &[RuleName], alloc: Global, out: &mut Vec<u8>) -> Result<(), OutOfMemory>
    ensures { OnOk result (out.new.items ≡ out.old.items ++ rules_line applied.now) }
{
    if applied.is_empty() {
        return put(b"rules none", out);
    }
    let mut lead: &[u8] = b"rules ";
    for rule in applied {
        put(lead, out)?;
        write_rule(*rule, alloc, out)?;
        lead = b", ";
    }
    Ok(())
}

/// The text of a plan: a line for each node in the order of execution, then the names of the rules
/// that changed it and its cost. The name of variable n stands at place n - 1 of `names`.
pub fn plan_text(
    alloc: Global,
    plan: &Plan,
    names: &Names,
    facts: &Facts,
    applied: &RuleNames,
    cost: u64,
) -> Result<Vec<u8>, OutOfMemory>
    ensures { IfOk result (λ text. text.items
        ≡ plan_text names.now facts.now (plan_tree plan.now) applied.now cost) }
{
    let known = Known {
        alloc,
        names,
        facts,
    };
    let mut out = Vec::new(alloc);
    put(b"plan\n", &mut out)?;
    let mut next = 1;
    write_lines(plan, 1, &mut next, &known, &mut out)?;
    write_rules(applied.as_slice(), alloc, &mut out)?;
    put(b"\ncost ", &mut out)?;
    write_number(cost, &mut out)?;
    put(b"\n", &mut out)?;
    Ok(out)
}
