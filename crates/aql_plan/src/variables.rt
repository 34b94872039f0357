//! The variables of plans.

ghost use Rattle.std.specs.Prelude.{◌≡◌, ◌++◌, OnOk, IfOk, map, option_map, option_to_list};
ghost use Rattle.aql_tree.specs.declared.syntax.Ident.TheVariants.{Num};
ghost use Rattle.aql_tree.specs.View.{let_part, aggregate_part, into_part, aggregates as aggregate_trees, into_tree};
ghost use Rattle.aql_meaning.specs.Uses.{used_variable};
ghost use Rattle.aql_meaning.specs.Visible.{aggregate_vars, into_var};
ghost use Rattle.aql_plan.specs.Plan.{top};
ghost use Rattle.aql_plan.specs.Variables.{vars_set, set_once, uses_at, uses_in, vars_used, number_of, numbers};
ghost use Rattle.aql_plan.specs.View.{node_tree, plan_tree};
ghost use Rattle.aql_plan.specs.Used.{uses_tree};

use crate::node_uses::add_own_uses;
use crate::plan::{Node, Plan};
use crate::{Use, Uses};
use aql_meaning::Stage;
use aql_tree::{AggregateItem, Ident, Into, Let};
use aql_value::{OutOfMemory, Seq, Vars};
use std::alloc::Global;

fn add_ident(to: &mut Vars, ident: &Ident) -> Result<(), OutOfMemory>
    ensures { OnOk result (to.new ≡ to.old ++ number_of ident.now) }
{
    match ident {
        Ident::Num(n) => to.push(*n),
        Ident::Name(_) => Ok(()),
    }
}

fn add_maybe(to: &mut Vars, var: Option<u32>) -> Result<(), OutOfMemory>
    ensures { OnOk result
        (to.new ≡ to.old ++ numbers (option_to_list (option_map (λ x. Num x) var))) }
{
    match var {
        Some(var) => to.push(var),
        None => Ok(()),
    }
}

fn add_group(to: &mut Vars, group: &Let) -> Result<(), OutOfMemory>
    ensures { OnOk result (to.new ≡ to.old ++ number_of (let_part group.now).0) }
{
    add_ident(to, &group.var)
}

fn add_groups(to: &mut Vars, groups: &[Let]) -> Result<(), OutOfMemory>
    ensures { OnOk result (to.new ≡ to.old ++ numbers (map (λ l. l.0) (map let_part groups.now))) }
{
    for group in groups {
        add_group(to, group)?;
    }
    Ok(())
}

fn add_aggregate(to: &mut Vars, aggregate: &AggregateItem) -> Result<(), OutOfMemory>
    ensures { OnOk result (to.new ≡ to.old ++ number_of (aggregate_part aggregate.now).0) }
{
    add_ident(to, &aggregate.var)
}

fn add_aggregates(to: &mut Vars, aggregates: &[AggregateItem]) -> Result<(), OutOfMemory>
    ensures { OnOk result (to.new ≡ to.old
        ++ numbers (aggregate_vars (aggregate_trees (map aggregate_part aggregates.now)))) }
{
    for aggregate in aggregates {
        add_aggregate(to, aggregate)?;
    }
    Ok(())
}

fn add_into(to: &mut Vars, into: &Option<Into>) -> Result<(), OutOfMemory>
    ensures { OnOk result (to.new ≡ to.old
        ++ numbers (option_to_list (into_var (into_tree (option_map into_part into.now))))) }
{
    match into {
        Some(into) => add_ident(to, &into.var),
        None => Ok(()),
    }
}

fn add_set_at(to: &mut Vars, node: &Node) -> Result<(), OutOfMemory>
    ensures { OnOk result (to.new ≡ to.old ++ numbers (set_once (node_tree node.now))) }
{
    match node {
        Node::EnumerateCollection { var, .. } => to.push(*var),
        Node::Index { var, .. } => to.push(*var),
        Node::EnumerateList { var, .. } => to.push(*var),
        Node::Traversal {
            vertex,
            edge,
            path,
            ..
        } => {
            to.push(*vertex)?;
            add_maybe(to, *edge)?;
            add_maybe(to, *path)
        }
        Node::Calculation { var, .. } => to.push(*var),
        Node::Collect {
            groups,
            aggregates,
            into,
            stage,
        } => match stage {
            Stage::Final => Ok(()),
            Stage::Whole | Stage::Partial => {
                add_groups(to, groups.as_slice())?;
                add_aggregates(to, aggregates.as_slice())?;
                add_into(to, into)
            }
        },
        _ => Ok(()),
    }
}

#[cycle(add_set)]
fn add_set_once(to: &mut Vars, plan: &Plan) -> Result<(), OutOfMemory>
    ensures { OnOk result (to.new ≡ to.old ++ numbers (set_once (top (plan_tree plan.now)))) }
{
    match plan {
        Plan::Singleton => Ok(()),
        Plan::Over { node, .. } => add_set_at(to, node),
        Plan::Subquery { var, body, .. } => {
            to.push(*var)?;
            add_set(to, body)
        }
    }
}

#[cycle(add_set)]
fn add_set(to: &mut Vars, plan: &Plan) -> Result<(), OutOfMemory>
    ensures { OnOk result (to.new ≡ to.old ++ numbers (vars_set (plan_tree plan.now))) }
{
    match plan.below() {
        None => Ok(()),
        Some(below) => {
            add_set_once(to, plan)?;
            add_set(to, below)
        }
    }
}

#[cycle(add_used)]
fn add_uses_at(plan: &Plan, alloc: Global, to: &mut Uses) -> Result<(), OutOfMemory>
    ensures { OnOk result
        (uses_tree to.new ≡ uses_tree to.old ++ uses_at (top (plan_tree plan.now))) }
{
    match plan {
        Plan::Subquery { body, .. } => add_uses_in(body, alloc, to),
        _ => add_own_uses(plan, alloc, to),
    }
}

#[cycle(add_used)]
fn add_uses_in(plan: &Plan, alloc: Global, to: &mut Uses) -> Result<(), OutOfMemory>
    ensures { OnOk result (uses_tree to.new ≡ uses_tree to.old ++ uses_in (plan_tree plan.now)) }
{
    match plan.below() {
        None => Ok(()),
        Some(below) => {
            add_uses_at(plan, alloc, to)?;
            add_uses_in(below, alloc, to)
        }
    }
}

fn add_variables(to: &mut Vars, uses: &[Use]) -> Result<(), OutOfMemory>
    ensures { OnOk result (to.new ≡ to.old ++ numbers (map used_variable (uses_tree uses.now))) }
{
    for used in uses {
        add_ident(to, used.variable())?;
    }
    Ok(())
}

impl Plan {
    /// The variables that the nodes of the plan set, the top node's first, those of bodies too.
    /// What a final Collect sets counts once, at its partial one, and what a Return gives is no
    /// variable.
    pub fn vars_set(&self, alloc: Global) -> Result<Vars, OutOfMemory>
        ensures { IfOk result (λ vars. vars ≡ numbers (vars_set (plan_tree self.now))) }
    {
        let mut vars = Seq::new(alloc);
        add_set(&mut vars, self)?;
        Ok(vars)
    }

    /// The variables that the expressions of the plan use, the top node's first, those of bodies
    /// too, each as often as it is used.
    pub fn vars_used(&self, alloc: Global) -> Result<Vars, OutOfMemory>
        ensures { IfOk result (λ vars. vars ≡ numbers (vars_used (plan_tree self.now))) }
    {
        let mut uses = Seq::new(alloc);
        add_uses_in(self, alloc, &mut uses)?;
        let mut vars = Seq::new(alloc);
        add_variables(&mut vars, uses.as_slice())?;
        Ok(vars)
    }
}
