//! The variables that the rows of a plan have.

ghost use Rattle.std.specs.Prelude.{◌++◌, ◌∷◌, [], map, OnOk, option_to_list, option_map};
ghost use Rattle.aql_tree.specs.declared.syntax.Ident.TheVariants.{Num};
ghost use Rattle.aql_tree.specs.View.{let_part, aggregate_part, into_part, aggregates as aggregate_trees, into_tree};
ghost use Rattle.aql_meaning.specs.Visible.{aggregate_vars, into_var};
ghost use Rattle.aql_plan.specs.Plan.{top};
ghost use Rattle.aql_plan.specs.Needs.{sets};
ghost use Rattle.aql_plan.specs.View.{node_tree, plan_tree};
ghost use Rattle.aql_plan_check.specs.inner.Rows.{AreNumbers, GivesRows, Adds};

use aql_plan::{Node, Plan};
use aql_tree::{AggregateItem, Ident, Into, Let};
use aql_value::OutOfMemory;
use indexmap::IndexSet;

/// Variables by number, the first set first.
pub(crate) type Variables = IndexSet<u32>;

fn add_number(rows: &mut Variables, var: u32) -> Result<(), OutOfMemory>
    ensures { OnOk result (Adds rows.old.keys (Num var ∷ []) rows.new.keys) }
{
    rows.insert(var)?;
    Ok(())
}

fn add_maybe(rows: &mut Variables, var: Option<u32>) -> Result<(), OutOfMemory>
    ensures { OnOk result
        (Adds rows.old.keys (option_to_list (option_map (λ x. Num x) var)) rows.new.keys) }
{
    match var {
        Some(var) => add_number(rows, var),
        None => Ok(()),
    }
}

fn add_ident(rows: &mut Variables, ident: &Ident) -> Result<(), OutOfMemory>
    requires { AreNumbers (ident.now ∷ []) }
    ensures { OnOk result (Adds rows.old.keys (ident.now ∷ []) rows.new.keys) }
{
    match ident {
        Ident::Num(n) => add_number(rows, *n),
        Ident::Name(_) => Ok(()),
    }
}

fn add_group(rows: &mut Variables, group: &Let) -> Result<(), OutOfMemory>
    requires { AreNumbers ((let_part group.now).0 ∷ []) }
    ensures { OnOk result (Adds rows.old.keys ((let_part group.now).0 ∷ []) rows.new.keys) }
{
    add_ident(rows, &group.var)
}

fn add_groups(rows: &mut Variables, groups: &[Let]) -> Result<(), OutOfMemory>
    requires { AreNumbers (map (λ l. l.0) (map let_part groups.now)) }
    ensures { OnOk result
        (Adds rows.old.keys (map (λ l. l.0) (map let_part groups.now)) rows.new.keys) }
{
    for group in groups {
        add_group(rows, group)?;
    }
    Ok(())
}

fn add_aggregate(rows: &mut Variables, aggregate: &AggregateItem) -> Result<(), OutOfMemory>
    requires { AreNumbers ((aggregate_part aggregate.now).0 ∷ []) }
    ensures { OnOk result
        (Adds rows.old.keys ((aggregate_part aggregate.now).0 ∷ []) rows.new.keys) }
{
    add_ident(rows, &aggregate.var)
}

fn add_aggregates(rows: &mut Variables, aggregates: &[AggregateItem]) -> Result<(), OutOfMemory>
    requires { AreNumbers (aggregate_vars (aggregate_trees (map aggregate_part aggregates.now))) }
    ensures { OnOk result (Adds rows.old.keys
        (aggregate_vars (aggregate_trees (map aggregate_part aggregates.now))) rows.new.keys) }
{
    for aggregate in aggregates {
        add_aggregate(rows, aggregate)?;
    }
    Ok(())
}

fn add_into(rows: &mut Variables, into: &Option<Into>) -> Result<(), OutOfMemory>
    requires { AreNumbers (option_to_list (into_var (into_tree (option_map into_part into.now)))) }
    ensures { OnOk result (Adds rows.old.keys
        (option_to_list (into_var (into_tree (option_map into_part into.now)))) rows.new.keys) }
{
    match into {
        Some(into) => add_ident(rows, &into.var),
        None => Ok(()),
    }
}

fn add_collected(
    rows: &mut Variables,
    groups: &[Let],
    all: &[AggregateItem],
    into: &Option<Into>,
) -> Result<(), OutOfMemory>
    requires groups { AreNumbers (map (λ l. l.0) (map let_part groups.now)) }
    requires all { AreNumbers (aggregate_vars (aggregate_trees (map aggregate_part all.now))) }
    requires into { AreNumbers
        (option_to_list (into_var (into_tree (option_map into_part into.now)))) }
    ensures { OnOk result (Adds rows.old.keys (map (λ l. l.0) (map let_part groups.now)
        ++ (aggregate_vars (aggregate_trees (map aggregate_part all.now))
        ++ option_to_list (into_var (into_tree (option_map into_part into.now))))) rows.new.keys) }
{
    add_groups(rows, groups)?;
    add_aggregates(rows, all)?;
    add_into(rows, into)?;
    Ok(())
}

fn add_traversed(
    rows: &mut Variables,
    vertex: u32,
    edge: Option<u32>,
    path: Option<u32>,
) -> Result<(), OutOfMemory>
    ensures { OnOk result (Adds rows.old.keys (Num vertex
        ∷ (option_to_list (option_map (λ x. Num x) edge)
        ++ option_to_list (option_map (λ x. Num x) path))) rows.new.keys) }
{
    add_number(rows, vertex)?;
    add_maybe(rows, edge)?;
    add_maybe(rows, path)?;
    Ok(())
}

fn add_node_sets(rows: &mut Variables, node: &Node) -> Result<(), OutOfMemory>
    requires numbers { AreNumbers (sets (node_tree node.now)) }
    requires rows { GivesRows (node_tree node.now) }
    ensures { OnOk result (Adds rows.old.keys (sets (node_tree node.now)) rows.new.keys) }
{
    match node {
        Node::EnumerateCollection { var, .. } => add_number(rows, *var),
        Node::Index { var, .. } => add_number(rows, *var),
        Node::EnumerateList { var, .. } => add_number(rows, *var),
        Node::Traversal {
            vertex,
            edge,
            path,
            ..
        } => add_traversed(rows, *vertex, *edge, *path),
        Node::Calculation { var, .. } => add_number(rows, *var),
        Node::Collect {
            groups,
            aggregates,
            into,
            ..
        } => add_collected(rows, groups.as_slice(), aggregates.as_slice(), into),
        _ => Ok(()),
    }
}

/// Adds what a node sets, apart from a Return.
pub(crate) fn add_sets(rows: &mut Variables, plan: &Plan) -> Result<(), OutOfMemory>
    requires numbers { AreNumbers (sets (top (plan_tree plan.now))) }
    requires rows { GivesRows (top (plan_tree plan.now)) }
    ensures { OnOk result
        (Adds rows.old.keys (sets (top (plan_tree plan.now))) rows.new.keys) }
{
    match plan {
        Plan::Singleton => Ok(()),
        Plan::Over { node, .. } => add_node_sets(rows, node),
        Plan::Subquery { var, .. } => add_number(rows, *var),
    }
}
