//! A node for each clause; what the clause holds moves into it.

ghost use Rattle.std.specs.Prelude.{◌≡◌, ◌<◌, ◌^◌, length, map, option_map, option_to_list, None};
ghost use Rattle.std.specs.List.{AllByRecursion};
ghost use Rattle.aql_tree.specs.declared.syntax.Ident.TheVariants.{Num};
ghost use Rattle.aql_tree.specs.Tree.{no_expr};
ghost use Rattle.aql_tree.specs.View.{tree, trees, aggregates, into_tree, collect_part};
ghost use Rattle.aql_meaning.specs.Numbered.{IsNumber};
ghost use Rattle.aql_meaning.specs.declared.grouping.Stage.TheVariants.{Whole};
ghost use Rattle.aql_plan.specs.Plan as spec;
ghost use Rattle.aql_plan.specs.View.{node_tree, directions, key_trees};
ghost use Rattle.aql_plan.specs.FirstPlan.{number_among, coll_number};

use aql_plan::{CollFact, Facts, Node, Stage};
use aql_tree::{Collect, Expr, Ident, Keys};
use aql_value::{CollNo, Seq, Text, Value};
use std::alloc::Global;
use std::mem;

/// The expression; null stays in its place.
pub(crate) fn take(expr: &mut Expr) -> Expr
    ensures { result ≡ expr.old }
{
    mem::replace(expr, Expr::Lit(Value::Null))
}

/// The expression in a box; null stays in its place.
pub(crate) fn take_boxed(expr: &mut Box<Expr>) -> Expr
    ensures { result ≡ expr.old.value }
{
    take(&mut **expr)
}

pub(crate) fn number(ident: &Ident) -> u32
    requires { IsNumber ident.now }
    ensures { Num result ≡ ident.now }
{
    match ident {
        Ident::Num(n) => *n,
        Ident::Name(_) => unreachable!(),
    }
}

pub(crate) fn maybe_number(ident: &Option<Ident>) -> Option<u32>
    requires { AllByRecursion IsNumber (option_to_list ident.now) }
    ensures { option_map (λ x. Num x) result ≡ ident.now }
{
    match ident {
        Some(ident) => Some(number(ident)),
        None => None,
    }
}

// The place of a collection; how many there are, where none has the name.
fn collection_index(collections: &[CollFact], name: &str) -> u32
    requires { length collections.now < 2 ^ 32 }
    ensures { result ≡ number_among collections.now name.now }
{
    let mut index = 0;
    for collection in collections {
        if collection.name.as_str() == name {
            return index;
        }
        index += 1;
    }
    index
}

pub(crate) fn collection_number(name: &Text, facts: &Facts) -> CollNo
    requires { length facts.now.collections < 2 ^ 32 }
    ensures { result.0 ≡ coll_number facts.now name.now }
{
    CollNo(collection_index(facts.collections.as_slice(), name.as_str()))
}

/// FOR over an array.
pub fn elements(var: &Ident, list: &mut Expr) -> Node
    requires { IsNumber var.now }
    ensures { node_tree result ≡ spec.EnumerateList var.now (tree list.old) }
{
    Node::EnumerateList {
        var: number(var),
        list: take(list),
    }
}

/// FOR over a collection.
pub fn documents(var: &Ident, collection: &Text, facts: &Facts) -> Node
    requires var { IsNumber var.now }
    requires few { length facts.now.collections < 2 ^ 32 }
    ensures { node_tree result ≡ spec.EnumerateCollection (record {
      var = var.now;
      coll = coll_number facts.now collection.now;
      filter = no_expr;
      attrs = None;
      shard = None;
    }) }
{
    Node::EnumerateCollection {
        var: number(var),
        coll: collection_number(collection, facts),
        filter: None,
        attrs: None,
        shard: None,
    }
}

/// LET of any expression but a subquery.
pub fn calculation(var: &Ident, expr: &mut Expr) -> Node
    requires { IsNumber var.now }
    ensures { node_tree result ≡ spec.Calculation var.now (tree expr.old) }
{
    Node::Calculation {
        var: number(var),
        expr: take(expr),
    }
}

/// SORT.
pub fn sort(keys: &mut Keys, alloc: Global) -> Node
    ensures { node_tree result ≡ spec.Sort (directions keys.old) (key_trees keys.old) None }
{
    Node::Sort {
        keys: mem::replace(keys, Seq::new(alloc)),
        limit: None,
    }
}

/// LIMIT.
pub fn limit(offset: u64, count: u64) -> Node
    ensures { node_tree result ≡ spec.Limit offset count }
{
    Node::Limit { offset, count }
}

/// COLLECT.
pub fn collect(clause: &mut Collect, alloc: Global) -> Node
    ensures { node_tree result ≡ spec.Collect (map (λ l. l.0) (collect_part clause.old).0)
        (trees (map (λ l. l.1) (collect_part clause.old).0))
        (aggregates (collect_part clause.old).1)
        (into_tree (collect_part clause.old).2) Whole }
{
    Node::Collect {
        groups: mem::replace(&mut clause.groups, Seq::new(alloc)),
        aggregates: mem::replace(&mut clause.aggregates, Seq::new(alloc)),
        into: clause.into.take(),
        stage: Stage::Whole,
    }
}

/// RETURN.
pub fn output(expr: &mut Box<Expr>, distinct: bool) -> Node
    ensures { node_tree result ≡ spec.Return distinct (tree expr.old.value) }
{
    Node::Return {
        expr: take_boxed(expr),
        distinct,
    }
}
