//! Nodes.

ghost use Rattle.std.specs.Prelude.{◌≡◌, ◌++◌, [], OnOk, map, codes, decimal};
ghost use Rattle.aql_tree.specs.View.{aggregate_part, aggregates as aggregate_trees, let_part};
ghost use Rattle.aql_tree.specs.View.{tree, trees};
ghost use Rattle.aql_tree.specs.declared.syntax.Ident.TheVariants.{Num};
ghost use Rattle.aql_plan.specs.View.{directions, expr_trees, key_trees, node_tree};
ghost use Rattle.aql_show.specs.Exprs.{expr_text, expr_texts};
ghost use Rattle.aql_show.specs.Lists.{in_brackets, listed};
ghost use Rattle.aql_show.specs.Names.{collection_text, variable_text};
ghost use Rattle.aql_show.specs.Nodes as spec;
ghost use Rattle.aql_show.specs.Nodes.{node_text};

use crate::bounds::write_use;
use crate::exprs::{write_after, write_exprs};
use crate::known::Known;
use crate::names::{write_collection, write_variable};
use crate::parts::{
    distinct_text, ordered_text, stage_text, write_aggregates, write_collections, write_groups,
    write_into, write_keys, write_paths, write_reading, write_shard, write_source, write_walk,
};
use crate::writing::{put, write_number, write_number_after};
use aql_meaning::Stage;
use aql_plan::Node;
use aql_tree::{AggregateItem, Expr, Key, Let};
use aql_value::{CollNo, OutOfMemory};

// A word, a variable, and an expression after what stands between them.
fn write_let(
    word: &[u8],
    var: u32,
    sign: &[u8],
    expr: &Expr,
    known: &Known<'_>,
    out: &mut Vec<u8>,
) -> Result<(), OutOfMemory>
    ensures { OnOk result (out.new.items ≡ out.old.items
        ++ word.now ++ variable_text known.now.names.now (Num var)
        ++ sign.now ++ expr_text known.now.names.now (tree expr.now)) }
{
    put(word, out)?;
    write_variable(var, known.names, out)?;
    write_after(sign, expr, known, out)
}

// A word and the keys of a sort.
fn write_ordered(
    word: &[u8],
    keys: &[Key],
    known: &Known<'_>,
    out: &mut Vec<u8>,
) -> Result<(), OutOfMemory>
    ensures { OnOk result (out.new.items ≡ out.old.items ++ word.now
        ++ spec.keys_text known.now.names.now (directions keys.now) (key_trees keys.now)) }
{
    put(word, out)?;
    write_keys(keys, known, out)
}

fn write_limit(offset: u64, count: u64, out: &mut Vec<u8>) -> Result<(), OutOfMemory>
    ensures { OnOk result (out.new.items
        ≡ out.old.items ++ codes "Limit " ++ decimal offset ++ codes ", " ++ decimal count) }
{
    put(b"Limit ", out)?;
    write_number(offset, out)?;
    write_number_after(b", ", Some(count), out)
}

// A COLLECT up to its INTO.
fn write_collect(
    stage: Stage,
    groups: &[Let],
    aggregates: &[AggregateItem],
    known: &Known<'_>,
    out: &mut Vec<u8>,
) -> Result<(), OutOfMemory>
    ensures { OnOk result (out.new.items ≡ out.old.items
        ++ codes "Collect" ++ spec.stage_text stage
        ++ listed (codes " ") (codes ", ")
        (spec.let_texts known.now.names.now (map (λ l. l.0) (map let_part groups.now))
        (trees (map (λ l. l.1) (map let_part groups.now))))
        ++ listed (codes " AGGREGATE ") (codes ", ") (spec.aggregate_texts known.now.names.now
        (aggregate_trees (map aggregate_part aggregates.now)))) }
{
    put(b"Collect", out)?;
    put(stage_text(stage), out)?;
    write_groups(groups, known, out)?;
    write_aggregates(aggregates, known, out)
}

fn write_return(
    distinct: bool,
    expr: &Expr,
    known: &Known<'_>,
    out: &mut Vec<u8>,
) -> Result<(), OutOfMemory>
    ensures { OnOk result (out.new.items ≡ out.old.items ++ codes "Return "
        ++ spec.distinct_text distinct ++ expr_text known.now.names.now (tree expr.now)) }
{
    put(b"Return ", out)?;
    write_after(distinct_text(distinct), expr, known, out)
}

// A word and a collection.
fn write_dealt(
    word: &[u8],
    coll: CollNo,
    known: &Known<'_>,
    out: &mut Vec<u8>,
) -> Result<(), OutOfMemory>
    ensures { OnOk result (out.new.items
        ≡ out.old.items ++ word.now ++ collection_text known.now.facts.now coll.0) }
{
    put(word, out)?;
    write_collection(coll, known.facts, out)
}

// The expressions by which a Distribute deals its rows out.
fn write_dealt_by(exprs: &[Expr], known: &Known<'_>, out: &mut Vec<u8>) -> Result<(), OutOfMemory>
    ensures { OnOk result (out.new.items ≡ out.old.items ++ codes " "
        ++ in_brackets (listed [] (codes ", ")
        (expr_texts known.now.names.now (expr_trees exprs.now)))) }
{
    put(b" (", out)?;
    write_exprs(exprs, known, out)?;
    put(b")", out)
}

/// Appends the text of a node.
pub fn write_node(node: &Node, known: &Known<'_>, out: &mut Vec<u8>) -> Result<(), OutOfMemory>
    ensures { OnOk result (out.new.items ≡ out.old.items
        ++ node_text known.now.names.now known.now.facts.now (node_tree node.now)) }
{
    match node {
        Node::EnumerateCollection {
            var,
            coll,
            filter,
            attrs,
            shard,
        } => {
            write_source(b"EnumerateCollection ", *var, *coll, known, out)?;
            write_reading(filter, attrs, *shard, known, out)
        }
        Node::Index {
            var,
            coll,
            filter,
            attrs,
            shard,
            index,
            equal,
            last,
            ordered,
        } => {
            write_source(b"Index ", *var, *coll, known, out)?;
            write_use(*var, *coll, *index, equal.as_slice(), last, known, out)?;
            put(ordered_text(*ordered), out)?;
            write_reading(filter, attrs, *shard, known, out)
        }
        Node::EnumerateList { var, list } => {
            write_let(b"EnumerateList ", *var, b" IN ", list, known, out)
        }
        Node::Traversal {
            vertex,
            edge,
            path,
            min,
            max,
            direction,
            start,
            collections,
            prune,
            options,
            filter,
        } => {
            put(b"Traversal ", out)?;
            write_walk(
                *vertex,
                *edge,
                *path,
                (*min, *max),
                *direction,
                known.names,
                out,
            )?;
            write_after(b" ", start, known, out)?;
            write_collections(collections.as_slice(), known.facts, out)?;
            write_paths(prune, *options, filter, known, out)
        }
        Node::Calculation { var, expr } => {
            write_let(b"Calculation ", *var, b" = ", expr, known, out)
        }
        Node::Filter { cond } => write_after(b"Filter ", cond, known, out),
        Node::Sort { keys, limit } => {
            write_ordered(b"Sort", keys.as_slice(), known, out)?;
            write_number_after(b" LIMIT ", *limit, out)
        }
        Node::Limit { offset, count } => write_limit(*offset, *count, out),
        Node::Collect {
            groups,
            aggregates,
            into,
            stage,
        } => {
            write_collect(*stage, groups.as_slice(), aggregates.as_slice(), known, out)?;
            write_into(into, known, out)
        }
        Node::Return { expr, distinct } => write_return(*distinct, expr, known, out),
        Node::NoResults => put(b"NoResults", out),
        Node::Scatter { coll, only } => {
            write_dealt(b"Scatter ", *coll, known, out)?;
            write_shard(*only, out)
        }
        Node::Distribute { coll, exprs } => {
            write_dealt(b"Distribute ", *coll, known, out)?;
            write_dealt_by(exprs.as_slice(), known, out)
        }
        Node::Remote => put(b"Remote", out),
        Node::Gather { order } => write_ordered(b"Gather", order.as_slice(), known, out),
    }
}
