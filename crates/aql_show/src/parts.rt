//! Parts of nodes.

ghost use Rattle.std.specs.Prelude.{◌≡◌, ◌++◌, [], map, option_map, OnOk, codes};
ghost use Rattle.aql_tree.specs.View.{let_part, aggregate_part, aggregates, into_part, into_tree};
ghost use Rattle.aql_tree.specs.View.{trees};
ghost use Rattle.aql_tree.specs.declared.syntax.Ident.TheVariants.{Num};
ghost use Rattle.aql_meaning.specs.View.{options_tree};
ghost use Rattle.aql_plan.specs.View.{directions, key_trees, maybe_tree};
ghost use Rattle.aql_show.specs.Exprs.{function_text, maybe_text};
ghost use Rattle.aql_show.specs.Lists.{listed, in_brackets};
ghost use Rattle.aql_show.specs.Names.{collection_text, variable_text};
ghost use Rattle.aql_show.specs.Nodes as spec;

use crate::exprs::{write_after, write_expr, write_maybe};
use crate::known::Known;
use crate::names::{write_collection, write_ident, write_names, write_variable};
use crate::words::{direction_text, edges_text, order_text, sorting_text, vertices_text};
use crate::writing::{put, write_function, write_number, write_number_after};
use aql_meaning::{Stage, TraversalOptions};
use aql_plan::Facts;
use aql_tree::{AggregateItem, Direction, Expr, Ident, Into, Key, Let};
use aql_value::{CollNo, Names, OutOfMemory};

pub fn stage_text(stage: Stage) -> &'static [u8]
    ensures { result.now ≡ spec.stage_text stage }
{
    match stage {
        Stage::Whole => b"",
        Stage::Partial => b" PARTIAL",
        Stage::Final => b" FINAL",
    }
}

pub fn distinct_text(distinct: bool) -> &'static [u8]
    ensures { result.now ≡ spec.distinct_text distinct }
{
    if distinct { b"DISTINCT " } else { b"" }
}

pub fn ordered_text(ordered: Option<bool>) -> &'static [u8]
    ensures { result.now ≡ spec.ordered_text ordered }
{
    match ordered {
        Some(descending) => sorting_text(descending),
        None => b"",
    }
}

pub fn write_shard(shard: Option<u32>, out: &mut Vec<u8>) -> Result<(), OutOfMemory>
    ensures { OnOk result (out.new.items ≡ out.old.items ++ spec.shard_text shard) }
{
    write_number_after(b" SHARD ", shard.map(u64::from), out)
}

/// Appends the attributes that are kept of a document.
pub fn write_keep(attrs: &Option<Names>, out: &mut Vec<u8>) -> Result<(), OutOfMemory>
    ensures { OnOk result (out.new.items ≡ out.old.items ++ spec.keep_text attrs.now) }
{
    match attrs {
        Some(names) => {
            put(b" KEEP", out)?;
            write_names(b" ", names.as_slice(), out)
        }
        None => Ok(()),
    }
}

/// Appends the edge collections of a traversal.
pub fn write_collections(
    colls: &[CollNo],
    facts: &Facts,
    out: &mut Vec<u8>,
) -> Result<(), OutOfMemory>
    ensures { OnOk result (out.new.items ≡ out.old.items ++ listed (codes " ") (codes ",")
        (map (collection_text facts.now) (map (λ c. c.0) colls.now))) }
{
    let mut lead: &[u8] = b" ";
    for coll in colls {
        put(lead, out)?;
        write_collection(*coll, facts, out)?;
        lead = b",";
    }
    Ok(())
}

// The variables of a traversal after its vertex.
fn write_path_vars(
    edge: Option<u32>,
    path: Option<u32>,
    names: &Names,
    out: &mut Vec<u8>,
) -> Result<(), OutOfMemory>
    ensures { OnOk result (out.new.items ≡ out.old.items ++ spec.path_vars_text names.now
        (option_map (λ x. Num x) edge) (option_map (λ x. Num x) path)) }
{
    match (edge, path) {
        (None, None) => Ok(()),
        (Some(edge), None) => {
            put(b", ", out)?;
            write_variable(edge, names, out)
        }
        (None, Some(path)) => {
            put(b", _, ", out)?;
            write_variable(path, names, out)
        }
        (Some(edge), Some(path)) => {
            put(b", ", out)?;
            write_variable(edge, names, out)?;
            put(b", ", out)?;
            write_variable(path, names, out)
        }
    }
}

fn put_pair(first: &[u8], second: &[u8], out: &mut Vec<u8>) -> Result<(), OutOfMemory>
    ensures { OnOk result (out.new.items ≡ out.old.items ++ first.now ++ second.now) }
{
    put(first, out)?;
    put(second, out)
}

fn write_options(options: TraversalOptions, out: &mut Vec<u8>) -> Result<(), OutOfMemory>
    ensures { OnOk result
        (out.new.items ≡ out.old.items ++ spec.options_text (options_tree options)) }
{
    put_pair(b" uniqueEdges=", edges_text(options.edges), out)?;
    put_pair(b" uniqueVertices=", vertices_text(options.vertices), out)?;
    put_pair(b" order=", order_text(options.bfs), out)
}

/// Appends the keys of a sort, each with its direction.
pub fn write_keys(keys: &[Key], known: &Known<'_>, out: &mut Vec<u8>) -> Result<(), OutOfMemory>
    ensures { OnOk result (out.new.items ≡ out.old.items
        ++ spec.keys_text known.now.names.now (directions keys.now) (key_trees keys.now)) }
{
    let mut lead: &[u8] = b" ";
    for key in keys {
        write_after(lead, &key.expr, known, out)?;
        put(sorting_text(key.descending), out)?;
        lead = b", ";
    }
    Ok(())
}

// What stands before a variable, the variable, and ` = `.
fn write_assigned(
    front: &[u8],
    var: &Ident,
    names: &Names,
    out: &mut Vec<u8>,
) -> Result<(), OutOfMemory>
    ensures { OnOk result (out.new.items
        ≡ out.old.items ++ front.now ++ variable_text names.now var.now ++ codes " = ") }
{
    put(front, out)?;
    write_ident(var, names, out)?;
    put(b" = ", out)
}

/// Appends the criteria of COLLECT.
pub fn write_groups(groups: &[Let], known: &Known<'_>, out: &mut Vec<u8>) -> Result<(), OutOfMemory>
    ensures { OnOk result (out.new.items ≡ out.old.items ++ listed (codes " ") (codes ", ")
        (spec.let_texts known.now.names.now (map (λ l. l.0) (map let_part groups.now))
        (trees (map (λ l. l.1) (map let_part groups.now))))) }
{
    let mut lead: &[u8] = b" ";
    for group in groups {
        write_assigned(lead, &group.var, known.names, out)?;
        write_expr(&group.expr, known, out)?;
        lead = b", ";
    }
    Ok(())
}

fn write_aggregate(
    name: &str,
    arg: &Option<Expr>,
    known: &Known<'_>,
    out: &mut Vec<u8>,
) -> Result<(), OutOfMemory>
    ensures { OnOk result (out.new.items ≡ out.old.items ++ function_text name.now
        ++ in_brackets (maybe_text known.now.names.now [] (maybe_tree arg.now))) }
{
    write_function(name, out)?;
    put(b"(", out)?;
    write_maybe(b"", arg, known, out)?;
    put(b")", out)
}

/// Appends the aggregates of COLLECT.
pub fn write_aggregates(
    all: &[AggregateItem],
    known: &Known<'_>,
    out: &mut Vec<u8>,
) -> Result<(), OutOfMemory>
    ensures { OnOk result (out.new.items ≡ out.old.items
        ++ listed (codes " AGGREGATE ") (codes ", ")
        (spec.aggregate_texts known.now.names.now (aggregates (map aggregate_part all.now)))) }
{
    let mut lead: &[u8] = b" AGGREGATE ";
    for aggregate in all {
        write_assigned(lead, &aggregate.var, known.names, out)?;
        write_aggregate(aggregate.name.as_str(), &aggregate.arg, known, out)?;
        lead = b", ";
    }
    Ok(())
}

/// Appends the INTO of COLLECT.
pub fn write_into(
    into: &Option<Into>,
    known: &Known<'_>,
    out: &mut Vec<u8>,
) -> Result<(), OutOfMemory>
    ensures { OnOk result (out.new.items ≡ out.old.items
        ++ spec.into_text known.now.names.now (into_tree (option_map into_part into.now))) }
{
    match into {
        Some(into) => {
            put(b" INTO ", out)?;
            write_ident(&into.var, known.names, out)?;
            write_maybe(b" = ", &into.what, known, out)
        }
        None => Ok(()),
    }
}

/// Appends a word, a variable, and the collection that it runs over.
pub fn write_source(
    word: &[u8],
    var: u32,
    coll: CollNo,
    known: &Known<'_>,
    out: &mut Vec<u8>,
) -> Result<(), OutOfMemory>
    ensures { OnOk result (out.new.items ≡ out.old.items ++ word.now
        ++ spec.source_text known.now.names.now known.now.facts.now (Num var) coll.0) }
{
    put(word, out)?;
    write_variable(var, known.names, out)?;
    put(b" IN ", out)?;
    write_collection(coll, known.facts, out)
}

/// Appends what a node makes of the documents that it reads.
pub fn write_reading(
    filter: &Option<Expr>,
    attrs: &Option<Names>,
    shard: Option<u32>,
    known: &Known<'_>,
    out: &mut Vec<u8>,
) -> Result<(), OutOfMemory>
    ensures { OnOk result (out.new.items ≡ out.old.items ++ spec.reading_text known.now.names.now
        (maybe_tree filter.now) attrs.now shard) }
{
    write_maybe(b" FILTER ", filter, known, out)?;
    write_keep(attrs, out)?;
    write_shard(shard, out)
}

fn write_depths(min: u32, max: u32, out: &mut Vec<u8>) -> Result<(), OutOfMemory>
    ensures { OnOk result (out.new.items ≡ out.old.items ++ spec.depths_text min max) }
{
    put(b" IN ", out)?;
    write_number(u64::from(min), out)?;
    put(b"..", out)?;
    write_number(u64::from(max), out)
}

/// Appends what a traversal sets, its depths and its direction.
pub fn write_walk(
    vertex: u32,
    edge: Option<u32>,
    path: Option<u32>,
    depths: (u32, u32),
    direction: Direction,
    names: &Names,
    out: &mut Vec<u8>,
) -> Result<(), OutOfMemory>
    ensures { OnOk result (out.new.items ≡ out.old.items ++ spec.walk_text names.now (Num vertex)
        (option_map (λ x. Num x) edge) (option_map (λ x. Num x) path) depths.0 depths.1 direction) }
{
    write_variable(vertex, names, out)?;
    write_path_vars(edge, path, names, out)?;
    write_depths(depths.0, depths.1, out)?;
    put_pair(b" ", direction_text(direction), out)
}

/// Appends which paths of a traversal are walked and kept.
pub fn write_paths(
    prune: &Option<Expr>,
    options: TraversalOptions,
    filter: &Option<Expr>,
    known: &Known<'_>,
    out: &mut Vec<u8>,
) -> Result<(), OutOfMemory>
    ensures { OnOk result (out.new.items ≡ out.old.items ++ spec.paths_text known.now.names.now
        (maybe_tree prune.now) (options_tree options) (maybe_tree filter.now)) }
{
    write_maybe(b" PRUNE ", prune, known, out)?;
    write_options(options, out)?;
    write_maybe(b" FILTER ", filter, known, out)
}
