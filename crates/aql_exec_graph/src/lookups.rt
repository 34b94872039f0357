//! What is looked up, and what that counts.

ghost use Rattle.std.specs.Prelude.{◌≡◌, ◌<◌, IfOk, OnOk, IsPermutation};
ghost use Rattle.aql_value.specs.View.{datum_of};
ghost use Rattle.aql_meaning.specs.Paths.{steps_from, vertex_of};
ghost use Rattle.aql_plan.specs.Fits.{Fits};
ghost use Rattle.aql_exec.specs.Counting.{counts};
ghost use Rattle.aql_exec.specs.Promises.{IsStill};
ghost use Rattle.aql_exec_graph.specs.Ledgers.{ledger, Rises, ReadsOne};
ghost use Rattle.aql_exec_graph.specs.Found.{steps_in, edges_found};
ghost use Rattle.aql_exec_graph.specs.Searches.{node_of, edges_of};

use crate::neighbours::{EdgeList, Neighbours};
use crate::search::Search;
use aql_block::Tally;
use aql_value::{OutOfMemory, Text, Value};
use std::alloc::Global;

// The steps from an id.
pub(crate) fn found_edges<W: Neighbours>(
    alloc: Global,
    world: &mut W,
    search: &Search,
    id: &Text,
    tally: &mut Tally,
) -> Result<EdgeList, OutOfMemory>
    requires fits { Fits (W.stock world.old).facts (node_of search.now) }
    ensures world { IsStill W.Surroundings world.old world.new }
    ensures steps { IfOk result (λ steps. IsPermutation (steps_from search.now.direction
        (edges_of (W.stock world.old) search.now) id.now) (steps_in steps.items)) }
    ensures counts { OnOk result (Rises (ledger tally.old (W.counted world.old))
        (ledger tally.new (W.counted world.new)) (counts 0 (edges_found
        search.now.direction (edges_of (W.stock world.old) search.now) id.now) 0)) }
{
    let _indexed = tally.scanned_index;
    let edges = world.edges(alloc, id, search.direction, &search.collections, tally)?;
    Ok(edges)
}

// The document with an id.
pub(crate) fn found_vertex<W: Neighbours>(
    alloc: Global,
    world: &mut W,
    id: &Text,
    tally: &mut Tally,
) -> Result<Value, OutOfMemory>
    ensures world { IsStill W.Surroundings world.old world.new }
    ensures document { IfOk result (λ v. datum_of v ≡ vertex_of (W.stock world.old).db id.now) }
    ensures counts { OnOk result (ReadsOne
        (ledger tally.old (W.counted world.old)) (ledger tally.new (W.counted world.new))) }
{
    let _indexed = tally.scanned_index;
    let vertex = world.vertex(alloc, id, tally)?;
    Ok(vertex)
}
