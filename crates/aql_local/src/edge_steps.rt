//! The steps from an id.

ghost use Rattle.std.specs.Prelude.{◌≡◌, ◌<◌, ◌++◌, [], ◌∷◌, length, map, slice_get, Some, option_to_list, IfOk, OnOk, IsPermutation};
ghost use Rattle.std.specs.List.{AllByRecursion};
ghost use Rattle.aql_value.specs.Convert as convert;
ghost use Rattle.aql_value.specs.Contents.{at_name};
ghost use Rattle.aql_value.specs.Database.{documents_of};
ghost use Rattle.aql_value.specs.Datum.{Datum, text};
ghost use Rattle.aql_value.specs.View.{datum_of};
ghost use Rattle.aql_meaning.specs.Paths.{steps_from};
ghost use Rattle.aql_plan.specs.Fits.{IsEdgeCollection};
ghost use Rattle.aql_plan.specs.Runs.{edges_in};
ghost use Rattle.aql_exec_graph.specs.Found.{numbers, steps_in, step_of, found_more, edges_found};
ghost use Rattle.aql_shard.specs.Datasets.{stock, one_found};
ghost use Rattle.aql_local.specs.inner.EdgeSteps.{near_end, edges_by, step_over, steps_by};
ghost use Rattle.aql_local.specs.inner.Lookups.{order_by};

use crate::documents::{attribute, is_text_at};
use crate::lookups::{SystemAttribute, find_span, index_by, lone_text, recall_counts};
use aql_block::Tally;
use aql_exec_graph::{EdgeList, EdgeStep};
use aql_shard::Servers;
use aql_tree::Direction;
use aql_value::{CollNo, CollNos, Items, OutOfMemory, Text, Value, copy, to_text};
use std::alloc::Global;

// A way to follow edges from an id: along those that leave it, or against those that enter it; or
// against those alone that don't leave it too.
#[derive(Clone, Copy)]
enum Way {
    Along,
    Against,
    AgainstOthers,
}

// An id, and the same as the value that an index is searched for.
#[derive(Drop)]
struct Sought<'a> {
    id: &'a Text,
    values: Items,
}

/// The steps from an id over the edges of these collections, each once. Each edge that an index
/// finds is counted, in the tally and in the servers' own counts: a self-loop that is followed both
/// ways is found by both of its ends.
pub fn edges_at(
    alloc: Global,
    servers: &mut Servers,
    id: &Text,
    direction: Direction,
    collections: &CollNos,
    tally: &mut Tally,
) -> Result<EdgeList, OutOfMemory>
    requires edges { AllByRecursion (IsEdgeCollection (stock servers.old).facts)
        (numbers collections.now) }
    ensures servers { servers.new ≡ record servers.old { counts = servers.new.counts } }
    ensures steps { IfOk result (λ steps. IsPermutation (steps_from direction
        (edges_in (stock servers.old).db (numbers collections.now)) id.now)
        (steps_in steps.items)) }
    ensures tally { OnOk result (tally.new ≡ found_more (edges_found direction
        (edges_in (stock servers.old).db (numbers collections.now)) id.now) tally.old) }
    ensures counts { OnOk result (servers.new.counts ≡ found_more (edges_found direction
        (edges_in (stock servers.old).db (numbers collections.now)) id.now) servers.old.counts) }
{
    let _found = tally.scanned_index;
    recall_counts(servers);
    let sought = Sought {
        id,
        values: lone_text(alloc, id)?,
    };
    let mut steps = Vec::new(alloc);
    for coll in collections.as_slice() {
        add_all(alloc, servers, *coll, direction, &sought, &mut steps, tally)?;
    }
    Ok(steps)
}

// Adds the steps over the edges of a collection.
fn add_all(
    alloc: Global,
    servers: &mut Servers,
    coll: CollNo,
    direction: Direction,
    sought: &Sought<'_>,
    steps: &mut EdgeList,
    tally: &mut Tally,
) -> Result<(), OutOfMemory>
    requires edges { IsEdgeCollection (stock servers.old).facts coll.0 }
    requires sought { sought.now.values ≡ text sought.now.id.now ∷ [] }
    ensures servers { servers.new ≡ record servers.old { counts = servers.new.counts } }
    ensures steps { OnOk result (steps_in steps.new.items ≡ steps_in steps.old.items
        ++ steps_from direction (documents_of (stock servers.old).db coll.0) sought.now.id.now) }
    ensures tally { OnOk result (tally.new ≡ found_more (edges_found direction
        (documents_of (stock servers.old).db coll.0) sought.now.id.now) tally.old) }
    ensures counts { OnOk result (servers.new.counts ≡ found_more (edges_found direction
        (documents_of (stock servers.old).db coll.0) sought.now.id.now) servers.old.counts) }
{
    match direction {
        Direction::Outbound => {
            add_steps(alloc, servers, coll, Way::Along, sought, steps, tally)?;
            Ok(())
        }
        Direction::Inbound => {
            add_steps(alloc, servers, coll, Way::Against, sought, steps, tally)?;
            Ok(())
        }
        Direction::Any => {
            add_steps(alloc, servers, coll, Way::Along, sought, steps, tally)?;
            add_steps(
                alloc,
                servers,
                coll,
                Way::AgainstOthers,
                sought,
                steps,
                tally,
            )?;
            Ok(())
        }
    }
}

// Adds the steps of one way, over the edges that the index over their near end finds.
fn add_steps(
    alloc: Global,
    servers: &mut Servers,
    coll: CollNo,
    way: Way,
    sought: &Sought<'_>,
    steps: &mut EdgeList,
    tally: &mut Tally,
) -> Result<(), OutOfMemory>
    requires edges { IsEdgeCollection (stock servers.old).facts coll.0 }
    requires sought { sought.now.values ≡ text sought.now.id.now ∷ [] }
    ensures servers { servers.new ≡ record servers.old { counts = servers.new.counts } }
    ensures steps { OnOk result (steps_in steps.new.items ≡ steps_in steps.old.items
        ++ steps_by way sought.now.id.now (documents_of (stock servers.old).db coll.0)) }
    ensures tally { OnOk result (tally.new ≡ found_more (length (edges_by way sought.now.id.now
        (documents_of (stock servers.old).db coll.0))) tally.old) }
    ensures counts { OnOk result (servers.new.counts
        ≡ found_more (length (edges_by way sought.now.id.now
        (documents_of (stock servers.old).db coll.0))) servers.old.counts) }
{
    let _found = tally.scanned_index;
    recall_counts(servers);
    let span = find_span(servers, coll, near_end(way), &sought.values);
    for place in span.from..span.to {
        let step = step_at(alloc, servers, coll, way, place, sought.id, tally)?;
        if let Some(step) = step {
            steps.push(step)?;
        }
    }
    Ok(())
}

// The step over the edge at a place of the index over the near ends, which counts as found; `None`
// where the way leaves it out.
fn step_at(
    alloc: Global,
    servers: &mut Servers,
    coll: CollNo,
    way: Way,
    place: u32,
    id: &Text,
    tally: &mut Tally,
) -> Result<Option<EdgeStep>, OutOfMemory>
    requires edges { IsEdgeCollection (stock servers.old).facts coll.0 }
    requires place { place < length (order_by (near_end way) (stock servers.old) coll.0) }
    ensures servers { servers.new ≡ record servers.old { counts = one_found servers.old.counts } }
    ensures tally { tally.new ≡ one_found tally.old }
    ensures step { IfOk result (λ step. (edge : Datum)
        × (slice_get (order_by (near_end way) (stock servers.old) coll.0) place ≡ Some edge)
        × (map step_of (option_to_list step) ≡ step_over way id.now edge)) }
{
    let index = index_by(near_end(way));
    let edge = servers.indexed(coll, None, index, u64::from(place), tally);
    let step = step_over(alloc, edge, way, id)?;
    Ok(step)
}

// The end of an edge where a way begins.
fn near_end(way: Way) -> SystemAttribute
    ensures { result ≡ near_end way }
{
    match way {
        Way::Along => SystemAttribute::From,
        Way::Against | Way::AgainstOthers => SystemAttribute::To,
    }
}

// The step over an edge that has the id at its near end; `None` where the way leaves it out.
fn step_over(
    alloc: Global,
    edge: &Value,
    way: Way,
    id: &Text,
) -> Result<Option<EdgeStep>, OutOfMemory>
    ensures { IfOk result (λ step. map step_of (option_to_list step)
        ≡ step_over way id.now (datum_of edge.now)) }
{
    match way {
        Way::Along => Ok(Some(step_to(alloc, edge, "_to")?)),
        Way::AgainstOthers if is_text_at(edge, "_from", id) => Ok(None),
        Way::Against | Way::AgainstOthers => Ok(Some(step_to(alloc, edge, "_from")?)),
    }
}

// The step over an edge to the id in an attribute of it.
fn step_to(alloc: Global, edge: &Value, end: &str) -> Result<EdgeStep, OutOfMemory>
    ensures { IfOk result (λ step. step_of step ≡ record {
      edge = datum_of edge.now;
      to = convert.to_text (at_name (datum_of edge.now) end.now);
    }) }
{
    let to = match attribute(edge, end) {
        Some(value) => to_text(alloc, value)?,
        None => Text::new(alloc, "")?,
    };
    Ok(EdgeStep {
        edge: copy(alloc, edge)?,
        to,
    })
}
