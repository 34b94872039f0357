//! What traversals read.

ghost use Rattle.std.specs.Prelude.{◌≡◌, IfOk, OnOk, IsPermutation};
ghost use Rattle.std.specs.List.{AllByRecursion};
ghost use Rattle.aql_value.specs.View.{datum_of};
ghost use Rattle.aql_meaning.specs.Paths.{steps_from, vertex_of};
ghost use Rattle.aql_plan.specs.Fits.{IsEdgeCollection};
ghost use Rattle.aql_plan.specs.Runs.{edges_in};
ghost use Rattle.aql_block.specs.declared.tally.Tally.{Tally};
ghost use Rattle.aql_exec.specs.Promises.{IsStill};
ghost use Rattle.aql_exec_graph.specs.Found.{numbers, steps_in, found_more, edges_found, vertices_found, OwnFound};

use aql_block::Tally;
use aql_exec::Surroundings;
use aql_tree::Direction;
use aql_value::{CollNos, OutOfMemory, Text, Value};
use std::alloc::Global;

/// A step: an edge, and the id that it leads to.
#[derive(Drop)]
pub struct EdgeStep {
    pub edge: Value,
    pub to: Text,
}

/// A list of steps.
pub type EdgeList = Vec<EdgeStep>;

/// A world in which the edges at an id can be looked up, and the document with an id.
pub trait Neighbours: Surroundings {
    /// The steps from an id over the edges of these collections, each once and in any order. What a
    /// lookup finds is counted: each edge as one, a self-loop that is followed both ways as two.
    fn edges(
        &mut self,
        alloc: Global,
        id: &Text,
        direction: Direction,
        collections: &CollNos,
        tally: &mut Tally,
    ) -> Result<EdgeList, OutOfMemory>
        requires edges { AllByRecursion (IsEdgeCollection (Self.stock self.old).facts)
            (numbers collections.now) }
        ensures world { IsStill Self.Surroundings self.old self.new }
        ensures steps { IfOk result (λ steps. IsPermutation (steps_from direction
            (edges_in (Self.stock self.old).db (numbers collections.now)) id.now)
            (steps_in steps.items)) }
        ensures tally { OnOk result (tally.new ≡ found_more (edges_found direction
            (edges_in (Self.stock self.old).db (numbers collections.now)) id.now) tally.old) }
        ensures own { OnOk result (OwnFound (Self.counted self.old) (Self.counted self.new)
            (edges_found direction
            (edges_in (Self.stock self.old).db (numbers collections.now)) id.now)) };

    /// The document with this id, null where there is none. A document that is found counts as one.
    fn vertex(&mut self, alloc: Global, id: &Text, tally: &mut Tally) -> Result<Value, OutOfMemory>
        ensures world { IsStill Self.Surroundings self.old self.new }
        ensures document { IfOk result
            (λ v. datum_of v ≡ vertex_of (Self.stock self.old).db id.now) }
        ensures tally { OnOk result (tally.new
            ≡ found_more (vertices_found (Self.stock self.old).db id.now) tally.old) }
        ensures own { OnOk result (OwnFound (Self.counted self.old) (Self.counted self.new)
            (vertices_found (Self.stock self.old).db id.now)) };
}
