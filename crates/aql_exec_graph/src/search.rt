//! What a traversal is set to.

ghost use Rattle.std.specs.Prelude.{◌≡◌, [], ◌++◌, IfOk, OnOk};
ghost use Rattle.aql_exec_graph.specs.Searches.{registers_of};

use aql_block::Block;
use aql_tree::{Direction, Expr, UniqueEdges, UniqueVertices};
use aql_value::{CollNos, OutOfMemory};
use std::alloc::Global;

/// Under which variables paths are given, and which paths: how long they are, from which start,
/// over which edges and which way, after which of them the traversal stops, and which rows are
/// kept.
#[derive(Drop)]
pub struct Search {
    pub vertex: u32,
    pub edge: Option<u32>,
    pub path: Option<u32>,
    pub min: u32,
    pub max: u32,
    pub direction: Direction,
    pub unique_edges: UniqueEdges,
    /// Whether a vertex may come twice on a path, or in the whole traversal from a row: under
    /// `Global` the traversal goes breadth first, and each vertex has one path.
    pub unique_vertices: UniqueVertices,
    /// Whether paths are asked for breadth first; they come in any order all the same.
    pub bfs: bool,
    pub start: Expr,
    pub collections: CollNos,
    pub prune: Option<Expr>,
    pub filter: Option<Expr>,
}

impl Search {
    // No rows, with the registers of a block and the variables of a path; room for so many rows.
    pub(crate) fn block(
        &self,
        alloc: Global,
        block: &Block,
        room: u32,
    ) -> Result<Block, OutOfMemory>
        ensures { IfOk result (λ b. b ≡ record {
          registers = registers_of self.now block.now.registers;
          room = room;
          values = [];
        }) }
    {
        let registers = self.registers(alloc, block.registers())?;
        Block::new(alloc, registers.as_slice(), room)
    }

    // The variables of a path, and these.
    fn registers(&self, alloc: Global, others: &[u32]) -> Result<Vec<u32>, OutOfMemory>
        ensures { IfOk result (λ xs. xs.items ≡ registers_of self.now others.now) }
    {
        let mut registers = Vec::new(alloc);
        if let Some(path) = self.path {
            registers.push(path)?;
        }
        if let Some(edge) = self.edge {
            registers.push(edge)?;
        }
        registers.push(self.vertex)?;
        add_all(&mut registers, others)?;
        Ok(registers)
    }
}

fn add_all(registers: &mut Vec<u32>, others: &[u32]) -> Result<(), OutOfMemory>
    ensures { OnOk result (registers.new.items ≡ registers.old.items ++ others.now) }
{
    for register in others {
        registers.push(*register)?;
    }
    Ok(())
}
