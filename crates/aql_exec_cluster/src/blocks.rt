//! A list of blocks that several executors read, each at a place of its own.

ghost use Rattle.std.specs.Prelude.{◌≡◌, ◌+◌, ◌-◌, ◌*◌, ◌^◌, ◌<◌, ◌≤◌, ◌++◌, [], ◌∷◌, length, take, drop};
ghost use Rattle.std.specs.Prelude.{slice_get, true, false, Some, MatchOption, IfOk, OnOk, OnErr};
ghost use Rattle.std.specs.List.{All};
ghost use Rattle.aql_block.specs.Tables.{rows_of};
ghost use Rattle.aql_engine.specs.Run.{rows_in};
ghost use Rattle.aql_exec_cluster.specs.Shared.{rows_at};
ghost use Rattle.aql_exec_cluster.specs.Routings.{KeysPlain, rows_to, rows_at_places};

use crate::routing::{Routing, Target};
use aql_block::Block;
use aql_value::OutOfMemory;
use std::alloc::Global;
use std::marker::Model;

/// Blocks of rows, in order. Contracts see a list of tables and speak of all their rows, `rows_in`.
#[derive(Drop)]
pub struct Blocks {
    list: Vec<Block>,
}

/// A place in a list of blocks: so many blocks in front, and so many rows of the next one.
#[derive(Clone, Copy, Debug)]
pub struct Place {
    block: usize,
    row: u32,
}

impl Model for Blocks {
    ghost use Rattle.std.specs.Prelude.{◌*◌, ◌≤◌, List, length};
    ghost use Rattle.std.specs.Coded.{coded_list};
    ghost use Rattle.aql_block.specs.Tables.{Table, coded_table};
    ghost use Rattle.aql_engine.specs.Run.{rows_in};

    ghost Value = { List Table };

    ghost coded = { coded_list coded_table };

    ghost view = { λ b. b.list.items };

    ghost invariant = { λ b. length (rows_in b.list.items) ≤ length b.list.items * 4294967296 };
}

impl Place {
    /// In front of all rows.
    pub fn start() -> Place
        ensures { (result.block ≡ 0) × (result.row ≡ 0) }
    {
        Place { block: 0, row: 0 }
    }
}

impl Blocks {
    /// No block.
    pub fn new(alloc: Global) -> Blocks
        ensures { result ≡ [] }
    {
        Blocks {
            list: Vec::new(alloc),
        }
    }

    /// Puts a block at the end; where memory runs out the list stays as it was.
    pub fn push(&mut self, block: Block) -> Result<(), OutOfMemory>
        ensures ok { OnOk result (self.new ≡ self.old ++ block ∷ []) }
        ensures err { OnErr result (self.new ≡ self.old) }
    {
        // a block has fewer than 2^32 rows
        let _rows = block.len();
        self.list.push(block)?;
        Ok(())
    }

    /// How many blocks there are; each has fewer than 2^32 rows.
    pub fn len(&self) -> usize
        ensures len { result ≡ length self.now }
        ensures few { length (rows_in self.now) ≤ result * 4294967296 }
    {
        self.list.len()
    }

    /// Moves a place past the next rows, at most so many, and says how many: none only where no
    /// row is left.
    pub fn skip(&self, place: &mut Place, most: u64) -> u64
        requires { 1 ≤ most }
        ensures rest { rows_at self.now place.new ≡ drop result (rows_at self.now place.old) }
        ensures most { result ≤ most }
        ensures within { result ≤ length (rows_at self.now place.old) }
        ensures none { result ≡ 0 → rows_at self.now place.old ≡ [] }
    {
        let Some(block) = self.seek(place) else {
            return 0;
        };
        let count = most.min(u64::from(block.len() - place.row));
        place.row += count as u32;
        count
    }

    /// Copies the next rows after a place, at most so many, and moves the place past them: none
    /// only where no row is left.
    pub fn copy_rows(
        &self,
        alloc: Global,
        place: &mut Place,
        most: u64,
    ) -> Result<Block, OutOfMemory>
        requires { 1 ≤ most }
        ensures rows { IfOk result
            (λ b. rows_at self.now place.old ≡ rows_of b ++ rows_at self.now place.new) }
        ensures most { IfOk result (λ b. length (rows_of b) ≤ most) }
        ensures none { IfOk result (λ b. rows_of b ≡ [] → rows_at self.now place.old ≡ []) }
    {
        let Some(block) = self.seek(place) else {
            return Ok(Block::empty(alloc));
        };
        let count = most.min(u64::from(block.len() - place.row));
        let end = place.row + count as u32;
        let rows = copy_range(alloc, block, place.row, end)?;
        place.row = end;
        Ok(rows)
    }

    /// Copies those of the next rows after a place that come to a shard, at most so many, and moves
    /// the place past them: none only where no such row is left.
    pub(crate) fn copy_sent(
        &self,
        alloc: Global,
        place: &mut Place,
        most: u64,
        routing: &Routing,
        target: Target,
    ) -> Result<Block, OutOfMemory>
        requires most { 1 ≤ most }
        requires plain { KeysPlain routing.now }
        requires some { 1 ≤ target.shards }
        ensures rows { IfOk result (λ b. rows_to routing.now target (rows_at self.now place.old)
            ≡ rows_of b ++ rows_to routing.now target (rows_at self.now place.new)) }
        ensures most { IfOk result (λ b. length (rows_of b) ≤ most) }
        ensures none { IfOk result (λ b. rows_of b ≡ []
            → rows_to routing.now target (rows_at self.now place.new) ≡ []) }
        ensures left { IfOk result (λ b. length (rows_of b) + length (rows_at self.now place.new)
            ≤ length (rows_at self.now place.old)) }
    {
        while let Some(block) = self.seek(place) {
            let count = most.min(u64::from(block.len() - place.row));
            let end = place.row + count as u32;
            let sent = routing.places(alloc, block, place.row, end, target)?;
            place.row = end;
            if sent.len() > 0 {
                let rows = copy_places(alloc, block, &sent)?;
                return Ok(rows);
            }
        }
        Ok(Block::empty(alloc))
    }

    /// Whether no row is left after a place, which is moved to the next row.
    pub fn is_over(&self, place: &mut Place) -> bool
        ensures same { rows_at self.now place.new ≡ rows_at self.now place.old }
        ensures over { result ≡ true → rows_at self.now place.old ≡ [] }
        ensures left { result ≡ false → 1 ≤ length (rows_at self.now place.old) }
    {
        self.seek(place).is_none()
    }

    // Moves a place to the next row, and gives its block: none where no row is left.
    fn seek(&self, place: &mut Place) -> Option<&Block>
        ensures same { rows_at self.now place.new ≡ rows_at self.now place.old }
        ensures found { MatchOption result (rows_at self.now place.old ≡ [])
            (λ block. (slice_get self.now place.new.block ≡ Some block.now)
            × (place.new.row < length (rows_of block.now))) }
    {
        while let Some(block) = self.list.get(place.block) {
            if place.row < block.len() {
                return Some(block);
            }
            place.block += 1;
            place.row = 0;
        }
        None
    }
}

// A copy of the rows of a block at these places.
fn copy_places(alloc: Global, block: &Block, places: &[u32]) -> Result<Block, OutOfMemory>
    requires within { All (λ at. at < length (rows_of block.now)) places.now }
    requires few { length places.now < 2 ^ 32 }
    ensures { IfOk result (λ b. rows_of b ≡ rows_at_places (rows_of block.now) places.now) }
{
    let mut copy = Block::new(alloc, block.registers(), places.len() as u32)?;
    for at in places {
        let Some(row) = block.row(*at) else {
            unreachable!()
        };
        match copy.append(row.to_row(alloc)?) {
            Ok(()) => {}
            Err(_) => unreachable!(),
        }
    }
    Ok(copy)
}

// A copy of the rows of a block from one to another.
fn copy_range(alloc: Global, block: &Block, from: u32, end: u32) -> Result<Block, OutOfMemory>
    requires { (from ≤ end) × (end ≤ length (rows_of block.now)) }
    ensures { IfOk result (λ b. rows_of b ≡ take (end - from) (drop from (rows_of block.now))) }
{
    let mut copy = Block::new(alloc, block.registers(), end - from)?;
    for at in from..end {
        let Some(row) = block.row(at) else {
            unreachable!()
        };
        match copy.append(row.to_row(alloc)?) {
            Ok(()) => {}
            Err(_) => unreachable!(),
        }
    }
    Ok(copy)
}
