//! Dealing an index out over the shards of its documents.

ghost use Rattle.std.specs.Prelude.{◌≡◌, ◌<◌, ◌^◌, [], length, map, IfOk};
ghost use Rattle.std.specs.List.{All};
ghost use Rattle.aql_plan.specs.Facts.{numbers_below};
ghost use Rattle.aql_index.specs.Dealing.{count_on, rank, dealt, IsOver};
ghost use Rattle.aql_index.specs.Entries.{IsIndex};

use crate::SortedIndex;
use crate::entries::Entry;
use aql_value::OutOfMemory;
use std::alloc::Global;

// So many zeros.
fn zeros(alloc: Global, count: u32) -> Result<Vec<u32>, OutOfMemory>
    ensures { IfOk result (λ all. all.items ≡ map (λ _. 0) (numbers_below count)) }
{
    let mut all = Vec::with_capacity(alloc, count as usize)?;
    for _shard in 0..count {
        all.push(0)?;
    }
    Ok(all)
}

// The place of each document among those of its shard, and how many are on each shard.
fn ranks_of(alloc: Global, shards: &[u32], count: u32) -> Result<(Vec<u32>, Vec<u32>), OutOfMemory>
    requires few { length shards.now < 2 ^ 32 }
    requires within { All (λ shard. shard < count) shards.now }
    ensures ranks { IfOk result
        (λ both. both.0.items ≡ map (rank shards.now) (numbers_below (length shards.now))) }
    ensures counts { IfOk result (λ both. both.1.items
        ≡ map (λ shard. count_on shard shards.now) (numbers_below count)) }
{
    let mut ranks = Vec::with_capacity(alloc, shards.len())?;
    let mut counts = zeros(alloc, count)?;
    for shard in shards {
        let at = *shard as usize;
        let before = counts[at];
        ranks.push(before)?;
        counts[at] = before + 1;
    }
    Ok((ranks, counts))
}

// An index of no documents for each shard, with room for as many entries as it will have.
fn empty_indexes(
    alloc: Global,
    width: usize,
    counts: &[u32],
) -> Result<Vec<SortedIndex>, OutOfMemory>
    ensures { IfOk result (λ all. all.items
        ≡ map (λ _. record { width = width; entries = [] }) counts.now) }
{
    let mut all = Vec::with_capacity(alloc, counts.len())?;
    for room in counts {
        all.push(SortedIndex::with_room(alloc, width, *room as usize)?)?;
    }
    Ok(all)
}

/// The indexes of the shards of the documents, of which this is an index over so many attributes.
/// Its entries are in order, so those of each shard are.
pub(crate) fn deal(
    alloc: Global,
    width: usize,
    entries: &[Entry],
    shards: &[u32],
    count: u32,
) -> Result<Vec<SortedIndex>, OutOfMemory>
    requires index { IsIndex width entries.now }
    requires few { length shards.now < 2 ^ 32 }
    requires within { All (λ shard. shard < count) shards.now }
    requires there { IsOver (length shards.now) (record { width = width; entries = entries.now }) }
    ensures { IfOk result (λ all. all.items ≡ map
        (dealt (record { width = width; entries = entries.now }) shards.now)
        (numbers_below count)) }
{
    let (ranks, counts) = ranks_of(alloc, shards, count)?;
    let mut all = empty_indexes(alloc, width, counts.as_slice())?;
    for entry in entries {
        let place = entry.place as usize;
        let keys = entry.keys.copy(alloc)?;
        let shard = shards[place] as usize;
        all[shard].append(Entry {
            keys,
            place: ranks[place],
        })?;
    }
    Ok(all)
}
