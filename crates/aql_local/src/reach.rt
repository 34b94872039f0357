//! The shards that a fragment reaches.

ghost use Rattle.std.specs.Prelude.{◌≡◌, ◌<◌, ◌^◌, [], ◌∷◌, length, true, IfOk};
ghost use Rattle.aql_plan.specs.Facts.{numbers_below};
ghost use Rattle.aql_plan.specs.Fits.{Fits};
ghost use Rattle.aql_plan.specs.View.{node_tree};
ghost use Rattle.aql_shard.specs.Datasets.{stock};
ghost use Rattle.aql_engine.specs.EachFits.{FewShards};
ghost use Rattle.aql_local.specs.Fragments.{is_foot, reached};

use aql_plan::Node;
use aql_shard::Servers;
use aql_value::{CollNo, OutOfMemory};
use std::alloc::Global;

// The numbers below a number.
fn numbers_to(alloc: Global, count: u32) -> Result<Vec<u32>, OutOfMemory>
    ensures { IfOk result (λ numbers. numbers.items ≡ numbers_below count) }
{
    let mut numbers = Vec::with_capacity(alloc, count as usize)?;
    for number in 0..count {
        numbers.push(number)?;
    }
    Ok(numbers)
}

// One number.
fn only_number(alloc: Global, number: u32) -> Result<Vec<u32>, OutOfMemory>
    ensures items { IfOk result (λ numbers. numbers.items ≡ number ∷ []) }
{
    let mut numbers = Vec::with_capacity(alloc, 1)?;
    numbers.push(number)?;
    Ok(numbers)
}

/// The shards that a Scatter or Distribute reaches, in order.
pub fn shards_reached(
    alloc: Global,
    servers: &Servers,
    foot: &Node,
) -> Result<Vec<u32>, OutOfMemory>
    requires foot { is_foot (node_tree foot.now) ≡ true }
    requires fits { Fits (stock servers.now).facts (node_tree foot.now) }
    ensures shards { IfOk result (λ shards. shards.items
        ≡ reached (stock servers.now).facts (node_tree foot.now)) }
    ensures few { IfOk result (λ shards. length shards.items < 2 ^ 32) }
{
    match foot {
        Node::Scatter { coll, only } => match only {
            Some(shard) => only_number(alloc, *shard),
            None => numbers_to(alloc, servers.shards(*coll)),
        },
        Node::Distribute { coll, .. } => numbers_to(alloc, servers.shards(*coll)),
        _ => unreachable!(),
    }
}

/// Recalls, for a proof, that how many shards a collection has is a number of 32 bits.
pub fn recall_few_shards(servers: &Servers)
    ensures { FewShards (stock servers.now).facts }
{
    for coll in 0..servers.collections() {
        let _shards = servers.shards(CollNo(coll));
    }
}
