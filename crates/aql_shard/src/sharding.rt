//! On which shard a document is, and on which server a shard.

ghost use Rattle.std.specs.Prelude.{◌≡◌, ◌≤◌, IfOk};
ghost use Rattle.aql_value.specs.View.{datum_of};
ghost use Rattle.aql_value.specs.Shards.{shard_of};
ghost use Rattle.aql_shard.specs.Sharding.{server_of, shard_by};

use aql_value::{CollNo, Items, Names, OutOfMemory, Value, document_hash, shard_hash};
use std::alloc::Global;

/// The shard, of so many, of the documents with these values of the shard keys. Only want of memory
/// is refused.
pub fn shard_of(alloc: Global, values: &Items, shards: u32) -> Result<u32, OutOfMemory>
    requires { 1 ≤ shards }
    ensures { IfOk result (λ shard. shard ≡ shard_of shards values.now) }
{
    let hash = shard_hash(alloc, values)?;
    Ok((hash % u64::from(shards)) as u32)
}

/// The shard, of so many, of a document, by the names of the shard keys.
pub(crate) fn shard_by(
    alloc: Global,
    document: &Value,
    keys: &Names,
    shards: u32,
) -> Result<u32, OutOfMemory>
    requires { 1 ≤ shards }
    ensures { IfOk result (λ shard. shard ≡ shard_by shards keys.now (datum_of document.now)) }
{
    let hash = document_hash(alloc, document, keys)?;
    Ok((hash % u64::from(shards)) as u32)
}

/// The server, of so many, that has a shard of a collection. It takes no memory.
pub fn server_of(coll: CollNo, shard: u32, servers: u32) -> u32
    requires { 1 ≤ servers }
    ensures { result ≡ server_of coll.0 shard servers }
{
    ((u64::from(coll.0) + u64::from(shard)) % u64::from(servers)) as u32
}
