//! Which rows come to which shard.

ghost use Rattle.std.specs.Prelude.{◌≡◌, ◌<◌, ◌≤◌, ◌-◌, length, take, drop, IfOk, true};
ghost use Rattle.std.specs.List.{All};
ghost use Rattle.aql_value.specs.Shards.{shard_of};
ghost use Rattle.aql_meaning.specs.Plain.{AllPlain};
ghost use Rattle.aql_meaning.specs.AtRows.{keys_of};
ghost use Rattle.aql_plan.specs.View.{expr_trees};
ghost use Rattle.aql_block.specs.Rows.{row_of};
ghost use Rattle.aql_block.specs.Tables.{rows_of};
ghost use Rattle.aql_exec_cluster.specs.Routings.{KeysPlain, comes_to, rows_to, rows_at_places, is_to_all};

use aql_block::{Block, RowRef};
use aql_expr::eval;
use aql_tree::{Expr, Exprs};
use aql_value::{Items, OutOfMemory, shard_hash};
use std::alloc::Global;

/// Which rows come to a shard.
#[derive(Drop)]
pub(crate) enum Routing {
    /// All, to each shard of a collection, or to one of them.
    ToAll(Option<u32>),
    /// Those whose values of these keys belong there.
    ByKeys(Exprs),
}

/// A shard, of so many.
#[derive(Clone, Copy, Debug)]
pub(crate) struct Target {
    pub(crate) shard: u32,
    pub(crate) shards: usize,
}

impl Routing {
    /// Whether all rows come to each shard.
    pub(crate) fn is_to_all(&self) -> bool
        ensures { result ≡ is_to_all self.now }
    {
        matches!(self, Routing::ToAll(_))
    }

    // Whether a row comes to a shard.
    fn sends(&self, alloc: Global, row: &RowRef<'_>, target: Target) -> Result<bool, OutOfMemory>
        requires plain { KeysPlain self.now }
        requires some { 1 ≤ target.shards }
        ensures { IfOk result (λ comes. comes ≡ comes_to self.now target (row_of row.now)) }
    {
        match self {
            Routing::ToAll(_) => Ok(true),
            Routing::ByKeys(keys) => {
                let values = values_at(alloc, keys.as_slice(), row)?;
                let shard = shard_among(alloc, &values, target.shards)?;
                Ok(shard == u64::from(target.shard))
            }
        }
    }

    /// The places, from one to another, of the rows of a block that come to a shard.
    pub(crate) fn places(
        &self,
        alloc: Global,
        block: &Block,
        from: u32,
        end: u32,
        target: Target,
    ) -> Result<Vec<u32>, OutOfMemory>
        requires plain { KeysPlain self.now }
        requires some { 1 ≤ target.shards }
        requires range { (from ≤ end) × (end ≤ length (rows_of block.now)) }
        ensures within { IfOk result
            (λ places. All (λ at. at < length (rows_of block.now)) places.items) }
        ensures few { IfOk result (λ places. length places.items ≤ end - from) }
        ensures rows { IfOk result (λ places. rows_at_places (rows_of block.now) places.items
            ≡ rows_to self.now target (take (end - from) (drop from (rows_of block.now)))) }
    {
        let mut places = Vec::new(alloc);
        for at in from..end {
            let Some(row) = block.row(at) else {
                unreachable!()
            };
            if self.sends(alloc, &row, target)? {
                places.push(at)?;
            }
        }
        Ok(places)
    }
}

// The values of the keys at a row, as an array has them.
fn values_at(alloc: Global, keys: &[Expr], row: &RowRef<'_>) -> Result<Items, OutOfMemory>
    requires { AllPlain (expr_trees keys.now) }
    ensures { IfOk result (λ values. values ≡ keys_of (expr_trees keys.now) (row_of row.now)) }
{
    let mut values = Items::new(alloc);
    for key in keys {
        values.push(eval(alloc, key, row)?)?;
    }
    Ok(values)
}

// The shard of these values, of so many.
fn shard_among(alloc: Global, values: &Items, shards: usize) -> Result<u64, OutOfMemory>
    requires { 1 ≤ shards }
    ensures { IfOk result (λ shard. shard ≡ shard_of shards values.now) }
{
    let hash = shard_hash(alloc, values)?;
    Ok(hash % shards as u64)
}
