//! How the nodes of a plan read documents.

ghost use Rattle.std.specs.Prelude.{◌≡◌, IfOk};
ghost use Rattle.aql_tree.specs.declared.syntax.Ident.TheVariants.{Num};
ghost use Rattle.aql_plan.specs.View.{maybe_tree};
ghost use Rattle.aql_exec_scan.specs.Scans as scans;

use aql_exec_scan::Reading;
use aql_tree::{Expr, copy_maybe, copy_maybe_texts};
use aql_value::{CollNo, Names, OutOfMemory};
use std::alloc::Global;

/// How documents are read: a shard of them, or all.
pub fn reading_of(
    alloc: Global,
    var: u32,
    coll: CollNo,
    filter: &Option<Expr>,
    attrs: &Option<Names>,
    shard: Option<u32>,
) -> Result<Reading, OutOfMemory>
    ensures { IfOk result (λ r. scans.reading r ≡ record {
      var = Num var;
      coll = coll.0;
      filter = maybe_tree filter.now;
      attrs = attrs.now;
      shard = shard;
    }) }
{
    Ok(Reading {
        var,
        coll,
        filter: copy_maybe(alloc, filter)?,
        attrs: copy_maybe_texts(alloc, attrs)?,
        shard,
    })
}
