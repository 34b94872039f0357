//! Rows that PRUNE and a filter judge.

ghost use Rattle.std.specs.Prelude.{◌≡◌, None, Some, IfOk, map, filter, option_to_list, ◌∷◌, [], ◌<◌};
ghost use Rattle.aql_meaning.specs.Plain.{MaybePlain};
ghost use Rattle.aql_meaning.specs.AtRows.{passes, stops};
ghost use Rattle.aql_plan.specs.View.{maybe_tree};
ghost use Rattle.aql_block.specs.Rows.{row_of};
ghost use Rattle.aql_block.specs.declared.tally.Tally.{Tally};
ghost use Rattle.aql_exec_graph.specs.Ledgers.{ledger};
ghost use Rattle.aql_exec_graph.specs.Searches.{Judged};

use aql_block::{Row, Tally};
use aql_expr::eval;
use aql_tree::Expr;
use aql_value::{OutOfMemory, truthy};
use std::alloc::Global;

// Whether PRUNE stops a traversal at a row; where there is none, it goes on.
pub(crate) fn stops(alloc: Global, prune: &Option<Expr>, row: &Row) -> Result<bool, OutOfMemory>
    requires { MaybePlain (maybe_tree prune.now) }
    ensures { IfOk result (λ b. b ≡ stops (maybe_tree prune.now) (row_of row.now)) }
{
    match prune {
        None => Ok(false),
        Some(prune) => {
            let value = eval(alloc, prune, row)?;
            Ok(truthy(&value))
        }
    }
}

// Whether the filter lets a row pass; where there is none, each row passes.
fn passes(alloc: Global, filter: &Option<Expr>, row: &Row) -> Result<bool, OutOfMemory>
    requires { MaybePlain (maybe_tree filter.now) }
    ensures { IfOk result (λ b. b ≡ passes (maybe_tree filter.now) (row_of row.now)) }
{
    match filter {
        None => Ok(true),
        Some(filter) => {
            let value = eval(alloc, filter, row)?;
            Ok(truthy(&value))
        }
    }
}

// The row, where the filter lets it pass; else it is counted as one that was dropped.
pub(crate) fn judge(
    alloc: Global,
    filter: &Option<Expr>,
    row: Row,
    tally: &mut Tally,
) -> Result<Option<Row>, OutOfMemory>
    requires { MaybePlain (maybe_tree filter.now) }
    ensures { IfOk result (λ kept.
        (own : Tally) → Judged (maybe_tree filter.now) 0 (row_of row ∷ [])
        (map row_of (option_to_list kept)) (ledger tally.old own) (ledger tally.new own)) }
{
    let _filtered = tally.filtered;
    if passes(alloc, filter, &row)? {
        return Ok(Some(row));
    }
    tally.add_filtered(1);
    Ok(None)
}
