//! Copies of the bounds of an index.

ghost use Rattle.std.specs.Prelude.{◌≡◌, IfOk, option_map};
ghost use Rattle.aql_meaning.specs.View.{end_tree, last_tree};

use aql_plan::{Edge, Last};
use aql_tree::copy_expr;
use aql_value::OutOfMemory;
use std::alloc::Global;

/// An equal bound.
pub fn copy_last(alloc: Global, last: &Last) -> Result<Last, OutOfMemory>
    ensures { IfOk result (λ l. last_tree l ≡ last_tree last.now) }
{
    match last {
        Last::None => Ok(Last::None),
        Last::OneOf(list) => Ok(Last::OneOf(copy_expr(alloc, list)?)),
        Last::Range { low, high } => {
            let low = copy_end(alloc, low)?;
            let high = copy_end(alloc, high)?;
            Ok(Last::Range { low, high })
        }
    }
}

fn copy_end(alloc: Global, end: &Option<Edge>) -> Result<Option<Edge>, OutOfMemory>
    ensures { IfOk result (λ e. option_map end_tree e ≡ option_map end_tree end.now) }
{
    match end {
        Some(end) => Ok(Some(Edge {
            expr: copy_expr(alloc, &end.expr)?,
            inclusive: end.inclusive,
        })),
        None => Ok(None),
    }
}
