//! The aggregates of a Collect.

ghost use Rattle.std.specs.Prelude.{◌↔◌, IsTrue, map, option_map};
ghost use Rattle.aql_tree.specs.View.{tree, maybe, aggregates as aggregate_trees, aggregate_part, into_part, into_tree};
ghost use Rattle.aql_meaning.specs.Lifted.{IntoPlain};
ghost use Rattle.aql_aggregate.specs.View.{aggregate_of};
ghost use Rattle.aql_plan.specs.Fits.{HasArgument, AllKnown};
ghost use Rattle.aql_plan_check.specs.inner.Sameness.{IsKnown};

use crate::plain::{is_plain, maybe_plain};
use aql_aggregate::{AggregateKind, aggregate_kind};
use aql_tree::{AggregateItem, Expr, Into};

fn has_argument(kind: AggregateKind, arg: &Option<Expr>) -> bool
    ensures { IsTrue result ↔ HasArgument (aggregate_of kind) (maybe (option_map tree arg.now)) }
{
    match (kind, arg) {
        (AggregateKind::Count, arg) => maybe_plain(arg),
        (_, Some(arg)) => is_plain(arg),
        (_, None) => false,
    }
}

fn is_known(aggregate: &AggregateItem) -> bool
    ensures { IsTrue result ↔ IsKnown (aggregate_part aggregate.now) }
{
    match aggregate_kind(aggregate.name.as_str()) {
        Some(kind) => has_argument(kind, &aggregate.arg),
        None => false,
    }
}

/// Whether each aggregate is known and has its argument, without a subquery.
pub(crate) fn all_known(all: &[AggregateItem]) -> bool
    ensures { IsTrue result ↔ AllKnown (aggregate_trees (map aggregate_part all.now)) }
{
    for aggregate in all {
        if !is_known(aggregate) {
            return false;
        }
    }
    true
}

/// Whether INTO has its expression, without a subquery, if there is INTO.
pub(crate) fn into_plain(into: &Option<Into>) -> bool
    ensures { IsTrue result ↔ IntoPlain (into_tree (option_map into_part into.now)) }
{
    match into {
        None => true,
        Some(into) => into.what.is_some() && maybe_plain(&into.what),
    }
}
