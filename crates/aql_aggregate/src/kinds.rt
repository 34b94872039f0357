//! The aggregates and their names.

ghost use Rattle.std.specs.Prelude.{◌≡◌, option_map};
ghost use Rattle.std.specs.Str.{str_eq_ignore_ascii_case};
ghost use Rattle.aql_func.specs.Aggregates.{aggregate_named};
ghost use Rattle.aql_aggregate.specs.View.{aggregate_of};

/// An aggregate.
#[derive(Clone, Copy, Debug, PartialEq, Eq)]
pub enum AggregateKind {
    /// How many members there are: `LENGTH` and `COUNT`.
    Count,
    /// The sum of the members that are numbers.
    Sum,
    /// The least member that isn't null.
    Min,
    /// The greatest member that isn't null.
    Max,
    /// The distinct members in ascending order.
    SortedUnique,
    /// How many distinct members there are.
    CountDistinct,
}

// Whether a name is this one, in any letter case.
fn is_called(name: &str, meant: &str) -> bool
    ensures { result ≡ str_eq_ignore_ascii_case meant.now name.now }
{
    meant.eq_ignore_ascii_case(name)
}

/// The aggregate of a name, in any letter case.
#[tactic(auto, using(crate::proofs::Names::no_aggregate))]
pub fn aggregate_kind(name: &str) -> Option<AggregateKind>
    ensures { option_map aggregate_of result ≡ aggregate_named name.now }
{
    if is_called(name, "LENGTH") {
        return Some(AggregateKind::Count);
    }
    if is_called(name, "COUNT") {
        return Some(AggregateKind::Count);
    }
    if is_called(name, "SUM") {
        return Some(AggregateKind::Sum);
    }
    if is_called(name, "MIN") {
        return Some(AggregateKind::Min);
    }
    if is_called(name, "MAX") {
        return Some(AggregateKind::Max);
    }
    if is_called(name, "SORTED_UNIQUE") {
        return Some(AggregateKind::SortedUnique);
    }
    if is_called(name, "COUNT_DISTINCT") {
        return Some(AggregateKind::CountDistinct);
    }
    None
}
