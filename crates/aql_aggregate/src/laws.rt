//! The laws of this crate: each function's contract is one of them, and its body is empty.

ghost use Rattle.aql_aggregate.specs.Theorems.{JoinedStatesAreAggregates, OrderIsFree};
ghost use Rattle.aql_aggregate.specs.Theorems.{StatesAreValues, TwoStagesAreOne};

/// The states of any parts of a list of members, joined, are the aggregate of the whole list.
pub fn joined_states_are_aggregates()
    ensures { JoinedStatesAreAggregates }
{}

/// An aggregate does not look at the order of the members.
pub fn order_is_free()
    ensures { OrderIsFree }
{}

/// Of members that are values of the program, each state is one.
pub fn states_are_values()
    ensures { StatesAreValues }
{}

/// A COLLECT without INTO in two stages is that COLLECT.
pub fn two_stages_are_one()
    ensures { TwoStagesAreOne }
{}
