//! The aggregates of COLLECT: what each keeps of the members that it saw, one by one or by the
//! states of parts of them, and the law that the states of parts, joined, are the aggregate of all
//! members.
#![tactic(auto)]

mod accumulator;
mod choosing;
mod counting;
mod distinct;
mod elements;
mod joining;
mod kinds;
pub mod laws;
mod partial_counts;
mod staged;
mod staged_accumulator;
mod summing;

pub use accumulator::Accumulator;
pub use counting::{count_value, one_more, zero_count};
pub use joining::{JoinedCounts, JoinedSums, StateAccumulator, WideSum};
pub use kinds::{AggregateKind, aggregate_kind};
pub use staged::{StagedAccumulator, StagedKind};
pub use staged_accumulator::PartialAccumulator;
pub use summing::RunningSum;
