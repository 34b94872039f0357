//! Rules on sorts, subqueries, what COLLECT sets and the order of FOR loops: each stands in the
//! file of the name that plans print. And whether a plan gives one row.
#![tactic(auto)]

mod inline_subqueries;
mod interchange_adjacent_enumerations;
mod readers;
mod remove_collect_variables;
mod remove_redundant_sorts;
mod sort_limit;
pub mod worked;

pub use inline_subqueries::{InlineSubqueries, is_single};
pub use interchange_adjacent_enumerations::candidates;
pub use remove_collect_variables::RemoveCollectVariables;
pub use remove_redundant_sorts::RemoveRedundantSorts;
pub use sort_limit::SortLimit;
