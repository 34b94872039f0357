//! Scoping: the first fault of a query in the order of its text, and the query whose names are
//! numbers and whose subqueries stand in LETs of their own.
//! What scoping makes of a query, and that the answers stay.
#![tactic(auto)]

mod checks;
mod clause_faults;
mod entering;
mod expr_faults;
mod faults;
pub mod laws;
mod lift_clauses;
mod lift_collect;
mod lift_exprs;
mod lift_options;
mod lift_traversals;
mod names;
mod numbers;
mod option_faults;
mod options;
mod scoping;
pub mod worked;

use aql_value::OutOfMemory;
pub use faults::ScopeFault;
pub use scoping::{Scoped, first_fault, lift, scope};

/// What is made, unless memory runs out.
type Made<T> = Result<T, OutOfMemory>;
