//! The executors that hold rows: SORT, and LET of a subquery.
//! The executor for COLLECT.
#![tactic(auto)]

mod collect;
mod frame;
mod group;
mod grouping;
mod groups;
mod keyed;
mod sort;
mod subquery;

pub use collect::{Collect, GroupRows};
pub use sort::{Order, Sort};
pub use subquery::{Subquery, add_results};
