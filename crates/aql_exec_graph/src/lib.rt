//! The executor for a traversal.
#![tactic(auto)]

mod batch;
mod breadth_first;
mod depth_first;
mod ids;
mod lookups;
mod neighbours;
mod row_traversal;
mod rows;
mod search;
mod traversal;

pub use neighbours::{EdgeList, EdgeStep, Neighbours};
pub use search::Search;
pub use traversal::{Paths, Traversal};
