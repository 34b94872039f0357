//! Rules on filters: each stands in the file of the name that plans print. And what other rules see
//! of a Filter.
#![tactic(auto)]

mod conditions;
mod fuse_filters;
mod move_filters_into_enumerate;
mod move_filters_up;
mod optimize_traversals;
mod readers;
mod remove_unnecessary_filters;
mod swapping;

pub use fuse_filters::FuseFilters;
pub use move_filters_into_enumerate::MoveFiltersIntoEnumerate;
pub use move_filters_up::MoveFiltersUp;
pub use optimize_traversals::OptimizeTraversals;
pub use readers::{filter_of, take_filter};
pub use remove_unnecessary_filters::RemoveUnnecessaryFilters;
