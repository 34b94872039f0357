//! Rules on indexes: each stands in the file of the name that plans print.
#![tactic(auto)]

mod choice;
mod items;
pub mod laws;
mod readers;
mod remove_filter_covered_by_index;
mod use_index_for_sort;
mod use_indexes;

pub use items::{Item, item_of, parts_of, uses_variable};
pub use readers::attributes_of;
pub use remove_filter_covered_by_index::RemoveFilterCoveredByIndex;
pub use use_index_for_sort::UseIndexForSort;
pub use use_indexes::UseIndexes;
