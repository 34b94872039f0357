//! Executors that give several rows for a row: FOR over an array, and FOR over a collection, also
//! by an index.
#![tactic(auto)]

mod batch;
mod enumerate_collection;
mod enumerate_list;
mod index;
mod places;
mod reading;
mod shelf;
mod views;

pub use enumerate_collection::{Documents, EnumerateCollection};
pub use enumerate_list::{Elements, EnumerateList};
pub use index::{Found, Index};
pub use reading::Reading;
pub use shelf::Shelf;
