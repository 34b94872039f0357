//! The catalog: the collections that a script declares, their indexes and their documents.
//!
//! What is refused leaves the catalog as it was, and each refusal has its exact cause.
#![tactic(auto)]

mod catalog;
mod collection;
mod document;
mod faults;
mod info;
mod keys;
mod limits;

pub use catalog::Catalog;
pub use faults::{CatalogFault, DocFault};
pub use info::{CollInfo, IndexLists};
