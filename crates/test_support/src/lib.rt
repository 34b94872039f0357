//! What the crates of tests write texts with: pages, and trees in two notations.
#![tactic(auto)]

mod notation;
mod pages;
mod queries;
mod rewriting;

pub use notation::Notation;
pub use pages::Page;
pub use queries::{write_expr, write_names, write_query};
pub use rewriting::rewritten;
