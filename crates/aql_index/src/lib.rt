//! Indexes over the documents of a collection: lookups by one attribute, and sorted indexes.
#![tactic(auto)]

mod bounds;
mod dealing;
mod entries;
mod groups;
mod guesses;
mod keys;
pub mod laws;
mod lookup;
mod numbers;
mod sorted_index;
mod spans;

pub use bounds::{Bound, Span};
pub use guesses::{documents_in, guess, literal_elements};
pub use lookup::Lookup;
pub use sorted_index::{SortedIndex, spans_of};
pub use spans::Spans;
