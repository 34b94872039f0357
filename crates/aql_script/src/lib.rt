//! Scripts: the collections with their documents, and the text of a query.
//!
//! A script is a list of lines. `%document` and `%edge` declare collections, `%index` declares a
//! sorted index, and a line that begins with no `%` is a document of the collection declared last.
//! After the line `%query` stands the text of the query.
#![tactic(auto)]

mod directives;
mod faults;
mod line;
mod loading;
mod names;
mod options;
mod pieces;
mod texts;

pub use faults::{LimitKind, LineKind, LoadFault};
pub use loading::{Loaded, bytes_have_no_other_fault, load, load_bytes};
pub use texts::{fault_text, limit_text};
