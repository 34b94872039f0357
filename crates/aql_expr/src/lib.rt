//! The value of an expression at a row of variables.
#![tactic(auto)]

mod contents;
mod evaluation;
mod paths;
mod quantifiers;
mod rows;

pub use evaluation::eval;
pub use paths::borrow;
pub use rows::RowView;
