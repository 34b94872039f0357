//! The grammar of queries as a relation between tokens and syntax trees, and the part of its parser
//! that holds no expression. `aql_parse` has the rest.
#![tactic(auto)]

mod cursor;
mod faults;
mod limits;
mod operators;
mod precedence;
mod traversals;

pub use cursor::Cursor;
pub use faults::ParseFault;
pub use limits::{Effect, has_too_many_marks, nests_too_deep};
pub use operators::{
    begins_clause, begins_quantifier, begins_query, begins_step, is_name, is_number, unary_at,
};
pub use precedence::Precedence;
pub use traversals::{Depth, TraversalNames};
