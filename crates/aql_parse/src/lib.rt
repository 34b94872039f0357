//! The parser: from tokens to the syntax tree of the query that they spell.
#![tactic(auto)]

mod clauses;
mod collect;
mod depths;
mod objects;
mod operators;
mod parser;
mod parsing;
mod primaries;
mod query;
mod steps;
mod traversals;

pub use aql_grammar::ParseFault;
pub use parsing::{one_tree, parse};
