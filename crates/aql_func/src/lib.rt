//! AQL's operators and functions: their names, their arities and their values.
#![tactic(auto)]

mod aggregates;
mod arguments;
mod arithmetic;
mod arrays;
mod calls;
mod like;
mod lists;
mod names;
mod objects;
mod operators;
mod ranges;
mod sets;
mod signatures;
mod texts;
mod values;

pub use aql_value::{BinOp, UnaryOp};
pub use calls::call;
pub use names::{FuncName, arity, lookup};
pub use operators::{binary, unary};
pub use ranges::range;
pub use signatures::Arity;
