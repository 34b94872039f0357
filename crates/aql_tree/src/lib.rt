//! The syntax trees of queries: expressions, clauses and whole queries, as the parser makes them
//! and every later part reads them; and copies of their parts.
#![tactic(auto)]

mod copying;
mod nodes;
mod syntax;

pub use copying::{
    copy_aggregates, copy_colls, copy_expr, copy_exprs, copy_ident, copy_into, copy_keys,
    copy_lets, copy_maybe, copy_maybe_ident, copy_maybe_texts, copy_options, copy_texts,
};
pub use syntax::{
    AggregateItem, Aggregates, Clause, Clauses, Collect, Direction, Expr, Exprs, Field, Fields,
    Ident, Into, Key, Keys, Let, Lets, Link, Links, Options, QuantKind, Query, Step, Steps,
    Traversal, UniqueEdges, UniqueVertices,
};
