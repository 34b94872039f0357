//! What a query means.
#![tactic(auto)]

mod grouping;
pub mod laws;
mod nodes;
mod variables;
pub mod worked;

pub use aql_tree::{
    AggregateItem, Aggregates, Clause, Clauses, Collect, Direction, Expr, Exprs, Field, Fields,
    Ident, Into, Key, Keys, Let, Lets, Link, Links, Options, QuantKind, Query, Step, Steps,
    Traversal, UniqueEdges, UniqueVertices,
};
pub use grouping::Stage;
pub use nodes::{Edge, Last, TraversalOptions};
pub use variables::same_variable;
