//! Parts of plan nodes that executors hold too.

use aql_tree::{Expr, UniqueEdges, UniqueVertices};

/// One end of a range.
pub struct Edge {
    pub expr: Expr,
    pub inclusive: bool,
}

/// The bound of the attribute that comes after the equalities of an index.
pub enum Last {
    /// There is none.
    None,
    /// One of the elements of an array.
    OneOf(Expr),
    /// A range with a low end, a high end, or both.
    Range {
        low: Option<Edge>,
        high: Option<Edge>,
    },
}

/// The options of a traversal, once they are read.
#[derive(Clone, Copy, Debug, PartialEq, Eq)]
pub struct TraversalOptions {
    pub edges: UniqueEdges,
    pub vertices: UniqueVertices,
    /// Breadth first in place of depth first.
    pub bfs: bool,
}

impl Drop for Edge {
    fn drop(self) {
        let Edge {
            expr: _,
            inclusive: _,
        } = self;
    }
}

impl Drop for Last {
    fn drop(self) {
        match self {
            Last::None | Last::OneOf(_) | Last::Range { low: _, high: _ } => {}
        }
    }
}
