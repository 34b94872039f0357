//! The tree of a plan. Every node but `Singleton` has its input, `below`.

ghost use Rattle.std.specs.Prelude.{◌≡◌, MatchOption};
ghost use Rattle.aql_plan.specs.Plan as spec;
ghost use Rattle.aql_plan.specs.View.{plan_tree};

use aql_meaning::{Edge, Last, Stage, TraversalOptions};
use aql_tree::{Aggregates, Direction, Expr, Exprs, Into, Keys, Lets};
use aql_value::{CollNo, CollNos, Names, Seq};

/// A plan: a node over its input. It takes the rows of its input and gives rows;
/// docs/ARCHITECTURE.md says where their meaning stands. Variables are numbers from 1 on.
pub enum Plan {
    /// The one row that the plan starts from.
    Singleton,
    /// A node without a body.
    Over {
        below: Box<Plan>,
        node: Box<Node>,
    },
    /// Each row with the array of what the body gives from it.
    Subquery {
        below: Box<Plan>,
        var: u32,
        body: Box<Plan>,
    },
}

/// A node without a body.
pub enum Node {
    /// Each row with each document of a collection that passes the filter, in any order.
    EnumerateCollection {
        var: u32,
        coll: CollNo,
        filter: Option<Expr>,
        /// The attributes that are kept of a document, once it passed; all where there are none.
        attrs: Option<Names>,
        /// The shard that is read, where it is not that of the fragment.
        shard: Option<u32>,
    },
    /// The same for the documents in the bounds of an index, in its order where that is asked for.
    Index {
        var: u32,
        coll: CollNo,
        filter: Option<Expr>,
        attrs: Option<Names>,
        shard: Option<u32>,
        index: u32,
        /// The values of the first attributes.
        equal: Exprs,
        last: Last,
        /// In the order of the index; `true` is against it.
        ordered: Option<bool>,
    },
    /// Each row with each element of an array, in order.
    EnumerateList {
        var: u32,
        list: Expr,
    },
    /// Each row with each path that is walked from its start and passes the filter, in any order.
    Traversal {
        vertex: u32,
        edge: Option<u32>,
        path: Option<u32>,
        min: u32,
        max: u32,
        direction: Direction,
        start: Expr,
        collections: CollNos,
        prune: Option<Expr>,
        options: TraversalOptions,
        filter: Option<Expr>,
    },
    /// Each row with the value of an expression: LET.
    Calculation {
        var: u32,
        expr: Expr,
    },
    /// The rows at which a condition holds: FILTER.
    Filter {
        cond: Expr,
    },
    /// The rows in the order of their keys, or the first of these: SORT.
    Sort {
        keys: Keys,
        limit: Option<u64>,
    },
    /// At most `count` rows after the first `offset`: LIMIT.
    Limit {
        offset: u64,
        count: u64,
    },
    /// A row for each class of rows with equal criteria: COLLECT, or one of its two stages.
    Collect {
        groups: Lets,
        aggregates: Aggregates,
        into: Option<Into>,
        stage: Stage,
    },
    /// The values of an expression, with `distinct` each once: RETURN.
    Return {
        expr: Expr,
        distinct: bool,
    },
    /// No row; the input isn't asked for any.
    NoResults,
    /// The foot of a fragment: all rows to each shard of a collection, or to one shard of it.
    Scatter {
        coll: CollNo,
        only: Option<u32>,
    },
    /// The foot of a fragment: each row to the shard that its values of the shard keys choose.
    Distribute {
        coll: CollNo,
        exprs: Exprs,
    },
    /// The rows of its input, over a link.
    Remote,
    /// The lists of all shards as one: interleaved, or merged by keys.
    Gather {
        order: Keys,
    },
}

// Written, and not derived: a derived drop is written out in each crate that lets a plan go, at
// each place, a case for each node.
impl Drop for Node {
    fn drop(self) {
        match self {
            Node::EnumerateCollection {
                var: _,
                coll: _,
                filter: _,
                attrs: _,
                shard: _,
            }
            | Node::Index {
                var: _,
                coll: _,
                filter: _,
                attrs: _,
                shard: _,
                index: _,
                equal: _,
                last: _,
                ordered: _,
            }
            | Node::EnumerateList { var: _, list: _ }
            | Node::Traversal {
                vertex: _,
                edge: _,
                path: _,
                min: _,
                max: _,
                direction: _,
                start: _,
                collections: _,
                prune: _,
                options: _,
                filter: _,
            }
            | Node::Calculation { var: _, expr: _ }
            | Node::Filter { cond: _ }
            | Node::Sort { keys: _, limit: _ }
            | Node::Limit {
                offset: _,
                count: _,
            }
            | Node::Collect {
                groups: _,
                aggregates: _,
                into: _,
                stage: _,
            }
            | Node::Return {
                expr: _,
                distinct: _,
            }
            | Node::NoResults
            | Node::Scatter { coll: _, only: _ }
            | Node::Distribute { coll: _, exprs: _ }
            | Node::Remote
            | Node::Gather { order: _ } => {}
        }
    }
}

impl Drop for Plan {
    #[cycle(drop)]
    fn drop(self) {
        match self {
            Plan::Singleton
            | Plan::Over { below: _, node: _ }
            | Plan::Subquery {
                below: _,
                var: _,
                body: _,
            } => {}
        }
    }
}

/// A list of plans.
pub type Plans = Seq<Plan>;

/// What a pass of a rule gives: the plan, and whether the rule applied at least once.
#[derive(Drop)]
pub struct Passed {
    pub plan: Plan,
    pub changed: bool,
}

impl Plan {
    /// The input of the node; `None` exactly at `Singleton`.
    pub fn below(&self) -> Option<&Plan>
        ensures { MatchOption result (plan_tree self.now ≡ spec.Singleton)
            (λ b. plan_tree self.now
            ≡ spec.Over (plan_tree b.now) (spec.top (plan_tree self.now))) }
    {
        match self {
            Plan::Singleton => None,
            Plan::Over { below, .. } => Some(below),
            Plan::Subquery { below, .. } => Some(below),
        }
    }
}
