//! What a part of a plan is.

use aql_tree::{AggregateItem, Key, Let};
use aql_value::{CollNo, Text};

/// The order of the rows of a fragment on each shard.
#[derive(Clone, Copy)]
pub(crate) enum Order<'a> {
    Unordered,
    /// By the keys of a Sort.
    Keys(&'a [Key]),
    /// By the attributes of an index, of the documents under a variable.
    Attributes {
        var: u32,
        names: &'a [Text],
        descending: bool,
    },
}

/// What the states of a partial Collect are of.
#[derive(Clone, Copy)]
pub(crate) struct States<'a> {
    pub groups: &'a [Let],
    pub aggregates: &'a [AggregateItem],
}

/// What a part of a plan is.
#[derive(Clone, Copy)]
pub(crate) enum Shape<'a> {
    /// Rows outside fragments, and whether they are a single one.
    Rows(bool),
    /// The foot of a fragment, by its collection and whether its input is a single row.
    Foot(CollNo, bool),
    /// A fragment, by its order.
    Fragment(Order<'a>),
    /// The states of a partial Collect on each shard, and those of all shards.
    States(States<'a>),
    AllStates(States<'a>),
    /// What comes over a link: to the foot, or from a fragment.
    SentFoot(CollNo, bool),
    SentFragment(Order<'a>),
    SentStates(States<'a>),
    /// The values of a Return.
    Result,
}
