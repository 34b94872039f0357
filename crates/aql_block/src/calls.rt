//! What executors ask of their inputs, and what is answered.

use crate::Block;

/// Asks for rows: `offset` rows are to be skipped first, at most `soft` rows are to come with this
/// answer, and at most `hard` will ever be wanted after those skipped. A call that may be made has
/// `soft` from 1 to 10,000 and at most `hard`.
#[derive(Clone, Copy, Debug, PartialEq, Eq)]
pub struct Call {
    pub offset: u64,
    pub soft: u64,
    pub hard: u64,
}

/// How things stand after a step.
#[derive(Clone, Copy, Debug, PartialEq, Eq)]
pub enum Progress {
    /// A message that was asked for is in flight.
    Waiting,
    /// There may be more: the step has at least one row or one skip.
    HasMore,
    /// Nothing more comes, or all that was wanted has come.
    Done,
}

/// What comes for a call: how many rows were skipped, then rows.
#[derive(Drop)]
pub struct Step {
    pub skipped: u64,
    pub block: Block,
    pub progress: Progress,
}
