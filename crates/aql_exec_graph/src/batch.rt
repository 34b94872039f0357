//! How much is given at a time.

/// The most rows of a block, as many as a call may ask for.
pub(crate) const MOST_ROWS: u64 = 10_000;
