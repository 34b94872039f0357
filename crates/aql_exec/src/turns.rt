//! What an executor answers to a turn, and what goes over a link.

use aql_block::{Call, Row, Step};

/// The answer of an executor to a turn.
#[derive(Drop)]
pub enum Turn {
    /// This input is to be pulled with this call, and its step handed over.
    Ask { input: u32, call: Call },
    /// This input is to begin again, from this row.
    Start { input: u32, row: Row },
    /// The answer to the call.
    Give(Step),
}

/// A message on a link between two servers.
#[derive(Drop)]
pub enum Message {
    Ask(Call),
    Reply(Step),
}
