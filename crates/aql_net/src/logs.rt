//! The log of the messages that were sent and taken.

ghost use Rattle.std.specs.Prelude.{◌≡◌, length, slice_get, option_copied};
ghost use Rattle.aql_net.specs.Logs.{sort_of};

use aql_block::{Call, Progress};
use aql_exec::Message;
use std::marker::Model;

/// What a message says, without its rows.
#[derive(Clone, Copy, Debug, PartialEq, Eq)]
pub enum Sort {
    Ask(Call),
    /// How many rows were skipped, and how many came.
    Reply {
        skipped: u64,
        rows: u64,
        progress: Progress,
    },
}

/// An entry of a log: a message was sent on a link, or taken off it.
#[derive(Clone, Copy, Debug, PartialEq, Eq)]
pub enum LogEntry {
    Sent { number: u64, link: u64, what: Sort },
    Taken { number: u64 },
}

/// A log. Contracts see it as the list of its entries.
#[derive(Drop)]
pub struct Log {
    entries: Vec<LogEntry>,
}

impl Model for Log {
    ghost use Rattle.std.specs.Prelude.{List};
    ghost use Rattle.aql_net.specs.declared.logs.LogEntry.{LogEntry};

    ghost Value = { List LogEntry };

    ghost view = { λ a. a.entries.items };
}

impl Log {
    /// A log with these entries.
    pub(crate) fn from_entries(entries: Vec<LogEntry>) -> Log
        ensures { result ≡ entries.items }
    {
        Log { entries }
    }

    /// How many entries it has.
    pub fn len(&self) -> usize
        ensures { result ≡ length self.now }
    {
        self.entries.len()
    }

    /// The entry at a place, counted from 0; `None` exactly where there is none.
    pub fn get(&self, at: usize) -> Option<&LogEntry>
        ensures { option_copied result ≡ slice_get self.now at }
    {
        self.entries.get(at)
    }

    /// The entries, borrowed.
    pub fn as_slice(&self) -> &[LogEntry]
        ensures { result.now ≡ self.now }
    {
        self.entries.as_slice()
    }
}

/// What a message says, without its rows.
pub(crate) fn sort_of(message: &Message) -> Sort
    ensures { result ≡ sort_of message.now }
{
    match message {
        Message::Ask(call) => Sort::Ask(*call),
        Message::Reply(step) => Sort::Reply {
            skipped: step.skipped,
            rows: u64::from(step.block.len()),
            progress: step.progress,
        },
    }
}
