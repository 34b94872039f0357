//! Sources and sinks of bytes, which count their faults.
//!
//! A program that reads by [`Source`] and writes by [`Sink`] can promise that it reports a failure
//! only where one came. In memory both fail where they are told to; over a real stream, where it
//! fails.
#![tactic(auto)]

mod asking;
mod memory;
mod ports;
mod streams;
mod whole;

pub use memory::{MemorySink, MemorySource};
pub use ports::{ReadFailed, Sink, Source, WriteFailed};
pub use streams::{StdSink, StdSource};
pub use whole::{ReadAllFault, read_all, write_all};
