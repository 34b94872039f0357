//! Blocks of rows by columns, and the calls, steps and tallies by which executors work.
#![tactic(auto)]

mod blocks;
mod calls;
mod columns;
mod rows;
mod tally;

pub use blocks::{Block, RowRef};
pub use calls::{Call, Progress, Step};
pub use rows::Row;
pub use tally::Tally;
