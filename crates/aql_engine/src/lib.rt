//! Engines: what runs plans, and what they promise of a run. The operators that a plan stands for,
//! the tree that drives its executors, deliveries of messages to it, and a run of it to its end.
#![tactic(auto)]

mod choice;
mod deliveries;
mod engine;
pub mod laws;
mod run;
mod tree;

pub use choice::Choice;
pub use engine::{Engine, Ran, Rans};
pub use run::{deliver_one, run_feed};
pub use tree::Tree;
