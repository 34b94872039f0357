//! A Gather over the fragments of its shards, and over the Scatter below them, as one executor.
#![tactic(auto)]

mod filling;
mod gather_node;
mod owners;
mod running;

pub use filling::begin_fragments;
pub use gather_node::GatherNode;
pub use owners::owner_of;
pub use running::run_gather;
