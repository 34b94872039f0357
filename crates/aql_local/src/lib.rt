//! The engine that runs plans on this machine: the executors of a plan's nodes as a tree, and a run
//! of it.
//! The world that plans run in: servers with their documents, and the messages between them.
//! Lookups of edges by their ends and of documents by their ids, through the indexes that servers
//! keep.
#![tactic(auto)]

mod bounds;
mod building;
mod documents;
mod edge_steps;
mod fragments;
mod gathers;
mod local;
mod lookups;
mod nodes;
mod plans;
mod reach;
mod readings;
mod results;
mod settings;
mod shard_nodes;
mod transforms;
mod whole;
mod world;

pub use building::{PlanExecutor, tree_of};
pub use documents::document_of;
pub use edge_steps::edges_at;
pub use fragments::{ShardExecutor, below_foot, foot_of, tree_on_shard, trees_on_shards};
pub use local::Local;
pub use plans::run_plan;
pub use reach::{recall_few_shards, shards_reached};
pub use results::results_of;
pub use shard_nodes::{OnShard, UnlinkedShardExecutor};
pub use world::World;
