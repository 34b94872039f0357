//! Executors over the shards of a fragment: Scatter below its foot, the rows that came to a shard,
//! the two ends of a link, and Gather above it; and what any other executor needs to stand in it.
#![tactic(auto)]

mod blocks;
mod founded;
mod gather;
mod inner;
mod inputs;
mod keys;
mod local;
mod part;
mod parted;
mod queue;
mod queues;
mod remote;
mod routing;
mod scatter;
mod sorted_gather;
mod splits;

pub use blocks::{Blocks, Place};
pub use founded::Founded;
pub use gather::Gather;
pub use inner::{AboveFoot, Inner};
pub use local::Local;
pub use part::Part;
pub use parted::Parted;
pub use remote::Remote;
pub use scatter::Scatter;
pub use sorted_gather::SortedGather;
pub use splits::Splits;
