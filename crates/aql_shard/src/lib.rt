//! The documents of a catalog and their indexes, as the modelled database servers hold them.
#![tactic(auto)]

mod collections;
mod known;
pub mod laws;
mod parts;
mod servers;
mod shapes;
mod sharding;

pub use servers::{Servers, split};
pub use sharding::{server_of, shard_of};
