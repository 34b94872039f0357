//! Rules for a cluster: each stands in the file of the name that plans print.
#![tactic(auto)]

mod bottoms;
mod cluster_pass;
mod collect_in_cluster;
mod distribute_filtercalc_to_cluster;
mod distribute_in_cluster;
mod distribute_sort_to_cluster;
mod fragments;
mod gathers;
mod groupings;
mod joinings;
mod key_items;
pub mod laws;
mod remove_unnecessary_remote_scatter;
mod restrict_to_single_shard;
mod scatter_in_cluster;
mod single_shards;
mod sortings;

pub use collect_in_cluster::{CollectInCluster, run_collect_pass};
pub use distribute_filtercalc_to_cluster::{DistributeFiltercalcToCluster, run_filtercalc_pass};
pub use distribute_in_cluster::{DistributeInCluster, run_distribute_pass};
pub use distribute_sort_to_cluster::{DistributeSortToCluster, run_sort_pass};
pub use remove_unnecessary_remote_scatter::{RemoveUnnecessaryRemoteScatter, run_join_pass};
pub use restrict_to_single_shard::{RestrictToSingleShard, run_restrict_pass};
pub use scatter_in_cluster::{ScatterInCluster, run_scatter_pass};
