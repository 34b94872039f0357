//! Laws of rules for a cluster, as functions without a body.

ghost use Rattle.aql_rules_cluster.specs.Theorems.{NoPlaceMeansOnShards};

/// In a well-formed plan scatter-in-cluster has no place exactly where, if there is a server, each
/// node that reads a collection stands in a fragment.
pub fn no_place_means_on_shards()
    ensures { NoPlaceMeansOnShards }
{}
