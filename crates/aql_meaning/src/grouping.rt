/// Which part of its work a COLLECT does. Where rows lie on several shards, each shard groups its
/// own rows first, and one final COLLECT joins what the shards hand on.
#[derive(Clone, Copy, Debug, PartialEq, Eq)]
pub enum Stage {
    /// All of it: from rows to the row of each group.
    Whole,
    /// For each group of a part of the rows its criteria, and a state of each aggregate.
    Partial,
    /// From such rows to the row of each group.
    Final,
}
