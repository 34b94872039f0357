//! The law of this crate: the function's contract is the law, and its body is empty.

ghost use Rattle.aql_shard.specs.Theorem.{FactsFit};

/// What is known of a catalog fits plans.
pub fn facts_fit()
    ensures { FactsFit }
{}
