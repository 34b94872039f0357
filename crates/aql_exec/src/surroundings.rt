//! What is about a feed, as the laws see it.

ghost use Rattle.std.specs.Prelude.{ℕ};
ghost use Rattle.aql_plan.specs.Runs.{Dataset};
ghost use Rattle.aql_block.specs.declared.tally.Tally.{Tally};
ghost use Rattle.aql_exec.specs.Lines.{Line, Deliveries};

/// What is about a feed: documents, counts, links and the batch of its run.
pub trait Surroundings {
    /// the documents, which no feed changes
    ghost stock: { Self → Dataset };

    /// what the servers have counted themselves
    ghost counted: { Self → Tally };

    /// how many links there are
    ghost links: { Self → ℕ };

    /// what was said last on each link, and what is in flight on it
    ghost flight: { Self → ℕ → Line };

    /// the deliveries so far, which no feed adds to
    ghost deliveries: { Self → Deliveries };

    /// how many rows an ask on a link may want at a time
    ghost batch: { Self → ℕ };
}
