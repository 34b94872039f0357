//! The laws of a plan's operators. Each function's contract is a law, and its body is empty.

ghost use Rattle.aql_engine.specs.Theorems.{OperatorsGiveRuns};
ghost use Rattle.aql_engine.specs.Theorems.{EachLinkIsOneRemote, EachLinkEnds};
ghost use Rattle.aql_engine.specs.Theorems.{ShapedOperatorsAreTree, PlainOperatorsAreTree};

/// What the operators of a plan produce from a row is a list of the plan.
pub fn operators_give_runs()
    ensures { OperatorsGiveRuns }
{}

/// The operators of a plan are a tree: of one that has a shape, and of one without fragments whose
/// nodes fit.
pub fn operators_are_tree()
    ensures shaped { ShapedOperatorsAreTree }
    ensures plain { PlainOperatorsAreTree }
{}

/// Where the plan of a run has no LIMIT, each link of its log stands for one Remote, and each Remote
/// has one; each ends in a reply that says Done, and nothing is in flight at the end.
pub fn links_are_remotes()
    ensures one { EachLinkIsOneRemote }
    ensures ends { EachLinkEnds }
{}
