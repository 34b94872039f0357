//! Worked estimates: the function's contract is a table of them.

ghost use Rattle.aql_opt.specs.Worked.{WorkedEstimates};

/// Plans with their estimates.
pub fn worked_estimates()
    ensures { WorkedEstimates }
{}
